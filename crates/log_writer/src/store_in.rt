// A store into the save device of a database's devices, recorded beside them.
ghost use Rattle.std.specs.Prelude.{◌≡◌, ◌≢◌, ◌+◌, ◌≤◌, [], ◌∷◌, ◌++◌, Some, None, Err, OnOk, OnErr};
ghost use Rattle.log_writer.specs.Counted.{AreCounted};
ghost use Rattle.log_writer.specs.Points.{IsSaved, sequence_of};
ghost use Rattle.log_writer.specs.Save.{IsStored};
ghost use Rattle.log_writer.specs.Stores.{Stores};

use crate::{Save, SaveFault, Saved, Tie, Vault};
use outside::Disk;

impl Save {
    /// `store` on the save device of the vault, which records a tie for each store that was begun:
    /// its sequence, the moment of `snaps` as it began, and, where it answered `Ok`, the moment of
    /// `save` at which it had ended. What it counts of the log files is durable then, so that a stop at
    /// any instant since finds it; it stays so until a log file is cut.
    pub fn store_in<D: Disk>(&mut self, vault: &mut Vault<D>, saved: Saved) -> Result<(), SaveFault>
        requires saved { IsSaved saved }
        requires stored { self.old.down ≡ None
            → IsStored D.tells D.clock D.image_at vault.old.save self.old.newest }
        requires counted { AreCounted D.tells D.clock D.image_at saved.lengths vault.old }
        requires room { 1 ≤ vault.old.ties.room }
        ensures stores { Stores D.tells D.clock D.image_at D.faults saved
            self.old self.new vault.old.save vault.new.save result }
        ensures tied { OnOk result (vault.new.ties.items ≡ vault.old.ties.items
            ++ record {
              sequence = sequence_of self.old.newest + 1;
              snaps = D.clock vault.old.snaps;
              ended = Some (D.clock vault.new.save);
            } ∷ []) }
        ensures begun { result ≡ Err SaveFault.Device → vault.new.ties.items ≡ vault.old.ties.items
            ++ record {
              sequence = sequence_of self.old.newest + 1;
              snaps = D.clock vault.old.snaps;
              ended = None;
            } ∷ [] }
        ensures untied { result ≢ Err SaveFault.Device → OnErr result (vault.new ≡ vault.old) }
        ensures room { vault.old.ties.room ≤ vault.new.ties.room + 1 }
        ensures others { (vault.new.snaps ≡ vault.old.snaps) × (vault.new.even ≡ vault.old.even)
            × (vault.new.odd ≡ vault.old.odd) × (vault.new.cuts ≡ vault.old.cuts) }
    {
        let sequence = self.sequence();
        let snaps = vault.snaps.clock();
        match self.store(&mut vault.save, saved) {
            Ok(()) => {
                let ended = Some(vault.save.clock());
                vault.ties.push(Tie {
                    sequence: sequence + 1,
                    snaps,
                    ended,
                });
                Ok(())
            }
            Err(SaveFault::Device) => {
                vault.ties.push(Tie {
                    sequence: sequence + 1,
                    snaps,
                    ended: None,
                });
                Err(SaveFault::Device)
            }
            Err(fault) => Err(fault),
        }
    }
}
