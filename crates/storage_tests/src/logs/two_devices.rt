// A log file and the savepoint that counts it, on two devices: each call speaks of one of them, and
// what a stop leaves of both is put together from a moment of each.
ghost use Rattle.std.specs.Prelude.{◌≡◌, ℕ, ◌+◌, ◌<◌, ◌≤◌, List, Some, true, length, take, ◌++◌, None};
ghost use Rattle.outside.specs.Disk.{IfTold, Only};
ghost use Rattle.log_writer.specs.Journal.{Reaches, IsDurable};
ghost use Rattle.log_writer.specs.Points.{IsSaved, point_of, sequence_of};
ghost use Rattle.log_writer.specs.Save.{IsStored, NamesOldOrNew};

use super::journal::put_line;
use super::save::{open, saved};
use crate::disks::disk;
use log_writer::{Journal, Save, Saved};
use outside::Disk;
use std::process::Abort;
use std::test::Fail;

// Makes the lines that wait durable, stores a savepoint that may count them, and goes on with a line.
// Whichever moment of the save since the store began a stop meets, and whichever of the log file since
// the flush: the save names the old savepoint or the new one, and the log file has the lines.
fn save_between<D: Disk>(
    journal: &mut Journal,
    bank: &mut D,
    save: &mut Save,
    device: &mut D,
    saved: Saved,
) -> bool
    requires reaches { Reaches D.tells bank.old journal.old }
    requires saved { IsSaved saved }
    requires stored { save.old.down ≡ None → IsStored D.tells D.clock D.image_at device.old save.old.newest }
    ensures both { (file : List ℕ) (made : List ℕ) → result ≡ true → D.tells bank.old ≡ Some file
        → IsDurable D.clock D.image_at journal.old bank.old made
        → (flushed : ℕ) × (flushed ≤ D.clock bank.new) × ((at_save at_bank : ℕ) (s b : List ℕ)
        → D.clock device.old < at_save → at_save ≤ D.clock device.new → D.image_at device.new at_save s
        → flushed ≤ at_bank → at_bank ≤ D.clock bank.new → D.image_at bank.new at_bank b
        → IfTold (D.tells device.old) (λ _. NamesOldOrNew save.old.newest (point_of (sequence_of save.old.newest + 1) saved) s)
        × (take (length (made ++ journal.old.lines)) b ≡ made ++ journal.old.lines)) }
{
    let Ok(_) = journal.flush(bank) else {
        return false;
    };
    let Ok(()) = save.store(device, saved) else {
        return false;
    };
    let Ok(()) = put_line(journal, bank) else {
        return false;
    };
    journal.flush(bank).is_ok()
}

// A line, and the store that counts it.
fn counts<D: Disk>(rt: &impl Abort, journal: &mut Journal, bank: &mut D, device: &mut D)
    requires reaches { Reaches D.tells bank.old journal.old }
    requires settled { IfTold (D.tells device.old) (Only D.clock D.image_at device.old) }
{
    let mut save = open(device).expect(rt, "a fresh device");
    let line = put_line(journal, bank);
    assert!(rt; line == Ok(()));
    let saved = saved(1, 40);
    if saved.is_valid() {
        let done = save_between(journal, bank, &mut save, device, saved);
        assert!(rt; done);
    }
    assert!(rt; (journal.durable(), save.sequence()) == (80, 1));
}

#[test]
fn a_log_file_and_its_savepoint(rt: HostRuntime) -> Result<(), Fail> {
    let mut bank = disk(rt.alloc(), &[], &[])?;
    let mut device = disk(rt.alloc(), &[0; 1024], &[])?;
    let mut journal = Journal::new(rt.alloc(), 1000)?;
    counts(&rt, &mut journal, &mut bank, &mut device);
    Ok(())
}
