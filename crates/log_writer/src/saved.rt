// What a savepoint says beside its sequence.
ghost use Rattle.std.specs.Prelude.{◌≡◌, ◌↔◌, IsTrue};
ghost use Rattle.log_writer.specs.Points.{IsSaved, point_of, saved_of};

use wire_form::Savepoint;

/// What counts of a database's devices. The sequence of a savepoint is its store's own.
#[derive(Clone, Copy, Debug, PartialEq, Eq)]
pub struct Saved {
    /// The saved epoch, below 2^20 - 2.
    pub epoch: u32,
    /// The newest catalogue's page number, which is the count.
    pub catalogue: u32,
    /// Snapshot pages, 1 to 65,536.
    pub count: u32,
    /// How many bytes of each log file count, below 2^40.
    pub lengths: [u64; 16],
}

impl Saved {
    /// Whether the fields are in their ranges.
    pub fn is_valid(&self) -> bool
        ensures { IsTrue result ↔ IsSaved self.now }
    {
        self.at(1).is_valid()
    }

    /// What a savepoint says.
    pub(crate) fn of(point: &Savepoint) -> Saved
        ensures { result ≡ saved_of point.now }
    {
        Saved {
            epoch: point.epoch,
            catalogue: point.catalogue,
            count: point.count,
            lengths: point.lengths,
        }
    }

    /// The savepoint of this sequence that says it.
    pub(crate) fn at(self, sequence: u64) -> Savepoint
        ensures { result ≡ point_of sequence self }
    {
        let lengths = self.lengths;
        Savepoint {
            sequence,
            epoch: self.epoch,
            catalogue: self.catalogue,
            count: self.count,
            lengths,
        }
    }
}
