// All sets of a transaction.
ghost use Rattle.std.specs.Prelude.{◌≡◌};
ghost use Rattle.tx_sets.specs.Gathered.{has_read_room, AreEmpty};

use crate::{HeaderSet, Holds, PointerSet, ReadSet, WriteSet};

/// The most records and headers that a transaction keeps together.
const MOST_READS: usize = 256;

/// The sets of one transaction after another, made once.
#[derive(Drop)]
pub struct Sets {
    pub reads: ReadSet,
    pub writes: WriteSet,
    pub pointers: PointerSet,
    pub holds: Holds,
    pub headers: HeaderSet,
}

impl Sets {
    pub fn new() -> Self
        ensures { AreEmpty result }
    {
        Sets {
            reads: ReadSet::new(),
            writes: WriteSet::new(),
            pointers: PointerSet::new(),
            holds: Holds::new(),
            headers: HeaderSet::new(),
        }
    }

    /// Empties all sets, before the next transaction.
    pub fn clear(&mut self)
        ensures { AreEmpty self.new }
    {
        self.reads.clear();
        self.writes.clear();
        self.pointers.clear();
        self.holds.clear();
        self.headers.clear();
    }

    /// Whether one more record or header can be kept: there are 256 of both together at most.
    pub fn has_read_room(&self) -> bool
        ensures { result ≡ has_read_room self.now }
    {
        let records = self.reads.as_slice().len();
        let headers = self.headers.as_slice().len();
        records + headers < MOST_READS
    }
}
