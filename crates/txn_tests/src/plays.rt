// A worker whose transactions are driven call by call.
ghost use Rattle.std.specs.Prelude.{◌≡◌, ◌<◌};
ghost use Rattle.page_commit.specs.Below.{IsArrayKey};
ghost use Rattle.txn_tests.specs.declared.worker.Phase.TheVariants as phases;
ghost use Rattle.txn_tests.specs.Standing.{declared, Stands};

use crate::one_key::{lock_first, open_first, put_first};
use crate::{Phase, Worker};
use engine_pages::{Engine, RefusalCause};
use page_drops::Kept;
use serial_model::{Change, Key, Verdict};
use std::thread::yield_now;
use tree_writes::write;

/// What a worker is asked for. Keys are those of the array, each modulo its size, but where the tree is named.
#[derive(Clone, Copy, Debug, PartialEq, Eq)]
pub enum Call {
    Begin,
    Read(u64),
    Write(u64, u64),
    Add(u64, u64),
    Take(u64, u64),
    /// Writes a key of the tree.
    Grow(u64, u64),
    /// With the writes, or without them.
    Commit(bool),
    Abort,
    /// Begins a transaction, brings the record of key 0 into memory, and locks it, which was never written.
    Hold,
    /// Draws a number, decides, and puts this value at key 0.
    Put(u64),
    /// Opens key 0.
    Open,
    /// The keeper takes the pages out of memory that are what the newest snapshot has.
    Drop,
}

#[derive(Clone, Copy, Debug, PartialEq, Eq)]
pub enum Answer {
    Fine,
    Value(u64),
    Short,
    Over,
    /// The draw of a commit.
    Draw(u64),
    /// How many pages were dropped and kept, and why the first was kept.
    Dropped(u32, u32, Option<Kept>),
    No(RefusalCause),
    /// Key 0 is locked, or was written, or its page could not be made. The transaction is over.
    Locked,
    /// The call may not be made where the transaction stands.
    Wrong,
}

/// A transaction that is made over and over.
#[derive(Clone, Copy, Debug, PartialEq, Eq)]
pub enum Work {
    /// Adds 1 to this key, and to the one that differs from it in the last bit.
    AddTwo(u64),
    /// Reads so many keys, spread over the array.
    ReadMany(u64),
    /// Of four keys, this one and those a quarter of the array behind one another, reads two and adds 1 to two.
    ReadTwoWriteTwo(u64),
}

fn key_of(size: u32, key: u64) -> Key
    requires { 0 < size }
    ensures { IsArrayKey (declared size) result }
{
    let size = u64::from(size);
    if key < size {
        return Key { storage: 1, key };
    }
    Key {
        storage: 1,
        key: key % size,
    }
}

impl Worker {
    /// The change at this place of what its last commit wrote.
    pub fn change(&self, at: usize) -> Option<Change> {
        self.changes.as_slice().get(at).copied()
    }

    /// Makes the call.
    pub fn play(&mut self, engine: &Engine, call: Call) -> Answer
        requires { Stands engine.now self.old }
        ensures { Stands engine.now self.new }
    {
        let phase = self.phase;
        match phase {
            Phase::Over => self.start(engine, call),
            Phase::Live => self.go_on(engine, call),
            Phase::Held => self.put(engine, call),
            Phase::Put => self.open(engine, call),
        }
    }

    fn start(&mut self, engine: &Engine, call: Call) -> Answer
        requires stands { Stands engine.now self.old }
        requires over { self.old.phase ≡ phases.Over }
        ensures { Stands engine.now self.new }
    {
        match call {
            Call::Begin => self.begin(engine),
            Call::Hold => self.hold(engine),
            _ => Answer::Wrong,
        }
    }

    fn go_on(&mut self, engine: &Engine, call: Call) -> Answer
        requires stands { Stands engine.now self.old }
        requires live { self.old.phase ≡ phases.Live }
        ensures { Stands engine.now self.new }
    {
        match call {
            Call::Read(k) => self.read(engine, k),
            Call::Write(k, value) => self.write(engine, k, value),
            Call::Add(k, amount) => self.add(engine, k, amount),
            Call::Take(k, amount) => self.take(engine, k, amount),
            Call::Grow(k, value) => self.grow(engine, k, value),
            Call::Commit(keep) => self.commit(engine, keep),
            Call::Abort => self.abort(engine),
            _ => Answer::Wrong,
        }
    }

    fn begin(&mut self, engine: &Engine) -> Answer
        requires stands { Stands engine.now self.old }
        requires over { self.old.phase ≡ phases.Over }
        ensures { Stands engine.now self.new }
    {
        match self.txn.begin(engine, &mut self.pass) {
            Ok(()) => {
                self.phase = Phase::Live;
                Answer::Fine
            }
            Err(why) => Answer::No(why),
        }
    }

    fn read(&mut self, engine: &Engine, k: u64) -> Answer
        requires stands { Stands engine.now self.old }
        requires live { self.old.phase ≡ phases.Live }
        ensures { Stands engine.now self.new }
    {
        match self.txn.read(engine, &mut self.pass, key_of(self.size, k)) {
            Ok(value) => Answer::Value(value),
            Err(why) => {
                self.phase = Phase::Over;
                Answer::No(why)
            }
        }
    }

    fn write(&mut self, engine: &Engine, k: u64, value: u64) -> Answer
        requires stands { Stands engine.now self.old }
        requires live { self.old.phase ≡ phases.Live }
        ensures { Stands engine.now self.new }
    {
        match self
            .txn
            .write(engine, &mut self.pass, key_of(self.size, k), value)
        {
            Ok(()) => Answer::Fine,
            Err(why) => {
                self.phase = Phase::Over;
                Answer::No(why)
            }
        }
    }

    fn add(&mut self, engine: &Engine, k: u64, amount: u64) -> Answer
        requires stands { Stands engine.now self.old }
        requires live { self.old.phase ≡ phases.Live }
        ensures { Stands engine.now self.new }
    {
        match self
            .txn
            .add(engine, &mut self.pass, key_of(self.size, k), amount)
        {
            Ok(verdict) => answer_of(verdict),
            Err(why) => {
                self.phase = Phase::Over;
                Answer::No(why)
            }
        }
    }

    fn take(&mut self, engine: &Engine, k: u64, amount: u64) -> Answer
        requires stands { Stands engine.now self.old }
        requires live { self.old.phase ≡ phases.Live }
        ensures { Stands engine.now self.new }
    {
        match self
            .txn
            .take(engine, &mut self.pass, key_of(self.size, k), amount)
        {
            Ok(verdict) => answer_of(verdict),
            Err(why) => {
                self.phase = Phase::Over;
                Answer::No(why)
            }
        }
    }

    fn grow(&mut self, engine: &Engine, k: u64, value: u64) -> Answer
        requires stands { Stands engine.now self.old }
        requires live { self.old.phase ≡ phases.Live }
        ensures { Stands engine.now self.new }
    {
        let key = Key { storage: 2, key: k };
        match write(engine, &mut self.pass, &mut self.txn.sets, key, value) {
            Ok(()) => Answer::Fine,
            Err(why) => {
                self.phase = Phase::Over;
                Answer::No(why)
            }
        }
    }

    fn commit(&mut self, engine: &Engine, keep: bool) -> Answer
        requires stands { Stands engine.now self.old }
        requires live { self.old.phase ≡ phases.Live }
        ensures { Stands engine.now self.new }
    {
        self.phase = Phase::Over;
        match self
            .txn
            .commit(engine, &mut self.pass, keep, &mut self.changes)
        {
            Ok(number) => Answer::Draw(number.draw),
            Err(why) => Answer::No(why),
        }
    }

    fn abort(&mut self, engine: &Engine) -> Answer
        requires stands { Stands engine.now self.old }
        requires live { self.old.phase ≡ phases.Live }
        ensures { Stands engine.now self.new }
    {
        self.phase = Phase::Over;
        self.txn.abort(engine, &mut self.pass);
        Answer::Fine
    }

    fn hold(&mut self, engine: &Engine) -> Answer
        requires stands { Stands engine.now self.old }
        requires over { self.old.phase ≡ phases.Over }
        ensures { Stands engine.now self.new }
    {
        if let Err(why) = self.txn.begin(engine, &mut self.pass) {
            return Answer::No(why);
        }
        self.holds.clear();
        let Some(at) = lock_first(engine, &mut self.pass, &mut self.holds) else {
            return Answer::Locked;
        };
        self.at = at;
        self.phase = Phase::Held;
        Answer::Fine
    }

    fn put(&mut self, engine: &Engine, call: Call) -> Answer
        requires stands { Stands engine.now self.old }
        requires held { self.old.phase ≡ phases.Held }
        ensures { Stands engine.now self.new }
    {
        let Call::Put(value) = call else {
            return Answer::Wrong;
        };
        self.number = put_first(engine, &mut self.pass, &self.holds, self.at, value);
        self.phase = Phase::Put;
        Answer::Fine
    }

    fn open(&mut self, engine: &Engine, call: Call) -> Answer
        requires stands { Stands engine.now self.old }
        requires put { self.old.phase ≡ phases.Put }
        ensures { Stands engine.now self.new }
    {
        let Call::Open = call else {
            return Answer::Wrong;
        };
        open_first(engine, &mut self.pass, &self.holds, self.at, self.number);
        self.phase = Phase::Over;
        Answer::Fine
    }

    fn try_once(&mut self, engine: &Engine, work: Work) -> bool
        requires { Stands engine.now self.old }
        ensures { Stands engine.now self.new }
    {
        let Phase::Over = self.phase else {
            return false;
        };
        match work {
            Work::AddTwo(first) => self.add_two(engine, first),
            Work::ReadMany(count) => read_many(self, engine, count),
            Work::ReadTwoWriteTwo(first) => self.read_two_write_two(engine, first),
        }
    }

    fn add_two(&mut self, engine: &Engine, first: u64) -> bool
        requires stands { Stands engine.now self.old }
        requires over { self.old.phase ≡ phases.Over }
        ensures { Stands engine.now self.new }
    {
        let Ok(()) = self.txn.begin(engine, &mut self.pass) else {
            return false;
        };
        let Ok(_) = self
            .txn
            .add(engine, &mut self.pass, key_of(self.size, first), 1)
        else {
            return false;
        };
        let Ok(_) = self
            .txn
            .add(engine, &mut self.pass, key_of(self.size, first ^ 1), 1)
        else {
            return false;
        };
        self.txn.commit_number(engine, &mut self.pass, true).is_ok()
    }
}

impl Worker {
    fn read_two_write_two(&mut self, engine: &Engine, first: u64) -> bool
        requires stands { Stands engine.now self.old }
        requires over { self.old.phase ≡ phases.Over }
        ensures { Stands engine.now self.new }
    {
        let part = u64::from(self.size / 4);
        let Ok(()) = self.txn.begin(engine, &mut self.pass) else {
            return false;
        };
        let one = key_of(self.size, first);
        let Ok(_) = self.txn.read(engine, &mut self.pass, one) else {
            return false;
        };
        let two = key_of(self.size, first.wrapping_add(part));
        let Ok(_) = self.txn.read(engine, &mut self.pass, two) else {
            return false;
        };
        let three = key_of(self.size, first.wrapping_add(2 * part));
        let Ok(_) = self.txn.add(engine, &mut self.pass, three, 1) else {
            return false;
        };
        let four = key_of(self.size, first.wrapping_add(3 * part));
        let Ok(_) = self.txn.add(engine, &mut self.pass, four, 1) else {
            return false;
        };
        self.txn.commit_number(engine, &mut self.pass, true).is_ok()
    }
}

/// The same work, from so many keys further on.
pub(crate) fn further(work: Work, keys: u64) -> Work {
    match work {
        Work::AddTwo(first) => Work::AddTwo(first.wrapping_add(keys)),
        Work::ReadMany(count) => Work::ReadMany(count),
        Work::ReadTwoWriteTwo(first) => Work::ReadTwoWriteTwo(first.wrapping_add(keys)),
    }
}

fn answer_of(verdict: Verdict) -> Answer {
    match verdict {
        Verdict::Done => Answer::Fine,
        Verdict::Short => Answer::Short,
        Verdict::Over => Answer::Over,
    }
}

/// Does the work so many times, each with at most 10,000 tries.
pub(crate) fn repeat(worker: &mut Worker, engine: &Engine, work: Work, rounds: u32)
    requires { Stands engine.now worker.old }
    ensures { Stands engine.now worker.new }
{
    for _ in 0..rounds {
        insist(worker, engine, work);
    }
}

fn insist(worker: &mut Worker, engine: &Engine, work: Work)
    requires { Stands engine.now worker.old }
    ensures { Stands engine.now worker.new }
{
    for _ in 0..10000 {
        if worker.try_once(engine, work) {
            worker.done = worker.done.saturating_add(1);
            return;
        }
        yield_now();
    }
}

// How far apart so many keys lie that are spread over an array of this size.
fn apart(size: u32, count: u64) -> u64 {
    if count == 0 {
        return 1;
    }
    u64::from(size) / count
}

fn read_many(worker: &mut Worker, engine: &Engine, count: u64) -> bool
    requires stands { Stands engine.now worker.old }
    requires over { worker.old.phase ≡ phases.Over }
    ensures { Stands engine.now worker.new }
{
    let Ok(()) = worker.txn.begin(engine, &mut worker.pass) else {
        return false;
    };
    let step = apart(worker.size, count);
    for k in 0..count {
        let key = key_of(worker.size, k.wrapping_mul(step));
        let Ok(_) = worker.txn.read(engine, &mut worker.pass, key) else {
            return false;
        };
    }
    worker
        .txn
        .commit_number(engine, &mut worker.pass, true)
        .is_ok()
}
