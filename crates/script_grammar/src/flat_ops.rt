// Operations in memory: 20 bytes for each, where an `Op` takes 32, and room for those of a line as they are.
ghost use Rattle.std.specs.Prelude.{◌≡◌, ℕ, ◌+◌, ◌<◌, ◌≤◌, [], ◌∷◌, ◌++◌, length, map, take, drop, OnOk, OnErr};
ghost use Rattle.script_grammar.specs.FlatOps.{wide, op_of, op_of_kind};
ghost use Rattle.script_grammar.specs.Front.{MayTakeOps};
ghost use Rattle.script_grammar.specs.ReplyRoom.{most_words, words_for};

use crate::front_op::ops_from;
use crate::read_op::MOST_OPS;
use crate::storages::Storages;
use lists::Memory;
use serial_model::{Key, Op};
use std::alloc::Global;
use std::marker::Model;

/// Which operation.
#[derive(Clone, Copy)]
pub(crate) enum OpKind {
    Read,
    Write,
    Remove,
    Add,
    Take,
    Scan,
}

/// A number in two halves, so that what holds it has no gaps.
#[derive(Clone, Copy)]
pub(crate) struct Halves {
    low: u32,
    high: u32,
}

impl Halves {
    fn new(n: u64) -> Self
        ensures { wide result ≡ n }
    {
        Halves {
            low: (n % 0x1_0000_0000) as u32,
            high: (n / 0x1_0000_0000) as u32,
        }
    }

    fn number(self) -> u64
        ensures { result ≡ wide self }
    {
        u64::from(self.low) + 0x1_0000_0000 * u64::from(self.high)
    }
}

/// An operation: its key, and the value of a change or the highest key of a scan.
#[derive(Clone, Copy)]
pub(crate) struct FlatOp {
    key: Halves,
    value: Halves,
    storage: u8,
    kind: OpKind,
}

impl FlatOp {
    fn new(op: &Op) -> Self
        ensures { op_of result ≡ op.now }
    {
        match *op {
            Op::Read(key) => FlatOp::of(OpKind::Read, key, 0),
            Op::Write(key, value) => FlatOp::of(OpKind::Write, key, value),
            Op::Remove(key) => FlatOp::of(OpKind::Remove, key, 0),
            Op::Add(key, value) => FlatOp::of(OpKind::Add, key, value),
            Op::Take(key, value) => FlatOp::of(OpKind::Take, key, value),
            Op::Scan { storage, low, high } => {
                FlatOp::of(OpKind::Scan, Key { storage, key: low }, high)
            }
        }
    }

    /// The operation of a kind, with a key, and with a value or the highest key.
    pub(crate) fn of(kind: OpKind, key: Key, value: u64) -> Self
        ensures { op_of result ≡ op_of_kind kind key value }
    {
        FlatOp {
            key: Halves::new(key.key),
            value: Halves::new(value),
            storage: key.storage,
            kind,
        }
    }

    /// How many words its reply takes at most: two of a value, and 34 of a scan's 16 rows.
    fn reply_words(&self) -> u32
        ensures is { result ≡ words_for (op_of self.now) }
        ensures few { result ≤ 34 }
    {
        match self.kind {
            OpKind::Read => 2,
            OpKind::Scan => 34,
            OpKind::Write | OpKind::Remove | OpKind::Add | OpKind::Take => 0,
        }
    }

    pub(crate) fn op(&self) -> Op
        ensures { result ≡ op_of self.now }
    {
        let key = Key {
            storage: self.storage,
            key: self.key.number(),
        };
        match self.kind {
            OpKind::Read => Op::Read(key),
            OpKind::Write => Op::Write(key, self.value.number()),
            OpKind::Remove => Op::Remove(key),
            OpKind::Add => Op::Add(key, self.value.number()),
            OpKind::Take => Op::Take(key, self.value.number()),
            OpKind::Scan => Op::Scan {
                storage: key.storage,
                low: key.key,
                high: self.value.number(),
            },
        }
    }
}

/// Operations, which contracts see as they are.
#[derive(Drop)]
pub(crate) struct FlatOps {
    list: Vec<FlatOp>,
}

impl Model for FlatOps {
    ghost use Rattle.std.specs.Prelude.{List, map};
    ghost use Rattle.serial_model.specs.declared.op.Op.{Op};
    ghost use Rattle.script_grammar.specs.FlatOps.{op_of};

    ghost Value = { List Op };

    ghost view = { λ o. map op_of o.list.items };
}

impl FlatOps {
    pub(crate) fn new(alloc: Global) -> Self
        ensures { result ≡ [] }
    {
        FlatOps {
            list: Vec::new(alloc),
        }
    }

    pub(crate) fn len(&self) -> usize
        ensures { result ≡ length self.now }
    {
        self.list.len()
    }

    /// After want of memory the operations are as they were.
    fn push(&mut self, op: &Op) -> Result<(), Memory>
        ensures ok { OnOk result (self.new ≡ self.old ++ op.now ∷ []) }
        ensures memory { OnErr result (self.new ≡ self.old) }
    {
        self.list.push(FlatOp::new(op))?;
        Ok(())
    }

    /// After want of memory there are some of these operations more.
    pub(crate) fn append(&mut self, ops: &[Op]) -> Result<(), Memory>
        ensures ok { OnOk result (self.new ≡ self.old ++ ops.now) }
        ensures memory { OnErr result ((count : ℕ) × (self.new ≡ self.old ++ take count ops.now)) }
    {
        for op in ops {
            self.push(op)?;
        }
        Ok(())
    }

    /// Adds the operations that stand among the bytes from this place up to a newline, and answers how many, and where
    /// the newline stands. Where not all are plainly such, there may be some of them more.
    pub(crate) fn take(
        &mut self,
        bytes: &[u8],
        start: usize,
        storages: &Storages,
    ) -> Result<Option<(u8, usize)>, Memory>
        requires { start + 1022 ≤ length bytes.now }
        ensures { MayTakeOps result bytes.now start storages.now self.old self.new }
    {
        self.list.reserve(MOST_OPS)?;
        Ok(ops_from(bytes, start, storages, &mut self.list))
    }

    /// How many words the replies of the operations from this one on, so many, take at most.
    pub(crate) fn reply_words(&self, start: usize, count: usize) -> u32
        requires within { start + count ≤ length self.now }
        requires few { count ≤ 16 }
        ensures is { result ≡ most_words (take count (drop start self.now)) }
        ensures few { result ≤ 544 }
    {
        let flats = &self.list.as_slice()[start..start + count];
        words_of(flats)
    }

    /// Puts the operations from this one on, so many, into the room.
    pub(crate) fn fill(&self, start: usize, count: usize, room: &mut LineOps)
        requires within { start + count ≤ length self.now }
        requires few { count ≤ 16 }
        ensures { room.new ≡ take count (drop start self.now) }
    {
        room.clear();
        let flats = &self.list.as_slice()[start..start + count];
        for flat in flats {
            room.push(flat.op());
        }
    }
}

// How many words the replies of these operations take at most.
fn words_of(flats: &[FlatOp]) -> u32
    requires { length flats.now ≤ 16 }
    ensures is { result ≡ most_words (map op_of flats.now) }
    ensures few { result ≤ 544 }
{
    let mut words = 0;
    for flat in flats {
        words += flat.reply_words();
    }
    words
}

/// Room for the operations of one line, at most 16.
#[derive(Drop)]
pub struct LineOps {
    ops: [Op; 16],
    len: usize,
}

impl Model for LineOps {
    ghost use Rattle.std.specs.Prelude.{◌≤◌, List, take};
    ghost use Rattle.serial_model.specs.declared.op.Op.{Op};

    ghost Value = { List Op };

    ghost view = { λ o. take o.len o.ops };

    ghost invariant = { λ o. o.len ≤ 16 };
}

impl LineOps {
    pub fn new() -> Self
        ensures { result ≡ [] }
    {
        LineOps {
            ops: [Op::Read(Key { storage: 0, key: 0 }); 16],
            len: 0,
        }
    }

    pub(crate) fn len(&self) -> usize
        ensures { result ≡ length self.now }
    {
        self.as_slice().len()
    }

    pub fn as_slice(&self) -> &[Op]
        ensures { result.now ≡ self.now }
    {
        &self.ops[..self.len]
    }

    pub(crate) fn clear(&mut self)
        ensures { self.new ≡ [] }
    {
        self.len = 0;
    }

    pub(crate) fn push(&mut self, op: Op)
        requires { length self.old < 16 }
        ensures { self.new ≡ self.old ++ op ∷ [] }
    {
        self.ops[self.len] = op;
        self.len += 1;
    }
}
