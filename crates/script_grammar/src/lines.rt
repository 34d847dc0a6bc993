// Lines in memory: one list of operations for all, and a span of it for each, so that a line takes no list of its own.
ghost use Rattle.std.specs.Prelude.{◌≡◌, ◌<◌, ◌≤◌, [], ◌∷◌, ◌++◌, length, slice_get, Some, OnOk, OnErr, option_map};
ghost use Rattle.std.specs.Prelude.{IfSome};
ghost use Rattle.script_grammar.specs.Script.{Keeper, Worker, keeper_line_of, worker_of};
ghost use Rattle.script_grammar.specs.Lines.{line_lent};
ghost use Rattle.script_grammar.specs.Front.{MayTakeLine};
ghost use Rattle.script_grammar.specs.ReplyRoom.{words_asked};

use crate::flat_ops::{FlatOps, LineOps};
use crate::front_number::digit_at;
use crate::reader::LONGEST_LINE;
use crate::storages::Storages;
use lists::Memory;
use serial_model::Op;
use std::alloc::Global;
use std::marker::Model;

/// Where a line lies: a worker's operations, so many from the first one on. A line of the maintenance thread has none.
#[derive(Clone, Copy)]
enum Span {
    Worker { worker: u8, count: u8, start: u32 },
    Keeper(KeeperLine),
}

// A script may have some millions of lines.
const _: () = prove!(size_of::<Span>() == 8);

/// What a line of the maintenance thread asks for.
#[derive(Clone, Copy, Debug, PartialEq, Eq)]
pub enum KeeperLine {
    /// The next epoch.
    Epoch,
    /// A savepoint.
    Save,
    /// A snapshot from the logs.
    Glean,
    /// The pages that equal the snapshot's given up.
    Drop,
}

/// A line of a round.
#[derive(Clone, Copy, Debug)]
pub enum Line<'a> {
    /// One transaction: a worker, 0 to 7, and 1 to 16 operations.
    Worker { worker: u8, ops: &'a [Op] },
    Keeper(KeeperLine),
}

#[derive(Drop)]
pub(crate) struct Lines {
    ops: FlatOps,
    spans: Vec<Span>,
}

impl Model for Lines {
    ghost use Rattle.std.specs.Prelude.{List};
    ghost use Rattle.script_grammar.specs.Script.{Line};
    ghost use Rattle.script_grammar.specs.Lines.{lines_in, AreWithin};

    ghost Value = { List Line };

    ghost view = { λ l. lines_in l.ops l.spans.items };

    ghost invariant = { λ l. AreWithin l.ops l.spans.items };
}

/// After want of memory the spans are as they were.
fn push_span(spans: &mut Vec<Span>, span: Span) -> Result<(), Memory>
    ensures ok { OnOk result (spans.new.items ≡ spans.old.items ++ span ∷ []) }
    ensures memory { OnErr result (spans.new.items ≡ spans.old.items) }
{
    spans.reserve(1)?;
    spans.push_reserved(span);
    Ok(())
}

impl Lines {
    pub(crate) fn new(alloc: Global) -> Self
        ensures { result ≡ [] }
    {
        Lines {
            ops: FlatOps::new(alloc),
            spans: Vec::new(alloc),
        }
    }

    pub(crate) fn len(&self) -> usize
        ensures { result ≡ length self.now }
    {
        self.spans.len()
    }

    /// A worker's line more. After want of memory the lines are as they were; more than 2^32 operations are one.
    pub(crate) fn push(&mut self, worker: u8, ops: &[Op]) -> Result<(), Memory>
        requires { length ops.now ≤ 16 }
        ensures ok { OnOk result (self.new ≡ self.old ++ Worker worker ops.now ∷ []) }
        ensures memory { OnErr result (self.new ≡ self.old) }
    {
        let Ok(start) = u32::try_from(self.ops.len()) else {
            return Err(Memory);
        };
        let count = ops.len() as u8;
        self.ops.append(ops)?;
        let span = Span::Worker {
            worker,
            count,
            start,
        };
        push_span(&mut self.spans, span)?;
        Ok(())
    }

    /// One more is the worker's line that stands at this place, up to a newline; answers where that stands. Else, and
    /// after want of memory, the lines are as they were. Where fewer bytes than those of a longest line are left, none
    /// is read.
    pub(crate) fn take(
        &mut self,
        bytes: &[u8],
        at: usize,
        storages: &Storages,
    ) -> Result<Option<usize>, Memory>
        requires { at ≤ length bytes.now }
        ensures { MayTakeLine result bytes.now at storages.now self.old self.new }
    {
        let start = self.ops.len();
        if bytes.len() - at < LONGEST_LINE || start >= 0x1_0000_0000 {
            return Ok(None);
        }
        let worker = digit_at(bytes, at);
        if worker > 7 || bytes[at + 1] != b' ' {
            return Ok(None);
        }
        self.spans.reserve(1)?;
        let Some((count, end)) = self.ops.take(bytes, at + 2, storages)? else {
            return Ok(None);
        };
        self.spans.push_reserved(Span::Worker {
            worker: worker as u8,
            count,
            start: start as u32,
        });
        Ok(Some(end))
    }

    /// A line of the maintenance thread more. After want of memory the lines are as they were.
    pub(crate) fn push_keeper(&mut self, line: KeeperLine) -> Result<(), Memory>
        ensures ok { OnOk result (self.new ≡ self.old ++ Keeper line ∷ []) }
        ensures memory { OnErr result (self.new ≡ self.old) }
    {
        push_span(&mut self.spans, Span::Keeper(line))
    }

    /// The worker whose line it is, if it is one's.
    pub(crate) fn worker(&self, index: usize) -> Option<u8>
        requires { index < length self.now }
        ensures { option_map worker_of (slice_get self.now index) ≡ Some result }
    {
        match self.spans[index] {
            Span::Worker { worker, .. } => Some(worker),
            Span::Keeper(_) => None,
        }
    }

    /// The worker whose line it is, if it is one's, and how many words its replies take at most.
    pub(crate) fn reply_words(&self, index: usize) -> Option<(u8, u32)>
        requires { index < length self.now }
        ensures is { option_map words_asked (slice_get self.now index) ≡ Some result }
        ensures few { IfSome result (λ x. x.1 ≤ 544) }
    {
        match self.spans[index] {
            Span::Worker {
                worker,
                count,
                start,
            } => {
                let words = self.ops.reply_words(start as usize, usize::from(count));
                Some((worker, words))
            }
            Span::Keeper(_) => None,
        }
    }

    /// What the line asks for, if it is one of the maintenance thread.
    pub(crate) fn keeper(&self, index: usize) -> Option<KeeperLine>
        requires { index < length self.now }
        ensures { option_map keeper_line_of (slice_get self.now index) ≡ Some result }
    {
        match self.spans[index] {
            Span::Worker { .. } => None,
            Span::Keeper(line) => Some(line),
        }
    }

    /// The line, with its operations in the room.
    pub(crate) fn line<'b>(&self, index: usize, room: &'b mut LineOps) -> Line<'b>
        requires { index < length self.now }
        ensures { slice_get self.now index ≡ Some (line_lent result) }
    {
        match self.spans[index] {
            Span::Worker {
                worker,
                count,
                start,
            } => {
                self.ops.fill(start as usize, usize::from(count), room);
                Line::Worker {
                    worker,
                    ops: room.as_slice(),
                }
            }
            Span::Keeper(line) => Line::Keeper(line),
        }
    }
}
