// Rounds in memory: all their lines, and a stretch of these for each, so that a round takes no list of its own.
ghost use Rattle.std.specs.Prelude.{◌≡◌, ◌<◌, ◌≤◌, [], ◌∷◌, ◌++◌, length, slice_get, option_map, Some, OnOk, OnErr};
ghost use Rattle.std.specs.Prelude.{IfSome};
ghost use Rattle.script_grammar.specs.Script.{Keeper, Worker, keeper_line_of, last_round, worker_of};
ghost use Rattle.script_grammar.specs.Lines.{line_lent};
ghost use Rattle.script_grammar.specs.Front.{MayTakeLine};
ghost use Rattle.script_grammar.specs.ReplyRoom.{words_asked};

use crate::flat_ops::LineOps;
use crate::lines::{KeeperLine, Line, Lines};
use crate::storages::Storages;
use lists::{Memory, Sequence};
use serial_model::Op;
use std::alloc::Global;
use std::marker::Model;

/// Where a round's lines lie.
#[derive(Clone, Copy)]
struct Stretch {
    start: u32,
    end: u32,
}

/// The rounds that a join ended, and the lines after the last one.
#[derive(Drop)]
pub(crate) struct Rounds {
    lines: Lines,
    joined: Sequence<Stretch>,
    start: u32,
}

impl Model for Rounds {
    ghost use Rattle.std.specs.Prelude.{◌≤◌, length, drop};
    ghost use Rattle.script_grammar.specs.Lines.{RoundsSoFar, rounds_in, AreRoundsWithin};

    ghost Value = { RoundsSoFar };

    ghost view = { λ r. record { joined = rounds_in r.lines r.joined; rest = drop r.start r.lines } };

    ghost invariant = { λ r. AreRoundsWithin r.lines r.joined × (r.start ≤ length r.lines) };
}

/// The lines of a round.
#[derive(Drop)]
pub struct Round<'a> {
    lines: &'a Lines,
    start: usize,
    end: usize,
}

impl<'a> Model for Round<'a> {
    ghost use Rattle.std.specs.Prelude.{◌-◌, ◌≤◌, length, take, drop};
    ghost use Rattle.script_grammar.specs.Script.{Round as Meaning};

    ghost Value = { Meaning };

    ghost view = { λ r. record { lines = take (r.end - r.start) (drop r.start r.lines.now) } };

    ghost invariant = { λ r. (r.start ≤ r.end) × (r.end ≤ length r.lines.now) };
}

impl Rounds {
    pub(crate) fn new(alloc: Global) -> Self
        ensures { result ≡ record { joined = []; rest = [] } }
    {
        Rounds {
            lines: Lines::new(alloc),
            joined: Sequence::new(alloc),
            start: 0,
        }
    }

    /// The number of rounds that a join ended.
    pub(crate) fn len(&self) -> usize
        ensures { result ≡ length self.now.joined }
    {
        self.joined.len()
    }

    /// The number of lines after the last join.
    pub(crate) fn rest_len(&self) -> usize
        ensures { result ≡ length self.now.rest }
    {
        self.lines.len() - self.start as usize
    }

    /// One line more. After want of memory all is as it was.
    pub(crate) fn push(&mut self, worker: u8, ops: &[Op]) -> Result<(), Memory>
        requires { length ops.now ≤ 16 }
        ensures ok { OnOk result (self.new
            ≡ record self.old { rest = self.old.rest ++ Worker worker ops.now ∷ [] }) }
        ensures memory { OnErr result (self.new ≡ self.old) }
    {
        self.lines.push(worker, ops)
    }

    /// One more is the worker's line that stands at this place, up to a newline; answers where that stands. Else, and
    /// after want of memory, all is as it was.
    pub(crate) fn take(
        &mut self,
        bytes: &[u8],
        at: usize,
        storages: &Storages,
    ) -> Result<Option<usize>, Memory>
        requires { at ≤ length bytes.now }
        ensures line { MayTakeLine result bytes.now at storages.now self.old.rest self.new.rest }
        ensures joined { self.new.joined ≡ self.old.joined }
    {
        self.lines.take(bytes, at, storages)
    }

    /// One line of the maintenance thread more. After want of memory all is as it was.
    pub(crate) fn push_keeper(&mut self, line: KeeperLine) -> Result<(), Memory>
        ensures ok { OnOk result (self.new
            ≡ record self.old { rest = self.old.rest ++ Keeper line ∷ [] }) }
        ensures memory { OnErr result (self.new ≡ self.old) }
    {
        self.lines.push_keeper(line)
    }

    /// A join ends the round. After want of memory all is as it was; more than 2^32 lines are one.
    pub(crate) fn join(&mut self) -> Result<(), Memory>
        ensures ok { OnOk result (self.new
            ≡ record { joined = self.old.joined ++ record { lines = self.old.rest } ∷ []; rest = [] }) }
        ensures memory { OnErr result (self.new ≡ self.old) }
    {
        let Ok(end) = u32::try_from(self.lines.len()) else {
            return Err(Memory);
        };
        let stretch = Stretch {
            start: self.start,
            end,
        };
        self.joined.push(stretch)?;
        self.start = end;
        Ok(())
    }

    /// The end of the script ends a round, unless a join just did.
    pub(crate) fn finish(&mut self) -> Result<(), Memory>
        ensures { OnOk result (self.new.joined
            ≡ self.old.joined ++ last_round self.old.joined self.old.rest) }
    {
        if self.rest_len() == 0 && self.len() > 0 {
            return Ok(());
        }
        self.join()
    }

    pub(crate) fn round(&self, index: usize) -> Round<'_>
        requires { index < length self.now.joined }
        ensures { slice_get self.now.joined index ≡ Some result }
    {
        let stretch = self.joined.as_slice()[index];
        Round {
            lines: &self.lines,
            start: stretch.start as usize,
            end: stretch.end as usize,
        }
    }
}

impl Round<'_> {
    /// The number of lines.
    pub fn len(&self) -> usize
        ensures { result ≡ length self.now.lines }
    {
        self.end - self.start
    }

    /// The worker whose line this is, by its index from 0 in the order of the script, if it is one's.
    pub fn worker(&self, index: usize) -> Option<u8>
        requires { index < length self.now.lines }
        ensures { option_map worker_of (slice_get self.now.lines index) ≡ Some result }
    {
        prove!(index < self.end - self.start);
        self.lines.worker(self.start + index)
    }

    /// The worker whose line this is, by its index from 0 in the order of the script, if it is one's, and how many words
    /// its replies take at most.
    pub fn reply_words(&self, index: usize) -> Option<(u8, u32)>
        requires { index < length self.now.lines }
        ensures is { option_map words_asked (slice_get self.now.lines index) ≡ Some result }
        ensures few { IfSome result (λ x. x.1 ≤ 544) }
    {
        prove!(index < self.end - self.start);
        self.lines.reply_words(self.start + index)
    }

    /// What this line asks for, by its index from 0 in the order of the script, if it is one of the maintenance thread.
    pub fn keeper(&self, index: usize) -> Option<KeeperLine>
        requires { index < length self.now.lines }
        ensures { option_map keeper_line_of (slice_get self.now.lines index) ≡ Some result }
    {
        prove!(index < self.end - self.start);
        self.lines.keeper(self.start + index)
    }

    /// The line of this index, from 0, in the order of the script. Its operations take the place of those in the room.
    pub fn line<'b>(&self, index: usize, room: &'b mut LineOps) -> Line<'b>
        requires { index < length self.now.lines }
        ensures { slice_get self.now.lines index ≡ Some (line_lent result) }
    {
        prove!(index < self.end - self.start);
        self.lines.line(self.start + index, room)
    }
}
