// What was read of a script so far, and one line more.
ghost use Rattle.std.specs.Prelude.{◌≡◌, ◌==◌, ◌+◌, ◌<◌, ◌≤◌, length, IfOk, OnErr, Some, None};
ghost use Rattle.std.specs.List.{list_any, list_all};
ghost use Rattle.serial_model.specs.Keys.{id_of, fits};
ghost use Rattle.script_grammar.specs.Front.{LeavesOthers};

use crate::fault::{FaultKind, ScriptFault, ScriptRefused};
use crate::faults::{LinePlace, kind_of};
use crate::flat_ops::LineOps;
use crate::read_line::{decl_at, is_join, keeper_in, read_worker};
use crate::rounds::Rounds;
use crate::script::Script;
use crate::storages::Storages;
use lists::{Memory, OrMemory};
use serial_model::{Decl, Op, fits, id_of};
use std::alloc::Global;
use std::marker::Model;

pub(crate) const MOST_STORAGES: usize = 16;

pub(crate) const MOST_LINES: usize = 65_536;

/// In bytes, without the newline.
pub(crate) const LONGEST_LINE: usize = 1024;

/// The declarations and the rounds so far, and memory for the operations of a line.
#[derive(Drop)]
pub(crate) struct Reader {
    decls: Storages,
    rounds: Rounds,
    ops: LineOps,
}

impl Model for Reader {
    ghost use Rattle.script_grammar.specs.Reading.{Parts};

    ghost Value = { Parts };

    ghost view = { λ r. record { decls = r.decls; joined = r.rounds.joined; lines = r.rounds.rest } };
}

fn is_declared(decls: &[Decl], id: u8) -> bool
    ensures { result ≡ list_any (λ e. id_of e == id) decls.now }
{
    decls.iter().any(|decl| id_of(decl) == id)
}

fn all_fit(decls: &[Decl], ops: &[Op]) -> bool
    ensures { result ≡ list_all (fits decls.now) ops.now }
{
    ops.iter().all(|op| fits(decls, op))
}

impl Reader {
    ghost use Rattle.std.specs.Prelude.{[], ◌∷◌, true, false};
    ghost use Rattle.script_grammar.specs.Reading.{no_parts, begins_keeper, is_fresh, may_declare, may_run, with_decl, with_line, with_join, with_some_line, step, script_from, Reads, FindsOrTells};
    ghost use Rattle.script_grammar.specs.Faults.{place_after, kind_of, fault_or};
    ghost use Rattle.script_grammar.specs.Front.{MayReadLine};

    pub(crate) fn new(alloc: Global) -> Self
        ensures { result ≡ no_parts }
    {
        Reader {
            decls: Storages::new(alloc),
            rounds: Rounds::new(alloc),
            ops: LineOps::new(),
        }
    }

    /// No other line than declarations came yet.
    fn is_fresh(&self) -> bool
        ensures { result ≡ is_fresh self.now }
    {
        self.rounds.len() == 0 && self.rounds.rest_len() == 0
    }

    /// No other line came yet, and there is room for a storage with this id.
    fn may_declare(&self, decl: &Decl) -> bool
        ensures { result ≡ may_declare self.now decl.now }
    {
        let room = self.is_fresh() && self.decls.len() < MOST_STORAGES;
        room && !is_declared(self.decls.as_slice(), id_of(decl))
    }

    /// One declaration more.
    #[tactic(auto, unfolding(crate::specs::Reading::with_decl))]
    fn add_decl(&mut self, line: &[u8]) -> Result<(), OrMemory<ScriptRefused>>
        ensures read { Reads result self.new (with_decl self.old line.now) }
        ensures kept { OnErr result (self.new ≡ self.old) }
    {
        let Some(decl) = decl_at(line) else {
            return Err(OrMemory::Fault(ScriptRefused));
        };
        if !self.may_declare(&decl) {
            return Err(OrMemory::Fault(ScriptRefused));
        }
        self.decls.push(decl)?;
        Ok(())
    }

    /// There is room for a line, and each of its operations fits a declared storage.
    fn may_run(&self, ops: &[Op]) -> bool
        ensures { result ≡ may_run self.now ops.now }
    {
        self.rounds.rest_len() < MOST_LINES && all_fit(self.decls.as_slice(), ops)
    }

    /// One line of the maintenance thread more.
    #[tactic(auto, unfolding(crate::specs::Reading::with_line, crate::specs::Reading::line_at))]
    fn add_keeper(&mut self, line: &[u8]) -> Result<(), OrMemory<ScriptRefused>>
        requires { begins_keeper line.now ≡ true }
        ensures read { Reads result self.new (with_line self.old line.now) }
        ensures kept { OnErr result (self.new ≡ self.old) }
    {
        let Some(asked) = keeper_in(line) else {
            return Err(OrMemory::Fault(ScriptRefused));
        };
        if self.rounds.rest_len() >= MOST_LINES {
            return Err(OrMemory::Fault(ScriptRefused));
        }
        self.rounds.push_keeper(asked)?;
        Ok(())
    }

    /// One worker's line more.
    #[tactic(auto, unfolding(crate::specs::Reading::with_line, crate::specs::Reading::line_at))]
    fn add_transaction(&mut self, line: &[u8]) -> Result<(), OrMemory<ScriptRefused>>
        requires { begins_keeper line.now ≡ false }
        ensures read { Reads result self.new (with_line self.old line.now) }
        ensures kept { OnErr result (self.new ≡ self.old) }
    {
        let Some(worker) = read_worker(line, &mut self.ops) else {
            return Err(OrMemory::Fault(ScriptRefused));
        };
        if !self.may_run(self.ops.as_slice()) {
            return Err(OrMemory::Fault(ScriptRefused));
        }
        self.rounds.push(worker, self.ops.as_slice())?;
        Ok(())
    }

    /// How many lines more the round has room for.
    fn room(&self) -> usize
        ensures within { 0 < result → length self.now.lines + result ≤ 65536 }
        ensures few { result ≤ 65536 }
    {
        MOST_LINES.saturating_sub(self.rounds.rest_len())
    }

    /// Reads the line at this place, if it is plainly one of a worker by the rules, and answers where its newline
    /// stands. Else, and after want of memory, nothing was read.
    fn take_front(&mut self, bytes: &[u8], at: usize) -> Result<Option<usize>, Memory>
        requires room { length self.old.lines < 65536 }
        requires within { at ≤ length bytes.now }
        ensures { MayReadLine result bytes.now at self.old self.new }
    {
        self.rounds.take(bytes, at, &self.decls)
    }

    /// A join ends the round.
    fn add_join(&mut self) -> Result<(), OrMemory<ScriptRefused>>
        ensures read { Reads result self.new (Some (with_join self.old)) }
        ensures kept { OnErr result (self.new ≡ self.old) }
    {
        self.rounds.join()?;
        Ok(())
    }

    /// One line more of the maintenance thread, or else of a worker.
    fn add_line(&mut self, line: &[u8]) -> Result<(), OrMemory<ScriptRefused>>
        ensures read { Reads result self.new (with_line self.old line.now) }
        ensures kept { OnErr result (self.new ≡ self.old) }
    {
        match line {
            [b'k', ..] => self.add_keeper(line),
            _ => self.add_transaction(line),
        }
    }

    /// One line more: a join, a declaration, or else a line of a worker or of the maintenance thread.
    #[tactic(auto, unfolding(crate::specs::Reading::with_some_line))]
    fn add(&mut self, line: &[u8]) -> Result<(), OrMemory<ScriptRefused>>
        ensures read { Reads result self.new (with_some_line self.old line.now) }
        ensures kept { OnErr result (self.new ≡ self.old) }
    {
        if is_join(line) {
            return self.add_join();
        }
        match line {
            [b'a' | b't', ..] => self.add_decl(line),
            _ => self.add_line(line),
        }
    }

    /// One line more. An empty one counts for nothing.
    #[tactic(auto, unfolding(crate::specs::Reading::step))]
    fn take(&mut self, line: &[u8]) -> Result<(), OrMemory<ScriptRefused>>
        ensures read { Reads result self.new (step self.old line.now) }
        ensures kept { OnErr result (self.new ≡ self.old) }
    {
        if line.is_empty() {
            return Ok(());
        }
        if line.len() > LONGEST_LINE {
            return Err(OrMemory::Fault(ScriptRefused));
        }
        self.add(line)
    }

    /// The first kind of fault of a line that is refused.
    fn kind_of(&self, line: &[u8]) -> FaultKind
        requires { step self.now line.now ≡ None }
        ensures { kind_of (place_after self.now) line.now ≡ Some result }
    {
        let place = LinePlace {
            decls: self.decls.as_slice(),
            begun: !self.is_fresh(),
            lines: self.rounds.rest_len(),
        };
        match kind_of(&place, line) {
            Some(kind) => kind,
            None => unreachable!(),
        }
    }

    /// One line more, or its first kind of fault, under this number.
    pub(crate) fn step(&mut self, number: u32, line: &[u8]) -> Result<(), OrMemory<ScriptFault>>
        ensures { FindsOrTells result (step self.old line.now)
            (fault_or (kind_of (place_after self.old) line.now) number None) self.new }
    {
        match self.take(line) {
            Ok(()) => Ok(()),
            Err(OrMemory::Memory) => Err(OrMemory::Memory),
            Err(OrMemory::Fault(ScriptRefused)) => {
                let kind = self.kind_of(line);
                Err(OrMemory::Fault(ScriptFault { line: number, kind }))
            }
        }
    }

    /// The script that was read.
    pub(crate) fn into_script(self) -> Result<Script, Memory>
        ensures { IfOk result (λ script. script ≡ script_from self) }
    {
        let Reader {
            decls,
            mut rounds,
            ops: _,
        } = self;
        rounds.finish()?;
        Ok(Script::new(decls.into_decls(), rounds))
    }
}

/// Reads the first lines, as many as are plainly workers' by the rules, and answers how many, and those behind them.
pub(crate) fn read_front<'a>(
    reader: &mut Reader,
    bytes: &'a [u8],
) -> Result<(u32, &'a [u8]), Memory>
    ensures { IfOk result (λ x. LeavesOthers bytes.now x.1.now reader.old reader.new x.0) }
{
    let room = reader.room() as u32;
    let mut at = 0;
    for count in 0..room {
        let Some(end) = reader.take_front(bytes, at)? else {
            return Ok((count, &bytes[at..]));
        };
        at = end + 1;
    }
    Ok((room, &bytes[at..]))
}
