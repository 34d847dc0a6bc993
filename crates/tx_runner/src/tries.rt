// One try of a line.
ghost use Rattle.std.specs.Prelude.{◌≡◌, ◌+◌, ◌≤◌, [], IfOk, IfErr, IsTrue, length, sum_by};
ghost use Rattle.std.specs.List.{AllByRecursion};
ghost use Rattle.serial_model.specs.Keys.{fits};
ghost use Rattle.tx_sets.specs.Gathered.{AreEmpty};
ghost use Rattle.engine_pages.specs.Passes.{view, IsPassOf};
ghost use Rattle.page_commit.specs.Live.{IsLive, IsOver};
ghost use Rattle.page_commit.specs.Refusing.{HasRefused};
ghost use Rattle.page_commit.specs.Running.{HasRun};
ghost use Rattle.tx_runner.specs.Lines.{keeps, op_steps, try_steps};
ghost use Rattle.tx_runner.specs.LineEnds.{HasCommittedLine};
ghost use Rattle.tx_runner.specs.Steps.{HasAnsweredAll, HasRoom, IsCauseAmong, RefusesTry};

use crate::operations::run_op;
use crate::{LineReplies, LineRoom};
use engine_pages::{Engine, Pass, RefusalCause};
use page_commit::Txn;
use serial_model::{Op, Verdict};

/// Runs the operations as one transaction, and commits it, with its writes or without them as it ended.
pub(crate) fn try_line(
    engine: &Engine,
    pass: &mut Pass,
    txn: &mut Txn,
    ops: &[Op],
    room: &mut LineRoom,
) -> Result<Verdict, RefusalCause>
    requires of { IsPassOf engine.now pass.old }
    requires over { IsOver (view pass.old) }
    requires fitting { AllByRecursion (λ op. IsTrue (fits (view pass.old).layout.decls op)) ops.now }
    requires few { length ops.now ≤ 16 }
    ensures of { IsPassOf engine.now pass.new }
    ensures commits { IfOk result (λ verdict. HasCommittedLine ops.now 1 verdict room.new.replies room.new.commit
        (view pass.old) (view pass.new)) }
    ensures refused { IfErr result (λ why. RefusesTry ops.now why (view pass.old) (view pass.new)) }
    ensures steps { (view pass.new).steps ≤ (view pass.old).steps
        + try_steps (view pass.old).layout.decls (view pass.old).layout.slots ops.now }
{
    room.replies.clear();
    txn.begin(engine, pass)?;
    let verdict = run_ops(engine, pass, txn, ops, &mut room.replies)?;
    has_room(txn);
    room.commit.number = txn.commit(engine, pass, keeps(verdict), &mut room.commit.changes)?;
    Ok(verdict)
}

// Whether a transaction that ended so keeps its writes.
fn keeps(verdict: Verdict) -> bool
    ensures { result ≡ keeps verdict }
{
    match verdict {
        Verdict::Done => true,
        Verdict::Short | Verdict::Over => false,
    }
}

// Runs the operations in order, up to the first that ends the transaction.
fn run_ops(
    engine: &Engine,
    pass: &mut Pass,
    txn: &mut Txn,
    ops: &[Op],
    replies: &mut LineReplies,
) -> Result<Verdict, RefusalCause>
    requires of { IsPassOf engine.now pass.old }
    requires live { IsLive txn.old.sets (view pass.old) }
    requires run { HasRun [] [] txn.old.sets (view pass.old) }
    requires empty { AreEmpty txn.old.sets }
    requires fitting { AllByRecursion (λ op. IsTrue (fits (view pass.old).layout.decls op)) ops.now }
    requires few { length ops.now ≤ 16 }
    requires none { replies.old ≡ [] }
    ensures of { IsPassOf engine.now pass.new }
    ensures answers { IfOk result (λ verdict. HasAnsweredAll ops.now verdict replies.new txn.new.sets
        (view pass.old) (view pass.new)) }
    ensures refused { IfErr result (λ why. HasRefused why (view pass.old) (view pass.new)) }
    ensures cause { IfErr result (λ why. IsCauseAmong ops.now why (view pass.old) (view pass.new)) }
    ensures steps { (view pass.new).steps ≤ (view pass.old).steps
        + sum_by (op_steps (view pass.old).layout.decls (view pass.old).layout.slots) ops.now }
{
    let mut done = 0;
    while done < ops.len() {
        let verdict = run_op(engine, pass, txn, ops[done], replies)?;
        if !keeps(verdict) {
            return Ok(verdict);
        }
        done += 1;
    }
    Ok(Verdict::Done)
}

// The sets of a transaction have no more than there is room for.
fn has_room(txn: &Txn)
    ensures { HasRoom txn.now.sets }
{
    let _reads = txn.sets.reads.is_full();
    let _writes = txn.sets.writes.is_full();
    let _pointers = txn.sets.pointers.is_full();
    let _headers = txn.sets.headers.is_full();
    let _holds = txn.sets.holds.is_full();
}
