// Operations of a line on arrays.
ghost use Rattle.std.specs.Prelude.{◌<◌, List, length};
ghost use Rattle.serial_model.specs.declared.op.Op.TheVariants as ops;
ghost use Rattle.serial_model.specs.declared.reply.Reply.{Reply};
ghost use Rattle.engine_pages.specs.Passes.{view, IsPassOf};
ghost use Rattle.page_commit.specs.Below.{IsArrayKey};
ghost use Rattle.page_commit.specs.Live.{IsLive};
ghost use Rattle.tx_runner.specs.Steps.{RunsOp};

use crate::LineReplies;
use engine_pages::{Engine, Pass, RefusalCause};
use page_commit::Txn;
use serial_model::{Key, Verdict};

/// Reads the key of an array, and replies its value.
pub(crate) fn read_in_array(
    engine: &Engine,
    pass: &mut Pass,
    txn: &mut Txn,
    key: Key,
    replies: &mut LineReplies,
) -> Result<Verdict, RefusalCause>
    requires of { IsPassOf engine.now pass.old }
    requires live { IsLive txn.old.sets (view pass.old) }
    requires array { IsArrayKey (view pass.old).layout.decls key }
    requires room { length replies.old < 16 }
    ensures of { IsPassOf engine.now pass.new }
    ensures runs { RunsOp (ops.Read key) result replies.old replies.new txn.old.sets txn.new.sets
        (view pass.old) (view pass.new) }
{
    match txn.read(engine, pass, key) {
        Ok(value) => {
            replies.push_value(value);
            Ok(Verdict::Done)
        }
        Err(why) => Err(why),
    }
}

/// Writes the key of an array.
pub(crate) fn write_in_array(
    engine: &Engine,
    pass: &mut Pass,
    txn: &mut Txn,
    key: Key,
    value: u64,
) -> Result<Verdict, RefusalCause>
    requires of { IsPassOf engine.now pass.old }
    requires live { IsLive txn.old.sets (view pass.old) }
    requires array { IsArrayKey (view pass.old).layout.decls key }
    ensures of { IsPassOf engine.now pass.new }
    ensures runs { (replies : List Reply) → RunsOp (ops.Write key value) result replies replies
        txn.old.sets txn.new.sets (view pass.old) (view pass.new) }
{
    match txn.write(engine, pass, key, value) {
        Ok(_) => Ok(Verdict::Done),
        Err(why) => Err(why),
    }
}

/// Adds to the value at the key of an array.
pub(crate) fn add_in_array(
    engine: &Engine,
    pass: &mut Pass,
    txn: &mut Txn,
    key: Key,
    amount: u64,
) -> Result<Verdict, RefusalCause>
    requires of { IsPassOf engine.now pass.old }
    requires live { IsLive txn.old.sets (view pass.old) }
    requires array { IsArrayKey (view pass.old).layout.decls key }
    ensures of { IsPassOf engine.now pass.new }
    ensures runs { (replies : List Reply) → RunsOp (ops.Add key amount) result replies replies
        txn.old.sets txn.new.sets (view pass.old) (view pass.new) }
{
    txn.add(engine, pass, key, amount)
}

/// Takes from the value at the key of an array.
pub(crate) fn take_in_array(
    engine: &Engine,
    pass: &mut Pass,
    txn: &mut Txn,
    key: Key,
    amount: u64,
) -> Result<Verdict, RefusalCause>
    requires of { IsPassOf engine.now pass.old }
    requires live { IsLive txn.old.sets (view pass.old) }
    requires array { IsArrayKey (view pass.old).layout.decls key }
    ensures of { IsPassOf engine.now pass.new }
    ensures runs { (replies : List Reply) → RunsOp (ops.Take key amount) result replies replies
        txn.old.sets txn.new.sets (view pass.old) (view pass.new) }
{
    txn.take(engine, pass, key, amount)
}
