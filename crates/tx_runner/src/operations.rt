// One operation of a line, on an array or on a tree.
ghost use Rattle.std.specs.Prelude.{◌<◌, List, IsTrue, length};
ghost use Rattle.serial_model.specs.declared.op.Op.TheVariants as ops;
ghost use Rattle.serial_model.specs.declared.reply.Reply.{Reply};
ghost use Rattle.serial_model.specs.Keys.{fits};
ghost use Rattle.engine_pages.specs.Passes.{view, IsPassOf};
ghost use Rattle.page_commit.specs.Live.{IsLive};
ghost use Rattle.tx_runner.specs.Steps.{RunsOp};

use crate::LineReplies;
use crate::on_arrays::{add_in_array, read_in_array, take_in_array, write_in_array};
use crate::on_trees::{
    add_in_tree, read_in_tree, remove_in_tree, scan_in_tree, take_in_tree, write_in_tree,
};
use engine_pages::{Engine, Pass, RefusalCause};
use page_commit::{Txn, is_array};
use serial_model::{Key, Op, Verdict};

/// Runs one operation: `Done` where the transaction goes on.
pub(crate) fn run_op(
    engine: &Engine,
    pass: &mut Pass,
    txn: &mut Txn,
    op: Op,
    replies: &mut LineReplies,
) -> Result<Verdict, RefusalCause>
    requires of { IsPassOf engine.now pass.old }
    requires live { IsLive txn.old.sets (view pass.old) }
    requires fitting { IsTrue (fits (view pass.old).layout.decls op) }
    requires room { length replies.old < 16 }
    ensures of { IsPassOf engine.now pass.new }
    ensures runs { RunsOp op result replies.old replies.new txn.old.sets txn.new.sets
        (view pass.old) (view pass.new) }
{
    match op {
        Op::Read(key) => read_key(engine, pass, txn, key, replies),
        Op::Write(key, value) => write_key(engine, pass, txn, key, value),
        Op::Remove(key) => remove_in_tree(engine, pass, &mut txn.sets, key),
        Op::Add(key, amount) => add_to_key(engine, pass, txn, key, amount),
        Op::Take(key, amount) => take_from_key(engine, pass, txn, key, amount),
        Op::Scan { storage, low, high } => {
            scan_in_tree(engine, pass, &mut txn.sets, storage, low, high, replies)
        }
    }
}

// Reads a key, and replies its value, or that there is none.
fn read_key(
    engine: &Engine,
    pass: &mut Pass,
    txn: &mut Txn,
    key: Key,
    replies: &mut LineReplies,
) -> Result<Verdict, RefusalCause>
    requires of { IsPassOf engine.now pass.old }
    requires live { IsLive txn.old.sets (view pass.old) }
    requires fitting { IsTrue (fits (view pass.old).layout.decls (ops.Read key)) }
    requires room { length replies.old < 16 }
    ensures of { IsPassOf engine.now pass.new }
    ensures runs { RunsOp (ops.Read key) result replies.old replies.new txn.old.sets txn.new.sets
        (view pass.old) (view pass.new) }
{
    if is_array(engine, key.storage) {
        return read_in_array(engine, pass, txn, key, replies);
    }
    read_in_tree(engine, pass, &mut txn.sets, key, replies)
}

// Writes a key.
fn write_key(
    engine: &Engine,
    pass: &mut Pass,
    txn: &mut Txn,
    key: Key,
    value: u64,
) -> Result<Verdict, RefusalCause>
    requires of { IsPassOf engine.now pass.old }
    requires live { IsLive txn.old.sets (view pass.old) }
    requires fitting { IsTrue (fits (view pass.old).layout.decls (ops.Write key value)) }
    ensures of { IsPassOf engine.now pass.new }
    ensures runs { (replies : List Reply) → RunsOp (ops.Write key value) result replies replies
        txn.old.sets txn.new.sets (view pass.old) (view pass.new) }
{
    if is_array(engine, key.storage) {
        return write_in_array(engine, pass, txn, key, value);
    }
    write_in_tree(engine, pass, &mut txn.sets, key, value)
}

// Adds to the value at a key.
fn add_to_key(
    engine: &Engine,
    pass: &mut Pass,
    txn: &mut Txn,
    key: Key,
    amount: u64,
) -> Result<Verdict, RefusalCause>
    requires of { IsPassOf engine.now pass.old }
    requires live { IsLive txn.old.sets (view pass.old) }
    requires fitting { IsTrue (fits (view pass.old).layout.decls (ops.Add key amount)) }
    ensures of { IsPassOf engine.now pass.new }
    ensures runs { (replies : List Reply) → RunsOp (ops.Add key amount) result replies replies
        txn.old.sets txn.new.sets (view pass.old) (view pass.new) }
{
    if is_array(engine, key.storage) {
        return add_in_array(engine, pass, txn, key, amount);
    }
    add_in_tree(engine, pass, &mut txn.sets, key, amount)
}

// Takes from the value at a key.
fn take_from_key(
    engine: &Engine,
    pass: &mut Pass,
    txn: &mut Txn,
    key: Key,
    amount: u64,
) -> Result<Verdict, RefusalCause>
    requires of { IsPassOf engine.now pass.old }
    requires live { IsLive txn.old.sets (view pass.old) }
    requires fitting { IsTrue (fits (view pass.old).layout.decls (ops.Take key amount)) }
    ensures of { IsPassOf engine.now pass.new }
    ensures runs { (replies : List Reply) → RunsOp (ops.Take key amount) result replies replies
        txn.old.sets txn.new.sets (view pass.old) (view pass.new) }
{
    if is_array(engine, key.storage) {
        return take_in_array(engine, pass, txn, key, amount);
    }
    take_in_tree(engine, pass, &mut txn.sets, key, amount)
}
