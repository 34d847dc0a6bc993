// Operations of a line on trees.
ghost use Rattle.std.specs.Prelude.{◌≡◌, ◌<◌, ◌∷◌, ◌++◌, [], true, List, length};
ghost use Rattle.serial_model.specs.declared.op.Op.TheVariants as ops;
ghost use Rattle.serial_model.specs.declared.reply.Reply.{Reply};
ghost use Rattle.serial_model.specs.Step.{reply_of};
ghost use Rattle.engine_pages.specs.Pages.{is_tree};
ghost use Rattle.engine_pages.specs.Passes.{view, IsPassOf};
ghost use Rattle.page_commit.specs.Live.{IsLive};
ghost use Rattle.tx_runner.specs.Steps.{RunsOp};

use crate::LineReplies;
use engine_pages::{Engine, Pass, RefusalCause};
use serial_model::{Key, Rows, Verdict};
use tree_calls::read;
use tree_ranges::scan;
use tree_writes::{add, remove, take, write};
use tx_sets::Sets;

/// Reads the key of a tree, and replies its value, or that there is none.
pub(crate) fn read_in_tree(
    engine: &Engine,
    pass: &mut Pass,
    sets: &mut Sets,
    key: Key,
    replies: &mut LineReplies,
) -> Result<Verdict, RefusalCause>
    requires of { IsPassOf engine.now pass.old }
    requires live { IsLive sets.old (view pass.old) }
    requires tree { is_tree (view pass.old).layout.decls key.storage ≡ true }
    requires room { length replies.old < 16 }
    ensures of { IsPassOf engine.now pass.new }
    ensures runs { RunsOp (ops.Read key) result replies.old replies.new sets.old sets.new
        (view pass.old) (view pass.new) }
{
    match read(engine, pass, sets, key) {
        Ok(value) => {
            push_reply(replies, value);
            Ok(Verdict::Done)
        }
        Err(why) => Err(why),
    }
}

// What a read in a tree replies.
fn push_reply(replies: &mut LineReplies, value: Option<u64>)
    requires { length replies.old < 16 }
    ensures { replies.new ≡ replies.old ++ reply_of true value ∷ [] }
{
    match value {
        Some(value) => replies.push_value(value),
        None => replies.push_absent(),
    }
}

/// Writes the key of a tree.
pub(crate) fn write_in_tree(
    engine: &Engine,
    pass: &mut Pass,
    sets: &mut Sets,
    key: Key,
    value: u64,
) -> Result<Verdict, RefusalCause>
    requires of { IsPassOf engine.now pass.old }
    requires live { IsLive sets.old (view pass.old) }
    requires tree { is_tree (view pass.old).layout.decls key.storage ≡ true }
    ensures of { IsPassOf engine.now pass.new }
    ensures runs { (replies : List Reply) → RunsOp (ops.Write key value) result replies replies
        sets.old sets.new (view pass.old) (view pass.new) }
{
    match write(engine, pass, sets, key, value) {
        Ok(_) => Ok(Verdict::Done),
        Err(why) => Err(why),
    }
}

/// Removes the key of a tree, if it is there.
pub(crate) fn remove_in_tree(
    engine: &Engine,
    pass: &mut Pass,
    sets: &mut Sets,
    key: Key,
) -> Result<Verdict, RefusalCause>
    requires of { IsPassOf engine.now pass.old }
    requires live { IsLive sets.old (view pass.old) }
    requires tree { is_tree (view pass.old).layout.decls key.storage ≡ true }
    ensures of { IsPassOf engine.now pass.new }
    ensures runs { (replies : List Reply) → RunsOp (ops.Remove key) result replies replies
        sets.old sets.new (view pass.old) (view pass.new) }
{
    match remove(engine, pass, sets, key) {
        Ok(_) => Ok(Verdict::Done),
        Err(why) => Err(why),
    }
}

/// Adds to the value at the key of a tree.
pub(crate) fn add_in_tree(
    engine: &Engine,
    pass: &mut Pass,
    sets: &mut Sets,
    key: Key,
    amount: u64,
) -> Result<Verdict, RefusalCause>
    requires of { IsPassOf engine.now pass.old }
    requires live { IsLive sets.old (view pass.old) }
    requires tree { is_tree (view pass.old).layout.decls key.storage ≡ true }
    ensures of { IsPassOf engine.now pass.new }
    ensures runs { (replies : List Reply) → RunsOp (ops.Add key amount) result replies replies
        sets.old sets.new (view pass.old) (view pass.new) }
{
    add(engine, pass, sets, key, amount)
}

/// Takes from the value at the key of a tree.
pub(crate) fn take_in_tree(
    engine: &Engine,
    pass: &mut Pass,
    sets: &mut Sets,
    key: Key,
    amount: u64,
) -> Result<Verdict, RefusalCause>
    requires of { IsPassOf engine.now pass.old }
    requires live { IsLive sets.old (view pass.old) }
    requires tree { is_tree (view pass.old).layout.decls key.storage ≡ true }
    ensures of { IsPassOf engine.now pass.new }
    ensures runs { (replies : List Reply) → RunsOp (ops.Take key amount) result replies replies
        sets.old sets.new (view pass.old) (view pass.new) }
{
    take(engine, pass, sets, key, amount)
}

/// Scans a tree from the low key to the high one, and replies the rows.
pub(crate) fn scan_in_tree(
    engine: &Engine,
    pass: &mut Pass,
    sets: &mut Sets,
    storage: u8,
    low: u64,
    high: u64,
    replies: &mut LineReplies,
) -> Result<Verdict, RefusalCause>
    requires of { IsPassOf engine.now pass.old }
    requires live { IsLive sets.old (view pass.old) }
    requires tree { is_tree (view pass.old).layout.decls storage ≡ true }
    requires room { length replies.old < 16 }
    ensures of { IsPassOf engine.now pass.new }
    ensures runs { RunsOp (ops.Scan storage low high) result replies.old replies.new sets.old sets.new
        (view pass.old) (view pass.new) }
{
    let mut rows = Rows::new();
    match scan(engine, pass, sets, storage, low, high, &mut rows) {
        Ok(_) => {
            replies.push_rows(&rows);
            Ok(Verdict::Done)
        }
        Err(why) => Err(why),
    }
}
