// The end of a transaction whose call was refused before its draw.
ghost use Rattle.std.specs.Prelude.{◌≡◌, ◌+◌, ◌≤◌, [], Some};
ghost use Rattle.engine_pages.specs.declared.view.Role.TheVariants.{Worker};
ghost use Rattle.engine_pages.specs.Passes.{view, IsPassOf};
ghost use Rattle.page_records.specs.Ends.{worker_of, IsDue};
ghost use Rattle.page_commit.specs.Calls.{end_most};
ghost use Rattle.page_commit.specs.Live.{HasHolds};
ghost use Rattle.page_commit.specs.Needs.{IsRefusedOn};
ghost use Rattle.page_commit.specs.Refusing.{IsWideDue};
ghost use Rattle.page_commit.specs.Steps.{CanRefuse, HasGivenUp};

use crate::leaving::leave_all;
use engine_pages::{Engine, Pass, RefusalCause};
use page_records::forget;
use serial_model::Key;
use tx_sets::Sets;

/// Ends a transaction whose call on a key of a tree was refused for this: at a word on the way to the key, at a slot's, for
/// want of slots, or for a set of these that is full, and of which the call needs an entry more. It is asked of what the
/// pass knows just then.
pub fn refuse_on(
    engine: &Engine,
    pass: &mut Pass,
    sets: &Sets,
    key: Key,
    why: RefusalCause,
) -> RefusalCause
    requires of { IsPassOf engine.now pass.old }
    requires can { CanRefuse sets.now.holds (view pass.old) }
    requires due { IsDue (Some why) (view pass.old) }
    requires on { IsRefusedOn why key sets.now (view pass.old) }
    ensures of { IsPassOf engine.now pass.new }
    ensures why { result ≡ why }
    ensures gives_up { HasGivenUp [] why (view pass.old) (view pass.new) }
    ensures most { (view pass.new).steps ≤ (view pass.old).steps + end_most }
{
    let _ = key;
    refuse(engine, pass, sets, why)
}

/// Drops what was read, and leaves what is held: the transaction was refused for this. Where it was for a full set, that
/// is one of these sets, or its way was too long for the holds.
#[inline(never)]
pub(crate) fn refuse(
    engine: &Engine,
    pass: &mut Pass,
    sets: &Sets,
    why: RefusalCause,
) -> RefusalCause
    requires of { IsPassOf engine.now pass.old }
    requires can { CanRefuse sets.now.holds (view pass.old) }
    requires due { IsDue (Some why) (view pass.old) }
    requires wide { IsWideDue why sets.now (view pass.old) }
    ensures of { IsPassOf engine.now pass.new }
    ensures why { result ≡ why }
    ensures gives_up { HasGivenUp [] why (view pass.old) (view pass.new) }
    ensures most { (view pass.new).steps ≤ (view pass.old).steps + end_most }
{
    forget(engine, pass, Some(why));
    leave_all(engine, pass, sets.holds.as_slice());
    why
}
