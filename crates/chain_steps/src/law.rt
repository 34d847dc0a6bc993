// What steps on the headers of split leaves tell.
use atomic_table::Play;
use engine_pages::View;
use std::marker::{Brand, PhantomData};

/// Which page. Each call picks it.
pub trait Placed {
    ghost use Rattle.std.specs.Prelude.{ℕ};

    ghost slot: { ℕ };
}

// No call goes by this one.
impl Placed for Brand {
    ghost slot = { 0 };
}

/// The header of a split leaf is locked, where it has an expected word.
pub struct Sealing<J: Placed> {
    of: PhantomData<J>,
}

impl<J: Placed> Play<(), View> for Sealing<J> {
    ghost use Rattle.engine_pages.specs.Steps.{told};
    ghost use Rattle.chain_steps.specs.Seals.{Seals};

    ghost then = { told (Seals J.slot) };
}

/// It is opened as it was.
pub struct Unsealing<J: Placed> {
    of: PhantomData<J>,
}

impl<J: Placed> Play<(), View> for Unsealing<J> {
    ghost use Rattle.engine_pages.specs.Steps.{told};
    ghost use Rattle.chain_steps.specs.Seals.{Unseals};

    ghost then = { told (Unseals J.slot) };
}

/// From the pages in which slots, to which snapshot page. Each call picks them.
pub trait Chained {
    ghost use Rattle.std.specs.Prelude.{ℕ, List};

    ghost slots: { List ℕ };

    ghost page: { ℕ };
}

// No call goes by this one.
impl Chained for Brand {
    ghost use Rattle.std.specs.Prelude.{[]};

    ghost slots = { [] };

    ghost page = { 0 };
}

/// A pointer is led from a chain to a snapshot page.
pub struct SwingingChain<J: Chained> {
    of: PhantomData<J>,
}

impl<J: Chained> Play<(), View> for SwingingChain<J> {
    ghost use Rattle.engine_pages.specs.Steps.{told};
    ghost use Rattle.chain_steps.specs.Swings.{SwingsChain};

    ghost then = { told (SwingsChain J.slots J.page) };
}

/// How many pages more are kept. Each call picks it.
pub trait Counted {
    ghost use Rattle.std.specs.Prelude.{ℕ};

    ghost count: { ℕ };
}

// No call goes by this one.
impl Counted for Brand {
    ghost count = { 0 };
}

/// Pages are noted as kept, with the one that was noted last.
pub struct NotingAgain<J: Counted> {
    of: PhantomData<J>,
}

impl<J: Counted> Play<(), View> for NotingAgain<J> {
    ghost use Rattle.engine_pages.specs.Steps.{told};
    ghost use Rattle.chain_steps.specs.Notes.{NotesAgain};

    ghost then = { told (NotesAgain J.count) };
}
