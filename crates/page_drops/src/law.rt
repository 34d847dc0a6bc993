// What the step tells.
use atomic_table::Play;
use engine_pages::View;
use std::marker::{Brand, PhantomData};

/// Which page is kept. Each call picks it.
pub trait Noted {
    ghost use Rattle.engine_pages.specs.declared.view.KeptPage.{KeptPage};

    ghost page: { KeptPage };
}

// No call goes by this one.
impl Noted for Brand {
    ghost use Rattle.engine_pages.specs.declared.view.KeptWhy.TheVariants.{Locked};

    ghost page = { record { step = 0; word = 0; seen = 0; why = Locked } };
}

/// A page is noted as kept.
pub struct Noting<J: Noted> {
    of: PhantomData<J>,
}

impl<J: Noted> Play<(), View> for Noting<J> {
    ghost use Rattle.engine_pages.specs.Steps.{told};
    ghost use Rattle.page_drops.specs.Works.{Notes};

    ghost then = { told (Notes J.page) };
}

/// A call begins.
pub struct Beginning {}

impl Play<(), View> for Beginning {
    ghost use Rattle.engine_pages.specs.Steps.{told};
    ghost use Rattle.page_drops.specs.Calls.{Begins};

    ghost then = { told Begins };
}

/// Which counts a call notes. Each call picks them.
pub trait Counted {
    ghost use Rattle.engine_pages.specs.declared.view.Dropped.{Dropped};

    ghost counts: { Dropped };
}

// No call goes by this one.
impl Counted for Brand {
    ghost counts = { record { dropped = 0; kept = 0 } };
}

/// The counts of a call are noted.
pub struct Counting<J: Counted> {
    of: PhantomData<J>,
}

impl<J: Counted> Play<(), View> for Counting<J> {
    ghost use Rattle.engine_pages.specs.Steps.{told};
    ghost use Rattle.page_drops.specs.Calls.{TellsCounts};

    ghost then = { told (TellsCounts J.counts) };
}
