// What the steps tell.
use atomic_table::Play;
use engine_pages::View;
use std::marker::{Brand, PhantomData};

/// Which pointer. Each call picks it.
pub trait Placed {
    ghost use Rattle.homes.specs.declared.places.At.{At};

    ghost at: { At };
}

// No call goes by this one.
impl Placed for Brand {
    ghost use Rattle.homes.specs.declared.places.At.TheVariants.{Root};

    ghost at = { Root 0 };
}

/// A pointer is shut.
pub struct Shutting<J: Placed> {
    of: PhantomData<J>,
}

impl<J: Placed> Play<(), View> for Shutting<J> {
    ghost use Rattle.engine_pages.specs.Steps.{told};
    ghost use Rattle.pointer_swings.specs.Shuts.{Shuts};

    ghost then = { told (Shuts J.at) };
}

/// A pointer that was shut is opened.
pub struct Reopening<J: Placed> {
    of: PhantomData<J>,
}

impl<J: Placed> Play<(), View> for Reopening<J> {
    ghost use Rattle.engine_pages.specs.Steps.{told};
    ghost use Rattle.pointer_swings.specs.Shuts.{Reopens};

    ghost then = { told (Reopens J.at) };
}

/// To which snapshot page, from which slot. Each call picks them.
pub trait Targeted {
    ghost use Rattle.std.specs.Prelude.{ℕ};

    ghost slot: { ℕ };

    ghost page: { ℕ };
}

// No call goes by this one.
impl Targeted for Brand {
    ghost slot = { 0 };

    ghost page = { 0 };
}

/// A pointer names another snapshot page.
pub struct Renewing<J: Targeted> {
    of: PhantomData<J>,
}

impl<J: Targeted> Play<(), View> for Renewing<J> {
    ghost use Rattle.engine_pages.specs.Steps.{told};
    ghost use Rattle.pointer_swings.specs.Renewals.{Renews};

    ghost then = { told (Renews J.page) };
}

/// A pointer is led from a slot to a snapshot page.
pub struct Swinging<J: Targeted> {
    of: PhantomData<J>,
}

impl<J: Targeted> Play<(), View> for Swinging<J> {
    ghost use Rattle.engine_pages.specs.Steps.{told};
    ghost use Rattle.pointer_swings.specs.Swings.{Swings};

    ghost then = { told (Swings J.slot J.page) };
}

/// Which word of which snapshot page, over which keys. Each call picks them.
pub trait Descended {
    ghost use Rattle.std.specs.Prelude.{ℕ};
    ghost use Rattle.homes.specs.declared.places.Span.{Span};

    ghost span: { Span };

    ghost page: { ℕ };

    ghost index: { ℕ };
}

// No call goes by this one.
impl Descended for Brand {
    ghost span = { record { storage = 0; low = 0; high = 0 } };

    ghost page = { 0 };

    ghost index = { 0 };
}

/// A word of a snapshot page is loaded, and the page below is known.
pub struct Descending<J: Descended> {
    of: PhantomData<J>,
}

impl<J: Descended> Play<(), View> for Descending<J> {
    ghost use Rattle.engine_pages.specs.Steps.{told};
    ghost use Rattle.pointer_swings.specs.Children.{Descends};

    ghost then = { told (Descends J.span J.page J.index) };
}

/// A word of a tree's snapshot page is loaded, and the page below is known.
pub struct DescendingTree<J: Descended> {
    of: PhantomData<J>,
}

impl<J: Descended> Play<(), View> for DescendingTree<J> {
    ghost use Rattle.engine_pages.specs.Steps.{told};
    ghost use Rattle.pointer_swings.specs.Children.{DescendsTree};

    ghost then = { told (DescendsTree J.span J.page J.index) };
}

/// What was seen is let go.
pub struct LettingGo {}

impl Play<(), View> for LettingGo {
    ghost use Rattle.engine_pages.specs.Steps.{told};
    ghost use Rattle.pointer_swings.specs.Children.{LetsGo};

    ghost then = { told LetsGo };
}
