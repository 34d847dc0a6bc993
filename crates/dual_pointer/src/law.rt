// What steps on pointers tell.
use atomic_table::Play;
use engine_pages::View;
use std::marker::{Brand, PhantomData};

/// Which pointer, over which keys. Each call picks them.
pub trait Placed {
    ghost use Rattle.homes.specs.declared.places.At.{At};
    ghost use Rattle.homes.specs.declared.places.Span.{Span};

    ghost at: { At };

    ghost span: { Span };
}

// No call goes by this one.
impl Placed for Brand {
    ghost use Rattle.homes.specs.declared.places.At.TheVariants.{Root};

    ghost at = { Root 0 };

    ghost span = { record { storage = 0; low = 0; high = 0 } };
}

/// A pointer is loaded, and kept where it leads to no slot.
pub struct Seeing<J: Placed> {
    of: PhantomData<J>,
}

impl<J: Placed> Play<(), View> for Seeing<J> {
    ghost use Rattle.engine_pages.specs.Steps.{told};
    ghost use Rattle.dual_pointer.specs.Parts.{SeesPointer};

    ghost then = { told (SeesPointer J.at J.span) };
}

/// Which slot is filled, as a copy of which page over which keys. Each call picks them.
pub trait Filled {
    ghost use Rattle.std.specs.Prelude.{ℕ};
    ghost use Rattle.homes.specs.declared.places.Span.{Span};

    ghost slot: { ℕ };

    ghost span: { Span };

    ghost page: { ℕ };
}

// No call goes by this one.
impl Filled for Brand {
    ghost slot = { 0 };

    ghost span = { record { storage = 0; low = 0; high = 0 } };

    ghost page = { 0 };
}

/// An owned slot is published as a copy of an interior page.
pub struct PublishingPointers<J: Filled> {
    of: PhantomData<J>,
}

impl<J: Filled> Play<(), View> for PublishingPointers<J> {
    ghost use Rattle.engine_pages.specs.Steps.{told};
    ghost use Rattle.engine_pages.specs.Slots.{PublishesCopy};

    ghost then = { told (PublishesCopy J.slot J.span J.page) };
}

/// Which pointer, over which keys, and which slot. Each call picks them.
pub trait Led {
    ghost use Rattle.std.specs.Prelude.{ℕ};
    ghost use Rattle.homes.specs.declared.places.At.{At};
    ghost use Rattle.homes.specs.declared.places.Span.{Span};

    ghost at: { At };

    ghost span: { Span };

    ghost slot: { ℕ };
}

// No call goes by this one.
impl Led for Brand {
    ghost use Rattle.homes.specs.declared.places.At.TheVariants.{Root};

    ghost at = { Root 0 };

    ghost span = { record { storage = 0; low = 0; high = 0 } };

    ghost slot = { 0 };
}

/// A slot is put in at a pointer.
pub struct Installing<J: Led> {
    of: PhantomData<J>,
}

impl<J: Led> Play<(), View> for Installing<J> {
    ghost use Rattle.engine_pages.specs.Steps.{told};
    ghost use Rattle.dual_pointer.specs.Installs.{Installs};

    ghost then = { told (Installs J.slot J.span) };
}
