// What loads of trees' records tell.
use atomic_table::Play;
use engine_pages::View;
use std::marker::{Brand, PhantomData};

/// Which key's record, and where it stands. Each call picks them.
pub trait Placed {
    ghost use Rattle.homes.specs.declared.places.Spot.{Spot};
    ghost use Rattle.serial_model.specs.declared.key.Key.{Key};

    ghost key: { Key };

    ghost spot: { Spot };
}

// No call goes by this one.
impl Placed for Brand {
    ghost key = { record { storage = 0; key = 0 } };

    ghost spot = { record { slot = 0; index = 0 } };
}

/// The first load of a record's word.
pub struct Seeing<J: Placed> {
    of: PhantomData<J>,
}

impl<J: Placed> Play<(), View> for Seeing<J> {
    ghost use Rattle.engine_pages.specs.Steps.{told};
    ghost use Rattle.tree_records.specs.Reads.{SeesTreeRecord};

    ghost then = { told (SeesTreeRecord J.key J.spot) };
}

/// The load of a value.
pub struct Loading<J: Placed> {
    of: PhantomData<J>,
}

impl<J: Placed> Play<(), View> for Loading<J> {
    ghost use Rattle.engine_pages.specs.Steps.{told};
    ghost use Rattle.tree_records.specs.Reads.{LoadsTree};

    ghost then = { told (LoadsTree J.key J.spot) };
}

/// The second load of a record's word.
pub struct Confirming<J: Placed> {
    of: PhantomData<J>,
}

impl<J: Placed> Play<(), View> for Confirming<J> {
    ghost use Rattle.engine_pages.specs.Steps.{told};
    ghost use Rattle.tree_records.specs.Reads.{ConfirmsTree};

    ghost then = { told (ConfirmsTree J.key J.spot) };
}

/// Which lock, by its key and the word that it found. Each call picks them.
pub trait Locked {
    ghost use Rattle.std.specs.Prelude.{ℕ};
    ghost use Rattle.serial_model.specs.declared.key.Key.{Key};

    ghost key: { Key };

    ghost found: { ℕ };
}

// No call goes by this one.
impl Locked for Brand {
    ghost key = { record { storage = 0; key = 0 } };

    ghost found = { 0 };
}

/// The load of a value under an own lock.
pub struct LoadingHeld<J: Locked> {
    of: PhantomData<J>,
}

impl<J: Locked> Play<(), View> for LoadingHeld<J> {
    ghost use Rattle.engine_pages.specs.Steps.{told};
    ghost use Rattle.tree_records.specs.Held.{LoadsHeld};

    ghost then = { told (LoadsHeld J.key J.found) };
}
