// What the check of a pointer tells.
use atomic_table::Play;
use engine_pages::View;
use std::marker::{Brand, PhantomData};

/// Which pointer, and the word that was seen. Each call picks them.
pub trait Compared {
    ghost use Rattle.std.specs.Prelude.{ℕ};
    ghost use Rattle.homes.specs.declared.places.At.{At};

    ghost at: { At };

    ghost word: { ℕ };
}

// No call goes by this one.
impl Compared for Brand {
    ghost use Rattle.homes.specs.declared.places.At.TheVariants.{Root};

    ghost at = { Root 0 };

    ghost word = { 0 };
}

/// A pointer is checked.
pub struct CheckingPointer<J: Compared> {
    of: PhantomData<J>,
}

impl<J: Compared> Play<(), View> for CheckingPointer<J> {
    ghost use Rattle.engine_pages.specs.Steps.{told};
    ghost use Rattle.pointer_checks.specs.Checks.{ChecksPointer};

    ghost then = { told (ChecksPointer J.at J.word) };
}
