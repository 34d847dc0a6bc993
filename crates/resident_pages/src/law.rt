// What steps on snapshot pages that are not published tell.
use atomic_table::Play;
use engine_pages::View;
use std::marker::{Brand, PhantomData};

/// Which snapshot page. Each call picks it.
pub trait Numbered {
    ghost use Rattle.std.specs.Prelude.{ℕ};

    ghost page: { ℕ };
}

// No call goes by this one.
impl Numbered for Brand {
    ghost page = { 0 };
}

/// The count of published pages is loaded, and a page above it is the keeper's to fill.
pub struct Claiming<J: Numbered> {
    of: PhantomData<J>,
}

impl<J: Numbered> Play<(), View> for Claiming<J> {
    ghost use Rattle.engine_pages.specs.Steps.{told};
    ghost use Rattle.resident_pages.specs.Fills.{ClaimsPage};

    ghost then = { told (ClaimsPage J.page) };
}

/// What goes to which word of which page. Each call picks it.
pub trait Stored {
    ghost use Rattle.std.specs.Prelude.{ℕ};

    ghost page: { ℕ };

    ghost index: { ℕ };

    ghost value: { ℕ };
}

// No call goes by this one.
impl Stored for Brand {
    ghost page = { 0 };

    ghost index = { 0 };

    ghost value = { 0 };
}

/// A word of a snapshot page that is not published is stored.
pub struct FillingPage<J: Stored> {
    of: PhantomData<J>,
}

impl<J: Stored> Play<(), View> for FillingPage<J> {
    ghost use Rattle.engine_pages.specs.Steps.{told};
    ghost use Rattle.resident_pages.specs.Fills.{FillsPage};

    ghost then = { told (FillsPage J.page J.index J.value) };
}

/// Which pages are published, and which places get names, in this order. Each call picks them.
pub trait Publishing {
    ghost use Rattle.std.specs.Prelude.{ℕ, List};
    ghost use Rattle.serial_model.specs.declared.decl.Decl.{Decl};
    ghost use Rattle.snapshot_store.specs.declared.place.PagePlace.{PagePlace};

    ghost pages: { List (List ℕ) };

    ghost places: { List (Decl × PagePlace) };
}

// No call goes by this one.
impl Publishing for Brand {
    ghost use Rattle.std.specs.Prelude.{[]};

    ghost pages = { [] };

    ghost places = { [] };
}

/// The count of published pages rises.
pub struct Extending<J: Publishing> {
    of: PhantomData<J>,
}

impl<J: Publishing> Play<(), View> for Extending<J> {
    ghost use Rattle.engine_pages.specs.Steps.{told};
    ghost use Rattle.resident_pages.specs.Extends.{Extends};

    ghost then = { told (Extends J.pages J.places) };
}
