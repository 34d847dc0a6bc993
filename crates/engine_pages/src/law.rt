// The rule of the table, and what its steps on slots and snapshot pages tell.
use crate::{Start, View};
use atomic_table::{Play, TableRule};
use std::marker::{Brand, PhantomData};

/// The words show a sound state of both machines, and each view a part of it.
pub struct Law;

impl TableRule<(), View, Start> for Law {
    ghost use Rattle.engine_pages.specs.Rule.{Shows};
    ghost use Rattle.engine_pages.specs.Views.{opening_view};

    ghost holds = { λ l s. Shows l s.words s.views };

    ghost first = { opening_view };
}

/// Which slot. Each call picks it.
pub trait Slotted {
    ghost use Rattle.std.specs.Prelude.{ℕ};

    ghost slot: { ℕ };
}

// No call goes by this one.
impl Slotted for Brand {
    ghost slot = { 0 };
}

/// A slot is held.
pub struct Entering<J: Slotted> {
    of: PhantomData<J>,
}

impl<J: Slotted> Play<(), View> for Entering<J> {
    ghost use Rattle.engine_pages.specs.Steps.{told};
    ghost use Rattle.engine_pages.specs.Slots.{Enters};

    ghost then = { told (Enters J.slot) };
}

/// A slot is held no more.
pub struct Leaving<J: Slotted> {
    of: PhantomData<J>,
}

impl<J: Slotted> Play<(), View> for Leaving<J> {
    ghost use Rattle.engine_pages.specs.Steps.{told};
    ghost use Rattle.engine_pages.specs.Slots.{Leaves};

    ghost then = { told (Leaves J.slot) };
}

/// A slot is given.
pub struct Giving<J: Slotted> {
    of: PhantomData<J>,
}

impl<J: Slotted> Play<(), View> for Giving<J> {
    ghost use Rattle.engine_pages.specs.Steps.{told};
    ghost use Rattle.engine_pages.specs.Slots.{Gives};

    ghost then = { told (Gives J.slot) };
}

/// A slot word is looked at.
pub struct LookingAt<J: Slotted> {
    of: PhantomData<J>,
}

impl<J: Slotted> Play<(), View> for LookingAt<J> {
    ghost use Rattle.engine_pages.specs.Steps.{told};
    ghost use Rattle.engine_pages.specs.Slots.{Looks};

    ghost then = { told (Looks J.slot) };
}

/// An owned slot is published as no page.
pub struct PublishingBlank<J: Slotted> {
    of: PhantomData<J>,
}

impl<J: Slotted> Play<(), View> for PublishingBlank<J> {
    ghost use Rattle.engine_pages.specs.Steps.{told};
    ghost use Rattle.engine_pages.specs.Slots.{PublishesBlank};

    ghost then = { told (PublishesBlank J.slot) };
}

/// A published slot is given up.
pub struct Retiring<J: Slotted> {
    of: PhantomData<J>,
}

impl<J: Slotted> Play<(), View> for Retiring<J> {
    ghost use Rattle.engine_pages.specs.Steps.{told};
    ghost use Rattle.engine_pages.specs.Slots.{Retires};

    ghost then = { told (Retires J.slot) };
}

/// Which keys of which snapshot page. Each call picks them.
pub trait Sourced {
    ghost use Rattle.std.specs.Prelude.{ℕ};
    ghost use Rattle.homes.specs.declared.places.Span.{Span};

    ghost span: { Span };

    ghost page: { ℕ };
}

// No call goes by this one.
impl Sourced for Brand {
    ghost span = { record { storage = 0; low = 0; high = 0 } };

    ghost page = { 0 };
}

/// An owned slot is published as a copy of a leaf.
pub struct PublishingCopy<J: Slotted, K: Sourced> {
    of: PhantomData<J>,
    source: PhantomData<K>,
}

impl<J: Slotted, K: Sourced> Play<(), View> for PublishingCopy<J, K> {
    ghost use Rattle.engine_pages.specs.Steps.{told};
    ghost use Rattle.engine_pages.specs.Slots.{PublishesCopy};

    ghost then = { told (PublishesCopy J.slot K.span K.page) };
}

/// Which word of an owned page, and what it becomes. Each call picks them.
pub trait Worded {
    ghost use Rattle.std.specs.Prelude.{ℕ};

    ghost index: { ℕ };

    ghost value: { ℕ };
}

// No call goes by this one.
impl Worded for Brand {
    ghost index = { 0 };

    ghost value = { 0 };
}

/// A word of an owned page is stored.
pub struct Filling<J: Slotted, K: Worded> {
    of: PhantomData<J>,
    word: PhantomData<K>,
}

impl<J: Slotted, K: Worded> Play<(), View> for Filling<J, K> {
    ghost use Rattle.engine_pages.specs.Steps.{told};
    ghost use Rattle.engine_pages.specs.Slots.{Fills};

    ghost then = { told (Fills J.slot K.index K.value) };
}

/// Which word of which snapshot page. Each call picks them.
pub trait Stored {
    ghost use Rattle.std.specs.Prelude.{ℕ};

    ghost page: { ℕ };

    ghost index: { ℕ };
}

// No call goes by this one.
impl Stored for Brand {
    ghost page = { 0 };

    ghost index = { 0 };
}

/// A word of a snapshot page is loaded.
pub struct LoadingResident<J: Stored> {
    of: PhantomData<J>,
}

impl<J: Stored> Play<(), View> for LoadingResident<J> {
    ghost use Rattle.engine_pages.specs.Steps.{told};
    ghost use Rattle.engine_pages.specs.Loads.{LoadsResident};

    ghost then = { told (LoadsResident J.page J.index) };
}

/// Where a pointer stands, and its keys. Each call picks it.
pub trait Pointed {
    ghost use Rattle.homes.specs.declared.places.At.{At};
    ghost use Rattle.homes.specs.declared.places.Span.{Span};

    ghost at: { At };

    ghost span: { Span };
}

// No call goes by this one.
impl Pointed for Brand {
    ghost use Rattle.homes.specs.declared.places.At.TheVariants.{Root};

    ghost at = { Root 0 };

    ghost span = { record { storage = 0; low = 0; high = 0 } };
}

/// A pointer is loaded.
pub struct Following<J: Pointed> {
    of: PhantomData<J>,
}

impl<J: Pointed> Play<(), View> for Following<J> {
    ghost use Rattle.engine_pages.specs.Steps.{told};
    ghost use Rattle.engine_pages.specs.Pointers.{Follows};

    ghost then = { told (Follows J.span) };
}
