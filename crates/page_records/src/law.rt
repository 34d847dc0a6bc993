// What steps on records tell.
use atomic_table::Play;
use engine_pages::View;
use std::marker::{Brand, PhantomData};

/// Which key's record, and where it stands. Each call picks them.
pub trait Placed {
    ghost use Rattle.homes.specs.declared.places.Spot.{Spot};
    ghost use Rattle.serial_model.specs.declared.key.Key.{Key};

    ghost key: { Key };

    ghost spot: { Spot };
}

// No call goes by this one.
impl Placed for Brand {
    ghost key = { record { storage = 0; key = 0 } };

    ghost spot = { record { slot = 0; index = 0 } };
}

/// The first load of a record's word.
pub struct Seeing<J: Placed> {
    of: PhantomData<J>,
}

impl<J: Placed> Play<(), View> for Seeing<J> {
    ghost use Rattle.engine_pages.specs.Steps.{told};
    ghost use Rattle.page_records.specs.Reads.{SeesRecord};

    ghost then = { told (SeesRecord J.key J.spot) };
}

/// A load of a record's word that keeps nothing.
pub struct LoadingWord<J: Placed> {
    of: PhantomData<J>,
}

impl<J: Placed> Play<(), View> for LoadingWord<J> {
    ghost use Rattle.engine_pages.specs.Steps.{told};
    ghost use Rattle.page_records.specs.Reads.{LoadsWord};

    ghost then = { told (LoadsWord J.spot) };
}

/// The load of a value.
pub struct Loading<J: Placed> {
    of: PhantomData<J>,
}

impl<J: Placed> Play<(), View> for Loading<J> {
    ghost use Rattle.engine_pages.specs.Steps.{told};
    ghost use Rattle.page_records.specs.Reads.{Loads};

    ghost then = { told (Loads J.key J.spot) };
}

/// The second load of a record's word.
pub struct Confirming<J: Placed> {
    of: PhantomData<J>,
}

impl<J: Placed> Play<(), View> for Confirming<J> {
    ghost use Rattle.engine_pages.specs.Steps.{told};
    ghost use Rattle.page_records.specs.Reads.{Confirms};

    ghost then = { told (Confirms J.key J.spot) };
}

/// A record is locked.
pub struct Locking<J: Placed> {
    of: PhantomData<J>,
}

impl<J: Placed> Play<(), View> for Locking<J> {
    ghost use Rattle.engine_pages.specs.Steps.{told};
    ghost use Rattle.page_records.specs.Locks.{Locks};

    ghost then = { told (Locks J.key J.spot) };
}

/// A value is put.
pub struct Putting<J: Placed> {
    of: PhantomData<J>,
}

impl<J: Placed> Play<(), View> for Putting<J> {
    ghost use Rattle.engine_pages.specs.Steps.{told};
    ghost use Rattle.page_records.specs.Locks.{Puts};

    ghost then = { told (Puts J.key) };
}

/// A lock is opened.
pub struct Opening<J: Placed> {
    of: PhantomData<J>,
}

impl<J: Placed> Play<(), View> for Opening<J> {
    ghost use Rattle.engine_pages.specs.Steps.{told};
    ghost use Rattle.page_records.specs.Locks.{Opens};

    ghost then = { told (Opens J.key) };
}

/// What an attempt writes. Each call picks it.
pub trait Writing {
    ghost use Rattle.serial_model.specs.declared.number.Change.{Change};
    ghost use Rattle.std.specs.Prelude.{List};

    ghost writes: { List Change };
}

// No call goes by this one.
impl Writing for Brand {
    ghost use Rattle.std.specs.Prelude.{[]};

    ghost writes = { [] };
}

/// An attempt takes its number.
pub struct Drawing<J: Writing> {
    of: PhantomData<J>,
}

impl<J: Writing> Play<(), View> for Drawing<J> {
    ghost use Rattle.engine_pages.specs.Steps.{told};
    ghost use Rattle.page_records.specs.Attempts.{Draws};

    ghost then = { told (Draws J.writes) };
}

/// An attempt counts.
pub struct Deciding;

impl Play<(), View> for Deciding {
    ghost use Rattle.engine_pages.specs.Steps.{told};
    ghost use Rattle.page_records.specs.Attempts.{Decides};

    ghost then = { told Decides };
}

/// Which part, by its key and place; its word as it was seen; and whether it has an own lock there. Each call picks them.
pub trait Compared {
    ghost use Rattle.std.specs.Prelude.{ℕ, Bool};
    ghost use Rattle.homes.specs.declared.places.Spot.{Spot};
    ghost use Rattle.serial_model.specs.declared.key.Key.{Key};

    ghost key: { Key };

    ghost spot: { Spot };

    ghost word: { ℕ };

    ghost own: { Bool };
}

// No call goes by this one.
impl Compared for Brand {
    ghost use Rattle.std.specs.Prelude.{false};

    ghost key = { record { storage = 0; key = 0 } };

    ghost spot = { record { slot = 0; index = 0 } };

    ghost word = { 0 };

    ghost own = { false };
}

/// A part is checked.
pub struct Checking<J: Compared> {
    of: PhantomData<J>,
}

impl<J: Compared> Play<(), View> for Checking<J> {
    ghost use Rattle.engine_pages.specs.Steps.{told};
    ghost use Rattle.page_records.specs.Attempts.{Checks};

    ghost then = { told (Checks J.key J.spot J.word J.own) };
}

/// A transaction begins.
pub struct Beginning;

impl Play<(), View> for Beginning {
    ghost use Rattle.engine_pages.specs.Steps.{told};
    ghost use Rattle.page_records.specs.Ends.{BeginsTransaction};

    ghost then = { told BeginsTransaction };
}

/// Why a transaction ends. Each call picks it.
pub trait Excused {
    ghost use Rattle.std.specs.Prelude.{Option};
    ghost use Rattle.engine_pages.specs.declared.view.RefusalCause.{RefusalCause};

    ghost why: { Option RefusalCause };
}

// No call goes by this one.
impl Excused for Brand {
    ghost use Rattle.std.specs.Prelude.{None};

    ghost why = { None };
}

/// A transaction ends before its draw.
pub struct Forgetting<J: Excused> {
    of: PhantomData<J>,
}

impl<J: Excused> Play<(), View> for Forgetting<J> {
    ghost use Rattle.engine_pages.specs.Steps.{told};
    ghost use Rattle.page_records.specs.Ends.{Forgets};

    ghost then = { told (Forgets J.why) };
}
