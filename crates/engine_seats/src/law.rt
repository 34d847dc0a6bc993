// What cuts, joins and steps tell.
use atomic_table::{Join, Play, Split};
use engine_pages::View;
use std::marker::{Brand, PhantomData};

/// Which worker. Each call picks it.
pub trait Named {
    ghost use Rattle.std.specs.Prelude.{ℕ};

    ghost worker: { ℕ };
}

// No call goes by this one.
impl Named for Brand {
    ghost worker = { 0 };
}

/// A worker's pass is cut off the keeper's.
pub struct Seating<J: Named> {
    of: PhantomData<J>,
}

impl<J: Named> Split<View> for Seating<J> {
    ghost use Rattle.engine_seats.specs.Cuts.{seated, worker_view};

    ghost left = { λ v. seated J.worker v };

    ghost right = { λ v. worker_view J.worker v };
}

/// A note is cut off a pass.
pub struct Noting;

impl Split<View> for Noting {
    ghost use Rattle.engine_seats.specs.Cuts.{note_view};

    ghost left = { λ v. v };

    ghost right = { note_view };
}

/// A note is taken in.
pub struct Learning;

impl Join<View> for Learning {
    ghost use Rattle.engine_seats.specs.Cuts.{learned, spent_view};

    ghost both = { learned };

    ghost spent = { spent_view };
}

/// A worker's pass is taken into the keeper's.
pub struct Ending;

impl Join<View> for Ending {
    ghost use Rattle.engine_seats.specs.Cuts.{ended, spent_view};

    ghost both = { ended };

    ghost spent = { spent_view };
}

/// The load of the clock, which counts the draws.
pub struct Timing;

impl Play<(), View> for Timing {
    ghost use Rattle.engine_pages.specs.Steps.{told};
    ghost use Rattle.engine_pages.specs.Times.{Times};

    ghost then = { told Times };
}

/// The load of the count of decisions.
pub struct Counting;

impl Play<(), View> for Counting {
    ghost use Rattle.engine_pages.specs.Steps.{told};
    ghost use Rattle.engine_seats.specs.Counts.{Counts};

    ghost then = { told Counts };
}

/// The clock goes on to the next epoch.
pub struct Advancing;

impl Play<(), View> for Advancing {
    ghost use Rattle.engine_pages.specs.Steps.{told};
    ghost use Rattle.engine_seats.specs.Clock.{Advances};

    ghost then = { told Advances };
}

/// Which mark is set. Each call picks it.
pub trait Marked {
    ghost use Rattle.commit_core.specs.declared.seat.Mark.{Mark};

    ghost mark: { Mark };
}

// No call goes by this one.
impl Marked for Brand {
    ghost use Rattle.std.specs.Prelude.{None};

    ghost mark = { record { epoch = None; length = 0 } };
}

/// A mark is set.
pub struct Marking<J: Marked> {
    of: PhantomData<J>,
}

impl<J: Marked> Play<(), View> for Marking<J> {
    ghost use Rattle.engine_pages.specs.Steps.{told};
    ghost use Rattle.engine_seats.specs.Clock.{Marks};

    ghost then = { told (Marks J.mark) };
}

/// A mark is loaded.
pub struct Meeting<J: Named> {
    of: PhantomData<J>,
}

impl<J: Named> Play<(), View> for Meeting<J> {
    ghost use Rattle.engine_pages.specs.Steps.{told};
    ghost use Rattle.engine_seats.specs.Clock.{Meets};

    ghost then = { told (Meets J.worker) };
}
