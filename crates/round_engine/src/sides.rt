// The two sides of the log files: those that grow, and the closed ones.
ghost use Rattle.std.specs.Prelude.{◌≡◌, ◌<◌, ◌*◌};
ghost use Rattle.worker_logs.specs.Saves.{closed_number as number_of_closed, growing_number as number_of_growing};
ghost use Rattle.round_engine.specs.Sides.{is_odd as has_odd, other_side as other};

use worker_logs::Side;

/// The files that are closed while these grow.
pub(crate) fn other_side(side: Side) -> Side
    ensures { result ≡ other side }
{
    match side {
        Side::Even => Side::Odd,
        Side::Odd => Side::Even,
    }
}

/// Whether those of odd number grow.
pub(crate) fn is_odd(side: Side) -> bool
    ensures { result ≡ has_odd side }
{
    match side {
        Side::Even => false,
        Side::Odd => true,
    }
}

/// The number of a worker's growing log file.
pub(crate) fn growing_number(side: Side, worker: usize) -> u8
    requires { worker < 8 }
    ensures { result ≡ number_of_growing side worker }
{
    match side {
        Side::Even => 2 * worker as u8,
        Side::Odd => 2 * worker as u8 + 1,
    }
}

/// The number of a worker's closed log file.
pub(crate) fn closed_number(side: Side, worker: usize) -> u8
    requires { worker < 8 }
    ensures { result ≡ number_of_closed side worker }
{
    growing_number(other_side(side), worker)
}
