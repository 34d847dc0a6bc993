// Passes of a new engine.
ghost use Rattle.std.specs.Prelude.{◌≡◌, ◌+◌, ◌<◌, IfOk};
ghost use Rattle.txn_tests.specs.Standing.{blank, CanSeat, HandStands, IsDropper, IsPlan, Stands};

use crate::{Hand, Phase, Plan, Slot, Worker};
use engine_pages::{Engine, Pass, Start};
use engine_seats::seat;
use lists::{Memory, Sequence};
use page_commit::Txn;
use page_drops::{Dropped, drop_all};
use page_opening::make;
use serial_model::{Changes, Decl, Number};
use std::alloc::Global;
use tx_sets::Holds;

/// The plan with each number within its bounds.
pub(crate) fn bounded(plan: Plan) -> Plan
    ensures { IsPlan result }
{
    Plan {
        size: plan.size.clamp(1, 131_072),
        slots: plan.slots.clamp(1, 4_096),
        draw: plan.draw.clamp(1, (1 << 40) - 1),
    }
}

/// An engine without a page, so that nothing was ever written, in epoch 1, and the keeper's pass.
pub(crate) fn new_engine(alloc: Global, plan: Plan) -> Result<(Engine, Pass), Memory>
    requires { IsPlan plan }
    ensures { IfOk result (λ r. CanSeat plan.size r.0 0 r.1) }
{
    let start = new_start(alloc, plan)?;
    let (engine, keeper) = make(alloc, start)?;
    Ok((engine, keeper))
}

fn new_start(alloc: Global, plan: Plan) -> Result<Start, Memory>
    ensures { IfOk result (λ s. s ≡ blank plan) }
{
    let array = Decl::Array {
        id: 1,
        size: plan.size,
    };
    let tree = Decl::Tree { id: 2 };
    let decls = Sequence::from_slice(alloc, &[array, tree])?;
    let roots = Sequence::from_slice(alloc, &[0, 0])?;
    let first = Number {
        epoch: 1,
        draw: plan.draw,
    };
    Ok(Start::new(first, decls, roots, plan.slots, 0, Sequence::new(alloc)))
}

/// The worker with this number.
pub(crate) fn seat_next(engine: &Engine, keeper: &mut Pass, number: u8, size: u32) -> Worker
    requires can { CanSeat size engine.now number keeper.old }
    requires number { number < 8 }
    ensures can { CanSeat size engine.now (number + 1) keeper.new }
    ensures stands { Stands engine.now result }
{
    Worker {
        txn: Txn::new(),
        pass: seat(engine, keeper, number),
        phase: Phase::Over,
        size,
        holds: Holds::new(),
        at: 0,
        number: 0,
        done: 0,
        changes: Changes::new(),
    }
}

/// The hand with this number.
pub(crate) fn hand_next(engine: &Engine, keeper: &mut Pass, number: u8, size: u32) -> Hand
    requires can { CanSeat size engine.now number keeper.old }
    requires number { number < 8 }
    ensures can { CanSeat size engine.now (number + 1) keeper.new }
    ensures stands { HandStands engine.now result }
{
    Hand {
        pass: seat(engine, keeper, number),
        own: Slot::None,
        held: None,
        given: 0,
        lost: 0,
    }
}

/// Takes the pages that are what the newest snapshot has, which has none, out of memory.
pub(crate) fn drop_pages(engine: &Engine, keeper: &mut Pass) -> Dropped
    requires { IsDropper engine.now keeper.old }
    ensures { IsDropper engine.now keeper.new }
{
    drop_all(engine, keeper, &[0, 0])
}
