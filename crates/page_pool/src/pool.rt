// The first usable slot.
ghost use Rattle.std.specs.Prelude.{◌≡◌, ◌<◌, true, false, IfOk, IfErr};
ghost use Rattle.std.specs.Option.{option_or};
ghost use Rattle.engine_pages.specs.Passes.{view, IsPassOf};
ghost use Rattle.engine_pages.specs.Slots.{is_usable_word};
ghost use Rattle.engine_pages.specs.Views.{IsActive};
ghost use Rattle.page_pool.specs.Pool.{HasFound, HasMissed, HasTaken, is_retired_word, retired_one};

use engine_pages::{Engine, Pass, look, take};

/// Why no slot was given.
#[derive(Clone, Copy, Debug, PartialEq, Eq)]
pub enum PoolRefusal {
    /// None is usable. The lowest one that is retired, with its word, if any is.
    Full { held: Option<(u32, u64)> },
    /// The first usable one was changed between its load and the compare_exchange.
    Changed { word: u64, expected: u64, seen: u64 },
}

const TIMES: u64 = 1 << 18;

const STATE: u64 = 1 << 16;

/// The most times that a slot is given.
const MOST_TIMES: u64 = (1 << 46) - 1;

/// Gives the first usable slot to the pass: loads the slot words in order, and tries one compare_exchange. The pass
/// owns the slot then, and fills its page.
pub fn give(engine: &Engine, pass: &mut Pass) -> Result<u32, PoolRefusal>
    requires of { IsPassOf engine.now pass.old }
    requires pass { IsActive (view pass.old).role }
    ensures of { IsPassOf engine.now pass.new }
    ensures given { IfOk result (λ slot. HasTaken slot (view pass.old) (view pass.new)) }
    ensures missed { IfErr result (λ why. HasMissed why (view pass.old) (view pass.new)) }
{
    let slots = engine.slots();
    let mut held = None;
    let mut slot = 0;
    while slot < slots {
        let word = look(engine, pass, slot);
        if is_usable(word) {
            return try_one(engine, pass, slot, word);
        }
        held = first_of(held, slot, word);
        slot += 1;
    }
    Err(PoolRefusal::Full { held })
}

fn try_one(engine: &Engine, pass: &mut Pass, slot: u32, word: u64) -> Result<u32, PoolRefusal>
    requires of { IsPassOf engine.now pass.old }
    requires pass { IsActive (view pass.old).role }
    requires slot { slot < (view pass.old).layout.slots }
    requires usable { is_usable_word word ≡ true }
    ensures of { IsPassOf engine.now pass.new }
    ensures found { HasFound slot word result (view pass.old) (view pass.new) }
{
    let seen = take(engine, pass, slot, word);
    if seen != word {
        return Err(PoolRefusal::Changed {
            word: 32 + slot as u64,
            expected: word,
            seen,
        });
    }
    Ok(slot)
}

// Free or retired, held by nobody, and not given too often.
fn is_usable(word: u64) -> bool
    ensures { result ≡ is_usable_word word }
{
    let low = word % TIMES;
    if low != 0 && low != 3 * STATE {
        return false;
    }
    word / TIMES < MOST_TIMES
}

// The lowest slot that is retired: what was found before, else this one.
fn first_of(held: Option<(u32, u64)>, slot: u32, word: u64) -> Option<(u32, u64)>
    ensures { result ≡ option_or held (retired_one slot word) }
{
    if held.is_some() {
        return held;
    }
    if is_retired(word) {
        return Some((slot, word));
    }
    None
}

fn is_retired(word: u64) -> bool
    ensures { result ≡ is_retired_word word }
{
    word / STATE % 4 == 3
}
