// Steps on slot words and on the pages of owned slots.
ghost use Rattle.std.specs.Prelude.{◌≡◌, ◌<◌, true, false};
ghost use Rattle.drop_core.specs.Table.{has_slot};
ghost use Rattle.engine_rule.specs.JointState.{keeps_word};
ghost use Rattle.engine_pages.specs.Layout.{page_at};
ghost use Rattle.engine_pages.specs.Passes.{view, IsPassOf};
ghost use Rattle.engine_pages.specs.Slots.{entered, left, looked_at, published_blank, published_copy, retired};
ghost use Rattle.engine_pages.specs.Slots.{is_usable_word, Given, HasDraft, HasCopyDraft, HasPageDraft, HasFilled};
ghost use Rattle.engine_pages.specs.Slots.{MayRetire};
ghost use Rattle.engine_pages.specs.Views.{IsActive};

use crate::engine::{Engine, Pass};
use crate::law::{
    Entering, Filling, Giving, Leaving, LookingAt, PublishingBlank, PublishingCopy, Retiring,
    Slotted, Sourced, Worded,
};
use crate::laws::laws;
use homes::Span;
use std::marker::Brand;

/// Holds the slot: it is not given to anybody until it is left.
pub fn enter(engine: &Engine, pass: &mut Pass, slot: u32)
    requires of { IsPassOf engine.now pass.old }
    requires pass { IsActive (view pass.old).role }
    requires slot { slot < (view pass.old).layout.slots }
    requires unheld { has_slot (view pass.old).grip.holds slot ≡ false }
    ensures of { IsPassOf engine.now pass.new }
    ensures enters { view pass.new ≡ entered slot (view pass.old) }
{
    enter_as::<Brand>(engine, pass, slot);
}

fn enter_as<J: Slotted>(engine: &Engine, pass: &mut Pass, slot: u32)
    requires of { IsPassOf engine.now pass.old }
    requires pass { IsActive (view pass.old).role }
    requires slot { slot < (view pass.old).layout.slots }
    requires unheld { has_slot (view pass.old).grip.holds slot ≡ false }
    requires named { slot ≡ J.slot }
    ensures of { IsPassOf engine.now pass.new }
    ensures enters { view pass.new ≡ entered slot (view pass.old) }
{
    laws();
    engine
        .table
        .shared
        .fetch_add::<Entering<J>>(pass, 32 + slot as usize, 1);
}

/// Holds the slot no more, of whose page the pass keeps no word.
pub fn leave(engine: &Engine, pass: &mut Pass, slot: u32)
    requires of { IsPassOf engine.now pass.old }
    requires pass { IsActive (view pass.old).role }
    requires slot { slot < (view pass.old).layout.slots }
    requires held { has_slot (view pass.old).grip.holds slot ≡ true }
    requires unkept { keeps_word (view pass.old).seat.kept slot ≡ false }
    ensures of { IsPassOf engine.now pass.new }
    ensures leaves { view pass.new ≡ left slot (view pass.old) }
{
    leave_as::<Brand>(engine, pass, slot);
}

fn leave_as<J: Slotted>(engine: &Engine, pass: &mut Pass, slot: u32)
    requires of { IsPassOf engine.now pass.old }
    requires pass { IsActive (view pass.old).role }
    requires slot { slot < (view pass.old).layout.slots }
    requires held { has_slot (view pass.old).grip.holds slot ≡ true }
    requires unkept { keeps_word (view pass.old).seat.kept slot ≡ false }
    requires named { slot ≡ J.slot }
    ensures of { IsPassOf engine.now pass.new }
    ensures leaves { view pass.new ≡ left slot (view pass.old) }
{
    laws();
    engine
        .table
        .shared
        .fetch_sub::<Leaving<J>>(pass, 32 + slot as usize, 1);
}

/// Takes the slot, where its word is the expected one, which is usable. Answers the word that it found.
pub fn take(engine: &Engine, pass: &mut Pass, slot: u32, expected: u64) -> u64
    requires of { IsPassOf engine.now pass.old }
    requires pass { IsActive (view pass.old).role }
    requires slot { slot < (view pass.old).layout.slots }
    requires usable { is_usable_word expected ≡ true }
    ensures of { IsPassOf engine.now pass.new }
    ensures gives { Given slot expected (view pass.old) result (view pass.new) }
{
    take_as::<Brand>(engine, pass, slot, expected)
}

fn take_as<J: Slotted>(engine: &Engine, pass: &mut Pass, slot: u32, expected: u64) -> u64
    requires of { IsPassOf engine.now pass.old }
    requires pass { IsActive (view pass.old).role }
    requires slot { slot < (view pass.old).layout.slots }
    requires usable { is_usable_word expected ≡ true }
    requires named { slot ≡ J.slot }
    ensures of { IsPassOf engine.now pass.new }
    ensures gives { Given slot expected (view pass.old) result (view pass.new) }
{
    laws();
    let times = expected / 0x40000;
    engine.table.shared.compare_exchange::<Giving<J>>(
        pass,
        32 + slot as usize,
        expected,
        0x10000 + (times + 1) * 0x40000,
    )
}

/// Loads the slot's word.
pub fn look(engine: &Engine, pass: &mut Pass, slot: u32) -> u64
    requires of { IsPassOf engine.now pass.old }
    requires pass { IsActive (view pass.old).role }
    requires slot { slot < (view pass.old).layout.slots }
    ensures of { IsPassOf engine.now pass.new }
    ensures looks { view pass.new ≡ looked_at slot result (view pass.old) }
{
    look_as::<Brand>(engine, pass, slot)
}

fn look_as<J: Slotted>(engine: &Engine, pass: &mut Pass, slot: u32) -> u64
    requires of { IsPassOf engine.now pass.old }
    requires pass { IsActive (view pass.old).role }
    requires slot { slot < (view pass.old).layout.slots }
    requires named { slot ≡ J.slot }
    ensures of { IsPassOf engine.now pass.new }
    ensures looks { view pass.new ≡ looked_at slot result (view pass.old) }
{
    laws();
    engine
        .table
        .shared
        .load::<LookingAt<J>>(pass, 32 + slot as usize)
}

/// Publishes an owned slot as no page.
pub fn publish_blank(engine: &Engine, pass: &mut Pass, slot: u32)
    requires of { IsPassOf engine.now pass.old }
    requires pass { IsActive (view pass.old).role }
    requires slot { slot < (view pass.old).layout.slots }
    requires draft { HasDraft (view pass.old) slot }
    ensures of { IsPassOf engine.now pass.new }
    ensures publishes { view pass.new ≡ published_blank slot (view pass.old) }
{
    publish_blank_as::<Brand>(engine, pass, slot);
}

fn publish_blank_as<J: Slotted>(engine: &Engine, pass: &mut Pass, slot: u32)
    requires of { IsPassOf engine.now pass.old }
    requires pass { IsActive (view pass.old).role }
    requires slot { slot < (view pass.old).layout.slots }
    requires draft { HasDraft (view pass.old) slot }
    requires named { slot ≡ J.slot }
    ensures of { IsPassOf engine.now pass.new }
    ensures publishes { view pass.new ≡ published_blank slot (view pass.old) }
{
    laws();
    engine
        .table
        .shared
        .fetch_add::<PublishingBlank<J>>(pass, 32 + slot as usize, 0x1_0000);
}

/// Gives up a published slot that nothing leads to.
pub fn retire(engine: &Engine, pass: &mut Pass, slot: u32)
    requires of { IsPassOf engine.now pass.old }
    requires pass { IsActive (view pass.old).role }
    requires slot { slot < (view pass.old).layout.slots }
    requires may { MayRetire (view pass.old) slot }
    ensures of { IsPassOf engine.now pass.new }
    ensures retires { view pass.new ≡ retired slot (view pass.old) }
{
    retire_as::<Brand>(engine, pass, slot);
}

fn retire_as<J: Slotted>(engine: &Engine, pass: &mut Pass, slot: u32)
    requires of { IsPassOf engine.now pass.old }
    requires pass { IsActive (view pass.old).role }
    requires slot { slot < (view pass.old).layout.slots }
    requires may { MayRetire (view pass.old) slot }
    requires named { slot ≡ J.slot }
    ensures of { IsPassOf engine.now pass.new }
    ensures retires { view pass.new ≡ retired slot (view pass.old) }
{
    laws();
    engine
        .table
        .shared
        .fetch_add::<Retiring<J>>(pass, 32 + slot as usize, 0x1_0000);
}

/// Publishes an owned slot, filled as a copy of a leaf.
pub fn publish_copy(engine: &Engine, pass: &mut Pass, slot: u32, span: Span, page: u32)
    requires of { IsPassOf engine.now pass.old }
    requires pass { IsActive (view pass.old).role }
    requires slot { slot < (view pass.old).layout.slots }
    requires draft { HasCopyDraft (view pass.old) slot span page }
    ensures of { IsPassOf engine.now pass.new }
    ensures publishes { view pass.new ≡ published_copy slot span page (view pass.old) }
{
    publish_copy_as::<Brand, Brand>(engine, pass, slot, span, page);
}

fn publish_copy_as<J: Slotted, K: Sourced>(
    engine: &Engine,
    pass: &mut Pass,
    slot: u32,
    span: Span,
    page: u32,
)
    requires of { IsPassOf engine.now pass.old }
    requires pass { IsActive (view pass.old).role }
    requires slot { slot < (view pass.old).layout.slots }
    requires draft { HasCopyDraft (view pass.old) slot span page }
    requires named { (slot ≡ J.slot) × (span ≡ K.span) × (page ≡ K.page) }
    ensures of { IsPassOf engine.now pass.new }
    ensures publishes { view pass.new ≡ published_copy slot span page (view pass.old) }
{
    laws();
    engine
        .table
        .shared
        .fetch_add::<PublishingCopy<J, K>>(pass, 32 + slot as usize, 0x1_0000);
}

/// Stores a word of an owned page.
pub fn fill(engine: &Engine, pass: &mut Pass, slot: u32, index: u32, at: u32, value: u64)
    requires of { IsPassOf engine.now pass.old }
    requires pass { IsActive (view pass.old).role }
    requires slot { slot < (view pass.old).layout.slots }
    requires index { index < 64 }
    requires word { at ≡ page_at (view pass.old).layout.slots slot index }
    requires draft { HasPageDraft (view pass.old) slot }
    ensures of { IsPassOf engine.now pass.new }
    ensures fills { HasFilled slot index value (view pass.old) (view pass.new) }
{
    fill_as::<Brand, Brand>(engine, pass, slot, index, at, value);
}

fn fill_as<J: Slotted, K: Worded>(
    engine: &Engine,
    pass: &mut Pass,
    slot: u32,
    index: u32,
    at: u32,
    value: u64,
)
    requires of { IsPassOf engine.now pass.old }
    requires pass { IsActive (view pass.old).role }
    requires slot { slot < (view pass.old).layout.slots }
    requires index { index < 64 }
    requires word { at ≡ page_at (view pass.old).layout.slots slot index }
    requires draft { HasPageDraft (view pass.old) slot }
    requires named { (slot ≡ J.slot) × (index ≡ K.index) × (value ≡ K.value) }
    ensures of { IsPassOf engine.now pass.new }
    ensures fills { HasFilled slot index value (view pass.old) (view pass.new) }
{
    laws();
    engine
        .table
        .shared
        .store::<Filling<J, K>>(pass, at as usize, value);
}
