// Locks of headers, and what is stored under them.
ghost use Rattle.std.specs.Prelude.{◌≡◌, ◌<◌, ◌^◌};
ghost use Rattle.engine_pages.specs.Layout.{page_at};
ghost use Rattle.engine_pages.specs.Passes.{view, IsPassOf};
ghost use Rattle.engine_pages.specs.Views.{IsActive};
ghost use Rattle.tree_heads.specs.Headers.{IsTreeAt, kind_of};
ghost use Rattle.tree_heads.specs.Heads.{CanAdd, CanOpenHeader, CanStore, HasAdded, HeadLocked, head_opened};
ghost use Rattle.tree_heads.specs.Heads.{head_stored};

use crate::law::{AddingKey, Indexed, Keyed, LockingHeader, OpeningHeader, StoringSpare, Treed};
use crate::laws::laws;
use engine_pages::{Engine, Pass};
use homes::Span;
use serial_model::Key;
use std::marker::Brand;

/// The lock bit of a header's word.
pub const HEADER_LOCK: u64 = 1 << 60;

/// Locks the header of a leaf over these keys, whose word is here, where that is the expected one: a leaf's, neither
/// locked nor moved. Answers the word that it found.
pub fn lock_header(
    engine: &Engine,
    pass: &mut Pass,
    slot: u32,
    span: Span,
    at: u32,
    expected: u64,
) -> u64
    requires of { IsPassOf engine.now pass.old }
    requires pass { IsActive (view pass.old).role }
    requires slot { slot < (view pass.old).layout.slots }
    requires word { at ≡ page_at (view pass.old).layout.slots slot 0 }
    requires page { IsTreeAt (view pass.old) slot span }
    requires expected { expected < 2 ^ 60 }
    requires leaf { kind_of expected ≡ 1 }
    ensures of { IsPassOf engine.now pass.new }
    ensures locks { HeadLocked slot span at expected (view pass.old) result (view pass.new) }
{
    lock_header_as::<Brand>(engine, pass, slot, span, at, expected)
}

fn lock_header_as<J: Treed>(
    engine: &Engine,
    pass: &mut Pass,
    slot: u32,
    span: Span,
    at: u32,
    expected: u64,
) -> u64
    requires of { IsPassOf engine.now pass.old }
    requires pass { IsActive (view pass.old).role }
    requires slot { slot < (view pass.old).layout.slots }
    requires word { at ≡ page_at (view pass.old).layout.slots slot 0 }
    requires page { IsTreeAt (view pass.old) slot span }
    requires expected { expected < 2 ^ 60 }
    requires leaf { kind_of expected ≡ 1 }
    requires named { (slot ≡ J.slot) × (span ≡ J.span) }
    ensures of { IsPassOf engine.now pass.new }
    ensures locks { HeadLocked slot span at expected (view pass.old) result (view pass.new) }
{
    laws();
    engine
        .table
        .shared
        .compare_exchange::<LockingHeader<J>>(pass, at as usize, expected, expected + HEADER_LOCK)
}

/// Stores the word with this index, here, of a leaf whose header the pass has locked; no record has the word.
pub fn store_spare(engine: &Engine, pass: &mut Pass, slot: u32, index: u32, at: u32, value: u64)
    requires of { IsPassOf engine.now pass.old }
    requires pass { IsActive (view pass.old).role }
    requires slot { slot < (view pass.old).layout.slots }
    requires word { at ≡ page_at (view pass.old).layout.slots slot index }
    requires can { CanStore (view pass.old) slot index }
    ensures of { IsPassOf engine.now pass.new }
    ensures stores { view pass.new ≡ head_stored slot index value (view pass.old) }
{
    store_spare_as::<Brand>(engine, pass, slot, index, at, value);
}

fn store_spare_as<J: Indexed>(
    engine: &Engine,
    pass: &mut Pass,
    slot: u32,
    index: u32,
    at: u32,
    value: u64,
)
    requires of { IsPassOf engine.now pass.old }
    requires pass { IsActive (view pass.old).role }
    requires slot { slot < (view pass.old).layout.slots }
    requires word { at ≡ page_at (view pass.old).layout.slots slot index }
    requires can { CanStore (view pass.old) slot index }
    requires named { (slot ≡ J.slot) × (index ≡ J.index) }
    ensures of { IsPassOf engine.now pass.new }
    ensures stores { view pass.new ≡ head_stored slot index value (view pass.old) }
{
    laws();
    engine
        .table
        .shared
        .store::<StoringSpare<J>>(pass, at as usize, value);
}

/// Opens the header of a leaf over these keys, whose word is here, with the word that the lock found.
pub fn open_header(engine: &Engine, pass: &mut Pass, slot: u32, span: Span, at: u32, word: u64)
    requires of { IsPassOf engine.now pass.old }
    requires pass { IsActive (view pass.old).role }
    requires slot { slot < (view pass.old).layout.slots }
    requires word { at ≡ page_at (view pass.old).layout.slots slot 0 }
    requires can { CanOpenHeader (view pass.old) slot span word }
    ensures of { IsPassOf engine.now pass.new }
    ensures opens { view pass.new ≡ head_opened slot at word (view pass.old) }
{
    open_header_as::<Brand>(engine, pass, slot, span, at, word);
}

fn open_header_as<J: Treed>(
    engine: &Engine,
    pass: &mut Pass,
    slot: u32,
    span: Span,
    at: u32,
    word: u64,
)
    requires of { IsPassOf engine.now pass.old }
    requires pass { IsActive (view pass.old).role }
    requires slot { slot < (view pass.old).layout.slots }
    requires word { at ≡ page_at (view pass.old).layout.slots slot 0 }
    requires can { CanOpenHeader (view pass.old) slot span word }
    requires named { (slot ≡ J.slot) × (span ≡ J.span) }
    ensures of { IsPassOf engine.now pass.new }
    ensures opens { view pass.new ≡ head_opened slot at word (view pass.old) }
{
    laws();
    engine
        .table
        .shared
        .store::<OpeningHeader<J>>(pass, at as usize, word);
}

/// Opens the header of a leaf over these keys, whose word is here, with one key more, whose record was stored as
/// absent.
pub fn open_with_key(
    engine: &Engine,
    pass: &mut Pass,
    slot: u32,
    span: Span,
    key: Key,
    at: u32,
    word: u64,
)
    requires of { IsPassOf engine.now pass.old }
    requires pass { IsActive (view pass.old).role }
    requires slot { slot < (view pass.old).layout.slots }
    requires word { at ≡ page_at (view pass.old).layout.slots slot 0 }
    requires can { CanAdd (view pass.old) slot span key word }
    ensures of { IsPassOf engine.now pass.new }
    ensures adds { HasAdded slot span key at word (view pass.old) (view pass.new) }
{
    open_with_key_as::<Brand, Brand>(engine, pass, slot, span, key, at, word);
}

fn open_with_key_as<J: Treed, K: Keyed>(
    engine: &Engine,
    pass: &mut Pass,
    slot: u32,
    span: Span,
    key: Key,
    at: u32,
    word: u64,
)
    requires of { IsPassOf engine.now pass.old }
    requires pass { IsActive (view pass.old).role }
    requires slot { slot < (view pass.old).layout.slots }
    requires word { at ≡ page_at (view pass.old).layout.slots slot 0 }
    requires can { CanAdd (view pass.old) slot span key word }
    requires named { (slot ≡ J.slot) × (span ≡ J.span) × (key ≡ K.key) }
    ensures of { IsPassOf engine.now pass.new }
    ensures adds { HasAdded slot span key at word (view pass.old) (view pass.new) }
{
    laws();
    engine
        .table
        .shared
        .store::<AddingKey<J, K>>(pass, at as usize, word);
}
