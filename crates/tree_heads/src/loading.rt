// Loads of trees' pages that are no act.
ghost use Rattle.std.specs.Prelude.{◌≡◌, ◌<◌, Contains};
ghost use Rattle.engine_pages.specs.Layout.{page_at};
ghost use Rattle.engine_pages.specs.Passes.{view, IsPassOf};
ghost use Rattle.engine_pages.specs.Views.{IsActive};
ghost use Rattle.engine_pages.specs.declared.view.Moved.{Moved};
ghost use Rattle.tree_heads.specs.Headers.{HasWord, Headed, IsTreeAt, MetAgain};

use crate::law::{Indexed, LoadingHeader, LoadingWord, MeetingAgain, Treed};
use crate::laws::laws;
use engine_pages::{Engine, Pass};
use homes::Span;
use std::marker::Brand;

/// Loads the header of a tree's page over these keys, whose word is here. Answers the word that it found. Of a leaf
/// that was split it tells which its halves are, and no way into them, also where the pass holds them already: each
/// walk that goes on to a half calls `load_moved` first.
pub fn load_header(engine: &Engine, pass: &mut Pass, slot: u32, span: Span, at: u32) -> u64
    requires of { IsPassOf engine.now pass.old }
    requires pass { IsActive (view pass.old).role }
    requires slot { slot < (view pass.old).layout.slots }
    requires word { at ≡ page_at (view pass.old).layout.slots slot 0 }
    requires page { IsTreeAt (view pass.old) slot span }
    ensures of { IsPassOf engine.now pass.new }
    ensures loads { Headed slot span at (view pass.old) result (view pass.new) }
{
    load_header_as::<Brand>(engine, pass, slot, span, at)
}

fn load_header_as<J: Treed>(engine: &Engine, pass: &mut Pass, slot: u32, span: Span, at: u32) -> u64
    requires of { IsPassOf engine.now pass.old }
    requires pass { IsActive (view pass.old).role }
    requires slot { slot < (view pass.old).layout.slots }
    requires word { at ≡ page_at (view pass.old).layout.slots slot 0 }
    requires page { IsTreeAt (view pass.old) slot span }
    requires named { (slot ≡ J.slot) × (span ≡ J.span) }
    ensures of { IsPassOf engine.now pass.new }
    ensures loads { Headed slot span at (view pass.old) result (view pass.new) }
{
    laws();
    engine
        .table
        .shared
        .load::<LoadingHeader<J>>(pass, at as usize)
}

/// Loads the word with this index, here, of a page of which the pass may know some: the first keys of a leaf, the
/// separators of an interior page, or the halves of a split leaf. Answers the word that it found.
pub fn load_word(engine: &Engine, pass: &mut Pass, slot: u32, index: u32, at: u32) -> u64
    requires of { IsPassOf engine.now pass.old }
    requires pass { IsActive (view pass.old).role }
    requires slot { slot < (view pass.old).layout.slots }
    requires index { index < 64 }
    requires word { at ≡ page_at (view pass.old).layout.slots slot index }
    ensures of { IsPassOf engine.now pass.new }
    ensures loads { HasWord slot index at (view pass.old) result (view pass.new) }
{
    load_word_as::<Brand>(engine, pass, slot, index, at)
}

fn load_word_as<J: Indexed>(engine: &Engine, pass: &mut Pass, slot: u32, index: u32, at: u32) -> u64
    requires of { IsPassOf engine.now pass.old }
    requires pass { IsActive (view pass.old).role }
    requires slot { slot < (view pass.old).layout.slots }
    requires index { index < 64 }
    requires word { at ≡ page_at (view pass.old).layout.slots slot index }
    requires named { (slot ≡ J.slot) × (index ≡ J.index) }
    ensures of { IsPassOf engine.now pass.new }
    ensures loads { HasWord slot index at (view pass.old) result (view pass.new) }
{
    laws();
    engine
        .table
        .shared
        .load::<LoadingWord<J>>(pass, at as usize)
}

/// Loads the header of a split leaf over these keys again, whose word is here, after one of its halves was entered:
/// where nobody has locked it, a half that is held has its part of the keys. Answers the word that it found.
pub fn load_moved(engine: &Engine, pass: &mut Pass, slot: u32, span: Span, at: u32) -> u64
    requires of { IsPassOf engine.now pass.old }
    requires pass { IsActive (view pass.old).role }
    requires slot { slot < (view pass.old).layout.slots }
    requires word { at ≡ page_at (view pass.old).layout.slots slot 0 }
    requires page { IsTreeAt (view pass.old) slot span }
    requires known { (x : Moved) × Contains (view pass.old).moved x × (x.slot ≡ slot) }
    ensures of { IsPassOf engine.now pass.new }
    ensures meets { MetAgain slot span at (view pass.old) result (view pass.new) }
{
    load_moved_as::<Brand>(engine, pass, slot, span, at)
}

fn load_moved_as<J: Treed>(engine: &Engine, pass: &mut Pass, slot: u32, span: Span, at: u32) -> u64
    requires of { IsPassOf engine.now pass.old }
    requires pass { IsActive (view pass.old).role }
    requires slot { slot < (view pass.old).layout.slots }
    requires word { at ≡ page_at (view pass.old).layout.slots slot 0 }
    requires page { IsTreeAt (view pass.old) slot span }
    requires known { (x : Moved) × Contains (view pass.old).moved x × (x.slot ≡ slot) }
    requires named { (slot ≡ J.slot) × (span ≡ J.span) }
    ensures of { IsPassOf engine.now pass.new }
    ensures meets { MetAgain slot span at (view pass.old) result (view pass.new) }
{
    laws();
    engine
        .table
        .shared
        .load::<MeetingAgain<J>>(pass, at as usize)
}
