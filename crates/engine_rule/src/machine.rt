// Both machines as one: pages over snapshot pages, and the seats that read, write and evict them.
ghost use Rattle.std.specs.Prelude.{◌≡◌, ◌≤◌, IfOk, length};
ghost use Rattle.serial_model.specs.Numbers.{IsNumber};
ghost use Rattle.engine_rule.specs.Answers.{AnswersEvent};
ghost use Rattle.engine_rule.specs.Opening.{opening_joint, CanOpenJoint};
ghost use Rattle.engine_rule.specs.Reading.{IsOpening, begun};
ghost use Rattle.engine_rule.specs.Sound.{IsSound};

use crate::acts::{Answer, act};
use crate::event::JointEvent;
use crate::law::both_stay_sound;
use crate::opening::opened;
use crate::reading::begun_parts;
use commit_core::{NotAllowed, Seat, Story};
use drop_core::{Grip, SnapPage, Table};
use homes::{Content, Span};
use lists::Sequence;
use serial_model::{Decl, Key, Memory, Number, OrMemory};
use std::alloc::Global;
use std::marker::Model;
use wire_form::Page;

/// Pages over snapshot pages, the commits that read and write them, and the seats, each with its part of both.
#[derive(Drop)]
pub struct Joint {
    /// What the snapshot pages had for keys at the start. Of equal keys the first counts.
    opening: Vec<(Key, Content)>,
    story: Story,
    seats: Vec<Seat>,
    table: Table,
    grips: Vec<Grip>,
}

impl Model for Joint {
    ghost use Rattle.engine_rule.specs.JointState.{JointState};

    ghost Value = { JointState };

    ghost view = { λ c. record {
      commits = record { opening = c.opening.items; story = c.story; seats = c.seats.items };
      pages = record { table = c.table; grips = c.grips.items };
    } };
}

impl Joint {
    /// A machine over the pages of a snapshot, of which page n is the n-th, for these storages, each with the number of
    /// its root's page or 0; with this first number, and this many slots and seats. Its pages are those that the roots
    /// lead to, each by its number and the place for which it stands; more of them than 32 bits can name are refused
    /// like want of memory.
    pub fn new(
        alloc: Global,
        pages: &[Page],
        decls: &[Decl],
        roots: &[u32],
        first: Number,
        slots: u32,
        passes: u32,
    ) -> Result<Self, Memory>
        requires few { length pages.now ≤ 65536 }
        requires number { IsNumber first }
        ensures opens { IfOk result (λ c. c ≡ begun pages.now decls.now roots.now first slots passes) }
        ensures sound { IsOpening pages.now decls.now roots.now first → IfOk result IsSound }
    {
        both_stay_sound();
        let (snaps, published, spans) = begun_parts(alloc, pages, decls, roots)?;
        opened(
            alloc,
            snaps,
            published,
            spans.as_slice(),
            first,
            slots,
            passes,
        )
    }

    /// A machine over these snapshot pages, of which those up to `published` are published, with a root over each of
    /// these spans that leads to a page of this number or to none, with this first number, and this many slots and
    /// seats.
    pub fn over(
        alloc: Global,
        snaps: Sequence<(u32, SnapPage)>,
        published: u32,
        roots: &[(Span, u32)],
        first: Number,
        room: u32,
        seats: u32,
    ) -> Result<Self, Memory>
        requires { IsNumber first }
        ensures opens { IfOk result (λ c. c ≡ opening_joint snaps published roots.now first room seats) }
        ensures sound { CanOpenJoint snaps published roots.now first room → IfOk result IsSound }
    {
        both_stay_sound();
        opened(alloc, snaps, published, roots, first, room, seats)
    }

    /// A machine with these parts.
    pub fn of_parts(
        opening: Vec<(Key, Content)>,
        story: Story,
        seats: Vec<Seat>,
        table: Table,
        grips: Vec<Grip>,
    ) -> Self
        ensures opening { result.commits.opening ≡ opening.items }
        ensures story { result.commits.story ≡ story }
        ensures seats { result.commits.seats ≡ seats.items }
        ensures table { result.pages.table ≡ table }
        ensures grips { result.pages.grips ≡ grips.items }
    {
        Joint {
            opening,
            story,
            seats,
            table,
            grips,
        }
    }

    /// Lets the event happen, if its condition holds.
    pub fn step(&mut self, event: JointEvent) -> Answer
        ensures event { AnswersEvent self.old event result self.new }
        ensures sound { IsSound self.old → IsSound self.new }
    {
        both_stay_sound();
        let JointEvent {
            seat: id,
            act: doing,
        } = event;
        let index = id as usize;
        if index >= self.seats.len() {
            drop(doing);
            return Err(OrMemory::Fault(NotAllowed));
        }
        if index >= self.grips.len() {
            drop(doing);
            return Err(OrMemory::Fault(NotAllowed));
        }
        let seat = &mut self.seats[index];
        let grip = &mut self.grips[index];
        act(id, &mut self.story, seat, &mut self.table, grip, doing)
    }

    pub fn story(&self) -> &Story
        ensures { result.now ≡ self.now.commits.story }
    {
        &self.story
    }

    pub fn seats(&self) -> &[Seat]
        ensures { result.now ≡ self.now.commits.seats }
    {
        &self.seats
    }

    pub fn table(&self) -> &Table
        ensures { result.now ≡ self.now.pages.table }
    {
        &self.table
    }

    pub fn grips(&self) -> &[Grip]
        ensures { result.now ≡ self.now.pages.grips }
    {
        &self.grips
    }
}
