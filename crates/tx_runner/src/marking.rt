// Workers' marks.
ghost use Rattle.std.specs.Prelude.{◌≡◌, ◌≤◌, ◌<◌, ◌-◌, ◌^◌, [], Some, None, length};
ghost use Rattle.serial_model.specs.Numbers.{last_epoch};
ghost use Rattle.wire_form.specs.Words.{IsMark, mark_word};
ghost use Rattle.commit_core.specs.CoreState.{last_marked};
ghost use Rattle.commit_core.specs.declared.seat.Mark as core;
ghost use Rattle.engine_pages.specs.declared.view.Role.TheVariants.{Worker};
ghost use Rattle.engine_seats.specs.Clock.{marked};
ghost use Rattle.engine_pages.specs.Passes.{view, IsPassOf};
ghost use Rattle.engine_pages.specs.Words.{IsSmallMark, word_of_mark};
ghost use Rattle.engine_pages.specs.Views.{IsActive};
ghost use Rattle.page_commit.specs.Live.{IsOver};
ghost use Rattle.tx_runner.specs.Epochs.{HasMetAll, IsMarkedUpTo};

use engine_pages::{Engine, Pass};
use engine_seats::load_mark;
use log_writer::Journal;
use serial_model::WORKERS;
use wire_form::Mark;

/// Marks that all commits of this worker up to the epoch before this one of the clock, which the pass has seen, lie in
/// what is durable of its log file. No line of them waits.
pub fn mark(engine: &Engine, pass: &mut Pass, worker: u8, clock: u32, journal: &Journal)
    requires of { IsPassOf engine.now pass.old }
    requires over { IsOver (view pass.old) }
    requires worker { ((view pass.old).role ≡ Worker worker) × (worker < 8) }
    requires clock { (1 ≤ clock) × (clock ≤ (view pass.old).epoch) × (clock - 1 ≤ last_epoch) }
    requires rises { last_marked (view pass.old).seat.marks ≤ clock - 1 }
    requires flushed { journal.now.lines ≡ [] }
    ensures of { IsPassOf engine.now pass.new }
    ensures marks { view pass.new
        ≡ marked (record { epoch = Some (clock - 1); length = journal.now.durable }) (view pass.old) }
    ensures counted { journal.now.durable < 2 ^ 40 }
    ensures up { IsMarkedUpTo clock (view pass.new) }
    ensures over { IsOver (view pass.new) }
{
    let mark = commit_core::Mark {
        epoch: Some(clock - 1),
        length: journal.durable(),
    };
    engine_seats::mark(engine, pass, worker, mark);
}

/// Marks this worker as idle: it holds no epoch back. The length is that of its log's mark, what a save counts of its
/// log file.
pub fn idle(engine: &Engine, pass: &mut Pass, worker: u8, length: u64)
    requires of { IsPassOf engine.now pass.old }
    requires over { IsOver (view pass.old) }
    requires worker { ((view pass.old).role ≡ Worker worker) × (worker < 8) }
    requires length { length < 2 ^ 40 }
    ensures of { IsPassOf engine.now pass.new }
    ensures marks { view pass.new ≡ marked (record { epoch = None; length = length }) (view pass.old) }
    ensures over { IsOver (view pass.new) }
{
    let mark = commit_core::Mark {
        epoch: None,
        length,
    };
    engine_seats::mark(engine, pass, worker, mark);
}

/// All workers' marks, in their order, as each is when it is loaded.
pub fn marks(engine: &Engine, pass: &mut Pass) -> [Mark; WORKERS]
    requires of { IsPassOf engine.now pass.old }
    requires pass { IsActive (view pass.old).role }
    ensures of { IsPassOf engine.now pass.new }
    ensures all { length result ≡ 8 }
    ensures met { HasMetAll result (view pass.old) (view pass.new) }
{
    let mut marks = [Mark {
        length: 0,
        epoch: None,
    }; WORKERS];
    let mut met = 0;
    while met < WORKERS {
        let word = load_mark(engine, pass, met as u8);
        marks[met] = mark_of(word);
        met += 1;
    }
    marks
}

// The mark that has this word.
fn mark_of(word: u64) -> Mark
    requires { (mark : core.Mark) × IsSmallMark mark × (word ≡ word_of_mark mark) }
    ensures mark { IsMark result }
    ensures word { mark_word result ≡ word }
{
    match Mark::parts(word) {
        Some(mark) => mark,
        None => unreachable!(),
    }
}
