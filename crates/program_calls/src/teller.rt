// What is told of a run while it goes on.
ghost use Rattle.std.specs.Prelude.{◌≡◌, ◌+◌, ◌<◌, ◌^◌, [], OnOk, false, length, sum_by, true};
ghost use Rattle.text_output.specs.Output.{Prints};
ghost use Rattle.tx_script.specs.Text.{lines_text};
ghost use Rattle.brief_output.specs.Brief.{tally_of};
ghost use Rattle.program_calls.specs.Telling.{TellsRound};

use brief_output::Tally;
use outside::{Failed, Sink};
use round_engine::Report;
use text_output::Printer;
use tx_script::put_round;

/// Adds the lines of each round to a printer, or counts what came of it and adds nothing.
#[derive(Clone, Copy)]
pub(crate) struct Teller {
    /// Whether rounds are counted.
    pub(crate) brief: bool,
    /// What came of those that were counted.
    pub(crate) tally: Tally,
}

impl Teller {
    /// No round was run yet.
    pub(crate) fn new(brief: bool) -> Teller
        ensures { result ≡ record { brief = brief; tally = tally_of [] } }
    {
        Teller {
            brief,
            tally: Tally::new(),
        }
    }

    /// One more round was run. Its lines are written before the next one begins, so that a stop from outside keeps none
    /// of them back, and no epoch that they tell to be durable.
    pub(crate) fn tell<K: Sink>(
        &mut self,
        printer: &mut Printer<'_, K>,
        report: &Report,
    ) -> Result<(), Failed>
        requires few { self.old.brief ≡ true
            → self.old.tally.commits + sum_by length report.now.outcomes < 2 ^ 64 }
        ensures kind { self.new.brief ≡ self.old.brief }
        ensures tells { TellsRound self.old.brief self.old.tally self.new.tally printer.old printer.new report.now
            result }
        ensures written { self.old.brief ≡ false → OnOk result (printer.new.waiting ≡ []) }
    {
        if self.brief {
            self.tally.add(&report.outcomes, report.durable);
            return Ok(());
        }
        tell_lines(printer, report)
    }
}

// Adds the lines of a round, and writes all that waits.
fn tell_lines<K: Sink>(printer: &mut Printer<'_, K>, report: &Report) -> Result<(), Failed>
    ensures lines { Prints printer.old printer.new
        (lines_text report.now.outcomes report.now.keeper report.now.durable) result }
    ensures written { OnOk result (printer.new.waiting ≡ []) }
{
    put_round(printer, &report.outcomes, &report.keeper, report.durable)?;
    printer.flush()
}
