// The lines that tell a run in short.
ghost use Rattle.std.specs.Prelude.{◌≡◌, ◌++◌, decimal};
ghost use Rattle.text_output.specs.Output.{Prints};
ghost use Rattle.brief_output.specs.Brief.{commits_line, tally_text, total_line};
ghost use Rattle.tx_script.specs.Text.{durable_text};

use crate::Tally;
use decimals::write_wide_digits;
use outside::{Failed, Sink};
use text_output::Printer;

/// Adds the lines of a tally and of the sum of what is kept. Where this isn't known, it has no line.
pub fn put_brief<K: Sink>(
    printer: &mut Printer<'_, K>,
    tally: Tally,
    total: Option<u128>,
) -> Result<(), Failed>
    ensures { Prints printer.old printer.new (tally_text tally total) result }
{
    put_commits(printer, tally.commits)?;
    put_total(printer, total)?;
    put_durable(printer, tally.durable)
}

fn put_commits<K: Sink>(printer: &mut Printer<'_, K>, commits: u64) -> Result<(), Failed>
    ensures { Prints printer.old printer.new (commits_line commits) result }
{
    printer.put(b"commits ")?;
    printer.put_number(commits)?;
    printer.put(b"\n")
}

fn put_total<K: Sink>(printer: &mut Printer<'_, K>, total: Option<u128>) -> Result<(), Failed>
    ensures { Prints printer.old printer.new (total_line total) result }
{
    let Some(total) = total else {
        return Ok(());
    };
    printer.put(b"total ")?;
    put_wide(printer, total)?;
    printer.put(b"\n")
}

fn put_wide<K: Sink>(printer: &mut Printer<'_, K>, number: u128) -> Result<(), Failed>
    ensures { Prints printer.old printer.new (decimal number) result }
{
    let mut digits = [0; 39];
    let start = write_wide_digits(number, &mut digits);
    printer.put(&digits[start..])
}

fn put_durable<K: Sink>(printer: &mut Printer<'_, K>, durable: Option<u32>) -> Result<(), Failed>
    ensures { Prints printer.old printer.new (durable_text durable) result }
{
    let Some(epoch) = durable else {
        return Ok(());
    };
    printer.put(b"durable ")?;
    printer.put_number(epoch as u64)?;
    printer.put(b"\n")
}
