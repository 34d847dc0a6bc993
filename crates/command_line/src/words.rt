// The words of a call.
ghost use Rattle.std.specs.Prelude.{◌≡◌, IfSome, map};
ghost use Rattle.clap.specs.Words.{first_of, found_of, rows_of, subcommand_rows_of};
ghost use Rattle.command_line.specs.Options.{IsWithin, arguments_of, asked, epoch_of, is_set, make_with};
ghost use Rattle.command_line.specs.Options.{number_given, number_or, options_of, run_with, snap_with};
ghost use Rattle.command_line.specs.Words.{ReadsWords};

use crate::command::{Command, MakeArguments, RunOptions};
use crate::number::{Range, number_in};
use crate::program::program;
use clap::ArgMatches;
use clap::error::ErrorKind;
use serial_model::Memory;
use std::alloc::Global;

const TRIES: Range = Range {
    least: 1,
    most: 1_000_000,
};

const SLOTS: Range = Range {
    least: 4,
    most: 4_096,
};

const SNAP: Range = Range {
    least: 1,
    most: 65_536,
};

const SEED: Range = Range {
    least: 0,
    most: 2_147_483_647,
};

const WORKERS: Range = Range { least: 1, most: 8 };

const LINES: Range = Range {
    least: 1,
    most: 65_536,
};

const EPOCH: Range = Range {
    least: 0,
    most: 1_048_575,
};

/// What stands for an option that is left out.
const USUAL: RunOptions = RunOptions {
    tries: 1_000,
    slots: 256,
    snap: 4_096,
    brief: false,
};

/// The number of an option, if it is in its range.
fn option_number(matches: &ArgMatches, name: &str, range: Range, usual: u32) -> Option<u32>
    ensures { result ≡ number_or usual range (first_of name.now (rows_of (found_of matches.now))) }
{
    match matches.get_str(name) {
        Some(text) => number_in(range, text),
        None => Some(usual),
    }
}

/// Whether a flag was given, which clap keeps as a text.
fn is_set(matches: &ArgMatches, name: &str) -> bool
    ensures { result ≡ is_set (first_of name.now (rows_of (found_of matches.now))) }
{
    match matches.get_str(name) {
        Some(text) => text == "true",
        None => false,
    }
}

/// The number of an argument, if it is in its range.
fn argument_number(matches: &ArgMatches, name: &str, range: Range) -> Option<u32>
    ensures number { result ≡ number_given range (first_of name.now (rows_of (found_of matches.now))) }
    ensures within { IfSome result (IsWithin range) }
{
    number_in(range, matches.get_str(name)?)
}

/// The options of a run, if each number is in its range.
fn options_of(matches: &ArgMatches) -> Option<RunOptions>
    ensures { result ≡ options_of (rows_of (found_of matches.now)) }
{
    let tries = option_number(matches, "tries", TRIES, USUAL.tries)?;
    let slots = option_number(matches, "slots", SLOTS, USUAL.slots)?;
    let snap = option_number(matches, "snap", SNAP, USUAL.snap)?;
    let brief = is_set(matches, "brief");
    Some(RunOptions {
        tries,
        slots,
        snap,
        brief,
    })
}

/// The arguments of `make`, if each number is in its range.
fn arguments_of(matches: &ArgMatches) -> Option<MakeArguments>
    ensures { result ≡ arguments_of (rows_of (found_of matches.now)) }
{
    let seed = argument_number(matches, "seed", SEED)?;
    let workers = argument_number(matches, "workers", WORKERS)? as u8;
    let lines = argument_number(matches, "lines", LINES)?;
    Some(MakeArguments {
        seed,
        workers,
        lines,
    })
}

fn run_asked(matches: &ArgMatches) -> Command
    ensures { result ≡ run_with (options_of (rows_of (found_of matches.now))) }
{
    match options_of(matches) {
        Some(options) => Command::Run(options),
        None => Command::Refused,
    }
}

fn make_asked(matches: &ArgMatches) -> Command
    ensures { result ≡ make_with (arguments_of (rows_of (found_of matches.now))) }
{
    match arguments_of(matches) {
        Some(arguments) => Command::Make(arguments),
        None => Command::Refused,
    }
}

fn snap_asked(matches: &ArgMatches) -> Command
    ensures { result ≡ snap_with (epoch_of (rows_of (found_of matches.now))) }
{
    match argument_number(matches, "epoch", EPOCH) {
        Some(epoch) => Command::Snap(epoch),
        None => Command::Refused,
    }
}

fn asked(matches: &ArgMatches) -> Command
    ensures { result ≡ asked (subcommand_rows_of matches.now) }
{
    let Some((name, found)) = matches.subcommand() else {
        return Command::Refused;
    };
    if name == "dump" {
        return Command::Dump;
    }
    if name == "snaps" {
        return Command::Snaps;
    }
    if name == "snap" {
        return snap_asked(found);
    }
    if name == "make" {
        return make_asked(found);
    }
    run_asked(found)
}

/// What the words ask for, or want of memory.
pub fn read_words(alloc: Global, words: &[&str]) -> Result<Command, Memory>
    ensures { ReadsWords (map (λ w. w.now) words.now) result }
{
    let program = program(alloc)?;
    match program.try_get_matches_from(words) {
        Ok(matches) => Ok(asked(&matches)),
        Err(error) => match error.kind() {
            ErrorKind::OutOfMemory => Err(Memory),
            _ => Ok(Command::Refused),
        },
    }
}
