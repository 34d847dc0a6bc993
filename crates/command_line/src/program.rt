// The program as clap's definition.
ghost use Rattle.std.specs.Prelude.{◌≡◌, IfOk, false};
ghost use Rattle.clap.specs.Words.{App, Shape, app_of, rule_of, with_rule, with_subcommand};
ghost use Rattle.command_line.specs.Commands.{HasApp, argument_rule, bare, bare_program, flag_rule, leaf};
ghost use Rattle.command_line.specs.Commands.{make_shape, option_rule, program, run_shape, snap_shape};

use clap::{Arg, ArgAction, Command};
use std::alloc::{AllocError, Global};

/// An option with one value, which is text to clap.
fn option<'a>(alloc: Global, name: &'a str) -> Arg<'a>
    ensures rule { rule_of result ≡ option_rule name.entry.now }
    ensures local { result.global ≡ false }
{
    Arg::new(alloc, name).long(name).action(ArgAction::Set)
}

/// An option without a value.
fn flag<'a>(alloc: Global, name: &'a str) -> Arg<'a>
    ensures rule { rule_of result ≡ flag_rule name.entry.now }
    ensures local { result.global ≡ false }
{
    Arg::new(alloc, name).long(name).action(ArgAction::SetTrue)
}

/// A word that has to be given, which is text to clap.
fn argument<'a>(alloc: Global, name: &'a str) -> Arg<'a>
    ensures rule { rule_of result ≡ argument_rule name.entry.now }
    ensures local { result.global ≡ false }
{
    Arg::new(alloc, name).required(true)
}

/// A command that has neither arguments nor a flag for help.
fn bare<'a>(alloc: Global, name: &'a str) -> Command<'a>
    ensures { HasApp (bare name.entry.now) result }
{
    Command::new(alloc, name).disable_help_flag(true)
}

/// The command with one more option, if there was memory so far.
fn with_option<'a>(
    alloc: Global,
    command: Result<Command<'a>, AllocError>,
    name: &'a str,
) -> Result<Command<'a>, AllocError>
    ensures { (app : App) → IfOk command.entry (HasApp app)
        → IfOk result (HasApp (with_rule app (option_rule name.entry.now))) }
{
    let command = command?;
    command.arg(option(alloc, name))
}

/// The command with one more option that has no value.
fn with_flag<'a>(
    alloc: Global,
    command: Result<Command<'a>, AllocError>,
    name: &'a str,
) -> Result<Command<'a>, AllocError>
    ensures { (app : App) → IfOk command.entry (HasApp app)
        → IfOk result (HasApp (with_rule app (flag_rule name.entry.now))) }
{
    let command = command?;
    command.arg(flag(alloc, name))
}

/// The command with one more word that has to be given.
fn with_argument<'a>(
    alloc: Global,
    command: Result<Command<'a>, AllocError>,
    name: &'a str,
) -> Result<Command<'a>, AllocError>
    ensures { (app : App) → IfOk command.entry (HasApp app)
        → IfOk result (HasApp (with_rule app (argument_rule name.entry.now))) }
{
    let command = command?;
    command.arg(argument(alloc, name))
}

fn run<'a>(alloc: Global) -> Result<Command<'a>, AllocError>
    ensures { IfOk result (HasApp (leaf run_shape)) }
{
    let with_tries = with_option(alloc, Ok(bare(alloc, "run")), "tries");
    let with_slots = with_option(alloc, with_tries, "slots");
    let with_snap = with_option(alloc, with_slots, "snap");
    with_flag(alloc, with_snap, "brief")
}

fn snap<'a>(alloc: Global) -> Result<Command<'a>, AllocError>
    ensures { IfOk result (HasApp (leaf snap_shape)) }
{
    with_argument(alloc, Ok(bare(alloc, "snap")), "epoch")
}

fn make<'a>(alloc: Global) -> Result<Command<'a>, AllocError>
    ensures { IfOk result (HasApp (leaf make_shape)) }
{
    let with_seed = with_argument(alloc, Ok(bare(alloc, "make")), "seed");
    let with_workers = with_argument(alloc, with_seed, "workers");
    with_argument(alloc, with_workers, "lines")
}

/// The program, which has to be told a command.
fn bare_program<'a>(alloc: Global) -> Command<'a>
    ensures { HasApp bare_program result }
{
    bare(alloc, "foedus")
        .disable_help_subcommand(true)
        .subcommand_required(true)
}

/// The program with one more command.
fn with_command<'a>(
    above: Result<Command<'a>, AllocError>,
    command: Result<Command<'a>, AllocError>,
) -> Result<Command<'a>, AllocError>
    ensures { (app : App) (shape : Shape) → IfOk above.entry (HasApp app)
        → IfOk command.entry (HasApp (leaf shape))
        → IfOk result (HasApp (with_subcommand app shape)) }
{
    let command = command?;
    let above = above?;
    above.subcommand(command)
}

/// The program, with its commands.
pub(crate) fn program<'a>(alloc: Global) -> Result<Command<'a>, AllocError>
    ensures { IfOk result (λ c. app_of c ≡ program) }
{
    let with_run = with_command(Ok(bare_program(alloc)), run(alloc));
    let with_dump = with_command(with_run, Ok(bare(alloc, "dump")));
    let with_snaps = with_command(with_dump, Ok(bare(alloc, "snaps")));
    let with_snap = with_command(with_snaps, snap(alloc));
    with_command(with_snap, make(alloc))
}
