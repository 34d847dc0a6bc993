//! The program `foedus`: runs a script on a database and prints what came of each line, tells what the database keeps
//! and which snapshots it has, or makes a script. What it promises, `program_calls::top` states.
#![tactic(auto)]

use call_notes::{CountingSink, ScriptSource};
use outside::{StdSink, StdSource};
use program_entry::{Cleared, Progress, read_args, run_program};
use std::io::IsTerminal;
use std::process::ExitCode;

fn main(rt: HostRuntime) -> ExitCode {
    let errors = rt.stderr();
    let progress = Progress::new(&rt, rt.stderr());
    let is_typed = rt.stdin().is_terminal();
    let code = run_program(
        &rt,
        read_args(&rt),
        "vault",
        &mut ScriptSource::new(rt.alloc(), StdSource::new(&rt), is_typed),
        &mut CountingSink::new(Cleared::new(&progress, StdSink::new(&rt))),
        &mut Cleared::new(&progress, StdSink::new(&errors)),
        &mut Cleared::new(&progress, StdSink::new(&errors)),
        &progress,
    );
    progress.take_away();
    code
}
