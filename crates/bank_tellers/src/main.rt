//! An example of the engine as a library: tellers of a bank, each in a thread of its own, move money between accounts,
//! all at once. It prints that no money came or went, and that the audit counts each transfer once.
//!
//! How a caller goes about it: a `Start` says what an engine begins with, here one array without any page, and how many
//! slots it has for pages in memory; `make` gives the engine and the keeper's pass; `seat` cuts a worker's pass from
//! that, with which one thread runs its transactions, one after another (`Txn`); where a transaction is refused, since
//! another one was in its way, it is over and may be tried again; `end` joins the pass to the keeper's, and `audit`
//! then counts what was committed.
//! What the calls promise stands in their contracts: the commits are one serial run of these transactions.
//! Design: docs/COMMIT.md and docs/PAGES.md.
#![tactic(auto)]

mod bank;
mod teller;

use bank::Bank;
use std::process::ExitCode;

fn main(rt: HostRuntime) -> ExitCode {
    let Ok(mut bank) = Bank::new(rt.alloc()) else {
        return ExitCode::FAILURE;
    };
    bank.transfer_in_threads(&rt);
    let total = bank.total();
    let (moved, counted) = bank.close();
    let all = moved == counted;
    match println!(rt; "total {total}, each commit counted once: {all}") {
        Ok(()) => ExitCode::SUCCESS,
        Err(_) => ExitCode::FAILURE,
    }
}
