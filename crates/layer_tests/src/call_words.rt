// Words of calls, and what they ask for.
use super::checks::is_so;
use command_line::{Command, MakeArguments, RunOptions, read_words};
use serial_model::Memory;
use std::alloc::{AllocError, Global};
use std::test::Fail;

// Rows have the words of a call, with bars between them.

/// Runs: the tries, the slots, the pages of snapshots, and whether it is told in short.
const RUNS: [(&str, u32, u32, u32, bool); 18] = [
    ("foedus|run|--tries|1", 1, 256, 4_096, false),
    ("foedus|run|--tries|1000000", 1_000_000, 256, 4_096, false),
    ("foedus|run|--slots|4", 1_000, 4, 4_096, false),
    ("foedus|run|--slots|4096", 1_000, 4_096, 4_096, false),
    ("foedus|run|--snap|1", 1_000, 256, 1, false),
    ("foedus|run|--snap|65536", 1_000, 256, 65_536, false),
    ("any|run", 1_000, 256, 4_096, false),
    ("any|run|--tries|7|--slots|8", 7, 8, 4_096, false),
    ("any|run|--slots|8|--tries|7", 7, 8, 4_096, false),
    ("any|run|--snap|9|--slots|8|--tries|7", 7, 8, 9, false),
    ("any|run|--slots|8|--snap|9|--tries|7", 7, 8, 9, false),
    ("any|run|--tries|7|--slots|8|--snap|9", 7, 8, 9, false),
    ("any|run|--tries=5", 5, 256, 4_096, false),
    ("any|run|--snap=9|--tries|5", 5, 256, 9, false),
    ("any|run|--", 1_000, 256, 4_096, false),
    ("any|run|--brief", 1_000, 256, 4_096, true),
    ("any|run|--brief|--snap|9", 1_000, 256, 9, true),
    ("any|run|--tries|7|--brief|--snap|9", 7, 256, 9, true),
];

/// Scripts that are made: the seed, the workers and the lines.
const MADE: [(&str, u32, u8, u32); 4] = [
    ("any|make|7|8|65536", 7, 8, 65_536),
    ("any|make|0|1|1", 0, 1, 1),
    ("any|make|2147483647|2|3", 2_147_483_647, 2, 3),
    ("any|make|1|--|2|3", 1, 2, 3),
];

/// Snapshots, by their epochs.
const SNAPSHOTS: [(&str, u32); 4] = [
    ("any|snap|0", 0),
    ("any|snap|1048575", 1_048_575),
    ("any|snap|--|7", 7),
    ("any|snap|7|--", 7),
];

/// Numbers that are none, or out of range.
const NUMBERS: &str = "\
foedus|run|--tries|0
foedus|run|--tries|1000001
foedus|run|--slots|3
foedus|run|--slots|4097
foedus|run|--snap|0
foedus|run|--snap|65537
foedus|run|--tries|18446744073709551617
foedus|run|--snap|4294967297
foedus|run|--tries|+5
foedus|run|--tries|007
foedus|run|--tries|05
foedus|run|--tries|
foedus|run|--tries|-5
foedus|run|--tries|5x
foedus|run|--tries| 5
foedus|run|--tries|5.0
foedus|run|--tries|0x5
foedus|run|--tries|5_000
foedus|run|--tries|five
any|snap
any|snap|1048576
any|snap|1|2
any|snap|01
any|snap|-1
any|snap|help
any|snap|--help
any|snap|1|-h
any|make|2147483648|1|1
any|make|1|0|1
any|make|1|9|1
any|make|1|1|0
any|make|1|1|65537
any|make|01|1|1
any|make|+1|1|1
any|make|-1|1|1";

/// Words that ask for nothing.
const FAULTY: &str = "\
foedus
foedus|walk
foedus|run|run
foedus|Run
foedus|
foedus|--tries|5|run
foedus|run|--tries
foedus|run|--tries|--slots|5
foedus|run|--tries|5|6
foedus|run|--tries|5|--tries|5
foedus|run|--tries|5|--snap|6|--tries|7
foedus|run|--try|5
foedus|run|-t|5
foedus|run|--tries=
foedus|run|--|5
foedus|--|run
foedus|dump|all
foedus|dump|--tries|5
foedus|dump|--help
foedus|dump|run
foedus|dump|--brief
foedus|run|--brief|--brief
foedus|run|--brief=true
foedus|run|--brief|true
foedus|snaps|1
foedus|snaps|--help
foedus|snaps|help
foedus|snapshot|1
foedus|make
foedus|make|1|2
foedus|make|1|2|3|4
foedus|make|1|2|3|--brief
foedus|make|--seed|1|2|3
foedus|make|help|2|3
foedus|make|1|2|3|--help
foedus|make|--|--help|2|3";

/// The words of a row.
fn words(alloc: Global, row: &str) -> Result<Vec<&str>, AllocError> {
    let mut words = Vec::new(alloc);
    for word in row.split('|') {
        words.push(word)?;
    }
    Ok(words)
}

/// What words ask for, without each thing that `read_words` says of it.
fn asked(alloc: Global, words: &[&str]) -> Result<Command, Memory> {
    read_words(alloc, words)
}

/// The words of a row ask for this.
fn asks(alloc: Global, row: &str, command: Command) -> Result<(), Fail> {
    let words = words(alloc, row)?;
    is_so(row, asked(alloc, &words) == Ok(command))
}

/// The words of each row are refused.
fn are_refused(alloc: Global, rows: &str) -> Result<(), Fail> {
    for row in rows.split('\n') {
        asks(alloc, row, Command::Refused)?;
    }
    Ok(())
}

#[test]
fn options_in_any_order(rt: HostRuntime) -> Result<(), Fail> {
    for (row, tries, slots, snap, brief) in &RUNS {
        let options = RunOptions {
            tries: *tries,
            slots: *slots,
            snap: *snap,
            brief: *brief,
        };
        asks(rt.alloc(), row, Command::Run(options))?;
    }
    Ok(())
}

#[test]
fn numbers_of_a_script(rt: HostRuntime) -> Result<(), Fail> {
    for (row, seed, workers, lines) in &MADE {
        let arguments = MakeArguments {
            seed: *seed,
            workers: *workers,
            lines: *lines,
        };
        asks(rt.alloc(), row, Command::Make(arguments))?;
    }
    Ok(())
}

#[test]
fn epoch_of_a_snapshot(rt: HostRuntime) -> Result<(), Fail> {
    for (row, epoch) in &SNAPSHOTS {
        asks(rt.alloc(), row, Command::Snap(*epoch))?;
    }
    Ok(())
}

#[test]
fn dumps_and_lists_stand_alone(rt: HostRuntime) -> Result<(), Fail> {
    asks(rt.alloc(), "foedus|dump", Command::Dump)?;
    asks(rt.alloc(), "foedus|snaps", Command::Snaps)
}

#[test]
fn faulty_words(rt: HostRuntime) -> Result<(), Fail> {
    let none = asked(rt.alloc(), &[]);
    is_so("no words", none == Ok(Command::Refused))?;
    are_refused(rt.alloc(), FAULTY)?;
    are_refused(rt.alloc(), NUMBERS)
}
