// Whole calls: their words, scripts, statuses and texts.
use super::{brief, drops, gleans, kept_runs, listings, slots, trees, *};

// A save device of another length, with and without a script, and in brief.
const A_SHORT_SAVE: &str = "\
run # array 1 4|0 w 1 2 7; r 1 2|0 r 1 0| # 6 # damaged save 0|
run # walk| # 1 # script 1 Word|
run --brief # array 1 4|0 w 1 2 7| # 6 # damaged save 0|
";

const LAST: u64 = (1 << 63) - 1;

// Calls one after another over one vault: each begins where those before it ended.
const CALLS: [(First, &str); 42] = [
    (First::Kept(0, 0, 0, 0), kept_runs::AFTER_RUNS_THAT_READ),
    (First::Kept(0, 0, 0, 0), kept_runs::AFTER_A_RUN_THAT_WROTE),
    (First::Kept(0, 0, 0, 0), kept_runs::AFTER_A_RUN_OVER_A_TREE),
    (First::Kept(0, 0, 0, 0), kept_runs::OTHER_STORAGES),
    (First::Kept(0, 0, 0, 0), kept_runs::NO_STORAGES),
    (First::Kept(0, 0, 0, 0), kept_runs::NOTHING_CHANGED),
    (
        First::Kept(2, 1_048_573, 1, 0),
        kept_runs::NEAR_THE_LAST_EPOCH,
    ),
    (First::Kept(LAST, 1, 1, 0), kept_runs::AT_THE_LAST_SEQUENCE),
    (
        First::Kept(LAST, 0, 1, 40),
        kept_runs::NO_SEQUENCE_FOR_SETTLING,
    ),
    (
        First::Kept(LAST, 1, 1, 40),
        kept_runs::NO_SEQUENCE_FOR_A_SNAPSHOT,
    ),
    (
        First::Kept(2, 0, 1, 40),
        "run # array 1 4|0 r 1 2| # 0 # 0.0 ok 1:1 0|durable 1|",
    ),
    (
        First::Kept(2, 1, 1, 40),
        "run # array 1 4| # 0 # durable 2|\ndump # # 0 # epoch 2|1 2 7|",
    ),
    (
        First::Kept(2, 1, 3, 0),
        kept_runs::MORE_PAGES_THAN_ARE_LET_IN,
    ),
    (First::Kept(2, 1, 1, 41), kept_runs::DAMAGED),
    (First::Kept(2, 1, 1, 41), "snap 7 # # 6 # damaged bank0 40|"),
    (First::Short, A_SHORT_SAVE),
    (First::Fresh, brief::CALLS),
    (First::Fresh, brief::SESSION),
    (First::Fresh, gleans::A_SNAPSHOT),
    (First::Fresh, gleans::AGAIN),
    (First::Fresh, gleans::A_HIGH_ARRAY),
    (First::Fresh, gleans::NO_ROOM),
    (First::Fresh, gleans::ONE_PAGE_TOO_FEW),
    (First::Fresh, gleans::A_TREE),
    (First::Fresh, gleans::TREES_AND_AN_ARRAY),
    (First::Fresh, listings::RUNS),
    (First::Fresh, listings::RUNS_OVER_A_TREE),
    (First::Fresh, slots::TWO_LEVELS),
    (First::Fresh, slots::THREE_LEVELS),
    (First::Fresh, slots::SEVERAL_ARRAYS),
    (First::Fresh, drops::DROPPED),
    (First::Fresh, drops::KEPT),
    (First::Fresh, drops::WITHOUT_A_SNAPSHOT),
    (First::Fresh, drops::OF_TWO_LEVELS),
    (First::Fresh, drops::OF_THREE_LEVELS),
    (First::Fresh, drops::OF_SEVERAL_ARRAYS),
    (First::Fresh, drops::BESIDE_A_TREE),
    (First::Fresh, drops::GIVEN_AGAIN),
    (First::Fresh, trees::A_LEAF_EACH),
    (First::Fresh, trees::SPLIT),
    (First::Fresh, trees::OF_CHAINS),
    (First::Fresh, trees::ENDED_BY_ITS_OWN),
];

fn check_first<R: Threads + Wait + Sync + AllocGlobal>(
    rt: &R,
    first: First,
    rows: &str,
) -> Result<(), Fail> {
    let mut vault = first_vault(rt.alloc(), first)?;
    check_rows(rt, &mut vault, rows)
}

// With ample memory each call gives its text: a body that always wants memory fails here. Each of the cases is over a new
// vault; the calls behind them one after another over one.
#[test]
fn ample_memory_is_enough(rt: HostRuntime) -> Result<(), Fail> {
    for row in CASES.lines() {
        check_first(&rt, First::Fresh, row)?;
    }
    for (first, rows) in &CALLS {
        check_first(&rt, *first, rows)?;
    }
    Ok(())
}

// The numbers of the failing read and of the failing write, the status and the text.
const FAULTS: [(u64, u64, u8, &str); 4] = [
    (0, 9, 3, "read\n"),
    (1, 9, 3, "read\n"),
    (9, 0, 4, "0.0 ok 1:1 7\n0.1 o"),
    (0, 0, 4, "re"),
];

#[test]
fn a_fault_of_a_stream_ends_the_call(rt: HostRuntime) -> Result<(), Fail> {
    let script = b"array 1 4\n0 w 1 2 7; r 1 2\n0 r 1 0\n";
    for (read, write, status, text) in &FAULTS {
        check_call(
            &rt,
            ("run", script.as_slice()),
            (*read, *write),
            *status,
            text,
        )?;
    }
    Ok(())
}

const SEVENTEEN_OPERATIONS: &[u8] =
    b"array 1 4\n0 r 1 0; r 1 0; r 1 0; r 1 0; r 1 0; r 1 0; r 1 0; r 1 0; \
r 1 0; r 1 0; r 1 0; r 1 0; r 1 0; r 1 0; r 1 0; r 1 0; r 1 0";

const SEVENTEEN_ARRAYS: &[u8] =
    b"array 0 1\narray 1 1\narray 2 1\narray 3 1\narray 4 1\narray 5 1\n\
array 6 1\narray 7 1\narray 8 1\narray 9 1\narray 10 1\narray 11 1\narray 12 1\narray 13 1\narray 14 1\n\
array 15 1\narray 16 1\n";

// Lines and scripts that have too much of something.
const TOO_MUCH: [(&[u8], &str); 6] = [
    (&[b'0'; 1025], "script 1 TooLong\n"),
    (&[b'j'; 1025], "script 1 TooLong\n"),
    (&[b' '; 2000], "script 1 TooLong\n"),
    (&[b'0'; 1024], "script 1 Word\n"),
    (SEVENTEEN_OPERATIONS, "script 2 TooMany\n"),
    (SEVENTEEN_ARRAYS, "script 17 TooMany\n"),
];

#[test]
fn too_much_is_told(rt: HostRuntime) -> Result<(), Fail> {
    for (script, text) in &TOO_MUCH {
        check_call(&rt, ("run", script), (9, 9), 1, text)?;
    }
    Ok(())
}
