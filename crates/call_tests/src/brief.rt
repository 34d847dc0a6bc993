// Runs that are told in brief.
use super::*;
use crate::gleans::answer_new;

// Calls one after another over one vault, as rows of `CASES`. Nothing is told but the last line where no round was run,
// and what is kept is all that was kept before too.
pub(super) const CALLS: &str = "\
run # array 1 4|0 w 1 2 7| # 0 # 0.0 ok 1:1|durable 1|
run --brief # array 1 5| # 1 # shape declared 1:5 kept 1:4|
run --brief # array 1 4|0 r 1 2| # 0 # commits 1|total 7|durable 2|
run --brief --snap 1 # array 1 4| # 7 # limit snap|
dump # # 0 # epoch 2|1 2 7|
";

// The status and the text of a run on threads over a fresh database.
pub(crate) fn answer_fresh<R: Threads + Wait + Sync + AllocGlobal>(
    rt: &R,
    asked: &str,
    script: &[u8],
) -> Result<(u8, Vec<u8>), Fail> {
    let mut vault = fresh_vault(rt.alloc())?;
    answer_by(rt, &mut vault, asked, script, &OpenGate)
}

// Runs a script in brief, with lines of its workers at once.
fn run_brief<R: Threads + Wait + Sync + AllocGlobal>(
    rt: &R,
    script: &[u8],
    text: &[u8],
) -> Result<(), Fail> {
    let asked = "run --brief --tries 1000000 --slots 512";
    let (status, told) = answer_fresh(rt, asked, script)?;
    is_answer(asked, (status, &told), (0, text))
}

// The long script that everybody can make.
#[test]
fn a_long_script_in_brief(rt: HostRuntime) -> Result<(), Fail> {
    let (made, script) = answer_new(&rt, "make 7 8 65536", b"")?;
    is_so("a script that is made", made == 0)?;
    let text = b"commits 65536\ntotal 131072\ndurable 1\n";
    run_brief(&rt, &script, text.as_slice())
}

// The session of the README.
pub(super) const SESSION: &str = "\
make 1 2 2 # # 0 # array 1 1024|tree 2|0 a 1 454 1; a 2 126 1|1 a 1 897 1; a 2 107 1|
run --brief # array 1 1024|tree 2|0 a 1 454 1; a 2 126 1|1 a 1 897 1; a 2 107 1| # 0 # commits 2|total 4|durable 1|
dump # # 0 # epoch 1|1 454 1|1 897 1|2 107 1|2 126 1|
run # array 1 1024|tree 2|0 w 2 107 5; d 2 126 # 0 # 0.0 ok 2:1|durable 2|
snaps # # 0 # snap 0 at 1|snap 1 at 6|
snap 1 # # 0 # epoch 1|1 454 1|1 897 1|2 107 1|2 126 1|
dump # # 0 # epoch 2|1 454 1|1 897 1|2 107 5|
";

const ARRAY: &[u8] = b"array 1 3\n";

// So many lines of each of these workers, in turn, behind these declarations.
fn repeated(
    alloc: Global,
    decls: &[u8],
    lines: &[&str],
    count: u32,
) -> Result<Vec<u8>, AllocError> {
    let mut script = decls.to_vec(alloc)?;
    for _ in 0..count {
        for line in lines {
            script.extend_from_slice(line.as_bytes())?;
            script.push(b'\n')?;
        }
    }
    Ok(script)
}

// What workers add again and again: together 36 in a turn.
const ADDED: [&str; 8] = [
    "0 a 1 0 1",
    "1 a 1 0 2",
    "2 a 1 1 3",
    "3 a 1 1 1; a 1 2 3",
    "4 a 1 2 5",
    "5 a 1 0 6",
    "6 a 1 1 7",
    "7 a 1 2 4; a 1 0 4",
];

const SUMMED_UP: &[u8] = b"commits 400\ntotal 1800\ndurable 1\n";

// The same on a tree beside an array.
const ADDED_ON_BOTH: [&str; 8] = [
    "0 a 2 0 1",
    "1 a 1 0 2",
    "2 a 2 1 3",
    "3 a 2 1 1; a 1 2 3",
    "4 a 2 18446744073709551615 5",
    "5 a 2 0 6",
    "6 a 1 1 7",
    "7 a 2 18446744073709551615 4; a 2 0 4",
];

const ARRAY_AND_TREE: &[u8] = b"array 1 3\ntree 2\n";

fn check_sum<R: Threads + Wait + Sync + AllocGlobal>(
    rt: &R,
    decls: &[u8],
    added: &[&str],
) -> Result<(), Fail> {
    let script = repeated(rt.alloc(), decls, added, 50)?;
    let (status, told) = answer_fresh(rt, "run --brief --tries 1000000", &script)?;
    is_answer("a sum", (status, &told), (0, SUMMED_UP))
}

#[test]
fn eight_workers_are_summed_up(rt: HostRuntime) -> Result<(), Fail> {
    check_sum(&rt, ARRAY, &ADDED)?;
    check_sum(&rt, ARRAY_AND_TREE, &ADDED_ON_BOTH)
}
