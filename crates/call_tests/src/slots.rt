// Runs whose arrays have more pages than there are slots, and what is read in a snapshot without one.
use super::*;
use crate::brief::answer_fresh;

// What a run finds in a snapshot it reads there. Of an array of two levels four slots are the page above the leaves and
// three of these. A page that was put in stays, also behind a line in conflict and when a snapshot is made of it.
pub(super) const TWO_LEVELS: &str = "\
run # array 1 160|0 w 1 0 1; w 1 32 2; w 1 64 3; w 1 96 4; w 1 159 5|join|k glean # 0 # 0.0 ok 1:1|durable 1|\
k.0 snap 1 new 7|durable 2|
run --slots 4 # array 1 160|0 r 1 0; r 1 32; r 1 64; r 1 96; r 1 159; r 1 33|0 a 1 0 1|0 a 1 32 1|0 a 1 64 1; r 1 96|\
0 a 1 96 1|0 t 1 159 1; r 1 0|1 r 1 0; r 1 32; r 1 64; r 1 96; r 1 159|join|k glean|0 a 1 1 9|0 a 1 96 1|join|\
0 r 1 1; r 1 96|1 a 1 128 1 # 0 # 0.0 ok 3:1 1 2 3 4 5 0|0.1 ok 3:2|0.2 ok 3:3|0.3 ok 3:4 4|0.4 full|0.5 full|\
1.0 ok 3:5 2 3 4 4 5|durable 3|0.0 ok 4:6|0.1 full|k.0 snap 3 new 5|durable 4|0.0 ok 5:7 9 4|1.0 full|durable 5|
run --slots 4 --tries 1 # array 1 160|0 r 1 96; a 1 96 1|0 r 1 159; a 1 96 1|0 r 1 0; r 1 1; r 1 96 # 0 # \
0.0 conflict|0.1 ok 6:1 5|0.2 ok 6:2 2 9 5|durable 6|
dump # # 0 # epoch 6|1 0 2|1 1 9|1 32 3|1 64 4|1 96 5|1 159 5|
snap 3 # # 0 # epoch 3|1 0 2|1 32 3|1 64 4|1 96 4|1 159 5|
";

// Of three levels they are a leaf, the two pages above it, and that above another leaf, which then finds none.
pub(super) const THREE_LEVELS: &str = "\
run --slots 4 # array 1 131072|0 w 1 131071 1|0 w 1 0 2|0 w 1 131039 3|0 a 1 131070 4|0 r 1 0; r 1 131039|join|\
k glean # 0 # 0.0 ok 1:1|0.1 full|0.2 full|0.3 ok 1:2|0.4 ok 1:3 0 0|durable 1|k.0 snap 1 new 4|durable 2|
run --slots 4 # array 1 131072|0 r 1 131071; r 1 131070; r 1 0|0 w 1 0 2|0 w 1 32 3|0 a 1 131071 1|\
1 r 1 131071; r 1 0; r 1 32 # 0 # 0.0 ok 3:1 1 4 0|0.1 ok 3:2|0.2 ok 3:3|0.3 full|1.0 ok 3:4 1 2 3|durable 3|
run # array 1 131072|0 r 1 131071; r 1 0; r 1 32; a 1 131071 1; r 1 131071|0 r 1 131070 # 0 # 0.0 ok 4:1 1 2 3 2|\
0.1 ok 4:2 4|durable 4|
dump # # 0 # epoch 4|1 0 2|1 32 3|1 131070 4|1 131071 2|
";

// Each array has its own first page.
pub(super) const SEVERAL_ARRAYS: &str = "\
run --slots 4 # array 1 1|array 2 2|array 3 32|array 4 4|array 5 5|0 w 5 4 1; w 4 0 1|0 r 1 0; w 2 1 7; w 3 31 1|\
0 a 1 0 1|0 r 1 0; r 2 1; r 3 31; r 4 0; r 5 4 # 0 # 0.0 ok 1:1|0.1 ok 1:2 0|0.2 full|0.3 ok 1:3 0 7 1 1 1|durable 1|
run --slots 4 # array 1 1|array 2 2|array 3 32|array 4 4|array 5 5|0 a 1 0 1; a 2 0 1; a 3 0 1; a 4 0 1; t 2 1 7|\
1 r 5 4; r 2 1|1 a 5 4 1 # 0 # 0.0 ok 2:1|1.0 ok 2:2 1 0|1.1 full|durable 2|
dump # # 0 # epoch 2|1 0 1|2 0 1|3 0 1|3 31 1|4 0 2|5 4 1|
";

// Two snapshots of an array of four leaves, whose pages are published within the run: what was put before, between and
// behind them is read, and a leaf that has nothing.
const GLEANED: &str = "\
array 1 128
0 w 1 0 1; w 1 32 2; w 1 64 3
join
0 w 1 1 4; w 1 33 5
k save
k epoch
k glean
join
k glean
join
0 r 1 0; r 1 1; r 1 32; r 1 33; r 1 64; r 1 100
0 a 1 0 9; r 1 0
";

const GLEANED_TOLD: &str = "\
0.0 ok 1:1
durable 1
0.0 ok 2:2
k.0 save 1
k.1 epoch 3
k.2 snap 1 new 5
durable 3
k.0 snap 3 new 4
durable 4
0.0 ok 5:3 1 4 2 5 3 0
0.1 ok 5:4 10
durable 5
";

// How it is run: with room for a few pages of snapshots, and for many.
const ROOMS: [&str; 2] = ["run --slots 4 --snap 64", "run --slots 4 --snap 4096"];

#[test]
fn lines_go_on_over_published_pages(rt: HostRuntime) -> Result<(), Fail> {
    for asked in &ROOMS {
        check_leaves(&rt, asked, GLEANED, GLEANED_TOLD)?;
    }
    Ok(())
}

// The lines that are written leaf by leaf.
const LINES: u32 = 300;

// How they are run, and how many of them find slots: each takes one, the first one more for the page above all, and the
// first of each 64 one more for the page above these.
const FITTING: [(&str, u32); 4] = [
    ("run --slots 4", 2),
    ("run --slots 64", 62),
    ("run", 251),
    ("run --slots 4096", LINES),
];

// Lines of which each writes a value of the next leaf of an array of three levels.
fn leaf_by_leaf(alloc: Global) -> Result<String, AllocError> {
    let mut script = String::from_str(alloc, "array 1 131072\n")?;
    for line in 0..LINES {
        let text = format!(in alloc; "0 w 1 {} 1\n", line.wrapping_mul(32))?;
        script.push_str(text.as_str())?;
    }
    Ok(script)
}

// What is told of them where the first so many find slots.
fn told_leaves(alloc: Global, fitting: u32) -> Result<String, AllocError> {
    let mut text = String::new(alloc);
    for line in 0..LINES {
        let told = if line < fitting {
            format!(in alloc; "0.{line} ok 1:{}\n", line.wrapping_add(1))?
        } else {
            format!(in alloc; "0.{line} full\n")?
        };
        text.push_str(told.as_str())?;
    }
    text.push_str("durable 1\n")?;
    Ok(text)
}

fn check_leaves<R: Threads + Wait + Sync + AllocGlobal>(
    rt: &R,
    asked: &str,
    script: &str,
    told: &str,
) -> Result<(), Fail> {
    let mut vault = fresh_vault(rt.alloc())?;
    let wanted = (0, told.as_bytes());
    check_answer(rt, &mut vault, asked, script.as_bytes(), wanted)
}

#[test]
fn lines_are_full_where_no_slot_is_left(rt: HostRuntime) -> Result<(), Fail> {
    let script = leaf_by_leaf(rt.alloc())?;
    for (asked, fitting) in &FITTING {
        let told = told_leaves(rt.alloc(), *fitting)?;
        check_leaves(&rt, asked, script.as_str(), told.as_str())?;
    }
    Ok(())
}

// So many values, of 25 leaves. With those of the round before and the pages above all of them they are 53 pages, and
// each worker may hold one more that it puts in.
const PART: u64 = 800;

// Adds 10,000 lines to a script, which add to the values of a part of their own.
fn add_part(alloc: Global, script: &mut String, part: u64) -> Result<(), AllocError> {
    for line in 0..10_000u64 {
        let key = part.wrapping_mul(PART).wrapping_add(line % PART);
        let text = format!(in alloc; "{} a 1 {key} 1\n", line % 8)?;
        script.push_str(text.as_str())?;
    }
    Ok(())
}

// A script of so many rounds of such lines. Beside them a snapshot is made of the round before, and its pages dropped.
fn onward(alloc: Global, rounds: u64) -> Result<String, AllocError> {
    let mut script = String::from_str(alloc, "array 1 131072\n")?;
    for round in 0..rounds {
        add_part(alloc, &mut script, round)?;
        script.push_str("k glean\nk drop\njoin\n")?;
    }
    Ok(script)
}

const ALL_COMMITTED: &[u8] = b"commits 260000\ntotal 260000\ndurable 26\n";

// Ten times more values are written than the pages in 64 slots have, and no line is without a slot.
#[test]
fn slots_are_given_again_within_a_run(rt: HostRuntime) -> Result<(), Fail> {
    let script = onward(rt.alloc(), 26)?;
    let asked = "run --brief --tries 1000000 --slots 64";
    let (status, told) = answer_fresh(&rt, asked, script.as_bytes())?;
    is_answer(asked, (status, &told), (0, ALL_COMMITTED))
}
