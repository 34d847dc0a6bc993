// The program over a folder: its files, its words, what it explains.
use super::folders::check_closed;
use super::*;
use call_notes::{CountingSink, ScriptSource, explanation};
use std::fs::{self, File, Files};
use std::process::ExitCode;

fn owned_words(alloc: Global, asked: &str) -> Result<Vec<String>, Fail> {
    let mut words = Vec::new(alloc);
    words.push(String::from_str(alloc, "foedus")?)?;
    for text in asked.split_whitespace() {
        words.push(String::from_str(alloc, text)?)?;
    }
    Ok(words)
}

// What is printed, what is explained, and what is told beside it.
#[derive(Drop)]
struct Texts {
    told: CountingSink<MemSink>,
    explained: MemSink,
    noted: MemSink,
}

impl Texts {
    fn new(alloc: Global) -> Texts {
        Texts {
            told: CountingSink::new(MemSink::new(alloc, Vec::new(alloc))),
            explained: MemSink::new(alloc, Vec::new(alloc)),
            noted: MemSink::new(alloc, Vec::new(alloc)),
        }
    }
}

// What the program answers to these words, over sinks that take what it prints and explains.
fn program_over<R: Threads + Wait + Sync + Files<File = File> + AllocGlobal>(
    rt: &R,
    words: Vec<String>,
    folder: &str,
    source: &mut ScriptSource<SureSource>,
    texts: &mut Texts,
) -> ExitCode {
    run_program(
        rt,
        Ok(words),
        folder,
        source,
        &mut texts.told,
        &mut texts.explained,
        &mut texts.noted,
        &OpenGate,
    )
}

// What the program answers to these words after its name over a folder. The texts that it prints, explains and tells
// are lent: what is owned at a `?` costs a proof.
fn program_in<R: Threads + Wait + Sync + Files<File = File> + AllocGlobal>(
    rt: &R,
    folder: &str,
    (asked, script): (&str, &str),
    texts: &mut Texts,
) -> Result<ExitCode, Fail> {
    let alloc = rt.alloc();
    let bytes = SureSource::new(script.as_bytes().to_vec(alloc)?);
    let words = owned_words(alloc, asked)?;
    let mut source = ScriptSource::new(alloc, bytes, false);
    Ok(program_over(rt, words, folder, &mut source, texts))
}

// Compares what was answered and printed.
fn is_printed(code: ExitCode, texts: &Texts, status: u8, text: &str) -> Result<(), Fail> {
    is_so(text, code == ExitCode::from(status))?;
    is_same(text, texts.told.sink().bytes(), text.as_bytes())
}

// Compares what the program answers and prints.
fn check_program<R: Threads + Wait + Sync + Files<File = File> + AllocGlobal>(
    rt: &R,
    folder: &str,
    (asked, script): (&str, &str),
    status: u8,
    text: &str,
) -> Result<(), Fail> {
    let mut texts = Texts::new(rt.alloc());
    let code = program_in(rt, folder, (asked, script), &mut texts)?;
    is_printed(code, &texts, status, text)
}

fn take_name<R: Threads + Wait + Sync + Files<File = File> + AllocGlobal>(
    rt: &R,
    folder: &str,
    name: &str,
) -> Result<(), Fail> {
    let path = format!(in rt.alloc(); "{folder}/{name}")?;
    fs::create_dir(rt, path.as_str())?;
    Ok(())
}

// The same over a new folder, where folders stand in the place of two files.
fn program<R: Threads + Wait + Sync + Files<File = File> + AllocGlobal>(
    rt: &R,
    word: &str,
    taken: [&str; 2],
    texts: &mut Texts,
) -> Result<ExitCode, Fail> {
    let folder = "foedus_program";
    let _old = fs::remove_dir_all(rt, folder);
    fs::create_dir(rt, folder)?;
    take_name(rt, folder, taken[0])?;
    take_name(rt, folder, taken[1])?;
    let code = program_in(rt, folder, (word, "array 1 4\n0 r 1 3\n"), texts)?;
    fs::remove_dir_all(rt, folder)?;
    Ok(code)
}

// The words after the name, the script, the status and the text.
const KEPT_CALLS: [(&str, &str, u8, &str); 6] = [
    (
        "run",
        "array 1 4\n0 r 1 2\n",
        0,
        "0.0 ok 1:1 0\ndurable 1\n",
    ),
    (
        "run",
        "array 1 4\n0 w 1 2 7\n",
        0,
        "0.0 ok 2:1\ndurable 2\n",
    ),
    ("dump", "", 0, "epoch 2\n1 2 7\n"),
    (
        "run",
        "array 1 4\n0 r 1 2\n",
        0,
        "0.0 ok 3:1 7\ndurable 3\n",
    ),
    (
        "run --brief",
        "array 1 4\n0 a 1 0 5\n1 a 1 3 2\n",
        0,
        "commits 2\ntotal 14\ndurable 4\n",
    ),
    ("run", "array 1 5\n", 1, "shape declared 1:5 kept 1:4\n"),
];

// What was run is found again in the files.
#[test]
fn files_keep_what_was_run(rt: HostRuntime) -> Result<(), Fail> {
    let folder = "foedus_kept";
    let _old = fs::remove_dir_all(&rt, folder);
    for (asked, script, status, text) in &KEPT_CALLS {
        check_program(&rt, folder, (asked, script), *status, text)?;
    }
    fs::remove_dir_all(&rt, folder)?;
    Ok(())
}

// The words after the name, the status and the text.
const ALONE: [(&str, u8, &str); 5] = [
    (
        "make 1 2 2",
        0,
        "array 1 1024\ntree 2\n0 a 1 454 1; a 2 126 1\n1 a 1 897 1; a 2 107 1\n",
    ),
    ("make 1 2", 2, "usage\n"),
    ("--help", 2, "usage\n"),
    ("run --tries 0", 2, "usage\n"),
    ("", 2, "usage\n"),
];

fn is_missing<R: Threads + Wait + Sync + Files<File = File> + AllocGlobal>(
    rt: &R,
    path: &str,
) -> bool {
    fs::read(rt, path).is_err()
}

// Words that leave the database alone make no file of it: a script may be made for a run beside it, in a folder where
// none is yet.
#[test]
fn no_file_is_made_for_a_script(rt: HostRuntime) -> Result<(), Fail> {
    let folder = "foedus_unmade";
    let _old = fs::remove_dir_all(&rt, folder);
    for (asked, status, text) in &ALONE {
        check_program(&rt, folder, (asked, "array 1 4\n"), *status, text)?;
        is_so(asked, is_missing(&rt, "foedus_unmade/save"))?;
    }
    check_program(&rt, folder, ("dump", ""), 0, "epoch 0\n")?;
    check_closed(&rt, "foedus_unmade/save")?;
    fs::remove_dir_all(&rt, folder)?;
    Ok(())
}

// How the explanation of each status begins.
const EXPLAINED: [&str; 10] = [
    "",
    "Nothing was run, and the database is as it was. Mend the script",
    "foedus runs the transactions of a script",
    "Standard input failed",
    "Standard output failed",
    "The file of that name in the folder vault can't be had",
    "From that byte on the file of that name",
    "A limit was reached.",
    "There wasn't enough memory.",
    "The database has no snapshot of that epoch",
];

#[test]
fn each_status_is_explained(_rt: HostRuntime) -> Result<(), Fail> {
    for status in 1..10u8 {
        let start = EXPLAINED[status as usize];
        is_so(start, explanation(status).starts_with(start))?;
    }
    Ok(())
}

// The word, the files that can't be had, of which the first in order is told, the status and the text.
const EXPLAINED_CALLS: [(&str, [&str; 2], u8, &str); 7] = [
    ("dump", ["other", "another"], 0, "epoch 0\n"),
    ("run", ["other", "another"], 0, "0.0 ok 1:1 0\ndurable 1\n"),
    ("--help", ["other", "another"], 2, "usage\n"),
    ("run", ["bank3", "bank2"], 5, "device bank2\n"),
    ("run", ["bank14", "bank1"], 5, "device bank1\n"),
    ("run", ["bank0", "snaps"], 5, "device snaps\n"),
    ("run", ["snaps", "save"], 5, "device save\n"),
];

fn check_explained(explained: &[u8], status: u8, text: &str) -> Result<(), Fail> {
    let start = EXPLAINED[status as usize % 10].as_bytes();
    is_so(text, explained.starts_with(start))?;
    is_so(text, explained.is_empty() == (status == 0))
}

// Compares what was answered, printed and explained.
fn is_told(code: ExitCode, texts: &Texts, status: u8, text: &str) -> Result<(), Fail> {
    is_printed(code, texts, status, text)?;
    check_explained(texts.explained.bytes(), status, text)
}

fn check_taken<R: Threads + Wait + Sync + Files<File = File> + AllocGlobal>(
    rt: &R,
    word: &str,
    taken: [&str; 2],
    status: u8,
    text: &str,
) -> Result<(), Fail> {
    let mut texts = Texts::new(rt.alloc());
    let code = program(rt, word, taken, &mut texts)?;
    is_told(code, &texts, status, text)
}

fn program_without_words<R: Threads + Wait + Sync + Files<File = File> + AllocGlobal>(
    rt: &R,
    texts: &mut Texts,
) -> ExitCode {
    let alloc = rt.alloc();
    let mut source = ScriptSource::new(alloc, SureSource::new(Vec::new(alloc)), false);
    run_program(
        rt,
        Err(Ending::NoMemory),
        "foedus_none",
        &mut source,
        &mut texts.told,
        &mut texts.explained,
        &mut texts.noted,
        &OpenGate,
    )
}

// Words that can't be had for want of memory.
fn check_no_words<R: Threads + Wait + Sync + Files<File = File> + AllocGlobal>(
    rt: &R,
) -> Result<(), Fail> {
    let mut texts = Texts::new(rt.alloc());
    let code = program_without_words(rt, &mut texts);
    is_told(code, &texts, 8, "memory\n")
}

// The words after the name, the script, and what is told beside the explanation.
const NOTED: [(&str, &str, &str); 13] = [
    (
        "dump",
        "",
        "foedus: there was no database in the folder foedus_noted, so an empty one was made there\n",
    ),
    ("dump", "", ""),
    ("run", "array 1 200\n0 w 1 2 7\n", ""),
    (
        "run",
        "array 1 4\n0 d 1 2\n",
        "foedus: line 2 is: 0 d 1 2\nfoedus: Kind: d and s are for trees, and the storage is an array\n",
    ),
    (
        "run",
        "array 1 4\r\n",
        "foedus: line 1 is: array 1 4\\r\nfoedus: Number: numbers are 0 to 18446744073709551615, in digits without a \
         leading zero\nfoedus: the line ends with a carriage return (\\r) before its newline: take them away, for \
         instance by tr -d '\\r'\n",
    ),
    (
        "run --tries 0",
        "",
        "foedus: `0` is no number from 1 to 1000000 for --tries\n\n",
    ),
    ("walk", "", "foedus: `walk` is no command\n\n"),
    ("--help", "", ""),
    ("run --slots 4", FOUR_PAGES, ""),
    ("run --slots 4", SIX_PAGES, FULL),
    ("run --slots 4 --brief", SIX_PAGES, BRIEF),
    (
        "run --tries 1 --brief",
        "array 1 200\n0 r 1 0; w 1 0 1\n",
        ONE_OF_ONE,
    ),
    ("run --brief", "array 1 200\n0 t 1 9 1\n1 r 1 9\n", ""),
];

// Three leaves and the page above them take four slots, and a leaf that is read takes none.
const FOUR_PAGES: &str = "array 1 200\n0 w 1 0 1; w 1 32 1; w 1 64 1\n0 r 1 96\n";

const SIX_PAGES: &str =
    "array 1 200\n0 w 1 0 1; w 1 32 1; w 1 64 1\n0 w 1 96 1\n0 w 1 128 1\n0 r 1 128\n";

const FULL: &str = "\
foedus: full: 2 of the transactions found no free slot. Run with more --slots, or put k glean and k drop, in this order, \
into rounds between; and the next run begins with all slots free
";

const BRIEF: &str = "\
foedus: 2 of the 4 transactions didn't commit: they were in conflict, full or wide. Without --brief a line tells of each
";

const ONE_OF_ONE: &str = "\
foedus: 1 of the 1 transactions didn't commit: they were in conflict, full or wide. Without --brief a line tells of each
";

fn check_noted<R: Threads + Wait + Sync + Files<File = File> + AllocGlobal>(
    rt: &R,
    (asked, script, noted): (&str, &str, &str),
) -> Result<(), Fail> {
    let mut texts = Texts::new(rt.alloc());
    let _code = program_in(rt, "foedus_noted", (asked, script), &mut texts)?;
    is_same(asked, texts.noted.bytes(), noted.as_bytes())
}

// What a call met is told beside the explanation of its status.
#[test]
fn what_a_call_met_is_told(rt: HostRuntime) -> Result<(), Fail> {
    let _old = fs::remove_dir_all(&rt, "foedus_noted");
    for row in &NOTED {
        check_noted(&rt, *row)?;
    }
    fs::remove_dir_all(&rt, "foedus_noted")?;
    Ok(())
}

#[test]
fn the_program_tells_and_explains(rt: HostRuntime) -> Result<(), Fail> {
    for (word, taken, status, text) in &EXPLAINED_CALLS {
        check_taken(&rt, word, *taken, *status, text)?;
    }
    check_no_words(&rt)
}
