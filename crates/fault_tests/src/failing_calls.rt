// Each call of a stream or a device fails once: what is told, and what a dump tells then.
ghost use Rattle.outside.specs.Disk.{IfTold, Only};

use super::*;
use outside::Call;

// The streams, behind the devices.
const SOURCE: usize = 18;

const SINK: usize = 19;

// A status, a text, and what a dump tells then.
type Told = (u8, &'static str, &'static str);

// An object of which one call after another fails, and a script in which a star stands for sixteen operations. What is
// told comes in this order as it is a later call that fails, each at least once; the last is of the first call that the
// run doesn't make. Where the status is 4 the sink holds a prefix of the text.
#[derive(Clone, Copy)]
struct Object {
    number: usize,
    script: &'static str,
    told: &'static [Told],
}

// What a dump tells once the only write is saved.
const SAVED: &str = "epoch 1|1 2 7|";

// A run with a snapshot.
const SNAPSHOT: &str = "array 1 4|0 w 1 2 7|join|k glean|join|";

const WITH_A_SNAPSHOT: &str = "0.0 ok 1:1|durable 1|k.0 snap 1 new 2|durable 2|";

// The same with each kind of keeper line.
const KEEPER: &str = "array 1 4|0 w 1 2 7|join|k save|k glean|k epoch|join|";

const ALL_IS_KEPT: Told = (
    0,
    "0.0 ok 1:1|durable 1|k.0 save 1|k.1 snap 1 new 2|k.2 epoch 3|durable 3|",
    "epoch 3|1 2 7|",
);

// A log line of sixteen changes has 400 bytes, and a journal has room for 4,096: ten of them leave fewer than 400 free.
const FULL: &str = "array 1 16|0 *|0 *|0 *|0 *|0 *|0 *|0 *|0 *|0 *|0 *|0 *|0 *|";

const SIXTEEN: &str = "\
w 1 0 1; w 1 1 1; w 1 2 1; w 1 3 1; w 1 4 1; w 1 5 1; w 1 6 1; w 1 7 1; \
w 1 8 1; w 1 9 1; w 1 10 1; w 1 11 1; w 1 12 1; w 1 13 1; w 1 14 1; w 1 15 1";

const OBJECTS: [Object; 9] = [
    Object {
        number: SOURCE,
        script: SNAPSHOT,
        told: &[
            (3, "read|", "epoch 0|"),
            (0, WITH_A_SNAPSHOT, "epoch 2|1 2 7|"),
        ],
    },
    Object {
        number: SINK,
        script: SNAPSHOT,
        told: &[
            (4, "0.0 ok 1:1|durable 1|", SAVED),
            (4, WITH_A_SNAPSHOT, "epoch 2|1 2 7|"),
            (0, WITH_A_SNAPSHOT, "epoch 2|1 2 7|"),
        ],
    },
    // Of each store the last call is the sync of its valid byte, which is taken back where that fails.
    Object {
        number: SAVE,
        script: KEEPER,
        told: &[
            (5, "device save|", "epoch 0|"),
            (5, "0.0 ok 1:1|device save|", "epoch 0|"),
            (
                5,
                "0.0 ok 1:1|durable 1|k.0 device|k.1 unrun|k.2 unrun|device save|",
                SAVED,
            ),
            (
                5,
                "0.0 ok 1:1|durable 1|k.0 save 1|k.1 snap 1 new 2|k.2 epoch 3|device save|",
                SAVED,
            ),
            ALL_IS_KEPT,
        ],
    },
    Object {
        number: SNAPS,
        script: KEEPER,
        told: &[
            (5, "device snaps|", "epoch 0|"),
            (
                5,
                "0.0 ok 1:1|durable 1|k.0 save 1|k.1 device|k.2 unrun|device snaps|",
                SAVED,
            ),
            ALL_IS_KEPT,
        ],
    },
    // It grows in the first round, and is closed and gleaned in the second one.
    Object {
        number: BANK_0,
        script: KEEPER,
        told: &[
            (5, "device bank0|", "epoch 0|"),
            (5, "0.0 ok 1:1|device bank0|", "epoch 0|"),
            (
                5,
                "0.0 ok 1:1|durable 1|k.0 save 1|k.1 device|k.2 unrun|device bank0|",
                SAVED,
            ),
            (
                5,
                "0.0 ok 1:1|durable 1|k.0 save 1|k.1 snap 1 new 2|k.2 epoch 3|durable 3|device bank0|",
                "epoch 3|1 2 7|",
            ),
            ALL_IS_KEPT,
        ],
    },
    // It is emptied at the first join.
    Object {
        number: BANK_0 + 1,
        script: KEEPER,
        told: &[
            (5, "device bank1|", "epoch 0|"),
            (5, "0.0 ok 1:1|durable 1|device bank1|", SAVED),
            ALL_IS_KEPT,
        ],
    },
    // Those of a worker without a line.
    Object {
        number: BANK_0 + 14,
        script: KEEPER,
        told: &[
            (5, "device bank14|", "epoch 0|"),
            (
                5,
                "0.0 ok 1:1|durable 1|k.0 save 1|k.1 device|k.2 unrun|device bank14|",
                SAVED,
            ),
            (
                5,
                "0.0 ok 1:1|durable 1|k.0 save 1|k.1 snap 1 new 2|k.2 epoch 3|durable 3|device bank14|",
                "epoch 3|1 2 7|",
            ),
            ALL_IS_KEPT,
        ],
    },
    Object {
        number: BANK_0 + 15,
        script: KEEPER,
        told: &[
            (5, "device bank15|", "epoch 0|"),
            (5, "0.0 ok 1:1|durable 1|device bank15|", SAVED),
            ALL_IS_KEPT,
        ],
    },
    // A journal that is full before a line, and what waits behind the last one.
    Object {
        number: BANK_0,
        script: FULL,
        told: &[
            (5, "device bank0|", "epoch 0|"),
            (
                5,
                "0.0 ok 1:1|0.1 ok 1:2|0.2 ok 1:3|0.3 ok 1:4|0.4 ok 1:5|0.5 ok 1:6|0.6 ok 1:7|\
0.7 ok 1:8|0.8 ok 1:9|0.9 ok 1:10|0.10 unrun|0.11 unrun|device bank0|",
                "epoch 0|",
            ),
            (
                5,
                "0.0 ok 1:1|0.1 ok 1:2|0.2 ok 1:3|0.3 ok 1:4|0.4 ok 1:5|0.5 ok 1:6|0.6 ok 1:7|\
0.7 ok 1:8|0.8 ok 1:9|0.9 ok 1:10|0.10 ok 1:11|0.11 ok 1:12|device bank0|",
                "epoch 0|",
            ),
            (
                0,
                "0.0 ok 1:1|0.1 ok 1:2|0.2 ok 1:3|0.3 ok 1:4|0.4 ok 1:5|0.5 ok 1:6|0.6 ok 1:7|\
0.7 ok 1:8|0.8 ok 1:9|0.9 ok 1:10|0.10 ok 1:11|0.11 ok 1:12|durable 1|",
                "epoch 1|1 0 1|1 1 1|1 2 1|1 3 1|1 4 1|1 5 1|1 6 1|1 7 1|1 8 1|1 9 1|1 10 1|1 11 1|\
1 12 1|1 13 1|1 14 1|1 15 1|",
            ),
        ],
    },
];

// More calls than any object has.
const MOST_CALLS: u64 = 100;

// A script with its stars written out.
fn written_out(alloc: Global, script: &str) -> Result<String, AllocError> {
    let mut whole = String::new(alloc);
    for (index, part) in script.split('*').enumerate() {
        if index > 0 {
            whole.push_str(SIXTEEN)?;
        }
        whole.push_str(part)?;
    }
    Ok(whole)
}

// The call of the source that fails, and that of the sink, where this call of an object fails.
fn streams_of(object: usize, failing: u64) -> (u64, u64) {
    if object == SOURCE {
        return (failing, u64::MAX);
    }
    if object == SINK {
        return (u64::MAX, failing);
    }
    SURE
}

// What is told where this call of an object fails: the status and the text, and a dump behind it.
fn told_at<R: Threads + Wait + Sync + AllocGlobal>(
    rt: &R,
    object: usize,
    script: &str,
    failing: u64,
) -> Result<(u8, Vec<u8>, Vec<u8>), Fail> {
    let fresh = fresh_files(rt.alloc())?;
    let trouble = fails_at(object, failing);
    let streams = streams_of(object, failing);
    let (status, text, files) = left_over(rt, &fresh, trouble, ("run", script), streams)?;
    let (_status, dump) = answer_over(rt, &files, ("dump", ""))?;
    Ok((status, text, dump))
}

// Whether this was told.
fn is_told(
    alloc: Global,
    (status, text, dump): (u8, &[u8], &[u8]),
    wanted: Told,
) -> Result<bool, AllocError> {
    let whole = lines(alloc, wanted.1)?;
    let kept = lines(alloc, wanted.2)?;
    let is_text = if status == 4 {
        whole.starts_with(text)
    } else {
        whole.as_slice() == text
    };
    Ok(status == wanted.0 && is_text && kept.as_slice() == dump)
}

// How many of what is to be told were met, with this, which is the last of them again or the next one.
fn met_with(
    alloc: Global,
    told: &[Told],
    met: usize,
    came: (u8, &[u8], &[u8]),
) -> Result<usize, Fail> {
    let last = met.saturating_sub(1);
    for (place, wanted) in told.iter().enumerate().skip(last) {
        if place <= met && is_told(alloc, came, *wanted)? {
            return Ok(place.saturating_add(1));
        }
    }
    Err(Fail::from("neither told before nor next"))
}

// The status where this call of an object fails, and how many of what is to be told were met then.
fn met_at<R: Threads + Wait + Sync + AllocGlobal>(
    rt: &R,
    object: &Object,
    script: &str,
    failing: u64,
    met: usize,
) -> Result<(u8, usize), Fail> {
    let (status, text, dump) = told_at(rt, object.number, script, failing)?;
    let met = met_with(rt.alloc(), object.told, met, (status, &text, &dump))?;
    Ok((status, met))
}

fn check_object<R: Threads + Wait + Sync + AllocGlobal>(
    rt: &R,
    object: &Object,
) -> Result<(), Fail> {
    let script = written_out(rt.alloc(), object.script)?;
    let mut met = 0;
    for call in 0..MOST_CALLS {
        let (status, then) = met_at(rt, object, script.as_str(), call, met)?;
        if status == 0 {
            return is_so("all of it was told", then == object.told.len());
        }
        met = then;
    }
    Err(Fail::from("more calls than an object has"))
}

// Whatever call of whatever object fails, its cause is told, and just what was done by then is kept.
#[test]
fn each_call_fails_once(rt: HostRuntime) -> Result<(), Fail> {
    for object in &OBJECTS {
        check_object(&rt, object)?;
    }
    Ok(())
}

// The number of a call: of the writes, or of the syncs, the one that is this from 1 on.
pub(super) fn number_of(calls: &[Made], is_write: bool, nth: usize) -> u64 {
    let mut count: usize = 0;
    for (number, made) in calls.iter().enumerate() {
        let is_one = match &made.call {
            Call::Write { .. } => is_write,
            Call::Sync => !is_write,
            _ => false,
        };
        if is_one {
            count = count.wrapping_add(1);
            if count == nth {
                return number as u64;
            }
        }
    }
    u64::MAX
}

// The number of such a call of the save that a run over a new database makes.
pub(super) fn number_in_run<R: Threads + Wait + Sync + AllocGlobal>(
    rt: &R,
    script: &str,
    is_write: bool,
    nth: usize,
) -> Result<u64, Fail> {
    let fresh = fresh_files(rt.alloc())?;
    let mut vault = troubled_vault(rt.alloc(), &fresh, NO_TROUBLE)?;
    number_then(rt, &mut vault, script, is_write, nth)
}

// The same of a run over a vault.
fn number_then<R: Threads + Wait + Sync + AllocGlobal>(
    rt: &R,
    vault: &mut Vault<FuseDisk<MemDisk>>,
    script: &str,
    is_write: bool,
    nth: usize,
) -> Result<u64, Fail>
    requires { IfTold (⟦<FuseDisk<MemDisk> as Disk>⟧.tells vault.old.save)
        (Only ⟦<FuseDisk<MemDisk> as Disk>⟧.clock ⟦<FuseDisk<MemDisk> as Disk>⟧.image_at vault.old.save) }
{
    let (_status, _text) = answer_failing(rt, vault, ("run", script), SURE)?;
    Ok(number_of(vault.save.disk().calls(), is_write, nth))
}

const STORED: &str = "array 1 4|0 w 1 2 7; r 1 2|0 r 1 0|";

// The third write of the save is the body of the second savepoint, and the sixth sync the one behind its valid byte, which
// is taken back: nothing was told durable, and nothing is found.
const STORES: [(bool, usize, &str); 2] = [(true, 3, "epoch 0|"), (false, 6, "epoch 0|")];

fn check_store<R: Threads + Wait + Sync + AllocGlobal>(
    rt: &R,
    is_write: bool,
    nth: usize,
    kept: &str,
) -> Result<(), Fail> {
    let failing = number_in_run(rt, STORED, is_write, nth)?;
    let (status, text, dump) = told_at(rt, SAVE, STORED, failing)?;
    is_text(
        rt.alloc(),
        (status, &text),
        (5, "0.0 ok 1:1 7|0.1 ok 1:2 0|device save|"),
    )?;
    is_text(rt.alloc(), (0, &dump), (0, kept))
}

#[test]
fn a_store_that_fails_tells_nothing_durable(rt: HostRuntime) -> Result<(), Fail> {
    for (is_write, nth, kept) in &STORES {
        check_store(&rt, *is_write, *nth, kept)?;
    }
    Ok(())
}
