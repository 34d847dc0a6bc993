// One device was changed behind a run: what a dump and a run tell of it.
use super::*;

// A device is cut to a length, or has these bytes from a byte on.
#[derive(Clone, Copy)]
enum Change {
    Cut(usize),
    Bytes(usize, &'static [u8]),
}

const LOGGED: &str = "array 1 4|0 w 1 2 7; r 1 2|0 r 1 0|";

const GLEANED: &str = "array 1 4|0 w 1 2 7|join|k glean|join|";

// The script of the run, if there is one, the device, the change, and the answer.
const DAMAGED: [(Option<&str>, usize, Change, &str); 7] = [
    // Place 0 is open, and its first word is none of a savepoint.
    (None, SAVE, Change::Bytes(0, &[0xA5]), "damaged save 0|"),
    // Place 1 is open with an odd sequence.
    (
        Some(LOGGED),
        SAVE,
        Change::Bytes(535, &[3]),
        "damaged save 512|",
    ),
    (Some(LOGGED), BANK_0, Change::Cut(39), "damaged bank0 39|"),
    (
        Some(LOGGED),
        BANK_0,
        Change::Bytes(8, &[0; 8]),
        "damaged bank0 0|",
    ),
    (Some(LOGGED), SNAPS, Change::Cut(511), "damaged snaps 511|"),
    (
        Some(LOGGED),
        SNAPS,
        Change::Bytes(0, &[0]),
        "damaged snaps 0|",
    ),
    (
        Some(GLEANED),
        SNAPS,
        Change::Bytes(1023, &[1]),
        "damaged snaps 512|",
    ),
];

// Changes the bytes of a device, in place.
fn make_change(file: &mut Vec<u8>, how: Change) {
    match how {
        Change::Cut(length) => file.truncate(length),
        Change::Bytes(at, new) => {
            for index in 0..new.len() {
                let place = at.saturating_add(index);
                if place < file.len() {
                    file[place] = new[index];
                }
            }
        }
    }
}

fn check_damage<R: Threads + Wait + Sync + AllocGlobal>(
    rt: &R,
    (script, device, how, told): (Option<&str>, usize, Change, &str),
) -> Result<(), Fail> {
    let mut files = files_behind(rt, script)?;
    if let Some(file) = files.get_mut(device) {
        make_change(file, how);
    }
    check_over(rt, &files, ("dump", ""), (6, told))?;
    check_over(rt, &files, ("run", "array 1 4|0 r 1 2|"), (6, told))
}

#[test]
fn damage_is_told_at_its_byte(rt: HostRuntime) -> Result<(), Fail> {
    for row in &DAMAGED {
        check_damage(&rt, *row)?;
    }
    Ok(())
}
