// Worked databases, whose bytes were written down by hand from the formats.
ghost use Rattle.std.specs.Prelude.{IfOk};
ghost use Rattle.outside.specs.Disk.{IfTold, Only};

use crate::checks::is_so;
use crate::disks::disk;
use crate::worked_bytes::{bytes_of, put_closed, put_place};
use lists::OrMemory;
use log_writer::{Records, Vault};
use outside::{Device, Disk, MemDisk};
use recovery_core::{RecoverFault, Recovered, SnapshotMark, recover};
use serial_model::Key;
use std::alloc::{AllocError, Global};
use std::test::Fail;

mod older_snapshots;
mod settled_databases;

// What is told of a database whose storage 1 has one key of interest, 2.
#[derive(Clone, Copy, PartialEq, Eq)]
enum Told {
    State { epoch: u32, value: Option<u64> },
    Damaged { device: Device, at: u64 },
    Failed { device: Device },
    Other,
}

fn answer_of(answer: &Result<Recovered, OrMemory<RecoverFault>>) -> Told {
    match answer {
        Ok(recovered) => {
            let value = recovered.state.get(Key { storage: 1, key: 2 });
            if recovered.state.len() == usize::from(value.is_some()) {
                let epoch = recovered.epoch;
                return Told::State { epoch, value };
            }
            Told::Other
        }
        Err(OrMemory::Fault(RecoverFault::Damaged { device, at })) => {
            let (device, at) = (*device, *at);
            Told::Damaged { device, at }
        }
        Err(OrMemory::Fault(RecoverFault::Device(device))) => {
            let device = *device;
            Told::Failed { device }
        }
        Err(OrMemory::Memory) => Told::Other,
    }
}

// It is what is told. Such a comparison stands once: in each test it would cost a proof of its own.
fn is_told(what: &str, found: Told, want: Told) -> Result<(), Fail> {
    is_so(what, found == want)
}

// Both places: the first savepoint of all, and one that counts so much.
fn save(alloc: Global, epoch: u64, count: u64, lengths: &[u64]) -> Result<Vec<u8>, AllocError> {
    let mut bytes = Vec::new(alloc);
    put_place(&mut bytes, 1, 0, 1, &[])?;
    put_place(&mut bytes, 2, epoch, count, lengths)?;
    Ok(bytes)
}

// The word of this index of a catalogue with one array of four values.
fn catalogue_word(at: usize, epoch: u64, previous: u64, root: u64) -> u64 {
    match at {
        0 => 0x4341_5400_0000_0001,
        1 => epoch,
        2 => previous,
        16 => 1 + 256,
        17 => 4,
        18 => root,
        _ => 0,
    }
}

// The same of a leaf of that array with a value at index 2.
fn leaf_word(at: usize, number: u64, value: u64) -> u64 {
    match at {
        4 => number,
        5 => value,
        _ => 0,
    }
}

// And of the first catalogue of an array of four values and a tree.
fn word_of_two(at: usize) -> u64 {
    match at {
        0 => 0x4341_5400_0000_0002,
        19 => 3 + 512,
        _ => catalogue_word(at, 0, 0, 0),
    }
}

// A page: a leaf with the epoch, draw and value of its record, or a catalogue with its epoch, the one before and the root.
#[derive(Clone, Copy)]
enum Page {
    Leaf(u64, u64, u64),
    Catalogue(u64, u64, u64),
    /// The first catalogue of an array of four values and a tree.
    FirstOfTwo,
}

fn word_of(page: Page, at: usize) -> u64 {
    match page {
        Page::Leaf(epoch, draw, value) => leaf_word(at, (epoch << 40) | draw, value),
        Page::Catalogue(epoch, previous, root) => catalogue_word(at, epoch, previous, root),
        Page::FirstOfTwo => word_of_two(at),
    }
}

// Puts a page behind some bytes.
fn put_page(bytes: &mut Vec<u8>, page: Page) -> Result<(), AllocError> {
    for at in 0..64 {
        bytes.extend_from_slice(&word_of(page, at).to_be_bytes())?;
    }
    Ok(())
}

// The bytes of pages.
fn pages(alloc: Global, pages: &[Page]) -> Result<Vec<u8>, AllocError> {
    let mut bytes = Vec::new(alloc);
    for page in pages {
        put_page(&mut bytes, *page)?;
    }
    Ok(bytes)
}

const FIRST: Page = Page::Catalogue(0, 0, 0);

// Three snapshots.
const THREE: [Page; 5] = [
    FIRST,
    Page::Leaf(1, 1, 5),
    Page::Catalogue(1, 1, 2),
    Page::Leaf(2, 1, 6),
    Page::Catalogue(2, 3, 4),
];

// Their bytes, with another page at this index, if it is one of theirs.
fn three_with(alloc: Global, index: usize, page: Page) -> Result<Vec<u8>, AllocError> {
    let mut bytes = Vec::new(alloc);
    for at in 0..5 {
        put_page(&mut bytes, if at == index { page } else { THREE[at] })?;
    }
    Ok(bytes)
}

// Log lines that put a value at key 2 of storage 1: the number, one change, its storage, where a bit says that there is
// a value, the key and the value. One of epoch 1, the same with another value, one behind it, and the first with a line
// of epoch 2.
const LINE: &[u64] = &[(1 << 40) | 1, 1, 1 + 256, 2, 7];

const OTHER: &[u64] = &[(1 << 40) | 1, 1, 1 + 256, 2, 8];

const NEXT: &[u64] = &[(1 << 40) | 2, 1, 1 + 256, 2, 8];

const TWO: &[u64] = &[
    (1 << 40) | 1,
    1,
    1 + 256,
    2,
    7,
    (2 << 40) | 3,
    1,
    1 + 256,
    2,
    9,
];

// A log file with these words.
fn bank(alloc: Global, words: &[u64], fails: &[u64]) -> Result<MemDisk, AllocError> {
    let bytes = bytes_of(alloc, words)?;
    disk(alloc, &bytes, fails)
}

// The log files of one side, of which the one of this worker has words.
fn side(
    alloc: Global,
    worker: u8,
    words: &[u64],
    fails: &[u64],
) -> Result<Vec<MemDisk>, AllocError> {
    let mut disks = Vec::new(alloc);
    for number in 0..8u8 {
        let some = if number == worker { words } else { &[] };
        disks.push(bank(alloc, some, fails)?)?;
    }
    Ok(disks)
}

// The log files of both sides, of which 0 and 3 have some words.
fn sides(
    alloc: Global,
    banks: [&[u64]; 2],
    fails: &[u64],
) -> Result<(Vec<MemDisk>, Vec<MemDisk>), AllocError> {
    let even = side(alloc, 0, banks[0], fails)?;
    let odd = side(alloc, 1, banks[1], fails)?;
    Ok((even, odd))
}

// The save device and the snapshots' file.
fn ends(
    alloc: Global,
    save: &[u8],
    snaps: &[u8],
    fails: &[u64],
) -> Result<(MemDisk, MemDisk), AllocError>
    ensures { IfOk result (λ ends. IfTold (⟦<MemDisk as Disk>⟧.tells ends.0)
        (Only ⟦<MemDisk as Disk>⟧.clock ⟦<MemDisk as Disk>⟧.image_at ends.0)) }
{
    let save = disk(alloc, save, fails)?;
    let snaps = disk(alloc, snaps, fails)?;
    Ok((save, snaps))
}

// A database with these bytes, of which the log files 0 and 3 have some. The calls of these numbers fail on
// each device.
fn vault(
    alloc: Global,
    save: &[u8],
    snaps: &[u8],
    banks: [&[u64]; 2],
    fails: &[u64],
) -> Result<Vault<MemDisk>, AllocError>
    ensures { IfOk result (λ vault. IfTold (⟦<MemDisk as Disk>⟧.tells vault.save)
        (Only ⟦<MemDisk as Disk>⟧.clock ⟦<MemDisk as Disk>⟧.image_at vault.save)) }
{
    let (even, odd) = sides(alloc, banks, fails)?;
    let (save, snaps) = ends(alloc, save, snaps, fails)?;
    Ok(Vault {
        save,
        snaps,
        even,
        odd,
        ties: Records::new(alloc),
        cuts: Records::new(alloc),
    })
}

// What is told of it.
fn told_of(alloc: Global, mut vault: Vault<MemDisk>) -> Told {
    if !vault.is_whole() {
        return Told::Other;
    }
    answer_of(&recover(alloc, &mut vault))
}

fn state(epoch: u32, value: u64) -> Told {
    let value = Some(value);
    Told::State { epoch, value }
}

fn damaged(device: Device, at: u64) -> Told {
    Told::Damaged { device, at }
}

// What is told of a database of the first catalogue: saved epoch, lengths of the log files 0 to 3, words of 0 and 3.
fn told_of_logs(
    alloc: Global,
    epoch: u64,
    lengths: &[u64],
    banks: [&[u64]; 2],
) -> Result<Told, AllocError> {
    let save = save(alloc, epoch, 1, lengths)?;
    let first = pages(alloc, &[FIRST])?;
    let vault = vault(alloc, &save, &first, banks, &[])?;
    Ok(told_of(alloc, vault))
}

// And of one of pages with these bytes, without log files: saved epoch, and how many pages count.
fn told_of_pages(alloc: Global, epoch: u64, count: u64, snaps: &[u8]) -> Result<Told, AllocError> {
    let save = save(alloc, epoch, count, &[])?;
    let vault = vault(alloc, &save, snaps, [&[], &[]], &[])?;
    Ok(told_of(alloc, vault))
}

const SEVEN_AT_1: Told = Told::State {
    epoch: 1,
    value: Some(7),
};

const SIX_AT_2: Told = Told::State {
    epoch: 2,
    value: Some(6),
};

const SEVEN_AT_2: Told = Told::State {
    epoch: 2,
    value: Some(7),
};

const EIGHT_AT_2: Told = Told::State {
    epoch: 2,
    value: Some(8),
};

const NINE_AT_2: Told = Told::State {
    epoch: 2,
    value: Some(9),
};

// Of equal numbers the lower log file's wins, of others the greater number. In the last row the log file is shorter than
// what counts.
const LOGS: [(u64, [u64; 4], [&[u64]; 2], Told); 6] = [
    (1, [40, 0, 0, 0], [TWO, &[]], SEVEN_AT_1),
    (1, [80, 0, 0, 0], [TWO, &[]], SEVEN_AT_1),
    (2, [80, 0, 0, 0], [TWO, &[]], NINE_AT_2),
    (2, [40, 0, 0, 40], [LINE, OTHER], SEVEN_AT_2),
    (2, [40, 0, 0, 40], [LINE, NEXT], EIGHT_AT_2),
    (2, [80, 0, 0, 0], [LINE, &[]], SHORT_LOG),
];

const SHORT_LOG: Told = Told::Damaged {
    device: Device::Bank(0),
    at: 40,
};

#[test]
fn what_counts_is_recovered(rt: HostRuntime) -> Result<(), Fail> {
    let alloc = rt.alloc();
    for (epoch, lengths, banks, want) in &LOGS {
        let found = told_of_logs(alloc, *epoch, lengths, *banks)?;
        is_told("what counts", found, *want)?;
    }
    Ok(())
}

#[test]
fn nothing_is_kept_in_a_closed_save(rt: HostRuntime) -> Result<(), Fail> {
    let mut closed = Vec::new(rt.alloc());
    put_closed(&mut closed)?;
    put_closed(&mut closed)?;
    let fresh = vault(rt.alloc(), &closed, &[1, 2, 3], [&[7], &[]], &[])?;
    is_told("fresh", told_of(rt.alloc(), fresh), NOTHING)
}

#[test]
fn a_short_save_is_damaged(rt: HostRuntime) -> Result<(), Fail> {
    let short = vault(rt.alloc(), &[0; 3], &[], [&[], &[]], &[])?;
    is_told(
        "a short save",
        told_of(rt.alloc(), short),
        damaged(Device::Save, 0),
    )
}

const NOTHING: Told = Told::State {
    epoch: 0,
    value: None,
};

fn mark(epoch: u32, page: u32) -> SnapshotMark {
    SnapshotMark { epoch, page }
}

// Recovery names the three snapshots, the storage and the pages, and no entry counts.
fn names_three(recovered: &Recovered) -> bool {
    let marks = [mark(0, 1), mark(1, 3), mark(2, 5)];
    (recovered.catalogues.as_slice() == marks.as_slice())
        & (recovered.decls.len() == 1)
        & (recovered.store.count() == 5)
        & recovered.entries.is_empty()
}

fn recovers_three(alloc: Global, vault: &mut Vault<MemDisk>) -> bool {
    if !vault.is_whole() {
        return false;
    }
    match recover(alloc, vault) {
        Ok(recovered) => names_three(&recovered),
        Err(_) => false,
    }
}

#[test]
fn three_snapshots_are_named(rt: HostRuntime) -> Result<(), Fail> {
    let alloc = rt.alloc();
    let save = save(alloc, 2, 5, &[])?;
    let snaps = pages(alloc, &THREE)?;
    let mut vault = vault(alloc, &save, &snaps, [&[], &[]], &[])?;
    is_so("three snapshots", recovers_three(alloc, &mut vault))
}

// That a page of the snapshots' file is damaged, at this byte.
const FIRST_PAGE: Told = Told::Damaged {
    device: Device::Snaps,
    at: 0,
};

const THIRD_PAGE: Told = Told::Damaged {
    device: Device::Snaps,
    at: 1024,
};

const FOURTH_PAGE: Told = Told::Damaged {
    device: Device::Snaps,
    at: 1536,
};

const FIFTH_PAGE: Told = Told::Damaged {
    device: Device::Snaps,
    at: 2048,
};

// Saved epoch, index of the page that is another one, what it is, and what is told.
const OTHERS: [(u64, usize, Page, Told); 6] = [
    (2, 3, Page::Leaf(2, 1, 8), EIGHT_AT_2),
    (2, 3, Page::Leaf(3, 1, 8), FOURTH_PAGE),
    (1, 3, Page::Leaf(2, 1, 8), FIFTH_PAGE),
    (2, 4, Page::Catalogue(1, 3, 4), THIRD_PAGE),
    (2, 0, Page::Catalogue(0, 0, 1), FIRST_PAGE),
    (2, 1, FIRST, SIX_AT_2),
];

#[test]
fn snapshots_are_read_from_the_newest_back(rt: HostRuntime) -> Result<(), Fail> {
    let alloc = rt.alloc();
    for (epoch, index, page, want) in &OTHERS {
        let snaps = three_with(alloc, *index, *page)?;
        is_told(
            "another page",
            told_of_pages(alloc, *epoch, 5, &snaps)?,
            *want,
        )?;
    }
    let snaps = pages(alloc, &THREE)?;
    let found = told_of_pages(alloc, 2, 6, &snaps)?;
    is_told("too few pages", found, damaged(Device::Snaps, 2560))
}

// What is told of the database of one commit where this byte of a place of the save device is another one.
fn told_of_place(byte: usize, newest: bool) -> Told {
    let value = None;
    let (same, older) = (state(1, 7), Told::State { epoch: 0, value });
    let is_length = 48 <= byte && byte < 176 && byte % 8 >= 3;
    let base = if newest { 512 } else { 0 };
    match byte {
        // The place is closed.
        0 if newest => older,
        // The sequence is greater by far; then place 0 is the newest.
        17..=22 if !newest => older,
        0 | 17..=22 => same,
        // The epoch.
        30 if newest => state(65_281, 7),
        31 if newest => state(254, 7),
        30 | 31 => same,
        // A length, and the log file has fewer bytes.
        48..=55 if newest && is_length => damaged(Device::Bank(0), 40),
        56..=175 if newest && is_length => damaged(
            Device::Bank((byte / 8).saturating_sub(6).min(15) as u8),
            0,
        ),
        48..=175 if is_length => same,
        _ => damaged(Device::Save, base),
    }
}

// What is told of the database of one commit, with these bytes of its save device and its snapshots.
fn told_of_one(alloc: Global, save: &[u8], snaps: &[u8]) -> Result<Told, AllocError> {
    let vault = vault(alloc, save, snaps, [LINE, &[]], &[])?;
    Ok(told_of(alloc, vault))
}

// Turns all bits of a byte.
fn turn(bytes: &mut [u8], at: usize) {
    if at < bytes.len() {
        bytes[at] ^= 0xFF;
    }
}

fn check_save_byte(alloc: Global, at: usize) -> Result<(), Fail> {
    let first = pages(alloc, &[FIRST])?;
    let mut save = save(alloc, 1, 1, &[40])?;
    turn(&mut save, at);
    let found = told_of_one(alloc, &save, &first)?;
    is_told(
        "a byte of the save",
        found,
        told_of_place(at % 512, at >= 512),
    )
}

#[test]
fn each_byte_of_the_save_is_another_one(rt: HostRuntime) -> Result<(), Fail> {
    for at in 0..1024 {
        check_save_byte(rt.alloc(), at)?;
    }
    Ok(())
}

// What is told of it where this byte of the snapshots' file is another one.
fn told_of_catalogue(at: usize) -> Told {
    match at {
        // The storage has another id, so that the log line has none.
        135 => damaged(Device::Bank(0), 0),
        // The array has more values.
        142 | 143 => state(1, 7),
        _ => damaged(Device::Snaps, 0),
    }
}

fn check_page_byte(alloc: Global, at: usize) -> Result<(), Fail> {
    let save = save(alloc, 1, 1, &[40])?;
    let mut snaps = pages(alloc, &[FIRST])?;
    turn(&mut snaps, at);
    let found = told_of_one(alloc, &save, &snaps)?;
    is_told("a byte of the snapshots", found, told_of_catalogue(at))
}

#[test]
fn each_byte_of_the_snapshots_is_another_one(rt: HostRuntime) -> Result<(), Fail> {
    for at in 0..512 {
        check_page_byte(rt.alloc(), at)?;
    }
    Ok(())
}

// What is told of it where this byte of the log line is another one, by these bits of its word.
fn told_of_line(at: usize, mask: u64) -> Told {
    match at {
        // A later epoch doesn't count.
        1 | 2 => Told::State {
            epoch: 1,
            value: None,
        },
        3..=7 => state(1, 7),
        32..=39 => state(1, 7 ^ mask),
        _ => damaged(Device::Bank(0), 0),
    }
}

// The words of the log line, with these bits of one turned.
fn turned_line(alloc: Global, at: usize, mask: u64) -> Result<Vec<u64>, AllocError> {
    let mut words = LINE.to_vec(alloc)?;
    if at < words.len() {
        words[at] ^= mask;
    }
    Ok(words)
}

fn check_line_byte(alloc: Global, at: usize) -> Result<(), Fail> {
    let mask = 0xFF << (56 - 8 * (at as u64 % 8));
    let words = turned_line(alloc, at / 8, mask)?;
    let found = told_of_logs(alloc, 1, &[40], [words.as_slice(), &[]])?;
    is_told("a byte of a log line", found, told_of_line(at, mask))
}

#[test]
fn each_byte_of_a_log_line_is_another_one(rt: HostRuntime) -> Result<(), Fail> {
    for at in 0..40usize {
        check_line_byte(rt.alloc(), at)?;
    }
    Ok(())
}

#[test]
fn a_failed_call_is_told_of_its_device(rt: HostRuntime) -> Result<(), Fail> {
    let alloc = rt.alloc();
    let save = save(alloc, 1, 1, &[40])?;
    let first = pages(alloc, &[FIRST])?;
    let failing = vault(alloc, &save, &first, [LINE, &[]], &[0])?;
    let device = Device::Save;
    let found = told_of(alloc, failing);
    is_told("a call fails", found, Told::Failed { device })
}
