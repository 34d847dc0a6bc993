// What devices hold, vaults over them with a trouble of one, and calls over these.
ghost use Rattle.std.specs.Prelude.{IfOk};
ghost use Rattle.outside.specs.Disk.{IfTold, Only};

use super::*;
use recovery_core::{Recovered, recover};
use tx_script::write_state;

// The devices, by their numbers: the save, the snapshots, and the log files behind them.
pub(super) const NAMES: [&str; 18] = [
    "save", "snaps", "bank0", "bank1", "bank2", "bank3", "bank4", "bank5", "bank6", "bank7",
    "bank8", "bank9", "bank10", "bank11", "bank12", "bank13", "bank14", "bank15",
];

pub(super) const SAVE: usize = 0;

pub(super) const SNAPS: usize = 1;

pub(super) const BANK_0: usize = 2;

// What the devices hold, each file under its device's number.
pub(super) type Files = Vec<Vec<u8>>;

// What goes wrong: this device fails at its call of this number, and at each that is behind so many.
#[derive(Clone, Copy)]
pub(super) struct Trouble {
    pub(super) device: usize,
    pub(super) failing: u64,
    pub(super) passes: u64,
}

pub(super) const NO_TROUBLE: Trouble = Trouble {
    device: 18,
    failing: u64::MAX,
    passes: u64::MAX,
};

// A device fails at its call of this number.
pub(super) fn fails_at(device: usize, failing: u64) -> Trouble {
    Trouble {
        device,
        failing,
        passes: u64::MAX,
    }
}

// A device stops behind so many calls.
pub(super) fn stops_behind(device: usize, passes: u64) -> Trouble {
    Trouble {
        device,
        failing: u64::MAX,
        passes,
    }
}

// The name of a device.
pub(super) fn name_of(device: usize) -> &'static str {
    NAMES[device % 18]
}

// The number of a worker's log file of even number, or of odd number.
pub(super) fn bank_of(worker: usize, is_odd: usize) -> usize {
    worker
        .wrapping_mul(2)
        .wrapping_add(BANK_0)
        .wrapping_add(is_odd)
}

// The number of the device of this name.
pub(super) fn device_of(name: &str) -> usize {
    for (number, device) in NAMES.iter().enumerate() {
        if *device == name {
            return number;
        }
    }
    NAMES.len()
}

// The call of the source that fails, and that of the sink.
pub(super) const SURE: (u64, u64) = (u64::MAX, u64::MAX);

// What a new database holds: the save has 1,024 zero bytes, the other devices have none.
pub(super) fn fresh_files(alloc: Global) -> Result<Files, AllocError> {
    let mut files = Vec::new(alloc);
    files.push(filled(alloc, 0, 1024)?)?;
    for _ in 1..NAMES.len() {
        files.push(Vec::new(alloc))?;
    }
    Ok(files)
}

// What this device holds.
pub(super) fn file_of(files: &[Vec<u8>], device: usize) -> &[u8] {
    match files.get(device) {
        Some(file) => file,
        None => &[],
    }
}

// The number of the call of a device that fails, and how many it passes.
fn limits_of(trouble: Trouble, device: usize) -> (u64, u64) {
    if device == trouble.device {
        (trouble.failing, trouble.passes)
    } else {
        (u64::MAX, u64::MAX)
    }
}

// A list of one number.
fn one_number(alloc: Global, number: u64) -> Result<Vec<u64>, AllocError> {
    let mut numbers = Vec::new(alloc);
    numbers.push(number)?;
    Ok(numbers)
}

// The disk of this device, on which nothing is pending.
#[tactic(auto, using(outside::specs::Moments::only_told))]
pub(super) fn troubled_disk(
    alloc: Global,
    files: &[Vec<u8>],
    device: usize,
    trouble: Trouble,
) -> Result<FuseDisk<MemDisk>, AllocError>
    ensures { IfOk result (λ disk. IfTold (⟦<FuseDisk<MemDisk> as Disk>⟧.tells disk)
        (Only ⟦<FuseDisk<MemDisk> as Disk>⟧.clock ⟦<FuseDisk<MemDisk> as Disk>⟧.image_at disk)) }
{
    let limits = limits_of(trouble, device);
    let bytes = file_of(files, device).to_vec(alloc)?;
    let disk = MemDisk::new(alloc, bytes, one_number(alloc, limits.0)?)?;
    Ok(FuseDisk::new(disk, limits.1))
}

// The log files of even number, or of odd number.
fn troubled_banks(
    alloc: Global,
    files: &[Vec<u8>],
    is_odd: usize,
    trouble: Trouble,
) -> Result<Vec<FuseDisk<MemDisk>>, AllocError> {
    let mut banks = Vec::new(alloc);
    for worker in 0..8usize {
        let device = bank_of(worker, is_odd);
        banks.push(troubled_disk(alloc, files, device, trouble)?)?;
    }
    Ok(banks)
}

// The disks of the save and of the snapshots.
fn troubled_ends(
    alloc: Global,
    files: &[Vec<u8>],
    trouble: Trouble,
) -> Result<(FuseDisk<MemDisk>, FuseDisk<MemDisk>), AllocError>
    ensures { IfOk result (λ ends. IfTold (⟦<FuseDisk<MemDisk> as Disk>⟧.tells ends.0)
        (Only ⟦<FuseDisk<MemDisk> as Disk>⟧.clock ⟦<FuseDisk<MemDisk> as Disk>⟧.image_at ends.0)) }
{
    let save = troubled_disk(alloc, files, SAVE, trouble)?;
    let snaps = troubled_disk(alloc, files, SNAPS, trouble)?;
    Ok((save, snaps))
}

// The log files of even number, and of odd number.
fn troubled_sides(
    alloc: Global,
    files: &[Vec<u8>],
    trouble: Trouble,
) -> Result<(Vec<FuseDisk<MemDisk>>, Vec<FuseDisk<MemDisk>>), AllocError> {
    let even = troubled_banks(alloc, files, 0, trouble)?;
    let odd = troubled_banks(alloc, files, 1, trouble)?;
    Ok((even, odd))
}

// A vault whose devices hold this. It is made by halves: what is owned at a `?` costs a proof.
pub(super) fn troubled_vault(
    alloc: Global,
    files: &[Vec<u8>],
    trouble: Trouble,
) -> Result<Vault<FuseDisk<MemDisk>>, AllocError>
    ensures { IfOk result (λ vault. IfTold (⟦<FuseDisk<MemDisk> as Disk>⟧.tells vault.save)
        (Only ⟦<FuseDisk<MemDisk> as Disk>⟧.clock ⟦<FuseDisk<MemDisk> as Disk>⟧.image_at vault.save)) }
{
    let (even, odd) = troubled_sides(alloc, files, trouble)?;
    let (save, snaps) = troubled_ends(alloc, files, trouble)?;
    Ok(Vault {
        save,
        snaps,
        even,
        odd,
        ties: Records::new(alloc),
        cuts: Records::new(alloc),
    })
}

// A device of a vault.
fn device_in<D: Disk>(vault: &Vault<D>, device: usize) -> Option<&D> {
    let bank = device.wrapping_sub(BANK_0);
    let disk = if device == SAVE {
        &vault.save
    } else if device == SNAPS {
        &vault.snaps
    } else if bank % 2 == 0 {
        vault.even.get(bank / 2)?
    } else {
        vault.odd.get(bank / 2)?
    };
    Some(disk)
}

// The calls that a device of a vault made.
pub(super) fn calls_of(vault: &Vault<FuseDisk<MemDisk>>, device: usize) -> &[Made] {
    match device_in(vault, device) {
        Some(fuse) => fuse.disk().calls(),
        None => &[],
    }
}

// What the devices of a vault hold, as reads give it.
pub(super) fn files_of(
    alloc: Global,
    vault: &Vault<FuseDisk<MemDisk>>,
) -> Result<Files, AllocError> {
    let mut files = Vec::new(alloc);
    for device in 0..NAMES.len() {
        let mut file = Vec::new(alloc);
        if let Some(fuse) = device_in(vault, device) {
            file.extend_from_slice(fuse.disk().bytes())?;
        }
        files.push(file)?;
    }
    Ok(files)
}

// What the devices of a vault hold over which nothing was run.
fn files_in(alloc: Global, vault: &Vault<MemDisk>) -> Result<Files, AllocError> {
    let mut files = Vec::new(alloc);
    for device in 0..NAMES.len() {
        let mut file = Vec::new(alloc);
        if let Some(disk) = device_in(vault, device) {
            file.extend_from_slice(disk.bytes())?;
        }
        files.push(file)?;
    }
    Ok(files)
}

// What devices hold at first.
pub(super) fn first_files(alloc: Global, first: First) -> Result<Files, AllocError> {
    let vault = first_vault(alloc, first)?;
    files_in(alloc, &vault)
}

// The status of a call with these words over a vault, and what the sink then holds. Bars stand for newlines in the
// script. A call of the source fails, and one of the sink.
pub(super) fn answer_failing<R: Threads + Wait + Sync + AllocGlobal>(
    rt: &R,
    vault: &mut Vault<FuseDisk<MemDisk>>,
    asked: (&str, &str),
    failing: (u64, u64),
) -> Result<(u8, Vec<u8>), Fail>
    requires { IfTold (⟦<FuseDisk<MemDisk> as Disk>⟧.tells vault.old.save)
        (Only ⟦<FuseDisk<MemDisk> as Disk>⟧.clock ⟦<FuseDisk<MemDisk> as Disk>⟧.image_at vault.old.save) }
{
    let script = lines(rt.alloc(), asked.1)?;
    let turns = InTurn::of(rt.alloc(), &script)?;
    let mut source = source_of(rt.alloc(), &script, failing.0)?;
    let words = words(rt.alloc(), asked.0)?;
    told(rt, &words, &mut source, &[failing.1], vault, &turns)
}

// The same over what devices hold, where nothing fails.
pub(super) fn answer_over<R: Threads + Wait + Sync + AllocGlobal>(
    rt: &R,
    files: &[Vec<u8>],
    asked: (&str, &str),
) -> Result<(u8, Vec<u8>), Fail> {
    let mut vault = troubled_vault(rt.alloc(), files, NO_TROUBLE)?;
    answer_failing(rt, &mut vault, asked, SURE)
}

// What is recovered of what devices hold, as a dump tells it. It is had without the words of a call, which cost more than
// all the rest where many stops are tried.
pub(super) fn kept_in(alloc: Global, files: &[Vec<u8>]) -> Result<Vec<u8>, Fail> {
    let mut vault = troubled_vault(alloc, files, NO_TROUBLE)?;
    if !vault.is_whole() {
        return Err(Fail::from("a vault without a log file"));
    }
    match recover(alloc, &mut vault) {
        Ok(kept) => text_of(alloc, &kept),
        Err(_) => Err(Fail::from("what devices hold isn't recovered")),
    }
}

fn text_of(alloc: Global, kept: &Recovered) -> Result<Vec<u8>, Fail> {
    let mut sink = MemSink::new(alloc, Vec::new(alloc));
    let written = write_state(&mut sink, kept.epoch, &kept.state, kept.decls.as_slice());
    is_so("a state that is written", written.is_ok())?;
    Ok(sink.bytes().to_vec(alloc)?)
}

// Compares what is recovered.
pub(super) fn check_kept(alloc: Global, files: &[Vec<u8>], wanted: &str) -> Result<(), Fail> {
    let kept = kept_in(alloc, files)?;
    is_text(alloc, (0, &kept), (0, wanted))
}

// Makes such a call, and compares its status and its text, in which bars stand for newlines.
pub(super) fn check_over<R: Threads + Wait + Sync + AllocGlobal>(
    rt: &R,
    files: &[Vec<u8>],
    asked: (&str, &str),
    wanted: (u8, &str),
) -> Result<(), Fail> {
    let (status, text) = answer_over(rt, files, asked)?;
    is_text(rt.alloc(), (status, &text), wanted)
}

// A status, a text, and what devices hold then.
pub(super) type Left = (u8, Vec<u8>, Files);

// The status and the text of such a call over a vault, and what its devices hold then.
fn left_in<R: Threads + Wait + Sync + AllocGlobal>(
    rt: &R,
    vault: &mut Vault<FuseDisk<MemDisk>>,
    asked: (&str, &str),
    failing: (u64, u64),
) -> Result<Left, Fail>
    requires { IfTold (⟦<FuseDisk<MemDisk> as Disk>⟧.tells vault.old.save)
        (Only ⟦<FuseDisk<MemDisk> as Disk>⟧.clock ⟦<FuseDisk<MemDisk> as Disk>⟧.image_at vault.old.save) }
{
    let (status, text) = answer_failing(rt, vault, asked, failing)?;
    let files = files_of(rt.alloc(), vault)?;
    Ok((status, text, files))
}

// The same over what devices hold, one of which is in trouble. The vault is lent: what is owned at a `?` costs a proof.
pub(super) fn left_over<R: Threads + Wait + Sync + AllocGlobal>(
    rt: &R,
    files: &[Vec<u8>],
    trouble: Trouble,
    asked: (&str, &str),
    failing: (u64, u64),
) -> Result<Left, Fail> {
    let mut vault = troubled_vault(rt.alloc(), files, trouble)?;
    left_in(rt, &mut vault, asked, failing)
}

// What devices hold behind a run of this script over what they held.
pub(super) fn files_then<R: Threads + Wait + Sync + AllocGlobal>(
    rt: &R,
    files: &[Vec<u8>],
    script: &str,
) -> Result<Files, Fail> {
    let (status, _text, left) = left_over(rt, files, NO_TROUBLE, ("run", script), SURE)?;
    is_so(script, status == 0)?;
    Ok(left)
}

// The same over a new database, or of no script.
pub(super) fn files_behind<R: Threads + Wait + Sync + AllocGlobal>(
    rt: &R,
    script: Option<&str>,
) -> Result<Files, Fail> {
    let fresh = fresh_files(rt.alloc())?;
    match script {
        Some(script) => files_then(rt, &fresh, script),
        None => Ok(fresh),
    }
}

// Compares a status and a text, in which bars stand for newlines.
pub(super) fn is_text(alloc: Global, came: (u8, &[u8]), wanted: (u8, &str)) -> Result<(), Fail> {
    let text = lines(alloc, wanted.1)?;
    is_answer(wanted.1, came, (wanted.0, &text))
}
