// The objects at work: what they give, what they leave after a fault, and that a call can succeed.
ghost use Rattle.std.specs.Prelude.{◌≡◌, ◌≢◌, ◌<◌, ◌≤◌, length, IfOk, IsSome};
ghost use Rattle.log_writer.specs.Vault.{disk_in};
ghost use Rattle.log_writer.specs.Save.{IsNewest};

use log_writer::{Cut, Records, Save, Vault};
use outside::{
    Call, Device, Disk, Failed, FileDisk, FuseDisk, Gate, MemDisk, MemSink, MemSource, OpenGate,
    Sink, Source, StdSink, StdSource, SureSource,
};
use std::alloc::{AllocError, Global};
use std::fs::{self, File, Files, OpenOptions};
use std::io::{self, ErrorKind, Read, Write};
use std::process::Abort;
use std::test::Fail;

// How many calls `write_and_read` makes.
const CALLS: u64 = 9;

// Calls of a disk, each without what its trait says of it.
fn cut<D: Disk>(disk: &mut D, len: u64) -> Result<(), Failed> {
    disk.cut(len)
}

// Writes six bytes, asks for the length, and writes past the end.
fn write_twice<D: Disk>(disk: &mut D) -> Result<u64, Failed> {
    disk.write(0, b"abcdef")?;
    let size = disk.len()?;
    disk.write(4, b"xyz")?;
    Ok(size)
}

fn sync<D: Disk>(disk: &mut D) -> Result<(), Failed> {
    disk.sync()
}

// How many bytes are read, and four bytes, which were dots.
fn read<D: Disk>(disk: &mut D, at: u64) -> Result<(usize, [u8; 4]), Failed> {
    let mut buf = [b'.'; 4];
    let count = disk.read(at, &mut buf)?;
    Ok((count, buf))
}

fn writes<D: Disk>(rt: &impl Abort, disk: &mut D) -> Result<(), Failed> {
    let size = write_twice(disk)?;
    assert_eq!(rt; size, 6);
    Ok(())
}

fn reads<D: Disk>(rt: &impl Abort, disk: &mut D) -> Result<(), Failed> {
    let (count, found) = read(disk, 3)?;
    assert!(rt; count == 3);
    assert!(rt; found.as_slice() == b"dxy.".as_slice());
    let (count, _) = read(disk, 7)?;
    assert!(rt; count == 0);
    Ok(())
}

// The calls of a disk, each of which changes what the next ones give.
fn write_and_read<D: Disk>(rt: &impl Abort, disk: &mut D) -> Result<(), Failed> {
    cut(disk, 0)?;
    writes(rt, disk)?;
    cut(disk, 9)?;
    cut(disk, 6)?;
    sync(disk)?;
    reads(rt, disk)
}

fn mem_disk(alloc: Global, fails: &[u64]) -> Result<MemDisk, AllocError> {
    MemDisk::new(alloc, b"old".to_vec(alloc)?, fails.to_vec(alloc)?)
}

// The count of faults, and the clock.
fn counts<D: Disk>(disk: &D) -> (u64, u64) {
    (disk.faults(), disk.clock())
}

fn bytes(disk: &MemDisk) -> &[u8] {
    disk.bytes()
}

fn fails(disk: &MemDisk) -> &[u64] {
    disk.fails()
}

// Whether the last call failed, and whether it was a sync.
fn last_call(disk: &MemDisk) -> Option<(bool, bool)> {
    let last = disk.calls().last()?;
    Some((last.failed, last.call == Call::Sync))
}

// A disk had so many faults, and its clock is this.
fn is_at<D: Disk>(rt: &impl Abort, disk: &D, faults: u64, clock: u64) {
    assert_eq!(rt; counts(disk), (faults, clock));
}

// All calls of a disk succeed.
fn finishes<D: Disk>(rt: &impl Abort, disk: &mut D) {
    let answer = write_and_read(rt, disk);
    assert_eq!(rt; answer, Ok(()));
    is_at(rt, disk, 0, 2 * CALLS);
}

// What a disk has whose call of this number failed.
fn is_left(rt: &impl Abort, disk: &MemDisk, number: u64, left: &[u8]) {
    assert!(rt; fails(disk) == [number].as_slice());
    assert!(rt; bytes(disk) == left);
    assert!(rt; last_call(disk) == Some((true, number == 6)));
}

// The call of this number fails, at this clock, and leaves these bytes.
fn fails_on(rt: &impl Abort, disk: &mut MemDisk, number: u64, clock: u64, left: &[u8]) {
    let answer = write_and_read(rt, disk);
    assert!(rt; answer.is_err());
    is_at(rt, disk, 1, clock);
    is_left(rt, disk, number, left);
}

fn fails_at(
    rt: &impl Abort,
    alloc: Global,
    number: u64,
    clock: u64,
    left: &[u8],
) -> Result<(), AllocError> {
    let mut disk = mem_disk(alloc, &[number])?;
    fails_on(rt, &mut disk, number, clock, left);
    Ok(())
}

// What each call of `write_and_read` finds, at which clock it ends, and so leaves where it fails.
const FOUND: [(u64, u64, &str); 9] = [
    (0, 2, "old"),
    (1, 4, ""),
    (2, 6, "abcdef"),
    (3, 8, "abcdef"),
    (4, 10, "abcdxyz"),
    (5, 12, "abcdxyz"),
    (6, 14, "abcdxy"),
    (7, 16, "abcdxy"),
    (8, 18, "abcdxy"),
];

#[test]
fn a_memory_disk_fails_at_the_listed_call(rt: HostRuntime) -> Result<(), Fail> {
    let alloc = rt.alloc();
    for (number, clock, found) in &FOUND {
        fails_at(&rt, alloc, *number, *clock, found.as_bytes())?;
    }
    let mut disk = mem_disk(alloc, &[CALLS])?;
    finishes(&rt, &mut disk);
    Ok(())
}

// A disk without faults behind a fuse.
fn fused(alloc: Global, passes: u64) -> Result<FuseDisk<MemDisk>, AllocError> {
    let disk = mem_disk(alloc, &[])?;
    Ok(FuseDisk::new(disk, passes))
}

// The passes that are left, and how many faults the disk behind it had.
fn passes(disk: &FuseDisk<MemDisk>) -> (u64, u64) {
    (disk.passes(), disk.disk().faults())
}

// Once all passes are used, at this clock, each call fails.
fn burns(rt: &impl Abort, disk: &mut FuseDisk<MemDisk>, clock: u64) {
    let answer = write_and_read(rt, disk);
    assert!(rt; answer.is_err());
    is_at(rt, disk, 1, clock);
    let again = sync(disk);
    assert!(rt; again.is_err());
    is_at(rt, disk, 2, clock);
    assert!(rt; passes(disk) == (0, 0));
}

fn burns_after(rt: &impl Abort, alloc: Global, number: u64) -> Result<(), AllocError> {
    let mut disk = fused(alloc, number)?;
    burns(rt, &mut disk, number.wrapping_mul(2));
    Ok(())
}

#[test]
fn a_fuse_passes_so_many_calls(rt: HostRuntime) -> Result<(), Fail> {
    let alloc = rt.alloc();
    for number in 0..CALLS {
        burns_after(&rt, alloc, number)?;
    }
    let mut disk = fused(alloc, CALLS)?;
    finishes(&rt, &mut disk);
    Ok(())
}

fn new_file<R: Files<File = File>>(rt: &R, path: &str) -> io::Result<FileDisk> {
    let file = OpenOptions::new()
        .read(true)
        .write(true)
        .create(true)
        .truncate(true)
        .open(rt, path)?;
    Ok(FileDisk::new(file))
}

#[test]
fn a_file_is_a_disk(rt: HostRuntime) -> Result<(), Fail> {
    let path = "outside_file_disk";
    let mut disk = new_file(&rt, path)?;
    finishes(&rt, &mut disk);
    let kept = fs::read(&rt, path)?;
    fs::remove_file(&rt, path)?;
    assert_eq!(rt; kept.as_slice(), b"abcdxy".as_slice());
    Ok(())
}

// What a disk of three bytes answers that can only be read.
fn refuses(rt: &impl Abort, disk: &mut FileDisk) {
    let size = disk.len();
    assert!(rt; size == Ok(3));
    let answer = disk.write(0, b"x");
    assert!(rt; answer == Err(Failed));
    assert!(rt; counts(disk) == (1, 4));
    let answer = disk.cut(1);
    assert!(rt; answer == Err(Failed));
    assert!(rt; counts(disk) == (2, 6));
}

#[test]
fn a_closed_way_is_a_fault(rt: HostRuntime) -> Result<(), Fail> {
    let path = "outside_read_only";
    fs::write(&rt, path, b"abc".as_slice())?;
    let mut disk = FileDisk::new(fs::open(&rt, path)?);
    refuses(&rt, &mut disk);
    fs::remove_file(&rt, path)?;
    Ok(())
}

// A file that was opened for writing alone gives no bytes, and that isn't its end.
#[test]
fn a_read_that_is_refused_is_a_fault(rt: HostRuntime) -> Result<(), Fail> {
    let path = "outside_write_only";
    fs::write(&rt, path, b"abc".as_slice())?;
    let mut disk = FileDisk::new(OpenOptions::new().write(true).open(&rt, path)?);
    let mut buf = [0; 2];
    let answer = disk.read(0, &mut buf);
    assert!(rt; answer == Err(Failed));
    assert!(rt; counts(&disk) == (1, 2));
    fs::remove_file(&rt, path)?;
    Ok(())
}

// What is no file can't be brought to a device, and the system says so: it is asked.
#[test]
fn a_sync_that_is_refused_is_a_fault(rt: HostRuntime) -> Result<(), Fail> {
    let nothing = OpenOptions::new().write(true).open(&rt, "/dev/null")?;
    let mut disk = FileDisk::new(nothing);
    assert!(rt; sync(&mut disk) == Err(Failed));
    assert!(rt; counts(&disk) == (1, 2));
    Ok(())
}

// What a read of two bytes answers, and two bytes, which were dots.
fn piece<S: Source>(source: &mut S) -> (Result<usize, Failed>, [u8; 2]) {
    let mut buf = [b'.'; 2];
    let answer = source.read(&mut buf);
    (answer, buf)
}

fn word(answer: Result<usize, Failed>) -> &'static str {
    match answer {
        Ok(0) => "end ",
        Ok(1) => "one ",
        Ok(_) => "two ",
        Err(Failed) => "failed ",
    }
}

// Reads two bytes, and says what came.
fn say<S: Source>(source: &mut S, text: &mut String) -> Result<(), AllocError> {
    let (answer, [first, second]) = piece(source);
    text.push_str(word(answer))?;
    text.push(char::from(first))?;
    text.push(char::from(second))?;
    text.push(' ')
}

// Reads two bytes at a time, and says what came.
fn pieces<S: Source>(alloc: Global, source: &mut S, reads: u8) -> Result<String, AllocError> {
    let mut text = String::new(alloc);
    for _ in 0..reads {
        say(source, &mut text)?;
    }
    Ok(text)
}

fn faults<S: Source>(source: &S) -> u64 {
    source.faults()
}

// So many reads give this, with so many faults in all.
fn gives<S: Source>(
    rt: &impl Abort,
    alloc: Global,
    source: &mut S,
    (reads, want): (u8, &str),
    failed: u64,
) -> Result<(), AllocError> {
    let came = pieces(alloc, source, reads)?;
    assert_eq!(rt; came.as_str(), want);
    assert_eq!(rt; faults(source), failed);
    Ok(())
}

fn a_sure_source(rt: &impl Abort, alloc: Global) -> Result<(), AllocError> {
    let mut source = SureSource::new(b"abc".to_vec(alloc)?);
    gives(rt, alloc, &mut source, (3, "two ab one c. end .. "), 0)
}

#[test]
fn a_source_loses_nothing_to_a_fault(rt: HostRuntime) -> Result<(), Fail> {
    let alloc = rt.alloc();
    let mut source = MemSource::new(b"abcde".to_vec(alloc)?, [1, 3].to_vec(alloc)?);
    let want = "two ab failed .. two cd failed .. one e. end .. ";
    gives(&rt, alloc, &mut source, (6, want), 2)?;
    assert_eq!(rt; source.calls(), 6);
    a_sure_source(&rt, alloc)?;
    Ok(())
}

fn put<S: Sink>(sink: &mut S, bytes: &[u8]) -> (Result<(), Failed>, u64) {
    let answer = sink.write(bytes);
    (answer, sink.faults())
}

// Bytes, what a sink answers to them, and how many faults it had by then.
type Put = (&'static str, Result<(), Failed>, u64);

fn takes<S: Sink>(rt: &impl Abort, sink: &mut S, puts: &[Put]) {
    for (text, answer, faults) in puts {
        assert_eq!(rt; put(sink, text.as_bytes()), (*answer, *faults));
    }
}

#[test]
fn a_sink_takes_half_at_a_fault(rt: HostRuntime) -> Result<(), Fail> {
    let alloc = rt.alloc();
    let mut sink = MemSink::new(alloc, [1].to_vec(alloc)?);
    let puts = [
        ("ab", Ok(()), 0),
        ("cdefg", Err(Failed), 1),
        ("h", Ok(()), 1),
    ];
    takes(&rt, &mut sink, &puts);
    assert_eq!(rt; sink.bytes(), b"abcdh".as_slice());
    assert_eq!(rt; sink.calls(), 3);
    Ok(())
}

// A stream that is interrupted, moves two bytes, and breaks, in turn.
#[derive(Drop)]
struct Faltering {
    call: u8,
}

impl Faltering {
    fn next(&mut self, most: usize) -> io::Result<usize>
        ensures { IfOk result (λ count. count ≤ most) }
    {
        let call = self.call % 3;
        self.call = call + 1;
        match call {
            0 => Err(io::Error::from(ErrorKind::Interrupted)),
            1 => Ok(most.min(2)),
            _ => Err(io::Error::from(ErrorKind::BrokenPipe)),
        }
    }
}

impl Read for Faltering {
    fn read(&mut self, buf: &mut [u8]) -> io::Result<usize> {
        let count = self.next(buf.len())?;
        for byte in buf[..count].iter_mut() {
            *byte = b'z';
        }
        Ok(count)
    }
}

impl Write for Faltering {
    fn write(&mut self, bytes: &[u8]) -> io::Result<usize> {
        self.next(bytes.len())
    }

    fn flush(&mut self) -> io::Result<()> {
        Ok(())
    }
}

#[test]
fn a_broken_stream_is_a_fault(rt: HostRuntime) -> Result<(), Fail> {
    let mut source = StdSource::over(Faltering { call: 0 });
    let want = "two zz failed .. two zz ";
    gives(&rt, rt.alloc(), &mut source, (3, want), 1)?;
    let mut sink = StdSink::over(Faltering { call: 0 });
    takes(
        &rt,
        &mut sink,
        &[("abc", Err(Failed), 1), ("ab", Ok(()), 1)],
    );
    Ok(())
}

#[test]
fn the_standard_streams_work(rt: HostRuntime) -> Result<(), Fail> {
    let alloc = rt.alloc();
    let mut source = StdSource::over(b"abc".as_slice());
    gives(&rt, alloc, &mut source, (3, "two ab one c. end .. "), 0)?;
    takes(
        &rt,
        &mut StdSink::over(Vec::new(alloc)),
        &[("abc", Ok(()), 0)],
    );
    assert_eq!(rt; faults(&StdSource::new(&rt)), 0);
    takes(
        &rt,
        &mut StdSink::new(&rt),
        &[("a line of the test\n", Ok(()), 0)],
    );
    Ok(())
}

fn pass_by<G: Gate>(gate: &G) {
    gate.before(0, 1);
    gate.after(255, 1);
}

#[test]
fn an_open_gate_holds_nobody(_rt: HostRuntime) {
    pass_by(&OpenGate);
}

// A disk that was asked for its length so many times.
fn asked_disk(alloc: Global, times: u8) -> Result<MemDisk, AllocError> {
    let mut disk = mem_disk(alloc, &[])?;
    for _ in 0..times {
        let _asked = disk.len();
    }
    Ok(disk)
}

// Two disks that were asked so many times.
fn two_disks(alloc: Global, first: u8, second: u8) -> Result<Vec<MemDisk>, AllocError>
    ensures { IfOk result (λ disks. length disks.items ≡ 2) }
{
    let mut disks = Vec::new(alloc);
    disks.push(asked_disk(alloc, first)?)?;
    disks.push(asked_disk(alloc, second)?)?;
    Ok(disks)
}

// A save device that names no savepoint.
fn fresh_save(alloc: Global) -> Result<MemDisk, AllocError>
    ensures newest { IfOk result (λ disk. IsNewest ⟦<MemDisk as Disk>⟧.tells
        ⟦<MemDisk as Disk>⟧.clock ⟦<MemDisk as Disk>⟧.image_at disk 0) }
{
    let mut disk = MemDisk::new(alloc, [0; 1024].to_vec(alloc)?, Vec::new(alloc))?;
    let Ok((save, _)) = Save::load(&mut disk) else {
        return Err(AllocError);
    };
    if save.sequence() != 0 {
        return Err(AllocError);
    }
    Ok(disk)
}

// The devices of two workers, and room for one cut. Each disk's clock but the first is another.
fn two_workers(alloc: Global) -> Result<Vault<MemDisk>, AllocError>
    ensures newest { IfOk result (λ vault. IsNewest ⟦<MemDisk as Disk>⟧.tells
        ⟦<MemDisk as Disk>⟧.clock ⟦<MemDisk as Disk>⟧.image_at vault.save 0) }
    ensures even { IfOk result (λ vault. length vault.even.items ≡ 2) }
    ensures odd { IfOk result (λ vault. length vault.odd.items ≡ 2) }
    ensures room { IfOk result (λ vault. 1 ≤ vault.cuts.room) }
{
    let mut cuts = Records::new(alloc);
    cuts.reserve(1)?;
    let save = fresh_save(alloc)?;
    let snaps = asked_disk(alloc, 1)?;
    let even = two_disks(alloc, 2, 4)?;
    let odd = two_disks(alloc, 3, 5)?;
    Ok(Vault {
        save,
        snaps,
        even,
        odd,
        ties: Records::new(alloc),
        cuts,
    })
}

// Whether disks have these lengths.
fn have_lengths(disks: &[MemDisk], lengths: &[usize]) -> bool {
    if disks.len() != lengths.len() {
        return false;
    }
    for i in 0..disks.len() {
        if disks[i].bytes().len() != lengths[i] {
            return false;
        }
    }
    true
}

// Whether devices have these lengths: the save, the snapshots, and the banks 0, 2, 1 and 3.
fn are_left(vault: &Vault<MemDisk>, left: &[usize; 6]) -> bool {
    let alone = (bytes(&vault.save).len(), bytes(&vault.snaps).len()) == (left[0], left[1]);
    let even = have_lengths(&vault.even, &left[2..4]);
    alone & even & have_lengths(&vault.odd, &left[4..])
}

// Cuts a device that is there, and says so in a list that has room, behind what the save device names.
fn cut_in(vault: &mut Vault<MemDisk>, device: Device) -> Result<(), Failed>
    requires newest { IsNewest ⟦<MemDisk as Disk>⟧.tells ⟦<MemDisk as Disk>⟧.clock
        ⟦<MemDisk as Disk>⟧.image_at vault.old.save 0 }
    requires room { 1 ≤ vault.old.cuts.room }
    requires device { IsSome (disk_in vault.old device) }
    requires not_save { device ≢ Device.Save }
{
    vault.cut_in(device, 0)
}

// A device was cut as its clock was this: what was recorded, and all lengths.
fn is_cut(
    rt: &impl Abort,
    vault: &Vault<MemDisk>,
    (answer, device): (Result<(), Failed>, Device),
    at: u64,
    left: [usize; 6],
) {
    assert!(rt; answer == Ok(()));
    let cut = Cut {
        device,
        at,
        after: 0,
    };
    assert!(rt; vault.cuts.as_slice() == [cut].as_slice());
    assert!(rt; are_left(vault, &left));
}

fn snaps_are_cut(rt: &impl Abort, alloc: Global) -> Result<(), AllocError> {
    let mut vault = two_workers(alloc)?;
    assert!(rt; !vault.is_whole());
    let answer = cut_in(&mut vault, Device::Snaps);
    is_cut(
        rt,
        &vault,
        (answer, Device::Snaps),
        2,
        [1024, 0, 3, 3, 3, 3],
    );
    assert_eq!(rt; vault.snaps.clock(), 4);
    Ok(())
}

fn a_first_bank_is_cut(rt: &impl Abort, alloc: Global) -> Result<(), AllocError> {
    let mut vault = two_workers(alloc)?;
    let answer = cut_in(&mut vault, Device::Bank(0));
    is_cut(
        rt,
        &vault,
        (answer, Device::Bank(0)),
        4,
        [1024, 3, 0, 3, 3, 3],
    );
    Ok(())
}

fn a_last_bank_is_cut(rt: &impl Abort, alloc: Global) -> Result<(), AllocError> {
    let mut vault = two_workers(alloc)?;
    let answer = cut_in(&mut vault, Device::Bank(3));
    is_cut(
        rt,
        &vault,
        (answer, Device::Bank(3)),
        10,
        [1024, 3, 3, 3, 3, 0],
    );
    Ok(())
}

#[test]
fn a_cut_of_a_device_is_recorded(rt: HostRuntime) -> Result<(), Fail> {
    snaps_are_cut(&rt, rt.alloc())?;
    a_first_bank_is_cut(&rt, rt.alloc())?;
    a_last_bank_is_cut(&rt, rt.alloc())?;
    Ok(())
}

// So many disks.
fn disks(alloc: Global, count: u8) -> Result<Vec<MemDisk>, AllocError> {
    let mut disks = Vec::new(alloc);
    for _ in 0..count {
        disks.push(mem_disk(alloc, &[])?)?;
    }
    Ok(disks)
}

// A vault with so many log files of even and of odd number.
fn vault_of(alloc: Global, even: u8, odd: u8) -> Result<Vault<MemDisk>, AllocError> {
    let save = mem_disk(alloc, &[])?;
    let snaps = mem_disk(alloc, &[])?;
    let even = disks(alloc, even)?;
    let odd = disks(alloc, odd)?;
    Ok(Vault {
        save,
        snaps,
        even,
        odd,
        ties: Records::new(alloc),
        cuts: Records::new(alloc),
    })
}

fn is_whole(alloc: Global, even: u8, odd: u8) -> Result<bool, AllocError> {
    let vault = vault_of(alloc, even, odd)?;
    Ok(vault.is_whole())
}

#[test]
fn a_whole_vault_has_sixteen_log_files(rt: HostRuntime) -> Result<(), Fail> {
    for (even, odd, whole) in &[(8, 8, true), (7, 8, false), (8, 9, false)] {
        let found = is_whole(rt.alloc(), *even, *odd)?;
        assert_eq!(rt; found, *whole);
    }
    Ok(())
}
