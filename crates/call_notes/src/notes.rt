// What a person is told on standard error beside the explanation of the status: what this call met.
use crate::faulty_line::fault_lines;
use crate::refused_words::reason;
use crate::script_source::Remembers;
use crate::shown::shown;
use database_files::{Access, NotOpened, Opened, Why, device_path};
use log_writer::Vault;
use outside::{Device, FileDisk, Sink};
use std::alloc::{AllocError, Global};
use std::io;

const TYPED: &[u8] =
    b"foedus: reading the script from the terminal; it ends with Ctrl-D on a line of its own, and is run then\n";

// Where there is no memory for it, or it can't be written, nothing else is missing.
pub(crate) fn put<N: Sink>(notes: &mut N, text: Result<String, AllocError>) {
    if let Ok(text) = text {
        let _ = notes.write(text.as_bytes());
    }
}

/// That words were refused which are no text.
pub fn tell_no_text<N: Sink>(notes: &mut N) {
    let _ = notes.write(b"foedus: a word isn't UTF-8 text\n");
}

/// What is wrong with refused words.
pub fn tell_refused<N: Sink>(alloc: Global, notes: &mut N, words: &[&str]) {
    put(notes, refusal(alloc, words));
}

fn refusal(alloc: Global, words: &[&str]) -> Result<String, AllocError> {
    let reason = reason(alloc, words)?;
    if reason.is_empty() {
        return Ok(reason);
    }
    format!(in alloc; "foedus: {reason}\n\n")
}

/// What a call asks of the database in a folder.
#[derive(Clone, Copy)]
pub struct Asked<'a> {
    pub folder: &'a str,
    pub access: Access,
    /// Whether it reads a script that somebody types.
    pub is_typed: bool,
}

/// That a script is read which somebody types, or that a database was made by a call that was to tell of one.
pub fn tell_opened<N: Sink>(alloc: Global, notes: &mut N, asked: Asked<'_>, opened: &Opened) {
    if asked.is_typed {
        let _ = notes.write(TYPED);
    }
    if opened.is_new && asked.access == Access::Shared {
        put(notes, new_told(alloc, asked.folder));
    }
}

fn new_told(alloc: Global, folder: &str) -> Result<String, AllocError> {
    format!(in alloc;
        "foedus: there was no database in the folder {folder}, so an empty one was made there\n"
    )
}

/// Why a database couldn't be opened.
pub fn tell_not_opened<N: Sink>(alloc: Global, notes: &mut N, folder: &str, error: &NotOpened) {
    if let NotOpened::Without(device, why) = error {
        put(notes, cause(alloc, folder, *device, why));
    }
}

fn cause(alloc: Global, folder: &str, device: Device, why: &Why) -> Result<String, AllocError> {
    let path = device_path(alloc, folder, device)?;
    match why {
        Why::System(error) => system_cause(alloc, path.as_str(), *error),
        Why::Locked => told_of(alloc, path.as_str(), LOCKED),
        Why::Lost => told_of(alloc, path.as_str(), LOST),
        Why::Misplaced(other) => misplaced_told(alloc, path.as_str(), other.as_str()),
        Why::NoFile => told_of(alloc, path.as_str(), NO_FILE),
        Why::Same(other) => same_told(alloc, folder, path.as_str(), *other),
        Why::SeveralNames => several_told(alloc, folder, path.as_str()),
        Why::Closed => told_of(alloc, path.as_str(), CLOSED),
    }
}

// What is told behind the file's name.
const LOCKED: &str = ": another process has the database open";

const LOST: &str =
    " is missing, and other files of the database have bytes: put back a copy of the folder whose \
    files are all of one moment, or remove it";

const NO_FILE: &str =
    " is no regular file but a folder, a pipe, a link or a device, and isn't opened: put the file itself in its place, \
    or a copy of the folder whose files are all of one moment";

// That the savepoint is missing, and which file has one.
fn misplaced_told(alloc: Global, path: &str, other: &str) -> Result<String, AllocError> {
    let other = shown(alloc, other.as_bytes())?;
    format!(in alloc;
        "foedus: {path} is missing, and other files of the database have bytes; {other} has a savepoint: if it is of \
        one moment with them, give it its name back (mv '{other}' {path}), else put back a copy of the folder whose \
        files are all of one moment\n"
    )
}

// That two devices have the same file.
fn same_told(alloc: Global, folder: &str, path: &str, other: Device) -> Result<String, AllocError> {
    let other = device_path(alloc, folder, other)?;
    format!(in alloc;
        "foedus: {path} and {other} are two names of one file: put back a copy of the folder whose files are all of \
        one moment\n"
    )
}

// That a file has other names, of which the folder may have none.
fn several_told(alloc: Global, folder: &str, path: &str) -> Result<String, AllocError> {
    format!(in alloc;
        "foedus: {path} has another name too (a hard link), and a run would change the file under both: put a copy \
        with bytes in the folder's place (mv {folder} {folder}.linked && cp -r {folder}.linked {folder})\n"
    )
}

const CLOSED: &str = ": a standard stream is closed, and the file would take its place";

fn told_of(alloc: Global, path: &str, told: &str) -> Result<String, AllocError> {
    format!(in alloc; "foedus: {path}{told}\n")
}

fn system_cause(alloc: Global, path: &str, error: io::Error) -> Result<String, AllocError> {
    format!(in alloc; "foedus: {path}: {error}\n")
}

/// What the system said to the calls of devices that it refused.
pub fn tell_causes<N: Sink>(alloc: Global, notes: &mut N, folder: &str, vault: &Vault<FileDisk>) {
    tell_cause(alloc, notes, folder, Device::Save, &vault.save);
    tell_cause(alloc, notes, folder, Device::Snaps, &vault.snaps);
    tell_log_causes(alloc, notes, folder, 0, vault.even.as_slice());
    tell_log_causes(alloc, notes, folder, 1, vault.odd.as_slice());
}

// Of the log files of one side.
fn tell_log_causes<N: Sink>(
    alloc: Global,
    notes: &mut N,
    folder: &str,
    side: u8,
    disks: &[FileDisk],
) {
    for (worker, disk) in disks.iter().enumerate() {
        tell_cause(alloc, notes, folder, log_of(worker, side), disk);
    }
}

fn log_of(worker: usize, side: u8) -> Device {
    Device::Bank(((worker % 8) as u8) * 2 + side % 2)
}

fn tell_cause<N: Sink>(
    alloc: Global,
    notes: &mut N,
    folder: &str,
    device: Device,
    disk: &FileDisk,
) {
    if let Some(error) = disk.cause() {
        put(notes, cause(alloc, folder, device, &Why::System(error)));
    }
}

/// The faulty line of a script, and what its kind of fault is.
pub fn tell_faulty_line<N: Sink, S: Remembers>(alloc: Global, notes: &mut N, source: &S) {
    put(notes, fault_lines(alloc, source.front(), source.is_whole()));
}
