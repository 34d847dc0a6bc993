// How a database's files are opened: apart from the standard streams, and locked.
ghost use Rattle.std.specs.Prelude.{◌≤ℤ◌, IfOk, pos};
ghost use Rattle.std.specs.Fd.{file_raw_fd};

use crate::not_opened::Why;
use crate::streams::is_apart;
use std::fs::{File, Files, OpenOptions, TryLockError};
use std::io::{self, ErrorKind};

/// What a call does to the files of a database.
#[derive(Clone, Copy, PartialEq, Eq)]
pub enum Access {
    /// It reads and writes them, and no other process has them open.
    Alone,
    /// It reads them, and no other process writes them.
    Shared,
}

impl Access {
    /// How files that are there are opened. Those that are only read may be of a copy that can't be written.
    pub(crate) fn options(self) -> OpenOptions {
        let mut options = OpenOptions::new();
        options.read(true);
        options.write(self == Access::Alone);
        options
    }
}

/// How files that are missing are made: none is, where something has the name, be it a link to nowhere.
pub(crate) fn making() -> OpenOptions {
    let mut options = OpenOptions::new();
    options.read(true);
    options.write(true);
    options.create_new(true);
    options
}

/// Opens a file. One in the place of a standard stream would get what is printed, or be read as a script.
pub(crate) fn open_apart<R: Files<File = File>>(
    rt: &R,
    options: &OpenOptions,
    path: &str,
) -> Result<File, Why>
    ensures { IfOk result (λ file. pos 3 ≤ℤ file_raw_fd file) }
{
    let file = options.open(rt, path)?;
    if is_apart(&file) {
        return Ok(file);
    }
    Err(Why::Closed)
}

/// Opens a file, or makes it where it is missing, and answers whether it was made.
pub(crate) fn open_or_make<R: Files<File = File>>(
    rt: &R,
    access: Access,
    path: &str,
) -> Result<(File, bool), Why> {
    match open_apart(rt, &access.options(), path) {
        Ok(file) => Ok((file, false)),
        Err(why) if why.is_missing() => make_or_open(rt, access, path),
        Err(why) => Err(why),
    }
}

// Another process may have made it by now.
fn make_or_open<R: Files<File = File>>(
    rt: &R,
    access: Access,
    path: &str,
) -> Result<(File, bool), Why> {
    match open_apart(rt, &making(), path) {
        Ok(file) => Ok((file, true)),
        Err(why) if why.is_taken() => Ok((open_apart(rt, &access.options(), path)?, false)),
        Err(why) => Err(why),
    }
}

/// Keeps other processes from a file until it is closed, also by the end of this one.
pub(crate) fn lock(file: &File, access: Access) -> Result<(), Why> {
    let outcome = match access {
        Access::Alone => file.try_lock(),
        Access::Shared => file.try_lock_shared(),
    };
    match outcome {
        Ok(()) => Ok(()),
        Err(TryLockError::WouldBlock) => Err(Why::Locked),
        Err(TryLockError::Error(error)) => Err(Why::System(error)),
    }
}

/// Brings the names of a folder's files to the device itself.
pub(crate) fn sync_folder<R: Files<File = File>>(rt: &R, folder: &str) -> io::Result<()> {
    File::open(rt, folder)?.sync_all()
}

/// Brings the name of a folder itself to the device, which the folder around it has. Where that may not be read it is
/// passed over, unless the folder was made just now.
pub(crate) fn sync_around<R: Files<File = File>>(
    rt: &R,
    around: &str,
    was_made: bool,
) -> io::Result<()> {
    match File::open(rt, around) {
        Ok(folder) => folder.sync_all(),
        Err(error) if error.kind() == ErrorKind::PermissionDenied && !was_made => Ok(()),
        Err(error) => Err(error),
    }
}
