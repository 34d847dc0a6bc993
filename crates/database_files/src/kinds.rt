// What has the names of a database's files: regular files alone, each a file of its own.
ghost use Rattle.std.specs.Prelude.{◌≡◌, IfErr};
ghost use Rattle.database_files.specs.Opening.{IsWithout};

use crate::not_opened::{NotOpened, Why};
use crate::paths::device_path;
use outside::Device;
use std::alloc::Global;
use std::fs::{self, File, Files, Metadata};
use std::io::ErrorKind;
use std::os::unix::fs::MetadataExt;

/// Log files of a database.
const LOGS: u8 = 16;

/// Looks at all names before any file is opened, since who opens a pipe waits for its writer, and answers whether a
/// file beside the savepoint's has bytes. The first name is refused that something else has than a file.
pub(crate) fn look_at_names<R: Files<File = File>>(
    rt: &R,
    alloc: Global,
    folder: &str,
) -> Result<bool, NotOpened> {
    length_of(rt, alloc, folder, Device::Save)?;
    let mut has_bytes = length_of(rt, alloc, folder, Device::Snaps)? > 0;
    for number in 0..LOGS {
        if length_of(rt, alloc, folder, Device::Bank(number))? > 0 {
            has_bytes = true;
        }
    }
    Ok(has_bytes)
}

// The length of a device's file, 0 where there is none.
fn length_of<R: Files<File = File>>(
    rt: &R,
    alloc: Global,
    folder: &str,
    device: Device,
) -> Result<u64, NotOpened>
    ensures { IfErr result (IsWithout device) }
{
    let path = device_path(alloc, folder, device)?;
    match length_at(rt, path.as_str()) {
        Ok(length) => Ok(length),
        Err(why) => Err(NotOpened::Without(device, why)),
    }
}

fn length_at<R: Files<File = File>>(rt: &R, path: &str) -> Result<u64, Why> {
    match fs::symlink_metadata(rt, path) {
        Ok(metadata) if metadata.is_file() => Ok(metadata.len()),
        Ok(_) => Err(Why::NoFile),
        Err(error) if error.kind() == ErrorKind::NotFound => Ok(0),
        Err(error) => Err(Why::System(error)),
    }
}

/// Which file of the system it is, whatever its names are.
#[derive(Clone, Copy, PartialEq, Eq)]
pub(crate) struct Inode {
    file_system: u64,
    number: u64,
}

impl Inode {
    fn of(metadata: &Metadata) -> Inode {
        Inode {
            file_system: metadata.dev(),
            number: metadata.ino(),
        }
    }
}

/// Which file is open, and whether it has one name alone. What had the name may have changed since it was looked at,
/// so what is no file is refused here, too.
pub(crate) fn recognize(file: &File) -> Result<(Inode, bool), Why> {
    let metadata = file.metadata()?;
    if metadata.is_file() {
        return Ok((Inode::of(&metadata), metadata.nlink() <= 1));
    }
    Err(Why::NoFile)
}

/// Whether a file that is open has this name.
pub(crate) fn has_name<R: Files<File = File>>(rt: &R, file: &File, path: &str) -> bool {
    match (file.metadata(), fs::symlink_metadata(rt, path)) {
        (Ok(open), Ok(named)) => Inode::of(&open) == Inode::of(&named),
        _ => false,
    }
}
