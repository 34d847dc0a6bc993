// Standard streams that are closed.
ghost use Rattle.std.specs.Prelude.{◌↔◌, ◌≤ℤ◌, IsTrue, pos};
ghost use Rattle.std.specs.Fd.{file_raw_fd};

use std::fs::{File, Files};
use std::os::fd::AsRawFd;

// Standard input, output and errors have the descriptors below this one.
const STREAMS: i32 = 3;

/// What stands in the places of standard streams that are closed, as long as it is kept. A file that is opened takes
/// the least place that is free: without these, what is printed would be written into the database's first file. The
/// root folder can be opened by anybody, and both reading and writing it fail, as of a closed stream.
#[derive(Drop)]
pub struct Places {
    _first: Option<File>,
    _second: Option<File>,
    _third: Option<File>,
}

/// Fills the places of standard streams that are closed.
pub fn fill_places<R: Files<File = File>>(rt: &R) -> Places {
    Places {
        _first: fill_place(rt),
        _second: fill_place(rt),
        _third: fill_place(rt),
    }
}

fn fill_place<R: Files<File = File>>(rt: &R) -> Option<File> {
    let Ok(file) = File::open(rt, "/") else {
        return None;
    };
    if is_apart(&file) {
        return None;
    }
    Some(file)
}

/// Whether a file has the place of no standard stream.
pub(crate) fn is_apart(file: &File) -> bool
    ensures { IsTrue result ↔ (pos 3 ≤ℤ file_raw_fd file.now) }
{
    file.as_raw_fd() >= STREAMS
}
