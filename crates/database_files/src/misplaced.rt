// A savepoint under another name, where that of the savepoint's file is missing.
use crate::opening::{Access, open_apart};
use log_writer::Save;
use outside::FileDisk;
use std::alloc::Global;
use std::fs::{self, File, Files};
use std::io::{self, Read};

/// The path of a file of the folder that has a savepoint. Files are only read.
pub(crate) fn misplaced<R: Files<File = File>>(
    rt: &R,
    alloc: Global,
    folder: &str,
) -> io::Result<Option<String>> {
    // Without the slash a link to the folder isn't followed.
    let path = format!(in alloc; "{folder}/")?;
    let mut names = rt.open_dir(path.as_str())?;
    let mut some = [0; 4096];
    for _ in 0..u32::MAX {
        let count = names.read(&mut some)?;
        if count == 0 {
            return Ok(None);
        }
        if let Some(path) = first_of(rt, alloc, folder, &some[..count])? {
            return Ok(Some(path));
        }
    }
    Ok(None)
}

// The same of some names, each with a zero byte behind it. Those that are no text are passed over.
fn first_of<R: Files<File = File>>(
    rt: &R,
    alloc: Global,
    folder: &str,
    names: &[u8],
) -> io::Result<Option<String>> {
    for name in names.split(|byte| *byte == 0) {
        if let Ok(name) = str::from_utf8(name) {
            let path = format!(in alloc; "{folder}/{name}")?;
            if is_file(rt, path.as_str()) && has_savepoint(rt, path.as_str()) {
                return Ok(Some(path));
            }
        }
    }
    Ok(None)
}

// To open a pipe would wait for its writer.
fn is_file<R: Files<File = File>>(rt: &R, path: &str) -> bool {
    match fs::symlink_metadata(rt, path) {
        Ok(metadata) => metadata.is_file(),
        Err(_) => false,
    }
}

// Without a savepoint a file would be that of a new database, and the next run would cut the log files.
fn has_savepoint<R: Files<File = File>>(rt: &R, path: &str) -> bool {
    match open_apart(rt, &Access::Shared.options(), path) {
        Ok(file) => names_savepoint(&mut FileDisk::new(file)),
        Err(_) => false,
    }
}

fn names_savepoint(disk: &mut FileDisk) -> bool {
    match Save::load(disk) {
        Ok((_, saved)) => saved.is_some(),
        Err(_) => false,
    }
}
