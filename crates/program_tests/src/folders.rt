// The files of a vault in a folder.
use super::*;
use database_files::{Access, NotOpened, Opened, Why, open_vault};
use outside::FileDisk;
use std::fs::{self, File, Files};

// The first byte of each disk.
fn first_bytes(alloc: Global, disks: &mut Vec<FileDisk>) -> Result<Vec<u8>, Fail> {
    let mut bytes = Vec::new(alloc);
    for disk in disks.iter_mut() {
        let mut buf = [255];
        disk.read(0, &mut buf)?;
        bytes.push(buf[0])?;
    }
    Ok(bytes)
}

fn check_disks<R: Files<File = File> + AllocGlobal>(
    rt: &R,
    disks: &mut Vec<FileDisk>,
    first: &[u8],
) -> Result<(), Fail> {
    let bytes = first_bytes(rt.alloc(), disks)?;
    is_same("first bytes", &bytes, first)
}

// Makes the files that are missing.
fn make_files<R: Files<File = File> + AllocGlobal>(rt: &R, folder: &str) -> Result<(), Fail> {
    let opened = open_for(rt, folder, Access::Alone)?;
    if !opened.is_new {
        return Err(Fail::from("a new database"));
    }
    Ok(())
}

fn open_for<R: Files<File = File> + AllocGlobal>(
    rt: &R,
    folder: &str,
    access: Access,
) -> Result<Opened, Fail> {
    match open_vault(rt, rt.alloc(), folder, access) {
        Ok(opened) => Ok(opened),
        Err(_) => Err(Fail::from("a vault")),
    }
}

// Whether a database can't be opened since another process, or another opening here, has it.
fn is_locked<R: Files<File = File> + AllocGlobal>(rt: &R, folder: &str, access: Access) -> bool {
    match open_vault(rt, rt.alloc(), folder, access) {
        Ok(_) => false,
        Err(error) => matches!(error, NotOpened::Without(_, Why::Locked)),
    }
}

// Whether a database can't be opened since its savepoint is missing.
fn is_lost<R: Files<File = File> + AllocGlobal>(rt: &R, folder: &str, access: Access) -> bool {
    match open_vault(rt, rt.alloc(), folder, access) {
        Ok(_) => false,
        Err(error) => matches!(error, NotOpened::Without(_, Why::Lost)),
    }
}

// The numbers of the log files of each side.
const EVEN: [u8; 8] = [0, 2, 4, 6, 8, 10, 12, 14];

const ODD: [u8; 8] = [1, 3, 5, 7, 9, 11, 13, 15];

fn check_sides<R: Files<File = File> + AllocGlobal>(
    rt: &R,
    vault: &mut Vault<FileDisk>,
) -> Result<(), Fail> {
    check_disks(rt, &mut vault.even, &EVEN)?;
    check_disks(rt, &mut vault.odd, &ODD)
}

// Each bank's file has its number as its first byte.
fn check_banks<R: Files<File = File> + AllocGlobal>(rt: &R, folder: &str) -> Result<(), Fail> {
    let mut opened = open_for(rt, folder, Access::Shared)?;
    check_sides(rt, &mut opened.vault)
}

fn check_file<R: Files<File = File> + AllocGlobal>(
    rt: &R,
    path: &str,
    bytes: &[u8],
) -> Result<(), Fail> {
    let found = fs::read(rt, path)?;
    is_same(path, &found, bytes)
}

// The file of a new savepoint has zeros alone.
pub(super) fn check_closed<R: Files<File = File> + AllocGlobal>(
    rt: &R,
    path: &str,
) -> Result<(), Fail> {
    check_file(rt, path, &filled(rt.alloc(), 0, 1024)?)
}

fn number_bank<R: Files<File = File> + AllocGlobal>(
    rt: &R,
    folder: &str,
    bank: u8,
) -> Result<(), Fail> {
    let path = format!(in rt.alloc(); "{folder}/bank{bank}")?;
    fs::write(rt, path.as_str(), [bank].as_slice())?;
    Ok(())
}

// A process that was stopped while it made the savepoint's file leaves some of it under another name.
fn leave_draft<R: Files<File = File> + AllocGlobal>(rt: &R) -> Result<(), Fail> {
    let draft = filled(rt.alloc(), 165, 1_500)?;
    fs::write(rt, "foedus_vault/save.new", draft.as_slice())?;
    Ok(())
}

// Files are made, the savepoint's with 1,024 zero bytes, and found again, each bank under its number.
#[test]
fn a_folder_is_a_vault(rt: HostRuntime) -> Result<(), Fail> {
    let folder = "foedus_vault";
    let _old = fs::remove_dir_all(&rt, folder);
    fs::create_dir(&rt, folder)?;
    leave_draft(&rt)?;
    make_files(&rt, folder)?;
    check_closed(&rt, "foedus_vault/save")?;
    check_file(&rt, "foedus_vault/snaps", &[])?;
    check_file(&rt, "foedus_vault/bank15", &[])?;
    for bank in 0..16u8 {
        number_bank(&rt, folder, bank)?;
    }
    check_banks(&rt, folder)?;
    fs::remove_dir_all(&rt, folder)?;
    Ok(())
}

// Whether a database that is open to be written is locked to a writer, and to a reader.
fn locked_by_a_writer<R: Files<File = File> + AllocGlobal>(
    rt: &R,
    folder: &str,
) -> Result<(bool, bool), Fail> {
    let alone = open_for(rt, folder, Access::Alone)?;
    let to_a_writer = is_locked(rt, folder, Access::Alone);
    let to_a_reader = is_locked(rt, folder, Access::Shared);
    drop(alone);
    Ok((to_a_writer, to_a_reader))
}

// Whether one that two have open to be read is locked to a writer.
fn locked_by_readers<R: Files<File = File> + AllocGlobal>(
    rt: &R,
    folder: &str,
) -> Result<bool, Fail> {
    let first = open_for(rt, folder, Access::Shared)?;
    let second = open_for(rt, folder, Access::Shared)?;
    let to_a_writer = is_locked(rt, folder, Access::Alone);
    drop(first);
    drop(second);
    Ok(to_a_writer)
}

// While a database is open to be written nobody else opens it, and while it is open to be read nobody writes it.
#[test]
fn an_open_database_is_locked(rt: HostRuntime) -> Result<(), Fail> {
    let folder = "foedus_locked";
    let _old = fs::remove_dir_all(&rt, folder);
    let (to_a_writer, to_a_reader) = locked_by_a_writer(&rt, folder)?;
    is_so("alone beside a writer", to_a_writer)?;
    is_so("shared beside a writer", to_a_reader)?;
    is_so("alone beside readers", locked_by_readers(&rt, folder)?)?;
    is_so("alone", !is_locked(&rt, folder, Access::Alone))?;
    fs::remove_dir_all(&rt, folder)?;
    Ok(())
}

// Files with bytes beside a missing savepoint are no new database, and stay as they are.
#[test]
fn a_lost_savepoint_is_no_new_database(rt: HostRuntime) -> Result<(), Fail> {
    let folder = "foedus_lost";
    let _old = fs::remove_dir_all(&rt, folder);
    make_files(&rt, folder)?;
    number_bank(&rt, folder, 9)?;
    fs::remove_file(&rt, "foedus_lost/save")?;
    is_so("lost to a writer", is_lost(&rt, folder, Access::Alone))?;
    is_so("lost to a reader", is_lost(&rt, folder, Access::Shared))?;
    check_file(&rt, "foedus_lost/bank9", &[9])?;
    fs::remove_file(&rt, "foedus_lost/bank9")?;
    make_files(&rt, folder)?;
    fs::remove_dir_all(&rt, folder)?;
    Ok(())
}
