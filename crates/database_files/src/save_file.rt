// The savepoint's file: it is locked while a call lasts, and names a database once all other files are there.
ghost use Rattle.std.specs.Prelude.{◌≡◌, IfErr, IfOk};
ghost use Rattle.outside.specs.declared.device.Device.TheVariants.{Save};
ghost use Rattle.database_files.specs.Opening.{IsWithout, IsWithoutFirst};

use crate::kinds::has_name;
use crate::misplaced::misplaced;
use crate::not_opened::{NotOpened, Why};
use crate::opening::{Access, lock, making, open_apart, open_or_make, sync_around, sync_folder};
use crate::paths::device_path;
use outside::Device;
use std::alloc::{AllocError, Global};
use std::fs::{self, File, Files};
use std::io::{self, ErrorKind, Write};

/// The savepoint's file as it is made: two places, of which none counts.
const NO_SAVEPOINT: [u8; 1024] = [0; 1024];

/// How many drafts may lie in a folder.
const DRAFTS: u32 = 1_000;

/// The savepoint's file, open and locked.
#[derive(Drop)]
pub(crate) struct SaveFile {
    pub(crate) file: File,
    path: String,
    draft: Option<Draft>,
}

/// What is known of the savepoint's file before it has its name, which `keep_names` gives it.
#[derive(Drop)]
struct Draft {
    path: String,
    /// Whether the folder was missing, too.
    is_in_new_folder: bool,
    /// What keeps others from making a database here meanwhile.
    _makers: File,
}

impl SaveFile {
    pub(crate) fn into_file(self) -> File {
        self.file
    }

    /// Whether there was none, and it was made under another name.
    pub(crate) fn is_draft(&self) -> bool {
        self.draft.is_some()
    }

    fn is_in_new_folder(&self) -> bool {
        match &self.draft {
            Some(draft) => draft.is_in_new_folder,
            None => false,
        }
    }

    /// Removes the draft of a making that failed. What else has its name by now was made by another, and stays.
    pub(crate) fn remove_draft<R: Files<File = File>>(&self, rt: &R) {
        if let Some(draft) = &self.draft {
            if has_name(rt, &self.file, draft.path.as_str()) {
                let _removed = fs::remove_file(rt, draft.path.as_str());
            }
        }
    }
}

/// Opens and locks the savepoint's file, or makes one where there is no database: no other file has bytes.
pub(crate) fn open_save<R: Files<File = File>>(
    rt: &R,
    alloc: Global,
    folder: &str,
    access: Access,
    has_bytes: bool,
) -> Result<SaveFile, NotOpened>
    ensures { IfErr result IsWithoutFirst }
{
    let path = device_path(alloc, folder, Device::Save)?;
    let (file, draft) = open_or_begin(rt, alloc, folder, access, path.as_str(), has_bytes)?;
    Ok(SaveFile { file, path, draft })
}

// The bytes were seen before the savepoint is looked for here. Who makes a database writes to its files only once the
// savepoint has its name, so what is missing here has lost it.
fn open_or_begin<R: Files<File = File>>(
    rt: &R,
    alloc: Global,
    folder: &str,
    access: Access,
    path: &str,
    has_bytes: bool,
) -> Result<(File, Option<Draft>), NotOpened>
    ensures { IfErr result IsWithoutFirst }
{
    match open_locked(rt, path, access) {
        Ok(file) => Ok((file, None)),
        Err(why) if !why.is_missing() => Err(NotOpened::Without(Device::Save, why)),
        Err(_) if has_bytes => Err(lost(rt, alloc, folder)),
        Err(_) => begin_save(rt, alloc, folder, access, path),
    }
}

fn open_locked<R: Files<File = File>>(rt: &R, path: &str, access: Access) -> Result<File, Why> {
    let file = open_apart(rt, &access.options(), path)?;
    lock(&file, access)?;
    Ok(file)
}

// That the savepoint is missing. Where another file of the folder has one, it is named.
fn lost<R: Files<File = File>>(rt: &R, alloc: Global, folder: &str) -> NotOpened
    ensures { IsWithout Save result }
{
    match misplaced(rt, alloc, folder) {
        Ok(Some(path)) => NotOpened::Without(Device::Save, Why::Misplaced(path)),
        _ => NotOpened::Without(Device::Save, Why::Lost),
    }
}

// Makes the savepoint's file under another name, in a folder that is made where it is missing. Drafts don't exclude
// each other, so of those who make a database here at once the lock of the snapshots' file lets one through.
fn begin_save<R: Files<File = File>>(
    rt: &R,
    alloc: Global,
    folder: &str,
    access: Access,
    path: &str,
) -> Result<(File, Option<Draft>), NotOpened>
    ensures { IfErr result IsWithoutFirst }
{
    let is_in_new_folder = make_folder(rt, folder)?;
    let makers = lock_makers(rt, alloc, folder)?;
    // Another process may have made the database by now.
    match open_locked(rt, path, access) {
        Ok(file) => Ok((file, None)),
        Err(why) if !why.is_missing() => Err(NotOpened::Without(Device::Save, why)),
        Err(_) => {
            let (file, path) = make_draft(rt, alloc, path)?;
            let draft = Draft {
                path,
                is_in_new_folder,
                _makers: makers,
            };
            Ok((file, Some(draft)))
        }
    }
}

// Makes the folder where it is missing, and answers whether it was.
fn make_folder<R: Files<File = File>>(rt: &R, folder: &str) -> Result<bool, NotOpened>
    ensures { IfErr result (IsWithout Save) }
{
    match fs::create_dir(rt, folder) {
        Ok(()) => Ok(true),
        Err(error) if error.kind() == ErrorKind::AlreadyExists => Ok(false),
        Err(error) => Err(NotOpened::Without(Device::Save, Why::System(error))),
    }
}

// Keeps others from making a database until the file that is answered is closed.
fn lock_makers<R: Files<File = File>>(
    rt: &R,
    alloc: Global,
    folder: &str,
) -> Result<File, NotOpened>
    ensures { IfErr result IsWithoutFirst }
{
    let path = device_path(alloc, folder, Device::Snaps)?;
    match open_to_lock(rt, path.as_str()) {
        Ok(file) => Ok(file),
        // It is told as of a database that another process has open.
        Err(Why::Locked) => Err(NotOpened::Without(Device::Save, Why::Locked)),
        Err(why) => Err(NotOpened::Without(Device::Snaps, why)),
    }
}

fn open_to_lock<R: Files<File = File>>(rt: &R, path: &str) -> Result<File, Why> {
    let (file, _) = open_or_make(rt, Access::Alone, path)?;
    lock(&file, Access::Alone)?;
    Ok(file)
}

// Makes a draft under the first name that is free. What has a name wasn't made here, and is left alone.
fn make_draft<R: Files<File = File>>(
    rt: &R,
    alloc: Global,
    path: &str,
) -> Result<(File, String), NotOpened>
    ensures { IfErr result (IsWithout Save) }
{
    for number in 0..DRAFTS {
        let draft = draft_path(alloc, path, number)?;
        match open_apart(rt, &making(), draft.as_str()) {
            Ok(file) => return Ok((file, draft)),
            Err(why) if why.is_taken() => {}
            Err(why) => return Err(NotOpened::Without(Device::Save, why)),
        }
    }
    let taken = io::Error::from(ErrorKind::AlreadyExists);
    Err(NotOpened::Without(Device::Save, Why::System(taken)))
}

fn draft_path(alloc: Global, path: &str, number: u32) -> Result<String, AllocError> {
    match number {
        0 => format!(in alloc; "{path}.new"),
        _ => format!(in alloc; "{path}.new{number}"),
    }
}

/// Makes the names of the folder's files stay there, and that of the folder in the one around it. A process that died
/// may have made or named some of them and have synced none. The savepoint's file gets its name once all others have
/// theirs: a stop before that leaves a folder without savepoint and without bytes, which has no database yet.
pub(crate) fn keep_names<R: Files<File = File>>(
    rt: &R,
    folder: &str,
    around: &str,
    save: &mut SaveFile,
) -> Result<(), Why> {
    if save.is_draft() {
        fill(&mut save.file)?;
    }
    sync_around(rt, around, save.is_in_new_folder())?;
    sync_folder(rt, folder)?;
    if let Some(draft) = &save.draft {
        fs::rename(rt, draft.path.as_str(), save.path.as_str())?;
        sync_folder(rt, folder)?;
    }
    Ok(())
}

// The lock stays on the file as it gets its name, so nobody opens it before this call ends.
fn fill(file: &mut File) -> Result<(), Why> {
    lock(file, Access::Alone)?;
    file.write_all(&NO_SAVEPOINT)?;
    file.sync_all()?;
    Ok(())
}
