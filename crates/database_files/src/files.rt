// The database directory: a folder with a file for each device.
ghost use Rattle.std.specs.Prelude.{◌≡◌, length, IfErr, IfOk, OnOk};
ghost use Rattle.log_writer.specs.Vault.{IsWhole};
ghost use Rattle.database_files.specs.Opening.{IsWithout};

use crate::kinds::{Inode, look_at_names, recognize};
use crate::not_opened::{NotOpened, Why};
use crate::opening::{Access, open_or_make};
use crate::paths::device_path;
use crate::save_file::{SaveFile, keep_names, open_save};
use log_writer::{Records, Vault};
use outside::{Device, FileDisk, MemDisk};
use std::alloc::{AllocError, Global};
use std::fs::{File, Files};

/// Log files of even and of odd number.
const BANKS: u8 = 8;

/// A database that was opened.
#[derive(Drop)]
pub struct Opened {
    pub vault: Vault<FileDisk>,
    /// Whether there was none, and it was made.
    pub is_new: bool,
}

/// Opens the files of a folder, which is made where it is missing, as are the files: the savepoint's with 1,024 zero
/// bytes, the others empty. What is made is there for good before anything is written to it. To a call that writes so
/// is what others made, whatever they synced. Nothing is removed or cut that this call didn't make.
///
/// Each is a regular file, and no other device's: else nothing is read of any. To a call that writes it has one name
/// alone, since a copy by hard links would change with it. Of the files that can't be had for one reason the first is
/// answered, in the order save, snaps, bank0, bank1 and on.
///
/// While a database is open no other process opens it, but for several that only read it. A folder that has files with
/// bytes and no savepoint is no new database: then `save` can't be had.
pub fn open_vault<R: Files<File = File>>(
    rt: &R,
    alloc: Global,
    folder: &str,
    access: Access,
) -> Result<Opened, NotOpened>
    ensures whole { IfOk result (λ opened. IsWhole opened.vault) }
{
    let has_bytes = look_at_names(rt, alloc, folder)?;
    let mut save = open_save(rt, alloc, folder, access, has_bytes)?;
    let mut others = Others {
        rt,
        alloc,
        folder,
        access,
        made: None,
        linked: None,
        known: Vec::new(alloc),
    };
    let mut even = Vec::new(alloc);
    let mut odd = Vec::new(alloc);
    let snaps = others.open_or_undo(&mut save, &mut even, &mut odd)?;
    Ok(Opened {
        is_new: save.is_draft(),
        vault: Vault {
            save: FileDisk::new(save.into_file()),
            snaps,
            even,
            odd,
            ties: Records::new(alloc),
            cuts: Records::new(alloc),
        },
    })
}

// A device's file, as the system knows it.
#[derive(Clone, Copy)]
struct Known {
    device: Device,
    inode: Inode,
}

// The files beside the savepoint's, as they are opened or made.
#[derive(Drop)]
struct Others<'a, R: Files<File = File>> {
    rt: &'a R,
    alloc: Global,
    folder: &'a str,
    access: Access,
    // The first that was missing.
    made: Option<Device>,
    // The first that has several names.
    linked: Option<Device>,
    // Those that are open, the savepoint's among them.
    known: Vec<Known>,
}

impl<'a, R: Files<File = File>> Others<'a, R> {
    // Opens all of them. Where that fails, the draft of a savepoint's file is removed.
    fn open_or_undo(
        &mut self,
        save: &mut SaveFile,
        even: &mut Vec<FileDisk>,
        odd: &mut Vec<FileDisk>,
    ) -> Result<FileDisk, NotOpened>
        requires even { length even.old.items ≡ 0 }
        requires odd { length odd.old.items ≡ 0 }
        ensures even { OnOk result (length even.new.items ≡ 8) }
        ensures odd { OnOk result (length odd.new.items ≡ 8) }
    {
        let outcome = self.open_all(save, even, odd);
        if outcome.is_err() {
            save.remove_draft(self.rt);
        }
        outcome
    }

    // Opens all of them, and makes their names stay there. The lists are lent: what is owned at a `?` costs a proof.
    fn open_all(
        &mut self,
        save: &mut SaveFile,
        even: &mut Vec<FileDisk>,
        odd: &mut Vec<FileDisk>,
    ) -> Result<FileDisk, NotOpened>
        requires even { length even.old.items ≡ 0 }
        requires odd { length odd.old.items ≡ 0 }
        ensures even { OnOk result (length even.new.items ≡ 8) }
        ensures odd { OnOk result (length odd.new.items ≡ 8) }
    {
        self.admit(Device::Save, &save.file)?;
        let snaps = self.open(Device::Snaps)?;
        self.open_logs(even, odd)?;
        self.check_links()?;
        self.stay(save)?;
        Ok(snaps)
    }

    // Opens the log files, one of even and one of odd number in turn.
    fn open_logs(
        &mut self,
        even: &mut Vec<FileDisk>,
        odd: &mut Vec<FileDisk>,
    ) -> Result<(), NotOpened>
        requires even { length even.old.items ≡ 0 }
        requires odd { length odd.old.items ≡ 0 }
        ensures even { OnOk result (length even.new.items ≡ 8) }
        ensures odd { OnOk result (length odd.new.items ≡ 8) }
    {
        for worker in 0..BANKS {
            even.push(self.open(Device::Bank(2 * worker))?)?;
            odd.push(self.open(Device::Bank(2 * worker + 1))?)?;
        }
        Ok(())
    }

    fn open(&mut self, device: Device) -> Result<FileDisk, NotOpened>
        ensures { IfErr result (IsWithout device) }
    {
        let path = device_path(self.alloc, self.folder, device)?;
        match self.open_or_make(device, path.as_str()) {
            Ok(file) => {
                self.admit(device, &file)?;
                Ok(FileDisk::new(file))
            }
            Err(why) => Err(NotOpened::Without(device, why)),
        }
    }

    fn open_or_make(&mut self, device: Device, path: &str) -> Result<File, Why> {
        let (file, was_made) = open_or_make(self.rt, self.access, path)?;
        if was_made {
            self.made = self.made.or(Some(device));
        }
        Ok(file)
    }

    // Notes which file a device has, and refuses one that another device has.
    fn admit(&mut self, device: Device, file: &File) -> Result<(), NotOpened>
        ensures { IfErr result (IsWithout device) }
    {
        match self.recognize(device, file) {
            Ok(inode) => {
                self.known.push(Known { device, inode })?;
                Ok(())
            }
            Err(why) => Err(NotOpened::Without(device, why)),
        }
    }

    fn recognize(&mut self, device: Device, file: &File) -> Result<Inode, Why> {
        let (inode, has_one_name) = recognize(file)?;
        if !has_one_name {
            self.linked = self.linked.or(Some(device));
        }
        match owner_of(&self.known, inode) {
            Some(other) => Err(Why::Same(other)),
            None => Ok(inode),
        }
    }

    // Refuses files of several names, unless they are only read.
    fn check_links(&self) -> Result<(), NotOpened> {
        match self.linked {
            Some(device) if self.access == Access::Alone => {
                Err(NotOpened::Without(device, Why::SeveralNames))
            }
            _ => Ok(()),
        }
    }

    // Makes what was made stay there, and before a call that writes whatever is there. Where that fails, the first
    // that was made can't be had, or the savepoint's.
    fn stay(&self, save: &mut SaveFile) -> Result<(), NotOpened> {
        let first = if save.is_draft() || self.access == Access::Alone {
            Some(Device::Save)
        } else {
            self.made
        };
        let Some(device) = first else {
            return Ok(());
        };
        let folder = self.folder;
        let around = format!(in self.alloc; "{folder}/..")?;
        match keep_names(self.rt, folder, around.as_str(), save) {
            Ok(()) => Ok(()),
            Err(why) => Err(NotOpened::Without(device, why)),
        }
    }
}

// The device that has a file already.
fn owner_of(known: &[Known], inode: Inode) -> Option<Device> {
    for other in known {
        if other.inode == inode {
            return Some(other.device);
        }
    }
    None
}

/// A database of no bytes and no files, for calls that leave the database alone.
pub fn no_vault(alloc: Global) -> Result<Vault<MemDisk>, AllocError>
    ensures { IfOk result IsWhole }
{
    let mut even = Vec::new(alloc);
    let mut odd = Vec::new(alloc);
    for _worker in 0..BANKS {
        even.push(no_bytes(alloc)?)?;
        odd.push(no_bytes(alloc)?)?;
    }
    Ok(Vault {
        save: no_bytes(alloc)?,
        snaps: no_bytes(alloc)?,
        even,
        odd,
        ties: Records::new(alloc),
        cuts: Records::new(alloc),
    })
}

fn no_bytes(alloc: Global) -> Result<MemDisk, AllocError> {
    MemDisk::new(alloc, Vec::new(alloc), Vec::new(alloc))
}
