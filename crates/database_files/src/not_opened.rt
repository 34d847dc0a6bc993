// How it is told that a database can't be opened.
ghost use Rattle.std.specs.Prelude.{◌≡◌};
ghost use Rattle.database_files.specs.declared.not_opened.NotOpened.TheVariants as refusals;

use outside::Device;
use std::alloc::{AllocError, AllocFailed};
use std::io::{self, ErrorKind};

/// Why the file of a device can't be had.
#[derive(Drop)]
pub enum Why {
    /// What the system said.
    System(io::Error),
    /// Another process has the database open.
    Locked,
    /// The savepoint is missing, and other files have bytes.
    Lost,
    /// The same, and the file of this path has a savepoint.
    Misplaced(String),
    /// It is no regular file: a folder, a pipe, a link or something else.
    NoFile,
    /// It is the file of this device too.
    Same(Device),
    /// It has more than one name, and would be written under each.
    SeveralNames,
    /// Standard streams are closed, and nothing could be put in their places.
    Closed,
}

impl Why {
    /// Whether something has that name already.
    pub(crate) fn is_taken(&self) -> bool {
        match self {
            Why::System(error) => error.kind() == ErrorKind::AlreadyExists,
            _ => false,
        }
    }

    /// Whether there is no file of that name.
    pub(crate) fn is_missing(&self) -> bool {
        match self {
            Why::System(error) => error.kind() == ErrorKind::NotFound,
            _ => false,
        }
    }
}

/// Why a database can't be opened.
#[derive(Drop)]
pub enum NotOpened {
    /// The file of a device can't be had, and why.
    Without(Device, Why),
    /// Memory was wanted.
    NoMemory,
}

impl From<AllocError> for NotOpened {
    ghost from_gives = { λ _ error. error ≡ refusals.NoMemory };

    fn from(_error: AllocError) -> NotOpened {
        NotOpened::NoMemory
    }
}

impl<T: Drop> From<AllocFailed<T>> for NotOpened {
    ghost from_gives = { λ _ error. error ≡ refusals.NoMemory };

    fn from(_error: AllocFailed<T>) -> NotOpened {
        NotOpened::NoMemory
    }
}

impl From<io::Error> for Why {
    fn from(error: io::Error) -> Why {
        Why::System(error)
    }
}
