//! Why a case did not pass.
use sled_disk::DiskError;
use sled_files::OpenError;
use sled_nodes::Error;
use std::alloc::{AllocError, AllocFailed};
use std::fmt::{self, Display, Formatter, Write};

/// The outcome of a part of a case.
pub type Result<T> = std::result::Result<T, Trouble>;

/// Why a case did not pass.
#[derive(Drop)]
pub enum Trouble {
    NoMemory,
    /// A call of a disk was refused that should not.
    Disk(DiskError),
    /// Files were not opened that should be.
    Closed(OpenError),
    /// A call of a database was refused that should not.
    Refused(Error),
    /// The outcome is not the expected one.
    Wrong(&'static str),
}

impl Display for Trouble {
    fn fmt<W: Write>(&self, f: &mut Formatter<W>) -> fmt::Result {
        match self {
            Trouble::NoMemory => f.write_str("no memory"),
            Trouble::Disk(_) => f.write_str("a disk refused a call"),
            Trouble::Closed(e) => write!(f, "the files were not opened: {e}"),
            Trouble::Refused(e) => write!(f, "a call was refused: {e}"),
            Trouble::Wrong(words) => f.write_str(words),
        }
    }
}

impl From<AllocError> for Trouble {
    fn from(_: AllocError) -> Self {
        Trouble::NoMemory
    }
}

impl<T: Drop> From<AllocFailed<T>> for Trouble {
    fn from(_: AllocFailed<T>) -> Self {
        Trouble::NoMemory
    }
}

impl From<DiskError> for Trouble {
    fn from(e: DiskError) -> Self {
        Trouble::Disk(e)
    }
}

impl From<OpenError> for Trouble {
    fn from(e: OpenError) -> Self {
        Trouble::Closed(e)
    }
}

impl From<Error> for Trouble {
    fn from(e: Error) -> Self {
        Trouble::Refused(e)
    }
}

/// Nothing, if this holds, or else these words.
pub fn expect(holds: bool, words: &'static str) -> Result<()> {
    if holds {
        Ok(())
    } else {
        Err(Trouble::Wrong(words))
    }
}
