//! Why a call is refused.
ghost use Rattle.std.specs.Prelude.{◌≡◌, IfOk, IfErr};
ghost use Rattle.sled_nodes.specs.declared.error.Error.TheVariants.{NoMemory};

use crate::IVec;
use std::alloc::{AllocError, AllocFailed};
use std::fmt::{self, Display, Formatter, Write};

/// What a call answers that may be refused.
pub type Result<T> = std::result::Result<T, Error>;

/// The code of a fault of the store's device, or of a finding of `verify_integrity`.
#[derive(Clone, Copy, Debug, PartialEq, Eq)]
pub struct Fault(pub u32);

/// Why a call was refused.
#[derive(Debug, PartialEq, Eq, Drop)]
pub enum Error {
    /// The tree of this name was dropped since the `Tree` value was made.
    CollectionNotFound(IVec),
    /// The call asks for what there is not; the text says what.
    Unsupported(&'static str),
    /// A walk went on for too many steps, or a transaction met conflicts a million times; the text says which.
    ReportableBug(&'static str),
    /// The store's device failed, or a page cannot be read.
    Io(Fault),
    /// The pages are not well formed. With code 10 a group is open in them, and nothing else is said of them.
    Corruption(Fault),
    /// There was no memory for what the call needs.
    NoMemory,
    /// A group of writes was refused midway, and the database is closed.
    Closed,
}

impl Error {
    /// The same error. Refused with `NoMemory` alone.
    ///
    /// ```
    /// let told = error.clone()?; // With the name of the tree that is not there, say.
    /// ```
    pub fn clone(&self) -> Result<Error>
        ensures ok { IfOk result (λ copy. copy ≡ self.now) }
        ensures err { IfErr result (λ e. e ≡ NoMemory) }
    {
        Ok(match self {
            Error::CollectionNotFound(name) => Error::CollectionNotFound(name.clone()?),
            Error::Unsupported(text) => Error::Unsupported(text),
            Error::ReportableBug(text) => Error::ReportableBug(text),
            Error::Io(fault) => Error::Io(*fault),
            Error::Corruption(fault) => Error::Corruption(*fault),
            Error::NoMemory => Error::NoMemory,
            Error::Closed => Error::Closed,
        })
    }
}

impl Display for Error {
    fn fmt<W: Write>(&self, f: &mut Formatter<W>) -> fmt::Result {
        match self {
            Error::CollectionNotFound(_) => f.write_str("collection not found"),
            Error::Unsupported(text) => write!(f, "unsupported: {text}"),
            Error::ReportableBug(text) => write!(f, "reportable bug: {text}"),
            Error::Io(fault) => write!(f, "io fault {}", fault.0),
            Error::Corruption(fault) => write!(f, "corruption {}", fault.0),
            Error::NoMemory => f.write_str("no memory"),
            Error::Closed => f.write_str("closed"),
        }
    }
}

impl std::error::Error for Error {}

impl From<AllocError> for Error {
    ghost from_gives = { λ _ e. e ≡ NoMemory };

    fn from(_: AllocError) -> Self {
        Error::NoMemory
    }
}

impl<T: Drop> From<AllocFailed<T>> for Error {
    ghost from_gives = { λ _ e. e ≡ NoMemory };

    fn from(_: AllocFailed<T>) -> Self {
        Error::NoMemory
    }
}
