//! Why bytes are not read.
ghost use Rattle.std.specs.Prelude.{◌≡◌};
ghost use Rattle.sled_bytes.specs.declared.refusal.Refusal.TheVariants.{NoMemory};

use std::alloc::{AllocError, AllocFailed};

/// What is wrong with bytes: the first flaw from the left.
#[derive(Clone, Copy)]
pub enum Flaw {
    /// They end too early.
    Short,
    /// A byte that says which of several kinds comes is none of them.
    Unknown,
}

/// Why bytes were not read.
#[derive(Drop)]
pub enum Refusal {
    /// There was no memory for what they encode.
    NoMemory,
    /// They encode nothing.
    Flawed(Flaw),
}

impl From<AllocError> for Refusal {
    ghost from_gives = { λ _ e. e ≡ NoMemory };

    fn from(_: AllocError) -> Self {
        Refusal::NoMemory
    }
}

impl<T: Drop> From<AllocFailed<T>> for Refusal {
    ghost from_gives = { λ _ e. e ≡ NoMemory };

    fn from(_: AllocFailed<T>) -> Self {
        Refusal::NoMemory
    }
}
