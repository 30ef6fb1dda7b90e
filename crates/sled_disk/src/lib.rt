//! A file as a store sees it: what a read returns, and what a crash at any moment may leave.
//!
//! Between two syncs a write may be lost, torn or take another's place in the order; bytes outside of what was written
//! stay. `Disk` says so of any file, and `MemoryDisk` is one in memory, for tests, whose `crash` leaves an outcome that the
//! test chooses by numbers.
#![tactic(auto)]

mod choices;
mod disk;
mod laws;
mod memory;

pub use choices::Choices;
pub use disk::{Disk, DiskError, Result, law_counts_now, law_may_stay, law_only_now};
pub use laws::law_chooses_all;
pub use memory::MemoryDisk;
