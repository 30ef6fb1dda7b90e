//! A disk that brings a block of a log and its open gate to another disk in one sync (`OneSync`).
//!
//! Whoever adds a block in two syncs (`append`) writes it behind a closed gate, syncs, opens the gate, and syncs again. `OneSync` holds the block
//! back, answers the first sync by itself, and hands block and gate on with the second. What it shows and what it says a crash leaves is
//! what it would be after both syncs, by a record of its calls. What the disk behind it is really left with is read as one of these
//! (`law_read_as_left`), if the digest tells a torn block from the one that was written.
#![tactic(auto)]

mod holding;
mod once;
mod stage;
mod steps;

pub use once::{OneSync, law_read_as_left};
