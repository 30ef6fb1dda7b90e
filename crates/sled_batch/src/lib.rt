//! Writes of several keys that are to be made together.
//!
//! A `Batch` keeps one write a key, the last one, in the order of the keys (`specs/Batch`).
#![tactic(auto)]

mod batch;

pub use batch::Batch;
