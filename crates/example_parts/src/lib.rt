//! What the crates of examples share: numbers in values and the merge operator that adds them, and what a reader finds in the maps of a
//! database. Its lemmas say what calls and crashes make of these maps.
#![tactic(auto)]

mod numbers;

pub use numbers::{Adds, add_to, number_at};
