//! What a database does with the pages of whole trees.
//!
//! The collections of trees are read from the pages as they are, and nothing is repaired (`export`), and so is how large the trees are
//! (`stats`). Of a tree that is dropped the root goes, and then its pages do, one after the other (`drop`). What these leave of all else
//! the caller states, since it knows which calls are in flight.
#![tactic(auto)]

mod drop;
mod export;
mod stats;

pub use drop::drop_root;
pub use export::collections_of;
pub use stats::{Stats, stats_of};
