//! Whether the pages of a store are well formed.
//!
//! `verify_integrity` reads each tree level by level, from its root down, and each level from its first page on along `next`. Nothing is
//! known of the pages before: they may come from anywhere, and lead in circles. Each page is noted with the level on which it was found
//! (`levels`), and one that is found again is refused.
//!
//! What is well formed is said in `tree_laws`, and what a refusal says in `specs/Check`. The walk is proved from the root down: below each
//! level comes one level more (`specs/theory/Tree`), and beside the trees that were read one tree more (`specs/theory/Walk`).
#![tactic(auto)]

mod chain;
pub mod findings;
mod levels;
mod page;
mod pointers;
mod tree;
mod verify;

pub use verify::verify_integrity;
