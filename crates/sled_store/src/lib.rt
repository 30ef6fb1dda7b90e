//! The contract of a store of pages.
//!
//! `Pages` is what every store has to keep. Each call is one equation between what the store means before it and after it,
//! so nothing else changes (`specs/Store`), and what a crash may leave is a function of that meaning (`specs/Crash`). A call
//! that is refused changes nothing, but that a fault is counted.
#![tactic(auto)]

mod page;
mod pages;

pub use page::{Page, View};
pub use pages::{Pages, law_given, law_sealed};
