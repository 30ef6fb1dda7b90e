//! A number that threads raise in a database that they share, over a crash: from the sharing to what is found again, proved from public
//! contracts alone.
#![tactic(auto)]

mod beside;
mod crash;
mod way;

pub use crash::Left;
pub use way::{Crashed, Stopped, raise_and_crash};
