//! A store in two files whose blocks are brought to the disk in one sync each, in place of two (`open_once`).
//!
//! It trusts the digest where the form with two syncs needs not: what a crash leaves of a block is told from the block by its digest alone. And a
//! block that has decayed ends the log, as a torn one does, so the blocks behind it are lost, and the opening does not say so.
#![tactic(auto)]

mod mending;
mod opening;

pub use mending::mend_store;
pub use opening::{law_lasts_as_read, law_mended_lasts, mend_both, open_mended, open_once};
pub use sled_once::OneSync;
