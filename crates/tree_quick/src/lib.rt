//! Whole calls on a key over a clean path, without a call in flight.
//!
//! If nothing is to be repaired on the way from the root to the leaf of a key, a call on it reads one page of each level. What the leaf
//! holds decides the call, which links its change at the version that it read. `make_quick` does that and no more: no stage is made, moved
//! or dropped at a page. Its contract says that a call in flight would have made the same steps. If something is to be repaired, or a page
//! is not there or cannot be read, it does nothing, and leaves the call to be made as one in flight.
#![tactic(auto)]

mod quick;

pub use quick::make_quick;
