//! Threads that share a database, proved from public contracts alone, as a user would write them. Each module has what one thread does by
//! its handle, and what that adds to the handle's list. It also has laws of what all threads do together, over every legal history.
//! `counting` adds one to a number by a merge. `raising` reads a number and swaps it for the next, and does so again if another thread came
//! between. `queueing` puts jobs into a tree and takes them out. `places` has the law of what leaves a key as it is, which the others ask
//! for. `way` goes the whole way: it shares a database, has threads raise a number, and takes the database back.
//!
//! A program that has gathered a state knows that its history is legal, and that each handle's list is that of its entries. So what the
//! laws say of a history they say of what the threads did.
#![tactic(auto)]

mod adding;
mod counting;
mod places;
mod queueing;
mod raising;
mod way;

pub use adding::{UsedUp, raise_at_once};
pub use counting::{add_one, law_merges};
pub use places::law_leaves;
pub use queueing::{law_queue, push, take};
pub use raising::{Raised, law_crashed, law_raised, law_raises, law_shares, law_swaps, raise};
pub use way::raise_together;
