//! The queues of subscribers.
//!
//! An event comes into them in two steps. `Queues::prepare` puts a copy of it behind the events of each queue that waits for
//! it, but no subscriber sees it yet; this is refused for memory alone. `Queues::commit` makes wait what was prepared; it takes
//! no memory and cannot be refused. So a call prepares, changes its page, and commits.
//!
//! A subscriber that reads nothing delays no call: if 1024 events wait for it, each one more makes the oldest go, and it gets the
//! number of those that it missed before it gets what is left.
//!
//! Contracts see the queues by subscriber (`specs/Values`), of which the model's queues are a part (`queues_of`). What each
//! call makes of them is in `specs/Queues`, and what it answers in `specs/Tells`.
#![tactic(auto)]

mod laws;
mod lists;
mod prefixes;
mod queues;
mod waiting;

pub use laws::{
    law_cancels, law_changes, law_copy, law_counts, law_delivers, law_delivers_all, law_follows,
    law_heard, law_hears, law_hears_all, law_serves, law_stays_calm, law_trees, law_turns,
};
pub use queues::Queues;
