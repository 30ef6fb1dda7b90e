//! What a database is and what its calls do, without pages.
//!
//! `specs/` has the state of a database and one machine step by cases; contracts of the crates above cite them. The
//! types here are the values that they speak of: trees, calls, replies, steps and their outcomes.
#![tactic(auto)]

mod batches;
mod call;
mod collection;
mod decision;
mod event;
mod operator;
mod outcome;
mod reply;
mod subscriber;
mod tree;

pub use call::{Call, Whole};
pub use collection::Collection;
pub use decision::{Decision, Effect};
pub use event::{Event, Next};
pub use operator::MergeOperator;
pub use outcome::{Outcome, Slot, Step};
pub use reply::{CompareAndSwapError, Reply};
pub use sled_batch::Batch;
pub use subscriber::Subscriber;
pub use tree::Tree;

/// A call whose turns are this many is refused at its next step.
pub const MAX_LOOPS: u64 = 1_000_000;

/// So many events wait in a subscriber's queue at the most. If one more comes, the oldest goes and is counted.
pub const QUEUE_LIMIT: usize = 1024;

const _: () = prove!(MAX_LOOPS == 1_000_000);

const _: () = prove!(QUEUE_LIMIT == 1024);
