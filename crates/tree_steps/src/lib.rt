//! One step of a call in flight, over the pages and the queues of subscribers.
//!
//! It is a step over the pages alone (`sled_tree`, and `tree_scans` for a scan), and if it links a change, the event waits in each queue
//! for its key from then on (`step`). A program that records the outcomes of calls keeps copies of the reply (`keep`).
#![tactic(auto)]

mod keep;
mod step;

pub use keep::Keep;
pub use step::step_over;
