//! The machine of a database: for one thread that steps its calls in flight, and in `shared` for several threads.
//!
//! `Machine` and its calls are in `machine_alone`, which is all that a program needs if one thread has the machine. What several threads share
//! is in `machine_shared`. Both are named again here.
#![tactic(auto)]

pub mod shared;

pub use machine_alone::{
    Batch, Call, Collection, CompareAndSwapError, Event, Job, Machine, MergeOperator, Next,
    Outcome, Reply, Slot, Step, Subscriber, Tree, Whole, law_extended, law_flushed, law_group,
    law_hears, law_scans, law_steps,
};
