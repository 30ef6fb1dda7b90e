//! The machine: a database and the calls in flight on it. One step does at most one page action of one call. A scan gives its pairs one
//! at a step, and what it gives over all of them is a law (`specs/Scans`).
//!
//! Each call of a machine is one step of the model, in whatever order calls are stepped, and says what it adds to the maps
//! that a crash may leave. Over a list of steps those are the maps at the last flush and after each decided call since
//! (`specs/Step`, `specs/CrashMaps`, `specs/Run`). Between two steps all that the calls in flight know of the pages is true (`specs/Sound`).
#![tactic(auto)]

mod flights;
mod laws;
mod machine;
mod whole;

pub use laws::{law_extended, law_flushed, law_group, law_hears, law_scans, law_steps};
pub use machine::Machine;
pub use sled_batch::Batch;
pub use sled_model::{
    Call, Collection, CompareAndSwapError, Event, MergeOperator, Next, Outcome, Reply, Slot, Step,
    Subscriber, Tree, Whole,
};
pub use sled_tree::Job;
