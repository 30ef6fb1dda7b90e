//! Transactions that are proved from public contracts alone, as a user would write them. `transfers` moves an amount between two counters
//! of a tree, `jobs` takes jobs from one tree to another, and `indexed` keeps an index of a table in step with it. What each of them keeps
//! it keeps over crashes too (`throughout`).
#![tactic(auto)]

mod indexed;
mod jobs;
mod throughout;
mod transfers;

pub use indexed::{EmailTaken, put_indexed};
pub use jobs::take_job;
pub use throughout::{recover, settle};
pub use transfers::{TransferError, transfer, transfer_and_crash};
