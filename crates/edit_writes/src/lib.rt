//! A write of a batch, writes of a group, and calls of transactions, one at a time, each under the contract that it has; and a write with a
//! read behind it (`put_and_get`). The edits in `must-fail` show what those contracts rule out: each turns an argument, the answer, or what a call leaves.
#![tactic(auto)]

mod batch;
mod group;
mod inside;
mod running;

pub use batch::insert;
pub use group::{write, write_group};
pub use inside::{insert_at, put_and_get};
pub use running::transact;
