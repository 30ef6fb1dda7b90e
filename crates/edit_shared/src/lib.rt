//! Calls of a database that threads share one at a time, each under the contract that it has. The edits in `must-fail` show what those
//! contracts rule out: each turns an argument or the answer, makes another call, or makes none.
#![tactic(auto)]

mod callers;
mod gathering;
mod handle;
mod state;
mod transactions;

pub use callers::step_of_one;
pub use gathering::gather_one;
pub use handle::{call, read, step_by_handle};
pub use state::step;
pub use transactions::{transaction, transaction_of_one};
