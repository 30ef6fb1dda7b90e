//! Public calls one at a time, each under the contract that it has. The edits in `must-fail` show what those contracts rule out:
//! each turns an argument or the answer, makes another call, or makes none.
#![tactic(auto)]

mod closed;
mod database;
mod direct;
mod imports;
mod kept;
mod machine;
mod opening;
mod reads;
mod scans;
mod transactions;

pub use closed::get_closed;
pub use database::{advance, close, drop_tree};
pub use direct::remove;
pub use imports::import;
pub use kept::get_kept;
pub use machine::step;
pub use opening::reopen_accepted;
pub use reads::scan_prefix;
pub use scans::end_scan;
pub use transactions::transaction;
