//! What the shell does over a database that lives in memory or in files: openings, checks, reads and drawings, calls with a machine round
//! it and without, transactions, and a session of lines from opening to opening. It is safe, and what it prints is tested, not proved.
#![tactic(auto)]

pub mod again;
mod asks;
pub mod attempt;
pub mod check;
pub mod drawn;
pub mod fetch;
pub mod fill;
pub mod held;
pub mod home;
mod input;
mod inside;
pub mod known;
pub mod look;
pub mod memory;
pub mod owned;
pub mod session_transactions;
pub mod shell;
mod state;
pub mod stats;
pub mod store;
pub mod transactions;
