//! The words of lines: how they are read, as commands and batches, and how what comes of them is printed. No database is needed.
#![tactic(auto)]

pub mod batch;
pub mod command;
pub mod input;
pub mod print;
pub mod search;
pub mod words;
