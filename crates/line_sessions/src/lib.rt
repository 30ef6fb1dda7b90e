//! Lines that ask for calls on a database over pages in memory, and the lines that they print.
#![tactic(auto)]

pub mod lines;
pub mod operator;
pub mod serve;
pub mod session;
