//! A kit for authors of stores: files of lines that make calls of a store, run over any store and compared with what they should print.
//!
//! An author says by a `Trial` how an empty store is made, and, if the store has that, what a crash leaves of it, how calls are refused and
//! more. `exercise` is a whole program over such stores:
//!
//! ```text
//! struct Logs;
//!
//! impl Trial<LogPages> for Logs {
//!     fn empty(&self, alloc: Global) -> Result<LogPages> {
//!         Ok(LogPages::new(alloc))
//!     }
//! }
//!
//! fn main(rt: HostRuntime) -> ExitCode {
//!     exercise(&rt, &Logs)
//! }
//! ```
//!
//! Lines name pages and versions by their places among those that the store gave, so they say the same of each store. Beside calls of a
//! store, lines do with nodes and compare values, for which no store is asked.
#![tactic(auto)]

mod files;
mod keys;
mod line;
mod nodes;
mod program;
mod rebuild;
mod run;
mod store;
mod text;
mod trial;
mod values;

pub use files::check_file;
pub use program::{ended, exercise, words_of};
pub use trial::Trial;
