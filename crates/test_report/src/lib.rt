//! What programs of tests print, and whether something failed that should not; and for cases of disks that crash how many passed, why one did
//! not (`trouble`), and what crashes leave (`seeds`).
#![tactic(auto)]

pub mod seeds;
mod tally;
pub mod trouble;

use sled_nodes::{IVec, Result};
use std::alloc::Global;
use std::cell::Cell;
use std::fmt::{Debug, Display};
use std::process::ExitCode;
pub use tally::{Numbered, Tally};

/// Where lines are printed, and whether something failed that should not.
#[derive(Drop)]
pub struct Report {
    rt: HostRuntime,
    has_failed: Cell<bool>,
}

impl Report {
    pub fn new(rt: HostRuntime) -> Report {
        Report {
            rt,
            has_failed: Cell::new(false),
        }
    }

    pub fn alloc(&self) -> Global {
        self.rt.alloc()
    }

    /// How the program ends: as a failure if a line was not printed, or something failed that should not.
    pub fn status(&self) -> ExitCode {
        if self.has_failed.get() {
            ExitCode::FAILURE
        } else {
            ExitCode::SUCCESS
        }
    }

    /// Something failed.
    pub fn fail(&self) {
        self.has_failed.set(true);
    }

    /// Prints a line.
    pub fn tell(&self, line: impl Display + Drop) {
        if self.rt.println(line).is_err() {
            self.fail();
        }
    }

    /// Prints a line of something that failed.
    pub fn tell_failed(&self, line: impl Display + Drop) {
        self.fail();
        self.tell(line);
    }

    /// Prints a line of these words and a value, and drops the value.
    pub fn show<T: Debug + Drop>(&self, words: &str, value: T) {
        self.tell(format_args!("{words}: {value:?}"));
        drop(value);
    }

    /// What a call answers that should not fail.
    pub fn keep<T: Drop, E: Drop>(&self, answer: std::result::Result<T, E>) -> Option<T> {
        if answer.is_err() {
            self.fail();
        }
        answer.ok()
    }

    /// Puts what a call answers to the others.
    pub fn add<T: Drop>(&self, values: &mut Vec<T>, answer: Result<T>) {
        if let Some(value) = self.keep(answer) {
            self.keep(values.push(value));
        }
    }

    /// A byte string.
    pub fn bytes(&self, bytes: &[u8]) -> Option<IVec> {
        self.keep(IVec::from_slice(self.alloc(), bytes))
    }

    /// Two byte strings.
    pub fn pair(&self, one: &[u8], other: &[u8]) -> Option<(IVec, IVec)> {
        self.bytes(one).zip(self.bytes(other))
    }
}

/// Whether a copy is the same.
pub fn is_same<T: PartialEq + Drop>(value: &T, copy: Result<T>) -> Result<bool> {
    let copy = copy?;
    let is_same = copy == *value;
    drop(copy);
    Ok(is_same)
}
