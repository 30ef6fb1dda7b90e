//! How many cases there were, and how many passed.
use crate::Report;
use crate::trouble::Result;
use std::fmt::{self, Display, Formatter, Write};

/// What a case is called: words, and two numbers.
#[derive(Clone, Copy, Drop)]
pub struct Numbered<'a> {
    pub words: &'a str,
    pub first: u64,
    pub second: u64,
}

impl Display for Numbered<'_> {
    fn fmt<W: Write>(&self, f: &mut Formatter<W>) -> fmt::Result {
        write!(f, "{}, {}, {}", self.words, self.first, self.second)
    }
}

/// How many cases there were, and how many passed.
#[derive(Drop)]
pub struct Tally<'a> {
    report: &'a Report,
    cases: u64,
    passed: u64,
}

impl<'a> Tally<'a> {
    pub fn new(report: &'a Report) -> Tally<'a> {
        Tally {
            report,
            cases: 0,
            passed: 0,
        }
    }

    /// Counts a case. Reports one that failed, with these words.
    pub fn count(&mut self, case: Result<()>, words: impl Display + Drop) {
        self.cases = self.cases.saturating_add(1);
        match case {
            Ok(()) => {
                drop(words);
                self.passed = self.passed.saturating_add(1);
            }
            Err(e) => self.report.tell_failed(format_args!("{words}: {e}")),
        }
    }

    /// Reports how many cases there were, and how many passed.
    pub fn tell(&self, words: impl Display + Drop) {
        self.report.tell(format_args!("{words}: {} cases, {} passed", self.cases, self.passed));
    }
}
