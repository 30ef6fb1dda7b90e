//! What is seen of a case.
use sled::{TransactionError, TransactionResult};
use sled_nodes::{Error, Result};

/// Whether all that was seen so far is as it should be, or that a call was refused.
#[derive(Clone, Copy)]
pub enum Seen {
    Yes,
    No,
    Refused,
}

impl Seen {
    /// What is printed of it.
    pub fn word(self) -> &'static str {
        match self {
            Seen::Yes => "yes",
            Seen::No => "no",
            Seen::Refused => "refused",
        }
    }

    /// Whether all is as it should be.
    pub fn is_yes(self) -> bool {
        matches!(self, Seen::Yes)
    }

    /// What is seen of two things.
    pub fn and(self, other: Seen) -> Seen {
        match self {
            Seen::Yes => other,
            _ => self,
        }
    }

    /// What is seen of something that a call returns.
    pub fn of(is: Result<bool>) -> Seen {
        let mut seen = Seen::Yes;
        seen.told(is, true);
        seen
    }

    /// What is seen of a call that was refused.
    pub fn refused(e: Error) -> Seen {
        drop(e);
        Seen::Refused
    }

    /// Sees whether something is so.
    pub fn that(&mut self, is: bool) {
        if !is {
            *self = Seen::No;
        }
    }

    /// Tests whether a call returns this.
    pub fn told<T: PartialEq + Drop>(&mut self, told: Result<T>, wanted: T) {
        match told {
            Ok(told) => {
                self.that(told == wanted);
                drop(told);
            }
            Err(e) => *self = Seen::refused(e),
        }
        drop(wanted);
    }

    /// Tests whether two calls return the same.
    pub fn alike<T: PartialEq + Drop>(&mut self, one: Result<T>, other: Result<T>) {
        match one {
            Ok(one) => self.told(other, one),
            Err(e) => {
                drop(other);
                *self = Seen::refused(e);
            }
        }
    }

    /// Sees whether a call lists so many.
    pub fn counted<T: Drop>(&mut self, list: Result<Vec<T>>, count: usize) {
        match list {
            Ok(list) => {
                self.that(list.len() == count);
                drop(list);
            }
            Err(e) => *self = Seen::refused(e),
        }
    }

    /// Tests whether a transaction answers this, or is aborted for this reason.
    pub fn ended<T: PartialEq + Copy, A: PartialEq + Copy>(
        &mut self,
        ended: TransactionResult<T, A>,
        wanted: std::result::Result<T, A>,
    ) {
        match ended {
            Ok(answer) => self.that(wanted == Ok(answer)),
            Err(TransactionError::Abort(why)) => self.that(wanted == Err(why)),
            Err(TransactionError::Storage(e)) => *self = Seen::refused(e),
        }
    }

    /// Sees whether a call was made, whatever it answers.
    pub fn made<T: Drop>(&mut self, call: Result<T>) {
        match call {
            Ok(answer) => drop(answer),
            Err(e) => *self = Seen::refused(e),
        }
    }
}
