//! Subscribers of a database.
ghost use Rattle.std.specs.Prelude.{◌≡◌, Ok};

use sled_nodes::Result;
use std::marker::Model;

/// Names a subscriber, and by it the queue of its events. Subscribers are numbered from 1, in order of the calls that made
/// them, and no number is given twice between one opening of a database and the next.
#[derive(Debug, Drop, PartialEq, Eq)]
pub struct Subscriber(pub u64);

impl Model for Subscriber {
    ghost use Rattle.std.specs.Prelude.{ℕ};

    ghost Value = { ℕ };

    ghost view = { λ s. s.0 };

    ghost inverse = { λ n. record { 0 = n } };
}

impl Subscriber {
    /// The same subscriber. This is never refused; it answers a `Result` as the copies of other values do.
    ///
    /// ```
    /// let same = subscriber.clone()?; // Names the same queue.
    /// ```
    pub fn clone(&self) -> Result<Subscriber>
        ensures { result ≡ Ok self.now }
    {
        Ok(Subscriber(self.0))
    }
}
