//! How calls came out, and the subscribers that they got.

use crate::tell::{Result, Told, answered, tell, tell_shown};
use line_words::print::Piece::Text;
use line_words::print::{Shown, push_subscriber};
use sled_model::{Outcome, Reply, Subscriber};
use std::alloc::Global;

/// The subscribers that lines `watch` got since the opening, one after the other.
#[derive(Drop)]
pub struct Subscribers {
    got: Vec<Subscriber>,
}

impl Subscribers {
    /// None so far.
    pub fn empty(alloc: Global) -> Subscribers {
        Subscribers {
            got: Vec::new(alloc),
        }
    }

    /// None, as after an opening.
    pub fn clear(&mut self) {
        self.got.clear();
    }

    // Takes a subscriber down, and adds its line, by its number among those that lines got.
    fn push(&mut self, number: u64, out: &mut Told) -> Result<()> {
        self.got.push(Subscriber(number))?;
        answered(push_subscriber(&mut out.text, self.got.len() as u64))
    }

    /// The subscriber of this number among those that lines got.
    pub fn named(&self, number: u64) -> Option<Subscriber> {
        let place = usize::try_from(number.checked_sub(1)?).ok()?;
        let found = self.got.get(place)?;
        Some(Subscriber(found.0))
    }

    /// Adds the line of an outcome, by what the value or the number in its reply is. A subscriber is taken down.
    pub fn tell_outcome(&mut self, out: &mut Told, shown: Shown, outcome: &Outcome) -> Result<()> {
        match outcome {
            Outcome::Decided(Reply::Subscriber(subscriber)) => self.push(subscriber.0, out),
            outcome => tell_shown(out, shown, outcome),
        }
    }

    /// The same of what a call of a database answers.
    pub fn tell_answer(
        &mut self,
        out: &mut Told,
        shown: Shown,
        answer: sled_nodes::Result<Reply>,
    ) -> Result<()> {
        let outcome = match answer {
            Ok(reply) => Outcome::Decided(reply),
            Err(error) => Outcome::Refused(error),
        };
        let told = self.tell_outcome(out, shown, &outcome);
        drop(outcome);
        told
    }
}

/// Adds that no line got the subscriber.
pub fn tell_no_subscriber(out: &mut Told) -> Result<()> {
    tell(out, &[Text(b"no subscriber\n")])
}
