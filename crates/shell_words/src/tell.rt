//! What is printed of an answer, why a call was refused, and words that are read.

use line_words::input::Stopped;
use line_words::print::Piece::{Number, Text};
use line_words::print::{Piece, Shown, push_outcome, push_pieces, push_refused, push_text};
use line_words::words::read_word;
use sled_model::Outcome;
use sled_nodes::{Error, IVec};
use std::alloc::Global;
use std::io::Write;

/// The outcome of printing.
pub type Result<T> = std::result::Result<T, Stopped>;

/// What was answered, if that was not refused.
pub fn answered<T: Drop>(answer: sled_nodes::Result<T>) -> Result<T> {
    match answer {
        Ok(value) => Ok(value),
        Err(error) => {
            drop(error);
            Err(Stopped)
        }
    }
}

/// What is to be printed, and the text of the last refusal.
#[derive(Drop)]
pub struct Told {
    pub text: Vec<u8>,
    pub why: Vec<u8>,
    // Whether the text of a refusal follows its number.
    explains: bool,
}

impl Told {
    /// Nothing so far.
    pub fn new(alloc: Global, explains: bool) -> Told {
        Told {
            text: Vec::new(alloc),
            why: Vec::new(alloc),
            explains,
        }
    }

    // Adds the line of a refusal, and takes its text down.
    fn refuse(&mut self, error: &Error) -> Result<()> {
        self.why.clear();
        if write!(&mut self.why, "{error}").is_err() {
            return Err(Stopped);
        }
        answered(push_refused(&mut self.text, error))?;
        if self.explains {
            self.text.truncate(self.text.len().saturating_sub(1));
            return push_line(&mut self.text, b": ", self.why.as_slice());
        }
        Ok(())
    }
}

// Adds a line of a text and a byte string.
fn push_line(out: &mut Vec<u8>, text: &[u8], bytes: &[u8]) -> Result<()> {
    answered(push_text(out, text))?;
    answered(push_text(out, bytes))?;
    answered(push_text(out, b"\n"))
}

/// Adds pieces, one after the other.
pub fn tell(out: &mut Told, pieces: &[Piece<'_>]) -> Result<()> {
    answered(push_pieces(&mut out.text, pieces))
}

/// Adds a number between two texts.
pub fn tell_numbered(
    out: &mut Told,
    before: &'static [u8],
    number: u64,
    behind: &'static [u8],
) -> Result<()> {
    tell(out, &[Text(before), Number(number), Text(behind)])
}

/// Adds the line of an outcome, by what the value or the number in its reply is.
pub fn tell_shown(out: &mut Told, shown: Shown, outcome: &Outcome) -> Result<()> {
    match outcome {
        Outcome::Refused(error) => out.refuse(error),
        outcome => answered(push_outcome(&mut out.text, shown, outcome)),
    }
}

/// Adds the line of an outcome.
pub fn tell_outcome(out: &mut Told, outcome: &Outcome) -> Result<()> {
    tell_shown(out, Shown::Value, outcome)
}

/// Adds the line of a refusal.
pub fn tell_refused(out: &mut Told, error: Error) -> Result<()> {
    let told = out.refuse(&error);
    drop(error);
    told
}

/// Adds the text of the last refusal, or `-` if nothing was refused.
pub fn tell_why(out: &mut Told) -> Result<()> {
    if out.why.is_empty() {
        return push_line(&mut out.text, b"why ", b"-");
    }
    push_line(&mut out.text, b"why ", out.why.as_slice())
}

/// Adds `yes` or `no`.
pub fn tell_whether(out: &mut Told, is: bool) -> Result<()> {
    let word: &[u8] = if is { b"yes\n" } else { b"no\n" };
    tell(out, &[Text(word)])
}

/// Adds how often a call went on, if it is in flight.
pub fn tell_turns(out: &mut Told, turns: Option<u64>) -> Result<()> {
    match turns {
        Some(turns) => tell_numbered(out, b"number ", turns, b"\n"),
        None => tell(out, &[Text(b"no slot\n")]),
    }
}

/// The byte string of a word.
pub fn bytes_of(alloc: Global, word: &[u8]) -> Result<IVec> {
    answered(read_word(alloc, word))?.ok_or(Stopped)
}
