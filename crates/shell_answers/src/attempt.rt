//! One attempt of a transaction: its parts are done one after the other, and what each of them answers is taken down.

use crate::inside::Answer;
use line_words::print::Piece::{self, Number, Text, Word};
use line_words::print::{push_pieces, push_refused, push_text};
use shell_words::script::{Act, End, Part, Script};
use sled::{
    ConflictableTransactionError, ConflictableTransactionResult, UnabortableTransactionError,
    UnabortableTransactionResult, abort,
};
use sled_nodes::Result;
use std::alloc::Global;

/// Why a transaction is aborted.
#[derive(Clone, Copy)]
pub enum GivenUp {
    /// It says so.
    Asked,
    /// There is no memory for what it prints.
    Stopped,
}

/// The outcome of an attempt.
pub type Attempted = ConflictableTransactionResult<(), GivenUp>;

/// What the parts of an attempt answered.
#[derive(Drop)]
pub(crate) struct Answers {
    // A line for each part.
    pub(crate) text: Vec<u8>,
    // Whether the last part was refused.
    pub(crate) is_refused: bool,
    // The id that was taken last, or 0.
    last_id: u64,
}

// What the line of an answer begins with.
fn name_of(act: &Act) -> &'static [u8] {
    match act {
        Act::Get(_) => b"in value ",
        Act::Insert(_, _) | Act::Remove(_) => b"in old ",
        Act::Batch(_) | Act::Flush => b"in done",
        Act::Id => b"in number ",
    }
}

// .. and what it says behind that.
fn piece_of(answer: &Answer) -> Piece<'_> {
    match answer {
        Answer::Value(Some(value)) => Word(value.as_ref()),
        Answer::Value(None) => Text(b"-"),
        Answer::Id(id) => Number(*id),
        Answer::Done => Text(b""),
    }
}

impl Answers {
    /// None so far.
    pub(crate) fn none(alloc: Global) -> Answers {
        Answers {
            text: Vec::new(alloc),
            is_refused: false,
            last_id: 0,
        }
    }

    // Adds the line of what a part answers, or of its refusal.
    fn take_down(&mut self, act: &Act, done: &UnabortableTransactionResult<Answer>) -> Result<()> {
        if let Ok(Answer::Id(id)) = done {
            self.last_id = *id;
        }
        match done {
            Ok(answer) => push_pieces(
                &mut self.text,
                &[Text(name_of(act)), piece_of(answer), Text(b"\n")],
            ),
            Err(UnabortableTransactionError::Storage(error)) => {
                self.is_refused = true;
                push_text(&mut self.text, b"in ")?;
                push_refused(&mut self.text, error)
            }
            Err(UnabortableTransactionError::Conflict) => Ok(()),
        }
    }

    /// Takes down what a part answered: whether the attempt goes on.
    pub(crate) fn take(
        &mut self,
        part: &Part,
        done: UnabortableTransactionResult<Answer>,
    ) -> Attempted {
        match self.take_down(&part.act, &done) {
            Ok(()) => Ok(drop(done?)),
            Err(error) => {
                drop(error);
                drop(done);
                abort(GivenUp::Stopped)
            }
        }
    }

    /// Ends an attempt as its script says.
    pub(crate) fn end(&self, script: &Script) -> Attempted {
        match script.end {
            End::Abort => abort(GivenUp::Asked),
            End::Conflict => Err(ConflictableTransactionError::Conflict),
            End::ConflictBelow(number) if self.last_id < number => {
                Err(ConflictableTransactionError::Conflict)
            }
            End::Commit | End::ConflictBelow(_) => Ok(()),
        }
    }
}
