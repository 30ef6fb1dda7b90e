//! Why calls by a handle have no answer.
ghost use Rattle.std.specs.Prelude.{◌≡◌};
ghost use Rattle.machine_shared.specs.Notes.{IsEnd};
ghost use Rattle.machine_shared.specs.Replies.{ended_as};
ghost use Rattle.machine_shared.specs.declared.call_error.CallError.TheVariants as error;

use sled_model::{Outcome, Reply};
use sled_nodes::Error;
use std::fmt::{self, Display, Formatter, Write};

/// What a call by a handle returns that may be refused.
pub type CallResult<T> = std::result::Result<T, CallError>;

/// Why a call by a handle returns no reply.
#[derive(Debug, Drop, PartialEq, Eq)]
pub enum CallError {
    /// The call was refused.
    Refused(Error),
    /// The call's slot has it no more, as after another caller's step or `abandon`. A whole call takes no slot, so this is none of its errors.
    NoSuchSlot,
}

impl Display for CallError {
    fn fmt<W: Write>(&self, f: &mut Formatter<W>) -> fmt::Result {
        match self {
            CallError::Refused(e) => write!(f, "refused: {e}"),
            CallError::NoSuchSlot => f.write_str("no such slot"),
        }
    }
}

impl std::error::Error for CallError {}

impl From<Error> for CallError {
    ghost from_gives = { λ e made. made ≡ error.Refused e };

    fn from(e: Error) -> Self {
        CallError::Refused(e)
    }
}

/// The reply of a call that has ended, as `call`, its short forms and `whole` return it, or why it has none.
///
/// ```
/// let reply = reply_of(handle.get(rt, alloc, &tree, b"ulm"))?; // `Reply::Value(..)`.
/// ```
pub fn reply_of(outcome: Outcome) -> CallResult<Reply>
    requires { IsEnd outcome }
    ensures { outcome ≡ ended_as result }
{
    match outcome {
        Outcome::Decided(reply) => Ok(reply),
        Outcome::Refused(e) => Err(CallError::Refused(e)),
        Outcome::NoSuchSlot => Err(CallError::NoSuchSlot),
        _ => unreachable!(),
    }
}
