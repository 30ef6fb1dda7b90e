//! What decided calls answer.
ghost use Rattle.std.specs.Prelude.{◌≡◌, IfOk, IfErr};
ghost use Rattle.sled_nodes.specs.declared.error.Error.TheVariants.{NoMemory};

use crate::event::Next;
use crate::subscriber::Subscriber;
use crate::tree::Tree;
use sled_nodes::{IVec, Result, clone_pair, clone_value};
use std::fmt::{self, Display, Formatter, Write};

/// Why a value was not swapped: another one was at the key. Nothing was written.
#[derive(Debug, Drop, PartialEq, Eq, PartialOrd, Ord, Hash)]
pub struct CompareAndSwapError {
    /// The value at the key.
    pub current: Option<IVec>,
    /// The value that was to be set.
    pub proposed: Option<IVec>,
}

impl CompareAndSwapError {
    /// The same value. Refused with `NoMemory` alone.
    ///
    /// ```
    /// let told = conflict.clone()?; // The value that is there, and the one that was proposed.
    /// ```
    pub fn clone(&self) -> Result<CompareAndSwapError>
        ensures ok { IfOk result (λ copy. copy ≡ self.now) }
        ensures err { IfErr result (λ e. e ≡ NoMemory) }
    {
        Ok(CompareAndSwapError {
            current: clone_value(&self.current)?,
            proposed: clone_value(&self.proposed)?,
        })
    }
}

impl Display for CompareAndSwapError {
    fn fmt<W: Write>(&self, f: &mut Formatter<W>) -> fmt::Result {
        write!(f, "Compare and swap conflict")
    }
}

impl std::error::Error for CompareAndSwapError {}

/// What a decided call answers.
#[derive(Debug, Drop, PartialEq, Eq)]
pub enum Reply {
    /// The value that is or was at the key, if any.
    Value(Option<IVec>),
    /// Whether the value was swapped.
    Swapped(std::result::Result<(), CompareAndSwapError>),
    /// A number, as of a flush, or an id.
    Number(u64),
    /// A scan has given all its pairs.
    End,
    /// The call has done what it was to do, and has nothing to return.
    Done,
    /// The pair that was taken out, if there was one.
    Pair(Option<(IVec, IVec)>),
    /// The tree that was opened.
    Tree(Tree),
    /// Yes or no: whether there was a tree that could be dropped.
    Flag(bool),
    /// The subscriber that was added.
    Subscriber(Subscriber),
    /// What a subscriber gets next, if something waited for it.
    Next(Option<Next>),
}

impl Reply {
    /// The same reply. Refused with `NoMemory` alone.
    ///
    /// ```
    /// let kept = Reply::Number(5).clone()?; // Beside the one that goes to the caller.
    /// ```
    pub fn clone(&self) -> Result<Reply>
        ensures ok { IfOk result (λ copy. copy ≡ self.now) }
        ensures err { IfErr result (λ e. e ≡ NoMemory) }
    {
        match self {
            Reply::Value(value) => Ok(Reply::Value(clone_value(value)?)),
            Reply::Swapped(Ok(())) => Ok(Reply::Swapped(Ok(()))),
            Reply::Swapped(Err(conflict)) => Ok(Reply::Swapped(Err(conflict.clone()?))),
            Reply::Number(number) => Ok(Reply::Number(*number)),
            Reply::End => Ok(Reply::End),
            Reply::Done => Ok(Reply::Done),
            Reply::Pair(pair) => Ok(Reply::Pair(copied_pair(pair)?)),
            Reply::Tree(tree) => Ok(Reply::Tree(tree.clone()?)),
            Reply::Flag(flag) => Ok(Reply::Flag(*flag)),
            Reply::Subscriber(subscriber) => Ok(Reply::Subscriber(Subscriber(subscriber.0))),
            Reply::Next(next) => Ok(Reply::Next(clone_next(next)?)),
        }
    }
}

// The same pair, if there is one.
fn copied_pair(pair: &Option<(IVec, IVec)>) -> Result<Option<(IVec, IVec)>>
    ensures ok { IfOk result (λ copy. copy ≡ pair.now) }
    ensures err { IfErr result (λ e. e ≡ NoMemory) }
{
    let Some((key, value)) = pair else {
        return Ok(None);
    };
    Ok(Some(clone_pair(key, value)?))
}

// What a subscriber gets, if it gets something.
fn clone_next(next: &Option<Next>) -> Result<Option<Next>>
    ensures ok { IfOk result (λ copy. copy ≡ next.now) }
    ensures err { IfErr result (λ e. e ≡ NoMemory) }
{
    match next {
        Some(Next::Event(event)) => Ok(Some(Next::Event(event.clone()?))),
        Some(Next::Missed(count)) => Ok(Some(Next::Missed(*count))),
        None => Ok(None),
    }
}
