//! Reads by callers under one lock, and what they returned.
ghost use Rattle.std.specs.Prelude.{◌≡◌, IfOk, IfErr};
ghost use Rattle.sled_nodes.specs.declared.error.Error.TheVariants.{NoMemory};
ghost use Rattle.machine_shared.specs.declared.read.Question.TheVariants as question;
ghost use Rattle.machine_shared.specs.declared.read.Read.TheVariants as read;

use crate::told::{Collections, Names, Pairs};
use sled_model::Tree;
use sled_nodes::{IVec, Result, clone_pair, clone_value};
use std::ops::Bound;

/// What a read asks of a tree.
#[derive(Drop, PartialEq, Eq)]
pub enum Question {
    /// The value at a key: `Answer::Value`.
    Get(IVec),
    /// Whether a key is present: `Answer::Flag`.
    ContainsKey(IVec),
    /// The pair with the least key: `Answer::Pair`.
    First,
    /// The pair with the greatest key.
    Last,
    /// The pair with the greatest key below this one.
    GetLt(IVec),
    /// The pair with the least key above this one.
    GetGt(IVec),
    /// How many pairs there are: `Answer::Count`.
    Len,
    /// Whether there is no pair: `Answer::Flag`.
    IsEmpty,
    /// The first of the pairs whose keys are within both bounds, so many at the most: from the least key up or, `back`, from the greatest
    /// down. `Answer::Pairs`.
    Page {
        lo: Bound<IVec>,
        hi: Bound<IVec>,
        back: bool,
        most: usize,
    },
}

/// What a tree answers to a question.
#[derive(Drop, PartialEq, Eq)]
pub enum Answer {
    /// The value at the key, if any.
    Value(Option<IVec>),
    /// Yes or no.
    Flag(bool),
    /// The pair, if there is one.
    Pair(Option<(IVec, IVec)>),
    /// So many pairs.
    Count(usize),
    /// These pairs, in the order in which they were read.
    Pairs(Pairs),
}

/// A read of a database, with what it returned.
#[derive(Drop, PartialEq, Eq)]
pub enum Read {
    /// A question about a tree, and its answer.
    Tree(Tree, Question, Answer),
    /// The names of all trees, in byte order.
    Names(Names),
    /// The collection of every tree, as an export gives them.
    Export(Collections),
}

// The same bound.
fn copied_bound(bound: &Bound<IVec>) -> Result<Bound<IVec>>
    ensures ok { IfOk result (λ copy. copy ≡ bound.now) }
    ensures err { IfErr result (λ e. e ≡ NoMemory) }
{
    match bound {
        Bound::Included(key) => Ok(Bound::Included(key.clone()?)),
        Bound::Excluded(key) => Ok(Bound::Excluded(key.clone()?)),
        Bound::Unbounded => Ok(Bound::Unbounded),
    }
}

// The page between copies of two bounds.
pub(crate) fn copied_page(
    lo: &Bound<IVec>,
    hi: &Bound<IVec>,
    back: bool,
    most: usize,
) -> Result<Question>
    ensures ok { IfOk result (λ copy. copy ≡ question.Page lo.now hi.now back most) }
    ensures err { IfErr result (λ e. e ≡ NoMemory) }
{
    let lo = copied_bound(lo)?;
    match copied_bound(hi) {
        Ok(hi) => Ok(Question::Page { lo, hi, back, most }),
        Err(e) => {
            drop(lo);
            Err(e)
        }
    }
}

impl Question {
    // The same question. Refused with `NoMemory` alone.
    pub(crate) fn clone(&self) -> Result<Question>
        ensures ok { IfOk result (λ copy. copy ≡ self.now) }
        ensures err { IfErr result (λ e. e ≡ NoMemory) }
    {
        match self {
            Question::Get(key) => Ok(Question::Get(key.clone()?)),
            Question::ContainsKey(key) => Ok(Question::ContainsKey(key.clone()?)),
            Question::First => Ok(Question::First),
            Question::Last => Ok(Question::Last),
            Question::GetLt(key) => Ok(Question::GetLt(key.clone()?)),
            Question::GetGt(key) => Ok(Question::GetGt(key.clone()?)),
            Question::Len => Ok(Question::Len),
            Question::IsEmpty => Ok(Question::IsEmpty),
            Question::Page { lo, hi, back, most } => copied_page(lo, hi, *back, *most),
        }
    }
}

// The same pair, if there is one.
fn copied_pair(pair: &Option<(IVec, IVec)>) -> Result<Option<(IVec, IVec)>>
    ensures ok { IfOk result (λ copy. copy ≡ pair.now) }
    ensures err { IfErr result (λ e. e ≡ NoMemory) }
{
    let Some((key, value)) = pair else {
        return Ok(None);
    };
    Ok(Some(clone_pair(key, value)?))
}

impl Answer {
    // The same answer; pairs of a page are shared. Refused with `NoMemory` alone.
    pub(crate) fn clone(&self) -> Result<Answer>
        ensures ok { IfOk result (λ copy. copy ≡ self.now) }
        ensures err { IfErr result (λ e. e ≡ NoMemory) }
    {
        match self {
            Answer::Value(value) => Ok(Answer::Value(clone_value(value)?)),
            Answer::Flag(flag) => Ok(Answer::Flag(*flag)),
            Answer::Pair(pair) => Ok(Answer::Pair(copied_pair(pair)?)),
            Answer::Count(count) => Ok(Answer::Count(*count)),
            Answer::Pairs(pairs) => Ok(Answer::Pairs(pairs.clone()?)),
        }
    }
}

// The read of a copy of a tree with copies of a question and its answer.
fn copied_answer(tree: &Tree, question: &Question, answer: &Answer) -> Result<Read>
    ensures ok { IfOk result (λ copy. copy ≡ read.Tree tree.now question.now answer.now) }
    ensures err { IfErr result (λ e. e ≡ NoMemory) }
{
    let tree = tree.clone()?;
    let question = match question.clone() {
        Ok(question) => question,
        Err(e) => {
            drop(tree);
            return Err(e);
        }
    };
    match answer.clone() {
        Ok(answer) => Ok(Read::Tree(tree, question, answer)),
        Err(e) => {
            drop(tree);
            drop(question);
            Err(e)
        }
    }
}

impl Read {
    // The same read; lists of pairs or names that it returned are shared. Refused with `NoMemory` alone.
    pub(crate) fn clone(&self) -> Result<Read>
        ensures ok { IfOk result (λ copy. copy ≡ self.now) }
        ensures err { IfErr result (λ e. e ≡ NoMemory) }
    {
        match self {
            Read::Tree(tree, question, answer) => copied_answer(tree, question, answer),
            Read::Names(names) => Ok(Read::Names(names.clone()?)),
            Read::Export(all) => Ok(Read::Export(all.clone()?)),
        }
    }
}
