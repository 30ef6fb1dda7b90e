//! Reads by a handle, each under one lock. They take no slot, and no map changes. If another caller writes beside them each returns what
//! there is at its own place in the history.
ghost use Rattle.std.specs.Prelude.{◌≡◌, ◌++◌, ◌∷◌, [], IfErr, IfOk, OnErr};
ghost use Rattle.sled_nodes.specs.Among.{bound_of};
ghost use Rattle.sled_nodes.specs.declared.error.Error.TheVariants.{NoMemory};
ghost use Rattle.machine_shared.specs.Made.{ReadMade};
ghost use Rattle.machine_shared.specs.Reads.{IsAnswerTo, IsCount, IsFlag, IsPair, IsPart, OfAll, OfNames, OfTree};
ghost use Rattle.machine_shared.specs.declared.read.Answer.TheVariants as told;
ghost use Rattle.machine_shared.specs.theory.Orders.{IsPage};
ghost use Rattle.machine_shared.specs.declared.read.Question.TheVariants as asks;
ghost use Rattle.machine_shared.specs.declared.read.Read.TheVariants as read;
ghost use Rattle.machine_shared.specs.UnderLock.{AsksUnderLock, ReadsUnderLock};

use crate::handle::Handle;
use crate::locked::locked;
use crate::read::{Answer, Question};
use crate::state_reads::{export_in, read_in, tree_names_in, value_in};
use crate::told::{Collections, Names, Pairs};
use sled_model::{MergeOperator, Tree};
use sled_nodes::{IVec, Result, own_bound};
use sled_store::Pages;
use std::alloc::Global;
use std::ops::Bound;
use std::sync::Wait;
use std::sync::ledger::Ledger;

// Yes or no, of an answer.
fn flag_of(answer: Answer) -> bool
    requires { IsFlag answer }
    ensures { answer ≡ told.Flag result }
{
    match answer {
        Answer::Flag(flag) => flag,
        _ => unreachable!(),
    }
}

// The pair of an answer.
fn pair_of(answer: Answer) -> Option<(IVec, IVec)>
    requires { IsPair answer }
    ensures { answer ≡ told.Pair result }
{
    match answer {
        Answer::Pair(pair) => pair,
        _ => unreachable!(),
    }
}

// The count of an answer.
fn count_of(answer: Answer) -> usize
    requires { IsCount answer }
    ensures { answer ≡ told.Count result }
{
    match answer {
        Answer::Count(count) => count,
        _ => unreachable!(),
    }
}

// The pairs of an answer.
pub(crate) fn pairs_of(answer: Answer) -> Pairs
    requires { IsPage answer }
    ensures { answer ≡ told.Pairs result }
{
    match answer {
        Answer::Pairs(pairs) => pairs,
        _ => unreachable!(),
    }
}

// The question for a page.
fn page_between(
    alloc: Global,
    lo: Bound<&[u8]>,
    hi: Bound<&[u8]>,
    back: bool,
    most: usize,
) -> Result<Question>
    ensures ok { IfOk result (λ question. question ≡ asks.Page (bound_of lo.entry) (bound_of hi.entry) back most) }
    ensures err { IfErr result (λ e. e ≡ NoMemory) }
{
    let lo = own_bound(alloc, lo)?;
    match own_bound(alloc, hi) {
        Ok(hi) => Ok(Question::Page { lo, hi, back, most }),
        Err(e) => {
            drop(lo);
            Err(e)
        }
    }
}

impl<P: Pages, L: Ledger, M: MergeOperator> Handle<P, L, M> {
    /// What a tree answers to a question, in one step under the lock. It is added to this caller's list with its answer. Refused as the
    /// same read of a database is, with `NoMemory` if there is none to note it, and with `Closed` if the database was taken out of its lock;
    /// nothing is added to the list then.
    ///
    /// ```
    /// let answer = handle.read(rt, &tree, Question::Len)?; // `Answer::Count(..)`.
    /// ```
    pub fn read(&mut self, rt: &impl Wait, tree: &Tree, question: Question) -> Result<Answer>
        ensures kind { IfOk result (IsAnswerTo question) }
        ensures ok { IfOk result (λ answer. self.new.made ≡ self.old.made ++ ReadMade (read.Tree tree.now question answer) ∷ []) }
        ensures err { OnErr result (self.new.made ≡ self.old.made) }
        ensures number { self.new.number ≡ self.old.number }
        ensures looks { ReadsUnderLock P.store M.meant (OfTree tree.now question) (λ answer. read.Tree tree.now question answer) result self.old self.new }
    {
        let mut guard = locked(rt, &self.lock);
        let answer = read_in(&mut *guard, &mut self.me, tree, question);
        drop(guard);
        answer
    }

    // The value at a key, in one step under the lock.
    fn value(&mut self, rt: &impl Wait, tree: &Tree, key: IVec) -> Result<Option<IVec>>
        ensures ok { IfOk result (λ it. self.new.made ≡ self.old.made ++ ReadMade (read.Tree tree.now (asks.Get key) (told.Value it)) ∷ []) }
        ensures err { OnErr result (self.new.made ≡ self.old.made) }
        ensures number { self.new.number ≡ self.old.number }
        ensures looks { ReadsUnderLock P.store M.meant (OfTree tree.now (asks.Get key)) (λ it. read.Tree tree.now (asks.Get key) (told.Value it)) result self.old self.new }
    {
        let mut guard = locked(rt, &self.lock);
        let value = value_in(&mut *guard, &mut self.me, tree, key);
        drop(guard);
        value
    }

    /// The value at a key, or `None` if it is absent, in one step under the lock. Refused as `read` is, as all that follow; first with
    /// `NoMemory` if there is none to copy a key or bounds that are given.
    ///
    /// ```
    /// let value = handle.get_now(rt, alloc, &tree, b"ulm")?;
    /// ```
    pub fn get_now(
        &mut self,
        rt: &impl Wait,
        alloc: Global,
        tree: &Tree,
        key: &[u8],
    ) -> Result<Option<IVec>>
        ensures ok { IfOk result (λ it. self.new.made ≡ self.old.made ++ ReadMade (read.Tree tree.now (asks.Get key.now) (told.Value it)) ∷ []) }
        ensures err { OnErr result (self.new.made ≡ self.old.made) }
        ensures number { self.new.number ≡ self.old.number }
        ensures looks { AsksUnderLock P.store M.meant (OfTree tree.now (asks.Get key.now)) (λ it. read.Tree tree.now (asks.Get key.now) (told.Value it)) result self.old self.new }
    {
        let key = IVec::from_slice(alloc, key)?;
        self.value(rt, tree, key)
    }

    /// Whether a key is present.
    ///
    /// ```
    /// let is_there = handle.contains_key(rt, alloc, &tree, b"ulm")?;
    /// ```
    pub fn contains_key(
        &mut self,
        rt: &impl Wait,
        alloc: Global,
        tree: &Tree,
        key: &[u8],
    ) -> Result<bool>
        ensures ok { IfOk result (λ it. self.new.made ≡ self.old.made ++ ReadMade (read.Tree tree.now (asks.ContainsKey key.now) (told.Flag it)) ∷ []) }
        ensures err { OnErr result (self.new.made ≡ self.old.made) }
        ensures number { self.new.number ≡ self.old.number }
        ensures looks { AsksUnderLock P.store M.meant (OfTree tree.now (asks.ContainsKey key.now)) (λ it. read.Tree tree.now (asks.ContainsKey key.now) (told.Flag it)) result self.old self.new }
    {
        let question = Question::ContainsKey(IVec::from_slice(alloc, key)?);
        match self.read(rt, tree, question) {
            Ok(answer) => Ok(flag_of(answer)),
            Err(e) => Err(e),
        }
    }

    /// The pair with the least key.
    ///
    /// ```
    /// let least = handle.first(rt, &tree)?; // `None` of an empty tree.
    /// ```
    pub fn first(&mut self, rt: &impl Wait, tree: &Tree) -> Result<Option<(IVec, IVec)>>
        ensures ok { IfOk result (λ it. self.new.made ≡ self.old.made ++ ReadMade (read.Tree tree.now (asks.First) (told.Pair it)) ∷ []) }
        ensures err { OnErr result (self.new.made ≡ self.old.made) }
        ensures number { self.new.number ≡ self.old.number }
        ensures looks { ReadsUnderLock P.store M.meant (OfTree tree.now asks.First) (λ it. read.Tree tree.now asks.First (told.Pair it)) result self.old self.new }
    {
        let question = Question::First;
        match self.read(rt, tree, question) {
            Ok(answer) => Ok(pair_of(answer)),
            Err(e) => Err(e),
        }
    }

    /// The pair with the greatest key.
    ///
    /// ```
    /// let greatest = handle.last(rt, &tree)?;
    /// ```
    pub fn last(&mut self, rt: &impl Wait, tree: &Tree) -> Result<Option<(IVec, IVec)>>
        ensures ok { IfOk result (λ it. self.new.made ≡ self.old.made ++ ReadMade (read.Tree tree.now (asks.Last) (told.Pair it)) ∷ []) }
        ensures err { OnErr result (self.new.made ≡ self.old.made) }
        ensures number { self.new.number ≡ self.old.number }
        ensures looks { ReadsUnderLock P.store M.meant (OfTree tree.now asks.Last) (λ it. read.Tree tree.now asks.Last (told.Pair it)) result self.old self.new }
    {
        let question = Question::Last;
        match self.read(rt, tree, question) {
            Ok(answer) => Ok(pair_of(answer)),
            Err(e) => Err(e),
        }
    }

    /// The pair with the greatest key below this one.
    ///
    /// ```
    /// let before = handle.get_lt(rt, alloc, &tree, b"ulm")?; // Of the keys bern and ulm, bern.
    /// ```
    pub fn get_lt(
        &mut self,
        rt: &impl Wait,
        alloc: Global,
        tree: &Tree,
        key: &[u8],
    ) -> Result<Option<(IVec, IVec)>>
        ensures ok { IfOk result (λ it. self.new.made ≡ self.old.made ++ ReadMade (read.Tree tree.now (asks.GetLt key.now) (told.Pair it)) ∷ []) }
        ensures err { OnErr result (self.new.made ≡ self.old.made) }
        ensures number { self.new.number ≡ self.old.number }
        ensures looks { AsksUnderLock P.store M.meant (OfTree tree.now (asks.GetLt key.now)) (λ it. read.Tree tree.now (asks.GetLt key.now) (told.Pair it)) result self.old self.new }
    {
        let question = Question::GetLt(IVec::from_slice(alloc, key)?);
        match self.read(rt, tree, question) {
            Ok(answer) => Ok(pair_of(answer)),
            Err(e) => Err(e),
        }
    }

    /// The pair with the least key above this one.
    ///
    /// ```
    /// let after = handle.get_gt(rt, alloc, &tree, b"bern")?; // Of the keys bern and ulm, ulm.
    /// ```
    pub fn get_gt(
        &mut self,
        rt: &impl Wait,
        alloc: Global,
        tree: &Tree,
        key: &[u8],
    ) -> Result<Option<(IVec, IVec)>>
        ensures ok { IfOk result (λ it. self.new.made ≡ self.old.made ++ ReadMade (read.Tree tree.now (asks.GetGt key.now) (told.Pair it)) ∷ []) }
        ensures err { OnErr result (self.new.made ≡ self.old.made) }
        ensures number { self.new.number ≡ self.old.number }
        ensures looks { AsksUnderLock P.store M.meant (OfTree tree.now (asks.GetGt key.now)) (λ it. read.Tree tree.now (asks.GetGt key.now) (told.Pair it)) result self.old self.new }
    {
        let question = Question::GetGt(IVec::from_slice(alloc, key)?);
        match self.read(rt, tree, question) {
            Ok(answer) => Ok(pair_of(answer)),
            Err(e) => Err(e),
        }
    }

    /// How many pairs there are. It reads each leaf under the lock.
    ///
    /// ```
    /// let count = handle.len(rt, &tree)?;
    /// ```
    pub fn len(&mut self, rt: &impl Wait, tree: &Tree) -> Result<usize>
        ensures ok { IfOk result (λ it. self.new.made ≡ self.old.made ++ ReadMade (read.Tree tree.now (asks.Len) (told.Count it)) ∷ []) }
        ensures err { OnErr result (self.new.made ≡ self.old.made) }
        ensures number { self.new.number ≡ self.old.number }
        ensures looks { ReadsUnderLock P.store M.meant (OfTree tree.now asks.Len) (λ it. read.Tree tree.now asks.Len (told.Count it)) result self.old self.new }
    {
        let question = Question::Len;
        match self.read(rt, tree, question) {
            Ok(answer) => Ok(count_of(answer)),
            Err(e) => Err(e),
        }
    }

    /// Whether there is no pair.
    ///
    /// ```
    /// let is_new = handle.is_empty(rt, &tree)?;
    /// ```
    pub fn is_empty(&mut self, rt: &impl Wait, tree: &Tree) -> Result<bool>
        ensures ok { IfOk result (λ it. self.new.made ≡ self.old.made ++ ReadMade (read.Tree tree.now (asks.IsEmpty) (told.Flag it)) ∷ []) }
        ensures err { OnErr result (self.new.made ≡ self.old.made) }
        ensures number { self.new.number ≡ self.old.number }
        ensures looks { ReadsUnderLock P.store M.meant (OfTree tree.now asks.IsEmpty) (λ it. read.Tree tree.now asks.IsEmpty (told.Flag it)) result self.old self.new }
    {
        let question = Question::IsEmpty;
        match self.read(rt, tree, question) {
            Ok(answer) => Ok(flag_of(answer)),
            Err(e) => Err(e),
        }
    }

    /// The first of the pairs within two bounds, so many at the most: from the least key up or, `back`, from the greatest down. They are
    /// those that the tree has at one moment, a snapshot.
    ///
    /// ```
    /// // The ten least pairs from bern on.
    /// let page = handle.page(rt, alloc, &tree, Bound::Included(b"bern"), Bound::Unbounded, false, 10)?;
    /// ```
    pub fn page(
        &mut self,
        rt: &impl Wait,
        alloc: Global,
        tree: &Tree,
        lo: Bound<&[u8]>,
        hi: Bound<&[u8]>,
        back: bool,
        most: usize,
    ) -> Result<Pairs>
        ensures part { IfOk result (IsPart (bound_of lo.entry) (bound_of hi.entry) back most) }
        ensures ok { IfOk result (λ it. self.new.made ≡ self.old.made ++ ReadMade (read.Tree tree.now (asks.Page (bound_of lo.entry) (bound_of hi.entry) back most) (told.Pairs it)) ∷ []) }
        ensures err { OnErr result (self.new.made ≡ self.old.made) }
        ensures number { self.new.number ≡ self.old.number }
        ensures looks { AsksUnderLock P.store M.meant (OfTree tree.now (asks.Page (bound_of lo.entry) (bound_of hi.entry) back most)) (λ it. read.Tree tree.now (asks.Page (bound_of lo.entry) (bound_of hi.entry) back most) (told.Pairs it)) result self.old self.new }
    {
        let question = page_between(alloc, lo, hi, back, most)?;
        match self.read(rt, tree, question) {
            Ok(answer) => Ok(pairs_of(answer)),
            Err(e) => Err(e),
        }
    }

    /// The names of all trees, the default tree's among them, in byte order.
    ///
    /// ```
    /// let names = handle.tree_names(rt)?; // `names.as_slice()` lends them.
    /// ```
    pub fn tree_names(&mut self, rt: &impl Wait) -> Result<Names>
        ensures ok { IfOk result (λ names. self.new.made ≡ self.old.made ++ ReadMade (read.Names names) ∷ []) }
        ensures err { OnErr result (self.new.made ≡ self.old.made) }
        ensures number { self.new.number ≡ self.old.number }
        ensures looks { ReadsUnderLock P.store M.meant OfNames read.Names result self.old self.new }
    {
        let mut guard = locked(rt, &self.lock);
        let names = tree_names_in(&mut *guard, &mut self.me);
        drop(guard);
        names
    }

    /// The collection of every tree, in the order of the names, its pairs ascending by key, as an export of the database gives them. It
    /// reads all pages under the lock. The list has what was exported, shared and not copied, so it is kept until the list is dropped.
    ///
    /// ```
    /// let all = handle.export(rt)?; // `all.as_slice()` lends the collections.
    /// ```
    pub fn export(&mut self, rt: &impl Wait) -> Result<Collections>
        ensures ok { IfOk result (λ all. self.new.made ≡ self.old.made ++ ReadMade (read.Export all) ∷ []) }
        ensures err { OnErr result (self.new.made ≡ self.old.made) }
        ensures number { self.new.number ≡ self.old.number }
        ensures looks { ReadsUnderLock P.store M.meant OfAll read.Export result self.old self.new }
    {
        let mut guard = locked(rt, &self.lock);
        let all = export_in(&mut *guard, &mut self.me);
        drop(guard);
        all
    }
}
