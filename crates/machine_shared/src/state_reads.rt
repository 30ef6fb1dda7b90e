//! Reads of a state, each in one step. They are noted as the caller's, and change nothing else.
ghost use Rattle.std.specs.Prelude.{◌≡◌, ◌++◌, ◌∷◌, [], IfOk, OnErr};
ghost use Rattle.machine_shared.specs.Made.{ReadMade};
ghost use Rattle.machine_shared.specs.Reads.{IsAnswerTo, OfAll, OfNames, OfTree};
ghost use Rattle.machine_shared.specs.declared.read.Answer.TheVariants as told;
ghost use Rattle.machine_shared.specs.declared.read.Question.TheVariants as asks;
ghost use Rattle.machine_shared.specs.declared.read.Read.TheVariants as read;
ghost use Rattle.machine_shared.specs.UnderLock.{Looks, ReadsUnderLock};

use crate::caller::Caller;
use crate::gets::value_noting;
use crate::noting::note_and_count;
use crate::read::{Answer, Question};
use crate::reading::{answer_noting, export_noting, names_noting};
use crate::state::State;
use crate::told::{Collections, Names};
use sled_model::{MergeOperator, Tree};
use sled_nodes::{Error, IVec, Result};
use sled_store::Pages;
use std::sync::ledger::Ledger;

impl<P: Pages, L: Ledger, M: MergeOperator> State<P, L, M> {
    // What a tree answers to a question.
    fn read(&mut self, me: &mut Caller<L>, tree: &Tree, question: Question) -> Result<Answer>
        ensures kind { IfOk result (IsAnswerTo question) }
        ensures ok { IfOk result (λ answer. me.new.made ≡ me.old.made ++ ReadMade (read.Tree tree.now question answer) ∷ []) }
        ensures err { OnErr result (me.new.made ≡ me.old.made) }
        ensures number { me.new.number ≡ me.old.number }
        ensures machine { self.new.machine ≡ self.old.machine }
        ensures scans { self.new.scans ≡ self.old.scans }
        ensures looks { Looks P.store M.meant (OfTree tree.now question) (λ answer. read.Tree tree.now question answer) result me.old me.new self.old self.new }
    {
        self.machine.audit();
        let Caller {
            number,
            made,
            share,
        } = me;
        answer_noting(
            &self.machine,
            &mut self.history,
            &mut self.calls,
            *number,
            made,
            share,
            tree,
            question,
        )
    }

    // The value at a key.
    fn value(&mut self, me: &mut Caller<L>, tree: &Tree, key: IVec) -> Result<Option<IVec>>
        ensures ok { IfOk result (λ it. me.new.made ≡ me.old.made ++ ReadMade (read.Tree tree.now (asks.Get key) (told.Value it)) ∷ []) }
        ensures err { OnErr result (me.new.made ≡ me.old.made) }
        ensures number { me.new.number ≡ me.old.number }
        ensures machine { self.new.machine ≡ self.old.machine }
        ensures scans { self.new.scans ≡ self.old.scans }
        ensures looks { Looks P.store M.meant (OfTree tree.now (asks.Get key)) (λ it. read.Tree tree.now (asks.Get key) (told.Value it)) result me.old me.new self.old self.new }
    {
        self.machine.audit();
        let Caller {
            number,
            made,
            share,
        } = me;
        value_noting(
            &self.machine,
            &mut self.history,
            &mut self.calls,
            *number,
            made,
            share,
            tree,
            key,
        )
    }

    // The names of all trees.
    fn tree_names(&mut self, me: &mut Caller<L>) -> Result<Names>
        ensures ok { IfOk result (λ names. me.new.made ≡ me.old.made ++ ReadMade (read.Names names) ∷ []) }
        ensures err { OnErr result (me.new.made ≡ me.old.made) }
        ensures number { me.new.number ≡ me.old.number }
        ensures machine { self.new.machine ≡ self.old.machine }
        ensures scans { self.new.scans ≡ self.old.scans }
        ensures looks { Looks P.store M.meant OfNames read.Names result me.old me.new self.old self.new }
    {
        self.machine.audit();
        let Caller {
            number,
            made,
            share,
        } = me;
        let (names, noted) = names_noting(&self.machine, &mut self.history, made);
        note_and_count(
            &mut self.history,
            &mut self.calls,
            *number,
            made,
            share,
            noted,
        );
        names
    }

    // The collection of every tree.
    fn export(&mut self, me: &mut Caller<L>) -> Result<Collections>
        ensures ok { IfOk result (λ all. me.new.made ≡ me.old.made ++ ReadMade (read.Export all) ∷ []) }
        ensures err { OnErr result (me.new.made ≡ me.old.made) }
        ensures number { me.new.number ≡ me.old.number }
        ensures machine { self.new.machine ≡ self.old.machine }
        ensures scans { self.new.scans ≡ self.old.scans }
        ensures looks { Looks P.store M.meant OfAll read.Export result me.old me.new self.old self.new }
    {
        self.machine.audit();
        let Caller {
            number,
            made,
            share,
        } = me;
        let (all, noted) = export_noting(&self.machine, &mut self.history, made);
        note_and_count(
            &mut self.history,
            &mut self.calls,
            *number,
            made,
            share,
            noted,
        );
        all
    }
}

// The same of what a lock holds. What was taken from under it is closed.

// What a tree answers to a question.
pub(crate) fn read_in<P: Pages, L: Ledger, M: MergeOperator>(
    held: &mut Option<State<P, L, M>>,
    me: &mut Caller<L>,
    tree: &Tree,
    question: Question,
) -> Result<Answer>
    ensures kind { IfOk result (IsAnswerTo question) }
    ensures ok { IfOk result (λ answer. me.new.made ≡ me.old.made ++ ReadMade (read.Tree tree.now question answer) ∷ []) }
    ensures err { OnErr result (me.new.made ≡ me.old.made) }
    ensures number { me.new.number ≡ me.old.number }
    ensures looks { ReadsUnderLock P.store M.meant (OfTree tree.now question) (λ answer. read.Tree tree.now question answer) result me.old me.new }
{
    match held {
        None => {
            drop(question);
            Err(Error::Closed)
        }
        Some(state) => {
            state.audit();
            let answer = state.read(me, tree, question);
            state.audit();
            answer
        }
    }
}

// The value at a key.
pub(crate) fn value_in<P: Pages, L: Ledger, M: MergeOperator>(
    held: &mut Option<State<P, L, M>>,
    me: &mut Caller<L>,
    tree: &Tree,
    key: IVec,
) -> Result<Option<IVec>>
    ensures ok { IfOk result (λ it. me.new.made ≡ me.old.made ++ ReadMade (read.Tree tree.now (asks.Get key) (told.Value it)) ∷ []) }
    ensures err { OnErr result (me.new.made ≡ me.old.made) }
    ensures number { me.new.number ≡ me.old.number }
    ensures looks { ReadsUnderLock P.store M.meant (OfTree tree.now (asks.Get key)) (λ it. read.Tree tree.now (asks.Get key) (told.Value it)) result me.old me.new }
{
    match held {
        None => {
            drop(key);
            Err(Error::Closed)
        }
        Some(state) => {
            state.audit();
            let value = state.value(me, tree, key);
            state.audit();
            value
        }
    }
}

// The names of all trees.
pub(crate) fn tree_names_in<P: Pages, L: Ledger, M: MergeOperator>(
    held: &mut Option<State<P, L, M>>,
    me: &mut Caller<L>,
) -> Result<Names>
    ensures ok { IfOk result (λ names. me.new.made ≡ me.old.made ++ ReadMade (read.Names names) ∷ []) }
    ensures err { OnErr result (me.new.made ≡ me.old.made) }
    ensures number { me.new.number ≡ me.old.number }
    ensures looks { ReadsUnderLock P.store M.meant OfNames read.Names result me.old me.new }
{
    match held {
        None => Err(Error::Closed),
        Some(state) => {
            state.audit();
            let names = state.tree_names(me);
            state.audit();
            names
        }
    }
}

// The collection of every tree.
pub(crate) fn export_in<P: Pages, L: Ledger, M: MergeOperator>(
    held: &mut Option<State<P, L, M>>,
    me: &mut Caller<L>,
) -> Result<Collections>
    ensures ok { IfOk result (λ all. me.new.made ≡ me.old.made ++ ReadMade (read.Export all) ∷ []) }
    ensures err { OnErr result (me.new.made ≡ me.old.made) }
    ensures number { me.new.number ≡ me.old.number }
    ensures looks { ReadsUnderLock P.store M.meant OfAll read.Export result me.old me.new }
{
    match held {
        None => Err(Error::Closed),
        Some(state) => {
            state.audit();
            let all = state.export(me);
            state.audit();
            all
        }
    }
}
