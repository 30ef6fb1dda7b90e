//! A value that is read and noted, over the parts of a state. Each of the two records is made where it stays, of copies of its own.
ghost use Rattle.std.specs.Prelude.{◌≡◌, ◌<◌, ◌+◌, ◌++◌, ◌∷◌, [], IfErr, IfOk, OnErr, length, vec_len, vec_capacity};
ghost use Rattle.sled_nodes.specs.declared.error.Error.TheVariants.{NoMemory};
ghost use Rattle.machine_shared.specs.Made.{ReadMade, entry_values, made_values};
ghost use Rattle.machine_shared.specs.Notes.{entries_of};
ghost use Rattle.machine_shared.specs.Reads.{OfTree};
ghost use Rattle.machine_shared.specs.declared.read.Answer.TheVariants as told;
ghost use Rattle.machine_shared.specs.declared.read.Question.TheVariants as asks;
ghost use Rattle.machine_shared.specs.declared.read.Read.TheVariants as read;
ghost use Rattle.machine_shared.specs.UnderLock.{ReadsNow, RefusesNow, read_made};

use crate::entry::{Entry, Made};
use crate::noting::make_room;
use crate::read::{Answer, Question, Read};
use machine_alone::Machine;
use sled_model::{MergeOperator, Tree};
use sled_nodes::{Error, IVec, Result, clone_value};
use sled_store::Pages;
use std::sync::ledger::{Book, Ledger, Share};

// A tree, and the value at a key there, of which each is a copy.
#[inline(always)]
fn tree_and_value(tree: &Tree, value: &Option<IVec>) -> Result<(Tree, Option<IVec>)>
    ensures ok { IfOk result (λ it. it ≡ (tree.now, value.now)) }
    ensures err { IfErr result (λ e. e ≡ NoMemory) }
{
    let tree = tree.clone()?;
    match clone_value(value) {
        Ok(value) => Ok((tree, value)),
        Err(e) => {
            drop(tree);
            Err(e)
        }
    }
}

// The same with a copy of the key.
#[inline(always)]
fn with_key(tree: &Tree, key: &IVec, value: &Option<IVec>) -> Result<(Tree, IVec, Option<IVec>)>
    ensures ok { IfOk result (λ it. it ≡ (tree.now, key.now, value.now)) }
    ensures err { IfErr result (λ e. e ≡ NoMemory) }
{
    let (tree, value) = tree_and_value(tree, value)?;
    match key.clone() {
        Ok(key) => Ok((tree, key, value)),
        Err(e) => {
            drop(tree);
            drop(value);
            Err(e)
        }
    }
}

// Adds the value at a key at the end of the history, with the number of its caller, and the same of the caller's list.
#[inline(always)]
fn note_both(
    history: &mut Vec<Entry>,
    made: &mut Vec<Made>,
    number: u64,
    one: (Tree, IVec, Option<IVec>),
    two: (Tree, IVec, Option<IVec>),
)
    requires room { vec_len history.old < vec_capacity history.old }
    requires room_there { vec_len made.old < vec_capacity made.old }
    requires again { two ≡ one }
    ensures history { entry_values history.new.items ≡ entry_values history.old.items ++ entries_of number (ReadMade (read.Tree one.0 (asks.Get one.1) (told.Value one.2)) ∷ []) }
    ensures made { made_values made.new.items ≡ made_values made.old.items ++ ReadMade (read.Tree one.0 (asks.Get one.1) (told.Value one.2)) ∷ [] }
    ensures longer { length history.new.items ≡ length history.old.items + 1 }
    ensures longer_there { length made.new.items ≡ length made.old.items + 1 }
{
    let (tree, key, value) = one;
    history.push_reserved(Entry {
        by: number,
        made: Made::Read(Read::Tree(tree, Question::Get(key), Answer::Value(value))),
    });
    let (tree, key, value) = two;
    made.push_reserved(Made::Read(Read::Tree(tree, Question::Get(key), Answer::Value(value))));
}

// What is noted of the value at a key, twice.
#[inline(always)]
fn twice(
    tree: &Tree,
    key: IVec,
    value: &Option<IVec>,
) -> Result<((Tree, IVec, Option<IVec>), (Tree, IVec, Option<IVec>))>
    ensures first { IfOk result (λ both. both.0 ≡ (tree.now, key, value.now)) }
    ensures second { IfOk result (λ both. both.1 ≡ (tree.now, key, value.now)) }
    ensures err { IfErr result (λ e. e ≡ NoMemory) }
{
    let two = match with_key(tree, &key, value) {
        Ok(two) => two,
        Err(e) => {
            drop(key);
            return Err(e);
        }
    };
    match tree_and_value(tree, value) {
        Ok((tree, value)) => Ok(((tree, key, value), two)),
        Err(e) => {
            drop(key);
            drop(two);
            Err(e)
        }
    }
}

// Adds the value at a key at the ends of both lists, and counts it. Want of memory for that refuses it; then nothing is added.
#[inline(always)]
fn note_value<L: Ledger>(
    history: &mut Vec<Entry>,
    calls: &mut Book<L>,
    number: u64,
    made: &mut Vec<Made>,
    share: &mut Share<L>,
    tree: &Tree,
    key: IVec,
    value: &Option<IVec>,
) -> Result<()>
    requires part { share.old.parts ≡ 1 }
    requires counted { length history.old.items ≡ calls.old.total }
    requires shared { share.old.amount ≡ length made.old.items }
    ensures history { entry_values history.new.items ≡ entry_values history.old.items ++ entries_of number (read_made (λ done. read.Tree tree.now (asks.Get key) (told.Value value.now)) result) }
    ensures made { made_values made.new.items ≡ made_values made.old.items ++ read_made (λ done. read.Tree tree.now (asks.Get key) (told.Value value.now)) result }
    ensures err { IfErr result (λ e. e ≡ NoMemory) }
    ensures part { share.new.parts ≡ 1 }
    ensures counted { length history.new.items ≡ calls.new.total }
    ensures shared { share.new.amount ≡ length made.new.items }
{
    if !make_room(history, made) {
        drop(key);
        return Err(Error::NoMemory);
    }
    match twice(tree, key, value) {
        Ok((one, two)) => {
            note_both(history, made, number, one, two);
            calls.add(share, 1);
            Ok(())
        }
        Err(e) => Err(e),
    }
}

// The value at a key now.
#[tactic(auto, using(crate::proofs::Valued::valued, crate::proofs::Refusing::as_get))]
#[inline(always)]
fn value_now<P: Pages, M: MergeOperator>(
    machine: &Machine<P, M>,
    tree: &Tree,
    key: &IVec,
) -> Result<Option<IVec>>
    ensures now { IfOk result (λ value. ReadsNow P.store M.meant machine.now (tree.now ∷ []) (read.Tree tree.now (asks.Get key.now) (told.Value value))) }
    ensures err { IfErr result (RefusesNow P.store M.meant machine.now (OfTree tree.now (asks.Get key.now))) }
{
    match machine.db().get(tree, key.as_ref()) {
        Ok(value) => Ok(value),
        Err(e) => Err(e),
    }
}

// The value at a key. With it the read is added at the ends of both lists, and counted. Want of memory for that refuses it.
#[tactic(auto, using(crate::proofs::Refusing::after_read))]
pub(crate) fn value_noting<P: Pages, L: Ledger, M: MergeOperator>(
    machine: &Machine<P, M>,
    history: &mut Vec<Entry>,
    calls: &mut Book<L>,
    number: u64,
    made: &mut Vec<Made>,
    share: &mut Share<L>,
    tree: &Tree,
    key: IVec,
) -> Result<Option<IVec>>
    requires part { share.old.parts ≡ 1 }
    requires counted { length history.old.items ≡ calls.old.total }
    requires shared { share.old.amount ≡ length made.old.items }
    ensures ok { IfOk result (λ it. made_values made.new.items ≡ made_values made.old.items ++ ReadMade (read.Tree tree.now (asks.Get key) (told.Value it)) ∷ []) }
    ensures err { OnErr result (made_values made.new.items ≡ made_values made.old.items) }
    ensures reads { IfOk result (λ it. ReadsNow P.store M.meant machine.now (tree.now ∷ []) (read.Tree tree.now (asks.Get key) (told.Value it))) }
    ensures refused { IfErr result (RefusesNow P.store M.meant machine.now (OfTree tree.now (asks.Get key))) }
    ensures history { entry_values history.new.items ≡ entry_values history.old.items ++ entries_of number (read_made (λ it. read.Tree tree.now (asks.Get key) (told.Value it)) result) }
    ensures made { made_values made.new.items ≡ made_values made.old.items ++ read_made (λ it. read.Tree tree.now (asks.Get key) (told.Value it)) result }
    ensures part { share.new.parts ≡ 1 }
    ensures counted { length history.new.items ≡ calls.new.total }
    ensures shared { share.new.amount ≡ length made.new.items }
{
    let value = match value_now(machine, tree, &key) {
        Ok(value) => value,
        Err(e) => {
            drop(key);
            return Err(e);
        }
    };
    match note_value(history, calls, number, made, share, tree, key, &value) {
        Ok(()) => Ok(value),
        Err(e) => {
            drop(value);
            Err(e)
        }
    }
}
