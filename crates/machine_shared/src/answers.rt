//! What the database of a machine answers to reads.
ghost use Rattle.std.specs.Prelude.{◌≡◌, false, IfErr, IfOk, OnOk};
ghost use Rattle.sled_store.specs.Store.{now};
ghost use Rattle.tree_laws.specs.Contents.{trees_of};
ghost use Rattle.tree_pages.specs.Export.{collections};
ghost use Rattle.sled.specs.Names.{AreNames};
ghost use Rattle.sled.specs.Reads.{ReadsMap};
ghost use Rattle.sled.specs.Values.{db_state};
ghost use Rattle.machine_shared.specs.Reads.{OfAll, OfNames, OfTree, answers_as};
ghost use Rattle.machine_shared.specs.UnderLock.{RefusesNow};
ghost use Rattle.machine_shared.specs.declared.read.Question.TheVariants as question;

use crate::pages::taken;
use crate::read::{Answer, Question};
use crate::told::{Collections, Names, Pairs};
use machine_alone::Machine;
use sled_model::{MergeOperator, Tree};
use sled_nodes::{IVec, Result, lend_bound};
use sled_store::Pages;
use std::ops::Bound;

// The first pairs of a tree within two bounds.
#[tactic(auto, using(crate::proofs::Refusing::as_range, crate::proofs::Refusing::range_stops, crate::proofs::Refusing::range_lacks))]
fn page_in<P: Pages, M: MergeOperator>(
    machine: &Machine<P, M>,
    tree: &Tree,
    lo: &Bound<IVec>,
    hi: &Bound<IVec>,
    back: bool,
    most: usize,
) -> Result<Answer>
    ensures ok { IfOk result (λ answer. ReadsMap P.store M.meant machine.now.db tree.now (λ map. answers_as map (question.Page lo.now hi.now back most) answer)) }
    ensures err { IfErr result (RefusesNow P.store M.meant machine.now (OfTree tree.now (question.Page lo.now hi.now back most))) }
{
    machine.audit();
    let alloc = machine.db().allocator();
    let mut pairs = match machine.db().range(tree, lend_bound(lo), lend_bound(hi)) {
        Ok(pairs) => pairs,
        Err(e) => return Err(e),
    };
    let taken = taken(alloc, &mut pairs, back, most);
    drop(pairs);
    match taken {
        Ok(page) => Ok(Answer::Pairs(Pairs::new(alloc, page)?)),
        Err(e) => Err(e),
    }
}

// The value at a key.
#[tactic(auto, using(crate::proofs::Refusing::as_get))]
fn value_at<P: Pages, M: MergeOperator>(
    machine: &Machine<P, M>,
    tree: &Tree,
    key: &IVec,
) -> Result<Answer>
    ensures ok { IfOk result (λ answer. ReadsMap P.store M.meant machine.now.db tree.now (λ map. answers_as map (question.Get key.now) answer)) }
    ensures err { IfErr result (RefusesNow P.store M.meant machine.now (OfTree tree.now (question.Get key.now))) }
{
    Ok(Answer::Value(machine.db().get(tree, key.as_ref())?))
}

// Whether a key is present.
#[tactic(auto, using(crate::proofs::Refusing::as_contains_key))]
fn is_there<P: Pages, M: MergeOperator>(
    machine: &Machine<P, M>,
    tree: &Tree,
    key: &IVec,
) -> Result<Answer>
    ensures ok { IfOk result (λ answer. ReadsMap P.store M.meant machine.now.db tree.now (λ map. answers_as map (question.ContainsKey key.now) answer)) }
    ensures err { IfErr result (RefusesNow P.store M.meant machine.now (OfTree tree.now (question.ContainsKey key.now))) }
{
    Ok(Answer::Flag(machine.db().contains_key(tree, key.as_ref())?))
}

// The pair with the least key.
#[tactic(auto, using(crate::proofs::Refusing::as_first))]
fn first_of<P: Pages, M: MergeOperator>(machine: &Machine<P, M>, tree: &Tree) -> Result<Answer>
    ensures ok { IfOk result (λ answer. ReadsMap P.store M.meant machine.now.db tree.now (λ map. answers_as map question.First answer)) }
    ensures err { IfErr result (RefusesNow P.store M.meant machine.now (OfTree tree.now question.First)) }
{
    Ok(Answer::Pair(machine.db().first(tree)?))
}

// The pair with the greatest key.
#[tactic(auto, using(crate::proofs::Refusing::as_last))]
fn last_of<P: Pages, M: MergeOperator>(machine: &Machine<P, M>, tree: &Tree) -> Result<Answer>
    ensures ok { IfOk result (λ answer. ReadsMap P.store M.meant machine.now.db tree.now (λ map. answers_as map question.Last answer)) }
    ensures err { IfErr result (RefusesNow P.store M.meant machine.now (OfTree tree.now question.Last)) }
{
    Ok(Answer::Pair(machine.db().last(tree)?))
}

// The pair just below a key.
#[tactic(auto, using(crate::proofs::Refusing::as_get_lt))]
fn below<P: Pages, M: MergeOperator>(
    machine: &Machine<P, M>,
    tree: &Tree,
    key: &IVec,
) -> Result<Answer>
    ensures ok { IfOk result (λ answer. ReadsMap P.store M.meant machine.now.db tree.now (λ map. answers_as map (question.GetLt key.now) answer)) }
    ensures err { IfErr result (RefusesNow P.store M.meant machine.now (OfTree tree.now (question.GetLt key.now))) }
{
    Ok(Answer::Pair(machine.db().get_lt(tree, key.as_ref())?))
}

// The pair just above a key.
#[tactic(auto, using(crate::proofs::Refusing::as_get_gt))]
fn above<P: Pages, M: MergeOperator>(
    machine: &Machine<P, M>,
    tree: &Tree,
    key: &IVec,
) -> Result<Answer>
    ensures ok { IfOk result (λ answer. ReadsMap P.store M.meant machine.now.db tree.now (λ map. answers_as map (question.GetGt key.now) answer)) }
    ensures err { IfErr result (RefusesNow P.store M.meant machine.now (OfTree tree.now (question.GetGt key.now))) }
{
    Ok(Answer::Pair(machine.db().get_gt(tree, key.as_ref())?))
}

// How many pairs there are.
#[tactic(auto, using(crate::proofs::Refusing::as_len))]
fn len_of<P: Pages, M: MergeOperator>(machine: &Machine<P, M>, tree: &Tree) -> Result<Answer>
    ensures ok { IfOk result (λ answer. ReadsMap P.store M.meant machine.now.db tree.now (λ map. answers_as map question.Len answer)) }
    ensures err { IfErr result (RefusesNow P.store M.meant machine.now (OfTree tree.now question.Len)) }
{
    Ok(Answer::Count(machine.db().len(tree)?))
}

// Whether there is none.
#[tactic(auto, using(crate::proofs::Refusing::as_is_empty))]
fn is_nothing<P: Pages, M: MergeOperator>(machine: &Machine<P, M>, tree: &Tree) -> Result<Answer>
    ensures ok { IfOk result (λ answer. ReadsMap P.store M.meant machine.now.db tree.now (λ map. answers_as map question.IsEmpty answer)) }
    ensures err { IfErr result (RefusesNow P.store M.meant machine.now (OfTree tree.now question.IsEmpty)) }
{
    Ok(Answer::Flag(machine.db().is_empty(tree)?))
}

// What a tree answers to a question.
pub(crate) fn answer_to<P: Pages, M: MergeOperator>(
    machine: &Machine<P, M>,
    tree: &Tree,
    question: &Question,
) -> Result<Answer>
    ensures ok { IfOk result (λ answer. ReadsMap P.store M.meant machine.now.db tree.now (λ map. answers_as map question.now answer)) }
    ensures err { IfErr result (RefusesNow P.store M.meant machine.now (OfTree tree.now question.now)) }
{
    match question {
        Question::Get(key) => value_at(machine, tree, key),
        Question::ContainsKey(key) => is_there(machine, tree, key),
        Question::First => first_of(machine, tree),
        Question::Last => last_of(machine, tree),
        Question::GetLt(key) => below(machine, tree, key),
        Question::GetGt(key) => above(machine, tree, key),
        Question::Len => len_of(machine, tree),
        Question::IsEmpty => is_nothing(machine, tree),
        Question::Page { lo, hi, back, most } => page_in(machine, tree, lo, hi, *back, *most),
    }
}

// The names of all trees.
#[tactic(auto, using(crate::proofs::Refusing::as_names))]
pub(crate) fn names_of<P: Pages, M: MergeOperator>(machine: &Machine<P, M>) -> Result<Names>
    ensures ok { IfOk result (AreNames (db_state P.store M.meant machine.now.db)) }
    ensures err { IfErr result (RefusesNow P.store M.meant machine.now OfNames) }
{
    let names = machine.db().tree_names()?;
    Names::new(machine.db().allocator(), names)
}

// The collection of every tree.
#[tactic(auto, using(crate::proofs::Refusing::as_export))]
pub(crate) fn export_of<P: Pages, M: MergeOperator>(machine: &Machine<P, M>) -> Result<Collections>
    ensures all { IfOk result (λ all. all ≡ collections (trees_of (now (P.store machine.now.db.pages))) machine.now.db.trees) }
    ensures open { OnOk result ((now (P.store machine.now.db.pages)).in_group ≡ false) }
    ensures err { IfErr result (RefusesNow P.store M.meant machine.now OfAll) }
{
    let all = machine.db().export()?;
    Collections::new(machine.db().allocator(), all)
}
