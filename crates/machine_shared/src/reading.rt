//! Reads that are noted, over the parts of a state.
ghost use Rattle.std.specs.Prelude.{◌≡◌, ◌<◌, ◌+◌, ◌++◌, ◌∷◌, [], IfErr, IfOk, OnErr, IfSome, length, vec_len, vec_capacity};
ghost use Rattle.sled_nodes.specs.declared.error.Error.TheVariants.{NoMemory};
ghost use Rattle.machine_shared.specs.Made.{ReadMade, entry_values, made_value, made_values};
ghost use Rattle.machine_shared.specs.Notes.{entries_of};
ghost use Rattle.machine_shared.specs.Reads.{IsAnswerTo, OfAll, OfNames, OfTree};
ghost use Rattle.machine_shared.specs.declared.read.Read.TheVariants as read;
ghost use Rattle.machine_shared.specs.theory.Noting.{first_noted, second_noted};
ghost use Rattle.machine_shared.specs.UnderLock.{ReadsNow, RefusesNow, read_made};

use crate::answers::{answer_to, export_of, names_of};
use crate::entry::{Entry, Made};
use crate::noting::make_room;
use crate::read::{Answer, Question, Read};
use crate::told::{Collections, Names};
use machine_alone::Machine;
use sled_model::{MergeOperator, Tree};
use sled_nodes::{Error, Result};
use sled_store::Pages;
use std::sync::ledger::{Book, Ledger, Share};

// What was read, as it is noted, twice.
fn twice(read: Read) -> Result<(Made, Made)>
    ensures first { IfOk result (λ both. made_value both.0 ≡ ReadMade read) }
    ensures second { IfOk result (λ both. made_value both.1 ≡ ReadMade read) }
{
    match read.clone() {
        Ok(again) => Ok((Made::Read(read), Made::Read(again))),
        Err(e) => {
            drop(read);
            Err(e)
        }
    }
}

// The same, with room for it in both lists.
fn room_and_reads(
    history: &mut Vec<Entry>,
    made: &mut Vec<Made>,
    read: Read,
) -> Option<(Made, Made)>
    ensures first { IfSome result (λ both. made_value both.0 ≡ ReadMade read) }
    ensures second { IfSome result (λ both. made_value both.1 ≡ ReadMade read) }
    ensures history { history.new.items ≡ history.old.items }
    ensures made { made.new.items ≡ made.old.items }
    ensures room { IfSome result (λ both. vec_len history.new < vec_capacity history.new) }
    ensures room_there { IfSome result (λ both. vec_len made.new < vec_capacity made.new) }
{
    if !make_room(history, made) {
        drop(read);
        return None;
    }
    twice(read).ok()
}

// A question about a tree, with its answer.
fn read_of(tree: &Tree, question: Question, answer: &Answer) -> Result<Read>
    ensures ok { IfOk result (λ it. it ≡ read.Tree tree.now question answer.now) }
    ensures err { IfErr result (λ e. e ≡ NoMemory) }
{
    let tree = match tree.clone() {
        Ok(tree) => tree,
        Err(e) => {
            drop(question);
            return Err(e);
        }
    };
    match answer.clone() {
        Ok(answer) => Ok(Read::Tree(tree, question, answer)),
        Err(e) => {
            drop(tree);
            drop(question);
            Err(e)
        }
    }
}

// Adds a read at the end of the history, with the number of its caller, and the same of the caller's list.
fn note_both(history: &mut Vec<Entry>, made: &mut Vec<Made>, number: u64, read: Read, again: Read)
    requires room { vec_len history.old < vec_capacity history.old }
    requires room_there { vec_len made.old < vec_capacity made.old }
    requires again { again ≡ read }
    ensures history { entry_values history.new.items ≡ entry_values history.old.items ++ entries_of number (ReadMade read ∷ []) }
    ensures made { made_values made.new.items ≡ made_values made.old.items ++ ReadMade read ∷ [] }
    ensures longer { length history.new.items ≡ length history.old.items + 1 }
    ensures longer_there { length made.new.items ≡ length made.old.items + 1 }
{
    history.push_reserved(Entry {
        by: number,
        made: Made::Read(read),
    });
    made.push_reserved(Made::Read(again));
}

// Adds a read at the ends of both lists, and counts it. Want of memory for that refuses it; then nothing is added.
fn note_read<L: Ledger>(
    history: &mut Vec<Entry>,
    calls: &mut Book<L>,
    number: u64,
    made: &mut Vec<Made>,
    share: &mut Share<L>,
    read: Read,
) -> Result<()>
    requires part { share.old.parts ≡ 1 }
    requires counted { length history.old.items ≡ calls.old.total }
    requires shared { share.old.amount ≡ length made.old.items }
    ensures history { entry_values history.new.items ≡ entry_values history.old.items ++ entries_of number (read_made (λ done. read) result) }
    ensures made { made_values made.new.items ≡ made_values made.old.items ++ read_made (λ done. read) result }
    ensures err { IfErr result (λ e. e ≡ NoMemory) }
    ensures part { share.new.parts ≡ 1 }
    ensures counted { length history.new.items ≡ calls.new.total }
    ensures shared { share.new.amount ≡ length made.new.items }
{
    if !make_room(history, made) {
        drop(read);
        return Err(Error::NoMemory);
    }
    match read.clone() {
        Ok(again) => {
            note_both(history, made, number, read, again);
            calls.add(share, 1);
            Ok(())
        }
        Err(e) => {
            drop(read);
            Err(e)
        }
    }
}

// What a tree answers now.
#[tactic(auto, using(crate::proofs::ReadMakes::answered, crate::proofs::ReadMakes::is_answer))]
fn answer_now<P: Pages, M: MergeOperator>(
    machine: &Machine<P, M>,
    tree: &Tree,
    question: &Question,
) -> Result<Answer>
    ensures kind { IfOk result (IsAnswerTo question.now) }
    ensures err { IfErr result (RefusesNow P.store M.meant machine.now (OfTree tree.now question.now)) }
    ensures now { IfOk result (λ answer. ReadsNow P.store M.meant machine.now (tree.now ∷ []) (read.Tree tree.now question.now answer)) }
{
    machine.audit();
    answer_to(machine, tree, question)
}

// A question about a tree. Its answer is added at the ends of both lists, and counted. Want of memory for that refuses it.
#[tactic(auto, using(crate::proofs::Refusing::after_read))]
pub(crate) fn answer_noting<P: Pages, L: Ledger, M: MergeOperator>(
    machine: &Machine<P, M>,
    history: &mut Vec<Entry>,
    calls: &mut Book<L>,
    number: u64,
    made: &mut Vec<Made>,
    share: &mut Share<L>,
    tree: &Tree,
    question: Question,
) -> Result<Answer>
    requires part { share.old.parts ≡ 1 }
    requires counted { length history.old.items ≡ calls.old.total }
    requires shared { share.old.amount ≡ length made.old.items }
    ensures kind { IfOk result (IsAnswerTo question) }
    ensures ok { IfOk result (λ answer. made_values made.new.items ≡ made_values made.old.items ++ ReadMade (read.Tree tree.now question answer) ∷ []) }
    ensures err { OnErr result (made_values made.new.items ≡ made_values made.old.items) }
    ensures reads { IfOk result (λ answer. ReadsNow P.store M.meant machine.now (tree.now ∷ []) (read.Tree tree.now question answer)) }
    ensures refused { IfErr result (RefusesNow P.store M.meant machine.now (OfTree tree.now question)) }
    ensures history { entry_values history.new.items ≡ entry_values history.old.items ++ entries_of number (read_made (λ answer. read.Tree tree.now question answer) result) }
    ensures made { made_values made.new.items ≡ made_values made.old.items ++ read_made (λ answer. read.Tree tree.now question answer) result }
    ensures part { share.new.parts ≡ 1 }
    ensures counted { length history.new.items ≡ calls.new.total }
    ensures shared { share.new.amount ≡ length made.new.items }
{
    let answer = match answer_now(machine, tree, &question) {
        Ok(answer) => answer,
        Err(e) => {
            drop(question);
            return Err(e);
        }
    };
    let read = match read_of(tree, question, &answer) {
        Ok(read) => read,
        Err(e) => {
            drop(answer);
            return Err(e);
        }
    };
    match note_read(history, calls, number, made, share, read) {
        Ok(()) => Ok(answer),
        Err(e) => {
            drop(answer);
            Err(e)
        }
    }
}

// The names of all trees now.
#[tactic(auto, using(crate::proofs::ReadMakes::named))]
fn names_now<P: Pages, M: MergeOperator>(machine: &Machine<P, M>) -> Result<Names>
    ensures ok { IfOk result (λ names. ReadsNow P.store M.meant machine.now [] (read.Names names)) }
    ensures err { IfErr result (RefusesNow P.store M.meant machine.now OfNames) }
{
    names_of(machine)
}

// The same names, as a read of them is noted.
fn read_of_names(names: &Names) -> Result<Read>
    ensures ok { IfOk result (λ it. it ≡ read.Names names.now) }
    ensures err { IfErr result (λ e. e ≡ NoMemory) }
{
    Ok(Read::Names(names.clone()?))
}

// The names of all trees, and what is to be noted of it, as of a question.
#[tactic(auto, using(crate::proofs::Refusing::after_read))]
pub(crate) fn names_noting<P: Pages, M: MergeOperator>(
    machine: &Machine<P, M>,
    history: &mut Vec<Entry>,
    made: &mut Vec<Made>,
) -> (Result<Names>, Option<(Made, Made)>)
    ensures ok { IfOk result.0 (λ names. first_noted result.1 ≡ ReadMade (read.Names names) ∷ []) }
    ensures err { OnErr result.0 (first_noted result.1 ≡ []) }
    ensures reads { IfOk result.0 (λ names. ReadsNow P.store M.meant machine.now [] (read.Names names)) }
    ensures refused { IfErr result.0 (RefusesNow P.store M.meant machine.now OfNames) }
    ensures again { second_noted result.1 ≡ first_noted result.1 }
    ensures history { history.new.items ≡ history.old.items }
    ensures made { made.new.items ≡ made.old.items }
    ensures room { IfSome result.1 (λ both. vec_len history.new < vec_capacity history.new) }
    ensures room_there { IfSome result.1 (λ both. vec_len made.new < vec_capacity made.new) }
{
    let names = match names_now(machine) {
        Ok(names) => names,
        Err(e) => return (Err(e), None),
    };
    let read = match read_of_names(&names) {
        Ok(read) => read,
        Err(e) => {
            drop(names);
            return (Err(e), None);
        }
    };
    match room_and_reads(history, made, read) {
        Some(both) => (Ok(names), Some(both)),
        None => {
            drop(names);
            (Err(Error::NoMemory), None)
        }
    }
}

// The collection of every tree now.
fn export_now<P: Pages, M: MergeOperator>(machine: &Machine<P, M>) -> Result<Collections>
    ensures ok { IfOk result (λ all. ReadsNow P.store M.meant machine.now [] (read.Export all)) }
    ensures err { IfErr result (RefusesNow P.store M.meant machine.now OfAll) }
{
    machine.audit();
    export_of(machine)
}

// The same collections, as a read of them is noted.
fn read_of_export(all: &Collections) -> Result<Read>
    ensures ok { IfOk result (λ it. it ≡ read.Export all.now) }
    ensures err { IfErr result (λ e. e ≡ NoMemory) }
{
    Ok(Read::Export(all.clone()?))
}

// The collection of every tree, and what is to be noted of it, as of a question. The collections are shared, and not copied.
#[tactic(auto, using(crate::proofs::Refusing::after_read))]
pub(crate) fn export_noting<P: Pages, M: MergeOperator>(
    machine: &Machine<P, M>,
    history: &mut Vec<Entry>,
    made: &mut Vec<Made>,
) -> (Result<Collections>, Option<(Made, Made)>)
    ensures ok { IfOk result.0 (λ all. first_noted result.1 ≡ ReadMade (read.Export all) ∷ []) }
    ensures err { OnErr result.0 (first_noted result.1 ≡ []) }
    ensures reads { IfOk result.0 (λ all. ReadsNow P.store M.meant machine.now [] (read.Export all)) }
    ensures refused { IfErr result.0 (RefusesNow P.store M.meant machine.now OfAll) }
    ensures again { second_noted result.1 ≡ first_noted result.1 }
    ensures history { history.new.items ≡ history.old.items }
    ensures made { made.new.items ≡ made.old.items }
    ensures room { IfSome result.1 (λ both. vec_len history.new < vec_capacity history.new) }
    ensures room_there { IfSome result.1 (λ both. vec_len made.new < vec_capacity made.new) }
{
    let all = match export_now(machine) {
        Ok(all) => all,
        Err(e) => return (Err(e), None),
    };
    let read = match read_of_export(&all) {
        Ok(read) => read,
        Err(e) => {
            drop(all);
            return (Err(e), None);
        }
    };
    match room_and_reads(history, made, read) {
        Some(both) => (Ok(all), Some(both)),
        None => {
            drop(all);
            (Err(Error::NoMemory), None)
        }
    }
}
