//! Groups that transactions wrote, each noted with what was before at the keys of its writes; over the parts of a state.
ghost use Rattle.std.specs.Prelude.{◌≡◌, ◌⊎◌, ◌<◌, ◌++◌, ◌∷◌, [], map, IfErr, IfOk, OnOk, OnErr, IfSome, vec_len, vec_capacity};
ghost use Rattle.sled_nodes.specs.Order.{Key};
ghost use Rattle.sled_nodes.specs.declared.error.Error.TheVariants.{NoMemory};
ghost use Rattle.tree_reads.specs.Walk.{once};
ghost use Rattle.sled.specs.Reads.{RefusesReading};
ghost use Rattle.sled_model.specs.Groups.{writes_on};
ghost use Rattle.sled_model.specs.State.{maps_of};
ghost use Rattle.sled.specs.Values.{db_state};
ghost use Rattle.machine_shared.specs.Made.{TransactionMade, made_value};
ghost use Rattle.machine_shared.specs.Stood.{stands_at, stood_in};
ghost use Rattle.machine_shared.specs.Transacted.{CannotNote, MakesGroup};
ghost use Rattle.machine_shared.specs.Transactions.{transaction_made};
ghost use Rattle.machine_shared.specs.theory.Noting.{first_noted, second_noted};
ghost use Rattle.machine_shared.specs.theory.Transacting.{GroupMade, GroupRefused, GroupUnmade, StopsGroup, is_decided, is_refused_as, is_undecided};

use crate::caller::Caller;
use crate::entry::{Entry, Made};
use crate::noting::{make_room, note_and_count};
use crate::state::State;
use machine_alone::Machine;
use sled_batch::Batch;
use sled_model::{MergeOperator, Outcome, Tree, Whole};
use sled_nodes::{Error, IVec, Result, clone_value};
use sled_store::Pages;
use std::alloc::Global;
use std::sync::ledger::Ledger;

// The value at a key of a tree.
#[tactic(auto, using(crate::proofs::Stands::stood_of))]
fn stood_at<P: Pages, M: MergeOperator>(
    machine: &Machine<P, M>,
    tree: &Tree,
    key: &IVec,
    value: &Option<IVec>,
) -> Result<Option<IVec>>
    ensures ok { IfOk result (λ stood. stood ≡ stands_at (maps_of (db_state P.store M.meant machine.now.db)) (record { tree = tree.now; key = key.now; value = value.now })) }
    ensures err { IfErr result (RefusesReading P.store M.meant machine.now.db tree.now once) }
{
    let _ = value;
    machine.db().get(tree, key.as_ref())
}

// Adds what is at the keys of a batch to a list.
fn add_stood<P: Pages, M: MergeOperator>(
    machine: &Machine<P, M>,
    tree: &Tree,
    batch: &Batch,
    stood: &mut Vec<Option<IVec>>,
) -> Result<()>
    ensures ok { OnOk result (stood.new.items ≡ stood.old.items ++ map (stands_at (maps_of (db_state P.store M.meant machine.now.db))) (writes_on tree.now batch.now)) }
    ensures err { IfErr result (λ e. (e ≡ NoMemory) ⊎ RefusesReading P.store M.meant machine.now.db tree.now once e) }
{
    for (key, value) in batch.writes().iter() {
        stood.push(stood_at(machine, tree, key, value)?)?;
    }
    Ok(())
}

// What is at the keys of all batches of a group.
fn stood_in<P: Pages, M: MergeOperator>(
    machine: &Machine<P, M>,
    group: &[(Tree, Batch)],
) -> Result<Vec<Option<IVec>>>
    ensures ok { IfOk result (λ stood. stood.items ≡ stood_in (maps_of (db_state P.store M.meant machine.now.db)) group.now) }
    ensures err { IfErr result (CannotNote P.store M.meant machine.now.db group.now) }
{
    let mut stood = Vec::new(machine.db().allocator());
    for batch in group {
        if let Err(e) = add_stood(machine, &batch.0, &batch.1, &mut stood) {
            drop(stood);
            return Err(e);
        }
    }
    Ok(stood)
}

// The same values.
fn copied_values(alloc: Global, values: &[Option<IVec>]) -> Result<Vec<Option<IVec>>>
    ensures ok { IfOk result (λ copy. copy.items ≡ values.now) }
    ensures err { IfErr result (λ e. e ≡ NoMemory) }
{
    let mut copy = Vec::new(alloc);
    for value in values {
        copy.push(clone_value(value)?)?;
    }
    Ok(copy)
}

// The same batch on the same tree.
fn copied_batch(alloc: Global, batch: &(Tree, Batch)) -> Result<(Tree, Batch)>
    ensures ok { IfOk result (λ copy. copy ≡ batch.now) }
    ensures err { IfErr result (λ e. e ≡ NoMemory) }
{
    let tree = batch.0.clone()?;
    match batch.1.clone(alloc) {
        Ok(writes) => Ok((tree, writes)),
        Err(e) => {
            drop(tree);
            Err(e)
        }
    }
}

// The same group.
fn copied_group(alloc: Global, group: &[(Tree, Batch)]) -> Result<Vec<(Tree, Batch)>>
    ensures ok { IfOk result (λ copy. copy.items ≡ group.now) }
    ensures err { IfErr result (λ e. e ≡ NoMemory) }
{
    let mut copy = Vec::new(alloc);
    for batch in group {
        copy.push(copied_batch(alloc, batch)?)?;
    }
    Ok(copy)
}

// A group, with what was at its keys, as it is noted.
fn made_of(alloc: Global, group: &[(Tree, Batch)], stood: Vec<Option<IVec>>) -> Result<Made>
    ensures ok { IfOk result (λ made. made_value made ≡ TransactionMade group.now stood.items) }
    ensures err { IfErr result (λ e. e ≡ NoMemory) }
{
    match copied_group(alloc, group) {
        Ok(copy) => Ok(Made::Transaction(copy, stood)),
        Err(e) => {
            drop(stood);
            Err(e)
        }
    }
}

// The same, twice.
fn twice(alloc: Global, group: &[(Tree, Batch)], stood: Vec<Option<IVec>>) -> Result<(Made, Made)>
    ensures first { IfOk result (λ both. made_value both.0 ≡ TransactionMade group.now stood.items) }
    ensures second { IfOk result (λ both. made_value both.1 ≡ TransactionMade group.now stood.items) }
    ensures err { IfErr result (λ e. e ≡ NoMemory) }
{
    let again = match copied_values(alloc, stood.as_slice()) {
        Ok(again) => again,
        Err(e) => {
            drop(stood);
            return Err(e);
        }
    };
    let one = match made_of(alloc, group, stood) {
        Ok(one) => one,
        Err(e) => {
            drop(again);
            return Err(e);
        }
    };
    match made_of(alloc, group, again) {
        Ok(two) => Ok((one, two)),
        Err(e) => {
            drop(one);
            Err(e)
        }
    }
}

// A group as it is to be noted, twice, with room for it in both lists.
fn room_and_group<P: Pages, M: MergeOperator>(
    machine: &Machine<P, M>,
    history: &mut Vec<Entry>,
    made: &mut Vec<Made>,
    group: &[(Tree, Batch)],
) -> Result<(Made, Made)>
    ensures first { IfOk result (λ both. made_value both.0 ≡ transaction_made (maps_of (db_state P.store M.meant machine.now.db)) group.now) }
    ensures second { IfOk result (λ both. made_value both.1 ≡ transaction_made (maps_of (db_state P.store M.meant machine.now.db)) group.now) }
    ensures err { IfErr result (CannotNote P.store M.meant machine.now.db group.now) }
    ensures history { history.new.items ≡ history.old.items }
    ensures made { made.new.items ≡ made.old.items }
    ensures room { IfOk result (λ both. vec_len history.new < vec_capacity history.new) }
    ensures room_there { IfOk result (λ both. vec_len made.new < vec_capacity made.new) }
{
    if !make_room(history, made) {
        return Err(Error::NoMemory);
    }
    match stood_in(machine, group) {
        Ok(stood) => twice(machine.db().allocator(), group, stood),
        Err(e) => Err(e),
    }
}

// Whether a whole call was decided.
pub(crate) fn decided(outcome: Outcome) -> Result<()>
    ensures ok { OnOk result (is_decided outcome) }
    ensures err { OnErr result (is_undecided outcome) }
    ensures why { IfErr result (is_refused_as outcome) }
{
    match outcome {
        Outcome::Decided(reply) => {
            drop(reply);
            Ok(())
        }
        Outcome::Refused(e) => Err(e),
        // no whole call has another outcome
        other => {
            drop(other);
            Err(Error::Closed)
        }
    }
}

// Makes a group.
#[tactic(auto, using(crate::proofs::GroupStates::group_made, crate::proofs::GroupStates::group_refused))]
fn make_now<P: Pages, M: MergeOperator>(
    machine: &mut Machine<P, M>,
    group: Vec<(Tree, Batch)>,
) -> Result<()>
    ensures ok { OnOk result (GroupMade P.store P.flush_number M.meant machine.old group machine.new) }
    ensures err { IfErr result (GroupRefused P.store P.flush_number M.meant machine.old group machine.new) }
{
    let outcome = machine.whole(Whole::Group(group));
    decided(outcome)
}

// Makes a group, and what is to be noted of it, twice, with room for it in both lists. Room and copies are made before it, and want of
// memory for them refuses it.
fn group_noting<P: Pages, M: MergeOperator>(
    machine: &mut Machine<P, M>,
    history: &mut Vec<Entry>,
    made: &mut Vec<Made>,
    group: Vec<(Tree, Batch)>,
) -> (Result<()>, Option<(Made, Made)>)
    ensures ok { OnOk result.0 (GroupMade P.store P.flush_number M.meant machine.old group machine.new) }
    ensures noted { OnOk result.0 (first_noted result.1 ≡ transaction_made (maps_of (db_state P.store M.meant machine.old.db)) group.items ∷ []) }
    ensures err { IfErr result.0 (GroupUnmade P.store P.flush_number M.meant machine.old group machine.new) }
    ensures none { OnErr result.0 (first_noted result.1 ≡ []) }
    ensures again { second_noted result.1 ≡ first_noted result.1 }
    ensures history { history.new.items ≡ history.old.items }
    ensures made { made.new.items ≡ made.old.items }
    ensures room { IfSome result.1 (λ both. vec_len history.new < vec_capacity history.new) }
    ensures room_there { IfSome result.1 (λ both. vec_len made.new < vec_capacity made.new) }
{
    let both = match room_and_group(machine, history, made, group.as_slice()) {
        Ok(both) => both,
        Err(e) => {
            drop(group);
            return (Err(e), None);
        }
    };
    match make_now(machine, group) {
        Ok(()) => (Ok(()), Some(both)),
        Err(e) => {
            drop(both);
            (Err(e), None)
        }
    }
}

impl<P: Pages, L: Ledger, M: MergeOperator> State<P, L, M> {
    // Makes a group that a transaction wrote, and notes it as this caller's, with what was before at the keys of its writes.
    pub(crate) fn make(&mut self, me: &mut Caller<L>, group: Vec<(Tree, Batch)>) -> Result<()>
        ensures ok { OnOk result (me.new.made ≡ me.old.made ++ transaction_made (maps_of (db_state P.store M.meant self.old.machine.db)) group.items ∷ []) }
        ensures err { OnErr result (me.new.made ≡ me.old.made) }
        ensures number { me.new.number ≡ me.old.number }
        ensures makes { OnOk result (MakesGroup P.store P.flush_number M.meant group.items me.old me.new self.old self.new) }
        ensures stops { IfErr result (λ e. StopsGroup P.store P.flush_number M.meant group.items e me.old me.new self.old self.new) }
    {
        self.machine.audit();
        let Caller {
            number,
            made,
            share,
        } = me;
        let (ended, noted) = group_noting(&mut self.machine, &mut self.history, made, group);
        note_and_count(
            &mut self.history,
            &mut self.calls,
            *number,
            made,
            share,
            noted,
        );
        ended
    }
}
