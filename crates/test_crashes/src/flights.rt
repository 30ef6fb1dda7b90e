//! Calls in flight, which a machine makes step by step.
use crate::maps::{key_of, value_of};
use crate::script::Step;
use crate::store::{Files, Store};
use example_parts::Adds;
use machine_alone::Machine;
use sled::{Call, Outcome, Slot};
use std::alloc::Global;
use test_report::trouble::{Result, Trouble};

// The insert of a step begins.
fn begin(alloc: Global, machine: &mut Machine<Store, Adds>, step: &Step) -> Result<Slot> {
    let tree = machine.db().default_tree()?;
    let value = value_of(alloc, step.value(0))?;
    let call = Call::insert(alloc, &key_of(step.key), &value)?;
    drop(value);
    let slot = machine.begin(&tree, call)?;
    drop(tree);
    Ok(slot)
}

// A step of it. Nothing is said of it, so that what makes it has less to prove.
fn step_once(machine: &mut Machine<Store, Adds>, slot: Slot) -> Outcome {
    machine.step(slot)
}

// So many steps of it, unless it ends before: whether it was decided.
fn step_on(machine: &mut Machine<Store, Adds>, slot: Slot, turns: u64) -> Result<bool> {
    for _ in 0..turns {
        match step_once(machine, slot) {
            Outcome::Moved => {}
            Outcome::Decided(reply) => {
                drop(reply);
                return Ok(true);
            }
            Outcome::Refused(e) => return Err(Trouble::Refused(e)),
            other => {
                drop(other);
                return Err(Trouble::Wrong("a call in flight ended otherwise"));
            }
        }
    }
    Ok(false)
}

// Makes the insert of a step: whether it was decided.
fn insert(alloc: Global, machine: &mut Machine<Store, Adds>, step: &Step) -> Result<bool> {
    let slot = begin(alloc, machine, step)?;
    step_on(machine, slot, step.turns())
}

/// Makes the insert of a step in the default tree, by a machine over the database: the database, and whether the insert was decided. What
/// one that is left before did to the pages stays.
pub fn fly(alloc: Global, db: Files, step: &Step) -> (Files, Result<bool>) {
    let mut machine = Machine::new(db);
    let decided = insert(alloc, &mut machine, step);
    (machine.into_db(), decided)
}
