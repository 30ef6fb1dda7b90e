//! A step of a machine, and the refusal of one.
ghost use Rattle.std.specs.Prelude.{◌≡◌, true, false, [], None};
ghost use Rattle.sled_nodes.specs.declared.error.Error.TheVariants.{NoMemory};
ghost use Rattle.sled_model.specs.Refusal.{ToPoint, must_refuse};
ghost use Rattle.sled_model.specs.declared.outcome.Outcome.TheVariants.{Refused};
ghost use Rattle.sled.specs.Values.{db_state};
ghost use Rattle.machine_alone.specs.Values.{slots_of};
ghost use Rattle.machine_shared.specs.Notes.{noted_in};
ghost use Rattle.machine_shared.specs.Steps.{SlotStep};
ghost use Rattle.machine_shared.specs.theory.Noting.{CanStep};

use machine_alone::Machine;
use sled_model::{Call, MAX_LOOPS, MergeOperator, Outcome, Slot, Tree};
use sled_nodes::Error;
use sled_store::Pages;

// A step of the call in the slot.
pub(crate) fn step<P: Pages, M: MergeOperator>(machine: &mut Machine<P, M>, slot: Slot) -> Outcome
    ensures { SlotStep P.store P.flush_number M.meant machine.old slot result machine.new }
{
    machine.step(slot)
}

// Whether the call passes the tests.
fn passes<P: Pages, M: MergeOperator>(machine: &Machine<P, M>, tree: &Tree, call: &Call) -> bool
    ensures yes { result ≡ true → must_refuse (db_state P.store M.meant machine.now.db) (ToPoint tree.now call.now) ≡ None }
    ensures no { must_refuse (db_state P.store M.meant machine.now.db) (ToPoint tree.now call.now) ≡ None → result ≡ true }
{
    match machine.db().check_call(tree, call) {
        Ok(()) => true,
        Err(e) => {
            drop(e);
            false
        }
    }
}

// Whether the call in the slot passes the tests and has a turn left. If it has none its next step says so.
fn can_step<P: Pages, M: MergeOperator>(machine: &Machine<P, M>, slot: Slot) -> bool
    ensures yes { result ≡ true → CanStep P.store M.meant machine.now slot }
    ensures no { CanStep P.store M.meant machine.now slot → result ≡ true }
{
    let Some(job) = machine.job(slot) else {
        return false;
    };
    let Some(turns) = machine.turns(slot) else {
        return false;
    };
    turns < MAX_LOOPS && passes(machine, &job.tree, &job.call)
}

// Refuses the next step of the call in the slot for want of memory. The slot is gone, and nothing else changes.
fn refuse<P: Pages, M: MergeOperator>(machine: &mut Machine<P, M>, slot: Slot) -> Outcome
    requires { CanStep P.store M.meant machine.old slot }
    ensures step { SlotStep P.store P.flush_number M.meant machine.old slot result machine.new }
    ensures refused { result ≡ Refused NoMemory }
{
    let given_up = machine.abandon(slot);
    drop(given_up);
    Outcome::Refused(Error::NoMemory)
}

// The step of a call that cannot be noted for want of memory: it is refused by a test or for its turns, if it would be, and else for want
// of memory. It does no page action.
pub(crate) fn refuse_step<P: Pages, M: MergeOperator>(
    machine: &mut Machine<P, M>,
    slot: Slot,
) -> Outcome
    ensures step { SlotStep P.store P.flush_number M.meant machine.old slot result machine.new }
    ensures none { noted_in result (slots_of machine.old.flights slot) ≡ [] }
{
    if can_step(machine, slot) {
        refuse(machine, slot)
    } else {
        step(machine, slot)
    }
}
