//! Calls of a machine.
ghost use Rattle.sled_model.specs.declared.outcome.Step.TheVariants as step;
ghost use Rattle.machine_alone.specs.Step.{MachineStep, MachineSound, MachineActs, MachineFollows, MachinePasses, MachineSlots, MachineKeepsTreePages, MachineLeaksNoPage};

use machine_alone::Machine;
use sled_model::{MergeOperator, Outcome, Slot};
use sled_store::Pages;

/// One step of the call in the slot.
pub fn step<P: Pages, M: MergeOperator>(machine: &mut Machine<P, M>, slot: Slot) -> Outcome
    ensures step { MachineStep P.store P.flush_number M.meant machine.old (step.Step slot) result machine.new }
    ensures sound { MachineSound P.store machine.old machine.new }
    ensures does { MachineActs P.store M.meant machine.old (step.Step slot) result machine.new }
    ensures follows { MachineFollows P.store M.meant machine.old (step.Step slot) result machine.new }
    ensures passes { MachinePasses P.store machine.old (step.Step slot) result machine.new }
    ensures slots { MachineSlots machine.old (step.Step slot) result machine.new }
    ensures loses { MachineKeepsTreePages P.store machine.old (step.Step slot) result machine.new }
    ensures leaves { MachineLeaksNoPage P.store machine.old (step.Step slot) result machine.new }
{
    machine.step(slot)
}
