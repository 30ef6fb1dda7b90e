//! Kept replies, and what they say.
ghost use Rattle.std.specs.Prelude.{◌≡◌, IfSome, Some};
ghost use Rattle.sled_nodes.specs.Order.{Key};
ghost use Rattle.sled_model.specs.State.{CallInFlight};
ghost use Rattle.sled_model.specs.declared.call.Call.TheVariants.{Get};
ghost use Rattle.sled.specs.Values.{db_state};
ghost use Rattle.machine_alone.specs.Values.{configuration_of, slots_of};
ghost use Rattle.edit_calls.specs.Kept.{RepliesAt, AreValueAt};

use machine_alone::Machine;
use sled_model::{MergeOperator, Outcome, Reply, Slot};
use sled_store::Pages;

/// A step of the call in the slot, and the two kept replies if it decides the call: what it replies to the map as it was at this step.
/// Those of a `Get` are what the map has now too, as no other call was stepped since.
pub fn get_kept<P: Pages, M: MergeOperator>(
    machine: &mut Machine<P, M>,
    slot: Slot,
) -> (Outcome, Option<(Reply, Reply)>)
    ensures replies { IfSome result.1 (RepliesAt (configuration_of P.store P.flush_number M.meant machine.old).state slot) }
    ensures now { (flying : CallInFlight) (key : Key) → slots_of machine.old.flights slot ≡ Some flying → flying.call ≡ Get key → IfSome result.1 (AreValueAt (db_state P.store M.meant machine.new.db) flying.tree key) }
{
    let told = machine.step_kept(slot);
    told
}
