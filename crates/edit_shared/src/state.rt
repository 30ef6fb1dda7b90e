//! A call of what is under the lock.
ghost use Rattle.std.specs.Prelude.{◌≡◌, ◌++◌};
ghost use Rattle.machine_alone.specs.Values.{slots_of};
ghost use Rattle.machine_shared.specs.Notes.{entries_of, noted_in};
ghost use Rattle.machine_shared.specs.Steps.{SlotStep};

use machine_shared::{Caller, State};
use sled_model::{MergeOperator, Outcome, Slot};
use sled_store::Pages;
use std::sync::ledger::Ledger;

/// One step of the call in the slot. What it decides is noted as this caller's.
pub fn step<P: Pages, L: Ledger, M: MergeOperator>(
    state: &mut State<P, L, M>,
    me: &mut Caller<L>,
    slot: Slot,
) -> Outcome
    ensures step { SlotStep P.store P.flush_number M.meant state.old.machine slot result state.new.machine }
    ensures history { state.new.history ≡ state.old.history ++ entries_of me.old.number (noted_in result (slots_of state.old.machine.flights slot)) }
    ensures made { me.new.made ≡ me.old.made ++ noted_in result (slots_of state.old.machine.flights slot) }
    ensures number { me.new.number ≡ me.old.number }
    ensures opening { state.new.opening ≡ state.old.opening }
{
    state.step(me, slot)
}
