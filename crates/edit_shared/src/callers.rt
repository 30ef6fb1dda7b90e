//! Two callers beside each other.
ghost use Rattle.std.specs.Prelude.{◌≡◌, ◌++◌};
ghost use Rattle.machine_alone.specs.Values.{slots_of};
ghost use Rattle.machine_shared.specs.Notes.{entries_of, noted_in};

use machine_shared::{Caller, State};
use sled_model::{MergeOperator, Outcome, Slot};
use sled_store::Pages;
use std::sync::ledger::Ledger;

/// One step of the call in the slot, by one of two callers.
pub fn step_of_one<P: Pages, L: Ledger, M: MergeOperator>(
    state: &mut State<P, L, M>,
    me: &mut Caller<L>,
    other: &mut Caller<L>,
    slot: Slot,
) -> Outcome
    ensures history { state.new.history ≡ state.old.history ++ entries_of me.old.number (noted_in result (slots_of state.old.machine.flights slot)) }
    ensures made { me.new.made ≡ me.old.made ++ noted_in result (slots_of state.old.machine.flights slot) }
    ensures untouched { other.new.made ≡ other.old.made }
{
    let _ = &other;
    state.step(me, slot)
}
