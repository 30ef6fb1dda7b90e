//! The calls in flight, by slot.
ghost use Rattle.std.specs.Prelude.{◌≡◌, false, ℕ, Some, None, is_some, OnOk, OnErr, IfErr};
ghost use Rattle.std.specs.Ordering.{nat_cmp};
ghost use Rattle.std.specs.BTreeMap.{get};
ghost use Rattle.sled_nodes.specs.declared.error.Error.TheVariants.{NoMemory};
ghost use Rattle.sled_store.specs.Update.{put_at};
ghost use Rattle.tree_quick.specs.Outcomes.{went_of};
ghost use Rattle.tree_steps.specs.Outcomes.{outcome_of};
ghost use Rattle.sled_tree.specs.declared.flight.InFlight.{InFlight};
ghost use Rattle.machine_alone.specs.StepsInSlot.{flight_after};

use sled_model::{Outcome, Reply};
use sled_nodes::{Error, Result};
use sled_tree::{InFlight, Went};
use std::collections::BTreeMap;

// The outcome of a step, as a machine returns it.
pub(crate) fn outcome_of(went: Went) -> Outcome
    ensures { result ≡ outcome_of went }
{
    match went {
        Went::Moved => Outcome::Moved,
        Went::Yielded(key, value) => Outcome::Yielded(key, value),
        Went::Decided(reply) => Outcome::Decided(reply),
        Went::Refused(e) => Outcome::Refused(e),
    }
}

// How a call came out that was made at once.
pub(crate) fn outcome_at_once(made: Result<Reply>) -> Outcome
    ensures { result ≡ outcome_of (went_of made) }
{
    match made {
        Ok(reply) => Outcome::Decided(reply),
        Err(e) => Outcome::Refused(e),
    }
}

// Puts a call into a slot. Refused with `NoMemory` alone.
pub(crate) fn add(flights: &mut BTreeMap<u64, InFlight>, slot: u64, flight: InFlight) -> Result<()>
    ensures ok { OnOk result ((n : ℕ) → get nat_cmp flights.new n ≡ put_at (get nat_cmp flights.old) slot (Some flight) n) }
    ensures same { OnErr result (flights.new.entries ≡ flights.old.entries) }
    ensures err { IfErr result (λ e. e ≡ NoMemory) }
{
    match flights.insert(slot, flight) {
        Ok(none) => {
            drop(none);
            Ok(())
        }
        Err(failed) => {
            drop(failed);
            Err(Error::NoMemory)
        }
    }
}

// Drops the call in a slot, and says whether there was one.
pub(crate) fn remove(flights: &mut BTreeMap<u64, InFlight>, slot: u64) -> bool
    ensures was { result ≡ is_some (get nat_cmp flights.old slot) }
    ensures gone { (n : ℕ) → get nat_cmp flights.new n ≡ put_at (get nat_cmp flights.old) slot None n }
    ensures same { result ≡ false → flights.new.entries ≡ flights.old.entries }
{
    match flights.remove(&slot) {
        Some(flight) => {
            drop(flight);
            true
        }
        None => false,
    }
}

// The outcome of the call in a slot. One that has ended is dropped.
pub(crate) fn settle(flights: &mut BTreeMap<u64, InFlight>, slot: u64, went: Went) -> Outcome
    ensures told { result ≡ outcome_of went }
    ensures stays { (flight : InFlight) → get nat_cmp flights.old slot ≡ Some flight → (n : ℕ) → get nat_cmp flights.new n ≡ put_at (get nat_cmp flights.old) slot (flight_after went flight) n }
{
    match went {
        Went::Moved => Outcome::Moved,
        Went::Yielded(key, value) => Outcome::Yielded(key, value),
        Went::Decided(reply) => {
            remove(flights, slot);
            Outcome::Decided(reply)
        }
        Went::Refused(e) => {
            remove(flights, slot);
            Outcome::Refused(e)
        }
    }
}
