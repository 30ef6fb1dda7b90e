//! What is under the lock.
use crate::entry::Entry;
use crate::opening::Opening;
use crate::scans::Scans;
use machine_alone::Machine;
use sled_model::MergeOperator;
use sled_store::Pages;
use std::marker::Model;
use std::sync::ledger::{Book, Ledger, Share};

/// A machine, what its database had when it was shared, and what callers made since, in order. This history is legal, which
/// `audit` says. Scans make no entry there; what they did is in a list of its own, if that was asked for.
pub struct State<P: Pages, L: Ledger, M = Box<dyn MergeOperator + Send>> {
    pub(crate) machine: Machine<P, M>,
    // the database has it too, and compares at the end
    pub(crate) opening: Opening,
    pub(crate) history: Vec<Entry>,
    // as many as the history has entries
    pub(crate) calls: Book<L>,
    // what scans did meanwhile, if that is noted
    pub(crate) scans: Scans,
}

impl<P: Pages, L: Ledger, M> Model for State<P, L, M> {
    ghost use Rattle.machine_shared.specs.Values.{StateValue};

    ghost Value = { StateValue P M };

    ghost use Rattle.machine_shared.specs.Made.{entry_values};
    ghost use Rattle.machine_shared.specs.Sound.{IsState};

    ghost view = { λ s. record { machine = s.machine; opening = s.opening; history = entry_values s.history.items; scans = s.scans } };

    ghost use Rattle.std.specs.Prelude.{length};
    ghost use Rattle.machine_shared.specs.Scans.{AreInOrder};
    ghost use Rattle.machine_shared.specs.UnderWay.{MachineScans};

    ghost invariant = { λ s. (is : IsState P.store s.machine s.opening (entry_values s.history.items) s.calls.total) × AreInOrder 0 s.scans.notes (length s.history.items) × MachineScans P.store s.machine is.crashes.moments (length (entry_values s.history.items)) s.scans };
}

impl<P: Pages, L: Ledger, M: MergeOperator> State<P, L, M> {
    ghost use Rattle.std.specs.Prelude.{◌≡◌, ◌<◌};
    ghost use Rattle.machine_shared.specs.Sound.{HasCrashMaps, HasHistory, HasLegalHistory, HasRisingIds, HasScans};
    ghost use Rattle.machine_shared.specs.UnderLock.{IsHeld};

    /// The machine, lent: its database, its pages and its calls in flight. So a program can ask whether the database of a state is open.
    ///
    /// ```
    /// let is_open = !state.machine().db().pages().in_group(); // While it is, the history leads to the maps now.
    /// ```
    pub fn machine(&self) -> &Machine<P, M>
        ensures { result.now ≡ self.now.machine }
    {
        &self.machine
    }

    /// The machine. The history, which is legal, is dropped.
    ///
    /// ```
    /// let db = state.into_machine().into_db();
    /// ```
    pub fn into_machine(self) -> Machine<P, M>
        ensures machine { result ≡ self.machine }
        ensures legal { HasLegalHistory P.store self }
        ensures leads { HasHistory self }
        ensures crashes { HasCrashMaps P.store self }
        ensures scans { HasScans P.store self }
        ensures ids { HasRisingIds self }
        ensures held { IsHeld P.store self }
    {
        self.audit();
        let Self {
            machine,
            opening,
            history,
            calls,
            scans,
        } = self;
        drop(opening);
        drop(history);
        drop(calls);
        drop(scans);
        machine
    }

    // The same state, with another ledger, of which a share that counts nothing yet counts its entries.
    pub(crate) fn counted_by<N: Ledger>(
        self,
        calls: Book<N>,
        share: &mut Share<N>,
    ) -> State<P, N, M>
        requires none { calls.total ≡ 0 }
        requires parts { 0 < share.old.parts }
        ensures same { result ≡ self }
        ensures parts { share.new.parts ≡ share.old.parts }
    {
        let Self {
            machine,
            opening,
            history,
            calls: before,
            scans,
        } = self;
        drop(before);
        let mut calls = calls;
        calls.add(share, history.len() as u64);
        State {
            machine,
            opening,
            history,
            calls,
            scans,
        }
    }
}

// By hand, so that code that drops a state cites this, and need not prove again how each of its parts is dropped.
impl<P: Pages, L: Ledger, M: Drop> Drop for State<P, L, M> {
    fn drop(self) {
        let State {
            machine,
            opening,
            history,
            calls,
            scans,
        } = self;
        drop(machine);
        drop(opening);
        drop(history);
        drop(calls);
        drop(scans);
    }
}
