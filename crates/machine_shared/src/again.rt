//! A state that is shared again, with its history and its calls in flight.
ghost use Rattle.std.specs.Prelude.{◌≡◌, ℕ, ◌+◌, ◌≤◌, All, IfOk, IfErr};
ghost use Rattle.machine_shared.specs.Again.{RefusesAgain, SharesAgain};

use crate::db::{Db, fill, opening_and_lock};
use crate::entry::Entry;
use crate::state::State;
use sled_model::MergeOperator;
use sled_nodes::Error;
use sled_nodes::texts::NUMBERS_USED_UP;
use sled_store::Pages;
use std::alloc::Global;
use std::sync::Wait;
use std::sync::ledger::{Blank, Ledger};

// The greater of two numbers.
fn greater(a: u64, b: u64) -> u64
    ensures first { a ≤ result }
    ensures second { b ≤ result }
    ensures least { (n : ℕ) → a ≤ n → b ≤ n → result ≤ n }
{
    if a < b { b } else { a }
}

// The greatest number of a caller in the history, or 0.
fn greatest_in(history: &[Entry]) -> u64
    ensures all { All (λ e. e.by ≤ result) history.now }
    ensures least { (n : ℕ) → All (λ e. e.by ≤ n) history.now → result ≤ n }
{
    let mut greatest = 0;
    for entry in history {
        greatest = greater(greatest, entry.by);
    }
    greatest
}

impl<P: Pages, L: Ledger, M: MergeOperator> Db<P, L, M> {
    /// Shares a state again, as one that was gathered, among so many callers. The calls in flight stay in their slots, and the history goes
    /// on. The numbers of its callers go on too: those of the new ones follow the greatest in the history. The ledger is handed in as for
    /// `new`. Refused with `Unsupported` (`numbers used up`) if there are not so many numbers left, and with `NoMemory`; the state is given
    /// back then.
    ///
    /// ```text
    /// let blank = machine_shared::Blank::new(3); // For two callers.
    /// let shared = machine_shared::Db::<MemPages, std::marker::Brand>::share_again(rt, alloc, state, blank, 2);
    /// ```
    pub fn share_again<K: Ledger>(
        rt: &impl Wait,
        alloc: Global,
        state: State<P, K, M>,
        blank: Blank,
        callers: u64,
    ) -> std::result::Result<Db<P, L, M>, (State<P, K, M>, Error)>
        requires name { blank.name ≡ L.name }
        requires parts { blank.parts ≡ L.parts }
        requires each { blank.parts ≡ callers + 1 }
        ensures ok { IfOk result (SharesAgain state callers) }
        ensures same { IfErr result (λ e. e.0 ≡ state) }
        ensures err { IfErr result (λ e. RefusesAgain state callers e.1) }
    {
        let before = greatest_in(state.history());
        if callers > u64::MAX - before {
            drop(blank);
            return Err((state, Error::Unsupported(NUMBERS_USED_UP)));
        }
        let Some((opening, lock)) = opening_and_lock(alloc, &state.opening) else {
            drop(blank);
            return Err((state, Error::NoMemory));
        };
        let (calls, mut rest) = blank.open::<L>();
        fill(rt, &lock, state.counted_by(calls, &mut rest));
        Ok(Db {
            lock,
            callers,
            given: 0,
            before,
            rest,
            opening,
        })
    }
}
