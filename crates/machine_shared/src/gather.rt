//! The state, out of its lock.
ghost use Rattle.std.specs.Prelude.{◌≡◌, ◌+◌, true, All, IfOk, IfErr, IfSome, Some, length, vec_len};
ghost use Rattle.machine_shared.specs.Sound.{HasCrashMaps, HasHistory, HasLegalHistory, HasRisingIds, HasScans};
ghost use Rattle.machine_shared.specs.Gathered.{EachOnceBehind, IsMadeIn, IsOfGiven};
ghost use Rattle.machine_shared.specs.UnderLock.{IsHeld};

use crate::compare::{all_agree, are_all, has_no_others};
use crate::db::Db;
use crate::handle::Handle;
use crate::locked::locked;
use crate::opening::Opening;
use crate::state::State;
use sled_model::MergeOperator;
use sled_store::Pages;
use std::sync::ledger::Ledger;
use std::sync::{Arc, Wait};

// Whether each list is that of its caller's entries, and there are no others.
fn agrees_with<P: Pages, L: Ledger, M: MergeOperator>(
    state: &State<P, L, M>,
    handles: &[Handle<P, L, M>],
    given: u64,
) -> bool
    ensures made { result ≡ true → All (IsMadeIn state.now.history) handles.now }
    ensures others { result ≡ true → All (IsOfGiven given) state.now.history }
{
    let history = state.history();
    has_no_others(history, given) && all_agree(history, handles)
}

impl<P: Pages, L: Ledger, M: MergeOperator> Db<P, L, M> {
    /// Takes the state out, once all callers are done. All handles that were made must be handed in, in any order; if none was made, an
    /// empty list. Each handle's list is compared with the history: it must be that of the entries with its number, in order. The history
    /// must have no others but those of callers before, and the state must have begun with what the database had when it was first shared.
    /// If it is not so, the database and the handles are given back, and the state stays under its lock.
    ///
    /// The history of the state is legal, up to the maps now while its database is open. A crash may leave the opening and the maps after
    /// each entry and part of it, and before these what it might have left before the sharing, unless `new_flushed` shared it; from the last
    /// flush in the history on only those after it. The ids in it rise.
    ///
    /// ```
    /// match shared.gather(rt, handles) {
    ///     Ok(state) => drop(state.into_machine()),
    ///     Err((shared, handles)) => drop((shared, handles)), // Some handle is missing.
    /// }
    /// ```
    pub fn gather(
        self,
        rt: &impl Wait,
        handles: Vec<Handle<P, L, M>>,
    ) -> std::result::Result<State<P, L, M>, (Db<P, L, M>, Vec<Handle<P, L, M>>)>
        ensures count { IfOk result (λ s. vec_len handles ≡ self.given) }
        ensures numbers { IfOk result (λ s. EachOnceBehind self.before self.given handles.items) }
        ensures made { IfOk result (λ s. All (IsMadeIn s.history) handles.items) }
        ensures others { IfOk result (λ s. All (IsOfGiven (self.before + self.given)) s.history) }
        ensures opening { IfOk result (λ s. s.opening ≡ self.opening) }
        ensures legal { IfOk result (HasLegalHistory P.store) }
        ensures leads { IfOk result HasHistory }
        ensures crashes { IfOk result (HasCrashMaps P.store) }
        ensures scans { IfOk result (HasScans P.store) }
        ensures ids { IfOk result HasRisingIds }
        ensures held { IfOk result (IsHeld P.store) }
        ensures err { IfErr result (λ e. (e.0 ≡ self) × (e.1 ≡ handles)) }
    {
        match self.take_if(rt, handles.as_slice()) {
            Some(state) => {
                state.audit();
                drop(handles);
                drop(self);
                Ok(state)
            }
            None => Err((self, handles)),
        }
    }

    /// Takes the state out though handles were lost, as with a thread that ended, if no handle is left: each was dropped. Else the database
    /// is given back, and the state stays under its lock. With a handle the list of its caller is gone, so none is compared with the
    /// history. Of that the same holds as of one that is gathered.
    ///
    /// ```
    /// match shared.reclaim(rt) {
    ///     Ok(state) => drop(state.into_machine()),
    ///     Err(shared) => drop(shared), // Some handle is left.
    /// }
    /// ```
    pub fn reclaim(self, rt: &impl Wait) -> std::result::Result<State<P, L, M>, Db<P, L, M>>
        ensures opening { IfOk result (λ s. s.opening ≡ self.opening) }
        ensures legal { IfOk result (HasLegalHistory P.store) }
        ensures leads { IfOk result HasHistory }
        ensures crashes { IfOk result (HasCrashMaps P.store) }
        ensures scans { IfOk result (HasScans P.store) }
        ensures ids { IfOk result HasRisingIds }
        ensures held { IfOk result (IsHeld P.store) }
        ensures err { IfErr result (λ d. d ≡ self) }
    {
        match self.take_left(rt) {
            Some(state) => {
                state.audit();
                drop(self);
                Ok(state)
            }
            None => Err(self),
        }
    }

    // The state, if no handle is left; else it stays.
    fn take_left(&self, rt: &impl Wait) -> Option<State<P, L, M>>
        ensures { IfSome result (λ s. s.opening ≡ self.now.opening) }
    {
        if Arc::strong_count(&self.lock) != 1 {
            return None;
        }
        let mut guard = locked(rt, &self.lock);
        take_begun(&mut *guard, &self.opening)
    }

    // The state, if all handles are there and agree with it; else it stays.
    fn take_if(&self, rt: &impl Wait, handles: &[Handle<P, L, M>]) -> Option<State<P, L, M>>
        ensures count { IfSome result (λ s. length handles.now ≡ self.now.given) }
        ensures numbers { IfSome result (λ s. EachOnceBehind self.now.before self.now.given handles.now) }
        ensures made { IfSome result (λ s. All (IsMadeIn s.history) handles.now) }
        ensures others { IfSome result (λ s. All (IsOfGiven (self.now.before + self.now.given)) s.history) }
        ensures opening { IfSome result (λ s. s.opening ≡ self.now.opening) }
    {
        if !are_all(handles, self.before, self.given) {
            return None;
        }
        let mut guard = locked(rt, &self.lock);
        let last = self.before + self.given;
        take_agreeing(&mut *guard, handles, last, &self.opening)
    }
}

// The state, if it agrees with the handles; else it stays.
fn take_agreeing<P: Pages, L: Ledger, M: MergeOperator>(
    slot: &mut Option<State<P, L, M>>,
    handles: &[Handle<P, L, M>],
    given: u64,
    opening: &Opening,
) -> Option<State<P, L, M>>
    ensures made { IfSome result (λ s. All (IsMadeIn s.history) handles.now) }
    ensures others { IfSome result (λ s. All (IsOfGiven given) s.history) }
    ensures opening { IfSome result (λ s. s.opening ≡ opening.now) }
    ensures same { IfSome result (λ s. slot.old ≡ Some s) }
{
    let agrees = match slot {
        Some(state) => state.opening.is(opening) && agrees_with(state, handles, given),
        None => false,
    };
    if agrees { slot.take() } else { None }
}

// The state, if it began with this; else it stays.
fn take_begun<P: Pages, L: Ledger, M: MergeOperator>(
    slot: &mut Option<State<P, L, M>>,
    opening: &Opening,
) -> Option<State<P, L, M>>
    ensures opening { IfSome result (λ s. s.opening ≡ opening.now) }
    ensures same { IfSome result (λ s. slot.old ≡ Some s) }
{
    let begun = match slot {
        Some(state) => state.opening.is(opening),
        None => false,
    };
    if begun { slot.take() } else { None }
}
