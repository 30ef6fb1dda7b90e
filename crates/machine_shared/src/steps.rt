//! What callers do to a state.
ghost use Rattle.std.specs.Prelude.{◌≡◌, ◌≢◌, true, false, ◌++◌, Some, IfOk, IfErr, OnErr, length};
ghost use Rattle.std.specs.Option.{option_map};
ghost use Rattle.sled_model.specs.Collections.{contents_of};
ghost use Rattle.sled_model.specs.declared.outcome.Step.TheVariants as step;
ghost use Rattle.sled_model.specs.declared.outcome.Outcome.TheVariants as outcome;
ghost use Rattle.machine_alone.specs.Step.{MachineStepContract};
ghost use Rattle.machine_alone.specs.Values.{slots_of, job_of_call};
ghost use Rattle.machine_shared.specs.Fetches.{Fetches, FetchesOnce, FetchesUnderLock, StaysStill, SwapsNow};
ghost use Rattle.machine_shared.specs.Made.{entry_values};
ghost use Rattle.machine_shared.specs.Notes.{AddsStep, IsGivenUp, entries_of, noted_in};
ghost use Rattle.machine_shared.specs.Replies.{RepliesTo};
ghost use Rattle.machine_shared.specs.Scans.{AreInOrder, NotesScan, begun_of, noted_at, scanned_of};
ghost use Rattle.machine_shared.specs.Sound.{HasCrashMaps, HasHistory, HasLegalHistory, HasRisingIds, HasScans};
ghost use Rattle.machine_shared.specs.Steps.{SlotStep};
ghost use Rattle.machine_shared.specs.theory.Noting.{job_pair};
ghost use Rattle.machine_shared.specs.UnderLock.{AbandonsUnderLock, BeginsUnderLock, IsHeld, StepsUnderLock, WholesUnderLock};
ghost use Rattle.machine_shared.specs.WholeNotes.{AddsWhole, NotesWhole};

use crate::caller::Caller;
use crate::entry::Entry;
use crate::fetches::fetch_noting;
use crate::noting::{note_and_count, step_noting};
use crate::scans::ScanNote;
use crate::state::State;
use crate::wholes::whole_noting;
use machine_alone::{Job, Machine};
use sled_model::{Call, Collection, MergeOperator, Outcome, Slot, Tree, Whole};
use sled_nodes::{Error, IVec, Result};
use sled_store::Pages;
use std::alloc::AllocError;
use std::sync::ledger::Ledger;

// Whether the jobs are the same.
fn is_job(job: &Job, other: &Job) -> bool
    ensures yes { result ≡ true → (job.now.tree ≡ other.now.tree) × (job.now.call ≡ other.now.call) }
    ensures no { result ≡ false → job.now.tree ≡ other.now.tree → job.now.call ≢ other.now.call }
{
    job.tree == other.tree && job.call == other.call
}

// Whether the slot has this call.
pub(crate) fn has_job<P: Pages, M: MergeOperator>(
    machine: &Machine<P, M>,
    slot: Slot,
    wanted: &Job,
) -> bool
    ensures yes { result ≡ true → option_map job_of_call (slots_of machine.now.flights slot) ≡ Some (job_pair wanted.now.tree wanted.now.call) }
    ensures no { result ≡ false → option_map job_of_call (slots_of machine.now.flights slot) ≢ Some (job_pair wanted.now.tree wanted.now.call) }
{
    match machine.job(slot) {
        Some(job) => is_job(job, wanted),
        None => false,
    }
}

impl<P: Pages, L: Ledger, M: MergeOperator> State<P, L, M> {
    /// Begins a call on a tree, as `begin` of the machine does. Nothing is added to the history. That a scan begins is noted if scans are
    /// ([`State::scans`]).
    ///
    /// ```
    /// let slot = state.begin(&tree, Call::get(alloc, b"ulm")?)?;
    /// ```
    pub fn begin(&mut self, tree: &Tree, call: Call) -> Result<Slot>
        ensures ok { IfOk result (λ slot. MachineStepContract P.store P.flush_number M.meant self.old.machine (step.Begin tree.now call) (outcome.Begun slot) self.new.machine) }
        ensures err { IfErr result (λ e. MachineStepContract P.store P.flush_number M.meant self.old.machine (step.Begin tree.now call) (outcome.Refused e) self.new.machine) }
        ensures history { self.new.history ≡ self.old.history }
        ensures opening { self.new.opening ≡ self.old.opening }
        ensures scans { IfOk result (λ slot. NotesScan self.old.scans (noted_at slot (length self.old.history) (begun_of tree.now call)) self.new.scans) }
        ensures same_scans { OnErr result (self.new.scans ≡ self.old.scans) }
    {
        self.machine.audit();
        let did = self.scans.begun(tree, &call);
        let begun = self.machine.begin(tree, call);
        self.scans
            .note_begun(self.history.len() as u64, &begun, did);
        begun
    }

    /// One step of the call in the slot, as `step` of the machine does it. A call on a key that is decided is noted as this caller's: the
    /// history and the caller's list are longer by it and its reply. A scan is never added there; what it does is noted if scans are
    /// ([`State::scans`]). Room and copies are made before the step: if there is no memory for them the call is refused with `NoMemory`,
    /// and its slot is gone.
    ///
    /// A handle does this under the lock, with its own caller.
    ///
    /// ```
    /// let outcome = handle.step(rt, slot);
    /// ```
    pub fn step(&mut self, me: &mut Caller<L>, slot: Slot) -> Outcome
        ensures step { SlotStep P.store P.flush_number M.meant self.old.machine slot result self.new.machine }
        ensures history { self.new.history ≡ self.old.history ++ entries_of me.old.number (noted_in result (slots_of self.old.machine.flights slot)) }
        ensures made { me.new.made ≡ me.old.made ++ noted_in result (slots_of self.old.machine.flights slot) }
        ensures number { me.new.number ≡ me.old.number }
        ensures opening { self.new.opening ≡ self.old.opening }
        ensures scans { NotesScan self.old.scans (noted_at slot (length self.old.history) (scanned_of result)) self.new.scans }
    {
        self.machine.audit();
        let at = self.history.len() as u64;
        let Caller {
            number,
            made,
            share,
        } = me;
        let (outcome, noted) = step_noting(&mut self.machine, &mut self.history, made, slot);
        note_and_count(
            &mut self.history,
            &mut self.calls,
            *number,
            made,
            share,
            noted,
        );
        self.scans.note_step(slot, at, &outcome);
        outcome
    }

    /// Abandons the call in the slot, as `abandon` of the machine does. Nothing is noted, of a scan either.
    ///
    /// ```
    /// let outcome = state.abandon(slot); // `Abandoned`, or `NoSuchSlot`.
    /// ```
    pub fn abandon(&mut self, slot: Slot) -> Outcome
        ensures step { MachineStepContract P.store P.flush_number M.meant self.old.machine (step.Abandon slot) result self.new.machine }
        ensures history { self.new.history ≡ self.old.history }
        ensures opening { self.new.opening ≡ self.old.opening }
        ensures scans { self.new.scans ≡ self.old.scans }
    {
        self.machine.audit();
        self.machine.abandon(slot)
    }

    /// Does a whole call, as `whole` of the machine does it. If it is decided it is noted as this caller's: the history and the caller's
    /// list are longer by it and its reply; of `Next` the reply is noted as `Done`. A `Clear` or an `Import` that is refused midway is
    /// noted with the parts that it did, if it did any. Room and copies are made before the call: if there is no memory for them a test
    /// that would refuse it does, and else it is refused with `NoMemory`; nothing changes then.
    ///
    /// A handle does this under the lock, with its own caller.
    ///
    /// ```
    /// let outcome = handle.whole(rt, Whole::PopMin(tree));
    /// ```
    pub fn whole(&mut self, me: &mut Caller<L>, whole: Whole) -> Outcome
        ensures whole { NotesWhole P.store P.flush_number M.meant self.old.machine self.old.history me.old.number me.old.made whole result self.new.machine self.new.history me.new.made }
        ensures number { me.new.number ≡ me.old.number }
        ensures opening { self.new.opening ≡ self.old.opening }
        ensures scans { self.new.scans ≡ self.old.scans }
    {
        self.machine.audit();
        let Caller {
            number,
            made,
            share,
        } = me;
        let (outcome, noted) = whole_noting(&mut self.machine, &mut self.history, made, whole);
        note_and_count(
            &mut self.history,
            &mut self.calls,
            *number,
            made,
            share,
            noted,
        );
        outcome
    }

    // Makes the new value at a key from the one that is there, by a closure, and swaps the one for the other, in one step. The swap is
    // noted as this caller's. Returns both values.
    pub(crate) fn fetch<F>(
        &mut self,
        me: &mut Caller<L>,
        tree: &Tree,
        key: &[u8],
        f: F,
    ) -> Result<(Option<IVec>, Option<IVec>)>
    where
        F: FnMut(Option<&[u8]>) -> std::result::Result<Option<Vec<u8>>, AllocError>,
        requires { (shown : _) → F.pre f shown }
        ensures ok { IfOk result (λ both. Fetches F.FnMut f tree.now key.now both.0 both.1 me.old.made me.new.made) }
        ensures err { OnErr result (me.new.made ≡ me.old.made) }
        ensures number { me.new.number ≡ me.old.number }
        ensures swaps { IfOk result (λ both. SwapsNow P.store M.meant self.old.machine tree.now key.now both.0 both.1 self.new.machine) }
        ensures still { OnErr result (StaysStill P.store M.meant self.old.machine self.new.machine) }
        ensures same { self.new.machine ≡ record (self.old.machine) { db = self.new.machine.db } }
        ensures scans { self.new.scans ≡ self.old.scans }
        ensures once { FetchesOnce P.store M.meant tree.now key.now result me.old me.new self.old self.new }
    {
        self.machine.audit();
        let Caller {
            number,
            made,
            share,
        } = me;
        let (fetched, noted) = fetch_noting(
            &mut self.machine,
            &mut self.history,
            made,
            tree,
            key,
            f,
        );
        self.machine.audit();
        note_and_count(
            &mut self.history,
            &mut self.calls,
            *number,
            made,
            share,
            noted,
        );
        fetched
    }

    /// The collections that the database had when it was first shared, as its export gave them.
    ///
    /// ```
    /// let collections = state.opening(); // Of each tree its name and its pairs.
    /// ```
    pub fn opening(&self) -> &[Collection]
        ensures { contents_of result.now ≡ self.now.opening.contents }
    {
        self.opening.collections()
    }

    /// What callers made, in the order of the steps that decided it. It is legal, as `audit` says.
    ///
    /// ```
    /// let made = state.history().len(); // As many as all callers made.
    /// ```
    pub fn history(&self) -> &[Entry]
        ensures entries { entry_values result.now ≡ self.now.history }
        ensures legal { HasLegalHistory P.store self.now }
        ensures leads { HasHistory self.now }
        ensures crashes { HasCrashMaps P.store self.now }
        ensures ids { HasRisingIds self.now }
    {
        self.history.as_slice()
    }

    /// What scans did, in the order of their steps, each with its slot and the length of the history then: they began, gave a pair, or
    /// ended. Those lengths never fall. As long as `keeps_scans` is true, each `begin` and each `step` notes what it was of a scan. Else it
    /// notes nothing.
    ///
    /// ```
    /// let gave = state.scans().len();
    /// ```
    pub fn scans(&self) -> &[ScanNote]
        ensures notes { result.now ≡ self.now.scans.notes }
        ensures order { AreInOrder 0 result.now (length self.now.history) }
        ensures gave { HasScans P.store self.now }
    {
        self.scans.notes.as_slice()
    }

    /// Whether what scans do is noted. It is if the database was shared by `new_noting_scans`, or by `new_flushed` with `notes_scans`, and
    /// there was memory for each note; after the first without memory none is made.
    ///
    /// ```
    /// let is_whole = state.keeps_scans(); // No note is missing at the end.
    /// ```
    pub fn keeps_scans(&self) -> bool
        ensures { result ≡ self.now.scans.keeps }
    {
        self.scans.keeps
    }

    /// What holds of every state: the history is legal. From the opening on each entry's call replied and wrote what it would have, made
    /// alone at its place, and while the database is open the maps after the last entry are the maps now. What a crash may leave are the
    /// opening and the maps after each entry and part of it, and before these what it might have left before the sharing, unless that
    /// flushed; from the last flush in the history on only those after it. The ids in it rise, and none is above the greatest that the
    /// database gave. Its pages are well formed, and what its calls in flight know of them is true. It does nothing.
    ///
    /// ```
    /// state.audit(); // From here on a proof knows that the history is legal.
    /// ```
    pub fn audit(&self)
        ensures legal { HasLegalHistory P.store self.now }
        ensures leads { HasHistory self.now }
        ensures crashes { HasCrashMaps P.store self.now }
        ensures scans { HasScans P.store self.now }
        ensures ids { HasRisingIds self.now }
        ensures held { IsHeld P.store self.now }
    {
        self.machine.audit();
    }
}

// The same calls of what a lock holds. What was taken from under it is closed. These say by the outcome alone what is added to the caller's
// list.

// Begins a call on a tree.
pub(crate) fn begin_in<P: Pages, L: Ledger, M: MergeOperator>(
    held: &mut Option<State<P, L, M>>,
    tree: &Tree,
    call: Call,
) -> Result<Slot>
    ensures begins { BeginsUnderLock P.store P.flush_number M.meant tree.now call result }
{
    match held {
        None => {
            drop(call);
            Err(Error::Closed)
        }
        Some(state) => {
            state.audit();
            let begun = state.begin(tree, call);
            state.audit();
            begun
        }
    }
}

// One step of the call in the slot.
pub(crate) fn step_adding<P: Pages, L: Ledger, M: MergeOperator>(
    held: &mut Option<State<P, L, M>>,
    me: &mut Caller<L>,
    slot: Slot,
) -> Outcome
    ensures made { AddsStep result me.old.made me.new.made }
    ensures number { me.new.number ≡ me.old.number }
    ensures steps { StepsUnderLock P.store P.flush_number M.meant slot result me.old me.new }
{
    match held {
        None => Outcome::Refused(Error::Closed),
        Some(state) => {
            state.audit();
            let outcome = state.step(me, slot);
            state.audit();
            outcome
        }
    }
}

// Abandons the call in the slot.
pub(crate) fn abandon_in<P: Pages, L: Ledger, M: MergeOperator>(
    held: &mut Option<State<P, L, M>>,
    slot: Slot,
) -> Outcome
    ensures given_up { IsGivenUp result }
    ensures abandons { AbandonsUnderLock P.store P.flush_number M.meant slot result }
{
    match held {
        None => Outcome::Refused(Error::Closed),
        Some(state) => {
            state.audit();
            let outcome = state.abandon(slot);
            state.audit();
            outcome
        }
    }
}

// Does a whole call.
#[tactic(auto, using(crate::proofs::WholeAdds::adds_refused))]
pub(crate) fn whole_adding<P: Pages, L: Ledger, M: MergeOperator>(
    held: &mut Option<State<P, L, M>>,
    me: &mut Caller<L>,
    whole: Whole,
) -> Outcome
    ensures made { AddsWhole whole result me.old.made me.new.made }
    ensures replies { RepliesTo whole result }
    ensures number { me.new.number ≡ me.old.number }
    ensures wholes { WholesUnderLock P.store P.flush_number M.meant whole result me.old me.new }
{
    match held {
        None => {
            drop(whole);
            Outcome::Refused(Error::Closed)
        }
        Some(state) => {
            state.audit();
            let outcome = state.whole(me, whole);
            state.audit();
            outcome
        }
    }
}

// Makes the new value at a key from the one that is there.
pub(crate) fn fetch_adding<P: Pages, L: Ledger, M: MergeOperator, F>(
    held: &mut Option<State<P, L, M>>,
    me: &mut Caller<L>,
    tree: &Tree,
    key: &[u8],
    f: F,
) -> Result<(Option<IVec>, Option<IVec>)>
where
    F: FnMut(Option<&[u8]>) -> std::result::Result<Option<Vec<u8>>, AllocError>,
    requires { (shown : _) → F.pre f shown }
    ensures ok { IfOk result (λ both. Fetches F.FnMut f tree.now key.now both.0 both.1 me.old.made me.new.made) }
    ensures err { OnErr result (me.new.made ≡ me.old.made) }
    ensures number { me.new.number ≡ me.old.number }
    ensures under_lock { FetchesUnderLock P.store M.meant tree.now key.now result me.old me.new }
{
    match held {
        None => {
            drop(f);
            Err(Error::Closed)
        }
        Some(state) => {
            state.audit();
            let fetched = state.fetch(me, tree, key, f);
            state.audit();
            fetched
        }
    }
}
