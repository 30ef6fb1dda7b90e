//! Steps of a call with copies of it: they are made once, before it begins, and a step that does not decide the call makes none.
ghost use Rattle.std.specs.Prelude.{◌≡◌, ◌≤◌, ◌++◌, true, IfNone, IfSome, Ok, Some};
ghost use Rattle.std.specs.Option.{option_map};
ghost use Rattle.sled_model.specs.State.{IsOnKey};
ghost use Rattle.machine_alone.specs.Values.{slots_of, job_of_call};
ghost use Rattle.machine_shared.specs.theory.Copied.{AddsStepped, AreCopies, BeganStepped, EndsStepped, StaysIn, TakesOn};
ghost use Rattle.machine_shared.specs.Notes.{IsEnd, entries_of, noted_of};
ghost use Rattle.machine_shared.specs.Steps.{SlotStep};
ghost use Rattle.machine_shared.specs.UnderLock.{BeginsCall, UnderLock};
ghost use Rattle.machine_shared.specs.theory.Noting.{job_pair};

use crate::caller::Caller;
use crate::noting::{Jobs, step_noting_jobs};
use crate::state::State;
use crate::steps::has_job;
use machine_alone::Machine;
use sled_model::{Call, MergeOperator, Outcome, Slot, Tree};
use sled_nodes::Error;
use sled_store::Pages;
use std::sync::ledger::Ledger;

// How a step of a call came out: it ended the call, or the call goes on in its slot, and its copies with it.
pub(crate) enum Stepped {
    Ended(Outcome),
    On(Slot, Jobs),
}

// Whether the call goes on that left these copies. Without copies it has ended.
fn taken_on(outcome: Outcome, slot: Slot, left: Option<Jobs>) -> Stepped
    requires { IfNone left (IsEnd outcome) }
    ensures { TakesOn outcome slot left result }
{
    let Some(jobs) = left else {
        return Stepped::Ended(outcome);
    };
    match outcome {
        end @ (Outcome::Decided(_) | Outcome::Refused(_) | Outcome::NoSuchSlot) => {
            drop(jobs);
            Stepped::Ended(end)
        }
        // a call on a key that is not decided or refused returns `Moved`
        other => {
            drop(other);
            Stepped::On(slot, jobs)
        }
    }
}

impl<P: Pages, L: Ledger, M: MergeOperator> State<P, L, M> {
    // One step of this call on a key, which has the slot. It is noted as a bare step is, but from these copies. Those are left if it is not
    // decided.
    fn step_copied(&mut self, me: &mut Caller<L>, slot: Slot, jobs: Jobs) -> (Outcome, Option<Jobs>)
        requires here { option_map job_of_call (slots_of self.old.machine.flights slot) ≡ Some (job_pair jobs.0.tree jobs.0.call) }
        requires second { jobs.1 ≡ jobs.0 }
        requires key { IsOnKey jobs.0.call }
        ensures step { SlotStep P.store P.flush_number M.meant self.old.machine slot result.0 self.new.machine }
        ensures history { self.new.history ≡ self.old.history ++ entries_of me.old.number (noted_of result.0 jobs.0.tree jobs.0.call) }
        ensures made { me.new.made ≡ me.old.made ++ noted_of result.0 jobs.0.tree jobs.0.call }
        ensures number { me.new.number ≡ me.old.number }
        ensures opening { self.new.opening ≡ self.old.opening }
        ensures scans { self.new.scans ≡ self.old.scans }
        ensures left { IfSome result.1 (λ left. left ≡ jobs) }
        ensures ended { IfNone result.1 (IsEnd result.0) }
    {
        self.machine.audit();
        let Caller {
            number,
            made,
            share,
        } = me;
        step_noting_jobs(
            &mut self.machine,
            &mut self.history,
            &mut self.calls,
            *number,
            made,
            share,
            slot,
            jobs,
        )
    }

    // The same, and whether the call goes on.
    fn step_on(&mut self, me: &mut Caller<L>, slot: Slot, jobs: Jobs) -> Stepped
        requires here { option_map job_of_call (slots_of self.old.machine.flights slot) ≡ Some (job_pair jobs.0.tree jobs.0.call) }
        requires second { jobs.1 ≡ jobs.0 }
        requires key { IsOnKey jobs.0.call }
        requires began { UnderLock P.store (BeginsCall P.store P.flush_number M.meant jobs.0.tree jobs.0.call (Ok slot)) }
        ensures made { AddsStepped jobs.0.tree jobs.0.call result me.old.made me.new.made }
        ensures number { me.new.number ≡ me.old.number }
        ensures ends { EndsStepped P.store P.flush_number M.meant jobs.0.tree jobs.0.call result me.old me.new }
        ensures stays { StaysIn slot result }
    {
        self.audit();
        let (outcome, left) = self.step_copied(me, slot, jobs);
        self.audit();
        taken_on(outcome, slot, left)
    }

    // Begins this call on a key, and makes its first step.
    fn begin_on(&mut self, me: &mut Caller<L>, tree: &Tree, call: Call, jobs: Jobs) -> Stepped
        requires copies { AreCopies tree.now call jobs }
        requires key { IsOnKey call }
        ensures made { AddsStepped tree.now call result me.old.made me.new.made }
        ensures number { me.new.number ≡ me.old.number }
        ensures ends { EndsStepped P.store P.flush_number M.meant tree.now call result me.old me.new }
        ensures began { BeganStepped P.store P.flush_number M.meant tree.now call result }
    {
        self.audit();
        let begun = self.begin(tree, call);
        self.audit();
        match begun {
            Ok(slot) => self.step_on(me, slot, jobs),
            Err(e) => {
                drop(jobs);
                Stepped::Ended(Outcome::Refused(e))
            }
        }
    }
}

// The same of what a lock holds. What was taken from under it is closed.

// Begins this call on a key, and makes its first step.
pub(crate) fn begin_on<P: Pages, L: Ledger, M: MergeOperator>(
    held: &mut Option<State<P, L, M>>,
    me: &mut Caller<L>,
    tree: &Tree,
    call: Call,
    jobs: Jobs,
) -> Stepped
    requires copies { AreCopies tree.now call jobs }
    requires key { IsOnKey call }
    ensures made { AddsStepped tree.now call result me.old.made me.new.made }
    ensures number { me.new.number ≡ me.old.number }
    ensures ends { EndsStepped P.store P.flush_number M.meant tree.now call result me.old me.new }
    ensures began { BeganStepped P.store P.flush_number M.meant tree.now call result }
{
    match held {
        None => {
            drop(call);
            drop(jobs);
            Stepped::Ended(Outcome::Refused(Error::Closed))
        }
        Some(state) => state.begin_on(me, tree, call, jobs),
    }
}

// Whether the machine gave this slot at some time.
fn has_given<P: Pages, M: MergeOperator>(machine: &Machine<P, M>, slot: Slot) -> bool
    ensures { result ≡ true → slot ≤ machine.now.slots_given }
{
    slot.0 <= machine.slots_given()
}

// One step of the call in the slot, if it is this one on a key. Else no step is made, and there is no such slot for the caller, if it was
// given; if it was not, the database that gave it was taken out of the lock.
pub(crate) fn step_on<P: Pages, L: Ledger, M: MergeOperator>(
    held: &mut Option<State<P, L, M>>,
    me: &mut Caller<L>,
    slot: Slot,
    jobs: Jobs,
) -> Stepped
    requires second { jobs.1 ≡ jobs.0 }
    requires key { IsOnKey jobs.0.call }
    requires began { UnderLock P.store (BeginsCall P.store P.flush_number M.meant jobs.0.tree jobs.0.call (Ok slot)) }
    ensures made { AddsStepped jobs.0.tree jobs.0.call result me.old.made me.new.made }
    ensures number { me.new.number ≡ me.old.number }
    ensures ends { EndsStepped P.store P.flush_number M.meant jobs.0.tree jobs.0.call result me.old me.new }
{
    match held {
        Some(state) => {
            state.audit();
            if has_job(state.machine(), slot, jobs.first()) {
                state.step_on(me, slot, jobs)
            } else if has_given(state.machine(), slot) {
                drop(jobs);
                Stepped::Ended(Outcome::NoSuchSlot)
            } else {
                // a machine that never gave the slot is not the one in which the call began
                drop(jobs);
                Stepped::Ended(Outcome::Refused(Error::Closed))
            }
        }
        None => {
            drop(jobs);
            Stepped::Ended(Outcome::Refused(Error::Closed))
        }
    }
}
