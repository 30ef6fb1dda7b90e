//! Steps that are noted, over the parts of a state.
ghost use Rattle.std.specs.Prelude.{◌≡◌, ◌<◌, ◌+◌, ◌++◌, ◌∷◌, [], true, IfOk, IfNone, IfSome, Some, vec_len, vec_capacity, length};
ghost use Rattle.std.specs.Option.{option_map};
ghost use Rattle.machine_alone.specs.Values.{slots_of, job_of_call};
ghost use Rattle.machine_shared.specs.Made.{PointMade, made_value, made_values, entry_values};
ghost use Rattle.machine_shared.specs.theory.Copied.{AreCopies};
ghost use Rattle.machine_shared.specs.Notes.{IsEnd, entries_of, noted_in};
ghost use Rattle.machine_shared.specs.Steps.{SlotStep};
ghost use Rattle.machine_shared.specs.theory.Noting.{first_noted, is_on_key_in, second_noted};

use crate::entry::{Entry, Made};
use crate::kept::{refuse_step, step};
use machine_alone::{Job, Machine};
use sled_model::{Call, MergeOperator, Outcome, Reply, Slot, Tree};
use sled_nodes::Result;
use sled_store::Pages;
use std::alloc::Global;
use std::marker::Model;
use std::sync::ledger::{Book, Ledger, Share};

/// What a call is to do, twice: for the history and for the list of its caller. It has memory of its own, so that no step moves it.
pub(crate) struct Jobs {
    both: Box<(Job, Job)>,
}

impl Model for Jobs {
    ghost use Rattle.std.specs.Prelude.{box_value};
    ghost use Rattle.sled_tree.specs.declared.flight.Job.{Job};

    ghost Value = { Job × Job };

    ghost view = { λ j. box_value j.both };
}

impl Jobs {
    // These two. Refused with `NoMemory` alone.
    fn new(alloc: Global, first: Job, second: Job) -> Result<Jobs>
        ensures { IfOk result (λ made. made ≡ (first, second)) }
    {
        Ok(Jobs {
            both: Box::new(alloc, (first, second))?,
        })
    }

    // The first of them.
    pub(crate) fn first(&self) -> &Job
        ensures { result.now ≡ self.now.0 }
    {
        &self.both.0
    }

    // Both.
    fn into_both(self) -> (Job, Job)
        ensures { result ≡ self }
    {
        let Jobs { both } = self;
        Box::into_inner(both)
    }
}

// By hand, so that code that drops them cites this, and need not prove again how each of their parts is dropped.
impl Drop for Jobs {
    fn drop(self) {
        let Jobs { both } = self;
        drop(both);
    }
}

// This call on this tree.
fn job_of(tree: &Tree, call: &Call) -> Result<Job>
    ensures { IfOk result (λ copy. copy ≡ record { tree = tree.now; call = call.now }) }
{
    let tree = tree.clone()?;
    match call.clone() {
        Ok(call) => Ok(Job { tree, call }),
        Err(e) => {
            drop(tree);
            Err(e)
        }
    }
}

// The same job.
pub(crate) fn copy_of(job: &Job) -> Result<Job>
    ensures { IfOk result (λ copy. copy ≡ job.now) }
{
    job_of(&job.tree, &job.call)
}

// This call on this tree, twice.
pub(crate) fn copies_of(alloc: Global, tree: &Tree, call: &Call) -> Result<Jobs>
    ensures { IfOk result (AreCopies tree.now call.now) }
{
    let first = job_of(tree, call)?;
    match job_of(tree, call) {
        Ok(second) => Jobs::new(alloc, first, second),
        Err(e) => {
            drop(first);
            Err(e)
        }
    }
}

// Whether the slot has a call on a key.
fn is_on_key_in<P: Pages, M: MergeOperator>(machine: &Machine<P, M>, slot: Slot) -> bool
    ensures { result ≡ is_on_key_in (slots_of machine.now.flights slot) }
{
    match machine.job(slot) {
        Some(job) => job.call.is_on_key(),
        None => false,
    }
}

// Room for one more in both lists. Whether there is memory for it.
pub(crate) fn make_room(history: &mut Vec<Entry>, made: &mut Vec<Made>) -> bool
    ensures history { history.new.items ≡ history.old.items }
    ensures made { made.new.items ≡ made.old.items }
    ensures room { result ≡ true → vec_len history.new < vec_capacity history.new }
    ensures room_there { result ≡ true → vec_len made.new < vec_capacity made.new }
{
    history.reserve(1).is_ok() && made.reserve(1).is_ok()
}

// What the call in the slot is to do, twice, and room for one more in both lists.
fn room_and_jobs<P: Pages, M: MergeOperator>(
    machine: &Machine<P, M>,
    history: &mut Vec<Entry>,
    made: &mut Vec<Made>,
    slot: Slot,
) -> Option<Jobs>
    ensures first { IfSome result (λ both. option_map job_of_call (slots_of machine.now.flights slot) ≡ Some (both.0.tree, both.0.call)) }
    ensures second { IfSome result (λ both. both.1 ≡ both.0) }
    ensures history { history.new.items ≡ history.old.items }
    ensures made { made.new.items ≡ made.old.items }
    ensures room { IfSome result (λ both. vec_len history.new < vec_capacity history.new) }
    ensures room_there { IfSome result (λ both. vec_len made.new < vec_capacity made.new) }
{
    if !make_room(history, made) {
        return None;
    }
    match machine.job(slot) {
        Some(job) => copies_of(machine.db().allocator(), &job.tree, &job.call).ok(),
        None => None,
    }
}

// A call on a key with its reply, twice.
fn twice(jobs: Jobs, one: Reply, two: Reply) -> (Made, Made)
    requires jobs { jobs.1 ≡ jobs.0 }
    requires replies { two ≡ one }
    ensures first { made_value result.0 ≡ PointMade jobs.0.tree jobs.0.call one }
    ensures second { made_value result.1 ≡ PointMade jobs.0.tree jobs.0.call one }
{
    let (first, second) = jobs.into_both();
    (
        Made::Point(first.tree, first.call, one),
        Made::Point(second.tree, second.call, two),
    )
}

// A step of a call on a key, with two copies of its job, and what is to be noted of it, twice.
fn step_of_jobs<P: Pages, M: MergeOperator>(
    machine: &mut Machine<P, M>,
    slot: Slot,
    jobs: Jobs,
) -> (Outcome, Option<(Made, Made)>)
    requires key { is_on_key_in (slots_of machine.old.flights slot) ≡ true }
    requires first { option_map job_of_call (slots_of machine.old.flights slot) ≡ Some (jobs.0.tree, jobs.0.call) }
    requires second { jobs.1 ≡ jobs.0 }
    ensures step { SlotStep P.store P.flush_number M.meant machine.old slot result.0 machine.new }
    ensures noted { first_noted result.1 ≡ noted_in result.0 (slots_of machine.old.flights slot) }
    ensures again { second_noted result.1 ≡ first_noted result.1 }
{
    let (outcome, kept) = machine.step_kept(slot);
    match kept {
        None => {
            drop(jobs);
            (outcome, None)
        }
        Some((one, two)) => (outcome, Some(twice(jobs, one, two))),
    }
}

// A step of a call on a key. If it is decided its copies, with its reply, are added at the ends of both lists, and counted; else they are
// left. Room is made before the step, and want of memory for it refuses it.
#[tactic(auto, using(crate::proofs::Copied::kept_ends))]
pub(crate) fn step_noting_jobs<P: Pages, L: Ledger, M: MergeOperator>(
    machine: &mut Machine<P, M>,
    history: &mut Vec<Entry>,
    calls: &mut Book<L>,
    number: u64,
    made: &mut Vec<Made>,
    share: &mut Share<L>,
    slot: Slot,
    jobs: Jobs,
) -> (Outcome, Option<Jobs>)
    requires part { share.old.parts ≡ 1 }
    requires counted { length history.old.items ≡ calls.old.total }
    requires shared { share.old.amount ≡ length made.old.items }
    requires key { is_on_key_in (slots_of machine.old.flights slot) ≡ true }
    requires first { option_map job_of_call (slots_of machine.old.flights slot) ≡ Some (jobs.0.tree, jobs.0.call) }
    requires second { jobs.1 ≡ jobs.0 }
    ensures step { SlotStep P.store P.flush_number M.meant machine.old slot result.0 machine.new }
    ensures history { entry_values history.new.items ≡ entry_values history.old.items ++ entries_of number (noted_in result.0 (slots_of machine.old.flights slot)) }
    ensures made { made_values made.new.items ≡ made_values made.old.items ++ noted_in result.0 (slots_of machine.old.flights slot) }
    ensures part { share.new.parts ≡ 1 }
    ensures counted { length history.new.items ≡ calls.new.total }
    ensures shared { share.new.amount ≡ length made.new.items }
    ensures left { IfSome result.1 (λ left. left ≡ jobs) }
    ensures ended { IfNone result.1 (IsEnd result.0) }
{
    if !make_room(history, made) {
        return (refuse_step(machine, slot), Some(jobs));
    }
    let (outcome, kept) = machine.step_kept(slot);
    match kept {
        None => (outcome, Some(jobs)),
        Some((one, two)) => {
            let (one, two) = twice(jobs, one, two);
            history.push_reserved(Entry {
                by: number,
                made: one,
            });
            made.push_reserved(two);
            calls.add(share, 1);
            (outcome, None)
        }
    }
}

// A step of a slot, and what is to be noted of it, twice, with room for it in both lists. Room and copies are made before the step, and
// want of memory for them refuses it.
pub(crate) fn step_noting<P: Pages, M: MergeOperator>(
    machine: &mut Machine<P, M>,
    history: &mut Vec<Entry>,
    made: &mut Vec<Made>,
    slot: Slot,
) -> (Outcome, Option<(Made, Made)>)
    ensures step { SlotStep P.store P.flush_number M.meant machine.old slot result.0 machine.new }
    ensures noted { first_noted result.1 ≡ noted_in result.0 (slots_of machine.old.flights slot) }
    ensures again { second_noted result.1 ≡ first_noted result.1 }
    ensures history { history.new.items ≡ history.old.items }
    ensures made { made.new.items ≡ made.old.items }
    ensures room { IfSome result.1 (λ both. vec_len history.new < vec_capacity history.new) }
    ensures room_there { IfSome result.1 (λ both. vec_len made.new < vec_capacity made.new) }
{
    if !is_on_key_in(machine, slot) {
        return (step(machine, slot), None);
    }
    match room_and_jobs(machine, history, made, slot) {
        Some(jobs) => step_of_jobs(machine, slot, jobs),
        None => (refuse_step(machine, slot), None),
    }
}

// Adds what was made at the end of the history, with the number of its caller, and of the caller's list.
fn note(history: &mut Vec<Entry>, made: &mut Vec<Made>, number: u64, both: (Made, Made))
    requires room { vec_len history.old < vec_capacity history.old }
    requires room_there { vec_len made.old < vec_capacity made.old }
    ensures history { entry_values history.new.items ≡ entry_values history.old.items ++ entries_of number (made_value both.0 ∷ []) }
    ensures made { made_values made.new.items ≡ made_values made.old.items ++ made_value both.1 ∷ [] }
    ensures longer { length history.new.items ≡ length history.old.items + 1 }
    ensures longer_there { length made.new.items ≡ length made.old.items + 1 }
{
    let (one, two) = both;
    history.push_reserved(Entry {
        by: number,
        made: one,
    });
    made.push_reserved(two);
}

// Adds what is to be noted, if anything is, at the ends of both lists, and counts it.
pub(crate) fn note_and_count<L: Ledger>(
    history: &mut Vec<Entry>,
    calls: &mut Book<L>,
    number: u64,
    made: &mut Vec<Made>,
    share: &mut Share<L>,
    noted: Option<(Made, Made)>,
)
    requires part { share.old.parts ≡ 1 }
    requires counted { length history.old.items ≡ calls.old.total }
    requires shared { share.old.amount ≡ length made.old.items }
    requires room { IfSome noted (λ both. vec_len history.old < vec_capacity history.old) }
    requires room_there { IfSome noted (λ both. vec_len made.old < vec_capacity made.old) }
    requires again { second_noted noted ≡ first_noted noted }
    ensures history { entry_values history.new.items ≡ entry_values history.old.items ++ entries_of number (first_noted noted) }
    ensures made { made_values made.new.items ≡ made_values made.old.items ++ first_noted noted }
    ensures part { share.new.parts ≡ 1 }
    ensures counted { length history.new.items ≡ calls.new.total }
    ensures shared { share.new.amount ≡ length made.new.items }
{
    if let Some(both) = noted {
        note(history, made, number, both);
        calls.add(share, 1);
    }
}
