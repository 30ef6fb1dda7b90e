//! A thread that puts jobs into a queue, and another that takes them: each once, and in order.
use crate::asking::{Ask, Told};
use crate::beside::try_out;
use crate::trial::{TWO_CALLERS, Trial, Wanted};
use crate::turns::{Place, Taken, Turn};

// So many jobs are put in: the numbers from 1 on.
const JOBS: u64 = 1000;

// A job is added to the history with its id and its insert, and is taken once. Then none waits.
const CALLS: usize = 3 * JOBS as usize + 1;

const FIRST: [Turn<'static>; 1] = [Turn::Put(Place::Queue, JOBS)];

const SECOND: [Turn<'static>; 2] = [
    Turn::Take(Taken::Jobs, JOBS),
    Turn::Ask(Ask::Take, Told::NoValue),
];

const TRIAL: Trial<'static> = Trial {
    first: &FIRST,
    others: &SECOND,
    wanted: Wanted::Calls(CALLS, &[]),
    ..TWO_CALLERS
};

#[test]
fn jobs_are_taken_beside_others_that_come(rt: HostRuntime) {
    try_out(&rt, rt.alloc(), &TRIAL);
}
