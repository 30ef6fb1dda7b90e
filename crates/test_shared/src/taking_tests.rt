//! A thread that inserts new keys, and another that takes the events meanwhile: they are returned in order, and none is lost without a
//! word.
use crate::beside::try_out;
use crate::trial::{TWO_CALLERS, Trial};
use crate::turns::{Place, Signal, Taken, Turn};

// So many keys are inserted: the numbers from 1 on.
const KEYS: u64 = 3000;

const FIRST: [Turn<'static>; 3] = [
    Turn::Wait(Signal::Ready),
    Turn::Put(Place::Itself, KEYS),
    Turn::Made(KEYS as usize),
];

const SECOND: [Turn<'static>; 2] = [Turn::Watch, Turn::Take(Taken::Events, KEYS)];

const TRIAL: Trial<'static> = Trial {
    first: &FIRST,
    others: &SECOND,
    ..TWO_CALLERS
};

#[test]
fn events_are_taken_beside_inserts(rt: HostRuntime) {
    try_out(&rt, rt.alloc(), &TRIAL);
}
