//! Two threads at one key: the second makes its call while the first is between two steps, with the lock free; once, or often.
use crate::asking::{Ask, Told};
use crate::beside::try_out;
use crate::trial::{TWO_CALLERS, Trial, Wanted};
use crate::turns::{Signal, Turn};

// The first thread makes one call.
const FIRST: [Turn<'static>; 3] = [
    Turn::Meet(b"a", &[1], Told::Value(2), 3),
    Turn::Made(1),
    Turn::Set(Signal::Ended),
];

// The second thread makes two, the last one when all else is done.
const SECOND: [Turn<'static>; 6] = [
    Turn::Wait(Signal::Ready),
    Turn::Ask(Ask::Insert(b"a", &[2]), Told::NoValue),
    Turn::Set(Signal::Answered),
    Turn::Wait(Signal::Ended),
    Turn::Ask(Ask::Get(b"a"), Told::Value(1)),
    Turn::Made(2),
];

const TRIAL: Trial<'static> = Trial {
    first: &FIRST,
    others: &SECOND,
    wanted: Wanted::Calls(3, &[]),
    ..TWO_CALLERS
};

#[test]
fn one_call_between_two_steps_of_another(rt: HostRuntime) {
    try_out(&rt, rt.alloc(), &TRIAL);
}

// If the second thread gives the call up meanwhile, the first has none any more.
const FIRST_ENDED: [Turn<'static>; 2] = [
    Turn::Meet(b"a", &[1], Told::NoSuchSlot, 1),
    Turn::Made(0),
];

const SECOND_ENDING: [Turn<'static>; 3] = [
    Turn::Wait(Signal::Ready),
    Turn::Ask(Ask::Abandon(1), Told::Abandoned),
    Turn::Set(Signal::Answered),
];

const ENDED: Trial<'static> = Trial {
    first: &FIRST_ENDED,
    others: &SECOND_ENDING,
    wanted: Wanted::Calls(0, &[]),
    ..TWO_CALLERS
};

#[test]
fn a_call_whose_slot_another_ends(rt: HostRuntime) {
    try_out(&rt, rt.alloc(), &ENDED);
}

// A call that the second thread holds up, so often, is made all the same.
const OFTEN: u64 = 60;

const HELD: [Turn<'static>; 2] = [
    Turn::HeldUp(b"a", &[1], Told::Value(OFTEN), OFTEN),
    Turn::Made(1),
];

const HOLDING: [Turn<'static>; 2] = [Turn::HoldUp(b"a", OFTEN), Turn::Made(OFTEN as usize)];

const HELD_UP: Trial<'static> = Trial {
    first: &HELD,
    others: &HOLDING,
    wanted: Wanted::Calls(OFTEN as usize + 1, &[]),
    ..TWO_CALLERS
};

#[test]
fn a_call_that_is_held_up(rt: HostRuntime) {
    try_out(&rt, rt.alloc(), &HELD_UP);
}
