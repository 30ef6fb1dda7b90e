//! Calls that one thread leaves half done, which another finishes, or makes again once they are abandoned.
use crate::asking::{Ask, Told};
use crate::beside::try_out;
use crate::trial::{EMPTY, Start, TWO_CALLERS, Trial, Wanted};
use crate::turns::{Signal, Turn};
use std::alloc::Global;
use std::process::Abort;
use std::sync::Wait;
use std::thread::Threads;

// So often a removal of the key 10 goes on, from two leaves of 8 and 3 pairs, before it is decided: the leaves merge first.
const MOVES: u64 = 11;

// Two leaves, with the keys 0 to 7 and 8 to 10.
const TWO_LEAVES: Start = Start {
    keys: 18,
    taken: 7,
    ..EMPTY
};

// The first thread begins the removal and goes on so often. Before and after it a call begins that is left unstepped.
const FIRST: [Turn<'static>; 5] = [
    Turn::Begin(Ask::Get(&[0]), Signal::Before),
    Turn::Begin(Ask::Remove(&[10]), Signal::Slot),
    Turn::Begin(Ask::Get(&[0]), Signal::After),
    Turn::GoOn,
    Turn::Set(Signal::Ready),
];

// The second thread finishes it, after as many steps together as one thread would take.
const SECOND: [Turn<'static>; 3] = [
    Turn::Wait(Signal::Ready),
    Turn::GoOnTo(MOVES),
    Turn::Step(Told::Value(10)),
];

// The first thread abandons the removal at the stage that it has.
const FIRST_GIVING_UP: [Turn<'static>; 6] = [
    Turn::Begin(Ask::Get(&[0]), Signal::Before),
    Turn::Begin(Ask::Remove(&[10]), Signal::Slot),
    Turn::Begin(Ask::Get(&[0]), Signal::After),
    Turn::GoOn,
    Turn::Abandon,
    Turn::Set(Signal::Ready),
];

// The second thread makes it again.
const SECOND_AGAIN: [Turn<'static>; 2] = [
    Turn::Wait(Signal::Ready),
    Turn::Ask(Ask::Remove(&[10]), Told::Value(10)),
];

// A removal that is handed over after each number of steps. It is the second caller's alone.
fn hand_over<R: Threads + Wait + Abort + Sync>(rt: &R, alloc: Global, trial: Trial<'_>) {
    for moves in 0..=MOVES {
        try_out(rt, alloc, &Trial { moves, ..trial });
    }
}

const FINISHED: Trial<'static> = Trial {
    start: TWO_LEAVES,
    first: &FIRST,
    others: &SECOND,
    wanted: Wanted::Calls(1, &[(2, Told::Value(10))]),
    ..TWO_CALLERS
};

const MADE_AGAIN: Trial<'static> = Trial {
    first: &FIRST_GIVING_UP,
    others: &SECOND_AGAIN,
    ..FINISHED
};

#[test]
fn a_call_is_finished_by_another_thread(rt: HostRuntime) {
    hand_over(&rt, rt.alloc(), FINISHED);
}

#[test]
fn a_call_that_is_given_up_is_made_by_another_thread(rt: HostRuntime) {
    hand_over(&rt, rt.alloc(), MADE_AGAIN);
}
