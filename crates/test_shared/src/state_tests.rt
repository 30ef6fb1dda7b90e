//! A swap, what a handle says of its caller, and calls of a state outside the lock, once all handles are back.
use crate::asking::{Ask, Told, call_of, outcome_told};
use crate::beside::{Gathered, Scene, require, try_out};
use crate::trial::{EMPTY, Start, TWO_CALLERS, Trial, Wanted};
use crate::turns::Turn;
use std::process::Abort;
use std::sync::ledger::Ledger;

/// A call that begins in a state, and is abandoned: nothing is noted.
pub fn begin_and_abandon<L: Ledger, R: Abort>(rt: &R, scene: &Scene, state: &mut Gathered<L>) {
    let call = call_of(rt, scene, Ask::Get(&[0]));
    let slot = state.begin(&scene.tree, call).expect(rt, "a slot");
    let given_up = outcome_told(state.abandon(slot)) == Told::Abandoned;
    let gone = outcome_told(state.abandon(slot)) == Told::NoSuchSlot;
    require(
        rt,
        given_up && gone,
        "the call is given up, and its slot is gone",
    );
}

const SWAP: Ask<'static> = Ask::Swap(&[0], &[0], &[1]);

const FIRST: [Turn<'static>; 1] = [Turn::Made(0)];

// The second of two callers swaps.
const SECOND: [Turn<'static>; 2] = [
    Turn::Ask(SWAP, Told::Swapped),
    Turn::Ask(SWAP, Told::Conflict),
];

const TRIAL: Trial<'static> = Trial {
    start: Start { keys: 1, ..EMPTY },
    first: &FIRST,
    others: &SECOND,
    wanted: Wanted::Calls(2, &[(2, Told::Swapped), (2, Told::Conflict)]),
    ..TWO_CALLERS
};

#[test]
fn what_a_state_tells(rt: HostRuntime) {
    try_out(&rt, rt.alloc(), &TRIAL);
}
