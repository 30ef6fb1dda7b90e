//! Two callers, each of which has its own call alone. That a state is taken out only when both are back, and that no third one comes, is looked
//! at in each trial.
use crate::asking::{Ask, Told};
use crate::beside::try_out;
use crate::trial::{TWO_CALLERS, Trial, Wanted};
use crate::turns::Turn;

const FIRST: [Turn<'static>; 2] = [
    Turn::Ask(Ask::Insert(b"one", b"1"), Told::NoValue),
    Turn::MadeInsert(b"one"),
];

const SECOND: [Turn<'static>; 2] = [
    Turn::Ask(Ask::Insert(b"other", b"1"), Told::NoValue),
    Turn::MadeInsert(b"other"),
];

const TRIAL: Trial<'static> = Trial {
    first: &FIRST,
    others: &SECOND,
    wanted: Wanted::Calls(2, &[]),
    ..TWO_CALLERS
};

// If no handle was made none is wanted.
const NO_CALLER: Trial<'static> = Trial {
    callers: 0,
    wanted: Wanted::Calls(0, &[]),
    ..TWO_CALLERS
};

#[test]
fn a_state_without_callers(rt: HostRuntime) {
    try_out(&rt, rt.alloc(), &NO_CALLER);
}

#[test]
fn a_state_waits_for_all_handles(rt: HostRuntime) {
    try_out(&rt, rt.alloc(), &TRIAL);
}
