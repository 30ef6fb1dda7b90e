//! Threads that count up one number together: by merges, and by reads and swaps. None is lost, and none is returned twice.
use crate::asking::{Ask, Told};
use crate::beside::try_out;
use crate::trial::{TWO_CALLERS, Trial, Wanted};
use crate::turns::{Signal, Turn};

// So often each thread adds one.
const TIMES: usize = 1000;

const TURNS: [Turn<'static>; 2] = [
    Turn::Count(Ask::AddOne(b"counter"), TIMES),
    Turn::Made(TIMES),
];

const TWO: Trial<'static> = Trial {
    first: &TURNS,
    others: &TURNS,
    wanted: Wanted::Counted(2 * TIMES),
    ..TWO_CALLERS
};

const FOUR: Trial<'static> = Trial {
    callers: 4,
    first: &TURNS,
    others: &TURNS,
    wanted: Wanted::Counted(4 * TIMES),
    ..TWO_CALLERS
};

#[test]
fn two_and_four_threads_add(rt: HostRuntime) {
    try_out(&rt, rt.alloc(), &TWO);
    try_out(&rt, rt.alloc(), &FOUR);
}

const RAISES: Turn<'static> = Turn::Count(Ask::Raise(b"number"), TIMES);

// The first thread looks at the number when all is done.
const FIRST: [Turn<'static>; 3] = [
    RAISES,
    Turn::Wait(Signal::Ended),
    Turn::Ask(Ask::Get(b"number"), Told::Value(2 * TIMES as u64)),
];

const SECOND: [Turn<'static>; 2] = [RAISES, Turn::Set(Signal::Ended)];

const TRIAL: Trial<'static> = Trial {
    first: &FIRST,
    others: &SECOND,
    ..TWO_CALLERS
};

#[test]
fn two_threads_raise(rt: HostRuntime) {
    try_out(&rt, rt.alloc(), &TRIAL);
}
