//! Two threads that raise a number, each raise in one step: none is lost. And fetches on a tree that is gone.
use crate::asking::{Ask, Told};
use crate::beside::try_out;
use crate::trial::{EMPTY, Start, TWO_CALLERS, Trial, Wanted};
use crate::turns::{Signal, Turn};

// So often each thread raises it.
const TIMES: usize = 200;

const FIRST: [Turn<'static>; 3] = [
    Turn::Count(Ask::Update(b"n"), TIMES),
    Turn::Made(TIMES),
    Turn::Set(Signal::Ended),
];

// The second one gets what it was before, once the first is done.
const SECOND: [Turn<'static>; 4] = [
    Turn::Count(Ask::Update(b"n"), TIMES),
    Turn::Wait(Signal::Ended),
    Turn::Ask(Ask::FetchFirst(b"n"), Told::Value(2 * TIMES as u64)),
    Turn::Made(TIMES + 1),
];

const TRIAL: Trial<'static> = Trial {
    first: &FIRST,
    others: &SECOND,
    wanted: Wanted::Calls(2 * TIMES + 1, &[]),
    ..TWO_CALLERS
};

#[test]
fn two_threads_fetch(rt: HostRuntime) {
    try_out(&rt, rt.alloc(), &TRIAL);
}

const GONE: [Turn<'static>; 3] = [
    Turn::Ask(Ask::FetchFirst(b"n"), Told::NoValue),
    Turn::Ask(Ask::DropTree, Told::Dropped),
    Turn::Ask(Ask::Update(b"n"), Told::NoSuchTree),
];

const DROPPED: Trial<'static> = Trial {
    start: Start {
        name: b"t",
        trees: 2,
        ..EMPTY
    },
    callers: 1,
    first: &GONE,
    wanted: Wanted::Calls(2, &[]),
    ..TWO_CALLERS
};

#[test]
fn a_fetch_finds_its_tree_dropped(rt: HostRuntime) {
    try_out(&rt, rt.alloc(), &DROPPED);
}
