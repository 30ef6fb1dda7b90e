//! A thread that inserts into a tree until another one drops it, and calls on a tree that is gone.
use crate::asking::{Ask, Told};
use crate::beside::try_out;
use crate::trial::{EMPTY, Start, TWO_CALLERS, Trial, Wanted};
use crate::turns::{Place, Signal, Turn};

// So many keys are inserted. Then the test fails, since the other thread did nothing.
const KEYS: u64 = 10_000_000;

const FIRST: [Turn<'static>; 1] = [Turn::Put(Place::Itself, KEYS)];

// The second thread drops the tree once an insert was decided.
const SECOND: [Turn<'static>; 2] = [
    Turn::Wait(Signal::Count),
    Turn::Ask(Ask::DropTree, Told::Dropped),
];

const TRIAL: Trial<'static> = Trial {
    start: Start {
        name: b"t",
        trees: 2,
        ..EMPTY
    },
    first: &FIRST,
    others: &SECOND,
    wanted: Wanted::Dropped(KEYS),
    ..TWO_CALLERS
};

#[test]
fn an_insert_finds_its_tree_dropped(rt: HostRuntime) {
    try_out(&rt, rt.alloc(), &TRIAL);
}

// Once the tree is dropped, each call on it says so.
const GONE: [Turn<'static>; 4] = [
    Turn::Ask(Ask::DropTree, Told::Dropped),
    Turn::Ask(Ask::PopMin, Told::NoSuchTree),
    Turn::Ask(Ask::Clear, Told::NoSuchTree),
    Turn::Ask(Ask::Get(b"a"), Told::NoSuchTree),
];

const DROPPED: Trial<'static> = Trial {
    start: Start {
        name: b"t",
        trees: 2,
        ..EMPTY
    },
    callers: 1,
    first: &GONE,
    wanted: Wanted::Calls(1, &[]),
    ..TWO_CALLERS
};

#[test]
fn a_pop_finds_its_tree_dropped(rt: HostRuntime) {
    try_out(&rt, rt.alloc(), &DROPPED);
}
