//! Reads under one lock: what each answers, beside writes of another thread, and of a tree that is gone. And whole calls by their own
//! names.
use crate::asking::{Ask, Told};
use crate::beside::try_out;
use crate::trial::{EMPTY, Start, TWO_CALLERS, Trial, Wanted};
use crate::turns::{Place, Signal, Turn};

// The keys are 0, 1, 2 and 3, each with itself as its value.
const EACH: [Turn<'static>; 21] = [
    Turn::Ask(Ask::Look(&[2]), Told::Value(2)),
    Turn::Ask(Ask::Look(&[9]), Told::NoValue),
    Turn::Ask(Ask::Has(&[2]), Told::Flag(true)),
    Turn::Ask(Ask::Has(&[9]), Told::Flag(false)),
    Turn::Ask(Ask::First, Told::Pair(0)),
    Turn::Ask(Ask::Last, Told::Pair(3)),
    Turn::Ask(Ask::Below(&[2]), Told::Pair(1)),
    Turn::Ask(Ask::Below(&[0]), Told::NoValue),
    Turn::Ask(Ask::Above(&[2]), Told::Pair(3)),
    Turn::Ask(Ask::Above(&[3]), Told::NoValue),
    Turn::Ask(Ask::Len, Told::Pairs(4)),
    Turn::Named(Ask::Len, Told::Pairs(4)),
    Turn::Ask(Ask::IsEmpty, Told::Flag(false)),
    Turn::Ask(Ask::Page(&[1], false, 2), Told::Pairs(0x0102)),
    Turn::Ask(Ask::Page(&[1], true, 2), Told::Pairs(0x0302)),
    Turn::Ask(Ask::Page(&[2], false, 9), Told::Pairs(0x0203)),
    Turn::Ask(Ask::Page(&[2], true, 0), Told::Pairs(0)),
    Turn::Ask(Ask::Names, Told::Pairs(2)),
    Turn::Ask(Ask::Export, Told::Pairs(4)),
    Turn::Made(19),
    Turn::Set(Signal::Ready),
];

// Then the other caller drops the tree, of which nothing more is answered.
const GONE: [Turn<'static>; 6] = [
    Turn::Wait(Signal::Ready),
    Turn::Named(Ask::DropTree, Told::Flag(true)),
    Turn::Ask(Ask::Look(&[2]), Told::NoSuchTree),
    Turn::Ask(Ask::Page(&[1], false, 2), Told::NoSuchTree),
    Turn::Ask(Ask::Names, Told::Pairs(1)),
    Turn::Made(2),
];

const TELLING: Trial<'static> = Trial {
    start: Start {
        name: b"t",
        trees: 2,
        keys: 4,
        ..EMPTY
    },
    first: &EACH,
    others: &GONE,
    wanted: Wanted::Calls(21, &[]),
    ..TWO_CALLERS
};

#[test]
fn each_read_is_told(rt: HostRuntime) {
    try_out(&rt, rt.alloc(), &TELLING);
}

// So often each thread writes or reads.
const TIMES: u64 = 300;

const WRITING: [Turn<'static>; 1] = [Turn::Put(Place::Itself, TIMES)];

// What is read beside the writes is what a plain map has at its place in the history.
const READING: [Turn<'static>; 6] = [
    Turn::Again(Ask::Last, TIMES),
    Turn::Again(Ask::Look(&[0, 0, 0, 0, 0, 0, 0, 9]), TIMES),
    Turn::Again(Ask::Len, TIMES),
    Turn::Again(Ask::Page(&[0], true, 5), TIMES),
    Turn::Again(Ask::Export, 9),
    Turn::Made(4 * TIMES as usize + 9),
];

const BESIDE: Trial<'static> = Trial {
    first: &WRITING,
    others: &READING,
    ..TWO_CALLERS
};

#[test]
fn threads_read_beside_writes(rt: HostRuntime) {
    try_out(&rt, rt.alloc(), &BESIDE);
}

// Each whole call by its own name.
const NAMED: [Turn<'static>; 19] = [
    Turn::Named(Ask::Watch, Told::Subscriber(1)),
    Turn::Named(Ask::PopMin, Told::NoValue),
    Turn::Named(Ask::Group(&[1], &[1]), Told::Done),
    Turn::Named(Ask::Insert(&[2], &[2]), Told::Done),
    Turn::Named(Ask::Import(&[3], 1), Told::Done),
    Turn::Named(Ask::Import(&[3], 1), Told::Unsupported),
    Turn::Named(Ask::Get(&[3]), Told::Value(3)),
    Turn::Named(Ask::Next(1), Told::Event(1)),
    Turn::Named(Ask::Unsubscribe(1), Told::Done),
    Turn::Named(Ask::Next(1), Told::NoValue),
    Turn::Named(Ask::PopMin, Told::Popped),
    Turn::Named(Ask::PopMax, Told::Popped),
    Turn::Named(Ask::Clear, Told::Done),
    Turn::Ask(Ask::IsEmpty, Told::Flag(true)),
    Turn::Named(Ask::GenerateId, Told::Number),
    Turn::Named(Ask::OpenTree(b"other"), Told::Tree),
    Turn::Named(Ask::Flush, Told::Number),
    Turn::Ask(Ask::Names, Told::Pairs(2)),
    Turn::Made(18),
];

const NAMING: Trial<'static> = Trial {
    callers: 1,
    first: &NAMED,
    wanted: Wanted::Calls(18, &[]),
    ..TWO_CALLERS
};

#[test]
fn whole_calls_have_names(rt: HostRuntime) {
    try_out(&rt, rt.alloc(), &NAMING);
}
