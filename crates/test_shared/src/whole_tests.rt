//! Whole calls of two callers, and the entries of them.
use crate::asking::{Ask, Told};
use crate::beside::try_out;
use crate::trial::{TWO_CALLERS, Trial, Wanted};
use crate::turns::{Signal, Turn};

// The first caller fills the tree with two keys and pops the least of them.
const FIRST: [Turn<'static>; 5] = [
    Turn::Ask(Ask::Insert(b"a", b"1"), Told::NoValue),
    Turn::Ask(Ask::Insert(b"b", b"2"), Told::NoValue),
    Turn::Ask(Ask::PopMin, Told::Popped),
    Turn::Made(3),
    Turn::Set(Signal::Ready),
];

// Then the second one clears it, and makes each other whole call. Of the import that is refused two parts are done: the tree is opened, and
// the first pair is in.
const SECOND: [Turn<'static>; 13] = [
    Turn::Wait(Signal::Ready),
    Turn::Ask(Ask::Clear, Told::Done),
    Turn::Ask(Ask::GenerateId, Told::Number),
    Turn::Ask(Ask::Group(b"", b"3"), Told::Done),
    Turn::Ask(Ask::PopMax, Told::Popped),
    Turn::Ask(Ask::Import(&[4], 1), Told::Done),
    Turn::Ask(Ask::Import(&[5], 2), Told::Unsupported),
    Turn::Ask(Ask::Get(&[5]), Told::Value(5)),
    Turn::Ask(Ask::OpenTree(b"other"), Told::Tree),
    Turn::Ask(Ask::Flush, Told::Number),
    Turn::Ask(Ask::Watch, Told::Subscriber(1)),
    Turn::Ask(Ask::Unsubscribe(1), Told::Done),
    Turn::Made(11),
];

// The pop, the clear and the import that was refused are shown by their entries.
const TRIAL: Trial<'static> = Trial {
    first: &FIRST,
    others: &SECOND,
    wanted: Wanted::Calls(
        14,
        &[(1, Told::Popped), (2, Told::Done), (2, Told::Parts(2))],
    ),
    ..TWO_CALLERS
};

#[test]
fn whole_calls_are_noted(rt: HostRuntime) {
    try_out(&rt, rt.alloc(), &TRIAL);
}
