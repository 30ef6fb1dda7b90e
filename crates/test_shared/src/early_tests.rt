//! A subscriber from before the database was shared, and one that a handle made: each gets all events, whatever begins between.
use crate::asking::{Ask, Told};
use crate::beside::try_out;
use crate::trial::{EMPTY, Start, TWO_CALLERS, Trial, Wanted};
use crate::turns::{Signal, Turn};

const FIRST: [Turn<'static>; 9] = [
    Turn::Ask(Ask::Watch, Told::Subscriber(2)),
    Turn::Ask(Ask::Insert(&[1], b"1"), Told::NoValue),
    Turn::Ask(Ask::Insert(&[2], b"2"), Told::NoValue),
    Turn::Ask(Ask::Next(2), Told::Event(1)),
    Turn::Begin(Ask::Get(&[1]), Signal::Before),
    Turn::Ask(Ask::Next(2), Told::Event(2)),
    Turn::Ask(Ask::Next(1), Told::Event(1)),
    Turn::Ask(Ask::Next(1), Told::Event(2)),
    Turn::Made(7),
];

const TRIAL: Trial<'static> = Trial {
    start: Start {
        watched: true,
        ..EMPTY
    },
    callers: 1,
    first: &FIRST,
    wanted: Wanted::Calls(7, &[]),
    ..TWO_CALLERS
};

#[test]
fn a_subscriber_of_before_is_told(rt: HostRuntime) {
    try_out(&rt, rt.alloc(), &TRIAL);
}
