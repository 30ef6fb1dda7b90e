//! A scan that two threads step: the first takes one pair of it, and the second the others. And one of several leaves. Neither is added to
//! the history, and what they did is in the list of scans.
use crate::asking::{Ask, Told};
use crate::beside::try_out;
use crate::trial::{EMPTY, Start, TWO_CALLERS, Trial, Wanted};
use crate::turns::{Place, Signal, Turn};

// One step reads the leaf that is the root. Then each gives a pair.
const FIRST: [Turn<'static>; 5] = [
    Turn::Begin(Ask::Scan, Signal::Slot),
    Turn::Step(Told::Moved),
    Turn::Step(Told::Pair(0)),
    Turn::Made(0),
    Turn::Set(Signal::Ready),
];

const SECOND: [Turn<'static>; 6] = [
    Turn::Wait(Signal::Ready),
    Turn::Step(Told::Pair(1)),
    Turn::Step(Told::End),
    Turn::Step(Told::NoSuchSlot),
    Turn::Ask(Ask::Abandon(1), Told::NoSuchSlot),
    Turn::Made(0),
];

const TRIAL: Trial<'static> = Trial {
    start: Start { keys: 2, ..EMPTY },
    first: &FIRST,
    others: &SECOND,
    wanted: Wanted::Calls(0, &[]),
    scanned: Some(2),
    ..TWO_CALLERS
};

#[test]
fn a_scan_is_stepped_by_two_threads(rt: HostRuntime) {
    try_out(&rt, rt.alloc(), &TRIAL);
}

// So many pairs do not fit one leaf. Their keys are numbers of eight bytes.
const PAIRS: u64 = 100;

const ALL: [Turn<'static>; 3] = [
    Turn::Put(Place::Itself, PAIRS),
    Turn::Begin(Ask::Scan, Signal::Slot),
    Turn::ScanOn(PAIRS),
];

const LONG: Trial<'static> = Trial {
    callers: 1,
    first: &ALL,
    wanted: Wanted::Calls(PAIRS as usize, &[]),
    scanned: Some(PAIRS as usize),
    ..TWO_CALLERS
};

#[test]
fn a_scan_gives_each_pair(rt: HostRuntime) {
    try_out(&rt, rt.alloc(), &LONG);
}
