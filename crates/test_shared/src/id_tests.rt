//! Calls by a handle beside others in their slots: none takes an id but the one that asks for it, and none makes a turn of another call.
use crate::asking::{Ask, Told};
use crate::beside::try_out;
use crate::trial::{EMPTY, Start, TWO_CALLERS, Trial, Wanted};
use crate::turns::{Signal, Turn};

const POINTS: [(Ask<'static>, Told); 8] = [
    (Ask::Insert(b"a", &[1]), Told::NoValue),
    (Ask::Get(b"a"), Told::Value(1)),
    (Ask::Swap(b"a", &[1], &[2]), Told::Swapped),
    (Ask::Merge(b"b", &[0, 0, 0, 0, 0, 0, 0, 3]), Told::Value(3)),
    (Ask::Remove(b"b"), Told::Value(3)),
    (Ask::Update(b"n"), Told::Value(1)),
    (Ask::FetchFirst(b"n"), Told::Value(1)),
    (Ask::FetchNothing(b"n"), Told::NoMemory),
];

const READS: [(Ask<'static>, Told); 12] = [
    (Ask::Look(b"a"), Told::Value(2)),
    (Ask::Has(b"b"), Told::Flag(false)),
    (Ask::Below(b"b"), Told::Pair(0x61)),
    (Ask::Above(b"b"), Told::Pair(0x6e)),
    (Ask::First, Told::Pair(0x61)),
    (Ask::Last, Told::Pair(0x6e)),
    (Ask::Len, Told::Pairs(2)),
    (Ask::IsEmpty, Told::Flag(false)),
    (Ask::Page(b"b", false, 9), Told::Pairs(0x6e)),
    (Ask::Pages(b"", 1), Told::Pairs(2)),
    (Ask::Names, Told::Pairs(2)),
    (Ask::Export, Told::Pairs(2)),
];

const WHOLES: [(Ask<'static>, Told); 15] = [
    (Ask::Transact(b"c", &[4]), Told::Done),
    (Ask::TransactAll(b"d", &[5]), Told::Done),
    (Ask::Group(b"e", &[6]), Told::Done),
    (Ask::PopMin, Told::Popped),
    (Ask::PopMax, Told::Popped),
    (Ask::Import(&[7], 1), Told::Done),
    (Ask::Watch, Told::Subscriber(1)),
    (Ask::Insert(b"f", &[8]), Told::NoValue),
    (Ask::Next(1), Told::Event(0x66)),
    (Ask::Unsubscribe(1), Told::Done),
    (Ask::OpenTree(b"other"), Told::Tree),
    (Ask::Flush, Told::Number),
    (Ask::Clear, Told::Done),
    (Ask::DropTree, Told::Dropped),
    (Ask::PopMin, Told::NoSuchTree),
];

// The same, but for the flush.
const UNFLUSHED: [(Ask<'static>, Told); 14] = [
    (Ask::Transact(b"c", &[4]), Told::Done),
    (Ask::TransactAll(b"d", &[5]), Told::Done),
    (Ask::Group(b"e", &[6]), Told::Done),
    (Ask::PopMin, Told::Popped),
    (Ask::PopMax, Told::Popped),
    (Ask::Import(&[7], 1), Told::Done),
    (Ask::Watch, Told::Subscriber(1)),
    (Ask::Insert(b"f", &[8]), Told::NoValue),
    (Ask::Next(1), Told::Event(0x66)),
    (Ask::Unsubscribe(1), Told::Done),
    (Ask::OpenTree(b"other"), Told::Tree),
    (Ask::Clear, Told::Done),
    (Ask::DropTree, Told::Dropped),
    (Ask::PopMin, Told::NoSuchTree),
];

const QUIETLY: [Turn<'static>; 4] = [
    Turn::NextId,
    Turn::TakeNoId(&POINTS),
    Turn::TakeNoId(&READS),
    Turn::TakeNoId(&UNFLUSHED),
];

const FIRST: [Turn<'static>; 10] = [
    Turn::NextId,
    Turn::Begin(Ask::Get(b"a"), Signal::Before),
    Turn::NextId,
    Turn::Begin(Ask::Scan, Signal::After),
    Turn::NextId,
    Turn::GiveUp(2),
    Turn::NextId,
    Turn::TakeNoId(&POINTS),
    Turn::TakeNoId(&READS),
    Turn::TakeNoId(&WHOLES),
];

// In the slots of before and after stand a get and a scan that nobody steps.
const TRIAL: Trial<'static> = Trial {
    start: Start {
        name: b"t",
        trees: 2,
        ..EMPTY
    },
    callers: 1,
    first: &FIRST,
    wanted: Wanted::Any,
    ..TWO_CALLERS
};

// All that is done here is undone by a crash that keeps nothing since the last flush.
const QUIET_TRIAL: Trial<'static> = Trial {
    first: &QUIETLY,
    ..TRIAL
};

#[test]
fn no_call_but_a_flush_flushes(rt: HostRuntime) {
    try_out(&rt, rt.alloc(), &QUIET_TRIAL);
}

#[test]
fn a_call_takes_no_id_and_no_turn_of_another(rt: HostRuntime) {
    try_out(&rt, rt.alloc(), &TRIAL);
}
