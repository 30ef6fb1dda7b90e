//! Two threads that insert under a subscriber, which no thread reads meanwhile: it gets the latest events, and how many it missed.
use crate::beside::try_out;
use crate::trial::{TWO_CALLERS, Trial, Wanted};
use crate::turns::{Place, Signal, Turn};

// So often each thread inserts.
const TIMES: u64 = 1500;

// So many events wait for a subscriber at most.
const WAITING: u64 = 1024;

// All calls are noted: the subscription, the inserts, and each that asked for what is next.
const CALLS: u64 = 1 + 2 * TIMES + 1 + WAITING + 1;

// The thread that is done last asks for what the subscriber gets.
const LAG: Turn<'static> = Turn::Lag(WAITING, 2 * TIMES - WAITING);

// The first thread has the subscriber.
const FIRST: [Turn<'static>; 3] = [Turn::Watch, Turn::Put(Place::Key(b"one"), TIMES), LAG];

const SECOND: [Turn<'static>; 3] = [
    Turn::Wait(Signal::Ready),
    Turn::Put(Place::Key(b"other"), TIMES),
    LAG,
];

const TRIAL: Trial<'static> = Trial {
    first: &FIRST,
    others: &SECOND,
    wanted: Wanted::Calls(CALLS as usize, &[]),
    ..TWO_CALLERS
};

#[test]
fn a_subscriber_lags_behind_two_threads(rt: HostRuntime) {
    try_out(&rt, rt.alloc(), &TRIAL);
}
