//! Many calls that are abandoned, one after the other.
use crate::beside::try_out;
use crate::trial::{TWO_CALLERS, Trial, Wanted};
use crate::turns::Turn;

// So many calls begin: as many slots are given.
const CALLS: u64 = 200;

const FIRST: [Turn<'static>; 2] = [Turn::GiveUp(CALLS), Turn::Made(0)];

const TRIAL: Trial<'static> = Trial {
    callers: 1,
    first: &FIRST,
    wanted: Wanted::Calls(0, &[]),
    ..TWO_CALLERS
};

#[test]
fn each_call_is_given_up(rt: HostRuntime) {
    try_out(&rt, rt.alloc(), &TRIAL);
}
