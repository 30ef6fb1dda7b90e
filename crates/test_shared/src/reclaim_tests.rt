//! Handles that are lost: the state can be taken once none is left, and has what their callers made.
use crate::beside::lose_all;
use crate::trial::{TWO_CALLERS, Trial, Wanted};

const TRIAL: Trial<'static> = Trial {
    wanted: Wanted::Calls(2, &[]),
    ..TWO_CALLERS
};

#[test]
fn a_state_without_its_handles(rt: HostRuntime) {
    lose_all(&rt, rt.alloc(), &TRIAL);
}
