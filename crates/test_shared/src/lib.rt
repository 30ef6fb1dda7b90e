//! Tests of a database that threads share. Each ends by itself, and comes out the same whatever the schedule, as long as a thread that
//! waits for another one does not look in vain a hundred million times; then the test fails. `beside` has callers work in threads of their
//! own, gathers the state, and looks at what they made. A `trial` says which `turns` each `caller` takes, and their expected outcome.
//! `asking` makes a call and tells its outcome in short, by `naming` and `reading` too. A `replay` makes the calls of a history again, on a
//! plain map.
#![tactic(auto)]

#[cfg(test)]
mod again_tests;
#[cfg(test)]
mod asking;
#[cfg(test)]
mod beside;
#[cfg(test)]
mod caller;
#[cfg(test)]
mod closing_tests;
#[cfg(test)]
mod counter_tests;
#[cfg(test)]
mod dropping_tests;
#[cfg(test)]
mod early_tests;
#[cfg(test)]
mod ending_tests;
#[cfg(test)]
mod export_tests;
#[cfg(test)]
mod fetch_tests;
#[cfg(test)]
mod flushed_tests;
#[cfg(test)]
mod gate_tests;
#[cfg(test)]
mod gather_tests;
#[cfg(test)]
mod handover_tests;
#[cfg(test)]
mod id_tests;
#[cfg(test)]
mod lagging_tests;
#[cfg(test)]
mod list_tests;
#[cfg(test)]
mod naming;
#[cfg(test)]
mod queue_tests;
#[cfg(test)]
mod read_tests;
#[cfg(test)]
mod reading;
#[cfg(test)]
mod reclaim_tests;
#[cfg(test)]
mod replay;
#[cfg(test)]
mod running;
#[cfg(test)]
mod scan_tests;
#[cfg(test)]
mod state_tests;
#[cfg(test)]
mod taking_tests;
#[cfg(test)]
mod transaction_tests;
#[cfg(test)]
mod trial;
#[cfg(test)]
mod turns;
#[cfg(test)]
mod way_tests;
#[cfg(test)]
mod whole_tests;
