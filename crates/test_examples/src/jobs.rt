//! The jobs in `example_transactions`: those that are ready, the first tree, and those that run, the second.
use crate::seen::Seen;
use crate::trial::Trial;
use example_transactions::take_job;
use sled_nodes::Result;

// Two jobs are ready.
fn add_two(trial: &mut Trial) {
    trial.insert(b"bern", b"print");
    trial.insert(b"ulm", b"paint");
}

// Takes a job. Whether it was ready.
fn take(trial: &mut Trial, job: &str, is_ready: bool) {
    let (ready, running) = (&trial.first, &trial.second);
    let taken = take_job(&mut trial.db, ready, running, job.as_bytes());
    trial.seen.ended(taken, Ok(is_ready));
}

/// Whether a job is taken once, with its value, and the others stay.
pub fn takes(trial: &mut Trial) {
    add_two(trial);
    take(trial, "ulm", true);
    trial.holds(&[("bern", "print")], &[("ulm", "paint")]);
    take(trial, "ulm", false);
    trial.holds(&[("bern", "print")], &[("ulm", "paint")]);
}

/// Takes two jobs, whatever becomes of each. No crash takes back that they were ready.
pub fn take_both(trial: &mut Trial) {
    add_two(trial);
    if trial.is_settled() {
        take(trial, "ulm", true);
        take(trial, "bern", true);
        trial.seen = Seen::Yes;
    }
}

// Whether a job is in one of the two trees alone.
fn is_in_one(trial: &Trial, job: &[u8]) -> Result<bool> {
    Ok(trial.db.contains_key(&trial.first, job)? != trial.db.contains_key(&trial.second, job)?)
}

/// Whether each of the two is in one tree alone.
pub fn are_in_one(trial: &mut Trial) {
    let first = is_in_one(trial, b"bern");
    trial.seen.told(first, true);
    let second = is_in_one(trial, b"ulm");
    trial.seen.told(second, true);
}
