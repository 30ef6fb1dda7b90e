//! A typed map, with readings of two stations in the first tree.
use crate::seen::Seen;
use crate::trial::Trial;
use example_databases::Reading;
use sled_nodes::{IVec, Result};
use std::alloc::Global;
use std::ops::Bound;
use typed_map::{TypedError, TypedResult, look_up, put, walk};

// What was measured at a station in an hour.
fn reading(alloc: Global, station: &str, hour: u64) -> Result<Reading> {
    match IVec::from_slice(alloc, station.as_bytes()) {
        Ok(station) => Ok(Reading { station, hour }),
        Err(e) => Err(e),
    }
}

// Puts a value at a reading.
fn put_value(trial: &mut Trial, station: &str, hour: u64, value: u64) {
    match reading(trial.db.allocator(), station, hour) {
        Ok(key) => {
            let done = put(&mut trial.db, &trial.first, &key, &value);
            drop(key);
            trial.seen.made(done);
        }
        Err(e) => trial.seen = Seen::refused(e),
    }
}

// The hours of Ulm between which there are two readings.
fn bounds(alloc: Global) -> Result<(Reading, Reading)> {
    let lo = reading(alloc, "Ulm", 0)?;
    match reading(alloc, "Ulm", 301) {
        Ok(hi) => Ok((lo, hi)),
        Err(e) => {
            drop(lo);
            Err(e)
        }
    }
}

// Whether the two readings of Ulm are walked, in the order of their hours.
fn walks(trial: &Trial) -> TypedResult<bool> {
    let bounds = bounds(trial.db.allocator())?;
    let (lo, hi) = (Bound::Included(&bounds.0), Bound::Excluded(&bounds.1));
    let found = walk(&trial.db, &trial.first, lo, hi);
    drop(bounds);
    let found: Vec<(Reading, u64)> = found?;
    let is_found = match found.as_slice() {
        [first, second] => {
            first.0.hour == 2 && first.1 == 19 && second.0.hour == 300 && second.1 == 20
        }
        _ => false,
    };
    drop(found);
    Ok(is_found)
}

// Whether the reading of Bern is found.
fn looks_up(trial: &Trial) -> TypedResult<bool> {
    let key = reading(trial.db.allocator(), "Bern", 5)?;
    let found: TypedResult<Option<u64>> = look_up(&trial.db, &trial.first, &key);
    drop(key);
    Ok(found? == Some(17))
}

/// Tests whether a typed read answered that something is so. It did not if the tree has something foreign.
pub fn tells(trial: &mut Trial, is: TypedResult<bool>) {
    match is {
        Ok(is) => trial.seen.that(is),
        Err(TypedError::Foreign) => trial.seen.that(false),
        Err(TypedError::Refused(e)) => trial.seen = Seen::refused(e),
    }
}

// Whether the readings of Ulm are walked beside a foreign pair outside their hours, and refused for one within them.
fn tells_foreign(trial: &mut Trial) {
    trial.insert(b"of no hour", b"");
    let is_walked = walks(trial);
    tells(trial, is_walked);
    // Hour 1, and a byte more.
    trial.insert(b"Ulm\0\0\0\0\0\0\0\0\0\x01\0", b"");
    match walks(trial) {
        Err(TypedError::Foreign) => {}
        is_walked => {
            tells(trial, is_walked);
            trial.seen.that(false);
        }
    }
}

/// Whether readings of a station and an hour are read again, in their order. Hour 300 of Ulm is measured twice.
pub fn reads_readings(trial: &mut Trial) {
    put_value(trial, "Ulm", 300, 21);
    put_value(trial, "Bern", 5, 17);
    put_value(trial, "Ulm", 2, 19);
    put_value(trial, "Ulm", 300, 20);
    let is_found = looks_up(trial);
    tells(trial, is_found);
    let is_walked = walks(trial);
    tells(trial, is_walked);
    tells_foreign(trial);
}
