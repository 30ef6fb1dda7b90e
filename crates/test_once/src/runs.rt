//! A run whose disks refuse a call, and crash.
use crate::pairs::{Disks, Files, Form, count, insert, into_disks, lens, open};
use sled_disk::MemoryDisk;
use std::alloc::Global;
use test_report::seeds::crash;
use test_report::trouble::{Result, Trouble, expect};

/// The numbers of the two disks.
pub const FILES: [u64; 2] = [1, 2];

// How many pairs a run inserts, and flushes each.
const PAIRS: u64 = 9;

/// Which call of which disk is refused.
#[derive(Clone, Copy)]
pub struct Case {
    pub has_snapshots: bool,
    /// The number of the disk, 1 or 2.
    pub disk: u64,
    pub call: u64,
}

// How many pairs were flushed, and how many inserted.
#[derive(Clone, Copy)]
struct Known {
    flushed: u64,
    inserted: u64,
}

// An empty disk that refuses a call.
fn disk(alloc: Global, call: u64) -> Result<MemoryDisk> {
    let mut disk = MemoryDisk::new(alloc, Vec::new(alloc))?;
    disk.refuse_at(&[call])?;
    Ok(disk)
}

// The disks that a case begins with.
fn disks(alloc: Global, case: Case) -> Result<Disks> {
    if case.disk == 1 {
        Ok((disk(alloc, case.call)?, disk(alloc, 0)?))
    } else {
        Ok((disk(alloc, 0)?, disk(alloc, case.call)?))
    }
}

// Inserts pairs, and flushes each. Whether a call was refused.
fn run(db: &mut Files, known: &mut Known, pairs: u64) -> bool {
    for _ in 0..pairs {
        if insert(db, known.inserted).is_err() {
            return true;
        }
        known.inserted = known.inserted.saturating_add(1);
        if db.flush().is_err() {
            return true;
        }
        known.flushed = known.inserted;
    }
    false
}

// What is known of what a crash left: the pairs that were flushed are there, and none that were not inserted.
fn found(db: &mut Files, known: Known) -> Result<Known> {
    let found = count(db)?;
    expect(
        known.flushed <= found && found <= known.inserted,
        "a flushed pair is lost, or one is there that was not inserted",
    )?;
    Ok(Known {
        flushed: found,
        inserted: found,
    })
}

// How what a crash left is opened, by the number of its seed.
fn form_of(seed: u64) -> Form {
    match seed % 3 {
        0 => Form::Whole,
        1 => Form::Mended,
        _ => Form::Apart,
    }
}

// Opens what a crash left.
fn reopen(alloc: Global, disks: Disks, form: Form, known: Known) -> Result<(Files, Known)> {
    let Some(mut db) = open(alloc, disks, form, false)? else {
        return Err(Trouble::Wrong("a disk refused a call after a crash"));
    };
    match found(&mut db, known) {
        Ok(known) => Ok((db, known)),
        Err(e) => {
            drop(into_disks(db));
            Err(e)
        }
    }
}

// Crashes, opens what is left, goes on, and crashes again.
fn crash_twice(alloc: Global, disks: &Disks, known: Known, seed: u64) -> Result<()> {
    let form = form_of(seed);
    let (mut db, mut known) = reopen(alloc, crash(alloc, disks, seed)?, form, known)?;
    let is_refused = run(&mut db, &mut known, 2);
    let seen = lens(&db);
    let disks = into_disks(db);
    expect(
        seen == (disks.0.bytes().len(), disks.1.bytes().len()),
        "a disk is not as it was seen",
    )?;
    expect(!is_refused, "a call was refused after a crash")?;
    let left = crash(alloc, &disks, seed.wrapping_add(3))?;
    drop(disks);
    let (db, _) = reopen(alloc, left, form, known)?;
    drop(into_disks(db));
    Ok(())
}

/// Runs a case, and crashes by the numbers of a seed. Whether a call was refused.
pub fn run_case(alloc: Global, case: Case, seed: u64) -> Result<bool> {
    let Some(mut db) = open(alloc, disks(alloc, case)?, Form::Whole, case.has_snapshots)? else {
        return Ok(true);
    };
    let mut known = Known {
        flushed: 0,
        inserted: 0,
    };
    let is_refused = run(&mut db, &mut known, PAIRS);
    let disks = into_disks(db);
    crash_twice(alloc, &disks, known, seed)?;
    drop(disks);
    Ok(is_refused)
}
