//! Runs `raise_and_crash` of `example_crashes`: threads raise a number of a database that they share, its store crashes, and the number is
//! found again. How much a crash keeps of it is read off how many actions a raise takes. At the end it tells whether a database that is
//! flushed and shared notes what scans do.
#![tactic(auto)]

ghost use Rattle.std.specs.Prelude.{◌≡◌};

use example_crashes::raise_and_crash;
use sled::{Db, Error, empty_pages};
use sled_machine::shared;
use sled_machine::shared::Blank;
use std::alloc::Global;
use std::marker::Brand;
use std::sync::Wait;
use std::sync::ledger::Ledger;
use std::thread::Threads;

const CALLERS: u64 = 3;

const TIMES: u64 = 40;

// Prints the number before a crash, and what was found after it.
fn tell(rt: &impl Print, what: &str, numbers: (u64, u64)) {
    let (raised, found) = numbers;
    let _ = println!(rt; "{what}: raised to {raised}, found {found}");
}

// Goes the whole way.
fn go<L: Ledger + Send + Sync, R: Threads + Wait + Sync>(
    rt: &R,
    alloc: Global,
    blank: Blank,
    flushes: bool,
    keep: usize,
) -> sled::Result<(u64, u64)>
where
    requires name { blank.name ≡ L.name }
    requires parts { blank.parts ≡ L.parts }
    requires each { blank.parts ≡ 4 }
{
    let db = Db::open(alloc, empty_pages(alloc), b"hits").map_err(|(_, e)| e)?;
    let tree = db.default_tree()?;
    let came = raise_and_crash::<L, _, R>(
        rt, alloc, db, blank, CALLERS, &tree, b"hits", TIMES, flushes, keep, b"hits",
    );
    drop(tree);
    match came {
        Ok(crashed) => {
            let numbers = (crashed.raised, crashed.found);
            drop(crashed);
            Ok(numbers)
        }
        Err(stopped) => {
            drop(stopped);
            Err(Error::NoMemory)
        }
    }
}

fn go_on<R: Threads + Wait + Sync>(
    rt: &R,
    alloc: Global,
    flushes: bool,
    keep: usize,
) -> sled::Result<(u64, u64)> {
    go::<Brand, R>(rt, alloc, Blank::new(4), flushes, keep)
}

// Whether a database that is flushed and shared notes what scans do.
fn keeps<L: Ledger, R: Wait>(
    rt: &R,
    alloc: Global,
    blank: Blank,
    notes_scans: bool,
) -> sled::Result<bool>
where
    requires name { blank.name ≡ L.name }
    requires parts { blank.parts ≡ L.parts }
    requires each { blank.parts ≡ 1 }
{
    let db = Db::open(alloc, empty_pages(alloc), b"hits").map_err(|(_, e)| e)?;
    let shared = shared::Db::<_, L>::new_flushed(rt, alloc, db, blank, 0, notes_scans).map_err(|(
        _,
        e,
    )| e)?;
    match shared.reclaim(rt) {
        Ok(state) => {
            let keeps = state.keeps_scans();
            drop(state);
            Ok(keeps)
        }
        Err(shared) => {
            drop(shared);
            Err(Error::NoMemory)
        }
    }
}

fn keeps_on<R: Wait>(rt: &R, alloc: Global, notes_scans: bool) -> sled::Result<bool> {
    keeps::<Brand, R>(rt, alloc, Blank::new(1), notes_scans)
}

fn main(rt: HostRuntime) -> sled::Result<()> {
    let alloc = rt.alloc();
    tell(
        &rt,
        "a crash that keeps all",
        go_on(&rt, alloc, false, 1_000_000)?,
    );
    tell(
        &rt,
        "a crash that keeps half",
        go_on(&rt, alloc, false, 180)?,
    );
    tell(
        &rt,
        "a crash that keeps nothing",
        go_on(&rt, alloc, false, 0)?,
    );
    tell(&rt, "a crash after a flush", go_on(&rt, alloc, true, 0)?);
    let noted = keeps_on(&rt, alloc, true)?;
    let unnoted = keeps_on(&rt, alloc, false)?;
    let _ = println!(&rt; "scans are noted: {noted}, and without asking: {unnoted}");
    Ok(())
}
