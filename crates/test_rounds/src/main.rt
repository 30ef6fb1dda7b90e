//! Threads that share a database in memory make calls of all kinds on it, and the lines that it prints show a checker all of them.
//!
//!     test_rounds SEED OPENINGS CALLERS KEYS CALLS
//!
//! So many times a database is opened: a new one, and then what a crash left. Each time so many callers, at most 255, make so many calls
//! each, on so many keys, and some of them lose their handles. Then the state is gathered or reclaimed, and shared again by chance. By the
//! seed it is chosen which calls are made and what the crash leaves; with one caller the lines are the same in each run. `tests/rounds`
//! checks them.
//!
//! The lines are these. A word is spelled as in lines of the shell, a tree is its name and its number, and pairs follow their count.
//!
//!     id N                            an id that was taken at an opening
//!     opened N ..                     what is there: so many trees, each with its name and its pairs
//!     flushed|unflushed K V           a pair that was set, and whether all was flushed as the database was shared behind it
//!     caller N kept|lost              the calls of this caller come now, and its handle is there or not
//!     BEFORE CALL = AFTER ANSWER      a call, and what a clock said right before and right after it
//!     gathered, missing, reclaimed    how the state was taken: with all handles, or not, since some are missing, and then without any
//!     again                           it is shared again
//!     entry N CALL = REPLY            an entry of the history, by this caller
//!     note SLOT N DID                 what a scan did in its slot, and how many entries the history had then
//!     notes yes|no                    whether all that scans did is noted
//!     left N ..                       what is there at the end
//!     crash N                         a crash that keeps so many actions
//!
//! The status is 1 for other words, and if anything failed.
#![tactic(auto)]

mod caller;
mod calls;
mod era;
mod listen;
mod round;
mod scene;
mod short;
mod slots;
mod text;
mod trees;

use era::{Fate, Fresh, live, open_new};
use round::Ending;
use scene::{Plan, scattered};
use std::alloc::Global;
use std::env;
use std::io::Write;
use std::process::ExitCode;
use std::sync::Wait;
use std::thread::Threads;
use text::Text;

// What the words ask for, and how often a database is opened.
fn read_words(alloc: Global, words: &[String]) -> Option<(Plan, u64)> {
    let [seed, openings, callers, keys, turns] = words else {
        return None;
    };
    Some((
        Plan {
            alloc,
            seed: seed.parse().ok()?,
            callers: callers.parse().ok()?,
            keys: keys.parse().ok()?,
            turns: turns.parse().ok()?,
        },
        openings.parse().ok()?,
    ))
}

// How a round ends, as a number chooses.
fn ending_of(choice: u64) -> Ending {
    Ending {
        loses: choice & 3 == 0,
        reclaims: choice & 12 == 0,
    }
}

// What becomes of a database, as a number chooses.
fn fate_of(choice: u64) -> Fate {
    let most = match choice >> 8 & 3 {
        0 => 1,
        1 => 30,
        2 => 300,
        _ => 1 << 20,
    };
    Fate {
        flushes: choice >> 12 & 1 == 0,
        again: choice >> 10 & 1 == 0,
        first: ending_of(choice >> 16),
        second: ending_of(choice >> 24),
        keep: (choice >> 32) as usize % most,
    }
}

// Prints lines, if all are there. Whether that went well.
fn print<W: Write>(output: &mut W, text: &Text) -> bool {
    match text.whole() {
        Some(bytes) => {
            let written = output.write_all(bytes);
            let done = written.is_ok();
            drop(written);
            done
        }
        None => false,
    }
}

// Shares a database, crashes, and opens what is left.
fn live_once<R: Threads + Wait + Sync, W: Write>(
    rt: &R,
    output: &mut W,
    plan: Plan,
    db: Fresh,
) -> Option<Fresh> {
    let mut all = Text::new(plan.alloc);
    let left = live(rt, plan, fate_of(scattered(plan.seed)), &mut all, db);
    let done = print(output, &all);
    drop(all);
    if done {
        left
    } else {
        drop(left);
        None
    }
}

// The same again and again. Whether all that went well.
fn live_on<R: Threads + Wait + Sync, W: Write>(
    rt: &R,
    output: &mut W,
    plan: Plan,
    openings: u64,
    db: Fresh,
) -> bool {
    let mut left = Some(db);
    for opening in 0..openings {
        let Some(db) = left else {
            return false;
        };
        let seed = plan.seed.wrapping_mul(1_000_003).wrapping_add(opening);
        left = live_once(rt, output, Plan { seed, ..plan }, db);
    }
    let done = left.is_some();
    drop(left);
    done
}

// Begins with a new database.
fn run<R: Threads + Wait + Sync, W: Write>(
    rt: &R,
    output: &mut W,
    plan: Plan,
    openings: u64,
) -> bool {
    let mut all = Text::new(plan.alloc);
    let db = open_new(plan.alloc, &mut all);
    let done = print(output, &all);
    drop(all);
    match db {
        Some(db) => live_on(rt, output, plan, openings, db) && done,
        None => false,
    }
}

fn words(rt: &HostRuntime) -> Option<Vec<String>> {
    env::args(rt).ok()?.skip(1).collect(rt.alloc()).ok()
}

fn main(rt: HostRuntime) -> ExitCode {
    let Some(words) = words(&rt) else {
        return ExitCode::from(1);
    };
    let done = match read_words(rt.alloc(), words.as_slice()) {
        Some((plan, openings)) => run(&rt, &mut std::io::writer(&rt), plan, openings),
        None => false,
    };
    ExitCode::from(u8::from(!done))
}
