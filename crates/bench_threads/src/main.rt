//! Measures calls on a database in memory that several threads share.
//!
//!     bench_threads PAIRS CALLS SEED THREADS WORKLOAD..
//!
//! Each workload begins with so many pairs loaded anew, at least one. So many threads, at most 255, share the database, and each makes so
//! many calls by its handle, on keys of these pairs. They are `gets`, or a `mix` of 95 gets and 5 inserts of 100. In `reads` and
//! `mixed_reads` each get is a read under one lock. Then the handles are given back. Up to 8 pairs are in one leaf. Keys are 8 bytes, and
//! values 16. Each call is recorded in memory, in the history and in the handle's own list, so some hundred thousand calls are enough.
//!
//! Each workload prints its name, how many calls the history has, and a checksum of their replies, which is the same whatever the
//! schedule. On standard error it prints its name and the time from the start of the first thread to the end of the last, in microseconds.
//! The status is 1 for other words, and if anything failed.
#![tactic(auto)]

mod loaded;
mod pairs;
mod threads;
mod work;

use loaded::{Owned, is_done, load};
use pairs::Pairs;
use sled::{Db, empty_pages};
use sled_machine::shared::Blank;
use std::alloc::Global;
use std::env;
use std::marker::Brand;
use std::process::ExitCode;
use std::rt::Clock;
use std::sync::Wait;
use std::thread::Threads;
use threads::{Told, run};
use work::{Kind, Work, kind_of};

// What the words ask for, with gets alone as yet.
fn read_words(alloc: Global, words: &[String; 4]) -> Option<Work> {
    let [pairs, calls, seed, threads] = words;
    match (pairs.parse(), calls.parse(), seed.parse(), threads.parse()) {
        (Ok(count), Ok(calls), Ok(seed), Ok(threads)) if count > 0 => Some(Work {
            alloc,
            pairs: Pairs { seed, count },
            calls,
            threads,
            kind: Kind {
                inserts: 0,
                at_once: false,
            },
        }),
        _ => None,
    }
}

// Whether it could be printed.
fn tell<R: Print + Eprint>(rt: &R, name: &str, told: &Told) -> bool {
    let (calls, sum, time) = (told.calls, told.sum, told.time.as_micros());
    is_done(println!(rt; "{name} {calls} {sum:016x}")) && is_done(eprintln!(rt; "{name} {time}"))
}

// Shares a database among the threads, once it has the pairs, and prints the outcome of their calls.
fn measure_on<R: Threads + Wait + Clock + Sync>(
    rt: &R,
    mut db: Owned,
    work: &Work,
) -> Option<Told> {
    let Some(tree) = load(&mut db, &work.pairs) else {
        drop(db);
        return None;
    };
    let blank = Blank::new(u64::from(work.threads) + 1);
    let told = run::<Brand, _>(rt, blank, db, &tree, work);
    drop(tree);
    told
}

// The same, on a new database.
fn measure<R: Threads + Wait + Clock + Sync>(rt: &R, work: &Work) -> Option<Told> {
    match Db::open(work.alloc, empty_pages(work.alloc), b"threads") {
        Ok(db) => measure_on(rt, db, work),
        Err(refused) => {
            drop(refused);
            None
        }
    }
}

// Measures the workload of each name, and prints its checksum. Whether all that went well.
fn measure_all<R: Threads + Wait + Clock + Print + Eprint + Sync>(
    rt: &R,
    work: Work,
    names: &[String],
) -> bool {
    for name in names {
        let Some(kind) = kind_of(name.as_str()) else {
            return false;
        };
        let done = match measure(rt, &Work { kind, ..work }) {
            Some(told) => tell(rt, name.as_str(), &told),
            None => false,
        };
        if !done {
            return false;
        }
    }
    true
}

// Measures what the words ask for.
fn run_words<R: Threads + Wait + Clock + Print + Eprint + Sync>(
    rt: &R,
    alloc: Global,
    words: &[String],
) -> bool {
    let Some((first, names)) = words.split_first_chunk::<4>() else {
        return false;
    };
    match read_words(alloc, first) {
        Some(work) => measure_all(rt, work, names),
        None => false,
    }
}

fn words(rt: &HostRuntime) -> Option<Vec<String>> {
    env::args(rt).ok()?.skip(1).collect(rt.alloc()).ok()
}

fn main(rt: HostRuntime) -> ExitCode {
    let Some(words) = words(&rt) else {
        return ExitCode::from(1);
    };
    let done = run_words(&rt, rt.alloc(), words.as_slice());
    ExitCode::from(u8::from(!done))
}
