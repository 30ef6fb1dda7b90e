//! Measures calls on a database in memory, one kind of calls after the other.
//!
//!     bench PAIRS CALLS SEED SHORTEST LONGEST FLUSH WORKLOAD..
//!     bench PAIRS CALLS SEED SHORTEST LONGEST FLUSH WORKLOAD.. direct WORKLOAD..
//!
//! Of the workloads, `load` inserts so many pairs. `gets`, `inserts`, `mix`, `removals` and `slots` make so many calls each. `batches`
//! inserts so many of the keys of `inserts`, a hundred in a batch. `ranges` reads so many ranges of a hundred pairs at most, `scan` reads
//! all pairs, and `steps` reads them by a scan in a slot. `watches` adds so many subscribers, each to a prefix of 4 to 7 bytes that begins
//! no key of another workload, and `follows` adds one subscriber to all keys. A machine makes the calls, and after the word `direct` the
//! database itself, which has no `slots` and no `steps`. Keys are 8 bytes that look random; if the first word is `ascending` they are the
//! numbers from 0 on, and if it is `rows` they have 30 bytes, as `tenant/0042/user/00001234/name`. Values have SHORTEST to LONGEST bytes.
//! After each FLUSH changes there is a flush, and none if that is 0. Each workload prints its name, how many calls it made and a checksum
//! of their answers; and on standard error its name and the processor time that it took, in microseconds. The status is 1 for other words,
//! and if anything failed.
#![tactic(auto)]

mod bench;
mod pairs;

use bench::{Bench, named};
use line_words::input::Stopped;
use pairs::{Keys, Pairs};
use sled::{Db, empty_pages};
use std::env;
use std::process::ExitCode;
use std::time::{CpuClock, Duration};

// Runs a workload, and prints its checksum and how long it took.
fn measure(rt: &HostRuntime, bench: &mut Bench, name: &str) -> Result<(), Stopped> {
    let workload = named(name)?;
    let start = rt.process_cpu_time()?;
    let (calls, sum) = bench.run(workload)?;
    let end = rt.process_cpu_time()?;
    println!(rt; "{name} {calls} {sum:016x}")?;
    report(rt, name, end.saturating_sub(start))
}

fn report(rt: &HostRuntime, name: &str, time: Duration) -> Result<(), Stopped> {
    let time = time.as_micros();
    eprintln!(rt; "{name} {time}")?;
    Ok(())
}

fn measure_all(rt: &HostRuntime, bench: &mut Bench, names: &[String]) -> Result<(), Stopped> {
    for name in names {
        measure(rt, bench, name.as_str())?;
    }
    Ok(())
}

// The words before `direct`, and those after it.
fn parts(names: &[String]) -> (&[String], &[String]) {
    for (place, name) in names.iter().enumerate() {
        if name.as_str() == "direct" {
            let (before, from) = names.split_at(place);
            return (before, from.get(1..).unwrap_or(&[]));
        }
    }
    (names, &[])
}

// What the first of the names says of keys, if it does.
fn keys_of(names: &[String]) -> Option<Keys> {
    Keys::named(names.first()?.as_str())
}

fn numbers(words: &[String; 6]) -> Result<[u64; 6], Stopped> {
    let mut numbers = [0; 6];
    for (number, word) in numbers.iter_mut().zip(words) {
        *number = word.parse::<u64>().map_err(|_| Stopped)?;
    }
    Ok(numbers)
}

// What the words ask for.
struct Asked<'a> {
    pairs: Pairs,
    calls: u64,
    flush: u64,
    names: &'a [String],
}

fn asked_by<'a>(rt: &HostRuntime, words: &'a [String]) -> Result<Asked<'a>, Stopped> {
    let Some((first, names)) = words.split_first_chunk::<6>() else {
        return Err(Stopped);
    };
    let [pairs, calls, seed, shortest, longest, flush] = numbers(first)?;
    let (keys, names) = match keys_of(names) {
        Some(keys) => (keys, names.get(1..).unwrap_or(&[])),
        None => (Keys::Scattered, names),
    };
    Ok(Asked {
        pairs: Pairs::new(rt.alloc(), keys, seed, pairs, shortest, longest)?,
        calls,
        flush,
        names,
    })
}

fn run_words(rt: &HostRuntime, words: &[String]) -> Result<(), Stopped> {
    let Asked {
        pairs,
        calls,
        flush,
        names,
    } = asked_by(rt, words)?;
    let db = match Db::open(rt.alloc(), empty_pages(rt.alloc()), b"bench") {
        Ok(db) => db,
        Err(refused) => {
            drop(refused);
            drop(pairs);
            return Err(Stopped);
        }
    };
    let mut bench = Bench::over(db, pairs, calls, flush)?;
    let (stepped, direct) = parts(names);
    let mut measured = measure_all(rt, &mut bench, stepped);
    let mut bench = bench.into_direct();
    if measured.is_ok() {
        measured = measure_all(rt, &mut bench, direct);
    }
    // The process ends now. To drop the pairs would count as instructions of the calls.
    std::mem::forget(bench);
    measured
}

fn words(rt: &HostRuntime) -> Result<Vec<String>, Stopped> {
    Ok(env::args(rt)?.skip(1).collect(rt.alloc())?)
}

fn main(rt: HostRuntime) -> ExitCode {
    match words(&rt).and_then(|words| run_words(&rt, words.as_slice())) {
        Ok(()) => ExitCode::from(0),
        Err(Stopped) => ExitCode::from(1),
    }
}
