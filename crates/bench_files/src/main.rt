//! Measures a database in files.
//!
//!     bench_files FOLDER PAIRS SEED SHORTEST LONGEST FLUSH WORKLOAD..
//!
//! Each workload opens the database in the folder, and drops it. They are `load`, which inserts so many pairs and flushes after each FLUSH
//! of them, and at the end; and `scan`, which reads all pairs. `load_once` and `scan_once` are the same, and print the same, on a database that
//! brings each block to the disk in one sync. Keys are 8 bytes that look random, and values have SHORTEST to LONGEST
//! bytes. Each workload prints its name, how many calls it made and a checksum of their answers. On standard error it prints `open` and the
//! time that the opening took, and then its name and the time that it took, both in microseconds of the clock. The status is 1 for other
//! words, and if anything failed.
#![tactic(auto)]

mod pairs;

use example_parts::Adds;
use pairs::{Pairs, digest};
use sled::{Db, Error, Pages, Result, Tree};
use sled_path::{OpenError, Opening, open, open_once};
use std::process::ExitCode;
use std::time::{Clock, Instant};
use std::{env, io};

// How many calls a workload made, and a checksum of their answers.
type Told = (u64, u64);

// What is measured.
#[derive(Drop)]
struct Work<'a> {
    folder: &'a str,
    pairs: Pairs,
    flush: u64,
}

// Inserts a pair: the value that its key had, as a number of a checksum.
fn insert<P: Pages>(db: &mut Db<P, Adds>, tree: &Tree, pairs: &Pairs, place: u64) -> Result<u64> {
    let old = db.insert(tree, &pairs.key(place), pairs.value(place))?;
    let sum = digest(old.as_ref().map(|old| old.as_ref()));
    drop(old);
    Ok(sum)
}

// Inserts all pairs.
fn load<P: Pages>(db: &mut Db<P, Adds>, tree: &Tree, work: &Work<'_>) -> Result<Told> {
    let mut sum = 0u64;
    for place in 0..work.pairs.count {
        sum = sum.rotate_left(1) ^ insert(db, tree, &work.pairs, place)?;
        if (place + 1).checked_rem(work.flush) == Some(0) {
            db.flush()?;
        }
    }
    db.flush()?;
    Ok((work.pairs.count, sum))
}

// Reads all pairs.
fn scan<P: Pages>(db: &Db<P, Adds>, tree: &Tree) -> Result<Told> {
    let (mut count, mut sum) = (0u64, 0u64);
    for pair in db.iter(tree)? {
        let (key, value) = pair?;
        count = count.wrapping_add(1);
        sum = sum.wrapping_add(digest(Some(key.as_ref())) ^ digest(Some(value.as_ref())));
        drop(key);
        drop(value);
    }
    Ok((count, sum))
}

// Runs a workload, if there is one of this name.
fn run<P: Pages>(db: &mut Db<P, Adds>, work: &Work<'_>, name: &str) -> Result<Told> {
    let tree = db.default_tree()?;
    let told = match name {
        "load" => load(db, &tree, work),
        "scan" => scan(db, &tree),
        _ => Err(Error::Unsupported("there is no such workload")),
    };
    drop(tree);
    told
}

// Prints how long something took.
fn tell_time(rt: &HostRuntime, name: &str, start: Instant) -> io::Result<()> {
    let time = start.elapsed(rt)?.as_micros();
    eprintln!(rt; "{name} {time}")
}

// Prints the checksum of a workload and how long it took.
fn tell<P: Pages>(
    rt: &HostRuntime,
    db: &mut Db<P, Adds>,
    work: &Work<'_>,
    name: &str,
) -> io::Result<()> {
    let start = Instant::now(rt)?;
    match run(db, work, name) {
        Ok((count, sum)) => {
            println!(rt; "{name} {count} {sum:016x}")?;
            tell_time(rt, name, start)
        }
        Err(e) => {
            eprintln!(rt; "{e}")?;
            drop(e);
            Err(io::Error::from(io::ErrorKind::Other))
        }
    }
}

// Prints why a database was not opened.
fn tell_closed(rt: &HostRuntime, e: OpenError) -> io::Result<()> {
    eprintln!(rt; "{e}")?;
    drop(e);
    Err(io::Error::from(io::ErrorKind::Other))
}

// The same on the database as it is opened, which brings each block to the disk in two syncs.
fn measure_twice(rt: &HostRuntime, work: &Work<'_>, name: &str) -> io::Result<()> {
    let start = Instant::now(rt)?;
    match open::<Adds>(rt, work.folder, b"bench") {
        Ok(mut db) => {
            tell_time(rt, "open", start)?;
            let told = tell(rt, &mut db, work, name);
            drop(db);
            told
        }
        Err(e) => tell_closed(rt, e),
    }
}

// And in one.
fn measure_once(rt: &HostRuntime, work: &Work<'_>, name: &str) -> io::Result<()> {
    let start = Instant::now(rt)?;
    let opening = Opening {
        creates: true,
        needs_lock: true,
    };
    match open_once::<Adds>(rt, work.folder, b"bench", opening) {
        Ok((mut db, _)) => {
            tell_time(rt, "open", start)?;
            let told = tell(rt, &mut db, work, name);
            drop(db);
            told
        }
        Err(e) => tell_closed(rt, e),
    }
}

// Runs a workload in the form of its name.
fn measure(rt: &HostRuntime, work: &Work<'_>, name: &str) -> io::Result<()> {
    match name.strip_suffix("_once") {
        Some(name) => measure_once(rt, work, name),
        None => measure_twice(rt, work, name),
    }
}

fn measure_all(rt: &HostRuntime, work: &Work<'_>, names: &[String]) -> io::Result<()> {
    for name in names {
        measure(rt, work, name.as_str())?;
    }
    Ok(())
}

// What is measured, by the words of the program.
fn work_of<'a>(rt: &HostRuntime, words: &'a [String; 6]) -> Option<Work<'a>> {
    let [folder, count, seed, shortest, longest, flush] = words;
    let (Ok(count), Ok(seed)) = (count.parse(), seed.parse()) else {
        return None;
    };
    let (Ok(shortest), Ok(longest), Ok(flush)) = (shortest.parse(), longest.parse(), flush.parse())
    else {
        return None;
    };
    let pairs = Pairs::new(rt.alloc(), count, seed, shortest, longest).ok()?;
    Some(Work {
        folder: folder.as_str(),
        pairs,
        flush,
    })
}

// Whether all was measured.
fn run_words(rt: &HostRuntime, words: &[String]) -> bool {
    let Some((first, names)) = words.split_first_chunk::<6>() else {
        return false;
    };
    let Some(work) = work_of(rt, first) else {
        return false;
    };
    let measured = measure_all(rt, &work, names);
    drop(work);
    measured.is_ok()
}

fn words_of(rt: &HostRuntime) -> io::Result<Vec<String>> {
    Ok(env::args(rt)?.skip(1).collect(rt.alloc())?)
}

fn main(rt: HostRuntime) -> ExitCode {
    match words_of(&rt) {
        Ok(words) if run_words(&rt, words.as_slice()) => ExitCode::SUCCESS,
        _ => ExitCode::FAILURE,
    }
}
