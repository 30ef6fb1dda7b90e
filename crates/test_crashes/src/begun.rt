//! Files that are begun anew beside one that counts, with each call of the disk refused in turn, and crashes after that.
use crate::crashes::crash_twice;
use crate::runs::Run;
use crate::starts::{Start, changes_of, first, later};
use crate::store::Disks;
use sled_disk::MemoryDisk;
use sled_files::begin_file;
use std::alloc::Global;
use test_report::trouble::{Result, expect};
use test_report::{Numbered, Report, Tally};

// How many seeds each crash is chosen by.
const SEEDS: u64 = 12;

// A file is begun by fewer calls of a disk than that.
const CALLS: u64 = 12;

// A file that is begun beside another one.
#[derive(Drop)]
struct Begun {
    alloc: Global,
    // The file that counts until then.
    first: Vec<u8>,
    // What the file had before.
    second: Vec<u8>,
    generation: u64,
    // What it is begun with.
    changes: Vec<u8>,
    // What the files stand for before, and then.
    before: Start,
    then: Start,
}

impl Begun {
    // The files, of which the first counts and the second is empty, or an older one.
    fn new(alloc: Global, has_older: bool) -> Result<Begun> {
        let before = first(alloc, 40, 20)?;
        let then = first(alloc, 41, 20)?;
        let older = first(alloc, 42, 10)?;
        let second = if has_older {
            older.first.to_vec(alloc)?
        } else {
            Vec::new(alloc)
        };
        drop(older);
        Ok(Begun {
            alloc,
            first: later(alloc, 2, &before.first)?,
            second,
            generation: 3,
            changes: changes_of(alloc, &then.first)?,
            before,
            then,
        })
    }

    // The disks, with this call of the second refused, and whether none was.
    fn begin(&self, call: u64) -> Result<(Disks, bool)> {
        let first = MemoryDisk::new(self.alloc, self.first.to_vec(self.alloc)?)?;
        let mut second = MemoryDisk::new(self.alloc, self.second.to_vec(self.alloc)?)?;
        second.refuse_at(&[call])?;
        let begun = begin_file(self.alloc, &mut second, self.generation, &self.changes);
        Ok(((first, second), begun.is_ok()))
    }

    // The maps that may be found: those from before if the file may not count yet, and the others.
    fn run(&self, is_begun: bool) -> Result<Run> {
        let greatest = self.before.greatest.min(self.then.greatest);
        let mut run = Run::new(self.alloc, &self.before.maps, greatest)?;
        run.go_to(&self.then.maps, is_begun)?;
        Ok(run)
    }
}

// Crashes by all seeds.
fn crash_all(tally: &mut Tally<'_>, disks: &Disks, run: &Run, words: &str, call: u64) {
    for seed in 0..SEEDS {
        let crashed = crash_twice(disks, run, seed);
        tally.count(
            crashed,
            Numbered {
                words: words,
                first: call,
                second: seed,
            },
        );
    }
}

// Refuses a call, and crashes. Whether no call was refused.
fn refuse(tally: &mut Tally<'_>, begun: &Begun, words: &str, call: u64) -> Result<bool> {
    let (disks, is_begun) = begun.begin(call)?;
    let run = begun.run(is_begun)?;
    crash_all(tally, &disks, &run, words, call);
    drop(run);
    drop(disks);
    Ok(is_begun)
}

// Refuses each call in turn.
fn refuse_all(tally: &mut Tally<'_>, begun: &Begun, words: &str) -> Result<()> {
    for call in 1..CALLS {
        if refuse(tally, begun, words, call)? {
            return Ok(());
        }
    }
    expect(false, "there are more calls")
}

// Reports on a file that is begun.
fn tell_begun(report: &Report, has_older: bool, words: &str) {
    let mut tally = Tally::new(report);
    match Begun::new(report.alloc(), has_older) {
        Ok(begun) => {
            if let Err(e) = refuse_all(&mut tally, &begun, words) {
                tally.count(Err(e), words);
            }
            drop(begun);
        }
        Err(e) => tally.count(Err(e), words),
    }
    tally.tell(words);
}

pub fn tell(report: &Report) {
    tell_begun(report, false, "a file is begun where one is empty");
    tell_begun(report, true, "a file is begun where one is older");
}
