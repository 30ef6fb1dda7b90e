//! Each call of a disk refused in turn, and crashes after that; and crashes after each call of a script.
use crate::runs::{Run, flush, flush_all, is_fault, look, run_script};
use crate::script::STEPS;
use crate::starts::{Kind, Start, prepare};
use crate::store::{Disks, Files, Store, image, into_disks, open, set_snapshots, with_adds};
use sled::Db;
use sled_files::{FilePages, OpenError};
use std::alloc::Global;
use std::fmt::{self, Display, Formatter, Write};
use test_report::seeds::crash;
use test_report::trouble::{Result, Trouble, expect};
use test_report::{Numbered, Report, Tally};

// Each crash is chosen by the seeds below that.
const SEEDS: u64 = 6;

// A script has fewer calls of a disk than that.
const CALLS: u64 = 400;

// How many scripts are run on each pair of files.
const SCRIPTS: u64 = 1;

// How many steps are made after a crash.
const STEPS_THEN: u64 = 12;

// An id after a crash, which is above all that were given before it.
fn later_id(db: &mut Files, greatest: u64) -> Result<u64> {
    let id = db.generate_id()?;
    expect(
        greatest < id,
        "an id after a crash is not above those before",
    )?;
    Ok(id)
}

// What a database goes on from after a crash: the maps are some of those since the last flush.
fn found(db: &mut Files, run: &Run) -> Result<Run> {
    let seen = image(run.alloc, db)?;
    let maps = run.find(&seen)?;
    drop(seen);
    let Some(maps) = maps else {
        return Err(Trouble::Wrong("the maps are none of those since the last flush"));
    };
    let id = later_id(db, run.greatest)?;
    let mut then = Run::new(run.alloc, &maps, id)?;
    then.has_snapshots = run.has_snapshots;
    Ok(then)
}

// Opens what a crash left, makes some calls more and flushes them.
fn go_on(mut db: Files, run: &Run, seed: u64) -> Result<(Disks, Run)> {
    let mut then = found(&mut db, run)?;
    let mut db = run_script(db, &mut then, seed.wrapping_add(500), STEPS_THEN)?;
    flush_all(&mut db, &mut then)?;
    Ok((into_disks(db), then))
}

/// Crashes, and crashes again once some calls were made after that.
pub fn crash_twice(disks: &Disks, run: &Run, seed: u64) -> Result<()> {
    let left = crash(run.alloc, disks, seed)?;
    let db = open(run.alloc, left, run.has_snapshots)?;
    let (disks, then) = go_on(db, run, seed)?;
    let left = crash(run.alloc, &disks, seed.wrapping_add(3))?;
    drop(disks);
    let mut db = open(run.alloc, left, run.has_snapshots)?;
    let last = found(&mut db, &then)?;
    drop(then);
    drop(last);
    drop(into_disks(db));
    Ok(())
}

// The disks of a database that a script was run on, and what is known of the run.
fn ended(db: Files, mut run: Run, script: u64, steps: u64) -> Result<(Disks, Run)> {
    let db = run_script(db, &mut run, script, steps)?;
    Ok((into_disks(db), run))
}

// Opens a database whose disks may refuse a call, and runs a script.
fn run_store(store: Store, mut run: Run, script: u64) -> Result<(Disks, Run)> {
    match Db::open_checked(run.alloc, store, b"weather") {
        Ok(db) => ended_over(with_adds(db)?, run, script),
        Err((store, e)) => {
            let is_fault = is_fault(&e);
            drop(e);
            run.is_over = true;
            expect(is_fault, "a database was not opened")?;
            Ok((store.into_disks(), run))
        }
    }
}

// The same, with a flush in the end that may be refused, and a look.
fn ended_over(db: Files, mut run: Run, script: u64) -> Result<(Disks, Run)> {
    let mut db = run_script(db, &mut run, script, STEPS)?;
    flush(&mut db, &mut run)?;
    look(&mut db, &run)?;
    Ok((into_disks(db), run))
}

// What is run, and which calls are refused.
#[derive(Clone, Copy)]
struct Case {
    kind: Kind,
    script: u64,
    // The number of the disk, 1 or 2.
    disk: u64,
    call: u64,
}

impl Case {
    // The disks that it begins with.
    fn disks(self, start: &Start) -> Result<Disks> {
        if self.disk == 1 {
            start.disks(self.call, 0)
        } else {
            start.disks(0, self.call)
        }
    }

    // Runs it. None if the files were not opened since a disk refused a call.
    fn run(self, start: &Start) -> Result<Option<(Disks, Run)>> {
        let disks = self.disks(start)?;
        match FilePages::open(start.alloc, disks.0, disks.1) {
            Ok(mut store) => {
                set_snapshots(&mut store, start.has_snapshots);
                Ok(Some(run_store(store, start.run()?, self.script)?))
            }
            Err(refused) => {
                let why = refused.error;
                drop(refused);
                match why {
                    OpenError::Disk(_) => Ok(None),
                    e => Err(Trouble::Closed(e)),
                }
            }
        }
    }
}

// A case, and the seed of its crash.
#[derive(Clone, Copy)]
struct Seeded {
    case: Case,
    seed: u64,
}

impl Display for Seeded {
    fn fmt<W: Write>(&self, f: &mut Formatter<W>) -> fmt::Result {
        write!(f, "{}, seed {}", self.case, self.seed)
    }
}

impl Display for Case {
    fn fmt<W: Write>(&self, f: &mut Formatter<W>) -> fmt::Result {
        write!(
            f,
            "{}, script {}, disk {}, call {}",
            self.kind.words(),
            self.script,
            self.disk,
            self.call
        )
    }
}

// Counts of what was run.
#[derive(Drop)]
struct Counts<'a> {
    // Scripts with a refused call.
    runs: Tally<'a>,
    // Crashes after them.
    crashes: Tally<'a>,
    // The greatest generation of a file.
    generation: u64,
}

impl Counts<'_> {
    // Crashes by all seeds.
    fn crash_all(&mut self, case: Case, disks: &Disks, run: &Run) {
        for seed in case.kind.first_seed()..SEEDS {
            let crashed = crash_twice(disks, run, seed);
            self.crashes.count(crashed, Seeded { case, seed });
        }
    }

    // Runs a case, and crashes. Whether no call was refused, so that there is none of that number.
    fn run(&mut self, start: &Start, case: Case) -> bool {
        match case.run(start) {
            Ok(None) => {
                self.runs.count(Ok(()), case);
                false
            }
            Ok(Some((disks, run))) => {
                self.runs.count(Ok(()), case);
                self.crash_all(case, &disks, &run);
                self.generation = self.generation.max(run.generation);
                let is_last = !run.is_over;
                drop(run);
                drop(disks);
                is_last
            }
            Err(e) => {
                self.runs.count(Err(e), case);
                false
            }
        }
    }

    // Refuses each call of a disk in turn.
    fn run_all(&mut self, start: &Start, kind: Kind, script: u64, disk: u64) {
        for call in 1..CALLS {
            let case = Case {
                kind,
                script,
                disk,
                call,
            };
            if self.run(start, case) {
                return;
            }
        }
        self.runs
            .count(expect(false, "there are more calls"), kind.words());
    }

    // The same with each script, on both disks.
    fn run_scripts(&mut self, alloc: Global, kind: Kind) {
        for script in 0..SCRIPTS {
            match prepare(alloc, kind, script.wrapping_add(10), 20) {
                Ok(start) => {
                    self.run_all(&start, kind, script, 1);
                    self.run_all(&start, kind, script, 2);
                    drop(start);
                }
                Err(e) => self.runs.count(Err(e), kind.words()),
            }
        }
    }
}

// Reports on refused calls on a pair of files.
fn tell_refused(report: &Report, kind: Kind) {
    let mut counts = Counts {
        runs: Tally::new(report),
        crashes: Tally::new(report),
        generation: 0,
    };
    counts.run_scripts(report.alloc(), kind);
    let words = kind.words();
    counts
        .runs
        .tell(format_args!("{words}, each call of a disk refused"));
    counts
        .crashes
        .tell(format_args!("{words}, and crashes after that"));
    if kind.has_snapshots() {
        report.tell(format_args!("    the last file is of generation {}", counts.generation));
    }
    drop(counts);
}

// The disks and the run of so many steps of a script.
fn run_steps(start: &Start, script: u64, steps: u64) -> Result<(Disks, Run)> {
    let db = open(start.alloc, start.disks(0, 0)?, start.has_snapshots)?;
    ended(db, start.run()?, script, steps)
}

// Crashes after so many steps of a script.
fn crash_after(start: &Start, script: u64, steps: u64, seed: u64) -> Result<()> {
    let (disks, run) = run_steps(start, script, steps)?;
    crash_twice(&disks, &run, seed)?;
    drop(run);
    drop(disks);
    Ok(())
}

// Crashes after each step of a script.
fn crash_each(tally: &mut Tally<'_>, start: &Start, words: &str, script: u64) {
    for steps in 0..=STEPS {
        let crashed = crash_after(start, script, steps, steps);
        tally.count(
            crashed,
            Numbered {
                words: words,
                first: script,
                second: steps as u64,
            },
        );
    }
}

// Reports on crashes on a pair of files.
fn tell_steps(report: &Report, kind: Kind) {
    let mut tally = Tally::new(report);
    for script in 0..SCRIPTS {
        match prepare(report.alloc(), kind, script.wrapping_add(20), 20) {
            Ok(start) => {
                crash_each(&mut tally, &start, kind.words(), script);
                drop(start);
            }
            Err(e) => tally.count(Err(e), kind.words()),
        }
    }
    tally.tell(format_args!("{}, a crash after each call", kind.words()));
}

// Reports on kinds of pairs of files.
fn tell_kinds(report: &Report, kinds: &[Kind]) {
    for kind in kinds {
        tell_refused(report, *kind);
        tell_steps(report, *kind);
    }
}

pub fn tell(report: &Report) {
    tell_kinds(report, &[Kind::New, Kind::First, Kind::Second, Kind::Later]);
}

pub fn tell_snapshots(report: &Report) {
    tell_kinds(report, &[Kind::Anew]);
}
