//! Pairs of files that runs begin with.
use crate::maps::Maps;
use crate::runs::{Run, flush_all, run_script};
use crate::store::{Disks, Files, into_disks, open};
use sled_disk::{Disk, MemoryDisk};
use sled_files::begin_file;
use sled_log::read_log;
use std::alloc::Global;
use test_report::trouble::{Result, Trouble};

/// A kind of pair.
#[derive(Clone, Copy)]
pub enum Kind {
    /// Two empty files.
    New,
    /// The first file counts, and the other one is empty.
    First,
    /// The second counts, and the first is empty.
    Second,
    /// The second counts, begun anew, and the first is older, with other maps.
    Later,
    /// As new files, but that the other file is begun anew every few flushes.
    Anew,
}

impl Kind {
    /// Its words.
    pub fn words(self) -> &'static str {
        match self {
            Kind::New => "new files",
            Kind::First => "the first file",
            Kind::Second => "the second file",
            Kind::Later => "the later file",
            Kind::Anew => "new files, begun anew every few flushes",
        }
    }

    /// Whether the other file is begun anew every few flushes.
    pub fn has_snapshots(self) -> bool {
        matches!(self, Kind::Anew)
    }

    /// The first seed that a crash is chosen by. Runs over files that are begun anew take longer: they leave out the first ones.
    pub fn first_seed(self) -> u64 {
        if self.has_snapshots() { 3 } else { 0 }
    }
}

/// A pair of files that were dropped, and what they have.
#[derive(Drop)]
pub struct Start {
    pub alloc: Global,
    pub first: Vec<u8>,
    pub second: Vec<u8>,
    pub maps: Maps,
    /// What they have if the file that counts is blank.
    pub older: Maps,
    pub greatest: u64,
    /// Whether the other file is begun anew every few flushes.
    pub has_snapshots: bool,
}

// The header of a log of a store, in its first payload.
const HEADER: usize = 20;

impl Start {
    // Of two disks, after a run.
    fn of(disks: &Disks, run: &Run) -> Result<Start> {
        Ok(Start {
            alloc: run.alloc,
            first: disks.0.bytes().to_vec(run.alloc)?,
            second: disks.1.bytes().to_vec(run.alloc)?,
            maps: run.maps,
            older: Maps::new(),
            greatest: run.greatest,
            has_snapshots: false,
        })
    }

    /// The files on two disks, of which each refuses the call of this number.
    pub fn disks(&self, first_refused: u64, second_refused: u64) -> Result<Disks> {
        let mut first = MemoryDisk::new(self.alloc, self.first.to_vec(self.alloc)?)?;
        first.refuse_at(&[first_refused])?;
        let mut second = MemoryDisk::new(self.alloc, self.second.to_vec(self.alloc)?)?;
        second.refuse_at(&[second_refused])?;
        Ok((first, second))
    }

    /// A run on them.
    pub fn run(&self) -> Result<Run> {
        let mut run = Run::new(self.alloc, &self.maps, self.greatest)?;
        run.has_snapshots = self.has_snapshots;
        Ok(run)
    }
}

// The disks of a database, after a script.
fn ended(db: Files, run: &mut Run, script: u64, steps: u64) -> Result<Disks> {
    let mut db = run_script(db, run, script, steps)?;
    flush_all(&mut db, run)?;
    Ok(into_disks(db))
}

/// What the payloads of a log say, after its header.
pub fn changes_of(alloc: Global, bytes: &[u8]) -> Result<Vec<u8>> {
    let mut changes = Vec::new(alloc);
    let Ok(log) = read_log(alloc, bytes) else {
        return Err(Trouble::Wrong("a file is no log"));
    };
    for payload in &log.payloads {
        changes.extend_from_slice(payload)?;
    }
    drop(log);
    match changes.get(HEADER..) {
        Some(behind) => Ok(behind.to_vec(alloc)?),
        None => Err(Trouble::Wrong("a log has no header")),
    }
}

/// A file of this generation with all that another one has.
pub fn later(alloc: Global, generation: u64, bytes: &[u8]) -> Result<Vec<u8>> {
    let changes = changes_of(alloc, bytes)?;
    let mut disk = MemoryDisk::new(alloc, Vec::new(alloc))?;
    begin_file(alloc, &mut disk, generation, &changes)?;
    drop(changes);
    Ok(disk.bytes().to_vec(alloc)?)
}

/// The files of a new store after a script.
pub fn first(alloc: Global, script: u64, steps: u64) -> Result<Start> {
    let mut run = Run::new(alloc, &Maps::new(), 0)?;
    let first = MemoryDisk::new(alloc, Vec::new(alloc))?;
    let second = MemoryDisk::new(alloc, Vec::new(alloc))?;
    let db = open(alloc, (first, second), false)?;
    let disks = ended(db, &mut run, script, steps)?;
    Start::of(&disks, &run)
}

// Adds an older file, after another script, to the first.
fn put_older(start: &mut Start, script: u64) -> Result<()> {
    let mut older = first(start.alloc, script.wrapping_add(1000), 5)?;
    std::mem::swap(&mut start.first, &mut older.first);
    start.older = older.maps;
    drop(older);
    Ok(())
}

// Empties the files.
fn empty(start: &mut Start) {
    start.first = Vec::new(start.alloc);
    start.maps = Maps::new();
    start.greatest = 0;
}

// Begins the second file anew with what the first has, which is an older one then.
fn begin_later(start: &mut Start, script: u64) -> Result<()> {
    start.second = later(start.alloc, 2, &start.first)?;
    put_older(start, script)
}

/// A pair of a kind, after so many steps of a script.
pub fn prepare(alloc: Global, kind: Kind, script: u64, steps: u64) -> Result<Start> {
    let mut start = first(alloc, script, steps)?;
    start.has_snapshots = kind.has_snapshots();
    match kind {
        Kind::New | Kind::Anew => empty(&mut start),
        Kind::First => {}
        Kind::Second => std::mem::swap(&mut start.first, &mut start.second),
        Kind::Later => begin_later(&mut start, script)?,
    }
    Ok(start)
}
