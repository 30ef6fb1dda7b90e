//! Page numbers, versions and ids, which no later opening gives again, whether or not there was a flush.
use crate::store::{Disks, Files, Store, into_disks, open_db, open_store};
use sled::{Data, IVec, Leaf, Node, Pages};
use sled_disk::MemoryDisk;
use std::alloc::Global;
use test_report::seeds::crash;
use test_report::trouble::{Result, expect};
use test_report::{Numbered, Report, Tally};

// How many openings follow each other.
const OPENINGS: u64 = 5;

// How many pages are allocated in each.
const PAGES: u64 = 40;

// How many ids are given in each: more than are set aside at once.
const IDS: u64 = 5_000;

// How many seeds crashes are chosen by.
const SEEDS: u64 = 4;

// The greatest numbers that were given.
#[derive(Clone, Copy)]
struct Greatest {
    page: u64,
    version: u64,
    id: u64,
}

// An empty leaf.
fn leaf(alloc: Global) -> sled::Result<Node> {
    Ok(Node {
        lo: IVec::from_slice(alloc, b"")?,
        hi: IVec::from_slice(alloc, b"")?,
        next: None,
        merging: false,
        merging_child: None,
        content: Data::Leaf(Leaf::from_pairs(alloc, &[])?),
    })
}

impl Greatest {
    // A page more, which has a number and a version above all others.
    fn allocate(&mut self, alloc: Global, store: &mut Store) -> Result<()> {
        let (page, version) = store.allocate(leaf(alloc)?)?;
        let rises = self.page < page.0 && self.version < version.0;
        self.page = page.0;
        self.version = version.0;
        expect(
            rises,
            "a page number or a version is not above those before",
        )
    }

    // An id more, which is above all others.
    fn take_id(&mut self, db: &mut Files) -> Result<()> {
        let id = db.generate_id()?;
        let rises = self.id < id;
        self.id = id;
        expect(rises, "an id is not above those before")
    }

    // Pages and ids.
    fn take_all(&mut self, alloc: Global, db: Files) -> Result<Store> {
        let mut db = db;
        for _ in 0..IDS {
            self.take_id(&mut db)?;
        }
        let mut store = db.into_pages();
        for _ in 0..PAGES {
            self.allocate(alloc, &mut store)?;
        }
        Ok(store)
    }

    // An opening, and what a crash leaves after it. The pages are flushed in every second one.
    fn open(&mut self, alloc: Global, disks: Disks, opening: u64, seed: u64) -> Result<Disks> {
        let db = open_db(alloc, open_store(alloc, disks)?)?;
        let mut store = self.take_all(alloc, db)?;
        if opening % 2 == 1 && !store.in_group() {
            store.flush()?;
        }
        let disks = store.into_disks();
        let left = crash(alloc, &disks, seed)?;
        drop(disks);
        Ok(left)
    }
}

// Two empty disks.
fn disks(alloc: Global) -> Result<Disks> {
    let first = MemoryDisk::new(alloc, Vec::new(alloc))?;
    let second = MemoryDisk::new(alloc, Vec::new(alloc))?;
    Ok((first, second))
}

// Several openings, one after the other.
fn open_all(alloc: Global, seed: u64) -> Result<()> {
    let mut greatest = Greatest {
        page: 0,
        version: 0,
        id: 0,
    };
    let mut disks = disks(alloc)?;
    for opening in 0..OPENINGS {
        disks = greatest.open(alloc, disks, opening, seed)?;
    }
    drop(disks);
    Ok(())
}

// A page that is allocated in a store that is opened and dropped at once.
fn allocate_once(alloc: Global, disks: Disks) -> Result<(Disks, u64)> {
    let mut store = open_store(alloc, disks)?;
    let (page, _) = store.allocate(leaf(alloc)?)?;
    Ok((store.into_disks(), page.0))
}

// Two pages, each allocated in an opening of its own and not flushed.
fn allocate_twice(alloc: Global) -> Result<()> {
    let (disks, first) = allocate_once(alloc, disks(alloc)?)?;
    let (disks, second) = allocate_once(alloc, disks)?;
    drop(disks);
    expect(first < second, "a page number was given again")
}

pub fn tell(report: &Report) {
    let mut tally = Tally::new(report);
    tally.count(allocate_twice(report.alloc()), "twice");
    tally.tell("a page allocated and not flushed, twice");
    let mut tally = Tally::new(report);
    for seed in 0..SEEDS {
        tally.count(
            open_all(report.alloc(), seed),
            Numbered {
                words: "seed",
                first: seed,
                second: 0,
            },
        );
    }
    tally.tell("page numbers, versions and ids over openings");
}
