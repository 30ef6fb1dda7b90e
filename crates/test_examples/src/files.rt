//! A database in two files that crashes and is opened again, by `survive` of `example_files`.
use crate::pairs::has;
use crate::seen::Seen;
use example_databases::Adds;
use example_files::survive;
use machine_alone::Machine;
use sled::Db;
use sled_disk::{Choices, DiskError, MemoryDisk};
use sled_files::FilePages;
use sled_model::{Step, Whole};
use sled_nodes::Result;
use std::alloc::Global;

// A database in two empty files, or none if it was refused.
fn in_files(alloc: Global) -> Option<Db<FilePages<MemoryDisk>, Adds>> {
    let (first, second) = empty_disks(alloc).ok()?;
    let pages = FilePages::open(alloc, first, second).ok()?;
    match Db::open_checked(alloc, pages, b"weather") {
        Ok(db) => Some(db.with_operators::<Adds>()),
        Err((pages, e)) => {
            drop(pages);
            drop(e);
            None
        }
    }
}

// Two empty files in memory.
fn empty_disks(alloc: Global) -> std::result::Result<(MemoryDisk, MemoryDisk), DiskError> {
    let first = MemoryDisk::new(alloc, Vec::new(alloc))?;
    let second = MemoryDisk::new(alloc, Vec::new(alloc))?;
    Ok((first, second))
}

// Inserts a pair.
fn insert(db: &mut Db<FilePages<MemoryDisk>, Adds>) -> Result<()> {
    let tree = db.default_tree()?;
    let old = db.insert(&tree, b"ulm", b"21");
    drop(tree);
    match old {
        Ok(old) => {
            drop(old);
            Ok(())
        }
        Err(e) => Err(e),
    }
}

// Whether the pair is there.
fn is_there(db: Db<FilePages<MemoryDisk>, Adds>) -> Result<bool> {
    let mut db = db;
    let is_there = match db.default_tree() {
        Ok(tree) => {
            let is_there = has(&db, &tree, b"ulm", b"21");
            drop(tree);
            is_there
        }
        Err(e) => Err(e),
    };
    drop(db.into_pages());
    is_there
}

// Whether a pair is there that was inserted before these steps, and a crash after them.
fn after(alloc: Global, steps: &[Step]) -> Seen {
    let Some(mut db) = in_files(alloc) else {
        return Seen::Refused;
    };
    let inserted = insert(&mut db);
    let mut machine = Machine::new(db);
    let mut choices = Choices::new(Vec::new(alloc));
    let survived = survive(alloc, &mut machine, steps, &mut choices, b"weather");
    drop(machine.into_db().into_pages());
    drop(choices);
    if let Err(e) = inserted {
        drop(survived);
        return Seen::refused(e);
    }
    match survived {
        Ok((outcomes, db)) => {
            drop(outcomes);
            Seen::of(is_there(db))
        }
        Err(e) => {
            drop(e);
            Seen::Refused
        }
    }
}

/// Whether a crash leaves what was inserted and flushed in a database in two files, and not what was not flushed.
pub fn survives_in_files(alloc: Global) -> Seen {
    match after(alloc, &[]) {
        Seen::No => after(alloc, &[Step::Whole(Whole::Flush)]),
        Seen::Yes => Seen::No,
        Seen::Refused => Seen::Refused,
    }
}
