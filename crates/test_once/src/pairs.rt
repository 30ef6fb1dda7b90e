//! Pairs of a database in two files whose blocks are brought to the disk in one sync.
use example_parts::Adds;
use files_once::{OneSync, mend_both, mend_store, open_mended, open_once};
use sled::{Db, Error};
use sled_disk::{Disk, MemoryDisk};
use sled_files::{FilePages, NotOpened, OpenError};
use std::alloc::Global;
use test_report::trouble::{Result, Trouble, expect};

// A store in two disks in memory.
type Store = FilePages<OneSync<MemoryDisk>>;

/// A database over it.
pub type Files = Db<Store, Adds>;

/// Two disks.
pub type Disks = (MemoryDisk, MemoryDisk);

/// How a store is opened.
#[derive(Clone, Copy)]
pub enum Form {
    /// By one call.
    Whole,
    /// Both files are mended by one, and then it is opened.
    Mended,
    /// Each file is mended, and put behind a disk of one sync.
    Apart,
}

// The same answer, but none if a disk refused a call.
fn opened<D: Disk>(answer: std::result::Result<Store, NotOpened<D>>) -> Result<Option<Store>> {
    match answer {
        Ok(store) => Ok(Some(store)),
        Err(refused) => {
            let why = refused.error;
            drop(refused);
            match why {
                OpenError::Disk(_) => Ok(None),
                why => Err(Trouble::Closed(why)),
            }
        }
    }
}

// A disk of one sync in front of another one.
fn once(alloc: Global, disk: MemoryDisk) -> Result<OneSync<MemoryDisk>> {
    let mut disk = disk;
    mend_store(alloc, &mut disk)?;
    match OneSync::new(alloc, disk) {
        Ok(once) => Ok(once),
        Err((disk, e)) => {
            drop(disk);
            Err(Trouble::Disk(e))
        }
    }
}

// Opens the store of two disks. None if a disk refused a call.
fn open_store(alloc: Global, disks: Disks, form: Form) -> Result<Option<Store>> {
    let (first, second) = disks;
    match form {
        Form::Whole => opened(open_once(alloc, first, second)),
        Form::Mended => {
            let mut first = first;
            let mut second = second;
            mend_both(alloc, &mut first, &mut second)?;
            opened(open_mended(alloc, first, second))
        }
        Form::Apart => {
            let first = once(alloc, first)?;
            let second = once(alloc, second)?;
            opened(FilePages::open(alloc, first, second))
        }
    }
}

// Opens the database of a store. None if a disk refused a call.
fn open_db(alloc: Global, store: Store) -> Result<Option<Files>> {
    match Db::open_checked(alloc, store, b"pairs") {
        Ok(db) => Ok(Some(db.with_operators::<Adds>())),
        Err((store, e)) => {
            drop(store);
            match e {
                Error::Io(_) => Ok(None),
                e => Err(Trouble::Refused(e)),
            }
        }
    }
}

/// Opens the database of two disks. With `has_snapshots` its log is begun anew every few flushes. None if a disk refused a call.
pub fn open(alloc: Global, disks: Disks, form: Form, has_snapshots: bool) -> Result<Option<Files>> {
    let Some(mut store) = open_store(alloc, disks, form)? else {
        return Ok(None);
    };
    if has_snapshots {
        store.compact_from(1);
    }
    open_db(alloc, store)
}

/// The disks of a database, and all that was not flushed is lost.
pub fn into_disks(db: Files) -> Disks {
    let (first, second) = db.into_pages().into_disks();
    (first.into_disk(), second.into_disk())
}

/// How long the file of each disk is, as one looks at it.
pub fn lens(db: &Files) -> (usize, usize) {
    let (first, second) = db.pages().disks();
    (first.disk().bytes().len(), second.disk().bytes().len())
}

/// Inserts the pair of a number.
pub fn insert(db: &mut Files, number: u64) -> sled::Result<()> {
    let tree = db.default_tree()?;
    let old = db.insert(&tree, &number.to_be_bytes(), &number.to_le_bytes());
    drop(tree);
    drop(old?);
    Ok(())
}

/// How many pairs there are, which have the numbers from 0 on.
pub fn count(db: &mut Files) -> Result<u64> {
    let tree = db.default_tree()?;
    let mut count = 0u64;
    for pair in db.iter(&tree)? {
        let (key, value) = pair?;
        let is_next = key.as_ref() == count.to_be_bytes().as_slice()
            && value.as_ref() == count.to_le_bytes().as_slice();
        drop(key);
        drop(value);
        expect(is_next, "a pair is not the next one")?;
        count = count.saturating_add(1);
    }
    drop(tree);
    Ok(count)
}
