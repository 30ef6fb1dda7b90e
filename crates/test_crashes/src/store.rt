//! A database in two files, and what it has, as bytes.
use crate::maps::{KEYS, Map, Maps, SIDE, key_of, value_of};
use example_parts::Adds;
use sled::{DEFAULT_TREE, Db, IVec, Tree};
use sled_disk::MemoryDisk;
use sled_files::FilePages;
use std::alloc::Global;
use test_report::trouble::{Result, Trouble};

/// A store in two files of a disk in memory.
pub type Store = FilePages<MemoryDisk>;

/// A database over it. Its default tree has the operator that adds numbers.
pub type Files = Db<Store, Adds>;

/// Two disks.
pub type Disks = (MemoryDisk, MemoryDisk);

/// Opens the store of two disks.
pub fn open_store(alloc: Global, disks: Disks) -> Result<Store> {
    match FilePages::open(alloc, disks.0, disks.1) {
        Ok(store) => Ok(store),
        Err(refused) => {
            let why = refused.error;
            drop(refused);
            Err(Trouble::Closed(why))
        }
    }
}

// Gives the default tree the operator that adds numbers.
fn set_adds(db: &mut Files) -> Result<()> {
    let tree = db.default_tree()?;
    db.set_merge_operator(&tree, Adds)?;
    drop(tree);
    Ok(())
}

/// A database whose default tree has the operator that adds numbers.
pub fn with_adds(db: Db<Store>) -> Result<Files> {
    let mut db = db.with_operators::<Adds>();
    match set_adds(&mut db) {
        Ok(()) => Ok(db),
        Err(e) => {
            drop(into_disks(db));
            Err(e)
        }
    }
}

/// Opens the database of a store.
pub fn open_db(alloc: Global, store: Store) -> Result<Files> {
    match Db::open_checked(alloc, store, b"weather") {
        Ok(db) => with_adds(db),
        Err((store, e)) => {
            drop(store);
            Err(Trouble::Refused(e))
        }
    }
}

/// Opens the database of two disks. With `has_snapshots` the other file is begun anew whenever the log is twice as long as its snapshot.
pub fn open(alloc: Global, disks: Disks, has_snapshots: bool) -> Result<Files> {
    let mut store = open_store(alloc, disks)?;
    set_snapshots(&mut store, has_snapshots);
    open_db(alloc, store)
}

/// Sets whether the other file is begun anew whenever the log is twice as long as its snapshot.
pub fn set_snapshots(store: &mut Store, has_snapshots: bool) {
    if has_snapshots {
        store.compact_from(1);
    }
}

/// Drops a database, but for its disks.
pub fn into_disks(db: Files) -> Disks {
    db.into_pages().into_disks()
}

// Adds a pair.
fn add_pair(image: &mut Vec<u8>, key: &[u8], value: &[u8]) -> Result<()> {
    image.push(b' ')?;
    image.extend_from_slice(key)?;
    image.push(b'=')?;
    image.extend_from_slice(value)?;
    Ok(())
}

// Adds the name of a tree.
fn add_name(image: &mut Vec<u8>, name: &[u8]) -> Result<()> {
    image.push(b'/')?;
    image.extend_from_slice(name)?;
    Ok(())
}

// Adds the pairs of a map.
fn add_map(alloc: Global, image: &mut Vec<u8>, map: &Map) -> Result<()> {
    for key in 0..KEYS as u8 {
        if let Some(Some(value)) = map.get(key as usize) {
            let value = value_of(alloc, *value)?;
            add_pair(image, &key_of(key), &value)?;
            drop(value);
        }
    }
    Ok(())
}

/// Maps, as bytes.
pub fn image_of(alloc: Global, maps: &Maps) -> Result<Vec<u8>> {
    let mut image = Vec::new(alloc);
    add_name(&mut image, DEFAULT_TREE.as_bytes())?;
    add_map(alloc, &mut image, &maps.main)?;
    if let Some(side) = &maps.side {
        add_name(&mut image, SIDE)?;
        add_map(alloc, &mut image, side)?;
    }
    Ok(image)
}

// Adds the pairs of a tree.
fn add_tree(db: &Files, tree: &Tree, image: &mut Vec<u8>) -> Result<()> {
    for pair in db.iter(tree)? {
        let (key, value) = pair?;
        add_pair(image, key.as_ref(), value.as_ref())?;
    }
    Ok(())
}

// Adds a tree by its name.
fn add_named(db: &mut Files, name: &IVec, image: &mut Vec<u8>) -> Result<()> {
    add_name(image, name.as_ref())?;
    let tree = db.open_tree(name.as_ref())?;
    add_tree(db, &tree, image)?;
    drop(tree);
    Ok(())
}

/// All pairs of a database, as bytes.
pub fn image(alloc: Global, db: &mut Files) -> Result<Vec<u8>> {
    let mut image = Vec::new(alloc);
    let names = db.tree_names()?;
    for name in &names {
        add_named(db, name, &mut image)?;
    }
    drop(names);
    Ok(image)
}
