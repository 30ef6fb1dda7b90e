//! Databases in folders: which files are opened as one, and why others are not.
use example_parts::Adds;
use sled::{Db, IVec};
use sled_disk::{Disk, DiskError};
use sled_files::FilePages;
use sled_host::{HostError, HostFile, Opening, Pair, open_pair};
use sled_log::{append, block_of};
use sled_path::{OpenError, open_with};
use std::alloc::Global;
use std::io::ErrorKind;

/// The name of each database.
pub const NAME: &[u8] = b"test_hosts";

/// The header of a file of a store in format 2, in the first generation.
pub const FORMAT_2: [u8; 20] = *b"donnavek\x02\0\0\0\x01\0\0\0\0\0\0\0";

/// A database in the files of a folder.
pub type Files = Db<FilePages<HostFile>, Adds>;

/// Puts a pair into the database, and brings it to the disk.
pub fn put(db: &mut Files) -> sled::Result<()> {
    let tree = db.default_tree()?;
    let put = db.insert(&tree, b"ulm", b"21");
    drop(tree);
    drop(put?);
    db.flush()?;
    Ok(())
}

// What the key has.
fn value_of(db: &Files) -> sled::Result<Option<IVec>> {
    let tree = db.default_tree()?;
    let value = db.get(&tree, b"ulm");
    drop(tree);
    value
}

// Prints what the database had for its key, and puts a pair into it.
fn tell_put(rt: &HostRuntime, path: &str, is_locked: bool, db: &mut Files) {
    let lock = if is_locked { "locked" } else { "not locked" };
    let _ = match value_of(db) {
        Ok(Some(value)) => {
            let told = println!(rt; "{path}: {lock}, it has {}", value.as_ref().escape_ascii());
            drop(value);
            told
        }
        Ok(None) => println!(rt; "{path}: {lock}, it has nothing"),
        Err(e) => println!(rt; "{path}: {e}"),
    };
    if let Err(e) = put(db) {
        let _ = println!(rt; "{path}: {e}");
    }
}

fn tell_refused(rt: &HostRuntime, path: &str, why: &OpenError) {
    let _ = match why {
        OpenError::OtherFormat(format) => println!(rt; "{path}: in format {format}"),
        OpenError::Decayed(place) => println!(rt; "{path}: decayed at byte {place}"),
        OpenError::NotAStore => println!(rt; "{path}: no store"),
        OpenError::Locked => println!(rt; "{path}: open elsewhere"),
        OpenError::Io(HostError::Io(error)) if error.kind() == ErrorKind::NotFound => {
            println!(rt; "{path}: not found")
        }
        _ => println!(rt; "{path}: refused"),
    };
}

/// Opens the database in a folder, prints what it has, puts a pair into it, and drops it; or prints why it is not opened.
pub fn tell_database(rt: &HostRuntime, path: &str, opening: Opening) {
    match open_with::<Adds>(rt, path, NAME, opening) {
        Ok((mut db, is_locked)) => {
            tell_put(rt, path, is_locked, &mut db);
            drop(db);
        }
        Err(why) => {
            tell_refused(rt, path, &why);
            drop(why);
        }
    }
}

// Writes over one byte of a file, and brings it to the disk.
fn spoil_file(file: &mut HostFile, at: usize) -> Result<(), DiskError> {
    if at < file.len()? {
        file.write_at(at, b"?")?;
        file.sync()
    } else {
        Err(DiskError::Failed)
    }
}

/// Makes a byte of the first file of a store another one.
pub fn spoil(rt: &HostRuntime, path: &str, opening: Opening, at: usize) -> Result<(), HostError> {
    let Pair {
        mut first,
        second,
        is_locked: _,
    } = open_pair(rt, path, opening)?;
    let spoiled = spoil_file(&mut first, at);
    drop(first);
    drop(second);
    if spoiled.is_err() {
        let _ = println!(rt; "{path}: no other byte {at}");
    }
    Ok(())
}

// Makes of a file without a byte one of a store in format 2.
fn write_format_2(alloc: Global, file: &mut HostFile) -> Result<(), DiskError> {
    let block = block_of(alloc, &FORMAT_2)?;
    file.write_at(0, &[0])?;
    file.sync()?;
    append(file, 0, &block)
}

/// Makes a store in format 2, in a folder without one.
pub fn make_format_2(rt: &HostRuntime, path: &str, opening: Opening) -> Result<(), HostError> {
    let Pair {
        mut first,
        second,
        is_locked: _,
    } = open_pair(rt, path, opening)?;
    let made = write_format_2(rt.alloc(), &mut first);
    drop(first);
    drop(second);
    if made.is_err() {
        let _ = println!(rt; "{path}: not made");
    }
    Ok(())
}
