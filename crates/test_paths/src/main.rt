//! A database in a folder of the system whose blocks are brought to the disk in one sync: what is found when it is opened again in that form and
//! with two syncs, after a drop, and after its log was torn; and which openings are refused. `stdout` has the expected lines.
#![tactic(auto)]

use example_parts::Adds;
use sled::{Db, Pages, Result};
use sled_path::{OpenError, Opening, open, open_once};
use std::fs::{self, OpenOptions};
use std::io;

const USUAL: Opening = Opening {
    creates: true,
    needs_lock: true,
};

const AS_IS: Opening = Opening {
    creates: false,
    needs_lock: true,
};

// Puts one pair, and makes it durable.
fn put<P: Pages>(db: &mut Db<P, Adds>, key: &[u8], value: &[u8]) -> Result<()> {
    let tree = db.default_tree()?;
    let old = db.insert(&tree, key, value)?;
    drop(old);
    drop(tree);
    db.flush()?;
    Ok(())
}

// Prints all pairs.
fn tell_pairs<P: Pages>(rt: &HostRuntime, db: &Db<P, Adds>) -> Result<()> {
    let tree = db.default_tree()?;
    for pair in db.iter(&tree)? {
        let (key, value) = pair?;
        let _ = print!(rt;
            " {} {}",
            key.as_ref().escape_ascii(),
            value.as_ref().escape_ascii()
        );
        drop(key);
        drop(value);
    }
    drop(tree);
    Ok(())
}

// Prints the pairs of a database, or that they could not be read.
fn tell_db<P: Pages>(rt: &HostRuntime, words: &str, db: &Db<P, Adds>) {
    let _ = print!(rt; "{words}:");
    match tell_pairs(rt, db) {
        Ok(()) => {
            let _ = println!(rt; "");
        }
        Err(e) => {
            let _ = println!(rt; " {e}");
            drop(e);
        }
    }
}

fn tell_closed(rt: &HostRuntime, words: &str, e: OpenError) {
    let _ = println!(rt; "{words}: {e}");
    drop(e);
}

// Opens a database in two syncs, prints what it has, and drops it.
fn tell_open(rt: &HostRuntime, path: &str) {
    match open::<Adds>(rt, path, b"people") {
        Ok(db) => {
            tell_db(rt, "in two syncs", &db);
            drop(db);
        }
        Err(e) => tell_closed(rt, "in two syncs", e),
    }
}

// The same in one sync, by these options.
fn tell_once(rt: &HostRuntime, path: &str, opening: Opening) {
    match open_once::<Adds>(rt, path, b"people", opening) {
        Ok((db, _)) => {
            tell_db(rt, "in one sync", &db);
            drop(db);
        }
        Err(e) => tell_closed(rt, "in one sync", e),
    }
}

// Puts pairs, each with a flush, in one sync, and tries to open the database once more meanwhile.
fn put_once(rt: &HostRuntime, path: &str, pairs: &[(&[u8], &[u8])]) {
    match open_once::<Adds>(rt, path, b"people", USUAL) {
        Ok((mut db, is_locked)) => {
            for (key, value) in pairs {
                if let Err(e) = put(&mut db, key, value) {
                    let _ = println!(rt; "{e}");
                    drop(e);
                }
            }
            if is_locked {
                tell_once(rt, path, USUAL);
            }
            drop(db);
        }
        Err(e) => tell_closed(rt, "in one sync", e),
    }
}

// Puts one pair with a flush in two syncs.
fn put_twice(rt: &HostRuntime, path: &str, key: &[u8], value: &[u8]) {
    match open::<Adds>(rt, path, b"people") {
        Ok(mut db) => {
            if let Err(e) = put(&mut db, key, value) {
                let _ = println!(rt; "{e}");
                drop(e);
            }
            drop(db);
        }
        Err(e) => tell_closed(rt, "in two syncs", e),
    }
}

// Cuts bytes off the end of a file, as a crash leaves it of which a part was not written.
fn tear(rt: &HostRuntime, path: &str, count: u64) -> io::Result<()> {
    let file = OpenOptions::new().write(true).open(rt, path)?;
    let len = file.metadata()?.len();
    file.set_len(len.saturating_sub(count))
}

fn main(rt: HostRuntime) -> io::Result<()> {
    let _ = println!(rt; "what was flushed in one sync is found in both forms");
    put_once(&rt, "people", &[(b"bern", b"17"), (b"ulm", b"21")]);
    tell_once(&rt, "people", AS_IS);
    tell_open(&rt, "people");
    let _ = println!(rt; "and so is what was flushed in two");
    put_twice(&rt, "people", b"linz", b"5");
    tell_once(&rt, "people", AS_IS);
    let _ = println!(rt; "a torn block is gone once it was mended");
    put_once(&rt, "people", &[(b"graz", b"3")]);
    tear(&rt, "people/log.0", 2)?;
    tell_open(&rt, "people");
    tell_once(&rt, "people", AS_IS);
    tell_open(&rt, "people");
    let _ = println!(rt; "and others are put behind the rest");
    put_once(&rt, "people", &[(b"zug", b"8")]);
    tell_open(&rt, "people");
    let _ = println!(rt; "what is no store is refused");
    tell_once(&rt, "nobody", AS_IS);
    fs::create_dir(&rt, "other")?;
    fs::write(&rt, "other/log.0", b"something else".as_slice())?;
    tell_once(&rt, "other", USUAL);
    let _ = println!(rt; "{}", fs::read_to_string(&rt, "other/log.0")?);
    Ok(())
}
