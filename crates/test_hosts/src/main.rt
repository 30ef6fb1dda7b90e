//! The two files of a store, as the operating system keeps them. What was written is read at the next opening, and a file is read until it
//! is changed. A store is opened once, and what is no store is refused. So it is with the database in them, whose files are also refused
//! if they are in another format or have decayed. It prints the outcome of each; `stdout` has the expected ones.
#![tactic(auto)]

mod act;
mod databases;
mod front;
mod refused;

use act::Act;
use databases::{make_format_2, spoil, tell_database};
use sled_host::{HostError, Opening, Pair, open_pair};
use std::fs;
use std::io::{self, ErrorKind};
use std::os::unix::fs::symlink;

const USUAL: Opening = Opening {
    creates: true,
    needs_lock: true,
};

const AS_IS: Opening = Opening {
    creates: false,
    needs_lock: true,
};

const UNLOCKED: Opening = Opening {
    creates: true,
    needs_lock: false,
};

// How an opening came out.
fn word_of(opened: &Result<Pair, HostError>) -> &'static str {
    match opened {
        Ok(pair) if pair.is_locked => "opened and locked",
        Ok(_) => "opened",
        Err(HostError::Locked) => "open elsewhere",
        Err(HostError::NotAFolder) => "no folder",
        Err(HostError::NotAFile) => "no file",
        Err(HostError::Io(error)) if error.kind() == ErrorKind::NotFound => "not found",
        Err(_) => "refused",
    }
}

// Prints the outcome of an opening. The files are dropped.
fn tell_opening(rt: &HostRuntime, path: &str, opening: Opening) {
    let opened = open_pair(rt, path, opening);
    let _ = println!(rt; "{path}: {}", word_of(&opened));
    drop(opened);
}

// Opens a store, does this with its first file one after the other, prints how many bytes the second has, and drops both files.
fn act_on(rt: &HostRuntime, path: &str, opening: Opening, acts: &[Act<'_>]) {
    let mut opened = open_pair(rt, path, opening);
    let _ = println!(rt; "{path}: {}", word_of(&opened));
    if let Ok(pair) = &mut opened {
        for act in acts {
            act.run(rt, &mut pair.first);
        }
        Act::Len.run(rt, &mut pair.second);
    }
    drop(opened);
}

// What was written is read at the next opening, and so is what a cut leaves. A file lends what it is read as.
fn tell_written(rt: &HostRuntime) {
    let fill = [
        Act::Tell,
        Act::Lend,
        Act::Put(0, b"abcdef"),
        Act::Put(4, b"xyz"),
        Act::Len,
    ];
    act_on(rt, "written", USUAL, &fill);
    act_on(rt, "written", AS_IS, &[Act::Tell, Act::Lend, Act::Cut(2)]);
    act_on(rt, "written", AS_IS, &[Act::Tell, Act::Lend]);
}

// A file is read and lent until it is changed. Its length is known, and it can be changed again.
fn tell_changed(rt: &HostRuntime) {
    let acts = [
        Act::Put(0, b"abcdef"),
        Act::Tell,
        Act::Lend,
        Act::Len,
        Act::Put(6, b"g"),
    ];
    act_on(rt, "changed", USUAL, &acts);
}

// A store is opened once, as long as one of its files is held.
fn tell_once(rt: &HostRuntime) {
    match open_pair(rt, "once", USUAL) {
        Ok(Pair { first, second, .. }) => {
            tell_opening(rt, "once", USUAL);
            drop(first);
            tell_opening(rt, "once", USUAL);
            drop(second);
        }
        Err(error) => drop(error),
    }
    tell_opening(rt, "once", USUAL);
}

// Puts a folder, with a file in it, where a store could be.
fn make_other(rt: &HostRuntime) -> io::Result<()> {
    fs::create_dir(rt, "other")?;
    fs::write(rt, "other/kept", b"kept".as_slice())
}

// What is no store is refused.
fn tell_other(rt: &HostRuntime) -> io::Result<()> {
    tell_opening(rt, "other", AS_IS);
    make_other(rt)?;
    tell_opening(rt, "other", AS_IS);
    tell_opening(rt, "other/kept", USUAL);
    fs::create_dir(rt, "other/log.0")?;
    tell_opening(rt, "other", USUAL);
    fs::remove_dir(rt, "other/log.0")?;
    symlink(rt, "kept", "other/log.1")?;
    tell_opening(rt, "other", USUAL);
    Ok(())
}

// A database is opened again with what was brought to the disk, and once as long as one of its files is held, locked if that can be.
fn tell_databases(rt: &HostRuntime) {
    tell_database(rt, "nowhere/people", USUAL);
    tell_database(rt, "people", AS_IS);
    tell_database(rt, "people", USUAL);
    tell_database(rt, "people", AS_IS);
    tell_database(rt, "people", UNLOCKED);
    match open_pair(rt, "people", UNLOCKED) {
        Ok(Pair { first, second, .. }) => {
            drop(first);
            tell_database(rt, "people", USUAL);
            tell_database(rt, "people", UNLOCKED);
            drop(second);
        }
        Err(error) => drop(error),
    }
}

// A byte is another one: of a later block, of the first one, and of what says whose file it is.
fn tell_decayed(rt: &HostRuntime) {
    tell_database(rt, "decayed", USUAL);
    for at in [38, 9, 17] {
        if spoil(rt, "decayed", USUAL, at).is_err() {
            let _ = println!(rt; "decayed: refused");
        }
        tell_database(rt, "decayed", USUAL);
    }
}

// A store in another format.
fn tell_format(rt: &HostRuntime) {
    if make_format_2(rt, "format", USUAL).is_err() {
        let _ = println!(rt; "format: refused");
    }
    tell_database(rt, "format", USUAL);
}

// Files that are not there are not made if they are not to be, also where one of the two is there. Two that have nothing are a new store.
fn tell_as_is(rt: &HostRuntime) -> io::Result<()> {
    fs::create_dir(rt, "half")?;
    fs::write(rt, "half/log.0", b"".as_slice())?;
    tell_database(rt, "half", AS_IS);
    tell_database(rt, "half", AS_IS);
    fs::write(rt, "half/log.1", b"".as_slice())?;
    tell_database(rt, "half", AS_IS);
    tell_database(rt, "half", AS_IS);
    Ok(())
}

fn main(rt: HostRuntime) -> io::Result<()> {
    tell_written(&rt);
    tell_changed(&rt);
    tell_once(&rt);
    if front::tell(&rt).is_err() {
        println!(rt; "there is no memory")?;
    }
    tell_other(&rt)?;
    tell_databases(&rt);
    tell_decayed(&rt);
    tell_format(&rt);
    tell_as_is(&rt)?;
    refused::tell_all(&rt)
}
