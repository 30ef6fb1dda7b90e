//! Openings by a path that are refused, in two syncs and in one: both files have what they had, and none is made.
use crate::databases::{FORMAT_2, NAME, put};
use crate::{AS_IS, USUAL};
use example_parts::Adds;
use sled_host::{Opening, open_pair};
use sled_log::block_of;
use sled_path::{OpenError, open_once, open_with};
use std::alloc::Global;
use std::{fs, io};

const FOLDER: &str = "refused";

const FIRST: &str = "refused/log.0";

const SECOND: &str = "refused/log.1";

/// How a database is opened.
#[derive(Clone, Copy)]
enum Form {
    TwoSyncs,
    OneSync,
}

// What is there: the folder, and what each file has.
#[derive(PartialEq, Drop)]
struct Found {
    has_folder: bool,
    first: Option<Vec<u8>>,
    second: Option<Vec<u8>>,
}

// What a file has, if it is there.
fn file_at(rt: &HostRuntime, path: &str) -> Option<Vec<u8>> {
    match fs::read(rt, path) {
        Ok(bytes) => Some(bytes),
        Err(error) => {
            drop(error);
            None
        }
    }
}

fn look(rt: &HostRuntime) -> Found {
    Found {
        has_folder: matches!(fs::exists(rt, FOLDER), Ok(true)),
        first: file_at(rt, FIRST),
        second: file_at(rt, SECOND),
    }
}

// Why a database is not opened. None if it is.
fn refusal(rt: &HostRuntime, form: Form, opening: Opening) -> Option<OpenError> {
    match form {
        Form::TwoSyncs => match open_with::<Adds>(rt, FOLDER, NAME, opening) {
            Ok((db, _)) => {
                drop(db);
                None
            }
            Err(why) => Some(why),
        },
        Form::OneSync => match open_once::<Adds>(rt, FOLDER, NAME, opening) {
            Ok((db, _)) => {
                drop(db);
                None
            }
            Err(why) => Some(why),
        },
    }
}

// Tries to open the database, and prints why it is refused, and whether all stays as it was.
fn tell_form(rt: &HostRuntime, words: &str, form: Form, opening: Opening) {
    let before = look(rt);
    let why = refusal(rt, form, opening);
    let after = look(rt);
    let stays = if before == after {
        "all stays"
    } else {
        "something is another"
    };
    drop(before);
    drop(after);
    let form = match form {
        Form::TwoSyncs => "two syncs",
        Form::OneSync => "one sync",
    };
    let _ = match why {
        Some(why) => {
            let told = println!(rt; "{words}, {form}: {why}; {stays}");
            drop(why);
            told
        }
        None => println!(rt; "{words}, {form}: opened; {stays}"),
    };
}

fn tell_both(rt: &HostRuntime, words: &str, opening: Opening) {
    tell_form(rt, words, Form::TwoSyncs, opening);
    tell_form(rt, words, Form::OneSync, opening);
}

// Writes both files.
fn lay(rt: &HostRuntime, first: &[u8], second: &[u8]) -> io::Result<()> {
    fs::write(rt, FIRST, first)?;
    fs::write(rt, SECOND, second)
}

// The same of a file that is no store's, as the first and as the second.
fn tell_either(rt: &HostRuntime, first: &str, second: &str, bytes: &[u8]) -> io::Result<()> {
    lay(rt, bytes, b"")?;
    tell_both(rt, first, USUAL);
    lay(rt, b"", bytes)?;
    tell_both(rt, second, USUAL);
    Ok(())
}

// The bytes with another one at a place.
fn spoiled(alloc: Global, bytes: &[u8], at: usize) -> io::Result<Vec<u8>> {
    let mut bytes = bytes.to_vec(alloc)?;
    if let Some(byte) = bytes.get_mut(at) {
        *byte = b'?';
    }
    Ok(bytes)
}

// Makes a store whose first file counts, and returns what that has.
fn make(rt: &HostRuntime) -> io::Result<Vec<u8>> {
    match open_with::<Adds>(rt, FOLDER, NAME, USUAL) {
        Ok((mut db, _)) => {
            if let Err(e) = put(&mut db) {
                let _ = println!(rt; "{e}");
            }
            drop(db);
        }
        Err(why) => drop(why),
    }
    fs::read(rt, FIRST)
}

// A file of something else, one in another format, one whose first block has another digest than was written, and two of one generation. Of
// a later block only two syncs tell that it is another.
fn tell_flawed(rt: &HostRuntime, whole: &[u8]) -> io::Result<()> {
    tell_either(rt, "log.0 is none", "log.1 is none", b"something else")?;
    let mut other = Vec::new(rt.alloc());
    other.push(255)?;
    if let Ok(block) = block_of(rt.alloc(), &FORMAT_2) {
        other.extend_from_slice(&block)?;
        drop(block);
    }
    tell_either(rt, "log.0 in format 2", "log.1 in format 2", &other)?;
    drop(other);
    let first = spoiled(rt.alloc(), whole, 9)?;
    tell_either(rt, "log.0 begins badly", "log.1 begins badly", &first)?;
    drop(first);
    lay(rt, whole, whole)?;
    tell_both(rt, "both of one generation", USUAL);
    let later = spoiled(rt.alloc(), whole, 60)?;
    lay(rt, &later, b"")?;
    tell_form(rt, "log.0 goes on badly", Form::TwoSyncs, USUAL);
    lay(rt, b"", &later)?;
    tell_form(rt, "log.1 goes on badly", Form::TwoSyncs, USUAL);
    drop(later);
    Ok(())
}

// A store that is open, and one of whose files is held.
fn tell_held(rt: &HostRuntime, whole: &[u8]) -> io::Result<()> {
    lay(rt, whole, b"")?;
    match open_with::<Adds>(rt, FOLDER, NAME, USUAL) {
        Ok((db, _)) => {
            tell_both(rt, "open already", USUAL);
            drop(db);
        }
        Err(why) => drop(why),
    }
    if let Ok(pair) = open_pair(rt, FOLDER, USUAL) {
        drop(pair.first);
        tell_both(rt, "log.1 held", AS_IS);
        drop(pair.second);
    }
    Ok(())
}

// Files that are not to be made where one is not there, both, or the folder.
fn tell_missing(rt: &HostRuntime) -> io::Result<()> {
    fs::remove_file(rt, SECOND)?;
    tell_both(rt, "no log.1", AS_IS);
    fs::rename(rt, FIRST, SECOND)?;
    tell_both(rt, "no log.0", AS_IS);
    fs::remove_file(rt, SECOND)?;
    tell_both(rt, "neither", AS_IS);
    fs::remove_dir(rt, FOLDER)?;
    tell_both(rt, "no folder", AS_IS);
    Ok(())
}

/// Prints each refusal, and whether the folder and both files are as they were.
pub fn tell_all(rt: &HostRuntime) -> io::Result<()> {
    let whole = make(rt)?;
    tell_flawed(rt, &whole)?;
    tell_held(rt, &whole)?;
    drop(whole);
    tell_missing(rt)
}
