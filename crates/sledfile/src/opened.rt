//! A session on the database of a folder: how it is opened, what is printed of it, and how it is dropped.

use line_sessions::operator::NoOperator;
use line_sessions::session::{Session, write};
use line_words::input::Stopped;
use line_words::print::push_refused;
use sled::{DEFAULT_TREE, Db};
use sled_files::FilePages;
use sled_host::HostFile;
use sled_model::{Outcome, Reply, Whole};
use sled_nodes::{Error, IVec};
use sled_path::open;
use sled_store::Pages;
use std::alloc::Global;
use std::io::Write;

// The name that the database is opened under.
const DATABASE: &[u8] = b"sledfile";

/// A session on a database in files.
pub type Opened = Session<FilePages<HostFile>, NoOperator>;

type Filed = Db<FilePages<HostFile>, NoOperator>;

// A session over a database, whose default tree is current.
fn session_over(alloc: Global, db: Filed) -> Result<Opened, Stopped> {
    match Session::over(alloc, db) {
        Ok(session) => Ok(session),
        Err(refused) => {
            drop(refused);
            Err(Stopped)
        }
    }
}

// Opens the database, or says why it is not opened.
fn open_in<W: Write>(rt: &HostRuntime, path: &str, output: &mut W) -> Result<Opened, Stopped> {
    match open::<NoOperator>(rt, path, DATABASE) {
        Ok(db) => session_over(rt.alloc(), db),
        Err(e) => {
            let written = writeln!(output, "not opened: {e}");
            drop(e);
            written?;
            Err(Stopped)
        }
    }
}

// How many pages were found, if the database was there.
fn pages_found(session: &Opened) -> Option<u64> {
    if !session.db().was_recovered() {
        return None;
    }
    match session.db().stats() {
        Ok(stats) => Some(stats.pages),
        Err(error) => {
            drop(error);
            None
        }
    }
}

// Says that the database was found, if it was, and which tree is current if it is not the one that was asked for.
fn tell_found<W: Write>(session: &Opened, is_same: bool, output: &mut W) -> Result<(), Stopped> {
    let Some(pages) = pages_found(session) else {
        return Ok(());
    };
    write!(output, "recovered, pages {pages}")?;
    if !is_same {
        write!(output, ", tree {DEFAULT_TREE}")?;
    }
    Ok(writeln!(output)?)
}

/// Opens the database, which is made if it is not there, and says how many pages were found.
pub fn open_first<W: Write>(
    rt: &HostRuntime,
    path: &str,
    output: &mut W,
) -> Result<Opened, Stopped> {
    let session = open_in(rt, path, output)?;
    told(session, true, output)
}

// Says what was found by an opening.
fn told<W: Write>(session: Opened, is_same: bool, output: &mut W) -> Result<Opened, Stopped> {
    match tell_found(&session, is_same, output) {
        Ok(()) => Ok(session),
        Err(stopped) => {
            drop(session);
            Err(stopped)
        }
    }
}

// Makes the tree of a name current, if it is there: whether it is.
fn take(session: &mut Opened, name: IVec) -> Result<bool, Stopped> {
    if session.db().pages().root(name.as_ref()).is_none() {
        drop(name);
        return Ok(false);
    }
    match session.whole(Whole::OpenTree(name)) {
        Outcome::Decided(Reply::Tree(tree)) => {
            session.set_tree(tree);
            Ok(true)
        }
        other => {
            drop(other);
            Err(Stopped)
        }
    }
}

// Makes the tree of a name current again, if it is there: whether it is.
fn taken(mut session: Opened, name: IVec) -> Result<(Opened, bool), Stopped> {
    match take(&mut session, name) {
        Ok(is_same) => Ok((session, is_same)),
        Err(stopped) => {
            drop(session);
            Err(stopped)
        }
    }
}

// The name of the current tree, and the session.
fn named(session: Opened) -> Result<(Opened, IVec), Stopped> {
    match session.tree().name.clone() {
        Ok(name) => Ok((session, name)),
        Err(error) => {
            drop(error);
            drop(session);
            Err(Stopped)
        }
    }
}

/// Drops the database without a flush, as a crash does, and opens it again. The same tree is current then, if it is there.
pub fn open_again<W: Write>(
    rt: &HostRuntime,
    path: &str,
    session: Opened,
    output: &mut W,
) -> Result<Opened, Stopped> {
    let (session, name) = named(session)?;
    drop(session);
    match open_in(rt, path, output) {
        Ok(session) => {
            let (session, is_same) = taken(session, name)?;
            told(session, is_same, output)
        }
        Err(stopped) => {
            drop(name);
            Err(stopped)
        }
    }
}

// Adds the line of a refusal.
fn tell_refused<W: Write>(alloc: Global, error: Error, output: &mut W) -> Result<(), Stopped> {
    let mut line = Vec::new(alloc);
    let pushed = push_refused(&mut line, &error);
    drop(error);
    pushed?;
    write(output, &mut line)
}

// Begins the log of a store anew, and says so, or why it is not.
fn compact_pages<W: Write>(
    alloc: Global,
    pages: &mut FilePages<HostFile>,
    output: &mut W,
) -> Result<(), Stopped> {
    match pages.compact() {
        Ok(()) => Ok(writeln!(output, "compacted")?),
        Err(error) => tell_refused(alloc, error, output),
    }
}

// Opens the database of a store as it is.
fn open_pages<W: Write>(
    alloc: Global,
    pages: FilePages<HostFile>,
    output: &mut W,
) -> Result<Opened, Stopped> {
    match Db::open_checked(alloc, pages, DATABASE) {
        Ok(db) => session_over(alloc, db.with_operators()),
        Err((pages, e)) => {
            drop(pages);
            let written = writeln!(output, "not opened: {e}");
            drop(e);
            written?;
            Err(Stopped)
        }
    }
}

/// Makes all durable in a log that is begun anew. Calls in flight are abandoned; the same tree is current.
pub fn compact<W: Write>(
    alloc: Global,
    session: Opened,
    output: &mut W,
) -> Result<Opened, Stopped> {
    if session.db().pages().in_group() {
        return match tell_refused(alloc, Error::Closed, output) {
            Ok(()) => Ok(session),
            Err(stopped) => {
                drop(session);
                Err(stopped)
            }
        };
    }
    let (session, name) = named(session)?;
    let mut pages = session.into_db().into_pages();
    if let Err(stopped) = compact_pages(alloc, &mut pages, output) {
        drop(pages);
        drop(name);
        return Err(stopped);
    }
    match open_pages(alloc, pages, output) {
        Ok(session) => Ok(taken(session, name)?.0),
        Err(stopped) => {
            drop(name);
            Err(stopped)
        }
    }
}

/// Says how large all trees are, and the log that has them.
pub fn tell_stats<W: Write>(session: &Opened, output: &mut W) -> Result<(), Stopped> {
    let stats = session.db().stats()?;
    let files = session.db().pages().stats();
    writeln!(
        output,
        "stats trees {} pages {} levels {} pairs {} key-bytes {} value-bytes {}",
        stats.trees, stats.pages, stats.levels, stats.pairs, stats.key_bytes, stats.value_bytes
    )?;
    Ok(writeln!(
        output,
        "log bytes {} snapshot {} generation {}",
        files.bytes, files.snapshot, files.generation
    )?)
}

/// Ends a session: all that was decided is durable then, or it says why not.
pub fn flush<W: Write>(mut session: Opened, output: &mut W) -> Result<(), Stopped> {
    let flushed = session.flush();
    drop(session);
    match flushed {
        Outcome::Refused(error) => {
            let written = writeln!(output, "not flushed: {error}");
            drop(error);
            Ok(written?)
        }
        other => {
            drop(other);
            Ok(())
        }
    }
}
