//! A database is opened in a folder.
ghost use Rattle.std.specs.Prelude.{◌≡◌, true, IfOk, IfErr};
ghost use Rattle.sled_path.specs.Path.{OpensIn, GoesOnIn, is_why_closed, usual};

use crate::error::{OpenError, of_database, of_files, of_host};
use sled::Db;
use sled_files::{FilePages, law_lasts};
use sled_host::{HostFile, Opening, Pair, open_pair};
use sled_model::MergeOperator;

/// Opens the database in the folder of this path, under this name: the one that was left there by a drop or a crash, or a new one if there
/// is none. The folder is made in one that is there. No other process can open it as long as the database lives; if the file system has no
/// locks it is refused, and `open_with` opens it all the same. Its merge operators are of the type M, as after `Db::with_operators`.
///
/// Refused with `Locked` or `Io` by the operating system; with `NotAStore`, `OtherFormat` or `Decayed` if the files are not those of a
/// store, or were changed since; with `Disk` if the disk has no room or failed; and with `Database` for want of memory, or if the pages
/// are not those of a database.
///
/// ```
/// match open::<Adds>(rt, "people.db", b"people") {
///     Ok(db) => drop(db),    // What was flushed is there when it is opened again.
///     Err(why) => drop(why), // `why` is printed in words.
/// }
/// ```
pub fn open<M: MergeOperator>(
    rt: &HostRuntime,
    path: &str,
    name: &[u8],
) -> Result<Db<FilePages<HostFile>, M>, OpenError>
    ensures ok { IfOk result (OpensIn usual true name.now) }
    ensures err { IfErr result (is_why_closed usual) }
{
    let opening = Opening {
        creates: true,
        needs_lock: true,
    };
    match open_with(rt, path, name, opening) {
        Ok((db, _)) => Ok(db),
        Err(e) => Err(e),
    }
}

/// The same, by these options, and whether the files are locked. If they are not, the user has to make sure that nothing else opens them.
///
/// ```
/// let only_old = Opening { creates: false, needs_lock: true };
/// if let Ok((db, is_locked)) = open_with::<Adds>(rt, "people.db", b"people", only_old) {
///     drop(db); // It was there already.
/// }
/// ```
pub fn open_with<M: MergeOperator>(
    rt: &HostRuntime,
    path: &str,
    name: &[u8],
    opening: Opening,
) -> Result<(Db<FilePages<HostFile>, M>, bool), OpenError>
    ensures ok { IfOk result (λ opened. OpensIn opening opened.1 name.now opened.0) }
    ensures locked { IfOk result (λ opened. opening.needs_lock ≡ true → opened.1 ≡ true) }
    ensures err { IfErr result (is_why_closed opening) }
{
    let Pair {
        first,
        second,
        is_locked,
    } = match open_pair(rt, path, opening) {
        Ok(pair) => pair,
        Err(e) => return Err(of_host(e)),
    };
    let pages = match FilePages::open(rt.alloc(), first, second) {
        Ok(pages) => pages,
        Err(refused) => {
            let why = of_files(refused.error);
            drop(refused);
            return Err(why);
        }
    };
    match Db::open_checked(rt.alloc(), pages, name) {
        Ok(db) => Ok((db.with_operators::<M>(), is_locked)),
        Err((pages, e)) => {
            drop(pages);
            Err(of_database(e))
        }
    }
}

/// Does nothing. It says what `open` and `open_with` find after a crash or a drop: if the disks were honest, the store that is opened goes
/// on from this one.
///
/// ```
/// if let Ok(db) = open::<Adds>(rt, "people.db", b"people") {
///     law_goes_on(db.pages()); // From here on a proof knows what is found when it is opened again.
///     drop(db);
/// }
/// ```
pub fn law_goes_on(pages: &FilePages<HostFile>)
    ensures { GoesOnIn pages.now }
{
    law_lasts(pages);
}
