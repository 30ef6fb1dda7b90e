//! A database is opened in a folder, whose blocks are brought to the disk in one sync.
ghost use Rattle.std.specs.Prelude.{◌≡◌, true, IfOk, IfErr};
ghost use Rattle.sled_host.specs.Pair.{OpensPair};
ghost use Rattle.sled_path.specs.Once.{AreWhole, OpensOnceIn, GoesOnOnce, again_of, is_why_closed_once};

use crate::error::{OpenError, of_database, of_disk, of_files, of_host};
use files_once::{OneSync, law_lasts_as_read, mend_both, open_mended};
use sled::Db;
use sled_files::FilePages;
use sled_host::{HostFile, Opening, Pair, open_pair};
use sled_model::MergeOperator;

// The same files, which are there by now.
fn open_again(rt: &HostRuntime, path: &str, opening: Opening) -> Result<Pair, OpenError>
    ensures pair { IfOk result (λ pair. OpensPair (again_of opening) pair.first pair.second pair.is_locked) }
    ensures err { IfErr result (is_why_closed_once opening) }
{
    let again = Opening {
        creates: false,
        needs_lock: opening.needs_lock,
    };
    match open_pair(rt, path, again) {
        Ok(pair) => Ok(pair),
        Err(e) => Err(of_host(e)),
    }
}

// The files of a folder, of which none is torn. Once one was mended they are opened anew, since such a file is not read again.
fn open_whole(rt: &HostRuntime, path: &str, opening: Opening) -> Result<Pair, OpenError>
    ensures whole { IfOk result (λ pair. AreWhole opening pair.is_locked pair.first pair.second) }
    ensures locked { IfOk result (λ pair. opening.needs_lock ≡ true → pair.is_locked ≡ true) }
    ensures err { IfErr result (is_why_closed_once opening) }
{
    let mut pair = match open_pair(rt, path, opening) {
        Ok(pair) => pair,
        Err(e) => return Err(of_host(e)),
    };
    match mend_both(rt.alloc(), &mut pair.first, &mut pair.second) {
        Ok(false) => Ok(pair),
        Ok(true) => {
            drop(pair);
            match open_again(rt, path, opening) {
                Ok(pair) => Ok(pair),
                Err(e) => Err(e),
            }
        }
        Err(e) => {
            drop(pair);
            Err(of_disk(e))
        }
    }
}

/// Opens a database as `open_with` does, and brings each block of it to the disk in one sync, in place of two. A flush then waits for
/// the disk once. It trusts the digest of a block: a crash while one is written may leave another one, if their digests are the same, and
/// a block that has decayed ends the log unsaid, as a torn one does. What a crash tore is mended first; `open` takes that for decayed. So
/// after a crash open it with this call. Once that is done, or if nothing was torn, `open` opens it too.
///
/// Refused as `open_with` is, of the files once they were mended.
///
/// ```
/// let opening = Opening { creates: true, needs_lock: true };
/// if let Ok((db, is_locked)) = open_once::<Adds>(rt, "people.db", b"people", opening) {
///     drop(db); // What was flushed is there when it is opened again.
/// }
/// ```
pub fn open_once<M: MergeOperator>(
    rt: &HostRuntime,
    path: &str,
    name: &[u8],
    opening: Opening,
) -> Result<(Db<FilePages<OneSync<HostFile>>, M>, bool), OpenError>
    ensures ok { IfOk result (λ opened. OpensOnceIn opening opened.1 name.now opened.0) }
    ensures locked { IfOk result (λ opened. opening.needs_lock ≡ true → opened.1 ≡ true) }
    ensures err { IfErr result (is_why_closed_once opening) }
{
    let Pair {
        first,
        second,
        is_locked,
    } = match open_whole(rt, path, opening) {
        Ok(pair) => pair,
        Err(e) => return Err(e),
    };
    let pages = match open_mended(rt.alloc(), first, second) {
        Ok(pages) => pages,
        Err(refused) => {
            let why = of_files(refused.error);
            drop(refused);
            return Err(why);
        }
    };
    match Db::open_checked(rt.alloc(), pages, name) {
        Ok(db) => Ok((db.with_operators::<M>(), is_locked)),
        Err((pages, e)) => {
            drop(pages);
            Err(of_database(e))
        }
    }
}

/// Does nothing. It says what `open_once` finds after a crash or a drop: if the disks were honest, and the digest told what was left of
/// the blocks under way, the store that is opened goes on from this one.
///
/// ```
/// let opening = Opening { creates: true, needs_lock: true };
/// if let Ok((db, _)) = open_once::<Adds>(rt, "people.db", b"people", opening) {
///     law_once_goes_on(db.pages()); // From here on a proof knows what is found when it is opened again.
///     drop(db);
/// }
/// ```
pub fn law_once_goes_on(pages: &FilePages<OneSync<HostFile>>)
    ensures { GoesOnOnce pages.now }
{
    law_lasts_as_read(pages);
}
