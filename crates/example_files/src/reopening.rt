//! What a crash left of the files of a store is opened.
ghost use Rattle.std.specs.Prelude.{IfOk, IfErr};
ghost use Rattle.sled_files.specs.Stored.{asked_of, stored_as};
ghost use Rattle.sled_files.specs.Opening.{LeavesWhileOpened, is_refusal};
ghost use Rattle.sled_files.specs.Laws.{GoesOn};
ghost use Rattle.example_files.specs.Survive.{Reopens, is_no_loss};

use crate::lost::Lost;
use machine_alone::Machine;
use sled::Db;
use sled_disk::Disk;
use sled_files::{FilePages, NotOpened, law_lasts, law_opened_goes_on, law_opens_again};
use sled_model::MergeOperator;
use sled_store::law_sealed;
use std::alloc::Global;

/// Opens what a crash left of the two files of a store. The store that is found goes on from this one: it has a state that a crash may
/// leave of it, its mark or a higher one, and gives no number again. It is refused for want of memory or by a disk alone. Then the files
/// are handed back, and have what they had.
pub fn reopen_pages<D: Disk + Send, E: Disk + Send>(
    alloc: Global,
    pages: &FilePages<D>,
    first: E,
    second: E,
) -> Result<FilePages<E>, NotOpened<E>>
    requires first { D.may_leave pages.now.files.first (E.seen first) }
    requires second { D.may_leave pages.now.files.second (E.seen second) }
    ensures ok { IfOk result (λ found. GoesOn (asked_of pages.now.asked) pages.now.limits (stored_as pages.now) (stored_as found)) }
    ensures err { IfErr result (λ x. is_refusal x.error) }
    ensures left { IfErr result (λ x. LeavesWhileOpened E.seen E.moment E.left_since E.may_leave first second x.first x.second) }
{
    law_lasts(pages);
    law_opened_goes_on();
    law_opens_again();
    FilePages::open(alloc, first, second)
}

/// Opens what a crash left of the files of a database, and a database of this name over it. The maps that are found are those of a state
/// that a crash may leave: of any list of maps that a crash might leave of the database they are one. Ids go on above those that it gave;
/// no tree has a merge operator. One of its disks may have refused a call. So a power cut in the midst of a call is here a disk that did a
/// part of a call, and refused all after it.
pub fn reopen_db<D: Disk + Send, E: Disk + Send, M: MergeOperator>(
    alloc: Global,
    db: &Db<FilePages<D>, M>,
    first: E,
    second: E,
    name: &[u8],
) -> Result<Db<FilePages<E>, M>, Lost>
    requires first { D.may_leave db.now.pages.files.first (E.seen first) }
    requires second { D.may_leave db.now.pages.files.second (E.seen second) }
    ensures ok { IfOk result (Reopens name.now db.now) }
    ensures err { IfErr result is_no_loss }
{
    db.audit();
    let pages = match reopen_pages(alloc, db.pages(), first, second) {
        Ok(pages) => pages,
        Err(refused) => {
            let why = refused.error;
            drop(refused);
            return Err(Lost::Files(why));
        }
    };
    law_sealed(&pages);
    match Db::open(alloc, pages, name) {
        Ok(db) => Ok(db.with_operators::<M>()),
        Err((pages, e)) => {
            drop(pages);
            Err(Lost::Database(e))
        }
    }
}

/// The same of the files of a machine.
pub fn reopen<D: Disk + Send, E: Disk + Send, M: MergeOperator>(
    alloc: Global,
    machine: &Machine<FilePages<D>, M>,
    first: E,
    second: E,
    name: &[u8],
) -> Result<Db<FilePages<E>, M>, Lost>
    requires first { D.may_leave machine.now.db.pages.files.first (E.seen first) }
    requires second { D.may_leave machine.now.db.pages.files.second (E.seen second) }
    ensures ok { IfOk result (Reopens name.now machine.now.db) }
    ensures err { IfErr result is_no_loss }
{
    match reopen_db(alloc, machine.db(), first, second, name) {
        Ok(db) => Ok(db),
        Err(why) => Err(why),
    }
}
