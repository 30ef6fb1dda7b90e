//! What holds of the maps of a database now and over crashes: a flush begins it, and what a crash leaves has it still.
ghost use Rattle.std.specs.Prelude.{◌≡◌, IfOk, OnOk};
ghost use Rattle.sled_pages.specs.Memory.{store_of};
ghost use Rattle.example_parts.specs.Reads.{maps_now};
ghost use Rattle.example_transactions.specs.Throughout.{IsSettled, Recovers};

use sled::{Db, crash_pages};
use sled_model::MergeOperator;
use sled_nodes::Result;
use sled_pages::MemPages;
use sled_store::Pages;
use std::alloc::Global;

/// Makes all durable, and changes no map. Then what is so of the maps holds throughout, since a crash can leave no others.
///
/// ```
/// settle(&mut db)?; // From here on a crash can leave these maps alone.
/// ```
pub fn settle<P: Pages, M: MergeOperator>(db: &mut Db<P, M>) -> Result<()>
    ensures ok { OnOk result (IsSettled (P.store db.new.pages) (maps_now P.store M.meant db.new)) }
    ensures same { maps_now P.store M.meant db.new ≡ maps_now P.store M.meant db.old }
{
    match db.flush() {
        Ok(_) => Ok(()),
        Err(e) => Err(e),
    }
}

/// Ends a database, crashes its pages, of whose last actions so many are kept, and opens what is left. Each key has what it has in one of
/// the states that a crash may leave, so what held throughout does so in what is left.
///
/// ```
/// let left = recover(alloc, db, b"weather", 3)?; // Three actions after the last flush, at most.
/// ```
pub fn recover<M: MergeOperator>(
    alloc: Global,
    db: Db<MemPages, M>,
    name: &[u8],
    keep: usize,
) -> Result<Db<MemPages, M>>
    ensures { IfOk result (λ left. Recovers (store_of db.pages) (store_of left.pages) (maps_now store_of M.meant left)) }
{
    let left = crash_pages(db.into_pages(), keep)?;
    match Db::open(alloc, left, name) {
        Ok(db) => {
            let db = db.with_operators();
            db.audit();
            Ok(db)
        }
        Err((pages, e)) => {
            drop(pages);
            Err(e)
        }
    }
}
