//! The laws of the calls of one owner.
ghost use Rattle.std.specs.Prelude.{◌≡◌, false, List, []};
ghost use Rattle.sled_store.specs.Store.{now};
ghost use Rattle.tree_laws.specs.Contents.{trees_of};
ghost use Rattle.tree_pages.specs.Export.{collections};
ghost use Rattle.sled_model.specs.Maps.{Maps};
ghost use Rattle.machine_shared.specs.History.{maps_from};
ghost use Rattle.call_laws.specs.Calls.{alone, IsRecord, LeavesBefore};
ghost use Rattle.call_laws.specs.Hears.{HearsLaw};
ghost use Rattle.call_laws.specs.Laws.{JoinedLaw, ListLaw, RecordLaw, TransactionLaw};

use sled::Db;
use sled_model::MergeOperator;
use sled_store::Pages;
use tree_transactions::{TransactionAnswer, TransactionalTree, TransactionalTrees};

/// Does nothing. Here the record of what is made of a database begins: nothing was made since it had the collections that it has. A crash
/// may leave what it might leave now, and while the database is open the last of those are the maps as they are now. Just after an opening
/// or a flush there are no others.
///
/// ```
/// audit_opening(&db); // From here on a proof knows it.
/// ```
pub fn audit_opening<P: Pages, M: MergeOperator>(db: &Db<P, M>)
    ensures begins { (earlier : List Maps) → LeavesBefore (P.store db.now.pages) earlier → IsRecord P.store (alone db.now) (collections (trees_of (now (P.store db.now.pages))) db.now.trees) earlier [] }
    ensures maps { maps_from (collections (trees_of (now (P.store db.now.pages))) db.now.trees) ≡ trees_of (now (P.store db.now.pages)) }
    ensures some { (now (P.store db.now.pages)).in_group ≡ false → (earlier : List Maps) × LeavesBefore (P.store db.now.pages) earlier }
{
    db.audit();
}

/// Does nothing. A record of what was made goes on: after more calls, it is a record with what they made at its end. So the trees are the
/// maps that the calls give in order, and each reply of a call on a key is the map's at its place. A crash leaves the maps after the last
/// flush in the list or after a later call; if the list has no flush, also what it might have left when the record began. Ids rise. A group
/// that is refused midway closes the database; from then on the record speaks of crashes alone.
///
/// ```
/// law_record::<MemPages, Adds>(); // From here on a proof knows it.
/// ```
pub fn law_record<P: Pages, M: MergeOperator>()
    ensures { RecordLaw P.store P.flush_number M.meant }
{}

/// Does nothing. Calls, and then more calls, are calls.
///
/// ```
/// law_joined::<MemPages, Adds>(); // From here on a proof knows it.
/// ```
pub fn law_joined<P: Pages, M: MergeOperator>()
    ensures { JoinedLaw P.store P.flush_number M.meant }
{}

/// Does nothing. Over every list of calls a subscriber gets each event under its prefix of its tree once, in the order of the calls that
/// were decided, or learns how many it missed. What `next` returned, then what it missed since, then what waits, is what waited at first
/// and then what the calls brought. A transaction brings the events of what it wrote. While it misses none and the database is open, a copy
/// that it changes by them follows the map of its tree.
///
/// ```
/// law_hears::<MemPages, Adds>(); // From here on a proof knows it.
/// ```
pub fn law_hears<P: Pages, M: MergeOperator>()
    ensures { HearsLaw P.store P.flush_number M.meant }
{}

/// Does nothing. A transaction of a tree is calls of the owner: what its closure took of ids, the group of what it wrote, and the flush
/// that it asked for. One that was aborted or refused made nothing. But if its group was made and only the flush after it was refused, it
/// made that group of what its closure wrote. Subscribers get the events of that group.
///
/// ```
/// let put = |weather: &mut TransactionalTree<'_, MemPages>| -> ConflictableTransactionResult<(), ()> {
///     drop(weather.insert(b"ulm", b"21")?);
///     Ok(())
/// };
/// law_transaction::<MemPages, Adds, _, _, _, _>(&put); // From here on a proof knows it of transactions by this closure.
/// ```
pub fn law_transaction<P: Pages, M: MergeOperator, A: Drop, E, R: TransactionAnswer<A, E>, F>(
    _f: &F,
)
where
    F: Fn(&mut TransactionalTree<'_, P>) -> R,
    ensures { TransactionLaw P.store P.flush_number M.meant F.Fn R.result_of }
{}

/// Does nothing. The same of a transaction of a list of trees.
///
/// ```
/// let put = |weather: &mut TransactionalTrees<'_, MemPages>| -> ConflictableTransactionResult<(), ()> {
///     drop(weather.insert(0, b"ulm", b"21")?);
///     Ok(())
/// };
/// law_list::<MemPages, Adds, _, _, _, _>(&put); // From here on a proof knows it of transactions by this closure.
/// ```
pub fn law_list<P: Pages, M: MergeOperator, A: Drop, E, R: TransactionAnswer<A, E>, F>(_f: &F)
where
    F: Fn(&mut TransactionalTrees<'_, P>) -> R,
    ensures { ListLaw P.store P.flush_number M.meant F.Fn R.result_of }
{}
