//! Direct calls, a transaction between them, and a crash.
ghost use Rattle.std.specs.Prelude.{◌≡◌, false, IfOk, OnOk};
ghost use Rattle.sled_store.specs.Store.{now};
ghost use Rattle.sled_pages.specs.Memory.{store_of, empty_store};
ghost use Rattle.tree_laws.specs.Contents.{trees_of};
ghost use Rattle.tree_laws.specs.Crashes.{IsValid};
ghost use Rattle.example_owned.specs.Heard.{FollowsTree, HearsWrites, both_brings, insert_brings};
ghost use Rattle.example_owned.specs.Owned.{IsBoth, IsFlush, IsInsert, IsOrder, FoundAfter, Goes};
ghost use Rattle.example_owned.specs.theory.Owned.{GoesQuietly, WritesInside, brings_nothing};

use call_laws::{audit_opening, law_hears, law_joined, law_record, law_transaction};
use sled::{ConflictableTransactionResult, Db, TransactionalTree, crash_pages, empty_pages};
use sled_model::{MergeOperator, Next, Subscriber, Tree};
use sled_nodes::Result;
use sled_pages::MemPages;
use sled_store::Pages;
use std::alloc::Global;

/// Which of the calls of `write_and_crash` succeeded.
#[derive(Clone, Copy, Debug, PartialEq, Eq)]
pub struct Written {
    /// The first insert of the key.
    pub insert: bool,
    /// The transaction that writes two other keys.
    pub both: bool,
    /// The flush after both.
    pub flush: bool,
    /// The second insert of the key.
    pub later: bool,
}

/// Which of the calls of `write_and_hear` succeeded.
#[derive(Clone, Copy, Debug, PartialEq, Eq)]
pub struct Wrote {
    /// The first insert of the key.
    pub insert: bool,
    /// The transaction that writes two other keys.
    pub both: bool,
    /// The second insert of the key.
    pub later: bool,
}

// Sets the value at a key, and says whether that succeeded.
fn put<P: Pages, M: MergeOperator>(db: &mut Db<P, M>, tree: &Tree, key: &[u8], value: &[u8]) -> bool
    ensures { GoesQuietly P.store P.flush_number M.meant db.old (IsInsert tree.now key.now value.now result) (insert_brings P.store P.flush_number M.meant db.old tree.now key.now value.now result) db.new }
{
    let inserted = db.insert(tree, key, value);
    let is_made = inserted.is_ok();
    drop(inserted);
    is_made
}

// What the closure of `put_both` does.
fn write_both<P: Pages>(
    inside: &mut TransactionalTree<'_, P>,
    one: &[u8],
    other: &[u8],
    value: &[u8],
) -> ConflictableTransactionResult<(), ()>
    ensures { OnOk result (WritesInside inside.old one.now other.now value.now inside.new) }
{
    drop(inside.insert(one, value)?);
    drop(inside.insert(other, value)?);
    Ok(())
}

// Sets the value at two keys or at none, by a transaction, and says whether that succeeded.
fn put_both<P: Pages, M: MergeOperator>(
    db: &mut Db<P, M>,
    tree: &Tree,
    one: &[u8],
    other: &[u8],
    value: &[u8],
) -> bool
    ensures { GoesQuietly P.store P.flush_number M.meant db.old (IsBoth tree.now one.now other.now value.now result) (both_brings P.store P.flush_number M.meant db.old tree.now one.now other.now value.now result) db.new }
{
    let writes = |inside: &mut TransactionalTree<'_, P>| write_both(inside, one, other, value);
    law_transaction::<P, M, (), (), _, _>(&writes);
    let ended = db.transaction(tree, writes);
    ended.is_ok()
}

// Makes all durable, and says whether that succeeded.
fn settle<P: Pages, M: MergeOperator>(db: &mut Db<P, M>) -> bool
    ensures { GoesQuietly P.store P.flush_number M.meant db.old (IsFlush result) brings_nothing db.new }
{
    let flushed = db.flush();
    flushed.is_ok()
}

// Sets a key, writes two others in a transaction, makes all durable, and sets the first one anew, whatever the outcome of each.
fn write<P: Pages, M: MergeOperator>(
    db: &mut Db<P, M>,
    tree: &Tree,
    key: &[u8],
    first: &[u8],
    second: &[u8],
    one: &[u8],
    other: &[u8],
) -> Written
    ensures { Goes P.store P.flush_number M.meant db.old (IsOrder tree.now key.now first.now second.now one.now other.now result) db.new }
{
    law_joined::<P, M>();
    let insert = put(db, tree, key, first);
    let both = put_both(db, tree, one, other, first);
    let flush = settle(db);
    let later = put(db, tree, key, second);
    Written {
        insert,
        both,
        flush,
        later,
    }
}

/// Opens a database over new pages, and makes an insert of a key, a transaction that writes two others, a flush and another insert of the
/// key, each whatever the outcome of those before. Then its store crashes, and keeps at most so many of the last actions, and what is left
/// is opened again. Returns which of the four succeeded, and the pages. What is found is what a crash may leave of the calls that
/// succeeded, in this order. If the flush succeeded, it is what they gave up to there, or up to the last of them; else it is what some
/// beginning of them gave. Refused as an opening is, and with `NoMemory`.
///
/// ```
/// let (written, pages) = write_and_crash(alloc, b"shop", b"order", b"17", b"18", b"stock", b"log", 3)?;
/// ```
pub fn write_and_crash(
    alloc: Global,
    name: &[u8],
    key: &[u8],
    first: &[u8],
    second: &[u8],
    one: &[u8],
    other: &[u8],
    keep: usize,
) -> Result<(Written, MemPages)>
    ensures ok { IfOk result (λ r. FoundAfter (trees_of (now empty_store)) (trees_of (now (store_of r.1))) key.now first.now second.now one.now other.now r.0) }
    ensures well { IfOk result (λ r. IsValid (now (store_of r.1))) }
    ensures no_group { IfOk result (λ r. (now (store_of r.1)).in_group ≡ false) }
{
    let mut db = match Db::open(alloc, empty_pages(alloc), name) {
        Ok(db) => db,
        Err((pages, e)) => {
            drop(pages);
            return Err(e);
        }
    };
    audit_opening(&db);
    let tree = match db.default_tree() {
        Ok(tree) => tree,
        Err(e) => {
            drop(db.into_pages());
            return Err(e);
        }
    };
    law_record::<MemPages, Box<dyn MergeOperator + Send>>();
    let written = write(&mut db, &tree, key, first, second, one, other);
    drop(tree);
    db.audit();
    let left = crash_pages(db.into_pages(), keep)?;
    match Db::open(alloc, left, name) {
        Ok(db) => Ok((written, db.into_pages())),
        Err((left, e)) => {
            drop(left);
            Err(e)
        }
    }
}

/// Makes an insert of a key, a transaction that writes two others and another insert of the key, each whatever the outcome of those before,
/// and then the `next` of a subscriber. Returns which of the three succeeded, and that. A subscriber hears of what they wrote in their
/// order, and if it keeps a copy of its tree by what it gets, the copy follows the tree. It is never refused.
///
/// ```
/// let (wrote, next) = write_and_hear(&mut db, &tree, &subscriber, b"order", b"17", b"18", b"stock", b"log");
/// ```
pub fn write_and_hear<P: Pages, M: MergeOperator>(
    db: &mut Db<P, M>,
    tree: &Tree,
    subscriber: &Subscriber,
    key: &[u8],
    first: &[u8],
    second: &[u8],
    one: &[u8],
    other: &[u8],
) -> (Wrote, Option<Next>)
    ensures hears { HearsWrites P.store P.flush_number M.meant db.old tree.now subscriber.now key.now first.now second.now one.now other.now result.0 result.1 db.new }
    ensures follows { FollowsTree P.store M.meant db.old subscriber.now result.1 db.new }
{
    law_hears::<P, M>();
    let insert = put(db, tree, key, first);
    let both = put_both(db, tree, one, other, first);
    let later = put(db, tree, key, second);
    let next = db.next(subscriber);
    let wrote = Wrote {
        insert,
        both,
        later,
    };
    (wrote, next)
}
