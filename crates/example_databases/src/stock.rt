//! A stock in two trees: a table that has the place of each item, and an index that has the items of each place. Each change is a group
//! over both, so that they agree after every call and after every crash, even if a change is refused midway.
ghost use Rattle.std.specs.Prelude.{◌≡◌, ◌≢◌, false, [], ◌∷◌, IfOk, OnOk, OnErr};
ghost use Rattle.std.specs.Option.{option_copied};
ghost use Rattle.sled_nodes.specs.Order.{Key};
ghost use Rattle.sled_store.specs.Store.{now};
ghost use Rattle.sled_pages.specs.Memory.{store_of};
ghost use Rattle.tree_laws.specs.Contents.{trees_of};
ghost use Rattle.tree_laws.specs.Crashes.{IsValid};
ghost use Rattle.sled.specs.Opens.{with_default};
ghost use Rattle.example_databases.specs.Stock.{entry_key, AgreeIn, Agrees, Moves, Stays, Recovers, item_taken, entry_taken, item_put, entry_put};

use ordered_keys::{law_one_to_one, push_text};
use sled::{Batch, Db, crash_pages, empty_pages};
use sled_model::{MergeOperator, Tree};
use sled_nodes::{IVec, Result};
use sled_pages::MemPages;
use sled_store::Pages;
use std::alloc::Global;

/// Opens pages under this name. Two trees that agree there agree in the database.
pub fn open_stock<M: MergeOperator>(
    alloc: Global,
    pages: MemPages,
    name: &[u8],
) -> Result<Db<MemPages, M>>
    requires well { IsValid (now (store_of pages)) }
    requires no_group { (now (store_of pages)).in_group ≡ false }
    ensures agrees { IfOk result (λ db. (table index : Key) → table ≢ index → AgreeIn (trees_of (now (store_of pages))) table index → Agrees (store_of db.pages) table index) }
    ensures maps { IfOk result (λ db. trees_of (now (store_of db.pages)) ≡ with_default (trees_of (now (store_of pages)))) }
{
    match Db::open(alloc, pages, name) {
        Ok(db) => Ok(db.with_operators()),
        Err((pages, e)) => {
            drop(pages);
            Err(e)
        }
    }
}

/// A new database of this name in memory. Any two trees agree there, since none holds a key.
pub fn new_stock<M: MergeOperator>(alloc: Global, name: &[u8]) -> Result<Db<MemPages, M>>
    ensures { IfOk result (λ db. (table index : Key) → table ≢ index → Agrees (store_of db.pages) table index) }
{
    open_stock(alloc, empty_pages(alloc), name)
}

/// Opens the tree of a name, which is empty if the name is new. Two trees that agree do so still, whether this is refused or not.
pub fn open_part<P: Pages, M: MergeOperator>(db: &mut Db<P, M>, name: &[u8]) -> Result<Tree>
    ensures { (table index : Key) → Agrees (P.store db.old.pages) table index → Agrees (P.store db.new.pages) table index }
{
    db.audit();
    match db.open_tree(name) {
        Ok(tree) => Ok(tree),
        Err(e) => Err(e),
    }
}

/// Puts an item at a place, and answers where it was. Refused, it is where it was, or the database is closed: then it is there again in
/// what `recover_stock` makes of it, if all actions are kept.
pub fn put_item<P: Pages, M: MergeOperator>(
    db: &mut Db<P, M>,
    table: &Tree,
    index: &Tree,
    item: &[u8],
    place: &[u8],
) -> Result<Option<IVec>>
    ensures ok { IfOk result (λ from. Agrees (P.store db.old.pages) table.now.name index.now.name → Moves P.store M.meant db.old table.now.name index.now.name item.now from (Some place.now) db.new) }
    ensures err { OnErr result (Agrees (P.store db.old.pages) table.now.name index.now.name → Stays P.store M.meant db.old table.now.name index.now.name db.new) }
{
    change(db, table, index, item, Some(place))
}

/// Takes an item out of the stock, and answers where it was. Refused as `put_item`.
pub fn take_item<P: Pages, M: MergeOperator>(
    db: &mut Db<P, M>,
    table: &Tree,
    index: &Tree,
    item: &[u8],
) -> Result<Option<IVec>>
    ensures ok { IfOk result (λ from. Agrees (P.store db.old.pages) table.now.name index.now.name → Moves P.store M.meant db.old table.now.name index.now.name item.now from None db.new) }
    ensures err { OnErr result (Agrees (P.store db.old.pages) table.now.name index.now.name → Stays P.store M.meant db.old table.now.name index.now.name db.new) }
{
    change(db, table, index, item, None)
}

/// Ends a database, whatever became of its last change, and crashes its pages, of whose last actions so many are kept. Two trees that
/// agreed do so in what is left.
pub fn recover_stock<M: MergeOperator>(
    alloc: Global,
    db: Db<MemPages, M>,
    name: &[u8],
    keep: usize,
) -> Result<Db<MemPages, M>>
    ensures agrees { IfOk result (λ left. (table index : Key) → Agrees (store_of db.pages) table index → Agrees (store_of left.pages) table index) }
    ensures recovers { IfOk result (λ left. Recovers keep (store_of db.pages) (store_of left.pages)) }
{
    let left = crash_pages(db.into_pages(), keep)?;
    open_stock(alloc, left, name)
}

// Moves an item from its place to a place, or to none.
fn change<P: Pages, M: MergeOperator>(
    db: &mut Db<P, M>,
    table: &Tree,
    index: &Tree,
    item: &[u8],
    to: Option<&[u8]>,
) -> Result<Option<IVec>>
    ensures ok { IfOk result (λ from. Agrees (P.store db.old.pages) table.now.name index.now.name → Moves P.store M.meant db.old table.now.name index.now.name item.now from (option_copied to.entry) db.new) }
    ensures err { OnErr result (Agrees (P.store db.old.pages) table.now.name index.now.name → Stays P.store M.meant db.old table.now.name index.now.name db.new) }
{
    db.audit();
    law_one_to_one();
    let from = match db.get(table, item) {
        Ok(from) => from,
        Err(e) => return Err(e),
    };
    let group = match group_of(db.allocator(), table, index, item, &from, to) {
        Ok(group) => group,
        Err(e) => {
            drop(from);
            return Err(e);
        }
    };
    let made = db.apply_group(&group);
    drop(group);
    match made {
        Ok(()) => Ok(from),
        Err(e) => {
            drop(from);
            Err(e)
        }
    }
}

// The writes of a change, of each tree in a batch.
fn group_of(
    alloc: Global,
    table: &Tree,
    index: &Tree,
    item: &[u8],
    from: &Option<IVec>,
    to: Option<&[u8]>,
) -> Result<[(Tree, Batch); 2]>
    ensures { IfOk result (λ group. group ≡ (table.now, item_put item.now (option_copied to.entry) (item_taken item.now from.now [])) ∷ (index.now, entry_put item.now (option_copied to.entry) (entry_taken item.now from.now [])) ∷ []) }
{
    let mut items = Batch::default(alloc);
    let mut entries = Batch::default(alloc);
    if let Err(e) = write_change(alloc, &mut items, &mut entries, item, from, to) {
        drop(items);
        drop(entries);
        return Err(e);
    }
    let table = match table.clone() {
        Ok(table) => table,
        Err(e) => {
            drop(items);
            drop(entries);
            return Err(e);
        }
    };
    match index.clone() {
        Ok(index) => Ok([(table, items), (index, entries)]),
        Err(e) => {
            drop(table);
            drop(items);
            drop(entries);
            Err(e)
        }
    }
}

// Takes the item from its place, and then puts it where it is to be.
fn write_change(
    alloc: Global,
    items: &mut Batch,
    entries: &mut Batch,
    item: &[u8],
    from: &Option<IVec>,
    to: Option<&[u8]>,
) -> Result<()>
    ensures items { OnOk result (items.new ≡ item_put item.now (option_copied to.entry) (item_taken item.now from.now items.old)) }
    ensures entries { OnOk result (entries.new ≡ entry_put item.now (option_copied to.entry) (entry_taken item.now from.now entries.old)) }
{
    if let Some(place) = from {
        let key = key_of_entry(alloc, place.as_ref(), item)?;
        items.remove(alloc, item)?;
        entries.remove(alloc, key.as_slice())?;
    }
    if let Some(place) = to {
        let key = key_of_entry(alloc, place, item)?;
        items.insert(alloc, item, place)?;
        entries.insert(alloc, key.as_slice(), item)?;
    }
    Ok(())
}

// The key of an entry of the index.
fn key_of_entry(alloc: Global, place: &[u8], item: &[u8]) -> Result<Vec<u8>>
    ensures { IfOk result (λ key. key.items ≡ entry_key place.now item.now) }
{
    let mut key = Vec::new(alloc);
    push_text(&mut key, place)?;
    push_text(&mut key, item)?;
    Ok(key)
}
