//! A crash of a database, and the number that is found again.
ghost use Rattle.std.specs.Prelude.{◌≡◌, IfOk, IfErr, OnOk, true, false, [], ◌∷◌};
ghost use Rattle.sled_store.specs.Store.{now};
ghost use Rattle.sled_store.specs.Crash.{crash_states};
ghost use Rattle.sled_pages.specs.Memory.{store_of};
ghost use Rattle.tree_laws.specs.Contents.{trees_of};
ghost use Rattle.tree_laws.specs.Crashes.{IsValid};
ghost use Rattle.example_crashes.specs.Crashing.{number_stored};
ghost use Rattle.example_crashes.specs.theory.Raised.{LeavesNumber, MayLeave};
ghost use Rattle.example_crashes.specs.Stopping.{is_left};

use example_parts::number_at;
use sled::{Db, MemPages, crash_pages};
use sled_model::{MergeOperator, Tree};
use sled_nodes::{Error, Result};
use std::alloc::Global;

/// What there is after a crash where the number was not found.
#[derive(Drop)]
pub enum Left<M> {
    /// The pages that the crash left, and why they were not opened. They can be opened again.
    Unopened(MemPages, Error),
    /// The database that was opened on them, and why the number was not read.
    Unread(Db<MemPages, M>, Error),
    /// Nothing, for want of memory.
    Nothing,
}

// The number at a key of a tree.
fn number_of<M: MergeOperator>(db: &Db<MemPages, M>, tree: &Tree, key: &[u8]) -> Result<u64>
    ensures { IfOk result (λ n. n ≡ number_stored (store_of db.now.pages) tree.now.name key.now) }
{
    db.audit();
    let stood = db.get(tree, key)?;
    let number = number_at(&stood);
    drop(stood);
    Ok(number)
}

// The number at a key of the tree of this name, which is opened.
fn number_found<M: MergeOperator>(db: &mut Db<MemPages, M>, name: &[u8], key: &[u8]) -> Result<u64>
    ensures before { IfOk result (λ n. n ≡ number_stored (store_of db.old.pages) name.now key.now) }
    ensures after { IfOk result (λ n. n ≡ number_stored (store_of db.new.pages) name.now key.now) }
{
    db.audit();
    match db.open_tree(name) {
        Ok(tree) => {
            db.audit();
            let number = number_of(db, &tree, key);
            drop(tree);
            number
        }
        Err(e) => Err(e),
    }
}

// Makes all durable.
fn flush<M: MergeOperator>(db: &mut Db<MemPages, M>) -> Result<()>
    ensures keeps { OnOk result (trees_of (now (store_of db.new.pages)) ≡ trees_of (now (store_of db.old.pages))) }
    ensures one { OnOk result (crash_states (store_of db.new.pages) ≡ now (store_of db.new.pages) ∷ []) }
{
    db.audit();
    match db.flush() {
        Ok(_) => {
            db.audit();
            Ok(())
        }
        Err(e) => Err(e),
    }
}

// .. if that is asked for.
fn settle<M: MergeOperator>(db: &mut Db<MemPages, M>, flushes: bool) -> Result<()>
    ensures keeps { OnOk result (trees_of (now (store_of db.new.pages)) ≡ trees_of (now (store_of db.old.pages))) }
    ensures same { OnOk result (flushes ≡ false → db.new ≡ db.old) }
    ensures one { OnOk result (flushes ≡ true → crash_states (store_of db.new.pages) ≡ now (store_of db.new.pages) ∷ []) }
{
    if flushes { flush(db) } else { Ok(()) }
}

// The number before a crash, once all is durable if that is asked for.
pub(crate) fn number_before<M: MergeOperator>(
    db: &mut Db<MemPages, M>,
    tree: &Tree,
    key: &[u8],
    flushes: bool,
) -> Result<u64>
    ensures number { IfOk result (λ n. n ≡ number_stored (store_of db.old.pages) tree.now.name key.now) }
    ensures leaves { IfOk result (λ n. LeavesNumber flushes (store_of db.old.pages) (store_of db.new.pages) tree.now.name key.now n) }
{
    match settle(db, flushes) {
        Ok(()) => number_of(db, tree, key),
        Err(e) => Err(e),
    }
}

// The number is found in a database that was opened again.
fn found_in<M: MergeOperator>(
    again: Db<MemPages, M>,
    tree: &[u8],
    key: &[u8],
) -> std::result::Result<(u64, Db<MemPages, M>), Left<M>>
    ensures found { IfOk result (λ r. r.0 ≡ number_stored (store_of again.pages) tree.now key.now) }
    ensures reads { IfOk result (λ r. r.0 ≡ number_stored (store_of r.1.pages) tree.now key.now) }
    ensures left { IfErr result is_left }
{
    let mut again = again;
    match number_found(&mut again, tree, key) {
        Ok(found) => Ok((found, again)),
        Err(e) => Err(Left::Unread(again, e)),
    }
}

// What a crash left is opened, and the number is found there.
fn opened_after<M: MergeOperator>(
    alloc: Global,
    left: MemPages,
    tree: &[u8],
    key: &[u8],
    name: &[u8],
) -> std::result::Result<(u64, Db<MemPages, M>), Left<M>>
    requires well { IsValid (now (store_of left)) }
    requires no_group { (now (store_of left)).in_group ≡ false }
    ensures found { IfOk result (λ r. r.0 ≡ number_stored (store_of left) tree.now key.now) }
    ensures reads { IfOk result (λ r. r.0 ≡ number_stored (store_of r.1.pages) tree.now key.now) }
    ensures left { IfErr result is_left }
{
    match Db::open(alloc, left, name) {
        Ok(again) => found_in(again.with_operators(), tree, key),
        Err((pages, e)) => Err(Left::Unopened(pages, e)),
    }
}

// The database crashes, and keeps at most so many of its last actions. What is left is opened again, and the number is found there.
pub(crate) fn found_after<M: MergeOperator>(
    alloc: Global,
    db: Db<MemPages, M>,
    tree: &[u8],
    key: &[u8],
    keep: usize,
    name: &[u8],
) -> std::result::Result<(u64, Db<MemPages, M>), Left<M>>
    ensures found { IfOk result (λ r. MayLeave (store_of db.pages) tree.now key.now r.0) }
    ensures reads { IfOk result (λ r. r.0 ≡ number_stored (store_of r.1.pages) tree.now key.now) }
    ensures left { IfErr result is_left }
{
    match crash_pages(db.into_pages(), keep) {
        Ok(left) => opened_after(alloc, left, tree, key, name),
        Err(e) => {
            drop(e);
            Err(Left::Nothing)
        }
    }
}
