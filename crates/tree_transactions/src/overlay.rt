//! Writes that are kept beside the pages of a tree, and reads through them.
ghost use Rattle.std.specs.Prelude.{◌≡◌, Some, None, OnOk, OnErr, IfOk, IfErr};
ghost use Rattle.std.specs.Option.{option_copied};
ghost use Rattle.std.specs.FinMap.Entries.{find, put};
ghost use Rattle.sled_nodes.specs.Order.{key_cmp};
ghost use Rattle.sled_nodes.specs.declared.error.Error.TheVariants.{NoMemory};
ghost use Rattle.sled_store.specs.Store.{now};
ghost use Rattle.tree_transactions.specs.Ids.{TakesId, LacksId};
ghost use Rattle.tree_transactions.specs.Overlays.{ReadsThrough, RefusesThrough, put_all, PutsSome};

use sled_batch::Batch;
use sled_nodes::texts::NO_ID_SET_ASIDE;
use sled_nodes::{Error, IVec, Pid, Result, clone_value};
use sled_store::Pages;
use std::alloc::Global;
use tree_reads::value_at;

// The overlay's own write of a key, if it has one.
fn own_write(alloc: Global, overlay: &Batch, key: &[u8]) -> Result<Option<Option<IVec>>>
    ensures ok { IfOk result (λ written. written ≡ find key_cmp key.now overlay.now) }
    ensures err { IfErr result (λ e. e ≡ NoMemory) }
{
    let key = IVec::from_slice(alloc, key)?;
    let written = copy_written(overlay.writes().get(&key));
    drop(key);
    written
}

// The same write, if there is one.
fn copy_written(written: Option<&Option<IVec>>) -> Result<Option<Option<IVec>>>
    ensures ok { IfOk result (λ copy. copy ≡ option_copied written.entry) }
    ensures err { IfErr result (λ e. e ≡ NoMemory) }
{
    match written {
        Some(value) => Ok(Some(clone_value(value)?)),
        None => Ok(None),
    }
}

// The value that a key has, as it is read through an overlay.
pub(crate) fn read_through<P: Pages>(
    alloc: Global,
    pages: &P,
    root: Pid,
    overlay: &Batch,
    key: &[u8],
) -> Result<Option<IVec>>
    ensures ok { IfOk result (ReadsThrough (now (P.store pages.now)) root overlay.now key.now) }
    ensures err { IfErr result (RefusesThrough (P.store pages.now) root overlay.now key.now) }
{
    match own_write(alloc, overlay, key) {
        Ok(Some(written)) => Ok(written),
        Ok(None) => value_at(alloc, pages, root, key),
        Err(e) => Err(e),
    }
}

// Writes a key in an overlay, and answers the value that it had, as it is read through that.
pub(crate) fn insert_through<P: Pages>(
    alloc: Global,
    pages: &P,
    root: Pid,
    overlay: &mut Batch,
    key: &[u8],
    value: &[u8],
) -> Result<Option<IVec>>
    ensures ok { IfOk result (ReadsThrough (now (P.store pages.now)) root overlay.old key.now) }
    ensures err { IfErr result (RefusesThrough (P.store pages.now) root overlay.old key.now) }
    ensures put { OnOk result (overlay.new ≡ put key_cmp key.now (Some value.now) overlay.old) }
    ensures kept { OnErr result (overlay.new ≡ overlay.old) }
{
    let stood = read_through(alloc, pages, root, overlay, key)?;
    overlay.insert(alloc, key, value)?;
    Ok(stood)
}

// Takes a key out in an overlay, and answers the value that it had, as it is read through that.
pub(crate) fn remove_through<P: Pages>(
    alloc: Global,
    pages: &P,
    root: Pid,
    overlay: &mut Batch,
    key: &[u8],
) -> Result<Option<IVec>>
    ensures ok { IfOk result (ReadsThrough (now (P.store pages.now)) root overlay.old key.now) }
    ensures err { IfErr result (RefusesThrough (P.store pages.now) root overlay.old key.now) }
    ensures put { OnOk result (overlay.new ≡ put key_cmp key.now None overlay.old) }
    ensures kept { OnErr result (overlay.new ≡ overlay.old) }
{
    let stood = read_through(alloc, pages, root, overlay, key)?;
    overlay.remove(alloc, key)?;
    Ok(stood)
}

// One write of a batch, in an overlay.
fn apply_write(alloc: Global, overlay: &mut Batch, key: &IVec, value: &Option<IVec>) -> Result<()>
    ensures ok { OnOk result (overlay.new ≡ put key_cmp key.now value.now overlay.old) }
    ensures err { IfErr result (λ e. (e ≡ NoMemory) × (overlay.new ≡ overlay.old)) }
{
    match value {
        Some(value) => overlay.insert(alloc, key.as_ref(), value.as_ref()),
        None => overlay.remove(alloc, key.as_ref()),
    }
}

// The writes of a batch in an overlay, in the order of the keys. Refused midway, the earlier ones are there.
pub(crate) fn apply_through(alloc: Global, overlay: &mut Batch, batch: &Batch) -> Result<()>
    ensures ok { OnOk result (overlay.new ≡ put_all batch.now overlay.old) }
    ensures err { IfErr result (λ e. (e ≡ NoMemory) × PutsSome batch.now overlay.old overlay.new) }
{
    for (key, value) in batch.writes().iter() {
        apply_write(alloc, overlay, key, value)?;
    }
    Ok(())
}

// The next of the ids that are set aside: above the greatest that was given, and up to the mark.
pub(crate) fn take_id(greatest: &mut u64, mark: u64) -> Result<u64>
    ensures ok { IfOk result (λ id. TakesId mark greatest.old id greatest.new) }
    ensures err { IfErr result (LacksId mark greatest.old) }
    ensures kept { OnErr result (greatest.new ≡ greatest.old) }
{
    if *greatest >= mark {
        return Err(Error::Unsupported(NO_ID_SET_ASIDE));
    }
    *greatest += 1;
    Ok(*greatest)
}
