//! Several trees inside a transaction, by their positions in its list.
ghost use Rattle.std.specs.Prelude.{◌≡◌, true, Some, None, OnOk, OnErr, IfOk, IfErr};
ghost use Rattle.std.specs.FinMap.Entries.{put};
ghost use Rattle.sled_nodes.specs.Order.{key_cmp};
ghost use Rattle.sled_nodes.specs.declared.error.Error.TheVariants.{NoMemory};
ghost use Rattle.tree_transactions.specs.Ids.{TakesId, LacksId};
ghost use Rattle.tree_transactions.specs.Overlays.{put_all};
ghost use Rattle.tree_transactions.specs.Positions.{ShowsAt, RefusesToShowAt, WritesAt, StopsApplying, tells_no_tree};
ghost use Rattle.tree_transactions.specs.Trees.{RefusedFor};

use crate::errors::{UnabortableTransactionError, UnabortableTransactionResult};
use crate::overlay::{read_through, take_id};
use crate::overlays::Overlays;
use sled_batch::Batch;
use sled_nodes::texts::NO_TREE_AT_THIS_POSITION;
use sled_nodes::{Error, IVec, Pid, Result};
use sled_store::Pages;
use std::alloc::Global;

/// The trees of a list inside a transaction, from position 0 on. Each position has writes of its own, which are kept beside the pages
/// and which its reads see first. A tree that is in the list twice has two positions, of which neither sees the other's writes.
#[derive(Drop)]
pub struct TransactionalTrees<'a, P: Pages> {
    pub(crate) alloc: Global,
    pub(crate) pages: &'a P,
    pub(crate) roots: &'a [Pid],
    // of each position, and there of each key the last write
    pub(crate) overlays: Overlays,
    // the ids above this one and up to the mark are set aside
    pub(crate) greatest_id: u64,
    pub(crate) mark: u64,
    // whether a flush is to follow
    pub(crate) flushes: bool,
}

// Why a call of a tree that is not there is refused.
fn no_tree() -> UnabortableTransactionError
    ensures { RefusedFor tells_no_tree result }
{
    UnabortableTransactionError::Storage(Error::Unsupported(NO_TREE_AT_THIS_POSITION))
}

impl<'a, P: Pages> TransactionalTrees<'a, P> {
    /// The value at a key of the tree at a position, or `None` if it is absent, as the own writes there leave it. Refused with
    /// `Unsupported` if the list has no such position, and as `TransactionalTree::get`.
    ///
    /// ```
    /// trees.insert(0, b"ulm", b"21")?;
    /// let value = trees.get(0, b"ulm")?; // 21, which no page has yet.
    /// ```
    pub fn get(&self, position: usize, key: &[u8]) -> UnabortableTransactionResult<Option<IVec>>
        ensures ok { IfOk result (ShowsAt P.store self.now position key.now) }
        ensures err { IfErr result (RefusesToShowAt P.store self.now position key.now) }
    {
        let Some(root) = self.roots.get(position) else {
            return Err(no_tree());
        };
        let Some(overlay) = self.overlays.at(position) else {
            return Err(no_tree());
        };
        Ok(read_through(self.alloc, self.pages, *root, overlay, key)?)
    }

    /// The key is to have this value in the tree at a position. Answers the one that it had there, as `get` does. Refused as `get` is,
    /// and then nothing is written.
    ///
    /// ```
    /// let before = trees.insert(0, b"ulm", b"21")?;
    /// ```
    pub fn insert(
        &mut self,
        position: usize,
        key: &[u8],
        value: &[u8],
    ) -> UnabortableTransactionResult<Option<IVec>>
        ensures ok { IfOk result (ShowsAt P.store self.old position key.now) }
        ensures err { IfErr result (RefusesToShowAt P.store self.old position key.now) }
        ensures put { OnOk result (WritesAt self.old position (put key_cmp key.now (Some value.now)) self.new) }
        ensures kept { OnErr result (self.new ≡ self.old) }
    {
        let stood = self.get(position, key)?;
        self.overlays.write(self.alloc, position, key, Some(value))?;
        Ok(stood)
    }

    /// The key is to have no value in the tree at a position. Answers the one that it had there, as `get` does. Refused as `get` is, and
    /// then nothing is written.
    ///
    /// ```
    /// if let Some(job) = trees.remove(0, b"ulm")? {
    ///     trees.insert(1, b"ulm", job.as_ref())?; // Moved to the other tree.
    /// }
    /// ```
    pub fn remove(
        &mut self,
        position: usize,
        key: &[u8],
    ) -> UnabortableTransactionResult<Option<IVec>>
        ensures ok { IfOk result (ShowsAt P.store self.old position key.now) }
        ensures err { IfErr result (RefusesToShowAt P.store self.old position key.now) }
        ensures put { OnOk result (WritesAt self.old position (put key_cmp key.now None) self.new) }
        ensures kept { OnErr result (self.new ≡ self.old) }
    {
        let stood = self.get(position, key)?;
        self.overlays.write(self.alloc, position, key, None)?;
        Ok(stood)
    }

    /// The writes of a batch in the tree at a position, in the order of its keys. It reads nothing. Refused with `Unsupported` if the list
    /// has no such position; else with `NoMemory` alone, and then the first of them, but not all, are written.
    ///
    /// ```
    /// batch.insert(alloc, b"ulm", b"21")?;
    /// trees.apply_batch(0, &batch)?;
    /// ```
    pub fn apply_batch(
        &mut self,
        position: usize,
        batch: &Batch,
    ) -> UnabortableTransactionResult<()>
        ensures ok { OnOk result (WritesAt self.old position (put_all batch.now) self.new) }
        ensures err { IfErr result (StopsApplying self.old position batch.now self.new) }
    {
        if position >= self.roots.len() || position >= self.overlays.len() {
            return Err(no_tree());
        }
        Ok(self.overlays.apply(self.alloc, position, batch)?)
    }

    /// Asks for a flush, which follows once the transaction is made; of a list without trees it is passed over.
    ///
    /// ```
    /// trees.flush();
    /// ```
    pub fn flush(&mut self)
        ensures { self.new ≡ record self.old { flushes = true } }
    {
        self.flushes = true;
    }

    /// The next of the ids that were set aside for the transaction. It stays taken, however the transaction ends. If none is left
    /// it is refused with `Unsupported`.
    ///
    /// ```
    /// let id = trees.generate_id()?;
    /// ```
    pub fn generate_id(&mut self) -> Result<u64>
        ensures ok { IfOk result (λ id. TakesId self.old.mark self.old.greatest_id id self.new.greatest_id) }
        ensures err { IfErr result (LacksId self.old.mark self.old.greatest_id) }
        ensures kept { OnErr result (self.new ≡ self.old) }
        ensures rest { self.new ≡ record self.old { greatest_id = self.new.greatest_id } }
    {
        let mark = self.mark;
        take_id(&mut self.greatest_id, mark)
    }
}
