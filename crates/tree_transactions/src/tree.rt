//! A tree inside a transaction.
ghost use Rattle.std.specs.Prelude.{◌≡◌, true, Some, None, OnOk, OnErr, IfOk, IfErr};
ghost use Rattle.sled_nodes.specs.declared.error.Error.TheVariants.{NoMemory};
ghost use Rattle.tree_transactions.specs.Ids.{TakesId, LacksId};
ghost use Rattle.tree_transactions.specs.Overlays.{put_all, PutsSome};
ghost use Rattle.tree_transactions.specs.Trees.{Shows, RefusesToShow, Records, RefusedFor};

use crate::errors::UnabortableTransactionResult;
use crate::overlay::{apply_through, insert_through, read_through, remove_through, take_id};
use sled_batch::Batch;
use sled_nodes::{IVec, Pid, Result};
use sled_store::Pages;
use std::alloc::Global;

/// A tree inside a transaction. Its writes are kept beside the pages, and its reads see them first.
#[derive(Drop)]
pub struct TransactionalTree<'a, P: Pages> {
    pub(crate) alloc: Global,
    pub(crate) pages: &'a P,
    pub(crate) root: Pid,
    // of each key the last write
    pub(crate) overlay: Batch,
    // the ids above this one and up to the mark are set aside
    pub(crate) greatest_id: u64,
    pub(crate) mark: u64,
    // whether a flush is to follow
    pub(crate) flushes: bool,
}

impl<'a, P: Pages> TransactionalTree<'a, P> {
    /// The value at a key, or `None` if it is absent, as the transaction's own writes leave it. Refused as a read of the database,
    /// and if the transaction has a write of the key with `NoMemory` alone.
    ///
    /// ```
    /// inside.insert(b"ulm", b"21")?;
    /// let value = inside.get(b"ulm")?; // 21, which no page has yet.
    /// ```
    pub fn get(&self, key: &[u8]) -> UnabortableTransactionResult<Option<IVec>>
        ensures ok { IfOk result (Shows P.store self.now key.now) }
        ensures err { IfErr result (RefusesToShow P.store self.now key.now) }
    {
        Ok(read_through(self.alloc, self.pages, self.root, &self.overlay, key)?)
    }

    /// The key is to have this value. Answers the one that it had, as `get` does. Refused as `get` is, and then nothing is written.
    ///
    /// ```
    /// let before = inside.insert(b"ulm", b"21")?;
    /// ```
    pub fn insert(&mut self, key: &[u8], value: &[u8]) -> UnabortableTransactionResult<Option<IVec>>
        ensures ok { IfOk result (Shows P.store self.old key.now) }
        ensures err { IfErr result (RefusesToShow P.store self.old key.now) }
        ensures put { OnOk result (Records self.old key.now (Some value.now) self.new) }
        ensures kept { OnErr result (self.new ≡ self.old) }
    {
        let root = self.root;
        Ok(insert_through(self.alloc, self.pages, root, &mut self.overlay, key, value)?)
    }

    /// The key is to have no value. Answers the one that it had, as `get` does. Refused as `get` is, and then nothing is written.
    ///
    /// ```
    /// if let Some(value) = inside.remove(b"ulm")? {
    ///     inside.insert(b"bern", value.as_ref())?; // Moved there.
    /// }
    /// ```
    pub fn remove(&mut self, key: &[u8]) -> UnabortableTransactionResult<Option<IVec>>
        ensures ok { IfOk result (Shows P.store self.old key.now) }
        ensures err { IfErr result (RefusesToShow P.store self.old key.now) }
        ensures put { OnOk result (Records self.old key.now None self.new) }
        ensures kept { OnErr result (self.new ≡ self.old) }
    {
        let root = self.root;
        Ok(remove_through(self.alloc, self.pages, root, &mut self.overlay, key)?)
    }

    /// The writes of a batch, in the order of its keys. It reads nothing. Refused with `NoMemory` alone, and then the first of
    /// them, but not all, are written.
    ///
    /// ```
    /// batch.insert(alloc, b"ulm", b"21")?;
    /// inside.apply_batch(&batch)?;
    /// ```
    pub fn apply_batch(&mut self, batch: &Batch) -> UnabortableTransactionResult<()>
        ensures ok { OnOk result (self.new ≡ record self.old { overlay = put_all batch.now self.old.overlay }) }
        ensures err { IfErr result (RefusedFor (λ e. e ≡ NoMemory)) }
        ensures some { OnErr result (PutsSome batch.now self.old.overlay self.new.overlay) }
        ensures rest { self.new ≡ record self.old { overlay = self.new.overlay } }
    {
        Ok(apply_through(self.alloc, &mut self.overlay, batch)?)
    }

    /// Asks for a flush, which follows once the transaction is made.
    ///
    /// ```
    /// inside.insert(b"ulm", b"21")?;
    /// inside.flush(); // No crash takes the write back once the transaction has answered `Ok`.
    /// ```
    pub fn flush(&mut self)
        ensures { self.new ≡ record self.old { flushes = true } }
    {
        self.flushes = true;
    }

    /// The next of the ids that were set aside for the transaction. It stays taken, however the transaction ends. If none is left
    /// it is refused with `Unsupported`.
    ///
    /// ```
    /// let id = inside.generate_id()?;
    /// inside.insert(&id.to_be_bytes(), b"21")?;
    /// ```
    pub fn generate_id(&mut self) -> Result<u64>
        ensures ok { IfOk result (λ id. TakesId self.old.mark self.old.greatest_id id self.new.greatest_id) }
        ensures err { IfErr result (LacksId self.old.mark self.old.greatest_id) }
        ensures kept { OnErr result (self.new ≡ self.old) }
        ensures rest { self.new ≡ record self.old { greatest_id = self.new.greatest_id } }
    {
        let mark = self.mark;
        take_id(&mut self.greatest_id, mark)
    }
}
