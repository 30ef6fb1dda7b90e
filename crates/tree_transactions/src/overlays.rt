//! What was written of each tree of a list.
ghost use Rattle.std.specs.Prelude.{◌≡◌, ◌<◌, [], length, slice_get, replicate, Some, None, OnOk, OnErr, IfOk, IfErr};
ghost use Rattle.std.specs.Option.{option_copied, option_map};
ghost use Rattle.std.specs.FinMap.Entries.{put};
ghost use Rattle.sled_nodes.specs.Order.{key_cmp};
ghost use Rattle.sled_nodes.specs.declared.error.Error.TheVariants.{NoMemory};
ghost use Rattle.tree_transactions.specs.Overlays.{put_all};
ghost use Rattle.tree_transactions.specs.Changes.{ChangesAt, ChangesSomeAt};

use crate::overlay::apply_through;
use sled_batch::Batch;
use sled_nodes::Result;
use std::alloc::Global;
use std::marker::Model;

/// What a transaction writes of each tree of its list: a batch for each position.
pub struct Overlays {
    batches: Vec<Batch>,
}

// By hand, so that each function that drops these cites this, and does not prove again how its parts are dropped.
impl Drop for Overlays {
    fn drop(self) {
        let Overlays { batches } = self;
        drop(batches);
    }
}

impl Model for Overlays {
    ghost use Rattle.std.specs.Prelude.{List};
    ghost use Rattle.sled_batch.specs.Batch.{Writes};

    ghost Value = { List Writes };

    ghost view = { λ o. o.batches.items };
}

impl Overlays {
    // So many positions at which nothing is written.
    pub(crate) fn fresh(alloc: Global, count: usize) -> Result<Overlays>
        ensures ok { IfOk result (λ fresh. fresh ≡ replicate count []) }
        ensures err { IfErr result (λ e. e ≡ NoMemory) }
    {
        let mut batches = Vec::new(alloc);
        for _ in 0..count {
            batches.push(Batch::default(alloc))?;
        }
        Ok(Overlays { batches })
    }

    // How many positions there are.
    pub(crate) fn len(&self) -> usize
        ensures { result ≡ length self.now }
    {
        self.batches.len()
    }

    // What is written at a position.
    pub(crate) fn at(&self, position: usize) -> Option<&Batch>
        ensures { option_copied result ≡ slice_get self.now position }
    {
        self.batches.get(position)
    }

    // One write more at a position. Refused, nothing changes.
    pub(crate) fn write(
        &mut self,
        alloc: Global,
        position: usize,
        key: &[u8],
        value: Option<&[u8]>,
    ) -> Result<()>
        requires { position < length self.old }
        ensures ok { OnOk result (ChangesAt self.old position (put key_cmp key.now (option_map (λ v. v.now) value.entry)) self.new) }
        ensures err { IfErr result (λ e. e ≡ NoMemory) }
        ensures kept { OnErr result (self.new ≡ self.old) }
    {
        let overlay = &mut self.batches[position];
        match value {
            Some(value) => overlay.insert(alloc, key, value),
            None => overlay.remove(alloc, key),
        }
    }

    // The writes of a batch more at a position. Refused midway, the earlier ones are there.
    pub(crate) fn apply(&mut self, alloc: Global, position: usize, batch: &Batch) -> Result<()>
        requires { position < length self.old }
        ensures ok { OnOk result (ChangesAt self.old position (put_all batch.now) self.new) }
        ensures err { IfErr result (λ e. e ≡ NoMemory) }
        ensures some { OnErr result (ChangesSomeAt self.old position batch.now self.new) }
    {
        apply_through(alloc, &mut self.batches[position], batch)
    }

    /// The batches, in the order of the list.
    ///
    /// ```
    /// let batches = overlays.into_batches();
    /// ```
    pub fn into_batches(self) -> Vec<Batch>
        ensures { result.items ≡ self }
    {
        let Overlays { batches } = self;
        batches
    }
}
