//! The removal of all keys within two bounds, as one group.
ghost use Rattle.std.specs.Prelude.{◌≡◌, true, [], IfOk, IfErr};
ghost use Rattle.std.specs.FinMap.Entries.{is_sorted};
ghost use Rattle.sled_nodes.specs.Among.{bound_of};
ghost use Rattle.sled_nodes.specs.Order.{key_cmp};
ghost use Rattle.tree_reads.specs.Ranges.{pairs_within};
ghost use Rattle.tree_reads.specs.Walk.{RefusesWalk, once};
ghost use Rattle.sled.specs.Reads.{ReadsMap, RefusesReading};
ghost use Rattle.sled.specs.Removals.{removals};

use crate::db::Db;
use sled_batch::Batch;
use sled_model::{MergeOperator, Tree};
use sled_nodes::Result;
use sled_store::Pages;
use std::alloc::Global;
use std::iter::Iterator;
use std::ops::Bound;
use tree_reads::Iter;

// The removals of the keys that are still to come of a range, which has ended only if none is.
fn removals_of<P: Pages>(alloc: Global, pairs: &mut Iter<'_, P>) -> Result<Batch>
    requires ended { pairs.old.ended ≡ true → pairs.old.pairs ≡ [] }
    requires rises { is_sorted key_cmp pairs.old.pairs ≡ true }
    ensures ok { IfOk result (λ batch. batch ≡ removals pairs.old.pairs) }
    ensures err { IfErr result (RefusesWalk once (P.store pairs.old.pages) pairs.old.root) }
{
    let mut batch = Batch::default(alloc);
    while let Some(pair) = pairs.next() {
        let (key, value) = match pair {
            Ok(pair) => pair,
            Err(e) => {
                drop(batch);
                return Err(e);
            }
        };
        drop(value);
        let removed = batch.remove(alloc, key.as_ref());
        drop(key);
        if let Err(e) = removed {
            drop(batch);
            return Err(e);
        }
    }
    Ok(batch)
}

impl<P: Pages, M: MergeOperator> Db<P, M> {
    ghost use Rattle.sled.specs.Values.{db_state};
    ghost use Rattle.sled.specs.Groups.{GroupRefused, IsQuietGroup};
    ghost use Rattle.sled.specs.Removals.{range_group, RangeRemoved};
    ghost use Rattle.sled.specs.Wholes.{RefusesGroup, leaves_whole_as};
    ghost use Rattle.sled.specs.ManyKeys.{RemovesWithin};

    // The removals of the keys of a tree within two bounds.
    fn removals(&self, tree: &Tree, lo: Bound<&[u8]>, hi: Bound<&[u8]>) -> Result<Batch>
        ensures ok { IfOk result (λ batch. ReadsMap P.store M.meant self.now tree.now (λ map. batch ≡ removals (pairs_within (bound_of lo.entry) (bound_of hi.entry) map))) }
        ensures err { IfErr result (RefusesReading P.store M.meant self.now tree.now once) }
    {
        self.audit();
        let mut pairs = match self.range(tree, lo, hi) {
            Ok(pairs) => pairs,
            Err(e) => return Err(e),
        };
        let batch = removals_of(self.alloc, &mut pairs);
        drop(pairs);
        batch
    }

    /// Removes all keys of a tree within two bounds, all or none, and answers how many there were. Their events are sent in the order of
    /// the keys. If there is none nothing is done.
    ///
    /// The keys are read first, and then their removals are made as one batch. Refused as that batch (`apply_group`): until its group
    /// begins in the store nothing changes, and after that the database is closed.
    ///
    /// ```
    /// // All from bern on and below ulm.
    /// let count = db.remove_range(&tree, Bound::Included(b"bern"), Bound::Excluded(b"ulm"))?;
    /// ```
    pub fn remove_range(&mut self, tree: &Tree, lo: Bound<&[u8]>, hi: Bound<&[u8]>) -> Result<u64>
        ensures ok { IfOk result (λ count. RangeRemoved P.store M.meant self.old tree.now (bound_of lo.entry) (bound_of hi.entry) count self.new) }
        ensures err { IfErr result (λ e. GroupRefused P.store M.meant self.old (range_group P.store M.meant self.old tree.now (bound_of lo.entry) (bound_of hi.entry)) e self.new) }
        ensures quiet { IsQuietGroup P.store M.meant self.old (range_group P.store M.meant self.old tree.now (bound_of lo.entry) (bound_of hi.entry)) self.new }
        ensures changes { IfOk result (λ count. RemovesWithin P.store M.meant self.old tree.now (bound_of lo.entry) (bound_of hi.entry) count self.new) }
        ensures refuses { IfErr result (λ e. RefusesGroup P.store M.meant self.old (range_group P.store M.meant self.old tree.now (bound_of lo.entry) (bound_of hi.entry)) e self.new) }
        ensures leaves { leaves_whole_as P.store M.meant result self.old self.new }
    {
        self.audit();
        let batch = match self.removals(tree, lo, hi) {
            Ok(batch) => batch,
            Err(e) => return Err(e),
        };
        let count = batch.len() as u64;
        match self.apply_batch(tree, batch) {
            Ok(()) => Ok(count),
            Err(e) => Err(e),
        }
    }
}
