//! A load of many pairs into a tree, a hundred at a time: each batch is one group, which costs less than its pairs by themselves.
ghost use Rattle.std.specs.Prelude.{◌≡◌, OnOk, OnErr};
ghost use Rattle.example_parts.specs.Reads.{maps_now};
ghost use Rattle.example_databases.specs.Batches.{with_pairs, LeavesBatches, written, LoadsBatch, StopsBatch};

use sled::{Batch, Db};
use sled_model::{MergeOperator, Tree};
use sled_nodes::{IVec, Result};
use sled_store::Pages;
use std::alloc::Global;

// How many pairs a batch has at most.
const BATCH_SIZE: usize = 100;

/// Puts these pairs into a tree, one after the other, a hundred in a batch. A crash leaves the pairs of a beginning of the batches, also if
/// one is refused.
pub fn load<P: Pages, M: MergeOperator>(
    db: &mut Db<P, M>,
    tree: &Tree,
    pairs: &[(IVec, IVec)],
) -> Result<()>
    ensures ok { OnOk result (maps_now P.store M.meant db.new ≡ with_pairs tree.now.name pairs.now (maps_now P.store M.meant db.old)) }
    ensures crash { LeavesBatches (P.store db.old.pages) (maps_now P.store M.meant db.old) tree.now.name pairs.now (P.store db.new.pages) }
{
    let mut rest = pairs;
    'batches: while !rest.is_empty() {
        let (first, others) = rest.split_at(BATCH_SIZE.min(rest.len()));
        load_batch(db, tree, first)?;
        rest = others;
    }
    Ok(())
}

// Puts these pairs into a tree in one batch.
fn load_batch<P: Pages, M: MergeOperator>(
    db: &mut Db<P, M>,
    tree: &Tree,
    pairs: &[(IVec, IVec)],
) -> Result<()>
    ensures ok { OnOk result (LoadsBatch P.store M.meant db.old tree.now.name pairs.now db.new) }
    ensures err { OnErr result (StopsBatch P.store db.old db.new) }
{
    db.audit();
    let mut batch = Batch::default(db.allocator());
    if let Err(e) = add_pairs(db.allocator(), &mut batch, pairs) {
        drop(batch);
        return Err(e);
    }
    match db.apply_batch(tree, batch) {
        Ok(()) => {
            db.audit();
            Ok(())
        }
        Err(e) => Err(e),
    }
}

// The writes of these pairs.
fn add_pairs(alloc: Global, batch: &mut Batch, pairs: &[(IVec, IVec)]) -> Result<()>
    ensures { OnOk result (batch.new ≡ written pairs.now batch.old) }
{
    for (key, value) in pairs {
        batch.insert(alloc, key.as_ref(), value.as_ref())?;
    }
    Ok(())
}
