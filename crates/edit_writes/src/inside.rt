//! Calls inside a transaction.
ghost use Rattle.std.specs.Prelude.{◌≡◌, Some, IfOk, IfErr, OnOk, OnErr};
ghost use Rattle.std.specs.FinMap.Entries.{put};
ghost use Rattle.sled_nodes.specs.Order.{key_cmp};
ghost use Rattle.tree_transactions.specs.Positions.{ShowsAt, RefusesToShowAt, WritesAt};

use sled_nodes::IVec;
use sled_store::Pages;
use tree_transactions::{TransactionalTree, TransactionalTrees, UnabortableTransactionResult};

// What a read answers. What was before is dropped.
fn now(
    before: Option<IVec>,
    read: UnabortableTransactionResult<Option<IVec>>,
) -> UnabortableTransactionResult<Option<IVec>>
    ensures { result ≡ read }
{
    drop(before);
    read
}

/// Sets the value of a key in a tree, and reads it: the read sees what was written.
pub fn put_and_get<P: Pages>(
    tree: &mut TransactionalTree<'_, P>,
    key: &[u8],
    value: &[u8],
) -> UnabortableTransactionResult<Option<IVec>>
    ensures { IfOk result (λ found. found ≡ Some value.now) }
{
    let before = tree.insert(key, value)?;
    let read = tree.get(key);
    now(before, read)
}

/// Sets the value of a key in the tree at a position.
pub fn insert_at<P: Pages>(
    trees: &mut TransactionalTrees<'_, P>,
    position: usize,
    key: &[u8],
    value: &[u8],
) -> UnabortableTransactionResult<Option<IVec>>
    ensures ok { IfOk result (ShowsAt P.store trees.old position key.now) }
    ensures err { IfErr result (RefusesToShowAt P.store trees.old position key.now) }
    ensures put { OnOk result (WritesAt trees.old position (put key_cmp key.now (Some value.now)) trees.new) }
    ensures kept { OnErr result (trees.new ≡ trees.old) }
{
    trees.insert(position, key, value)
}
