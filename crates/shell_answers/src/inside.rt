//! What parts do inside a transaction, of one tree or of several.

use shell_words::script::{Act, Part};
use sled::{
    TransactionalTree, TransactionalTrees, UnabortableTransactionError,
    UnabortableTransactionResult,
};
use sled_nodes::{IVec, Result};
use sled_store::Pages;

/// What a part answers.
#[derive(Drop)]
pub(crate) enum Answer {
    // The value that is there, or was if the part writes.
    Value(Option<IVec>),
    Id(u64),
    Done,
}

/// Does a part inside a transaction of one tree, which passes its position over.
pub(crate) fn perform_on_tree<P: Pages>(
    tree: &mut TransactionalTree<'_, P>,
    part: &Part,
) -> UnabortableTransactionResult<Answer> {
    let value = match &part.act {
        Act::Get(key) => tree.get(key.as_ref()),
        Act::Insert(key, value) => tree.insert(key.as_ref(), value.as_ref()),
        Act::Remove(key) => tree.remove(key.as_ref()),
        Act::Batch(batch) => return tree.apply_batch(batch).and(Ok(Answer::Done)),
        Act::Flush => {
            tree.flush();
            return Ok(Answer::Done);
        }
        Act::Id => return answer_id(tree.generate_id()),
    };
    value.map(Answer::Value)
}

/// Does a part inside a transaction of several trees.
pub(crate) fn perform_on_trees<P: Pages>(
    trees: &mut TransactionalTrees<'_, P>,
    part: &Part,
) -> UnabortableTransactionResult<Answer> {
    let at = part.position;
    let value = match &part.act {
        Act::Get(key) => trees.get(at, key.as_ref()),
        Act::Insert(key, value) => trees.insert(at, key.as_ref(), value.as_ref()),
        Act::Remove(key) => trees.remove(at, key.as_ref()),
        Act::Batch(batch) => return trees.apply_batch(at, batch).and(Ok(Answer::Done)),
        Act::Flush => {
            trees.flush();
            return Ok(Answer::Done);
        }
        Act::Id => return answer_id(trees.generate_id()),
    };
    value.map(Answer::Value)
}

// What taking an id answers.
fn answer_id(taken: Result<u64>) -> UnabortableTransactionResult<Answer> {
    match taken {
        Ok(id) => Ok(Answer::Id(id)),
        Err(error) => Err(UnabortableTransactionError::Storage(error)),
    }
}
