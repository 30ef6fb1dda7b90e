//! The batches of a group.
ghost use Rattle.std.specs.Prelude.{◌≡◌, IfOk, IfErr};
ghost use Rattle.sled_nodes.specs.declared.error.Error.TheVariants.{NoMemory};

use crate::tree::Tree;
use sled_batch::Batch;
use sled_nodes::Result;
use std::alloc::Global;

// The same batch on the same tree.
fn copied_batch(alloc: Global, batch: &(Tree, Batch)) -> Result<(Tree, Batch)>
    ensures ok { IfOk result (λ copy. copy ≡ batch.now) }
    ensures err { IfErr result (λ e. e ≡ NoMemory) }
{
    let tree = batch.0.clone()?;
    match batch.1.clone(alloc) {
        Ok(writes) => Ok((tree, writes)),
        Err(e) => {
            drop(tree);
            Err(e)
        }
    }
}

// The same batches on the same trees.
pub(crate) fn copied_batches(batches: &Vec<(Tree, Batch)>) -> Result<Vec<(Tree, Batch)>>
    ensures ok { IfOk result (λ copy. copy.items ≡ batches.now.items) }
    ensures err { IfErr result (λ e. e ≡ NoMemory) }
{
    let alloc = *batches.allocator();
    let mut copy = Vec::with_capacity(alloc, batches.len())?;
    for batch in batches {
        copy.push(copied_batch(alloc, batch)?)?;
    }
    Ok(copy)
}
