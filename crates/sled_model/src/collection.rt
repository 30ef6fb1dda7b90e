//! Collections, as an export gives them and an import takes them.
ghost use Rattle.std.specs.Prelude.{◌≡◌, IfOk, IfErr};
ghost use Rattle.sled_nodes.specs.declared.error.Error.TheVariants.{NoMemory};
ghost use Rattle.sled_model.specs.Collections.{Content, contents_of};

use sled_nodes::{IVec, Result, clone_pair};

/// What an export has of a tree, and an import makes of one: the type of collection, which is `tree`, the tree's name, and its
/// pairs.
pub type Collection = (Vec<u8>, Vec<u8>, Vec<(IVec, IVec)>);

// The same bytes.
fn copied_bytes(bytes: &Vec<u8>) -> Result<Vec<u8>>
    ensures ok { IfOk result (λ copy. copy.items ≡ bytes.now.items) }
    ensures err { IfErr result (λ e. e ≡ NoMemory) }
{
    Ok(Vec::from_slice(*bytes.allocator(), bytes.as_slice())?)
}

// The same pairs.
fn copied_pairs(pairs: &Vec<(IVec, IVec)>) -> Result<Vec<(IVec, IVec)>>
    ensures ok { IfOk result (λ copy. copy.items ≡ pairs.now.items) }
    ensures err { IfErr result (λ e. e ≡ NoMemory) }
{
    let mut copy = Vec::with_capacity(*pairs.allocator(), pairs.len())?;
    for pair in pairs {
        copy.push(clone_pair(&pair.0, &pair.1)?)?;
    }
    Ok(copy)
}

// The same collection.
fn copied_collection(collection: &Collection) -> Result<Collection>
    ensures ok { IfOk result (λ copy. ◌≡◌ {A = Content} (copy.0.items, copy.1.items, copy.2.items) (collection.now.0.items, collection.now.1.items, collection.now.2.items)) }
    ensures err { IfErr result (λ e. e ≡ NoMemory) }
{
    Ok((
        copied_bytes(&collection.0)?,
        copied_bytes(&collection.1)?,
        copied_pairs(&collection.2)?,
    ))
}

// The same collections.
pub(crate) fn copied_collections(all: &Vec<Collection>) -> Result<Vec<Collection>>
    ensures ok { IfOk result (λ copy. contents_of copy.items ≡ contents_of all.now.items) }
    ensures err { IfErr result (λ e. e ≡ NoMemory) }
{
    let mut copy = Vec::with_capacity(*all.allocator(), all.len())?;
    for collection in all {
        copy.push(copied_collection(collection)?)?;
    }
    Ok(copy)
}
