//! The pairs of a tree.
use crate::fresh::Fresh;
use crate::seen::Seen;
use sled::Db;
use sled_model::{MergeOperator, Tree};
use sled_nodes::{IVec, Result};
use sled_store::Pages;
use std::alloc::Global;

/// A pair of these bytes.
pub fn pair(alloc: Global, key: &[u8], value: &[u8]) -> Result<(IVec, IVec)> {
    let key = IVec::from_slice(alloc, key)?;
    match IVec::from_slice(alloc, value) {
        Ok(value) => Ok((key, value)),
        Err(e) => {
            drop(key);
            Err(e)
        }
    }
}

/// Whether a key of a tree has this value.
pub fn has<P: Pages, M: MergeOperator>(
    db: &Db<P, M>,
    tree: &Tree,
    key: &[u8],
    value: &[u8],
) -> Result<bool> {
    let found = match db.get(tree, key) {
        Ok(found) => found,
        Err(e) => return Err(e),
    };
    let has = match &found {
        Some(found) => found.as_ref() == value,
        None => false,
    };
    drop(found);
    Ok(has)
}

/// Sees whether a tree has these pairs, and no others.
pub fn has_all(db: &Fresh, tree: &Tree, pairs: &[(&str, &str)], seen: &mut Seen) {
    for (key, value) in pairs {
        seen.told(has(db, tree, key.as_bytes(), value.as_bytes()), true);
    }
    seen.told(db.len(tree), pairs.len());
}

// Whether what was found is this pair.
fn is(found: &(IVec, IVec), pair: (&str, &str)) -> bool {
    found.0.as_ref() == pair.0.as_bytes() && found.1.as_ref() == pair.1.as_bytes()
}

/// Whether these two pairs were found, and no others.
pub fn are(found: &[(IVec, IVec)], first: (&str, &str), second: (&str, &str)) -> bool {
    match found {
        [one, two] => is(one, first) && is(two, second),
        _ => false,
    }
}
