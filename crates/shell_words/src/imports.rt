//! Imports of pairs into trees by name.

use crate::arguments::value_at;
use crate::table::Verb;
use sled_model::Collection;
use sled_nodes::{IVec, Result, clone_pair};
use std::alloc::Global;

// The pairs that keys and values are in turn.
fn pairs_of(alloc: Global, values: &[Option<IVec>]) -> Result<Vec<(IVec, IVec)>> {
    let mut pairs = Vec::new(alloc);
    let mut rest = values;
    for _ in 0..values.len() {
        let [Some(key), Some(value), others @ ..] = rest else {
            break;
        };
        pairs.push(clone_pair(key, value)?)?;
        rest = others;
    }
    Ok(pairs)
}

// The collection of a type, of its name and its pairs.
fn collection_of(alloc: Global, kind: &[u8], values: &[Option<IVec>]) -> Result<Collection> {
    let kind = Vec::from_slice(alloc, kind)?;
    let name = Vec::from_slice(alloc, value_at(values, 0).unwrap_or(b""))?;
    Ok((kind, name, pairs_of(alloc, behind(values))?))
}

// The values behind the first.
fn behind(values: &[Option<IVec>]) -> &[Option<IVec>] {
    match values {
        [_, rest @ ..] => rest,
        [] => values,
    }
}

// Whether two parts are apart here.
fn is_apart(value: &Option<IVec>) -> bool {
    value.is_none()
}

/// The collections that a line imports: one of the type `tree`, or those of its parts, each behind its type.
pub fn collections_of(
    alloc: Global,
    verb: Verb,
    values: &[Option<IVec>],
) -> Result<Vec<Collection>> {
    let mut collections = Vec::new(alloc);
    if let Verb::Import = verb {
        collections.push(collection_of(alloc, b"tree", values)?)?;
        return Ok(collections);
    }
    for part in values.split(is_apart) {
        let kind = value_at(part, 0).unwrap_or(b"");
        collections.push(collection_of(alloc, kind, behind(part))?)?;
    }
    Ok(collections)
}
