//! What is read of bytes: whether it has the same bytes, or why there is none.
use sled_bytes::{
    Change, Flaw, Refusal, decode_change, decode_changes, decode_node, encode_change, encode_node,
};
use std::alloc::Global;

// Whether a change has these bytes.
fn has_bytes(alloc: Global, change: &Change, bytes: &[u8]) -> bool {
    let mut again = Vec::new(alloc);
    let encoded = encode_change(change, &mut again);
    let is_same = encoded.is_ok() && again.as_slice() == bytes;
    drop(encoded);
    is_same
}

/// Whether bytes are a change that takes all of them, and has these bytes.
pub fn is_change_again(alloc: Global, bytes: &[u8]) -> bool {
    match decode_change(alloc, bytes) {
        Ok((change, taken)) => {
            let is_same = has_bytes(alloc, &change, bytes);
            drop(change);
            is_same && taken == bytes.len()
        }
        Err(e) => {
            drop(e);
            false
        }
    }
}

/// Whether bytes are a node, which has these bytes, and so many behind it.
pub fn is_node_again(alloc: Global, bytes: &[u8], behind: usize) -> bool {
    match decode_node(alloc, bytes) {
        Ok((node, taken)) => {
            let mut again = Vec::new(alloc);
            let encoded = encode_node(&node, &mut again);
            drop(node);
            let is_same = encoded.is_ok() && bytes.starts_with(again.as_slice());
            drop(encoded);
            is_same && taken == again.len() && bytes.len() - taken == behind
        }
        Err(e) => {
            drop(e);
            false
        }
    }
}

// Writes changes one behind the other: whether all were.
fn are_written(changes: &[Change], bytes: &mut Vec<u8>) -> bool {
    for change in changes {
        if encode_change(change, bytes).is_err() {
            return false;
        }
    }
    true
}

/// How many changes bytes are, if all of these have the bytes again.
pub fn many_again(alloc: Global, bytes: &[u8]) -> Option<usize> {
    let changes = decode_changes(alloc, bytes).ok()?;
    let mut again = Vec::new(alloc);
    let is_same = are_written(changes.as_slice(), &mut again) && again.as_slice() == bytes;
    drop(again);
    let count = changes.len();
    drop(changes);
    is_same.then_some(count)
}

/// Why bytes are no changes.
pub fn refusal(alloc: Global, bytes: &[u8]) -> &'static str {
    match decode_changes(alloc, bytes) {
        Ok(changes) => {
            drop(changes);
            "changes"
        }
        Err(Refusal::NoMemory) => "no memory",
        Err(Refusal::Flawed(Flaw::Short)) => "short",
        Err(Refusal::Flawed(Flaw::Unknown)) => "unknown",
    }
}
