//! Nodes, read from bytes.
ghost use Rattle.std.specs.Prelude.{◌≡◌, ◌≤◌, ◌++◌, ℕ, List, length, drop, IfOk, Ok};
ghost use Rattle.sled_nodes.specs.declared.node.Node.{Node};
ghost use Rattle.sled_bytes.specs.Spelling.{node_bytes, FitsBytes};
ghost use Rattle.sled_bytes.specs.Reading.{Gives, Takes, pair_at, pointer_at, each_at, leaf_at, index_at, content_at, node_at};

use crate::fields::{flag_of, number_of, optional_of, string_of};
use crate::refusal::Refusal;
use sled_nodes::{Data, IVec, Index, Leaf, Node, Pid};
use std::alloc::Global;

// Room for so many entries is made at once: a page of a tree has no more. The count in bytes may be any number.
const USUAL: u64 = 33;

#[tactic(auto, unfolding(crate::specs::Reading::pair_at))]
#[inline(always)]
pub fn pair_of(alloc: Global, bytes: &[u8], at: usize) -> Result<((IVec, IVec), usize), Refusal>
    requires place { at ≤ length bytes.now }
    ensures place { IfOk result (λ x. (at ≤ x.1) × (x.1 ≤ length bytes.now)) }
    ensures gives { Takes bytes.now result (pair_at (drop at bytes.now)) }
{
    let (key, at) = string_of(alloc, bytes, at)?;
    let (value, at) = string_of(alloc, bytes, at)?;
    Ok(((key, value), at))
}

#[tactic(auto, unfolding(crate::specs::Reading::pointer_at))]
fn pointer_of(alloc: Global, bytes: &[u8], at: usize) -> Result<((IVec, Pid), usize), Refusal>
    requires place { at ≤ length bytes.now }
    ensures place { IfOk result (λ x. (at ≤ x.1) × (x.1 ≤ length bytes.now)) }
    ensures gives { Takes bytes.now result (pointer_at (drop at bytes.now)) }
{
    let (key, at) = string_of(alloc, bytes, at)?;
    let (pid, at) = number_of(bytes, at)?;
    Ok(((key, Pid(pid)), at))
}

// So many pairs.
fn pairs_of(
    alloc: Global,
    bytes: &[u8],
    from: usize,
    count: u64,
) -> Result<(Vec<(IVec, IVec)>, usize), Refusal>
    requires place { from ≤ length bytes.now }
    ensures place { IfOk result (λ x. (from ≤ x.1) × (x.1 ≤ length bytes.now)) }
    ensures gives { Gives (λ x. (x.0.items, drop x.1 bytes.now)) result (each_at pair_at count (drop from bytes.now)) }
{
    let mut pairs = Vec::with_capacity(alloc, count.min(USUAL) as usize)?;
    let mut at = from;
    'pairs: for _ in 0..count {
        let (pair, behind) = pair_of(alloc, bytes, at)?;
        pairs.push(pair)?;
        at = behind;
    }
    Ok((pairs, at))
}

// So many pointers.
fn pointers_of(
    alloc: Global,
    bytes: &[u8],
    from: usize,
    count: u64,
) -> Result<(Vec<(IVec, Pid)>, usize), Refusal>
    requires place { from ≤ length bytes.now }
    ensures place { IfOk result (λ x. (from ≤ x.1) × (x.1 ≤ length bytes.now)) }
    ensures gives { Gives (λ x. (x.0.items, drop x.1 bytes.now)) result (each_at pointer_at count (drop from bytes.now)) }
{
    let mut pointers = Vec::with_capacity(alloc, count.min(USUAL) as usize)?;
    let mut at = from;
    'pointers: for _ in 0..count {
        let (pointer, behind) = pointer_of(alloc, bytes, at)?;
        pointers.push(pointer)?;
        at = behind;
    }
    Ok((pointers, at))
}

#[tactic(auto, unfolding(crate::specs::Reading::leaf_at))]
fn leaf_of(alloc: Global, bytes: &[u8], at: usize) -> Result<(Data, usize), Refusal>
    requires place { at ≤ length bytes.now }
    ensures place { IfOk result (λ x. (at ≤ x.1) × (x.1 ≤ length bytes.now)) }
    ensures gives { Takes bytes.now result (leaf_at (drop at bytes.now)) }
{
    let (count, at) = number_of(bytes, at)?;
    let (pairs, at) = pairs_of(alloc, bytes, at, count)?;
    match Leaf::from_list(alloc, pairs) {
        Ok(leaf) => Ok((Data::Leaf(leaf), at)),
        Err(e) => {
            drop(e);
            Err(Refusal::NoMemory)
        }
    }
}

#[tactic(auto, unfolding(crate::specs::Reading::index_at))]
fn index_of(alloc: Global, bytes: &[u8], at: usize) -> Result<(Data, usize), Refusal>
    requires place { at ≤ length bytes.now }
    ensures place { IfOk result (λ x. (at ≤ x.1) × (x.1 ≤ length bytes.now)) }
    ensures gives { Takes bytes.now result (index_at (drop at bytes.now)) }
{
    let (count, at) = number_of(bytes, at)?;
    let (pointers, at) = pointers_of(alloc, bytes, at, count)?;
    match Index::from_list(alloc, pointers) {
        Ok(index) => Ok((Data::Index(index), at)),
        Err(e) => {
            drop(e);
            Err(Refusal::NoMemory)
        }
    }
}

#[tactic(auto, unfolding(crate::specs::Reading::content_at))]
fn content_of(alloc: Global, bytes: &[u8], at: usize) -> Result<(Data, usize), Refusal>
    requires place { at ≤ length bytes.now }
    ensures place { IfOk result (λ x. (at ≤ x.1) × (x.1 ≤ length bytes.now)) }
    ensures gives { Takes bytes.now result (content_at (drop at bytes.now)) }
{
    let (is_index, at) = flag_of(bytes, at)?;
    if is_index {
        index_of(alloc, bytes, at)
    } else {
        leaf_of(alloc, bytes, at)
    }
}

/// A node at a place of bytes, and the place behind it.
#[tactic(auto, unfolding(crate::specs::Reading::node_at))]
pub fn node_of(alloc: Global, bytes: &[u8], at: usize) -> Result<(Node, usize), Refusal>
    requires place { at ≤ length bytes.now }
    ensures place { IfOk result (λ x. (at ≤ x.1) × (x.1 ≤ length bytes.now)) }
    ensures gives { Takes bytes.now result (node_at (drop at bytes.now)) }
{
    let (lo, at) = string_of(alloc, bytes, at)?;
    let (hi, at) = string_of(alloc, bytes, at)?;
    let (next, at) = optional_of(bytes, at)?;
    let (merging, at) = flag_of(bytes, at)?;
    let (merging_child, at) = optional_of(bytes, at)?;
    let (content, at) = content_of(alloc, bytes, at)?;
    let node = Node {
        lo,
        hi,
        next,
        merging,
        merging_child,
        content,
    };
    Ok((node, at))
}

/// The node that the bytes begin with, and how many bytes it takes. Refused if they begin with none, with the first flaw from
/// the left, and if there is no memory for it.
///
/// ```
/// let mut bytes = Vec::new(alloc);
/// encode_node(&node, &mut bytes)?;
/// if let Ok((same, taken)) = decode_node(alloc, bytes.as_slice()) {
///     let all = taken == bytes.len(); // Nothing follows it.
/// }
/// ```
pub fn decode_node(alloc: Global, bytes: &[u8]) -> Result<(Node, usize), Refusal>
    // What is read has just these bytes.
    ensures found { IfOk result (λ x. FitsBytes x.0 × (bytes.now ≡ node_bytes x.0 ++ drop x.1 bytes.now)) }
    // What `encode_node` wrote is read again.
    ensures written { (n : Node) (rest : List ℕ) → FitsBytes n → bytes.now ≡ node_bytes n ++ rest → Takes bytes.now result (Ok (n, rest)) }
    ensures taken { IfOk result (λ x. x.1 ≤ length bytes.now) }
    // Why bytes are none.
    ensures gives { Takes bytes.now result (node_at bytes.now) }
{
    node_of(alloc, bytes, 0)
}
