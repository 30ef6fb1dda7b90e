//! Changes, read from bytes.
ghost use Rattle.std.specs.Prelude.{◌≡◌, ◌≤◌, ◌<◌, ◌++◌, ℕ, List, length, drop, IfOk, Ok};
ghost use Rattle.std.specs.List.{flat_map, All};
ghost use Rattle.sled_bytes.specs.declared.change.Change.{Change};
ghost use Rattle.sled_bytes.specs.Spelling.{change_bytes, FitsChange};
ghost use Rattle.sled_bytes.specs.Reading.{Gives, Takes, given_at, linked_at, freed_at, rooted_at, marked_at, limited_at, change_of_kind, change_at, changes_of};

use crate::change::Change;
use crate::fields::{byte_of, number_of, optional_of, string_of};
use crate::links::link_of;
use crate::reading::node_of;
use crate::refusal::{Flaw, Refusal};
use sled_nodes::{Pid, Version};
use std::alloc::Global;

#[tactic(auto, unfolding(crate::specs::Reading::given_at))]
fn given_of(alloc: Global, bytes: &[u8], at: usize) -> Result<(Change, usize), Refusal>
    requires place { at ≤ length bytes.now }
    ensures place { IfOk result (λ x. (at ≤ x.1) × (x.1 ≤ length bytes.now)) }
    ensures gives { Takes bytes.now result (given_at (drop at bytes.now)) }
{
    let (pid, at) = number_of(bytes, at)?;
    let (version, at) = number_of(bytes, at)?;
    let (node, at) = node_of(alloc, bytes, at)?;
    Ok((Change::Given(Pid(pid), Version(version), node), at))
}

#[tactic(auto, unfolding(crate::specs::Reading::linked_at))]
fn linked_of(alloc: Global, bytes: &[u8], at: usize) -> Result<(Change, usize), Refusal>
    requires place { at ≤ length bytes.now }
    ensures place { IfOk result (λ x. (at ≤ x.1) × (x.1 ≤ length bytes.now)) }
    ensures gives { Takes bytes.now result (linked_at (drop at bytes.now)) }
{
    let (pid, at) = number_of(bytes, at)?;
    let (version, at) = number_of(bytes, at)?;
    let (link, at) = link_of(alloc, bytes, at)?;
    Ok((Change::Linked(Pid(pid), Version(version), link), at))
}

#[tactic(auto, unfolding(crate::specs::Reading::freed_at))]
fn freed_of(bytes: &[u8], at: usize) -> Result<(Change, usize), Refusal>
    requires place { at ≤ length bytes.now }
    ensures place { IfOk result (λ x. (at ≤ x.1) × (x.1 ≤ length bytes.now)) }
    ensures gives { Takes bytes.now result (freed_at (drop at bytes.now)) }
{
    let (pid, at) = number_of(bytes, at)?;
    Ok((Change::Freed(Pid(pid)), at))
}

#[tactic(auto, unfolding(crate::specs::Reading::rooted_at))]
fn rooted_of(alloc: Global, bytes: &[u8], at: usize) -> Result<(Change, usize), Refusal>
    requires place { at ≤ length bytes.now }
    ensures place { IfOk result (λ x. (at ≤ x.1) × (x.1 ≤ length bytes.now)) }
    ensures gives { Takes bytes.now result (rooted_at (drop at bytes.now)) }
{
    let (name, at) = string_of(alloc, bytes, at)?;
    let (root, at) = optional_of(bytes, at)?;
    Ok((Change::Rooted(name, root), at))
}

#[tactic(auto, unfolding(crate::specs::Reading::marked_at))]
fn marked_of(bytes: &[u8], at: usize) -> Result<(Change, usize), Refusal>
    requires place { at ≤ length bytes.now }
    ensures place { IfOk result (λ x. (at ≤ x.1) × (x.1 ≤ length bytes.now)) }
    ensures gives { Takes bytes.now result (marked_at (drop at bytes.now)) }
{
    let (upto, at) = number_of(bytes, at)?;
    Ok((Change::Marked(upto), at))
}

#[tactic(auto, unfolding(crate::specs::Reading::limited_at))]
fn limited_of(bytes: &[u8], at: usize) -> Result<(Change, usize), Refusal>
    requires place { at ≤ length bytes.now }
    ensures place { IfOk result (λ x. (at ≤ x.1) × (x.1 ≤ length bytes.now)) }
    ensures gives { Takes bytes.now result (limited_at (drop at bytes.now)) }
{
    let (pids, at) = number_of(bytes, at)?;
    let (versions, at) = number_of(bytes, at)?;
    Ok((Change::Limited(pids, versions), at))
}

#[tactic(auto, unfolding(crate::specs::Reading::change_of_kind))]
fn of_kind(alloc: Global, kind: u8, bytes: &[u8], at: usize) -> Result<(Change, usize), Refusal>
    requires place { at ≤ length bytes.now }
    ensures place { IfOk result (λ x. (at ≤ x.1) × (x.1 ≤ length bytes.now)) }
    ensures gives { Takes bytes.now result (change_of_kind kind (drop at bytes.now)) }
{
    match kind {
        1 => given_of(alloc, bytes, at),
        2 => linked_of(alloc, bytes, at),
        3 => freed_of(bytes, at),
        4 => rooted_of(alloc, bytes, at),
        5 => Ok((Change::Begun, at)),
        6 => Ok((Change::Sealed, at)),
        7 => marked_of(bytes, at),
        8 => limited_of(bytes, at),
        _ => Err(Refusal::Flawed(Flaw::Unknown)),
    }
}

/// A change at a place of bytes, and the place behind it.
#[tactic(auto, unfolding(crate::specs::Reading::change_at))]
pub fn change_of(alloc: Global, bytes: &[u8], at: usize) -> Result<(Change, usize), Refusal>
    requires place { at ≤ length bytes.now }
    ensures place { IfOk result (λ x. (at < x.1) × (x.1 ≤ length bytes.now)) }
    ensures gives { Takes bytes.now result (change_at (drop at bytes.now)) }
{
    let (kind, behind) = byte_of(bytes, at)?;
    of_kind(alloc, kind, bytes, behind)
}

/// The change that the bytes begin with, and how many bytes it takes. Refused if they begin with none, with the first flaw from
/// the left, and if there is no memory for it.
///
/// ```
/// let mut bytes = Vec::new(alloc);
/// encode_change(&Change::Freed(pid), &mut bytes)?;
/// if let Ok((same, taken)) = decode_change(alloc, bytes.as_slice()) {
///     let all = taken == bytes.len(); // Nothing follows it.
/// }
/// ```
pub fn decode_change(alloc: Global, bytes: &[u8]) -> Result<(Change, usize), Refusal>
    // What is read has just these bytes.
    ensures found { IfOk result (λ x. FitsChange x.0 × (bytes.now ≡ change_bytes x.0 ++ drop x.1 bytes.now)) }
    // What `encode_change` wrote is read again.
    ensures written { (c : Change) (rest : List ℕ) → FitsChange c → bytes.now ≡ change_bytes c ++ rest → Takes bytes.now result (Ok (c, rest)) }
    ensures taken { IfOk result (λ x. x.1 ≤ length bytes.now) }
    // Why bytes are none.
    ensures gives { Takes bytes.now result (change_at bytes.now) }
{
    change_of(alloc, bytes, 0)
}

// All of the bytes as changes.
fn all_of(alloc: Global, bytes: &[u8]) -> Result<Vec<Change>, Refusal>
    ensures { Gives (λ changes. changes.items) result (changes_of bytes.now) }
{
    let mut changes = Vec::new(alloc);
    let mut at = 0;
    'changes: while at < bytes.len() {
        let (change, behind) = change_of(alloc, bytes, at)?;
        changes.push(change)?;
        at = behind;
    }
    Ok(changes)
}

/// The changes that the bytes are, one after the other, all of the bytes. Refused if they are none, with the first flaw from
/// the left, and if there is no memory for them.
///
/// ```
/// match decode_changes(alloc, &[5, 6]) {
///     Ok(changes) => (), // A group begins and ends.
///     Err(Refusal::Flawed(flaw)) => (), // The bytes were changed since they were written.
///     Err(Refusal::NoMemory) => (),
/// }
/// ```
pub fn decode_changes(alloc: Global, bytes: &[u8]) -> Result<Vec<Change>, Refusal>
    // What is read has just these bytes.
    ensures found { IfOk result (λ changes. All FitsChange changes.items × (bytes.now ≡ flat_map change_bytes changes.items)) }
    // What `encode_change` wrote, one after the other, is read again.
    ensures written { (cs : List Change) → All FitsChange cs → bytes.now ≡ flat_map change_bytes cs → Gives (λ changes. changes.items) result (Ok cs) }
    // Why bytes are none.
    ensures gives { Gives (λ changes. changes.items) result (changes_of bytes.now) }
{
    all_of(alloc, bytes)
}
