//! Links, read from bytes.
ghost use Rattle.std.specs.Prelude.{◌≡◌, ◌≤◌, ℕ, length, drop, IfOk};
ghost use Rattle.sled_bytes.specs.Reading.{Takes, set_at, del_at, intention_at, link_of_kind, link_at};

use crate::fields::{byte_of, number_of, string_of};
use crate::reading::pair_of;
use crate::refusal::{Flaw, Refusal};
use sled_nodes::{Link, Pid};
use std::alloc::Global;

#[tactic(auto, unfolding(crate::specs::Reading::set_at))]
fn set_of(alloc: Global, bytes: &[u8], at: usize) -> Result<(Link, usize), Refusal>
    requires place { at ≤ length bytes.now }
    ensures place { IfOk result (λ x. (at ≤ x.1) × (x.1 ≤ length bytes.now)) }
    ensures gives { Takes bytes.now result (set_at (drop at bytes.now)) }
{
    let ((key, value), at) = pair_of(alloc, bytes, at)?;
    Ok((Link::Set(key, value), at))
}

#[tactic(auto, unfolding(crate::specs::Reading::del_at))]
fn del_of(alloc: Global, bytes: &[u8], at: usize) -> Result<(Link, usize), Refusal>
    requires place { at ≤ length bytes.now }
    ensures place { IfOk result (λ x. (at ≤ x.1) × (x.1 ≤ length bytes.now)) }
    ensures gives { Takes bytes.now result (del_at (drop at bytes.now)) }
{
    let (key, at) = string_of(alloc, bytes, at)?;
    Ok((Link::Del(key), at))
}

#[tactic(auto, unfolding(crate::specs::Reading::intention_at))]
fn intention_of(bytes: &[u8], at: usize) -> Result<(Link, usize), Refusal>
    requires place { at ≤ length bytes.now }
    ensures place { IfOk result (λ x. (at ≤ x.1) × (x.1 ≤ length bytes.now)) }
    ensures gives { Takes bytes.now result (intention_at (drop at bytes.now)) }
{
    let (child, at) = number_of(bytes, at)?;
    Ok((Link::ParentMergeIntention(Pid(child)), at))
}

#[tactic(auto, unfolding(crate::specs::Reading::link_of_kind))]
fn of_kind(alloc: Global, kind: u8, bytes: &[u8], at: usize) -> Result<(Link, usize), Refusal>
    requires place { at ≤ length bytes.now }
    ensures place { IfOk result (λ x. (at ≤ x.1) × (x.1 ≤ length bytes.now)) }
    ensures gives { Takes bytes.now result (link_of_kind kind (drop at bytes.now)) }
{
    match kind {
        1 => set_of(alloc, bytes, at),
        2 => del_of(alloc, bytes, at),
        3 => intention_of(bytes, at),
        4 => Ok((Link::ParentMergeConfirm, at)),
        5 => Ok((Link::ChildMergeCap, at)),
        _ => Err(Refusal::Flawed(Flaw::Unknown)),
    }
}

/// A link at a place of bytes, and the place behind it.
#[tactic(auto, unfolding(crate::specs::Reading::link_at))]
pub fn link_of(alloc: Global, bytes: &[u8], at: usize) -> Result<(Link, usize), Refusal>
    requires place { at ≤ length bytes.now }
    ensures place { IfOk result (λ x. (at ≤ x.1) × (x.1 ≤ length bytes.now)) }
    ensures gives { Takes bytes.now result (link_at (drop at bytes.now)) }
{
    let (kind, at) = byte_of(bytes, at)?;
    of_kind(alloc, kind, bytes, at)
}
