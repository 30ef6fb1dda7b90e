//! Searches by halves, in lists that ascend by key.
ghost use Rattle.std.specs.Prelude.{◌≡◌, ◌≤◌, true, false, not, length, IfOk, IfErr, MatchOption};
ghost use Rattle.std.specs.Cmp.Lexicographic.{slice_cmp};
ghost use Rattle.std.specs.Ordering.{nat_cmp, is_lt, is_gt};
ghost use Rattle.std.specs.List.Sorted.{IsPartitionPoint};
ghost use Rattle.std.specs.List.{list_any, slice_get};
ghost use Rattle.std.specs.FinMap.{is_sorted};
ghost use Rattle.sled_nodes.specs.Among.{bound_of, is_up_to as within_upper, is_from as within_lower};
ghost use Rattle.sled_nodes.specs.Ranges.{pairs_in};
ghost use Rattle.sled_nodes.specs.theory.Places.{IsFirstAt, IsLastAt, IsPlaceOf};
ghost use Rattle.sled_nodes.specs.theory.Rising.{IsHit, IsGap};
ghost use Rattle.sled_nodes.specs.theory.Fronts.{front as front_is, IsFrontOf};

use crate::IVec;
use crate::among::{is_from, is_up_to};
use crate::order::{compare, compare_to, front_of_bound};
use std::cmp::Ordering;
use std::ops::Bound;

/// Whether the keys ascend.
pub fn ascends<V>(pairs: &[(IVec, V)]) -> bool
    ensures { result ≡ true → is_sorted (slice_cmp nat_cmp) pairs.now ≡ true }
{
    for i in 1..pairs.len() {
        if !compare(pairs[i - 1].0.as_ref(), pairs[i].0.as_ref()).is_lt() {
            return false;
        }
    }
    true
}

// No place in a list.
pub const NOWHERE: usize = usize::MAX;

/// Where a key, whose front this is, is or would go.
#[inline(always)]
pub fn search<V>(pairs: &[(IVec, V)], key: &[u8], front: u64) -> std::result::Result<usize, usize>
    requires sorted { is_sorted (slice_cmp nat_cmp) pairs.now ≡ true }
    requires front { front ≡ front_is key.now }
    ensures ok { IfOk result (IsHit (slice_cmp nat_cmp) key.now pairs.now) }
    ensures err { IfErr result (IsGap (slice_cmp nat_cmp) key.now pairs.now) }
{
    let mut low = 0;
    let mut high = pairs.len();
    'halves: while low < high {
        let middle = low + (high - low) / 2;
        match compare_to(&pairs[middle].0, key, front) {
            Ordering::Less => low = middle + 1,
            Ordering::Equal => return Ok(middle),
            Ordering::Greater => high = middle,
        }
    }
    Err(low)
}

// The same. The place at which the key is likely to be is looked at first.
#[inline(always)]
fn search_near<V>(
    pairs: &[(IVec, V)],
    key: &[u8],
    front: u64,
    near: usize,
) -> std::result::Result<usize, usize>
    requires sorted { is_sorted (slice_cmp nat_cmp) pairs.now ≡ true }
    requires front { front ≡ front_is key.now }
    ensures ok { IfOk result (IsHit (slice_cmp nat_cmp) key.now pairs.now) }
    ensures err { IfErr result (IsGap (slice_cmp nat_cmp) key.now pairs.now) }
{
    if near < pairs.len() {
        match compare_to(&pairs[near].0, key, front) {
            Ordering::Equal => return Ok(near),
            _ => {}
        }
    }
    search(pairs, key, front)
}

// How many keys are below a key.
#[inline(always)]
fn count_below<V>(pairs: &[(IVec, V)], key: &[u8], front: u64, near: usize) -> usize
    requires sorted { is_sorted (slice_cmp nat_cmp) pairs.now ≡ true }
    requires front { front ≡ front_is key.now }
    ensures bound { result ≤ length pairs.now }
    ensures parted { IsPartitionPoint (λ e. is_lt (slice_cmp nat_cmp e.0 key.now) ≡ true) (λ e. is_lt (slice_cmp nat_cmp e.0 key.now) ≡ false) pairs.now result }
{
    match search_near(pairs, key, front, near) {
        Ok(i) => i,
        Err(i) => i,
    }
}

// How many keys are below a key, or are that key.
#[inline(always)]
fn count_to<V>(pairs: &[(IVec, V)], key: &[u8], front: u64, near: usize) -> usize
    requires sorted { is_sorted (slice_cmp nat_cmp) pairs.now ≡ true }
    requires front { front ≡ front_is key.now }
    ensures bound { result ≤ length pairs.now }
    ensures parted { IsPartitionPoint (λ e. is_gt (slice_cmp nat_cmp e.0 key.now) ≡ false) (λ e. is_gt (slice_cmp nat_cmp e.0 key.now) ≡ true) pairs.now result }
{
    match search_near(pairs, key, front, near) {
        Ok(i) => i + 1,
        Err(i) => i,
    }
}

/// How many keys are within an upper bound. All others follow them.
#[inline(always)]
pub fn count_up_to<V>(pairs: &[(IVec, V)], bound: Bound<&[u8]>, front: u64, near: usize) -> usize
    requires sorted { is_sorted (slice_cmp nat_cmp) pairs.now ≡ true }
    requires front { IsFrontOf front (bound_of bound) }
    ensures bound { result ≤ length pairs.now }
    ensures parted { IsPartitionPoint (λ e. within_upper (bound_of bound.entry) e.0 ≡ true) (λ e. within_upper (bound_of bound.entry) e.0 ≡ false) pairs.now result }
{
    match bound {
        Bound::Included(end) => count_to(pairs, end, front, near),
        Bound::Excluded(end) => count_below(pairs, end, front, near),
        Bound::Unbounded => pairs.len(),
    }
}

// How many keys are not within a lower bound. All others follow them.
#[inline(always)]
fn count_before<V>(pairs: &[(IVec, V)], bound: Bound<&[u8]>, front: u64, near: usize) -> usize
    requires sorted { is_sorted (slice_cmp nat_cmp) pairs.now ≡ true }
    requires front { IsFrontOf front (bound_of bound) }
    ensures bound { result ≤ length pairs.now }
    ensures parted { IsPartitionPoint (λ e. not (within_lower (bound_of bound.entry) e.0) ≡ true) (λ e. not (within_lower (bound_of bound.entry) e.0) ≡ false) pairs.now result }
{
    match bound {
        Bound::Included(start) => count_below(pairs, start, front, near),
        Bound::Excluded(start) => count_to(pairs, start, front, near),
        Bound::Unbounded => 0,
    }
}

/// The place of the last pair whose key is within an upper bound. The bound's key is looked for at the place `near` first.
#[inline(always)]
pub fn last_place<V>(
    pairs: &[(IVec, V)],
    bound: Bound<&[u8]>,
    front: u64,
    near: usize,
) -> Option<usize>
    requires sorted { is_sorted (slice_cmp nat_cmp) pairs.now ≡ true }
    requires front { IsFrontOf front (bound_of bound) }
    ensures { MatchOption result (list_any (λ e. within_upper (bound_of bound.entry) e.0) pairs.now ≡ false) (IsLastAt (λ e. within_upper (bound_of bound.entry) e.0) pairs.now) }
{
    let count = count_up_to(pairs, bound, front, near);
    if count > 0 { Some(count - 1) } else { None }
}

/// The place of the first pair whose key is within a lower bound. The bound's key is looked for at the place `near` first.
#[inline(always)]
pub fn first_place<V>(
    pairs: &[(IVec, V)],
    bound: Bound<&[u8]>,
    front: u64,
    near: usize,
) -> Option<usize>
    requires sorted { is_sorted (slice_cmp nat_cmp) pairs.now ≡ true }
    requires front { IsFrontOf front (bound_of bound) }
    ensures { MatchOption result (list_any (λ e. within_lower (bound_of bound.entry) e.0) pairs.now ≡ false) (IsFirstAt (λ e. within_lower (bound_of bound.entry) e.0) pairs.now) }
{
    let count = count_before(pairs, bound, front, near);
    if count < pairs.len() {
        Some(count)
    } else {
        None
    }
}

// The place of the pair that is at a place of those within two bounds, from the least key up.
fn place_up(
    pairs: &[(IVec, IVec)],
    lo: Bound<&[u8]>,
    hi: Bound<&[u8]>,
    place: usize,
) -> Option<usize>
    requires { is_sorted (slice_cmp nat_cmp) pairs.now ≡ true }
    ensures { IsPlaceOf (slice_get (pairs_in (record { lo = bound_of lo.entry; hi = bound_of hi.entry; back = false }) pairs.now) place) pairs.now result }
{
    let start = count_before(pairs, lo, front_of_bound(lo), NOWHERE);
    if place < pairs.len() - start && is_up_to(pairs[start + place].0.as_ref(), hi) {
        Some(start + place)
    } else {
        None
    }
}

// The same, from the greatest key down.
fn place_down(
    pairs: &[(IVec, IVec)],
    lo: Bound<&[u8]>,
    hi: Bound<&[u8]>,
    place: usize,
) -> Option<usize>
    requires { is_sorted (slice_cmp nat_cmp) pairs.now ≡ true }
    ensures { IsPlaceOf (slice_get (pairs_in (record { lo = bound_of lo.entry; hi = bound_of hi.entry; back = true }) pairs.now) place) pairs.now result }
{
    let end = count_up_to(pairs, hi, front_of_bound(hi), NOWHERE);
    if place < end && is_from(pairs[end - 1 - place].0.as_ref(), lo) {
        Some(end - 1 - place)
    } else {
        None
    }
}

/// The place of the pair that is at a place of those within two bounds, from the least key up or from the greatest down.
pub fn place_within(
    pairs: &[(IVec, IVec)],
    lo: Bound<&[u8]>,
    hi: Bound<&[u8]>,
    back: bool,
    place: usize,
) -> Option<usize>
    requires { is_sorted (slice_cmp nat_cmp) pairs.now ≡ true }
    ensures { IsPlaceOf (slice_get (pairs_in (record { lo = bound_of lo.entry; hi = bound_of hi.entry; back = back }) pairs.now) place) pairs.now result }
{
    if back {
        place_down(pairs, lo, hi, place)
    } else {
        place_up(pairs, lo, hi, place)
    }
}
