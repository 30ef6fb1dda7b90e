//! Entries within a bound, in lists that are gone through from the front: those of a foreign node may be out of order. Lists
//! that ascend are searched by halves.
ghost use Rattle.std.specs.Prelude.{◌≡◌, ◌<◌, false, nat_eq, not, length, MatchOption, IfSome};
ghost use Rattle.std.specs.List.{list_any, slice_get};
ghost use Rattle.sled_nodes.specs.Among.{bound_of, is_up_to as within_upper, is_from as within_lower};
ghost use Rattle.sled_nodes.specs.Ranges.{is_in_range, pairs_in};
ghost use Rattle.sled_nodes.specs.theory.Places.{IsFirstAt, IsLastAt, IsPlaceOf};

use crate::order::{compare, compare_to, front_of};
use crate::{IVec, Pid};
use std::ops::Bound;

/// Whether a key is within an upper bound.
///
/// ```
/// let is_before = is_up_to(b"ulm", Bound::Excluded(b"weil")); // `true`.
/// ```
#[inline(always)]
#[tactic(auto, unfolding(crate::specs::Order::key_cmp))]
pub fn is_up_to(key: &[u8], bound: Bound<&[u8]>) -> bool
    ensures { result ≡ within_upper (bound_of bound.entry) key.now }
{
    match bound {
        Bound::Included(end) => compare(key, end).is_le(),
        Bound::Excluded(end) => compare(key, end).is_lt(),
        Bound::Unbounded => true,
    }
}

/// The same of a byte string, whose first bytes are read in place.
///
/// ```
/// let is_behind = !key_is_up_to(&node.hi, Bound::Included(b"ulm")); // The node ends behind the key.
/// ```
#[inline(always)]
#[tactic(auto, unfolding(crate::specs::Order::key_cmp))]
pub fn key_is_up_to(key: &IVec, bound: Bound<&[u8]>) -> bool
    ensures { result ≡ within_upper (bound_of bound.entry) key.now }
{
    match bound {
        Bound::Included(end) => compare_to(key, end, front_of(end)).is_le(),
        Bound::Excluded(end) => compare_to(key, end, front_of(end)).is_lt(),
        Bound::Unbounded => true,
    }
}

/// Whether a key is within a lower bound.
///
/// ```
/// let is_behind = is_from(b"ulm", Bound::Excluded(b"weil")); // `false`.
/// ```
#[inline(always)]
#[tactic(auto, unfolding(crate::specs::Order::key_cmp))]
pub fn is_from(key: &[u8], bound: Bound<&[u8]>) -> bool
    ensures { result ≡ within_lower (bound_of bound.entry) key.now }
{
    match bound {
        Bound::Included(start) => compare(key, start).is_ge(),
        Bound::Excluded(start) => compare(key, start).is_gt(),
        Bound::Unbounded => true,
    }
}

// The place of the last pair whose key is within an upper bound.
pub fn last_place<V>(pairs: &[(IVec, V)], bound: Bound<&[u8]>) -> Option<usize>
    ensures { MatchOption result (list_any (λ e. within_upper (bound_of bound.entry) e.0) pairs.now ≡ false) (IsLastAt (λ e. within_upper (bound_of bound.entry) e.0) pairs.now) }
{
    let mut found = None;
    for i in 0..pairs.len() {
        if is_up_to(pairs[i].0.as_ref(), bound) {
            found = Some(i);
        }
    }
    found
}

// The place of the first pair whose key is within a lower bound.
pub fn first_place<V>(pairs: &[(IVec, V)], bound: Bound<&[u8]>) -> Option<usize>
    ensures { MatchOption result (list_any (λ e. within_lower (bound_of bound.entry) e.0) pairs.now ≡ false) (IsFirstAt (λ e. within_lower (bound_of bound.entry) e.0) pairs.now) }
{
    for i in 0..pairs.len() {
        if is_from(pairs[i].0.as_ref(), bound) {
            return Some(i);
        }
    }
    None
}

// Whether a key is within two bounds.
fn is_within(key: &[u8], lo: Bound<&[u8]>, hi: Bound<&[u8]>) -> bool
    ensures { result ≡ is_in_range (record { lo = bound_of lo.entry; hi = bound_of hi.entry; back = false }) key.now }
{
    is_from(key, lo) && is_up_to(key, hi)
}

/// How many pairs have a key within two bounds.
pub fn count_within(pairs: &[(IVec, IVec)], lo: Bound<&[u8]>, hi: Bound<&[u8]>) -> usize
    ensures { result ≡ length (pairs_in (record { lo = bound_of lo.entry; hi = bound_of hi.entry; back = false }) pairs.now) }
{
    let mut count = 0;
    for i in 0..pairs.len() {
        if is_within(pairs[i].0.as_ref(), lo, hi) {
            count += 1;
        }
    }
    count
}

// The place of the pair that is at a place of those within two bounds, from the front.
fn place_up(
    pairs: &[(IVec, IVec)],
    lo: Bound<&[u8]>,
    hi: Bound<&[u8]>,
    place: usize,
) -> Option<usize>
    ensures { IsPlaceOf (slice_get (pairs_in (record { lo = bound_of lo.entry; hi = bound_of hi.entry; back = false }) pairs.now) place) pairs.now result }
{
    let mut count = 0;
    for i in 0..pairs.len() {
        if is_within(pairs[i].0.as_ref(), lo, hi) {
            if count == place {
                return Some(i);
            }
            count += 1;
        }
    }
    None
}

// The same, from the front or from the back.
pub fn place_within(
    pairs: &[(IVec, IVec)],
    lo: Bound<&[u8]>,
    hi: Bound<&[u8]>,
    back: bool,
    place: usize,
) -> Option<usize>
    ensures { IsPlaceOf (slice_get (pairs_in (record { lo = bound_of lo.entry; hi = bound_of hi.entry; back = back }) pairs.now) place) pairs.now result }
{
    if !back {
        return place_up(pairs, lo, hi, place);
    }
    let count = count_within(pairs, lo, hi);
    if place < count {
        place_up(pairs, lo, hi, count - 1 - place)
    } else {
        None
    }
}

// The place of the first pointer to a page.
pub fn place_of(pointers: &[(IVec, Pid)], to: Pid) -> Option<usize>
    ensures { MatchOption result (list_any (λ e. nat_eq e.1 to) pointers.now ≡ false) (IsFirstAt (λ e. nat_eq e.1 to) pointers.now) }
{
    for i in 0..pointers.len() {
        if pointers[i].1 == to {
            return Some(i);
        }
    }
    None
}
