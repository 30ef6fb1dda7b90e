//! The order of byte strings.
//!
//! Most keys differ within their first eight bytes, so these are compared first, at once, as a number: the front of a key. A search takes
//! the front of the key that it looks for once.
ghost use Rattle.std.specs.Prelude.{◌≡◌, ◌<◌, ◌≤◌, ◌-◌, ℕ, length, take, drop, slice_index};
ghost use Rattle.std.specs.Int.{from_be_bytes, w64};
ghost use Rattle.std.specs.Cmp.Lexicographic.{slice_cmp};
ghost use Rattle.std.specs.Ordering.{nat_cmp};
ghost use Rattle.sled_nodes.specs.theory.Fronts.{front as front_is, IsFrontOf};
ghost use Rattle.sled_nodes.specs.Among.{bound_of};

use crate::IVec;
use std::cmp::Ordering;
use std::ops::Bound;

// The first eight of at least so many bytes, as a number, the first the highest.
#[inline(always)]
pub fn first_eight(bytes: &[u8]) -> u64
    requires { 8 ≤ length bytes.now }
    ensures is { result ≡ from_be_bytes w64 (take 8 bytes.now) }
    ensures low { (i : ℕ) → slice_index bytes.now i < 256 }
{
    match bytes.split_first_chunk::<8>() {
        Some((first, _)) => u64::from_be_bytes(*first),
        None => unreachable!(),
    }
}

// The front of a byte string that is shorter than eight.
#[inline(never)]
fn short_front(bytes: &[u8]) -> u64
    requires { length bytes.now < 8 }
    ensures is { result ≡ front_is bytes.now }
    ensures low { (i : ℕ) → slice_index bytes.now i < 256 }
{
    let mut first = [0; 8];
    first[..bytes.len()].copy_from_slice(bytes);
    u64::from_be_bytes(first)
}

/// The front of a byte string.
#[inline(always)]
pub fn front_of(bytes: &[u8]) -> u64
    ensures is { result ≡ front_is bytes.now }
    ensures low { (i : ℕ) → slice_index bytes.now i < 256 }
{
    if bytes.len() < 8 {
        short_front(bytes)
    } else {
        first_eight(bytes)
    }
}

/// The front of what a byte string of eight bytes or more has from a place on.
#[inline(always)]
pub fn front_from(bytes: &[u8], start: usize) -> u64
    requires long { 8 ≤ length bytes.now }
    requires within { start ≤ length bytes.now }
    ensures { result ≡ front_is (drop start bytes.now) }
{
    let left = bytes.len() - start;
    if left >= 8 {
        return first_eight(&bytes[start..]);
    }
    // The last eight bytes, without those before the place.
    let last = first_eight(&bytes[bytes.len() - 8..]);
    last << (8 * (7 - left)) << 8
}

/// The front of a bound's key.
#[inline(always)]
pub fn front_of_bound(bound: Bound<&[u8]>) -> u64
    ensures { IsFrontOf result (bound_of bound.entry) }
{
    match bound {
        Bound::Included(key) => front_of(key),
        Bound::Excluded(key) => front_of(key),
        Bound::Unbounded => 0,
    }
}

// How the last eight bytes of two byte strings of one length compare.
#[inline(always)]
fn compare_last(a: &[u8], b: &[u8]) -> Ordering
    requires long { 8 ≤ length a.now }
    requires same { length a.now ≡ length b.now }
    ensures { result ≡ slice_cmp nat_cmp (drop (length a.now - 8) a.now) (drop (length b.now - 8) b.now) }
{
    let (end, other_end) = (&a[a.len() - 8..], &b[b.len() - 8..]);
    let (last, other_last) = (first_eight(end), first_eight(other_end));
    if last < other_last {
        return Ordering::Less;
    }
    if other_last < last {
        return Ordering::Greater;
    }
    Ordering::Equal
}

// How two byte strings compare: eight bytes at once as long as both have them. Of two of one length the last eight decide, for the bytes
// before what is left are the same; else it goes byte by byte. It is called if their fronts do not decide.
#[inline(never)]
fn compare_bytes(a: &[u8], b: &[u8]) -> Ordering
    ensures { result ≡ slice_cmp nat_cmp a.now b.now }
{
    let (mut rest, mut other) = (a, b);
    'eights: while rest.len() >= 8 && other.len() >= 8 {
        let (front, other_front) = (first_eight(rest), first_eight(other));
        if front < other_front {
            return Ordering::Less;
        }
        if other_front < front {
            return Ordering::Greater;
        }
        rest = &rest[8..];
        other = &other[8..];
    }
    if a.len() == b.len() && a.len() >= 8 {
        return compare_last(a, b);
    }
    rest.cmp(other)
}

/// How a key compares with another one whose front this is. Of two of the same length that have no more bytes than their fronts these
/// decide, and of two that have at most eight more the last eight bytes do.
#[inline(always)]
pub fn compare_to(key: &IVec, other: &[u8], front: u64) -> Ordering
    requires { front ≡ front_is other.now }
    ensures { result ≡ slice_cmp nat_cmp key.now other.now }
{
    let own = key.front();
    if own < front {
        return Ordering::Less;
    }
    if front < own {
        return Ordering::Greater;
    }
    if key.len() == other.len() {
        if other.len() <= 8 {
            return Ordering::Equal;
        }
        if other.len() <= 16 {
            return compare_last(key.as_ref(), other);
        }
    }
    compare_bytes(key.as_ref(), other)
}

/// How two byte strings compare.
#[inline(always)]
pub fn compare(a: &[u8], b: &[u8]) -> Ordering
    ensures { result ≡ slice_cmp nat_cmp a.now b.now }
{
    if a.len() >= 8 && b.len() >= 8 {
        let (front, other_front) = (first_eight(a), first_eight(b));
        if front < other_front {
            return Ordering::Less;
        }
        if other_front < front {
            return Ordering::Greater;
        }
    }
    compare_bytes(a, b)
}
