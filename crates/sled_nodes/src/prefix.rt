//! What keys begin with.
ghost use Rattle.std.specs.Prelude.{◌≡◌, ◌≤◌, ◌++◌, [], length, take, drop, ℕ, List, MatchOption, MatchBool, true, false, Some, None, IfOk, IfErr, IfSome};
ghost use Rattle.sled_nodes.specs.declared.error.Error.TheVariants.{NoMemory};
ghost use Rattle.sled_nodes.specs.Order.{Key};
ghost use Rattle.sled_nodes.specs.Prefix.{shared, prefix_of, cut};
ghost use Rattle.sled_nodes.specs.theory.Stripped.{is_up_to_in, is_from_in, IsRestBound, IsFrontBehind};
ghost use Rattle.sled_nodes.specs.theory.Fronts.{front as front_is};
ghost use Rattle.std.specs.declared.ops.Bound.TheVariants.{Unbounded};
ghost use Rattle.sled_nodes.specs.Among.{bound_of, is_up_to as within_upper, is_from as within_lower};

use crate::IVec;
use crate::error::Result;
use crate::held::Held;
use crate::order::{compare, first_eight, front_from, front_of};
use std::alloc::Global;
use std::ops::Bound;

/// How many bytes two byte strings both begin with.
pub fn shared_len(a: &[u8], b: &[u8]) -> usize
    ensures is { result ≡ length (shared a.now b.now) }
    ensures within { result ≤ length a.now }
{
    let most = a.len().min(b.len());
    for i in 0..most {
        if a[i] != b[i] {
            return i;
        }
    }
    most
}

/// Whether two byte strings surely begin with nothing in common.
pub fn is_apart(a: &[u8], b: &[u8]) -> bool
    ensures { result ≡ true → shared a.now b.now ≡ [] }
{
    if a.is_empty() {
        return true;
    }
    if b.is_empty() {
        return true;
    }
    a[0] != b[0]
}

/// How many bytes all keys begin with.
pub fn prefix_len<V>(pairs: &[(IVec, V)]) -> usize
    ensures { result ≡ length (prefix_of pairs.now) }
{
    if pairs.is_empty() {
        return 0;
    }
    let first = pairs[0].0.as_ref();
    let mut count = first.len();
    for i in 1..pairs.len() {
        if count == 0 {
            return 0;
        }
        count = shared_len(&first[..count], pairs[i].0.as_ref());
    }
    count
}

// Whether two byte strings of one length are the same.
#[inline(always)]
fn is_same(a: &[u8], b: &[u8]) -> bool
    requires { length a.now ≡ length b.now }
    ensures { MatchBool result (a.now ≡ b.now) (a.now ≡ b.now → ⊥) }
{
    if a.len() >= 8 {
        return compare(a, b).is_eq();
    }
    for i in 0..a.len() {
        if a[i] != b[i] {
            return false;
        }
    }
    true
}

// Whether a byte string of eight bytes or more begins with one of eight bytes at most, by their fronts.
#[inline(always)]
fn begins_with(key: &[u8], prefix: &IVec) -> bool
    requires long { 8 ≤ length key.now }
    requires some { 1 ≤ length prefix.now }
    requires short { length prefix.now ≤ 8 }
    ensures { MatchBool result (take (length prefix.now) key.now ≡ prefix.now) (take (length prefix.now) key.now ≡ prefix.now → ⊥) }
{
    // The bits behind the bytes of the shorter one.
    let behind = 8 * (8 - prefix.len());
    first_eight(key) >> behind == prefix.front() >> behind
}

/// The key behind a beginning, if it has it.
#[inline(always)]
pub fn rest_of<'a>(prefix: &IVec, key: &'a [u8]) -> Option<&'a [u8]>
    ensures { MatchOption result ((rest : Key) → key.now ≡ prefix.now ++ rest → ⊥) (λ rest. key.now ≡ prefix.now ++ rest.now) }
{
    let count = prefix.len();
    if key.len() < count {
        return None;
    }
    let same = if key.len() >= 8 && 1 <= count && count <= 8 {
        begins_with(key, prefix)
    } else {
        is_same(&key[..count], prefix.as_ref())
    };
    if same { Some(&key[count..]) } else { None }
}

// If this one does not separate the keys with a prefix from one another: none, or no bound.
fn all_or_none<'a>(all: bool) -> Option<Bound<&'a [u8]>>
    ensures { MatchBool all (result ≡ Some Unbounded) (result ≡ None) }
{
    if all { Some(Bound::Unbounded) } else { None }
}

/// The front of what a key has behind so many bytes.
#[inline(always)]
pub fn front_behind(key: &[u8], count: usize) -> u64
    requires { count ≤ length key.now }
    ensures { result ≡ front_is (drop count key.now) }
{
    if key.len() >= 8 {
        front_from(key, count)
    } else {
        front_of(&key[count..])
    }
}

/// The front of what a bound's key has behind so many bytes; of a shorter key any number will do.
#[inline(always)]
pub fn front_of_rest(bound: Bound<&[u8]>, count: usize) -> u64
    ensures { IsFrontBehind result count (bound_of bound.entry) }
{
    match bound {
        Bound::Included(key) if key.len() >= count => front_behind(key, count),
        Bound::Excluded(key) if key.len() >= count => front_behind(key, count),
        _ => 0,
    }
}

/// An upper bound of keys as one of their rests behind a beginning; `None` if no such key is within it.
#[inline(always)]
pub fn upper_behind<'a>(prefix: &IVec, bound: Bound<&'a [u8]>) -> Option<Bound<&'a [u8]>>
    ensures within { (rest : Key) → within_upper (bound_of bound.entry) (prefix.now ++ rest) ≡ is_up_to_in result rest }
    ensures rest { IfSome result (λ rest. IsRestBound prefix.now (bound_of bound.entry) (bound_of rest)) }
{
    match bound {
        Bound::Included(end) => match rest_of(prefix, end) {
            Some(rest) => Some(Bound::Included(rest)),
            None => all_or_none(compare(prefix.as_ref(), end).is_lt()),
        },
        Bound::Excluded(end) => match rest_of(prefix, end) {
            Some(rest) => Some(Bound::Excluded(rest)),
            None => all_or_none(compare(prefix.as_ref(), end).is_lt()),
        },
        Bound::Unbounded => Some(Bound::Unbounded),
    }
}

/// A lower bound of keys as one of their rests behind a beginning; `None` if no such key is within it.
#[inline(always)]
pub fn lower_behind<'a>(prefix: &IVec, bound: Bound<&'a [u8]>) -> Option<Bound<&'a [u8]>>
    ensures within { (rest : Key) → within_lower (bound_of bound.entry) (prefix.now ++ rest) ≡ is_from_in result rest }
    ensures rest { IfSome result (λ rest. IsRestBound prefix.now (bound_of bound.entry) (bound_of rest)) }
{
    match bound {
        Bound::Included(start) => match rest_of(prefix, start) {
            Some(rest) => Some(Bound::Included(rest)),
            None => all_or_none(compare(prefix.as_ref(), start).is_gt()),
        },
        Bound::Excluded(start) => match rest_of(prefix, start) {
            Some(rest) => Some(Bound::Excluded(rest)),
            None => all_or_none(compare(prefix.as_ref(), start).is_gt()),
        },
        Bound::Unbounded => Some(Bound::Unbounded),
    }
}

/// A copy of pairs with so many bytes fewer at the front of each key. Refused with `NoMemory` alone.
pub fn cut_keys<V: Held>(alloc: Global, pairs: &[(IVec, V)], count: usize) -> Result<Vec<(IVec, V)>>
    ensures ok { IfOk result (λ rests. rests.items ≡ cut count pairs.now) }
    ensures err { IfErr result (λ e. e ≡ NoMemory) }
{
    let mut rests = Vec::with_capacity(alloc, pairs.len())?;
    for pair in pairs {
        let key = pair.0.behind(alloc, count)?;
        match pair.1.again() {
            Ok(value) => rests.push((key, value))?,
            Err(e) => {
                drop(key);
                return Err(e);
            }
        }
    }
    Ok(rests)
}

/// Pairs with so many bytes fewer at the front of each key. Their values are moved. Refused with `NoMemory` alone.
pub fn keys_cut<V: Drop>(
    alloc: Global,
    pairs: Vec<(IVec, V)>,
    count: usize,
) -> Result<Vec<(IVec, V)>>
    ensures ok { IfOk result (λ rests. rests.items ≡ cut count pairs.items) }
    ensures err { IfErr result (λ e. e ≡ NoMemory) }
{
    let mut rests = Vec::with_capacity(alloc, pairs.len())?;
    for (key, value) in pairs {
        let rest = key.behind(alloc, count);
        drop(key);
        match rest {
            Ok(rest) => rests.push((rest, value))?,
            Err(e) => {
                drop(value);
                return Err(e);
            }
        }
    }
    Ok(rests)
}
