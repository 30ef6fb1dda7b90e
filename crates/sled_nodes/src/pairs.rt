//! Pairs of a key and a value, copied; and lists of pairs of a key and something else. One that ascends by key is searched by
//! halves, any other from the front, and what is said holds of both.
ghost use Rattle.std.specs.Prelude.{◌≡◌, ◌≤◌, true, length, IfOk, IfErr, OnOk, OnErr, IfSome};
ghost use Rattle.sled_nodes.specs.declared.error.Error.TheVariants.{NoMemory};
ghost use Rattle.std.specs.FinMap.Entries.{put, find};
ghost use Rattle.std.specs.Option.{option_copied};
ghost use Rattle.sled_nodes.specs.theory.Pairs.{Stands, Goes};
ghost use Rattle.sled_nodes.specs.theory.Fronts.{front as front_is};
ghost use Rattle.sled_nodes.specs.Node.{unpointed};
ghost use Rattle.std.specs.FinMap.{is_sorted};
ghost use Rattle.std.specs.List.{insert as insert_at};
ghost use Rattle.std.specs.FinMap.Entries.{where_key};
ghost use Rattle.std.specs.Prelude.{not};
ghost use Rattle.std.specs.Cmp.Lexicographic.{slice_cmp};
ghost use Rattle.std.specs.Ordering.{nat_cmp, eq_by_cmp};

use crate::ascending::search;
use crate::error::Result;
use crate::order::front_of;
use crate::{IVec, Pid};
use std::cmp::Ordering;

// A node of so many entries is split.
const FULL: usize = 17;

// The place of a key: where it is, or where it would go, before the first greater one.
fn place<V>(pairs: &[(IVec, V)], key: &IVec, ascends: bool) -> std::result::Result<usize, usize>
    requires { ascends ≡ true → is_sorted (slice_cmp nat_cmp) pairs.now ≡ true }
    ensures stands { IfOk result (λ i. Stands (slice_cmp nat_cmp) key.now pairs.now i) }
    ensures goes { IfErr result (λ i. Goes (slice_cmp nat_cmp) key.now pairs.now i) }
{
    if ascends {
        return search(pairs, key.as_ref(), key.front());
    }
    for i in 0..pairs.len() {
        match key.cmp(&pairs[i].0) {
            Ordering::Less => return Err(i),
            Ordering::Equal => return Ok(i),
            Ordering::Greater => {}
        }
    }
    Err(pairs.len())
}

/// The same key and value. Refused with `NoMemory` alone.
///
/// ```
/// let (again, same) = clone_pair(&key, &value)?; // Of long ones the bytes are shared.
/// ```
pub fn clone_pair(key: &IVec, value: &IVec) -> Result<(IVec, IVec)>
    ensures ok { IfOk result (λ copy. copy ≡ (key.now, value.now)) }
    ensures err { IfErr result (λ e. e ≡ NoMemory) }
{
    let key = key.clone()?;
    match value.clone() {
        Ok(value) => Ok((key, value)),
        Err(e) => {
            drop(key);
            Err(e)
        }
    }
}

/// The same value, or none. Refused with `NoMemory` alone.
///
/// ```
/// let found = node.get(b"ulm")?;
/// let same = clone_value(&found)?; // Of a long one the bytes are shared.
/// ```
#[inline(always)]
pub fn clone_value(value: &Option<IVec>) -> Result<Option<IVec>>
    ensures ok { IfOk result (λ copy. copy ≡ value.now) }
    ensures err { IfErr result (λ e. e ≡ NoMemory) }
{
    match value {
        Some(value) => Ok(Some(value.clone()?)),
        None => Ok(None),
    }
}

/// How much a list of so many pairs grows by when it is full: by four, and to 17 at most, since a node of so many is split.
pub fn growth(len: usize) -> usize {
    FULL.saturating_sub(len).min(4)
}

/// Puts a pair in its place. `ascends` may be true only if the keys ascend. Refused with `NoMemory` alone, and then unchanged.
///
/// ```
/// let mut pairs = leaf.pairs(alloc)?;
/// put_pair(&mut pairs, key, value, false)?; // The key has this value now, and no other.
/// ```
pub fn put_pair<V: Drop>(
    pairs: &mut Vec<(IVec, V)>,
    key: IVec,
    value: V,
    ascends: bool,
) -> Result<()>
    requires { ascends ≡ true → is_sorted (slice_cmp nat_cmp) pairs.old.items ≡ true }
    ensures ok { OnOk result (pairs.new.items ≡ put (slice_cmp nat_cmp) key value pairs.old.items) }
    ensures err { OnErr result (pairs.new.items ≡ pairs.old.items) }
    ensures cause { IfErr result (λ e. e ≡ NoMemory) }
{
    match place(pairs.as_slice(), &key, ascends) {
        Ok(i) => {
            let old = std::mem::replace(&mut pairs[i].1, value);
            drop(old);
            Ok(())
        }
        Err(i) => {
            if pairs.len() == pairs.capacity() {
                pairs.reserve_exact(growth(pairs.len()))?;
            }
            pairs.insert(i, (key, value))?;
            Ok(())
        }
    }
}

// Takes the pointers to a page out.
pub fn take_pointers(pointers: &mut Vec<(IVec, Pid)>, to: Pid)
    ensures { pointers.new.items ≡ unpointed to pointers.old.items }
{
    pointers.retain(|pointer| pointer.1 != to);
}

/// Takes the pairs of a key out.
///
/// ```
/// let mut pairs = leaf.pairs(alloc)?;
/// remove_key(&mut pairs, &key); // The others stay, in their order.
/// ```
pub fn remove_key<V: Drop>(pairs: &mut Vec<(IVec, V)>, key: &IVec)
    ensures { pairs.new.items ≡ where_key (slice_cmp nat_cmp) (λ x. not (eq_by_cmp (slice_cmp nat_cmp) key.now x)) pairs.old.items }
{
    pairs.retain(|pair| !key.cmp(&pair.0).is_eq());
}

/// The value of a key, whose front this is, in a list that ascends by key.
#[inline(always)]
pub fn value_in<'a, V>(pairs: &'a [(IVec, V)], key: &[u8], front: u64) -> Option<&'a V>
    requires sorted { is_sorted (slice_cmp nat_cmp) pairs.now ≡ true }
    requires front { front ≡ front_is key.now }
    ensures { option_copied result ≡ find (slice_cmp nat_cmp) key.now pairs.now }
{
    match search(pairs, key, front) {
        Ok(i) => Some(&pairs[i].1),
        Err(_) => None,
    }
}

/// The value of a key. A list that ascends by key, as `ascends` says, is searched by halves.
///
/// ```
/// let pairs = leaf.pairs(alloc)?;
/// let value = value_at(pairs.as_slice(), b"ulm", false); // `None` where no pair has the key.
/// ```
#[inline(always)]
pub fn value_at<'a, V>(pairs: &'a [(IVec, V)], key: &[u8], ascends: bool) -> Option<&'a V>
    requires { ascends ≡ true → is_sorted (slice_cmp nat_cmp) pairs.now ≡ true }
    ensures { option_copied result ≡ find (slice_cmp nat_cmp) key.now pairs.now }
{
    if ascends {
        return value_in(pairs, key, front_of(key));
    }
    for pair in pairs {
        if key.cmp(pair.0.as_ref()).is_eq() {
            return Some(&pair.1);
        }
    }
    None
}
