//! The value at a key, and the pairs of a tree that are nearest to a bound.
ghost use Rattle.std.specs.Prelude.{◌≡◌, Some, IfOk, IfErr, IfSome};
ghost use Rattle.std.specs.FinMap.Entries.{find};
ghost use Rattle.sled_nodes.specs.Among.{bound_of, IsSuccessor, IsPredecessor};
ghost use Rattle.sled_nodes.specs.Order.{key_cmp};
ghost use Rattle.sled_store.specs.Store.{now};
ghost use Rattle.std.specs.declared.ops.Bound.TheVariants.{Included};
ghost use Rattle.tree_reads.specs.Walk.{RefusesWalk, GivesUp, once, for_each};
ghost use Rattle.tree_reads.specs.Leaves.{OfContents, Seeks, SeeksBack, SeeksAt, SeeksBackAt, entry_at};
ghost use Rattle.tree_reads.specs.theory.Leaves.{StartsAt};

use crate::MOST_PAGES;
use crate::reads::{Reads, law_given};
use crate::walk::leaf_at;
use sled_nodes::texts::WALK_PASSED_TURNS;
use sled_nodes::{Error, IVec, Pid, Result, is_up_to};
use sled_store::View;
use std::alloc::Global;
use std::mem;
use std::ops::Bound;

/// The value at a key of the tree with this root, or `None` if the key is absent.
pub fn value_at<R: Reads>(alloc: Global, pages: &R, root: Pid, key: &[u8]) -> Result<Option<IVec>>
    ensures ok { IfOk result (λ value. OfContents (now (R.store pages.now)) root (λ pairs. value ≡ find key_cmp key.now pairs)) }
    ensures err { IfErr result (RefusesWalk once (R.store pages.now) root) }
    ensures gives_up { IfErr result (GivesUp (now (R.store pages.now)) root (Included key.now) 0) }
{
    let (leaf, _) = match leaf_at(alloc, pages, root, Bound::Included(key), 0) {
        Ok(found) => found,
        Err(e) => return Err(e),
    };
    match leaf.node.get(key) {
        Ok(value) => {
            drop(leaf);
            Ok(value)
        }
        Err(e) => {
            drop(leaf);
            Err(e)
        }
    }
}

// Where a walk to the first key within a lower bound begins.
fn start_of(lo: Bound<&[u8]>) -> Bound<&[u8]>
    ensures { StartsAt (bound_of lo.entry) (bound_of result) }
{
    match lo {
        Bound::Included(start) => Bound::Included(start),
        Bound::Excluded(start) => Bound::Included(start),
        Bound::Unbounded => Bound::Included(&[]),
    }
}

// The first pair within a lower bound from this leaf on. The leaf at which the search ends comes in place of the one at hand, and `near`
// becomes the pair's place in it, where the next search looks first.
fn first_along<R: Reads>(
    alloc: Global,
    pages: &R,
    root: Pid,
    leaf: &mut View,
    near: &mut usize,
    lo: Bound<&[u8]>,
    looked: u64,
) -> Result<Option<(IVec, IVec)>>
    requires { Seeks (now (R.store pages.now)) root (bound_of lo) leaf.old looked }
    ensures ok { IfOk result (λ found. OfContents (now (R.store pages.now)) root (λ pairs. IsSuccessor (bound_of lo.entry) pairs found)) }
    ensures place { IfOk result (λ found. IfSome found (λ pair. entry_at (Some leaf.new) near.new ≡ Some pair)) }
    ensures err { IfErr result (RefusesWalk once (R.store pages.now) root) }
    ensures kept { Seeks (now (R.store pages.now)) root (bound_of lo.entry) leaf.new 0 }
{
    for count in looked..MOST_PAGES {
        match leaf.node.successor_near(lo, near) {
            Ok(Some(pair)) => return Ok(Some(pair)),
            Ok(None) => {}
            Err(e) => return Err(e),
        }
        let Some(next) = leaf.node.next else {
            return Ok(None);
        };
        let view = match pages.page(alloc, next) {
            Ok(Some(view)) => view,
            Ok(None) => return Err(Error::ReportableBug(WALK_PASSED_TURNS)),
            Err(e) => return Err(e),
        };
        let old = mem::replace(leaf, view);
        drop(old);
    }
    Err(Error::ReportableBug(WALK_PASSED_TURNS))
}

// The first pair within a lower bound, from the leaf at hand on or else from the root. The leaf at which the search ends is at
// hand then.
pub(crate) fn first_at<R: Reads>(
    alloc: Global,
    pages: &R,
    root: Pid,
    hand: &mut Option<View>,
    near: &mut usize,
    lo: Bound<&[u8]>,
) -> Result<Option<(IVec, IVec)>>
    requires { SeeksAt (now (R.store pages.now)) root (bound_of lo) hand.old }
    ensures ok { IfOk result (λ found. OfContents (now (R.store pages.now)) root (λ pairs. IsSuccessor (bound_of lo.entry) pairs found)) }
    ensures place { IfOk result (λ found. IfSome found (λ pair. entry_at hand.new near.new ≡ Some pair)) }
    ensures err { IfErr result (RefusesWalk once (R.store pages.now) root) }
    ensures kept { SeeksAt (now (R.store pages.now)) root (bound_of lo.entry) hand.new }
{
    if let Some(leaf) = hand {
        return first_along(alloc, pages, root, leaf, near, lo, 0);
    }
    law_given(pages);
    let (mut leaf, looked) = match leaf_at(alloc, pages, root, start_of(lo), 0) {
        Ok(found) => found,
        Err(e) => return Err(e),
    };
    let found = first_along(alloc, pages, root, &mut leaf, near, lo, looked);
    let old = mem::replace(hand, Some(leaf));
    drop(old);
    found
}

/// The first pair, of the tree with this root, whose key is within a lower bound.
pub fn first_from<R: Reads>(
    alloc: Global,
    pages: &R,
    root: Pid,
    lo: Bound<&[u8]>,
) -> Result<Option<(IVec, IVec)>>
    ensures ok { IfOk result (λ found. OfContents (now (R.store pages.now)) root (λ pairs. IsSuccessor (bound_of lo.entry) pairs found)) }
    ensures err { IfErr result (RefusesWalk once (R.store pages.now) root) }
{
    let mut hand = None;
    let found = first_at(alloc, pages, root, &mut hand, &mut usize::MAX, lo);
    drop(hand);
    found
}

// The last pair within an upper bound from this leaf back. Each leaf before it is walked to from the root. The leaf at which the
// search ends comes in place of the one at hand, and `near` becomes the pair's place in it, where the next search looks first.
fn last_along<R: Reads>(
    alloc: Global,
    pages: &R,
    root: Pid,
    leaf: &mut View,
    near: &mut usize,
    hi: Bound<&[u8]>,
    looked: u64,
) -> Result<Option<(IVec, IVec)>>
    requires { SeeksBack (now (R.store pages.now)) root (bound_of hi) leaf.old looked }
    ensures ok { IfOk result (λ found. OfContents (now (R.store pages.now)) root (λ pairs. IsPredecessor (bound_of hi.entry) pairs found)) }
    ensures err { IfErr result (RefusesWalk for_each (R.store pages.now) root) }
    ensures kept { SeeksBack (now (R.store pages.now)) root (bound_of hi.entry) leaf.new 0 }
{
    let mut count = looked;
    for walk in 0..MOST_PAGES {
        match leaf.node.predecessor_near(hi, near) {
            Ok(Some(pair)) => return Ok(Some(pair)),
            Ok(None) => {}
            Err(e) => return Err(e),
        }
        if leaf.node.lo.len() == 0 {
            return Ok(None);
        }
        let before = Bound::Excluded(leaf.node.lo.as_ref());
        let (view, more) = match leaf_at(alloc, pages, root, before, count) {
            Ok(found) => found,
            Err(e) => return Err(e),
        };
        count = more;
        let old = mem::replace(leaf, view);
        drop(old);
    }
    Err(Error::ReportableBug(WALK_PASSED_TURNS))
}

// The last pair within an upper bound, from the leaf at hand back or else from the root. The leaf at which the search ends is
// at hand then.
pub(crate) fn last_at<R: Reads>(
    alloc: Global,
    pages: &R,
    root: Pid,
    hand: &mut Option<View>,
    near: &mut usize,
    hi: Bound<&[u8]>,
) -> Result<Option<(IVec, IVec)>>
    requires { SeeksBackAt (now (R.store pages.now)) root (bound_of hi) hand.old }
    ensures ok { IfOk result (λ found. OfContents (now (R.store pages.now)) root (λ pairs. IsPredecessor (bound_of hi.entry) pairs found)) }
    ensures err { IfErr result (RefusesWalk for_each (R.store pages.now) root) }
    ensures kept { SeeksBackAt (now (R.store pages.now)) root (bound_of hi.entry) hand.new }
{
    if let Some(leaf) = hand {
        return last_along(alloc, pages, root, leaf, near, hi, 0);
    }
    if !is_up_to(&[], hi) {
        return Ok(None);
    }
    law_given(pages);
    let (mut leaf, looked) = match leaf_at(alloc, pages, root, hi, 0) {
        Ok(found) => found,
        Err(e) => return Err(e),
    };
    let found = last_along(alloc, pages, root, &mut leaf, near, hi, looked);
    let old = mem::replace(hand, Some(leaf));
    drop(old);
    found
}

/// The last pair, of the tree with this root, whose key is within an upper bound.
pub fn last_up_to<R: Reads>(
    alloc: Global,
    pages: &R,
    root: Pid,
    hi: Bound<&[u8]>,
) -> Result<Option<(IVec, IVec)>>
    ensures ok { IfOk result (λ found. OfContents (now (R.store pages.now)) root (λ pairs. IsPredecessor (bound_of hi.entry) pairs found)) }
    ensures err { IfErr result (RefusesWalk for_each (R.store pages.now) root) }
{
    let mut hand = None;
    let found = last_at(alloc, pages, root, &mut hand, &mut usize::MAX, hi);
    drop(hand);
    found
}
