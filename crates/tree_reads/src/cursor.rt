//! Where the pairs of a range go on from the front.
ghost use Rattle.std.specs.Prelude.{◌≡◌, ◌<◌, ◌+◌, ℕ, None, Some, IfOk, IfErr, IfSome, IfNone, OnOk, OnErr, MatchOption};
ghost use Rattle.std.specs.declared.ops.Bound.TheVariants.{Excluded};
ghost use Rattle.sled_nodes.specs.Among.{bound_of};
ghost use Rattle.sled_nodes.specs.declared.error.Error.TheVariants.{NoMemory};
ghost use Rattle.sled_store.specs.Store.{now};
ghost use Rattle.sled_store.specs.State.{nodes_of};
ghost use Rattle.tree_laws.specs.Contents.{pairs_under};
ghost use Rattle.tree_reads.specs.Cursor.{lower, EndsAt};
ghost use Rattle.tree_reads.specs.Leaves.{SeeksAt};
ghost use Rattle.tree_reads.specs.Ranges.{IsRoot};
ghost use Rattle.tree_reads.specs.Walk.{RefusesWalk, once};
ghost use Rattle.tree_reads.specs.theory.Cursor.{GoesOn, UpToIn};
ghost use Rattle.tree_reads.specs.theory.Ranges.{Advances};

use crate::nearest::first_at;
use crate::reads::{Reads, law_given};
use sled_nodes::{IVec, Pid, Result, is_up_to, lend_bound};
use sled_store::View;
use std::alloc::Global;
use std::mem;
use std::ops::Bound;

/// Where a range goes on from the front: within a lower bound or, once a pair was given, behind that pair.
///
/// In a leaf it goes on from place to place, and the lower bound stays behind until the leaf ends.
#[derive(Drop)]
pub struct Cursor {
    /// What is to come is within this bound, if `end` is not set.
    pub lo: Bound<IVec>,
    /// The leaf at which the search is.
    pub leaf: Option<View>,
    /// Where the last pair was found in the leaf.
    pub place: usize,
    /// How many of the leaf's pairs are within the upper bound. If it is set, what is to come is behind the pair at `place`.
    pub end: Option<usize>,
}

impl Cursor {
    /// Within a lower bound, at no leaf yet.
    pub fn within(lo: Bound<IVec>) -> Cursor
        ensures bound { lower result ≡ lo }
        ensures leaf { result.leaf ≡ None }
        ensures end { result.end ≡ None }
    {
        Cursor {
            lo,
            leaf: None,
            place: usize::MAX,
            end: None,
        }
    }

    // The next pair of the leaf, if it is known to be within the upper bound. Refused with `NoMemory` alone, and then unchanged.
    #[inline(always)]
    fn next_here(&mut self) -> Result<Option<(IVec, IVec)>>
        ensures some { IfOk result (λ found. IfSome found (GoesOn self.old self.new)) }
        ensures none { IfOk result (λ found. IfNone found (self.new ≡ self.old)) }
        ensures kept { OnErr result (self.new ≡ self.old) }
        ensures err { IfErr result (λ e. e ≡ NoMemory) }
    {
        let Some(end) = self.end else {
            return Ok(None);
        };
        let Some(leaf) = &self.leaf else {
            return Ok(None);
        };
        let Some(next) = self.place.checked_add(1) else {
            return Ok(None);
        };
        if next >= end {
            return Ok(None);
        }
        match leaf.node.pair_at(next) {
            Ok(Some(pair)) => {
                self.place = next;
                Ok(Some(pair))
            }
            Ok(None) => Ok(None),
            Err(e) => Err(e),
        }
    }

    // The key of the last pair that was given, if the lower bound stayed behind it. Refused with `NoMemory` alone.
    fn key_here(&self) -> Result<Option<IVec>>
        ensures ok { IfOk result (λ found. MatchOption found (lower self.now ≡ self.now.lo) (λ key. lower self.now ≡ Excluded key)) }
        ensures err { IfErr result (λ e. e ≡ NoMemory) }
    {
        let Some(_) = self.end else {
            return Ok(None);
        };
        let Some(leaf) = &self.leaf else {
            return Ok(None);
        };
        match leaf.node.pair_at(self.place) {
            Ok(Some((key, value))) => {
                drop(value);
                Ok(Some(key))
            }
            Ok(None) => Ok(None),
            Err(e) => Err(e),
        }
    }

    /// Moves the lower bound to the last pair that was given. Refused with `NoMemory` alone, and then unchanged.
    pub fn catch_up(&mut self) -> Result<()>
        ensures ok { OnOk result (self.new ≡ record self.old { lo = lower self.old; end = None }) }
        ensures err { OnErr result (self.new ≡ self.old) }
        ensures cause { IfErr result (λ e. e ≡ NoMemory) }
    {
        match self.key_here() {
            Ok(Some(key)) => {
                let old = mem::replace(&mut self.lo, Bound::Excluded(key));
                drop(old);
                self.end = None;
                Ok(())
            }
            Ok(None) => {
                self.end = None;
                Ok(())
            }
            Err(e) => Err(e),
        }
    }
}

// How many pairs of the leaf at hand are within an upper bound.
fn count_up_to(leaf: &Option<View>, hi: Bound<&[u8]>) -> usize
    ensures { UpToIn (bound_of hi.entry) leaf.now result }
{
    match leaf {
        Some(leaf) => leaf.node.count_up_to(hi),
        None => 0,
    }
}

// The next pair of the tree within two bounds, by a search from the leaf at hand on or else from the root.
fn search<R: Reads>(
    alloc: Global,
    pages: &R,
    root: Pid,
    cursor: &mut Cursor,
    hi: Bound<&[u8]>,
) -> Result<Option<(IVec, IVec)>>
    requires root { IsRoot (now (R.store pages.now)) root }
    requires at { SeeksAt (now (R.store pages.now)) root cursor.old.lo cursor.old.leaf }
    requires end { cursor.old.end ≡ None }
    ensures ok { IfOk result (λ found. Advances (pairs_under (nodes_of (now (R.store pages.now))) root) cursor.old.lo (bound_of hi.entry) found (lower cursor.new)) }
    ensures err { IfErr result (λ e. RefusesWalk once (R.store pages.now) root e × (lower cursor.new ≡ cursor.old.lo)) }
    ensures kept { SeeksAt (now (R.store pages.now)) root (lower cursor.new) cursor.new.leaf }
    ensures end { EndsAt (bound_of hi.entry) cursor.new }
{
    law_given(pages);
    let pair = match first_at(
        alloc,
        pages,
        root,
        &mut cursor.leaf,
        &mut cursor.place,
        lend_bound(&cursor.lo),
    ) {
        Ok(Some(pair)) => pair,
        Ok(None) => return Ok(None),
        Err(e) => return Err(e),
    };
    if !is_up_to(pair.0.as_ref(), hi) {
        drop(pair);
        return Ok(None);
    }
    cursor.end = Some(count_up_to(&cursor.leaf, hi));
    Ok(Some(pair))
}

/// The first pair of the tree within two bounds, the lower of which goes on to its key.
#[inline(always)]
pub fn first_within<R: Reads>(
    alloc: Global,
    pages: &R,
    root: Pid,
    cursor: &mut Cursor,
    hi: Bound<&[u8]>,
) -> Result<Option<(IVec, IVec)>>
    requires root { IsRoot (now (R.store pages.now)) root }
    requires at { SeeksAt (now (R.store pages.now)) root (lower cursor.old) cursor.old.leaf }
    requires end { EndsAt (bound_of hi) cursor.old }
    ensures ok { IfOk result (λ found. Advances (pairs_under (nodes_of (now (R.store pages.now))) root) (lower cursor.old) (bound_of hi.entry) found (lower cursor.new)) }
    ensures err { IfErr result (λ e. RefusesWalk once (R.store pages.now) root e × (lower cursor.new ≡ lower cursor.old)) }
    ensures kept { SeeksAt (now (R.store pages.now)) root (lower cursor.new) cursor.new.leaf }
    ensures end { EndsAt (bound_of hi.entry) cursor.new }
{
    law_given(pages);
    match cursor.next_here() {
        Ok(Some(pair)) => return Ok(Some(pair)),
        Ok(None) => {}
        Err(e) => return Err(e),
    }
    match cursor.catch_up() {
        Ok(()) => search(alloc, pages, root, cursor, hi),
        Err(e) => Err(e),
    }
}
