//! The pairs of a range, from both ends.
ghost use Rattle.std.specs.Prelude.{◌≡◌, true, [], IfOk, IfErr, OnOk};
ghost use Rattle.std.specs.declared.ops.Bound.TheVariants.{Excluded};
ghost use Rattle.sled_nodes.specs.Among.{bound_of};
ghost use Rattle.sled_nodes.specs.Ranges.{is_reversed as ends_before};
ghost use Rattle.sled_store.specs.Store.{now};
ghost use Rattle.sled_store.specs.State.{nodes_of};
ghost use Rattle.sled_nodes.specs.declared.error.Error.TheVariants.{NoMemory};
ghost use Rattle.tree_laws.specs.Contents.{pairs_under};
ghost use Rattle.tree_reads.specs.Walk.{RefusesWalk, for_each};
ghost use Rattle.tree_reads.specs.Leaves.{SeeksBackAt};
ghost use Rattle.tree_reads.specs.Ranges.{pairs_within, IsRoot, TakesFirst, TakesLast, whole, key_alone, value_alone, coming_count};
ghost use Rattle.tree_reads.specs.theory.Ranges.{Retreats, shown_of};

use crate::cursor::{Cursor, first_within};
use crate::nearest::last_at;
use crate::reads::{Reads, law_given};
use sled_nodes::{IVec, Pid, Result, is_from, is_reversed, lend_bound};
use sled_store::View;
use std::alloc::Global;
use std::iter::{DoubleEndedIterator, Iterator};
use std::marker::Model;
use std::mem;
use std::ops::Bound;

// The bound becomes the key, excluded.
fn move_to(bound: &mut Bound<IVec>, key: &IVec) -> Result<()>
    ensures ok { OnOk result (bound.new ≡ Excluded key.now) }
    ensures err { IfErr result (λ e. (e ≡ NoMemory) × (bound.new ≡ bound.old)) }
{
    let key = key.clone()?;
    let old = mem::replace(bound, Bound::Excluded(key));
    drop(old);
    Ok(())
}

// The last pair of the tree within two bounds. The upper one goes on to its key.
fn last_within<R: Reads>(
    alloc: Global,
    pages: &R,
    root: Pid,
    hand: &mut Option<View>,
    near: &mut usize,
    lo: Bound<&[u8]>,
    hi: &mut Bound<IVec>,
) -> Result<Option<(IVec, IVec)>>
    requires root { IsRoot (now (R.store pages.now)) root }
    requires at { SeeksBackAt (now (R.store pages.now)) root hi.old hand.old }
    ensures ok { IfOk result (λ found. Retreats (pairs_under (nodes_of (now (R.store pages.now))) root) (bound_of lo.entry) hi.old found hi.new) }
    ensures err { IfErr result (λ e. RefusesWalk for_each (R.store pages.now) root e × (hi.new ≡ hi.old)) }
    ensures kept { SeeksBackAt (now (R.store pages.now)) root hi.new hand.new }
{
    law_given(pages);
    let pair = match last_at(alloc, pages, root, hand, near, lend_bound(hi)) {
        Ok(Some(pair)) => pair,
        Ok(None) => return Ok(None),
        Err(e) => return Err(e),
    };
    if !is_from(pair.0.as_ref(), lo) {
        drop(pair);
        return Ok(None);
    }
    match move_to(hi, &pair.0) {
        Ok(()) => Ok(Some(pair)),
        Err(e) => {
            drop(pair);
            Err(e)
        }
    }
}

/// The pairs of a tree within two bounds that are still to come, from both ends. After an error nothing comes.
///
/// From the front each leaf is read once. From the back each leaf is walked to from the root.
#[derive(Drop)]
pub struct Iter<'a, R: Reads> {
    alloc: Global,
    pages: &'a R,
    root: Pid,
    // where it goes on from the front
    front: Cursor,
    hi: Bound<IVec>,
    // the leaf at which the search from the back is, and where the last pair was found in it
    back: Option<View>,
    back_place: usize,
    ended: bool,
}

impl<'a, R: Reads> Model for Iter<'a, R> {
    ghost use Rattle.sled_store.specs.Store.{now};
    ghost use Rattle.sled_store.specs.State.{nodes_of};
    ghost use Rattle.tree_laws.specs.Contents.{pairs_under};
    ghost use Rattle.tree_reads.specs.Cursor.{lower, EndsAt};
    ghost use Rattle.tree_reads.specs.Leaves.{SeeksAt, SeeksBackAt};
    ghost use Rattle.tree_reads.specs.Ranges.{pairs_within, Coming, IsRoot};

    ghost Value = { Coming R };

    ghost view = { λ r. record { pages = r.pages.now; root = r.root; pairs = pairs_within (lower r.front) r.hi (pairs_under (nodes_of (now (R.store r.pages.now))) r.root); ended = r.ended } };

    ghost invariant = { λ r. IsRoot (now (R.store r.pages.now)) r.root × SeeksAt (now (R.store r.pages.now)) r.root (lower r.front) r.front.leaf × EndsAt r.hi r.front × SeeksBackAt (now (R.store r.pages.now)) r.root r.hi r.back };
}

/// The pairs of the tree with this root whose keys are within two bounds. It reads no page. If the range starts above its end,
/// or at it and not both are included, the iterator has ended.
pub fn pairs_of<'a, R: Reads>(
    alloc: Global,
    pages: &'a R,
    root: Pid,
    lo: Bound<IVec>,
    hi: Bound<IVec>,
) -> Iter<'a, R>
    requires { IsRoot (now (R.store pages.now)) root }
    ensures is { result ≡ record { pages = pages.now; root = root; pairs = pairs_within lo hi (pairs_under (nodes_of (now (R.store pages.now))) root); ended = ends_before lo hi } }
    ensures none { ends_before lo hi ≡ true → pairs_within lo hi (pairs_under (nodes_of (now (R.store pages.now))) root) ≡ [] }
{
    let ended = is_reversed(lend_bound(&lo), lend_bound(&hi));
    Iter {
        alloc,
        pages,
        root,
        front: Cursor::within(lo),
        hi,
        back: None,
        back_place: usize::MAX,
        ended,
    }
}

impl<'a, R: Reads> Iter<'a, R> {
    /// The keys of the pairs still to come.
    pub fn keys(self) -> Keys<'a, R>
        ensures { result ≡ self.entry }
    {
        Keys { pairs: self }
    }

    /// The values of the pairs still to come.
    pub fn values(self) -> Values<'a, R>
        ensures { result ≡ self.entry }
    {
        Values { pairs: self }
    }
}

impl<'a, R: Reads> Iterator for Iter<'a, R> {
    type Item = Result<(IVec, IVec)>;

    ghost next_gives = { TakesFirst R.store whole };

    ghost remaining = { coming_count };

    fn next(&mut self) -> Option<Result<(IVec, IVec)>> {
        if self.ended {
            return None;
        }
        match first_within(
            self.alloc,
            self.pages,
            self.root,
            &mut self.front,
            lend_bound(&self.hi),
        ) {
            Ok(Some(pair)) => Some(Ok(pair)),
            Ok(None) => {
                self.ended = true;
                None
            }
            Err(e) => {
                self.ended = true;
                Some(Err(e))
            }
        }
    }
}

impl<'a, R: Reads> DoubleEndedIterator for Iter<'a, R> {
    ghost next_back_gives = { TakesLast R.store whole };

    fn next_back(&mut self) -> Option<Result<(IVec, IVec)>> {
        if self.ended {
            return None;
        }
        if let Err(e) = self.front.catch_up() {
            self.ended = true;
            return Some(Err(e));
        }
        match last_within(
            self.alloc,
            self.pages,
            self.root,
            &mut self.back,
            &mut self.back_place,
            lend_bound(&self.front.lo),
            &mut self.hi,
        ) {
            Ok(Some(pair)) => Some(Ok(pair)),
            Ok(None) => {
                self.ended = true;
                None
            }
            Err(e) => {
                self.ended = true;
                Some(Err(e))
            }
        }
    }
}

/// The keys of a range, from both ends. After an error nothing comes.
#[derive(Drop)]
pub struct Keys<'a, R: Reads> {
    pairs: Iter<'a, R>,
}

impl<'a, R: Reads> Model for Keys<'a, R> {
    ghost use Rattle.tree_reads.specs.Ranges.{Coming};

    ghost Value = { Coming R };

    ghost view = { λ k. k.pairs };
}

// What is left of a pair whose value is dropped.
fn key_of(pair: Option<Result<(IVec, IVec)>>) -> Option<Result<IVec>>
    ensures { result ≡ shown_of key_alone pair }
{
    match pair {
        Some(Ok((key, value))) => {
            drop(value);
            Some(Ok(key))
        }
        Some(Err(e)) => Some(Err(e)),
        None => None,
    }
}

// What is left of a pair whose key is dropped.
fn value_of(pair: Option<Result<(IVec, IVec)>>) -> Option<Result<IVec>>
    ensures { result ≡ shown_of value_alone pair }
{
    match pair {
        Some(Ok((key, value))) => {
            drop(key);
            Some(Ok(value))
        }
        Some(Err(e)) => Some(Err(e)),
        None => None,
    }
}

impl<'a, R: Reads> Iterator for Keys<'a, R> {
    type Item = Result<IVec>;

    ghost next_gives = { TakesFirst R.store key_alone };

    ghost remaining = { coming_count };

    fn next(&mut self) -> Option<Result<IVec>> {
        key_of(self.pairs.next())
    }
}

impl<'a, R: Reads> DoubleEndedIterator for Keys<'a, R> {
    ghost next_back_gives = { TakesLast R.store key_alone };

    fn next_back(&mut self) -> Option<Result<IVec>> {
        key_of(self.pairs.next_back())
    }
}

/// The values of a range, from both ends. After an error nothing comes.
#[derive(Drop)]
pub struct Values<'a, R: Reads> {
    pairs: Iter<'a, R>,
}

impl<'a, R: Reads> Model for Values<'a, R> {
    ghost use Rattle.tree_reads.specs.Ranges.{Coming};

    ghost Value = { Coming R };

    ghost view = { λ v. v.pairs };
}

impl<'a, R: Reads> Iterator for Values<'a, R> {
    type Item = Result<IVec>;

    ghost next_gives = { TakesFirst R.store value_alone };

    ghost remaining = { coming_count };

    fn next(&mut self) -> Option<Result<IVec>> {
        value_of(self.pairs.next())
    }
}

impl<'a, R: Reads> DoubleEndedIterator for Values<'a, R> {
    ghost next_back_gives = { TakesLast R.store value_alone };

    fn next_back(&mut self) -> Option<Result<IVec>> {
        value_of(self.pairs.next_back())
    }
}
