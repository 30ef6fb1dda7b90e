//! The reading walk.
ghost use Rattle.std.specs.Prelude.{◌≡◌, ◌↔◌, ◌+◌, IsTrue, true, Some, [], IfOk, IfErr};
ghost use Rattle.std.specs.declared.ops.Bound.TheVariants.{Included};
ghost use Rattle.sled_nodes.specs.Among.{bound_of, is_up_to as within_upper};
ghost use Rattle.sled_store.specs.Store.{now};
ghost use Rattle.tree_reads.specs.Walk.{IsLeafFor, IsLeafOf, IsWay, RefusesWalk, GivesUp, once};
ghost use Rattle.tree_reads.specs.theory.Walk.{IsIndex, LiesBehind, Turns, GoesDown, BeginsWalk, KeepsWay};
ghost use Rattle.sled_nodes.specs.declared.error.Error.TheVariants.{NoMemory};
ghost use Rattle.sled_store.specs.In.{In};
ghost use Rattle.sled_store.specs.declared.page.View.{View as ViewValue};

use crate::MOST_PAGES;
use crate::reads::{Reads, law_given};
use sled_nodes::texts::WALK_PASSED_TURNS;
use sled_nodes::{Data, Error, Node, Pid, Result, key_is_up_to};
use sled_store::View;
use std::alloc::Global;
use std::ops::Bound;

// Whether the target is behind the node.
#[inline(always)]
fn is_behind(node: &Node, target: Bound<&[u8]>) -> bool
    ensures { IsTrue result ↔ LiesBehind (bound_of target.entry) node.now }
{
    node.hi.len() != 0 && key_is_up_to(&node.hi, target)
}

// Where a walk to the target goes from a page, if it does not end there: to the right, or down, but never by the pointer to
// a merging child, whose pairs the page before it leads to.
#[inline(always)]
fn turn(node: &Node, target: Bound<&[u8]>) -> Option<Pid>
    ensures { Turns (bound_of target.entry) node.now result }
{
    if is_behind(node, target) {
        return node.next;
    }
    match &node.content {
        Data::Leaf(_) => None,
        Data::Index(_) => down(node, target),
    }
}

// Whether this is the node's merging child.
#[inline(always)]
fn merges(node: &Node, child: Pid) -> bool
    ensures { IsTrue result ↔ (node.now.merging_child ≡ Some child) }
{
    node.merging_child == Some(child)
}

// The pointer that the target leads to.
#[inline(always)]
fn down(node: &Node, target: Bound<&[u8]>) -> Option<Pid>
    requires index { IsIndex node.now.content }
    ensures { Turns (bound_of target.entry) node.now result }
{
    let Some((child, _)) = node.pointer(target) else {
        return None;
    };
    if merges(node, child) {
        return node.pointer_before(child);
    }
    Some(child)
}

/// The leaf of the tree with this root in which a key just within the target is, and how many pages have been looked at by then,
/// `looked` of them before this call.
pub fn leaf_at<R: Reads>(
    alloc: Global,
    pages: &R,
    root: Pid,
    target: Bound<&[u8]>,
    looked: u64,
) -> Result<(View, u64)>
    requires { within_upper (bound_of target) [] ≡ true }
    ensures ok { IfOk result (λ found. IsLeafFor (now (R.store pages.now)) root (bound_of target.entry) looked found.0 found.1) }
    ensures err { IfErr result (RefusesWalk (λ pages. pages + looked) (R.store pages.now) root) }
    ensures gives_up { IfErr result (GivesUp (now (R.store pages.now)) root (bound_of target.entry) looked) }
{
    law_given(pages);
    let mut pid = root;
    for before in looked..MOST_PAGES {
        let view = match pages.page(alloc, pid) {
            Ok(Some(view)) => view,
            Ok(None) => return Err(Error::ReportableBug(WALK_PASSED_TURNS)),
            Err(e) => return Err(e),
        };
        match turn(&view.node, target) {
            None => return Ok((view, before + 1)),
            Some(next) => pid = next,
        }
        drop(view);
    }
    Err(Error::ReportableBug(WALK_PASSED_TURNS))
}

// Where a walk to the target goes down from an index that the target is under.
#[inline(always)]
fn down_from(node: &Node, target: Bound<&[u8]>) -> Option<Pid>
    ensures { GoesDown (bound_of target.entry) node.now result }
{
    if !key_is_up_to(&node.lo, target) || is_behind(node, target) {
        return None;
    }
    match &node.content {
        Data::Leaf(_) => None,
        Data::Index(_) => down(node, target),
    }
}

// Where a walk begins: below the last index of the way that the target is under, and else at the root. The indexes behind that one go.
#[inline(always)]
fn begin(way: &mut Vec<View>, root: Pid, target: Bound<&[u8]>) -> Pid
    ensures begins { BeginsWalk (bound_of target.entry) way.old.items root result }
    ensures keeps { (v : ViewValue) → In v way.new.items → In v way.old.items }
{
    while let Some(view) = way.last() {
        if let Some(child) = down_from(&view.node, target) {
            return child;
        }
        let passed = way.pop();
        drop(passed);
    }
    root
}

// An index that a walk has passed is one of its way.
#[inline(always)]
fn keep(way: &mut Vec<View>, view: View) -> Result<()>
    ensures keeps { KeepsWay way.old.items view way.new.items }
    ensures err { IfErr result (λ e. e ≡ NoMemory) }
{
    if let Data::Leaf(_) = &view.node.content {
        drop(view);
        return Ok(());
    }
    match way.push(view) {
        Ok(()) => Ok(()),
        Err(failed) => {
            drop(failed);
            Err(Error::NoMemory)
        }
    }
}

/// The leaf of the tree with this root in which the key is, for many keys one after the other. The walk leaves its way: the indexes that it
/// went down by. The next one begins below the last of them that its key is under, and else at the root. At first the way is empty.
///
/// ```
/// let mut way = Vec::new(alloc);
/// let leaf = leaf_near(alloc, &pages, root, b"bern", &mut way)?;
/// let next = leaf_near(alloc, &pages, root, b"bonn", &mut way)?; // Reads one page, if both lie under one index.
/// ```
pub fn leaf_near<R: Reads>(
    alloc: Global,
    pages: &R,
    root: Pid,
    key: &[u8],
    way: &mut Vec<View>,
) -> Result<View>
    requires { IsWay (now (R.store pages.now)) root way.old.items }
    ensures way { IsWay (now (R.store pages.now)) root way.new.items }
    ensures ok { IfOk result (IsLeafOf (now (R.store pages.now)) root (Included key.now)) }
    ensures err { IfErr result (RefusesWalk once (R.store pages.now) root) }
{
    law_given(pages);
    let target = Bound::Included(key);
    let mut pid = begin(way, root, target);
    for looked in 0..MOST_PAGES {
        let view = match pages.page(alloc, pid) {
            Ok(Some(view)) => view,
            Ok(None) => return Err(Error::ReportableBug(WALK_PASSED_TURNS)),
            Err(e) => return Err(e),
        };
        match turn(&view.node, target) {
            None => return Ok(view),
            Some(next) => pid = next,
        }
        keep(way, view)?;
    }
    Err(Error::ReportableBug(WALK_PASSED_TURNS))
}
