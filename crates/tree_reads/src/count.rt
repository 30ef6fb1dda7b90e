//! How many pairs a tree has.
ghost use Rattle.std.specs.Prelude.{◌≡◌, ◌+◌, length, IfSome, IfOk, IfErr};
ghost use Rattle.sled_nodes.specs.Node.{pairs as pairs_in};
ghost use Rattle.sled_store.specs.Store.{now};
ghost use Rattle.tree_reads.specs.Walk.{RefusesWalk, once};
ghost use Rattle.tree_reads.specs.Leaves.{OfContents};

use crate::MOST_PAGES;
use crate::reads::{Reads, law_given};
use crate::walk::leaf_at;
use sled_nodes::texts::WALK_PASSED_TURNS;
use sled_nodes::{Data, Error, Node, Pid, Result};
use std::alloc::Global;
use std::mem;
use std::ops::Bound;

// The number of pairs with those of a leaf, if it fits.
fn with_leaf(total: usize, node: &Node) -> Option<usize>
    ensures { IfSome result (λ more. more ≡ total + length (pairs_in node.now.content)) }
{
    match &node.content {
        Data::Leaf(leaf) => total.checked_add(leaf.len()),
        Data::Index(_) => Some(total),
    }
}

/// How many pairs the tree with this root has. It reads each leaf once. A number that is too large for `usize` is refused with
/// `NoMemory`; no machine can hold so many pairs.
pub fn count_pairs<R: Reads>(alloc: Global, pages: &R, root: Pid) -> Result<usize>
    ensures ok { IfOk result (λ count. OfContents (now (R.store pages.now)) root (λ pairs. count ≡ length pairs)) }
    ensures err { IfErr result (RefusesWalk once (R.store pages.now) root) }
{
    law_given(pages);
    let (mut leaf, looked) = match leaf_at(alloc, pages, root, Bound::Included(&[]), 0) {
        Ok(found) => found,
        Err(e) => return Err(e),
    };
    let mut total = 0;
    for count in looked..MOST_PAGES {
        let Some(more) = with_leaf(total, &leaf.node) else {
            drop(leaf);
            return Err(Error::NoMemory);
        };
        let Some(next) = leaf.node.next else {
            drop(leaf);
            return Ok(more);
        };
        let view = match pages.page(alloc, next) {
            Ok(Some(view)) => view,
            Ok(None) => {
                drop(leaf);
                return Err(Error::ReportableBug(WALK_PASSED_TURNS));
            }
            Err(e) => {
                drop(leaf);
                return Err(e);
            }
        };
        let old = mem::replace(&mut leaf, view);
        drop(old);
        total = more;
    }
    drop(leaf);
    Err(Error::ReportableBug(WALK_PASSED_TURNS))
}
