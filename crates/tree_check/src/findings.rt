//! What a check of pages may find: the codes of `Error::Corruption`. If several would do, one of them is returned.
ghost use Rattle.tree_check.specs.Check.{IsFinding};
ghost use Rattle.tree_check.specs.theory.Walk.{RefusesPage};

use sled_nodes::{Error, Fault};

/// A root names no page.
pub const MISSING_ROOT: Fault = Fault(1);
/// A page is found twice: on two levels of a tree, or again on the same one.
pub const FOUND_TWICE: Fault = Fault(2);
/// The pages of a level do not lead from the empty key upwards to an unbounded end, each from where the last one ended.
pub const BROKEN_CHAIN: Fault = Fault(3);
/// A pointer or a `next` names no page, or a pointer a page that neither is on the level below nor is merging.
pub const DANGLING_POINTER: Fault = Fault(4);
/// The key of a pointer is not where its page begins, or the first key of an index not where the index begins.
pub const WRONG_POINTER_KEY: Fault = Fault(5);
/// A page is merging and is not the merging child of its parent, the page whose pointer leads to it, or has a merging child itself;
/// or a merging child has no pointer, or only the first one.
pub const WRONG_MERGE: Fault = Fault(6);
/// A page has more than 33 entries, or a merging child more than 17.
pub const TOO_MANY_ENTRIES: Fault = Fault(7);
/// Entries do not ascend or are outside the bounds of their page, or an index has no pointer.
pub const WRONG_ENTRIES: Fault = Fault(8);
/// A leaf is among indexes or an index among leaves, or a page in two trees.
pub const MIXED_PAGES: Fault = Fault(9);

// The error of a finding.
pub(crate) fn corruption(fault: Fault) -> Error
    requires { IsFinding fault }
    ensures { RefusesPage result }
{
    Error::Corruption(fault)
}
