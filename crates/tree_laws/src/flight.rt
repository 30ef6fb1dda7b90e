//! The stages of a call in flight, as values: what it does next, and which of the pages that it read it needs for that.

use crate::half::Half;
use sled_nodes::{IVec, Pid, Shared, Version};
use sled_store::View;

/// How a walk reaches a page: by nothing, if the page is the root, or below the index that it came through to the page's level.
#[derive(Drop)]
pub enum Reached {
    /// It is the root.
    Root,
    /// By the index's first pointer.
    FirstPointer(View),
    /// By a later pointer of the index.
    LaterPointer(View),
    /// By the `next` of a page of the same level: then it may lack its pointer in the index.
    Next(View),
}

/// A walk to the leaf that the call aims at.
#[derive(Drop)]
pub struct Walk {
    /// The page that is read next.
    pub cursor: Pid,
    /// How the walk reaches it.
    pub reached: Reached,
}

/// Where the right half of a split gets its pointer.
#[derive(Drop)]
pub enum Posting {
    /// In this index.
    Parent(View),
    /// In a new root over both halves.
    Root,
    /// Nowhere yet: a call that reaches it by the `next` of the left half posts it.
    Nowhere,
}

/// A page that is to be split.
#[derive(Drop)]
pub struct Split {
    pub page: View,
    pub posting: Posting,
}

/// A split whose right half is a new page. The page that is split is to become the left half.
#[derive(Drop)]
pub struct InstallLeft {
    pub page: View,
    pub posting: Posting,
    /// The left half, which goes on at the right one.
    pub left: Half,
    /// Where the right half begins.
    pub at: IVec,
    /// The right half, and its version.
    pub right: Pid,
    pub version: Version,
}

/// A page that is to get a pointer in an index.
#[derive(Drop)]
pub struct Post {
    pub parent: View,
    /// Where the page begins.
    pub at: IVec,
    pub pid: Pid,
}

/// Two pages that are to get a new root over them.
#[derive(Drop)]
pub struct Hoist {
    /// The root now.
    pub left: Pid,
    /// Where the page beside it begins.
    pub at: IVec,
    pub right: Pid,
}

/// A new page that is to become the root.
#[derive(Drop)]
pub struct SwapRoot {
    /// The root now.
    pub old: Pid,
    /// The new page, and its version.
    pub new: Pid,
    pub version: Version,
}

/// A page that is no part of any tree, and is to be freed.
#[derive(Drop)]
pub struct Orphan {
    pub pid: Pid,
    pub version: Version,
}

/// A merge of a page into the one before it.
#[derive(Drop)]
pub struct Merge {
    /// The index whose merging child the page is, or is to be.
    pub parent: View,
    /// The page that merges.
    pub child: Pid,
    /// The page whose pointer is before the child's.
    pub before: Pid,
}

/// A merge whose child was read, and is to be capped.
#[derive(Drop)]
pub struct Cap {
    pub merge: Merge,
    /// The child's version, and its node.
    pub version: Version,
    pub node: Shared,
}

/// A merge whose child is capped: the page that leads to it is looked for.
#[derive(Drop)]
pub struct Seek {
    pub merge: Merge,
    /// The child's version, and its node, neither of which changes any more.
    pub version: Version,
    pub node: Shared,
    /// The page that is read next.
    pub cursor: Pid,
}

/// A merge whose child is to be received.
#[derive(Drop)]
pub struct Receive {
    pub merge: Merge,
    /// The child's version, and its node, neither of which changes any more.
    pub version: Version,
    pub node: Shared,
    /// The page that receives it.
    pub left: View,
}

/// A merge whose child was received: the pointer to it is to go.
#[derive(Drop)]
pub struct Confirm {
    pub parent: View,
    /// The child, and its version.
    pub child: Pid,
    pub version: Version,
}

/// A leaf whose pairs a scan gives.
#[derive(Drop)]
pub struct Giving {
    pub leaf: View,
    /// How many pairs of the leaf the scan has given.
    pub given: usize,
}

/// The stage of a call in flight: what its next step does.
#[derive(Drop)]
pub enum Stage {
    /// It reads the root.
    Root,
    /// It reads the cursor of its walk.
    Walk(Walk),
    /// It links its change at the version of this leaf, which it has read.
    Act(View),
    /// It gives the next pair of this leaf, which it has read.
    Give(Giving),
    /// It makes the right half of a split.
    Split(Split),
    /// It replaces the page that is split by its left half.
    InstallLeft(InstallLeft),
    /// It puts a pointer into an index.
    Post(Post),
    /// It makes a new root over two pages.
    Hoist(Hoist),
    /// It sets the new root.
    SwapRoot(SwapRoot),
    /// It frees a page of its own.
    Free(Orphan),
    /// It makes a page the merging child of its parent.
    Intend(Merge),
    /// It reads the merging child.
    Child(Merge),
    /// It caps the merging child.
    Cap(Cap),
    /// It reads the cursor of the search for the page before the merging child.
    Seek(Seek),
    /// It replaces the page before the merging child by both together.
    Receive(Receive),
    /// It takes the pointer to the merging child out.
    Confirm(Confirm),
}
