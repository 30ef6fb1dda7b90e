//! The pairs of the trees, read from the pages without repairing anything.
ghost use Rattle.std.specs.Prelude.{◌≡◌, IfOk, IfErr, Some, map};
ghost use Rattle.sled_nodes.specs.declared.error.Error.TheVariants.{NoMemory};
ghost use Rattle.sled_nodes.specs.Node.{pairs};
ghost use Rattle.sled_store.specs.State.{nodes_of};
ghost use Rattle.sled_store.specs.Store.{now};
ghost use Rattle.tree_laws.specs.Forest.{node_pairs};
ghost use Rattle.tree_laws.specs.Contents.{first_of, next_of, first_leaf as leaf_under, along, pairs_under as pairs_of_root, page_numbers};
ghost use Rattle.tree_laws.specs.Contents.{trees_of};
ghost use Rattle.tree_pages.specs.Export.{collection, collections};
ghost use Rattle.tree_pages.specs.theory.Export.{RefusesRead};

use sled_model::Collection;
use sled_nodes::{Data, IVec, Node, Pid, Result};
use sled_store::Pages;
use std::alloc::Global;

// The first pointer of an index, if it has one; a leaf has none.
fn first_pointer(alloc: Global, node: &Node) -> Result<Option<Pid>>
    ensures ok { IfOk result (λ child. child ≡ first_of (Some node.now)) }
    ensures err { IfErr result (λ e. e ≡ NoMemory) }
{
    match &node.content {
        Data::Leaf(_) => Ok(None),
        Data::Index(index) => {
            let pointers = index.pairs(alloc)?;
            let child = match pointers.first() {
                Some(pointer) => Some(pointer.1),
                None => None,
            };
            drop(pointers);
            Ok(child)
        }
    }
}

// The page under the first pointer of a page, if there is the page and a pointer.
pub(crate) fn first_child<P: Pages>(alloc: Global, pages: &P, pid: Pid) -> Result<Option<Pid>>
    ensures ok { IfOk result (λ child. child ≡ first_of (nodes_of (now (P.store pages.now)) pid)) }
    ensures err { IfErr result (RefusesRead (P.store pages.now)) }
{
    match pages.read(alloc, pid)? {
        None => Ok(None),
        Some(view) => {
            let child = first_pointer(alloc, &view.node);
            drop(view);
            child
        }
    }
}

// The first leaf under a root: no way down is longer than there are page numbers.
pub(crate) fn first_leaf<P: Pages>(alloc: Global, pages: &P, root: Pid) -> Result<Pid>
    ensures ok { IfOk result (λ leaf. leaf ≡ leaf_under page_numbers (nodes_of (now (P.store pages.now))) root (first_of (nodes_of (now (P.store pages.now)) root))) }
    ensures err { IfErr result (RefusesRead (P.store pages.now)) }
{
    let mut pid = root;
    for level in 0..u64::MAX {
        match first_child(alloc, pages, pid)? {
            None => return Ok(pid),
            Some(child) => pid = child,
        }
    }
    match first_child(alloc, pages, pid)? {
        None => Ok(pid),
        Some(child) => Ok(child),
    }
}

// A node's pairs, of which an index has none, and the next page.
fn node_pairs_and_next(alloc: Global, node: &Node) -> Result<(Vec<(IVec, IVec)>, Option<Pid>)>
    ensures ok { IfOk result (λ read. (read.0.items ≡ pairs node.now.content) × (read.1 ≡ node.now.next)) }
    ensures err { IfErr result (λ e. e ≡ NoMemory) }
{
    match &node.content {
        Data::Leaf(leaf) => Ok((leaf.pairs(alloc)?, node.next)),
        Data::Index(_) => Ok((Vec::new(alloc), node.next)),
    }
}

// A page's pairs, and the next page.
pub(crate) fn read_pairs<P: Pages>(
    alloc: Global,
    pages: &P,
    pid: Pid,
) -> Result<(Vec<(IVec, IVec)>, Option<Pid>)>
    ensures ok { IfOk result (λ read. (read.0.items ≡ node_pairs (nodes_of (now (P.store pages.now)) pid)) × (read.1 ≡ next_of (nodes_of (now (P.store pages.now)) pid))) }
    ensures err { IfErr result (RefusesRead (P.store pages.now)) }
{
    match pages.read(alloc, pid)? {
        None => Ok((Vec::new(alloc), None)),
        Some(view) => {
            let read = node_pairs_and_next(alloc, &view.node);
            drop(view);
            read
        }
    }
}

// The pairs from a leaf on, along `next`.
fn pairs_along<P: Pages>(alloc: Global, pages: &P, first: Pid) -> Result<Vec<(IVec, IVec)>>
    ensures ok { IfOk result (λ all. all.items ≡ along page_numbers (nodes_of (now (P.store pages.now))) (Some first)) }
    ensures err { IfErr result (RefusesRead (P.store pages.now)) }
{
    let mut all = Vec::new(alloc);
    let mut cursor = Some(first);
    for leaf in 0..u64::MAX {
        let Some(pid) = cursor else {
            return Ok(all);
        };
        let (mut pairs, next) = read_pairs(alloc, pages, pid)?;
        all.append(&mut pairs)?;
        cursor = next;
    }
    match cursor {
        None => Ok(all),
        Some(pid) => {
            let (mut pairs, _) = read_pairs(alloc, pages, pid)?;
            all.append(&mut pairs)?;
            Ok(all)
        }
    }
}

// The pairs of the tree with this root, ascending by key. It reads each page on the way to the first leaf, and each leaf.
fn pairs_under<P: Pages>(alloc: Global, pages: &P, root: Pid) -> Result<Vec<(IVec, IVec)>>
    ensures ok { IfOk result (λ all. all.items ≡ pairs_of_root (nodes_of (now (P.store pages.now))) root) }
    ensures err { IfErr result (RefusesRead (P.store pages.now)) }
{
    let leaf = first_leaf(alloc, pages, root)?;
    pairs_along(alloc, pages, leaf)
}

// The collection of the tree of this name.
fn collection_of<P: Pages>(alloc: Global, pages: &P, name: &IVec) -> Result<Collection>
    ensures ok { IfOk result (λ c. (c.0.items, c.1.items, c.2.items) ≡ collection (trees_of (now (P.store pages.now))) name.now) }
    ensures err { IfErr result (RefusesRead (P.store pages.now)) }
{
    let pairs = match pages.root(name.as_ref()) {
        Some(root) => pairs_under(alloc, pages, root)?,
        None => Vec::new(alloc),
    };
    Ok((
        Vec::from_slice(alloc, b"tree")?,
        Vec::from_slice(alloc, name.as_ref())?,
        pairs,
    ))
}

/// The collections of these trees, in their order. It reads each page on the way to the first leaf of a tree, and each leaf. Refused if a
/// page cannot be read, and for want of memory.
pub fn collections_of<P: Pages>(
    alloc: Global,
    pages: &P,
    trees: &[(IVec, u64)],
) -> Result<Vec<Collection>>
    ensures ok { IfOk result (λ all. map (λ c. (c.0.items, c.1.items, c.2.items)) all.items ≡ collections (trees_of (now (P.store pages.now))) trees.now) }
    ensures err { IfErr result (RefusesRead (P.store pages.now)) }
{
    let mut all = Vec::new(alloc);
    for tree in trees {
        all.push(collection_of(alloc, pages, &tree.0)?)?;
    }
    Ok(all)
}
