//! How large the trees are, as their pages have them.
ghost use Rattle.std.specs.Prelude.{◌≡◌, ◌+◌, [], ◌∷◌, Some, IfOk, IfErr};
ghost use Rattle.sled_nodes.specs.declared.error.Error.TheVariants.{NoMemory};
ghost use Rattle.sled_store.specs.State.{nodes_of};
ghost use Rattle.sled_store.specs.Store.{now};
ghost use Rattle.tree_laws.specs.Contents.{next_of, along, pairs_under as pairs_of_root, page_numbers};
ghost use Rattle.tree_laws.specs.Forest.{node_pairs};
ghost use Rattle.tree_laws.specs.Paths.{length_along};
ghost use Rattle.tree_pages.specs.Stats.{AreStats};
ghost use Rattle.tree_pages.specs.theory.Export.{RefusesRead};
ghost use Rattle.tree_pages.specs.theory.Stats.{IsHeight, Weighs, IsTree, Adds};

use crate::export::{first_child, first_leaf, read_pairs};
use sled_nodes::{Error, IVec, Pid, Result};
use sled_store::Pages;
use std::alloc::Global;

/// How large the trees of a database are.
#[derive(Clone, Copy, Debug, PartialEq, Eq)]
pub struct Stats {
    pub trees: u64,
    /// The pages of all trees.
    pub pages: u64,
    /// The levels of the highest tree.
    pub levels: u64,
    /// The pairs of all trees.
    pub pairs: u64,
    /// The bytes of all keys.
    pub key_bytes: u64,
    /// The bytes of all values.
    pub value_bytes: u64,
}

// The levels and the pages of a tree.
#[derive(Clone, Copy)]
pub struct Height {
    pub levels: u64,
    pub pages: u64,
}

// How many pairs there are, and the bytes of their keys and values.
#[derive(Clone, Copy)]
pub struct Weight {
    pub pairs: u64,
    pub key_bytes: u64,
    pub value_bytes: u64,
}

// A sum. One that is too large is refused with `NoMemory`: no machine can hold so much.
#[inline(always)]
fn sum(a: u64, b: u64) -> Result<u64>
    ensures ok { IfOk result (λ sum. sum ≡ a + b) }
    ensures err { IfErr result (λ e. e ≡ NoMemory) }
{
    match a.checked_add(b) {
        Some(sum) => Ok(sum),
        None => Err(Error::NoMemory),
    }
}

// The page behind a page, if there are both.
fn next_page<P: Pages>(alloc: Global, pages: &P, pid: Pid) -> Result<Option<Pid>>
    ensures ok { IfOk result (λ next. next ≡ next_of (nodes_of (now (P.store pages.now)) pid)) }
    ensures err { IfErr result (RefusesRead (P.store pages.now)) }
{
    match pages.read(alloc, pid)? {
        None => Ok(None),
        Some(view) => {
            let next = view.node.next;
            drop(view);
            Ok(next)
        }
    }
}

// How many pages there are from this one on, along `next`.
fn pages_along<P: Pages>(alloc: Global, pages: &P, first: Pid) -> Result<u64>
    ensures ok { IfOk result (λ count. count ≡ length_along page_numbers (nodes_of (now (P.store pages.now))) (Some first)) }
    ensures err { IfErr result (RefusesRead (P.store pages.now)) }
{
    let mut cursor = Some(first);
    for count in 0..u64::MAX {
        let Some(pid) = cursor else {
            return Ok(count);
        };
        cursor = next_page(alloc, pages, pid)?;
    }
    Err(Error::NoMemory)
}

// The levels and the pages under a root.
fn height_of<P: Pages>(alloc: Global, pages: &P, root: Pid) -> Result<Height>
    ensures ok { IfOk result (IsHeight (nodes_of (now (P.store pages.now))) root) }
    ensures err { IfErr result (RefusesRead (P.store pages.now)) }
{
    let mut cursor = Some(root);
    let mut total = 0;
    for level in 0..u64::MAX {
        let Some(pid) = cursor else {
            return Ok(Height {
                levels: level,
                pages: total,
            });
        };
        let more = pages_along(alloc, pages, pid)?;
        total = sum(total, more)?;
        cursor = first_child(alloc, pages, pid)?;
    }
    Err(Error::NoMemory)
}

// One pair more.
fn with_pair(before: Weight, key: &IVec, value: &IVec) -> Result<Weight>
    ensures ok { IfOk result (Weighs before ((key.now, value.now) ∷ [])) }
    ensures err { IfErr result (λ e. e ≡ NoMemory) }
{
    let pairs = sum(before.pairs, 1)?;
    let key_bytes = sum(before.key_bytes, key.len() as u64)?;
    let value_bytes = sum(before.value_bytes, value.len() as u64)?;
    Ok(Weight {
        pairs,
        key_bytes,
        value_bytes,
    })
}

// These pairs more.
fn with_pairs(before: Weight, pairs: &[(IVec, IVec)]) -> Result<Weight>
    ensures ok { IfOk result (Weighs before pairs.now) }
    ensures err { IfErr result (λ e. e ≡ NoMemory) }
{
    let mut weight = before;
    for pair in pairs {
        weight = with_pair(weight, &pair.0, &pair.1)?;
    }
    Ok(weight)
}

// The pairs of a page more, and the next page.
fn with_page<P: Pages>(
    alloc: Global,
    pages: &P,
    before: Weight,
    pid: Pid,
) -> Result<(Weight, Option<Pid>)>
    ensures ok { IfOk result (λ read. Weighs before (node_pairs (nodes_of (now (P.store pages.now)) pid)) read.0 × (read.1 ≡ next_of (nodes_of (now (P.store pages.now)) pid))) }
    ensures err { IfErr result (RefusesRead (P.store pages.now)) }
{
    let (pairs, next) = read_pairs(alloc, pages, pid)?;
    let more = with_pairs(before, pairs.as_slice());
    drop(pairs);
    match more {
        Ok(weight) => Ok((weight, next)),
        Err(e) => Err(e),
    }
}

// The statistics of the pairs from a leaf on, along `next`.
fn weight_along<P: Pages>(alloc: Global, pages: &P, first: Pid) -> Result<Weight>
    ensures ok { IfOk result (Weighs (record { pairs = 0; key_bytes = 0; value_bytes = 0 }) (along page_numbers (nodes_of (now (P.store pages.now))) (Some first))) }
    ensures err { IfErr result (RefusesRead (P.store pages.now)) }
{
    let mut weight = Weight {
        pairs: 0,
        key_bytes: 0,
        value_bytes: 0,
    };
    let mut cursor = Some(first);
    for leaf in 0..u64::MAX {
        let Some(pid) = cursor else {
            return Ok(weight);
        };
        let (more, next) = with_page(alloc, pages, weight, pid)?;
        weight = more;
        cursor = next;
    }
    Err(Error::NoMemory)
}

// The statistics of the pairs under a root.
fn weight_of<P: Pages>(alloc: Global, pages: &P, root: Pid) -> Result<Weight>
    ensures ok { IfOk result (Weighs (record { pairs = 0; key_bytes = 0; value_bytes = 0 }) (pairs_of_root (nodes_of (now (P.store pages.now))) root)) }
    ensures err { IfErr result (RefusesRead (P.store pages.now)) }
{
    let leaf = first_leaf(alloc, pages, root)?;
    weight_along(alloc, pages, leaf)
}

// The statistics of the tree of this name.
fn tree_of<P: Pages>(alloc: Global, pages: &P, name: &IVec) -> Result<(Height, Weight)>
    ensures ok { IfOk result (λ tree. IsTree (now (P.store pages.now)) name.now tree.0 tree.1) }
    ensures err { IfErr result (RefusesRead (P.store pages.now)) }
{
    match pages.root(name.as_ref()) {
        Some(root) => {
            let height = height_of(alloc, pages, root)?;
            let weight = weight_of(alloc, pages, root)?;
            Ok((height, weight))
        }
        None => Ok((
            Height {
                levels: 0,
                pages: 0,
            },
            Weight {
                pairs: 0,
                key_bytes: 0,
                value_bytes: 0,
            },
        )),
    }
}

// One tree more.
fn with_tree(stats: Stats, height: Height, weight: Weight) -> Result<Stats>
    ensures ok { IfOk result (Adds stats height weight) }
    ensures err { IfErr result (λ e. e ≡ NoMemory) }
{
    let trees = sum(stats.trees, 1)?;
    let pages = sum(stats.pages, height.pages)?;
    let levels = stats.levels.max(height.levels);
    let pairs = sum(stats.pairs, weight.pairs)?;
    let key_bytes = sum(stats.key_bytes, weight.key_bytes)?;
    let value_bytes = sum(stats.value_bytes, weight.value_bytes)?;
    Ok(Stats {
        trees,
        pages,
        levels,
        pairs,
        key_bytes,
        value_bytes,
    })
}

/// How large these trees are. It reads each page of each tree, and each leaf once more. Refused if a page cannot be read, for want of
/// memory, and if a number is too large, with `NoMemory` too.
pub fn stats_of<P: Pages>(alloc: Global, pages: &P, trees: &[(IVec, u64)]) -> Result<Stats>
    ensures ok { IfOk result (AreStats (now (P.store pages.now)) trees.now) }
    ensures err { IfErr result (RefusesRead (P.store pages.now)) }
{
    let mut stats = Stats {
        trees: 0,
        pages: 0,
        levels: 0,
        pairs: 0,
        key_bytes: 0,
        value_bytes: 0,
    };
    for tree in trees {
        let (height, weight) = tree_of(alloc, pages, &tree.0)?;
        stats = with_tree(stats, height, weight)?;
    }
    Ok(stats)
}
