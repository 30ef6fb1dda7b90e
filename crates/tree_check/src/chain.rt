//! The chain of a level: its pages along `next`.
ghost use Rattle.std.specs.Prelude.{ℕ, ◌≡◌, ◌⊎◌, true, Some, None, [], IfOk, IfErr, OnOk};
ghost use Rattle.std.specs.BTreeSet.{contains};
ghost use Rattle.std.specs.Ordering.{nat_cmp};
ghost use Rattle.sled_nodes.specs.Order.{Below};
ghost use Rattle.sled_nodes.specs.declared.error.Error.TheVariants.{NoMemory};
ghost use Rattle.sled_store.specs.Store.{now};
ghost use Rattle.tree_check.specs.Check.{RefusesCheck};
ghost use Rattle.tree_check.specs.theory.Tree.{IsPage};
ghost use Rattle.tree_check.specs.theory.Walk.{RefusesPage, SetsLevel, AddsPage, Extends, ReadsChain, HasMergingChild, end_of as end_of_pages};

use crate::findings::{BROKEN_CHAIN, DANGLING_POINTER, FOUND_TWICE, WRONG_MERGE, corruption};
use crate::levels::{Level, set_level};
use crate::page::{check_page, page_at};
use sled_nodes::{Error, Node, Pid, Result};
use sled_store::{Pages, View};
use std::alloc::Global;
use std::collections::{BTreeMap, BTreeSet};

// The empty key.
const EMPTY: &[u8] = &[];

// Puts a page's merging child among these, if it has one.
fn add_merging_child(children: &mut BTreeSet<u64>, node: &Node) -> Result<()>
    ensures ok { OnOk result ((c : ℕ) → contains nat_cmp children.new c ≡ true → (contains nat_cmp children.old c ≡ true) ⊎ (node.now.merging_child ≡ Some c)) }
    ensures err { IfErr result (λ e. e ≡ NoMemory) }
{
    if let Some(child) = node.merging_child {
        if let Err(_) = children.insert(child.0) {
            return Err(Error::NoMemory);
        }
    }
    Ok(())
}

/// The merging children of these pages.
pub fn merging_children(alloc: Global, above: &[View]) -> Result<BTreeSet<u64>>
    ensures ok { IfOk result (λ children. (c : ℕ) → contains nat_cmp children c ≡ true → HasMergingChild above.now c) }
    ensures err { IfErr result (λ e. e ≡ NoMemory) }
{
    let mut children = BTreeSet::new(alloc);
    for view in above {
        if let Err(e) = add_merging_child(&mut children, &view.node) {
            drop(children);
            return Err(e);
        }
    }
    Ok(children)
}

// The key that a chain has reached: where its last page ends, and at first the empty key.
fn end_of(chain: &[View]) -> &[u8]
    ensures { result.now ≡ end_of_pages chain.now }
{
    match chain.last() {
        Some(view) => view.node.hi.as_ref(),
        None => EMPTY,
    }
}

// Tests that a page begins at this key, that it ends above it if it leads on, and that its end is unbounded if it does not.
#[tactic(auto, unfolding(sled_nodes::specs::Order::key_cmp))]
fn check_bounds(node: &Node, lo: &[u8]) -> Result<()>
    ensures lo { OnOk result (lo.now ≡ node.now.lo) }
    ensures rises { OnOk result ((node.now.next ≡ None) ⊎ Below node.now.lo node.now.hi) }
    ensures ends { OnOk result (node.now.next ≡ None → node.now.hi ≡ []) }
    ensures err { IfErr result RefusesPage }
{
    let fits = match node.next {
        Some(_) => node.lo < node.hi,
        None => node.hi.len() == 0,
    };
    if node.lo.as_ref() != lo || !fits {
        return Err(corruption(BROKEN_CHAIN));
    }
    Ok(())
}

// Tests a page of a chain that has reached this key: that it goes on there, that it is merging only as a merging child of the level above,
// and the page itself. Then notes its level, if it was not found before.
fn check_chained(
    node: &Node,
    pid: Pid,
    lo: &[u8],
    level: Level,
    is_child: bool,
    levels: &mut BTreeMap<u64, Level>,
) -> Result<()>
    ensures page { OnOk result (IsPage level.height node.now) }
    ensures sets { OnOk result (SetsLevel pid level levels.old levels.new) }
    ensures lo { OnOk result (lo.now ≡ node.now.lo) }
    ensures rises { OnOk result ((node.now.next ≡ None) ⊎ Below node.now.lo node.now.hi) }
    ensures ends { OnOk result (node.now.next ≡ None → node.now.hi ≡ []) }
    ensures parent { OnOk result (node.now.merging ≡ true → is_child ≡ true) }
    ensures err { IfErr result RefusesPage }
{
    if let Err(e) = check_bounds(node, lo) {
        return Err(e);
    }
    if node.merging && !is_child {
        return Err(corruption(WRONG_MERGE));
    }
    match check_page(node, level.height) {
        Ok(()) => set_level(levels, pid, level),
        Err(e) => Err(e),
    }
}

// Reads and tests the next page of a chain that has reached this key.
fn read_next<P: Pages>(
    alloc: Global,
    pages: &P,
    pid: Pid,
    lo: &[u8],
    level: Level,
    children: &BTreeSet<u64>,
    levels: &mut BTreeMap<u64, Level>,
) -> Result<View>
    ensures ok { IfOk result (λ view. AddsPage (now (P.store pages.now)) (contains nat_cmp children.now) level pid lo.now view levels.old levels.new) }
    ensures err { IfErr result (RefusesCheck (P.store pages.now)) }
{
    let view = match page_at(alloc, pages, pid, DANGLING_POINTER) {
        Ok(view) => view,
        Err(e) => return Err(e),
    };
    let is_child = children.contains(&pid.0);
    if let Err(e) = check_chained(&view.node, pid, lo, level, is_child, levels) {
        drop(view);
        return Err(e);
    }
    Ok(view)
}

// Puts the next page of a chain behind those that were read. Answers where the chain goes on.
fn extend<P: Pages>(
    alloc: Global,
    pages: &P,
    pid: Pid,
    level: Level,
    children: &BTreeSet<u64>,
    levels: &mut BTreeMap<u64, Level>,
    chain: &mut Vec<View>,
) -> Result<Option<Pid>>
    ensures ok { IfOk result (λ next. Extends (now (P.store pages.now)) (contains nat_cmp children.now) level pid next chain.old.items chain.new.items levels.old levels.new) }
    ensures err { IfErr result (RefusesCheck (P.store pages.now)) }
{
    let view = match read_next(
        alloc,
        pages,
        pid,
        end_of(chain.as_slice()),
        level,
        children,
        levels,
    ) {
        Ok(view) => view,
        Err(e) => return Err(e),
    };
    let next = view.node.next;
    if let Err(failed) = chain.push(view) {
        drop(failed);
        return Err(Error::NoMemory);
    }
    Ok(next)
}

/// The pages of a level, from its first one on. Merging ones are to be among these children of the level above.
pub fn read_chain<P: Pages>(
    alloc: Global,
    pages: &P,
    first: Pid,
    level: Level,
    children: &BTreeSet<u64>,
    levels: &mut BTreeMap<u64, Level>,
) -> Result<Vec<View>>
    ensures ok { IfOk result (λ chain. ReadsChain (now (P.store pages.now)) (contains nat_cmp children.now) level first chain.items None [] levels.old levels.new) }
    ensures err { IfErr result (RefusesCheck (P.store pages.now)) }
{
    let mut chain = Vec::new(alloc);
    let mut pid = first;
    for _ in 0..u64::MAX {
        match extend(alloc, pages, pid, level, children, levels, &mut chain) {
            Ok(Some(next)) => pid = next,
            Ok(None) => return Ok(chain),
            Err(e) => {
                drop(chain);
                return Err(e);
            }
        }
    }
    drop(chain);
    Err(corruption(FOUND_TWICE))
}
