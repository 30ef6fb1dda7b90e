//! The pointers from one level to the level below.
ghost use Rattle.std.specs.Prelude.{ℕ, IsTrue, ◌↔◌, ◌≡◌, ◌⊎◌, ◌≤◌, true, Some, None, [], ◌∷◌, IfErr, OnOk};
ghost use Rattle.std.specs.List.{All};
ghost use Rattle.sled_nodes.specs.Node.{pointers, count as count_of};
ghost use Rattle.sled_store.specs.In.{In};
ghost use Rattle.sled_store.specs.Store.{now};
ghost use Rattle.sled_store.specs.declared.page.View.{View};
ghost use Rattle.tree_check.specs.declared.levels.Level.{Level as LevelValue};
ghost use Rattle.tree_check.specs.Check.{RefusesCheck};
ghost use Rattle.tree_check.specs.theory.Tree.{IsPage};
ghost use Rattle.tree_check.specs.theory.Walk.{RefusesPage, LeadsTo, FindsReceived, IsFoundOn, level_of};

use crate::findings::{DANGLING_POINTER, WRONG_MERGE, WRONG_POINTER_KEY, corruption};
use crate::levels::{Level, found_twice, set_level};
use crate::page::{check_merging_child, check_page, page_at, pointers_of};
use sled_nodes::{IVec, Node, Pid, Result};
use sled_store::{Pages, View};
use std::alloc::Global;
use std::collections::BTreeMap;

// Tests a page that a pointer leads to and that is in no chain: it is to be merging, and so was received.
fn check_received(node: &Node, height: u64) -> Result<()>
    ensures page { OnOk result (IsPage height node.now) }
    ensures merging { OnOk result (node.now.merging ≡ true) }
    ensures err { IfErr result RefusesPage }
{
    if !node.merging {
        return Err(corruption(DANGLING_POINTER));
    }
    check_page(node, height)
}

// Tests that a pointer at this key fits the page that it leads to, which may be the merging child of the pointer's page.
fn check_fits(node: &Node, key: &IVec, is_child: bool) -> Result<()>
    ensures key { OnOk result (node.now.lo ≡ key.now) }
    ensures merged { OnOk result (node.now.merging ≡ true → is_child ≡ true) }
    ensures few { OnOk result (is_child ≡ true → count_of node.now.content ≤ 17) }
    ensures err { IfErr result RefusesPage }
{
    if node.lo != *key {
        return Err(corruption(WRONG_POINTER_KEY));
    }
    if node.merging && !is_child {
        return Err(corruption(WRONG_MERGE));
    }
    if is_child {
        return check_merging_child(node);
    }
    Ok(())
}

// Whether this is the node's merging child.
fn merges(node: &Node, child: Pid) -> bool
    ensures { IsTrue result ↔ (node.now.merging_child ≡ Some child) }
{
    node.merging_child == Some(child)
}

// Tests that a page that a pointer leads to was found on this level. One that was not found is to have been received, and is
// noted then.
fn check_level_of(found: &View, level: Level, levels: &mut BTreeMap<u64, Level>) -> Result<()>
    ensures here { OnOk result (level_of levels.new found.now.pid ≡ Some level) }
    ensures kept { OnOk result ((q : ℕ) (z : LevelValue) → level_of levels.old q ≡ Some z → level_of levels.new q ≡ Some z) }
    ensures adds { OnOk result ((q : ℕ) (z : LevelValue) → level_of levels.new q ≡ Some z → (level_of levels.old q ≡ Some z) ⊎ ((z ≡ level) × (q ≡ found.now.pid) × IsPage level.height found.now.node × (found.now.node.merging ≡ true))) }
    ensures err { IfErr result RefusesPage }
{
    match levels.get(&found.pid.0) {
        Some(old) => {
            let old = *old;
            if old.tree == level.tree && old.height == level.height {
                Ok(())
            } else if old.tree == level.tree {
                Err(corruption(DANGLING_POINTER))
            } else {
                Err(found_twice(old, level))
            }
        }
        None => match check_received(&found.node, level.height) {
            Ok(()) => set_level(levels, found.pid, level),
            Err(e) => Err(e),
        },
    }
}

// Tests a pointer of a page that leads to this page of the chain of the level below.
fn check_chained(view: &View, key: &IVec, found: &View) -> Result<()>
    ensures key { OnOk result (found.now.node.lo ≡ key.now) }
    ensures merged { OnOk result (found.now.node.merging ≡ true → view.now.node.merging_child ≡ Some found.now.pid) }
    ensures few { OnOk result (view.now.node.merging_child ≡ Some found.now.pid → count_of found.now.node.content ≤ 17) }
    ensures err { IfErr result RefusesPage }
{
    check_fits(&found.node, key, merges(&view.node, found.pid))
}

// Tests a pointer of a page that leads to a page of the level below, which is read.
fn check_read<P: Pages>(
    alloc: Global,
    pages: &P,
    view: &View,
    key: &IVec,
    child: Pid,
    level: Level,
    levels: &mut BTreeMap<u64, Level>,
) -> Result<()>
    ensures leads { OnOk result (LeadsTo (now (P.store pages.now)) view.now level levels.new key.now child) }
    ensures adds { OnOk result (FindsReceived (now (P.store pages.now)) (view.now ∷ []) level levels.old levels.new) }
    ensures err { IfErr result (RefusesCheck (P.store pages.now)) }
{
    let found = match page_at(alloc, pages, child, DANGLING_POINTER) {
        Ok(found) => found,
        Err(e) => return Err(e),
    };
    if let Err(e) = check_fits(&found.node, key, merges(&view.node, child)) {
        drop(found);
        return Err(e);
    }
    let done = check_level_of(&found, level, levels);
    drop(found);
    match done {
        Ok(()) => Ok(()),
        Err(e) => Err(e),
    }
}

// Tests a pointer of a page, whose level below is this one and has this chain. The page that it leads to is mostly the one at `next` of
// the chain; then it is not read again.
fn check_pointer<P: Pages>(
    alloc: Global,
    pages: &P,
    view: &View,
    key: &IVec,
    child: Pid,
    chain: &[View],
    next: &mut usize,
    level: Level,
    levels: &mut BTreeMap<u64, Level>,
) -> Result<()>
    requires chain { (v : View) → In v chain.now → IsFoundOn (now (P.store pages.now)) level levels.old v }
    ensures leads { OnOk result (LeadsTo (now (P.store pages.now)) view.now level levels.new key.now child) }
    ensures adds { OnOk result (FindsReceived (now (P.store pages.now)) (view.now ∷ []) level levels.old levels.new) }
    ensures err { IfErr result (RefusesCheck (P.store pages.now)) }
{
    if *next < chain.len() && chain[*next].pid == child {
        let found = &chain[*next];
        *next += 1;
        if let Err(e) = check_chained(view, key, found) {
            return Err(e);
        }
        return Ok(());
    }
    check_read(alloc, pages, view, key, child, level, levels)
}

// Tests all pointers of a page.
fn check_pointers_of<P: Pages>(
    alloc: Global,
    pages: &P,
    view: &View,
    chain: &[View],
    next: &mut usize,
    level: Level,
    levels: &mut BTreeMap<u64, Level>,
) -> Result<()>
    requires chain { (v : View) → In v chain.now → IsFoundOn (now (P.store pages.now)) level levels.old v }
    ensures lead { OnOk result (All (λ e. LeadsTo (now (P.store pages.now)) view.now level levels.new e.0 e.1) (pointers view.now.node.content)) }
    ensures adds { OnOk result (FindsReceived (now (P.store pages.now)) (view.now ∷ []) level levels.old levels.new) }
    ensures err { IfErr result (RefusesCheck (P.store pages.now)) }
{
    let list = match pointers_of(alloc, &view.node) {
        Ok(list) => list,
        Err(e) => return Err(e),
    };
    for pointer in list.as_slice() {
        if let Err(e) = check_pointer(
            alloc, pages, view, &pointer.0, pointer.1, chain, next, level, levels,
        ) {
            drop(list);
            return Err(e);
        }
    }
    drop(list);
    Ok(())
}

/// Tests all pointers of these pages, whose level below is this one and has this chain.
pub fn check_pointers<P: Pages>(
    alloc: Global,
    pages: &P,
    above: &[View],
    chain: &[View],
    level: Level,
    levels: &mut BTreeMap<u64, Level>,
) -> Result<()>
    requires chain { (v : View) → In v chain.now → IsFoundOn (now (P.store pages.now)) level levels.old v }
    ensures lead { OnOk result (All (λ v. All (λ e. LeadsTo (now (P.store pages.now)) v level levels.new e.0 e.1) (pointers v.node.content)) above.now) }
    ensures adds { OnOk result (FindsReceived (now (P.store pages.now)) above.now level levels.old levels.new) }
    ensures err { IfErr result (RefusesCheck (P.store pages.now)) }
{
    let mut next = 0;
    for view in above {
        if let Err(e) = check_pointers_of(alloc, pages, view, chain, &mut next, level, levels) {
            return Err(e);
        }
    }
    Ok(())
}
