//! One tree, level by level.
ghost use Rattle.std.specs.Prelude.{IfOk, IfErr, OnOk};
ghost use Rattle.sled_store.specs.Store.{now};
ghost use Rattle.tree_check.specs.Check.{RefusesCheck};
ghost use Rattle.tree_check.specs.theory.Walk.{RefusesPage, IsNewTree, FindsTree, LeadsDown, FindsLevel};

use crate::chain::{merging_children, read_chain};
use crate::findings::{DANGLING_POINTER, FOUND_TWICE, MISSING_ROOT, WRONG_ENTRIES, corruption};
use crate::levels::Level;
use crate::page::{first_child, page_at};
use crate::pointers::check_pointers;
use sled_nodes::{Error, Pid, Result};
use sled_store::{Pages, View};
use std::alloc::Global;
use std::collections::{BTreeMap, BTreeSet};
use std::mem;

// The page under the first pointer of a page that has not been passed, and that is so many levels below the root.
fn child_of<P: Pages>(
    alloc: Global,
    pages: &P,
    pid: Pid,
    below: u64,
    passed: &mut BTreeSet<u64>,
) -> Result<Option<Pid>>
    ensures err { IfErr result (RefusesCheck (P.store pages.now)) }
{
    let fault = if below == 0 {
        MISSING_ROOT
    } else {
        DANGLING_POINTER
    };
    match passed.insert(pid.0) {
        Ok(true) => (),
        Ok(false) => return Err(corruption(FOUND_TWICE)),
        Err(_) => return Err(Error::NoMemory),
    }
    let view = match page_at(alloc, pages, pid, fault) {
        Ok(view) => view,
        Err(e) => return Err(e),
    };
    let child = first_child(alloc, &view.node);
    drop(view);
    child
}

// How many levels are below the root, by first pointers. It says only at which height the levels begin; that the leaves are at
// height 0 is tested when they are read.
fn height_of<P: Pages>(alloc: Global, pages: &P, root: Pid) -> Result<u64>
    ensures err { IfErr result (RefusesCheck (P.store pages.now)) }
{
    let mut passed = BTreeSet::new(alloc);
    let mut pid = root;
    for below in 0..u64::MAX {
        match child_of(alloc, pages, pid, below, &mut passed) {
            Ok(Some(child)) => pid = child,
            Ok(None) => {
                drop(passed);
                return Ok(below);
            }
            Err(e) => {
                drop(passed);
                return Err(e);
            }
        }
    }
    drop(passed);
    Err(corruption(FOUND_TWICE))
}

// The page under the first pointer of a level.
fn first_below(alloc: Global, above: &[View]) -> Result<Pid>
    ensures ok { IfOk result (λ first. LeadsDown above.now first) }
    ensures err { IfErr result RefusesPage }
{
    match above.first() {
        Some(view) => match first_child(alloc, &view.node) {
            Ok(Some(child)) => Ok(child),
            Ok(None) => Err(corruption(WRONG_ENTRIES)),
            Err(e) => Err(e),
        },
        None => Err(corruption(WRONG_ENTRIES)),
    }
}

// The pages of the level below these, after a test of all of them and of the pointers to them.
fn check_level<P: Pages>(
    alloc: Global,
    pages: &P,
    above: &[View],
    level: Level,
    levels: &mut BTreeMap<u64, Level>,
) -> Result<Vec<View>>
    ensures ok { IfOk result (λ chain. FindsLevel (now (P.store pages.now)) above.now level chain.items levels.old levels.new) }
    ensures err { IfErr result (RefusesCheck (P.store pages.now)) }
{
    let first = match first_below(alloc, above) {
        Ok(first) => first,
        Err(e) => return Err(e),
    };
    let children = match merging_children(alloc, above) {
        Ok(children) => children,
        Err(e) => return Err(e),
    };
    let read = read_chain(alloc, pages, first, level, &children, levels);
    drop(children);
    let chain = match read {
        Ok(chain) => chain,
        Err(e) => return Err(e),
    };
    if let Err(e) = check_pointers(alloc, pages, above, chain.as_slice(), level, levels) {
        drop(chain);
        return Err(e);
    }
    Ok(chain)
}

/// Tests the tree with this root, which is the tree of this position among the roots. Its uppermost level begins with the root, and has no
/// level above it.
pub fn check_tree<P: Pages>(
    alloc: Global,
    pages: &P,
    root: Pid,
    tree: u64,
    levels: &mut BTreeMap<u64, Level>,
) -> Result<()>
    requires new { IsNewTree tree levels.old }
    ensures ok { OnOk result (FindsTree (now (P.store pages.now)) root tree levels.old levels.new) }
    ensures err { IfErr result (RefusesCheck (P.store pages.now)) }
{
    let top = match height_of(alloc, pages, root) {
        Ok(top) => top,
        Err(e) => return Err(e),
    };
    let no_children = BTreeSet::new(alloc);
    let read = read_chain(
        alloc,
        pages,
        root,
        Level { tree, height: top },
        &no_children,
        levels,
    );
    drop(no_children);
    let mut above = match read {
        Ok(chain) => chain,
        Err(e) => return Err(e),
    };
    for passed in 0..top {
        let height = top - passed - 1;
        match check_level(
            alloc,
            pages,
            above.as_slice(),
            Level { tree, height },
            levels,
        ) {
            Ok(chain) => {
                let old = mem::replace(&mut above, chain);
                drop(old);
            }
            Err(e) => {
                drop(above);
                return Err(e);
            }
        }
    }
    drop(above);
    Ok(())
}
