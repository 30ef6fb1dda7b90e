//! The pages of a tree that is dropped.
//!
//! The removal of the tree's root decides: from then on no walk finds the tree. Its pages are freed after that. A refusal there leaves
//! pages that no tree has, and so do a page that was received by the one before it, and the pages that calls in flight made for
//! themselves: those are not looked for.
ghost use Rattle.std.specs.Prelude.{◌≡◌, length, IfOk, IfErr, OnOk, Some, None};
ghost use Rattle.sled_store.specs.State.{nodes_of};
ghost use Rattle.sled_store.specs.Store.{now};
ghost use Rattle.tree_laws.specs.Contents.{page_numbers};
ghost use Rattle.sled_tree.specs.theory.StageAction.{is_action_refused_as};
ghost use Rattle.tree_pages.specs.theory.Drops.{first_pages_down, FreesPage, FreesLevel, FreesFrom, DropsRoot};
ghost use Rattle.tree_pages.specs.theory.Export.{RefusesRead};

use crate::export::first_child;
use sled_nodes::{Pid, Result};
use sled_store::Pages;
use std::alloc::Global;

// The first page of each level of a tree, from its root down.
fn first_pages<P: Pages>(alloc: Global, pages: &P, root: Pid) -> Result<Vec<Pid>>
    ensures ok { IfOk result (λ firsts. firsts.items ≡ first_pages_down page_numbers (nodes_of (now (P.store pages.now))) (Some root)) }
    ensures err { IfErr result (RefusesRead (P.store pages.now)) }
{
    let mut firsts = Vec::new(alloc);
    let mut cursor = Some(root);
    for level in 0..u64::MAX {
        let Some(pid) = cursor else {
            return Ok(firsts);
        };
        firsts.push(pid)?;
        cursor = first_child(alloc, pages, pid)?;
    }
    match cursor {
        None => Ok(firsts),
        Some(pid) => {
            firsts.push(pid)?;
            Ok(firsts)
        }
    }
}

// Frees a page, and answers the one behind it; `None` too if it is not there, or a refusal keeps it.
fn free_page<P: Pages>(alloc: Global, pages: &mut P, pid: Pid) -> Option<Pid>
    ensures { FreesPage pid (P.store pages.old) result (P.store pages.new) }
{
    let Ok(Some(view)) = pages.read(alloc, pid) else {
        return None;
    };
    let next = view.node.next;
    let version = view.version;
    drop(view);
    match pages.free(pid, version) {
        Ok(Ok(())) => next,
        _ => None,
    }
}

// Frees the pages of a level, from its first on, up to a refusal.
fn free_level<P: Pages>(alloc: Global, pages: &mut P, first: Pid)
    ensures { FreesLevel first (P.store pages.old) (P.store pages.new) }
{
    let mut cursor = Some(first);
    for page in 0..u64::MAX {
        let Some(pid) = cursor else {
            return;
        };
        cursor = free_page(alloc, pages, pid);
    }
}

// Frees the pages of the levels that begin with these, the last level first.
fn free_levels<P: Pages>(alloc: Global, pages: &mut P, firsts: &[Pid])
    ensures { FreesFrom firsts.now (length firsts.now) (P.store pages.old) (P.store pages.new) }
{
    for level in 0..firsts.len() {
        free_level(alloc, pages, firsts[firsts.len() - 1 - level]);
    }
}

/// Takes the root of a tree out, and then frees the tree's pages. It is refused before the root goes, or not at all.
pub fn drop_root<P: Pages>(alloc: Global, pages: &mut P, name: &[u8], root: Pid) -> Result<()>
    requires { (now (P.store pages.old)).roots name.now ≡ Some root }
    ensures ok { OnOk result (DropsRoot name.now (P.store pages.old) (P.store pages.new)) }
    ensures err { IfErr result (λ e. is_action_refused_as e (P.store pages.old) (P.store pages.new)) }
{
    let firsts = match first_pages(alloc, pages, root) {
        Ok(firsts) => firsts,
        Err(e) => return Err(e),
    };
    match pages.cas_root(name, Some(root), None) {
        Ok(Ok(())) => {}
        Ok(Err(_)) => unreachable!(),
        Err(e) => {
            drop(firsts);
            return Err(e);
        }
    }
    free_levels(alloc, pages, firsts.as_slice());
    drop(firsts);
    Ok(())
}
