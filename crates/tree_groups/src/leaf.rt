//! A write of a group at the leaf that was read for it.
ghost use Rattle.std.specs.Prelude.{◌≡◌, true, MatchOption, OnOk, IfOk, IfErr};
ghost use Rattle.sled_nodes.specs.declared.error.Error.TheVariants.{NoMemory};
ghost use Rattle.sled_store.specs.Store.{now, IsReadRefused};
ghost use Rattle.tree_groups.specs.Groups.{IsSettled, job_of};
ghost use Rattle.tree_groups.specs.theory.Groups.{LinksWrite, MayChange, IsReadAgain, MakesAgain, StopsAgain};

use crate::group::write_from_root;
use crate::key_write::{KeyWrite, link_of};
use sled_nodes::{Node, Pid, Result, Version};
use sled_store::{Pages, View};
use sled_tree::lies_under;
use std::alloc::Global;
use std::ops::Bound;

/// Whether nothing is to be repaired at a leaf. Only of `true` something is promised: a write goes a longer way if it answers `false`, as it
/// does of a leaf that is to merge.
#[inline(always)]
pub fn is_settled(leaf: &View) -> bool
    ensures { result ≡ true → IsSettled leaf.now.node }
{
    let node: &Node = &leaf.node;
    !node.merging && node.merging_child.is_none() && !node.should_split() && !node.should_merge()
}

// Links a write at this version of its leaf: whether the leaf had it.
#[inline(always)]
pub(crate) fn link_write<P: Pages>(
    pages: &mut P,
    write: &KeyWrite,
    pid: Pid,
    version: Version,
) -> Result<bool>
    ensures { LinksWrite write.now pid version (P.store pages.old) result (P.store pages.new) }
{
    let link = match link_of(write.key, write.value) {
        Ok(link) => link,
        Err(e) => return Err(e),
    };
    match pages.link(pid, version, link) {
        Ok(Ok(_)) => Ok(true),
        Ok(Err(_)) => Ok(false),
        Err(e) => Err(e),
    }
}

// Whether a write may change a leaf in place: nothing is to be repaired there, its key is there, and it changes what the leaf has.
fn may_change(write: &KeyWrite, leaf: &View) -> Result<bool>
    ensures ok { IfOk result (λ may. may ≡ true → MayChange write.now leaf.now) }
    ensures err { IfErr result (λ e. e ≡ NoMemory) }
{
    let node: &Node = &leaf.node;
    let key = write.key.as_ref();
    if !is_settled(leaf) || !lies_under(node, Bound::Included(key)) {
        return Ok(false);
    }
    match node.get(key) {
        Ok(found) => {
            let stands = found == *write.value;
            drop(found);
            Ok(!stands)
        }
        Err(e) => Err(e),
    }
}

// The version that the page of this number has now, if the write may change the page.
fn version_again<P: Pages>(
    pages: &P,
    alloc: Global,
    write: &KeyWrite,
    pid: Pid,
) -> Result<Option<Version>>
    ensures ok { IfOk result (λ found. MatchOption found (Unit {0}) (IsReadAgain (now (P.store pages.now)) write.now pid)) }
    ensures err { IfErr result (IsReadRefused pid (P.store pages.now)) }
{
    let leaf = match pages.read(alloc, pid) {
        Ok(Some(leaf)) => leaf,
        Ok(None) => return Ok(None),
        Err(e) => return Err(e),
    };
    let version = leaf.version;
    let may = may_change(write, &leaf);
    drop(leaf);
    match may {
        Ok(true) => Ok(Some(version)),
        Ok(false) => Ok(None),
        Err(e) => Err(e),
    }
}

// Makes a write at the leaf that it had before, if it may change that as it is now, and else from the root.
pub(crate) fn write_again<P: Pages>(
    pages: &mut P,
    alloc: Global,
    write: &KeyWrite,
    pid: Pid,
) -> Result<()>
    ensures ok { OnOk result (MakesAgain (job_of write.now) pid (P.store pages.old) (P.store pages.new)) }
    ensures err { IfErr result (StopsAgain (job_of write.now) pid (P.store pages.old) (P.store pages.new)) }
{
    let version = match version_again(pages, alloc, write, pid) {
        Ok(Some(version)) => version,
        Ok(None) => return write_from_root(pages, alloc, write),
        Err(e) => return Err(e),
    };
    match link_write(pages, write, pid, version) {
        Ok(true) => Ok(()),
        Ok(false) => write_from_root(pages, alloc, write),
        Err(e) => Err(e),
    }
}
