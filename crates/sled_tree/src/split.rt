//! A split: the right half becomes a new page, then the page becomes its left half, then the right half gets its pointer.
//!
//! Between any two of these steps the tree is whole. A right half that is not needed is freed.
ghost use Rattle.sled_tree.specs.Course.{course};
ghost use Rattle.sled_tree.specs.theory.StageAction.{StageAction};
ghost use Rattle.sled_tree.specs.Follows.{OrRefused, follows_split, follows_install_left, follows_post, FreesOrphan};

use crate::flight::{Aim, Job, Sequel};
use sled_store::{Pages, law_given};
use std::alloc::Global;
use tree_laws::flight::{Hoist, InstallLeft, Orphan, Post, Posting, Split, Stage};
use tree_laws::half::Half;

// Makes the right half.
pub(crate) fn halve<P: Pages>(
    pages: &mut P,
    alloc: Global,
    job: &Job,
    aim: &Aim,
    split: Split,
) -> Sequel
    ensures moves { StageAction (course job.now aim.now) (P.store pages.old) (Stage.Split split) result (P.store pages.new) }
    ensures follows { OrRefused (P.store pages.old) (P.store pages.new) result (follows_split (P.store pages.old) (P.store pages.new) split result) }
{
    if !split.page.node.should_split() {
        drop(split);
        return Sequel::Go(Stage::Root);
    }
    let (left, right) = match split.page.node.split(alloc) {
        Err(e) => {
            drop(split);
            return Sequel::Refused(e);
        }
        Ok(halves) => halves,
    };
    let mut left = match Half::new(alloc, left) {
        Err(e) => {
            drop(right);
            drop(split);
            return Sequel::Refused(e);
        }
        Ok(left) => left,
    };
    let at = match right.lo.clone() {
        Err(e) => {
            drop(left);
            drop(right);
            drop(split);
            return Sequel::Refused(e);
        }
        Ok(at) => at,
    };
    let (right, version) = match pages.allocate(right) {
        Err(e) => {
            drop(at);
            drop(left);
            drop(split);
            return Sequel::Refused(e);
        }
        Ok(given) => given,
    };
    law_given(pages);
    let Split { page, posting } = split;
    left.set_next(right);
    Sequel::Go(Stage::InstallLeft(InstallLeft {
        page,
        posting,
        left,
        at,
        right,
        version,
    }))
}

// Replaces the page by its left half.
pub(crate) fn install_left<P: Pages>(
    pages: &mut P,
    job: &Job,
    aim: &Aim,
    split: InstallLeft,
) -> Sequel
    ensures moves { StageAction (course job.now aim.now) (P.store pages.old) (Stage.InstallLeft split) result (P.store pages.new) }
    ensures follows { OrRefused (P.store pages.old) (P.store pages.new) result (follows_install_left (P.store pages.old) (P.store pages.new) split result) }
{
    let InstallLeft {
        page,
        posting,
        left,
        at,
        right,
        version,
    } = split;
    let (pid, seen) = (page.pid, page.version);
    drop(page);
    match pages.replace(pid, seen, left.into_node()) {
        Err(e) => {
            drop(posting);
            drop(at);
            Sequel::Refused(e)
        }
        Ok(Err(_)) => {
            drop(posting);
            drop(at);
            Sequel::Go(Stage::Free(Orphan {
                pid: right,
                version,
            }))
        }
        Ok(Ok(_)) => match posting {
            Posting::Parent(parent) => Sequel::Go(Stage::Post(Post {
                parent,
                at,
                pid: right,
            })),
            Posting::Root => {
                drop(posting);
                Sequel::Go(Stage::Hoist(Hoist {
                    left: pid,
                    at,
                    right,
                }))
            }
            Posting::Nowhere => {
                drop(posting);
                drop(at);
                Sequel::Go(Stage::Root)
            }
        },
    }
}

// Puts a pointer to a page into its parent, if it has none.
pub(crate) fn post<P: Pages>(
    pages: &mut P,
    alloc: Global,
    job: &Job,
    aim: &Aim,
    post: Post,
) -> Sequel
    ensures moves { StageAction (course job.now aim.now) (P.store pages.old) (Stage.Post post) result (P.store pages.new) }
    ensures follows { OrRefused (P.store pages.old) (P.store pages.new) result (follows_post (P.store pages.old) (P.store pages.new) post result) }
{
    let Post { parent, at, pid } = post;
    let (index, version) = (parent.pid, parent.version);
    let copy = parent.node.clone(alloc);
    drop(parent);
    let mut node = match copy {
        Err(e) => {
            drop(at);
            return Sequel::Refused(e);
        }
        Ok(node) => node,
    };
    match node.parent_split(at, pid) {
        Err(e) => {
            drop(node);
            return Sequel::Refused(e);
        }
        Ok(false) => {
            drop(node);
            return Sequel::Go(Stage::Root);
        }
        Ok(true) => {}
    }
    match pages.replace(index, version, node) {
        Err(e) => Sequel::Refused(e),
        Ok(_) => Sequel::Go(Stage::Root),
    }
}

// Frees a page that is no part of any tree.
pub(crate) fn free<P: Pages>(pages: &mut P, job: &Job, aim: &Aim, own: Orphan) -> Sequel
    ensures moves { StageAction (course job.now aim.now) (P.store pages.old) (Stage.Free own) result (P.store pages.new) }
    ensures follows { OrRefused (P.store pages.old) (P.store pages.new) result (FreesOrphan (P.store pages.old) (P.store pages.new) own result) }
{
    match pages.free(own.pid, own.version) {
        Err(e) => Sequel::Refused(e),
        Ok(_) => Sequel::Go(Stage::Root),
    }
}
