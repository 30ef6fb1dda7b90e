//! A merge of a page into the one before it, in five changing actions. The parent takes the page for its merging child, and the child is
//! capped and does not change any more. The page before it receives what it holds, the pointer to it goes, and it is freed.
//!
//! A call that finds a half-done merge continues it, from what the pages show.
ghost use Rattle.std.specs.Prelude.{◌≡◌, ◌↔◌, ◌⊎◌, [], false, true, Some, None, IsTrue, IfOk, IfErr};
ghost use Rattle.sled_nodes.specs.declared.error.Error.TheVariants.{NoMemory};
ghost use Rattle.sled_nodes.specs.Order.{UpTo};
ghost use Rattle.sled_tree.specs.Course.{course};
ghost use Rattle.sled_tree.specs.theory.StageAction.{AfterRead, StageAction};
ghost use Rattle.sled_tree.specs.Follows.{ResumesMerge, BeginsMerge, follows_child, follows_cursor, follows_search, follows_met, FollowsPage, OrRefused, follows_intend, follows_cap, follows_receive, follows_confirm};
ghost use Rattle.sled_tree.specs.declared.flight.Sequel.TheVariants.{Go};
ghost use Rattle.tree_laws.specs.declared.flight.Stage.TheVariants as stage;

use crate::flight::{Aim, Job, Sequel};
use sled_nodes::{Link, Node, Pid, Result, Shared, Version};
use sled_store::{Pages, View};
use std::alloc::Global;
use tree_laws::flight::{Cap, Confirm, Merge, Orphan, Posting, Receive, Seek, Split, Stage};

// A page merges into the one before it.
pub(crate) fn begin(parent: View, child: Pid) -> Sequel
    ensures { BeginsMerge parent child result }
{
    match parent.node.pointer_before(child) {
        None => {
            drop(parent);
            Sequel::Go(Stage::Root)
        }
        Some(before) => Sequel::Go(Stage::Intend(Merge {
            parent,
            child,
            before,
        })),
    }
}

// The node with a merging child.
fn with_child(alloc: Global, node: &Node, child: Pid) -> Result<Shared>
    ensures ok { IfOk result (λ made. made ≡ record node.now { merging_child = Some child }) }
    ensures err { IfErr result (λ e. e ≡ NoMemory) }
{
    let mut node = node.clone(alloc)?;
    node.merging_child = Some(child);
    Shared::new(alloc, node)
}

// The node when it is merging.
fn merging(alloc: Global, node: &Node) -> Result<Shared>
    ensures ok { IfOk result (λ made. made ≡ record node.now { merging = true }) }
    ensures err { IfErr result (λ e. e ≡ NoMemory) }
{
    let mut node = node.clone(alloc)?;
    node.merging = true;
    Shared::new(alloc, node)
}

// The parent takes the page for its merging child. All that wants memory comes before the link.
pub(crate) fn intend<P: Pages>(
    pages: &mut P,
    alloc: Global,
    job: &Job,
    aim: &Aim,
    merge: Merge,
) -> Sequel
    ensures moves { StageAction (course job.now aim.now) (P.store pages.old) (Stage.Intend merge) result (P.store pages.new) }
    ensures follows { OrRefused (P.store pages.old) (P.store pages.new) result (follows_intend (P.store pages.old) (P.store pages.new) merge result) }
{
    let Merge {
        parent,
        child,
        before,
    } = merge;
    let (pid, version) = (parent.pid, parent.version);
    let intending = with_child(alloc, &parent.node, child);
    drop(parent);
    let node = match intending {
        Err(e) => return Sequel::Refused(e),
        Ok(node) => node,
    };
    match pages.link(pid, version, Link::ParentMergeIntention(child)) {
        Err(e) => {
            drop(node);
            Sequel::Refused(e)
        }
        Ok(Err(_)) => {
            drop(node);
            Sequel::Go(Stage::Root)
        }
        Ok(Ok(version)) => Sequel::Go(Stage::Child(Merge {
            parent: View { pid, version, node },
            child,
            before,
        })),
    }
}

// A page was read that has a merging child: that merge goes on first.
pub(crate) fn help(view: View, child: Pid) -> Sequel
    ensures { ResumesMerge view child result }
{
    match view.node.pointer_before(child) {
        None => {
            drop(view);
            Sequel::Go(Stage::Root)
        }
        Some(before) => Sequel::Go(Stage::Child(Merge {
            parent: view,
            child,
            before,
        })),
    }
}

// Reads the merging child.
pub(crate) fn read_child<P: Pages>(
    pages: &P,
    alloc: Global,
    job: &Job,
    aim: &Aim,
    merge: Merge,
) -> Sequel
    ensures moves { StageAction (course job.now aim.now) (P.store pages.now) (Stage.Child merge) result (P.store pages.now) }
    ensures follows { FollowsPage (P.store pages.now) merge.child (follows_child merge) result }
{
    match pages.read(alloc, merge.child) {
        Err(e) => {
            drop(merge);
            Sequel::Refused(e)
        }
        Ok(None) => {
            drop(merge);
            Sequel::Go(Stage::Root)
        }
        Ok(Some(view)) => at_child(job, aim, merge, view),
    }
}

// What comes after the merging child was read.
fn at_child(job: &Job, aim: &Aim, merge: Merge, view: View) -> Sequel
    ensures reads { AfterRead (course job.now aim.now) (Stage.Child merge) merge.child view result }
    ensures follows { follows_child merge view result }
{
    let read: &Node = &view.node;
    if read.merging {
        return Sequel::Go(Stage::Seek(Seek {
            cursor: merge.before,
            merge,
            version: view.version,
            node: view.node,
        }));
    }
    if let Some(child) = read.merging_child {
        drop(merge);
        return help(view, child);
    }
    Sequel::Go(Stage::Cap(Cap {
        merge,
        version: view.version,
        node: view.node,
    }))
}

// Caps the merging child. All that wants memory comes before the link.
pub(crate) fn cap<P: Pages>(pages: &mut P, alloc: Global, job: &Job, aim: &Aim, cap: Cap) -> Sequel
    ensures moves { StageAction (course job.now aim.now) (P.store pages.old) (Stage.Cap cap) result (P.store pages.new) }
    ensures follows { OrRefused (P.store pages.old) (P.store pages.new) result (follows_cap (P.store pages.old) (P.store pages.new) cap result) }
{
    let Cap {
        merge,
        version,
        node,
    } = cap;
    let capped = merging(alloc, &node);
    drop(node);
    let node = match capped {
        Err(e) => {
            drop(merge);
            return Sequel::Refused(e);
        }
        Ok(node) => node,
    };
    match pages.link(merge.child, version, Link::ChildMergeCap) {
        Err(e) => {
            drop(merge);
            drop(node);
            Sequel::Refused(e)
        }
        Ok(Err(None)) => {
            drop(merge);
            drop(node);
            Sequel::Go(Stage::Root)
        }
        Ok(Err(Some(_))) => {
            drop(node);
            Sequel::Go(Stage::Child(merge))
        }
        Ok(Ok(version)) => Sequel::Go(Stage::Seek(Seek {
            cursor: merge.before,
            merge,
            version,
            node,
        })),
    }
}

// Whether the page goes on at the merging child.
fn leads_to(view: &View, seek: &Seek) -> bool
    ensures { IsTrue result ↔ (view.now.node.next ≡ Some seek.now.merge.child) }
{
    view.node.next == Some(seek.merge.child)
}

// Whether the page reaches the place where the merging child begins, or beyond it.
#[tactic(auto, unfolding(sled_nodes::specs::Order::key_cmp))]
fn reaches(view: &View, seek: &Seek) -> bool
    ensures { IsTrue result ↔ ((view.now.node.hi ≡ []) ⊎ UpTo seek.now.node.lo view.now.node.hi) }
{
    view.node.hi.len() == 0 || seek.node.lo.as_ref().cmp(view.node.hi.as_ref()).is_le()
}

// The child was received: its pointer is to go.
fn to_confirm(merge: Merge, version: Version) -> Sequel
    ensures { result ≡ Go (stage.Confirm (record { parent = merge.parent; child = merge.child; version = version })) }
{
    Sequel::Go(Stage::Confirm(Confirm {
        parent: merge.parent,
        child: merge.child,
        version,
    }))
}

// Reads the cursor of the search for the page before the merging child.
pub(crate) fn seek<P: Pages>(pages: &P, alloc: Global, job: &Job, aim: &Aim, seek: Seek) -> Sequel
    ensures moves { StageAction (course job.now aim.now) (P.store pages.now) (Stage.Seek seek) result (P.store pages.now) }
    ensures follows { FollowsPage (P.store pages.now) seek.cursor (follows_cursor seek) result }
{
    match pages.read(alloc, seek.cursor) {
        Err(e) => {
            drop(seek);
            Sequel::Refused(e)
        }
        Ok(None) => {
            drop(seek);
            Sequel::Go(Stage::Root)
        }
        Ok(Some(view)) => at_cursor(job, aim, seek, view),
    }
}

// What comes after the cursor of the search was read.
fn at_cursor(job: &Job, aim: &Aim, seek: Seek, view: View) -> Sequel
    ensures looks { AfterRead (course job.now aim.now) (Stage.Seek seek) seek.cursor view result }
    ensures follows { follows_cursor seek view result }
{
    let node: &Node = &view.node;
    if node.merging {
        drop(view);
        drop(seek);
        return Sequel::Go(Stage::Root);
    }
    if let Some(child) = node.merging_child {
        drop(seek);
        return help(view, child);
    }
    compare(job, aim, seek, view)
}

// An open page, before the merging child or at it.
fn compare(job: &Job, aim: &Aim, seek: Seek, view: View) -> Sequel
    requires not_merging { view.node.merging ≡ false }
    requires free { view.node.merging_child ≡ None }
    ensures looks { AfterRead (course job.now aim.now) (Stage.Seek seek) seek.cursor view result }
    ensures follows { follows_search seek view result }
{
    if leads_to(&view, &seek) {
        return meet(job, aim, seek, view);
    }
    if reaches(&view, &seek) {
        drop(view);
        drop(seek.node);
        return to_confirm(seek.merge, seek.version);
    }
    match view.node.next {
        None => {
            drop(view);
            drop(seek);
            Sequel::Go(Stage::Root)
        }
        Some(cursor) => {
            drop(view);
            Sequel::Go(Stage::Seek(Seek { cursor, ..seek }))
        }
    }
}

// The page before the merging child: it receives the child, or is split first.
fn meet(job: &Job, aim: &Aim, seek: Seek, view: View) -> Sequel
    requires not_merging { view.node.merging ≡ false }
    requires free { view.node.merging_child ≡ None }
    requires leads { view.node.next ≡ Some seek.merge.child }
    ensures looks { AfterRead (course job.now aim.now) (Stage.Seek seek) seek.cursor view result }
    ensures follows { follows_met seek view result }
{
    if view.node.should_split() {
        drop(seek);
        return Sequel::Go(Stage::Split(Split {
            page: view,
            posting: Posting::Nowhere,
        }));
    }
    Sequel::Go(Stage::Receive(Receive {
        merge: seek.merge,
        version: seek.version,
        node: seek.node,
        left: view,
    }))
}

// The page before the merging child receives it.
pub(crate) fn receive<P: Pages>(
    pages: &mut P,
    alloc: Global,
    job: &Job,
    aim: &Aim,
    receive: Receive,
) -> Sequel
    ensures moves { StageAction (course job.now aim.now) (P.store pages.old) (Stage.Receive receive) result (P.store pages.new) }
    ensures follows { OrRefused (P.store pages.old) (P.store pages.new) result (follows_receive (P.store pages.old) (P.store pages.new) receive result) }
{
    let Receive {
        merge,
        version,
        node,
        left,
    } = receive;
    let (cursor, seen) = (left.pid, left.version);
    let received = left.node.receive_merge(alloc, &node);
    drop(left);
    let both = match received {
        Err(e) => {
            drop(merge);
            drop(node);
            return Sequel::Refused(e);
        }
        Ok(both) => both,
    };
    match pages.replace(cursor, seen, both) {
        Err(e) => {
            drop(merge);
            drop(node);
            Sequel::Refused(e)
        }
        Ok(Err(None)) => {
            drop(merge);
            drop(node);
            Sequel::Go(Stage::Root)
        }
        Ok(Err(Some(_))) => Sequel::Go(Stage::Seek(Seek {
            merge,
            version,
            node,
            cursor,
        })),
        Ok(Ok(_)) => {
            drop(node);
            to_confirm(merge, version)
        }
    }
}

// The pointer to the received child goes.
pub(crate) fn confirm<P: Pages>(pages: &mut P, job: &Job, aim: &Aim, confirm: Confirm) -> Sequel
    ensures moves { StageAction (course job.now aim.now) (P.store pages.old) (Stage.Confirm confirm) result (P.store pages.new) }
    ensures follows { OrRefused (P.store pages.old) (P.store pages.new) result (follows_confirm (P.store pages.old) (P.store pages.new) confirm result) }
{
    let Confirm {
        parent,
        child,
        version,
    } = confirm;
    let (pid, seen) = (parent.pid, parent.version);
    drop(parent);
    match pages.link(pid, seen, Link::ParentMergeConfirm) {
        Err(e) => Sequel::Refused(e),
        Ok(Err(_)) => Sequel::Go(Stage::Root),
        Ok(Ok(_)) => Sequel::Go(Stage::Free(Orphan {
            pid: child,
            version,
        })),
    }
}
