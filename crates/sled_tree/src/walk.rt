//! The walk of a call from the root to its leaf.
//!
//! Each step of it reads one page. At most pages nothing is to be repaired: there the walk goes on in place, so that a stage is neither
//! moved nor made anew.
//!
//! Every call takes most of its time here. So what a step does at such a page is inlined wherever a step is made; left to itself LLVM
//! does that only if there is one such place. Repairs are not (`mend`): with them the step would be so long that its own hint is dropped.
//! And the outcome of a step (`Descent`) is short, since it is copied at each page.
ghost use Rattle.std.specs.Prelude.{◌≡◌, ◌<◌, ◌↔◌, false, true, is_none, MatchOption, IsTrue, IfOk, IfErr};
ghost use Rattle.std.specs.declared.ops.Bound.TheVariants.{Included};
ghost use Rattle.sled_nodes.specs.Among.{IsPointerFor, bound_of};
ghost use Rattle.sled_nodes.specs.Node.{count, pointers};
ghost use Rattle.sled_nodes.specs.Posting.{IsOpen};
ghost use Rattle.sled_store.specs.Store.{Store};
ghost use Rattle.sled_model.specs.State.{range_of, IsOnKey};
ghost use Rattle.tree_laws.specs.Snapshot.{LiesUnder};
ghost use Rattle.tree_laws.specs.Stages.{by_pointer as reached_by};
ghost use Rattle.sled_nodes.specs.declared.error.Error.TheVariants.{NoMemory};
ghost use Rattle.sled_tree.specs.theory.Change.{IsLeaf, IsIndex};
ghost use Rattle.sled_tree.specs.Change.{reply_at};
ghost use Rattle.sled_tree.specs.Course.{start_of, first_aim, aim_of, course, course_of};
ghost use Rattle.sled_tree.specs.theory.Descent.{way_of, RepairsParent, IsClean, NeedsRepair, Meets, Leads, met_as, Descends, Settles};
ghost use Rattle.sled_tree.specs.theory.Stages.{IsOffWalk};
ghost use Rattle.tree_laws.specs.declared.flight.Stage.{Stage};
ghost use Rattle.tree_laws.specs.declared.flight.Stage.TheVariants as variant;

use crate::flight::{Aim, InFlight, Job, Sequel, Went};
use crate::repair::repair;
use sled_model::{Call, MAX_LOOPS, Reply};
use sled_nodes::{Data, Error, IVec, Node, Pid, Result, key_is_up_to, lend_bound};
use sled_store::{Pages, View};
use std::alloc::Global;
use std::ops::Bound;
use tree_laws::flight::{Giving, Reached, Stage, Walk};

// How far a step down came.
#[derive(Drop)]
pub(crate) enum Descent {
    // The stage is none of a walk. Nothing was done.
    None,
    // It passed an index.
    Further,
    // It read the leaf of the call's key, and nothing is to be repaired there. Nothing else was done so far.
    Leaf(View),
    // It read a page at which something is to be repaired, or which is not under the aim. Nothing else was done so far.
    Unclean(View),
    // It found no page, or an index without a pointer to go down by: the call begins again at the root.
    Lost,
    // The page was not read, and the call is refused.
    Refused(Error),
}

// How a walk reaches the page that a pointer of an index names, the first or a later one.
#[inline(always)]
fn by_pointer(parent: View, first: bool) -> Reached
    ensures { result ≡ reached_by parent first }
{
    if first {
        Reached::FirstPointer(parent)
    } else {
        Reached::LaterPointer(parent)
    }
}

// The key that a range begins at, from the least key up.
fn start_of(bound: &Bound<IVec>) -> &[u8]
    ensures { result.now ≡ start_of bound.now }
{
    match bound {
        Bound::Included(key) => key.as_ref(),
        Bound::Excluded(key) => key.as_ref(),
        Bound::Unbounded => &[],
    }
}

// What the first walk of a call aims at.
#[inline(always)]
fn first_aim(call: &Call) -> Bound<&[u8]>
    ensures { bound_of result ≡ first_aim call.now }
{
    match call {
        Call::Scan { lo, hi, back } => {
            if *back {
                lend_bound(hi)
            } else {
                Bound::Included(start_of(lo))
            }
        }
        call => Bound::Included(call.key()),
    }
}

// What the walk of a call aims at.
#[inline(always)]
pub(crate) fn target<'a>(job: &'a Job, aim: &'a Aim) -> Bound<&'a [u8]>
    ensures { bound_of result ≡ aim_of job.now aim.now }
{
    match aim {
        Aim::Own => first_aim(&job.call),
        Aim::At(bound) => lend_bound(bound),
    }
}

/// Whether a node begins within a target and does not end within it.
#[inline(always)]
pub fn lies_under(node: &Node, target: Bound<&[u8]>) -> bool
    ensures { IsTrue result ↔ LiesUnder (bound_of target.entry) node.now }
{
    key_is_up_to(&node.lo, target) && (node.hi.len() == 0 || !key_is_up_to(&node.hi, target))
}

// Whether the next step is one of a walk.
#[inline(always)]
pub(crate) fn is_on_walk(stage: &Stage) -> bool
    ensures { result ≡ true → IsOffWalk stage.now → ⊥ }
{
    match stage {
        Stage::Root => true,
        Stage::Walk(_) => true,
        _ => false,
    }
}

// Reads the page of a stage of a walk. There is none if the tree has no root.
#[inline(always)]
fn meet<P: Pages>(
    pages: &P,
    alloc: Global,
    job: &Job,
    aim: &Aim,
    stage: &Stage,
) -> Option<Result<Option<View>>>
    ensures { MatchOption result (IsOffWalk stage.now) (met_as (P.store pages.now) (course job.now aim.now) stage.now) }
{
    match stage {
        Stage::Root => match pages.root(job.tree.name.as_ref()) {
            Some(root) => Some(pages.read(alloc, root)),
            None => Some(Ok(None)),
        },
        Stage::Walk(walk) => Some(pages.read(alloc, walk.cursor)),
        _ => None,
    }
}

// How a stage reaches its page. The stage is taken.
#[inline(always)]
fn take_way(stage: &mut Stage) -> Reached
    ensures { result ≡ way_of stage.old }
{
    match std::mem::replace(stage, Stage::Root) {
        Stage::Walk(walk) => walk.reached,
        other => {
            drop(other);
            Reached::Root
        }
    }
}

// Whether the parent of an open page is to change for it: the page has no pointer there, or it merges.
#[inline(always)]
fn repairs_parent(stage: &Stage, node: &Node) -> bool
    ensures { IsOpen node.now → (IsTrue result ↔ RepairsParent (way_of stage.now) (count node.now.content)) }
{
    let Stage::Walk(walk) = stage else {
        return false;
    };
    match &walk.reached {
        Reached::Root => false,
        Reached::FirstPointer(_) => false,
        Reached::LaterPointer(parent) => node.should_merge() && parent.node.can_merge_child(),
        Reached::Next(_) => true,
    }
}

// Whether a node is under what a walk aims at. Most walks have a key, and that is tested once.
#[inline(always)]
fn is_under(job: &Job, aim: &Aim, node: &Node) -> bool
    ensures { IsTrue result ↔ LiesUnder (aim_of job.now aim.now) node.now }
{
    match target(job, aim) {
        Bound::Included(key) => lies_under(node, Bound::Included(key)),
        bound => lies_under(node, bound),
    }
}

// The pointer of an index that a walk goes down by, and whether it is the first.
#[inline(always)]
fn pointer_under(job: &Job, aim: &Aim, node: &Node) -> Option<(Pid, bool)>
    ensures { IsPointerFor (aim_of job.now aim.now) (pointers node.now.content) result }
{
    match target(job, aim) {
        Bound::Included(key) => node.pointer(Bound::Included(key)),
        bound => node.pointer(bound),
    }
}

// Whether nothing is to be repaired at a page, and it is under the aim.
#[inline(always)]
fn is_clean(job: &Job, aim: &Aim, stage: &Stage, view: &View) -> bool
    ensures clean { IsTrue result → IsClean (course job.now aim.now) (way_of stage.now) view.now }
    ensures unclean { result ≡ false → NeedsRepair (course job.now aim.now) (way_of stage.now) view.now }
{
    let node: &Node = &view.node;
    !node.merging
        && node.merging_child.is_none()
        && !node.should_split()
        && !repairs_parent(stage, node)
        && is_under(job, aim, node)
}

// The reply of a call at its leaf that changes nothing there. A call without one changes the leaf. Refused with `NoMemory` alone.
#[inline(always)]
pub(crate) fn reply_at(job: &Job, node: &Node) -> Result<Option<Reply>>
    ensures ok { IfOk result (λ reply. reply ≡ reply_at job.now.call node.now.content) }
    ensures err { IfErr result (λ e. e ≡ NoMemory) }
{
    job.call.at_read(node.get(job.call.key())?)
}

// Puts another stage in the place of one.
#[inline(always)]
fn set(stage: &mut Stage, new: Stage)
    ensures { stage.new ≡ new }
{
    let old = std::mem::replace(stage, new);
    drop(old);
}

// The walk goes on below an index. One that is under way is changed in place.
#[inline(always)]
fn walk_on(stage: &mut Stage, cursor: Pid, parent: View, first: bool)
    ensures { stage.new ≡ variant.Walk (record { cursor = cursor; reached = reached_by parent first }) }
{
    let reached = by_pointer(parent, first);
    match stage {
        Stage::Walk(walk) => {
            walk.cursor = cursor;
            let old = std::mem::replace(&mut walk.reached, reached);
            drop(old);
        }
        _ => set(stage, Stage::Walk(Walk { cursor, reached })),
    }
}

// At an index.
#[inline(always)]
fn at_index(job: &Job, aim: &Aim, view: View, stage: &mut Stage) -> Descent
    requires index { IsIndex view.node.content }
    requires clean { IsClean (course job.now aim.now) (way_of stage.old) view }
    ensures { (s : Store) → Meets s (course job.now aim.now) stage.old view → Descends s (course job.now aim.now) stage.old result stage.new }
{
    match pointer_under(job, aim, &view.node) {
        None => Descent::Lost,
        Some((cursor, first)) => {
            walk_on(stage, cursor, view, first);
            Descent::Further
        }
    }
}

// At the page of a stage of a walk.
#[inline(always)]
fn arrive(job: &Job, aim: &Aim, view: View, stage: &mut Stage) -> Descent
    ensures { (s : Store) → Meets s (course job.now aim.now) stage.old view → Descends s (course job.now aim.now) stage.old result stage.new }
{
    if !is_clean(job, aim, stage, &view) {
        return Descent::Unclean(view);
    }
    match &view.node.content {
        Data::Leaf(_) => Descent::Leaf(view),
        Data::Index(_) => at_index(job, aim, view, stage),
    }
}

// Does the step of a stage of a walk. It reads one page at most.
#[inline(always)]
pub(crate) fn descend<P: Pages>(
    pages: &P,
    alloc: Global,
    job: &Job,
    aim: &Aim,
    stage: &mut Stage,
) -> Descent
    ensures { Descends (P.store pages.now) (course job.now aim.now) stage.old result stage.new }
{
    match meet(pages, alloc, job, aim, stage) {
        None => Descent::None,
        Some(Ok(Some(view))) => arrive(job, aim, view, stage),
        Some(Ok(None)) => Descent::Lost,
        Some(Err(e)) => Descent::Refused(e),
    }
}

// The call goes on from a stage, or ends.
#[inline(always)]
pub(crate) fn settle(flight: &mut InFlight, next: Sequel) -> Went
    requires { flight.old.turns < MAX_LOOPS }
    ensures { (s : Store) (a : Stage) → Leads s (course_of flight.old) a next → Settles s (record { job = flight.old.job; aim = flight.old.aim; stage = a; turns = flight.old.turns }) result flight.new }
{
    match next {
        Sequel::Go(stage) => {
            set(&mut flight.stage, stage);
            flight.turns += 1;
            Went::Moved
        }
        Sequel::Decided(reply) => Went::Decided(reply),
        Sequel::Refused(e) => Went::Refused(e),
    }
}

// The rest of the step at a page at which something is to be repaired, or which is not under the aim, as at few pages.
#[inline(never)]
pub(crate) fn mend(flight: &mut InFlight, view: View) -> Went
    requires room { flight.old.turns < MAX_LOOPS }
    requires unclean { NeedsRepair (course_of flight.old) (way_of flight.old.stage) view }
    ensures { (s : Store) → Meets s (course_of flight.old) flight.old.stage view → Settles s flight.old result flight.new }
{
    let reached = take_way(&mut flight.stage);
    let next = repair(&flight.job, &flight.aim, view, reached);
    settle(flight, next)
}

// A scan keeps its leaf, to give the pairs.
#[inline(always)]
fn keep(flight: &mut InFlight, view: View) -> Went
    requires room { flight.old.turns < MAX_LOOPS }
    requires scan { is_none (range_of flight.old.job.call) ≡ false }
    requires leaf { IsLeaf view.node.content }
    requires clean { IsClean (course_of flight.old) (way_of flight.old.stage) view }
    ensures { (s : Store) → Meets s (course_of flight.old) flight.old.stage view → Settles s flight.old result flight.new }
{
    let giving = Giving {
        leaf: view,
        given: 0,
    };
    set(&mut flight.stage, Stage::Give(giving));
    flight.turns += 1;
    Went::Moved
}

// A call on a key that changes nothing of its leaf is decided, and any other is to link its change.
#[inline(always)]
fn decide(flight: &mut InFlight, view: View) -> Went
    requires room { flight.old.turns < MAX_LOOPS }
    requires on_key { IsOnKey flight.old.job.call }
    requires leaf { IsLeaf view.node.content }
    requires clean { IsClean (course_of flight.old) (way_of flight.old.stage) view }
    ensures { (s : Store) → Meets s (course_of flight.old) flight.old.stage view → Settles s flight.old result flight.new }
{
    match reply_at(&flight.job, &view.node) {
        Err(e) => {
            drop(view);
            Went::Refused(e)
        }
        Ok(Some(reply)) => {
            drop(view);
            Went::Decided(reply)
        }
        Ok(None) => {
            set(&mut flight.stage, Stage::Act(view));
            flight.turns += 1;
            Went::Moved
        }
    }
}

// The rest of the step at the leaf.
#[inline(always)]
pub(crate) fn at_leaf(flight: &mut InFlight, view: View) -> Went
    requires room { flight.old.turns < MAX_LOOPS }
    requires leaf { IsLeaf view.node.content }
    requires clean { IsClean (course_of flight.old) (way_of flight.old.stage) view }
    ensures { (s : Store) → Meets s (course_of flight.old) flight.old.stage view → Settles s flight.old result flight.new }
{
    if flight.job.call.is_on_key() {
        decide(flight, view)
    } else {
        keep(flight, view)
    }
}
