//! What a walk does at a page that it cannot pass.
//!
//! A split or a merge that was left half done goes on, a page that is too long is split, and one of few entries merges. A page that
//! is behind the walk, or that a merge took away, sends it on or back to the root.
ghost use Rattle.std.specs.Prelude.{◌≡◌, ◌≤◌, ◌↔◌, IsTrue};
ghost use Rattle.std.specs.Prelude.{None, false};
ghost use Rattle.sled_nodes.specs.Among.{bound_of};
ghost use Rattle.sled_nodes.specs.Node.{count};
ghost use Rattle.tree_laws.specs.Stages.{parent_of};
ghost use Rattle.tree_laws.specs.declared.flight.Reached.TheVariants as way;
ghost use Rattle.tree_laws.specs.declared.flight.Stage.TheVariants as stage;
ghost use Rattle.sled_tree.specs.Course.{aim_of, course};
ghost use Rattle.sled_tree.specs.theory.Descent.{RepairsParent, NeedsRepair};
ghost use Rattle.sled_tree.specs.theory.StageAction.{AfterPage};
ghost use Rattle.sled_tree.specs.Follows.{follows_read, follows_here, posting_of, onward, pointed, OrNoMemory, BeginsMerge, EndsWithin};
ghost use Rattle.sled_tree.specs.theory.Passing.{AdvancesFromPage};
ghost use Rattle.sled_tree.specs.declared.flight.Sequel.TheVariants.{Go};

use crate::flight::{Aim, Job, Sequel};
use crate::{merge, walk};
use sled_nodes::{Node, is_up_to};
use sled_store::View;
use std::ops::Bound;
use tree_laws::flight::{Hoist, Post, Posting, Reached, Split, Stage, Walk};

// The index that a page was reached through, if it is not the root.
fn into_parent(reached: Reached) -> Option<View>
    ensures { result ≡ parent_of reached }
{
    match reached {
        Reached::Root => None,
        Reached::FirstPointer(parent) => Some(parent),
        Reached::LaterPointer(parent) => Some(parent),
        Reached::Next(parent) => Some(parent),
    }
}

// Whether a node ends within a target.
fn ends_within(node: &Node, target: Bound<&[u8]>) -> bool
    ensures { IsTrue result ↔ EndsWithin node.now (bound_of target.entry) }
{
    node.hi.len() != 0 && is_up_to(node.hi.as_ref(), target)
}

// What comes after a page was read at which something is to be repaired, or which is not under the aim.
pub(crate) fn repair(job: &Job, aim: &Aim, view: View, reached: Reached) -> Sequel
    requires { NeedsRepair (course job.now aim.now) reached view }
    ensures arrives { AfterPage (course job.now aim.now) view reached result }
    ensures passes { AdvancesFromPage (course job.now aim.now) view reached result }
    ensures follows { follows_read (course job.now aim.now) view reached result }
{
    let node: &Node = &view.node;
    if node.merging {
        drop(view);
        drop(reached);
        return Sequel::Go(Stage::Root);
    }
    if let Some(child) = node.merging_child {
        drop(reached);
        return merge::help(view, child);
    }
    if node.should_split() {
        return split(job, aim, view, reached);
    }
    if ends_within(node, walk::target(job, aim)) {
        return go_on(job, aim, view, reached);
    }
    if !walk::lies_under(node, walk::target(job, aim)) {
        drop(view);
        drop(reached);
        return Sequel::Go(Stage::Root);
    }
    repair_parent(job, aim, view, reached)
}

// A page that is too long.
fn split(job: &Job, aim: &Aim, view: View, reached: Reached) -> Sequel
    requires not_merging { view.node.merging ≡ false }
    requires free { view.node.merging_child ≡ None }
    ensures arrives { AfterPage (course job.now aim.now) view reached result }
    ensures follows { result ≡ Go (stage.Split (record { page = view; posting = posting_of (parent_of reached) })) }
{
    match into_parent(reached) {
        Some(parent) => Sequel::Go(Stage::Split(Split {
            page: view,
            posting: Posting::Parent(parent),
        })),
        None => Sequel::Go(Stage::Split(Split {
            page: view,
            posting: Posting::Root,
        })),
    }
}

// The target is behind the page: a root is hoisted, and below a parent the walk goes on to the next page.
fn go_on(job: &Job, aim: &Aim, view: View, reached: Reached) -> Sequel
    requires not_merging { view.node.merging ≡ false }
    requires free { view.node.merging_child ≡ None }
    requires behind { EndsWithin view.node (aim_of job.now aim.now) }
    ensures arrives { AfterPage (course job.now aim.now) view reached result }
    ensures follows { OrNoMemory result (onward view view.node.next (parent_of reached)) }
{
    let pid = view.pid;
    let Some(next) = view.node.next else {
        drop(view);
        drop(reached);
        return Sequel::Go(Stage::Root);
    };
    match into_parent(reached) {
        None => {
            let at = view.node.hi.clone();
            drop(view);
            match at {
                Err(e) => Sequel::Refused(e),
                Ok(at) => Sequel::Go(Stage::Hoist(Hoist {
                    left: pid,
                    at,
                    right: next,
                })),
            }
        }
        Some(parent) => {
            drop(view);
            Sequel::Go(Stage::Walk(Walk {
                cursor: next,
                reached: Reached::Next(parent),
            }))
        }
    }
}

// A page that its parent has to change for: it has no pointer there, or it merges.
fn repair_parent(job: &Job, aim: &Aim, view: View, reached: Reached) -> Sequel
    requires not_merging { view.node.merging ≡ false }
    requires free { view.node.merging_child ≡ None }
    requires needed { RepairsParent reached (count view.node.content) }
    ensures arrives { AfterPage (course job.now aim.now) view reached result }
    ensures passes { AdvancesFromPage (course job.now aim.now) view reached result }
    ensures follows { follows_here (course job.now aim.now) view reached result }
{
    match reached {
        Reached::Next(parent) => post(job, aim, view, parent),
        Reached::LaterPointer(parent) => merge(job, aim, view, parent),
        _ => unreachable!(),
    }
}

// A page that was reached by `next`: its pointer is posted.
fn post(job: &Job, aim: &Aim, view: View, parent: View) -> Sequel
    requires not_merging { view.node.merging ≡ false }
    requires free { view.node.merging_child ≡ None }
    ensures arrives { AfterPage (course job.now aim.now) view (way.Next parent) result }
    ensures follows { OrNoMemory result (pointed view parent) }
{
    let pid = view.pid;
    let at = view.node.lo.clone();
    drop(view);
    match at {
        Ok(at) => Sequel::Go(Stage::Post(Post { parent, at, pid })),
        Err(e) => {
            drop(parent);
            Sequel::Refused(e)
        }
    }
}

// A page of few entries merges into the one before it.
fn merge(job: &Job, aim: &Aim, view: View, parent: View) -> Sequel
    requires not_merging { view.node.merging ≡ false }
    requires free { view.node.merging_child ≡ None }
    requires fits { count view.node.content ≤ 3 }
    ensures arrives { AfterPage (course job.now aim.now) view (way.LaterPointer parent) result }
    ensures follows { BeginsMerge parent view.pid result }
{
    let pid = view.pid;
    drop(view);
    merge::begin(parent, pid)
}
