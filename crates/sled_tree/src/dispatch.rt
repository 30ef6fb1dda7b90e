//! One page action of a call in flight.
ghost use Rattle.std.specs.Prelude.{◌<◌};
ghost use Rattle.std.specs.Option.{option_map};
ghost use Rattle.sled_store.specs.Store.{now};
ghost use Rattle.sled_tree.specs.Course.{course};
ghost use Rattle.sled_tree.specs.theory.StageAction.{StageAction, FlightStep, FlightStepBy, Only};
ghost use Rattle.sled_tree.specs.theory.Linking.{StepsBy};
ghost use Rattle.sled_tree.specs.Follows.{Follows, FollowsOn};
ghost use Rattle.sled_tree.specs.Passing.{StepsOnPath};
ghost use Rattle.sled_tree.specs.Stages.{IsOnItsWay};
ghost use Rattle.sled_tree.specs.theory.Stages.{IsOffWalk, IsElsewhere};
ghost use Rattle.sled_tree.specs.theory.Walking.{WalksDown};

use crate::act::act;
use crate::flight::{Aim, InFlight, Job, Sequel, Went};
use crate::walk::Descent;
use crate::{hoist, merge, split, walk};
use sled_model::{MAX_LOOPS, MergeOperator};
use sled_store::Pages;
use std::alloc::Global;
use tree_laws::flight::Stage;

// Does the action of a stage of a repair: at most one page action.
fn step_elsewhere<P: Pages>(
    pages: &mut P,
    alloc: Global,
    job: &Job,
    aim: &Aim,
    stage: Stage,
) -> Sequel
    requires { IsElsewhere stage }
    ensures moves { StageAction (course job.now aim.now) (P.store pages.old) stage result (P.store pages.new) }
    ensures follows { Follows (course job.now aim.now) (P.store pages.old) stage result (P.store pages.new) }
{
    match stage {
        Stage::Split(split) => split::halve(pages, alloc, job, aim, split),
        Stage::InstallLeft(split) => split::install_left(pages, job, aim, split),
        Stage::Post(pointer) => split::post(pages, alloc, job, aim, pointer),
        Stage::Hoist(pair) => hoist::hoist(pages, alloc, job, aim, pair),
        Stage::SwapRoot(root) => hoist::swap_root(pages, job, aim, root),
        Stage::Free(own) => split::free(pages, job, aim, own),
        Stage::Intend(merge) => merge::intend(pages, alloc, job, aim, merge),
        Stage::Child(merge) => merge::read_child(pages, alloc, job, aim, merge),
        Stage::Cap(child) => merge::cap(pages, alloc, job, aim, child),
        Stage::Seek(search) => merge::seek(pages, alloc, job, aim, search),
        Stage::Receive(child) => merge::receive(pages, alloc, job, aim, child),
        Stage::Confirm(child) => merge::confirm(pages, job, aim, child),
        Stage::Root | Stage::Walk(_) | Stage::Act(_) | Stage::Give(_) => unreachable!(),
    }
}

// Does one step of a call in flight whose stage is one of a repair, and that has turns left: the stage is moved out, and the next one in.
#[inline(never)]
fn advance_elsewhere<P: Pages>(pages: &mut P, alloc: Global, flight: &mut InFlight) -> Went
    requires room { flight.old.turns < MAX_LOOPS }
    requires elsewhere { IsElsewhere flight.old.stage }
    ensures advances { FlightStep (P.store pages.old) flight.old result (P.store pages.new) flight.new }
    ensures passes { StepsOnPath (now (P.store pages.old)) flight.old result (now (P.store pages.new)) flight.new }
    ensures follows { FollowsOn (P.store pages.old) flight.old result (P.store pages.new) flight.new }
{
    let stage = std::mem::replace(&mut flight.stage, Stage::Root);
    match step_elsewhere(pages, alloc, &flight.job, &flight.aim, stage) {
        Sequel::Go(stage) => {
            let old = std::mem::replace(&mut flight.stage, stage);
            drop(old);
            flight.turns += 1;
            Went::Moved
        }
        Sequel::Decided(reply) => Went::Decided(reply),
        Sequel::Refused(e) => Went::Refused(e),
    }
}

// Does one step of a call in flight that is on no walk and has turns left. The operator is asked for at the link of the call's change
// alone.
#[inline(always)]
fn advance_stage<P: Pages, M: MergeOperator>(
    pages: &mut P,
    alloc: Global,
    operator: Option<&M>,
    flight: &mut InFlight,
) -> Went
    requires room { flight.old.turns < MAX_LOOPS }
    requires off { IsOffWalk flight.old.stage }
    requires way { IsOnItsWay flight.old.stage }
    ensures { StepsBy (option_map (λ o. M.meant o.now) operator.entry) (P.store pages.old) flight.old result (P.store pages.new) flight.new }
{
    match &flight.stage {
        Stage::Act(_) => act(pages, alloc, operator, flight),
        _ => advance_elsewhere(pages, alloc, flight),
    }
}

/// Does one step of a call in flight that has turns left: at most one page action. A merge is decided by the operator that its
/// tree has then. A scan that has its leaf is continued elsewhere.
pub fn advance<P: Pages, M: MergeOperator>(
    pages: &mut P,
    alloc: Global,
    operator: Option<&M>,
    flight: &mut InFlight,
) -> Went
    requires room { flight.old.turns < MAX_LOOPS }
    requires way { IsOnItsWay flight.old.stage }
    ensures advances { FlightStepBy (Only (option_map (λ o. M.meant o.now) operator.entry)) (P.store pages.old) flight.old result (P.store pages.new) flight.new }
    ensures passes { StepsOnPath (now (P.store pages.old)) flight.old result (now (P.store pages.new)) flight.new }
    ensures follows { FollowsOn (P.store pages.old) flight.old result (P.store pages.new) flight.new }
{
    match walk::descend(pages, alloc, &flight.job, &flight.aim, &mut flight.stage) {
        Descent::None => advance_stage(pages, alloc, operator, flight),
        Descent::Further => {
            flight.turns += 1;
            Went::Moved
        }
        Descent::Leaf(view) => walk::at_leaf(flight, view),
        Descent::Unclean(view) => walk::mend(flight, view),
        Descent::Lost => walk::settle(flight, Sequel::Go(Stage::Root)),
        Descent::Refused(e) => walk::settle(flight, Sequel::Refused(e)),
    }
}

/// Steps of a call's walk, one after the other: until its next step is none of a walk, or it has no turns left, or by the last of them it
/// left its walk or ended. Each reads one page at most, and changes nothing but the call.
pub fn walk_down<P: Pages>(pages: &P, alloc: Global, flight: &mut InFlight) -> Option<Went>
    ensures { WalksDown (P.store pages.now) flight.old result flight.new }
{
    'steps: while flight.turns < MAX_LOOPS && walk::is_on_walk(&flight.stage) {
        match walk::descend(pages, alloc, &flight.job, &flight.aim, &mut flight.stage) {
            Descent::None => return None,
            Descent::Further => flight.turns += 1,
            Descent::Leaf(view) => return Some(walk::at_leaf(flight, view)),
            Descent::Unclean(view) => return Some(walk::mend(flight, view)),
            Descent::Lost => return Some(walk::settle(flight, Sequel::Go(Stage::Root))),
            Descent::Refused(e) => return Some(walk::settle(flight, Sequel::Refused(e))),
        }
    }
    None
}
