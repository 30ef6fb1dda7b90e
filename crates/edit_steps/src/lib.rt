//! One step of a call in flight, the outcome of a call at its key, a search and a change of a leaf, and what subscribers get, each under the
//! contract that it has. The edits in `must-fail` show what these contracts rule out: each does something to the store, the call, the leaf
//! or the queues before that, or in its place, or gives another answer in some case.
#![tactic(auto)]

mod decision;
mod entries;
mod queues;

ghost use Rattle.std.specs.Prelude.{◌<◌};
ghost use Rattle.std.specs.Option.{option_map};
ghost use Rattle.sled_store.specs.Store.{now};
ghost use Rattle.sled_tree.specs.theory.StageAction.{FlightStepBy, Only};
ghost use Rattle.sled_tree.specs.Passing.{StepsOnPath};
ghost use Rattle.sled_tree.specs.Follows.{FollowsOn};
ghost use Rattle.sled_tree.specs.Stages.{IsOnItsWay};

pub use decision::{at_link, at_read};
pub use entries::{get, set};
pub use queues::{cancel, commit, next, prepare};
use sled_model::{MAX_LOOPS, MergeOperator};
use sled_store::Pages;
use sled_tree::{InFlight, Went, advance};
use std::alloc::Global;

/// One step of a call in flight that has turns left, and is no scan that has its leaf.
pub fn advance_flight<P: Pages, M: MergeOperator>(
    pages: &mut P,
    alloc: Global,
    operator: Option<&M>,
    flight: &mut InFlight,
) -> Went
    requires room { flight.old.turns < MAX_LOOPS }
    requires way { IsOnItsWay flight.old.stage }
    ensures advances { FlightStepBy (Only (option_map (λ o. M.meant o.now) operator.entry)) (P.store pages.old) flight.old result (P.store pages.new) flight.new }
    ensures passes { StepsOnPath (now (P.store pages.old)) flight.old result (now (P.store pages.new)) flight.new }
    ensures follows { FollowsOn (P.store pages.old) flight.old result (P.store pages.new) flight.new }
{
    advance(pages, alloc, operator, flight)
}
