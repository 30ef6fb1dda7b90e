//! One step of a call in flight, over the pages and the queues of subscribers.
//!
//! If the step is to link a change, and some queue waits for the key, the event is prepared in the queues before the page is touched, which
//! is refused for memory alone. Once the link is made the event waits there, and if it is not made the event is dropped. Every other step
//! is one over the pages alone, and one that links nothing does not look at the queues.
ghost use Rattle.std.specs.Prelude.{◌≡◌, ◌<◌, false};
ghost use Rattle.std.specs.Option.{option_map};
ghost use Rattle.sled_queues.specs.Values.{queue_at};
ghost use Rattle.sled_queues.specs.Queues.{IsCalm};
ghost use Rattle.sled_tree.specs.theory.Change.{IsOfPair};
ghost use Rattle.sled_tree.specs.theory.Linking.{IsAtLink};
ghost use Rattle.sled_model.specs.State.{IsOnKey};
ghost use Rattle.sled_tree.specs.Stages.{IsOnItsWay};
ghost use Rattle.tree_steps.specs.Outcomes.{outcome_of};
ghost use Rattle.tree_steps.specs.theory.Outcomes.{ComesOut};
ghost use Rattle.tree_steps.specs.theory.Watched.{AdvancesOver, StepsOver, TellsPrepared, links_watched_as};

use crate::keep::Keep;
use sled_model::{MAX_LOOPS, MergeOperator};
use sled_queues::Queues;
use sled_store::Pages;
use sled_tree::{
    Change, InFlight, Stage, Went, advance, begin_again, event_of, link_change, prepare_change,
};
use std::alloc::Global;

// Keeps the reply of a step that is to be refused if there is no memory for it.
#[inline(always)]
fn keep<K: Keep>(went: Went) -> (Went, K)
    ensures comes { ComesOut went result.0 }
    ensures same { K.COPIES ≡ false → result.0 ≡ went }
    ensures kept { result.1 ≡ K.kept (outcome_of result.0) }
{
    if !K::COPIES {
        return (went, K::nothing());
    }
    match went {
        Went::Decided(reply) => match K::of(&reply) {
            Ok(kept) => (Went::Decided(reply), kept),
            Err(e) => {
                drop(reply);
                (Went::Refused(e), K::nothing())
            }
        },
        went => (went, K::nothing()),
    }
}

// Links a change that was prepared for a call, and sends its event if some queue waits for the key. All that may be refused is before
// the link.
#[inline(always)]
fn link_prepared<P: Pages>(
    pages: &mut P,
    queues: &mut Queues,
    flight: &mut InFlight,
    change: Change,
    watched: bool,
) -> Went
    requires room { flight.old.turns < MAX_LOOPS }
    requires here { IsAtLink flight.old.stage }
    requires watched { links_watched_as queues.old flight.old watched }
    requires pair { IsOfPair change.link }
    requires calm { IsCalm (queue_at queues.old) }
    ensures { TellsPrepared change (P.store pages.old) queues.old flight.old result (P.store pages.new) queues.new flight.new }
{
    if !watched {
        return link_change(pages, flight, change);
    }
    let event = match event_of(&change.link) {
        Ok(event) => event,
        Err(e) => {
            drop(change);
            return Went::Refused(e);
        }
    };
    if let Err(e) = queues.prepare(flight.job.tree.number, &event) {
        drop(change);
        drop(event);
        return Went::Refused(e);
    }
    drop(event);
    match link_change(pages, flight, change) {
        Went::Decided(reply) => {
            queues.commit();
            Went::Decided(reply)
        }
        went => {
            queues.cancel();
            went
        }
    }
}

// The step of a call that is to link its change. Whether a queue waits for the key is asked before anything changes, and what is kept
// of the reply is made before the link, after which nothing is refused.
fn link_over<P: Pages, M: MergeOperator, K: Keep>(
    pages: &mut P,
    queues: &mut Queues,
    alloc: Global,
    operator: Option<&M>,
    flight: &mut InFlight,
) -> (Went, K)
    requires room { flight.old.turns < MAX_LOOPS }
    requires here { IsAtLink flight.old.stage }
    requires calm { IsCalm (queue_at queues.old) }
    ensures steps { AdvancesOver (option_map (λ o. M.meant o.now) operator.entry) (P.store pages.old) queues.old flight.old result.0 (P.store pages.new) queues.new flight.new }
    ensures kept { result.1 ≡ K.kept (outcome_of result.0) }
{
    let watched = queues.is_watched(flight.job.tree.number, flight.job.call.key());
    let change = match prepare_change(alloc, flight, operator) {
        Err(e) => return (Went::Refused(e), K::nothing()),
        Ok(None) => {
            begin_again(flight);
            return (Went::Moved, K::nothing());
        }
        Ok(Some(change)) => change,
    };
    let kept = match K::of(&change.reply) {
        Ok(kept) => kept,
        Err(e) => {
            drop(change);
            return (Went::Refused(e), K::nothing());
        }
    };
    match link_prepared(pages, queues, flight, change, watched) {
        Went::Decided(reply) => (Went::Decided(reply), kept),
        went => {
            drop(kept);
            (went, K::nothing())
        }
    }
}

/// One step of a call in flight that has turns left, and what is kept of it. A scan touches no queue.
#[inline(always)]
pub fn step_over<P: Pages, M: MergeOperator, K: Keep>(
    pages: &mut P,
    queues: &mut Queues,
    alloc: Global,
    operator: Option<&M>,
    flight: &mut InFlight,
) -> (Went, K)
    requires room { flight.old.turns < MAX_LOOPS }
    requires way { IsOnKey flight.old.job.call → IsOnItsWay flight.old.stage }
    requires calm { IsCalm (queue_at queues.old) }
    ensures steps { StepsOver (option_map (λ o. M.meant o.now) operator.entry) (P.store pages.old) queues.old flight.old result.0 (P.store pages.new) queues.new flight.new }
    ensures kept { result.1 ≡ K.kept (outcome_of result.0) }
{
    if !flight.job.call.is_on_key() {
        return keep(tree_scans::advance(pages, alloc, flight));
    }
    match &flight.stage {
        Stage::Act(_) => link_over(pages, queues, alloc, operator, flight),
        _ => keep(advance(pages, alloc, operator, flight)),
    }
}
