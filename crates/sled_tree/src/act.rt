//! The call's change at its leaf.
ghost use Rattle.std.specs.Prelude.{◌≡◌, ◌<◌, IfOk, IfErr, Some};
ghost use Rattle.std.specs.Option.{option_map};
ghost use Rattle.sled_nodes.specs.declared.error.Error.TheVariants.{NoMemory};
ghost use Rattle.sled_model.specs.Answer.{key_of};
ghost use Rattle.sled_tree.specs.theory.Change.{IsChangeBy, IsOfPair, event_of_link};
ghost use Rattle.sled_tree.specs.theory.Linking.{IsAtLink, PreparesChange, LinksPrepared, StepsBy, begun_again};

use crate::flight::{InFlight, Went};
use sled_model::{Call, Decision, Effect, Event, MAX_LOOPS, MergeOperator, Reply};
use sled_nodes::{Link, Result, clone_pair};
use sled_store::Pages;
use std::alloc::Global;
use tree_laws::flight::Stage;

/// A change that a call is to make of its leaf: a link, and the reply of the call that makes it.
#[derive(Drop)]
pub struct Change {
    pub link: Link,
    pub reply: Reply,
}

// The change by a decision at the key of a call; without an effect there is none.
#[inline(always)]
fn change_by(alloc: Global, call: &Call, decision: Decision) -> Result<Option<Change>>
    ensures ok { IfOk result (IsChangeBy decision (key_of call.now)) }
    ensures err { IfErr result (λ e. e ≡ NoMemory) }
{
    let Decision { effect, reply } = decision;
    match effect {
        Effect::Nothing => {
            drop(reply);
            Ok(None)
        }
        Effect::Set(value) => match call.clone_key(alloc) {
            Ok(key) => Ok(Some(Change {
                link: Link::Set(key, value),
                reply,
            })),
            Err(e) => {
                drop(value);
                drop(reply);
                Err(e)
            }
        },
        Effect::Remove => match call.clone_key(alloc) {
            Ok(key) => Ok(Some(Change {
                link: Link::Del(key),
                reply,
            })),
            Err(e) => {
                drop(reply);
                Err(e)
            }
        },
    }
}

/// What subscribers learn of a link that sets a pair or takes one out. Refused with `NoMemory` alone.
pub fn event_of(link: &Link) -> Result<Event>
    requires { IsOfPair link.now }
    ensures ok { IfOk result (λ event. event_of_link link.now ≡ Some event) }
    ensures err { IfErr result (λ e. e ≡ NoMemory) }
{
    match link {
        Link::Set(key, value) => {
            let (key, value) = clone_pair(key, value)?;
            Ok(Event::Insert { key, value })
        }
        Link::Del(key) => Ok(Event::Remove { key: key.clone()? }),
        _ => unreachable!(),
    }
}

/// Prepares the change of a call that is to link it, by the operator of its tree, and changes nothing: all that wants memory comes before
/// the link, after which nothing is refused. There is none if the call changes nothing of the leaf that it read. Refused with `NoMemory`
/// alone.
#[inline(always)]
pub fn prepare_change<M: MergeOperator>(
    alloc: Global,
    flight: &InFlight,
    operator: Option<&M>,
) -> Result<Option<Change>>
    requires { IsAtLink flight.now.stage }
    ensures ok { IfOk result (PreparesChange (option_map (λ o. M.meant o.now) operator.entry) flight.now) }
    ensures err { IfErr result (λ e. e ≡ NoMemory) }
{
    match &flight.stage {
        Stage::Act(view) => {
            let call = &flight.job.call;
            let value = view.node.get(call.key())?;
            let decision = call.at_link(alloc, value, operator)?;
            change_by(alloc, call, decision)
        }
        _ => unreachable!(),
    }
}

/// Sends a call back to the root of its tree, which takes it one turn.
pub fn begin_again(flight: &mut InFlight)
    requires { flight.old.turns < MAX_LOOPS }
    ensures { flight.new ≡ begun_again flight.old }
{
    let old = std::mem::replace(&mut flight.stage, Stage::Root);
    drop(old);
    flight.turns += 1;
}

/// Links the change that was prepared for a call, at the version of the leaf that the call has read. It is the rest of the step that
/// `advance` makes of such a call.
#[inline(always)]
pub fn link_change<P: Pages>(pages: &mut P, flight: &mut InFlight, change: Change) -> Went
    requires room { flight.old.turns < MAX_LOOPS }
    requires here { IsAtLink flight.old.stage }
    ensures { LinksPrepared change (P.store pages.old) flight.old result (P.store pages.new) flight.new }
{
    let Change { link, reply } = change;
    let leaf = match std::mem::replace(&mut flight.stage, Stage::Root) {
        Stage::Act(leaf) => leaf,
        _ => unreachable!(),
    };
    let (pid, version) = (leaf.pid, leaf.version);
    // The leaf goes before the link, so that a store may change it in place.
    drop(leaf);
    match pages.link(pid, version, link) {
        Err(e) => {
            drop(reply);
            Went::Refused(e)
        }
        Ok(Err(_)) => {
            flight.turns += 1;
            drop(reply);
            Went::Moved
        }
        Ok(Ok(_)) => Went::Decided(reply),
    }
}

// Does the step of a call that is to link its change.
#[inline(always)]
pub(crate) fn act<P: Pages, M: MergeOperator>(
    pages: &mut P,
    alloc: Global,
    operator: Option<&M>,
    flight: &mut InFlight,
) -> Went
    requires room { flight.old.turns < MAX_LOOPS }
    requires here { IsAtLink flight.old.stage }
    ensures { StepsBy (option_map (λ o. M.meant o.now) operator.entry) (P.store pages.old) flight.old result (P.store pages.new) flight.new }
{
    match prepare_change(alloc, flight, operator) {
        Err(e) => Went::Refused(e),
        Ok(None) => {
            begin_again(flight);
            Went::Moved
        }
        Ok(Some(change)) => link_change(pages, flight, change),
    }
}
