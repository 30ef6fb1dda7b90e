//! A number at a key that threads raise by one. A thread reads it and swaps it for the next, and begins again if another one wrote between.
//! No raise is lost, and no operator is needed.
ghost use Rattle.std.specs.Prelude.{◌≡◌, ◌≤◌, ◌++◌, ◌+◌, ◌*◌, length, Some, None, OnOk, OnErr};
ghost use Rattle.std.specs.Int.{w64, to_be_bytes};
ghost use Rattle.sled_model.specs.declared.call.Call.TheVariants.{CompareAndSwap};
ghost use Rattle.sled_model.specs.declared.outcome.Outcome.TheVariants.{Decided};
ghost use Rattle.sled_model.specs.declared.reply.Reply.TheVariants.{Swapped};
ghost use Rattle.machine_shared.specs.Notes.{noted_of};
ghost use Rattle.example_parts.specs.Counters.{number_in};
ghost use Rattle.example_shared.specs.Raising.{CrashedLaw, RaisedLaw, Raises, RaisesLaw, SharesLaw, SwapsLaw, calls_made, overtaken_by, raised_to, swap_wrote};

use example_parts::number_at;
use sled_machine::shared::Handle;
use sled_model::{CompareAndSwapError, MergeOperator, Outcome, Reply, Tree};
use sled_nodes::texts::NUMBERS_USED_UP;
use sled_nodes::{Error, IVec};
use sled_store::Pages;
use std::alloc::Global;
use std::sync::Wait;
use std::sync::ledger::Ledger;

/// How a raise came out.
#[derive(Drop)]
pub enum Raised {
    /// This number was written.
    To(u64),
    /// At each attempt another caller wrote between the read and the swap. No swap of this caller's succeeded.
    Overtaken,
    /// The read or the swap had this outcome, and no swap of this caller's succeeded. If the greatest `u64` was there it is `Unsupported`
    /// (`numbers used up`).
    Stopped(Outcome),
}

// Reads the value at the key.
#[tactic(auto, using(crate::proofs::Attempts::raises_read, crate::proofs::Attempts::one_more, crate::proofs::Attempts::one_at_most))]
fn read<P: Pages, L: Ledger, M: MergeOperator>(
    rt: &impl Wait,
    alloc: Global,
    handle: &mut Handle<P, L, M>,
    tree: &Tree,
    key: &[u8],
) -> Result<Option<IVec>, Outcome>
    ensures made { Raises tree.now key.now None handle.old.made handle.new.made }
    ensures once { OnOk result (length handle.new.made ≡ length handle.old.made + 1) }
    ensures at_most { OnErr result (length handle.new.made ≤ length handle.old.made + 1) }
    ensures number { handle.new.number ≡ handle.old.number }
{
    match handle.get(rt, alloc, tree, key) {
        Outcome::Decided(Reply::Value(stood)) => Ok(stood),
        other => Err(other),
    }
}

// Swaps what was there for the number.
fn swap<P: Pages, L: Ledger, M: MergeOperator>(
    rt: &impl Wait,
    alloc: Global,
    handle: &mut Handle<P, L, M>,
    tree: &Tree,
    key: &[u8],
    stood: &Option<IVec>,
    number: u64,
) -> Outcome
    ensures made { handle.new.made ≡ handle.old.made ++ noted_of result tree.now (CompareAndSwap key.now stood.now (Some (to_be_bytes w64 number))) }
    ensures number { handle.new.number ≡ handle.old.number }
{
    let next = number.to_be_bytes();
    match stood {
        Some(value) => {
            handle.compare_and_swap(rt, alloc, tree, key, Some(value.as_ref()), Some(&next))
        }
        None => handle.compare_and_swap(rt, alloc, tree, key, None, Some(&next)),
    }
}

// How a raise came out whose swap for the number was answered so.
fn answered(swapped: Result<(), CompareAndSwapError>, number: u64) -> Raised
    ensures { raised_to result ≡ swap_wrote (Decided (Swapped swapped)) number }
{
    match swapped {
        Ok(()) => Raised::To(number),
        Err(conflict) => {
            drop(conflict);
            Raised::Overtaken
        }
    }
}

// .. whose swap had this reply.
fn replied(reply: Reply, number: u64) -> Raised
    ensures { raised_to result ≡ swap_wrote (Decided reply) number }
{
    match reply {
        Reply::Swapped(swapped) => answered(swapped, number),
        other => Raised::Stopped(Outcome::Decided(other)),
    }
}

// .. whose swap came out so.
fn told(came: Outcome, number: u64) -> Raised
    ensures wrote { raised_to result ≡ swap_wrote came number }
    ensures overtaken { overtaken_by came result }
{
    match came {
        Outcome::Decided(reply) => replied(reply, number),
        other => Raised::Stopped(other),
    }
}

// Swaps what was there for the next number. It is overtaken if something else is there now.
#[tactic(auto, using(crate::proofs::Attempts::swap_calls))]
fn swap_next<P: Pages, L: Ledger, M: MergeOperator>(
    rt: &impl Wait,
    alloc: Global,
    handle: &mut Handle<P, L, M>,
    tree: &Tree,
    key: &[u8],
    stood: &Option<IVec>,
    number: u64,
) -> Raised
    requires { number ≡ number_in stood.now + 1 }
    ensures made { Raises tree.now key.now (raised_to result) handle.old.made handle.new.made }
    ensures calls { calls_made result 1 handle.old.made handle.new.made }
    ensures number { handle.new.number ≡ handle.old.number }
{
    let came = swap(rt, alloc, handle, tree, key, stood, number);
    told(came, number)
}

// One attempt. It is overtaken if another caller wrote between the read and the swap.
#[tactic(auto, using(crate::proofs::Attempts::calls_after, crate::proofs::Attempts::one_of_two, crate::proofs::Attempts::just_one_of_two))]
fn attempt<P: Pages, L: Ledger, M: MergeOperator>(
    rt: &impl Wait,
    alloc: Global,
    handle: &mut Handle<P, L, M>,
    tree: &Tree,
    key: &[u8],
) -> Raised
    ensures made { Raises tree.now key.now (raised_to result) handle.old.made handle.new.made }
    ensures calls { calls_made result 2 handle.old.made handle.new.made }
    ensures number { handle.new.number ≡ handle.old.number }
{
    let stood = match read(rt, alloc, handle, tree, key) {
        Ok(stood) => stood,
        Err(outcome) => return Raised::Stopped(outcome),
    };
    let Some(number) = number_at(&stood).checked_add(1) else {
        drop(stood);
        return Raised::Stopped(Outcome::Refused(Error::Unsupported(NUMBERS_USED_UP)));
    };
    let raised = swap_next(rt, alloc, handle, tree, key, &stood, number);
    drop(stood);
    raised
}

/// Raises the number at a key by one: reads it, and swaps what it read for the next number. If another caller wrote between it begins
/// again, up to so many attempts. Its reads and swaps are added to the handle's list, at most two for each of the attempts, and just two
/// for each if it answers `Overtaken`. If it answers `To` just one of the swaps succeeded, and wrote this number, and else none did.
///
/// ```
/// match raise(rt, alloc, &mut handle, &tree, b"visits", 100) {
///     Raised::To(number) => drop(number), // One above what stood there.
///     Raised::Overtaken => (),            // Others wrote each time.
///     Raised::Stopped(outcome) => drop(outcome), // As `Refused`, or `NoSuchSlot`.
/// }
/// ```
#[tactic(auto, using(crate::proofs::Attempts::raises_on, crate::proofs::Attempts::calls_on))]
pub fn raise<P: Pages, L: Ledger, M: MergeOperator>(
    rt: &impl Wait,
    alloc: Global,
    handle: &mut Handle<P, L, M>,
    tree: &Tree,
    key: &[u8],
    attempts: u64,
) -> Raised
    ensures made { Raises tree.now key.now (raised_to result) handle.old.made handle.new.made }
    ensures calls { calls_made result (2 * attempts) handle.old.made handle.new.made }
    ensures number { handle.new.number ≡ handle.old.number }
{
    for _ in 0..attempts {
        match attempt(rt, alloc, handle, tree, key) {
            Raised::Overtaken => (),
            other => return other,
        }
    }
    Raised::Overtaken
}

/// No update is lost. Of a legal history in which each call is a swap at a key, or leaves the key as it is: each swap that succeeded found
/// what the one before it wrote. The first found what was there in the beginning, and what the last wrote is there at the end.
///
/// ```
/// law_swaps(); // From here on a proof knows it.
/// ```
pub fn law_swaps()
    ensures { SwapsLaw }
{}

/// If each of these swaps raised the number by one, the number at the end is that in the beginning and as many more as there were.
///
/// ```
/// law_raises(); // From here on a proof knows it.
/// ```
pub fn law_raises()
    ensures { RaisesLaw }
{}

/// The swaps of a history that succeeded are as many as those of all callers together, once these are gathered.
///
/// ```
/// law_shares(); // From here on a proof knows it.
/// ```
pub fn law_shares()
    ensures { SharesLaw }
{}

/// No raise is lost, whichever caller made it. If all callers that were gathered made nothing but raises of one number, it is higher at the
/// end by as many as their swaps that succeeded. By what a raise adds to a list, these are one for each raise that answered `To`.
///
/// ```
/// law_raised(); // From here on a proof knows it.
/// ```
pub fn law_raised()
    ensures { RaisedLaw }
{}

/// Over a crash no raise comes from nowhere, and none is lost that was flushed. Each entry of the history is a part of a raise of one
/// number, or a flush. Then in all maps that a crash may leave, the number has grown since the beginning by at least as many raises as
/// succeeded before any of the flushes. It is never above what it is at the end.
///
/// ```
/// law_crashed(); // From here on a proof knows it.
/// ```
pub fn law_crashed()
    ensures { CrashedLaw }
{}
