//! A queue of work in a tree that threads share. A job is put in at the key of an id that the database gives, and taken out from the front. No job
//! is taken twice, and none is lost unless another is put in at its key; of jobs that `push` puts in each has a key of its own, since ids rise.
ghost use Rattle.std.specs.Prelude.{◌≡◌, ◌++◌, ◌∷◌, [], IfOk, IfErr, OnErr};
ghost use Rattle.sled_model.specs.declared.reply.Reply.TheVariants.{Number, Pair};
ghost use Rattle.machine_shared.specs.Made.{WholeMade};
ghost use Rattle.machine_shared.specs.Wholes as value;
ghost use Rattle.example_shared.specs.Queueing.{Pushes, PushesNone, QueueLaw, noted_of_whole};

use sled_machine::shared::Handle;
use sled_model::{MergeOperator, Outcome, Reply, Tree, Whole};
use sled_nodes::IVec;
use sled_store::Pages;
use std::alloc::Global;
use std::sync::Wait;
use std::sync::ledger::Ledger;

// Asks for an id.
#[tactic(auto, using(crate::proofs::Noting::adds_id, crate::proofs::Noting::id_or_none))]
fn next_id<P: Pages, L: Ledger, M: MergeOperator>(
    rt: &impl Wait,
    handle: &mut Handle<P, L, M>,
) -> Result<u64, Outcome>
    ensures ok { IfOk result (λ id. handle.new.made ≡ handle.old.made ++ WholeMade value.GenerateId (Number id) ∷ []) }
    ensures err { OnErr result (PushesNone handle.old.made handle.new.made) }
    ensures number { handle.new.number ≡ handle.old.number }
{
    match handle.whole(rt, Whole::GenerateId) {
        Outcome::Decided(Reply::Number(id)) => Ok(id),
        other => Err(other),
    }
}

/// Asks for an id, inserts the job at the eight bytes of it, the highest first, and answers the id. Both are added to the handle's list. If
/// one of the two was not decided it answers that outcome, and nothing is added to the list but the id, if one was given.
///
/// ```
/// match push(rt, alloc, &mut handle, &tree, b"paint the fence") {
///     Ok(id) => drop(id), // The job stands at its eight bytes.
///     Err(outcome) => drop(outcome),
/// }
/// ```
pub fn push<P: Pages, L: Ledger, M: MergeOperator>(
    rt: &impl Wait,
    alloc: Global,
    handle: &mut Handle<P, L, M>,
    queue: &Tree,
    job: &[u8],
) -> Result<u64, Outcome>
    ensures ok { IfOk result (λ id. Pushes queue.now job.now id handle.old.made handle.new.made) }
    ensures err { OnErr result (PushesNone handle.old.made handle.new.made) }
    ensures number { handle.new.number ≡ handle.old.number }
{
    let id = next_id(rt, handle)?;
    match handle.insert(rt, alloc, queue, &id.to_be_bytes(), job) {
        Outcome::Decided(reply) => {
            drop(reply);
            Ok(id)
        }
        other => Err(other),
    }
}

/// Takes the job at the front out of the queue, and answers its key and the job; or `None`, if none waits. The pop is added to the handle's
/// list. If it was not decided it answers the outcome, and nothing is added to the list.
///
/// ```
/// match take(rt, &mut handle, &tree) {
///     Ok(Some((key, job))) => {
///         drop(key);
///         drop(job);
///     }
///     Ok(None) => (), // No job waits.
///     Err(outcome) => drop(outcome),
/// }
/// ```
pub fn take<P: Pages, L: Ledger, M: MergeOperator>(
    rt: &impl Wait,
    handle: &mut Handle<P, L, M>,
    queue: &Tree,
) -> Result<Option<(IVec, IVec)>, Outcome>
    ensures ok { IfOk result (λ job. handle.new.made ≡ handle.old.made ++ WholeMade (value.PopMin queue.now) (Pair job) ∷ []) }
    ensures err { IfErr result (λ o. handle.new.made ≡ handle.old.made ++ noted_of_whole o (value.PopMin queue.now)) }
    ensures number { handle.new.number ≡ handle.old.number }
{
    let tree = match queue.clone() {
        Ok(tree) => tree,
        Err(e) => return Err(Outcome::Refused(e)),
    };
    match handle.whole(rt, Whole::PopMin(tree)) {
        Outcome::Decided(Reply::Pair(job)) => Ok(job),
        other => Err(other),
    }
}

/// Each job is taken at most once, and none is lost. Of a legal history in which each call is an insert, a pop of a first pair, or leaves all keys of
/// the queue as they are: what was taken had been inserted before, or was there from the beginning. Between two takes of one key the job
/// that the second took was inserted there. What was inserted, or was there from the beginning, is there at the end, unless it was taken or
/// another was inserted at its key.
///
/// ```
/// law_queue(); // From here on a proof knows it.
/// ```
pub fn law_queue()
    ensures { QueueLaw }
{}
