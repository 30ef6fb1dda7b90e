//! A queue of work in two trees: jobs that are ready, and jobs that run. A job is taken from the one to the other by a transaction, so that
//! it is never in both, and never lost.
ghost use Rattle.std.specs.Prelude.{◌≢◌, IfOk, IfErr, OnOk};
ghost use Rattle.sled_nodes.specs.Order.{Key};
ghost use Rattle.example_parts.specs.Reads.{maps_now};
ghost use Rattle.example_transactions.specs.Throughout.{HoldsThroughout};
ghost use Rattle.example_transactions.specs.Jobs.{is_in_one, TakesJob, RefusesJob};
ghost use Rattle.example_transactions.specs.theory.Jobs.{MovesInside, TakesInside, NotAborted};

use sled::{
    ConflictableTransactionResult, Db, TransactionResult, TransactionalTrees,
    UnabortableTransactionResult, law_shows,
};
use sled_model::{MergeOperator, Tree};
use sled_store::Pages;

// The position of the jobs that are ready in the list.
const READY: usize = 0;

// The position of those that run.
const RUNNING: usize = 1;

// Takes a job out of the one tree, and puts it into the other.
fn move_job<P: Pages>(
    both: &mut TransactionalTrees<'_, P>,
    job: &[u8],
    value: &[u8],
) -> UnabortableTransactionResult<()>
    ensures { OnOk result (MovesInside both.old job.now value.now both.new) }
{
    match both.remove(READY, job) {
        Ok(stood) => drop(stood),
        Err(e) => return Err(e),
    }
    match both.insert(RUNNING, job, value) {
        Ok(stood) => {
            drop(stood);
            Ok(())
        }
        Err(e) => Err(e),
    }
}

// What the closure of `take_job` does.
fn take_inside<P: Pages>(
    both: &mut TransactionalTrees<'_, P>,
    job: &[u8],
) -> ConflictableTransactionResult<bool, ()>
    ensures ok { IfOk result (λ taken. TakesInside P.store both.old job.now taken both.new) }
    ensures err { IfErr result NotAborted }
{
    let Some(value) = both.get(READY, job)? else {
        return Ok(false);
    };
    let moved = move_job(both, job, value.as_ref());
    drop(value);
    moved?;
    Ok(true)
}

/// Takes a job from those that are ready to those that run, with its value, and answers `true`; or `false`, if it is not ready. Refused,
/// all maps are as they were, unless the database is closed now. A job that is in one of the two trees alone, now and in all that a crash
/// may leave, is so afterwards too, whatever the outcome of the call.
///
/// ```
/// let taken = take_job(&mut db, &ready, &done, b"ulm");
/// ```
pub fn take_job<P: Pages, M: MergeOperator>(
    db: &mut Db<P, M>,
    ready: &Tree,
    running: &Tree,
    job: &[u8],
) -> TransactionResult<bool, ()>
    ensures ok { IfOk result (λ taken. ready.now.name ≢ running.now.name → TakesJob (maps_now P.store M.meant db.old) (maps_now P.store M.meant db.new) ready.now.name running.now.name job.now taken) }
    ensures err { IfErr result (RefusesJob P.store M.meant db.old db.new) }
    ensures kept { (other value : Key) → ready.now.name ≢ running.now.name → HoldsThroughout (P.store db.old.pages) (is_in_one ready.now.name running.now.name other value) → HoldsThroughout (P.store db.new.pages) (is_in_one ready.now.name running.now.name other value) }
{
    db.audit();
    law_shows::<P, M>();
    db.transaction_all(&[ready, running], |both| take_inside(both, job))
}
