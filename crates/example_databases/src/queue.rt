//! A queue of work in a tree of a database. Each job is at a ticket; tickets rise, so the oldest job has the least.
ghost use Rattle.std.specs.Prelude.{◌≡◌, IfOk, OnOk, OnErr};
ghost use Rattle.example_databases.specs.Queue.{Adds, Takes, waiting};

use sled::Db;
use sled_model::{MergeOperator, Tree};
use sled_nodes::{IVec, Result};
use sled_store::Pages;

/// Adds a job at a ticket that is above those of all jobs that wait: it waits behind them. Refused, the queue is as before.
pub fn add<P: Pages, M: MergeOperator>(
    db: &mut Db<P, M>,
    queue: &Tree,
    ticket: &[u8],
    job: &[u8],
) -> Result<()>
    ensures ok { OnOk result (Adds (waiting P.store M.meant db.old queue.now) ticket.now job.now (waiting P.store M.meant db.new queue.now)) }
    ensures err { OnErr result (waiting P.store M.meant db.new queue.now ≡ waiting P.store M.meant db.old queue.now) }
{
    let stood = match db.insert(queue, ticket, job) {
        Ok(stood) => stood,
        Err(e) => return Err(e),
    };
    drop(stood);
    Ok(())
}

/// Takes the oldest job out, and answers its ticket and the job; or `None`, if none waits. Refused, the queue is as before.
pub fn take<P: Pages, M: MergeOperator>(
    db: &mut Db<P, M>,
    queue: &Tree,
) -> Result<Option<(IVec, IVec)>>
    ensures ok { IfOk result (λ job. Takes (waiting P.store M.meant db.old queue.now) job (waiting P.store M.meant db.new queue.now)) }
    ensures err { OnErr result (waiting P.store M.meant db.new queue.now ≡ waiting P.store M.meant db.old queue.now) }
{
    db.audit();
    match db.pop_min(queue) {
        Ok(job) => Ok(job),
        Err(e) => Err(e),
    }
}
