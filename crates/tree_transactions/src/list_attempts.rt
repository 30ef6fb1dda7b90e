//! Transactions of a list of trees: a closure is run until it meets no conflict.
ghost use Rattle.std.specs.Prelude.{◌≡◌, [], length, replicate};
ghost use Rattle.tree_transactions.specs.Attempts.{CanBegin};
ghost use Rattle.tree_transactions.specs.Transactions.{BeginsAll, TransactsAll};
ghost use Rattle.tree_transactions.specs.theory.Attempts.{AttemptsTrees};

use crate::MOST_ATTEMPTS;
use crate::answer::TransactionAnswer;
use crate::attempts::{Commit, call_once, ended, made};
use crate::errors::{ConflictableTransactionResult, TransactionError, TransactionResult};
use crate::ids::{ids_after, set_ids_aside_for};
use crate::overlays::Overlays;
use crate::trees::TransactionalTrees;
use sled_nodes::texts::TRANSACTION_PASSED_ATTEMPTS;
use sled_nodes::{Error, Pid};
use sled_store::Pages;
use std::alloc::Global;

// One attempt.
fn attempt<P: Pages, A, E, R: TransactionAnswer<A, E>, F>(
    alloc: Global,
    pages: &mut P,
    roots: &[Pid],
    overlays: Overlays,
    greatest_id: &mut u64,
    f: &F,
) -> ConflictableTransactionResult<Commit<A, Overlays>, E>
where
    F: Fn(&mut TransactionalTrees<'_, P>) -> R,
    requires fresh { overlays ≡ replicate (length roots.now) [] }
    requires closure { CanBegin (BeginsAll P.store roots.now) (F.pre f.now) (P.store pages.old) greatest_id.old }
    ensures { AttemptsTrees P.store F.Fn R.result_of f.now roots.now (P.store pages.old) greatest_id.old result (P.store pages.new) greatest_id.new }
{
    set_ids_aside_for(pages, roots, *greatest_id);
    let trees = TransactionalTrees {
        alloc,
        pages: &*pages,
        roots,
        overlays,
        greatest_id: *greatest_id,
        mark: pages.mark(),
        flushes: false,
    };
    let (answer, left) = call_once(trees, f);
    let TransactionalTrees {
        alloc: _,
        pages: _,
        roots: _,
        overlays,
        greatest_id: greatest,
        mark: _,
        flushes,
    } = left;
    *greatest_id = ids_after(*greatest_id, pages.mark(), greatest);
    made(answer, overlays, flushes)
}

/// Runs a closure as a transaction of the trees with these roots, up to what is to be made of it: nothing is written here.
///
/// It is as `transact`, but that each attempt has writes of its own for each position. If there is no memory for them it is refused with
/// `NoMemory`. For an empty list no ids are set aside.
///
/// ```
/// let ended: TransactionResult<Commit<(), Overlays>, ()> =
///     transact_all(alloc, &mut pages, &[root], &mut greatest_id, |all| {
///         all.insert(0, b"ulm", b"21")?;
///         Ok(())
///     });
/// ```
pub fn transact_all<P: Pages, A, E, R: TransactionAnswer<A, E>, F>(
    alloc: Global,
    pages: &mut P,
    roots: &[Pid],
    greatest_id: &mut u64,
    f: F,
) -> TransactionResult<Commit<A, Overlays>, E>
where
    F: Fn(&mut TransactionalTrees<'_, P>) -> R,
    requires { CanBegin (BeginsAll P.store roots.now) (F.pre f) (P.store pages.old) greatest_id.old }
    ensures { TransactsAll P.store F.Fn R.result_of f roots.now (P.store pages.old) greatest_id.old result (P.store pages.new) greatest_id.new }
{
    for _ in 0..MOST_ATTEMPTS {
        let overlays = match Overlays::fresh(alloc, roots.len()) {
            Ok(overlays) => overlays,
            Err(e) => return Err(TransactionError::Storage(e)),
        };
        if let Some(ended) = ended(attempt(alloc, pages, roots, overlays, greatest_id, &f)) {
            return ended;
        }
    }
    Err(TransactionError::Storage(Error::ReportableBug(TRANSACTION_PASSED_ATTEMPTS)))
}
