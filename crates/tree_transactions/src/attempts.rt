//! Transactions of one tree: a closure is run until it meets no conflict.
ghost use Rattle.std.specs.Prelude.{◌≡◌};
ghost use Rattle.tree_transactions.specs.Attempts.{Calls, CanBegin};
ghost use Rattle.tree_transactions.specs.Transactions.{Begins, Transacts};
ghost use Rattle.tree_transactions.specs.theory.Attempts.{Told, made_as, ended_as, AttemptsTree};

use crate::MOST_ATTEMPTS;
use crate::answer::TransactionAnswer;
use crate::errors::{
    ConflictableTransactionError, ConflictableTransactionResult, TransactionError,
    TransactionResult,
};
use crate::ids::{ids_after, set_ids_aside};
use crate::tree::TransactionalTree;
use sled_batch::Batch;
use sled_nodes::texts::TRANSACTION_PASSED_ATTEMPTS;
use sled_nodes::{Error, Pid};
use sled_store::Pages;
use std::alloc::Global;

/// What a closure that ended by `Ok` leaves to be made.
#[derive(Drop)]
pub struct Commit<A, W> {
    /// What the closure answered.
    pub answer: A,
    /// What is to be written.
    pub writes: W,
    /// Whether a flush is to follow.
    pub flushes: bool,
}

// What the closure answers.
fn call<T, R, F>(given: &mut T, f: &F) -> R
where
    F: Fn(&mut T) -> R,
    requires { (shown : _) → shown.now ≡ given.old → F.pre f.now shown }
    ensures { Told F.Fn f.now given.old result given.new }
{
    f(given)
}

// Calls the closure once: what it answers, and what it leaves of what it was given.
pub(crate) fn call_once<T, A, E, R: TransactionAnswer<A, E>, F>(
    mut given: T,
    f: &F,
) -> (ConflictableTransactionResult<A, E>, T)
where
    F: Fn(&mut T) -> R,
    requires { (shown : _) → shown.now ≡ given → F.pre f.now shown }
    ensures { Calls F.Fn R.result_of f.now given result.0 result.1 }
{
    let answer = call(&mut given, f);
    (answer.into_result(), given)
}

// What is to be made of an attempt that ended so. What it wrote is dropped if its closure did not end by `Ok`.
pub(crate) fn made<A, E, W: Drop>(
    answer: ConflictableTransactionResult<A, E>,
    writes: W,
    flushes: bool,
) -> ConflictableTransactionResult<Commit<A, W>, E>
    ensures { result ≡ made_as answer writes flushes }
{
    match answer {
        Ok(answer) => Ok(Commit {
            answer,
            writes,
            flushes,
        }),
        Err(e) => {
            drop(writes);
            Err(e)
        }
    }
}

// What a transaction answers whose last attempt ended so; none if another is to follow.
pub(crate) fn ended<A, E, W>(
    attempt: ConflictableTransactionResult<Commit<A, W>, E>,
) -> Option<TransactionResult<Commit<A, W>, E>>
    ensures { result ≡ ended_as attempt }
{
    match attempt {
        Ok(commit) => Some(Ok(commit)),
        Err(ConflictableTransactionError::Abort(e)) => Some(Err(TransactionError::Abort(e))),
        Err(ConflictableTransactionError::Conflict) => None,
        Err(ConflictableTransactionError::Storage(e)) => Some(Err(TransactionError::Storage(e))),
    }
}

// One attempt.
fn attempt<P: Pages, A, E, R: TransactionAnswer<A, E>, F>(
    alloc: Global,
    pages: &mut P,
    root: Pid,
    greatest_id: &mut u64,
    f: &F,
) -> ConflictableTransactionResult<Commit<A, Batch>, E>
where
    F: Fn(&mut TransactionalTree<'_, P>) -> R,
    requires { CanBegin (Begins P.store root) (F.pre f.now) (P.store pages.old) greatest_id.old }
    ensures { AttemptsTree P.store F.Fn R.result_of f.now root (P.store pages.old) greatest_id.old result (P.store pages.new) greatest_id.new }
{
    set_ids_aside(pages, *greatest_id);
    let tree = TransactionalTree {
        alloc,
        pages: &*pages,
        root,
        overlay: Batch::default(alloc),
        greatest_id: *greatest_id,
        mark: pages.mark(),
        flushes: false,
    };
    let (answer, left) = call_once(tree, f);
    let TransactionalTree {
        alloc: _,
        pages: _,
        root: _,
        overlay,
        greatest_id: greatest,
        mark: _,
        flushes,
    } = left;
    *greatest_id = ids_after(*greatest_id, pages.mark(), greatest);
    made(answer, overlay, flushes)
}

/// Runs a closure as a transaction of the tree with this root, up to what is to be made of it: nothing is written here.
///
/// Each attempt begins with nothing written, over the same pages. Before it ids are set aside, if fewer than 1024 are; a refusal of that
/// is passed over. An id that was given stays given. The closure is run again while it answers `Conflict`, for at most `MOST_ATTEMPTS`
/// attempts; then it is refused with `ReportableBug`.
///
/// ```
/// let ended: TransactionResult<Commit<(), Batch>, ()> =
///     transact(alloc, &mut pages, root, &mut greatest_id, |weather| {
///         weather.insert(b"ulm", b"21")?;
///         Ok(())
///     });
/// if let Ok(commit) = ended {
///     let writes = commit.writes; // One, which no page has yet.
/// }
/// ```
pub fn transact<P: Pages, A, E, R: TransactionAnswer<A, E>, F>(
    alloc: Global,
    pages: &mut P,
    root: Pid,
    greatest_id: &mut u64,
    f: F,
) -> TransactionResult<Commit<A, Batch>, E>
where
    F: Fn(&mut TransactionalTree<'_, P>) -> R,
    requires { CanBegin (Begins P.store root) (F.pre f) (P.store pages.old) greatest_id.old }
    ensures { Transacts P.store F.Fn R.result_of f root (P.store pages.old) greatest_id.old result (P.store pages.new) greatest_id.new }
{
    for _ in 0..MOST_ATTEMPTS {
        if let Some(ended) = ended(attempt(alloc, pages, root, greatest_id, &f)) {
            return ended;
        }
    }
    Err(TransactionError::Storage(Error::ReportableBug(TRANSACTION_PASSED_ATTEMPTS)))
}
