//! Transactions of callers.
ghost use Rattle.std.specs.Prelude.{◌≡◌, true};
ghost use Rattle.machine_shared.specs.Inside.{RunsOver};
ghost use Rattle.machine_shared.specs.Transacted.{TransactsUnderLock};
ghost use Rattle.machine_shared.specs.Transactions.{AddsTransaction, RunsOnce, batches_of_tree, fails_tests};

use machine_shared::Handle;
use sled::{TransactionAnswer, TransactionalTree};
use sled_model::{MergeOperator, Tree};
use sled_store::Pages;
use std::sync::Wait;
use std::sync::ledger::Ledger;

/// A transaction of a tree, by one of two callers. What it wrote is noted as this caller's.
pub fn transaction_of_one<
    P: Pages,
    L: Ledger,
    M: MergeOperator,
    A: Drop,
    E,
    R: TransactionAnswer<A, E>,
    F,
>(
    rt: &impl Wait,
    one: &mut Handle<P, L, M>,
    other: &mut Handle<P, L, M>,
    tree: &Tree,
    f: F,
) -> R::Ended
where
    F: Fn(&mut TransactionalTree<'_, P>) -> R,
    requires { (shown : _) → F.pre f shown }
    ensures made { AddsTransaction (RunsOnce P.store M.meant F.Fn R.result_of f tree.now) (batches_of_tree tree.now) true (R.answer_of result) one.old.made one.new.made }
    ensures untouched { other.new.made ≡ other.old.made }
{
    let _ = &other;
    one.transaction(rt, tree, f)
}

/// A transaction of a tree, under the lock. It is refused for a cause.
pub fn transaction<
    P: Pages,
    L: Ledger,
    M: MergeOperator,
    A: Drop,
    E,
    R: TransactionAnswer<A, E>,
    F,
>(rt: &impl Wait, handle: &mut Handle<P, L, M>, tree: &Tree, f: F) -> R::Ended
where
    F: Fn(&mut TransactionalTree<'_, P>) -> R,
    requires { (shown : _) → F.pre f shown }
    ensures under_lock { TransactsUnderLock P.store P.flush_number M.meant (fails_tests P.store M.meant tree.now) (RunsOver P.store M.meant F.Fn R.result_of f tree.now) (batches_of_tree tree.now) true (R.answer_of result) handle.old handle.new }
{
    handle.transaction(rt, tree, f)
}
