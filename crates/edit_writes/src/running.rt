//! A closure that is run as a transaction.
ghost use Rattle.tree_transactions.specs.Attempts.{CanBegin};
ghost use Rattle.tree_transactions.specs.Transactions.{Begins, Transacts};

use sled_batch::Batch;
use sled_nodes::Pid;
use sled_store::Pages;
use std::alloc::Global;
use tree_transactions::{Commit, TransactionAnswer, TransactionResult, TransactionalTree};

/// Runs a closure as a transaction of the tree with this root, up to what is to be made of it.
pub fn transact<P: Pages, A, E, R: TransactionAnswer<A, E>, F>(
    alloc: Global,
    pages: &mut P,
    root: Pid,
    greatest_id: &mut u64,
    f: F,
) -> TransactionResult<Commit<A, Batch>, E>
where
    F: Fn(&mut TransactionalTree<'_, P>) -> R,
    requires { CanBegin (Begins P.store root) (F.pre f) (P.store pages.old) greatest_id.old }
    ensures { Transacts P.store F.Fn R.result_of f root (P.store pages.old) greatest_id.old result (P.store pages.new) greatest_id.new }
{
    tree_transactions::transact(alloc, pages, root, greatest_id, f)
}
