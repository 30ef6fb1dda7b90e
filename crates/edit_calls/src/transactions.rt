//! Transactions of a database.
ghost use Rattle.std.specs.Prelude.{IfOk, IfErr};
ghost use Rattle.sled.specs.Transactions.{CanTransact, TransactionMade, TransactionNotMade};

use sled::{Db, TransactionAnswer, TransactionalTree};
use sled_model::{MergeOperator, Tree};
use sled_store::Pages;

/// Runs a closure as a transaction of a tree.
pub fn transaction<P: Pages, M: MergeOperator, A: Drop, E, R: TransactionAnswer<A, E>, F>(
    db: &mut Db<P, M>,
    tree: &Tree,
    f: F,
) -> R::Ended
where
    F: Fn(&mut TransactionalTree<'_, P>) -> R,
    requires { CanTransact P.store M.meant (F.pre f) db.old tree.now }
    ensures ok { IfOk (R.answer_of result) (λ answer. TransactionMade P.store P.flush_number M.meant F.Fn R.result_of f db.old tree.now answer db.new) }
    ensures err { IfErr (R.answer_of result) (λ e. TransactionNotMade P.store P.flush_number M.meant F.Fn R.result_of f db.old tree.now e db.new) }
{
    db.transaction(tree, f)
}
