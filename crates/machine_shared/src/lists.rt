//! Transactions of several trees by a caller.
ghost use Rattle.std.specs.Prelude.{◌≡◌, true, IfErr, OnOk, OnErr};
ghost use Rattle.std.specs.List.{zip};
ghost use Rattle.sled_model.specs.State.{maps_of};
ghost use Rattle.sled.specs.Transactions.{has_trees, trees_of_list};
ghost use Rattle.sled.specs.Values.{db_state};
ghost use Rattle.machine_shared.specs.Inside.{RunsOverAll};
ghost use Rattle.machine_shared.specs.Transacted.{RefusesCommit, TransactsUnderLock, commits_as, transacts_as};
ghost use Rattle.machine_shared.specs.Transactions.{AddsTransaction, RunsAllIn, RunsAllOnce, fails_tests_of_list, transaction_made};
ghost use Rattle.machine_shared.specs.theory.Transacting.{StopsCommit, adds_commit, ran_as};

use crate::caller::Caller;
use crate::handle::Handle;
use crate::locked::locked;
use crate::state::State;
use crate::transactions::commit;
use sled::{
    Commit, Overlays, TransactionAnswer, TransactionError, TransactionResult, TransactionalTrees,
    group_of,
};
use sled_batch::Batch;
use sled_model::{MergeOperator, Tree};
use sled_nodes::{Error, Result};
use sled_store::Pages;
use std::sync::Wait;
use std::sync::ledger::Ledger;

impl<P: Pages, L: Ledger, M: MergeOperator> State<P, L, M> {
    ghost use Rattle.machine_shared.specs.Transacted.{with_db};

    // Runs a closure at the trees of a list, with the ids of the database, and hands back what it wrote.
    fn run_all<A, E, R: TransactionAnswer<A, E>, F>(
        &mut self,
        trees: &[&Tree],
        f: F,
    ) -> TransactionResult<Commit<A, Overlays>, E>
    where
        F: Fn(&mut TransactionalTrees<'_, P>) -> R,
        requires { (shown : _) → F.pre f shown }
        ensures ran { ran_as (fails_tests_of_list P.store M.meant (trees_of_list trees.now) self.old.machine.db) (RunsAllIn P.store M.meant F.Fn R.result_of f (trees_of_list trees.now) self.old.machine.db) self.old.machine.db result self.new.machine.db }
        ensures same { self.new ≡ with_db self.old self.new.machine.db }
    {
        self.machine.audit();
        self.machine.run_transaction_all(trees, f)
    }
}

// Whether there are any trees.
fn are_there(trees: &[&Tree]) -> bool
    ensures { result ≡ has_trees (trees_of_list trees.now) }
{
    !trees.is_empty()
}

// Makes what was written of the trees of a list, and then all durable if that is asked for. Without trees it does nothing.
fn commit_list<P: Pages, L: Ledger, M: MergeOperator>(
    state: &mut State<P, L, M>,
    me: &mut Caller<L>,
    trees: &[&Tree],
    writes: Vec<Batch>,
    flushes: bool,
) -> Result<()>
    ensures ok { OnOk result (adds_commit (has_trees (trees_of_list trees.now)) (transaction_made (maps_of (db_state P.store M.meant state.old.machine.db)) (zip (trees_of_list trees.now) writes.items)) flushes me.old.made me.new.made) }
    ensures there { OnErr result (has_trees (trees_of_list trees.now) ≡ true) }
    ensures err { OnErr result (StopsCommit (transaction_made (maps_of (db_state P.store M.meant state.old.machine.db)) (zip (trees_of_list trees.now) writes.items)) flushes me.old.made me.new.made) }
    ensures number { me.new.number ≡ me.old.number }
    ensures commits { OnOk result (commits_as P.store P.flush_number M.meant (has_trees (trees_of_list trees.now)) (zip (trees_of_list trees.now) writes.items) flushes me.old me.new state.old state.new) }
    ensures stops { IfErr result (λ e. RefusesCommit P.store P.flush_number M.meant (zip (trees_of_list trees.now) writes.items) flushes e me.old me.new state.old state.new) }
{
    if !are_there(trees) {
        drop(writes);
        return Ok(());
    }
    let alloc = state.machine().db().allocator();
    match group_of(alloc, trees, writes) {
        Ok(group) => commit(state, me, group, flushes),
        Err(e) => Err(e),
    }
}

// A transaction of several trees: its closure is run, and what that wrote is made and noted.
fn transact_all<P: Pages, L: Ledger, M: MergeOperator, A: Drop, E, R: TransactionAnswer<A, E>, F>(
    state: &mut State<P, L, M>,
    me: &mut Caller<L>,
    trees: &[&Tree],
    f: F,
) -> TransactionResult<A, E>
where
    F: Fn(&mut TransactionalTrees<'_, P>) -> R,
    requires { (shown : _) → F.pre f shown }
    ensures made { AddsTransaction (RunsAllOnce P.store M.meant F.Fn R.result_of f (trees_of_list trees.now)) (zip (trees_of_list trees.now)) (has_trees (trees_of_list trees.now)) result me.old.made me.new.made }
    ensures number { me.new.number ≡ me.old.number }
    ensures does { transacts_as P.store P.flush_number M.meant (fails_tests_of_list P.store M.meant (trees_of_list trees.now)) (RunsOverAll P.store M.meant F.Fn R.result_of f (trees_of_list trees.now)) (zip (trees_of_list trees.now)) (has_trees (trees_of_list trees.now)) result me.old me.new state.old state.new }
{
    match state.run_all(trees, f) {
        Ok(
            Commit {
                answer,
                writes,
                flushes,
            },
        ) => match commit_list(state, me, trees, writes.into_batches(), flushes) {
            Ok(()) => Ok(answer),
            Err(e) => {
                drop(answer);
                Err(TransactionError::Storage(e))
            }
        },
        Err(e) => Err(e),
    }
}

// The same of what a lock holds. What was taken from under it is closed.
fn transact_all_in<
    P: Pages,
    L: Ledger,
    M: MergeOperator,
    A: Drop,
    E,
    R: TransactionAnswer<A, E>,
    F,
>(
    held: &mut Option<State<P, L, M>>,
    me: &mut Caller<L>,
    trees: &[&Tree],
    f: F,
) -> TransactionResult<A, E>
where
    F: Fn(&mut TransactionalTrees<'_, P>) -> R,
    requires { (shown : _) → F.pre f shown }
    ensures made { AddsTransaction (RunsAllOnce P.store M.meant F.Fn R.result_of f (trees_of_list trees.now)) (zip (trees_of_list trees.now)) (has_trees (trees_of_list trees.now)) result me.old.made me.new.made }
    ensures number { me.new.number ≡ me.old.number }
    ensures under_lock { TransactsUnderLock P.store P.flush_number M.meant (fails_tests_of_list P.store M.meant (trees_of_list trees.now)) (RunsOverAll P.store M.meant F.Fn R.result_of f (trees_of_list trees.now)) (zip (trees_of_list trees.now)) (has_trees (trees_of_list trees.now)) result me.old me.new }
{
    match held {
        None => Err(TransactionError::Storage(Error::Closed)),
        Some(state) => {
            state.audit();
            let ended = transact_all(state, me, trees, f);
            state.audit();
            ended
        }
    }
}

impl<P: Pages, L: Ledger, M: MergeOperator> Handle<P, L, M> {
    /// Runs a closure as a transaction of several trees, which it names by their positions in the list. It is as `transaction`, and all
    /// that it writes is added to the list as one group, in the order of the trees.
    ///
    /// A tree that is in the list twice has two positions, of which neither sees the other's writes; those of the later one are made later.
    /// Of an empty list nothing is made or added, and a flush that is asked for is left out. Refused with `Unsupported`, with a text of
    /// its own, if a tree is another database's, and else as `transaction` is.
    ///
    /// ```
    /// // Moves a job from one tree to the other.
    /// let moved: TransactionResult<(), ()> = handle.transaction_all(rt, &[&ready, &done], |both| {
    ///     if let Some(job) = both.remove(0, b"ulm")? {
    ///         both.insert(1, b"ulm", job.as_ref())?;
    ///     }
    ///     Ok(())
    /// });
    /// ```
    pub fn transaction_all<A: Drop, E, R: TransactionAnswer<A, E>, F>(
        &mut self,
        rt: &impl Wait,
        trees: &[&Tree],
        f: F,
    ) -> R::Ended
    where
        F: Fn(&mut TransactionalTrees<'_, P>) -> R,
        requires { (shown : _) → F.pre f shown }
        ensures made { AddsTransaction (RunsAllOnce P.store M.meant F.Fn R.result_of f (trees_of_list trees.now)) (zip (trees_of_list trees.now)) (has_trees (trees_of_list trees.now)) (R.answer_of result) self.old.made self.new.made }
        ensures number { self.new.number ≡ self.old.number }
        ensures under_lock { TransactsUnderLock P.store P.flush_number M.meant (fails_tests_of_list P.store M.meant (trees_of_list trees.now)) (RunsOverAll P.store M.meant F.Fn R.result_of f (trees_of_list trees.now)) (zip (trees_of_list trees.now)) (has_trees (trees_of_list trees.now)) (R.answer_of result) self.old self.new }
    {
        let mut guard = locked(rt, &self.lock);
        let ended = transact_all_in(&mut *guard, &mut self.me, trees, f);
        drop(guard);
        R::ended(ended)
    }
}
