//! Transactions by a caller: a closure is run over the pages as they are, and what it wrote is made as a group, which is noted.
ghost use Rattle.std.specs.Prelude.{◌≡◌, true, IfErr, IfOk, OnOk, OnErr};
ghost use Rattle.sled_nodes.specs.declared.error.Error.TheVariants.{NoMemory};
ghost use Rattle.sled_model.specs.State.{maps_of};
ghost use Rattle.sled_model.specs.declared.call.Whole.TheVariants.{Flush};
ghost use Rattle.sled_model.specs.declared.outcome.Outcome.TheVariants.{Refused};
ghost use Rattle.sled.specs.Values.{db_state};
ghost use Rattle.machine_shared.specs.Inside.{RunsOver};
ghost use Rattle.machine_shared.specs.Transacted.{CommitsGroup, RefusesCommit, TransactsUnderLock, flushes_as, transacts_as};
ghost use Rattle.machine_shared.specs.Transactions.{AddsTransaction, RunsIn, RunsOnce, batches_of_tree, fails_tests, transaction_made};
ghost use Rattle.machine_shared.specs.UnderLock.{MakesWhole};
ghost use Rattle.machine_shared.specs.theory.Transacting.{AddsCommit, AddsFlush, StopsCommit, ran_as};

use crate::caller::Caller;
use crate::grouping::decided;
use crate::handle::Handle;
use crate::locked::locked;
use crate::state::State;
use sled::{Commit, TransactionAnswer, TransactionError, TransactionResult, TransactionalTree};
use sled_batch::Batch;
use sled_model::{MergeOperator, Tree, Whole};
use sled_nodes::{Error, Result};
use sled_store::Pages;
use std::alloc::Global;
use std::sync::Wait;
use std::sync::ledger::Ledger;

impl<P: Pages, L: Ledger, M: MergeOperator> State<P, L, M> {
    ghost use Rattle.machine_shared.specs.Transacted.{with_db};

    // Runs a closure at a tree, with the ids of the database, and hands back what it wrote.
    fn run<A, E, R: TransactionAnswer<A, E>, F>(
        &mut self,
        tree: &Tree,
        f: F,
    ) -> TransactionResult<Commit<A, Batch>, E>
    where
        F: Fn(&mut TransactionalTree<'_, P>) -> R,
        requires { (shown : _) → F.pre f shown }
        ensures ran { ran_as (fails_tests P.store M.meant tree.now self.old.machine.db) (RunsIn P.store M.meant F.Fn R.result_of f tree.now self.old.machine.db) self.old.machine.db result self.new.machine.db }
        ensures same { self.new ≡ with_db self.old self.new.machine.db }
    {
        self.machine.audit();
        self.machine.run_transaction(tree, f)
    }
}

// What was written of a tree, as a group.
fn group_of(alloc: Global, tree: &Tree, writes: Batch) -> Result<Vec<(Tree, Batch)>>
    ensures ok { IfOk result (λ group. group.items ≡ batches_of_tree tree.now writes) }
    ensures err { IfErr result (λ e. e ≡ NoMemory) }
{
    let tree = match tree.clone() {
        Ok(tree) => tree,
        Err(e) => {
            drop(writes);
            return Err(e);
        }
    };
    let mut group = Vec::new(alloc);
    match group.push((tree, writes)) {
        Ok(()) => Ok(group),
        Err(failed) => {
            drop(failed);
            drop(group);
            Err(Error::NoMemory)
        }
    }
}

// Makes all durable, and notes it.
fn make_flush<P: Pages, L: Ledger, M: MergeOperator>(
    state: &mut State<P, L, M>,
    me: &mut Caller<L>,
) -> Result<()>
    ensures ok { OnOk result (AddsFlush me.old.made me.new.made) }
    ensures err { OnErr result (me.new.made ≡ me.old.made) }
    ensures number { me.new.number ≡ me.old.number }
    ensures makes { OnOk result (flushes_as P.store P.flush_number M.meant true me.old me.new state.old state.new) }
    ensures stops { IfErr result (λ e. MakesWhole P.store P.flush_number M.meant Flush (Refused e) me.old me.new state.old state.new) }
{
    let outcome = state.whole(me, Whole::Flush);
    decided(outcome)
}

// Makes a group that a transaction wrote, and then all durable if that is asked for.
pub(crate) fn commit<P: Pages, L: Ledger, M: MergeOperator>(
    state: &mut State<P, L, M>,
    me: &mut Caller<L>,
    group: Vec<(Tree, Batch)>,
    flushes: bool,
) -> Result<()>
    ensures ok { OnOk result (AddsCommit (transaction_made (maps_of (db_state P.store M.meant state.old.machine.db)) group.items) flushes me.old.made me.new.made) }
    ensures err { OnErr result (StopsCommit (transaction_made (maps_of (db_state P.store M.meant state.old.machine.db)) group.items) flushes me.old.made me.new.made) }
    ensures number { me.new.number ≡ me.old.number }
    ensures commits { OnOk result (CommitsGroup P.store P.flush_number M.meant group.items flushes me.old me.new state.old state.new) }
    ensures stops { IfErr result (λ e. RefusesCommit P.store P.flush_number M.meant group.items flushes e me.old me.new state.old state.new) }
{
    if let Err(e) = state.make(me, group) {
        return Err(e);
    }
    if !flushes {
        return Ok(());
    }
    make_flush(state, me)
}

// The same of what was written of a tree.
fn commit_tree<P: Pages, L: Ledger, M: MergeOperator>(
    state: &mut State<P, L, M>,
    me: &mut Caller<L>,
    tree: &Tree,
    writes: Batch,
    flushes: bool,
) -> Result<()>
    ensures ok { OnOk result (AddsCommit (transaction_made (maps_of (db_state P.store M.meant state.old.machine.db)) (batches_of_tree tree.now writes)) flushes me.old.made me.new.made) }
    ensures err { OnErr result (StopsCommit (transaction_made (maps_of (db_state P.store M.meant state.old.machine.db)) (batches_of_tree tree.now writes)) flushes me.old.made me.new.made) }
    ensures number { me.new.number ≡ me.old.number }
    ensures commits { OnOk result (CommitsGroup P.store P.flush_number M.meant (batches_of_tree tree.now writes) flushes me.old me.new state.old state.new) }
    ensures stops { IfErr result (λ e. RefusesCommit P.store P.flush_number M.meant (batches_of_tree tree.now writes) flushes e me.old me.new state.old state.new) }
{
    let alloc = state.machine().db().allocator();
    match group_of(alloc, tree, writes) {
        Ok(group) => commit(state, me, group, flushes),
        Err(e) => Err(e),
    }
}

// A transaction of a tree: its closure is run, and what that wrote is made and noted.
fn transact<P: Pages, L: Ledger, M: MergeOperator, A: Drop, E, R: TransactionAnswer<A, E>, F>(
    state: &mut State<P, L, M>,
    me: &mut Caller<L>,
    tree: &Tree,
    f: F,
) -> TransactionResult<A, E>
where
    F: Fn(&mut TransactionalTree<'_, P>) -> R,
    requires { (shown : _) → F.pre f shown }
    ensures made { AddsTransaction (RunsOnce P.store M.meant F.Fn R.result_of f tree.now) (batches_of_tree tree.now) true result me.old.made me.new.made }
    ensures number { me.new.number ≡ me.old.number }
    ensures does { transacts_as P.store P.flush_number M.meant (fails_tests P.store M.meant tree.now) (RunsOver P.store M.meant F.Fn R.result_of f tree.now) (batches_of_tree tree.now) true result me.old me.new state.old state.new }
{
    match state.run(tree, f) {
        Ok(
            Commit {
                answer,
                writes,
                flushes,
            },
        ) => match commit_tree(state, me, tree, writes, flushes) {
            Ok(()) => Ok(answer),
            Err(e) => {
                drop(answer);
                Err(TransactionError::Storage(e))
            }
        },
        Err(e) => Err(e),
    }
}

// The same of what a lock holds. What was taken from under it is closed.
fn transact_in<P: Pages, L: Ledger, M: MergeOperator, A: Drop, E, R: TransactionAnswer<A, E>, F>(
    held: &mut Option<State<P, L, M>>,
    me: &mut Caller<L>,
    tree: &Tree,
    f: F,
) -> TransactionResult<A, E>
where
    F: Fn(&mut TransactionalTree<'_, P>) -> R,
    requires { (shown : _) → F.pre f shown }
    ensures made { AddsTransaction (RunsOnce P.store M.meant F.Fn R.result_of f tree.now) (batches_of_tree tree.now) true result me.old.made me.new.made }
    ensures number { me.new.number ≡ me.old.number }
    ensures under_lock { TransactsUnderLock P.store P.flush_number M.meant (fails_tests P.store M.meant tree.now) (RunsOver P.store M.meant F.Fn R.result_of f tree.now) (batches_of_tree tree.now) true result me.old me.new }
{
    match held {
        None => Err(TransactionError::Storage(Error::Closed)),
        Some(state) => {
            state.audit();
            let ended = transact(state, me, tree, f);
            state.audit();
            ended
        }
    }
}

impl<P: Pages, L: Ledger, M: MergeOperator> Handle<P, L, M> {
    /// Runs a closure as a transaction of a tree: all that it writes is made, or nothing. It is one step under the lock. What it wrote is
    /// added to this caller's list, also if that is nothing, with what was before at each key that it wrote: the closure was run over maps
    /// that had this there. Of keys that it read and did not write the list says nothing. The clause `under_lock` does: whatever it read was
    /// in the maps at its place in the history, unless it had written the key itself.
    ///
    /// After it the flush that the closure asked for is added. Of a transaction that is aborted or refused nothing is added to the list;
    /// but if only the flush is refused what it wrote is made, and is in the list.
    ///
    /// The closure ends as one of `transaction` of the database does, and is run again while it ends by `Conflict`. It is called while the
    /// lock is held: it must make no call on this database. It may take ids, as inside `transaction` of the database, and those that it took
    /// stay taken, however it ends; no entry has them. Refused as `transaction` of the database is; if there is no memory to note
    /// it, or what stands at a key that it wrote cannot be read; and with `Closed` if the database was taken out of its lock.
    ///
    /// ```
    /// // Moves the value of one key to another.
    /// let moved: TransactionResult<bool, ()> = handle.transaction(rt, &tree, |weather| {
    ///     let Some(value) = weather.remove(b"ulm")? else {
    ///         return Ok(false);
    ///     };
    ///     weather.insert(b"bern", value.as_ref())?;
    ///     Ok(true)
    /// });
    /// ```
    pub fn transaction<A: Drop, E, R: TransactionAnswer<A, E>, F>(
        &mut self,
        rt: &impl Wait,
        tree: &Tree,
        f: F,
    ) -> R::Ended
    where
        F: Fn(&mut TransactionalTree<'_, P>) -> R,
        requires { (shown : _) → F.pre f shown }
        ensures made { AddsTransaction (RunsOnce P.store M.meant F.Fn R.result_of f tree.now) (batches_of_tree tree.now) true (R.answer_of result) self.old.made self.new.made }
        ensures number { self.new.number ≡ self.old.number }
        ensures under_lock { TransactsUnderLock P.store P.flush_number M.meant (fails_tests P.store M.meant tree.now) (RunsOver P.store M.meant F.Fn R.result_of f tree.now) (batches_of_tree tree.now) true (R.answer_of result) self.old self.new }
    {
        let mut guard = locked(rt, &self.lock);
        let ended = transact_in(&mut *guard, &mut self.me, tree, f);
        drop(guard);
        R::ended(ended)
    }
}
