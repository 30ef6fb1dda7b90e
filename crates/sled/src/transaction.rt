//! Transactions: a closure reads and writes trees, and what it wrote is made as a group once it ends.
//!
//! While it runs its writes are kept beside the pages (`tree_transactions`), so a transaction that is aborted, or refused before its
//! commit, changes no map. The commit is a group (`Db::apply_group`).
ghost use Rattle.std.specs.Prelude.{◌≡◌, IfOk, IfErr, OnOk, [], ◌∷◌, ◌&&◌, map, Some, None, true};
ghost use Rattle.std.specs.List.{zip};
ghost use Rattle.sled_nodes.specs.declared.error.Error.TheVariants.{NoMemory};
ghost use Rattle.sled_store.specs.Store.{now};
ghost use Rattle.sled_model.specs.Refusal.{must_refuse_of};
ghost use Rattle.sled_model.specs.declared.tree.Tree.{Tree};
ghost use Rattle.tree_transactions.specs.Attempts.{CanBegin};
ghost use Rattle.tree_transactions.specs.Transactions.{Begins, BeginsAll, Transacts, TransactsAll};
ghost use Rattle.sled.specs.Transactions.{RefusesList, trees_of_list, has_trees, ShowsLaw, ShowsAtLaw, RefusesToShowLaw, RefusesToShowAtLaw};

use crate::db::Db;
use sled_batch::Batch;
use sled_model::{MergeOperator, Tree};
use sled_nodes::texts::TREES_OF_SEVERAL_DATABASES;
use sled_nodes::{Error, Pid, Result};
use sled_store::Pages;
use std::alloc::Global;
use tree_lists::number_of;
use tree_transactions::{
    Commit, Overlays, TransactionAnswer, TransactionError, TransactionResult, TransactionalTree,
    TransactionalTrees, transact, transact_all,
};

/// What was written of each tree of a list, as a group that `apply_group` makes: each batch with the tree at its position. A batch or a tree
/// that has no partner is left out. Refused with `NoMemory` alone. Our own.
///
/// ```
/// if let Ok(commit) = ended {
///     let group = group_of(alloc, &[&ready, &done], commit.writes.into_batches())?;
///     db.apply_group(group.as_slice())?; // What `run_transaction_all` handed back is made, all or nothing.
/// }
/// ```
pub fn group_of(alloc: Global, trees: &[&Tree], writes: Vec<Batch>) -> Result<Vec<(Tree, Batch)>>
    ensures ok { IfOk result (λ group. group.items ≡ zip (trees_of_list trees.now) writes.items) }
    ensures err { IfErr result (λ e. e ≡ NoMemory) }
{
    let mut group = Vec::new(alloc);
    for batch in writes {
        let Some(&tree) = trees.get(group.len()) else {
            drop(batch);
            return Ok(group);
        };
        match tree.clone() {
            Ok(tree) => group.push((tree, batch))?,
            Err(e) => {
                drop(batch);
                return Err(e);
            }
        }
    }
    Ok(group)
}

// Whether a flush follows a transaction of these trees.
fn flush_follows(trees: &[&Tree], flushes: bool) -> bool
    ensures { result ≡ has_trees (trees_of_list trees.now) && flushes }
{
    !trees.is_empty() && flushes
}

impl<P: Pages, M: MergeOperator> Db<P, M> {
    ghost use Rattle.sled.specs.Values.{db_state};
    ghost use Rattle.sled.specs.theory.Transactions.{CommitsGroup, StopsCommit};
    ghost use Rattle.sled.specs.Flush.{RefusesFlush};
    ghost use Rattle.sled.specs.Written.{WritesOnTree, RefusesOnTree, WritesOnList, RefusesOnList, LeavesOrFlushes};
    ghost use Rattle.sled.specs.Transactions.{TakesIds, flushes_as, CanTransact, TransactionRuns, TransactionMade, TransactionNotMade, CanTransactAll, ListRuns, ListMade, ListNotMade};

    // Runs a closure at the root of a tree, with the ids of this database. Nothing is written.
    fn run_on<A, E, R: TransactionAnswer<A, E>, F>(
        &mut self,
        root: Pid,
        f: F,
    ) -> TransactionResult<Commit<A, Batch>, E>
    where
        F: Fn(&mut TransactionalTree<'_, P>) -> R,
        requires { CanBegin (Begins P.store root) (F.pre f) (P.store self.old.pages) self.old.greatest_id }
        ensures runs { Transacts P.store F.Fn R.result_of f root (P.store self.old.pages) self.old.greatest_id result (P.store self.new.pages) self.new.greatest_id }
        ensures takes { TakesIds P.store M.meant self.old self.new }
    {
        transact(self.alloc, &mut self.pages, root, &mut self.greatest_id, f)
    }

    // .. and at the roots of the trees of a list.
    fn run_on_list<A, E, R: TransactionAnswer<A, E>, F>(
        &mut self,
        roots: &[Pid],
        f: F,
    ) -> TransactionResult<Commit<A, Overlays>, E>
    where
        F: Fn(&mut TransactionalTrees<'_, P>) -> R,
        requires { CanBegin (BeginsAll P.store roots.now) (F.pre f) (P.store self.old.pages) self.old.greatest_id }
        ensures runs { TransactsAll P.store F.Fn R.result_of f roots.now (P.store self.old.pages) self.old.greatest_id result (P.store self.new.pages) self.new.greatest_id }
        ensures takes { TakesIds P.store M.meant self.old self.new }
    {
        transact_all(self.alloc, &mut self.pages, roots, &mut self.greatest_id, f)
    }

    // The tests before a transaction of several trees, each of all of them.
    fn check_list(&self, trees: &[&Tree]) -> Result<()>
        ensures ok { OnOk result (must_refuse_of (db_state P.store M.meant self.now) (trees_of_list trees.now) ≡ None) }
        ensures err { IfErr result (RefusesList (must_refuse_of (db_state P.store M.meant self.now) (trees_of_list trees.now))) }
    {
        if self.pages.in_group() {
            return Err(Error::Closed);
        }
        for tree in trees {
            if tree.database != self.name {
                return Err(Error::Unsupported(TREES_OF_SEVERAL_DATABASES));
            }
        }
        for tree in trees {
            if number_of(self.trees.as_slice(), tree.name.as_ref()) != Some(tree.number) {
                return Err(Error::CollectionNotFound(tree.name.clone()?));
            }
        }
        Ok(())
    }

    // The roots of trees that pass the tests.
    fn roots_of(&self, trees: &[&Tree]) -> Result<Vec<Pid>>
        ensures tested { OnOk result (must_refuse_of (db_state P.store M.meant self.now) (trees_of_list trees.now) ≡ None) }
        ensures are { IfOk result (λ roots. map (λ (t : Tree). (now (P.store self.now.pages)).roots t.name) (trees_of_list trees.now) ≡ map Some roots.items) }
        ensures err { IfErr result (RefusesList (must_refuse_of (db_state P.store M.meant self.now) (trees_of_list trees.now))) }
    {
        if let Err(e) = self.check_list(trees) {
            return Err(e);
        }
        let mut roots = Vec::new(self.alloc);
        for tree in trees {
            match self.pages.root(tree.name.as_ref()) {
                Some(root) => roots.push(root)?,
                None => unreachable!(),
            }
        }
        Ok(roots)
    }

    // Makes all durable, if that is asked for.
    fn flush_where(&mut self, flushes: bool) -> Result<()>
        ensures ok { OnOk result (flushes_as P.store P.flush_number M.meant flushes self.old self.new) }
        ensures err { IfErr result (λ e. (flushes ≡ true) × RefusesFlush P.store M.meant self.old self.new e) }
    {
        if flushes {
            self.flush()?;
        }
        Ok(())
    }

    // Makes the writes of a tree, and then all durable if that is asked for.
    fn commit(&mut self, tree: &Tree, writes: Batch, flushes: bool) -> Result<()>
        ensures ok { OnOk result (CommitsGroup P.store P.flush_number M.meant self.old ((tree.now, writes) ∷ []) flushes self.new) }
        ensures err { IfErr result (λ e. StopsCommit P.store P.flush_number M.meant self.old ((tree.now, writes) ∷ []) flushes e self.new) }
    {
        if let Err(e) = self.apply_batch(tree, writes) {
            return Err(e);
        }
        self.flush_where(flushes)
    }

    // .. and those of the trees of a list.
    fn commit_list(&mut self, trees: &[&Tree], writes: Vec<Batch>, flushes: bool) -> Result<()>
        requires { must_refuse_of (db_state P.store M.meant self.old) (trees_of_list trees.now) ≡ None }
        ensures ok { OnOk result (CommitsGroup P.store P.flush_number M.meant self.old (zip (trees_of_list trees.now) writes.items) flushes self.new) }
        ensures err { IfErr result (λ e. StopsCommit P.store P.flush_number M.meant self.old (zip (trees_of_list trees.now) writes.items) flushes e self.new) }
    {
        let group = match group_of(self.alloc, trees, writes) {
            Ok(group) => group,
            Err(e) => return Err(e),
        };
        let made = self.apply_group(group.as_slice());
        drop(group);
        if let Err(e) = made {
            return Err(e);
        }
        self.flush_where(flushes)
    }

    /// Runs a closure as `transaction` does, and hands back what it wrote instead of making it: so its caller can note the writes, or change
    /// them, before it makes them as a batch (`apply_batch`), and flushes if the closure asked for that. No map changes. Ids that the closure
    /// took stay taken, however it ends.
    ///
    /// Refused by the tests of the tree, as the closure is, and with `ReportableBug` after a million conflicts.
    ///
    /// ```
    /// let ended: TransactionResult<Commit<(), Batch>, ()> = db.run_transaction(&tree, |weather| {
    ///     weather.insert(b"ulm", b"21")?;
    ///     Ok(())
    /// });
    /// if let Ok(commit) = ended {
    ///     db.apply_batch(&tree, commit.writes)?; // Not before this the tree has the pair.
    ///     if commit.flushes {
    ///         let flushed = db.flush()?;
    ///     }
    /// }
    /// ```
    pub fn run_transaction<A, E, R: TransactionAnswer<A, E>, F>(
        &mut self,
        tree: &Tree,
        f: F,
    ) -> TransactionResult<Commit<A, Batch>, E>
    where
        F: Fn(&mut TransactionalTree<'_, P>) -> R,
        requires { CanTransact P.store M.meant (F.pre f) self.old tree.now }
        ensures { TransactionRuns P.store M.meant F.Fn R.result_of f self.old tree.now result self.new }
    {
        let root = match self.root_of(tree) {
            Ok(root) => root,
            Err(e) => return Err(TransactionError::Storage(e)),
        };
        self.run_on(root, f)
    }

    /// The same of a closure that `transaction_all` would run: what it wrote of each tree, by position.
    ///
    /// Refused with `Unsupported`, with a text of its own, if a tree is another database's, and else as `run_transaction` is, for want of
    /// memory too.
    ///
    /// ```
    /// let ended: TransactionResult<Commit<(), Overlays>, ()> = db.run_transaction_all(&[&ready, &done], |both| {
    ///     both.insert(1, b"ulm", b"21")?;
    ///     Ok(())
    /// });
    /// if let Ok(commit) = ended {
    ///     let writes = commit.writes.into_batches(); // None of the first tree, and one of the second.
    /// }
    /// ```
    pub fn run_transaction_all<A, E, R: TransactionAnswer<A, E>, F>(
        &mut self,
        trees: &[&Tree],
        f: F,
    ) -> TransactionResult<Commit<A, Overlays>, E>
    where
        F: Fn(&mut TransactionalTrees<'_, P>) -> R,
        requires { CanTransactAll P.store M.meant (F.pre f) self.old (trees_of_list trees.now) }
        ensures { ListRuns P.store M.meant F.Fn R.result_of f self.old (trees_of_list trees.now) result self.new }
    {
        let roots = match self.roots_of(trees) {
            Ok(roots) => roots,
            Err(e) => return Err(TransactionError::Storage(e)),
        };
        let ended = self.run_on_list(roots.as_slice(), f);
        drop(roots);
        ended
    }

    // A transaction of a tree, as a result of its own type.
    fn transact_tree<A: Drop, E, R: TransactionAnswer<A, E>, F>(
        &mut self,
        tree: &Tree,
        f: F,
    ) -> TransactionResult<A, E>
    where
        F: Fn(&mut TransactionalTree<'_, P>) -> R,
        requires { CanTransact P.store M.meant (F.pre f) self.old tree.now }
        ensures ok { IfOk result (λ answer. TransactionMade P.store P.flush_number M.meant F.Fn R.result_of f self.old tree.now answer self.new) }
        ensures err { IfErr result (λ e. TransactionNotMade P.store P.flush_number M.meant F.Fn R.result_of f self.old tree.now e self.new) }
        ensures writes { IfOk result (λ answer. WritesOnTree P.store M.meant F.Fn R.result_of f self.old tree.now answer self.new) }
        ensures refuses { IfErr result (λ e. RefusesOnTree P.store M.meant F.Fn R.result_of f self.old tree.now e self.new) }
        ensures leaves { LeavesOrFlushes P.store M.meant self.old self.new }
    {
        self.audit();
        match self.run_transaction(tree, f) {
            Ok(
                Commit {
                    answer,
                    writes,
                    flushes,
                },
            ) => match self.commit(tree, writes, flushes) {
                Ok(()) => Ok(answer),
                Err(e) => {
                    drop(answer);
                    Err(TransactionError::Storage(e))
                }
            },
            Err(e) => Err(e),
        }
    }

    /// Runs a closure as a transaction of a tree: all that it writes is made, or nothing. Inside, reads see its own writes first, and then
    /// the tree as it is.
    ///
    /// If the closure ends by `Ok`, what it wrote is made as one batch (`apply_batch`), and a flush follows if it asked for one. If it ends
    /// by `abort`, nothing is written and its error is the answer. It may also end by a refusal, as `?` passes on those of the calls
    /// inside. It is run again, with nothing written, while it ends by `Conflict`, which no call inside answers, up to a million times in
    /// all. So that it can take ids inside, 4096 are set aside first if fewer than 1024 are, or as many as are left up to the greatest
    /// `u64`. That may be passed over, as it is if the store or memory refuses it. Those that it takes stay taken, however it ends.
    ///
    /// Refused by the tests of the tree; as the closure is; with `ReportableBug` after a million conflicts; as a batch is, which may close
    /// the database; and as the flush is, and then what was written stays.
    ///
    /// ```
    /// // Moves the value of one key to another.
    /// let moved: TransactionResult<bool, ()> = db.transaction(&tree, |weather| {
    ///     let Some(value) = weather.remove(b"ulm")? else {
    ///         return Ok(false);
    ///     };
    ///     weather.insert(b"bern", value.as_ref())?;
    ///     Ok(true)
    /// });
    /// ```
    pub fn transaction<A: Drop, E, R: TransactionAnswer<A, E>, F>(
        &mut self,
        tree: &Tree,
        f: F,
    ) -> R::Ended
    where
        F: Fn(&mut TransactionalTree<'_, P>) -> R,
        requires { CanTransact P.store M.meant (F.pre f) self.old tree.now }
        ensures ok { IfOk (R.answer_of result) (λ answer. TransactionMade P.store P.flush_number M.meant F.Fn R.result_of f self.old tree.now answer self.new) }
        ensures err { IfErr (R.answer_of result) (λ e. TransactionNotMade P.store P.flush_number M.meant F.Fn R.result_of f self.old tree.now e self.new) }
        ensures writes { IfOk (R.answer_of result) (λ answer. WritesOnTree P.store M.meant F.Fn R.result_of f self.old tree.now answer self.new) }
        ensures refuses { IfErr (R.answer_of result) (λ e. RefusesOnTree P.store M.meant F.Fn R.result_of f self.old tree.now e self.new) }
        ensures leaves { LeavesOrFlushes P.store M.meant self.old self.new }
    {
        R::ended(self.transact_tree(tree, f))
    }

    // A transaction of several trees, as a result of its own type.
    fn transact_list<A: Drop, E, R: TransactionAnswer<A, E>, F>(
        &mut self,
        trees: &[&Tree],
        f: F,
    ) -> TransactionResult<A, E>
    where
        F: Fn(&mut TransactionalTrees<'_, P>) -> R,
        requires { CanTransactAll P.store M.meant (F.pre f) self.old (trees_of_list trees.now) }
        ensures ok { IfOk result (λ answer. ListMade P.store P.flush_number M.meant F.Fn R.result_of f self.old (trees_of_list trees.now) answer self.new) }
        ensures err { IfErr result (λ e. ListNotMade P.store P.flush_number M.meant F.Fn R.result_of f self.old (trees_of_list trees.now) e self.new) }
        ensures writes { IfOk result (λ answer. WritesOnList P.store M.meant F.Fn R.result_of f self.old (trees_of_list trees.now) answer self.new) }
        ensures refuses { IfErr result (λ e. RefusesOnList P.store M.meant F.Fn R.result_of f self.old (trees_of_list trees.now) e self.new) }
        ensures leaves { LeavesOrFlushes P.store M.meant self.old self.new }
    {
        self.audit();
        match self.run_transaction_all(trees, f) {
            Ok(
                Commit {
                    answer,
                    writes,
                    flushes,
                },
            ) => {
                let flushes = flush_follows(trees, flushes);
                match self.commit_list(trees, writes.into_batches(), flushes) {
                    Ok(()) => Ok(answer),
                    Err(e) => {
                        drop(answer);
                        Err(TransactionError::Storage(e))
                    }
                }
            }
            Err(e) => Err(e),
        }
    }

    /// Runs a closure as a transaction of several trees, which it names by their positions in the list. It is as `transaction`, and all
    /// that it writes is made as one group (`apply_group`), in the order of the list.
    ///
    /// A tree that is in the list twice has two positions, of which neither sees the other's writes; those of the later one are made
    /// later. For an empty list no page is touched: no ids are set aside, and a flush that is asked for is passed over.
    ///
    /// Refused with `Unsupported`, with a text of its own, if a tree is another database's, and else as `transaction` is, for want of
    /// memory too.
    ///
    /// ```
    /// // Moves a job from one tree to the other.
    /// let moved: TransactionResult<(), ()> = db.transaction_all(&[&ready, &done], |both| {
    ///     if let Some(job) = both.remove(0, b"ulm")? {
    ///         both.insert(1, b"ulm", job.as_ref())?;
    ///     }
    ///     Ok(())
    /// });
    /// ```
    pub fn transaction_all<A: Drop, E, R: TransactionAnswer<A, E>, F>(
        &mut self,
        trees: &[&Tree],
        f: F,
    ) -> R::Ended
    where
        F: Fn(&mut TransactionalTrees<'_, P>) -> R,
        requires { CanTransactAll P.store M.meant (F.pre f) self.old (trees_of_list trees.now) }
        ensures ok { IfOk (R.answer_of result) (λ answer. ListMade P.store P.flush_number M.meant F.Fn R.result_of f self.old (trees_of_list trees.now) answer self.new) }
        ensures err { IfErr (R.answer_of result) (λ e. ListNotMade P.store P.flush_number M.meant F.Fn R.result_of f self.old (trees_of_list trees.now) e self.new) }
        ensures writes { IfOk (R.answer_of result) (λ answer. WritesOnList P.store M.meant F.Fn R.result_of f self.old (trees_of_list trees.now) answer self.new) }
        ensures refuses { IfErr (R.answer_of result) (λ e. RefusesOnList P.store M.meant F.Fn R.result_of f self.old (trees_of_list trees.now) e self.new) }
        ensures leaves { LeavesOrFlushes P.store M.meant self.old self.new }
    {
        R::ended(self.transact_list(trees, f))
    }
}

/// What a read inside a transaction shows, in terms of the maps: the transaction's own write of the key, and if there is none the value in
/// the map of the tree as it was before. And why one is refused, as for a read of the database. It does nothing.
///
/// ```
/// law_shows::<MemPages, Box<dyn MergeOperator + Send>>(); // From here on a proof knows what reads inside show.
/// ```
pub fn law_shows<P: Pages, M: MergeOperator>()
    ensures tree { ShowsLaw P.store M.meant }
    ensures list { ShowsAtLaw P.store M.meant }
    ensures tree_refused { RefusesToShowLaw P.store M.meant }
    ensures list_refused { RefusesToShowAtLaw P.store M.meant }
{}
