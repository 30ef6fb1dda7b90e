//! The machine.
ghost use Rattle.std.specs.Prelude.{◌≡◌, ◌<◌, IfOk, IfErr, OnOk, OnErr, IfSome, IfNone, None, [], Option};
ghost use Rattle.std.specs.Option.{option_map, option_copied};
ghost use Rattle.sled_nodes.specs.Order.{Key};
ghost use Rattle.sled_nodes.specs.declared.error.Error.TheVariants.{NoMemory};
ghost use Rattle.sled_model.specs.Refusal.{must_refuse, ToBegin};
ghost use Rattle.sled_model.specs.Whole.{RefusesPoint};
ghost use Rattle.sled_model.specs.declared.call.Call.{Call};
ghost use Rattle.sled_model.specs.declared.call.Call.TheVariants as call;
ghost use Rattle.sled_model.specs.declared.outcome.Outcome.TheVariants as outcome;
ghost use Rattle.sled_model.specs.declared.outcome.Step.TheVariants as step;
ghost use Rattle.tree_steps.specs.Outcomes.{kept_of};

use crate::flights::{add, outcome_at_once, outcome_of, remove, settle};
use sled::{
    Commit, Db, Overlays, TransactionAnswer, TransactionResult, TransactionalTree,
    TransactionalTrees,
};
use sled_batch::Batch;
use sled_model::{Call, MergeOperator, Outcome, Reply, Slot, Step, Tree};
use sled_nodes::texts::NUMBERS_USED_UP;
use sled_nodes::{Error, IVec, Result};
use sled_store::Pages;
use sled_tree::{InFlight, Job};
use std::alloc::AllocError;
use std::collections::BTreeMap;
use std::marker::Model;
use tree_steps::Keep;

/// A database and the calls in flight on it.
pub struct Machine<P: Pages, M = Box<dyn MergeOperator + Send>> {
    pub(crate) db: Db<P, M>,
    // the calls in flight, by slot
    pub(crate) flights: BTreeMap<u64, InFlight>,
    slots_given: u64,
}

// By hand, so that each function that drops a machine cites this, and does not prove again how its parts are dropped.
impl<P: Pages, M: Drop> Drop for Machine<P, M> {
    fn drop(self) {
        let Machine {
            db,
            flights,
            slots_given: _,
        } = self;
        drop(db);
        drop(flights);
    }
}

impl<P: Pages, M> Model for Machine<P, M> {
    ghost use Rattle.machine_alone.specs.Values.{MachineValue};

    ghost Value = { MachineValue P M };

    ghost use Rattle.sled.specs.Values.{snapshot_of_db};
    ghost use Rattle.machine_alone.specs.Sound.{IsMachine};

    ghost view = { λ m. record { db = m.db; flights = m.flights.entries; slots_given = m.slots_given } };

    ghost invariant = { λ m. IsMachine (snapshot_of_db P.store m.db) m.flights.entries m.slots_given };
}

impl<P: Pages, M: MergeOperator> Machine<P, M> {
    ghost use Rattle.sled_model.specs.State.{maps_of, IsOnKey};
    ghost use Rattle.sled.specs.Sound.{IsDb, MapsAscend};
    ghost use Rattle.machine_alone.specs.Sound.{AreSlotsGiven, IsMachine};
    ghost use Rattle.machine_alone.specs.Values.{slots_of, job_of_call, job_lent};
    ghost use Rattle.sled.specs.Values.{db_state, snapshot_of_db};
    ghost use Rattle.sled.specs.Operators.{OperatorSet, OperatorNotSet};
    ghost use Rattle.sled.specs.Fetch.{Stands, FetchDecided, FetchRefused};
    ghost use Rattle.sled.specs.Promises.{ChangesMap, leaves_as};
    ghost use Rattle.sled.specs.Written.{Updates, WritesOnTree, RefusesOnTree, WritesOnList, RefusesOnList, LeavesOrFlushes};
    ghost use Rattle.sled.specs.Transactions.{CanTransact, TransactionRuns, TransactionMade, TransactionNotMade, CanTransactAll, ListRuns, ListMade, ListNotMade, trees_of_list};
    ghost use Rattle.machine_alone.specs.Step.{MachineStep, MachineSound, MachineActs, MachineFollows, MachinePasses, MachineSlots, MachineKeepsTreePages, MachineLeaksNoPage, MachineStepContract};
    ghost use Rattle.machine_alone.specs.Run.{MachineRun, MachineSteps};
    ghost use Rattle.machine_alone.specs.Finish.{RunsToEnd, Completes};
    ghost use Rattle.sled_queues.specs.Queues.{AreQueues};

    /// A machine over a database, with no call in flight.
    ///
    /// ```
    /// let mut machine = Machine::new(db);
    /// ```
    pub fn new(db: Db<P, M>) -> Machine<P, M>
        ensures db { result.db ≡ db }
        ensures flights { result.flights ≡ [] }
        ensures slots { result.slots_given ≡ 0 }
    {
        let flights = BTreeMap::new(db.allocator());
        Machine {
            db,
            flights,
            slots_given: 0,
        }
    }

    /// The database.
    ///
    /// ```
    /// let tree = machine.db().default_tree()?;
    /// ```
    pub fn db(&self) -> &Db<P, M>
        ensures { result.now ≡ self.now.db }
    {
        &self.db
    }

    /// The database. The calls in flight are abandoned.
    ///
    /// ```
    /// let pages = machine.into_db().into_pages();
    /// ```
    pub fn into_db(self) -> Db<P, M>
        ensures { result ≡ self.db }
    {
        let Machine {
            db,
            flights,
            slots_given: _,
        } = self;
        drop(flights);
        db
    }

    /// What holds of every machine: its database is as it should be, and the pairs of each of its maps rise by key. At most 1024 events
    /// wait for a subscriber, and no call is in a slot that is yet to be given. What each call in flight knows of the pages is true, and no
    /// page that is not linked yet is two calls'. It does nothing.
    ///
    /// ```
    /// machine.audit(); // From here on a proof knows that its database is well formed.
    /// ```
    pub fn audit(&self)
        ensures sound { IsDb P.store self.now.db }
        ensures ascend { MapsAscend (maps_of (db_state P.store M.meant self.now.db)) }
        ensures queues { AreQueues self.now.db.queues }
        ensures slots { AreSlotsGiven self.now.flights self.now.slots_given }
        ensures known { IsMachine (snapshot_of_db P.store self.now.db) self.now.flights self.now.slots_given }
    {
        self.db.audit();
    }

    /// Gives a tree a merge operator, in place of the one that it has. A merge is decided by the operator that its tree has at the
    /// step that decides it. The calls in flight stay as they are, and a call that is refused drops the operator.
    ///
    /// ```
    /// machine.set_merge_operator(&tree, Adds)?; // An operator that adds numbers.
    /// ```
    pub fn set_merge_operator(&mut self, tree: &Tree, operator: M) -> Result<()>
        ensures ok { OnOk result (OperatorSet P.store M.meant self.old.db tree.now (M.meant operator) self.new.db) }
        ensures err { IfErr result (λ e. OperatorNotSet P.store M.meant self.old.db tree.now e self.new.db) }
        ensures same { self.new ≡ record (self.old) { db = self.new.db } }
    {
        self.db.set_merge_operator(tree, operator)
    }

    /// Sets the value at a key to what the closure makes from the one that is there, as `update_and_fetch` of the database does,
    /// and answers the new value. The calls in flight stay as they are.
    ///
    /// ```
    /// // The value is taken out, whatever it is.
    /// let none = machine.update_and_fetch(&tree, b"ulm", |_| Ok(None))?;
    /// ```
    pub fn update_and_fetch<F>(&mut self, tree: &Tree, key: &[u8], f: F) -> Result<Option<IVec>>
    where
        F: FnMut(Option<&[u8]>) -> std::result::Result<Option<Vec<u8>>, AllocError>,
        requires { (stood : Option Key) → Stands P.store M.meant self.old.db tree.now key.now stood → (shown : _) → option_copied shown ≡ stood → F.pre f shown }
        ensures ok { IfOk result (λ made. (stood : Option Key) × FetchDecided P.store M.meant F.FnMut f self.old.db tree.now key.now stood made self.new.db) }
        ensures err { IfErr result (λ e. FetchRefused P.store M.meant F.FnMut f self.old.db tree.now key.now e self.new.db) }
        ensures updates { IfOk result (λ made. (stood : Option Key) × ChangesMap P.store M.meant self.old.db tree.now (Updates F.FnMut f key.now stood made) self.new.db) }
        ensures refuses { IfErr result (λ e. RefusesPoint (db_state P.store M.meant self.old.db) (P.store self.old.db.pages) (P.store self.new.db.pages) tree.now (call.Get key.now) e (db_state P.store M.meant self.new.db)) }
        ensures leaves { leaves_as P.store M.meant result self.old.db self.new.db }
        ensures same { self.new ≡ record (self.old) { db = self.new.db } }
    {
        self.db.update_and_fetch(tree, key, f)
    }

    /// The same, but that it answers the value that was there before.
    ///
    /// ```
    /// let taken = machine.fetch_and_update(&tree, b"ulm", |_| Ok(None))?;
    /// ```
    pub fn fetch_and_update<F>(&mut self, tree: &Tree, key: &[u8], f: F) -> Result<Option<IVec>>
    where
        F: FnMut(Option<&[u8]>) -> std::result::Result<Option<Vec<u8>>, AllocError>,
        requires { (stood : Option Key) → Stands P.store M.meant self.old.db tree.now key.now stood → (shown : _) → option_copied shown ≡ stood → F.pre f shown }
        ensures ok { IfOk result (λ stood. (made : Option Key) × FetchDecided P.store M.meant F.FnMut f self.old.db tree.now key.now stood made self.new.db) }
        ensures err { IfErr result (λ e. FetchRefused P.store M.meant F.FnMut f self.old.db tree.now key.now e self.new.db) }
        ensures updates { IfOk result (λ stood. (made : Option Key) × ChangesMap P.store M.meant self.old.db tree.now (Updates F.FnMut f key.now stood made) self.new.db) }
        ensures refuses { IfErr result (λ e. RefusesPoint (db_state P.store M.meant self.old.db) (P.store self.old.db.pages) (P.store self.new.db.pages) tree.now (call.Get key.now) e (db_state P.store M.meant self.new.db)) }
        ensures leaves { leaves_as P.store M.meant result self.old.db self.new.db }
        ensures same { self.new ≡ record (self.old) { db = self.new.db } }
    {
        self.db.fetch_and_update(tree, key, f)
    }

    /// Runs a closure as a transaction of a tree, as `transaction` of the database does. The calls in flight stay as they are.
    ///
    /// ```
    /// // The value of one key becomes that of another too.
    /// let copied: TransactionResult<(), ()> = machine.transaction(&tree, |weather| {
    ///     if let Some(value) = weather.get(b"ulm")? {
    ///         weather.insert(b"bern", value.as_ref())?;
    ///     }
    ///     Ok(())
    /// });
    /// ```
    pub fn transaction<A: Drop, E, R: TransactionAnswer<A, E>, F>(
        &mut self,
        tree: &Tree,
        f: F,
    ) -> R::Ended
    where
        F: Fn(&mut TransactionalTree<'_, P>) -> R,
        requires { CanTransact P.store M.meant (F.pre f) self.old.db tree.now }
        ensures ok { IfOk (R.answer_of result) (λ answer. TransactionMade P.store P.flush_number M.meant F.Fn R.result_of f self.old.db tree.now answer self.new.db) }
        ensures err { IfErr (R.answer_of result) (λ e. TransactionNotMade P.store P.flush_number M.meant F.Fn R.result_of f self.old.db tree.now e self.new.db) }
        ensures writes { IfOk (R.answer_of result) (λ answer. WritesOnTree P.store M.meant F.Fn R.result_of f self.old.db tree.now answer self.new.db) }
        ensures refuses { IfErr (R.answer_of result) (λ e. RefusesOnTree P.store M.meant F.Fn R.result_of f self.old.db tree.now e self.new.db) }
        ensures leaves { LeavesOrFlushes P.store M.meant self.old.db self.new.db }
        ensures same { self.new ≡ record (self.old) { db = self.new.db } }
    {
        self.db.transaction(tree, f)
    }

    /// Runs a closure as `transaction` does, and hands back what it wrote, as `run_transaction` of the database does. The calls in flight
    /// stay as they are.
    ///
    /// ```
    /// let ended: TransactionResult<Commit<(), Batch>, ()> = machine.run_transaction(&tree, |weather| {
    ///     weather.insert(b"ulm", b"21")?;
    ///     Ok(())
    /// });
    /// ```
    pub fn run_transaction<A, E, R: TransactionAnswer<A, E>, F>(
        &mut self,
        tree: &Tree,
        f: F,
    ) -> TransactionResult<Commit<A, Batch>, E>
    where
        F: Fn(&mut TransactionalTree<'_, P>) -> R,
        requires { CanTransact P.store M.meant (F.pre f) self.old.db tree.now }
        ensures runs { TransactionRuns P.store M.meant F.Fn R.result_of f self.old.db tree.now result self.new.db }
        ensures same { self.new ≡ record (self.old) { db = self.new.db } }
    {
        self.db.run_transaction(tree, f)
    }

    /// The same of several trees, as `run_transaction_all` of the database does.
    ///
    /// ```
    /// let ended: TransactionResult<Commit<(), Overlays>, ()> =
    ///     machine.run_transaction_all(&[&ready, &done], |both| {
    ///         both.insert(1, b"ulm", b"21")?;
    ///         Ok(())
    ///     });
    /// ```
    pub fn run_transaction_all<A, E, R: TransactionAnswer<A, E>, F>(
        &mut self,
        trees: &[&Tree],
        f: F,
    ) -> TransactionResult<Commit<A, Overlays>, E>
    where
        F: Fn(&mut TransactionalTrees<'_, P>) -> R,
        requires { CanTransactAll P.store M.meant (F.pre f) self.old.db (trees_of_list trees.now) }
        ensures runs { ListRuns P.store M.meant F.Fn R.result_of f self.old.db (trees_of_list trees.now) result self.new.db }
        ensures same { self.new ≡ record (self.old) { db = self.new.db } }
    {
        self.db.run_transaction_all(trees, f)
    }

    /// Runs a closure as a transaction of several trees, as `transaction_all` of the database does. The calls in flight stay as they are.
    ///
    /// ```
    /// // Moves a job from one tree to the other.
    /// let moved: TransactionResult<(), ()> = machine.transaction_all(&[&ready, &done], |both| {
    ///     if let Some(job) = both.remove(0, b"ulm")? {
    ///         both.insert(1, b"ulm", job.as_ref())?;
    ///     }
    ///     Ok(())
    /// });
    /// ```
    pub fn transaction_all<A: Drop, E, R: TransactionAnswer<A, E>, F>(
        &mut self,
        trees: &[&Tree],
        f: F,
    ) -> R::Ended
    where
        F: Fn(&mut TransactionalTrees<'_, P>) -> R,
        requires { CanTransactAll P.store M.meant (F.pre f) self.old.db (trees_of_list trees.now) }
        ensures ok { IfOk (R.answer_of result) (λ answer. ListMade P.store P.flush_number M.meant F.Fn R.result_of f self.old.db (trees_of_list trees.now) answer self.new.db) }
        ensures err { IfErr (R.answer_of result) (λ e. ListNotMade P.store P.flush_number M.meant F.Fn R.result_of f self.old.db (trees_of_list trees.now) e self.new.db) }
        ensures writes { IfOk (R.answer_of result) (λ answer. WritesOnList P.store M.meant F.Fn R.result_of f self.old.db (trees_of_list trees.now) answer self.new.db) }
        ensures refuses { IfErr (R.answer_of result) (λ e. RefusesOnList P.store M.meant F.Fn R.result_of f self.old.db (trees_of_list trees.now) e self.new.db) }
        ensures leaves { LeavesOrFlushes P.store M.meant self.old.db self.new.db }
        ensures same { self.new ≡ record (self.old) { db = self.new.db } }
    {
        self.db.transaction_all(trees, f)
    }

    // The tests before a call on a tree begins.
    fn check_begin(&self, tree: &Tree, call: &Call) -> Result<()>
        ensures tested { OnOk result (must_refuse (db_state P.store M.meant self.now.db) (ToBegin tree.now call.now) ≡ None) }
        ensures room { OnOk result (self.now.slots_given < u64.MAX) }
        ensures err { IfErr result (λ e. MachineStepContract P.store P.flush_number M.meant self.now (step.Begin tree.now call.now) (outcome.Refused e) self.now) }
    {
        if let Err(e) = self.db.check_call(tree, call) {
            return Err(e);
        }
        if self.slots_given == u64::MAX {
            return Err(Error::Unsupported(NUMBERS_USED_UP));
        }
        Ok(())
    }

    // The same tests, and a copy of the tree.
    fn admit(&self, tree: &Tree, call: &Call) -> Result<Tree>
        ensures ok { IfOk result (λ copy. copy ≡ tree.now) }
        ensures tested { OnOk result (must_refuse (db_state P.store M.meant self.now.db) (ToBegin tree.now call.now) ≡ None) }
        ensures room { OnOk result (self.now.slots_given < u64.MAX) }
        ensures err { IfErr result (λ e. MachineStepContract P.store P.flush_number M.meant self.now (step.Begin tree.now call.now) (outcome.Refused e) self.now) }
    {
        if let Err(e) = self.check_begin(tree, call) {
            return Err(e);
        }
        self.db.audit();
        tree.clone()
    }

    /// Begins a call on a tree. It does no page action.
    ///
    /// ```
    /// let slot = machine.begin(&tree, Call::get(alloc, b"ulm")?)?;
    /// let outcome = machine.step(slot);
    /// ```
    pub fn begin(&mut self, tree: &Tree, call: Call) -> Result<Slot>
        ensures ok { IfOk result (λ slot. MachineStepContract P.store P.flush_number M.meant self.old (step.Begin tree.now call) (outcome.Begun slot) self.new) }
        ensures err { IfErr result (λ e. MachineStepContract P.store P.flush_number M.meant self.old (step.Begin tree.now call) (outcome.Refused e) self.new) }
    {
        let tree = match self.admit(tree, &call) {
            Ok(tree) => tree,
            Err(e) => {
                drop(call);
                return Err(e);
            }
        };
        let slot = self.slots_given + 1;
        if let Err(e) = add(&mut self.flights, slot, InFlight::new(tree, call)) {
            return Err(e);
        }
        self.slots_given = slot;
        Ok(Slot(slot))
    }

    /// Does the next page action of the call in the slot, if there is one. A scan that has read a leaf gives the pairs that it found
    /// there, one at a step, and stays in its slot.
    ///
    /// ```
    /// let slot = machine.begin(&tree, Call::remove(alloc, b"ulm")?)?;
    /// match machine.step(slot) {
    ///     Outcome::Moved => (), // There is more to do.
    ///     outcome => drop(outcome), // How the call came out; its slot is gone.
    /// }
    /// ```
    pub fn step(&mut self, slot: Slot) -> Outcome
        ensures step { MachineStep P.store P.flush_number M.meant self.old (step.Step slot) result self.new }
        ensures sound { MachineSound P.store self.old self.new }
        ensures does { MachineActs P.store M.meant self.old (step.Step slot) result self.new }
        ensures follows { MachineFollows P.store M.meant self.old (step.Step slot) result self.new }
        ensures passes { MachinePasses P.store self.old (step.Step slot) result self.new }
        ensures slots { MachineSlots self.old (step.Step slot) result self.new }
        ensures loses { MachineKeepsTreePages P.store self.old (step.Step slot) result self.new }
        ensures leaves { MachineLeaksNoPage P.store self.old (step.Step slot) result self.new }
    {
        let (outcome, ()) = self.step_keeping(slot);
        outcome
    }

    /// Does the next page action of the call in the slot, as `step` does; if that decides the call, with two copies of the reply. They
    /// are made before the action that decides it: if there is no memory for them the step is refused with `NoMemory`, which ends the
    /// slot as any refusal does.
    ///
    /// ```
    /// let slot = machine.begin(&tree, Call::remove(alloc, b"ulm")?)?;
    /// let (outcome, copies) = machine.step_kept(slot); // No copies where it is `Moved`.
    /// ```
    pub fn step_kept(&mut self, slot: Slot) -> (Outcome, Option<(Reply, Reply)>)
        ensures step { MachineStep P.store P.flush_number M.meant self.old (step.Step slot) result.0 self.new }
        ensures sound { MachineSound P.store self.old self.new }
        ensures does { MachineActs P.store M.meant self.old (step.Step slot) result.0 self.new }
        ensures follows { MachineFollows P.store M.meant self.old (step.Step slot) result.0 self.new }
        ensures passes { MachinePasses P.store self.old (step.Step slot) result.0 self.new }
        ensures slots { MachineSlots self.old (step.Step slot) result.0 self.new }
        ensures loses { MachineKeepsTreePages P.store self.old (step.Step slot) result.0 self.new }
        ensures leaves { MachineLeaksNoPage P.store self.old (step.Step slot) result.0 self.new }
        ensures kept { result.1 ≡ kept_of result.0 }
    {
        self.step_keeping(slot)
    }

    // The same, with what is kept of it.
    #[inline(always)]
    fn step_keeping<K: Keep>(&mut self, slot: Slot) -> (Outcome, K)
        ensures step { MachineStep P.store P.flush_number M.meant self.old (step.Step slot) result.0 self.new }
        ensures sound { MachineSound P.store self.old self.new }
        ensures does { MachineActs P.store M.meant self.old (step.Step slot) result.0 self.new }
        ensures follows { MachineFollows P.store M.meant self.old (step.Step slot) result.0 self.new }
        ensures passes { MachinePasses P.store self.old (step.Step slot) result.0 self.new }
        ensures slots { MachineSlots self.old (step.Step slot) result.0 self.new }
        ensures loses { MachineKeepsTreePages P.store self.old (step.Step slot) result.0 self.new }
        ensures leaves { MachineLeaksNoPage P.store self.old (step.Step slot) result.0 self.new }
        ensures kept { result.1 ≡ K.kept result.0 }
    {
        let Some(flight) = self.flights.get_mut(&slot.0) else {
            return (Outcome::NoSuchSlot, K::nothing());
        };
        let (went, kept) = self.db.advance_keeping(flight);
        (settle(&mut self.flights, slot.0, went), kept)
    }

    /// Abandons the call in the slot. What it did to the pages stays, and no map changes.
    ///
    /// ```
    /// let outcome = machine.abandon(slot); // `Abandoned`, or `NoSuchSlot`.
    /// ```
    pub fn abandon(&mut self, slot: Slot) -> Outcome
        ensures { MachineStepContract P.store P.flush_number M.meant self.old (step.Abandon slot) result self.new }
    {
        if remove(&mut self.flights, slot.0) {
            return Outcome::Abandoned;
        }
        Outcome::NoSuchSlot
    }

    /// How many slots were given so far. The first that is given has the number 1, and each has one more than that before it; so none
    /// above this number was ever given.
    ///
    /// ```
    /// let given = machine.slots_given(); // 0, until the first call begins.
    /// ```
    pub fn slots_given(&self) -> u64
        ensures { result ≡ self.now.slots_given }
    {
        self.slots_given
    }

    /// What the call in the slot is to do, if there is one.
    ///
    /// ```
    /// let is_get = match machine.job(slot) {
    ///     Some(job) => matches!(&job.call, Call::Get(_)), // And `job.tree` is its tree.
    ///     None => false,
    /// };
    /// ```
    pub fn job(&self, slot: Slot) -> Option<&Job>
        ensures { option_map job_lent result ≡ option_map job_of_call (slots_of self.now.flights slot) }
    {
        match self.flights.get(&slot.0) {
            Some(flight) => Some(&flight.job),
            None => None,
        }
    }

    /// How often the call in the slot went on so far, if there is one; of a scan since it gave its last pair.
    ///
    /// ```
    /// let turns = machine.turns(slot); // `Some(0)` after its begin.
    /// ```
    pub fn turns(&self, slot: Slot) -> Option<u64>
        ensures { result ≡ option_map (λ f. f.turns) (slots_of self.now.flights slot) }
    {
        match self.flights.get(&slot.0) {
            Some(flight) => Some(flight.turns),
            None => None,
        }
    }

    /// Does steps of the call in the slot until it ends; of a scan until it gives its next pair, or ends. There are no more than its
    /// turns allow. If no other call left anything to repair on the way to its key, a call on a key that begins goes on at most once
    /// for each level of its tree.
    ///
    /// ```
    /// let slot = machine.begin(&tree, Call::insert(alloc, b"ulm", b"21")?)?;
    /// let outcome = machine.finish(slot); // Decided or refused, never `Moved`.
    /// ```
    ///
    /// ```
    /// let slot = machine.begin(&tree, Call::scan(alloc, Bound::Unbounded, Bound::Unbounded, false)?)?;
    /// match machine.finish(slot) {
    ///     Outcome::Yielded(key, value) => drop((key, value)), // The first pair. The next `finish` gives the second.
    ///     outcome => drop(outcome), // `Decided(Reply::End)` where the tree is empty, or why not; its slot is gone.
    /// }
    /// ```
    pub fn finish(&mut self, slot: Slot) -> Outcome
        ensures { RunsToEnd P.store P.flush_number M.meant self.old slot result self.new }
    {
        let Some(flight) = self.flights.get_mut(&slot.0) else {
            return Outcome::NoSuchSlot;
        };
        let went = self.db.advance_to_end(flight);
        settle(&mut self.flights, slot.0, went)
    }

    /// Does a call on a key from its begin to its end: what `begin` does, and then `finish` of the slot. The slot is given, but
    /// nothing is kept in it, and the tests are made once. The call must be no scan, which does not end with its first pair: that it
    /// is none is what `Call::is_on_key` says.
    ///
    /// ```
    /// let outcome = machine.complete(&tree, Call::insert(alloc, b"ulm", b"21")?);
    /// ```
    pub fn complete(&mut self, tree: &Tree, call: Call) -> Outcome
        requires { IsOnKey call }
        ensures { Completes P.store P.flush_number M.meant self.old tree.now call result self.new }
    {
        if let Err(e) = self.check_begin(tree, &call) {
            drop(call);
            return Outcome::Refused(e);
        }
        match self.complete_quick(tree, &call) {
            Some(outcome) => {
                drop(call);
                outcome
            }
            None => self.complete_in_flight(tree, call),
        }
    }

    // Does a call that passed the tests at once, if nothing is to be repaired on the way to its leaf and no subscriber waits for the event.
    #[inline(always)]
    fn complete_quick(&mut self, tree: &Tree, call: &Call) -> Option<Outcome>
        requires on_key { IsOnKey call.now }
        requires tested { must_refuse (db_state P.store M.meant self.old.db) (ToBegin tree.now call.now) ≡ None }
        requires room { self.old.slots_given < u64.MAX }
        ensures done { IfSome result (λ o. Completes P.store P.flush_number M.meant self.old tree.now call.now o self.new) }
        ensures nothing { IfNone result (self.new ≡ self.old) }
    {
        match self.db.make_quick(tree, call) {
            None => None,
            Some(made) => {
                self.slots_given += 1;
                Some(outcome_at_once(made))
            }
        }
    }

    // Does a call that passed the tests as one in flight, step by step.
    #[inline(never)]
    fn complete_in_flight(&mut self, tree: &Tree, call: Call) -> Outcome
        requires on_key { IsOnKey call }
        requires tested { must_refuse (db_state P.store M.meant self.old.db) (ToBegin tree.now call) ≡ None }
        requires room { self.old.slots_given < u64.MAX }
        ensures { Completes P.store P.flush_number M.meant self.old tree.now call result self.new }
    {
        self.db.audit();
        let tree = match tree.clone() {
            Ok(tree) => tree,
            Err(e) => {
                drop(call);
                return Outcome::Refused(e);
            }
        };
        self.slots_given += 1;
        let mut flight = InFlight::new(tree, call);
        let went = self.db.advance_on(&mut flight);
        drop(flight);
        outcome_of(went)
    }

    // Begins a copy of a call. The tests are made before the copy is.
    fn begin_copy(&mut self, tree: &Tree, call: &Call) -> Outcome
        ensures { MachineStepContract P.store P.flush_number M.meant self.old (step.Begin tree.now call.now) result self.new }
    {
        if let Err(e) = self.db.check_call(tree, call) {
            return Outcome::Refused(e);
        }
        let call = match call.clone() {
            Ok(call) => call,
            Err(e) => return Outcome::Refused(e),
        };
        match self.begin(tree, call) {
            Ok(slot) => Outcome::Begun(slot),
            Err(e) => Outcome::Refused(e),
        }
    }

    // Does one step of any kind.
    fn perform(&mut self, step: &Step) -> Outcome
        ensures { MachineStepContract P.store P.flush_number M.meant self.old step.now result self.new }
    {
        match step {
            Step::Begin(tree, call) => self.begin_copy(tree, call),
            Step::Step(slot) => self.step(*slot),
            Step::Abandon(slot) => self.abandon(*slot),
            Step::Whole(whole) => self.whole_of(whole),
        }
    }

    /// Does a list of steps, one after the other. Refused with `NoMemory` alone, and then nothing was done.
    ///
    /// ```
    /// // A call begins and goes on once; then all is flushed.
    /// let steps = [Step::Begin(tree, call), Step::Step(Slot(1)), Step::Whole(Whole::Flush)];
    /// let outcomes = machine.run(&steps)?;
    /// ```
    pub fn run(&mut self, steps: &[Step]) -> Result<Vec<Outcome>>
        ensures ok { IfOk result (λ outcomes. MachineRun P.store P.flush_number M.meant self.old steps.now outcomes.items self.new) }
        ensures each { IfOk result (λ outcomes. MachineSteps P.store P.flush_number M.meant self.old steps.now outcomes.items self.new) }
        ensures err { OnErr result (self.new ≡ self.old) }
        ensures cause { IfErr result (λ e. e ≡ NoMemory) }
    {
        let Ok(mut outcomes) = Vec::with_capacity(self.db.allocator(), steps.len()) else {
            return Err(Error::NoMemory);
        };
        for step in steps {
            let outcome = self.perform(step);
            outcomes.push(outcome).unwrap();
        }
        Ok(outcomes)
    }
}
