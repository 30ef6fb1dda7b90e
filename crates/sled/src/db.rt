//! The database.
ghost use Rattle.std.specs.Prelude.{◌≡◌, ◌≢◌, IfOk, IfErr, OnOk, IfSome, IfNone, false, true, Some, None, [], ◌∷◌};
ghost use Rattle.sled_nodes.specs.declared.error.Error.TheVariants.{NoMemory};
ghost use Rattle.sled_store.specs.Store.{now};
ghost use Rattle.tree_laws.specs.Crashes.{IsValid, IsCrashConsistent};
ghost use Rattle.sled_model.specs.Refusal.{must_refuse, must_refuse_of, needs_operator, ToPoint, ToStep};
ghost use Rattle.sled_model.specs.State.{IsOnKey};
ghost use Rattle.sled_model.specs.declared.call.Call.{Call};
ghost use Rattle.sled_queues.specs.Values.{queue_at};
ghost use Rattle.sled_tree.specs.declared.flight.Went.TheVariants.{Moved};
ghost use Rattle.sled.specs.Calls.{IsHandle, RefusesHandle, MustBeRefused};
ghost use Rattle.sled.specs.theory.Direct.{TellsNobody};
ghost use Rattle.tree_steps.specs.Outcomes.{outcome_of, kept_of};

use crate::DEFAULT_TREE;
use sled_model::{Call, MAX_LOOPS, MergeOperator, Reply, Tree};
use sled_nodes::texts::{HANDLE_OF_ANOTHER_DATABASE, NO_MERGE_OPERATOR, WALK_PASSED_TURNS};
use sled_nodes::{Error, IVec, Result};
use sled_queues::Queues;
use sled_store::Pages;
use sled_tree::{InFlight, Went, walk_down};
use std::alloc::Global;
use std::marker::Model;
use tree_lists::{number_of, operator_of};
use tree_quick::make_quick;
use tree_steps::{Keep, step_over};

// Whether the call goes on.
fn goes_on(went: &Went) -> bool
    ensures on { result ≡ true → went.now ≡ Moved }
    ensures ended { result ≡ false → went.now ≢ Moved }
{
    match went {
        Went::Moved => true,
        _ => false,
    }
}

// Whether a call sends no event: it links nothing, or no subscriber waits for what happens to its key.
#[inline(always)]
fn tells_nobody(queues: &Queues, tree: &Tree, call: &Call) -> bool
    ensures { result ≡ true → TellsNobody (queue_at queues.now) tree.now.number call.now }
{
    if let Call::Get(_) = call {
        return true;
    }
    !queues.is_watched(tree.number, call.key())
}

/// A database: named trees over a store of pages.
pub struct Db<P: Pages, M = Box<dyn MergeOperator + Send>> {
    pub(crate) alloc: Global,
    pub(crate) pages: P,
    pub(crate) name: IVec,
    // the trees' numbers, ascending by name
    pub(crate) trees: Vec<(IVec, u64)>,
    // the merge operators, by the number of the tree
    pub(crate) operators: Vec<(u64, M)>,
    pub(crate) queues: Queues,
    pub(crate) trees_given: u64,
    pub(crate) greatest_id: u64,
}

// By hand, so that each function that drops a database cites this, and does not prove again how its parts are dropped.
impl<P: Pages, M: Drop> Drop for Db<P, M> {
    fn drop(self) {
        let Db {
            alloc: _,
            pages,
            name,
            trees,
            operators,
            queues,
            trees_given: _,
            greatest_id: _,
        } = self;
        drop(pages);
        drop(name);
        drop(trees);
        drop(operators);
        drop(queues);
    }
}

impl<P: Pages, M> Model for Db<P, M> {
    ghost use Rattle.sled.specs.Values.{DbValue};

    ghost Value = { DbValue P M };

    ghost use Rattle.sled.specs.Sound.{IsDb};

    ghost view = { λ d. record { pages = d.pages; name = d.name; trees = d.trees.items; operators = d.operators.items; queues = d.queues; trees_given = d.trees_given; greatest_id = d.greatest_id } };

    ghost invariant = { λ d. IsDb P.store (record { pages = d.pages; name = d.name; trees = d.trees.items; operators = d.operators.items; queues = d.queues; trees_given = d.trees_given; greatest_id = d.greatest_id }) };
}

impl<P: Pages, M: MergeOperator> Db<P, M> {
    ghost use Rattle.sled_model.specs.State.{maps_of, default_name};
    ghost use Rattle.sled.specs.Sound.{IsDb, MapsAscend};
    ghost use Rattle.sled.specs.Values.{db_state, snapshot_of_db};
    ghost use Rattle.sled_tree.specs.Known.{IsKnown};
    ghost use Rattle.sled.specs.Flights.{DbStep, DbSound, DbActs, DbFollows, DbPasses, DbLeaksNoPage, DbKnows, KeepsTreePages, DbStepContract, DbRunsToEnd, call_in_flight_of};
    ghost use Rattle.sled.specs.theory.Walking.{DbWalksDown};
    ghost use Rattle.sled.specs.Direct.{RunsAtOnce};
    ghost use Rattle.sled.specs.Flush.{FlushesDb, RefusesFlush};
    ghost use Rattle.sled.specs.Wholes.{KeepsMaps, leaves_flushed_as};
    ghost use Rattle.sled.specs.Operators.{without_operators};
    ghost use Rattle.sled_queues.specs.Queues.{AreQueues};

    /// What holds of every database: its pages are well formed now and in every state that a crash may leave, and its trees are those that
    /// the pages have roots for. The pairs of each of its maps rise by key, and at most 1024 events wait for a subscriber. It does nothing.
    ///
    /// ```
    /// db.audit(); // From here on a proof knows that `db` is well formed.
    /// ```
    pub fn audit(&self)
        ensures sound { IsDb P.store self.now }
        ensures ascend { MapsAscend (maps_of (db_state P.store M.meant self.now)) }
        ensures queues { AreQueues self.now.queues }
    {
        self.queues.audit();
    }

    /// The allocator that the database was made with.
    ///
    /// ```
    /// let name = IVec::from_slice(db.allocator(), b"ulm")?;
    /// ```
    pub fn allocator(&self) -> Global {
        self.alloc
    }

    /// The pages as they are, to be looked at. Nothing changes: calls in flight and subscribers go on, and nothing is flushed.
    ///
    /// ```
    /// let root = db.pages().root(b"weather"); // The page at which the tree of this name begins, if there is one.
    /// ```
    pub fn pages(&self) -> &P
        ensures { result.now ≡ self.now.pages }
    {
        &self.pages
    }

    /// The pages, as they are. They can be opened again if no group is open.
    ///
    /// ```
    /// let pages = db.into_pages();
    /// let db = Db::open(alloc, pages, b"weather"); // The same trees.
    /// ```
    pub fn into_pages(self) -> P
        ensures pages { result ≡ self.pages }
        ensures sound { IsDb P.store self }
        ensures well { IsValid (now (P.store result)) }
        ensures safe { IsCrashConsistent (P.store result) }
    {
        let Db {
            alloc: _,
            pages,
            name,
            trees,
            operators,
            queues,
            trees_given: _,
            greatest_id: _,
        } = self;
        drop(name);
        drop(trees);
        drop(operators);
        drop(queues);
        pages
    }

    /// The same database for merge operators of another type. Those that it has are dropped.
    ///
    /// ```
    /// let mut db: Db<MemPages, Adds> = db.with_operators();
    /// ```
    pub fn with_operators<N: MergeOperator>(self) -> Db<P, N>
        ensures { result ≡ without_operators self }
    {
        let Db {
            alloc,
            pages,
            name,
            trees,
            operators,
            queues,
            trees_given,
            greatest_id,
        } = self;
        drop(operators);
        Db {
            alloc,
            pages,
            name,
            trees,
            operators: Vec::new(alloc),
            queues,
            trees_given,
            greatest_id,
        }
    }

    /// Whether the store was made from what an earlier one left.
    ///
    /// ```
    /// let is_recovered = db.was_recovered(); // `false` over a new store.
    /// ```
    pub fn was_recovered(&self) -> bool
        ensures { result ≡ (P.store self.now.pages).recovered }
    {
        self.pages.was_recovered()
    }

    /// The default tree. Refused with `Closed` and `NoMemory` alone.
    ///
    /// ```
    /// let tree = db.default_tree()?;
    /// let found = db.get(&tree, b"ulm")?;
    /// ```
    #[tactic(auto, unfolding(sled_model::specs::State::default_name))]
    pub fn default_tree(&self) -> Result<Tree>
        ensures ok { IfOk result (IsHandle self.now default_name) }
        ensures no_group { OnOk result ((now (P.store self.now.pages)).in_group ≡ false) }
        ensures err { IfErr result (RefusesHandle (P.store self.now.pages)) }
    {
        if self.pages.in_group() {
            return Err(Error::Closed);
        }
        match number_of(self.trees.as_slice(), DEFAULT_TREE.as_bytes()) {
            Some(number) => self.handle_of(DEFAULT_TREE.as_bytes(), number),
            None => unreachable!(),
        }
    }

    /// The tests before every call on a tree, in this order: that the database is open, that the tree is its own, and that
    /// the tree was not dropped.
    ///
    /// ```
    /// db.check(&tree)?; // Open, of this database, and not dropped.
    /// ```
    pub fn check(&self, tree: &Tree) -> Result<()>
        ensures ok { OnOk result (must_refuse_of (db_state P.store M.meant self.now) (tree.now ∷ []) ≡ None) }
        ensures err { IfErr result (MustBeRefused (must_refuse_of (db_state P.store M.meant self.now) (tree.now ∷ []))) }
    {
        if self.pages.in_group() {
            return Err(Error::Closed);
        }
        if tree.database != self.name {
            return Err(Error::Unsupported(HANDLE_OF_ANOTHER_DATABASE));
        }
        match number_of(self.trees.as_slice(), tree.name.as_ref()) {
            Some(number) if number == tree.number => Ok(()),
            _ => Err(Error::CollectionNotFound(tree.name.clone()?)),
        }
    }

    /// The tests before a call on a key of a tree: those of the tree, and then that it has the operator that the call needs.
    ///
    /// ```
    /// db.check_call(&tree, &call)?; // Refused only where the call would be, before it does anything.
    /// ```
    pub fn check_call(&self, tree: &Tree, call: &Call) -> Result<()>
        ensures ok { OnOk result (must_refuse (db_state P.store M.meant self.now) (ToPoint tree.now call.now) ≡ None) }
        ensures err { IfErr result (MustBeRefused (must_refuse (db_state P.store M.meant self.now) (ToPoint tree.now call.now))) }
    {
        if call.needs_operator() {
            self.check_operator(tree)
        } else {
            self.check(tree)
        }
    }

    /// The tests before a merge in a tree: those of the tree, and then that it has an operator.
    ///
    /// ```
    /// db.check_operator(&tree)?; // `Unsupported` where the tree has no operator.
    /// ```
    pub fn check_operator(&self, tree: &Tree) -> Result<()>
        ensures ok { OnOk result ((call : Call) → must_refuse (db_state P.store M.meant self.now) (ToPoint tree.now call) ≡ None) }
        ensures err { IfErr result (λ e. (call : Call) → needs_operator call ≡ true → MustBeRefused (must_refuse (db_state P.store M.meant self.now) (ToPoint tree.now call)) e) }
    {
        if let Err(e) = self.check(tree) {
            return Err(e);
        }
        match operator_of(self.operators.as_slice(), tree.number) {
            Some(_) => Ok(()),
            None => Err(Error::Unsupported(NO_MERGE_OPERATOR)),
        }
    }

    /// One step of a call in flight, which may do one page action. The tests come first, and the count of turns last. No subscriber
    /// delays a call: if 1024 events wait for one that gets one more, the oldest of them goes and is counted.
    ///
    /// ```
    /// let mut flight = InFlight::new(tree, Call::get(alloc, b"ulm")?);
    /// let went = db.advance(&mut flight); // One page action at most.
    /// ```
    pub fn advance(&mut self, flight: &mut InFlight) -> Went
        requires { IsKnown (snapshot_of_db P.store self.old) flight.old }
        ensures step { DbStep P.store M.meant self.old flight.old result self.new flight.new }
        ensures sound { DbSound P.store self.old self.new }
        ensures does { DbActs P.store M.meant self.old flight.old result self.new }
        ensures follows { DbFollows P.store M.meant self.old flight.old result self.new flight.new }
        ensures passes { DbPasses P.store self.old flight.old result self.new flight.new }
        ensures loses { KeepsTreePages None (snapshot_of_db P.store self.old) (snapshot_of_db P.store self.new) }
        ensures leaves { DbLeaksNoPage P.store self.old flight.old result self.new flight.new }
        ensures knows { DbKnows P.store self.old flight.old result self.new flight.new }
    {
        let (went, ()) = self.advance_keeping(flight);
        went
    }

    /// One step of a call in flight, as `advance` makes it; if it decides the call, with two copies of its reply. They are made before
    /// the action that decides it: if there is no memory for them the step is refused with `NoMemory`.
    ///
    /// ```
    /// let mut flight = InFlight::new(tree, Call::get(alloc, b"ulm")?);
    /// let (went, copies) = db.advance_kept(&mut flight); // `None` as long as the call goes on.
    /// ```
    pub fn advance_kept(&mut self, flight: &mut InFlight) -> (Went, Option<(Reply, Reply)>)
        requires { IsKnown (snapshot_of_db P.store self.old) flight.old }
        ensures step { DbStep P.store M.meant self.old flight.old result.0 self.new flight.new }
        ensures sound { DbSound P.store self.old self.new }
        ensures does { DbActs P.store M.meant self.old flight.old result.0 self.new }
        ensures follows { DbFollows P.store M.meant self.old flight.old result.0 self.new flight.new }
        ensures passes { DbPasses P.store self.old flight.old result.0 self.new flight.new }
        ensures loses { KeepsTreePages None (snapshot_of_db P.store self.old) (snapshot_of_db P.store self.new) }
        ensures leaves { DbLeaksNoPage P.store self.old flight.old result.0 self.new flight.new }
        ensures knows { DbKnows P.store self.old flight.old result.0 self.new flight.new }
        ensures kept { result.1 ≡ kept_of (outcome_of result.0) }
    {
        self.advance_keeping(flight)
    }

    /// One step of a call in flight, as `advance` makes it, and what is kept of it: nothing (`()`), or two copies of the reply if it
    /// decides the call, as `advance_kept` has them.
    ///
    /// ```
    /// let mut flight = InFlight::new(tree, Call::get(alloc, b"ulm")?);
    /// let (went, ()) = db.advance_keeping(&mut flight); // As `advance` does.
    /// ```
    #[inline(always)]
    pub fn advance_keeping<K: Keep>(&mut self, flight: &mut InFlight) -> (Went, K)
        requires { IsKnown (snapshot_of_db P.store self.old) flight.old }
        ensures step { DbStep P.store M.meant self.old flight.old result.0 self.new flight.new }
        ensures sound { DbSound P.store self.old self.new }
        ensures does { DbActs P.store M.meant self.old flight.old result.0 self.new }
        ensures follows { DbFollows P.store M.meant self.old flight.old result.0 self.new flight.new }
        ensures passes { DbPasses P.store self.old flight.old result.0 self.new flight.new }
        ensures loses { KeepsTreePages None (snapshot_of_db P.store self.old) (snapshot_of_db P.store self.new) }
        ensures leaves { DbLeaksNoPage P.store self.old flight.old result.0 self.new flight.new }
        ensures knows { DbKnows P.store self.old flight.old result.0 self.new flight.new }
        ensures kept { result.1 ≡ K.kept (outcome_of result.0) }
    {
        if let Err(e) = self.check_call(&flight.job.tree, &flight.job.call) {
            return (Went::Refused(e), K::nothing());
        }
        self.advance_tested(flight)
    }

    // The same of a call that passed the tests.
    #[inline(always)]
    fn advance_tested<K: Keep>(&mut self, flight: &mut InFlight) -> (Went, K)
        requires known { IsKnown (snapshot_of_db P.store self.old) flight.old }
        requires tested { must_refuse (db_state P.store M.meant self.old) (ToStep (call_in_flight_of flight.old)) ≡ None }
        ensures steps { DbStepContract P.store M.meant self.old flight.old result.0 self.new flight.new }
        ensures kept { result.1 ≡ K.kept (outcome_of result.0) }
    {
        if flight.turns == MAX_LOOPS {
            return (
                Went::Refused(Error::ReportableBug(WALK_PASSED_TURNS)),
                K::nothing(),
            );
        }
        let operator = operator_of(self.operators.as_slice(), flight.job.tree.number);
        step_over(
            &mut self.pages,
            &mut self.queues,
            self.alloc,
            operator,
            flight,
        )
    }

    // The steps of its walk that a call on a key makes next, one after the other, which read pages and change none. By the last of them
    // it may have ended.
    #[inline(always)]
    fn walk_down(&self, flight: &mut InFlight) -> Option<Went>
        requires known { IsKnown (snapshot_of_db P.store self.now) flight.old }
        requires tested { must_refuse (db_state P.store M.meant self.now) (ToStep (call_in_flight_of flight.old)) ≡ None }
        ensures { DbWalksDown P.store M.meant self.now flight.old result flight.new }
    {
        self.audit();
        if !flight.job.call.is_on_key() {
            return None;
        }
        let Some(went) = walk_down(&self.pages, self.alloc, flight) else {
            return None;
        };
        if goes_on(&went) {
            drop(went);
            return None;
        }
        Some(went)
    }

    /// Steps of a call in flight until it ends or, of a scan, gives a pair. The tests are made once, since no step of a call changes what they
    /// look at.
    ///
    /// ```
    /// let mut flight = InFlight::new(tree, Call::get(alloc, b"ulm")?);
    /// let went = db.advance_to_end(&mut flight); // Decided or refused, never `Moved`.
    /// ```
    pub fn advance_to_end(&mut self, flight: &mut InFlight) -> Went
        requires { IsKnown (snapshot_of_db P.store self.old) flight.old }
        ensures { DbRunsToEnd P.store M.meant self.old flight.old result self.new flight.new }
    {
        if let Err(e) = self.check_call(&flight.job.tree, &flight.job.call) {
            return Went::Refused(e);
        }
        self.advance_on(flight)
    }

    /// The same of a call that passed the tests.
    ///
    /// ```
    /// db.check_call(&tree, &call)?; // The tests, which `advance_on` does not repeat.
    /// let mut flight = InFlight::new(tree, call);
    /// let went = db.advance_on(&mut flight);
    /// ```
    pub fn advance_on(&mut self, flight: &mut InFlight) -> Went
        requires known { IsKnown (snapshot_of_db P.store self.old) flight.old }
        requires tested { must_refuse (db_state P.store M.meant self.old) (ToStep (call_in_flight_of flight.old)) ≡ None }
        ensures { DbRunsToEnd P.store M.meant self.old flight.old result self.new flight.new }
    {
        'steps: loop {
            if let Some(went) = self.walk_down(flight) {
                return went;
            }
            let (went, ()) = self.advance_tested(flight);
            match went {
                Went::Moved => self.audit(),
                went => return went,
            }
        }
    }

    /// A call on a key that passed the tests, made at once by the steps of a call in flight from its begin to its end. It may do nothing, and
    /// answer `None`: as it does if something is to be repaired on the way to its leaf, or a subscriber waits for what happens to its key.
    ///
    /// ```
    /// db.check_call(&tree, &call)?; // The tests, which `make_quick` does not repeat.
    /// match db.make_quick(&tree, &call) {
    ///     Some(made) => (), // It was decided or refused.
    ///     None => (), // It is to be made in flight.
    /// }
    /// ```
    #[inline(always)]
    pub fn make_quick(&mut self, tree: &Tree, call: &Call) -> Option<Result<Reply>>
        requires on_key { IsOnKey call.now }
        requires tested { must_refuse (db_state P.store M.meant self.old) (ToPoint tree.now call.now) ≡ None }
        ensures made { IfSome result (λ made. RunsAtOnce P.store M.meant self.old tree.now call.now made self.new) }
        ensures nothing { IfNone result (self.new ≡ self.old) }
    {
        if !tells_nobody(&self.queues, tree, call) {
            return None;
        }
        let operator = operator_of(self.operators.as_slice(), tree.number);
        make_quick(&mut self.pages, self.alloc, operator, tree, call)
    }

    /// Makes all that was decided durable. The number that it answers is the store's.
    ///
    /// ```
    /// db.insert(&tree, b"ulm", b"21")?;
    /// let count = db.flush()?; // No crash takes the insert back now.
    /// ```
    pub fn flush(&mut self) -> Result<usize>
        ensures ok { IfOk result (λ number. FlushesDb P.store P.flush_number M.meant self.old number self.new) }
        ensures err { IfErr result (RefusesFlush P.store M.meant self.old self.new) }
        ensures keeps { KeepsMaps P.store M.meant self.old self.new }
        ensures leaves { leaves_flushed_as P.store M.meant result self.old self.new }
    {
        if self.pages.in_group() {
            return Err(Error::Closed);
        }
        let count = match self.pages.flush() {
            Ok(count) => count,
            Err(e) => return Err(e),
        };
        Ok(count)
    }
}
