//! Callers' ways to a database that is shared.
ghost use Rattle.std.specs.Prelude.{◌≡◌, ◌++◌, Err, IfErr, IfOk, Ok, OnErr, Option};
ghost use Rattle.std.specs.Option.{option_copied};
ghost use Rattle.sled_model.specs.State.{IsOnKey};
ghost use Rattle.sled_model.specs.declared.call.Call.{Call};
ghost use Rattle.sled_model.specs.declared.call.Call.TheVariants.{Get, Insert, Remove, CompareAndSwap, Merge};
ghost use Rattle.sled_nodes.specs.Order.{Key};
ghost use Rattle.machine_shared.specs.theory.Copied.{AddsStepped, AreCopies, BeganStepped, EndsStepped};
ghost use Rattle.machine_shared.specs.Fetches.{Fetches, FetchesUnderLock};
ghost use Rattle.machine_shared.specs.Made.{made_values};
ghost use Rattle.machine_shared.specs.Notes.{AddsStep, IsEnd, IsGivenUp, noted_of};
ghost use Rattle.machine_shared.specs.Replies.{RepliesTo};
ghost use Rattle.machine_shared.specs.UnderLock.{AbandonsUnderLock, BeginsCall, BeginsUnderLock, EndsUnderLock, StepsUnderLock, UnderLock, WholesUnderLock};
ghost use Rattle.machine_shared.specs.WholeNotes.{AddsWhole};

use crate::called::{Stepped, begin_on, step_on};
use crate::caller::Caller;
use crate::entry::Made;
use crate::locked::locked;
use crate::noting::{Jobs, copies_of};
use crate::state::State;
use crate::steps::{abandon_in, begin_in, fetch_adding, step_adding, whole_adding};
use sled_model::{Call, MergeOperator, Outcome, Slot, Tree, Whole};
use sled_nodes::{Error, IVec, Result};
use sled_store::Pages;
use std::alloc::{AllocError, Global};
use std::marker::Model;
use std::sync::ledger::Ledger;
use std::sync::{Arc, Mutex, Wait};

/// What is called between two steps of a call, while the lock is free.
pub trait Gate {
    /// Called after each step that went on.
    fn between(&self);
}

/// A gate that does nothing.
pub struct NoGate;

impl Gate for NoGate {
    fn between(&self) {}
}

/// A caller's way to a database that is shared. It is given to a thread by value, and back to `gather`.
pub struct Handle<P: Pages, L: Ledger, M = Box<dyn MergeOperator + Send>> {
    pub(crate) lock: Arc<Mutex<Option<State<P, L, M>>>>,
    pub(crate) me: Caller<L>,
}

impl<P: Pages, L: Ledger, M> Model for Handle<P, L, M> {
    ghost use Rattle.machine_shared.specs.Values.{CallerValue};

    ghost Value = { CallerValue };

    ghost view = { λ h. h.me };
}

impl<P: Pages, L: Ledger, M> Handle<P, L, M> {
    // A caller's way to what is under the lock.
    pub(crate) fn new(lock: Arc<Mutex<Option<State<P, L, M>>>>, me: Caller<L>) -> Handle<P, L, M>
        ensures { result ≡ me }
    {
        Handle { lock, me }
    }

    /// The caller's number: handles are numbered from 1, or above the greatest in the history that was shared, in order of the calls that
    /// made them.
    ///
    /// ```
    /// let number = handle.number(); // As each of its entries in the history has it.
    /// ```
    pub fn number(&self) -> u64
        ensures { result ≡ self.now.number }
    {
        self.me.number
    }

    /// What this caller made, in order. It has each call on a key that its steps decided and each of its whole calls that was decided, with
    /// its reply, and the parts of those that were refused after some. It has each of its reads, with what it returned, and each of its
    /// transactions.
    ///
    /// ```
    /// let count = handle.made().len();
    /// ```
    pub fn made(&self) -> &[Made]
        ensures { made_values result.now ≡ self.now.made }
    {
        self.me.made.as_slice()
    }
}

impl<P: Pages, L: Ledger, M: MergeOperator> Handle<P, L, M> {
    /// Begins a call on a tree, which takes a slot. Refused as `begin` of the machine is, and with `Closed` if the database was taken out of
    /// its lock.
    ///
    /// ```
    /// let slot = handle.begin(rt, &tree, Call::get(alloc, b"ulm")?)?;
    /// ```
    pub fn begin(&mut self, rt: &impl Wait, tree: &Tree, call: Call) -> Result<Slot>
        ensures same { self.new ≡ self.old }
        ensures begins { BeginsUnderLock P.store P.flush_number M.meant tree.now call result }
    {
        let mut guard = locked(rt, &self.lock);
        let begun = begin_in(&mut *guard, tree, call);
        drop(guard);
        begun
    }

    /// One step of the call in the slot, whichever caller began it, as `step` of the machine. A call on a key that it decides is added to this
    /// handle's list. If there is no memory to note that, the call is refused with `NoMemory`, and its slot is free; and with `Closed` if the
    /// database was taken out of its lock.
    ///
    /// ```
    /// let outcome = handle.step(rt, slot);
    /// ```
    pub fn step(&mut self, rt: &impl Wait, slot: Slot) -> Outcome
        ensures made { AddsStep result self.old.made self.new.made }
        ensures number { self.new.number ≡ self.old.number }
        ensures steps { StepsUnderLock P.store P.flush_number M.meant slot result self.old self.new }
    {
        let mut guard = locked(rt, &self.lock);
        let outcome = step_adding(&mut *guard, &mut self.me, slot);
        drop(guard);
        outcome
    }

    /// Abandons the call in the slot, whichever caller began it. If the slot has no call it returns `NoSuchSlot`, and `Refused(Closed)` if the
    /// database was taken out of its lock.
    ///
    /// ```
    /// let outcome = handle.abandon(rt, slot); // `Abandoned`, if nobody ended it before.
    /// ```
    pub fn abandon(&mut self, rt: &impl Wait, slot: Slot) -> Outcome
        ensures given_up { IsGivenUp result }
        ensures same { self.new ≡ self.old }
        ensures abandons { AbandonsUnderLock P.store P.flush_number M.meant slot result }
    {
        let mut guard = locked(rt, &self.lock);
        let outcome = abandon_in(&mut *guard, slot);
        drop(guard);
        outcome
    }

    /// Does a whole call, in one step under the lock. One that is decided becomes this caller's, with its reply; of `Next`, which returns
    /// each event once, the reply is noted as `Done`. A `Clear` or an `Import` that is refused midway becomes this caller's with the parts
    /// that it did, if it did any. Refused as `whole` of the machine is, with `NoMemory` if it cannot be noted, and with `Closed` if the
    /// database was taken out of its lock.
    ///
    /// ```
    /// let outcome = handle.whole(rt, Whole::PopMin(tree)); // `Decided(Reply::Pair(..))`, or why not.
    /// ```
    pub fn whole(&mut self, rt: &impl Wait, whole: Whole) -> Outcome
        ensures made { AddsWhole whole result self.old.made self.new.made }
        ensures replies { RepliesTo whole result }
        ensures number { self.new.number ≡ self.old.number }
        ensures wholes { WholesUnderLock P.store P.flush_number M.meant whole result self.old self.new }
    {
        let mut guard = locked(rt, &self.lock);
        let outcome = whole_adding(&mut *guard, &mut self.me, whole);
        drop(guard);
        outcome
    }

    // Makes the new value at a key from the one that is there. Returns both values.
    fn fetch<F>(
        &mut self,
        rt: &impl Wait,
        tree: &Tree,
        key: &[u8],
        f: F,
    ) -> Result<(Option<IVec>, Option<IVec>)>
    where
        F: FnMut(Option<&[u8]>) -> std::result::Result<Option<Vec<u8>>, AllocError>,
        requires { (shown : _) → F.pre f shown }
        ensures ok { IfOk result (λ both. Fetches F.FnMut f tree.now key.now both.0 both.1 self.old.made self.new.made) }
        ensures err { OnErr result (self.new.made ≡ self.old.made) }
        ensures number { self.new.number ≡ self.old.number }
        ensures under_lock { FetchesUnderLock P.store M.meant tree.now key.now result self.old self.new }
    {
        let mut guard = locked(rt, &self.lock);
        let fetched = fetch_adding(&mut *guard, &mut self.me, tree, key, f);
        drop(guard);
        fetched
    }

    /// Sets the value at a key to what the closure makes from the value that is there, or removes the key if that is `None`. Returns the
    /// new value. It is one step under the lock, so no other caller writes between. It is added to this caller's list as the swap of the
    /// one value for the other.
    ///
    /// Refused as a read and a swap are, with `NoMemory` if the closure returns its want of memory or it cannot be noted, and with `Closed`
    /// if the database was taken out of its lock; then nothing is written, and nothing is added to the list. The closure is called while
    /// the lock is held: it must make no call on this database.
    ///
    /// ```
    /// // The value is taken out, whatever it is.
    /// let none = handle.update_and_fetch(rt, &tree, b"ulm", |_| Ok(None))?;
    /// ```
    pub fn update_and_fetch<F>(
        &mut self,
        rt: &impl Wait,
        tree: &Tree,
        key: &[u8],
        f: F,
    ) -> Result<Option<IVec>>
    where
        F: FnMut(Option<&[u8]>) -> std::result::Result<Option<Vec<u8>>, AllocError>,
        requires { (shown : _) → F.pre f shown }
        ensures ok { IfOk result (λ made. (stood : Option Key) × Fetches F.FnMut f tree.now key.now stood made self.old.made self.new.made) }
        ensures err { OnErr result (self.new.made ≡ self.old.made) }
        ensures number { self.new.number ≡ self.old.number }
        ensures under_lock { IfOk result (λ made. (stood : Option Key) × FetchesUnderLock P.store M.meant tree.now key.now (Ok (stood, made)) self.old self.new) }
        ensures refused { IfErr result (λ e. FetchesUnderLock P.store M.meant tree.now key.now (Err e) self.old self.new) }
    {
        match self.fetch(rt, tree, key, f) {
            Ok((stood, made)) => {
                drop(stood);
                Ok(made)
            }
            Err(e) => Err(e),
        }
    }

    /// The same, but it returns the value that was there before.
    ///
    /// ```
    /// let taken = handle.fetch_and_update(rt, &tree, b"ulm", |_| Ok(None))?;
    /// ```
    pub fn fetch_and_update<F>(
        &mut self,
        rt: &impl Wait,
        tree: &Tree,
        key: &[u8],
        f: F,
    ) -> Result<Option<IVec>>
    where
        F: FnMut(Option<&[u8]>) -> std::result::Result<Option<Vec<u8>>, AllocError>,
        requires { (shown : _) → F.pre f shown }
        ensures ok { IfOk result (λ stood. (made : Option Key) × Fetches F.FnMut f tree.now key.now stood made self.old.made self.new.made) }
        ensures err { OnErr result (self.new.made ≡ self.old.made) }
        ensures number { self.new.number ≡ self.old.number }
        ensures under_lock { IfOk result (λ stood. (made : Option Key) × FetchesUnderLock P.store M.meant tree.now key.now (Ok (stood, made)) self.old self.new) }
        ensures refused { IfErr result (λ e. FetchesUnderLock P.store M.meant tree.now key.now (Err e) self.old self.new) }
    {
        match self.fetch(rt, tree, key, f) {
            Ok((stood, made)) => {
                drop(made);
                Ok(stood)
            }
            Err(e) => Err(e),
        }
    }

    // Begins this call on a key, and makes its first step.
    fn begin_on(&mut self, rt: &impl Wait, tree: &Tree, call: Call, jobs: Jobs) -> Stepped
        requires copies { AreCopies tree.now call jobs }
        requires key { IsOnKey call }
        ensures made { AddsStepped tree.now call result self.old.made self.new.made }
        ensures number { self.new.number ≡ self.old.number }
        ensures ends { EndsStepped P.store P.flush_number M.meant tree.now call result self.old self.new }
        ensures began { BeganStepped P.store P.flush_number M.meant tree.now call result }
    {
        let mut guard = locked(rt, &self.lock);
        let stepped = begin_on(&mut *guard, &mut self.me, tree, call, jobs);
        drop(guard);
        stepped
    }

    // One step of the call in the slot, if it is this one on a key.
    fn step_on(&mut self, rt: &impl Wait, slot: Slot, jobs: Jobs) -> Stepped
        requires second { jobs.1 ≡ jobs.0 }
        requires key { IsOnKey jobs.0.call }
        requires began { UnderLock P.store (BeginsCall P.store P.flush_number M.meant jobs.0.tree jobs.0.call (Ok slot)) }
        ensures made { AddsStepped jobs.0.tree jobs.0.call result self.old.made self.new.made }
        ensures number { self.new.number ≡ self.old.number }
        ensures ends { EndsStepped P.store P.flush_number M.meant jobs.0.tree jobs.0.call result self.old self.new }
    {
        let mut guard = locked(rt, &self.lock);
        let stepped = step_on(&mut *guard, &mut self.me, slot, jobs);
        drop(guard);
        stepped
    }

    // Steps of the call in the slot until one does not go on. Before each the gate is called.
    fn steps(&mut self, rt: &impl Wait, slot: Slot, jobs: Jobs, gate: &impl Gate) -> Outcome
        requires second { jobs.1 ≡ jobs.0 }
        requires key { IsOnKey jobs.0.call }
        requires began { UnderLock P.store (BeginsCall P.store P.flush_number M.meant jobs.0.tree jobs.0.call (Ok slot)) }
        ensures made { self.new.made ≡ self.old.made ++ noted_of result jobs.0.tree jobs.0.call }
        ensures number { self.new.number ≡ self.old.number }
        ensures ends { IsEnd result }
        ensures under_lock { EndsUnderLock P.store P.flush_number M.meant jobs.0.tree jobs.0.call result self.old self.new }
    {
        let mut left = jobs;
        for _ in rt.forever() {
            gate.between();
            match self.step_on(rt, slot, left) {
                Stepped::Ended(outcome) => return outcome,
                Stepped::On(_, same) => left = same,
            }
        }
        unreachable!()
    }

    /// Makes a call on a key of a tree, step by step until it is decided or refused. The lock is taken for each step and is free between
    /// two, when the gate is called. A call that is decided is added to this caller's list, with its reply. It must be no scan:
    /// `Call::is_on_key` says so. Refused as the call in flight is, with `NoMemory` if it cannot be copied or noted, and with `Closed` if the
    /// database was taken out of its lock. If another caller ended the slot it returns `NoSuchSlot`, and nothing is added to the list: the
    /// call had begun in this slot, and at some moment under the lock the slot had it no more.
    ///
    /// ```
    /// let outcome = handle.call(rt, &tree, Call::insert(alloc, b"ulm", b"21")?, &NoGate);
    /// ```
    pub fn call(&mut self, rt: &impl Wait, tree: &Tree, call: Call, gate: &impl Gate) -> Outcome
        requires { IsOnKey call }
        ensures made { self.new.made ≡ self.old.made ++ noted_of result tree.now call }
        ensures number { self.new.number ≡ self.old.number }
        ensures ends { IsEnd result }
        ensures under_lock { EndsUnderLock P.store P.flush_number M.meant tree.now call result self.old self.new }
    {
        let jobs = match copies_of(*self.me.made.allocator(), tree, &call) {
            Ok(jobs) => jobs,
            Err(e) => {
                drop(e);
                drop(call);
                return Outcome::Refused(Error::NoMemory);
            }
        };
        match self.begin_on(rt, tree, call, jobs) {
            Stepped::Ended(outcome) => outcome,
            Stepped::On(slot, jobs) => self.steps(rt, slot, jobs, gate),
        }
    }

    // The same without a gate, if there was memory to make the call.
    fn call_made(&mut self, rt: &impl Wait, tree: &Tree, made: Result<Call>) -> Outcome
        requires { IfOk made IsOnKey }
        ensures made { (call : Call) → IfOk made (λ it. it ≡ call) → self.new.made ≡ self.old.made ++ noted_of result tree.now call }
        ensures number { self.new.number ≡ self.old.number }
        ensures ends { IsEnd result }
        ensures under_lock { (call : Call) → IfOk made (λ it. it ≡ call) → EndsUnderLock P.store P.flush_number M.meant tree.now call result self.old self.new }
    {
        match made {
            Ok(call) => self.call(rt, tree, call, &NoGate),
            Err(e) => {
                drop(e);
                Outcome::Refused(Error::NoMemory)
            }
        }
    }

    /// Asks for the value at a key, as `call` does without a gate. Want of memory for the call is `Refused` too, as in the next four.
    ///
    /// ```
    /// let outcome = handle.get(rt, alloc, &tree, b"ulm");
    /// ```
    #[tactic(auto, using(crate::proofs::Noted::on_key_made))]
    pub fn get(&mut self, rt: &impl Wait, alloc: Global, tree: &Tree, key: &[u8]) -> Outcome
        ensures made { self.new.made ≡ self.old.made ++ noted_of result tree.now (Get key.now) }
        ensures number { self.new.number ≡ self.old.number }
        ensures ends { IsEnd result }
        ensures under_lock { EndsUnderLock P.store P.flush_number M.meant tree.now (Get key.now) result self.old self.new }
    {
        self.call_made(rt, tree, Call::get(alloc, key))
    }

    /// Sets the value at a key, and replies with the value that was there.
    ///
    /// ```
    /// let outcome = handle.insert(rt, alloc, &tree, b"ulm", b"21");
    /// ```
    #[tactic(auto, using(crate::proofs::Noted::on_key_made))]
    pub fn insert(
        &mut self,
        rt: &impl Wait,
        alloc: Global,
        tree: &Tree,
        key: &[u8],
        value: &[u8],
    ) -> Outcome
        ensures made { self.new.made ≡ self.old.made ++ noted_of result tree.now (Insert key.now value.now) }
        ensures number { self.new.number ≡ self.old.number }
        ensures ends { IsEnd result }
        ensures under_lock { EndsUnderLock P.store P.flush_number M.meant tree.now (Insert key.now value.now) result self.old self.new }
    {
        self.call_made(rt, tree, Call::insert(alloc, key, value))
    }

    /// Removes a key, and replies with the value that was there.
    ///
    /// ```
    /// let outcome = handle.remove(rt, alloc, &tree, b"ulm");
    /// ```
    #[tactic(auto, using(crate::proofs::Noted::on_key_made))]
    pub fn remove(&mut self, rt: &impl Wait, alloc: Global, tree: &Tree, key: &[u8]) -> Outcome
        ensures made { self.new.made ≡ self.old.made ++ noted_of result tree.now (Remove key.now) }
        ensures number { self.new.number ≡ self.old.number }
        ensures ends { IsEnd result }
        ensures under_lock { EndsUnderLock P.store P.flush_number M.meant tree.now (Remove key.now) result self.old self.new }
    {
        self.call_made(rt, tree, Call::remove(alloc, key))
    }

    /// If the first value is at a key it becomes the second one; `None` is no value.
    ///
    /// ```
    /// let outcome = handle.compare_and_swap(rt, alloc, &tree, b"ulm", Some(b"21"), None); // Takes the key out where `21` stands.
    /// ```
    #[tactic(auto, using(crate::proofs::Noted::on_key_made))]
    pub fn compare_and_swap(
        &mut self,
        rt: &impl Wait,
        alloc: Global,
        tree: &Tree,
        key: &[u8],
        old: Option<&[u8]>,
        new: Option<&[u8]>,
    ) -> Outcome
        ensures made { self.new.made ≡ self.old.made ++ noted_of result tree.now (CompareAndSwap key.now (option_copied old.entry) (option_copied new.entry)) }
        ensures number { self.new.number ≡ self.old.number }
        ensures ends { IsEnd result }
        ensures under_lock { EndsUnderLock P.store P.flush_number M.meant tree.now (CompareAndSwap key.now (option_copied old.entry) (option_copied new.entry)) result self.old self.new }
    {
        self.call_made(rt, tree, Call::compare_and_swap(alloc, key, old, new))
    }

    /// Joins bytes to the value at a key, by the merge operator of the tree, and replies with the new value.
    ///
    /// ```
    /// let outcome = handle.merge(rt, alloc, &tree, b"visits", &1u64.to_be_bytes());
    /// ```
    #[tactic(auto, using(crate::proofs::Noted::on_key_made))]
    pub fn merge(
        &mut self,
        rt: &impl Wait,
        alloc: Global,
        tree: &Tree,
        key: &[u8],
        bytes: &[u8],
    ) -> Outcome
        ensures made { self.new.made ≡ self.old.made ++ noted_of result tree.now (Merge key.now bytes.now) }
        ensures number { self.new.number ≡ self.old.number }
        ensures ends { IsEnd result }
        ensures under_lock { EndsUnderLock P.store P.flush_number M.meant tree.now (Merge key.now bytes.now) result self.old self.new }
    {
        self.call_made(rt, tree, Call::merge(alloc, key, bytes))
    }
}

// By hand, as a state's.
impl<P: Pages, L: Ledger, M: Drop> Drop for Handle<P, L, M> {
    fn drop(self) {
        let Handle { lock, me } = self;
        drop(lock);
        drop(me);
    }
}
