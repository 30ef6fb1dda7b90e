//! Calls on one key of a tree that are made at once, in no slot.
//!
//! They make the same steps as a call in flight, one after the other, repairs included. If nothing is to be repaired on the way, and no
//! subscriber waits for the event, the steps are made at once, without a call in flight.
ghost use Rattle.std.specs.Prelude.{◌≡◌, IfOk, IfErr, None, Ok};
ghost use Rattle.std.specs.FinMap.Entries.{find, put};
ghost use Rattle.std.specs.Option.{option_copied};
ghost use Rattle.sled_nodes.specs.Order.{key_cmp};
ghost use Rattle.sled_nodes.specs.Node.{without};
ghost use Rattle.sled_model.specs.State.{IsOnKey};
ghost use Rattle.sled_model.specs.Refusal.{must_refuse, ToPoint};
ghost use Rattle.sled_model.specs.Whole.{DecidesPoint, RefusesPoint};
ghost use Rattle.sled_model.specs.declared.call.Call.TheVariants as call;
ghost use Rattle.sled_model.specs.declared.reply.Reply.TheVariants as told;
ghost use Rattle.sled.specs.theory.Direct.{IsValue, IsSwap};

use crate::db::Db;
use sled_model::{Call, CompareAndSwapError, MergeOperator, Reply, Tree};
use sled_nodes::{IVec, Result};
use sled_store::Pages;
use sled_tree::{InFlight, Went};

/// What a swap answers: that the value was swapped, which value was there in place of the one that was asked for, or why the
/// call was refused.
pub type CompareAndSwapResult = Result<std::result::Result<(), CompareAndSwapError>>;

// The value that a call replied with, if there is one.
fn value_of(reply: Reply) -> Option<IVec>
    requires { IsValue reply }
    ensures { reply ≡ told.Value result }
{
    match reply {
        Reply::Value(value) => value,
        _ => unreachable!(),
    }
}

// How a swap came out, as it replied.
fn swap_told(reply: Reply) -> std::result::Result<(), CompareAndSwapError>
    requires { IsSwap reply }
    ensures { reply ≡ told.Swapped result }
{
    match reply {
        Reply::Swapped(swapped) => swapped,
        _ => unreachable!(),
    }
}

impl<P: Pages, M: MergeOperator> Db<P, M> {
    ghost use Rattle.sled.specs.Values.{db_state};
    ghost use Rattle.sled.specs.Direct.{PointDecided, PointRefused, RunsAtOnce};
    ghost use Rattle.sled.specs.Promises.{ChangesMap, Swaps, Merges, StopsCall, GivesUpCall, leaves_as};

    // Makes a call on a key of a tree, to its end. The tests come first.
    pub(crate) fn point(&mut self, tree: &Tree, call: Call) -> Result<Reply>
        requires { IsOnKey call }
        ensures ok { IfOk result (λ reply. PointDecided P.store M.meant self.old tree.now call reply self.new) }
        ensures err { IfErr result (λ e. PointRefused P.store M.meant self.old tree.now call e self.new) }
    {
        if let Err(e) = self.check_call(tree, &call) {
            drop(call);
            return Err(e);
        }
        self.make(tree, call)
    }

    // The same of a call that passed the tests.
    pub(crate) fn make(&mut self, tree: &Tree, call: Call) -> Result<Reply>
        requires on_key { IsOnKey call }
        requires tested { must_refuse (db_state P.store M.meant self.old) (ToPoint tree.now call) ≡ None }
        ensures ok { IfOk result (λ reply. PointDecided P.store M.meant self.old tree.now call reply self.new) }
        ensures err { IfErr result (λ e. PointRefused P.store M.meant self.old tree.now call e self.new) }
    {
        match self.make_quick(tree, &call) {
            Some(made) => {
                drop(call);
                made
            }
            None => self.make_in_flight(tree, call),
        }
    }

    // Makes a call that passed the tests as one in flight, step by step.
    #[inline(never)]
    fn make_in_flight(&mut self, tree: &Tree, call: Call) -> Result<Reply>
        requires on_key { IsOnKey call }
        requires tested { must_refuse (db_state P.store M.meant self.old) (ToPoint tree.now call) ≡ None }
        ensures ok { IfOk result (λ reply. PointDecided P.store M.meant self.old tree.now call reply self.new) }
        ensures err { IfErr result (λ e. PointRefused P.store M.meant self.old tree.now call e self.new) }
    {
        let tree = match tree.clone() {
            Ok(tree) => tree,
            Err(e) => {
                drop(call);
                return Err(e);
            }
        };
        let mut flight = InFlight::new(tree, call);
        let went = self.advance_on(&mut flight);
        drop(flight);
        match went {
            Went::Decided(reply) => Ok(reply),
            Went::Refused(e) => Err(e),
            _ => unreachable!(),
        }
    }

    /// Sets the value at a key, and answers the value that was there, or `None` if the key was absent. If an equal value is
    /// there already, nothing is written. Else its event goes to the subscribers of the tree that watch the key.
    ///
    /// Like a call of a machine it repairs what it meets half done on its way: splits and merges that a call before it did
    /// not finish. These stay even if it is refused itself, and change no map.
    ///
    /// ```
    /// let stood = db.insert(&tree, b"ulm", b"21")?;
    /// // Of an absent key nothing stood; a second insert answers the first one's value.
    /// ```
    pub fn insert(&mut self, tree: &Tree, key: &[u8], value: &[u8]) -> Result<Option<IVec>>
        ensures changes { IfOk result (λ stood. ChangesMap P.store M.meant self.old tree.now (λ before after. (stood ≡ find key_cmp key.now before) × (after ≡ put key_cmp key.now value.now before)) self.new) }
        ensures decides { IfOk result (λ stood. DecidesPoint (db_state P.store M.meant self.old) tree.now (call.Insert key.now value.now) (told.Value stood) (db_state P.store M.meant self.new)) }
        ensures refuses { IfErr result (λ e. RefusesPoint (db_state P.store M.meant self.old) (P.store self.old.pages) (P.store self.new.pages) tree.now (call.Insert key.now value.now) e (db_state P.store M.meant self.new)) }
        ensures leaves { leaves_as P.store M.meant result self.old self.new }
        ensures steps { IfOk result (λ stood. RunsAtOnce P.store M.meant self.old tree.now (call.Insert key.now value.now) (Ok (told.Value stood)) self.new) }
        ensures stops { IfErr result (λ e. StopsCall P.store M.meant self.old tree.now (call.Insert key.now value.now) e self.new) }
        ensures gives_up { IfErr result (GivesUpCall (P.store self.old.pages) tree.now key.now) }
    {
        self.audit();
        if let Err(e) = self.check(tree) {
            return Err(e);
        }
        let call = match Call::insert(self.allocator(), key, value) {
            Ok(call) => call,
            Err(e) => return Err(e),
        };
        match self.make(tree, call) {
            Ok(reply) => Ok(value_of(reply)),
            Err(e) => Err(e),
        }
    }

    /// Another name of `insert`.
    ///
    /// ```
    /// let stood = db.set(&tree, b"ulm", b"21")?;
    /// ```
    pub fn set(&mut self, tree: &Tree, key: &[u8], value: &[u8]) -> Result<Option<IVec>>
        ensures changes { IfOk result (λ stood. ChangesMap P.store M.meant self.old tree.now (λ before after. (stood ≡ find key_cmp key.now before) × (after ≡ put key_cmp key.now value.now before)) self.new) }
        ensures decides { IfOk result (λ stood. DecidesPoint (db_state P.store M.meant self.old) tree.now (call.Insert key.now value.now) (told.Value stood) (db_state P.store M.meant self.new)) }
        ensures refuses { IfErr result (λ e. RefusesPoint (db_state P.store M.meant self.old) (P.store self.old.pages) (P.store self.new.pages) tree.now (call.Insert key.now value.now) e (db_state P.store M.meant self.new)) }
        ensures leaves { leaves_as P.store M.meant result self.old self.new }
        ensures steps { IfOk result (λ stood. RunsAtOnce P.store M.meant self.old tree.now (call.Insert key.now value.now) (Ok (told.Value stood)) self.new) }
        ensures stops { IfErr result (λ e. StopsCall P.store M.meant self.old tree.now (call.Insert key.now value.now) e self.new) }
        ensures gives_up { IfErr result (GivesUpCall (P.store self.old.pages) tree.now key.now) }
    {
        self.insert(tree, key, value)
    }

    /// Takes a key out, and answers the value that was there, or `None` if the key was absent. Then nothing is written.
    ///
    /// ```
    /// db.insert(&tree, b"ulm", b"21")?;
    /// let stood = db.remove(&tree, b"ulm")?; // `Some`, the bytes `21`.
    /// let none = db.remove(&tree, b"ulm")?; // `None`.
    /// ```
    pub fn remove(&mut self, tree: &Tree, key: &[u8]) -> Result<Option<IVec>>
        ensures changes { IfOk result (λ stood. ChangesMap P.store M.meant self.old tree.now (λ before after. (stood ≡ find key_cmp key.now before) × (after ≡ without key.now before)) self.new) }
        ensures decides { IfOk result (λ stood. DecidesPoint (db_state P.store M.meant self.old) tree.now (call.Remove key.now) (told.Value stood) (db_state P.store M.meant self.new)) }
        ensures refuses { IfErr result (λ e. RefusesPoint (db_state P.store M.meant self.old) (P.store self.old.pages) (P.store self.new.pages) tree.now (call.Remove key.now) e (db_state P.store M.meant self.new)) }
        ensures leaves { leaves_as P.store M.meant result self.old self.new }
        ensures steps { IfOk result (λ stood. RunsAtOnce P.store M.meant self.old tree.now (call.Remove key.now) (Ok (told.Value stood)) self.new) }
        ensures stops { IfErr result (λ e. StopsCall P.store M.meant self.old tree.now (call.Remove key.now) e self.new) }
        ensures gives_up { IfErr result (GivesUpCall (P.store self.old.pages) tree.now key.now) }
    {
        self.audit();
        if let Err(e) = self.check(tree) {
            return Err(e);
        }
        let call = match Call::remove(self.allocator(), key) {
            Ok(call) => call,
            Err(e) => return Err(e),
        };
        match self.make(tree, call) {
            Ok(reply) => Ok(value_of(reply)),
            Err(e) => Err(e),
        }
    }

    /// Another name of `remove`.
    ///
    /// ```
    /// let stood = db.del(&tree, b"ulm")?;
    /// ```
    pub fn del(&mut self, tree: &Tree, key: &[u8]) -> Result<Option<IVec>>
        ensures changes { IfOk result (λ stood. ChangesMap P.store M.meant self.old tree.now (λ before after. (stood ≡ find key_cmp key.now before) × (after ≡ without key.now before)) self.new) }
        ensures decides { IfOk result (λ stood. DecidesPoint (db_state P.store M.meant self.old) tree.now (call.Remove key.now) (told.Value stood) (db_state P.store M.meant self.new)) }
        ensures refuses { IfErr result (λ e. RefusesPoint (db_state P.store M.meant self.old) (P.store self.old.pages) (P.store self.new.pages) tree.now (call.Remove key.now) e (db_state P.store M.meant self.new)) }
        ensures leaves { leaves_as P.store M.meant result self.old self.new }
        ensures steps { IfOk result (λ stood. RunsAtOnce P.store M.meant self.old tree.now (call.Remove key.now) (Ok (told.Value stood)) self.new) }
        ensures stops { IfErr result (λ e. StopsCall P.store M.meant self.old tree.now (call.Remove key.now) e self.new) }
        ensures gives_up { IfErr result (GivesUpCall (P.store self.old.pages) tree.now key.now) }
    {
        self.remove(tree, key)
    }

    /// Sets the value at a key to what the tree's merge operator makes of it and these bytes, or takes the key out if that is no
    /// value, and answers the new value. It is written even if it is equal. A tree without an operator refuses it with `Unsupported`: the
    /// call that gives it one is `Db::set_merge_operator`, whatever the text of the refusal, which is sled's, says.
    ///
    /// ```
    /// db.set_merge_operator(&tree, Adds)?; // An operator that adds numbers.
    /// let sum = db.merge(&tree, b"ulm", &21u64.to_be_bytes())?;
    /// ```
    pub fn merge(&mut self, tree: &Tree, key: &[u8], bytes: &[u8]) -> Result<Option<IVec>>
        ensures changes { IfOk result (λ merged. ChangesMap P.store M.meant self.old tree.now (Merges ((db_state P.store M.meant self.old).trees tree.now.name) key.now bytes.now merged) self.new) }
        ensures decides { IfOk result (λ merged. DecidesPoint (db_state P.store M.meant self.old) tree.now (call.Merge key.now bytes.now) (told.Value merged) (db_state P.store M.meant self.new)) }
        ensures refuses { IfErr result (λ e. RefusesPoint (db_state P.store M.meant self.old) (P.store self.old.pages) (P.store self.new.pages) tree.now (call.Merge key.now bytes.now) e (db_state P.store M.meant self.new)) }
        ensures leaves { leaves_as P.store M.meant result self.old self.new }
        ensures steps { IfOk result (λ merged. RunsAtOnce P.store M.meant self.old tree.now (call.Merge key.now bytes.now) (Ok (told.Value merged)) self.new) }
        ensures stops { IfErr result (λ e. StopsCall P.store M.meant self.old tree.now (call.Merge key.now bytes.now) e self.new) }
        ensures gives_up { IfErr result (GivesUpCall (P.store self.old.pages) tree.now key.now) }
    {
        if let Err(e) = self.check_operator(tree) {
            return Err(e);
        }
        let call = match Call::merge(self.allocator(), key, bytes) {
            Ok(call) => call,
            Err(e) => return Err(e),
        };
        match self.make(tree, call) {
            Ok(reply) => Ok(value_of(reply)),
            Err(e) => Err(e),
        }
    }

    /// If the value `old` is at a key, `None` being no value, sets `new` there, or takes the key out for `None`. Else it
    /// writes nothing, and answers the value that is there and the one that was proposed. A value that is swapped for an equal
    /// one is written.
    ///
    /// ```
    /// // From no value to `21`, and from there to none.
    /// let made = db.compare_and_swap(&tree, b"ulm", None, Some(b"21"))?;
    /// let gone = db.compare_and_swap(&tree, b"ulm", Some(b"21"), None)?;
    /// ```
    pub fn compare_and_swap(
        &mut self,
        tree: &Tree,
        key: &[u8],
        old: Option<&[u8]>,
        new: Option<&[u8]>,
    ) -> CompareAndSwapResult
        ensures changes { IfOk result (λ swapped. ChangesMap P.store M.meant self.old tree.now (Swaps key.now (option_copied old.entry) (option_copied new.entry) swapped) self.new) }
        ensures decides { IfOk result (λ swapped. DecidesPoint (db_state P.store M.meant self.old) tree.now (call.CompareAndSwap key.now (option_copied old.entry) (option_copied new.entry)) (told.Swapped swapped) (db_state P.store M.meant self.new)) }
        ensures refuses { IfErr result (λ e. RefusesPoint (db_state P.store M.meant self.old) (P.store self.old.pages) (P.store self.new.pages) tree.now (call.CompareAndSwap key.now (option_copied old.entry) (option_copied new.entry)) e (db_state P.store M.meant self.new)) }
        ensures leaves { leaves_as P.store M.meant result self.old self.new }
        ensures steps { IfOk result (λ swapped. RunsAtOnce P.store M.meant self.old tree.now (call.CompareAndSwap key.now (option_copied old.entry) (option_copied new.entry)) (Ok (told.Swapped swapped)) self.new) }
        ensures stops { IfErr result (λ e. StopsCall P.store M.meant self.old tree.now (call.CompareAndSwap key.now (option_copied old.entry) (option_copied new.entry)) e self.new) }
        ensures gives_up { IfErr result (GivesUpCall (P.store self.old.pages) tree.now key.now) }
    {
        if let Err(e) = self.check(tree) {
            return Err(e);
        }
        let call = match Call::compare_and_swap(self.allocator(), key, old, new) {
            Ok(call) => call,
            Err(e) => return Err(e),
        };
        match self.make(tree, call) {
            Ok(reply) => Ok(swap_told(reply)),
            Err(e) => Err(e),
        }
    }
}
