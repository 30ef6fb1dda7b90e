//! Calls that make the new value at a key from the one that is there, by a closure that is called once.
ghost use Rattle.std.specs.Prelude.{◌≡◌, IfOk, IfErr, OnOk, Ok, Option};
ghost use Rattle.std.specs.Option.{option_map, option_copied};
ghost use Rattle.std.specs.FinMap.Entries.{find};
ghost use Rattle.sled_nodes.specs.Order.{Key, key_cmp};
ghost use Rattle.sled_nodes.specs.declared.error.Error.TheVariants.{NoMemory};
ghost use Rattle.sled_model.specs.Whole.{RefusesPoint};
ghost use Rattle.sled_model.specs.declared.call.Call.TheVariants as call;
ghost use Rattle.sled_model.specs.declared.reply.Reply.TheVariants as told;
ghost use Rattle.sled.specs.Fetch.{Answers, Stands};

use crate::db::Db;
use sled_model::{Call, MergeOperator, Tree};
use sled_nodes::{Error, IVec, Result, clone_value};
use sled_store::Pages;
use std::alloc::{AllocError, Global};

// What the closure answers to the value that is there, if there is one.
fn ask<F>(stood: &Option<IVec>, mut f: F) -> std::result::Result<Option<Vec<u8>>, AllocError>
where
    F: FnMut(Option<&[u8]>) -> std::result::Result<Option<Vec<u8>>, AllocError>,
    requires { (shown : _) → option_copied shown ≡ stood.now → F.pre f shown }
    ensures { Answers F.FnMut f stood.now result }
{
    match stood {
        Some(value) => f(Some(value.as_ref())),
        None => f(None),
    }
}

// A value of one's own of these bytes, if there are any. Refused with `NoMemory` alone.
fn value_of(alloc: Global, bytes: Option<Vec<u8>>) -> Result<Option<IVec>>
    ensures ok { IfOk result (λ value. value ≡ option_map (λ b. b.items) bytes) }
    ensures err { IfErr result (λ e. e ≡ NoMemory) }
{
    let Some(bytes) = bytes else {
        return Ok(None);
    };
    let value = IVec::from_slice(alloc, bytes.as_slice());
    drop(bytes);
    match value {
        Ok(value) => Ok(Some(value)),
        Err(e) => Err(e),
    }
}

// The call that swaps the one value for the other at a key.
fn swap_of(alloc: Global, key: &[u8], stood: &Option<IVec>, made: &Option<IVec>) -> Result<Call>
    ensures ok { IfOk result (λ swap. swap ≡ call.CompareAndSwap key.now stood.now made.now) }
    ensures err { IfErr result (λ e. e ≡ NoMemory) }
{
    let key = IVec::from_slice(alloc, key)?;
    let stood = match clone_value(stood) {
        Ok(stood) => stood,
        Err(e) => {
            drop(key);
            return Err(e);
        }
    };
    match clone_value(made) {
        Ok(made) => Ok(Call::CompareAndSwap(key, stood, made)),
        Err(e) => {
            drop(key);
            drop(stood);
            Err(e)
        }
    }
}

impl<P: Pages, M: MergeOperator> Db<P, M> {
    ghost use Rattle.sled.specs.Direct.{PointDecided, PointRefused};
    ghost use Rattle.sled.specs.Fetch.{FetchDecided, FetchRefused};
    ghost use Rattle.sled.specs.Values.{db_state};
    ghost use Rattle.sled.specs.Promises.{ChangesMap, with_value, leaves_as};
    ghost use Rattle.sled.specs.Written.{Updates};

    // Swaps the value that was read just now for another, which always succeeds.
    fn swap(
        &mut self,
        tree: &Tree,
        key: &[u8],
        stood: &Option<IVec>,
        made: &Option<IVec>,
    ) -> Result<()>
        requires { Stands P.store M.meant self.old tree.now key.now stood.now }
        ensures ok { OnOk result (PointDecided P.store M.meant self.old tree.now (call.CompareAndSwap key.now stood.now made.now) (told.Swapped (Ok tt)) self.new) }
        ensures err { IfErr result (λ e. PointRefused P.store M.meant self.old tree.now (call.CompareAndSwap key.now stood.now made.now) e self.new) }
    {
        let call = match swap_of(self.alloc, key, stood, made) {
            Ok(call) => call,
            Err(e) => return Err(e),
        };
        match self.make(tree, call) {
            Ok(reply) => {
                drop(reply);
                Ok(())
            }
            Err(e) => Err(e),
        }
    }

    // The value that was there, and the one that the closure made from it and that is there now.
    fn fetch<F>(&mut self, tree: &Tree, key: &[u8], f: F) -> Result<(Option<IVec>, Option<IVec>)>
    where
        F: FnMut(Option<&[u8]>) -> std::result::Result<Option<Vec<u8>>, AllocError>,
        requires { (stood : Option Key) → Stands P.store M.meant self.old tree.now key.now stood → (shown : _) → option_copied shown ≡ stood → F.pre f shown }
        ensures ok { IfOk result (λ both. FetchDecided P.store M.meant F.FnMut f self.old tree.now key.now both.0 both.1 self.new) }
        ensures err { IfErr result (λ e. FetchRefused P.store M.meant F.FnMut f self.old tree.now key.now e self.new) }
        ensures changes { IfOk result (λ both. ChangesMap P.store M.meant self.old tree.now (λ before after. (both.0 ≡ find key_cmp key.now before) × (after ≡ with_value key.now both.1 before)) self.new) }
        ensures updates { IfOk result (λ both. ChangesMap P.store M.meant self.old tree.now (Updates F.FnMut f key.now both.0 both.1) self.new) }
        ensures refuses { IfErr result (λ e. RefusesPoint (db_state P.store M.meant self.old) (P.store self.old.pages) (P.store self.new.pages) tree.now (call.Get key.now) e (db_state P.store M.meant self.new)) }
        ensures leaves { leaves_as P.store M.meant result self.old self.new }
    {
        let stood = match self.get(tree, key) {
            Ok(stood) => stood,
            Err(e) => return Err(e),
        };
        let made = match ask(&stood, f) {
            Ok(bytes) => value_of(self.alloc, bytes),
            Err(_) => {
                drop(stood);
                return Err(Error::NoMemory);
            }
        };
        let made = match made {
            Ok(made) => made,
            Err(e) => {
                drop(stood);
                return Err(e);
            }
        };
        match self.swap(tree, key, &stood, &made) {
            Ok(()) => Ok((stood, made)),
            Err(e) => {
                drop(stood);
                drop(made);
                Err(e)
            }
        }
    }

    /// Sets the value at a key to what the closure makes from the value that is there, or takes the key out if it answers `None`, and
    /// answers the new value. It is written even if it is equal.
    ///
    /// The key is read as `get` reads it, the closure is called once, and then the values are swapped as `compare_and_swap` does.
    /// A closure that answers want of memory refuses the call with `NoMemory`, and nothing is written.
    ///
    /// ```
    /// // The value with one byte more, or that byte alone.
    /// let longer = db.update_and_fetch(&tree, b"ulm", |stood| {
    ///     let mut bytes = Vec::from_slice(alloc, stood.unwrap_or(b""))?;
    ///     bytes.push(7)?;
    ///     Ok(Some(bytes))
    /// })?;
    /// ```
    pub fn update_and_fetch<F>(&mut self, tree: &Tree, key: &[u8], f: F) -> Result<Option<IVec>>
    where
        F: FnMut(Option<&[u8]>) -> std::result::Result<Option<Vec<u8>>, AllocError>,
        requires { (stood : Option Key) → Stands P.store M.meant self.old tree.now key.now stood → (shown : _) → option_copied shown ≡ stood → F.pre f shown }
        ensures ok { IfOk result (λ made. (stood : Option Key) × FetchDecided P.store M.meant F.FnMut f self.old tree.now key.now stood made self.new) }
        ensures err { IfErr result (λ e. FetchRefused P.store M.meant F.FnMut f self.old tree.now key.now e self.new) }
        ensures changes { IfOk result (λ made. ChangesMap P.store M.meant self.old tree.now (λ before after. after ≡ with_value key.now made before) self.new) }
        ensures updates { IfOk result (λ made. (stood : Option Key) × ChangesMap P.store M.meant self.old tree.now (Updates F.FnMut f key.now stood made) self.new) }
        ensures refuses { IfErr result (λ e. RefusesPoint (db_state P.store M.meant self.old) (P.store self.old.pages) (P.store self.new.pages) tree.now (call.Get key.now) e (db_state P.store M.meant self.new)) }
        ensures leaves { leaves_as P.store M.meant result self.old self.new }
    {
        match self.fetch(tree, key, f) {
            Ok((stood, made)) => {
                drop(stood);
                Ok(made)
            }
            Err(e) => Err(e),
        }
    }

    /// The same, but that it answers the value that was there before.
    ///
    /// ```
    /// let taken = db.fetch_and_update(&tree, b"ulm", |_| Ok(None))?;
    /// ```
    pub fn fetch_and_update<F>(&mut self, tree: &Tree, key: &[u8], f: F) -> Result<Option<IVec>>
    where
        F: FnMut(Option<&[u8]>) -> std::result::Result<Option<Vec<u8>>, AllocError>,
        requires { (stood : Option Key) → Stands P.store M.meant self.old tree.now key.now stood → (shown : _) → option_copied shown ≡ stood → F.pre f shown }
        ensures ok { IfOk result (λ stood. (made : Option Key) × FetchDecided P.store M.meant F.FnMut f self.old tree.now key.now stood made self.new) }
        ensures err { IfErr result (λ e. FetchRefused P.store M.meant F.FnMut f self.old tree.now key.now e self.new) }
        ensures changes { IfOk result (λ stood. ChangesMap P.store M.meant self.old tree.now (λ before after. (stood ≡ find key_cmp key.now before) × (made : Option Key) × (after ≡ with_value key.now made before)) self.new) }
        ensures updates { IfOk result (λ stood. (made : Option Key) × ChangesMap P.store M.meant self.old tree.now (Updates F.FnMut f key.now stood made) self.new) }
        ensures refuses { IfErr result (λ e. RefusesPoint (db_state P.store M.meant self.old) (P.store self.old.pages) (P.store self.new.pages) tree.now (call.Get key.now) e (db_state P.store M.meant self.new)) }
        ensures leaves { leaves_as P.store M.meant result self.old self.new }
    {
        match self.fetch(tree, key, f) {
            Ok((stood, made)) => {
                drop(made);
                Ok(stood)
            }
            Err(e) => Err(e),
        }
    }
}
