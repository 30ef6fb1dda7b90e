//! The calls on a database.
ghost use Rattle.std.specs.Prelude.{◌≡◌, IfOk, IfErr, is_none};
ghost use Rattle.std.specs.Option.{option_copied};
ghost use Rattle.sled_nodes.specs.declared.error.Error.TheVariants.{NoMemory};
ghost use Rattle.sled_nodes.specs.Among.{bound_of};
ghost use Rattle.sled_model.specs.Answer.{key_of};
ghost use Rattle.sled_model.specs.State.{range_of};
ghost use Rattle.sled_model.specs.Refusal.{needs_operator};
ghost use Rattle.sled_model.specs.Whole.{IsSameWhole};
ghost use Rattle.sled_model.specs.declared.call.Call.TheVariants.{Get, Insert, Remove, CompareAndSwap, Merge, Scan};
ghost use Rattle.sled_model.specs.declared.call.Whole.TheVariants.{Group, Import, Watch};

use crate::batches::copied_batches;
use crate::collection::{Collection, copied_collections};
use crate::subscriber::Subscriber;
use crate::tree::Tree;
use sled_batch::Batch;
use sled_nodes::{IVec, Result, clone_pair, clone_value, own_bound};
use std::alloc::Global;
use std::ops::Bound;

/// A call in flight: one on a key of a tree, which takes effect at one step, its deciding step; or a scan of a range of keys.
#[derive(Drop, PartialEq, Eq)]
pub enum Call {
    /// The value at a key.
    Get(IVec),
    /// Sets the value at a key. Replies with the value that was there.
    Insert(IVec, IVec),
    /// Takes a key out. Replies with the value that was there.
    Remove(IVec),
    /// If the first value is at a key it becomes the second one; `None` is no value.
    CompareAndSwap(IVec, Option<IVec>, Option<IVec>),
    /// The value at a key becomes what the merge operator of the tree makes of it and these bytes. Replies with the new value.
    Merge(IVec, IVec),
    /// The pairs whose keys are within both bounds, one at a step, from the least key up or, `back`, from the greatest down. Replies
    /// with `End` after the last.
    Scan {
        lo: Bound<IVec>,
        hi: Bound<IVec>,
        back: bool,
    },
}

/// A call that is one step of the machine as a whole.
#[derive(Drop, PartialEq, Eq)]
pub enum Whole {
    /// Makes all that was decided durable. Replies with the store's number.
    Flush,
    /// Takes the pair with the least key out of a tree, and replies with it, if there is one.
    PopMin(Tree),
    /// Takes the pair with the greatest key out of a tree, and replies with it, if there is one.
    PopMax(Tree),
    /// Takes all keys out of a tree, one after the other from the least up. Refused midway, those that are out stay out.
    Clear(Tree),
    /// Makes the writes of each batch in its tree, all or none, in the order of the list and of each batch in the order of its keys.
    /// Refused midway, it closes the database.
    Group(Vec<(Tree, Batch)>),
    /// Opens the tree of a name, which is made if the name has none, and replies with it.
    OpenTree(IVec),
    /// Drops the tree of a name, and replies with whether there was one.
    DropTree(IVec),
    /// Takes the next id, and replies with it.
    GenerateId,
    /// Opens the tree of each collection, one after the other, and puts its pairs into it, one after the other. Refused midway, at a
    /// key that is present or for another cause, what was done stays. All types are looked at first.
    Import(Vec<Collection>),
    /// Adds a subscriber to the keys of a tree that begin with a prefix, and replies with it.
    Watch(Tree, IVec),
    /// Replies with the number of events that a subscriber missed, or else with the oldest event that waits for it, which it takes, if
    /// there is either. It is never refused.
    Next(Subscriber),
    /// Drops the queue of a subscriber, with what waits there. It is never refused.
    Unsubscribe(Subscriber),
}

impl Call {
    /// The call that asks for the value at a key. Refused with `NoMemory` alone, as the others are.
    ///
    /// ```
    /// let call = Call::get(alloc, b"ulm")?;
    /// ```
    pub fn get(alloc: Global, key: &[u8]) -> Result<Call>
        ensures ok { IfOk result (λ call. call ≡ Get key.now) }
        ensures err { IfErr result (λ e. e ≡ NoMemory) }
    {
        Ok(Call::Get(IVec::from_slice(alloc, key)?))
    }

    /// The call that sets the value at a key.
    ///
    /// ```
    /// let call = Call::insert(alloc, b"ulm", b"21")?;
    /// ```
    pub fn insert(alloc: Global, key: &[u8], value: &[u8]) -> Result<Call>
        ensures ok { IfOk result (λ call. call ≡ Insert key.now value.now) }
        ensures err { IfErr result (λ e. e ≡ NoMemory) }
    {
        let (key, value) = own_pair(alloc, key, value)?;
        Ok(Call::Insert(key, value))
    }

    /// The call that takes a key out.
    ///
    /// ```
    /// let call = Call::remove(alloc, b"ulm")?;
    /// ```
    pub fn remove(alloc: Global, key: &[u8]) -> Result<Call>
        ensures ok { IfOk result (λ call. call ≡ Remove key.now) }
        ensures err { IfErr result (λ e. e ≡ NoMemory) }
    {
        Ok(Call::Remove(IVec::from_slice(alloc, key)?))
    }

    /// The call that swaps one value at a key for another; `None` is no value.
    ///
    /// ```
    /// let call = Call::compare_and_swap(alloc, b"ulm", Some(b"21"), None)?; // Takes the key out if its value is `21`.
    /// ```
    pub fn compare_and_swap(
        alloc: Global,
        key: &[u8],
        old: Option<&[u8]>,
        new: Option<&[u8]>,
    ) -> Result<Call>
        ensures ok { IfOk result (λ call. call ≡ CompareAndSwap key.now (option_copied old.entry) (option_copied new.entry)) }
        ensures err { IfErr result (λ e. e ≡ NoMemory) }
    {
        let key = IVec::from_slice(alloc, key)?;
        let old = match own_value(alloc, old) {
            Ok(old) => old,
            Err(e) => {
                drop(key);
                return Err(e);
            }
        };
        match own_value(alloc, new) {
            Ok(new) => Ok(Call::CompareAndSwap(key, old, new)),
            Err(e) => {
                drop(key);
                drop(old);
                Err(e)
            }
        }
    }

    /// The call that joins bytes to the value at a key, by the merge operator of the tree.
    ///
    /// ```
    /// let call = Call::merge(alloc, b"ulm", &1u64.to_be_bytes())?;
    /// ```
    pub fn merge(alloc: Global, key: &[u8], bytes: &[u8]) -> Result<Call>
        ensures ok { IfOk result (λ call. call ≡ Merge key.now bytes.now) }
        ensures err { IfErr result (λ e. e ≡ NoMemory) }
    {
        let (key, bytes) = own_pair(alloc, key, bytes)?;
        Ok(Call::Merge(key, bytes))
    }

    /// The call that gives the pairs whose keys are within both bounds, one at a step: from the least key up or, `back`, from the
    /// greatest down.
    ///
    /// ```
    /// // From `ulm` on, as long as there are keys.
    /// let call = Call::scan(alloc, Bound::Included(b"ulm"), Bound::Unbounded, false)?;
    /// ```
    pub fn scan(alloc: Global, lo: Bound<&[u8]>, hi: Bound<&[u8]>, back: bool) -> Result<Call>
        ensures ok { IfOk result (λ call. call ≡ Scan (bound_of lo.entry) (bound_of hi.entry) back) }
        ensures err { IfErr result (λ e. e ≡ NoMemory) }
    {
        let lo = own_bound(alloc, lo)?;
        match own_bound(alloc, hi) {
            Ok(hi) => Ok(Call::Scan { lo, hi, back }),
            Err(e) => {
                drop(lo);
                Err(e)
            }
        }
    }

    /// The key that the call is about. For a scan, which is about none, it is the empty one.
    ///
    /// ```
    /// let key = call.key(); // Of a swap too, whose values are beside it.
    /// ```
    #[inline(always)]
    pub fn key(&self) -> &[u8]
        ensures { result.now ≡ key_of self.now }
    {
        let key = match self {
            Call::Get(key) => key,
            Call::Insert(key, _) => key,
            Call::Remove(key) => key,
            Call::CompareAndSwap(key, _, _) => key,
            Call::Merge(key, _) => key,
            Call::Scan { .. } => return &[],
        };
        key.as_ref()
    }

    /// A copy of the key that the call is about, which shares its bytes. Refused with `NoMemory` alone.
    ///
    /// ```
    /// let key = call.clone_key(alloc)?; // Of a scan the empty one.
    /// ```
    #[inline(always)]
    pub fn clone_key(&self, alloc: Global) -> Result<IVec>
        ensures ok { IfOk result (λ key. key ≡ key_of self.now) }
        ensures err { IfErr result (λ e. e ≡ NoMemory) }
    {
        let key = match self {
            Call::Get(key) => key,
            Call::Insert(key, _) => key,
            Call::Remove(key) => key,
            Call::CompareAndSwap(key, _, _) => key,
            Call::Merge(key, _) => key,
            Call::Scan { .. } => return IVec::from_slice(alloc, &[]),
        };
        key.clone()
    }

    /// Whether the call is on a key, and no scan.
    ///
    /// ```
    /// let replies_once = call.is_on_key();
    /// ```
    #[inline(always)]
    pub fn is_on_key(&self) -> bool
        ensures { result ≡ is_none (range_of self.now) }
    {
        !matches!(self, Call::Scan { .. })
    }

    /// Whether the call needs the merge operator of its tree.
    ///
    /// ```
    /// let is_merge = call.needs_operator();
    /// ```
    pub fn needs_operator(&self) -> bool
        ensures { result ≡ needs_operator self.now }
    {
        matches!(self, Call::Merge(_, _))
    }

    /// The same call. Refused with `NoMemory` alone.
    ///
    /// ```
    /// let again = call.clone()?; // To be made a second time.
    /// ```
    pub fn clone(&self) -> Result<Call>
        ensures ok { IfOk result (λ copy. copy ≡ self.now) }
        ensures err { IfErr result (λ e. e ≡ NoMemory) }
    {
        match self {
            Call::Get(key) => Ok(Call::Get(key.clone()?)),
            Call::Insert(key, value) => {
                let (key, value) = clone_pair(key, value)?;
                Ok(Call::Insert(key, value))
            }
            Call::Remove(key) => Ok(Call::Remove(key.clone()?)),
            Call::CompareAndSwap(key, old, new) => copied_swap(key, old, new),
            Call::Merge(key, bytes) => {
                let (key, bytes) = clone_pair(key, bytes)?;
                Ok(Call::Merge(key, bytes))
            }
            Call::Scan { lo, hi, back } => copied_scan(lo, hi, *back),
        }
    }
}

// A value of one's own, if there is one.
fn own_value(alloc: Global, value: Option<&[u8]>) -> Result<Option<IVec>>
    ensures ok { IfOk result (λ own. own ≡ option_copied value.entry) }
    ensures err { IfErr result (λ e. e ≡ NoMemory) }
{
    match value {
        Some(value) => Ok(Some(IVec::from_slice(alloc, value)?)),
        None => Ok(None),
    }
}

// A key and a value of one's own.
fn own_pair(alloc: Global, key: &[u8], value: &[u8]) -> Result<(IVec, IVec)>
    ensures ok { IfOk result (λ own. own ≡ (key.now, value.now)) }
    ensures err { IfErr result (λ e. e ≡ NoMemory) }
{
    let key = IVec::from_slice(alloc, key)?;
    match IVec::from_slice(alloc, value) {
        Ok(value) => Ok((key, value)),
        Err(e) => {
            drop(key);
            Err(e)
        }
    }
}

// The same bound.
fn copied_bound(bound: &Bound<IVec>) -> Result<Bound<IVec>>
    ensures ok { IfOk result (λ copy. copy ≡ bound.now) }
    ensures err { IfErr result (λ e. e ≡ NoMemory) }
{
    match bound {
        Bound::Included(key) => Ok(Bound::Included(key.clone()?)),
        Bound::Excluded(key) => Ok(Bound::Excluded(key.clone()?)),
        Bound::Unbounded => Ok(Bound::Unbounded),
    }
}

// The scan between copies of two bounds.
fn copied_scan(lo: &Bound<IVec>, hi: &Bound<IVec>, back: bool) -> Result<Call>
    ensures ok { IfOk result (λ call. call ≡ Scan lo.now hi.now back) }
    ensures err { IfErr result (λ e. e ≡ NoMemory) }
{
    let lo = copied_bound(lo)?;
    let hi = copied_bound(hi)?;
    Ok(Call::Scan { lo, hi, back })
}

// The call that swaps copies of two values at a copy of a key.
fn copied_swap(key: &IVec, old: &Option<IVec>, new: &Option<IVec>) -> Result<Call>
    ensures ok { IfOk result (λ call. call ≡ CompareAndSwap key.now old.now new.now) }
    ensures err { IfErr result (λ e. e ≡ NoMemory) }
{
    let key = key.clone()?;
    let old = clone_value(old)?;
    let new = clone_value(new)?;
    Ok(Call::CompareAndSwap(key, old, new))
}

impl Whole {
    /// The same call. Refused with `NoMemory` alone.
    ///
    /// ```
    /// let again = whole.clone()?; // To be made a second time.
    /// ```
    pub fn clone(&self) -> Result<Whole>
        ensures ok { IfOk result (λ copy. IsSameWhole copy self.now) }
        ensures err { IfErr result (λ e. e ≡ NoMemory) }
    {
        match self {
            Whole::Flush => Ok(Whole::Flush),
            Whole::PopMin(tree) => Ok(Whole::PopMin(tree.clone()?)),
            Whole::PopMax(tree) => Ok(Whole::PopMax(tree.clone()?)),
            Whole::Clear(tree) => Ok(Whole::Clear(tree.clone()?)),
            Whole::Group(batches) => copied_group(batches),
            Whole::OpenTree(name) => Ok(Whole::OpenTree(name.clone()?)),
            Whole::DropTree(name) => Ok(Whole::DropTree(name.clone()?)),
            Whole::GenerateId => Ok(Whole::GenerateId),
            Whole::Import(collections) => copied_import(collections),
            Whole::Watch(tree, prefix) => copied_watch(tree, prefix),
            Whole::Next(subscriber) => Ok(Whole::Next(Subscriber(subscriber.0))),
            Whole::Unsubscribe(subscriber) => Ok(Whole::Unsubscribe(Subscriber(subscriber.0))),
        }
    }
}

// The group of copies of batches.
fn copied_group(batches: &Vec<(Tree, Batch)>) -> Result<Whole>
    ensures ok { IfOk result (λ whole. IsSameWhole whole (Group batches.now)) }
    ensures err { IfErr result (λ e. e ≡ NoMemory) }
{
    Ok(Whole::Group(copied_batches(batches)?))
}

// The import of copies of collections.
fn copied_import(collections: &Vec<Collection>) -> Result<Whole>
    ensures ok { IfOk result (λ whole. IsSameWhole whole (Import collections.now)) }
    ensures err { IfErr result (λ e. e ≡ NoMemory) }
{
    Ok(Whole::Import(copied_collections(collections)?))
}

// The call that watches a copy of a prefix in a copy of a tree.
fn copied_watch(tree: &Tree, prefix: &IVec) -> Result<Whole>
    ensures ok { IfOk result (λ whole. whole ≡ Watch tree.now prefix.now) }
    ensures err { IfErr result (λ e. e ≡ NoMemory) }
{
    let tree = tree.clone()?;
    match prefix.clone() {
        Ok(prefix) => Ok(Whole::Watch(tree, prefix)),
        Err(e) => {
            drop(tree);
            Err(e)
        }
    }
}
