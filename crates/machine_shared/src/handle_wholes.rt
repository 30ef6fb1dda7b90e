//! Whole calls by a handle, each by its own name. Each is made in one step under the lock, and is added to the caller's list with its reply
//! if it is decided.
ghost use Rattle.std.specs.Prelude.{◌≡◌, ◌≢◌, ◌++◌, ◌∷◌, [], IfOk, IfErr, OnOk, OnErr};
ghost use Rattle.sled_model.specs.Collections.{contents_of};
ghost use Rattle.sled_model.specs.Transition.{kind_of, InParts};
ghost use Rattle.sled_model.specs.declared.call.Whole.TheVariants as wholes;
ghost use Rattle.sled_model.specs.declared.outcome.Outcome.TheVariants as outcome;
ghost use Rattle.sled_model.specs.declared.reply.Reply.{Reply};
ghost use Rattle.sled_model.specs.declared.reply.Reply.TheVariants as told;
ghost use Rattle.sled_nodes.specs.Order.{Key};
ghost use Rattle.sled_nodes.specs.declared.error.Error.TheVariants.{NoMemory};
ghost use Rattle.machine_shared.specs.Made.{WholeMade, whole_value};
ghost use Rattle.machine_shared.specs.Replies.{AddsParts, IsRefused, IsReplyTo, TellsFlag, TellsNext, TellsPair, ended_as, ended_with, tell_done};
ghost use Rattle.machine_shared.specs.UnderLock.{CallsUnderLock, GroupsUnderLock, WholesUnderLock};
ghost use Rattle.machine_shared.specs.WholeNotes.{noted_whole};
ghost use Rattle.machine_shared.specs.WholeMade.{TellsNumber, TellsSubscriber, TellsTree};
ghost use Rattle.machine_shared.specs.Wholes as value;
ghost use Rattle.machine_shared.specs.theory.Replying.{IsGroupOf};

use crate::call_error::{CallResult, reply_of};
use crate::handle::Handle;
use sled_batch::Batch;
use sled_model::{Collection, MergeOperator, Next, Reply, Subscriber, Tree, Whole};
use sled_nodes::{IVec, Result};
use sled_store::Pages;
use std::alloc::Global;
use std::sync::Wait;
use std::sync::ledger::Ledger;

// The number of a reply.
fn number_of(reply: Reply) -> u64
    requires { TellsNumber reply }
    ensures { reply ≡ told.Number result }
{
    match reply {
        Reply::Number(number) => number,
        _ => unreachable!(),
    }
}

// The pair of a reply.
fn pair_of(reply: Reply) -> Option<(IVec, IVec)>
    requires { TellsPair reply }
    ensures { reply ≡ told.Pair result }
{
    match reply {
        Reply::Pair(pair) => pair,
        _ => unreachable!(),
    }
}

// Yes or no, of a reply.
fn flag_of(reply: Reply) -> bool
    requires { TellsFlag reply }
    ensures { reply ≡ told.Flag result }
{
    match reply {
        Reply::Flag(flag) => flag,
        _ => unreachable!(),
    }
}

// The tree of a reply, which has this name.
fn tree_of(reply: Reply) -> Tree
    requires { (name : Key) × TellsTree name reply }
    ensures { reply ≡ told.Tree result }
{
    match reply {
        Reply::Tree(tree) => tree,
        _ => unreachable!(),
    }
}

// The subscriber of a reply.
fn subscriber_of(reply: Reply) -> Subscriber
    requires { TellsSubscriber reply }
    ensures { reply ≡ told.Subscriber result }
{
    match reply {
        Reply::Subscriber(subscriber) => subscriber,
        _ => unreachable!(),
    }
}

// What a subscriber gets by a reply.
fn next_of(reply: Reply) -> Option<Next>
    requires { TellsNext reply }
    ensures { reply ≡ told.Next result }
{
    match reply {
        Reply::Next(next) => next,
        _ => unreachable!(),
    }
}

// The call that watches a prefix in a tree.
fn watch_of(alloc: Global, tree: &Tree, prefix: &[u8]) -> Result<Whole>
    ensures ok { IfOk result (λ whole. whole ≡ wholes.Watch tree.now prefix.now) }
    ensures err { IfErr result (λ e. e ≡ NoMemory) }
{
    let tree = tree.clone()?;
    match IVec::from_slice(alloc, prefix) {
        Ok(prefix) => Ok(Whole::Watch(tree, prefix)),
        Err(e) => {
            drop(tree);
            Err(e)
        }
    }
}

// A group of one batch.
fn group_of(alloc: Global, tree: &Tree, batch: Batch) -> Result<Whole>
    ensures ok { IfOk result (λ whole. whole_value whole ≡ value.Group ((tree.now, batch) ∷ [])) }
    ensures group { IfOk result (IsGroupOf ((tree.now, batch) ∷ [])) }
    ensures err { IfErr result (λ e. e ≡ NoMemory) }
{
    let tree = match tree.clone() {
        Ok(tree) => tree,
        Err(e) => {
            drop(batch);
            return Err(e);
        }
    };
    let mut batches = Vec::new(alloc);
    batches.push((tree, batch))?;
    Ok(Whole::Group(batches))
}

impl<P: Pages, L: Ledger, M: MergeOperator> Handle<P, L, M> {
    // Does a whole call. Its reply.
    fn reply_to(&mut self, rt: &impl Wait, whole: Whole) -> CallResult<Reply>
        ensures kind { IfOk result (IsReplyTo whole) }
        ensures ok { IfOk result (λ reply. self.new.made ≡ self.old.made ++ noted_whole whole (outcome.Decided reply) 0) }
        ensures err { IfErr result IsRefused }
        ensures parts { OnErr result (AddsParts (whole_value whole) self.old.made self.new.made) }
        ensures none { OnErr result (kind_of whole ≢ InParts → self.new.made ≡ self.old.made) }
        ensures number { self.new.number ≡ self.old.number }
        ensures under_lock { WholesUnderLock P.store P.flush_number M.meant whole (ended_as result) self.old self.new }
    {
        reply_of(self.whole(rt, whole))
    }

    // Does a whole call of which nothing is told but that it was done.
    fn do_whole(&mut self, rt: &impl Wait, whole: Whole) -> CallResult<()>
        requires { (reply : Reply) → IsReplyTo whole reply → reply ≡ told.Done }
        ensures ok { OnOk result (self.new.made ≡ self.old.made ++ noted_whole whole (outcome.Decided told.Done) 0) }
        ensures err { IfErr result IsRefused }
        ensures parts { OnErr result (AddsParts (whole_value whole) self.old.made self.new.made) }
        ensures none { OnErr result (kind_of whole ≢ InParts → self.new.made ≡ self.old.made) }
        ensures number { self.new.number ≡ self.old.number }
        ensures under_lock { WholesUnderLock P.store P.flush_number M.meant whole (ended_with tell_done result) self.old self.new }
    {
        match self.reply_to(rt, whole) {
            Ok(reply) => {
                drop(reply);
                Ok(())
            }
            Err(e) => Err(e),
        }
    }

    // The pair that a whole call replies with.
    fn whole_pair(&mut self, rt: &impl Wait, whole: Whole) -> CallResult<Option<(IVec, IVec)>>
        requires { (reply : Reply) → IsReplyTo whole reply → TellsPair reply }
        ensures ok { IfOk result (λ it. self.new.made ≡ self.old.made ++ noted_whole whole (outcome.Decided (told.Pair it)) 0) }
        ensures err { IfErr result IsRefused }
        ensures parts { OnErr result (AddsParts (whole_value whole) self.old.made self.new.made) }
        ensures none { OnErr result (kind_of whole ≢ InParts → self.new.made ≡ self.old.made) }
        ensures number { self.new.number ≡ self.old.number }
        ensures under_lock { WholesUnderLock P.store P.flush_number M.meant whole (ended_with told.Pair result) self.old self.new }
    {
        match self.reply_to(rt, whole) {
            Ok(reply) => Ok(pair_of(reply)),
            Err(e) => Err(e),
        }
    }

    // The number that a whole call replies with.
    fn whole_number(&mut self, rt: &impl Wait, whole: Whole) -> CallResult<u64>
        requires { (reply : Reply) → IsReplyTo whole reply → TellsNumber reply }
        ensures ok { IfOk result (λ it. self.new.made ≡ self.old.made ++ noted_whole whole (outcome.Decided (told.Number it)) 0) }
        ensures err { IfErr result IsRefused }
        ensures parts { OnErr result (AddsParts (whole_value whole) self.old.made self.new.made) }
        ensures none { OnErr result (kind_of whole ≢ InParts → self.new.made ≡ self.old.made) }
        ensures number { self.new.number ≡ self.old.number }
        ensures under_lock { WholesUnderLock P.store P.flush_number M.meant whole (ended_with told.Number result) self.old self.new }
    {
        match self.reply_to(rt, whole) {
            Ok(reply) => Ok(number_of(reply)),
            Err(e) => Err(e),
        }
    }

    /// Makes all that was decided durable, and returns the store's number. Refused as the same call of a machine is, with `NoMemory` if it
    /// cannot be noted, and with `Closed` if the database was taken out of its lock, as all that follow.
    ///
    /// ```
    /// let number = handle.flush(rt)?;
    /// ```
    pub fn flush(&mut self, rt: &impl Wait) -> CallResult<u64>
        ensures ok { IfOk result (λ it. self.new.made ≡ self.old.made ++ WholeMade (value.Flush) (told.Number it) ∷ []) }
        ensures err { IfErr result IsRefused }
        ensures same { OnErr result (self.new.made ≡ self.old.made) }
        ensures number { self.new.number ≡ self.old.number }
        ensures under_lock { WholesUnderLock P.store P.flush_number M.meant wholes.Flush (ended_with told.Number result) self.old self.new }
    {
        self.whole_number(rt, Whole::Flush)
    }

    /// Takes the pair with the least key out of a tree, if there is one, and returns it.
    ///
    /// ```
    /// let pair = handle.pop_min(rt, &tree)?; // `None` of an empty tree.
    /// ```
    pub fn pop_min(&mut self, rt: &impl Wait, tree: &Tree) -> CallResult<Option<(IVec, IVec)>>
        ensures ok { IfOk result (λ it. self.new.made ≡ self.old.made ++ WholeMade (value.PopMin tree.now) (told.Pair it) ∷ []) }
        ensures err { IfErr result IsRefused }
        ensures same { OnErr result (self.new.made ≡ self.old.made) }
        ensures number { self.new.number ≡ self.old.number }
        ensures under_lock { CallsUnderLock P.store P.flush_number M.meant (wholes.PopMin tree.now) (ended_with told.Pair result) self.old self.new }
    {
        let whole = Whole::PopMin(tree.clone()?);
        self.whole_pair(rt, whole)
    }

    /// Takes the pair with the greatest key out of a tree, if there is one, and returns it.
    ///
    /// ```
    /// let pair = handle.pop_max(rt, &tree)?;
    /// ```
    pub fn pop_max(&mut self, rt: &impl Wait, tree: &Tree) -> CallResult<Option<(IVec, IVec)>>
        ensures ok { IfOk result (λ it. self.new.made ≡ self.old.made ++ WholeMade (value.PopMax tree.now) (told.Pair it) ∷ []) }
        ensures err { IfErr result IsRefused }
        ensures same { OnErr result (self.new.made ≡ self.old.made) }
        ensures number { self.new.number ≡ self.old.number }
        ensures under_lock { CallsUnderLock P.store P.flush_number M.meant (wholes.PopMax tree.now) (ended_with told.Pair result) self.old self.new }
    {
        let whole = Whole::PopMax(tree.clone()?);
        self.whole_pair(rt, whole)
    }

    /// Takes all keys out of a tree. If it is refused midway it is added to the list with the number of keys that it took out.
    ///
    /// ```
    /// handle.clear(rt, &tree)?;
    /// ```
    pub fn clear(&mut self, rt: &impl Wait, tree: &Tree) -> CallResult<()>
        ensures ok { OnOk result (self.new.made ≡ self.old.made ++ WholeMade (value.Clear tree.now) (told.Done) ∷ []) }
        ensures err { IfErr result IsRefused }
        ensures parts { OnErr result (AddsParts (value.Clear tree.now) self.old.made self.new.made) }
        ensures number { self.new.number ≡ self.old.number }
        ensures under_lock { CallsUnderLock P.store P.flush_number M.meant (wholes.Clear tree.now) (ended_with tell_done result) self.old self.new }
    {
        let whole = Whole::Clear(tree.clone()?);
        self.do_whole(rt, whole)
    }

    /// Makes the writes of a batch in a tree, all or none. If it is refused midway the database is closed.
    ///
    /// ```
    /// handle.apply_batch(rt, alloc, &tree, batch)?;
    /// ```
    pub fn apply_batch(
        &mut self,
        rt: &impl Wait,
        alloc: Global,
        tree: &Tree,
        batch: Batch,
    ) -> CallResult<()>
        ensures ok { OnOk result (self.new.made ≡ self.old.made ++ WholeMade (value.Group ((tree.now, batch) ∷ [])) (told.Done) ∷ []) }
        ensures err { IfErr result IsRefused }
        ensures same { OnErr result (self.new.made ≡ self.old.made) }
        ensures number { self.new.number ≡ self.old.number }
        ensures under_lock { GroupsUnderLock P.store P.flush_number M.meant ((tree.now, batch) ∷ []) (ended_with tell_done result) self.old self.new }
    {
        let whole = group_of(alloc, tree, batch)?;
        self.do_whole(rt, whole)
    }

    /// Makes the writes of several batches, each in its tree, all or none.
    ///
    /// ```
    /// let mut batches = Vec::new(alloc);
    /// if batches.push((tree, batch)).is_ok() {
    ///     handle.apply_group(rt, batches)?;
    /// }
    /// ```
    pub fn apply_group(&mut self, rt: &impl Wait, batches: Vec<(Tree, Batch)>) -> CallResult<()>
        ensures ok { OnOk result (self.new.made ≡ self.old.made ++ WholeMade (value.Group batches.items) (told.Done) ∷ []) }
        ensures err { IfErr result IsRefused }
        ensures same { OnErr result (self.new.made ≡ self.old.made) }
        ensures number { self.new.number ≡ self.old.number }
        ensures under_lock { WholesUnderLock P.store P.flush_number M.meant (wholes.Group batches) (ended_with tell_done result) self.old self.new }
    {
        self.do_whole(rt, Whole::Group(batches))
    }

    /// Opens the tree of a name, which is made if the name has none.
    ///
    /// ```
    /// let tree = handle.open_tree(rt, alloc, b"weather")?;
    /// ```
    pub fn open_tree(&mut self, rt: &impl Wait, alloc: Global, name: &[u8]) -> CallResult<Tree>
        ensures ok { IfOk result (λ it. self.new.made ≡ self.old.made ++ WholeMade (value.OpenTree name.now) (told.Tree it) ∷ []) }
        ensures name { IfOk result (λ it. it.name ≡ name.now) }
        ensures err { IfErr result IsRefused }
        ensures same { OnErr result (self.new.made ≡ self.old.made) }
        ensures number { self.new.number ≡ self.old.number }
        ensures under_lock { CallsUnderLock P.store P.flush_number M.meant (wholes.OpenTree name.now) (ended_with told.Tree result) self.old self.new }
    {
        let whole = Whole::OpenTree(IVec::from_slice(alloc, name)?);
        match self.reply_to(rt, whole) {
            Ok(reply) => Ok(tree_of(reply)),
            Err(e) => Err(e),
        }
    }

    /// Drops the tree of a name, and returns whether there was one.
    ///
    /// ```
    /// let was_there = handle.drop_tree(rt, alloc, b"weather")?;
    /// ```
    pub fn drop_tree(&mut self, rt: &impl Wait, alloc: Global, name: &[u8]) -> CallResult<bool>
        ensures ok { IfOk result (λ it. self.new.made ≡ self.old.made ++ WholeMade (value.DropTree name.now) (told.Flag it) ∷ []) }
        ensures err { IfErr result IsRefused }
        ensures same { OnErr result (self.new.made ≡ self.old.made) }
        ensures number { self.new.number ≡ self.old.number }
        ensures under_lock { CallsUnderLock P.store P.flush_number M.meant (wholes.DropTree name.now) (ended_with told.Flag result) self.old self.new }
    {
        let whole = Whole::DropTree(IVec::from_slice(alloc, name)?);
        match self.reply_to(rt, whole) {
            Ok(reply) => Ok(flag_of(reply)),
            Err(e) => Err(e),
        }
    }

    /// Takes the next id. It is greater than each id that the history has.
    ///
    /// ```
    /// let id = handle.generate_id(rt)?;
    /// ```
    pub fn generate_id(&mut self, rt: &impl Wait) -> CallResult<u64>
        ensures ok { IfOk result (λ it. self.new.made ≡ self.old.made ++ WholeMade (value.GenerateId) (told.Number it) ∷ []) }
        ensures err { IfErr result IsRefused }
        ensures same { OnErr result (self.new.made ≡ self.old.made) }
        ensures number { self.new.number ≡ self.old.number }
        ensures under_lock { WholesUnderLock P.store P.flush_number M.meant wholes.GenerateId (ended_with told.Number result) self.old self.new }
    {
        self.whole_number(rt, Whole::GenerateId)
    }

    /// Opens the tree of each collection and puts its pairs into it. If it is refused midway, as at a key that is present, it is added to
    /// the list with the number of trees opened and pairs put in.
    ///
    /// ```
    /// handle.import(rt, other.export()?)?; // What another database has.
    /// ```
    pub fn import(&mut self, rt: &impl Wait, collections: Vec<Collection>) -> CallResult<()>
        ensures ok { OnOk result (self.new.made ≡ self.old.made ++ WholeMade (value.Import (contents_of collections.items)) (told.Done) ∷ []) }
        ensures err { IfErr result IsRefused }
        ensures parts { OnErr result (AddsParts (value.Import (contents_of collections.items)) self.old.made self.new.made) }
        ensures number { self.new.number ≡ self.old.number }
        ensures under_lock { WholesUnderLock P.store P.flush_number M.meant (wholes.Import collections) (ended_with tell_done result) self.old self.new }
    {
        self.do_whole(rt, Whole::Import(collections))
    }

    /// Adds a subscriber to the keys of a tree that begin with a prefix.
    ///
    /// ```
    /// let subscriber = handle.watch_prefix(rt, alloc, &tree, b"be")?;
    /// ```
    pub fn watch_prefix(
        &mut self,
        rt: &impl Wait,
        alloc: Global,
        tree: &Tree,
        prefix: &[u8],
    ) -> CallResult<Subscriber>
        ensures ok { IfOk result (λ it. self.new.made ≡ self.old.made ++ WholeMade (value.Watch tree.now prefix.now) (told.Subscriber it) ∷ []) }
        ensures err { IfErr result IsRefused }
        ensures same { OnErr result (self.new.made ≡ self.old.made) }
        ensures number { self.new.number ≡ self.old.number }
        ensures under_lock { CallsUnderLock P.store P.flush_number M.meant (wholes.Watch tree.now prefix.now) (ended_with told.Subscriber result) self.old self.new }
    {
        let whole = watch_of(alloc, tree, prefix)?;
        match self.reply_to(rt, whole) {
            Ok(reply) => Ok(subscriber_of(reply)),
            Err(e) => Err(e),
        }
    }

    /// Returns how many events a subscriber missed, or else the oldest event that waits for it, if there is either. Each is returned once,
    /// so the list has `Done` for it.
    ///
    /// ```
    /// let next = handle.next(rt, &subscriber)?; // `None` where nothing waits.
    /// ```
    pub fn next(&mut self, rt: &impl Wait, subscriber: &Subscriber) -> CallResult<Option<Next>>
        ensures ok { IfOk result (λ it. self.new.made ≡ self.old.made ++ WholeMade (value.Next subscriber.now) (told.Done) ∷ []) }
        ensures err { IfErr result IsRefused }
        ensures same { OnErr result (self.new.made ≡ self.old.made) }
        ensures number { self.new.number ≡ self.old.number }
        ensures under_lock { WholesUnderLock P.store P.flush_number M.meant (wholes.Next subscriber.now) (ended_with told.Next result) self.old self.new }
    {
        let whole = Whole::Next(Subscriber(subscriber.0));
        match self.reply_to(rt, whole) {
            Ok(reply) => Ok(next_of(reply)),
            Err(e) => Err(e),
        }
    }

    /// Drops the queue of a subscriber, with what waits there.
    ///
    /// ```
    /// handle.unsubscribe(rt, &subscriber)?;
    /// ```
    pub fn unsubscribe(&mut self, rt: &impl Wait, subscriber: &Subscriber) -> CallResult<()>
        ensures ok { OnOk result (self.new.made ≡ self.old.made ++ WholeMade (value.Unsubscribe subscriber.now) (told.Done) ∷ []) }
        ensures err { IfErr result IsRefused }
        ensures same { OnErr result (self.new.made ≡ self.old.made) }
        ensures number { self.new.number ≡ self.old.number }
        ensures under_lock { WholesUnderLock P.store P.flush_number M.meant (wholes.Unsubscribe subscriber.now) (ended_with tell_done result) self.old self.new }
    {
        let whole = Whole::Unsubscribe(Subscriber(subscriber.0));
        self.do_whole(rt, whole)
    }
}
