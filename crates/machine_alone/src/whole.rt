//! Whole calls. Of one that is decided two copies of its reply are kept, or none, and its parts are counted.
ghost use Rattle.std.specs.Prelude.{◌≡◌, true};
ghost use Rattle.sled_model.specs.declared.call.Whole.TheVariants.{Flush, Clear, Group, OpenTree, DropTree, GenerateId, Import, Watch, Next, Unsubscribe};
ghost use Rattle.sled_model.specs.declared.outcome.Outcome.TheVariants as outcome;
ghost use Rattle.sled_model.specs.declared.outcome.Step.TheVariants as step;
ghost use Rattle.tree_steps.specs.theory.Outcomes.{is_light};
ghost use Rattle.sled.specs.Pops.{pop_of};

use crate::machine::Machine;
use sled::Side;
use sled_batch::Batch;
use sled_model::{Collection, MergeOperator, Outcome, Reply, Subscriber, Tree, Whole};
use sled_nodes::{Error, IVec};
use sled_store::Pages;
use tree_steps::Keep;

// What is kept of a reply that owns no memory.
fn keep_light<K: Keep>(reply: &Reply) -> K
    requires { is_light reply.now ≡ true }
    ensures { result ≡ K.kept (outcome.Decided reply.now) }
{
    match K::of(reply) {
        Ok(kept) => kept,
        Err(_) => unreachable!(),
    }
}

// A call that was decided with a reply that owns no memory, after so many parts.
fn decided<K: Keep>(reply: Reply, parts: u64) -> (Outcome, K, u64)
    requires { is_light reply ≡ true }
    ensures { result ≡ (outcome.Decided reply, K.kept (outcome.Decided reply), parts) }
{
    let kept = keep_light(&reply);
    (Outcome::Decided(reply), kept, parts)
}

// A call that was refused after so many parts.
fn refused<K: Keep>(e: Error, parts: u64) -> (Outcome, K, u64)
    ensures { result ≡ (outcome.Refused e, K.kept (outcome.Refused e), parts) }
{
    (Outcome::Refused(e), K::nothing(), parts)
}

impl<P: Pages, M: MergeOperator> Machine<P, M> {
    ghost use Rattle.machine_alone.specs.Step.{MachineStepContract};
    ghost use Rattle.machine_alone.specs.Kept.{kept_of_whole, CountsParts};
    ghost use Rattle.machine_alone.specs.theory.Kept.{KeepsWhole};

    /// Does a whole call, in one step.
    ///
    /// ```
    /// let outcome = machine.whole(Whole::Flush); // `Decided(Reply::Number(..))`, or why not.
    /// ```
    pub fn whole(&mut self, whole: Whole) -> Outcome
        ensures { MachineStepContract P.store P.flush_number M.meant self.old (step.Whole whole) result self.new }
    {
        let outcome = self.whole_of(&whole);
        drop(whole);
        outcome
    }

    /// Does a whole call, as `whole` does. If it is decided, two copies of its reply are returned too. Those of a pop and of an opening
    /// take memory, and are made before the action that decides it: if there is none the call is refused with `NoMemory`, and then it
    /// changed no map. Of `Next`, which gives each event once, the copies are `Done`.
    ///
    /// The number says how many parts a `Clear` or an `Import` did, also of one that is refused midway. Of a `Clear` it counts the keys
    /// that it took out, of an `Import` the trees that it opened and the pairs that it put in. `u64::MAX` means as many or more. Of any
    /// other call it is 0.
    ///
    /// ```
    /// match machine.whole_kept(Whole::PopMin(tree)) {
    ///     (Outcome::Decided(reply), Some((one, other)), _) => drop((reply, one, other)), // Three equal replies.
    ///     (outcome, _, _) => drop(outcome), // Why it was refused.
    /// }
    /// ```
    pub fn whole_kept(&mut self, whole: Whole) -> (Outcome, Option<(Reply, Reply)>, u64)
        ensures whole { MachineStepContract P.store P.flush_number M.meant self.old (step.Whole whole) result.0 self.new }
        ensures kept { result.1 ≡ kept_of_whole whole result.0 }
        ensures parts { CountsParts P.store M.meant self.old.db whole result.0 result.2 self.new.db }
    {
        let told = self.whole_keeping(&whole);
        drop(whole);
        told
    }

    // The same of which nothing is kept.
    pub(crate) fn whole_of(&mut self, whole: &Whole) -> Outcome
        ensures { MachineStepContract P.store P.flush_number M.meant self.old (step.Whole whole.now) result self.new }
    {
        let (outcome, (), _) = self.whole_keeping(whole);
        outcome
    }

    // The same with what is kept of it.
    fn whole_keeping<K: Keep>(&mut self, whole: &Whole) -> (Outcome, K, u64)
        ensures { KeepsWhole P.store P.flush_number M.meant K.kept self.old whole.now result self.new }
    {
        match whole {
            Whole::Flush => self.flush(),
            Whole::PopMin(tree) => self.pop(tree, Side::Least),
            Whole::PopMax(tree) => self.pop(tree, Side::Greatest),
            Whole::Clear(tree) => self.clear(tree),
            Whole::Group(batches) => self.group(batches),
            Whole::OpenTree(name) => self.open_tree(name),
            Whole::DropTree(name) => self.drop_tree(name),
            Whole::GenerateId => self.generate_id(),
            Whole::Import(collections) => self.import(collections),
            Whole::Watch(tree, prefix) => self.watch(tree, prefix),
            Whole::Next(subscriber) => self.next(subscriber),
            Whole::Unsubscribe(subscriber) => self.unsubscribe(subscriber),
        }
    }

    fn flush<K: Keep>(&mut self) -> (Outcome, K, u64)
        ensures { KeepsWhole P.store P.flush_number M.meant K.kept self.old Flush result self.new }
    {
        let count = match self.db.flush() {
            Ok(count) => count,
            Err(e) => return refused(e, 0),
        };
        decided(Reply::Number(count as u64), 0)
    }

    fn pop<K: Keep>(&mut self, tree: &Tree, side: Side) -> (Outcome, K, u64)
        ensures { KeepsWhole P.store P.flush_number M.meant K.kept self.old (pop_of side tree.now) result self.new }
    {
        let (found, kept) = match self.db.pop_keeping(tree, side) {
            Ok(all) => all,
            Err(e) => return refused(e, 0),
        };
        (Outcome::Decided(Reply::Pair(found)), kept, 0)
    }

    fn clear<K: Keep>(&mut self, tree: &Tree) -> (Outcome, K, u64)
        ensures { KeepsWhole P.store P.flush_number M.meant K.kept self.old (Clear tree.now) result self.new }
    {
        let (done, count) = self.db.clear_counted(tree);
        if let Err(e) = done {
            return refused(e, count);
        }
        decided(Reply::Done, count)
    }

    fn group<K: Keep>(&mut self, batches: &Vec<(Tree, Batch)>) -> (Outcome, K, u64)
        ensures { KeepsWhole P.store P.flush_number M.meant K.kept self.old (Group batches.now) result self.new }
    {
        if let Err(e) = self.db.apply_group(batches.as_slice()) {
            return refused(e, 0);
        }
        decided(Reply::Done, 0)
    }

    fn open_tree<K: Keep>(&mut self, name: &IVec) -> (Outcome, K, u64)
        ensures { KeepsWhole P.store P.flush_number M.meant K.kept self.old (OpenTree name.now) result self.new }
    {
        let (tree, kept) = match self.db.open_tree_keeping(name.as_ref()) {
            Ok(all) => all,
            Err(e) => return refused(e, 0),
        };
        (Outcome::Decided(Reply::Tree(tree)), kept, 0)
    }

    fn drop_tree<K: Keep>(&mut self, name: &IVec) -> (Outcome, K, u64)
        ensures { KeepsWhole P.store P.flush_number M.meant K.kept self.old (DropTree name.now) result self.new }
    {
        let dropped = match self.db.drop_tree(name.as_ref()) {
            Ok(dropped) => dropped,
            Err(e) => return refused(e, 0),
        };
        decided(Reply::Flag(dropped), 0)
    }

    fn generate_id<K: Keep>(&mut self) -> (Outcome, K, u64)
        ensures { KeepsWhole P.store P.flush_number M.meant K.kept self.old GenerateId result self.new }
    {
        let id = match self.db.generate_id() {
            Ok(id) => id,
            Err(e) => return refused(e, 0),
        };
        decided(Reply::Number(id), 0)
    }

    fn import<K: Keep>(&mut self, collections: &Vec<Collection>) -> (Outcome, K, u64)
        ensures { KeepsWhole P.store P.flush_number M.meant K.kept self.old (Import collections.now) result self.new }
    {
        let (done, count) = self.db.import_counted(collections.as_slice());
        if let Err(e) = done {
            return refused(e, count);
        }
        decided(Reply::Done, count)
    }

    fn watch<K: Keep>(&mut self, tree: &Tree, prefix: &IVec) -> (Outcome, K, u64)
        ensures { KeepsWhole P.store P.flush_number M.meant K.kept self.old (Watch tree.now prefix.now) result self.new }
    {
        let subscriber = match self.db.watch_prefix(tree, prefix.as_ref()) {
            Ok(subscriber) => subscriber,
            Err(e) => return refused(e, 0),
        };
        decided(Reply::Subscriber(subscriber), 0)
    }

    // What a subscriber got is given once, so that it was given is kept of it.
    fn next<K: Keep>(&mut self, subscriber: &Subscriber) -> (Outcome, K, u64)
        ensures { KeepsWhole P.store P.flush_number M.meant K.kept self.old (Next subscriber.now) result self.new }
    {
        let next = self.db.next(subscriber);
        let kept = keep_light(&Reply::Done);
        (Outcome::Decided(Reply::Next(next)), kept, 0)
    }

    fn unsubscribe<K: Keep>(&mut self, subscriber: &Subscriber) -> (Outcome, K, u64)
        ensures { KeepsWhole P.store P.flush_number M.meant K.kept self.old (Unsubscribe subscriber.now) result self.new }
    {
        self.db.unsubscribe(subscriber);
        decided(Reply::Done, 0)
    }
}
