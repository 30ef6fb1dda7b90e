//! Groups of writes, which are made together or not at all.
//!
//! All that can be refused without harm is first: the tests, the reads of the values that are there, and the memory of events. Then the
//! group is begun, the writes are made, and the group is sealed. Once it is begun a refusal leaves it open, so that the database is
//! closed: no crash leaves any of it.
//!
//! A write is linked at the leaf that the read of its key found, if nothing is to be repaired there; else it is made by the steps of a call
//! in flight, repairs included. Of several writes in one leaf the others read it again, since the first changes it. The keys of a batch
//! ascend, so the read of each begins below the last index of the way of the one before it under which its key is.
ghost use Rattle.std.specs.Prelude.{◌≡◌, false, IfOk, IfErr, OnOk, OnErr, [], ◌∷◌, Some, None, ◌++◌};
ghost use Rattle.std.specs.FinMap.Entries.{find};
ghost use Rattle.sled_nodes.specs.Order.{key_cmp};
ghost use Rattle.sled_batch.specs.Batch.{Rises};
ghost use Rattle.sled_store.specs.Store.{now};
ghost use Rattle.sled_nodes.specs.declared.error.Error.TheVariants.{NoMemory};
ghost use Rattle.sled_model.specs.Groups.{writes_of, writes_on, after_writes};
ghost use Rattle.sled_model.specs.Refusal.{must_refuse_of, trees_of_batches};
ghost use Rattle.sled_queues.specs.Values.{queue_at};
ghost use Rattle.sled_model.specs.declared.event.Event.TheVariants as event;
ghost use Rattle.sled_queues.specs.Queues.{IsCalm, Becomes};
ghost use Rattle.sled_queues.specs.Laws.{prepared_all};
ghost use Rattle.tree_groups.specs.Groups.{job_of, jobs_of};
ghost use Rattle.tree_reads.specs.Walk.{IsWay};
ghost use Rattle.sled.specs.Calls.{MustBeRefused};
ghost use Rattle.sled.specs.Groups.{jobs_of_write, jobs_of_writes, Finds};
ghost use Rattle.sled.specs.theory.Groups.{FindsMore, Stands, stands_over, ReadsKey, BeginsAt, unread, events_of_call, Prepares, StopsPreparing, MakesAll, StopsAll};

use crate::db::Db;
use sled_batch::Batch;
use sled_model::{Event, MergeOperator, Tree};
use sled_nodes::texts::HANDLE_OF_ANOTHER_DATABASE;
use sled_nodes::{Error, IVec, Pid, Result, Version, clone_pair};
use sled_queues::Queues;
use sled_store::{Pages, View};
use std::alloc::Global;
use tree_groups::{KeyWrite, is_settled, write_group};
use tree_lists::number_of;
use tree_reads::leaf_near;

// The leaf with its version, if a write of it can be linked at once.
#[inline(always)]
fn place_of(leaf: &View, stands: bool) -> Option<(Pid, Version)>
    ensures { BeginsAt leaf.now stands result }
{
    if !stands && is_settled(leaf) {
        Some((leaf.pid, leaf.version))
    } else {
        None
    }
}

// Whether the value that a key is to have is there once a batch is made too: its write of the key decides, or else what was there.
fn stands_over(batch: &Batch, key: &IVec, value: &Option<IVec>, stands: bool) -> bool
    ensures value { result ≡ stands_over (find key_cmp key.now batch.now) value.now stands }
    ensures rise { Rises batch.now }
{
    match batch.writes().get(key) {
        Some(written) => *written == *value,
        None => stands,
    }
}

// Prepares the event of a write that changes something.
fn prepare_event(queues: &mut Queues, write: &KeyWrite) -> Result<()>
    ensures ok { OnOk result (Becomes (prepared_all (events_of_call write.now.tree.now.number (job_of write.now).call) (queue_at queues.old)) queues.old.given queues.new) }
    ensures err { OnErr result (queues.new ≡ queues.old) }
    ensures cause { IfErr result (λ e. e ≡ NoMemory) }
{
    if !queues.is_watched(write.tree.number, write.key.as_ref()) {
        return Ok(());
    }
    let event = match write.value {
        Some(value) => inserted(write.key, value)?,
        None => Event::Remove {
            key: write.key.clone()?,
        },
    };
    let prepared = queues.prepare(write.tree.number, &event);
    drop(event);
    prepared
}

// The event of an insert.
fn inserted(key: &IVec, value: &IVec) -> Result<Event>
    ensures ok { IfOk result (λ made. made ≡ event.Insert key.now value.now) }
    ensures err { IfErr result (λ e. e ≡ NoMemory) }
{
    let (key, value) = clone_pair(key, value)?;
    Ok(Event::Insert { key, value })
}

// Prepares the events of writes that each change something. Refused, some of them may be prepared.
fn prepare_events(queues: &mut Queues, writes: &[KeyWrite]) -> Result<()>
    ensures ok { OnOk result (Prepares (jobs_of writes.now) queues.old queues.new) }
    ensures err { IfErr result (λ e. StopsPreparing e queues.old queues.new) }
{
    for write in writes {
        prepare_event(queues, write)?;
    }
    Ok(())
}

// Makes a group of writes that each change something, with their events.
fn make_group<P: Pages>(
    pages: &mut P,
    queues: &mut Queues,
    alloc: Global,
    writes: &[KeyWrite],
) -> Result<()>
    requires outside { (now (P.store pages.old)).in_group ≡ false }
    requires calm { IsCalm (queue_at queues.old) }
    ensures ok { OnOk result (MakesAll writes.now (P.store pages.old) (P.store pages.new) queues.old queues.new) }
    ensures err { IfErr result (StopsAll writes.now (P.store pages.old) (P.store pages.new) queues.old queues.new) }
{
    if let Err(e) = prepare_events(queues, writes) {
        queues.cancel();
        return Err(e);
    }
    if let Err(e) = write_group(pages, alloc, writes) {
        queues.cancel();
        return Err(e);
    }
    queues.commit();
    Ok(())
}

impl<P: Pages, M: MergeOperator> Db<P, M> {
    ghost use Rattle.sled.specs.Values.{db_state, snapshot_of_db};
    ghost use Rattle.sled.specs.Groups.{GroupDecided, GroupRefused, IsQuietGroup};
    ghost use Rattle.sled.specs.Wholes.{RefusesGroup, leaves_whole_as};
    ghost use Rattle.sled.specs.Written.{WritesMap, WritesMaps};

    // The tests before a group, each of all its trees.
    fn check_batches(&self, batches: &[(Tree, Batch)]) -> Result<()>
        ensures ok { OnOk result (must_refuse_of (db_state P.store M.meant self.now) (trees_of_batches batches.now) ≡ None) }
        ensures err { IfErr result (MustBeRefused (must_refuse_of (db_state P.store M.meant self.now) (trees_of_batches batches.now))) }
    {
        if self.pages.in_group() {
            return Err(Error::Closed);
        }
        for (tree, _) in batches {
            if tree.database != self.name {
                return Err(Error::Unsupported(HANDLE_OF_ANOTHER_DATABASE));
            }
        }
        for (tree, _) in batches {
            if number_of(self.trees.as_slice(), tree.name.as_ref()) != Some(tree.number) {
                return Err(Error::CollectionNotFound(tree.name.clone()?));
            }
        }
        Ok(())
    }

    // The leaf of a key, and whether the value that the key is to have is there. The walk begins below the last index of this way under
    // which the key is, and leaves its own.
    fn read_key(
        &self,
        root: Pid,
        key: &IVec,
        value: &Option<IVec>,
        way: &mut Vec<View>,
    ) -> Result<(View, bool)>
        requires { IsWay (now (P.store self.now.pages)) root way.old.items }
        ensures way { IsWay (now (P.store self.now.pages)) root way.new.items }
        ensures ok { IfOk result (λ read. ReadsKey (P.store self.now.pages) root key.now value.now read.0 read.1) }
        ensures err { IfErr result (unread (P.store self.now.pages)) }
    {
        let bytes = key.as_ref();
        let leaf = match leaf_near(self.alloc, &self.pages, root, bytes, way) {
            Ok(leaf) => leaf,
            Err(e) => return Err(e),
        };
        match leaf.node.get(bytes) {
            Ok(found) => {
                let stands = found == *value;
                drop(found);
                Ok((leaf, stands))
            }
            Err(e) => {
                drop(leaf);
                Err(e)
            }
        }
    }

    // Whether the value that a key is to have is there once these batches are made, if it is known whether it is before.
    fn stands(
        &self,
        before: &[(Tree, Batch)],
        tree: &Tree,
        key: &IVec,
        value: &Option<IVec>,
        stood: bool,
    ) -> bool
        requires tested { must_refuse_of (db_state P.store M.meant self.now) (trees_of_batches before.now ++ tree.now ∷ []) ≡ None }
        requires stood { Stands (db_state P.store M.meant self.now) tree.now key.now value.now stood }
        ensures { Stands (after_writes (writes_of before.now) (db_state P.store M.meant self.now)) tree.now key.now value.now result }
    {
        self.audit();
        let mut stands = stood;
        for (other, batch) in before {
            if other.number == tree.number {
                stands = stands_over(batch, key, value, stands);
            }
        }
        stands
    }

    // Adds the write of a key, if it changes something. The walk to its leaf begins on the way of the one before it.
    fn add_change<'a>(
        &self,
        before: &[(Tree, Batch)],
        tree: &'a Tree,
        root: Pid,
        key: &'a IVec,
        value: &'a Option<IVec>,
        way: &mut Vec<View>,
        writes: &mut Vec<KeyWrite<'a>>,
    ) -> Result<()>
        requires tested { must_refuse_of (db_state P.store M.meant self.now) (trees_of_batches before.now ++ tree.now ∷ []) ≡ None }
        requires root { (now (P.store self.now.pages)).roots tree.now.name ≡ Some root }
        requires way { IsWay (now (P.store self.now.pages)) root way.old.items }
        ensures way { IsWay (now (P.store self.now.pages)) root way.new.items }
        ensures ok { OnOk result (FindsMore (snapshot_of_db P.store self.now) (jobs_of_write ((after_writes (writes_of before.now) (db_state P.store M.meant self.now)).trees tree.now.name) (record { tree = tree.now; key = key.now; value = value.now })) writes.old.items writes.new.items) }
        ensures err { IfErr result (unread (P.store self.now.pages)) }
    {
        self.audit();
        let (leaf, stood) = match self.read_key(root, key, value, way) {
            Ok(read) => read,
            Err(e) => return Err(e),
        };
        let place = place_of(&leaf, stood);
        drop(leaf);
        if self.stands(before, tree, key, value, stood) {
            return Ok(());
        }
        let write = KeyWrite {
            tree,
            key,
            value,
            leaf: place,
        };
        match writes.push(write) {
            Ok(()) => Ok(()),
            Err(_) => Err(Error::NoMemory),
        }
    }

    // Adds the writes of a batch that change something, if these batches come before it.
    fn add_changes<'a>(
        &self,
        before: &[(Tree, Batch)],
        tree: &'a Tree,
        batch: &'a Batch,
        writes: &mut Vec<KeyWrite<'a>>,
    ) -> Result<()>
        requires tested { must_refuse_of (db_state P.store M.meant self.now) (trees_of_batches before.now ++ tree.now ∷ []) ≡ None }
        ensures ok { OnOk result (FindsMore (snapshot_of_db P.store self.now) (jobs_of_writes (writes_on tree.now batch.now) (after_writes (writes_of before.now) (db_state P.store M.meant self.now))) writes.old.items writes.new.items) }
        ensures err { IfErr result (unread (P.store self.now.pages)) }
    {
        let root = match self.root_of(tree) {
            Ok(root) => root,
            Err(e) => return Err(e),
        };
        let mut way = Vec::new(self.alloc);
        for (key, value) in batch.writes().iter() {
            if let Err(e) = self.add_change(before, tree, root, key, value, &mut way, writes) {
                drop(way);
                return Err(e);
            }
        }
        drop(way);
        Ok(())
    }

    // The writes of a group that change something.
    fn changes<'a>(&self, batches: &'a [(Tree, Batch)]) -> Result<Vec<KeyWrite<'a>>>
        requires tested { must_refuse_of (db_state P.store M.meant self.now) (trees_of_batches batches.now) ≡ None }
        ensures ok { IfOk result (λ writes. Finds (snapshot_of_db P.store self.now) (jobs_of_writes (writes_of batches.now) (db_state P.store M.meant self.now)) writes.items) }
        ensures err { IfErr result (unread (P.store self.now.pages)) }
    {
        let mut writes = Vec::new(self.alloc);
        for index in 0..batches.len() {
            let (tree, batch) = &batches[index];
            if let Err(e) = self.add_changes(&batches[..index], tree, batch, &mut writes) {
                drop(writes);
                return Err(e);
            }
        }
        Ok(writes)
    }

    /// Makes the writes of each batch in its tree, all or none, in the order of the list and of each batch in the order of its keys, and
    /// then sends their events. A write that changes nothing has no event, and if no write changes anything nothing is done. A tree may be
    /// in the list more than once.
    ///
    /// Refused by the tests, each of all trees in turn, and then with `Io`, `NoMemory` or `ReportableBug`. Up to the begin of the group in
    /// the store nothing changes. If it is refused after that the database is closed: calls are refused with `Closed` from now on, and none
    /// of the writes is there once its pages are recovered and opened again.
    ///
    /// ```
    /// let group = [(db.default_tree()?, Batch::default(alloc)), (tree, Batch::default(alloc))];
    /// db.apply_group(&group)?; // The writes of both, or none.
    /// ```
    pub fn apply_group(&mut self, batches: &[(Tree, Batch)]) -> Result<()>
        ensures ok { OnOk result (GroupDecided P.store M.meant self.old batches.now self.new) }
        ensures err { IfErr result (λ e. GroupRefused P.store M.meant self.old batches.now e self.new) }
        ensures quiet { IsQuietGroup P.store M.meant self.old batches.now self.new }
        ensures refuses { IfErr result (λ e. RefusesGroup P.store M.meant self.old batches.now e self.new) }
        ensures leaves { leaves_whole_as P.store M.meant result self.old self.new }
        ensures changes { OnOk result (db_state P.store M.meant self.new ≡ after_writes (writes_of batches.now) (db_state P.store M.meant self.old)) }
        ensures writes { OnOk result (WritesMaps P.store M.meant self.old batches.now self.new) }
    {
        if let Err(e) = self.check_batches(batches) {
            return Err(e);
        }
        let writes = match self.changes(batches) {
            Ok(writes) => writes,
            Err(e) => return Err(e),
        };
        let made = make_group(
            &mut self.pages,
            &mut self.queues,
            self.alloc,
            writes.as_slice(),
        );
        drop(writes);
        made
    }

    /// Makes the writes of a batch in a tree, all or none, in the order of the keys. Refused as a group of it alone (`apply_group`).
    ///
    /// ```
    /// let mut batch = Batch::default(alloc);
    /// batch.insert(alloc, b"ulm", b"21")?;
    /// batch.remove(alloc, b"bern")?;
    /// db.apply_batch(&tree, batch)?; // Both, or neither.
    /// ```
    pub fn apply_batch(&mut self, tree: &Tree, batch: Batch) -> Result<()>
        ensures ok { OnOk result (GroupDecided P.store M.meant self.old ((tree.now, batch) ∷ []) self.new) }
        ensures err { IfErr result (λ e. GroupRefused P.store M.meant self.old ((tree.now, batch) ∷ []) e self.new) }
        ensures quiet { IsQuietGroup P.store M.meant self.old ((tree.now, batch) ∷ []) self.new }
        ensures refuses { IfErr result (λ e. RefusesGroup P.store M.meant self.old ((tree.now, batch) ∷ []) e self.new) }
        ensures leaves { leaves_whole_as P.store M.meant result self.old self.new }
        ensures changes { OnOk result (db_state P.store M.meant self.new ≡ after_writes (writes_of ((tree.now, batch) ∷ [])) (db_state P.store M.meant self.old)) }
        ensures writes { OnOk result (WritesMap P.store M.meant self.old tree.now batch self.new) }
    {
        if let Err(e) = self.check(tree) {
            drop(batch);
            return Err(e);
        }
        let tree = match tree.clone() {
            Ok(tree) => tree,
            Err(e) => {
                drop(batch);
                return Err(e);
            }
        };
        let group = [(tree, batch)];
        let made = self.apply_group(&group);
        drop(group);
        made
    }
}
