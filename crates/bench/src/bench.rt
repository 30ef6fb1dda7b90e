//! The workloads.
ghost use Rattle.sled_model.specs.State.{IsOnKey};

use crate::pairs::{Pairs, digest};
use line_words::input::Stopped;
use machine_alone::Machine;
use sled::{Batch, Db, Iter};
use sled_model::{Call, MergeOperator, Outcome, Reply, Slot, Tree, Whole};
use sled_nodes::IVec;
use sled_pages::MemPages;
use std::ops::Bound;

type Result<T> = std::result::Result<T, Stopped>;

#[derive(Clone, Copy)]
pub enum Workload {
    /// Inserts all pairs.
    Load,
    /// Gets of pairs that were loaded.
    Gets,
    /// Inserts of new keys.
    Inserts,
    /// Inserts of the same keys with other values, a hundred in a batch.
    Batches,
    /// Of a hundred calls 95 are gets, and 5 inserts, of which half are of new keys at first.
    Mix,
    /// Removes pairs in the order in which they were loaded.
    Removals,
    /// Gets of pairs that were loaded, which all begin before the first of them is ended.
    Slots,
    /// New subscribers, each to a prefix of its own that begins no key of another workload.
    Watches,
    /// A new subscriber to all keys.
    Follows,
    /// All pairs, from the least key up, by an iterator.
    Scan,
    /// The same by a scan in a slot, step by step.
    Steps,
    /// Ranges of a hundred pairs, each from a key that was loaded on.
    Ranges,
}

const WORKLOADS: [(&str, Workload); 12] = [
    ("load", Workload::Load),
    ("gets", Workload::Gets),
    ("inserts", Workload::Inserts),
    ("batches", Workload::Batches),
    ("mix", Workload::Mix),
    ("removals", Workload::Removals),
    ("slots", Workload::Slots),
    ("watches", Workload::Watches),
    ("follows", Workload::Follows),
    ("scan", Workload::Scan),
    ("steps", Workload::Steps),
    ("ranges", Workload::Ranges),
];

// How many pairs a range has at most.
const RANGE: usize = 100;

// How many inserts a batch has.
const BATCH: u64 = 100;

// The keys whose beginnings are watched begin at this place, after those of all pairs. A prefix has so many of their bytes at least.
const WATCHED: u64 = 1 << 62;

const BEGINNING: u64 = 4;

/// The workload of a name.
pub fn named(name: &str) -> Result<Workload> {
    for (other, workload) in WORKLOADS {
        if other == name {
            return Ok(workload);
        }
    }
    Err(Stopped)
}

/// What makes the calls.
#[derive(Drop)]
enum Client<M> {
    /// A machine, step by step.
    Stepped(Machine<MemPages, M>),
    /// A database, each call at once.
    Direct(Db<MemPages, M>),
}

impl<M: MergeOperator> Client<M> {
    fn db(&self) -> &Db<MemPages, M> {
        match self {
            Client::Stepped(machine) => machine.db(),
            Client::Direct(db) => db,
        }
    }

    // A call on a key from its begin to its end: its answer as a number of a checksum.
    fn call(&mut self, tree: &Tree, call: Call) -> Result<u64>
        requires { IsOnKey call }
    {
        match self {
            Client::Stepped(machine) => {
                let outcome = machine.complete(tree, call);
                let digest = digest_of(&outcome);
                drop(outcome);
                digest
            }
            Client::Direct(db) => {
                let digest = made(db, tree, &call);
                drop(call);
                digest
            }
        }
    }

    // Makes the writes of a batch.
    fn apply(&mut self, tree: &Tree, batch: Batch) -> Result<()> {
        match self {
            Client::Stepped(machine) => group_step(machine, tree, batch),
            Client::Direct(db) => match db.apply_batch(tree, batch) {
                Ok(()) => Ok(()),
                Err(error) => Err(Stopped::from(error)),
            },
        }
    }

    fn flush(&mut self) -> Result<()> {
        match self {
            Client::Stepped(machine) => {
                let outcome = machine.whole(Whole::Flush);
                let flushed = digest_of(&outcome);
                drop(outcome);
                flushed.map(|_| ())
            }
            Client::Direct(db) => match db.flush() {
                Ok(_) => Ok(()),
                Err(error) => Err(Stopped::from(error)),
            },
        }
    }

    // A new subscriber: its number.
    fn watch(&mut self, tree: &Tree, prefix: IVec) -> Result<u64> {
        match self {
            Client::Stepped(machine) => watch_step(machine, tree, prefix),
            Client::Direct(db) => watch_direct(db, tree, prefix),
        }
    }

    fn begin(&mut self, tree: &Tree, call: Call) -> Result<Slot> {
        match self {
            Client::Stepped(machine) => Ok(machine.begin(tree, call)?),
            Client::Direct(_) => {
                drop(call);
                Err(Stopped)
            }
        }
    }

    fn step(&mut self, slot: Slot) -> Result<Outcome> {
        match self {
            Client::Stepped(machine) => Ok(machine.step(slot)),
            Client::Direct(_) => Err(Stopped),
        }
    }

    // Ends a call: its answer as a number of a checksum.
    fn end(&mut self, slot: Slot) -> Result<u64> {
        match self {
            Client::Stepped(machine) => {
                let outcome = machine.finish(slot);
                let digest = digest_of(&outcome);
                drop(outcome);
                digest
            }
            Client::Direct(_) => Err(Stopped),
        }
    }
}

/// A database, and what is done with it.
#[derive(Drop)]
pub struct Bench<M = Box<dyn MergeOperator + Send>> {
    client: Client<M>,
    tree: Tree,
    pairs: Pairs,
    calls: u64,
    // After so many changes there is a flush.
    flush: u64,
    changes: u64,
}

impl<M: MergeOperator> Bench<M> {
    /// A machine makes the calls.
    pub fn over(db: Db<MemPages, M>, pairs: Pairs, calls: u64, flush: u64) -> Result<Bench<M>> {
        let tree = match db.default_tree() {
            Ok(tree) => tree,
            Err(error) => {
                drop(db);
                drop(pairs);
                return Err(Stopped::from(error));
            }
        };
        Ok(Bench {
            client: Client::Stepped(Machine::new(db)),
            tree,
            pairs,
            calls,
            flush,
            changes: 0,
        })
    }

    /// The same, but that the database itself makes the calls.
    pub fn into_direct(self) -> Bench<M> {
        let Bench {
            client,
            tree,
            pairs,
            calls,
            flush,
            changes,
        } = self;
        let db = match client {
            Client::Stepped(machine) => machine.into_db(),
            Client::Direct(db) => db,
        };
        Bench {
            client: Client::Direct(db),
            tree,
            pairs,
            calls,
            flush,
            changes,
        }
    }

    /// Runs a workload: how many calls it made, and a checksum of their answers.
    pub fn run(&mut self, workload: Workload) -> Result<(u64, u64)> {
        let calls = match workload {
            Workload::Load => self.pairs.count(),
            _ => self.calls,
        };
        match workload {
            Workload::Slots => return Ok((calls, self.slots()?)),
            Workload::Scan => return self.scan(),
            Workload::Steps => return self.steps(),
            Workload::Batches => return Ok((calls, self.batches()?)),
            Workload::Follows => return Ok((1, self.follow()?)),
            _ => {}
        }
        Ok((calls, self.turns(workload, calls)?))
    }

    // Makes the call of each turn: a checksum of their answers.
    fn turns(&mut self, workload: Workload, calls: u64) -> Result<u64> {
        let mut sum = 0u64;
        for turn in 0..calls {
            sum = sum.rotate_left(1) ^ self.turn(workload, turn)?;
        }
        Ok(sum)
    }

    // Makes the call of this turn.
    fn turn(&mut self, workload: Workload, turn: u64) -> Result<u64> {
        let loaded = self.loaded(turn);
        let new = self.pairs.count().wrapping_add(turn);
        match workload {
            Workload::Load => self.insert(turn, turn),
            Workload::Inserts => self.insert(new, turn),
            Workload::Removals => self.remove(turn),
            Workload::Mix => self.mixed(turn),
            Workload::Ranges => self.range(loaded),
            Workload::Watches => self.watch(turn),
            Workload::Gets
            | Workload::Slots
            | Workload::Scan
            | Workload::Steps
            | Workload::Batches
            | Workload::Follows => self.get(loaded),
        }
    }

    // A place among the pairs that were loaded.
    fn loaded(&self, turn: u64) -> u64 {
        self.pairs
            .choice(turn)
            .checked_rem(self.pairs.count())
            .unwrap_or(0)
    }

    fn mixed(&mut self, turn: u64) -> Result<u64> {
        let choice = self.pairs.choice(turn);
        let place = self.loaded(turn);
        if (choice >> 32) % 100 >= 5 {
            return self.get(place);
        }
        let other = self.pairs.count().wrapping_add(place);
        self.insert(if choice % 2 == 0 { place } else { other }, !turn)
    }

    fn get(&mut self, place: u64) -> Result<u64> {
        let key = self.pairs.key(place)?;
        self.call(Call::Get(key))
    }

    fn insert(&mut self, place: u64, number: u64) -> Result<u64> {
        let key = self.pairs.key(place)?;
        let value = match self.pairs.value(number) {
            Ok(value) => value,
            Err(error) => {
                drop(key);
                return Err(Stopped::from(error));
            }
        };
        let digest = self.call(Call::Insert(key, value))?;
        self.changed()?;
        Ok(digest)
    }

    // All inserts, batch after batch: a checksum of how many keys each had.
    fn batches(&mut self) -> Result<u64> {
        let mut sum = 0u64;
        for batch in 0..self.calls.div_ceil(BATCH) {
            sum = sum.rotate_left(1) ^ self.batch(batch.wrapping_mul(BATCH))?;
        }
        Ok(sum)
    }

    // The inserts from this turn on, in one batch: how many keys it has.
    fn batch(&mut self, from: u64) -> Result<u64> {
        let mut batch = Batch::default(self.pairs.alloc());
        let end = self.calls.min(from.saturating_add(BATCH));
        if let Err(stopped) = self.fill(&mut batch, from, end) {
            drop(batch);
            return Err(stopped);
        }
        let count = batch.len() as u64;
        self.client.apply(&self.tree, batch)?;
        for _ in from..end {
            self.changed()?;
        }
        Ok(count)
    }

    fn fill(&self, batch: &mut Batch, from: u64, end: u64) -> Result<()> {
        for turn in from..end {
            let key = self.pairs.key(self.pairs.count().wrapping_add(turn))?;
            let value = self.pairs.value(!turn)?;
            batch.insert(self.pairs.alloc(), key.as_ref(), value.as_ref())?;
        }
        Ok(())
    }

    fn remove(&mut self, place: u64) -> Result<u64> {
        let key = self.pairs.key(place)?;
        let digest = self.call(Call::Remove(key))?;
        self.changed()?;
        Ok(digest)
    }

    fn watch(&mut self, turn: u64) -> Result<u64> {
        let len = BEGINNING + turn % BEGINNING;
        let prefix = self.pairs.beginning(WATCHED.wrapping_add(turn), len)?;
        self.client.watch(&self.tree, prefix)
    }

    fn follow(&mut self) -> Result<u64> {
        let all = self.pairs.beginning(WATCHED, 0)?;
        self.client.watch(&self.tree, all)
    }

    // The first pairs from a key on, by an iterator.
    fn range(&self, place: u64) -> Result<u64> {
        let key = self.pairs.key(place)?;
        let lo = Bound::Included(key.as_ref());
        let pairs = self.client.db().range(&self.tree, lo, Bound::Unbounded);
        drop(key);
        let (_, sum) = taken(pairs?, RANGE)?;
        Ok(sum)
    }

    // All pairs, by an iterator: how many there are, and a checksum of them.
    fn scan(&self) -> Result<(u64, u64)> {
        let pairs = self.client.db().iter(&self.tree)?;
        taken(pairs, usize::MAX)
    }

    // All pairs, by a scan in a slot: how many there are, and a checksum of them.
    fn steps(&mut self) -> Result<(u64, u64)> {
        let (alloc, lo) = (self.pairs.alloc(), Bound::Included(b"".as_slice()));
        let slot = self.client.begin(&self.tree, Call::scan(alloc, lo, Bound::Unbounded, false)?)?;
        let (mut count, mut sum) = (0u64, 0u64);
        for _ in 0..u64::MAX {
            match self.client.step(slot)? {
                Outcome::Moved => {}
                Outcome::Yielded(key, value) => {
                    count = count.wrapping_add(1);
                    sum = sum.rotate_left(1) ^ digest_of_pair((key, value));
                }
                outcome => {
                    drop(outcome);
                    break;
                }
            }
        }
        Ok((count, sum))
    }

    // Counts a change, and flushes if it is time.
    fn changed(&mut self) -> Result<()> {
        self.changes = self.changes.saturating_add(1);
        if self.changes != self.flush {
            return Ok(());
        }
        self.changes = 0;
        self.client.flush()
    }

    fn call(&mut self, call: Call) -> Result<u64>
        requires { IsOnKey call }
    {
        self.client.call(&self.tree, call)
    }

    fn begin_all(&mut self, slots: &mut Vec<Slot>) -> Result<()> {
        for turn in 0..self.calls {
            let key = self.pairs.key(self.loaded(turn))?;
            slots.push(self.client.begin(&self.tree, Call::Get(key))?)?;
        }
        Ok(())
    }

    fn end_all(&mut self, slots: &[Slot]) -> Result<u64> {
        let mut sum = 0u64;
        for slot in slots {
            sum = sum.rotate_left(1) ^ self.client.end(*slot)?;
        }
        Ok(sum)
    }

    // Begins all calls, and then ends them, the oldest first.
    fn slots(&mut self) -> Result<u64> {
        let mut slots = Vec::new(self.pairs.alloc());
        self.begin_all(&mut slots)?;
        self.end_all(slots.as_slice())
    }
}

// Makes a call on a database: its answer as a number of a checksum.
fn made<M: MergeOperator>(db: &mut Db<MemPages, M>, tree: &Tree, call: &Call) -> Result<u64> {
    let answer = match call {
        Call::Get(key) => db.get(tree, key.as_ref()),
        Call::Insert(key, value) => db.insert(tree, key.as_ref(), value.as_ref()),
        Call::Remove(key) => db.remove(tree, key.as_ref()),
        Call::CompareAndSwap(..) | Call::Merge(..) | Call::Scan { .. } => return Err(Stopped),
    };
    match answer {
        Ok(value) => {
            let digest = digest(&value);
            drop(value);
            Ok(digest)
        }
        Err(error) => Err(Stopped::from(error)),
    }
}

// A new subscriber by a step of a machine, and by a call of a database: its number.
fn watch_step<M: MergeOperator>(
    machine: &mut Machine<MemPages, M>,
    tree: &Tree,
    prefix: IVec,
) -> Result<u64> {
    let tree = match tree.clone() {
        Ok(tree) => tree,
        Err(error) => {
            drop(prefix);
            return Err(Stopped::from(error));
        }
    };
    let outcome = machine.whole(Whole::Watch(tree, prefix));
    let digest = digest_of(&outcome);
    drop(outcome);
    digest
}

fn watch_direct<M: MergeOperator>(
    db: &mut Db<MemPages, M>,
    tree: &Tree,
    prefix: IVec,
) -> Result<u64> {
    let watched = db.watch_prefix(tree, prefix.as_ref());
    drop(prefix);
    match watched {
        Ok(subscriber) => Ok(subscriber.0),
        Err(error) => Err(Stopped::from(error)),
    }
}

// Makes the writes of a batch by a step of a machine.
fn group_step<M: MergeOperator>(
    machine: &mut Machine<MemPages, M>,
    tree: &Tree,
    batch: Batch,
) -> Result<()> {
    let tree = match tree.clone() {
        Ok(tree) => tree,
        Err(error) => {
            drop(batch);
            return Err(Stopped::from(error));
        }
    };
    let mut group = Vec::new(machine.db().allocator());
    group.push((tree, batch))?;
    let outcome = machine.whole(Whole::Group(group));
    let made = digest_of(&outcome);
    drop(outcome);
    made.map(|_| ())
}

// A pair as a number of a checksum.
fn digest_of_pair(pair: (IVec, IVec)) -> u64 {
    let (key, value) = pair;
    let key = Some(key);
    let value = Some(value);
    let sum = digest(&key).wrapping_add(digest(&value));
    drop(key);
    drop(value);
    sum
}

// Takes so many pairs at most from the front: how many there were, and a checksum of them.
fn take_from(pairs: &mut Iter<'_, MemPages>, most: usize) -> Result<(u64, u64)> {
    let mut count = 0u64;
    let mut sum = 0u64;
    for _ in 0..most {
        let Some(pair) = pairs.next() else {
            break;
        };
        match pair {
            Ok(pair) => sum = sum.rotate_left(1) ^ digest_of_pair(pair),
            Err(e) => return Err(Stopped::from(e)),
        }
        count = count.wrapping_add(1);
    }
    Ok((count, sum))
}

// The same, and drops the iterator.
fn taken(pairs: Iter<'_, MemPages>, most: usize) -> Result<(u64, u64)> {
    let mut pairs = pairs;
    let told = take_from(&mut pairs, most);
    drop(pairs);
    told
}

// An answer as a number of a checksum.
fn digest_of(outcome: &Outcome) -> Result<u64> {
    match outcome {
        Outcome::Decided(Reply::Value(value)) => Ok(digest(value)),
        Outcome::Decided(Reply::Number(_) | Reply::Done) => Ok(0),
        Outcome::Decided(Reply::Subscriber(subscriber)) => Ok(subscriber.0),
        _ => Err(Stopped),
    }
}
