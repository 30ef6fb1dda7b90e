//! An index in memory of the entries of a tree by how their keys end, which follows the tree by its events, and begins anew if it missed
//! some. A tree finds keys by how they begin; this finds files by their extension, or hosts by their domain.
ghost use Rattle.std.specs.Prelude.{◌≡◌, ◌++◌, ◌∷◌, [], false, reverse, IfOk, IfErr, OnOk, OnErr};
ghost use Rattle.sled_nodes.specs.Order.{Key};
ghost use Rattle.sled_nodes.specs.declared.error.Error.TheVariants.{NoMemory};
ghost use Rattle.sled_model.specs.Maps.{Map};
ghost use Rattle.sled_model.specs.declared.event.Event.TheVariants.{Insert, Remove};
ghost use Rattle.sled_queues.specs.Copies.{IsCopy, after_event};
ghost use Rattle.sled.specs.Reads.{ReadsMap};
ghost use Rattle.sled.specs.Values.{db_state};
ghost use Rattle.sled.specs.Watch.{WatchesDb, EndsSubscriber};
ghost use Rattle.example_databases.specs.Endings.{turned, entries_ending, while_beginning, HasSame, has_missed, IsIndex, IsUpToDate, BeginsIndex, TakesOldest, CatchesUp, CatchesUpBy, BeginsAnew, StaysIndex, FindsEnding, StillFollowsLaw, KeepsFollowing, FindsInTree};

use sled::Db;
use sled_model::{Event, MergeOperator, Next, Subscriber, Tree};
use sled_nodes::{Error, IVec, Result};
use sled_store::Pages;
use std::alloc::Global;
use std::collections::BTreeMap;
use std::collections::btree_map::Range;
use std::marker::Model;
use std::mem::replace;
use typed_map::all_of;

// A byte string read from its end.
fn turn(alloc: Global, bytes: &[u8]) -> Result<IVec>
    ensures ok { IfOk result (λ made. made ≡ reverse bytes.now) }
    ensures err { IfErr result (λ e. e ≡ NoMemory) }
{
    let mut copy = Vec::from_slice(alloc, bytes)?;
    copy.as_mut_slice().reverse();
    let made = IVec::from_slice(alloc, copy.as_slice());
    drop(copy);
    made
}

// The key has this value from now on.
fn put(alloc: Global, entries: &mut BTreeMap<IVec, IVec>, key: &IVec, value: IVec) -> Result<()>
    ensures ok { OnOk result (HasSame (turned entries.new.entries) (after_event (Insert key.now value) (turned entries.old.entries))) }
    ensures err { OnErr result (entries.new.entries ≡ entries.old.entries) }
    ensures cause { IfErr result (λ e. e ≡ NoMemory) }
{
    let key = match turn(alloc, key.as_ref()) {
        Ok(key) => key,
        Err(e) => {
            drop(value);
            return Err(e);
        }
    };
    match entries.insert(key, value) {
        Ok(stood) => {
            drop(stood);
            Ok(())
        }
        Err(failed) => {
            drop(failed);
            Err(Error::NoMemory)
        }
    }
}

// The key has no value from now on.
fn take_out(alloc: Global, entries: &mut BTreeMap<IVec, IVec>, key: &IVec) -> Result<()>
    ensures ok { OnOk result (HasSame (turned entries.new.entries) (after_event (Remove key.now) (turned entries.old.entries))) }
    ensures err { OnErr result (entries.new.entries ≡ entries.old.entries) }
    ensures cause { IfErr result (λ e. e ≡ NoMemory) }
{
    let key = match turn(alloc, key.as_ref()) {
        Ok(key) => key,
        Err(e) => return Err(e),
    };
    let stood = entries.remove(&key);
    drop(stood);
    drop(key);
    Ok(())
}

// What an event makes of the entries.
fn change(alloc: Global, entries: &mut BTreeMap<IVec, IVec>, event: &Event) -> Result<()>
    ensures ok { OnOk result (HasSame (turned entries.new.entries) (after_event event.now (turned entries.old.entries))) }
    ensures err { OnErr result (entries.new.entries ≡ entries.old.entries) }
    ensures cause { IfErr result (λ e. e ≡ NoMemory) }
{
    match event {
        Event::Insert { key, value } => match value.clone() {
            Ok(value) => put(alloc, entries, key, value),
            Err(e) => Err(e),
        },
        Event::Remove { key } => take_out(alloc, entries, key),
    }
}

// All these entries.
fn filled(alloc: Global, pairs: Vec<(IVec, IVec)>) -> Result<BTreeMap<IVec, IVec>>
    ensures { IfOk result (λ entries. HasSame (turned entries.entries) pairs.items) }
{
    let mut pairs = pairs;
    let mut entries = BTreeMap::new(alloc);
    while let Some((key, value)) = pairs.pop() {
        let put = put(alloc, &mut entries, &key, value);
        drop(key);
        if let Err(e) = put {
            drop(pairs);
            drop(entries);
            return Err(e);
        }
    }
    drop(pairs);
    Ok(entries)
}

// The entries of a tree under a prefix.
fn entries_under<P: Pages, M: MergeOperator>(
    alloc: Global,
    db: &Db<P, M>,
    tree: &Tree,
    prefix: &[u8],
) -> Result<BTreeMap<IVec, IVec>>
    ensures { IfOk result (λ entries. ReadsMap P.store M.meant db.now tree.now (IsCopy prefix.now (turned entries.entries))) }
{
    let mut scan = match db.scan_prefix(tree, prefix) {
        Ok(scan) => scan,
        Err(e) => return Err(e),
    };
    let pairs = all_of(alloc, &mut scan);
    drop(scan);
    match pairs {
        Ok(pairs) => match filled(alloc, pairs) {
            Ok(entries) => Ok(entries),
            Err(e) => Err(e),
        },
        Err(e) => Err(e),
    }
}

// Adds an entry of the index to those that were found.
fn add(alloc: Global, found: &mut Vec<(IVec, IVec)>, key: &IVec, value: &IVec) -> Result<()>
    ensures ok { OnOk result (found.new.items ≡ found.old.items ++ (reverse key.now, value.now) ∷ []) }
    ensures err { IfErr result (λ e. e ≡ NoMemory) }
{
    let key = match turn(alloc, key.as_ref()) {
        Ok(key) => key,
        Err(e) => return Err(e),
    };
    match value.clone() {
        Ok(value) => {
            found.push((key, value))?;
            Ok(())
        }
        Err(e) => {
            drop(key);
            Err(e)
        }
    }
}

// The first of these entries, up to one whose key does not begin so.
fn beginning_so(
    alloc: Global,
    entries: Range<'_, IVec, IVec>,
    beginning: &[u8],
) -> Result<Vec<(IVec, IVec)>>
    ensures ok { IfOk result (λ found. found.items ≡ turned (while_beginning beginning.now entries.entry)) }
    ensures err { IfErr result (λ e. e ≡ NoMemory) }
{
    let mut found = Vec::new(alloc);
    for (key, value) in entries {
        if !key.as_ref().starts_with(beginning) {
            break;
        }
        if let Err(e) = add(alloc, &mut found, key, value) {
            drop(found);
            return Err(e);
        }
    }
    Ok(found)
}

/// How far an index came.
#[derive(Clone, Copy, Debug, PartialEq, Eq)]
pub enum Progress {
    /// No event waits any more: it has the entries of its tree now.
    UpToDate,
    /// It took as many events as it might, and more may wait.
    Partly,
    /// It missed some events, and has to begin anew.
    Lost,
}

/// An index of the entries of a tree whose keys begin with a prefix, by how their keys end.
#[derive(Drop)]
pub struct Endings {
    tree: Tree,
    prefix: IVec,
    subscriber: Subscriber,
    // The entries by their keys read backwards.
    entries: BTreeMap<IVec, IVec>,
    // An event that was taken, and that there was no memory for yet.
    late: Option<Event>,
    // Whether it learned that it missed events.
    is_lost: bool,
}

impl Model for Endings {
    ghost use Rattle.example_databases.specs.Endings.{EndingsValue, turned};

    ghost Value = { EndingsValue };

    ghost view = { λ e. record { tree = e.tree; prefix = e.prefix; subscriber = e.subscriber; late = e.late; is_lost = e.is_lost; entries = turned e.entries.entries } };
}

impl Endings {
    /// An index of the entries of a tree whose keys begin with a prefix. It has those that are there, and is a new subscriber of
    /// the tree. Refused, nothing changes.
    pub fn begin<P: Pages, M: MergeOperator>(
        db: &mut Db<P, M>,
        tree: &Tree,
        prefix: &[u8],
    ) -> Result<Endings>
        ensures ok { IfOk result (λ index. BeginsIndex (db_state P.store M.meant db.new) tree.now prefix.now index) }
        ensures watches { IfOk result (λ index. WatchesDb P.store M.meant db.old tree.now prefix.now index.subscriber db.new) }
        ensures err { OnErr result (db.new ≡ db.old) }
    {
        let alloc = db.allocator();
        let entries = match entries_under(alloc, db, tree, prefix) {
            Ok(entries) => entries,
            Err(e) => return Err(e),
        };
        let copy = match tree.clone() {
            Ok(copy) => copy,
            Err(e) => {
                drop(entries);
                return Err(e);
            }
        };
        let beginning = match IVec::from_slice(alloc, prefix) {
            Ok(beginning) => beginning,
            Err(e) => {
                drop(entries);
                drop(copy);
                return Err(e);
            }
        };
        match db.watch_prefix(tree, prefix) {
            Ok(subscriber) => Ok(Endings {
                tree: copy,
                prefix: beginning,
                subscriber,
                entries,
                late: None,
                is_lost: false,
            }),
            Err(e) => {
                drop(entries);
                drop(copy);
                drop(beginning);
                Err(e)
            }
        }
    }

    /// Whether it learned that it missed events: its entries are not those of the tree until it begins anew.
    pub fn is_lost(&self) -> bool
        ensures { result ≡ self.now.is_lost }
    {
        self.is_lost
    }

    // Takes what is next: the oldest event that has not changed the entries, or that some were missed, if there is either.
    fn oldest<P: Pages, M: MergeOperator>(&mut self, db: &mut Db<P, M>) -> Option<Next>
        ensures takes { TakesOldest (db_state P.store M.meant db.old) self.old result (db_state P.store M.meant db.new) self.new }
        ensures same { db.new ≡ record db.old { queues = db.new.queues } }
    {
        if let Some(event) = self.late.take() {
            return Some(Next::Event(event));
        }
        db.next(&self.subscriber)
    }

    // Changes the entries by an event, which stays late if there is no memory for it.
    fn take_in(&mut self, alloc: Global, event: Event) -> Result<()>
        ensures ok { OnOk result (HasSame self.new.entries (after_event event self.old.entries) × (self.new ≡ record self.old { entries = self.new.entries })) }
        ensures err { IfErr result (λ e. (e ≡ NoMemory) × (self.new ≡ record self.old { late = Some event })) }
    {
        match change(alloc, &mut self.entries, &event) {
            Ok(()) => {
                drop(event);
                Ok(())
            }
            Err(e) => {
                let none = self.late.replace(event);
                drop(none);
                Err(e)
            }
        }
    }

    // Changes the entries by the oldest event that has not changed them, if there is one and none was missed before it.
    fn take_one<P: Pages, M: MergeOperator>(&mut self, db: &mut Db<P, M>) -> Result<Progress>
        ensures ok { IfOk result (λ progress. CatchesUpBy 1 (db_state P.store M.meant db.old) self.old progress (db_state P.store M.meant db.new) self.new) }
        ensures err { IfErr result (λ e. (e ≡ NoMemory) × CatchesUp (db_state P.store M.meant db.old) self.old (db_state P.store M.meant db.new) self.new) }
        ensures same { db.new ≡ record db.old { queues = db.new.queues } }
    {
        if self.is_lost {
            return Ok(Progress::Lost);
        }
        match self.oldest(db) {
            None => Ok(Progress::UpToDate),
            Some(Next::Missed(_)) => {
                self.is_lost = true;
                Ok(Progress::Lost)
            }
            Some(Next::Event(event)) => match self.take_in(db.allocator(), event) {
                Ok(()) => Ok(Progress::Partly),
                Err(e) => Err(e),
            },
        }
    }

    /// Takes the events that wait, so many at most, and changes the index by each, in order. It answers how far the index came: up
    /// to date with its tree if none waits any more, or lost if it missed some. Refused with `NoMemory` alone; then it has changed
    /// by the first of them, and the next call goes on from there.
    pub fn catch_up<P: Pages, M: MergeOperator>(
        &mut self,
        db: &mut Db<P, M>,
        at_most: usize,
    ) -> Result<Progress>
        ensures ok { IfOk result (λ progress. CatchesUpBy at_most (db_state P.store M.meant db.old) self.old progress (db_state P.store M.meant db.new) self.new) }
        ensures err { IfErr result (λ e. (e ≡ NoMemory) × CatchesUp (db_state P.store M.meant db.old) self.old (db_state P.store M.meant db.new) self.new) }
        ensures same { db.new ≡ record db.old { queues = db.new.queues } }
    {
        for _ in 0..at_most {
            match self.take_one(db) {
                Ok(Progress::Partly) => {}
                Ok(Progress::UpToDate) => return Ok(Progress::UpToDate),
                Ok(Progress::Lost) => return Ok(Progress::Lost),
                Err(e) => return Err(e),
            }
        }
        Ok(Progress::Partly)
    }

    /// Begins anew, as an index that missed events has to: with the entries that its tree has now, and a new subscriber in place of its
    /// own, which is ended. Refused, nothing changes.
    pub fn begin_anew<P: Pages, M: MergeOperator>(&mut self, db: &mut Db<P, M>) -> Result<()>
        ensures ok { OnOk result (BeginsAnew (db_state P.store M.meant db.old) self.old (db_state P.store M.meant db.new) self.new) }
        ensures err { OnErr result ((db.new ≡ db.old) × (self.new ≡ self.old)) }
        ensures same { db.new ≡ record db.old { queues = db.new.queues } }
    {
        match Endings::begin(db, &self.tree, self.prefix.as_ref()) {
            Ok(index) => {
                let lost = replace(self, index);
                lost.end(db);
                Ok(())
            }
            Err(e) => Err(e),
        }
    }

    // Takes all events that wait, or begins anew if some were missed.
    fn follow<P: Pages, M: MergeOperator>(&mut self, db: &mut Db<P, M>) -> Result<()>
        ensures ok { OnOk result (IsIndex (db_state P.store M.meant db.old) self.old → IsUpToDate (db_state P.store M.meant db.new) self.new) }
        ensures stays { StaysIndex (db_state P.store M.meant db.old) self.old (db_state P.store M.meant db.new) self.new }
        ensures err { IfErr result (λ e. has_missed self.old (db_state P.store M.meant db.old) ≡ false → e ≡ NoMemory) }
        ensures same { db.new ≡ record db.old { queues = db.new.queues } }
    {
        loop {
            match self.catch_up(db, 1000) {
                Ok(Progress::UpToDate) => return Ok(()),
                Ok(Progress::Partly) => {}
                Ok(Progress::Lost) => {
                    return match self.begin_anew(db) {
                        Ok(()) => Ok(()),
                        Err(e) => Err(e),
                    };
                }
                Err(e) => return Err(e),
            }
        }
    }

    /// The entries of the tree now whose keys end so, in the order of their keys read from the end. The index takes all events that wait,
    /// and begins anew first if it missed some. Refused with `NoMemory` alone if it missed none; then it is an index of its
    /// tree still, and the next call goes on from there.
    pub fn find<P: Pages, M: MergeOperator>(
        &mut self,
        db: &mut Db<P, M>,
        ending: &[u8],
    ) -> Result<Vec<(IVec, IVec)>>
        ensures ok { IfOk result (λ found. IsIndex (db_state P.store M.meant db.old) self.old → FindsInTree (db_state P.store M.meant db.new) self.old.tree self.old.prefix ending.now found.items) }
        ensures stays { StaysIndex (db_state P.store M.meant db.old) self.old (db_state P.store M.meant db.new) self.new }
        ensures err { IfErr result (λ e. has_missed self.old (db_state P.store M.meant db.old) ≡ false → e ≡ NoMemory) }
        ensures same { db.new ≡ record db.old { queues = db.new.queues } }
    {
        match self.follow(db) {
            Ok(()) => match self.ending_with(db.allocator(), ending) {
                Ok(found) => Ok(found),
                Err(e) => Err(e),
            },
            Err(e) => Err(e),
        }
    }

    /// The entries whose keys end so, in the order of their keys read from the end. Refused with `NoMemory` alone.
    pub fn ending_with(&self, alloc: Global, ending: &[u8]) -> Result<Vec<(IVec, IVec)>>
        ensures ok { IfOk result (λ found. found.items ≡ entries_ending ending.now self.now.entries) }
        ensures finds { IfOk result (λ found. (prefix : Key) (map : Map) → IsCopy prefix self.now.entries map → FindsEnding prefix ending.now map found.items) }
        ensures err { IfErr result (λ e. e ≡ NoMemory) }
    {
        let turned = turn(alloc, ending)?;
        let from = match turned.clone() {
            Ok(from) => from,
            Err(e) => {
                drop(turned);
                return Err(e);
            }
        };
        match beginning_so(alloc, self.entries.range(from..), turned.as_ref()) {
            Ok(found) => {
                drop(turned);
                Ok(found)
            }
            Err(e) => {
                drop(turned);
                Err(e)
            }
        }
    }

    /// Ends the index: no event waits for it any more.
    pub fn end<P: Pages, M: MergeOperator>(self, db: &mut Db<P, M>)
        ensures { EndsSubscriber P.store M.meant db.old self.subscriber db.new }
    {
        db.unsubscribe(&self.subscriber);
        drop(self);
    }
}

/// Does nothing. An index stays one of its tree whatever happens elsewhere, as long as its subscriber is not ended and no other program
/// takes its events, and as long as there is room for those that come it misses none. What happens is stated by turns: `law_turns` and
/// `law_trees` of `sled_queues` have those of each step of a machine.
pub fn law_still_follows()
    ensures { StillFollowsLaw }
{}

// Writes a key of a tree, and takes another out.
fn write<P: Pages, M: MergeOperator>(
    db: &mut Db<P, M>,
    tree: &Tree,
    key: &[u8],
    value: &[u8],
    gone: &[u8],
) -> Result<()>
    ensures { OnOk result (KeepsFollowing (db_state P.store M.meant db.old) tree.now 2 (db_state P.store M.meant db.new)) }
{
    match db.insert(tree, key, value) {
        Ok(stood) => drop(stood),
        Err(e) => return Err(e),
    }
    match db.remove(tree, gone) {
        Ok(stood) => {
            drop(stood);
            Ok(())
        }
        Err(e) => Err(e),
    }
}

/// Begins an index of a tree, writes to the tree, and asks the index: the entries that it finds are those of the tree now.
pub fn index_follows<P: Pages, M: MergeOperator>(
    db: &mut Db<P, M>,
    tree: &Tree,
    prefix: &[u8],
    key: &[u8],
    value: &[u8],
    gone: &[u8],
    ending: &[u8],
) -> Result<Vec<(IVec, IVec)>>
    ensures { IfOk result (λ found. FindsInTree (db_state P.store M.meant db.new) tree.now prefix.now ending.now found.items) }
{
    let mut index = match Endings::begin(db, tree, prefix) {
        Ok(index) => index,
        Err(e) => return Err(e),
    };
    if let Err(e) = write(db, tree, key, value, gone) {
        index.end(db);
        return Err(e);
    }
    match index.find(db, ending) {
        Ok(found) => {
            index.end(db);
            Ok(found)
        }
        Err(e) => {
            index.end(db);
            Err(e)
        }
    }
}
