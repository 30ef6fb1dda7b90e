//! Callers of a database that is shared, each in a thread of its own.
ghost use Rattle.std.specs.Prelude.{◌≡◌, ◌+◌, ◌<◌, false};
ghost use Rattle.sled_pages.specs.Memory.{store_of};
ghost use Rattle.sled_store.specs.Store.{now};
ghost use Rattle.tree_laws.specs.Crashes.{IsValid};

use crate::asking::{Ask, Told, told_of};
use crate::caller::{Caller, Seat};
use crate::replay::{Plain, has_just, replayed};
use crate::state_tests::begin_and_abandon;
use crate::trial::{Start, Trial};
use example_parts::Adds;
use sled::{Db, MemPages, crash_pages, empty_pages};
use sled_machine::shared::{Blank, Entry, Made};
use sled_machine::{Machine, shared};
use sled_model::{Collection, Slot, Tree, Whole};
use std::alloc::Global;
use std::marker::Brand;
use std::process::Abort;
use std::sync::Wait;
use std::sync::atomic::{AtomicU64, Ordering};
use std::sync::ledger::Ledger;
use std::thread::{Threads, for_each_mut};

/// A database in memory, whose merge operators add.
pub type Fresh = Db<MemPages, Adds>;

/// Such a database that is shared.
pub type Shared<L> = shared::Db<MemPages, L, Adds>;

/// A caller's way to it.
pub type Way<L> = shared::Handle<MemPages, L, Adds>;

/// What is under its lock.
pub type Gathered<L> = shared::State<MemPages, L, Adds>;

/// What the callers of a trial have in common: the tree, the moves of the trial, and numbers, from 0 up, one for each `Signal`.
#[derive(Drop)]
pub struct Scene {
    pub alloc: Global,
    pub tree: Tree,
    pub moves: u64,
    pub ready: AtomicU64,
    pub count: AtomicU64,
    pub answered: AtomicU64,
    pub ended: AtomicU64,
    pub slot: AtomicU64,
    pub before: AtomicU64,
    pub after: AtomicU64,
    /// The last id that a caller took.
    pub id: AtomicU64,
    /// How often a caller waited in vain.
    pub vain: AtomicU64,
}

/// Ends the test if something does not hold, and says what should.
pub fn require<R: Abort>(rt: &R, holds: bool, what: &str) {
    assert!(rt; holds, "{what}");
}

/// Whether this succeeded. It is dropped.
pub fn is_done<T: Drop, E: Drop>(came: Result<T, E>) -> bool {
    let done = came.is_ok();
    drop(came);
    done
}

// The database of these pages.
fn database_of<R: Abort>(rt: &R, alloc: Global, pages: MemPages) -> Fresh
    requires well { IsValid (now (store_of pages)) }
    requires no_group { (now (store_of pages)).in_group ≡ false }
{
    match Db::open(alloc, pages, b"shared") {
        Ok(db) => db.with_operators(),
        Err(_) => panic!(rt; "not opened"),
    }
}

/// A new database.
pub fn new_database<R: Abort>(rt: &R, alloc: Global) -> Fresh {
    database_of(rt, alloc, empty_pages(alloc))
}

// The tree of a name, which has the operator that adds.
fn tree_of<R: Abort>(rt: &R, db: &mut Fresh, name: &[u8]) -> Tree {
    let tree = db.open_tree(name).expect(rt, "a tree");
    db.set_merge_operator(&tree, Adds).expect(rt, "an operator");
    tree
}

// Inserts so many keys, from 0 up, each with itself as its value, and takes so many of the last out again.
fn fill<R: Abort>(rt: &R, db: &mut Fresh, tree: &Tree, keys: u8, taken: u8) {
    for key in 0..keys {
        drop(db.insert(tree, &[key], &[key]).expect(rt, "memory"));
    }
    for key in 0..taken {
        let last = keys.wrapping_sub(key).wrapping_sub(1);
        drop(db.remove(tree, &[last]).expect(rt, "memory"));
    }
}

/// What callers begin with on this tree.
pub fn new_scene(alloc: Global, tree: Tree, moves: u64) -> Scene {
    Scene {
        alloc,
        tree,
        moves,
        ready: AtomicU64::new(0),
        count: AtomicU64::new(0),
        answered: AtomicU64::new(0),
        ended: AtomicU64::new(0),
        slot: AtomicU64::new(0),
        before: AtomicU64::new(0),
        after: AtomicU64::new(0),
        id: AtomicU64::new(0),
        vain: AtomicU64::new(0),
    }
}

/// The database, shared by so many callers: whether it is flushed then, and whether what scans do is noted.
pub fn share<L: Ledger, R: Wait + Abort>(
    rt: &R,
    alloc: Global,
    db: Fresh,
    blank: Blank,
    callers: u64,
    flushes: bool,
    notes_scans: bool,
) -> Shared<L>
where
    requires name { blank.name ≡ L.name }
    requires parts { blank.parts ≡ L.parts }
    requires each { blank.parts ≡ callers + 1 }
{
    let shared = if flushes {
        shared::Db::<MemPages, L, Adds>::new_flushed(rt, alloc, db, blank, callers, notes_scans)
    } else if notes_scans {
        shared::Db::<MemPages, L, Adds>::new_noting_scans(rt, alloc, db, blank, callers)
    } else {
        shared::Db::<MemPages, L, Adds>::new(rt, alloc, db, blank, callers)
    };
    match shared {
        Ok(shared) => shared,
        Err(_) => panic!(rt; "not shared"),
    }
}

// A handle for each of so many callers, which has the next number. No other comes.
fn handles_of<L: Ledger, R: Abort>(
    rt: &R,
    alloc: Global,
    shared: &mut Shared<L>,
    callers: u64,
) -> Vec<Way<L>> {
    let mut handles = Vec::new(alloc);
    for number in 1..=callers {
        match shared.handle(alloc) {
            Ok(handle) => {
                let is_next = handle.number() == number;
                require(rt, is_done(handles.push(handle)) && is_next, "the next");
            }
            Err(_) => panic!(rt; "no handle"),
        }
    }
    require(rt, !is_done(shared.handle(alloc)), "no caller more");
    handles
}

// All callers work, each in a thread.
fn work_beside<L: Ledger + Send + Sync, R: Threads + Wait + Abort + Sync>(
    rt: &R,
    scene: &Scene,
    trial: &Trial<'_>,
    handles: &mut [Way<L>],
) {
    let threads = handles.len();
    if threads > 0 {
        for_each_mut(
            rt,
            handles,
            threads,
            &|_, handle| { trial.work(scene, handle.number(), &mut Seat { rt, scene, handle }) },
        );
    }
}

/// The state, if these are all handles.
pub fn gathered<L: Ledger, R: Wait + Abort>(
    rt: &R,
    shared: Shared<L>,
    handles: Vec<Way<L>>,
) -> Gathered<L> {
    match shared.gather(rt, handles) {
        Ok(state) => state,
        Err(_) => panic!(rt; "not gathered"),
    }
}

// The state, once the last handle is there too, before the others.
fn gathered_with<L: Ledger, R: Wait + Abort>(
    rt: &R,
    shared: Shared<L>,
    handles: Vec<Way<L>>,
    last: Way<L>,
) -> Gathered<L> {
    let mut handles = handles;
    require(rt, is_done(handles.insert(0, last)), "memory");
    gathered(rt, shared, handles)
}

// The state: first without the last handle, when all is given back, and then with it. If no handle was made none is wanted.
fn gathered_late<L: Ledger, R: Wait + Abort>(
    rt: &R,
    shared: Shared<L>,
    handles: Vec<Way<L>>,
) -> Gathered<L> {
    let mut handles = handles;
    let Some(last) = handles.pop() else {
        return gathered(rt, shared, handles);
    };
    match shared.gather(rt, handles) {
        Ok(_) => panic!(rt; "gathered too early"),
        Err((shared, handles)) => gathered_with(rt, shared, handles, last),
    }
}

// Whether the call of this slot, if there is one, was left unstepped.
fn is_left(slot: &AtomicU64, machine: &Machine<MemPages, Adds>) -> bool {
    let slot = slot.load(Ordering::SeqCst);
    slot == 0 || matches!(machine.turns(Slot(slot)), Some(0))
}

// How many pairs these have together.
fn count_pairs(collections: &[Collection]) -> usize {
    let mut pairs = 0usize;
    for collection in collections {
        pairs = pairs.wrapping_add(collection.2.len());
    }
    pairs
}

// Whether there are as many trees as there were at the start, with as many pairs together.
fn began_so(start: Start, opening: &[Collection]) -> bool {
    opening.len() == start.trees && count_pairs(opening) == start.pairs()
}

// Whether a flush was made.
fn has_flush(history: &[Entry]) -> bool {
    for entry in history {
        if let Made::Whole(Whole::Flush, _) = &entry.made {
            return true;
        }
    }
    false
}

// How many pairs a crash leaves that keeps nothing since the last flush.
fn pairs_left<R: Abort>(rt: &R, alloc: Global, machine: Machine<MemPages, Adds>) -> usize {
    machine.audit();
    let left = crash_pages(machine.into_db().into_pages(), 0).expect(rt, "memory");
    let db = database_of(rt, alloc, left);
    let collections = db.export().expect(rt, "memory");
    drop(db);
    let pairs = count_pairs(collections.as_slice());
    drop(collections);
    pairs
}

// Whether the database of the machine has just the pairs of a plain map.
fn is_left_so<R: Abort>(rt: &R, machine: &Machine<MemPages, Adds>, map: &Plain) -> bool {
    let collections = machine.db().export().expect(rt, "memory");
    let same = has_just(map, collections.as_slice());
    drop(collections);
    same
}

// What a plain map has after it made the calls of the callers.
fn remade<L: Ledger, R: Abort>(
    rt: &R,
    scene: &Scene,
    trial: &Trial<'_>,
    state: &Gathered<L>,
) -> Plain {
    let (opening, history) = (state.opening(), state.history());
    let well = began_so(trial.start, opening) && trial.passes(scene, history);
    require(rt, well, "what was there, and what callers made");
    match replayed(rt, scene.alloc, opening, history) {
        Some(map) => map,
        None => panic!(rt; "a plain map replies otherwise"),
    }
}

// Looks at what callers made: a plain map makes the same of the calls, and has what the database has then.
fn look<L: Ledger, R: Abort>(rt: &R, scene: &Scene, trial: &Trial<'_>, state: Gathered<L>) {
    let mut state = state;
    // Another tree than that of the beginning may be dropped.
    if trial.start.trees == 1 {
        begin_and_abandon(rt, scene, &mut state);
    }
    let map = remade(rt, scene, trial, &state);
    let length = state.history().len() as u64;
    let scanned = trial.has_scans(state.keeps_scans(), state.scans(), length);
    require(rt, scanned, "what scans did");
    let flushed = has_flush(state.history());
    let machine = state.machine();
    let same = is_left_so(rt, machine, &map);
    let left = is_left(&scene.before, machine) && is_left(&scene.after, machine);
    drop(map);
    require(rt, same && left, "the same pairs, and unstepped calls");
    let pairs = pairs_left(rt, scene.alloc, state.into_machine());
    let durable = if trial.start.flushed {
        trial.start.pairs()
    } else {
        0
    };
    require(
        rt,
        flushed || pairs == durable,
        "what was flushed as it was shared, and no call but a flush flushes",
    );
}

// Has so many callers work on a database.
fn try_among<L: Ledger + Send + Sync, R: Threads + Wait + Abort + Sync>(
    rt: &R,
    scene: &Scene,
    db: Fresh,
    blank: Blank,
    callers: u64,
    trial: &Trial<'_>,
)
where
    requires name { blank.name ≡ L.name }
    requires parts { blank.parts ≡ L.parts }
    requires each { blank.parts ≡ callers + 1 }
{
    let (flushes, notes) = (trial.start.flushed, trial.scanned.is_some());
    let mut shared = share::<L, R>(rt, scene.alloc, db, blank, callers, flushes, notes);
    let mut handles = handles_of(rt, scene.alloc, &mut shared, callers);
    work_beside(rt, scene, trial, handles.as_mut_slice());
    let state = gathered_late(rt, shared, handles);
    look(rt, scene, trial, state);
}

// The database, once its handles were lost.
fn reclaimed<L: Ledger, R: Wait + Abort>(rt: &R, shared: Shared<L>) -> Gathered<L> {
    match shared.reclaim(rt) {
        Ok(state) => state,
        Err(_) => panic!(rt; "not reclaimed"),
    }
}

// The database, since some handle is left.
fn kept<L: Ledger, R: Wait + Abort>(rt: &R, shared: Shared<L>) -> Shared<L> {
    match shared.reclaim(rt) {
        Ok(_) => panic!(rt; "reclaimed too early"),
        Err(shared) => shared,
    }
}

// A caller inserts its number, and its handle is lost then.
fn lose<L: Ledger, R: Wait + Abort>(
    rt: &R,
    scene: &Scene,
    shared: Shared<L>,
    handle: Way<L>,
) -> Shared<L> {
    let mut handle = handle;
    let key = handle.number().to_be_bytes();
    let told = told_of(rt, scene, &mut handle, Ask::Insert(&key, &key));
    require(rt, told == Told::NoValue, "a new key");
    let shared = kept(rt, shared);
    drop(handle);
    shared
}

// Has two callers insert on a database, each of which loses its handle then. The state can be taken once both are lost.
fn lose_among<L: Ledger, R: Wait + Abort>(
    rt: &R,
    scene: &Scene,
    db: Fresh,
    blank: Blank,
    trial: &Trial<'_>,
)
where
    requires name { blank.name ≡ L.name }
    requires parts { blank.parts ≡ L.parts }
    requires each { blank.parts ≡ 3 }
{
    let (flushes, notes) = (trial.start.flushed, trial.scanned.is_some());
    let mut shared = share::<L, R>(rt, scene.alloc, db, blank, 2, flushes, notes);
    let mut handles = handles_of(rt, scene.alloc, &mut shared, 2);
    let (Some(one), Some(other)) = (handles.pop(), handles.pop()) else {
        panic!(rt; "no handle")
    };
    drop(handles);
    let shared = lose(rt, scene, shared, one);
    let shared = lose(rt, scene, shared, other);
    look(rt, scene, trial, reclaimed(rt, shared));
}

/// Has two callers insert, each of which loses its handle then, and looks at what comes of it.
pub fn lose_all<R: Wait + Abort>(rt: &R, alloc: Global, trial: &Trial<'_>) {
    let mut db = new_database(rt, alloc);
    let tree = tree_of(rt, &mut db, trial.start.name);
    let scene = new_scene(alloc, tree, 0);
    lose_among::<Brand, _>(rt, &scene, db, Blank::new(3), trial);
    drop(scene);
}

/// Makes the trial: has its callers work on a database, each in a thread, and looks at what comes of it.
pub fn try_out<R: Threads + Wait + Abort + Sync>(rt: &R, alloc: Global, trial: &Trial<'_>) {
    let mut db = new_database(rt, alloc);
    let start = trial.start;
    let tree = tree_of(rt, &mut db, start.name);
    fill(rt, &mut db, &tree, start.keys, start.taken);
    if start.watched {
        drop(db.watch_prefix(&tree, b"").expect(rt, "a subscriber"));
    }
    let scene = new_scene(alloc, tree, trial.moves);
    let callers = u64::from(trial.callers);
    let blank = Blank::new(callers + 1);
    try_among::<Brand, _>(rt, &scene, db, blank, callers, trial);
    drop(scene);
}
