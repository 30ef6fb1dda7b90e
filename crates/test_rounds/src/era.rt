//! What becomes of a database from its opening to a crash: it is shared once, or twice, and what the crash leaves is opened.
ghost use Rattle.std.specs.Prelude.{◌≡◌, ◌+◌, false};
ghost use Rattle.sled_pages.specs.Memory.{store_of};
ghost use Rattle.sled_store.specs.Store.{now};
ghost use Rattle.tree_laws.specs.Crashes.{IsValid};

use crate::round::{Ending, Gathered, round};
use crate::scene::{Plan, Scene};
use crate::text::Text;
use example_parts::Adds;
use sled::{Db, MemPages, Result, crash_pages, empty_pages};
use sled_machine::Machine;
use sled_machine::shared::{self, Blank};
use std::alloc::Global;
use std::sync::Wait;
use std::sync::ledger::Ledger;
use std::thread::Threads;

/// A database in memory, whose merge operators add.
pub type Fresh = Db<MemPages, Adds>;

/// What is done with a database that was opened: whether it is flushed as it is shared, whether it is shared twice, how each round ends,
/// and how many actions the crash keeps.
#[derive(Clone, Copy)]
pub struct Fate {
    pub flushes: bool,
    pub again: bool,
    pub first: Ending,
    pub second: Ending,
    pub keep: usize,
}

// Gives the first tree its operator, and takes an id.
fn prepare(db: &mut Fresh) -> Result<u64> {
    let tree = db.default_tree()?;
    let set = db.set_merge_operator(&tree, Adds);
    drop(tree);
    set?;
    db.generate_id()
}

// Adds all pairs, if they can be read.
fn tell_pairs(all: &mut Text, text: &[u8], db: &Fresh) {
    match db.export() {
        Ok(trees) => {
            all.collections(text, trees.as_slice());
            all.text(b"\n");
            drop(trees);
        }
        Err(e) => {
            drop(e);
            all.cut();
        }
    }
}

// Opens pages, and adds what is there.
fn open(alloc: Global, all: &mut Text, pages: MemPages) -> Option<Fresh>
    requires well { IsValid (now (store_of pages)) }
    requires no_group { (now (store_of pages)).in_group ≡ false }
{
    match Db::open(alloc, pages, b"rounds") {
        Ok(db) => {
            let mut db = db.with_operators::<Adds>();
            match prepare(&mut db) {
                Ok(id) => all.number(b"id ", id),
                Err(e) => {
                    drop(e);
                    all.cut();
                }
            }
            tell_pairs(all, b"\nopened ", &db);
            Some(db)
        }
        Err(refused) => {
            drop(refused);
            None
        }
    }
}

/// A new database, and what is there.
pub fn open_new(alloc: Global, all: &mut Text) -> Option<Fresh> {
    open(alloc, all, empty_pages(alloc))
}

// Crashes, and opens what is left.
fn crash(
    alloc: Global,
    all: &mut Text,
    machine: Machine<MemPages, Adds>,
    keep: usize,
) -> Option<Fresh> {
    machine.audit();
    all.number(b"crash ", keep as u64);
    all.text(b"\n");
    match crash_pages(machine.into_db().into_pages(), keep) {
        Ok(left) => open(alloc, all, left),
        Err(e) => {
            drop(e);
            None
        }
    }
}

// Adds the history, what scans did, and all pairs, and crashes.
fn ended<L: Ledger>(
    alloc: Global,
    all: &mut Text,
    state: Gathered<L>,
    keep: usize,
) -> Option<Fresh> {
    all.history(state.history());
    all.scans(state.scans(), state.keeps_scans());
    tell_pairs(all, b"left ", state.machine().db());
    crash(alloc, all, state.into_machine(), keep)
}

// Sets a pair, and flushes nothing.
fn set(scene: &Scene, all: &mut Text, db: &mut Fresh) {
    let plan = scene.plan;
    let (key, value) = (plan.key(plan.choice(0, 0)), [b'A' + (plan.seed % 26) as u8]);
    match db.insert(&scene.tree, &key, &value) {
        Ok(before) => drop(before),
        Err(e) => {
            drop(e);
            all.cut();
        }
    }
    all.pair(&key, &value);
    all.text(b"\n");
}

// The first round. What was set before the sharing is durable if that flushes.
fn share<L: Ledger + Send + Sync, R: Threads + Wait + Sync>(
    rt: &R,
    scene: &Scene,
    ending: Ending,
    flushes: bool,
    all: &mut Text,
    db: Fresh,
    blank: Blank,
) -> Option<Gathered<L>>
where
    requires name { blank.name ≡ L.name }
    requires parts { blank.parts ≡ L.parts }
    requires each { blank.parts ≡ scene.now.plan.callers + 1 }
{
    let (mut db, alloc, callers) = (db, scene.plan.alloc, u64::from(scene.plan.callers));
    let shared = if flushes {
        all.text(b"flushed");
        set(scene, all, &mut db);
        shared::Db::<MemPages, L, Adds>::new_flushed(rt, alloc, db, blank, callers, true)
    } else {
        all.text(b"unflushed");
        set(scene, all, &mut db);
        shared::Db::<MemPages, L, Adds>::new_noting_scans(rt, alloc, db, blank, callers)
    };
    match shared {
        Ok(shared) => round(rt, scene, ending, all, shared),
        Err(refused) => {
            drop(refused);
            None
        }
    }
}

// The second one, on what the first one left.
fn share_again<K: Ledger, L: Ledger + Send + Sync, R: Threads + Wait + Sync>(
    rt: &R,
    scene: &Scene,
    ending: Ending,
    all: &mut Text,
    state: Gathered<K>,
    blank: Blank,
) -> Option<Gathered<L>>
where
    requires name { blank.name ≡ L.name }
    requires parts { blank.parts ≡ L.parts }
    requires each { blank.parts ≡ scene.now.plan.callers + 1 }
{
    let callers = u64::from(scene.plan.callers);
    match shared::Db::<_, L, _>::share_again(rt, scene.plan.alloc, state, blank, callers) {
        Ok(shared) => round(rt, scene, ending, all, shared),
        Err(refused) => {
            drop(refused);
            None
        }
    }
}

// All rounds, and the crash.
fn run<K: Ledger + Send + Sync, L: Ledger + Send + Sync, R: Threads + Wait + Sync>(
    rt: &R,
    scene: &Scene,
    fate: Fate,
    all: &mut Text,
    db: Fresh,
    first: Blank,
    second: Blank,
) -> Option<Fresh>
where
    requires name { first.name ≡ K.name }
    requires parts { first.parts ≡ K.parts }
    requires each { first.parts ≡ scene.now.plan.callers + 1 }
    requires name_again { second.name ≡ L.name }
    requires parts_again { second.parts ≡ L.parts }
    requires each_again { second.parts ≡ scene.now.plan.callers + 1 }
{
    let alloc = scene.plan.alloc;
    let Some(state) = share::<K, R>(rt, scene, fate.first, fate.flushes, all, db, first) else {
        drop(second);
        return None;
    };
    if !fate.again {
        drop(second);
        return ended(alloc, all, state, fate.keep);
    }
    all.text(b"again\n");
    match share_again::<K, L, R>(rt, scene, fate.second, all, state, second) {
        Some(state) => ended(alloc, all, state, fate.keep),
        None => None,
    }
}

// What callers begin with.
fn scene_of(plan: Plan, db: &Fresh) -> Result<Scene> {
    Scene::new(plan, db.default_tree()?)
}

/// Shares a database that was opened, crashes, and opens what is left.
pub fn live<R: Threads + Wait + Sync>(
    rt: &R,
    plan: Plan,
    fate: Fate,
    all: &mut Text,
    db: Fresh,
) -> Option<Fresh> {
    match scene_of(plan, &db) {
        Ok(scene) => {
            let (first, second) = (
                Blank::new(u64::from(scene.plan.callers) + 1),
                Blank::new(u64::from(scene.plan.callers) + 1),
            );
            let left = run::<std::marker::Brand, std::marker::Brand, R>(
                rt, &scene, fate, all, db, first, second,
            );
            drop(scene);
            left
        }
        Err(e) => {
            drop(e);
            drop(db);
            None
        }
    }
}
