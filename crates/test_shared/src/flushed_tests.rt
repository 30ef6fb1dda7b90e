//! A database that is flushed as it is shared: a crash leaves what it had then. If its flush is refused it comes back, with all that it had.
ghost use Rattle.std.specs.Prelude.{◌≡◌};

use crate::asking::{Ask, Told};
use crate::beside::{Fresh, Shared, require, try_out};
use crate::trial::{Start, TWO_CALLERS, Trial, Wanted};
use crate::turns::{Signal, Turn};
use example_parts::Adds;
use sled::{Db, MemPages, crash_pages, empty_pages};
use sled_machine::shared;
use sled_machine::shared::Blank;
use sled_model::Tree;
use sled_nodes::Error;
use std::alloc::Global;
use std::marker::Brand;
use std::process::Abort;
use std::sync::Wait;
use std::sync::ledger::Ledger;

// The store refuses one call, whose number is at most this: one of the opening, of an insert or of a flush.
const CALLS: u64 = 12;

// A database whose store refuses the calls of these numbers, if it could be opened.
fn opened<R: Abort>(rt: &R, alloc: Global, refused: &[u64]) -> Option<Fresh> {
    let mut pages = empty_pages(alloc);
    pages.refuse_at(refused).expect(rt, "memory");
    match Db::open(alloc, pages, b"flushed") {
        Ok(db) => Some(db.with_operators()),
        Err((pages, error)) => {
            drop(pages);
            drop(error);
            None
        }
    }
}

// Whether a key is there.
fn has<R: Abort>(rt: &R, db: &Fresh, key: &[u8]) -> bool {
    let tree = db.default_tree().expect(rt, "a tree");
    let has = db.contains_key(&tree, key).expect(rt, "a read");
    drop(tree);
    has
}

// Sets a key that is not flushed, and says whether it is set.
fn set<R: Abort>(rt: &R, db: &mut Fresh, key: &[u8]) -> bool {
    let tree = db.default_tree().expect(rt, "a tree");
    let was_set = db.insert(&tree, key, b"1").is_ok();
    drop(tree);
    was_set
}

// Whether the keys of before and after the sharing are there, once a crash kept no action since the last flush.
fn left_of<R: Abort>(rt: &R, alloc: Global, db: Fresh) -> (bool, bool) {
    let left = crash_pages(db.into_pages(), 0).expect(rt, "memory");
    match Db::open(alloc, left, b"flushed") {
        Ok(db) => {
            let db = db.with_operators();
            let there = (has(rt, &db, b"before"), has(rt, &db, b"after"));
            drop(db);
            there
        }
        Err(_) => panic!(rt; "not opened"),
    }
}

// A caller sets another key, and the store crashes.
fn set_and_crash<L: Ledger, R: Wait + Abort>(
    rt: &R,
    alloc: Global,
    shared: Shared<L>,
    tree: &Tree,
) -> (bool, bool) {
    let mut shared = shared;
    let mut one = shared.handle(alloc).expect(rt, "a handle");
    drop(one.insert(rt, alloc, tree, b"after", b"2"));
    drop(one);
    match shared.reclaim(rt) {
        Ok(state) => left_of(rt, alloc, state.into_machine().into_db()),
        Err(_) => panic!(rt; "not taken out"),
    }
}

// What a crash leaves of a database that was shared, flushed or not.
fn go<L: Ledger, R: Wait + Abort>(
    rt: &R,
    alloc: Global,
    blank: Blank,
    flushes: bool,
) -> (bool, bool)
where
    requires name { blank.name ≡ L.name }
    requires parts { blank.parts ≡ L.parts }
    requires each { blank.parts ≡ 2 }
{
    let mut db = opened(rt, alloc, &[]).expect(rt, "a database");
    require(rt, set(rt, &mut db, b"before"), "an insert");
    let tree = db.default_tree().expect(rt, "a tree");
    let shared = if flushes {
        shared::Db::<MemPages, L, Adds>::new_flushed(rt, alloc, db, blank, 1, false)
    } else {
        shared::Db::<MemPages, L, Adds>::new(rt, alloc, db, blank, 1)
    };
    match shared {
        Ok(shared) => {
            let left = set_and_crash(rt, alloc, shared, &tree);
            drop(tree);
            left
        }
        Err(_) => panic!(rt; "not shared"),
    }
}

fn go_on<R: Wait + Abort>(rt: &R, alloc: Global, flushes: bool) -> (bool, bool) {
    go::<Brand, R>(rt, alloc, Blank::new(2), flushes)
}

#[test]
fn a_crash_leaves_what_was_flushed_as_it_was_shared(rt: HostRuntime) {
    let alloc = rt.alloc();
    let flushed = go_on(&rt, alloc, true);
    require(&rt, flushed == (true, false), "what it had then");
    let unflushed = go_on(&rt, alloc, false);
    require(&rt, unflushed == (false, false), "nothing of it");
}

// It keeps its trees, their operators and its subscribers, and scans are noted.
const ALL_KEPT: [Turn<'static>; 8] = [
    Turn::Ask(Ask::AddOne(&[9]), Told::Value(1)),
    Turn::Ask(Ask::AddOne(&[9]), Told::Value(2)),
    Turn::Ask(Ask::Next(1), Told::Event(9)),
    Turn::Begin(Ask::Scan, Signal::Slot),
    Turn::Step(Told::Moved),
    Turn::Step(Told::Pair(0)),
    Turn::Step(Told::Pair(9)),
    Turn::Step(Told::End),
];

const KEPT: Trial<'static> = Trial {
    start: Start {
        name: b"t",
        trees: 2,
        keys: 3,
        taken: 2,
        watched: true,
        flushed: true,
    },
    callers: 1,
    first: &ALL_KEPT,
    wanted: Wanted::Calls(3, &[]),
    scanned: Some(2),
    ..TWO_CALLERS
};

#[test]
fn what_is_flushed_as_it_is_shared_keeps_all(rt: HostRuntime) {
    try_out(&rt, rt.alloc(), &KEPT);
}

// Whether the flush is refused where the store refuses the call of this number, and the database comes back with all that it had.
fn is_refused<L: Ledger, R: Wait + Abort>(rt: &R, alloc: Global, blank: Blank, number: u64) -> bool
where
    requires name { blank.name ≡ L.name }
    requires parts { blank.parts ≡ L.parts }
    requires each { blank.parts ≡ 2 }
{
    let Some(mut db) = opened(rt, alloc, &[number]) else {
        drop(blank);
        return false;
    };
    if !set(rt, &mut db, b"before") {
        drop(blank);
        drop(db);
        return false;
    }
    match shared::Db::<MemPages, L, Adds>::new_flushed(rt, alloc, db, blank, 1, false) {
        Ok(shared) => {
            drop(shared);
            false
        }
        Err((db, error)) => {
            let came_back = matches!(&error, Error::Io(_)) && has(rt, &db, b"before");
            drop(db);
            drop(error);
            require(rt, came_back, "the database, and why");
            true
        }
    }
}

fn is_refused_on<R: Wait + Abort>(rt: &R, alloc: Global, number: u64) -> bool {
    is_refused::<Brand, R>(rt, alloc, Blank::new(2), number)
}

#[test]
fn a_database_whose_flush_is_refused_comes_back(rt: HostRuntime) {
    let mut refused = false;
    for number in 1..=CALLS {
        refused = is_refused_on(&rt, rt.alloc(), number) || refused;
    }
    require(&rt, refused, "one call is the flush");
}
