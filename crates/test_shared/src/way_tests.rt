//! The whole way of a number that three threads raise.
ghost use Rattle.std.specs.Prelude.{◌≡◌};

use crate::beside::{Fresh, Gathered, new_database, require};
use example_shared::raise_together;
use sled_machine::shared::Blank;
use sled_model::Tree;
use std::alloc::Global;
use std::marker::Brand;
use std::process::Abort;
use std::sync::Wait;
use std::sync::ledger::Ledger;
use std::thread::Threads;

// So many threads raise the number, each so often.
const CALLERS: u64 = 3;

const TIMES: u64 = 40;

fn are_same(one: &[u8], other: &[u8]) -> bool {
    one == other
}

// Looks at the number.
fn look<L: Ledger, R: Abort>(rt: &R, state: Gathered<L>, tree: &Tree) {
    let value = state.machine().db().get(tree, b"hits").expect(rt, "a read");
    drop(state);
    let Some(value) = value else {
        panic!(rt; "no number")
    };
    let same = are_same(value.as_ref(), &(CALLERS * TIMES).to_be_bytes());
    require(rt, same, "as many as all raises together");
    drop(value);
}

// All threads raise the number.
fn raised<L: Ledger + Send + Sync, R: Threads + Wait + Abort + Sync>(
    rt: &R,
    alloc: Global,
    db: Fresh,
    blank: Blank,
    at_once: bool,
)
where
    requires name { blank.name ≡ L.name }
    requires parts { blank.parts ≡ L.parts }
    requires each { blank.parts ≡ 4 }
{
    let tree = db.default_tree().expect(rt, "a tree");
    match raise_together::<L, _, R>(
        rt, alloc, db, blank, CALLERS, &tree, b"hits", TIMES, at_once,
    ) {
        Ok(state) => look(rt, state, &tree),
        Err(_) => panic!(rt; "not raised"),
    }
    drop(tree);
}

// Three threads raise a number of a new database.
fn raise_all<R: Threads + Wait + Abort + Sync>(rt: &R, alloc: Global, at_once: bool) {
    raised::<Brand, R>(rt, alloc, new_database(rt, alloc), Blank::new(4), at_once);
}

#[test]
fn a_number_is_raised_by_all(rt: HostRuntime) {
    raise_all(&rt, rt.alloc(), false);
}

#[test]
fn a_number_is_raised_by_transactions(rt: HostRuntime) {
    raise_all(&rt, rt.alloc(), true);
}
