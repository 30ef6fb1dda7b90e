//! A state that is shared again: its pairs are there, its history, the calls in flight in it and what its scans did go on, and so do the
//! numbers of its callers.
ghost use Rattle.std.specs.Prelude.{◌≡◌};

use crate::asking::{Told, noted, outcome_told, value_told};
use crate::beside::{Fresh, Gathered, Way, gathered, new_database, require, share};
use sled_machine::shared::{Blank, Entry, Made, ScanNote, Scanned};
use sled_machine::{Call, Outcome, Slot, Tree, shared};
use std::alloc::Global;
use std::marker::Brand;
use std::ops::Bound;
use std::process::Abort;
use std::sync::Wait;
use std::sync::ledger::Ledger;

fn is_decided(outcome: Outcome) -> bool {
    let decided = matches!(&outcome, Outcome::Decided(_));
    drop(outcome);
    decided
}

// Shares a database with one caller, which inserts, begins a call, and gives its handle back.
fn begun<L: Ledger, R: Wait + Abort>(
    rt: &R,
    alloc: Global,
    db: Fresh,
    blank: Blank,
    tree: &Tree,
) -> (Gathered<L>, Slot, Slot)
where
    requires name { blank.name ≡ L.name }
    requires parts { blank.parts ≡ L.parts }
    requires each { blank.parts ≡ 2 }
{
    let mut shared = share::<L, R>(rt, alloc, db, blank, 1, false, true);
    let mut one: Way<L> = shared.handle(alloc).expect(rt, "a handle");
    require(
        rt,
        is_decided(one.insert(rt, alloc, tree, b"a", b"1")),
        "an insert",
    );
    let call = Call::get(alloc, b"a").expect(rt, "memory");
    let slot = one.begin(rt, tree, call).expect(rt, "a slot");
    let call = Call::scan(alloc, Bound::Unbounded, Bound::Unbounded, false).expect(rt, "memory");
    let scan = one.begin(rt, tree, call).expect(rt, "a slot");
    require(
        rt,
        outcome_told(one.step(rt, scan)) == Told::Moved,
        "it reads the leaf",
    );
    let handles = vec![in alloc; one].expect(rt, "memory");
    (gathered(rt, shared, handles), slot, scan)
}

// The caller of before, and then the new one, who read and finished the call.
fn are_in_order(history: &[Entry]) -> bool {
    match history {
        [insert, read, get] => {
            let both = matches!(&read.made, Made::Read(_)) && noted(&get.made) == Told::Value(0x31);
            insert.by == 1 && read.by == 2 && get.by == 2 && both
        }
        _ => false,
    }
}

// A scan that began after one entry, and gave its pair and ended after three.
fn is_scanned(notes: &[ScanNote], scan: Slot) -> bool {
    match notes {
        [begun, gave, ended] => {
            let places = begun.at == 1 && gave.at == 3 && ended.at == 3;
            let slots = begun.slot == scan && gave.slot == scan && ended.slot == scan;
            let did = matches!(&begun.did, Scanned::Begun(_, _))
                && matches!(&gave.did, Scanned::Gave(_, _))
                && matches!(&ended.did, Scanned::Ended);
            places && slots && did
        }
        _ => false,
    }
}

fn look<L: Ledger, R: Abort>(rt: &R, state: Gathered<L>, scan: Slot) {
    require(rt, state.opening().len() == 1, "one tree at first");
    require(
        rt,
        are_in_order(state.history()),
        "the caller of before, and then the new one",
    );
    let scanned = state.keeps_scans() && is_scanned(state.scans(), scan);
    require(rt, scanned, "what the scan did before and after");
    drop(state);
}

// What was there is there, and both calls go on in their slots.
fn go_on<L: Ledger, R: Wait + Abort>(
    rt: &R,
    alloc: Global,
    tree: &Tree,
    one: &mut Way<L>,
    (slot, scan): (Slot, Slot),
) {
    let value = value_told(one.get_now(rt, alloc, tree, b"a"));
    require(rt, value == Told::Value(0x31), "the value of before");
    let got = outcome_told(one.step(rt, slot));
    require(rt, got == Told::Value(0x31), "the call in its slot");
    let gave = outcome_told(one.step(rt, scan)) == Told::Pair(0x61);
    let ended = outcome_told(one.step(rt, scan)) == Told::End;
    require(rt, gave && ended, "the scan in its slot");
}

// Shares it again with one caller, whose number is the next, and which finishes the calls.
fn finish<L: Ledger, K: Ledger, R: Wait + Abort>(
    rt: &R,
    alloc: Global,
    state: Gathered<K>,
    blank: Blank,
    tree: &Tree,
    slots: (Slot, Slot),
)
where
    requires name { blank.name ≡ L.name }
    requires parts { blank.parts ≡ L.parts }
    requires each { blank.parts ≡ 2 }
{
    let (slot, scan) = slots;
    let Ok(mut shared) = shared::Db::<_, L, _>::share_again(rt, alloc, state, blank, 1) else {
        panic!(rt; "not shared")
    };
    let mut one: Way<L> = shared.handle(alloc).expect(rt, "a handle");
    require(rt, one.number() == 2, "the next number");
    require(rt, one.made().is_empty(), "nothing made yet");
    go_on(rt, alloc, tree, &mut one, (slot, scan));
    require(rt, one.made().len() == 2, "a read and a get");
    let handles = vec![in alloc; one].expect(rt, "memory");
    look(rt, gathered(rt, shared, handles), scan);
}

// Shares it, and then its state again.
fn share_both<K: Ledger, L: Ledger, R: Wait + Abort>(
    rt: &R,
    alloc: Global,
    db: Fresh,
    first: Blank,
    second: Blank,
)
where
    requires name { first.name ≡ K.name }
    requires parts { first.parts ≡ K.parts }
    requires each { first.parts ≡ 2 }
    requires name_again { second.name ≡ L.name }
    requires parts_again { second.parts ≡ L.parts }
    requires each_again { second.parts ≡ 2 }
{
    let tree = db.default_tree().expect(rt, "a tree");
    let (state, slot, scan) = begun::<K, R>(rt, alloc, db, first, &tree);
    finish::<L, K, R>(rt, alloc, state, second, &tree, (slot, scan));
    drop(tree);
}

// On a new database.
fn share_twice<R: Wait + Abort>(rt: &R, alloc: Global) {
    share_both::<Brand, Brand, R>(
        rt,
        alloc,
        new_database(rt, alloc),
        Blank::new(2),
        Blank::new(2),
    );
}

#[test]
fn a_state_is_shared_again(rt: HostRuntime) {
    share_twice(&rt, rt.alloc());
}
