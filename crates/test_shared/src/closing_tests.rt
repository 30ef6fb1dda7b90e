//! A store that refuses a call under a handle: the handle's call says so, and after a group that was refused midway each call says that the
//! database is closed.
ghost use Rattle.std.specs.Prelude.{◌≡◌};

use crate::asking::{Ask, Told, told_of};
use crate::beside::{Fresh, Scene, Way, gathered, new_scene, require, share};
use sled::{Db, Pages, empty_pages};
use sled_machine::shared::Blank;
use std::alloc::Global;
use std::marker::Brand;
use std::process::Abort;
use std::sync::Wait;
use std::sync::ledger::Ledger;

// The store refuses one call, whose number is at most this: one of the opening, of an insert, of a group or of an insert after it.
const CALLS: u64 = 30;

/// What was seen: an insert that was refused, after which the database went on; a database that was closed.
#[derive(Clone, Copy)]
struct Seen {
    refused: bool,
    closed: bool,
}

// A database whose store refuses the call of this number, if it could be opened.
fn opened<R: Abort>(rt: &R, alloc: Global, number: u64) -> Option<Fresh> {
    let mut pages = empty_pages(alloc);
    pages.refuse_at(&[number]).expect(rt, "memory");
    match Db::open(alloc, pages, b"closing") {
        Ok(db) => Some(db.with_operators()),
        Err((pages, error)) => {
            drop(pages);
            drop(error);
            None
        }
    }
}

const CLOSED: [Ask<'static>; 13] = [
    Ask::Get(b"a"),
    Ask::Insert(b"a", b"1"),
    Ask::Look(b"a"),
    Ask::Len,
    Ask::Names,
    Ask::Export,
    Ask::Update(b"a"),
    Ask::Transact(b"a", b"1"),
    Ask::TransactAll(b"a", b"1"),
    Ask::PopMin,
    Ask::Group(b"a", b"1"),
    Ask::OpenTree(b"other"),
    Ask::Flush,
];

// Whether each call says that the database is closed, and none is added to the list.
fn is_closed<L: Ledger, R: Wait + Abort>(rt: &R, scene: &Scene, one: &mut Way<L>) -> bool {
    let before = one.made().len();
    for ask in &CLOSED {
        if told_of(rt, scene, one, *ask) != Told::Closed {
            return false;
        }
    }
    one.made().len() == before
}

// An insert, a group, and an insert after it. One of them may be refused, and is not added to the list then.
fn look<L: Ledger, R: Wait + Abort>(rt: &R, scene: &Scene, one: &mut Way<L>) -> Seen {
    let first = told_of(rt, scene, one, Ask::Insert(b"a", b"1"));
    let group = told_of(rt, scene, one, Ask::Group(b"b", b"2"));
    let last = told_of(rt, scene, one, Ask::Insert(b"c", b"3"));
    let closed = last == Told::Closed;
    let refused = [first, group, last]
        .iter()
        .filter(|told| **told == Told::Io)
        .count();
    let lost = if closed {
        refused.wrapping_add(1)
    } else {
        refused
    };
    require(rt, refused <= 1, "one refusal");
    require(
        rt,
        one.made().len().wrapping_add(lost) == 3,
        "what was made",
    );
    require(
        rt,
        !closed || group == Told::Io && is_closed(rt, scene, one),
        "closed for each call",
    );
    Seen {
        refused: first == Told::Io && last == Told::NoValue,
        closed,
    }
}

fn share_and_look<L: Ledger, R: Wait + Abort>(
    rt: &R,
    alloc: Global,
    db: Fresh,
    blank: Blank,
) -> Seen
where
    requires name { blank.name ≡ L.name }
    requires parts { blank.parts ≡ L.parts }
    requires each { blank.parts ≡ 2 }
{
    let scene = new_scene(alloc, db.default_tree().expect(rt, "a tree"), 0);
    let mut shared = share::<L, R>(rt, alloc, db, blank, 1, false, false);
    let mut one = shared.handle(alloc).expect(rt, "a handle");
    let seen = look(rt, &scene, &mut one);
    let handles = vec![in alloc; one].expect(rt, "memory");
    let state = gathered(rt, shared, handles);
    let is_open = !state.machine().db().pages().in_group();
    require(rt, seen.closed != is_open, "open, if it is not closed");
    drop(state);
    drop(scene);
    seen
}

// On a database whose store refuses the call of this number.
fn look_at<R: Wait + Abort>(rt: &R, alloc: Global, number: u64) -> Seen {
    match opened(rt, alloc, number) {
        Some(db) => share_and_look::<Brand, R>(rt, alloc, db, Blank::new(2)),
        None => Seen {
            refused: false,
            closed: false,
        },
    }
}

#[test]
fn a_refused_group_closes_the_database(rt: HostRuntime) {
    let (mut refused, mut closed) = (false, false);
    for number in 1..=CALLS {
        let seen = look_at(&rt, rt.alloc(), number);
        refused = refused || seen.refused;
        closed = closed || seen.closed;
    }
    require(&rt, refused && closed, "both were seen");
}
