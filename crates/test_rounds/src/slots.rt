//! Calls in slots, which callers hand over to each other.
use crate::caller::{Book, Way, call_of, tree_of};
use crate::scene::Scene;
use crate::text::Text;
use sled::{Call, Outcome, Slot, Tree};
use sled_nodes::Result;
use std::ops::Bound;
use std::sync::Wait;
use std::sync::ledger::Ledger;

// The scan that a number chooses.
fn scan_of(scene: &Scene, choice: u64) -> Result<Call> {
    let (one, other) = (scene.plan.key(choice >> 8), scene.plan.key(choice >> 16));
    let lo: Bound<&[u8]> = match choice >> 40 & 3 {
        0 => Bound::Included(&one),
        1 => Bound::Excluded(&one),
        _ => Bound::Unbounded,
    };
    let hi: Bound<&[u8]> = match choice >> 42 & 3 {
        0 => Bound::Included(&other),
        1 => Bound::Excluded(&other),
        _ => Bound::Unbounded,
    };
    Call::scan(scene.plan.alloc, lo, hi, choice >> 44 & 1 == 1)
}

// Begins a call. Its slot, or 0.
fn begin_call<L: Ledger, R: Wait>(
    rt: &R,
    scene: &Scene,
    way: &mut Way<L>,
    text: &mut Text,
    tree: &Tree,
    call: Call,
) -> u64 {
    scene.before(text);
    text.text(b" begin");
    text.call(tree, &call);
    match way.begin(rt, tree, call) {
        Ok(slot) => {
            scene.ended(text, Outcome::Begun(slot));
            slot.0
        }
        Err(e) => {
            scene.ended(text, Outcome::Refused(e));
            0
        }
    }
}

// Begins the call that a number chooses, which the caller holds then.
fn begin<L: Ledger, R: Wait>(
    rt: &R,
    scene: &Scene,
    way: &mut Way<L>,
    book: &mut Book,
    choice: u64,
) {
    let Book {
        text,
        side,
        held,
        ..
    } = book;
    let made = if choice >> 45 & 1 == 0 {
        scan_of(scene, choice)
    } else {
        call_of(&scene.plan, choice)
    };
    match made {
        Ok(call) => {
            *held = begin_call(rt, scene, way, text, tree_of(scene, side, choice), call);
        }
        Err(e) => {
            drop(e);
            text.cut();
        }
    }
}

// One step of the call in a slot. Whether the slot is gone.
fn step<L: Ledger, R: Wait>(
    rt: &R,
    scene: &Scene,
    way: &mut Way<L>,
    text: &mut Text,
    slot: u64,
) -> bool {
    scene.before(text);
    text.number(b" step ", slot);
    let outcome = way.step(rt, Slot(slot));
    let goes_on = matches!(&outcome, Outcome::Moved | Outcome::Yielded(_, _));
    scene.ended(text, outcome);
    !goes_on
}

// So many steps of the call that is held.
fn steps<L: Ledger, R: Wait>(rt: &R, scene: &Scene, way: &mut Way<L>, book: &mut Book, often: u64) {
    for _ in 0..often {
        if book.held == 0 {
            return;
        }
        if step(rt, scene, way, &mut book.text, book.held) {
            book.held = 0;
        }
    }
}

/// Goes on with the call that is held, or begins one, and hands it over, if so.
pub fn work<L: Ledger, R: Wait>(
    rt: &R,
    scene: &Scene,
    way: &mut Way<L>,
    book: &mut Book,
    choice: u64,
) {
    if book.held == 0 {
        begin(rt, scene, way, book, choice);
    }
    steps(rt, scene, way, book, choice >> 48 & 7);
    if choice >> 52 & 3 == 0 {
        book.held = scene.exchange(choice >> 54, book.held);
    }
}

/// One step of a call that was left for others, and stays so; or abandons the call that is held.
pub fn meddle<L: Ledger, R: Wait>(
    rt: &R,
    scene: &Scene,
    way: &mut Way<L>,
    book: &mut Book,
    choice: u64,
) {
    if choice >> 52 & 3 != 0 {
        step(rt, scene, way, &mut book.text, scene.look(choice >> 54));
        return;
    }
    let text = &mut book.text;
    scene.before(text);
    text.number(b" abandon ", book.held);
    scene.ended(text, way.abandon(rt, Slot(book.held)));
    book.held = 0;
}

/// Leaves the call that is held for others.
pub fn leave(scene: &Scene, book: &mut Book, choice: u64) {
    if book.held != 0 {
        scene.exchange(choice >> 54, book.held);
        book.held = 0;
    }
}

/// Begins a call, which is left in flight.
pub fn begin_last<L: Ledger, R: Wait>(
    rt: &R,
    scene: &Scene,
    way: &mut Way<L>,
    book: &mut Book,
    choice: u64,
) {
    leave(scene, book, choice);
    begin(rt, scene, way, book, choice);
    leave(scene, book, choice >> 1);
}
