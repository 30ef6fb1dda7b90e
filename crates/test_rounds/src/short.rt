//! Calls on a key by their short forms, a value that is read at once, and pages of a range one behind the other.
use crate::caller::{Book, Way, tree_of, value_of};
use crate::scene::Scene;
use crate::text::Text;
use sled::{IVec, Outcome, Reply, Tree};
use sled_machine::shared::{Pairs, RangePages};
use std::ops::Bound;
use std::sync::Wait;
use std::sync::ledger::Ledger;

// Adds a call on a key with a value.
fn begin_line(text: &mut Text, call: &[u8], tree: &Tree, key: &[u8], value: Option<&[u8]>) {
    text.on(call, tree, key);
    if let Some(value) = value {
        text.word(b" ", value);
    }
}

/// Makes the call that a number chooses by its short form.
pub fn short<L: Ledger, R: Wait>(
    rt: &R,
    scene: &Scene,
    way: &mut Way<L>,
    book: &mut Book,
    choice: u64,
) {
    let Book { text, side, .. } = book;
    let (alloc, tree) = (scene.plan.alloc, tree_of(scene, side, choice));
    let (key, value) = (scene.plan.key(choice >> 8), value_of(choice));
    scene.before(text);
    match choice >> 56 & 7 {
        0 | 1 => {
            begin_line(text, b" get ", tree, &key, None);
            scene.ended(text, way.get(rt, alloc, tree, &key));
        }
        2 | 3 => {
            begin_line(text, b" remove ", tree, &key, None);
            scene.ended(text, way.remove(rt, alloc, tree, &key));
        }
        4 => {
            begin_line(text, b" merge ", tree, &key, Some(&value));
            scene.ended(text, way.merge(rt, alloc, tree, &key, &value));
        }
        5 => {
            begin_line(text, b" swap ", tree, &key, Some(&value));
            text.text(b" -");
            scene.ended(
                text,
                way.compare_and_swap(rt, alloc, tree, &key, Some(&value), None),
            );
        }
        _ => {
            begin_line(text, b" insert ", tree, &key, Some(&value));
            scene.ended(text, way.insert(rt, alloc, tree, &key, &value));
        }
    }
}

/// Reads the value at a key at once.
pub fn look<L: Ledger, R: Wait>(
    rt: &R,
    scene: &Scene,
    way: &mut Way<L>,
    book: &mut Book,
    choice: u64,
) {
    let Book { text, side, .. } = book;
    let tree = tree_of(scene, side, choice);
    let key = scene.plan.key(choice >> 8);
    scene.before(text);
    text.on(b" get_now ", tree, &key);
    match way.get_now(rt, scene.plan.alloc, tree, &key) {
        Ok(value) => scene.ended(text, Outcome::Decided(Reply::Value(value))),
        Err(e) => scene.ended(text, Outcome::Refused(e)),
    }
}

// The last key of a page that is full; none if no other page follows.
fn last_of(text: &mut Text, page: &Pairs, most: usize) -> Option<IVec> {
    let pairs = page.as_slice();
    if pairs.len() < most {
        return None;
    }
    match pairs.last()?.0.clone() {
        Ok(key) => Some(key),
        Err(e) => {
            drop(e);
            text.cut();
            None
        }
    }
}

// Reads the next page, behind this key if there is one before. The last key of it, if another page follows.
fn read_page<L: Ledger, R: Wait>(
    rt: &R,
    scene: &Scene,
    way: &mut Way<L>,
    text: &mut Text,
    tree: &Tree,
    pages: &mut RangePages,
    last: Option<IVec>,
    back: bool,
    most: usize,
) -> Option<IVec> {
    let bound = match last {
        Some(key) => Bound::Excluded(key),
        None => Bound::Unbounded,
    };
    scene.before(text);
    if back {
        text.range(b" page ", tree, &Bound::Unbounded, &bound, true);
    } else {
        text.range(b" page ", tree, &bound, &Bound::Unbounded, false);
    }
    drop(bound);
    text.number(b" ", most as u64);
    match pages.next_page(rt, way) {
        Some(Ok(page)) => {
            scene.after(text);
            text.pairs(b"pairs ", page.as_slice());
            text.text(b"\n");
            let last = last_of(text, &page, most);
            drop(page);
            last
        }
        Some(Err(e)) => {
            scene.ended(text, Outcome::Refused(e));
            None
        }
        None => {
            text.cut();
            None
        }
    }
}

// Reads pages up to the last one, but no more than so many.
fn read_pages<L: Ledger, R: Wait>(
    rt: &R,
    scene: &Scene,
    way: &mut Way<L>,
    text: &mut Text,
    tree: &Tree,
    pages: &mut RangePages,
    back: bool,
    most: usize,
) {
    let mut last = read_page(rt, scene, way, text, tree, pages, None, back, most);
    for _ in 0..20 {
        if last.is_none() {
            return;
        }
        last = read_page(rt, scene, way, text, tree, pages, last, back, most);
    }
    drop(last);
}

/// Reads all pairs of a tree, by pages.
pub fn page_through<L: Ledger, R: Wait>(
    rt: &R,
    scene: &Scene,
    way: &mut Way<L>,
    book: &mut Book,
    choice: u64,
) {
    let Book { text, side, .. } = book;
    let tree = tree_of(scene, side, choice);
    let (back, most) = (choice >> 33 & 1 == 1, (choice >> 34 & 7) as usize + 1);
    let (lo, hi): (Bound<&[u8]>, Bound<&[u8]>) = (Bound::Unbounded, Bound::Unbounded);
    match RangePages::new(scene.plan.alloc, tree, lo, hi, back, most) {
        Ok(mut pages) => {
            read_pages(rt, scene, way, text, tree, &mut pages, back, most);
            drop(pages);
        }
        Err(e) => {
            drop(e);
            text.cut();
        }
    }
}
