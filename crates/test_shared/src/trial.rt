//! What callers do beside each other, and its expected outcome.
use crate::asking::{Told, noted};
use crate::beside::Scene;
use crate::caller::Caller;
use crate::turns::{Turn, take_turns};
use sled_machine::shared::{Entry, Made, ScanNote, Scanned};
use std::sync::atomic::Ordering;

// The name of the tree that is there from the beginning.
const DEFAULT: &[u8] = b"__sled__default";

/// A database with one tree, of this name, into which so many keys were put, from 0 up, and so many of the last taken out again. With the
/// tree that is there from the beginning it has so many. It may have a subscriber to that tree, and be flushed as it is shared.
#[derive(Clone, Copy)]
pub struct Start {
    pub name: &'static [u8],
    pub trees: usize,
    pub keys: u8,
    pub taken: u8,
    pub watched: bool,
    pub flushed: bool,
}

impl Start {
    /// How many pairs the database has.
    pub fn pairs(&self) -> usize {
        usize::from(self.keys.wrapping_sub(self.taken))
    }
}

/// A database with nothing in it.
pub const EMPTY: Start = Start {
    name: DEFAULT,
    trees: 1,
    keys: 0,
    taken: 0,
    watched: false,
    flushed: false,
};

/// What the history has, once all callers are done.
#[derive(Clone, Copy)]
pub enum Wanted<'a> {
    /// So many calls; among them some of these callers, by their numbers, which answer this.
    Calls(usize, &'a [(u64, Told)]),
    /// So many calls on a key, whose replies count up from 1.
    Counted(usize),
    /// Some inserts, but not so many, and the drop of the tree, by the second caller, at last.
    Dropped(u64),
    /// Any calls.
    Any,
}

/// A database at the start and how many callers it has, what the first of them does and what each other one does, and what the history has
/// then.
#[derive(Clone, Copy)]
pub struct Trial<'a> {
    pub start: Start,
    pub callers: u8,
    pub first: &'a [Turn<'a>],
    pub others: &'a [Turn<'a>],
    /// So many moves of a call are the first caller's, if it hands one over.
    pub moves: u64,
    pub wanted: Wanted<'a>,
    /// One scan gives so many pairs, to its end, and what scans do is noted; or it is not.
    pub scanned: Option<usize>,
}

/// Two callers of a database with nothing in it, who do nothing, and whatever the history has then.
pub const TWO_CALLERS: Trial<'static> = Trial {
    start: EMPTY,
    callers: 2,
    first: &[],
    others: &[],
    moves: 0,
    wanted: Wanted::Any,
    scanned: None,
};

// Whether the history has an entry of this caller that says this.
fn has_entry(history: &[Entry], by: u64, told: Told) -> bool {
    for entry in history {
        if entry.by == by && noted(&entry.made) == told {
            return true;
        }
    }
    false
}

fn has_entries(history: &[Entry], entries: &[(u64, Told)]) -> bool {
    for (by, told) in entries {
        if !has_entry(history, *by, *told) {
            return false;
        }
    }
    true
}

// The numbers of the replies, in the order of the history, are those from 1 on, and each is of a call on a key.
fn count_up(history: &[Entry]) -> bool {
    let mut last: u64 = 0;
    for entry in history {
        last = last.wrapping_add(1);
        if !matches!(&entry.made, Made::Point(_, _, _)) || noted(&entry.made) != Told::Value(last) {
            return false;
        }
    }
    true
}

// Whether the tree was dropped, and nothing was inserted after that.
fn ends_with_drop(history: &[Entry]) -> bool {
    match history.last() {
        Some(entry) => entry.by == 2 && noted(&entry.made) == Told::Dropped,
        None => false,
    }
}

// Whether these are what one scan did: it began, gave so many pairs, and ended, all when the history had as many entries.
fn are_of_one_scan(notes: &[ScanNote], pairs: usize, length: u64) -> bool {
    for (k, note) in notes.iter().enumerate() {
        let is_there = match &note.did {
            Scanned::Begun(_, _) => k == 0,
            Scanned::Gave(_, _) => k > 0 && k <= pairs,
            Scanned::Ended => k == pairs.wrapping_add(1),
        };
        if !is_there || note.at != length {
            return false;
        }
    }
    notes.len() == pairs.wrapping_add(2)
}

impl Trial<'_> {
    /// Whether what scans did is noted where it should be.
    pub fn has_scans(&self, keeps: bool, notes: &[ScanNote], length: u64) -> bool {
        match self.scanned {
            Some(pairs) => keeps && are_of_one_scan(notes, pairs, length),
            None => !keeps && notes.is_empty(),
        }
    }

    /// What the caller of this number does.
    pub fn work<C: Caller>(&self, scene: &Scene, number: u64, caller: &mut C) {
        let turns = if number == 1 { self.first } else { self.others };
        take_turns(scene, caller, turns);
    }

    /// Whether the history is as it should be.
    pub fn passes(&self, scene: &Scene, history: &[Entry]) -> bool {
        let calls = history.len();
        match self.wanted {
            Wanted::Calls(count, entries) => calls == count && has_entries(history, entries),
            Wanted::Counted(count) => calls == count && count_up(history),
            Wanted::Dropped(most) => {
                let inserted = scene.count.load(Ordering::SeqCst);
                inserted > 0
                    && inserted < most
                    && calls as u64 == inserted.wrapping_add(1)
                    && ends_with_drop(history)
            }
            Wanted::Any => true,
        }
    }
}
