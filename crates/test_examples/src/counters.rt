//! The counters in `example_databases`, in the first tree: numbers that are added to by merges, and tickets that rise by a closure.
use crate::fresh::Fresh;
use crate::trial::Trial;
use example_databases::{Adds, add_to_counter, count, next_ticket};
use sled_model::Tree;

/// Makes the merges of the first tree add.
pub fn set_operator(trial: &mut Trial) {
    trial
        .seen
        .made(trial.db.set_merge_operator(&trial.first, Adds));
}

/// Adds a number to a counter.
pub fn add(trial: &mut Trial, name: &str, n: u64) {
    let added = add_to_counter(&mut trial.db, &trial.first, name.as_bytes(), n);
    trial.seen.made(added);
}

/// Tests whether a counter has this number.
pub fn stands(trial: &mut Trial, name: &str, n: u64) {
    let count = count(&trial.db, &trial.first, name.as_bytes());
    trial.seen.told(count, n);
}

// Takes a ticket. Whether it has this number.
fn take_ticket(trial: &mut Trial, name: &str, n: u64) {
    let ticket = next_ticket(&mut trial.db, &trial.first, name.as_bytes());
    trial.seen.told(ticket, n);
}

// How often a closure is asked by a call on this tree.
fn asks(db: &mut Fresh, tree: &Tree) -> u64 {
    let mut asked: u64 = 0;
    let made = db.update_and_fetch(tree, b"asked", |_| {
        asked = asked.wrapping_add(1);
        Ok(None)
    });
    drop(made);
    asked
}

// Whether a closure is asked once, and not at all for a tree that was dropped.
fn asks_once(trial: &mut Trial) {
    let before = asks(&mut trial.db, &trial.second);
    trial.seen.told(trial.db.drop_tree(b"second"), true);
    let after = asks(&mut trial.db, &trial.second);
    trial.seen.that(before == 1 && after == 0);
}

/// Whether two numbers are added to one counter, another is 0, and tickets rise from 1 on, also from what was added. Closures are asked
/// once.
pub fn counts(trial: &mut Trial) {
    set_operator(trial);
    add(trial, "sold", 300);
    add(trial, "sold", 7);
    stands(trial, "sold", 307);
    stands(trial, "left", 0);
    take_ticket(trial, "ticket", 1);
    take_ticket(trial, "ticket", 2);
    take_ticket(trial, "sold", 308);
    asks_once(trial);
}
