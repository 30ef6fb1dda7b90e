//! The reader of an index in `example_databases`.
use crate::trial::Trial;
use example_databases::entries_under;
use ordered_keys::{push_number, push_text};

// Inserts an entry, with its text as the value.
fn enter(trial: &mut Trial, number: u64, text: &str) {
    let mut key = Vec::new(trial.db.allocator());
    trial.seen.made(push_number(&mut key, number));
    trial.seen.made(push_text(&mut key, text.as_bytes()));
    trial.insert(key.as_slice(), text.as_bytes());
    drop(key);
}

/// Whether the entries of an index under a number are found, in their order. A key is eight bytes of the number, and the text with its end.
pub fn finds_entries(trial: &mut Trial) {
    enter(trial, 7, "b");
    enter(trial, 8, "a");
    enter(trial, 7, "a");
    enter(trial, 6, "c");
    let found = entries_under(trial.db.allocator(), &trial.db, &trial.first, 7);
    let (first, second) = ("\0\0\0\0\0\0\0\x07a\0\0", "\0\0\0\0\0\0\0\x07b\0\0");
    trial.found(found, (first, "a"), (second, "b"));
}
