//! The index by endings in `example_databases`, which follows the first tree, and begins anew if it missed events.
use crate::seen::Seen;
use crate::trial::Trial;
use example_databases::{Endings, Progress, index_follows};
use sled_model::QUEUE_LIMIT;

// Three files are there.
fn fill(trial: &mut Trial) {
    trial.insert(b"src/lib.rs", b"1");
    trial.insert(b"src/old.rs", b"2");
    trial.insert(b"other.rs", b"3");
}

/// Whether the two files are found of which one was there before the index and one came after it, and not the one that went.
pub fn follows(trial: &mut Trial) {
    fill(trial);
    let (db, files) = (&mut trial.db, &trial.first);
    let found = index_follows(db, files, b"src/", b"src/a.rs", b"4", b"src/old.rs", b".rs");
    trial.found(found, ("src/a.rs", "4"), ("src/lib.rs", "1"));
}

// More changes of one file than may wait for a subscriber. The last value is 6.
fn change_often(trial: &mut Trial) {
    for _ in 0..QUEUE_LIMIT / 2 + 1 {
        trial.insert(b"src/lib.rs", b"5");
        trial.insert(b"src/lib.rs", b"6");
    }
}

// Takes an event, if one waits. Whether the index comes so far.
fn catch_up(trial: &mut Trial, index: &mut Endings, to: Progress) {
    let progress = index.catch_up(&mut trial.db, 1);
    trial.seen.told(progress, to);
}

// Whether an index finds two files, the first with this value, and knows that it has all there is.
fn has_both(trial: &mut Trial, index: &mut Endings, value: &str) {
    let found = index.find(&mut trial.db, b".rs");
    trial.found(found, ("src/lib.rs", value), ("src/old.rs", "2"));
    trial.seen.that(!index.is_lost());
}

// Whether an index is up to date at first, learns that it missed events, and finds what its tree has then: once after it learned so, once
// before, and once more as it follows again.
fn finds_again(trial: &mut Trial, index: &mut Endings) {
    catch_up(trial, index, Progress::UpToDate);
    change_often(trial);
    catch_up(trial, index, Progress::Lost);
    trial.seen.that(index.is_lost());
    has_both(trial, index, "6");
    change_often(trial);
    trial.insert(b"src/lib.rs", b"7");
    has_both(trial, index, "7");
    trial.insert(b"src/lib.rs", b"8");
    catch_up(trial, index, Progress::Partly);
    has_both(trial, index, "8");
}

/// Whether it begins anew if it missed events.
pub fn begins_anew(trial: &mut Trial) {
    fill(trial);
    match Endings::begin(&mut trial.db, &trial.first, b"src/") {
        Ok(index) => {
            let mut index = index;
            finds_again(trial, &mut index);
            index.end(&mut trial.db);
        }
        Err(e) => trial.seen = Seen::refused(e),
    }
}
