//! The stock in `example_databases`: a table, the first tree, and its index, the second.
use crate::pairs::has;
use crate::trial::Trial;
use example_databases::{put_item, take_item};

// Puts an item at a place, or takes it out if there is none, unless a call was refused before.
fn put(trial: &mut Trial, item: &str, place: Option<&str>) {
    if trial.seen.is_yes() {
        let (table, index) = (&trial.first, &trial.second);
        let from = match place {
            Some(place) => put_item(
                &mut trial.db,
                table,
                index,
                item.as_bytes(),
                place.as_bytes(),
            ),
            None => take_item(&mut trial.db, table, index, item.as_bytes()),
        };
        trial.seen.made(from);
    }
}

/// Puts two items at places, moves one of them, and takes the other out. Whether that one is in the second shelf.
pub fn moves(trial: &mut Trial) {
    put(trial, "bolt", Some("shelf 1"));
    put(trial, "nut", Some("shelf 1"));
    put(trial, "bolt", Some("shelf 2"));
    put(trial, "nut", None);
    trial
        .seen
        .told(has(&trial.db, &trial.first, b"bolt", b"shelf 2"), true);
}
