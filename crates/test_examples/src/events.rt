//! The event store in `example_machines`, with two streams.
use crate::trial::Trial;
use crate::typed::tells;
use example_machines::{append, read_from};
use typed_map::TypedResult;

// Whether the two last events of a stream are read, from an id on that the other one has.
fn reads_two(trial: &Trial) -> TypedResult<bool> {
    let found = read_from(&trial.db, &trial.first, 2)?;
    let is_found = match found.as_slice() {
        [sent, paid] => {
            sent.0 == 3
                && paid.0 == 4
                && sent.1.as_ref() == b"sent".as_slice()
                && paid.1.as_ref() == b"paid".as_slice()
        }
        _ => false,
    };
    drop(found);
    Ok(is_found)
}

// Appends an event to the first stream.
fn order(trial: &mut Trial, event: &[u8]) {
    let id = append(&mut trial.db, &trial.first, event);
    trial.seen.made(id);
}

/// Whether the events of a stream are read from an id on. They were appended to two by turns, and the ids go from 1 on.
pub fn reads_events(trial: &mut Trial) {
    order(trial, b"ordered");
    let id = append(&mut trial.db, &trial.second, b"billed");
    trial.seen.made(id);
    order(trial, b"sent");
    order(trial, b"paid");
    let is_read = reads_two(trial);
    tells(trial, is_read);
}
