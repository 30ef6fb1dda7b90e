//! The indexed table in `example_transactions`: the addresses of users, the first tree, and their index, the second.
use crate::pairs::has;
use crate::seen::Seen;
use crate::trial::Trial;
use example_transactions::put_indexed;
use sled::TransactionError;
use sled_nodes::Result;

// Gives a user an address, unless a call was refused before. Whether that is done, or aborted since it is another's.
fn give(trial: &mut Trial, id: &str, email: &str, is_given: bool) {
    if trial.seen.is_yes() {
        let (table, index) = (&trial.first, &trial.second);
        let (id, email) = (id.as_bytes(), email.as_bytes());
        match put_indexed(&mut trial.db, table, index, id, email) {
            Ok(before) => {
                drop(before);
                trial.seen.that(is_given);
            }
            Err(TransactionError::Abort(_)) => trial.seen.that(!is_given),
            Err(TransactionError::Storage(e)) => trial.seen = Seen::refused(e),
        }
    }
}

/// Whether two users have addresses, none has the other's, and one that was given up is free.
pub fn gives(trial: &mut Trial) {
    give(trial, "1", "a@ulm", true);
    give(trial, "2", "b@ulm", true);
    give(trial, "2", "a@ulm", false);
    give(trial, "1", "c@ulm", true);
    give(trial, "1", "c@ulm", true);
    trial.holds(
        &[("1", "c@ulm"), ("2", "b@ulm")],
        &[("b@ulm", "2"), ("c@ulm", "1")],
    );
    give(trial, "2", "a@ulm", true);
    trial.holds(
        &[("1", "c@ulm"), ("2", "a@ulm")],
        &[("a@ulm", "2"), ("c@ulm", "1")],
    );
}

// Whether a user has no address, or one at which the index has the user.
fn is_in_step(trial: &Trial, id: &[u8]) -> Result<bool> {
    match trial.db.get(&trial.first, id) {
        Ok(Some(email)) => {
            let is_entered = has(&trial.db, &trial.second, email.as_ref(), id);
            drop(email);
            is_entered
        }
        Ok(None) => Ok(true),
        Err(e) => Err(e),
    }
}

/// Whether the index has an entry for each user, and no others.
pub fn are_in_step(trial: &mut Trial) {
    let first = is_in_step(trial, b"1");
    trial.seen.told(first, true);
    let second = is_in_step(trial, b"2");
    trial.seen.told(second, true);
    trial.are_as_many();
}
