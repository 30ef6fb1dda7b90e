//! Databases on which the examples are run.
use crate::cases::Case;
use crate::fresh::Fresh;
use crate::pairs::{are, has_all};
use crate::seen::Seen;
use example_databases::open_part;
use example_machines::open_stream;
use example_transactions::settle;
use sled_model::Tree;
use sled_nodes::{IVec, Result};

/// A database with two trees, and what was seen of it.
pub struct Trial {
    pub db: Fresh,
    pub first: Tree,
    pub second: Tree,
    pub seen: Seen,
}

// Opens two trees by name, the one as a stock does and the other as a stream.
fn trees_of(db: &mut Fresh) -> Result<(Tree, Tree)> {
    let first = match open_part(db, b"first") {
        Ok(first) => first,
        Err(e) => return Err(e),
    };
    match open_stream(db, b"second") {
        Ok(second) => Ok((first, second)),
        Err(e) => {
            drop(first);
            Err(e)
        }
    }
}

/// What is seen of a database. It comes back.
pub fn run(db: Fresh, case: Case) -> (Seen, Fresh) {
    let mut db = db;
    match trees_of(&mut db) {
        Ok((first, second)) => {
            let mut trial = Trial {
                db,
                first,
                second,
                seen: Seen::Yes,
            };
            case.run(&mut trial);
            let Trial {
                db,
                first,
                second,
                seen,
            } = trial;
            drop(first);
            drop(second);
            (seen, db)
        }
        Err(e) => (Seen::refused(e), db),
    }
}

impl Trial {
    /// Inserts a pair into the first tree.
    pub fn insert(&mut self, key: &[u8], value: &[u8]) {
        let stood = self.db.insert(&self.first, key, value);
        self.seen.made(stood);
    }

    /// Sees whether the two trees have these pairs, and no others.
    pub fn holds(&mut self, first: &[(&str, &str)], second: &[(&str, &str)]) {
        has_all(&self.db, &self.first, first, &mut self.seen);
        has_all(&self.db, &self.second, second, &mut self.seen);
    }

    /// Sees whether a call found these two pairs, and no others.
    pub fn found(
        &mut self,
        found: Result<Vec<(IVec, IVec)>>,
        first: (&str, &str),
        second: (&str, &str),
    ) {
        match found {
            Ok(found) => {
                self.seen.that(are(found.as_slice(), first, second));
                drop(found);
            }
            Err(e) => self.seen = Seen::refused(e),
        }
    }

    /// Sees whether both trees have as many pairs.
    pub fn are_as_many(&mut self) {
        let (first, second) = (self.db.len(&self.first), self.db.len(&self.second));
        self.seen.alike(first, second);
    }

    /// Makes all durable. Whether all calls were made so far.
    pub fn is_settled(&mut self) -> bool {
        let settled = settle(&mut self.db);
        self.seen.made(settled);
        self.seen.is_yes()
    }
}
