//! The database that is shared.
use crate::pairs::Pairs;
use sled::{Db, MemPages};
use sled_model::Tree;

/// A database in memory.
pub type Owned = Db<MemPages>;

// After so many inserts there is a flush.
const FLUSH: u64 = 1000;

/// Whether this succeeded. It is dropped.
pub fn is_done<T: Drop, E: Drop>(came: Result<T, E>) -> bool {
    let done = came.is_ok();
    drop(came);
    done
}

// Puts these pairs into the tree. Whether there was memory for them.
fn fill(db: &mut Owned, tree: &Tree, pairs: &Pairs) -> bool {
    for place in 0..pairs.count {
        let (key, value) = (pairs.key(place), pairs.value(place, 0));
        let done = is_done(db.insert(tree, &key, &value));
        if !done || place % FLUSH == FLUSH - 1 && !is_done(db.flush()) {
            return false;
        }
    }
    true
}

/// Puts these pairs into a tree of the database, which it answers.
pub fn load(db: &mut Owned, pairs: &Pairs) -> Option<Tree> {
    let Ok(tree) = db.default_tree() else {
        return None;
    };
    if fill(db, &tree, pairs) {
        Some(tree)
    } else {
        drop(tree);
        None
    }
}
