//! A copy of all trees of a database in another, if there is memory.
use crate::fresh::{Fresh, opened};
use crate::seen::Seen;
use crate::trial::Trial;
use example_databases::copy_all;

// Sees whether an export has so many trees, and these are all of a database, also those without a pair.
fn exports(db: &Fresh, count: usize, seen: &mut Seen) {
    seen.counted(db.export(), count);
    seen.counted(db.tree_names(), count);
}

/// Whether all trees of a database are copied into a new one. Of the first one tree has a pair; the new one is empty.
pub fn copies_all(trial: &mut Trial) {
    trial.insert(b"x", b"1");
    exports(&trial.db, 3, &mut trial.seen);
    match opened(trial.db.allocator(), b"second") {
        Ok(second) => {
            let mut second = second;
            exports(&second, 1, &mut trial.seen);
            trial.seen.made(copy_all(&trial.db, &mut second));
            trial.seen.alike(trial.db.export(), second.export());
            drop(second.into_pages());
        }
        Err(e) => trial.seen = Seen::refused(e),
    }
}
