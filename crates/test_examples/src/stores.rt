//! A database over a store of one's own, the small one in `example_stores`.
use crate::pairs::has;
use crate::seen::Seen;
use example_stores::LogPages;
use sled::{Db, Tree};
use sled_store::Pages;
use std::alloc::Global;

// Inserts forty pairs, so that pages are split, flushes, and inserts one more. Whether the pairs are read.
fn fill(db: &mut Db<LogPages>, tree: &Tree, seen: &mut Seen) {
    for i in 0..40 {
        seen.made(db.insert(tree, &[i], b"old"));
    }
    match db.flush() {
        Ok(count) => seen.that(count > 40),
        Err(e) => *seen = Seen::refused(e),
    }
    seen.made(db.insert(tree, b"ulm", b"21"));
    seen.told(has(db, tree, &[7], b"old"), true);
    seen.told(has(db, tree, b"ulm", b"21"), true);
}

// Whether what was flushed is there, and what was not is gone.
fn is_as_flushed(db: &Db<LogPages>, tree: &Tree, seen: &mut Seen) {
    seen.told(has(db, tree, &[39], b"old"), true);
    seen.told(db.len(tree), 40);
    seen.told(db.contains_key(tree, b"ulm"), false);
}

// What is seen of the default tree, as it is filled or afterwards.
fn seen_in(db: &mut Db<LogPages>, is_new: bool) -> Seen {
    let mut seen = Seen::Yes;
    match db.default_tree() {
        Ok(tree) => {
            if is_new {
                fill(db, &tree, &mut seen);
            } else {
                is_as_flushed(db, &tree, &mut seen);
            }
            drop(tree);
        }
        Err(e) => seen = Seen::refused(e),
    }
    seen
}

// Whether a crash leaves what was flushed.
fn has_kept(alloc: Global, db: Db<LogPages>) -> Seen {
    let left = db.into_pages().crash(0);
    match Db::open(alloc, left, b"weather") {
        Ok(db) => {
            let mut db = db;
            let seen = seen_in(&mut db, false);
            drop(db.into_pages());
            seen
        }
        Err((pages, e)) => {
            drop(pages);
            Seen::refused(e)
        }
    }
}

/// Whether a database over the small store answers what it should, before and after a crash that keeps nothing since the flush.
pub fn small_store_works(alloc: Global) -> Seen {
    match Db::open(alloc, LogPages::new(alloc), b"weather") {
        Ok(db) => {
            let mut db = db;
            let seen = seen_in(&mut db, true);
            seen.and(has_kept(alloc, db))
        }
        Err((pages, e)) => {
            drop(pages);
            Seen::refused(e)
        }
    }
}
