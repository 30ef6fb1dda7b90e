//! How large the trees of a database are.

use shell_words::tell::{Result, Told, tell_numbered, tell_refused};
use sled::{Db, Stats};
use sled_model::MergeOperator;
use sled_store::Pages;

// Adds the numbers, each behind its name.
fn push_stats(out: &mut Told, stats: Stats) -> Result<()> {
    tell_numbered(out, b"stats trees ", stats.trees, b" pages ")?;
    tell_numbered(out, b"", stats.pages, b" levels ")?;
    tell_numbered(out, b"", stats.levels, b" pairs ")?;
    tell_numbered(out, b"", stats.pairs, b" key-bytes ")?;
    tell_numbered(out, b"", stats.key_bytes, b" value-bytes ")?;
    tell_numbered(out, b"", stats.value_bytes, b"\n")
}

/// Adds the line of how large all trees are.
pub fn tell_stats<P: Pages, M: MergeOperator>(db: &Db<P, M>, out: &mut Told) -> Result<()> {
    match db.stats() {
        Ok(stats) => push_stats(out, stats),
        Err(error) => tell_refused(out, error),
    }
}
