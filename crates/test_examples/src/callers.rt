//! Callers in `example_machines` if there is memory: no contract says that they do not fail.
use crate::flights::finds;
use crate::pairs::pair;
use example_machines::{insert_then_get_in_new, survive};
use sled::{DEFAULT_TREE, empty_pages};
use sled_nodes::Result;
use sled_pages::MemPages;
use sled_store::Pages;
use std::alloc::Global;

/// Whether what was inserted in a new database is read.
pub fn is_read(alloc: Global) -> Result<bool> {
    let pair = pair(alloc, b"a", b"1")?;
    let got = insert_then_get_in_new(alloc, b"db", &pair.0, &pair.1);
    drop(pair);
    match got {
        Ok(Some(got)) => Ok(finds(got)),
        Ok(None) => Ok(false),
        Err(e) => Err(e),
    }
}

// What a crash leaves of a database that is opened.
fn left(alloc: Global) -> Result<MemPages> {
    let (outcomes, left) = survive(alloc, empty_pages(alloc), b"db", &[], 0)?;
    drop(outcomes);
    Ok(left)
}

/// Whether a database that is opened has a default tree after a crash.
pub fn survives(alloc: Global) -> Result<bool> {
    let left = left(alloc)?;
    let has_default = left.root(DEFAULT_TREE.as_bytes()).is_some();
    drop(left);
    Ok(has_default)
}
