//! The stores of `example_stores`.
use example_stores::LogPages;
use sled_nodes::Result;
use std::alloc::Global;
use store_kit::Trial;

/// Stores that keep a list of all that was ever done.
pub struct Logs;

impl Trial<LogPages> for Logs {
    fn empty(&self, alloc: Global) -> Result<LogPages> {
        Ok(LogPages::new(alloc))
    }

    fn crash(&self, _alloc: Global, store: LogPages, keep: usize) -> Option<Result<LogPages>> {
        Some(Ok(store.crash(keep)))
    }
}
