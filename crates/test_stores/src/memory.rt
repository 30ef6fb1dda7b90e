//! Stores in memory, which have all that a store may have for tests.
use sled_nodes::{IVec, Link, Node, Pid, Result};
use sled_pages::{MemPages, Rebuild};
use sled_store::Pages;
use std::alloc::Global;
use store_kit::Trial;

/// Stores in memory.
pub struct Memory;

impl Trial<MemPages> for Memory {
    fn empty(&self, alloc: Global) -> Result<MemPages> {
        Ok(MemPages::new(alloc))
    }

    fn crash(&self, _alloc: Global, store: MemPages, keep: usize) -> Option<Result<MemPages>> {
        Some(store.crash(keep))
    }

    fn refuse_at(&self, store: &mut MemPages, calls: &[u64]) -> Option<Result<()>> {
        Some(store.refuse_at(calls))
    }

    fn unreadable(&self, store: &mut MemPages, pid: Pid) -> Option<Result<()>> {
        Some(store.unreadable(pid))
    }

    fn flush_uncounted(&self, store: &mut MemPages) -> Option<usize> {
        if store.in_group() {
            return None;
        }
        Some(store.flush_uncounted())
    }

    fn numbers_given(&self, store: &MemPages) -> Option<(Pid, u64)> {
        Some(store.numbers_given())
    }

    fn parts<'a>(&self, store: &'a MemPages, pid: Pid) -> Option<Option<(&'a Node, &'a [Link])>> {
        Some(store.parts(pid))
    }

    fn image(
        &self,
        alloc: Global,
        pages: Vec<(Pid, Node)>,
        roots: Vec<(IVec, Pid)>,
        mark: u64,
    ) -> Option<Result<MemPages>> {
        Some(MemPages::from_image(alloc, pages, roots, mark))
    }

    fn made(&self, making: Rebuild, pids: u64, versions: u64, mark: u64) -> Option<MemPages> {
        Some(making.finish(pids, versions, mark))
    }
}
