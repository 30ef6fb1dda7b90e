//! What a kind of stores has for tests, beside the contract of a store.
use sled_nodes::{IVec, Link, Node, Pid, Result};
use sled_pages::Rebuild;
use std::alloc::Global;

/// A kind of stores, as tests make and treat them. Only `empty` has to be written. Each other call is for what a store may have beside
/// its contract; one that is not written answers `None`, and a line that asks for it is left out, with those behind it up to a `new`. That
/// stores are `Pages` is asked where lines run over them.
pub trait Trial<P: Drop> {
    /// An empty store, of which nothing was given.
    fn empty(&self, alloc: Global) -> Result<P>;

    /// What a crash leaves that keeps so many of the changing actions since the last flush, less a group that is not sealed within them.
    fn crash(&self, _alloc: Global, store: P, _keep: usize) -> Option<Result<P>> {
        drop(store);
        None
    }

    /// The calls of these numbers will be refused, and no others. The calls are those of `Pages` by `&mut self`, counted from 1 since the
    /// store was made.
    fn refuse_at(&self, _store: &mut P, _calls: &[u64]) -> Option<Result<()>> {
        None
    }

    /// The page of this number cannot be read any more, until a crash.
    fn unreadable(&self, _store: &mut P, _pid: Pid) -> Option<Result<()>> {
        None
    }

    /// What `flush` does, without being counted among the calls. It is called while no group is open.
    fn flush_uncounted(&self, _store: &mut P) -> Option<usize> {
        None
    }

    /// The greatest page number that was given, and how many versions were: all that are below it.
    fn numbers_given(&self, _store: &P) -> Option<(Pid, u64)> {
        None
    }

    /// The base node of a page and the links since, or nothing if there is no page.
    fn parts<'a>(&self, _store: &'a P, _pid: Pid) -> Option<Option<(&'a Node, &'a [Link])>> {
        None
    }

    /// A store of these pages, roots and mark, as if an earlier store had left them.
    fn image(
        &self,
        _alloc: Global,
        pages: Vec<(Pid, Node)>,
        roots: Vec<(IVec, Pid)>,
        _mark: u64,
    ) -> Option<Result<P>> {
        drop(pages);
        drop(roots);
        None
    }

    /// A store that was made page by page, in which this many page numbers and versions count as given, with a mark.
    fn made(&self, making: Rebuild, _pids: u64, _versions: u64, _mark: u64) -> Option<P> {
        drop(making);
        None
    }

    /// Whether a flush answers how many changing actions became durable. If it answers another number, which a store may, that is not
    /// compared.
    fn tells_actions(&self) -> bool {
        true
    }
}
