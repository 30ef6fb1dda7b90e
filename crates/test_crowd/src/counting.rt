//! A store in memory that counts the pages that are read.

use line_sessions::operator::NoOperator;
use line_sessions::session::Session;
use shell_answers::store::Kept;
use sled::Db;
use sled_model::MergeOperator;
use sled_nodes::{IVec, Link, Node, Pid, Result as Told, Version};
use sled_pages::MemPages;
use sled_store::{Pages, View};
use std::alloc::Global;
use std::sync::atomic::{AtomicU64, Ordering};

// What a change returns that may find another version or root there.
type Changed<T, F> = Told<Result<T, Option<F>>>;

/// A store, and how many of its pages were read.
#[derive(Drop)]
pub struct Counting<'a> {
    pub inner: MemPages,
    pub reads: &'a AtomicU64,
}

impl<'a> Pages for Counting<'a> {
    ghost use Rattle.sled_pages.specs.Memory.{store_of, flush_number_of};
    ghost use Rattle.sled_pages.specs.theory.Laws.{law_given};

    ghost store = { λ c. store_of c.inner };

    ghost flush_number = { λ c. flush_number_of c.inner };

    fn read(&self, alloc: Global, pid: Pid) -> Told<Option<View>> {
        self.reads.fetch_add(1, Ordering::Relaxed);
        self.inner.read(alloc, pid)
    }

    fn allocate(&mut self, node: Node) -> Told<(Pid, Version)> {
        self.inner.allocate(node)
    }

    fn link(&mut self, pid: Pid, version: Version, link: Link) -> Changed<Version, Version> {
        self.inner.link(pid, version, link)
    }

    fn replace(&mut self, pid: Pid, version: Version, node: Node) -> Changed<Version, Version> {
        self.inner.replace(pid, version, node)
    }

    fn free(&mut self, pid: Pid, version: Version) -> Changed<(), Version> {
        self.inner.free(pid, version)
    }

    fn root(&self, name: &[u8]) -> Option<Pid> {
        self.inner.root(name)
    }

    fn roots(&self, alloc: Global) -> Told<Vec<(IVec, Pid)>> {
        self.inner.roots(alloc)
    }

    fn cas_root(&mut self, name: &[u8], old: Option<Pid>, new: Option<Pid>) -> Changed<(), Pid> {
        self.inner.cas_root(name, old, new)
    }

    fn begin_group(&mut self) -> Told<()> {
        self.inner.begin_group()
    }

    fn seal_group(&mut self) -> Told<()> {
        self.inner.seal_group()
    }

    fn in_group(&self) -> bool {
        self.inner.in_group()
    }

    fn flush(&mut self) -> Told<usize> {
        self.inner.flush()
    }

    fn set_aside(&mut self, upto: u64) -> Told<()> {
        self.inner.set_aside(upto)
    }

    fn mark(&self) -> u64 {
        self.inner.mark()
    }

    fn was_recovered(&self) -> bool {
        self.inner.was_recovered()
    }

    ghost sealed = { λ c. c.inner.kept.sealed };

    ghost given = { λ c. law_given c.inner };
}

/// A session over a database whose reads of pages are counted.
pub type Counted<'a> = Session<Counting<'a>, NoOperator>;

/// The pages of a database, which are counted no more.
pub fn kept_of<M: MergeOperator>(db: Db<Counting<'_>, M>) -> Kept {
    Kept::refused(db.into_pages().inner, true)
}
