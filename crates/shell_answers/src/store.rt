//! Pages between two openings.
ghost use Rattle.std.specs.Prelude.{◌≡◌, true, IfOk};
ghost use Rattle.sled_pages.specs.Memory.{store_of};
ghost use Rattle.tree_laws.specs.Crashes.{IsCrashConsistent};

use line_words::input::Stopped;
use sled::{DEFAULT_TREE, Db, crash_pages, empty_pages};
use sled_model::MergeOperator;
use sled_nodes::{Error, Pid};
use sled_pages::MemPages;
use sled_store::Pages;
use std::alloc::Global;
use std::marker::Model;

/// Well-formed pages. They can be opened if no group is open.
pub struct Kept {
    pages: MemPages,
    // Whether a crash may keep some of the actions since the last flush. No contract says so if an opening was refused that had to make the
    // default tree; but then there was no database yet.
    crashes: bool,
}

// By hand, so that code that drops kept pages cites this, and need not prove again how each of its parts is dropped.
impl Drop for Kept {
    fn drop(self) {
        let Kept { pages, crashes: _ } = self;
        drop(pages);
    }
}

impl Model for Kept {
    ghost use Rattle.std.specs.Prelude.{Bool};
    ghost use Rattle.sled_pages.specs.Memory.{store_of};
    ghost use Rattle.shell_answers.specs.Store.{IsKept};

    ghost Value = { Bool };

    ghost view = { λ k. k.crashes };

    ghost invariant = { λ k. IsKept k.crashes (store_of k.pages) };
}

impl Kept {
    ghost use Rattle.shell_answers.specs.Store.{IsKept, HasDefault};

    /// An empty store.
    pub fn empty(alloc: Global) -> Kept {
        Kept {
            pages: empty_pages(alloc),
            crashes: true,
        }
    }

    /// The pages of a database.
    pub fn of<M: MergeOperator>(db: Db<MemPages, M>) -> Kept {
        Kept::refused(db.into_pages(), true)
    }

    /// Pages that an opening gave back.
    pub fn refused(pages: MemPages, crashes: bool) -> Kept
        requires { IsKept crashes (store_of pages) }
    {
        Kept { pages, crashes }
    }

    /// Pages in which a group is open, so that they are not opened.
    pub fn closed(pages: MemPages, crashes: bool) -> Kept
        requires { IsKept crashes (store_of pages) }
    {
        Kept::refused(pages, crashes)
    }

    /// The pages, to be looked at.
    pub fn pages(&self) -> &MemPages {
        &self.pages
    }

    /// The pages, and whether a crash may keep some of their actions also if an opening is refused.
    pub fn into_pages(self) -> (MemPages, bool)
        ensures can { IsKept result.1 (store_of result.0) }
        ensures default { result.1 ≡ true → HasDefault (store_of result.0) }
    {
        let Kept { pages, crashes } = self;
        let has_default = pages.root(DEFAULT_TREE.as_bytes()).is_some();
        (pages, crashes && has_default)
    }

    /// Opens the pages under a name, unless a group is open in them. If that is refused it returns them.
    pub fn open<M: MergeOperator>(
        self,
        alloc: Global,
        name: &[u8],
    ) -> Result<Db<MemPages, M>, (Kept, Error)> {
        let (pages, crashes) = self.into_pages();
        if pages.in_group() {
            return Err((Kept::closed(pages, crashes), Error::Closed));
        }
        match Db::open(alloc, pages, name) {
            Ok(db) => Ok(db.with_operators()),
            Err((pages, error)) => Err((Kept::refused(pages, crashes), error)),
        }
    }

    /// What a crash leaves that keeps so many actions. If nothing is known of that it is an empty store.
    pub fn crash(self, alloc: Global, keep: u64) -> Result<Kept, Stopped> {
        let keep = usize::try_from(keep).unwrap_or(usize::MAX);
        let Kept { pages, crashes } = self;
        if crashes {
            return crashed(pages, keep);
        }
        let mark = pages.mark();
        drop(pages);
        crashed(marked(alloc, mark)?, keep)
    }

    /// The store will refuse its calls of these numbers, and no others.
    pub fn refuse(self, calls: &[u64]) -> Result<Kept, Stopped> {
        let Kept { mut pages, crashes } = self;
        if pages.refuse_at(calls).is_err() {
            drop(pages);
            return Err(Stopped);
        }
        Ok(Kept { pages, crashes })
    }

    // The page of this number cannot be read any more.
    fn without(self, pid: u64) -> Result<Kept, Stopped> {
        let Kept { mut pages, crashes } = self;
        if pages.unreadable(Pid(pid)).is_err() {
            drop(pages);
            return Err(Stopped);
        }
        Ok(Kept { pages, crashes })
    }

    /// The pages of these numbers cannot be read any more.
    pub fn unreadable(self, pids: &[u64]) -> Result<Kept, Stopped> {
        let mut kept = self;
        for pid in pids {
            kept = kept.without(*pid)?;
        }
        Ok(kept)
    }

    /// Sets ids aside, or says why not; a mark that is higher stays.
    pub fn set_aside(self, upto: u64) -> (Kept, Result<(), Error>) {
        let Kept { mut pages, crashes } = self;
        let done = raise_mark(&mut pages, upto);
        (Kept { pages, crashes }, done)
    }
}

// What a crash leaves of these pages.
fn crashed(pages: MemPages, keep: usize) -> Result<Kept, Stopped>
    requires { IsCrashConsistent (store_of pages) }
{
    Ok(Kept {
        pages: crash_pages(pages, keep)?,
        crashes: true,
    })
}

// Sets the mark of a store, unless that would lower it.
fn raise_mark(pages: &mut MemPages, upto: u64) -> Result<(), Error>
    ensures base { (store_of pages.new).base ≡ (store_of pages.old).base }
    ensures recent { (store_of pages.new).recent ≡ (store_of pages.old).recent }
{
    if upto >= pages.mark() {
        pages.set_aside(upto)?;
    }
    Ok(())
}

// An empty store with this mark.
fn marked(alloc: Global, mark: u64) -> Result<MemPages, Error>
    ensures { IfOk result (λ pages. IsCrashConsistent (store_of pages)) }
{
    let mut pages = empty_pages(alloc);
    match raise_mark(&mut pages, mark) {
        Ok(()) => Ok(pages),
        Err(error) => {
            drop(pages);
            Err(error)
        }
    }
}
