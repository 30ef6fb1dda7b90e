//! Pages between two openings: those of a database, or those that were made elsewhere.

use crate::store::Kept;
use line_words::input::Stopped;
use shell_words::images::pages_after;
use sled::Db;
use sled_model::MergeOperator;
use sled_nodes::{Error, Pid};
use sled_pages::MemPages;
use sled_store::Pages;
use std::alloc::Global;

/// Pages between two openings.
#[derive(Drop)]
pub enum Held {
    /// Well-formed pages.
    Kept(Kept),
    /// Pages of which nothing is known, so that they are opened after a check.
    Foreign(MemPages),
}

impl Held {
    /// Opens the pages under a name, those of which nothing is known after a check. If that is refused it returns them.
    pub fn open<M: MergeOperator>(
        self,
        alloc: Global,
        name: &[u8],
    ) -> Result<Db<MemPages, M>, (Held, Error)> {
        match self {
            Held::Kept(kept) => match kept.open(alloc, name) {
                Ok(db) => Ok(db),
                Err((kept, error)) => Err((Held::Kept(kept), error)),
            },
            Held::Foreign(pages) => match Db::open_checked(alloc, pages, name) {
                Ok(db) => Ok(db.with_operators()),
                Err((pages, error)) => Err((Held::Foreign(pages), error)),
            },
        }
    }

    /// The pages, to be looked at.
    pub fn pages(&self) -> &MemPages {
        match self {
            Held::Kept(kept) => kept.pages(),
            Held::Foreign(pages) => pages,
        }
    }

    /// What a crash leaves that keeps so many actions.
    pub fn crash(self, alloc: Global, keep: u64) -> Result<Held, Stopped> {
        match self {
            Held::Kept(kept) => Ok(Held::Kept(kept.crash(alloc, keep)?)),
            Held::Foreign(pages) => {
                let keep = usize::try_from(keep).unwrap_or(usize::MAX);
                Ok(Held::Foreign(pages.crash(keep)?))
            }
        }
    }

    /// The store will refuse its calls of these numbers, and no others.
    pub fn refuse(self, calls: &[u64]) -> Result<Held, Stopped> {
        match self {
            Held::Kept(kept) => Ok(Held::Kept(kept.refuse(calls)?)),
            Held::Foreign(mut pages) => {
                let done = pages.refuse_at(calls);
                Ok(Held::Foreign(pages_after(pages, done)?))
            }
        }
    }

    /// The pages of these numbers cannot be read any more.
    pub fn unreadable(self, pids: &[u64]) -> Result<Held, Stopped> {
        match self {
            Held::Kept(kept) => Ok(Held::Kept(kept.unreadable(pids)?)),
            Held::Foreign(mut pages) => {
                let done = take_all(&mut pages, pids);
                Ok(Held::Foreign(pages_after(pages, done)?))
            }
        }
    }

    /// Sets ids aside, or says why not; a mark that is higher stays.
    pub fn set_aside(self, upto: u64) -> (Held, Result<(), Error>) {
        match self {
            Held::Kept(kept) => {
                let (kept, done) = kept.set_aside(upto);
                (Held::Kept(kept), done)
            }
            Held::Foreign(mut pages) => {
                let is_higher = upto < pages.mark();
                let done = if is_higher {
                    Ok(())
                } else {
                    pages.set_aside(upto)
                };
                (Held::Foreign(pages), done)
            }
        }
    }
}

// Makes the pages of these numbers unreadable.
fn take_all(pages: &mut MemPages, pids: &[u64]) -> Result<(), Error> {
    for pid in pids {
        pages.unreadable(Pid(*pid))?;
    }
    Ok(())
}
