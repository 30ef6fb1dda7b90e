//! New databases in memory, whose merge operators add: one that may hold boxed operators cannot be handed out.
use example_databases::Adds;
use sled::{Db, empty_pages};
use sled_nodes::Result;
use sled_pages::MemPages;
use std::alloc::Global;

/// A database in memory.
pub type Fresh = Db<MemPages, Adds>;

/// A new database of this name.
pub fn opened(alloc: Global, name: &[u8]) -> Result<Fresh> {
    match Db::open(alloc, empty_pages(alloc), name) {
        Ok(db) => Ok(db.with_operators()),
        Err((pages, e)) => {
            drop(pages);
            Err(e)
        }
    }
}
