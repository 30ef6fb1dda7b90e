//! Stores in memory that can be opened.
ghost use Rattle.std.specs.Prelude.{◌≡◌, false, IfOk, IfErr};
ghost use Rattle.sled_nodes.specs.declared.error.Error.TheVariants.{NoMemory};
ghost use Rattle.sled_store.specs.Crash.{Crashes};
ghost use Rattle.sled_pages.specs.Memory.{store_of, empty_store};
ghost use Rattle.sled_store.specs.Store.{now};
ghost use Rattle.tree_laws.specs.Crashes.{IsValid, IsCrashConsistent};

use sled_nodes::Result;
use sled_pages::MemPages;
use std::alloc::Global;

/// An empty store, which can be opened.
///
/// ```
/// let db = Db::open(alloc, empty_pages(alloc), b"weather");
/// ```
pub fn empty_pages(alloc: Global) -> MemPages
    ensures empty { store_of result ≡ empty_store }
    ensures well { IsValid (now (store_of result)) }
    ensures no_group { (now (store_of result)).in_group ≡ false }
{
    MemPages::new(alloc)
}

/// What a crash leaves of a database's pages that keeps this many of the actions since the last flush, less a group that is
/// not sealed within them. It can be opened. Refused with `NoMemory` alone: then the store is lost.
///
/// ```
/// let left = crash_pages(db.into_pages(), 3)?; // Three actions after the last flush, at most.
/// let db = Db::open(alloc, left, b"weather");
/// ```
pub fn crash_pages(pages: MemPages, keep: usize) -> Result<MemPages>
    requires { IsCrashConsistent (store_of pages) }
    ensures ok { IfOk result (λ left. Crashes keep (store_of pages) (store_of left)) }
    ensures well { IfOk result (λ left. IsValid (now (store_of left))) }
    ensures no_group { IfOk result (λ left. (now (store_of left)).in_group ≡ false) }
    ensures err { IfErr result (λ e. e ≡ NoMemory) }
{
    let left = pages.crash(keep)?;
    Ok(left)
}
