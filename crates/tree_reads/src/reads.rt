//! What reads ask of a store.
ghost use Rattle.std.specs.Prelude.{◌≡◌, IfOk, IfErr};
ghost use Rattle.sled_store.specs.Store.{Store, now, AreGiven, IsReadRefused, view_of};

use sled_nodes::{Pid, Result};
use sled_store::{Pages, View};
use std::alloc::Global;

/// The one call of a store that reads make. Every store of pages has it.
pub trait Reads: Drop {
    /// What the store means.
    ghost store: { Self → Store };

    /// The page now, or `None` if there is none. `Io` comes only if the page is not readable.
    fn page(&self, alloc: Global, pid: Pid) -> Result<Option<View>>
        ensures ok { IfOk result (λ view. view ≡ view_of pid ((now (store self.now)).pages pid)) }
        ensures err { IfErr result (IsReadRefused pid (store self.now)) };

    /// Each page has a number and a version that were given.
    ghost given: { (s : Self) → AreGiven (store s) };
}

impl<P: Pages> Reads for P {
    ghost store = { P.store };

    ghost given = { P.given };

    #[inline(always)]
    fn page(&self, alloc: Global, pid: Pid) -> Result<Option<View>> {
        self.read(alloc, pid)
    }
}

/// Does nothing. It hands the law `given` on to code that is generic over the store.
pub(crate) fn law_given<R: Reads>(pages: &R)
    ensures { AreGiven (R.store pages.now) }
{}
