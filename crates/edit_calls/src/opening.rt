//! Opening whatever pages there are, after a check of them, and taking them out again.
ghost use Rattle.std.specs.Prelude.{◌≡◌, ◌⊎◌, false, IfOk, IfErr};
ghost use Rattle.sled_store.specs.Store.{now};
ghost use Rattle.tree_check.specs.Check.{RefusesCheck};
ghost use Rattle.tree_laws.specs.Contents.{trees_of};
ghost use Rattle.sled.specs.Opens.{with_default, RefusesOpen};

use sled::{Db, verify_integrity};
use sled_nodes::Error;
use sled_store::Pages;
use std::alloc::Global;

/// Checks pages outside every group, and opens them: what the check accepts can be opened.
pub fn reopen_accepted<P: Pages>(
    alloc: Global,
    pages: P,
    name: &[u8],
) -> std::result::Result<P, (P, Error)>
    requires { (now (P.store pages)).in_group ≡ false }
    ensures ok { IfOk result (λ left. trees_of (now (P.store left)) ≡ with_default (trees_of (now (P.store pages)))) }
    ensures err { IfErr result (λ e. (RefusesCheck (P.store pages) e.1 × (P.store e.0 ≡ P.store pages)) ⊎ RefusesOpen (P.store pages) e.1 (P.store e.0)) }
{
    if let Err(e) = verify_integrity(alloc, &pages) {
        return Err((pages, e));
    }
    match Db::open(alloc, pages, name) {
        Ok(db) => Ok(db.into_pages()),
        Err(e) => Err(e),
    }
}
