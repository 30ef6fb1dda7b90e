//! Calls of a database that a group of writes closed: it is open in the store.
ghost use Rattle.std.specs.Prelude.{◌≡◌, true, Err};
ghost use Rattle.sled_nodes.specs.declared.error.Error.TheVariants.{Closed};
ghost use Rattle.sled_store.specs.Store.{now};

use sled::Db;
use sled_model::{MergeOperator, Tree};
use sled_nodes::{IVec, Result};
use sled_store::Pages;

/// The value at a key, of which nothing is stated.
pub fn get_closed<P: Pages, M: MergeOperator>(
    db: &Db<P, M>,
    tree: &Tree,
    key: &[u8],
) -> Result<Option<IVec>>
    requires { (now (P.store db.now.pages)).in_group ≡ true }
    ensures { result ≡ Err Closed }
{
    db.get(tree, key)
}
