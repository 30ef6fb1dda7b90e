//! A read of a database.
ghost use Rattle.std.specs.Prelude.{IfOk};
ghost use Rattle.sled.specs.Reads.{BeginsWith};

use sled::{Db, Iter};
use sled_model::{MergeOperator, Tree};
use sled_nodes::Result;
use sled_store::Pages;

/// The pairs whose keys begin with a prefix.
pub fn scan_prefix<'a, P: Pages, M: MergeOperator>(
    db: &'a Db<P, M>,
    tree: &Tree,
    prefix: &[u8],
) -> Result<Iter<'a, P>>
    ensures { IfOk result (BeginsWith P.store M.meant db.now tree.now prefix.now) }
{
    db.scan_prefix(tree, prefix)
}
