//! The removal of the keys within two bounds, by what is left: just the pairs outside of them.
ghost use Rattle.std.specs.Prelude.{◌≡◌, IfOk, IfErr, OnOk};
ghost use Rattle.sled_nodes.specs.Among.{bound_of};
ghost use Rattle.sled.specs.Groups.{GroupRefused};
ghost use Rattle.sled.specs.Removals.{range_group};
ghost use Rattle.example_parts.specs.Reads.{maps_now};
ghost use Rattle.example_databases.specs.Ranges.{outside_alone, IsCountWithin};

use sled::Db;
use sled_model::{MergeOperator, Tree};
use sled_nodes::Result;
use sled_store::Pages;
use std::ops::Bound;

/// Removes all keys of a tree within two bounds, and answers how many there were. Just the pairs outside the bounds are left, and all other
/// trees are as before. Refused as `Db::remove_range`.
pub fn keep_outside<P: Pages, M: MergeOperator>(
    db: &mut Db<P, M>,
    tree: &Tree,
    lo: Bound<&[u8]>,
    hi: Bound<&[u8]>,
) -> Result<u64>
    ensures left { OnOk result (maps_now P.store M.meant db.new ≡ outside_alone tree.now.name (bound_of lo.entry) (bound_of hi.entry) (maps_now P.store M.meant db.old)) }
    ensures counts { IfOk result (λ count. IsCountWithin tree.now.name (bound_of lo.entry) (bound_of hi.entry) (maps_now P.store M.meant db.old) count) }
    ensures err { IfErr result (λ e. GroupRefused P.store M.meant db.old (range_group P.store M.meant db.old tree.now (bound_of lo.entry) (bound_of hi.entry)) e db.new) }
{
    db.audit();
    match db.remove_range(tree, lo, hi) {
        Ok(count) => {
            db.audit();
            Ok(count)
        }
        Err(e) => Err(e),
    }
}
