//! A copy of all trees of a database in another one.
ghost use Rattle.std.specs.Prelude.{OnOk};
ghost use Rattle.sled.specs.Values.{db_state};
ghost use Rattle.example_databases.specs.Copies.{HoldsNothing, HasAllOf, LosesNothing};

use sled::Db;
use sled_model::MergeOperator;
use sled_nodes::Result;
use sled_store::Pages;

/// Imports what an export of the first database gives into the second. If the trees of the second held nothing, each tree of the first
/// is there then, with the same map. The second loses nothing, even if this is refused midway: what was copied so far stays.
pub fn copy_all<P: Pages, M: MergeOperator, Q: Pages, N: MergeOperator>(
    first: &Db<P, M>,
    second: &mut Db<Q, N>,
) -> Result<()>
    ensures copies { OnOk result (HoldsNothing (db_state Q.store N.meant second.old) → HasAllOf (db_state P.store M.meant first.now) (db_state Q.store N.meant second.new)) }
    ensures keeps { LosesNothing (db_state Q.store N.meant second.old) (db_state Q.store N.meant second.new) }
{
    first.audit();
    let collections = match first.export() {
        Ok(collections) => collections,
        Err(e) => return Err(e),
    };
    let done = second.import(collections.as_slice());
    drop(collections);
    done
}
