//! Calls of a database.
ghost use Rattle.std.specs.Prelude.{◌≡◌, ◌≢◌, IfOk, None, [], ◌∷◌, true};
ghost use Rattle.sled_store.specs.Store.{now};
ghost use Rattle.sled_model.specs.Refusal.{must_refuse_of};
ghost use Rattle.tree_laws.specs.Crashes.{Flushes};
ghost use Rattle.sled.specs.Drops.{DropsTree};
ghost use Rattle.sled_tree.specs.Known.{IsKnown};
ghost use Rattle.sled.specs.Flights.{DbStep, DbSound, DbActs, DbFollows, DbPasses, DbLeaksNoPage, DbKnows, KeepsTreePages};
ghost use Rattle.sled.specs.Values.{db_state, snapshot_of_db};

use machine_alone::Machine;
use sled::Db;
use sled_model::{MergeOperator, Tree};
use sled_nodes::Result;
use sled_store::Pages;
use sled_tree::{InFlight, Went};

/// Flushes a machine's database and ends it: its pages, of which a crash then takes nothing. The calls in flight are abandoned.
pub fn close<P: Pages, M: MergeOperator>(machine: Machine<P, M>) -> Result<P>
    ensures { IfOk result (λ pages. Flushes (P.store machine.db.pages) (P.store pages)) }
{
    let mut db = machine.into_db();
    if let Err(e) = db.flush() {
        drop(db.into_pages());
        return Err(e);
    }
    Ok(db.into_pages())
}

/// Drops the tree that a `Tree` value names. If there was one, every value of that name is refused from then on.
pub fn drop_tree<P: Pages, M: MergeOperator>(db: &mut Db<P, M>, tree: &Tree) -> Result<bool>
    ensures drops { IfOk result (λ dropped. DropsTree P.store M.meant db.old tree.now.name dropped db.new) }
    ensures refused { IfOk result (λ dropped. dropped ≡ true → must_refuse_of (db_state P.store M.meant db.new) (tree.now ∷ []) ≢ None) }
{
    db.drop_tree(tree.name.as_ref())
}

/// One step of a call in flight, without a machine.
pub fn advance<P: Pages, M: MergeOperator>(db: &mut Db<P, M>, flight: &mut InFlight) -> Went
    requires { IsKnown (snapshot_of_db P.store db.old) flight.old }
    ensures step { DbStep P.store M.meant db.old flight.old result db.new flight.new }
    ensures sound { DbSound P.store db.old db.new }
    ensures does { DbActs P.store M.meant db.old flight.old result db.new }
    ensures follows { DbFollows P.store M.meant db.old flight.old result db.new flight.new }
    ensures passes { DbPasses P.store db.old flight.old result db.new flight.new }
    ensures loses { KeepsTreePages None (snapshot_of_db P.store db.old) (snapshot_of_db P.store db.new) }
    ensures leaves { DbLeaksNoPage P.store db.old flight.old result db.new flight.new }
    ensures knows { DbKnows P.store db.old flight.old result db.new flight.new }
{
    db.advance(flight)
}
