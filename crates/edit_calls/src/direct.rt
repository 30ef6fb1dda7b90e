//! Calls of a database that are made at once, in no slot.
ghost use Rattle.std.specs.Prelude.{◌≡◌, IfOk, IfErr, Ok};
ghost use Rattle.std.specs.FinMap.Entries.{find};
ghost use Rattle.sled_nodes.specs.Order.{key_cmp};
ghost use Rattle.sled_nodes.specs.Node.{without};
ghost use Rattle.sled_model.specs.Whole.{DecidesPoint, RefusesPoint};
ghost use Rattle.sled_model.specs.declared.call.Call.TheVariants as call;
ghost use Rattle.sled_model.specs.declared.reply.Reply.TheVariants as told;
ghost use Rattle.sled.specs.Direct.{RunsAtOnce};
ghost use Rattle.sled.specs.Promises.{ChangesMap, StopsCall, GivesUpCall, leaves_as};
ghost use Rattle.sled.specs.Values.{db_state};

use sled::Db;
use sled_model::{MergeOperator, Tree};
use sled_nodes::{IVec, Result};
use sled_store::Pages;

/// Takes a key out.
pub fn remove<P: Pages, M: MergeOperator>(
    db: &mut Db<P, M>,
    tree: &Tree,
    key: &[u8],
) -> Result<Option<IVec>>
    ensures changes { IfOk result (λ stood. ChangesMap P.store M.meant db.old tree.now (λ before after. (stood ≡ find key_cmp key.now before) × (after ≡ without key.now before)) db.new) }
    ensures decides { IfOk result (λ stood. DecidesPoint (db_state P.store M.meant db.old) tree.now (call.Remove key.now) (told.Value stood) (db_state P.store M.meant db.new)) }
    ensures refuses { IfErr result (λ e. RefusesPoint (db_state P.store M.meant db.old) (P.store db.old.pages) (P.store db.new.pages) tree.now (call.Remove key.now) e (db_state P.store M.meant db.new)) }
    ensures leaves { leaves_as P.store M.meant result db.old db.new }
    ensures steps { IfOk result (λ stood. RunsAtOnce P.store M.meant db.old tree.now (call.Remove key.now) (Ok (told.Value stood)) db.new) }
    ensures stops { IfErr result (λ e. StopsCall P.store M.meant db.old tree.now (call.Remove key.now) e db.new) }
    ensures gives_up { IfErr result (GivesUpCall (P.store db.old.pages) tree.now key.now) }
{
    db.remove(tree, key)
}
