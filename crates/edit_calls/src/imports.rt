//! Importing collections.
ghost use Rattle.std.specs.Prelude.{IfErr, OnOk};
ghost use Rattle.sled_model.specs.Collections.{contents_of};
ghost use Rattle.sled_model.specs.Imports.{parts_of};
ghost use Rattle.sled.specs.Imports.{ImportDecided, ImportRefused, ImportsBySteps};

use sled::{Collection, Db};
use sled_model::MergeOperator;
use sled_nodes::Result;
use sled_store::Pages;

/// Opens the trees of collections, and puts their pairs into them.
pub fn import<P: Pages, M: MergeOperator>(
    db: &mut Db<P, M>,
    collections: &[Collection],
) -> Result<()>
    ensures ok { OnOk result (ImportDecided P.store M.meant db.old (contents_of collections.now) db.new) }
    ensures err { IfErr result (λ e. ImportRefused P.store M.meant db.old (contents_of collections.now) e db.new) }
    ensures steps { OnOk result (ImportsBySteps P.store M.meant db.old (parts_of (contents_of collections.now)) db.new) }
{
    db.import(collections)
}
