//! An index in a tree: its keys are a number and then a text, as a customer and the name of an order, spelled so that their bytes
//! are in the order of the parts.
ghost use Rattle.std.specs.Prelude.{IfOk};
ghost use Rattle.sled.specs.Reads.{ReadsMap};
ghost use Rattle.example_databases.specs.Index.{FindsUnder};

use ordered_keys::{law_prefixes, push_number};
use sled::Db;
use sled_model::{MergeOperator, Tree};
use sled_nodes::{IVec, Result};
use sled_store::Pages;
use std::alloc::Global;
use typed_map::all_of;

/// All entries of an index under a number, in the order of their texts: the keys that have this first part are those with one
/// prefix.
pub fn entries_under<P: Pages, M: MergeOperator>(
    alloc: Global,
    db: &Db<P, M>,
    tree: &Tree,
    number: u64,
) -> Result<Vec<(IVec, IVec)>>
    ensures { IfOk result (λ found. ReadsMap P.store M.meant db.now tree.now (λ map. FindsUnder number map found.items)) }
{
    law_prefixes();
    let mut prefix = Vec::new(alloc);
    push_number(&mut prefix, number)?;
    let scan = db.scan_prefix(tree, prefix.as_slice());
    drop(prefix);
    let mut entries = match scan {
        Ok(entries) => entries,
        Err(e) => return Err(e),
    };
    let found = all_of(alloc, &mut entries);
    drop(entries);
    found
}
