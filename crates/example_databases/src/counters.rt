//! Counters in a tree of a database: numbers that are added to by merges, and tickets that rise by one. A number is eight bytes,
//! the highest first; what is at a name and is of another length counts as 0, and so does a name without a value.
ghost use Rattle.std.specs.Prelude.{◌≡◌, Some, IfOk, OnOk, OnErr};
ghost use Rattle.std.specs.Option.{option_map, option_copied};
ghost use Rattle.example_parts.specs.Counters.{bytes_of_sum, counter_in, sum_of};
ghost use Rattle.example_parts.specs.Reads.{maps_now};
ghost use Rattle.example_databases.specs.Counters.{counters_now, SetsCounter};

use example_parts::{Adds, add_to, number_at};
use sled::Db;
use sled_model::{MergeOperator, Tree};
use sled_nodes::Result;
use sled_store::Pages;
use std::alloc::{AllocError, Global};

/// Adds a number to a counter of the tree, which has the operator that adds. Refused, all counters are as before.
pub fn add_to_counter<P: Pages>(
    db: &mut Db<P, Adds>,
    tree: &Tree,
    name: &[u8],
    n: u64,
) -> Result<()>
    ensures ok { OnOk result (SetsCounter (counters_now P.store db.old) (counters_now P.store db.new) tree.now.name name.now (sum_of (counter_in (counters_now P.store db.old) tree.now.name name.now) n)) }
    ensures err { OnErr result (counters_now P.store db.new ≡ counters_now P.store db.old) }
{
    let merged = match db.merge(tree, name, &n.to_be_bytes()) {
        Ok(merged) => merged,
        Err(e) => return Err(e),
    };
    drop(merged);
    Ok(())
}

/// The number of a counter of the tree.
pub fn count<P: Pages, M: MergeOperator>(db: &Db<P, M>, tree: &Tree, name: &[u8]) -> Result<u64>
    ensures { IfOk result (λ n. n ≡ counter_in (maps_now P.store M.meant db.now) tree.now.name name.now) }
{
    let value = match db.get(tree, name) {
        Ok(value) => value,
        Err(e) => return Err(e),
    };
    let n = number_at(&value);
    drop(value);
    Ok(n)
}

// The number one above the one that is there.
fn one_more(alloc: Global, stood: Option<&[u8]>) -> std::result::Result<Option<Vec<u8>>, AllocError>
    ensures { IfOk result (λ made. option_map (λ v. v.items) made ≡ Some (bytes_of_sum (option_copied stood.entry) 1)) }
{
    Ok(Some(add_to(alloc, stood, 1)?))
}

/// Raises the number at a name by one, and answers it: the next ticket. Refused, all numbers are as before.
pub fn next_ticket<P: Pages, M: MergeOperator>(
    db: &mut Db<P, M>,
    tree: &Tree,
    name: &[u8],
) -> Result<u64>
    ensures ok { IfOk result (λ ticket. ticket ≡ sum_of (counter_in (maps_now P.store M.meant db.old) tree.now.name name.now) 1) }
    ensures sets { IfOk result (SetsCounter (maps_now P.store M.meant db.old) (maps_now P.store M.meant db.new) tree.now.name name.now) }
    ensures err { OnErr result (maps_now P.store M.meant db.new ≡ maps_now P.store M.meant db.old) }
{
    let alloc = db.allocator();
    let made = match db.update_and_fetch(tree, name, |stood| one_more(alloc, stood)) {
        Ok(made) => made,
        Err(e) => return Err(e),
    };
    let ticket = number_at(&made);
    drop(made);
    Ok(ticket)
}
