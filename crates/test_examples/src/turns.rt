//! Calls in flight that are stepped in turn, by `step_in_turn` of `example_progress`.
ghost use Rattle.machine_laws.specs.Moves.{IsReached};

use crate::flights::finds;
use crate::fresh::{Fresh, opened};
use example_progress::{begin, start, step_in_turn};
use machine_alone::Machine;
use sled::Tree;
use sled_model::{Call, MergeOperator, Slot};
use sled_nodes::Result;
use sled_store::Pages;
use std::alloc::Global;

// No two gets in so small a tree go on for so many steps.
const TURNS: usize = 1_000_000;

// The default tree, in which `1` is inserted at `a`.
fn filled(db: &mut Fresh) -> Result<Tree> {
    let tree = db.default_tree()?;
    match db.insert(&tree, b"a", b"1") {
        Ok(old) => {
            drop(old);
            Ok(tree)
        }
        Err(e) => {
            drop(tree);
            Err(e)
        }
    }
}

// Begins a get of `a`.
fn begin_get<P: Pages, M: MergeOperator>(machine: &mut Machine<P, M>, tree: &Tree) -> Result<Slot>
    requires { IsReached P.store P.flush_number M.meant machine.old }
    ensures { IsReached P.store P.flush_number M.meant machine.new }
{
    let get = Call::get(machine.db().allocator(), b"a")?;
    begin(machine, tree, get)
}

// Whether the first of two gets that tells something finds `1`.
fn finds_in_turn<P: Pages, M: MergeOperator>(
    machine: &mut Machine<P, M>,
    tree: &Tree,
) -> Result<bool>
    requires { IsReached P.store P.flush_number M.meant machine.old }
{
    let first = begin_get(machine, tree)?;
    let second = begin_get(machine, tree)?;
    match step_in_turn(machine, &[first, second], TURNS) {
        Some(told) => Ok(finds(told)),
        None => Ok(false),
    }
}

/// Whether the first of two gets that tells something, as they are stepped in turn, finds what was inserted.
pub fn tells_in_turn(alloc: Global) -> Result<bool> {
    let mut db = opened(alloc, b"db")?;
    let filled = filled(&mut db);
    let mut machine = start(db);
    let finds = match filled {
        Ok(tree) => {
            let finds = finds_in_turn(&mut machine, &tree);
            drop(tree);
            finds
        }
        Err(e) => Err(e),
    };
    drop(machine.into_db().into_pages());
    finds
}
