//! Ids over runs with crashes between them.
ghost use Rattle.std.specs.Prelude.{◌≡◌, ◌++◌, false, IfOk};
ghost use Rattle.sled_store.specs.Store.{now};
ghost use Rattle.sled_pages.specs.Memory.{store_of};
ghost use Rattle.tree_laws.specs.Crashes.{IsValid};
ghost use Rattle.machine_alone.specs.Ids.{ids_of};
ghost use Rattle.example_machines.specs.Ids.{Rise, IdsLaw};

use machine_alone::Machine;
use sled::{Db, crash_pages};
use sled_model::{MergeOperator, Outcome, Step};
use sled_nodes::Result;
use sled_pages::MemPages;
use sled_store::Pages;
use std::alloc::Global;

/// Runs steps on a database, crashes its store, of whose last actions so many are kept, and runs more steps on what is left.
/// Each id that is given is above all that were given before, in both runs: none comes twice.
pub fn run_twice(
    alloc: Global,
    pages: MemPages,
    name: &[u8],
    steps: &[Step],
    keep: usize,
    later: &[Step],
) -> Result<(Vec<Outcome>, Vec<Outcome>)>
    requires well { IsValid (now (store_of pages)) }
    requires no_group { (now (store_of pages)).in_group ≡ false }
    ensures ok { IfOk result (λ r. Rise (ids_of steps.now r.0.items ++ ids_of later.now r.1.items)) }
{
    let db = match Db::open(alloc, pages, name) {
        Ok(db) => db,
        Err((pages, e)) => {
            drop(pages);
            return Err(e);
        }
    };
    let mut machine = Machine::new(db);
    let outcomes = match machine.run(steps) {
        Ok(outcomes) => outcomes,
        Err(e) => {
            drop(machine.into_db().into_pages());
            return Err(e);
        }
    };
    machine.audit();
    let left = crash_pages(machine.into_db().into_pages(), keep)?;
    let db = match Db::open(alloc, left, name) {
        Ok(db) => db,
        Err((left, e)) => {
            drop(left);
            drop(outcomes);
            return Err(e);
        }
    };
    let mut machine = Machine::new(db);
    let more = machine.run(later);
    drop(machine.into_db().into_pages());
    match more {
        Ok(more) => Ok((outcomes, more)),
        Err(e) => {
            drop(outcomes);
            Err(e)
        }
    }
}

/// Over any number of runs, with an opening between each and the next, a crash before it or none, and calls that are no steps between them,
/// every id that is given is above all that were given before it.
pub fn law_ids<P: Pages, M: MergeOperator>()
    ensures { IdsLaw P.store P.flush_number M.meant }
{}
