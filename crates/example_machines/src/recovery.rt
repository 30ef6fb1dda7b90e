//! What a crash leaves of a run.
ghost use Rattle.std.specs.Prelude.{◌≡◌, false, IfOk};
ghost use Rattle.sled_store.specs.Store.{now};
ghost use Rattle.sled_pages.specs.Memory.{store_of};
ghost use Rattle.tree_laws.specs.Crashes.{IsValid};
ghost use Rattle.example_machines.specs.Survive.{Survives, SurvivesEach};

use machine_alone::Machine;
use sled::{Db, crash_pages};
use sled_model::{Outcome, Step};
use sled_nodes::Result;
use sled_pages::MemPages;
use std::alloc::Global;

/// Opens a database, runs steps on it, crashes its store, of whose last actions so many are kept, and opens what is left.
/// Answers the outcomes of the steps and the pages of the database that was opened last.
pub fn survive(
    alloc: Global,
    pages: MemPages,
    name: &[u8],
    steps: &[Step],
    keep: usize,
) -> Result<(Vec<Outcome>, MemPages)>
    requires well { IsValid (now (store_of pages)) }
    requires no_group { (now (store_of pages)).in_group ≡ false }
    ensures ok { IfOk result (λ r. Survives (store_of pages) name.now steps.now r.0.items keep (store_of r.1)) }
    ensures each { IfOk result (λ r. SurvivesEach (store_of pages) name.now steps.now r.0.items keep (store_of r.1)) }
    ensures well { IfOk result (λ r. IsValid (now (store_of r.1))) }
    ensures no_group { IfOk result (λ r. (now (store_of r.1)).in_group ≡ false) }
{
    let db = match Db::open(alloc, pages, name) {
        Ok(db) => db,
        Err((pages, e)) => {
            drop(pages);
            return Err(e);
        }
    };
    let mut machine = Machine::new(db);
    let outcomes = match machine.run(steps) {
        Ok(outcomes) => outcomes,
        Err(e) => {
            drop(machine.into_db().into_pages());
            return Err(e);
        }
    };
    machine.audit();
    let left = crash_pages(machine.into_db().into_pages(), keep)?;
    match Db::open(alloc, left, name) {
        Ok(db) => Ok((outcomes, db.into_pages())),
        Err((left, e)) => {
            drop(left);
            drop(outcomes);
            Err(e)
        }
    }
}
