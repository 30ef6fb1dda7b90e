//! The whole way: a database is shared, threads raise a number of it, its store crashes, and the number is found again.
ghost use Rattle.std.specs.Prelude.{◌≡◌, ◌+◌, ◌*◌, ℕ, IfOk, IfErr};
ghost use Rattle.sled_pages.specs.Memory.{store_of};
ghost use Rattle.machine_shared.specs.History.{maps_from};
ghost use Rattle.example_crashes.specs.Crashing.{Survives, number_stored, number_under};
ghost use Rattle.example_crashes.specs.theory.Raised.{IsRaised};
ghost use Rattle.example_crashes.specs.Stopping.{stopped_as};
ghost use Rattle.example_crashes.specs.theory.Raised.{is_raised};

use crate::beside::raised_beside;
use crate::crash::{Left, found_after, number_before};
use call_laws::audit_opening;
use sled::{Db, MemPages};
use sled_machine::shared;
use sled_machine::shared::{Blank, State};
use sled_model::{MergeOperator, Tree};
use sled_nodes::Error;
use std::alloc::Global;
use std::sync::Wait;
use std::sync::ledger::Ledger;
use std::thread::Threads;

/// The number before a crash and after it.
#[derive(Drop)]
pub struct Crashed<M> {
    /// The number before the crash, once all raises were made.
    pub raised: u64,
    /// The number that was found after the crash.
    pub found: u64,
    /// The database that was opened on what the crash left. No tree has an operator yet.
    pub db: Db<MemPages, M>,
}

/// How far it came, with what there is then.
#[derive(Drop)]
pub enum Stopped<L: Ledger, M> {
    /// The database was not shared: it is as it was, or its flush was refused.
    Unshared(Db<MemPages, M>, Error),
    /// A raise did not succeed, or the database is closed. This is its state, if it could be taken back.
    Unraised(Option<State<MemPages, L, M>>),
    /// All raises succeeded, but the number was not read, or the flush after them did not succeed.
    Uncrashed(Db<MemPages, M>, Error),
    /// The database crashed, and the number was not found.
    Unfound(Left<M>),
}

// The state's database crashes, and is opened again.
fn crash_of<L: Ledger, M: MergeOperator>(
    alloc: Global,
    state: State<MemPages, L, M>,
    tree: &Tree,
    key: &[u8],
    flushes: bool,
    keep: usize,
    name: &[u8],
) -> Result<Crashed<M>, Stopped<L, M>>
    ensures survives { IfOk result (λ c. (by : ℕ) → IsRaised store_of tree.now key.now by state → Survives flushes (number_under (maps_from state.opening.contents) tree.now.name key.now) by c.raised c.found) }
    ensures reads { IfOk result (λ c. c.found ≡ number_stored (store_of c.db.pages) tree.now.name key.now) }
    ensures stopped { IfErr result is_raised }
{
    let mut db = state.into_machine().into_db();
    let raised = match number_before(&mut db, tree, key, flushes) {
        Ok(raised) => raised,
        Err(e) => return Err(Stopped::Uncrashed(db, e)),
    };
    match found_after(alloc, db, tree.name.as_ref(), key, keep, name) {
        Ok((found, db)) => Ok(Crashed { raised, found, db }),
        Err(left) => Err(Stopped::Unfound(left)),
    }
}

/// Goes the whole way. Flushes a database and shares it, and lets so many callers raise the number at a key so often each, beside each other
/// in threads. Takes the database back, and flushes it again if it `flushes`. Then its store crashes and keeps at most so many of its last
/// actions, and what is left is opened again under this name.
///
/// If it is `Ok` the number was higher before the crash by just as many raises as all make together than it was at first: none was lost.
/// What is found after the crash is no less than it was at first, since the database was flushed when it was shared, and no more than it was
/// before the crash: no raise comes from nowhere. If it `flushes` just that is found. Else it says how far it came, and hands back what
/// there is then.
///
/// ```text
/// let blank = sled_machine::shared::Blank::new(5); // For four callers.
/// let came = raise_and_crash::<std::marker::Brand, _, _>(rt, alloc, db, blank, 4, &tree, b"visits", 100, false, 7, b"db");
/// ```
pub fn raise_and_crash<L: Ledger + Send + Sync, M: MergeOperator + Send, R: Threads + Wait + Sync>(
    rt: &R,
    alloc: Global,
    db: Db<MemPages, M>,
    blank: Blank,
    callers: u64,
    tree: &Tree,
    key: &[u8],
    times: u64,
    flushes: bool,
    keep: usize,
    name: &[u8],
) -> Result<Crashed<M>, Stopped<L, M>>
    requires name { blank.name ≡ L.name }
    requires parts { blank.parts ≡ L.parts }
    requires each { blank.parts ≡ callers + 1 }
    ensures survives { IfOk result (λ c. Survives flushes (number_stored (store_of db.pages) tree.now.name key.now) (callers * times) c.raised c.found) }
    ensures reads { IfOk result (λ c. c.found ≡ number_stored (store_of c.db.pages) tree.now.name key.now) }
    ensures stopped { IfErr result (stopped_as M.meant db) }
{
    audit_opening(&db);
    match shared::Db::<MemPages, L, M>::new_flushed(rt, alloc, db, blank, callers, false) {
        Ok(shared) => match raised_beside(rt, alloc, shared, callers, tree, key, times) {
            Ok(state) => crash_of(alloc, state, tree, key, flushes, keep, name),
            Err(left) => Err(Stopped::Unraised(left)),
        },
        Err((db, e)) => Err(Stopped::Unshared(db, e)),
    }
}
