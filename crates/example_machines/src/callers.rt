//! Callers of the machine. Their proofs cite what the contracts below say, and nothing of how it is done.
ghost use Rattle.std.specs.Prelude.{◌≡◌, IfOk, IfErr, IfSome, IfNone, MatchOption, Some, false, if◌then◌else◌};
ghost use Rattle.sled_store.specs.Store.{now};
ghost use Rattle.sled_store.specs.Crash.{Crashes};
ghost use Rattle.sled_pages.specs.Memory.{store_of};
ghost use Rattle.tree_laws.specs.Contents.{trees_of};
ghost use Rattle.tree_laws.specs.Crashes.{IsValid};
ghost use Rattle.sled_model.specs.declared.call.Call.TheVariants as call;
ghost use Rattle.sled_model.specs.declared.outcome.Outcome.TheVariants as outcome;
ghost use Rattle.sled_model.specs.declared.outcome.Step.TheVariants as step;
ghost use Rattle.sled_model.specs.State.{default_name};
ghost use Rattle.sled.specs.Opens.{IsOnePage};
ghost use Rattle.machine_alone.specs.Step.{MachineStepContract};
ghost use Rattle.example_parts.specs.Reads.{maps_now, found_in};
ghost use Rattle.example_machines.specs.Callers.{ReadsAs, HasTurns, PutsOne, later};

use machine_alone::Machine;
use sled::{Db, crash_pages, empty_pages};
use sled_model::{Call, MergeOperator, Outcome, Slot, Tree};
use sled_nodes::{Error, IVec, Result, clone_pair};
use sled_pages::MemPages;
use sled_store::Pages;
use std::alloc::Global;

// The insert of copies of a key and a value.
fn insert_of(key: &IVec, value: &IVec) -> Result<Call>
    ensures { IfOk result (λ made. made ≡ call.Insert key.now value.now) }
{
    let (key, value) = clone_pair(key, value)?;
    Ok(Call::Insert(key, value))
}

/// Inserts a pair into a tree, and gets its key then: how the get came out, or `None` if the insert was not decided, which changes
/// no map.
pub fn insert_then_get<P: Pages, M: MergeOperator>(
    machine: &mut Machine<P, M>,
    tree: &Tree,
    key: &IVec,
    value: &IVec,
) -> Result<Option<Outcome>>
    ensures none { IfOk result (λ got. IfNone got (maps_now P.store M.meant machine.new.db ≡ maps_now P.store M.meant machine.old.db)) }
    ensures reads { IfOk result (λ got. IfSome got (ReadsAs (Some value.now))) }
    ensures puts { IfOk result (λ got. IfSome got (λ _. PutsOne (maps_now P.store M.meant machine.old.db) (maps_now P.store M.meant machine.new.db) tree.now.name key.now value.now)) }
{
    let slot = machine.begin(tree, insert_of(key, value)?)?;
    match machine.finish(slot) {
        Outcome::Decided(reply) => drop(reply),
        outcome => {
            drop(outcome);
            return Ok(None);
        }
    }
    let got = get(machine, tree, key)?;
    Ok(Some(got))
}

/// The same on a new database of this name over an empty store in memory, in its default tree.
pub fn insert_then_get_in_new(
    alloc: Global,
    name: &[u8],
    key: &IVec,
    value: &IVec,
) -> Result<Option<Outcome>>
    ensures { IfOk result (λ got. IfSome got (ReadsAs (Some value.now))) }
{
    let mut machine = match Db::open(alloc, empty_pages(alloc), name) {
        Ok(db) => Machine::new(db),
        Err((pages, e)) => {
            drop(pages);
            return Err(e);
        }
    };
    let tree = match machine.db().default_tree() {
        Ok(tree) => tree,
        Err(e) => {
            drop(machine.into_db().into_pages());
            return Err(e);
        }
    };
    let got = insert_then_get(&mut machine, &tree, key, value);
    drop(tree);
    drop(machine.into_db().into_pages());
    got
}

// Which of two calls was decided last, after a step of the one or the other.
fn decided_last(outcome: Outcome, is_second: bool, last: Option<bool>) -> Option<bool>
    ensures { result ≡ later outcome is_second last }
{
    let last = match &outcome {
        Outcome::Decided(_) => Some(is_second),
        _ => last,
    };
    drop(outcome);
    last
}

// An insert of copies of a key and a value begins.
fn begin_insert<P: Pages, M: MergeOperator>(
    machine: &mut Machine<P, M>,
    tree: &Tree,
    key: &IVec,
    value: &IVec,
) -> Result<Slot>
    ensures { IfOk result (λ slot. MachineStepContract P.store P.flush_number M.meant machine.old (step.Begin tree.now (call.Insert key.now value.now)) (outcome.Begun slot) machine.new) }
{
    let insert = insert_of(key, value)?;
    machine.begin(tree, insert)
}

/// Two inserts at one key at once, whose steps go in this order, `true` for a step of the second: which of them was
/// decided last, if one was.
pub fn race<P: Pages, M: MergeOperator>(
    machine: &mut Machine<P, M>,
    tree: &Tree,
    key: &IVec,
    first: &IVec,
    second: &IVec,
    order: &[bool],
) -> Result<Option<bool>>
    ensures none { IfOk result (λ last. MatchOption last (maps_now P.store M.meant machine.new.db ≡ maps_now P.store M.meant machine.old.db) (λ _. Unit {0})) }
    ensures last { IfOk result (λ last. IfSome last (λ is_second. PutsOne (maps_now P.store M.meant machine.old.db) (maps_now P.store M.meant machine.new.db) tree.now.name key.now (if is_second then second.now else first.now))) }
{
    let one = begin_insert(machine, tree, key, first)?;
    let two = begin_insert(machine, tree, key, second)?;
    let mut last = None;
    for is_second in order {
        let slot = if *is_second { two } else { one };
        last = decided_last(machine.step(slot), *is_second, last);
    }
    Ok(last)
}

/// Gets a key of a tree: how the get came out. It has turns enough if the tree is one page.
pub fn get<P: Pages, M: MergeOperator>(
    machine: &mut Machine<P, M>,
    tree: &Tree,
    key: &IVec,
) -> Result<Outcome>
    ensures reads { IfOk result (ReadsAs (found_in (maps_now P.store M.meant machine.old.db tree.now.name) key.now)) }
    ensures same { IfOk result (λ _. maps_now P.store M.meant machine.new.db ≡ maps_now P.store M.meant machine.old.db) }
    ensures prompt { IfOk result (λ got. IsOnePage (now (P.store machine.old.db.pages)) tree.now.name → HasTurns got) }
{
    let slot = machine.begin(tree, Call::Get(key.clone()?))?;
    Ok(machine.finish(slot))
}

// Gets a key of the default tree.
fn get_in_default<P: Pages, M: MergeOperator>(
    machine: &mut Machine<P, M>,
    key: &IVec,
) -> Result<Outcome>
    ensures reads { IfOk result (ReadsAs (found_in (maps_now P.store M.meant machine.old.db default_name) key.now)) }
    ensures prompt { IfOk result (λ got. IsOnePage (now (P.store machine.old.db.pages)) default_name → HasTurns got) }
{
    let tree = machine.db().default_tree()?;
    get(machine, &tree, key)
}

/// Gets a key of a new database of this name over an empty store in memory. Its default tree is one page, so the get has turns
/// enough.
pub fn get_in_new(alloc: Global, name: &[u8], key: &IVec) -> Result<Outcome>
    ensures { IfOk result HasTurns }
{
    let mut machine = match Db::open(alloc, empty_pages(alloc), name) {
        Ok(db) => Machine::new(db),
        Err((pages, e)) => {
            drop(pages);
            return Err(e);
        }
    };
    let got = get_in_default(&mut machine, key);
    drop(machine.into_db().into_pages());
    got
}

/// Ends a machine, opens its pages again under a name, and ends that database too: the pages. The calls in flight are given
/// up. Whether it could be opened or not, every tree has its map of before. If a group is open it is refused with `Closed`.
pub fn reopen<P: Pages, M: MergeOperator>(
    alloc: Global,
    machine: Machine<P, M>,
    name: &[u8],
) -> std::result::Result<P, (P, Error)>
    ensures same { IfOk result (λ pages. trees_of (now (P.store pages)) ≡ trees_of (now (P.store machine.db.pages))) }
    ensures kept { IfErr result (λ e. trees_of (now (P.store e.0)) ≡ trees_of (now (P.store machine.db.pages))) }
{
    let pages = machine.into_db().into_pages();
    if pages.in_group() {
        return Err((pages, Error::Closed));
    }
    match Db::open(alloc, pages, name) {
        Ok(db) => Ok(db.into_pages()),
        Err(e) => Err(e),
    }
}

/// Ends a machine, opens its pages again under a name, and gets a key of the default tree there: how the get came out. It
/// reads what the first database had. If a group is open it is refused with `Closed`.
pub fn reopen_then_get<P: Pages, M: MergeOperator>(
    alloc: Global,
    machine: Machine<P, M>,
    name: &[u8],
    key: &IVec,
) -> Result<Outcome>
    ensures { IfOk result (ReadsAs (found_in (maps_now P.store M.meant machine.db default_name) key.now)) }
{
    let pages = machine.into_db().into_pages();
    if pages.in_group() {
        drop(pages);
        return Err(Error::Closed);
    }
    let db = match Db::open(alloc, pages, name) {
        Ok(db) => db,
        Err((pages, e)) => {
            drop(pages);
            return Err(e);
        }
    };
    let mut machine = Machine::new(db);
    let got = get_in_default(&mut machine, key);
    drop(machine.into_db().into_pages());
    got
}

/// Ends a database, and crashes its pages so that they keep this many actions at most: what is left can be opened again. It may be
/// that a group is open.
pub fn crash<M: MergeOperator>(db: Db<MemPages, M>, keep: usize) -> Result<MemPages>
    ensures well { IfOk result (λ left. IsValid (now (store_of left))) }
    ensures no_group { IfOk result (λ left. (now (store_of left)).in_group ≡ false) }
    ensures crashes { IfOk result (λ left. Crashes keep (store_of db.pages) (store_of left)) }
{
    crash_pages(db.into_pages(), keep)
}
