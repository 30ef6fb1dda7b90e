//! Calls in flight, on the default tree of a new database.
use crate::fresh::opened;
use example_databases::Adds;
use machine_alone::Machine;
use sled::Tree;
use sled_model::{Call, Outcome, Reply, Slot};
use sled_nodes::Result;
use sled_pages::MemPages;
use std::alloc::Global;
use std::ops::Bound;

/// A case of calls in flight.
#[derive(Clone, Copy)]
pub enum Flight {
    Gets,
    Scans,
}

// Inserts `1` at a key.
fn insert(machine: &mut Machine<MemPages, Adds>, tree: &Tree, key: &[u8]) -> Result<()> {
    let insert = Call::insert(machine.db().allocator(), key, b"1")?;
    drop(machine.complete(tree, insert));
    Ok(())
}

/// Whether a get was decided and found `1`.
pub fn finds(got: Outcome) -> bool {
    let is_found = match &got {
        Outcome::Decided(Reply::Value(Some(found))) => found.as_ref() == b"1".as_slice(),
        _ => false,
    };
    drop(got);
    is_found
}

// Whether a get that is made of a borrowed key reads what was inserted there.
fn gets(machine: &mut Machine<MemPages, Adds>, tree: &Tree) -> Result<bool> {
    insert(machine, tree, b"a")?;
    let get = Call::get(machine.db().allocator(), b"a")?;
    Ok(finds(machine.complete(tree, get)))
}

// Whether a scan gives this key with its next pair, or has given all its pairs if this is none.
fn gives(machine: &mut Machine<MemPages, Adds>, slot: Slot, key: Option<&[u8]>) -> bool {
    let outcome = machine.finish(slot);
    let is_given = match &outcome {
        Outcome::Yielded(given, _) => key == Some(given.as_ref()),
        Outcome::Decided(Reply::End) => key.is_none(),
        _ => false,
    };
    drop(outcome);
    is_given
}

// Whether the call in a slot is a scan of this tree.
fn is_scan(machine: &Machine<MemPages, Adds>, slot: Slot, tree: &Tree) -> bool {
    match machine.job(slot) {
        Some(job) => matches!(&job.call, Call::Scan { .. }) && job.tree == *tree,
        None => false,
    }
}

// The slot of a scan backwards, down to above `a`.
fn begin_scan(machine: &mut Machine<MemPages, Adds>, tree: &Tree) -> Result<Slot> {
    let alloc = machine.db().allocator();
    let scan = Call::scan(alloc, Bound::Excluded(b"a"), Bound::Unbounded, true)?;
    machine.begin(tree, scan)
}

// Whether such a scan gives the two keys there, and then ends.
fn scans(machine: &mut Machine<MemPages, Adds>, tree: &Tree) -> Result<bool> {
    for key in [b"a", b"b", b"c"] {
        insert(machine, tree, key)?;
    }
    let slot = begin_scan(machine, tree)?;
    Ok(
        is_scan(machine, slot, tree)
            && gives(machine, slot, Some(b"c"))
            && gives(machine, slot, Some(b"b"))
            && gives(machine, slot, None)
            && !is_scan(machine, slot, tree),
    )
}

// Whether calls in flight on this machine answer what they should.
fn is_seen(machine: &mut Machine<MemPages, Adds>, flight: Flight) -> Result<bool> {
    let tree = machine.db().default_tree()?;
    let is_seen = match flight {
        Flight::Gets => gets(machine, &tree),
        Flight::Scans => scans(machine, &tree),
    };
    drop(tree);
    is_seen
}

/// Whether calls in flight answer what they should.
pub fn answers(alloc: Global, flight: Flight) -> Result<bool> {
    let mut machine = Machine::new(opened(alloc, b"db")?);
    let is_seen = is_seen(&mut machine, flight);
    drop(machine.into_db().into_pages());
    is_seen
}
