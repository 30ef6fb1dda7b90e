//! Three threads raise a counter of one database, each by a handle of its own, and no raise is lost.
#![tactic(auto)]

ghost use Rattle.std.specs.Prelude.{◌≡◌, ◌+◌};

use sled::{Db, Error, IVec, MemPages, Outcome, Reply, Tree, empty_pages};
use sled_machine::shared::{self, Blank, Handle};
use std::alloc::Global;
use std::marker::Brand;
use std::sync::Wait;
use std::sync::ledger::Ledger;
use std::thread::{Threads, map_vec};

// The number of eight bytes, or 0.
fn number_in(value: &Option<IVec>) -> u64 {
    let Some(value) = value else {
        return 0;
    };
    match <[u8; 8]>::try_from(value.as_ref()) {
        Ok(bytes) => u64::from_be_bytes(bytes),
        Err(_) => 0,
    }
}

// Swaps the number for the next one, again if another thread came between.
fn raise<L: Ledger, R: Wait>(rt: &R, alloc: Global, tree: &Tree, handle: &mut Handle<MemPages, L>) {
    for _ in 0..100 {
        let Outcome::Decided(Reply::Value(value)) = handle.get(rt, alloc, tree, b"hits") else {
            return;
        };
        let old = value.as_ref().map(|bytes| bytes.as_ref());
        let new = number_in(&value).wrapping_add(1).to_be_bytes();
        let swap = handle.compare_and_swap(rt, alloc, tree, b"hits", old, Some(&new));
        if let Outcome::Decided(Reply::Swapped(Ok(()))) = swap {
            return;
        }
    }
}

// Three handles go to threads, each of which raises the counter ten times, and are returned.
fn work<L: Ledger + Send + Sync, R: Threads + Wait + Sync>(
    rt: &R,
    alloc: Global,
    tree: &Tree,
    shared: &mut shared::Db<MemPages, L>,
) -> sled::Result<Vec<Handle<MemPages, L>>> {
    let handles = vec![in alloc;
        shared.handle(alloc)?,
        shared.handle(alloc)?,
        shared.handle(alloc)?,
    ]?;
    let back = map_vec(
        rt,
        handles,
        &|mut handle| {
            for _ in 0..10 {
                raise(rt, alloc, tree, &mut handle);
            }
            handle
        },
    );
    back.map_err(|_| Error::NoMemory)
}

fn share<L: Ledger + Send + Sync, R: Threads + Wait + Print + Sync>(
    rt: &R,
    alloc: Global,
    blank: Blank,
    db: Db<MemPages>,
    callers: u64,
) -> sled::Result<()>
where
    requires name { blank.name ≡ L.name }
    requires parts { blank.parts ≡ L.parts }
    requires each { blank.parts ≡ callers + 1 }
{
    let tree = db.default_tree()?;
    let mut shared = shared::Db::<_, L>::new(rt, alloc, db, blank, callers).map_err(|(_, e)| e)?;
    let handles = work(rt, alloc, &tree, &mut shared)?;
    if let Ok(state) = shared.gather(rt, handles) {
        let db = state.into_machine().into_db();
        let hits = db.get(&tree, b"hits")?;
        let _ = println!(rt; "{} hits", number_in(&hits));
    }
    Ok(())
}

fn main(rt: HostRuntime) -> sled::Result<()> {
    let alloc = rt.alloc();
    let db = Db::open(alloc, empty_pages(alloc), b"counters").map_err(|(_, e)| e)?;
    share::<Brand, _>(&rt, alloc, Blank::new(4), db, 3)
}
