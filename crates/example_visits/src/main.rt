//! Three threads count visits in a database in files, each by transactions of a handle of its own. What was flushed is found again.
#![tactic(auto)]

ghost use Rattle.std.specs.Prelude.{◌≡◌, ◌+◌};

use sled::{Db, Error, IVec, TransactionResult, Tree};
use sled_files::FilePages;
use sled_host::HostFile;
use sled_machine::shared::{self, Blank, Handle};
use sled_model::MergeOperator;
use sled_path::open;
use std::alloc::Global;
use std::marker::Brand;
use std::sync::Wait;
use std::sync::ledger::Ledger;
use std::thread::{Threads, map_vec};

type Operator = Box<dyn MergeOperator + Send>;

type Files = FilePages<HostFile>;

// The number of eight bytes, or 0.
fn number_in(value: &Option<IVec>) -> u64 {
    let Some(value) = value else {
        return 0;
    };
    match <[u8; 8]>::try_from(value.as_ref()) {
        Ok(bytes) => u64::from_be_bytes(bytes),
        Err(_) => 0,
    }
}

// Writes the next number, as a transaction: no other thread comes between.
fn count_one<L: Ledger>(rt: &impl Wait, tree: &Tree, handle: &mut Handle<Files, L>) {
    let counted: TransactionResult<(), ()> = handle.transaction(rt, tree, |inside| {
        let visits = inside.get(b"visits")?;
        let next = number_in(&visits).wrapping_add(1);
        drop(visits);
        inside.insert(b"visits", &next.to_be_bytes())?;
        Ok(())
    });
    drop(counted);
}

// Three handles go to threads, and are returned.
fn work<L: Ledger + Send + Sync, R: Threads + Wait + Sync>(
    rt: &R,
    alloc: Global,
    tree: &Tree,
    shared: &mut shared::Db<Files, L>,
) -> sled::Result<Vec<Handle<Files, L>>> {
    let handles = vec![in alloc;
        shared.handle(alloc)?,
        shared.handle(alloc)?,
        shared.handle(alloc)?,
    ]?;
    let back = map_vec(
        rt,
        handles,
        &|mut handle| {
            for _ in 0..10 {
                count_one(rt, tree, &mut handle);
            }
            handle
        },
    );
    back.map_err(|_| Error::NoMemory)
}

fn share<L: Ledger + Send + Sync, R: Threads + Wait + Sync>(
    rt: &R,
    alloc: Global,
    blank: Blank,
    db: Db<Files>,
    callers: u64,
) -> sled::Result<()>
where
    requires name { blank.name ≡ L.name }
    requires parts { blank.parts ≡ L.parts }
    requires each { blank.parts ≡ callers + 1 }
{
    let tree = db.default_tree()?;
    let mut shared = shared::Db::<_, L>::new(rt, alloc, db, blank, callers).map_err(|(_, e)| e)?;
    let handles = work(rt, alloc, &tree, &mut shared)?;
    if let Ok(state) = shared.gather(rt, handles) {
        let mut db = state.into_machine().into_db();
        let flushed = db.flush()?;
        let _ = flushed;
    }
    Ok(())
}

// What is found in the folder.
fn tell(rt: &HostRuntime) -> sled::Result<()> {
    if let Ok(db) = open::<Operator>(rt, "visits.db", b"visits") {
        let tree = db.default_tree()?;
        let visits = db.get(&tree, b"visits")?;
        let _ = println!(rt; "{} visits", number_in(&visits));
    }
    Ok(())
}

fn main(rt: HostRuntime) -> sled::Result<()> {
    if let Ok(db) = open::<Operator>(&rt, "visits.db", b"visits") {
        share::<Brand, _>(&rt, rt.alloc(), Blank::new(4), db, 3)?;
    }
    tell(&rt)
}
