//! A queue of work in two trees. One transaction takes a job from those that are ready to those that run, so no crash loses it, and
//! none leaves it in both.
#![tactic(auto)]

use sled::{Db, MemPages, TransactionError, TransactionResult, Tree, crash_pages, empty_pages};

// Has the first job that is ready run.
fn start(db: &mut Db<MemPages>, ready: &Tree, running: &Tree) -> sled::Result<()> {
    let Some((number, job)) = db.first(ready)? else {
        return Ok(());
    };
    let started: TransactionResult<(), ()> = db.transaction_all(&[ready, running], |both| {
        both.remove(0, number.as_ref())?;
        both.insert(1, number.as_ref(), job.as_ref())?;
        Ok(())
    });
    match started {
        Err(TransactionError::Storage(e)) => Err(e),
        _ => Ok(()),
    }
}

// Two jobs are put in, which a flush makes durable. Both are started after it.
fn work(db: &mut Db<MemPages>) -> sled::Result<()> {
    let ready = db.open_tree(b"ready")?;
    let running = db.open_tree(b"running")?;
    db.insert(&ready, b"1", b"wash")?;
    db.insert(&ready, b"2", b"iron")?;
    db.flush()?;
    start(db, &ready, &running)?;
    start(db, &ready, &running)
}

// Shows what is left of the work by a crash that keeps so many of the page actions since the flush.
fn main(rt: HostRuntime) -> sled::Result<()> {
    for keep in 0..9 {
        let mut db = Db::open(rt.alloc(), empty_pages(rt.alloc()), b"jobs").map_err(|(_, e)| e)?;
        work(&mut db)?;
        let left = crash_pages(db.into_pages(), keep)?;
        let mut db = Db::open(rt.alloc(), left, b"jobs").map_err(|(_, e)| e)?;
        let _ = print!(rt; "{keep} actions kept");
        for name in ["ready", "running"] {
            let tree = db.open_tree(name.as_bytes())?;
            let _ = print!(rt; ", {name}:");
            for job in db.iter(&tree)?.values() {
                let _ = print!(rt; " {}", job?.as_ref().escape_ascii());
            }
        }
        let _ = println!(rt; "");
    }
    Ok(())
}
