//! Runs the callers in `example_owned`: one with crashes that keep more and more, and prints what succeeded and what is found; and one with a
//! subscriber, and prints what it was told and what waits then.
#![tactic(auto)]

use example_owned::{Written, Wrote, write_and_crash, write_and_hear};
use sled::{Db, Event, IVec, MemPages, Next, QUEUE_LIMIT, Tree, empty_pages};

// A value as text, or a dash.
fn shown(rt: &HostRuntime, value: Option<IVec>, name: &str) {
    match value {
        Some(value) => {
            let text = value.as_ref().escape_ascii();
            let _ = print!(rt; " {name} {text}");
            drop(value);
        }
        None => {
            let _ = print!(rt; " {name} -");
        }
    }
}

fn show(rt: &HostRuntime, db: &Db<MemPages>, tree: &Tree, keep: usize) -> sled::Result<()> {
    let _ = print!(rt; "{keep} kept:");
    shown(rt, db.get(tree, b"order")?, "order");
    shown(rt, db.get(tree, b"stock")?, "stock");
    shown(rt, db.get(tree, b"log")?, "log");
    let _ = println!(rt;);
    Ok(())
}

fn tell(rt: &HostRuntime, written: Written) {
    let Written {
        insert,
        both,
        flush,
        later,
    } = written;
    let _ = println!(rt; "insert {insert}, both {both}, flush {flush}, later {later}");
}

fn told(rt: &HostRuntime, next: Next) {
    let _ = match next {
        Next::Event(Event::Insert { key, value }) => {
            let text = value.as_ref().escape_ascii();
            println!(rt; "{} {text}", key.as_ref().escape_ascii())
        }
        Next::Event(Event::Remove { key }) => { println!(rt; "{} -", key.as_ref().escape_ascii()) }
        Next::Missed(count) => println!(rt; "{count} missed"),
    };
}

// Makes the calls of `write_and_hear` on a new database, and takes all that waits for its subscriber then.
fn hear(rt: &HostRuntime) -> sled::Result<()> {
    let alloc = rt.alloc();
    let mut db = Db::open(alloc, empty_pages(alloc), b"shop").map_err(|(_, e)| e)?;
    let tree = db.default_tree()?;
    let subscriber = db.watch_prefix(&tree, b"")?;
    let (wrote, next) = write_and_hear(
        &mut db,
        &tree,
        &subscriber,
        b"order",
        b"17",
        b"18",
        b"stock",
        b"log",
    );
    let Wrote {
        insert,
        both,
        later,
    } = wrote;
    let _ = println!(rt; "insert {insert}, both {both}, later {later}");
    let Some(next) = next else {
        return Ok(());
    };
    told(rt, next);
    let _ = println!(rt; "waits:");
    for _ in 0..QUEUE_LIMIT + 1 {
        match db.next(&subscriber) {
            Some(next) => told(rt, next),
            None => break,
        }
    }
    Ok(())
}

fn main(rt: HostRuntime) -> sled::Result<()> {
    let alloc = rt.alloc();
    for keep in 0..3 {
        let (written, pages) = write_and_crash(
            alloc, b"shop", b"order", b"17", b"18", b"stock", b"log", keep,
        )?;
        tell(&rt, written);
        let db = Db::open(alloc, pages, b"shop").map_err(|(_, e)| e)?;
        let tree = db.default_tree()?;
        show(&rt, &db, &tree, keep)?;
    }
    hear(&rt)
}
