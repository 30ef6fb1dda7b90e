//! A database over a store of one's own: the small one of `example_stores`, which keeps a list of all that was ever done.
#![tactic(auto)]

use example_stores::LogPages;
use sled::Db;

fn fill(db: &mut Db<LogPages>) -> sled::Result<()> {
    let tree = db.default_tree()?;
    db.insert(&tree, b"ulm", b"21")?;
    db.flush()?;
    db.insert(&tree, b"bern", b"17")?;
    Ok(())
}

fn show(rt: &HostRuntime, db: &Db<LogPages>) -> sled::Result<()> {
    let tree = db.default_tree()?;
    for pair in db.iter(&tree)? {
        let (key, value) = pair?;
        let (key, value) = (key.as_ref().escape_ascii(), value.as_ref().escape_ascii());
        let _ = println!(rt; "{key} {value}");
    }
    Ok(())
}

// Pages from elsewhere may not be well formed, so they are looked at before they are opened.
fn main(rt: HostRuntime) -> sled::Result<()> {
    let alloc = rt.alloc();
    let pages = LogPages::new(alloc);
    let mut db = Db::open_checked(alloc, pages, b"weather").map_err(|(_, e)| e)?;
    fill(&mut db)?;
    show(&rt, &db)?;
    let _ = println!(rt; "after a crash that keeps what was flushed:");
    let left = db.into_pages().crash(0);
    let db = Db::open_checked(alloc, left, b"weather").map_err(|(_, e)| e)?;
    show(&rt, &db)
}
