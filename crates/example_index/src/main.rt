//! A table of users, and an index that finds a user by the address. One transaction writes both, so that they agree after every call
//! and every crash.
#![tactic(auto)]

use sled::{Db, MemPages, TransactionError, TransactionResult, Tree, abort, empty_pages};

// Gives a user an address, and returns whether it was free. If it is not, nothing changes.
fn set_email(
    db: &mut Db<MemPages>,
    users: &Tree,
    emails: &Tree,
    id: &[u8],
    email: &[u8],
) -> sled::Result<bool> {
    let made: TransactionResult<(), ()> = db.transaction_all(&[users, emails], |both| {
        if both.get(1, email)?.is_some() {
            return abort(());
        }
        if let Some(before) = both.insert(0, id, email)? {
            both.remove(1, before.as_ref())?;
        }
        both.insert(1, email, id)?;
        Ok(())
    });
    match made {
        Ok(()) => Ok(true),
        Err(TransactionError::Abort(())) => Ok(false),
        Err(TransactionError::Storage(e)) => Err(e),
    }
}

fn show(rt: &HostRuntime, db: &Db<MemPages>, tree: &Tree, name: &str) -> sled::Result<()> {
    for pair in db.iter(tree)? {
        let (key, value) = pair?;
        let (key, value) = (key.as_ref().escape_ascii(), value.as_ref().escape_ascii());
        let _ = println!(rt; "{name}: {key} has {value}");
    }
    Ok(())
}

fn main(rt: HostRuntime) -> sled::Result<()> {
    let alloc = rt.alloc();
    let mut db = Db::open(alloc, empty_pages(alloc), b"users").map_err(|(_, e)| e)?;
    let users = db.open_tree(b"users")?;
    let emails = db.open_tree(b"emails")?;
    for (id, email) in [
        (b"17", b"ada@ulm"),
        (b"18", b"bob@ulm"),
        (b"18", b"ada@ulm"),
        (b"17", b"eva@ulm"),
    ] {
        let is_free = set_email(&mut db, &users, &emails, id, email)?;
        let (id, email) = (id.escape_ascii(), email.escape_ascii());
        let _ = println!(rt; "{email} for {id}: {is_free}");
    }
    show(&rt, &db, &users, "users")?;
    show(&rt, &db, &emails, "emails")
}
