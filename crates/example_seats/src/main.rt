//! Seats of a theatre, each of which has one guest.
#![tactic(auto)]

ghost use Rattle.std.specs.Prelude.{◌≡◌, IfOk, OnErr};
ghost use Rattle.example_seats.specs.Seats.{plan, Reserves};

use sled::{Db, MemPages, MergeOperator, Pages, Tree, empty_pages};

/// Gives a seat to a guest unless another guest has it, and returns whether it was free.
fn reserve<P: Pages, M: MergeOperator>(
    db: &mut Db<P, M>,
    seats: &Tree,
    seat: &[u8],
    guest: &[u8],
) -> sled::Result<bool>
    ensures ok { IfOk result (λ is_free. Reserves (plan P.store M.meant db.old seats.now) seat.now guest.now is_free (plan P.store M.meant db.new seats.now)) }
    ensures err { OnErr result (plan P.store M.meant db.new seats.now ≡ plan P.store M.meant db.old seats.now) }
{
    match db.compare_and_swap(seats, seat, None, Some(guest)) {
        Ok(swapped) => Ok(swapped.is_ok()),
        Err(e) => Err(e),
    }
}

fn run(rt: &HostRuntime, db: &mut Db<MemPages>) -> sled::Result<()> {
    let seats = db.default_tree()?;
    for guest in ["ada", "bob"] {
        let is_free = reserve(db, &seats, b"A1", guest.as_bytes())?;
        let _ = println!(rt; "A1 for {guest}: {is_free}");
    }
    Ok(())
}

fn main(rt: HostRuntime) -> sled::Result<()> {
    let alloc = rt.alloc();
    match Db::open(alloc, empty_pages(alloc), b"seats") {
        Ok(mut db) => {
            let done = run(&rt, &mut db);
            drop(db.into_pages());
            done
        }
        Err((pages, e)) => {
            drop(pages);
            Err(e)
        }
    }
}
