//! Transactions of several trees by two handles, what was before their writes, and pages of a range one after the other.
ghost use Rattle.std.specs.Prelude.{◌≡◌};

use crate::beside::{Fresh, Way, new_database, require};
use sled::{TransactionError, TransactionResult, abort};
use sled_machine::shared::{Blank, Db, Made, RangePages};
use sled_machine::{Outcome, Reply, Tree, Whole, shared};
use sled_nodes::Error;
use std::alloc::Global;
use std::marker::Brand;
use std::ops::Bound;
use std::process::Abort;
use std::sync::Wait;
use std::sync::ledger::Ledger;

// Moves the value at a key from the first tree to the second. It answers how long the value is, and aborts if there is none.
fn move_over<L: Ledger>(
    rt: &impl Wait,
    handle: &mut Way<L>,
    trees: &[&Tree],
) -> TransactionResult<u64, u64> {
    handle.transaction_all(rt, trees, |both| {
        let Some(value) = both.remove(0, b"a")? else {
            return abort(7);
        };
        both.insert(1, b"a", value.as_ref())?;
        both.insert(1, b"b", b"new")?;
        both.flush();
        Ok(value.as_ref().len() as u64)
    })
}

// Asks for a flush and nothing else.
fn flush_alone<L: Ledger>(
    rt: &impl Wait,
    handle: &mut Way<L>,
    trees: &[&Tree],
) -> TransactionResult<u64, u64> {
    handle.transaction_all(rt, trees, |none| {
        none.flush();
        Ok(0)
    })
}

fn is_answer(ended: TransactionResult<u64, u64>, answer: u64) -> bool {
    let is = matches!(&ended, Ok(told) if *told == answer);
    drop(ended);
    is
}

fn is_given_up(ended: TransactionResult<u64, u64>) -> bool {
    let is = matches!(&ended, Err(TransactionError::Abort(7)));
    drop(ended);
    is
}

fn is_foreign(ended: TransactionResult<u64, u64>) -> bool {
    let is = matches!(
        &ended,
        Err(TransactionError::Storage(Error::Unsupported(_)))
    );
    drop(ended);
    is
}

// What was moved was in the first tree, and in the second one there was nothing at the two keys.
fn is_move(made: &Made) -> bool {
    match made {
        Made::Transaction(batches, stood) => {
            let stood =
                matches!(stood.as_slice(), [Some(value), None, None] if value.as_ref() == b"21".as_slice());
            batches.len() == 2 && stood
        }
        _ => false,
    }
}

fn is_flush(made: &Made) -> bool {
    matches!(made, Made::Whole(Whole::Flush, Reply::Number(_)))
}

fn is_decided(outcome: Outcome) -> bool {
    let decided = matches!(&outcome, Outcome::Decided(_));
    drop(outcome);
    decided
}

// One handle inserts, and the other one moves the value, twice; without trees nothing is noted, and a flush is passed over.
fn move_twice<L: Ledger, R: Wait + Abort>(
    rt: &R,
    alloc: Global,
    from: &Tree,
    to: &Tree,
    one: &mut Way<L>,
    other: &mut Way<L>,
) {
    let trees = [from, to];
    require(
        rt,
        is_decided(one.insert(rt, alloc, from, b"a", b"21")),
        "an insert",
    );
    require(rt, is_answer(move_over(rt, other, &trees), 2), "a move");
    let noted = match other.made() {
        [group, flush] => is_move(group) && is_flush(flush),
        _ => false,
    };
    require(rt, noted, "what stood, and the flush behind it");
    require(
        rt,
        is_given_up(move_over(rt, one, &trees)),
        "nothing to move",
    );
    require(rt, one.made().len() == 1, "an insert alone");
    require(rt, is_answer(flush_alone(rt, one, &[]), 0), "no trees");
    require(rt, one.made().len() == 1, "nothing without trees");
}

// A tree of another database.
fn refuse_foreign<L: Ledger, R: Wait + Abort>(rt: &R, tree: &Tree, one: &mut Way<L>) {
    let mut other = tree.clone().expect(rt, "memory");
    other.database = tree.name.clone().expect(rt, "memory");
    let before = one.made().len();
    require(
        rt,
        is_foreign(flush_alone(rt, one, &[tree, &other])),
        "a tree of another database",
    );
    require(rt, one.made().len() == before, "nothing more");
    drop(other);
}

// The first bytes of the keys of all pages, as digits of a number; a page is a digit 9.
fn walk<L: Ledger, R: Wait + Abort>(
    rt: &R,
    handle: &mut Way<L>,
    pages: &mut RangePages,
    times: usize,
) -> u64 {
    let mut told = 0u64;
    for _ in 0..times {
        match pages.next_page(rt, handle) {
            Some(Ok(page)) => {
                for (key, _) in page.as_slice() {
                    let digit = key.as_ref().first().copied().unwrap_or(0);
                    told = told.wrapping_mul(10).wrapping_add(digit as u64);
                }
                drop(page);
                told = told.wrapping_mul(10).wrapping_add(9);
            }
            Some(Err(_)) => panic!(rt; "a page"),
            None => return told,
        }
    }
    told
}

// Keys 1 to 5, two at a time; the second handle puts 4 in after the first page was read.
fn walk_beside<L: Ledger, R: Wait + Abort>(
    rt: &R,
    alloc: Global,
    tree: &Tree,
    one: &mut Way<L>,
    other: &mut Way<L>,
) {
    for key in [1u8, 2, 3, 5] {
        require(
            rt,
            is_decided(one.insert(rt, alloc, tree, &[key], b"x")),
            "an insert",
        );
    }
    let before = one.made().len();
    let mut up = shared::RangePages::new(
        alloc,
        tree,
        Bound::Unbounded,
        Bound::Included(&[5]),
        false,
        2,
    )
    .expect(rt, "memory");
    require(rt, walk(rt, one, &mut up, 1) == 129, "the first page");
    require(
        rt,
        is_decided(other.insert(rt, alloc, tree, &[4], b"x")),
        "an insert",
    );
    require(
        rt,
        is_decided(other.insert(rt, alloc, tree, &[0], b"x")),
        "an insert behind it",
    );
    require(
        rt,
        walk(rt, one, &mut up, 9) == 34959,
        "the pages behind it",
    );
    require(
        rt,
        one.made().len() == before.wrapping_add(3),
        "each page is noted",
    );
    let mut down = shared::RangePages::new(
        alloc,
        tree,
        Bound::Excluded(&[0]),
        Bound::Unbounded,
        true,
        3,
    )
    .expect(rt, "memory");
    require(
        rt,
        walk(rt, one, &mut down, 9) == 5_439_219,
        "the pages from the end",
    );
    drop(up);
    drop(down);
}

fn share_and_make<L: Ledger, R: Wait + Abort>(rt: &R, alloc: Global, db: Fresh, blank: Blank)
where
    requires name { blank.name ≡ L.name }
    requires parts { blank.parts ≡ L.parts }
    requires each { blank.parts ≡ 3 }
{
    let mut db = db;
    let from = db.open_tree(b"from").expect(rt, "a tree");
    let to = db.open_tree(b"to").expect(rt, "a tree");
    let keys = db.open_tree(b"keys").expect(rt, "a tree");
    let Ok(mut shared) = Db::<_, L, _>::new(rt, alloc, db, blank, 2) else {
        panic!(rt; "not shared")
    };
    let mut one = shared.handle(alloc).expect(rt, "a handle");
    let mut other = shared.handle(alloc).expect(rt, "a handle");
    move_twice(rt, alloc, &from, &to, &mut one, &mut other);
    refuse_foreign(rt, &from, &mut one);
    walk_beside(rt, alloc, &keys, &mut one, &mut other);
    let handles = vec![in alloc; one, other].expect(rt, "memory");
    match shared.gather(rt, handles) {
        Ok(state) => drop(state),
        Err(_) => panic!(rt; "not gathered"),
    }
    drop(from);
    drop(to);
    drop(keys);
}

// On a new database.
fn make_all<R: Wait + Abort>(rt: &R, alloc: Global) {
    share_and_make::<Brand, R>(rt, alloc, new_database(rt, alloc), Blank::new(3));
}

#[test]
fn lists_and_pages_are_noted(rt: HostRuntime) {
    make_all(&rt, rt.alloc());
}
