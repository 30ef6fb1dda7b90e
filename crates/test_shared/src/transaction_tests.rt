//! Transactions by two handles: what is added to the lists and the history, and what is refused.
ghost use Rattle.std.specs.Prelude.{◌≡◌};

use crate::beside::{Fresh, Gathered, Way, new_database, require};
use sled::{TransactionError, TransactionResult, abort};
use sled_machine::shared::{Blank, Db, Entry, Made};
use sled_machine::{Outcome, Reply, Tree, Whole};
use sled_nodes::Error;
use std::alloc::Global;
use std::marker::Brand;
use std::process::Abort;
use std::sync::Wait;
use std::sync::ledger::Ledger;

// How a transaction came out.
#[derive(Clone, Copy, PartialEq, Eq)]
enum Came {
    /// It answered this.
    Answered(u64),
    /// It was aborted with this.
    GivenUp(u64),
    NoSuchTree,
    Other,
}

fn came_of(ended: TransactionResult<u64, u64>) -> Came {
    let came = match &ended {
        Ok(answer) => Came::Answered(*answer),
        Err(TransactionError::Abort(why)) => Came::GivenUp(*why),
        Err(TransactionError::Storage(Error::CollectionNotFound(_))) => Came::NoSuchTree,
        Err(TransactionError::Storage(_)) => Came::Other,
    };
    drop(ended);
    came
}

// Moves the value at `a` to `b`, and flushes. It answers how long the value is, and aborts if there is none.
fn transfer<L: Ledger>(rt: &impl Wait, handle: &mut Way<L>, tree: &Tree) -> Came {
    came_of(handle.transaction(rt, tree, |inside| {
        let Some(value) = inside.remove(b"a")? else {
            return abort(7);
        };
        inside.insert(b"b", value.as_ref())?;
        inside.flush();
        Ok(value.as_ref().len() as u64)
    }))
}

// Reads its own write, takes an id, and aborts with it.
fn take_id<L: Ledger>(rt: &impl Wait, handle: &mut Way<L>, tree: &Tree) -> Came {
    came_of(handle.transaction(rt, tree, |inside| {
        inside.insert(b"c", b"4")?;
        match inside.get(b"c")? {
            Some(value) => drop(value),
            None => return abort(1),
        }
        abort(inside.generate_id()?)
    }))
}

fn is_decided(outcome: Outcome) -> bool {
    let decided = matches!(&outcome, Outcome::Decided(_));
    drop(outcome);
    decided
}

fn is_group(entry: &Entry, by: u64) -> bool {
    entry.by == by && matches!(&entry.made, Made::Transaction(_, _))
}

fn is_flush(entry: &Entry, by: u64) -> bool {
    entry.by == by && matches!(&entry.made, Made::Whole(Whole::Flush, Reply::Number(_)))
}

// An insert by the first handle, the group and the flush of the second one, and the drop of the tree.
fn look<L: Ledger, R: Abort>(rt: &R, state: Gathered<L>) {
    let history = state.history();
    let in_order = match history {
        [_, group, flush, _] => is_group(group, 2) && is_flush(flush, 2),
        _ => false,
    };
    require(rt, in_order, "the flush behind the group");
    drop(state);
}

// One handle inserts; the other moves the value, finds none, asks for an id, and finds the tree gone.
fn make<L: Ledger, R: Wait + Abort>(
    rt: &R,
    alloc: Global,
    tree: &Tree,
    one: &mut Way<L>,
    other: &mut Way<L>,
) {
    require(
        rt,
        is_decided(one.insert(rt, alloc, tree, b"a", b"21")),
        "an insert",
    );
    require(
        rt,
        transfer(rt, other, tree) == Came::Answered(2),
        "a transfer",
    );
    require(rt, other.made().len() == 2, "a group and a flush");
    require(
        rt,
        transfer(rt, one, tree) == Came::GivenUp(7),
        "nothing to move",
    );
    require(
        rt,
        take_id(rt, one, tree) == Came::GivenUp(1) && take_id(rt, other, tree) == Came::GivenUp(2),
        "ids that stay taken",
    );
    require(rt, one.made().len() == 1, "an insert alone");
    let name = tree.name.clone().expect(rt, "memory");
    require(
        rt,
        is_decided(one.whole(rt, Whole::DropTree(name))),
        "a drop",
    );
    require(
        rt,
        transfer(rt, other, tree) == Came::NoSuchTree,
        "a tree that is gone",
    );
    require(rt, other.made().len() == 2, "nothing more");
}

fn share_and_make<L: Ledger, R: Wait + Abort>(rt: &R, alloc: Global, db: Fresh, blank: Blank)
where
    requires name { blank.name ≡ L.name }
    requires parts { blank.parts ≡ L.parts }
    requires each { blank.parts ≡ 3 }
{
    let mut db = db;
    let tree = db.open_tree(b"t").expect(rt, "a tree");
    let Ok(mut shared) = Db::<_, L, _>::new(rt, alloc, db, blank, 2) else {
        panic!(rt; "not shared")
    };
    let mut one = shared.handle(alloc).expect(rt, "a handle");
    let mut other = shared.handle(alloc).expect(rt, "a handle");
    make(rt, alloc, &tree, &mut one, &mut other);
    let handles = vec![in alloc; one, other].expect(rt, "memory");
    match shared.gather(rt, handles) {
        Ok(state) => look(rt, state),
        Err(_) => panic!(rt; "not gathered"),
    }
    drop(tree);
}

// On a new database.
fn transact_all<R: Wait + Abort>(rt: &R, alloc: Global) {
    share_and_make::<Brand, R>(rt, alloc, new_database(rt, alloc), Blank::new(3));
}

#[test]
fn a_transfer_is_noted_as_its_group(rt: HostRuntime) {
    transact_all(&rt, rt.alloc());
}
