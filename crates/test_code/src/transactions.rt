//! The errors of transactions, with their texts and clones, and how often a closure is run.
use machine_alone::Machine;
use sled::{
    Commit, ConflictableTransactionError, Db, MemPages, Overlays, TransactionError,
    TransactionResult, UnabortableTransactionError, group_of,
};
use sled_batch::Batch;
use sled_model::Tree;
use sled_nodes::{Error, IVec, Result};
use std::cell::Cell;
use std::fmt::{Debug, Display};
use test_report::{Report, is_same};

// Prints an error, and whether its clone is the same.
fn tell_error<E: Debug + Display + PartialEq + Drop>(report: &Report, error: E, copy: Result<E>) {
    let is_same = is_same(&error, copy).unwrap_or(false);
    report.tell(format_args!("{error}; {error:?}; its clone is the same: {is_same}"));
    drop(error);
}

// Why a call inside is refused.
fn tell_refusal(report: &Report, refusal: UnabortableTransactionError) {
    let copy = refusal.clone();
    tell_error(report, refusal, copy);
}

// How a closure ends.
fn tell_ending(report: &Report, ending: ConflictableTransactionError<u64>) {
    let copy = ending.clone();
    tell_error(report, ending, copy);
}

// What a transaction answers that does not answer `Ok`.
fn tell_answer(report: &Report, answer: TransactionError<u64>) {
    let copy = answer.clone();
    tell_error(report, answer, copy);
}

/// Prints all of them.
pub fn tell_errors(report: &Report) {
    tell_refusal(report, UnabortableTransactionError::Conflict);
    tell_refusal(
        report,
        UnabortableTransactionError::Storage(Error::NoMemory),
    );
    tell_ending(report, ConflictableTransactionError::Abort(7));
    tell_ending(report, ConflictableTransactionError::Conflict);
    tell_ending(
        report,
        ConflictableTransactionError::Storage(Error::NoMemory),
    );
    tell_answer(report, TransactionError::Abort(7));
    tell_answer(report, TransactionError::Storage(Error::NoMemory));
}

// How often the closure of a transaction is run that meets so many conflicts before it writes and takes no id, and whether the
// transaction is made.
fn runs(db: &mut Db<MemPages>, tree: &Tree, conflicts: u32) -> (u32, bool) {
    let count = Cell::new(0u32);
    let ended: TransactionResult<(), ()> = db.transaction(tree, |inside| {
        count.set(count.get().wrapping_add(1));
        if count.get() <= conflicts {
            return Err(ConflictableTransactionError::Conflict);
        }
        inside.insert(b"ulm", b"21")?;
        Ok(())
    });
    let is_made = ended.is_ok();
    drop(ended);
    (count.get(), is_made)
}

// Whether `ulm` is in the second tree, and no longer in the first.
fn is_moved(db: &Db<MemPages>, from: &Tree, to: &Tree) -> Result<bool> {
    Ok(!db.contains_key(from, b"ulm")? && db.contains_key(to, b"ulm")?)
}

// Moves the value of `ulm` from the first tree to the second: what it was.
fn take(db: &mut Db<MemPages>, from: &Tree, to: &Tree) -> Option<IVec> {
    let ended: TransactionResult<Option<IVec>, ()> = db.transaction_all(&[from, to], |both| {
        let value = both.remove(0, b"ulm")?;
        both.insert(1, b"ulm", b"22")?;
        Ok(value)
    });
    ended.unwrap_or(None)
}

// The same after `ulm` was given a value, and whether it is gone from the one tree and in the other.
fn move_value(db: &mut Db<MemPages>, from: &Tree, to: &Tree) -> Result<(Option<IVec>, bool)> {
    drop(db.insert(from, b"ulm", b"21")?);
    let value = take(db, from, to);
    Ok((value, is_moved(db, from, to)?))
}

// Prints what comes of closures that meet a few conflicts, as many as there may be, and one more.
fn tell_runs(report: &Report, db: &mut Db<MemPages>, tree: &Tree) {
    let few = runs(db, tree, 3);
    let most = runs(db, tree, 999_999);
    let more = runs(db, tree, 1_000_000);
    let words = "3, 999,999 and 1,000,000 conflicts: closures were run";
    report.show(words, (few, most, more));
}

// Prints what comes of a value that is moved to another tree.
fn tell_move(report: &Report, db: &mut Db<MemPages>, from: &Tree) {
    if let Some(to) = report.keep(db.open_tree(b"other")) {
        let moved = move_value(db, from, &to);
        drop(to);
        report.show("a value is moved to another tree", moved);
    }
}

// What a closure wrote that is run alone.
type Wrote = TransactionResult<Commit<(), Batch>, ()>;

type WroteAll = TransactionResult<Commit<(), Overlays>, ()>;

// How many writes a closure hands back, and whether its key is there before they are made and after.
fn run_alone(db: &mut Db<MemPages>, tree: &Tree) -> Result<(usize, bool, bool)> {
    let ended: Wrote = db.run_transaction(tree, |inside| {
        inside.insert(b"alone", b"1")?;
        Ok(())
    });
    let Ok(commit) = ended else {
        return Err(Error::NoMemory);
    };
    let writes = commit.writes;
    let count = writes.len();
    let before = db.contains_key(tree, b"alone")?;
    db.apply_batch(tree, writes)?;
    Ok((count, before, db.contains_key(tree, b"alone")?))
}

// How many batches are handed back of a closure at two trees, how many writes of the second one, and whether its key is there once they
// are made as a group.
fn run_alone_at_both(
    db: &mut Db<MemPages>,
    from: &Tree,
    to: &Tree,
) -> Result<(usize, usize, bool)> {
    let ended: WroteAll = db.run_transaction_all(&[from, to], |both| {
        both.insert(1, b"alone", b"1")?;
        both.remove(1, b"ulm")?;
        Ok(())
    });
    let Ok(commit) = ended else {
        return Err(Error::NoMemory);
    };
    let group = group_of(db.allocator(), &[from, to], commit.writes.into_batches())?;
    let count = group.len();
    let second = group.get(1).map_or(0, |(_, batch)| batch.len());
    let made = db.apply_group(group.as_slice());
    drop(group);
    made?;
    Ok((count, second, db.contains_key(to, b"alone")?))
}

// The same by a machine: how many writes of the tree, how many batches of a list of one, and how many of these are in a group of no trees.
fn run_by_machine(machine: &mut Machine<MemPages>, tree: &Tree) -> Result<(usize, usize, usize)> {
    let ended: Wrote = machine.run_transaction(tree, |inside| {
        inside.remove(b"alone")?;
        Ok(())
    });
    let Ok(commit) = ended else {
        return Err(Error::NoMemory);
    };
    let writes = commit.writes.len();
    drop(commit);
    let ended: WroteAll = machine.run_transaction_all(&[tree], |one| {
        one.insert(0, b"alone", b"1")?;
        Ok(())
    });
    let Ok(commit) = ended else {
        return Err(Error::NoMemory);
    };
    let batches = commit.writes.into_batches();
    let count = batches.len();
    let group = group_of(machine.db().allocator(), &[], batches)?;
    let paired = group.len();
    drop(group);
    Ok((writes, count, paired))
}

// Prints what closures hand back that are run alone.
fn tell_run_alone(report: &Report, mut db: Db<MemPages>, tree: &Tree) -> Db<MemPages> {
    report.show("run alone, and made after it", run_alone(&mut db, tree));
    if let Some(to) = report.keep(db.open_tree(b"other")) {
        let both = run_alone_at_both(&mut db, tree, &to);
        drop(to);
        report.show("run alone at two trees", both);
    }
    let mut machine = Machine::new(db);
    report.show("run alone by a machine", run_by_machine(&mut machine, tree));
    machine.into_db()
}

/// Prints what comes of transactions. The database comes back.
pub fn tell_on(report: &Report, mut db: Db<MemPages>, tree: &Tree) -> Db<MemPages> {
    tell_runs(report, &mut db, tree);
    tell_move(report, &mut db, tree);
    tell_run_alone(report, db, tree)
}
