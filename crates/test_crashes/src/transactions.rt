//! Transactions that move a value, to another key or to the second tree.
use crate::maps::{SIDE, key_of};
use crate::script::Step;
use crate::store::{Files, Store};
use sled::{
    ConflictableTransactionResult, TransactionError, TransactionResult, TransactionalTree,
    TransactionalTrees, abort,
};
use test_report::trouble::{Result, Trouble, expect};

// What the closure of a transaction does that moves a value to another key.
fn move_inside(
    inside: &mut TransactionalTree<'_, Store>,
    from: &[u8],
    to: &[u8],
) -> ConflictableTransactionResult<(), ()> {
    let Some(value) = inside.remove(from)? else {
        return abort(());
    };
    let stood = inside.insert(to, value.as_ref())?;
    drop(value);
    drop(stood);
    Ok(())
}

// What that of one does that moves a value to the second tree.
fn move_inside_both(
    both: &mut TransactionalTrees<'_, Store>,
    key: &[u8],
) -> ConflictableTransactionResult<(), ()> {
    let Some(value) = both.remove(0, key)? else {
        return abort(());
    };
    let stood = both.insert(1, key, value.as_ref())?;
    drop(value);
    drop(stood);
    Ok(())
}

// Whether a transaction was made if there is a value, and aborted if there is none.
fn expect_end(ended: TransactionResult<(), ()>, is_there: bool) -> Result<()> {
    match ended {
        Ok(()) => expect(is_there, "a transaction was made that should be aborted"),
        Err(TransactionError::Abort(())) => {
            expect(!is_there, "a transaction was aborted that should be made")
        }
        Err(TransactionError::Storage(e)) => Err(Trouble::Refused(e)),
    }
}

/// Runs the transaction that moves a value, which is aborted if there is none.
pub fn move_value(db: &mut Files, is_there: bool, step: &Step) -> Result<()> {
    let from = key_of(step.key);
    let to = key_of(step.key(1));
    let tree = db.default_tree()?;
    let ended: TransactionResult<(), ()> = db.transaction(
        &tree,
        |inside| move_inside(inside, &from, &to),
    );
    drop(tree);
    expect_end(ended, is_there)
}

/// Runs the transaction that moves a value to the second tree, or opens that tree if it is not there.
pub fn move_across(db: &mut Files, has_side: bool, is_there: bool, step: &Step) -> Result<()> {
    let side = db.open_tree(SIDE)?;
    if !has_side {
        drop(side);
        return Ok(());
    }
    let key = key_of(step.key);
    let main = db.default_tree()?;
    let ended: TransactionResult<(), ()> = db.transaction_all(
        &[&main, &side],
        |both| move_inside_both(both, &key),
    );
    drop(main);
    drop(side);
    expect_end(ended, is_there)
}
