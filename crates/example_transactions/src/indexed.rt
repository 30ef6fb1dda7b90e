//! A table of the addresses of users by their numbers, and an index of the numbers by the addresses. A row and its entry are written by one
//! transaction, so that the two trees agree after every call and every crash.
ghost use Rattle.std.specs.Prelude.{◌≢◌, IfOk, IfErr, OnOk};
ghost use Rattle.example_parts.specs.Reads.{maps_now};
ghost use Rattle.example_transactions.specs.Throughout.{HoldsThroughout};
ghost use Rattle.example_transactions.specs.Indexed.{agree_in, PutsRow, EndsPut};
ghost use Rattle.example_transactions.specs.theory.Indexed.{TellsFree, TakesEntry, ChangesEntry, PutsInside, GivesUpPut};

use sled::{
    ConflictableTransactionResult, Db, TransactionResult, TransactionalTrees,
    UnabortableTransactionResult, abort, law_shows,
};
use sled_model::{MergeOperator, Tree};
use sled_nodes::IVec;
use sled_store::Pages;

// The position of the table in the list.
const TABLE: usize = 0;

// The position of the index.
const INDEX: usize = 1;

/// Another user has the address.
#[derive(Clone, Copy, Debug, PartialEq, Eq)]
pub struct EmailTaken;

// Whether no other user has the address.
fn is_free<P: Pages>(
    both: &TransactionalTrees<'_, P>,
    id: &[u8],
    email: &[u8],
) -> UnabortableTransactionResult<bool>
    ensures { IfOk result (TellsFree P.store both.now id.now email.now) }
{
    let owner = match both.get(INDEX, email) {
        Ok(owner) => owner,
        Err(e) => return Err(e),
    };
    let is_free = match &owner {
        Some(owner) => owner.as_ref() == id,
        None => true,
    };
    drop(owner);
    Ok(is_free)
}

// Takes the entry of an address out of the index, if there is an address.
fn take_entry<P: Pages>(
    both: &mut TransactionalTrees<'_, P>,
    email: &Option<IVec>,
) -> UnabortableTransactionResult<()>
    ensures { OnOk result (TakesEntry both.old email.now both.new) }
{
    let Some(email) = email else {
        return Ok(());
    };
    match both.remove(INDEX, email.as_ref()) {
        Ok(stood) => {
            drop(stood);
            Ok(())
        }
        Err(e) => Err(e),
    }
}

// Takes the entry of the address before out of the index, and writes that of the new one.
fn change_entry<P: Pages>(
    both: &mut TransactionalTrees<'_, P>,
    id: &[u8],
    email: &[u8],
    before: &Option<IVec>,
) -> UnabortableTransactionResult<()>
    ensures { OnOk result (ChangesEntry both.old id.now email.now before.now both.new) }
{
    match take_entry(both, before) {
        Ok(()) => {}
        Err(e) => return Err(e),
    }
    match both.insert(INDEX, email, id) {
        Ok(stood) => {
            drop(stood);
            Ok(())
        }
        Err(e) => Err(e),
    }
}

// What the closure of `put_indexed` does.
fn put_inside<P: Pages>(
    both: &mut TransactionalTrees<'_, P>,
    id: &[u8],
    email: &[u8],
) -> ConflictableTransactionResult<Option<IVec>, EmailTaken>
    ensures ok { IfOk result (λ before. PutsInside P.store both.old id.now email.now before both.new) }
    ensures err { IfErr result (GivesUpPut P.store both.old id.now email.now) }
{
    if !is_free(both, id, email)? {
        return abort(EmailTaken);
    }
    let before = both.insert(TABLE, id, email)?;
    match change_entry(both, id, email, &before) {
        Ok(()) => Ok(before),
        Err(e) => {
            drop(before);
            Err(e.into())
        }
    }
}

/// Gives a user an address, and answers the one before. It is aborted if the address is another user's; then nothing changes. Refused, all
/// maps are as they were too, unless the database is closed now. If the index agrees with the table, now and in all that a crash may leave,
/// it does so afterwards too, whatever the outcome of the call.
///
/// ```
/// let emails = db.open_tree(b"emails")?;
/// let before = put_indexed(&mut db, &tree, &emails, b"17", b"ulm@example.org");
/// ```
pub fn put_indexed<P: Pages, M: MergeOperator>(
    db: &mut Db<P, M>,
    table: &Tree,
    index: &Tree,
    id: &[u8],
    email: &[u8],
) -> TransactionResult<Option<IVec>, EmailTaken>
    ensures ok { IfOk result (λ before. table.now.name ≢ index.now.name → PutsRow (maps_now P.store M.meant db.old) (maps_now P.store M.meant db.new) table.now.name index.now.name id.now email.now before) }
    ensures err { IfErr result (EndsPut P.store M.meant db.old index.now.name id.now email.now db.new) }
    ensures kept { table.now.name ≢ index.now.name → HoldsThroughout (P.store db.old.pages) (agree_in table.now.name index.now.name) → HoldsThroughout (P.store db.new.pages) (agree_in table.now.name index.now.name) }
{
    db.audit();
    law_shows::<P, M>();
    db.transaction_all(&[table, index], |both| put_inside(both, id, email))
}
