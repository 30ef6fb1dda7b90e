//! Transfers between counters of a tree, each of them a transaction: an amount leaves one counter and is added to another, or nothing
//! happens. A counter is a number of eight bytes, as in `example_databases`.
ghost use Rattle.std.specs.Prelude.{ℕ, Some, IfOk, IfErr, OnOk};
ghost use Rattle.std.specs.Int.{w64, to_be_bytes};
ghost use Rattle.sled_pages.specs.Memory.{store_of};
ghost use Rattle.tree_transactions.specs.Trees.{Records};
ghost use Rattle.example_parts.specs.Reads.{maps_now};
ghost use Rattle.example_transactions.specs.Throughout.{HoldsThroughout};
ghost use Rattle.example_transactions.specs.Transfers.{come_to, Transfers, EndsTransfer};
ghost use Rattle.example_transactions.specs.theory.Transfers.{CountsInside, MovesInside, GivesUpMove};

use crate::throughout::{recover, settle};
use example_parts::number_at;
use sled::{
    ConflictableTransactionResult, Db, TransactionResult, TransactionalTree,
    UnabortableTransactionResult, abort, law_shows,
};
use sled_model::{MergeOperator, Tree};
use sled_nodes::Result;
use sled_pages::MemPages;
use sled_store::Pages;
use std::alloc::Global;

/// Why an amount does not go from one counter to another.
#[derive(Clone, Copy, Debug, PartialEq, Eq)]
pub enum TransferError {
    /// The two are one counter.
    SameCounter,
    /// The first has less.
    NotEnough,
    /// The second would pass the greatest number that there is.
    TooMuch,
}

// The number of a counter inside.
fn count_inside<P: Pages>(
    inside: &TransactionalTree<'_, P>,
    name: &[u8],
) -> UnabortableTransactionResult<u64>
    ensures { IfOk result (CountsInside P.store inside.now name.now) }
{
    let value = match inside.get(name) {
        Ok(value) => value,
        Err(e) => return Err(e),
    };
    let n = number_at(&value);
    drop(value);
    Ok(n)
}

// Sets a counter inside to a number.
fn set_inside<P: Pages>(
    inside: &mut TransactionalTree<'_, P>,
    name: &[u8],
    n: u64,
) -> UnabortableTransactionResult<()>
    ensures { OnOk result (Records inside.old name.now (Some (to_be_bytes w64 n)) inside.new) }
{
    match inside.insert(name, &n.to_be_bytes()) {
        Ok(stood) => {
            drop(stood);
            Ok(())
        }
        Err(e) => Err(e),
    }
}

// What the closure of `transfer` does.
fn move_amount<P: Pages>(
    inside: &mut TransactionalTree<'_, P>,
    from: &[u8],
    to: &[u8],
    amount: u64,
) -> ConflictableTransactionResult<(), TransferError>
    ensures ok { OnOk result (MovesInside P.store inside.old from.now to.now amount inside.new) }
    ensures err { IfErr result (GivesUpMove P.store inside.old from.now to.now amount) }
{
    if from == to {
        return abort(TransferError::SameCounter);
    }
    let had = count_inside(inside, from)?;
    let stood = count_inside(inside, to)?;
    if had < amount {
        return abort(TransferError::NotEnough);
    }
    if stood > u64::MAX - amount {
        return abort(TransferError::TooMuch);
    }
    set_inside(inside, from, had - amount)?;
    set_inside(inside, to, stood + amount)?;
    Ok(())
}

/// Moves an amount from one counter of a tree to another. It is aborted if the two are one, if the first has less, or if the second would
/// pass the greatest number; then nothing changes. Refused, all maps are as they were too, unless the database is closed now. The sum of
/// the two, now and in all that a crash may leave, is the same afterwards, whatever the outcome of the call.
///
/// ```
/// let paid = transfer(&mut db, &tree, b"ulm", b"bern", 30);
/// ```
pub fn transfer<P: Pages, M: MergeOperator>(
    db: &mut Db<P, M>,
    tree: &Tree,
    from: &[u8],
    to: &[u8],
    amount: u64,
) -> TransactionResult<(), TransferError>
    ensures ok { OnOk result (Transfers (maps_now P.store M.meant db.old) (maps_now P.store M.meant db.new) tree.now.name from.now to.now amount) }
    ensures err { IfErr result (EndsTransfer P.store M.meant db.old tree.now.name from.now to.now amount db.new) }
    ensures kept { (total : ℕ) → HoldsThroughout (P.store db.old.pages) (come_to tree.now.name from.now to.now total) → HoldsThroughout (P.store db.new.pages) (come_to tree.now.name from.now to.now total) }
{
    db.audit();
    law_shows::<P, M>();
    db.transaction(tree, |inside| move_amount(inside, from, to, amount))
}

/// Makes all durable, and then a transfer, whatever its outcome; ends the database by a crash, of whose last actions so many are kept, and
/// opens what is left. The sum of the two counters is the one before.
///
/// ```
/// let left = transfer_and_crash(alloc, db, &tree, b"ulm", b"bern", 30, b"weather", 3)?;
/// ```
pub fn transfer_and_crash<M: MergeOperator>(
    alloc: Global,
    db: Db<MemPages, M>,
    tree: &Tree,
    from: &[u8],
    to: &[u8],
    amount: u64,
    name: &[u8],
    keep: usize,
) -> Result<Db<MemPages, M>>
    ensures { IfOk result (λ left. (total : ℕ) → come_to tree.now.name from.now to.now total (maps_now store_of M.meant db) → come_to tree.now.name from.now to.now total (maps_now store_of M.meant left)) }
{
    let mut db = db;
    match settle(&mut db) {
        Ok(()) => {}
        Err(e) => {
            drop(db.into_pages());
            return Err(e);
        }
    }
    drop(transfer(&mut db, tree, from, to, amount));
    recover(alloc, db, name, keep)
}
