//! A raise of a number as a transaction: one step, which no other caller comes between, so it needs no second attempt.
ghost use Rattle.std.specs.Prelude.{◌≡◌, Some, IfOk, OnErr};
ghost use Rattle.example_shared.specs.Adding.{RaisesInside};
ghost use Rattle.example_shared.specs.Raising.{Raises};

use example_parts::number_at;
use sled::{ConflictableTransactionResult, TransactionResult, TransactionalTree, abort, law_shows};
use sled_machine::shared::Handle;
use sled_model::{MergeOperator, Tree};
use sled_store::Pages;
use std::sync::Wait;
use std::sync::ledger::Ledger;

/// The number is the greatest that there is.
#[derive(Clone, Copy, Debug, PartialEq, Eq)]
pub struct UsedUp;

// What the closure of `raise_at_once` does.
fn raise_inside<P: Pages>(
    inside: &mut TransactionalTree<'_, P>,
    key: &[u8],
) -> ConflictableTransactionResult<u64, UsedUp>
    ensures { IfOk result (λ n. RaisesInside P.store inside.old key.now n inside.new) }
{
    let stood = inside.get(key)?;
    let next = number_at(&stood).checked_add(1);
    drop(stood);
    let Some(next) = next else {
        return abort(UsedUp);
    };
    let before = inside.insert(key, &next.to_be_bytes())?;
    drop(before);
    Ok(next)
}

/// Raises the number at a key by one, as a transaction, and answers the number that it wrote. It is added to the handle's list with what
/// was there before; if it is aborted or refused nothing is.
///
/// ```
/// let raised = raise_at_once(rt, &mut handle, &tree, b"visits");
/// ```
pub fn raise_at_once<P: Pages, L: Ledger, M: MergeOperator>(
    rt: &impl Wait,
    handle: &mut Handle<P, L, M>,
    tree: &Tree,
    key: &[u8],
) -> TransactionResult<u64, UsedUp>
    ensures ok { IfOk result (λ n. Raises tree.now key.now (Some n) handle.old.made handle.new.made) }
    ensures err { OnErr result (handle.new.made ≡ handle.old.made) }
    ensures number { handle.new.number ≡ handle.old.number }
{
    law_shows::<P, M>();
    handle.transaction(rt, tree, |inside| raise_inside(inside, key))
}
