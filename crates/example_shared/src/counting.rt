//! A number at a key, to which threads add one by merges. The operator of the tree is the caller's; a legal history has the reply of a
//! merge as it was returned, and says nothing of operators. So the laws say that what a merge replied is what is there, and not that each
//! reply is one above the one before; `raising` has a number of which that is known.
ghost use Rattle.std.specs.Prelude.{◌≡◌, ◌++◌, IfOk, IfErr};
ghost use Rattle.std.specs.Int.{w64, to_be_bytes};
ghost use Rattle.sled_model.specs.declared.call.Call.TheVariants.{Merge};
ghost use Rattle.machine_shared.specs.Notes.{noted_of};
ghost use Rattle.example_shared.specs.Counting.{AddsOne, MergesLaw};

use example_parts::number_at;
use sled_machine::shared::Handle;
use sled_model::{MergeOperator, Outcome, Reply, Tree};
use sled_store::Pages;
use std::alloc::Global;
use std::sync::Wait;
use std::sync::ledger::Ledger;

/// Adds one to the number at a key, by a merge of the eight bytes of 1, the highest first, and answers the number that the merge replied.
/// That this is one above the number before is the work of the tree's operator, and is not promised here. The merge is added to the end of
/// the handle's list, with that reply. If it was not decided it answers the outcome, and nothing is added to the list.
///
/// ```
/// match add_one(rt, alloc, &mut handle, &tree, b"visits") {
///     Ok(number) => drop(number), // What stands there after it.
///     Err(outcome) => drop(outcome), // As `Refused`, where the tree has no operator.
/// }
/// ```
pub fn add_one<P: Pages, L: Ledger, M: MergeOperator>(
    rt: &impl Wait,
    alloc: Global,
    handle: &mut Handle<P, L, M>,
    tree: &Tree,
    key: &[u8],
) -> Result<u64, Outcome>
    ensures ok { IfOk result (λ n. AddsOne tree.now key.now n handle.old.made handle.new.made) }
    ensures err { IfErr result (λ o. handle.new.made ≡ handle.old.made ++ noted_of o tree.now (Merge key.now (to_be_bytes w64 1))) }
    ensures number { handle.new.number ≡ handle.old.number }
{
    match handle.merge(rt, alloc, tree, key, &1u64.to_be_bytes()) {
        Outcome::Decided(Reply::Value(value)) => {
            let number = number_at(&value);
            drop(value);
            Ok(number)
        }
        other => Err(other),
    }
}

/// Of a legal history in which each call is a merge at a key, or leaves the key as it is: at the end the key has what the last merge
/// replied. Each read of it replied what the last merge before it did.
///
/// ```
/// law_merges(); // From here on a proof knows it.
/// ```
pub fn law_merges()
    ensures { MergesLaw }
{}
