//! Ids that are set aside for a transaction.
ghost use Rattle.std.specs.Prelude.{◌≡◌, ◌≤◌};
ghost use Rattle.sled_model.specs.Ids.{raised};
ghost use Rattle.tree_transactions.specs.Ids.{is_short, SetsAside, sets_aside_for, GoesOn};

use sled_nodes::Pid;
use sled_store::Pages;

// So many ids are set aside at a time.
const IDS_AT_A_TIME: u64 = 4096;

// If fewer are set aside, an attempt sets more aside.
const IDS_FOR_ATTEMPT: u64 = 1024;

/// The mark that comes after this one: 4096 ids more are set aside, or as many as there are.
///
/// ```
/// let mark = raised_mark(4096); // 8192
/// ```
pub fn raised_mark(mark: u64) -> u64
    ensures is { result ≡ raised mark }
    ensures above { mark ≤ result }
{
    if mark > u64::MAX - IDS_AT_A_TIME {
        u64::MAX
    } else {
        mark + IDS_AT_A_TIME
    }
}

// Whether few ids are set aside.
fn few_ids(greatest: u64, mark: u64) -> bool
    ensures { result ≡ is_short greatest mark }
{
    mark.saturating_sub(greatest) < IDS_FOR_ATTEMPT && mark < u64::MAX
}

// Sets ids aside for an attempt, if few are. A refusal is passed over: the closure may need none.
pub(crate) fn set_ids_aside<P: Pages>(pages: &mut P, greatest: u64)
    ensures { SetsAside greatest (P.store pages.old) (P.store pages.new) }
{
    let mark = pages.mark();
    if few_ids(greatest, mark) {
        let refused = pages.set_aside(raised_mark(mark));
        drop(refused);
    }
}

// The greatest id that was given, before a closure ran and after it. What a closure leaves is between this one and the mark, since no
// call does otherwise; that is not taken from what it says of itself, but looked at.
pub(crate) fn ids_after(before: u64, mark: u64, left: u64) -> u64
    ensures { GoesOn before mark left result }
{
    if before < left && left <= mark {
        left
    } else {
        before
    }
}

// .. and for an attempt at the trees of a list, if there are any.
pub(crate) fn set_ids_aside_for<P: Pages>(pages: &mut P, roots: &[Pid], greatest: u64)
    ensures { sets_aside_for roots.now greatest (P.store pages.old) (P.store pages.new) }
{
    if !roots.is_empty() {
        set_ids_aside(pages, greatest);
    }
}
