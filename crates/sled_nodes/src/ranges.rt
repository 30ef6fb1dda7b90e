//! Ranges of keys.
ghost use Rattle.std.specs.Prelude.{◌≡◌};
ghost use Rattle.sled_nodes.specs.Among.{bound_of};
ghost use Rattle.sled_nodes.specs.Ranges.{is_reversed as ends_before};

use std::ops::Bound;

// The empty key.
const LEAST: &[u8] = &[];

/// Whether a range starts above its end, or at it if not both are included.
///
/// ```
/// let has_none = is_reversed(Bound::Included(b"weil"), Bound::Excluded(b"ulm")); // `true`.
/// ```
#[tactic(auto, unfolding(crate::specs::Order::key_cmp))]
pub fn is_reversed(lo: Bound<&[u8]>, hi: Bound<&[u8]>) -> bool
    ensures { result ≡ ends_before (bound_of lo.entry) (bound_of hi.entry) }
{
    match (lo, hi) {
        (Bound::Included(start), Bound::Included(end)) => start.cmp(end).is_gt(),
        (Bound::Included(start), Bound::Excluded(end)) => !start.cmp(end).is_lt(),
        (Bound::Excluded(start), Bound::Included(end)) => !start.cmp(end).is_lt(),
        (Bound::Excluded(start), Bound::Excluded(end)) => !start.cmp(end).is_lt(),
        (Bound::Unbounded, Bound::Excluded(end)) => !LEAST.cmp(end).is_lt(),
        _ => false,
    }
}
