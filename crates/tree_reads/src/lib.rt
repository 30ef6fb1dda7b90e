//! Reads of a tree that repair nothing, by the number of its root, over any store of pages.
//!
//! A walk goes from the root to the leaf under its target: right along `next`, and down by pointers, but never by that to a
//! merging child, whose pairs the page before it leads to (`specs/Walk`). Searches go on from leaf to leaf (`specs/Leaves`).
//! Contracts state what is found by the contents at every forest that shows the pages well formed. An iterator is its two bounds: the
//! pairs still to come are a function of the pages and the bounds (`specs/Ranges`), and no list is kept. Within a leaf it goes on from
//! the front by place, and the key of the pair at the place is its lower bound (`specs/Cursor`). The keys that begin with a prefix are
//! a range too (`specs/Prefixes`).
#![tactic(auto)]

mod count;
mod cursor;
mod iter;
mod nearest;
mod prefix;
mod reads;
mod walk;

pub use count::count_pairs;
pub use iter::{Iter, Keys, Values, pairs_of};
pub use nearest::{first_from, last_up_to, value_at};
pub use prefix::{above_prefix, law_bytes, law_prefix};
pub use reads::Reads;
pub use walk::{leaf_at, leaf_near};

/// A read that has looked at this many pages is refused.
pub const MOST_PAGES: u64 = 1_000_000;

const _: () = prove!(MOST_PAGES == 1_000_000);
