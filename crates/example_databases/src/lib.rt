//! Callers of a database that are proved from public contracts alone, as a user would write them: what those contracts say is enough to
//! build on. `index` is an example of a scan, `queue` of a database that takes pairs out, and `copy` of one that gets the trees of another.
//! `typed` has a type of one's own that keys of `typed_map` may have, and `counters` a merge operator and a closure. In `endings` a
//! subscriber keeps an index, and begins anew after it missed events. In `stock` groups keep two trees in step, `batches` loads many pairs,
//! a hundred at a time, and `ranges` removes keys by their bounds.
#![tactic(auto)]

mod batches;
mod copy;
mod counters;
mod endings;
mod index;
mod queue;
mod ranges;
mod stock;
mod typed;

pub use batches::load;
pub use copy::copy_all;
pub use counters::{add_to_counter, count, next_ticket};
pub use endings::{Endings, Progress, index_follows, law_still_follows};
pub use example_parts::{Adds, number_at};
pub use index::entries_under;
pub use queue::{add, take};
pub use ranges::keep_outside;
pub use stock::{new_stock, open_part, open_stock, put_item, recover_stock, take_item};
pub use typed::Reading;
