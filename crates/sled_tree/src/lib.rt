//! A call in flight over the pages of a tree.
//!
//! A call goes stage by stage, and each step does at most one page action. It walks down to the leaf of its key, splits, posts, hoists and
//! merges what it finds to be repaired on the way, and links its change at the leaf. Its contracts say what a step does at every forest
//! that shows the pages well formed. The contents of the trees change only if the call is decided, and then as the map would. What the
//! other calls in flight know of the pages stays true.
#![tactic(auto)]

mod act;
mod dispatch;
mod flight;
mod hoist;
mod merge;
mod repair;
mod split;
mod walk;

pub use act::{Change, begin_again, event_of, link_change, prepare_change};
pub use dispatch::{advance, walk_down};
pub use flight::{Aim, InFlight, Job, Sequel, Went};
pub use sled_batch::Batch;
pub use sled_model::{Event, Next, Subscriber};
pub use tree_laws::flight::{
    Cap, Confirm, Giving, Hoist, InstallLeft, Merge, Orphan, Post, Posting, Reached, Receive, Seek,
    Split, Stage, SwapRoot, Walk,
};
pub use tree_laws::half::Half;
pub use walk::lies_under;
