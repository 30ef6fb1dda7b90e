//! Callers of a store of pages and of nodes that are proved from public contracts alone. `store` is written as a layer above a
//! store would be.
#![tactic(auto)]

mod log_pages;
mod store;

pub use log_pages::LogPages;
pub use store::{may_leave_base, open_tree, two_links};
