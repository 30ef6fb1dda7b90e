//! Transactions over the pages of trees, up to what they leave to be written.
//!
//! A closure reads and writes trees inside a transaction. Its writes are kept beside the pages, and its reads see them first
//! (`specs/Overlays`).
#![tactic(auto)]

mod answer;
mod attempts;
mod errors;
mod ids;
mod list_attempts;
mod overlay;
mod overlays;
mod tree;
mod trees;

pub use answer::TransactionAnswer;
pub use attempts::{Commit, transact};
pub use errors::{
    ConflictableTransactionError, ConflictableTransactionResult, TransactionError,
    TransactionResult, UnabortableTransactionError, UnabortableTransactionResult, abort,
};
pub use ids::raised_mark;
pub use list_attempts::transact_all;
pub use overlays::Overlays;
pub use tree::TransactionalTree;
pub use trees::TransactionalTrees;

/// A closure is run so often at most.
pub const MOST_ATTEMPTS: u64 = 1_000_000;

const _: () = prove!(MOST_ATTEMPTS == 1_000_000);
