//! A database of named trees over a store of pages.
//!
//! The maps of a database are the contents of its pages, and it keeps no others (`specs/Values`). Between two calls the pages
//! are well formed, now and in every state that a crash may leave (`specs/Sound`); `Db::audit` states so for callers. One step of
//! a call in flight is a step of the model, adds the map after the call to what a crash may leave if it was decided, and
//! keeps true what every other call in flight knows (`specs/Flights`). Opening, flushing and exporting are stated in
//! `specs/Opens`, `specs/Checked`, `specs/Flush` and `specs/Export`. Reads that take no slot are in `specs/Reads`, writes that take none in
//! `specs/Direct`, and the parts that a clear and an import did in `specs/Parts`. Transactions are in `specs/Transactions`, and subscribers
//! in `specs/Watch`.
#![tactic(auto)]

mod db;
mod direct;
mod drop;
mod export;
mod fetch;
mod group;
mod ids;
mod import;
mod memory;
mod names;
mod open;
mod operators;
mod read;
mod removals;
mod stats;
mod transaction;
mod watch;
mod whole;
mod whole_kept;

pub use db::Db;
pub use direct::CompareAndSwapResult;
pub use memory::{crash_pages, empty_pages};
pub use open::GROUP_IS_OPEN;
pub use sled_batch::Batch;
pub use sled_model::{
    Call, Collection, CompareAndSwapError, Decision, Effect, Event, MAX_LOOPS, MergeOperator, Next,
    Outcome, QUEUE_LIMIT, Reply, Slot, Step, Subscriber, Tree, Whole,
};
pub use sled_nodes::{
    Data, Error, Fault, IVec, Index, Leaf, Link, Node, Pid, Result, Shared, Version, texts,
};
pub use sled_pages::MemPages;
pub use sled_store::{Page, Pages, View, law_given, law_sealed};
pub use sled_tree::{InFlight, Job, Stage, Went};
pub use transaction::{group_of, law_shows};
pub use tree_check::{findings, verify_integrity};
pub use tree_pages::Stats;
pub use tree_reads::{Iter, Keys, Reads, Values, law_bytes, law_prefix};
pub use tree_transactions::{
    Commit, ConflictableTransactionError, ConflictableTransactionResult, MOST_ATTEMPTS, Overlays,
    TransactionAnswer, TransactionError, TransactionResult, TransactionalTree, TransactionalTrees,
    UnabortableTransactionError, UnabortableTransactionResult, abort,
};
pub use whole::Side;

/// The name of the default tree, which every database has.
pub const DEFAULT_TREE: &str = "__sled__default";
