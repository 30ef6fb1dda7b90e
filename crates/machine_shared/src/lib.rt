//! One database for many callers, with the history of what they made.
//!
//! A `Db` holds a machine under a lock, and each caller has a `Handle` to it. The lock is taken for one step of one call, and is free
//! between two steps, so the calls of several threads go on side by side. Each call on a key and each whole call that is decided is noted
//! at the end of the history, with the number of the caller whose step decided it, and at the end of that caller's own list. A `Clear` or
//! an `Import` that is refused midway is noted with the parts that it did. A read under one lock, which takes no slot, is noted with what
//! it returned: a value, a pair, a count, a page of a range, the names of the trees, or an export (`specs/Reads`).
//!
//! Whenever the lock is free the history is legal: from the collections that the database had when it was shared, each call replied and
//! wrote what it would have, made alone at its place. While no group was refused midway, which closes the database, the maps after the last
//! are those now (`specs/History`, `specs/Sound`). A merge wrote what its reply says. What a crash may leave are the maps after each entry
//! and part of the history, and those that it might have left before, of which there are none if `new_flushed` shared the database; from the
//! last flush on only those after it (`specs/Crashes`). A caller's list is as long as its share of the entries, which a ledger counts. At the
//! end `gather` takes all handles and compares: each list is that of its caller's entries, and the history has no others, but for those of
//! callers before. If handles were lost `reclaim` takes the state without them. `share_again` shares such a state once more: its calls in
//! flight stay in their slots, its history and numbers of callers go on.
//!
//! A closure is run as a transaction in one step under the lock, over the pages as they are. What it wrote is noted as one group, with what
//! was before at each key that it wrote (`specs/Transactions`).
//!
//! ```
//! // For two callers: a ledger with a part for each, and one more. At `Err` the database is given back.
//! let blank = machine_shared::Blank::new(3);
//! let shared = machine_shared::Db::<MemPages, std::marker::Brand>::new(rt, alloc, db, blank, 2);
//! ```
#![tactic(auto)]

mod again;
mod answers;
mod call_error;
mod called;
mod caller;
mod compare;
mod db;
mod entry;
mod fetches;
mod gather;
mod gets;
mod grouping;
mod handle;
mod handle_reads;
mod handle_wholes;
mod kept;
mod lists;
mod locked;
mod noting;
mod opening;
mod pages;
mod range_pages;
mod read;
mod reading;
mod scans;
mod state;
mod state_reads;
mod steps;
mod told;
mod transactions;
mod whole_tests;
mod wholes;

pub use call_error::{CallError, CallResult, reply_of};
pub use caller::Caller;
pub use db::Db;
pub use entry::{Entry, Made};
pub use handle::{Gate, Handle, NoGate};
pub use range_pages::RangePages;
pub use read::{Answer, Question, Read};
pub use scans::{ScanNote, Scanned};
pub use state::State;
pub use told::{Collections, Names, Pairs};
// an unopened ledger, which `Db::new` takes
pub use std::sync::ledger::Blank;
