//! Byte strings in their order, errors, and nodes: what is in one page of a tree.
//!
//! The calls of a node are stated by its bounds and entries: what it holds and what a link makes of it (`specs/Node`), its
//! halves (`specs/Halves`), a pointer more (`specs/Posting`), what is within a bound (`specs/Among`) or two (`specs/Ranges`).
//! A store and the readers of a page share its node (`Shared`). A link changes it in place if it has one holder alone.
#![tactic(auto)]

mod among;
mod ascending;
mod bounds;
mod entries;
mod error;
mod held;
mod ivec;
mod link;
mod node;
mod order;
mod pairs;
mod pid;
mod prefix;
mod ranges;
mod shared;
mod stripped;
pub mod texts;

pub use among::{is_from, is_up_to, key_is_up_to};
pub use bounds::{lend_bound, own_bound};
pub use error::{Error, Fault, Result};
pub use ivec::IVec;
pub use link::Link;
pub use node::{Data, Index, Leaf, Node};
pub use pairs::{clone_pair, clone_value, put_pair, remove_key, value_at};
pub use pid::{Pid, Version};
pub use ranges::is_reversed;
pub use shared::Shared;
pub use stripped::copy_pointers;
