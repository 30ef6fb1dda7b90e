//! A store in memory, and the names of `sled_nodes` and `sled_store` again.
//!
//! `MemPages` keeps the contract `Pages` of `sled_store` (`specs/Memory`). It has the pages as they are now (`specs/Slots`), each as a
//! base and the links since (`specs/Parts`), and how to take each action since the last flush back (`specs/Table`). The model, the laws
//! and the steps of a call use `sled_nodes` and `sled_store` alone, so they know nothing of this store.
#![tactic(auto)]

mod memory;

pub use memory::{MemPages, Rebuild};
pub use sled_nodes::{
    Data, Error, Fault, IVec, Index, Leaf, Link, Node, Pid, Result, Shared, Version, is_from,
    is_up_to, texts,
};
pub use sled_store::{Page, Pages, View, law_given, law_sealed};
