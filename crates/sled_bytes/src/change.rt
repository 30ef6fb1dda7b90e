//! A change of a store, as a log has it.
use sled_nodes::{IVec, Link, Node, Pid, Version};

/// A change of a store, as a log has it.
#[derive(Drop)]
pub enum Change {
    /// A page is there with this version and node, whether it was there before or not.
    Given(Pid, Version, Node),
    /// A page had a link, and has this version.
    Linked(Pid, Version, Link),
    /// A page is gone.
    Freed(Pid),
    /// A name has this root, or none.
    Rooted(IVec, Option<Pid>),
    /// A group begins.
    Begun,
    /// A group ends.
    Sealed,
    /// Ids up to this one are set aside.
    Marked(u64),
    /// Page numbers and versions below these are set aside.
    Limited(u64, u64),
}
