//! A page, as a store keeps it and as it is read.
use sled_nodes::{Pid, Shared, Version};

/// A page: its version and its node.
#[derive(Drop)]
pub struct Page {
    pub version: Version,
    pub node: Shared,
}

/// A page as it was read: its number, its version then and its node then.
///
/// ```
/// if let Some(view) = pages.read(alloc, pid)? {
///     // Made where the page has not changed since it was read.
///     let made = pages.link(view.pid, view.version, link)?;
/// }
/// ```
#[derive(Drop)]
pub struct View {
    pub pid: Pid,
    pub version: Version,
    pub node: Shared,
}
