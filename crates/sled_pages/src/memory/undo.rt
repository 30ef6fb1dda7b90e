//! How an action is taken back.
use super::linked::Under;
use super::slots::Slot;
use sled_nodes::{IVec, Pid, Version};

/// What was there before an action.
#[derive(Drop)]
pub enum Undo {
    /// The slot of a page.
    UndoSlot(Pid, Option<Slot>),
    /// The last link of a page, which had this version before.
    UndoLink(Pid, Version),
    /// The base and the links of a page that folded, which had this version before.
    UndoFold(Pid, Version, Under),
    /// The root of a name.
    UndoRoot(IVec, Option<Pid>),
    /// Whether a group was open.
    UndoGroup(bool),
}
