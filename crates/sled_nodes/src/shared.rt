//! A node that several hold, so that a read copies a pointer and not the node. Contracts see the node.
ghost use Rattle.std.specs.Prelude.{◌≡◌, IfOk, IfErr, OnOk, OnErr};
ghost use Rattle.sled_nodes.specs.declared.error.Error.TheVariants.{NoMemory};
ghost use Rattle.sled_nodes.specs.Node.{after_link};

use crate::error::Result;
use crate::{Link, Node};
use std::alloc::Global;
use std::marker::Model;
use std::ops::Deref;
use std::sync::Arc;

/// A node that several hold. None of them changes it.
pub struct Shared {
    node: Arc<Node>,
}

// By hand, so that each function that drops a node cites this, and does not prove again how its parts are dropped.
impl Drop for Shared {
    #[inline(always)]
    fn drop(self) {
        let Shared { node } = self;
        drop(node);
    }
}

impl Model for Shared {
    ghost use Rattle.std.specs.Arc.{arc_value};
    ghost use Rattle.sled_nodes.specs.declared.node.Node.{Node};

    ghost Value = { Node };

    ghost view = { λ a. arc_value a.node };
}

impl Shared {
    /// The node, to be held by several. Refused with `NoMemory` alone.
    ///
    /// ```
    /// let node = Shared::new(alloc, node)?;
    /// let next = node.next; // It is read as the node itself.
    /// ```
    pub fn new(alloc: Global, node: Node) -> Result<Shared>
        ensures ok { IfOk result (λ made. made ≡ node) }
        ensures err { IfErr result (λ e. e ≡ NoMemory) }
    {
        Ok(Shared {
            node: Arc::new(alloc, node)?,
        })
    }

    /// The same node, for one holder more. Refused with `NoMemory` alone.
    ///
    /// ```
    /// let node = Shared::new(alloc, node)?;
    /// let same = node.share()?; // Both read one node, which is let go with the last of them.
    /// ```
    pub fn share(&self) -> Result<Shared>
        ensures ok { IfOk result (λ more. more ≡ self.now) }
        ensures err { IfErr result (λ e. e ≡ NoMemory) }
    {
        Ok(Shared {
            node: Arc::try_clone(&self.node)?,
        })
    }
}

impl Shared {
    // The node after a link, as a node of its own.
    pub(crate) fn changed(&self, alloc: Global, link: &Link) -> Result<Shared>
        ensures ok { IfOk result (λ changed. changed ≡ after_link link.now self.now) }
        ensures err { IfErr result (λ e. e ≡ NoMemory) }
    {
        let mut node = (*self.node).copy_with_room(alloc)?;
        match node.follow(link) {
            Ok(()) => Shared::new(alloc, node),
            Err(e) => {
                drop(node);
                Err(e)
            }
        }
    }

    /// Makes the change of a link, in place if no other holds the node, and else in a copy. Refused with `NoMemory` alone, and then
    /// unchanged.
    ///
    /// ```
    /// let mut shared = Shared::new(alloc, node)?;
    /// shared.apply(alloc, &Link::Del(key))?; // A leaf has nothing at the key now.
    /// ```
    pub fn apply(&mut self, alloc: Global, link: &Link) -> Result<()>
        ensures ok { OnOk result (self.new ≡ after_link link.now self.old) }
        ensures err { OnErr result (self.new ≡ self.old) }
        ensures cause { IfErr result (λ e. e ≡ NoMemory) }
    {
        if let Some(node) = Arc::get_mut(&mut self.node) {
            return node.follow(link);
        }
        let changed = self.changed(alloc, link)?;
        let old = std::mem::replace(self, changed);
        drop(old);
        Ok(())
    }
}

impl Deref for Shared {
    type Target = Node;

    ghost deref_gives = { λ a n. n ≡ a };

    fn deref(&self) -> &Node {
        &self.node
    }
}
