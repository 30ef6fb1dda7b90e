//! The left half of a split, before it is in its page. It has memory of its own, so that a call in flight is small.
ghost use Rattle.std.specs.Prelude.{◌≡◌, Some, IfOk, IfErr};
ghost use Rattle.sled_nodes.specs.declared.error.Error.TheVariants.{NoMemory};

use sled_nodes::{Node, Pid, Result};
use std::alloc::Global;
use std::marker::Model;

/// A node that a call in flight has for itself. Contracts see the node.
pub struct Half {
    node: Box<Node>,
}

// By hand, so that each function that drops a half cites this, and does not prove again how its parts are dropped.
impl Drop for Half {
    fn drop(self) {
        let Half { node } = self;
        drop(node);
    }
}

impl Model for Half {
    ghost use Rattle.std.specs.Prelude.{box_value};
    ghost use Rattle.sled_nodes.specs.declared.node.Node.{Node};

    ghost Value = { Node };

    ghost view = { λ h. box_value h.node };
}

impl Half {
    /// The node, apart. Refused with `NoMemory` alone.
    pub fn new(alloc: Global, node: Node) -> Result<Half>
        ensures ok { IfOk result (λ made. made ≡ node) }
        ensures err { IfErr result (λ e. e ≡ NoMemory) }
    {
        Ok(Half {
            node: Box::new(alloc, node)?,
        })
    }

    /// The node goes on at a page.
    pub fn set_next(&mut self, next: Pid)
        ensures { self.new ≡ record self.old { next = Some next } }
    {
        self.node.next = Some(next);
    }

    /// The node.
    pub fn into_node(self) -> Node
        ensures { result ≡ self }
    {
        let Half { node } = self;
        Box::into_inner(node)
    }
}
