//! A search in a leaf, and a change of one.
ghost use Rattle.std.specs.Prelude.{◌≡◌, IfOk, OnOk};
ghost use Rattle.sled_nodes.specs.Node.{after_link, value_at as value_in};
ghost use Rattle.sled_nodes.specs.declared.link.Link.TheVariants.{Set};

use sled_nodes::{IVec, Link, Node, Result};
use std::alloc::Global;

/// The value at a key of a leaf.
pub fn get(node: &Node, key: &[u8]) -> Result<Option<IVec>>
    ensures { IfOk result (λ value. value ≡ value_in node.now.content key.now) }
{
    node.get(key)
}

/// Sets a value at a key of a leaf.
pub fn set(alloc: Global, node: &mut Node, key: &[u8], value: &[u8]) -> Result<()>
    ensures { OnOk result (node.new ≡ after_link (Set key.now value.now) node.old) }
{
    let value = IVec::from_slice(alloc, value)?;
    let key = IVec::from_slice(alloc, key)?;
    node.apply(Link::Set(key, value))
}
