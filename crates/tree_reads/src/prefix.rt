//! The keys that begin with a prefix.
ghost use Rattle.std.specs.Prelude.{◌≡◌, IfOk, IfErr};
ghost use Rattle.sled_nodes.specs.declared.error.Error.TheVariants.{NoMemory};
ghost use Rattle.tree_reads.specs.Prefixes.{IsBytes, PrefixLaw, raised};

use sled_nodes::{IVec, Result};
use std::alloc::Global;
use std::ops::Bound;

/// The upper bound of the keys that begin with a prefix: the prefix without its last bytes 255 and with the last byte that is left
/// raised by one, excluded; none if nothing is left. Refused with `NoMemory` alone.
pub fn above_prefix(alloc: Global, prefix: &[u8]) -> Result<Bound<IVec>>
    ensures ok { IfOk result (λ bound. bound ≡ raised prefix.now) }
    ensures err { IfErr result (λ e. e ≡ NoMemory) }
{
    let mut bytes = Vec::from_slice(alloc, prefix)?;
    while let Some(last) = bytes.pop() {
        if last < 255 {
            bytes.push(last + 1)?;
            return Ok(Bound::Excluded(IVec::from_slice(alloc, bytes.as_slice())?));
        }
    }
    Ok(Bound::Unbounded)
}

/// Does nothing. The bytes of a byte string are below 256, as contracts do not see otherwise.
pub fn law_bytes(bytes: &[u8])
    ensures { IsBytes bytes.now }
{}

/// Does nothing. A byte string is from a prefix on and below what it is raised to exactly if it begins with it.
pub fn law_prefix()
    ensures { PrefixLaw }
{}
