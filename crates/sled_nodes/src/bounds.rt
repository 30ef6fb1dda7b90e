//! Bounds that are lent, and bounds of one's own.
ghost use Rattle.std.specs.Prelude.{◌≡◌, IfOk, IfErr};
ghost use Rattle.sled_nodes.specs.declared.error.Error.TheVariants.{NoMemory};
ghost use Rattle.sled_nodes.specs.Among.{bound_of};

use crate::IVec;
use crate::error::Result;
use std::alloc::Global;
use std::ops::Bound;

/// A bound, lent.
///
/// ```
/// let bound = Bound::Excluded(key);
/// let is_below = is_up_to(b"ulm", lend_bound(&bound)); // Whether `ulm` comes before the key.
/// ```
#[inline(always)]
pub fn lend_bound(bound: &Bound<IVec>) -> Bound<&[u8]>
    ensures { bound_of result ≡ bound.now }
{
    match bound {
        Bound::Included(key) => Bound::Included(key.as_ref()),
        Bound::Excluded(key) => Bound::Excluded(key.as_ref()),
        Bound::Unbounded => Bound::Unbounded,
    }
}

/// A bound of one's own. Refused with `NoMemory` alone.
///
/// ```
/// let bound = own_bound(alloc, Bound::Included(b"ulm"))?; // It stays when what it was made of is gone.
/// ```
pub fn own_bound(alloc: Global, bound: Bound<&[u8]>) -> Result<Bound<IVec>>
    ensures ok { IfOk result (λ own. own ≡ bound_of bound.entry) }
    ensures err { IfErr result (λ e. e ≡ NoMemory) }
{
    match bound {
        Bound::Included(key) => Ok(Bound::Included(IVec::from_slice(alloc, key)?)),
        Bound::Excluded(key) => Ok(Bound::Excluded(IVec::from_slice(alloc, key)?)),
        Bound::Unbounded => Ok(Bound::Unbounded),
    }
}
