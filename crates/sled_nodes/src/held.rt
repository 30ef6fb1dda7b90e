//! What a key of a node has: a value or a page number.
ghost use Rattle.std.specs.Prelude.{◌≡◌, IfOk, IfErr};
ghost use Rattle.sled_nodes.specs.declared.error.Error.TheVariants.{NoMemory};

use crate::error::Result;
use crate::{IVec, Pid};

/// A value of a leaf, or a page number of an index.
pub trait Held: Drop {
    /// The same once more. Refused with `NoMemory` alone.
    fn again(&self) -> Result<Self>
        ensures ok { IfOk result (λ copy. copy ≡ self.now) }
        ensures err { IfErr result (λ e. e ≡ NoMemory) };
}

impl Held for IVec {
    #[inline(always)]
    fn again(&self) -> Result<IVec> {
        self.clone()
    }
}

impl Held for Pid {
    #[inline(always)]
    fn again(&self) -> Result<Pid> {
        Ok(*self)
    }
}
