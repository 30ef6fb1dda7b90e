//! Changes of one page.
ghost use Rattle.std.specs.Prelude.{◌≡◌, IfOk, IfErr};
ghost use Rattle.sled_nodes.specs.declared.error.Error.TheVariants.{NoMemory};

use crate::error::Result;
use crate::pairs::clone_pair;
use crate::{IVec, Pid};

/// A change of one page.
#[derive(Drop)]
pub enum Link {
    /// A leaf has the value at the key.
    Set(IVec, IVec),
    /// A leaf has nothing at the key.
    Del(IVec),
    /// An index means to merge this child into the page before it.
    ParentMergeIntention(Pid),
    /// An index loses the pointer to its merging child.
    ParentMergeConfirm,
    /// A page is merging: it is not changed any more.
    ChildMergeCap,
}

impl Link {
    /// The same link. Refused with `NoMemory` alone.
    ///
    /// ```
    /// let again = link.clone()?; // For a second try, where another changed the page first.
    /// ```
    pub fn clone(&self) -> Result<Link>
        ensures ok { IfOk result (λ copy. copy ≡ self.now) }
        ensures err { IfErr result (λ e. e ≡ NoMemory) }
    {
        match self {
            Link::Set(key, value) => {
                let (key, value) = clone_pair(key, value)?;
                Ok(Link::Set(key, value))
            }
            Link::Del(key) => Ok(Link::Del(key.clone()?)),
            Link::ParentMergeIntention(child) => Ok(Link::ParentMergeIntention(*child)),
            Link::ParentMergeConfirm => Ok(Link::ParentMergeConfirm),
            Link::ChildMergeCap => Ok(Link::ChildMergeCap),
        }
    }
}
