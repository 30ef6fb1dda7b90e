//! Merge operators.
ghost use Rattle.std.specs.Prelude.{◌≡◌, ℕ, List, Option, IfOk};
ghost use Rattle.std.specs.Option.{option_map};

use std::alloc::{AllocError, Global};

/// How the bytes of a merge are joined to the value that is there.
pub trait MergeOperator: Drop {
    /// The new value of the key, from the value that it has and the new bytes; none takes the key out.
    ghost meant: { Self → List ℕ → Option (List ℕ) → List ℕ → Option (List ℕ) };

    /// The new value for the key, or `None` to take the key out.
    fn merge(
        &self,
        alloc: Global,
        key: &[u8],
        old: Option<&[u8]>,
        new: &[u8],
    ) -> Result<Option<Vec<u8>>, AllocError>
        ensures { IfOk result (λ r. option_map (λ v. v.items) r ≡ meant self.now key.now (option_map (λ o. o.now) old.entry) new.now) };
}

impl MergeOperator for Box<dyn MergeOperator + Send> {
    ghost meant = { λ b. (MergeOperator-box b).meant b.value };

    fn merge(
        &self,
        alloc: Global,
        key: &[u8],
        old: Option<&[u8]>,
        new: &[u8],
    ) -> Result<Option<Vec<u8>>, AllocError> {
        (**self).merge(alloc, key, old, new)
    }
}
