//! Merge operators of a program whose lines set none.
ghost use Rattle.line_sessions.specs.Serve.{no_meaning};

use sled_model::MergeOperator;
use std::alloc::{AllocError, Global};

/// A merge operator for programs in which no line gives a tree one. It would leave no value.
#[derive(Drop)]
pub struct NoOperator;

impl MergeOperator for NoOperator {
    ghost meant = { no_meaning };

    fn merge(
        &self,
        _alloc: Global,
        _key: &[u8],
        _old: Option<&[u8]>,
        _new: &[u8],
    ) -> Result<Option<Vec<u8>>, AllocError> {
        Ok(None)
    }
}
