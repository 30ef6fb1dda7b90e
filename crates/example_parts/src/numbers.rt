//! Numbers in values: eight bytes, the highest first. What is of another length counts as 0, and so does nothing.
ghost use Rattle.std.specs.Prelude.{◌≡◌, IfOk};
ghost use Rattle.std.specs.Option.{option_copied};
ghost use Rattle.example_parts.specs.Counters.{adding, bytes_of_sum, number_in};

use sled_model::MergeOperator;
use sled_nodes::IVec;
use std::alloc::{AllocError, Global};

/// The merge operator that adds two numbers. The sum wraps.
#[derive(Drop)]
pub struct Adds;

// The number in these bytes.
fn number_of(bytes: Option<&[u8]>) -> u64
    ensures { result ≡ number_in (option_copied bytes.entry) }
{
    let Some(bytes) = bytes else {
        return 0;
    };
    if bytes.len() != 8 {
        return 0;
    }
    match bytes.first_chunk::<8>() {
        Some(number) => u64::from_be_bytes(*number),
        None => 0,
    }
}

/// The number in this value.
pub fn number_at(value: &Option<IVec>) -> u64
    ensures { result ≡ number_in value.now }
{
    match value {
        Some(value) => number_of(Some(value.as_ref())),
        None => 0,
    }
}

/// The bytes of the sum of the number that is there and another.
pub fn add_to(
    alloc: Global,
    stood: Option<&[u8]>,
    n: u64,
) -> std::result::Result<Vec<u8>, AllocError>
    ensures { IfOk result (λ sum. sum.items ≡ bytes_of_sum (option_copied stood.entry) n) }
{
    let sum = number_of(stood).wrapping_add(n);
    Vec::from_slice(alloc, &sum.to_be_bytes())
}

impl MergeOperator for Adds {
    ghost meant = { λ a. adding };

    fn merge(
        &self,
        alloc: Global,
        _key: &[u8],
        old: Option<&[u8]>,
        new: &[u8],
    ) -> std::result::Result<Option<Vec<u8>>, AllocError> {
        Ok(Some(add_to(alloc, old, number_of(Some(new)))?))
    }
}
