//! The merge operators of the shell.
ghost use Rattle.std.specs.Prelude.{◌≡◌, ◌+◌, ◌%◌, ◌^◌, ◌++◌, IfOk};
ghost use Rattle.std.specs.Int.{w64, to_be_bytes};
ghost use Rattle.std.specs.Option.{option_copied};
ghost use Rattle.shell_words.specs.Operators.{number_of, bytes_or_none, greater, kept};

use crate::words::find;
use sled_model::MergeOperator;
use std::alloc::{AllocError, Global};

/// How a merge joins bytes to the value that is there.
#[derive(Clone, Copy)]
pub enum Operator {
    /// The old value and the new bytes behind it.
    Concat,
    /// The sum of the two as numbers of eight bytes, the greatest first, which wraps. None and any other count of bytes are 0.
    Add,
    /// The greater by bytes.
    Max,
    /// The new bytes and the old value behind them.
    Before,
    /// The old value, or the new bytes if there is none.
    Keep,
    /// No value.
    Gone,
    /// It answers that there is no memory.
    Short,
}

// The operators by name.
static OPERATORS: [(&str, Operator); 7] = [
    ("concat", Operator::Concat),
    ("add", Operator::Add),
    ("max", Operator::Max),
    ("before", Operator::Before),
    ("keep", Operator::Keep),
    ("gone", Operator::Gone),
    ("short", Operator::Short),
];

/// The operator of a name.
pub fn operator_of(name: &[u8]) -> Option<Operator> {
    find(&OPERATORS, name)
}

/// The bytes of a value; none becomes the empty string.
pub fn bytes_of<'a>(value: Option<&'a [u8]>) -> &'a [u8]
    ensures { result.now ≡ bytes_or_none (option_copied value.entry) }
{
    match value {
        Some(bytes) => bytes,
        None => b"",
    }
}

/// The number of eight bytes, the greatest first; of as many others 0.
pub fn number_of(bytes: &[u8]) -> u64
    ensures { result ≡ number_of bytes.now }
{
    if bytes.len() != 8 {
        return 0;
    }
    match bytes.first_chunk::<8>() {
        Some(number) => u64::from_be_bytes(*number),
        None => 0,
    }
}

/// One byte string behind another.
pub fn joined(alloc: Global, first: &[u8], second: &[u8]) -> Result<Vec<u8>, AllocError>
    ensures { IfOk result (λ made. made.items ≡ first.now ++ second.now) }
{
    let mut bytes = Vec::from_slice(alloc, first)?;
    bytes.extend_from_slice(second)?;
    Ok(bytes)
}

// The sum of two numbers.
fn sum_of(alloc: Global, old: &[u8], new: &[u8]) -> Result<Vec<u8>, AllocError>
    ensures { IfOk result (λ made. made.items ≡ to_be_bytes w64 ((number_of old.now + number_of new.now) % 2 ^ 64)) }
{
    let sum = number_of(old).wrapping_add(number_of(new));
    Vec::from_slice(alloc, &sum.to_be_bytes())
}

// The greater of two byte strings, of which the first may be none.
fn greater_of(alloc: Global, old: Option<&[u8]>, new: &[u8]) -> Result<Vec<u8>, AllocError>
    ensures { IfOk result (λ made. made.items ≡ greater (option_copied old.entry) new.now) }
{
    match old {
        Some(old) => {
            if old.cmp(new).is_lt() {
                Vec::from_slice(alloc, new)
            } else {
                Vec::from_slice(alloc, old)
            }
        }
        None => Vec::from_slice(alloc, new),
    }
}

// The first of two byte strings, or the second if there is no first.
fn kept_of(alloc: Global, old: Option<&[u8]>, new: &[u8]) -> Result<Vec<u8>, AllocError>
    ensures { IfOk result (λ made. made.items ≡ kept (option_copied old.entry) new.now) }
{
    match old {
        Some(old) => Vec::from_slice(alloc, old),
        None => Vec::from_slice(alloc, new),
    }
}

impl MergeOperator for Operator {
    ghost use Rattle.shell_words.specs.Operators.{meaning};

    ghost meant = { meaning };

    fn merge(
        &self,
        alloc: Global,
        _key: &[u8],
        old: Option<&[u8]>,
        new: &[u8],
    ) -> Result<Option<Vec<u8>>, AllocError> {
        match self {
            Operator::Concat => Ok(Some(joined(alloc, bytes_of(old), new)?)),
            Operator::Before => Ok(Some(joined(alloc, new, bytes_of(old))?)),
            Operator::Add => Ok(Some(sum_of(alloc, bytes_of(old), new)?)),
            Operator::Max => Ok(Some(greater_of(alloc, old, new)?)),
            Operator::Keep => Ok(Some(kept_of(alloc, old, new)?)),
            Operator::Gone => Ok(None),
            Operator::Short => Err(AllocError),
        }
    }
}
