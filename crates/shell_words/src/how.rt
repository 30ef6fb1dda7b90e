//! What lines make of a value that they read.

use crate::operators::{bytes_of, joined, number_of};
use crate::words::find;
use std::alloc::{AllocError, Global};

/// What is made of a value.
#[derive(Clone, Copy)]
pub enum How {
    /// The next number of eight bytes, the greatest first. After none it is 0, and another count of bytes is 0.
    Count,
    /// The value and other bytes behind it.
    Append,
    /// Other bytes.
    Set,
    Delete,
    /// It is answered that there is no memory.
    Short,
}

static HOWS: [(&str, How); 5] = [
    ("count", How::Count),
    ("append", How::Append),
    ("set", How::Set),
    ("delete", How::Delete),
    ("short", How::Short),
];

/// What is made of a value, by its name.
pub fn how_of(name: &[u8]) -> Option<How> {
    find(&HOWS, name)
}

/// Whether what is made of a value takes bytes, if there is something of this name.
pub fn takes_bytes(name: &[u8]) -> Option<bool> {
    let how = how_of(name)?;
    Some(matches!(how, How::Append | How::Set))
}

fn counted(old: Option<&[u8]>) -> u64 {
    match old {
        Some(bytes) => number_of(bytes).wrapping_add(1),
        None => 0,
    }
}

/// What is made of a value, or of none, by a way of doing so and its bytes.
pub fn made_of(
    alloc: Global,
    how: How,
    bytes: &[u8],
    old: Option<&[u8]>,
) -> Result<Option<Vec<u8>>, AllocError> {
    match how {
        How::Count => Ok(Some(Vec::from_slice(alloc, &counted(old).to_be_bytes())?)),
        How::Append => Ok(Some(joined(alloc, bytes_of(old), bytes)?)),
        How::Set => Ok(Some(Vec::from_slice(alloc, bytes)?)),
        How::Delete => Ok(None),
        How::Short => Err(AllocError),
    }
}
