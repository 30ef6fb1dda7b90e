//! Reads that take no slot, by the words that ask for them.

use crate::words::{find, was_read};
use line_words::words::{first_word, read_word};
use sled_nodes::IVec;
use std::alloc::Global;
use std::ops::Bound;

// What reading words answers.
type Answer<T> = sled_nodes::Result<T>;

/// From which end pairs are taken.
#[derive(Clone, Copy)]
pub enum Side {
    Front,
    Back,
    /// From both in turn.
    Ends,
}

/// Which read it is.
#[derive(Clone, Copy)]
pub enum Look {
    Has,
    Read,
    Below,
    Above,
    First,
    Last,
    Len,
    Empty,
    Names,
    /// All pairs.
    All,
    Pairs(Side),
    Keys(Side),
    Values(Side),
    Prefix(Side),
}

// The reads, by the words that ask for them.
const LOOKS: [(&str, Look); 18] = [
    ("has", Look::Has),
    ("read", Look::Read),
    ("lt", Look::Below),
    ("gt", Look::Above),
    ("first", Look::First),
    ("last", Look::Last),
    ("len", Look::Len),
    ("empty", Look::Empty),
    ("names", Look::Names),
    ("range", Look::Pairs(Side::Front)),
    ("range-back", Look::Pairs(Side::Back)),
    ("range-ends", Look::Pairs(Side::Ends)),
    ("prefix", Look::Prefix(Side::Front)),
    ("prefix-back", Look::Prefix(Side::Back)),
    ("keys", Look::Keys(Side::Front)),
    ("keys-back", Look::Keys(Side::Back)),
    ("values", Look::Values(Side::Front)),
    ("values-back", Look::Values(Side::Back)),
];

/// The read of a word, if it is one.
pub fn look_of(name: &[u8]) -> Option<Look> {
    find(&LOOKS, name)
}

/// The bound that a word is, if it is one.
pub fn read_bound(alloc: Global, word: &[u8]) -> Answer<Option<Bound<IVec>>> {
    match word {
        b".." => Ok(Some(Bound::Unbounded)),
        [b'[', key @ ..] => Ok(read_word(alloc, key)?.map(Bound::Included)),
        [b'(', key @ ..] => Ok(read_word(alloc, key)?.map(Bound::Excluded)),
        _ => Ok(None),
    }
}

// Whether a word is a bound.
fn is_bound(alloc: Global, word: &[u8]) -> Answer<bool> {
    Ok(was_read(read_bound(alloc, word)?))
}

/// Whether a read takes these words, which are behind its own.
pub fn is_read(alloc: Global, look: Look, words: Option<&[u8]>) -> Answer<bool> {
    match (look, words) {
        (Look::First | Look::Last | Look::Len | Look::Empty | Look::Names | Look::All, words) => {
            Ok(words.is_none())
        }
        (_, None) => Ok(false),
        (Look::Pairs(_) | Look::Keys(_) | Look::Values(_), Some(words)) => match first_word(words) {
            (lo, Some(hi)) => Ok(is_bound(alloc, lo)? && is_bound(alloc, hi)?),
            (_, None) => Ok(false),
        },
        (_, Some(word)) => Ok(was_read(read_word(alloc, word)?)),
    }
}
