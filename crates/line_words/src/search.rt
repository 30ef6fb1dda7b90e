//! Where a byte is first: sixteen bytes are looked at at once.
ghost use Rattle.std.specs.Prelude.{◌≡◌, ◌+◌, ◌≤◌, ◌==◌, not, length, take, drop, MatchOption};
ghost use Rattle.std.specs.List.{prefix_len};
ghost use Rattle.line_words.specs.Search.{Lacks, IsFirst};

use std::simd::prelude::*;

// How many bytes are looked at at once. Contracts have the number itself.
pub(crate) const LANES: usize = 16;

// How many of the bytes from a place on are in front of the first that is this one: all of them if none is.
#[inline(always)]
pub(crate) fn in_front(byte: u8, bytes: &[u8], at: usize) -> usize
    requires { at + 16 ≤ length bytes.now }
    ensures { result ≡ prefix_len (λ b. not (b == byte)) (take 16 (drop at bytes.now)) }
{
    let found = u8x16::from_slice(&bytes[at..])
        .simd_eq(u8x16::splat(byte))
        .to_bitmask();
    if found == 0 {
        LANES
    } else {
        found.trailing_zeros() as usize
    }
}

// The first place at which the byte is, if it is anywhere: of few bytes, one by one.
fn find_among_few(byte: u8, bytes: &[u8]) -> Option<usize>
    ensures { MatchOption result (Lacks byte bytes.now (length bytes.now)) (IsFirst byte bytes.now) }
{
    for (at, other) in bytes.iter().enumerate() {
        if *other == byte {
            return Some(at);
        }
    }
    None
}

/// The first place at which the byte is, if it is anywhere.
///
/// ```
/// let blank = line_words::search::find(b' ', b"get ulm"); // 3.
/// ```
// The last sixteen bytes are looked at whole, even if some of them were looked at before.
pub fn find(byte: u8, bytes: &[u8]) -> Option<usize>
    ensures { MatchOption result (Lacks byte bytes.now (length bytes.now)) (IsFirst byte bytes.now) }
{
    if bytes.len() < LANES {
        return find_among_few(byte, bytes);
    }
    let last = bytes.len() - LANES;
    let mut at = 0;
    while at < last {
        let front = in_front(byte, bytes, at);
        if front < LANES {
            return Some(at + front);
        }
        at += LANES;
    }
    let front = in_front(byte, bytes, last);
    if front < LANES {
        Some(last + front)
    } else {
        None
    }
}
