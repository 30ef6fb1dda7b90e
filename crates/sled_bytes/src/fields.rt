//! The fields of nodes and changes: read at a place of bytes, each answer with the place behind it.
ghost use Rattle.std.specs.Prelude.{◌≡◌, ◌≤◌, ◌+◌, ℕ, length, drop, IfOk};
ghost use Rattle.sled_bytes.specs.Reading.{Takes, number_at, bytes_at, string_at, byte_at, flag_at, optional_at};

use crate::refusal::{Flaw, Refusal};
use sled_nodes::{IVec, Pid};
use std::alloc::Global;

/// A number.
#[inline(always)]
pub fn number_of(bytes: &[u8], at: usize) -> Result<(u64, usize), Refusal>
    requires place { at ≤ length bytes.now }
    ensures place { IfOk result (λ x. (at ≤ x.1) × (x.1 ≤ length bytes.now)) }
    ensures gives { Takes bytes.now result (number_at (drop at bytes.now)) }
{
    match bytes[at..].split_first_chunk::<8>() {
        Some((front, _)) => Ok((u64::from_le_bytes(*front), at + 8)),
        None => Err(Refusal::Flawed(Flaw::Short)),
    }
}

/// So many bytes.
#[inline(always)]
pub fn bytes_of(
    alloc: Global,
    bytes: &[u8],
    at: usize,
    count: u64,
) -> Result<(IVec, usize), Refusal>
    requires place { at ≤ length bytes.now }
    ensures place { IfOk result (λ x. (at ≤ x.1) × (x.1 ≤ length bytes.now)) }
    ensures gives { Takes bytes.now result (bytes_at count (drop at bytes.now)) }
{
    let count = count as usize;
    if bytes.len() - at < count {
        return Err(Refusal::Flawed(Flaw::Short));
    }
    match IVec::from_slice(alloc, &bytes[at..at + count]) {
        Ok(string) => Ok((string, at + count)),
        Err(e) => {
            drop(e);
            Err(Refusal::NoMemory)
        }
    }
}

/// A byte string.
#[tactic(auto, unfolding(crate::specs::Reading::string_at))]
#[inline(always)]
pub fn string_of(alloc: Global, bytes: &[u8], at: usize) -> Result<(IVec, usize), Refusal>
    requires place { at ≤ length bytes.now }
    ensures place { IfOk result (λ x. (at ≤ x.1) × (x.1 ≤ length bytes.now)) }
    ensures gives { Takes bytes.now result (string_at (drop at bytes.now)) }
{
    let (count, at) = number_of(bytes, at)?;
    bytes_of(alloc, bytes, at, count)
}

/// A byte.
#[tactic(auto, unfolding(crate::specs::Reading::byte_at))]
pub fn byte_of(bytes: &[u8], at: usize) -> Result<(u8, usize), Refusal>
    requires place { at ≤ length bytes.now }
    ensures place { IfOk result (λ x. (x.1 ≡ at + 1) × (x.1 ≤ length bytes.now)) }
    ensures gives { Takes bytes.now result (byte_at (drop at bytes.now)) }
{
    if at == bytes.len() {
        return Err(Refusal::Flawed(Flaw::Short));
    }
    Ok((bytes[at], at + 1))
}

/// Whether a flag is set.
#[tactic(auto, unfolding(crate::specs::Reading::flag_at))]
pub fn flag_of(bytes: &[u8], at: usize) -> Result<(bool, usize), Refusal>
    requires place { at ≤ length bytes.now }
    ensures place { IfOk result (λ x. (at ≤ x.1) × (x.1 ≤ length bytes.now)) }
    ensures gives { Takes bytes.now result (flag_at (drop at bytes.now)) }
{
    let (byte, at) = byte_of(bytes, at)?;
    match byte {
        0 => Ok((false, at)),
        1 => Ok((true, at)),
        _ => Err(Refusal::Flawed(Flaw::Unknown)),
    }
}

/// A page number behind a flag, if it is there.
#[tactic(auto, unfolding(crate::specs::Reading::optional_at))]
pub fn optional_of(bytes: &[u8], at: usize) -> Result<(Option<Pid>, usize), Refusal>
    requires place { at ≤ length bytes.now }
    ensures place { IfOk result (λ x. (at ≤ x.1) × (x.1 ≤ length bytes.now)) }
    ensures gives { Takes bytes.now result (optional_at (drop at bytes.now)) }
{
    let (some, at) = flag_of(bytes, at)?;
    if !some {
        return Ok((None, at));
    }
    let (number, at) = number_of(bytes, at)?;
    Ok((Some(Pid(number)), at))
}
