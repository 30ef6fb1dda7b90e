//! What is known of a file's log after a call, and which bytes are a block.
ghost use Rattle.std.specs.Prelude.{◌≡◌, ◌≤◌, ◌+◌, ◌∷◌, [], true, ℕ, List, length, take, IfOk, IfErr, IfSome};
ghost use Rattle.sled_disk.specs.declared.disk.DiskError.TheVariants.{NoMemory};
ghost use Rattle.sled_disk.specs.Disk.{written};
ghost use Rattle.sled_log.specs.Digest.{digest};
ghost use Rattle.sled_log.specs.Log.{opened, closed};
ghost use Rattle.sled_once.specs.Stages.{IsBlock, EndsAs, EndsIn};

use crate::stage::End;
use sled_disk::Result;
use sled_log::{digest_of, read_log};
use std::alloc::Global;

const CLOSED: u8 = 0;

const OPENED: u8 = 255;

// Whether bytes are those of a block behind its gate and a closed gate.
fn is_block(bytes: &[u8]) -> bool
    ensures { result ≡ true → IsBlock bytes.now }
{
    let Some((count, behind)) = bytes.split_first_chunk::<8>() else {
        return false;
    };
    let Some((told, behind)) = behind.split_first_chunk::<8>() else {
        return false;
    };
    let Some((gate, payload)) = behind.split_last() else {
        return false;
    };
    if *gate != CLOSED || u64::from_le_bytes(*count) != payload.len() as u64 {
        return false;
    }
    u64::from_le_bytes(*told) == digest_of(payload)
}

/// A copy of the bytes, if they are those of a block behind its gate and a closed gate.
pub fn block_in(alloc: Global, bytes: &[u8]) -> Result<Option<Vec<u8>>>
    ensures block { IfOk result (λ o. IfSome o (λ block. IsBlock block.items)) }
    ensures same { IfOk result (λ o. IfSome o (λ block. block.items ≡ bytes.now)) }
    ensures err { IfErr result (λ e. e ≡ NoMemory) }
{
    if is_block(bytes) {
        Ok(Some(bytes.to_vec(alloc)?))
    } else {
        Ok(None)
    }
}

/// Whether a write opens the gate at this place.
pub fn is_opening(gate: usize, at: usize, bytes: &[u8]) -> bool
    ensures place { result ≡ true → at ≡ gate }
    ensures is { result ≡ true → bytes.now ≡ opened ∷ [] }
{
    match bytes.split_first() {
        Some((first, behind)) => at == gate && *first == OPENED && behind.is_empty(),
        None => false,
    }
}

// Whether a write closes a gate at the front of a file.
fn is_front_closing(at: usize, bytes: &[u8]) -> bool
    ensures place { result ≡ true → at ≡ 0 }
    ensures is { result ≡ true → bytes.now ≡ closed ∷ [] }
{
    match bytes.split_first() {
        Some((first, behind)) => at == 0 && *first == CLOSED && behind.is_empty(),
        None => false,
    }
}

// What is known after a write behind a closed gate.
fn end_staged(alloc: Global, gate: usize, at: usize, bytes: &[u8]) -> End
    ensures { (file : List ℕ) → EndsIn gate file → EndsAs result (written at bytes.now file) }
{
    if at == 0 || at - 1 != gate {
        return End::Unknown;
    }
    match block_in(alloc, bytes) {
        Ok(Some(block)) => End::Staged(gate, block.len()),
        Ok(None) => End::Unknown,
        Err(_) => End::Unknown,
    }
}

/// What is known of where the log ends after a write.
pub fn end_written(alloc: Global, end: End, at: usize, bytes: &[u8]) -> End
    ensures { (file : List ℕ) → EndsAs end file → EndsAs result (written at bytes.now file) }
{
    if is_front_closing(at, bytes) {
        return End::Closed(0);
    }
    match end {
        End::Unknown => End::Unknown,
        End::Closed(gate) => end_staged(alloc, gate, at, bytes),
        End::Staged(gate, count) => {
            if is_opening(gate, at, bytes) {
                match gate.checked_add(count) {
                    Some(next) => End::Closed(next),
                    None => End::Unknown,
                }
            } else {
                End::Unknown
            }
        }
    }
}

/// What is known of it after a cut.
pub fn end_cut(end: End, len: usize) -> End
    ensures { (file : List ℕ) → EndsAs end file → EndsAs result (take len file) }
{
    match end {
        End::Closed(gate) => {
            if gate < len {
                End::Closed(gate)
            } else {
                End::Unknown
            }
        }
        _ => End::Unknown,
    }
}

/// What is known of it at an opening.
pub fn end_found(alloc: Global, bytes: &[u8]) -> End
    ensures { EndsAs result bytes.now }
{
    match read_log(alloc, bytes) {
        Ok(log) => End::Closed(log.gate),
        Err(_) => End::Unknown,
    }
}
