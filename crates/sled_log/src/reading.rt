//! What the bytes of a log say.
ghost use Rattle.std.specs.Prelude.{◌≡◌, ◌+◌, ◌≤◌, map, length, drop, option_map, IfOk, IfErr, IfSome, Ok, Err};
ghost use Rattle.std.specs.Int.{from_le_bytes, w64};
ghost use Rattle.sled_disk.specs.Disk.{NoMore, LeavesOnly, HasCause};
ghost use Rattle.sled_log.specs.Digest.{digest};
ghost use Rattle.sled_log.specs.Log.{number_in, next_of, log_of, IsLog};
ghost use Rattle.sled_log.specs.Tear.{log_to_tear, EndsAt};
ghost use Rattle.sled_log.specs.Reading.{is_why};
ghost use Rattle.sled_log.specs.theory.Reading.{payload_of};
ghost use Rattle.sled_log.specs.declared.reading.LogError.TheVariants.{NoMemory};

use crate::digest::digest_of;
use sled_disk::Disk;
use std::alloc::{AllocError, AllocFailed, Global};

const CLOSED: u8 = 0;

const OPENED: u8 = 255;

/// Why bytes are no log.
#[derive(Clone, Copy, Debug, PartialEq, Eq)]
pub enum LogError {
    /// There was no memory for the list of the payloads.
    NoMemory,
    /// At this place, a number of bytes, there is no gate, one that is neither closed nor open, or an open block that is cut short or
    /// has other bytes than were written.
    Decayed(usize),
}

impl From<AllocError> for LogError {
    ghost from_gives = { λ _ e. e ≡ NoMemory };

    fn from(_: AllocError) -> Self {
        LogError::NoMemory
    }
}

impl<T: Drop> From<AllocFailed<T>> for LogError {
    ghost from_gives = { λ _ e. e ≡ NoMemory };

    fn from(_: AllocFailed<T>) -> Self {
        LogError::NoMemory
    }
}

/// A log that was read.
#[derive(Drop)]
pub struct Log<'a> {
    /// The payloads of its blocks, the first of them first.
    pub payloads: Vec<&'a [u8]>,
    /// The place of the closed gate that ends it, or, if it was read up to a tear, the place where it ends.
    pub gate: usize,
}

// The number at a place of bytes.
fn number_at(bytes: &[u8], at: usize) -> u64
    requires { at + 8 ≤ length bytes.now }
    ensures { result ≡ number_in (drop at bytes.now) }
{
    match bytes[at..].first_chunk::<8>() {
        Some(number) => u64::from_le_bytes(*number),
        None => 0,
    }
}

// The payload of a block, of the bytes behind its gate, if they have all of the block and its digest fits.
fn payload_behind(bytes: &[u8]) -> Option<&[u8]>
    ensures { option_map (λ p. p.now) result ≡ payload_of digest bytes.now }
{
    if bytes.len() < 16 {
        return None;
    }
    let count = number_at(bytes, 0) as usize;
    if bytes.len() - 16 < count {
        return None;
    }
    let payload = &bytes[16..16 + count];
    if number_at(bytes, 8) == digest_of(payload) {
        Some(payload)
    } else {
        None
    }
}

// What is at a gate, the first of the bytes: none if it is closed, or the payload of an open block.
fn next_payload(bytes: &[u8]) -> Result<Option<&[u8]>, ()>
    ensures next { IfOk result (λ next. next_of digest bytes.now ≡ Ok (option_map (λ p. p.now) next)) }
    ensures fits { IfOk result (λ next. IfSome next (λ p. 17 + length p.now ≤ length bytes.now)) }
    ensures fault { IfErr result (λ e. next_of digest bytes.now ≡ Err e) }
{
    let Some((gate, behind)) = bytes.split_first() else {
        return Err(());
    };
    if *gate == CLOSED {
        return Ok(None);
    }
    if *gate != OPENED {
        return Err(());
    }
    match payload_behind(behind) {
        Some(payload) => Ok(Some(payload)),
        None => Err(()),
    }
}

/// Reads a log: the payloads of its blocks up to the closed gate, whatever is behind it. Refused with `NoMemory`, or with `Decayed` and the
/// place of the first fault.
///
/// ```
/// if let Ok(log) = read_log(alloc, disk.bytes()) {
///     let count = log.payloads.len();
/// }
/// ```
pub fn read_log(alloc: Global, bytes: &[u8]) -> Result<Log<'_>, LogError>
    ensures log { IfOk result (λ log. IsLog digest bytes.now (map (λ p. p.now) log.payloads.items) log.gate) }
    ensures read { IfOk result (λ log. log_of digest bytes.now ≡ Ok (map (λ p. p.now) log.payloads.items)) }
    ensures err { IfErr result (λ e. is_why e bytes.now) }
{
    let mut payloads = Vec::new(alloc);
    let mut at = 0;
    'blocks: loop {
        match next_payload(&bytes[at..]) {
            Err(()) => return Err(LogError::Decayed(at)),
            Ok(None) => return Ok(Log { payloads, gate: at }),
            Ok(Some(payload)) => {
                payloads.push(payload)?;
                at += 17 + payload.len();
            }
        }
    }
}

/// Reads a log that a crash may have torn: the payloads of its blocks up to a closed gate or to the first fault, whatever is from there
/// on. So a block that has decayed ends the log too. Refused with `NoMemory` alone.
///
/// ```
/// if let Ok(log) = read_to_tear(alloc, disk.bytes()) {
///     let end = log.gate; // Where the next block goes, once the log is mended.
/// }
/// ```
pub fn read_to_tear(alloc: Global, bytes: &[u8]) -> Result<Log<'_>, LogError>
    ensures ends { IfOk result (λ log. EndsAt digest bytes.now (map (λ p. p.now) log.payloads.items) log.gate) }
    ensures read { IfOk result (λ log. log_to_tear digest bytes.now ≡ map (λ p. p.now) log.payloads.items) }
    ensures err { IfErr result (λ e. e ≡ NoMemory) }
{
    let mut payloads = Vec::new(alloc);
    let mut at = 0;
    'blocks: loop {
        match next_payload(&bytes[at..]) {
            Err(()) => return Ok(Log { payloads, gate: at }),
            Ok(None) => return Ok(Log { payloads, gate: at }),
            Ok(Some(payload)) => {
                payloads.push(payload)?;
                at += 17 + payload.len();
            }
        }
    }
}

/// All bytes of a file, as a read returns them. What is refused is refused by the disk.
///
/// ```
/// let bytes = read_all(&mut disk, alloc)?;
/// let log = read_log(alloc, bytes.as_slice());
/// ```
pub fn read_all<D: Disk>(disk: &mut D, alloc: Global) -> sled_disk::Result<Vec<u8>>
    ensures bytes { IfOk result (λ bytes. bytes.items ≡ D.seen disk.old) }
    ensures seen { D.seen disk.new ≡ D.seen disk.old }
    ensures crash { NoMore (D.may_leave disk.old) (D.may_leave disk.new) }
    ensures any_moment { LeavesOnly D.moment D.left_since disk.old disk.new (D.may_leave disk.old) }
    ensures cause { HasCause (D.faults disk.old) (D.faults disk.new) result }
{
    let len = disk.len()?;
    disk.read(alloc, 0, len)
}
