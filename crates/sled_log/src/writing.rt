//! A block more at the end of a log.
ghost use Rattle.std.specs.Prelude.{◌≡◌, ◌<◌, ◌≤◌, ◌+◌, ◌^◌, ◌++◌, [], ◌∷◌, length, take, IfOk, IfErr, OnOk, Ok};
ghost use Rattle.sled_disk.specs.Disk.{written, Torn, Shortened, Only, LeavesOnly, HasCause};
ghost use Rattle.sled_log.specs.Log.{opened, log_of, IsLog};
ghost use Rattle.sled_log.specs.Append.{behind_gate, IsBlockFor, IsBeforeOrAfter};
ghost use Rattle.sled_log.specs.Tear.{log_to_tear, IsTorn};
ghost use Rattle.sled_log.specs.Digest.{digest};
ghost use Rattle.sled_disk.specs.declared.disk.DiskError.TheVariants.{NoMemory};

use crate::digest::digest_of;
use sled_disk::{Disk, Result, law_only_now};
use std::alloc::Global;

const CLOSED: u8 = 0;

const OPENED: u8 = 255;

/// The bytes of a block behind its gate, and the closed gate that ends the log, of this payload. Refused with `NoMemory` alone.
///
/// ```
/// let block = block_of(alloc, b"rain")?;
/// append(&mut disk, 0, &block)?; // Where the file's first byte is the closed gate that ends its log.
/// ```
pub fn block_of(alloc: Global, payload: &[u8]) -> Result<Vec<u8>>
    ensures ok { IfOk result (λ bytes. bytes.items ≡ behind_gate digest payload.now) }
    ensures err { IfErr result (λ e. e ≡ NoMemory) }
{
    let mut bytes = Vec::new(alloc);
    bytes.extend_from_slice(&(payload.len() as u64).to_le_bytes())?;
    bytes.extend_from_slice(&digest_of(payload).to_le_bytes())?;
    bytes.extend_from_slice(payload)?;
    bytes.push(CLOSED)?;
    Ok(bytes)
}

/// Writes bytes, and brings them to the disk. What is refused is refused by the disk, which may have them then, a part of them or none.
///
/// ```
/// write_through(&mut disk, 0, &[1, 2])?; // No crash takes them back.
/// ```
pub fn write_through<D: Disk>(disk: &mut D, at: usize, bytes: &[u8]) -> Result<()>
    requires place { at ≤ length (D.seen disk.old) }
    requires on_disk { Only (D.seen disk.old) (D.may_leave disk.old) }
    ensures written { OnOk result (D.seen disk.new ≡ written at bytes.now (D.seen disk.old)) }
    ensures durable { OnOk result (Only (written at bytes.now (D.seen disk.old)) (D.may_leave disk.new)) }
    // A crash at any moment of the call leaves the file with a part of the write, or with none of it.
    ensures any_moment { LeavesOnly D.moment D.left_since disk.old disk.new (Torn at bytes.now (D.seen disk.old)) }
    ensures cause { HasCause (D.faults disk.old) (D.faults disk.new) result }
{
    disk.write_at(at, bytes)?;
    disk.sync()?;
    Ok(())
}

/// Cuts a file, and brings that to the disk. What is refused is refused by the disk, which may have cut off all of it then, a part of it
/// or nothing.
///
/// ```
/// cut_through(&mut disk, 1)?; // Of a file that has a byte, no crash brings the others back.
/// ```
pub fn cut_through<D: Disk>(disk: &mut D, len: usize) -> Result<()>
    requires place { len ≤ length (D.seen disk.old) }
    requires on_disk { Only (D.seen disk.old) (D.may_leave disk.old) }
    ensures cut { OnOk result (D.seen disk.new ≡ take len (D.seen disk.old)) }
    ensures durable { OnOk result (Only (D.seen disk.new) (D.may_leave disk.new)) }
    // A crash at any moment of the call leaves a beginning of the file that is no shorter.
    ensures any_moment { LeavesOnly D.moment D.left_since disk.old disk.new (Shortened len (D.seen disk.old)) }
    ensures cause { HasCause (D.faults disk.old) (D.faults disk.new) result }
{
    disk.cut(len)?;
    disk.sync()
}

/// Adds a block behind the closed gate of a log, brings it to the disk, and then opens the gate, and brings that to the disk. The bytes
/// are those of the block behind its gate, and the closed gate that ends the log. What is refused is refused by the disk: then the
/// block is in the log or it is not, and which is for the next opening to see.
///
/// ```
/// // A log of nothing is a closed gate.
/// let mut file = MemoryDisk::new(alloc, vec![in alloc; 0]?)?;
/// append(&mut file, 0, &block_of(alloc, b"rain")?)?;
/// ```
pub fn append<D: Disk>(disk: &mut D, gate: usize, block: &[u8]) -> Result<()>
    requires place { gate < length (D.seen disk.old) }
    requires small { gate < 2 ^ 62 }
    requires on_disk { Only (D.seen disk.old) (D.may_leave disk.old) }
    ensures written { OnOk result (D.seen disk.new ≡ written gate (opened ∷ []) (written (gate + 1) block.now (D.seen disk.old))) }
    ensures durable { OnOk result (Only (D.seen disk.new) (D.may_leave disk.new)) }
    // Then the log has the new payload, and its closed gate is behind the block.
    ensures acknowledged { OnOk result ((b : IsBlockFor (D.seen disk.old) gate block.now) → log_of b.digest (D.seen disk.new) ≡ Ok (b.payloads ++ b.payload ∷ [])) }
    ensures next { OnOk result ((b : IsBlockFor (D.seen disk.old) gate block.now) → IsLog b.digest (D.seen disk.new) (b.payloads ++ b.payload ∷ []) (gate + length block.now)) }
    // A crash at any moment of the call leaves a log of the payloads from before it, with the new one or without.
    ensures any_moment { (b : IsBlockFor (D.seen disk.old) gate block.now) → LeavesOnly D.moment D.left_since disk.old disk.new (IsBeforeOrAfter b) }
    ensures cause { HasCause (D.faults disk.old) (D.faults disk.new) result }
{
    write_through(disk, gate + 1, block)?;
    write_through(disk, gate, &[OPENED])
}

/// Adds a block behind the closed gate of a log, and opens the gate, and brings both to the disk in one sync. The gate is the last byte of
/// the file, so nothing that was written before can be read behind a block that a crash tore. A log that is written in this way is read up
/// to a tear (`read_to_tear`), and mended before a block is added to it (`mend`). What is refused is refused by the disk, as by `append`.
///
/// ```
/// let mut file = MemoryDisk::new(alloc, vec![in alloc; 0]?)?;
/// append_once(&mut file, 0, &block_of(alloc, b"rain")?)?; // Half as many syncs as `append`.
/// ```
pub fn append_once<D: Disk>(disk: &mut D, gate: usize, block: &[u8]) -> Result<()>
    requires last { gate + 1 ≡ length (D.seen disk.old) }
    requires small { gate < 2 ^ 62 }
    requires on_disk { Only (D.seen disk.old) (D.may_leave disk.old) }
    ensures written { OnOk result (D.seen disk.new ≡ written gate (opened ∷ []) (written (gate + 1) block.now (D.seen disk.old))) }
    ensures durable { OnOk result (Only (D.seen disk.new) (D.may_leave disk.new)) }
    // Then the log has the new payload, and its closed gate is behind the block, again the last byte of the file.
    ensures acknowledged { OnOk result ((b : IsBlockFor (D.seen disk.old) gate block.now) → log_of b.digest (D.seen disk.new) ≡ Ok (b.payloads ++ b.payload ∷ [])) }
    ensures next { OnOk result ((b : IsBlockFor (D.seen disk.old) gate block.now) → IsLog b.digest (D.seen disk.new) (b.payloads ++ b.payload ∷ []) (gate + length block.now)) }
    ensures last { OnOk result (gate + length block.now + 1 ≡ length (D.seen disk.new)) }
    ensures read { OnOk result ((b : IsBlockFor (D.seen disk.old) gate block.now) → log_to_tear b.digest (D.seen disk.new) ≡ b.payloads ++ b.payload ∷ []) }
    // A crash at any moment of the call leaves a log that begins with the payloads from before it, up to a tear. If the digest tells what it
    // left of the block, the log has the new payload behind them, or nothing.
    ensures any_moment { (b : IsBlockFor (D.seen disk.old) gate block.now) → LeavesOnly D.moment D.left_since disk.old disk.new (IsTorn b) }
    ensures cause { HasCause (D.faults disk.old) (D.faults disk.new) result }
{
    law_only_now(disk);
    disk.write_at(gate + 1, block)?;
    disk.write_at(gate, &[OPENED])?;
    disk.sync()
}
