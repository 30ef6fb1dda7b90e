//! A log that a crash may have torn is made whole.
ghost use Rattle.std.specs.Prelude.{◌≡◌, ◌≤◌, ◌+◌, [], ◌∷◌, true, length, IfOk, IfErr, OnOk};
ghost use Rattle.sled_disk.specs.Disk.{Only, LeavesOnly, HasCause};
ghost use Rattle.sled_disk.specs.declared.disk.DiskError.TheVariants.{NoMemory};
ghost use Rattle.sled_log.specs.Digest.{digest};
ghost use Rattle.sled_log.specs.Log.{closed, IsLog};
ghost use Rattle.sled_log.specs.Tear.{log_to_tear, EndsAt, ReadsAs};

use crate::reading::{read_all, read_to_tear};
use crate::writing::{cut_through, write_through};
use sled_disk::{Disk, DiskError, Result};
use std::alloc::Global;

const CLOSED: u8 = 0;

// The place where a log ends that a crash may have torn.
fn end_of(alloc: Global, bytes: &[u8]) -> Result<usize>
    ensures ok { IfOk result (λ end. EndsAt digest bytes.now (log_to_tear digest bytes.now) end) }
    ensures within { IfOk result (λ end. end ≤ length bytes.now) }
    ensures err { IfErr result (λ e. e ≡ NoMemory) }
{
    match read_to_tear(alloc, bytes) {
        Ok(log) => Ok(log.gate),
        Err(_) => Err(DiskError::NoMemory),
    }
}

// Whether bytes are a closed gate and nothing else.
fn is_gate(bytes: &[u8]) -> bool
    ensures { result ≡ true → bytes.now ≡ closed ∷ [] }
{
    let Some((gate, behind)) = bytes.split_first() else {
        return false;
    };
    *gate == CLOSED && behind.is_empty()
}

// Ends a log at a place with a closed gate, the last byte of the file.
fn close_at<D: Disk>(disk: &mut D, end: usize, len: usize) -> Result<()>
    requires ends { EndsAt digest (D.seen disk.old) (log_to_tear digest (D.seen disk.old)) end }
    requires within { end ≤ len }
    requires len { len ≡ length (D.seen disk.old) }
    requires on_disk { Only (D.seen disk.old) (D.may_leave disk.old) }
    ensures log { OnOk result (IsLog digest (D.seen disk.new) (log_to_tear digest (D.seen disk.old)) end) }
    ensures last { OnOk result (end + 1 ≡ length (D.seen disk.new)) }
    ensures durable { OnOk result (Only (D.seen disk.new) (D.may_leave disk.new)) }
    ensures any_moment { LeavesOnly D.moment D.left_since disk.old disk.new (ReadsAs (D.seen disk.old)) }
    ensures cause { HasCause (D.faults disk.old) (D.faults disk.new) result }
{
    write_through(disk, end, &[CLOSED])?;
    if end < len {
        return cut_through(disk, end + 1);
    }
    Ok(())
}

/// Makes a log whole that a crash may have torn: it ends with a closed gate, where it is read up to a tear, and nothing is behind that. The
/// place of the gate is returned. A file that ends so stays as it is. What a read returns has to be on the disk: after an opening, sync
/// first. Look at the payloads first: of a file that is no log nothing is left.
///
/// ```
/// let gate = mend(&mut file, alloc)?;
/// append_once(&mut file, gate, &block)?;
/// ```
pub fn mend<D: Disk>(disk: &mut D, alloc: Global) -> Result<usize>
    requires on_disk { Only (D.seen disk.old) (D.may_leave disk.old) }
    ensures log { IfOk result (λ gate. IsLog digest (D.seen disk.new) (log_to_tear digest (D.seen disk.old)) gate) }
    ensures last { IfOk result (λ gate. gate + 1 ≡ length (D.seen disk.new)) }
    ensures durable { OnOk result (Only (D.seen disk.new) (D.may_leave disk.new)) }
    // A crash at any moment of the call leaves a file that is read as it was read before.
    ensures any_moment { LeavesOnly D.moment D.left_since disk.old disk.new (ReadsAs (D.seen disk.old)) }
    ensures cause { HasCause (D.faults disk.old) (D.faults disk.new) result }
{
    let bytes = read_all(disk, alloc)?;
    let len = bytes.len();
    let end = end_of(alloc, &bytes)?;
    if is_gate(&bytes.as_slice()[end..]) {
        return Ok(end);
    }
    close_at(disk, end, len)?;
    Ok(end)
}
