//! A file of a store that a crash may have torn is made whole.
ghost use Rattle.std.specs.Prelude.{◌≡◌, ◌⊎◌, ◌↔◌, ◌∷◌, [], ◌++◌, ℕ, List, true, false, take, IsTrue, IfOk, IfErr, OnOk};
ghost use Rattle.sled_disk.specs.Disk.{Only, LeavesOnly, HasCause};
ghost use Rattle.sled_disk.specs.declared.disk.DiskError.TheVariants.{NoMemory};
ghost use Rattle.sled_log.specs.Log.{closed};
ghost use Rattle.sled_files.specs.Flaws.{format_in};
ghost use Rattle.sled_files.specs.Header.{magic, header, format};
ghost use Rattle.files_once.specs.Mended.{IsOfStore, BeginsAsStore, IsMadeWhole, IsMended, LeftMeanwhile};

use sled_disk::{Disk, DiskError, Result, law_only_now};
use sled_log::{mend, read_all, read_to_tear};
use std::alloc::Global;

// "donnavek" as a number, the low byte first.
const MAGIC: u64 = 0x6b65_7661_6e6e_6f64;

const FORMAT: u32 = 1;

const CLOSED: u8 = 0;

// Whether bytes begin with the name of the format.
fn begins_with_magic(bytes: &[u8]) -> bool
    ensures { IsTrue result ↔ (take 8 bytes.now ≡ magic) }
{
    match bytes.first_chunk::<8>() {
        Some(first) => u64::from_le_bytes(*first) == MAGIC,
        None => false,
    }
}

// Whether a payload begins as the header of a store in this format does.
fn is_headed(payload: &[u8]) -> bool
    ensures begins { result ≡ true → take 8 payload.now ≡ magic }
    ensures same { result ≡ true → format_in payload.now ≡ format }
    ensures whole { (generation : ℕ) (first : List ℕ) → payload.now ≡ header generation ++ first → result ≡ true }
{
    if !begins_with_magic(payload) {
        return false;
    }
    let Some((format, _)) = payload[8..].split_first_chunk::<4>() else {
        return false;
    };
    let format = u32::from_le_bytes(*format);
    format == FORMAT
}

// Whether bytes are a closed gate and nothing else.
fn is_gate(bytes: &[u8]) -> bool
    ensures { result ≡ true → bytes.now ≡ closed ∷ [] }
{
    match bytes.split_first() {
        Some((gate, behind)) => *gate == CLOSED && behind.is_empty(),
        None => false,
    }
}

// Whether a file is one of a store, and not all of it is a log that ends with its closed gate.
fn is_torn(alloc: Global, bytes: &[u8]) -> Result<bool>
    ensures no { IfOk result (λ is. is ≡ false → (IsOfStore bytes.now → ⊥) ⊎ IsMadeWhole bytes.now bytes.now) }
    ensures yes { IfOk result (λ is. is ≡ true → BeginsAsStore bytes.now) }
    ensures err { IfErr result (λ e. e ≡ NoMemory) }
{
    let log = match read_to_tear(alloc, bytes) {
        Ok(log) => log,
        Err(_) => return Err(DiskError::NoMemory),
    };
    let Some(payload) = log.payloads.first() else {
        return Ok(false);
    };
    if !is_headed(payload) {
        return Ok(false);
    }
    Ok(!is_gate(&bytes[log.gate..]))
}

/// Makes the log of a file whole that a crash may have torn while a block was brought to the disk in one sync, if the file is one of a
/// store, and says whether the file was changed. What is behind the log's end is cut off, also of a log that was whole. All of it is brought
/// to the disk first. Refused for want of memory or by the disk.
///
/// ```
/// let was_torn = mend_store(alloc, &mut first)?;
/// ```
pub fn mend_store<D: Disk>(alloc: Global, disk: &mut D) -> Result<bool>
    ensures mended { OnOk result (IsMended (D.seen disk.old) (D.seen disk.new)) }
    ensures same { IfOk result (λ is. is ≡ false → D.seen disk.new ≡ D.seen disk.old) }
    // A file of anything else is not changed.
    ensures kept { IfOk result (λ is. is ≡ true → BeginsAsStore (D.seen disk.old)) }
    ensures durable { OnOk result (Only (D.seen disk.new) (D.may_leave disk.new)) }
    // A crash at any moment of the call leaves what it might have left before, or a file that is read as this one was.
    ensures any_moment { LeavesOnly D.moment D.left_since disk.old disk.new (LeftMeanwhile (D.may_leave disk.old) (D.seen disk.old)) }
    ensures cause { HasCause (D.faults disk.old) (D.faults disk.new) result }
{
    law_only_now(disk);
    disk.sync()?;
    let bytes = read_all(disk, alloc)?;
    let is_torn = is_torn(alloc, &bytes)?;
    drop(bytes);
    if !is_torn {
        return Ok(false);
    }
    mend(disk, alloc)?;
    Ok(true)
}
