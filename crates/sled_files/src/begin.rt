//! A file of a store is begun anew.
ghost use Rattle.std.specs.Prelude.{◌≡◌, ◌+◌, ◌≤◌, ◌<◌, ◌++◌, ℕ, List, length, IfOk, IfErr, OnOk};
ghost use Rattle.sled_disk.specs.Disk.{Only, LeavesOnly, HasCause};
ghost use Rattle.sled_disk.specs.declared.disk.DiskError.TheVariants.{NoMemory};
ghost use Rattle.sled_bytes.specs.declared.change.Change.{Change};
ghost use Rattle.sled_files.specs.Change.{nothing_yet, changed_all, AreOfStore};
ghost use Rattle.sled_files.specs.Files.{GrowsTo};
ghost use Rattle.sled_files.specs.Header.{header};
ghost use Rattle.sled_files.specs.Standing.{StandsWith, IsBegun};
ghost use Rattle.sled_files.specs.Pending.{Spells};
ghost use Rattle.sled_files.specs.theory.Begun.{IsFirstBlock, IsEmptied};

use sled_disk::{Disk, Result, law_only_now};
use sled_log::{append, block_of, cut_through, write_through};
use std::alloc::Global;

const MAGIC: [u8; 8] = *b"donnavek";

const FORMAT: u32 = 1;

const CLOSED: u8 = 0;

// The header of a file, and what is behind it in the first payload of its log.
fn first_payload(alloc: Global, generation: u64, payload: &[u8]) -> Result<Vec<u8>>
    ensures ok { IfOk result (λ bytes. bytes.items ≡ header generation ++ payload.now) }
    ensures err { IfErr result (λ e. e ≡ NoMemory) }
{
    let mut bytes = Vec::new(alloc);
    bytes.extend_from_slice(&MAGIC)?;
    bytes.extend_from_slice(&FORMAT.to_le_bytes())?;
    bytes.extend_from_slice(&generation.to_le_bytes())?;
    bytes.extend_from_slice(payload)?;
    Ok(bytes)
}

// The block of the first payload, as a log takes it.
pub(crate) fn first_block(alloc: Global, generation: u64, payload: &[u8]) -> Result<Vec<u8>>
    ensures ok { IfOk result (λ block. (changes : List Change) → Spells payload.now changes → AreOfStore changes (changed_all changes nothing_yet) → IsFirstBlock block.items payload.now generation changes) }
    // 8 bytes of the length, 8 of the digest, 20 of the header, and the closed gate.
    ensures len { IfOk result (λ block. length block.items ≡ length payload.now + 37) }
    ensures err { IfErr result (λ e. e ≡ NoMemory) }
{
    let bytes = first_payload(alloc, generation, payload)?;
    block_of(alloc, &bytes)
}

// Makes of a file one whose log has this block alone: first a closed gate at its front is brought to the disk.
pub(crate) fn begin_with<D: Disk>(disk: &mut D, block: &[u8]) -> Result<()>
    requires on_disk { Only (D.seen disk.old) (D.may_leave disk.old) }
    ensures stands { OnOk result ((payload : List ℕ) (generation : ℕ) (changes : List Change) → IsFirstBlock block.now payload generation changes → StandsWith (D.seen disk.new) (length block.now) (length payload) generation (changed_all changes nothing_yet)) }
    ensures grown { OnOk result (GrowsTo (length block.now) (D.seen disk.old) (D.seen disk.new)) }
    ensures durable { OnOk result (Only (D.seen disk.new) (D.may_leave disk.new)) }
    ensures any_moment { (payload : List ℕ) (generation : ℕ) (changes : List Change) → IsFirstBlock block.now payload generation changes → LeavesOnly D.moment D.left_since disk.old disk.new (IsBegun (D.seen disk.old) generation (changed_all changes nothing_yet)) }
    ensures cause { HasCause (D.faults disk.old) (D.faults disk.new) result }
{
    write_through(disk, 0, &[CLOSED])?;
    append(disk, 0, block)
}

// Leaves at most a byte of a file: first a closed gate at its front is brought to the disk, so that nothing counts from then on.
pub(crate) fn empty<D: Disk>(disk: &mut D) -> Result<()>
    requires on_disk { Only (D.seen disk.old) (D.may_leave disk.old) }
    ensures short { OnOk result (length (D.seen disk.new) ≤ 1) }
    ensures durable { OnOk result (Only (D.seen disk.new) (D.may_leave disk.new)) }
    ensures any_moment { LeavesOnly D.moment D.left_since disk.old disk.new (IsEmptied (D.seen disk.old)) }
    ensures cause { HasCause (D.faults disk.old) (D.faults disk.new) result }
{
    law_only_now(disk);
    let len = disk.len()?;
    if len <= 1 {
        return Ok(());
    }
    write_through(disk, 0, &[CLOSED])?;
    cut_through(disk, 1)
}

/// Makes of a file one of this generation that stands for these changes, and for nothing that it had before, and returns the place of its
/// closed gate. At any moment a crash leaves the file as it was, one in which nothing counts, or the new one. What is refused is refused
/// for want of memory or by the disk: then it is one of these three, and which is for the next opening to see.
///
/// ```
/// let mut file = MemoryDisk::new(alloc, Vec::new(alloc))?;
/// let gate = begin_file(alloc, &mut file, 1, &[])?; // A store's first file, of no changes.
/// ```
pub fn begin_file<D: Disk>(
    alloc: Global,
    disk: &mut D,
    generation: u64,
    payload: &[u8],
) -> Result<usize>
    requires on_disk { Only (D.seen disk.old) (D.may_leave disk.old) }
    ensures stands { IfOk result (λ gate. (changes : List Change) → Spells payload.now changes → AreOfStore changes (changed_all changes nothing_yet) → StandsWith (D.seen disk.new) gate (length payload.now) generation (changed_all changes nothing_yet)) }
    // There is a byte at the gate, whatever the payload is, and none was added behind it.
    ensures grown { IfOk result (λ gate. GrowsTo gate (D.seen disk.old) (D.seen disk.new)) }
    ensures durable { OnOk result (Only (D.seen disk.new) (D.may_leave disk.new)) }
    ensures any_moment { (changes : List Change) → Spells payload.now changes → AreOfStore changes (changed_all changes nothing_yet) → LeavesOnly D.moment D.left_since disk.old disk.new (IsBegun (D.seen disk.old) generation (changed_all changes nothing_yet)) }
    ensures cause { HasCause (D.faults disk.old) (D.faults disk.new) result }
{
    law_only_now(disk);
    let block = first_block(alloc, generation, payload)?;
    begin_with(disk, &block)?;
    Ok(block.len())
}
