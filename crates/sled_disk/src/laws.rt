//! What a crash of a disk in memory leaves.
ghost use Rattle.sled_disk.specs.Memory.{ChoosesAll};

use crate::memory::MemoryDisk;

/// Does nothing. It says that `crash` leaves each outcome that the disk may leave, by some numbers.
///
/// ```
/// law_chooses_all(&disk); // From here on a proof knows of each outcome numbers by which `crash` leaves it.
/// ```
pub fn law_chooses_all(disk: &MemoryDisk)
    ensures { ChoosesAll disk.now }
{}
