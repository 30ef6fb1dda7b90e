//! Numbers that look random, the same in each run.
use sled_disk::{Choices, MemoryDisk, Result};
use std::alloc::Global;

// How many numbers choose what a crash leaves: more than a block has bytes.
const CHOICES: u64 = 600;

/// The number at a place of those of a seed.
pub fn number(seed: u64, place: u64) -> u64 {
    let number = seed
        .wrapping_mul(1_000_003)
        .wrapping_add(place.wrapping_add(1))
        .wrapping_mul(0x9e37_79b9_7f4a_7c15);
    let number = (number ^ (number >> 30)).wrapping_mul(0xbf58_476d_1ce4_e5b9);
    let number = (number ^ (number >> 27)).wrapping_mul(0x94d0_49bb_1331_11eb);
    number ^ (number >> 31)
}

// The number at a place by which a crash is chosen. Of seed 1 no byte is added past the end of a file, and those within it are there; of
// seed 2 a single byte is lost, or one is added past the end. Of the others so many bytes as it happens are added past the end: old and new
// ones if the seed is even, else any.
fn choice(seed: u64, place: u64) -> u64 {
    let number = number(seed, place);
    match seed {
        1 => 0,
        2 => 1,
        _ => {
            if seed % 2 == 0 && 0 < place {
                number % 2
            } else {
                number
            }
        }
    }
}

// The choices of a seed.
fn choices(alloc: Global, seed: u64) -> Result<Choices> {
    let mut numbers = Vec::new(alloc);
    for place in 0..CHOICES {
        numbers.push(choice(seed, place))?;
    }
    Ok(Choices::new(numbers))
}

/// What a crash of both disks leaves, by the numbers of a seed. Of seed 0 it is what a read returns.
pub fn crash(
    alloc: Global,
    disks: &(MemoryDisk, MemoryDisk),
    seed: u64,
) -> Result<(MemoryDisk, MemoryDisk)> {
    if seed == 0 {
        let first = MemoryDisk::new(alloc, disks.0.bytes().to_vec(alloc)?)?;
        let second = MemoryDisk::new(alloc, disks.1.bytes().to_vec(alloc)?)?;
        return Ok((first, second));
    }
    let mut choices = choices(alloc, seed)?;
    let first = disks.0.crash(&mut choices)?;
    let second = disks.1.crash(&mut choices)?;
    drop(choices);
    Ok((first, second))
}
