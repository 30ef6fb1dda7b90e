//! Disks that come back out of a `OneSync` which holds a block back.
use files_once::OneSync;
use sled_disk::{Choices, Disk, MemoryDisk, Result};
use sled_log::{append_once, block_of};
use std::alloc::Global;
use test_report::Report;

// Writes at the end of a disk.
fn add<D: Disk>(disk: &mut D, bytes: &[u8]) -> Result<()> {
    let end = disk.len()?;
    disk.write_at(end, bytes)?;
    Ok(())
}

// A `OneSync` in front of a file of 20 bytes, a log of one block, which holds 18 bytes back, another block. The call of the disk with this
// number is refused.
fn holding(alloc: Global, refused: u64) -> Result<OneSync<MemoryDisk>> {
    let mut disk = MemoryDisk::new(alloc, [0].to_vec(alloc)?)?;
    append_once(&mut disk, 0, &block_of(alloc, &[5, 6])?)?;
    disk.refuse_at(&[refused])?;
    let block = block_of(alloc, &[7])?;
    match OneSync::new(alloc, disk) {
        Ok(mut once) => {
            add(&mut once, &block)?;
            Ok(once)
        }
        Err((disk, e)) => {
            drop(disk);
            Err(e)
        }
    }
}

// Prints how many bytes a disk has, and how many a crash leaves of them.
fn tell_disk(report: &Report, words: &str, disk: MemoryDisk) {
    match disk.crash(&mut Choices::new(Vec::new(report.alloc()))) {
        Ok(left) => {
            report.tell(format_args!(
                "{words}: {} bytes, after a crash {}",
                disk.bytes().len(),
                left.bytes().len()
            ));
            drop(left);
        }
        Err(e) => report.show(words, e),
    }
    drop(disk);
}

// Prints the disk as it is.
fn tell_as_it_is(report: &Report) {
    match holding(report.alloc(), 0) {
        Ok(once) => tell_disk(report, "as it is", once.into_disk()),
        Err(e) => report.show("as it is", e),
    }
}

// Prints the disk once what is held back was brought to it, or as it is once that was refused.
fn tell_settled(report: &Report, words: &str, refused: u64) {
    match holding(report.alloc(), refused) {
        Ok(once) => match once.into_settled() {
            Ok(disk) => tell_disk(report, words, disk),
            Err((disk, e)) => {
                report.show("refused", e);
                tell_disk(report, words, disk);
            }
        },
        Err(e) => report.show(words, e),
    }
}

/// Prints each disk that comes back.
pub fn tell(report: &Report) {
    tell_as_it_is(report);
    tell_settled(report, "settled", 0);
    tell_settled(report, "its write is refused", 9);
}
