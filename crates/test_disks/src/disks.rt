//! A disk in memory: what a read returns, what crashes leave, and what is refused.
use sled_disk::{Choices, Disk, MemoryDisk, Result};
use std::alloc::Global;
use test_report::Report;

// A file of two bytes on the disk, of which one is written over and two more are added, and no sync.
fn written(alloc: Global) -> Result<MemoryDisk> {
    let mut disk = MemoryDisk::new(alloc, [1, 2].to_vec(alloc)?)?;
    if disk.len()? == 2 {
        disk.write_at(1, &[7, 8, 9])?;
    }
    Ok(disk)
}

// What a crash of it leaves, by these numbers.
fn left(alloc: Global, numbers: &[u64]) -> Result<MemoryDisk> {
    let disk = written(alloc)?;
    let mut choices = Choices::new(numbers.to_vec(alloc)?);
    disk.crash(&mut choices)
}

// What a crash leaves once all was brought to the disk.
fn synced(alloc: Global) -> Result<MemoryDisk> {
    let mut disk = written(alloc)?;
    disk.sync()?;
    let mut choices = Choices::new([2, 1, 1].to_vec(alloc)?);
    disk.crash(&mut choices)
}

// What a crash leaves of a file whose one byte was written over.
fn left_of_one(alloc: Global, number: u64) -> Result<MemoryDisk> {
    let mut disk = MemoryDisk::new(alloc, [0].to_vec(alloc)?)?;
    if disk.len()? == 1 {
        disk.write_at(0, &[255])?;
    }
    let mut choices = Choices::new([number].to_vec(alloc)?);
    disk.crash(&mut choices)
}

// What a crash leaves of a file that was cut and read.
fn cut(alloc: Global, number: u64) -> Result<MemoryDisk> {
    let mut disk = MemoryDisk::new(alloc, [1, 2, 3, 4].to_vec(alloc)?)?;
    if disk.len()? == 4 {
        disk.cut(1)?;
    }
    let mut choices = Choices::new([number].to_vec(alloc)?);
    disk.crash(&mut choices)
}

// The last byte of a file.
fn last(alloc: Global) -> Result<Vec<u8>> {
    let mut disk = written(alloc)?;
    let len = disk.len()?;
    if len == 0 {
        return Ok(Vec::new(alloc));
    }
    disk.read(alloc, len - 1, 1)
}

// Whether it lends what a read returns. None if it lends nothing.
fn lends_read(alloc: Global) -> Result<Option<bool>> {
    let disk = written(alloc)?;
    let is_read = disk.lent().map(|bytes| bytes == disk.bytes());
    drop(disk);
    Ok(is_read)
}

// What a file has of which the second call is refused, and the call that is refused is a write.
fn refused_write(alloc: Global) -> Result<MemoryDisk> {
    let mut disk = MemoryDisk::new(alloc, [1, 2].to_vec(alloc)?)?;
    disk.refuse_at(&[2])?;
    if disk.len()? == 2 {
        disk.write_at(1, &[7])?;
    }
    Ok(disk)
}

// The same of a sync, after which the write may be lost.
fn refused_sync(alloc: Global) -> Result<MemoryDisk> {
    let mut disk = written(alloc)?;
    disk.refuse_at(&[3])?;
    if disk.sync().is_ok() {
        return Ok(disk);
    }
    let mut choices = Choices::new([0, 1].to_vec(alloc)?);
    disk.crash(&mut choices)
}

// Numbers up to these, as choices give them.
fn chosen(alloc: Global) -> Result<[usize; 3]> {
    let mut choices = Choices::new([7, u64::MAX].to_vec(alloc)?);
    Ok([
        choices.up_to(4),
        choices.up_to(usize::MAX),
        choices.up_to(9),
    ])
}

/// Prints a line of these words and the bytes that a read of a disk returns, or why there is none.
pub fn show_disk(report: &Report, words: &str, disk: Result<MemoryDisk>) {
    match disk {
        Ok(disk) => {
            report.tell(format_args!("{words}: {:?}", disk.bytes()));
            drop(disk);
        }
        Err(e) => report.show(words, e),
    }
}

pub fn tell(report: &Report) {
    let alloc = report.alloc();
    show_disk(report, "written", written(alloc));
    report.show("the last byte", last(alloc));
    report.show("it lends what is read", lends_read(alloc));
    show_disk(report, "a crash loses the write", left(alloc, &[0, 1]));
    show_disk(report, "a crash tears the write", left(alloc, &[1, 0, 42]));
    show_disk(report, "a crash keeps the write", left(alloc, &[2]));
    show_disk(report, "a sync keeps the write", synced(alloc));
    show_disk(report, "one byte is written", left_of_one(alloc, 0));
    show_disk(report, "one byte is lost", left_of_one(alloc, 1));
    show_disk(report, "a cut is there", cut(alloc, 0));
    show_disk(report, "a cut is cut short", cut(alloc, 2));
    show_disk(report, "a write is refused", refused_write(alloc));
    show_disk(report, "a sync is refused", refused_sync(alloc));
    report.show("chosen", chosen(alloc));
}
