//! Blocks that are added to a log, and logs that are read.
use crate::disks::show_disk;
use sled_disk::{Choices, Disk, MemoryDisk, Result};
use sled_log::{
    append, append_once, block_of, cut_through, digest_of, mend, read_all, read_log, read_to_tear,
    write_through,
};
use std::alloc::Global;
use test_report::Report;

// A log of nothing, to which a block is added, while the call of the disk with this number is refused.
fn appended(alloc: Global, refused: u64) -> Result<MemoryDisk> {
    let mut disk = MemoryDisk::new(alloc, [0].to_vec(alloc)?)?;
    disk.refuse_at(&[refused])?;
    let block = block_of(alloc, &[5, 6])?;
    let _ = append(&mut disk, 0, &block);
    Ok(disk)
}

// The bytes of two blocks, the second of no bytes, a closed gate, and a byte that does not count.
fn two_blocks(alloc: Global) -> Result<Vec<u8>> {
    let mut bytes = Vec::new(alloc);
    bytes.push(255)?;
    bytes.extend_from_slice(&block_of(alloc, &[5, 6])?)?;
    if let Some(last) = bytes.last_mut() {
        *last = 255;
    }
    bytes.extend_from_slice(&block_of(alloc, &[])?)?;
    bytes.push(7)?;
    Ok(bytes)
}

// Prints what a log is read as.
fn tell_log(report: &Report, words: &str, bytes: &[u8]) {
    match read_log(report.alloc(), bytes) {
        Ok(log) => {
            report.tell(format_args!(
                "{words}: {:?}, and its gate is at {}",
                log.payloads, log.gate
            ));
            drop(log);
        }
        Err(e) => report.show(words, e),
    }
}

// Prints what a disk is read as.
fn tell_disk(report: &Report, words: &str, disk: Result<MemoryDisk>) {
    match disk {
        Ok(mut disk) => {
            match read_all(&mut disk, report.alloc()) {
                Ok(bytes) => tell_log(report, words, &bytes),
                Err(e) => report.show(words, e),
            }
            drop(disk);
        }
        Err(e) => report.show(words, e),
    }
}

// Prints what a beginning of a log is read as.
fn tell_front(report: &Report, words: &str, bytes: &[u8], count: usize) {
    if let Some(front) = bytes.get(..count) {
        tell_log(report, words, front);
    }
}

// Prints what a log is read as that has another byte at a place.
fn tell_decayed(report: &Report, words: &str, bytes: &mut [u8], at: usize, byte: u8) {
    if let Some(place) = bytes.get_mut(at) {
        *place = byte;
    }
    tell_log(report, words, bytes);
}

// Prints two blocks.
fn tell_blocks(report: &Report, bytes: &mut [u8]) {
    tell_log(report, "two blocks", bytes);
    tell_front(report, "no gate at the end", bytes, 36);
    tell_front(report, "a block is cut short", bytes, 18);
    tell_decayed(report, "another byte", bytes, 18, 4);
    tell_decayed(report, "another gate", bytes, 0, 254);
}

// What a crash leaves, by these numbers, of a log of one block to which a second is added in one sync, which is refused.
fn torn(alloc: Global, numbers: &[u64]) -> Result<MemoryDisk> {
    let mut disk = MemoryDisk::new(alloc, [0].to_vec(alloc)?)?;
    append_once(&mut disk, 0, &block_of(alloc, &[5, 6])?)?;
    disk.refuse_at(&[6])?;
    let block = block_of(alloc, &[7])?;
    let _ = append_once(&mut disk, 19, &block);
    disk.crash(&mut Choices::new(numbers.to_vec(alloc)?))
}

// Prints what a log is read as up to a tear.
fn tell_to_tear(report: &Report, words: &str, bytes: &[u8]) {
    match read_to_tear(report.alloc(), bytes) {
        Ok(log) => {
            report.tell(format_args!("{words}: {:?}, and it ends at {}", log.payloads, log.gate));
            drop(log);
        }
        Err(e) => report.show(words, e),
    }
}

// Mends a log, and adds a block to it, unless it is longer than a log may be.
fn go_on(alloc: Global, mut disk: MemoryDisk) -> Result<MemoryDisk> {
    disk.sync()?;
    let gate = mend(&mut disk, alloc)?;
    if gate < 4611686018427387904 {
        append_once(&mut disk, gate, &block_of(alloc, &[8])?)?;
    }
    Ok(disk)
}

// Prints what a crash leaves by these numbers, and what is there once it is mended and a block is added.
fn tell_torn(report: &Report, words: &str, numbers: &[u64]) {
    match torn(report.alloc(), numbers) {
        Ok(disk) => {
            tell_to_tear(report, words, disk.bytes());
            tell_disk(
                report,
                "mended, and a block more",
                go_on(report.alloc(), disk),
            );
        }
        Err(e) => report.show(words, e),
    }
}

// Prints what crashes leave of a block whose gate is opened in the same sync.
fn tell_tears(report: &Report) {
    tell_torn(report, "all is lost but the open gate", &[]);
    tell_torn(report, "all is there", &[18]);
    tell_torn(report, "a part of it is there", &[9]);
    tell_torn(report, "another byte of its length", &[18, 5]);
    tell_torn(
        report,
        "another byte of its payload",
        &[18, 0, 0, 0, 0, 0, 0, 0, 0, 0, 0, 0, 0, 0, 0, 0, 0, 20],
    );
    tell_torn(
        report,
        "the gate behind it is open",
        &[18, 0, 0, 0, 0, 0, 0, 0, 0, 0, 0, 0, 0, 0, 0, 0, 0, 0, 257],
    );
    tell_torn(
        report,
        "its gate is closed",
        &[18, 0, 0, 0, 0, 0, 0, 0, 0, 0, 0, 0, 0, 0, 0, 0, 0, 0, 0, 1],
    );
}

// What a crash leaves of a file whose first bytes were written over, which was brought to the disk.
fn written_through(alloc: Global) -> Result<MemoryDisk> {
    let mut disk = MemoryDisk::new(alloc, [1, 2, 3].to_vec(alloc)?)?;
    write_through(&mut disk, 0, &[9, 8])?;
    disk.crash(&mut Choices::new(Vec::new(alloc)))
}

// The same of one that was cut.
fn all_cut(alloc: Global) -> Result<MemoryDisk> {
    let mut disk = MemoryDisk::new(alloc, [1, 2, 3].to_vec(alloc)?)?;
    cut_through(&mut disk, 0)?;
    disk.crash(&mut Choices::new(Vec::new(alloc)))
}

pub fn tell(report: &Report) {
    let alloc = report.alloc();
    show_disk(
        report,
        "a write is brought to the disk",
        written_through(alloc),
    );
    show_disk(report, "a cut is brought to the disk", all_cut(alloc));
    tell_disk(report, "a block is added", appended(alloc, 0));
    tell_disk(report, "its gate is not opened", appended(alloc, 3));
    report.show("the digest of no bytes", digest_of(&[]));
    match two_blocks(alloc) {
        Ok(mut bytes) => tell_blocks(report, &mut bytes),
        Err(e) => report.show("two blocks", e),
    }
    tell_tears(report);
}
