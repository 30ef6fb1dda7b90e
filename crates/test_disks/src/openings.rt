//! Two files are opened as a store, or the program prints why not.
use sled_disk::{MemoryDisk, Result};
use sled_files::{FilePages, NotOpened, begin_file};
use sled_log::{append, block_of};
use sled_store::Pages;
use std::alloc::Global;
use test_report::Report;

// A file of these bytes.
fn of_bytes(alloc: Global, bytes: &[u8]) -> Result<MemoryDisk> {
    MemoryDisk::new(alloc, bytes.to_vec(alloc)?)
}

// A file of this generation, with these changes.
fn of_changes(alloc: Global, generation: u64, changes: &[u8]) -> Result<MemoryDisk> {
    let mut disk = MemoryDisk::new(alloc, Vec::new(alloc))?;
    begin_file(alloc, &mut disk, generation, changes)?;
    Ok(disk)
}

// The same with one byte changed.
fn of_decayed(alloc: Global, changes: &[u8], place: usize) -> Result<MemoryDisk> {
    let disk = of_changes(alloc, 1, changes)?;
    let mut bytes = disk.bytes().to_vec(alloc)?;
    drop(disk);
    if let Some(byte) = bytes.get_mut(place) {
        *byte ^= 1;
    }
    MemoryDisk::new(alloc, bytes)
}

// A log of one payload.
fn of_payload(alloc: Global, payload: &[u8]) -> Result<MemoryDisk> {
    let mut disk = MemoryDisk::new(alloc, [0].to_vec(alloc)?)?;
    append(&mut disk, 0, &block_of(alloc, payload)?)?;
    Ok(disk)
}

// The bytes of a number.
fn push_number(out: &mut Vec<u8>, number: u64) -> Result<()> {
    out.extend_from_slice(&number.to_le_bytes())?;
    Ok(())
}

// Page 1 is an empty leaf of version 0.
fn push_page(out: &mut Vec<u8>) -> Result<()> {
    out.push(1)?;
    push_number(out, 1)?;
    push_number(out, 0)?;
    push_number(out, 0)?;
    push_number(out, 0)?;
    out.extend_from_slice(&[0, 0, 0, 0])?;
    push_number(out, 0)
}

// Page numbers below 2 and versions below 1 are set aside, page 1 is the root of no name, and the mark is 9.
fn changes(alloc: Global) -> Result<Vec<u8>> {
    let mut out = Vec::new(alloc);
    out.push(8)?;
    push_number(&mut out, 2)?;
    push_number(&mut out, 1)?;
    push_page(&mut out)?;
    out.push(4)?;
    push_number(&mut out, 0)?;
    out.push(1)?;
    push_number(&mut out, 1)?;
    out.push(7)?;
    push_number(&mut out, 9)?;
    Ok(out)
}

// A page whose number and version were not set aside.
fn unlimited(alloc: Global) -> Result<Vec<u8>> {
    let mut out = Vec::new(alloc);
    push_page(&mut out)?;
    Ok(out)
}

// Prints what two files are opened as.
fn tell_opening(
    report: &Report,
    words: &str,
    first: Result<MemoryDisk>,
    second: Result<MemoryDisk>,
) {
    match (first, second) {
        (Ok(first), Ok(second)) => match FilePages::open(report.alloc(), first, second) {
            Ok(store) => {
                report.tell(format_args!(
                    "{words}: recovered {}, mark {}, rooted {}",
                    store.was_recovered(),
                    store.mark(),
                    store.root(b"").is_some()
                ));
                drop(store);
            }
            Err(refused) => {
                report.tell(format_args!("{words}: {}", refused.error));
                drop(refused);
            }
        },
        (first, second) => {
            drop(first);
            drop(second);
            report.tell(words);
        }
    }
}

// The same of a first file with these changes, beside a blank one.
fn tell_changes(report: &Report, words: &str, changes: &[u8]) {
    let alloc = report.alloc();
    tell_opening(
        report,
        words,
        of_changes(alloc, 1, changes),
        of_bytes(alloc, &[]),
    );
}

// A disk that refuses its first call.
fn refusing(alloc: Global) -> Result<MemoryDisk> {
    let mut disk = of_bytes(alloc, &[])?;
    disk.refuse_at(&[1])?;
    Ok(disk)
}

// Opens two disks of which one refuses a call, and the same two again.
fn tell_twice(report: &Report, first: MemoryDisk, second: MemoryDisk) {
    match FilePages::open(report.alloc(), first, second) {
        Ok(store) => drop(store),
        Err(refused) => {
            let NotOpened {
                error,
                first,
                second,
            } = refused;
            report.tell(format_args!("a disk refuses a call: {error}"));
            tell_opening(report, "the same disks again", Ok(first), Ok(second));
        }
    }
}

// Prints files with these changes.
fn tell_files(report: &Report, changes: &[u8]) {
    let alloc = report.alloc();
    tell_changes(report, "one file", changes);
    tell_opening(
        report,
        "the other file",
        of_bytes(alloc, &[0]),
        of_changes(alloc, 1, changes),
    );
    tell_opening(
        report,
        "the later counts",
        of_changes(alloc, 1, &[]),
        of_changes(alloc, 2, changes),
    );
    tell_opening(
        report,
        "the earlier does not",
        of_changes(alloc, 2, &[]),
        of_changes(alloc, 1, changes),
    );
    tell_opening(
        report,
        "two of one generation",
        of_changes(alloc, 1, changes),
        of_changes(alloc, 1, changes),
    );
    tell_opening(
        report,
        "a byte was changed",
        of_decayed(alloc, changes, 60),
        of_bytes(alloc, &[]),
    );
    tell_opening(
        report,
        "a byte of the name was changed",
        of_decayed(alloc, changes, 17),
        of_bytes(alloc, &[]),
    );
    tell_opening(
        report,
        "a byte of the other was changed",
        of_changes(alloc, 2, changes),
        of_decayed(alloc, changes, 60),
    );
}

pub fn tell(report: &Report) {
    let alloc = report.alloc();
    tell_opening(
        report,
        "two blank files",
        of_bytes(alloc, &[]),
        of_bytes(alloc, &[0, 7, 7]),
    );
    match changes(alloc) {
        Ok(changes) => tell_files(report, changes.as_slice()),
        Err(e) => report.show("no changes", e),
    }
    match unlimited(alloc) {
        Ok(changes) => tell_changes(report, "a page is above the limits", changes.as_slice()),
        Err(e) => report.show("no changes", e),
    }
    tell_changes(report, "no changes", &[]);
    tell_changes(report, "a group is open", &[5]);
    tell_changes(report, "a group is closed", &[5, 6]);
    tell_changes(report, "page 0 is gone", &[3, 0, 0, 0, 0, 0, 0, 0, 0]);
    tell_changes(report, "a change is cut short", &[3, 0, 0]);
    tell_changes(report, "no change begins so", &[9]);
    tell_opening(
        report,
        "another format",
        of_payload(alloc, b"donnavek\x02\x01\0\0"),
        of_bytes(alloc, &[]),
    );
    tell_opening(
        report,
        "a header is cut short",
        of_payload(alloc, b"donnavek\x01\0\0\0\x01\0"),
        of_bytes(alloc, &[]),
    );
    tell_opening(
        report,
        "a log of something else",
        of_payload(alloc, b"something else"),
        of_bytes(alloc, &[]),
    );
    tell_opening(
        report,
        "a text",
        of_bytes(alloc, &[]),
        of_bytes(alloc, b"a text of somebody's, no store"),
    );
    match (of_bytes(alloc, &[]), refusing(alloc)) {
        (Ok(first), Ok(second)) => tell_twice(report, first, second),
        (first, second) => {
            drop(first);
            drop(second);
        }
    }
}
