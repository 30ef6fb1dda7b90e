//! Two files of a store: how one is begun, added to and begun anew.
ghost use Rattle.std.specs.Prelude.{IfOk};
ghost use Rattle.sled_disk.specs.Disk.{Only};
ghost use Rattle.sled_disk.specs.Memory.{bytes_of, outcomes_of};

use crate::disks::show_disk;
use sled_disk::{MemoryDisk, Result};
use sled_files::{TwoFiles, begin_file};
use std::alloc::Global;
use test_report::Report;

// A file of no bytes, of which the call of the disk with this number is refused.
fn empty(alloc: Global, refused: u64) -> Result<MemoryDisk>
    ensures { IfOk result (λ disk. Only (bytes_of disk) (outcomes_of disk)) }
{
    let mut disk = MemoryDisk::new(alloc, Vec::new(alloc))?;
    disk.refuse_at(&[refused])?;
    Ok(disk)
}

// A file that is begun of an older one, of which the call of the disk with this number is refused.
fn begun(alloc: Global, refused: u64) -> Result<MemoryDisk> {
    let mut disk = MemoryDisk::new(alloc, [255, 1].to_vec(alloc)?)?;
    disk.refuse_at(&[refused])?;
    let _ = begin_file(alloc, &mut disk, 258, &[5, 6]);
    Ok(disk)
}

// Two files, of which the first counts, of this generation, and of each the call of the disk with this number is refused.
fn files(
    alloc: Global,
    generation: u64,
    first_refused: u64,
    second_refused: u64,
) -> Result<TwoFiles<MemoryDisk>> {
    let mut first = empty(alloc, first_refused)?;
    let second = empty(alloc, second_refused)?;
    let gate = begin_file(alloc, &mut first, generation, &[])?;
    Ok(TwoFiles::new(alloc, first, second, false, gate, 0, generation))
}

// Two files of which the second was begun anew, and then added to.
fn begun_anew(alloc: Global) -> Result<TwoFiles<MemoryDisk>> {
    let mut files = files(alloc, 1, 0, 0)?;
    files.rewrite(&[5])?;
    files.append(&[6])?;
    Ok(files)
}

// Prints how long the log is after each of some calls, and whether a disk refused one.
fn tell_calls(report: &Report, words: &str, files: Result<TwoFiles<MemoryDisk>>) {
    match files {
        Ok(mut files) => {
            report.tell(format_args!("{words}: {} bytes", files.len()));
            let added = files.append(&[5, 6]);
            report.tell(format_args!(
                "added: {added:?}, {} bytes, {}",
                files.len(),
                files.failed()
            ));
            let anew = files.rewrite(&[5]);
            report.tell(format_args!(
                "anew: {anew:?}, {} bytes, a snapshot of {}, {}",
                files.len(),
                files.snapshot(),
                files.failed()
            ));
            let added = files.append(&[6]);
            report.tell(format_args!(
                "added: {added:?}, {} bytes, {}",
                files.len(),
                files.failed()
            ));
            drop(files);
        }
        Err(e) => report.show(words, e),
    }
}

// How long each of two files is, as one looks at it.
fn lens(files: &TwoFiles<MemoryDisk>) -> (usize, usize) {
    let (first, second) = files.disks();
    (first.bytes().len(), second.bytes().len())
}

// Prints the generation of two files, and how long each is.
fn tell_disks(report: &Report, words: &str, files: Result<TwoFiles<MemoryDisk>>) {
    match files {
        Ok(files) => {
            let generation = files.generation();
            let seen = lens(&files);
            let (first, second) = files.into_disks();
            report.tell(format_args!(
                "{words}: generation {generation}, {} and {} bytes, seen {seen:?}",
                first.bytes().len(),
                second.bytes().len()
            ));
            drop(first);
            drop(second);
        }
        Err(e) => report.show(words, e),
    }
}

pub fn tell(report: &Report) {
    let alloc = report.alloc();
    show_disk(report, "a file is begun", begun(alloc, 0));
    show_disk(report, "its gate is not closed", begun(alloc, 1));
    show_disk(report, "its block is not there", begun(alloc, 3));
    tell_calls(report, "two files", files(alloc, 1, 0, 0));
    tell_calls(report, "a block is refused", files(alloc, 1, 7, 0));
    tell_calls(report, "a file is refused", files(alloc, 1, 0, 5));
    tell_calls(report, "the last generation", files(alloc, u64::MAX, 0, 0));
    tell_disks(report, "the disks", files(alloc, 258, 0, 0));
    tell_disks(report, "the older is emptied", begun_anew(alloc));
}
