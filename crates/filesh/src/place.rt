//! The place of a shell's database in two files: a folder, or memory.

use line_words::input::Stopped;
use line_words::print::Piece::Text;
use shell_words::tell::{Result, Told, tell};
use sled_disk::{Choices, Disk, MemoryDisk};
use sled_files::{FilePages, NotOpened};
use sled_host::{HostFile, Opening, Pair, open_pair};
use std::alloc::Global;
use std::io::Write;

/// The place of the store of a database. A function that takes a place says that it is one of pages, as for a home.
pub trait Place<P>: Drop {
    /// The store as it is at first. If it is not opened, adds why not, as all of these do.
    fn first(&mut self, out: &mut Told) -> Result<P>;

    /// What a crash leaves of a store, opened.
    fn crash(&mut self, store: P, out: &mut Told) -> Result<P>;

    /// A store with nothing in it, in place of this one.
    fn empty(&mut self, store: P, out: &mut Told) -> Result<P>;

    /// Makes all durable in a log that is begun anew.
    fn compact(store: &mut P) -> sled_nodes::Result<()>;
}

// A store in these files, as they are.
fn open_store<D: Disk>(alloc: Global, files: (D, D), out: &mut Told) -> Result<FilePages<D>> {
    match FilePages::open(alloc, files.0, files.1) {
        Ok(store) => Ok(store),
        Err(refused) => {
            // The shell ends here, so both files are dropped as they are.
            let NotOpened {
                error,
                first,
                second,
            } = refused;
            drop(first);
            drop(second);
            writeln!(&mut out.text, "not opened: {error}")?;
            Err(Stopped)
        }
    }
}

// Takes all out of a file: whether that was done.
fn empty_file<D: Disk>(file: &mut D) -> bool {
    file.cut(0).is_ok() && file.sync().is_ok()
}

// The files of a store with nothing in them.
fn emptied<D: Disk>(store: FilePages<D>, out: &mut Told) -> Result<(D, D)> {
    let (mut first, mut second) = store.into_disks();
    if empty_file(&mut first) && empty_file(&mut second) {
        return Ok((first, second));
    }
    drop(first);
    drop(second);
    tell(out, &[Text(b"not opened: a call of a file was refused\n")])?;
    Err(Stopped)
}

/// A folder, which is made if it is not there, as its files are.
#[derive(Drop)]
pub struct Folder<'a> {
    pub rt: &'a HostRuntime,
    pub path: &'a str,
}

impl Folder<'_> {
    // The files of the folder.
    fn files(&self, out: &mut Told) -> Result<(HostFile, HostFile)> {
        let opening = Opening {
            creates: true,
            needs_lock: true,
        };
        match open_pair(self.rt, self.path, opening) {
            Ok(pair) => {
                let Pair {
                    first,
                    second,
                    is_locked: _,
                } = pair;
                Ok((first, second))
            }
            Err(e) => {
                writeln!(&mut out.text, "not opened: {e}")?;
                Err(Stopped)
            }
        }
    }

    // The store in the folder.
    fn store(&self, out: &mut Told) -> Result<FilePages<HostFile>> {
        let files = self.files(out)?;
        open_store(self.rt.alloc(), files, out)
    }
}

impl Place<FilePages<HostFile>> for Folder<'_> {
    fn first(&mut self, out: &mut Told) -> Result<FilePages<HostFile>> {
        self.store(out)
    }

    // It is dropped, with all that is not in its files.
    fn crash(&mut self, store: FilePages<HostFile>, out: &mut Told) -> Result<FilePages<HostFile>> {
        drop(store);
        self.store(out)
    }

    fn empty(&mut self, store: FilePages<HostFile>, out: &mut Told) -> Result<FilePages<HostFile>> {
        let (first, second) = emptied(store, out)?;
        drop(first);
        drop(second);
        self.store(out)
    }

    fn compact(store: &mut FilePages<HostFile>) -> sled_nodes::Result<()> {
        store.compact()
    }
}

/// Two files in memory. What a crash leaves of them is chosen by numbers, other ones for each crash.
#[derive(Drop)]
pub struct Memory {
    alloc: Global,
    // The number that chose last.
    last: u64,
}

// How many numbers choose at one crash of one file; 0 chooses behind them.
const NUMBERS: usize = 100;

// Opens two files, or says why there are none.
fn open_files(
    alloc: Global,
    files: sled_disk::Result<(MemoryDisk, MemoryDisk)>,
    out: &mut Told,
) -> Result<FilePages<MemoryDisk>> {
    match files {
        Ok(files) => open_store(alloc, files, out),
        Err(error) => {
            drop(error);
            tell(out, &[Text(b"not opened: there was no memory\n")])?;
            Err(Stopped)
        }
    }
}

// Two files, if there is the second one.
fn both(
    first: MemoryDisk,
    second: sled_disk::Result<MemoryDisk>,
) -> sled_disk::Result<(MemoryDisk, MemoryDisk)> {
    match second {
        Ok(second) => Ok((first, second)),
        Err(error) => {
            drop(first);
            Err(error)
        }
    }
}

// Two empty files.
fn new_files(alloc: Global) -> sled_disk::Result<(MemoryDisk, MemoryDisk)> {
    let first = MemoryDisk::new(alloc, Vec::new(alloc))?;
    both(first, MemoryDisk::new(alloc, Vec::new(alloc)))
}

impl Memory {
    /// Empty files.
    pub fn new(alloc: Global) -> Memory {
        Memory { alloc, last: 1 }
    }

    // The next numbers: they look random, and are the same in each run.
    fn choices(&mut self) -> sled_disk::Result<Choices> {
        let mut numbers = Vec::new(self.alloc);
        for _ in 0..NUMBERS {
            self.last = self
                .last
                .wrapping_mul(6_364_136_223_846_793_005)
                .wrapping_add(1_442_695_040_888_963_407);
            numbers.push(self.last >> 33)?;
        }
        Ok(Choices::new(numbers))
    }

    // What a crash leaves of a file.
    fn left(&mut self, file: &MemoryDisk) -> sled_disk::Result<MemoryDisk> {
        let mut choices = self.choices()?;
        let left = file.crash(&mut choices);
        drop(choices);
        left
    }

    // What a crash leaves of two files.
    fn left_of_both(
        &mut self,
        first: &MemoryDisk,
        second: &MemoryDisk,
    ) -> sled_disk::Result<(MemoryDisk, MemoryDisk)> {
        let left = self.left(first)?;
        both(left, self.left(second))
    }
}

impl Place<FilePages<MemoryDisk>> for Memory {
    fn first(&mut self, out: &mut Told) -> Result<FilePages<MemoryDisk>> {
        open_files(self.alloc, new_files(self.alloc), out)
    }

    fn crash(
        &mut self,
        store: FilePages<MemoryDisk>,
        out: &mut Told,
    ) -> Result<FilePages<MemoryDisk>> {
        let (first, second) = store.into_disks();
        let left = self.left_of_both(&first, &second);
        drop(first);
        drop(second);
        open_files(self.alloc, left, out)
    }

    fn empty(
        &mut self,
        store: FilePages<MemoryDisk>,
        out: &mut Told,
    ) -> Result<FilePages<MemoryDisk>> {
        drop(store);
        self.first(out)
    }

    fn compact(store: &mut FilePages<MemoryDisk>) -> sled_nodes::Result<()> {
        store.compact()
    }
}
