//! What is done with a file.
use sled_disk::{Disk, DiskError};
use sled_host::HostFile;
use std::alloc::Global;

/// What is done with a file.
#[derive(Clone, Copy)]
pub enum Act<'a> {
    /// Prints what it has.
    Tell,
    /// Prints what it lends.
    Lend,
    /// Prints how many bytes it has.
    Len,
    /// Writes at a place, and brings it to the disk.
    Put(usize, &'a [u8]),
    /// Cuts it to so many bytes, and brings that to the disk.
    Cut(usize),
}

// All bytes of a file that was not changed since its opening.
fn all(alloc: Global, file: &mut HostFile) -> Result<Vec<u8>, DiskError> {
    let len = file.len()?;
    file.read(alloc, 0, len)
}

fn tell(rt: &HostRuntime, file: &mut HostFile) {
    let _ = match all(rt.alloc(), file) {
        Ok(bytes) => println!(rt; "it has `{}`", bytes.as_slice().escape_ascii()),
        Err(_) => println!(rt; "it is not read"),
    };
}

fn lend(rt: &HostRuntime, file: &HostFile) {
    let _ = match file.lent() {
        Some(bytes) => println!(rt; "it lends `{}`", bytes.escape_ascii()),
        None => println!(rt; "it lends nothing"),
    };
}

// How many bytes a file has once this is written at a place, which is not past its end.
fn put(file: &mut HostFile, at: usize, bytes: &[u8]) -> Result<usize, DiskError> {
    if at <= file.len()? {
        file.write_at(at, bytes)?;
        file.sync()?;
    }
    file.len()
}

// How many bytes a file has once it is cut to so many at most.
fn cut(file: &mut HostFile, len: usize) -> Result<usize, DiskError> {
    if len <= file.len()? {
        file.cut(len)?;
        file.sync()?;
    }
    file.len()
}

impl Act<'_> {
    /// Does it, and prints what came of it.
    pub fn run(self, rt: &HostRuntime, file: &mut HostFile) {
        let len = match self {
            Act::Tell => return tell(rt, file),
            Act::Lend => return lend(rt, file),
            Act::Len => file.len(),
            Act::Put(at, bytes) => put(file, at, bytes),
            Act::Cut(len) => cut(file, len),
        };
        let _ = match len {
            Ok(len) => println!(rt; "it has {len} bytes"),
            Err(_) => println!(rt; "refused"),
        };
    }
}
