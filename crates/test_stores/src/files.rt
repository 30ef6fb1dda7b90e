//! Stores in two files.
use sled_disk::{Choices, MemoryDisk};
use sled_files::{DISK_FAILED, FilePages, OpenError};
use sled_nodes::{Error, Fault, Result};
use sled_store::Pages;
use std::alloc::Global;
use store_kit::Trial;

/// Stores in two files, which are in memory. A flush begins a file anew once the log is twice as long as its snapshot.
pub struct Files;

type Stored = FilePages<MemoryDisk>;

fn error_of(why: OpenError) -> Error {
    match why {
        OpenError::NoMemory => Error::NoMemory,
        _ => Error::Io(Fault(DISK_FAILED)),
    }
}

// The store of two files.
fn opened(alloc: Global, first: MemoryDisk, second: MemoryDisk) -> Result<Stored> {
    match FilePages::open(alloc, first, second) {
        Ok(mut store) => {
            store.compact_from(0);
            Ok(store)
        }
        Err(refused) => {
            let error = error_of(refused.error);
            drop(refused);
            Err(error)
        }
    }
}

// The same, if there was memory for both.
fn opened_both(
    alloc: Global,
    first: sled_disk::Result<MemoryDisk>,
    second: sled_disk::Result<MemoryDisk>,
) -> Result<Stored> {
    match (first, second) {
        (Ok(first), Ok(second)) => opened(alloc, first, second),
        (first, second) => {
            drop(first);
            drop(second);
            Err(Error::NoMemory)
        }
    }
}

// What a crash leaves of both files, opened.
fn crashed(alloc: Global, store: Stored) -> Result<Stored> {
    let mut choices = Choices::new(Vec::new(alloc));
    let (first, second) = store.disks();
    let (first, second) = (first.crash(&mut choices), second.crash(&mut choices));
    drop(choices);
    drop(store);
    opened_both(alloc, first, second)
}

// Flushes, if no group is open.
fn flush(store: &mut Stored) -> Option<Result<usize>> {
    if store.in_group() {
        return None;
    }
    Some(store.flush())
}

impl Trial<Stored> for Files {
    fn empty(&self, alloc: Global) -> Result<Stored> {
        let first = MemoryDisk::new(alloc, Vec::new(alloc));
        opened_both(alloc, first, MemoryDisk::new(alloc, Vec::new(alloc)))
    }

    // It keeps none of the actions since the last flush, or all of them if it comes as the next flush ends.
    fn crash(&self, alloc: Global, store: Stored, keep: usize) -> Option<Result<Stored>> {
        if keep == 0 {
            return Some(crashed(alloc, store));
        }
        let mut store = store;
        match flush(&mut store) {
            Some(Ok(actions)) if actions <= keep => Some(crashed(alloc, store)),
            Some(Err(error)) => {
                drop(store);
                Some(Err(error))
            }
            _ => {
                drop(store);
                None
            }
        }
    }
}
