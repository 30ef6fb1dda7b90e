//! A mark that is set aside while a group is open, and crashes after that.
use crate::compactions::new_store;
use sled_disk::{Choices, MemoryDisk};
use sled_files::FilePages;
use sled_nodes::{Pid, Result};
use sled_store::Pages;
use std::alloc::Global;
use test_report::Report;

// Gives a name a root.
fn root(store: &mut FilePages<MemoryDisk>, name: &[u8]) -> Result<bool> {
    let done = store.cas_root(name, None, Some(Pid(1)))?;
    Ok(done.is_ok())
}

// Flushes, unless a group is open.
fn flush(store: &mut FilePages<MemoryDisk>) -> Result<()> {
    if !store.in_group() {
        store.flush()?;
    }
    Ok(())
}

// A root that is flushed, and a group with another one that is begun then.
fn begin(store: &mut FilePages<MemoryDisk>) -> Result<bool> {
    let before = root(store, b"before")?;
    flush(store)?;
    if !store.in_group() {
        store.begin_group()?;
    }
    Ok(before && root(store, b"within")?)
}

// Sets a mark aside: whether a group is open then.
fn mark(store: &mut FilePages<MemoryDisk>) -> Result<bool> {
    if store.mark() <= 9 {
        store.set_aside(9)?;
    }
    Ok(store.in_group())
}

// Ends the group, and flushes.
fn end(store: &mut FilePages<MemoryDisk>) -> Result<()> {
    if store.in_group() {
        store.seal_group()?;
    }
    flush(store)
}

// What a crash leaves of the disks, which loses all that it may.
fn crashed(
    alloc: Global,
    store: &FilePages<MemoryDisk>,
) -> sled_disk::Result<(MemoryDisk, MemoryDisk)> {
    let (first, second) = store.disks();
    let mut choices = Choices::new(Vec::new(alloc));
    let first = first.crash(&mut choices)?;
    let second = second.crash(&mut choices)?;
    drop(choices);
    Ok((first, second))
}

// Prints what files are opened as.
fn tell_opened(report: &Report, words: &str, first: MemoryDisk, second: MemoryDisk) {
    match FilePages::open(report.alloc(), first, second) {
        Ok(store) => {
            report.tell(format_args!(
                "{words}: mark {}, rooted before {}, within {}",
                store.mark(),
                store.root(b"before").is_some(),
                store.root(b"within").is_some()
            ));
            drop(store);
        }
        Err(refused) => {
            report.tell(format_args!("{words}: {}", refused.error));
            drop(refused);
        }
    }
}

// Prints what a crash leaves.
fn tell_crashed(report: &Report, words: &str, store: &FilePages<MemoryDisk>) {
    match crashed(report.alloc(), store) {
        Ok((first, second)) => tell_opened(report, words, first, second),
        Err(e) => report.show(words, e),
    }
}

pub fn tell(report: &Report) {
    let Some(mut store) = new_store(report.alloc()) else {
        report.tell("no store");
        return;
    };
    let begun = begin(&mut store);
    report.show("a root before, and one in a group", begun);
    let marked = mark(&mut store);
    report.show("a mark while it is open", marked);
    tell_crashed(report, "a crash while it is open", &store);
    let ended = end(&mut store);
    report.show("sealed and flushed", ended);
    tell_crashed(report, "a crash after that", &store);
    drop(store);
}
