//! A store in two files whose log is begun anew.
use sled_disk::MemoryDisk;
use sled_files::FilePages;
use sled_nodes::Pid;
use sled_store::Pages;
use std::alloc::Global;
use test_report::Report;

/// A new store.
pub fn new_store(alloc: Global) -> Option<FilePages<MemoryDisk>> {
    let first = MemoryDisk::new(alloc, Vec::new(alloc)).ok()?;
    let second = MemoryDisk::new(alloc, Vec::new(alloc)).ok()?;
    FilePages::open(alloc, first, second).ok()
}

// Prints the figures of a store after a call.
fn tell_stats(report: &Report, words: &str, store: &FilePages<MemoryDisk>) {
    let stats = store.stats();
    report.tell(format_args!(
        "{words}: {} page numbers, {} bytes, generation {}, {} missed",
        stats.pages, stats.bytes, stats.generation, stats.missed
    ));
}

// Sets a root, and a mark, and begins the log anew.
fn tell_compacted(report: &Report, store: &mut FilePages<MemoryDisk>) {
    tell_stats(report, "new", store);
    let done = store.cas_root(b"a", None, Some(Pid(1)));
    report.tell(format_args!("a root: {}", matches!(done, Ok(Ok(())))));
    tell_flush(report, "rooted", store);
    if store.mark() <= 9 {
        let marked = store.set_aside(9);
        report.show("a mark", marked);
    }
    tell_stats(report, "before", store);
    let compacted = store.compact();
    report.show("compacted", compacted);
    tell_stats(report, "after", store);
}

// Within a group nothing is done.
fn tell_group(report: &Report, store: &mut FilePages<MemoryDisk>) {
    if !store.in_group() {
        let begun = store.begin_group();
        report.show("a group", begun);
    }
    let compacted = store.compact();
    report.show("compacted in a group", compacted);
    tell_stats(report, "the same", store);
    if store.in_group() {
        let sealed = store.seal_group();
        report.show("sealed", sealed);
    }
}

// Flushes.
fn tell_flush(report: &Report, words: &str, store: &mut FilePages<MemoryDisk>) {
    if !store.in_group() {
        let flushed = store.flush();
        report.show("flushed", flushed);
    }
    tell_stats(report, words, store);
}

// Opens the files again.
fn tell_again(report: &Report, store: FilePages<MemoryDisk>) {
    let (first, second) = store.into_disks();
    match FilePages::open(report.alloc(), first, second) {
        Ok(store) => {
            report.tell(format_args!(
                "again: recovered {}, mark {}, rooted {}, a snapshot of {} bytes, failed {}",
                store.was_recovered(),
                store.mark(),
                store.root(b"a").is_some(),
                store.stats().snapshot,
                store.failed()
            ));
            drop(store);
        }
        Err(refused) => {
            report.tell(format_args!("again: {}", refused.error));
            drop(refused);
        }
    }
}

pub fn tell(report: &Report) {
    let Some(mut store) = new_store(report.alloc()) else {
        report.tell("no store");
        return;
    };
    tell_compacted(report, &mut store);
    tell_group(report, &mut store);
    store.compact_from(50);
    tell_flush(report, "less than twice the snapshot", &mut store);
    let done = store.cas_root(b"a", Some(Pid(1)), None);
    report.tell(format_args!("no root: {}", matches!(done, Ok(Ok(())))));
    tell_flush(report, "more than that", &mut store);
    tell_again(report, store);
}
