//! A batch as it is filled, copied and compared.
use sled_batch::Batch;
use sled_nodes::{IVec, Result};
use std::alloc::Global;
use test_report::Report;

// Writes to a batch: of each key the last write stays.
fn fill(report: &Report, batch: &mut Batch) {
    let alloc = report.alloc();
    report.keep(batch.remove(alloc, b"c"));
    report.keep(batch.insert(alloc, b"a", b"1"));
    report.keep(batch.remove(alloc, b"a"));
    report.keep(batch.insert(alloc, b"b", b""));
    report.keep(batch.insert(alloc, b"a", b"2"));
}

// Prints a batch, and how many writes it has.
fn tell_batch(report: &Report, batch: &Batch) {
    report.tell(format_args!(
        "{:?} has {} writes, is empty: {}",
        batch,
        batch.len(),
        batch.is_empty()
    ));
}

// Prints whether a copy is the same, and whether it is once it is written to.
fn tell_copy(report: &Report, batch: &Batch) {
    if let Some(mut copy) = report.keep(batch.clone(report.alloc())) {
        let is_same = copy == *batch;
        report.keep(copy.remove(report.alloc(), b"b"));
        let is_still = copy == *batch;
        drop(copy);
        report.tell(format_args!(
            "a copy is the same: {is_same}, and once it is written to: {is_still}"
        ));
    }
}

// How many writes a batch has, and whether it takes `c` out.
fn written(alloc: Global, batch: &Batch) -> Result<(usize, bool)> {
    let key = IVec::from_slice(alloc, b"c")?;
    let takes_out = matches!(batch.writes().get(&key), Some(None));
    drop(key);
    Ok((batch.writes().len(), takes_out))
}

/// Prints what a batch has before and after it is filled, and what comes of a copy.
pub fn tell(report: &Report) {
    let mut batch = Batch::default(report.alloc());
    tell_batch(report, &batch);
    fill(report, &mut batch);
    tell_batch(report, &batch);
    tell_copy(report, &batch);
    report.show("writes", written(report.alloc(), &batch));
    drop(batch);
}
