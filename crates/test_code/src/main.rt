//! What only code can test: readers and writers that fail, a reader that waits for each answer, batches, the errors of transactions,
//! and calls that no line makes. It prints the outcome of each case; `stdout` has the expected ones.
#![tactic(auto)]

mod batches;
mod calls;
mod nodes;
mod replies;
mod step_kept;
mod streams;
mod transactions;
mod whole_kept;

use sled::{Db, MemPages, empty_pages};
use std::process::ExitCode;
use test_report::Report;

// What is printed of a new database.
#[derive(Clone, Copy)]
enum Case {
    Transactions,
    Calls,
    Steps,
    Wholes,
}

// Prints an open database and its default tree, and drops both.
fn tell_on(report: &Report, case: Case, db: Db<MemPages>) {
    let Some(tree) = report.keep(db.default_tree()) else {
        drop(db.into_pages());
        return;
    };
    let db = match case {
        Case::Transactions => transactions::tell_on(report, db, &tree),
        Case::Calls => calls::tell_on(report, db, &tree),
        Case::Steps => step_kept::tell_on(report, db, &tree),
        Case::Wholes => whole_kept::tell_on(report, db, &tree),
    };
    drop(tree);
    drop(db.into_pages());
}

// Which call of the store is refused: of whole calls the one that takes out the second pair of a clear, else none.
fn refused_of(case: Case) -> u64 {
    match case {
        Case::Wholes => 14,
        _ => 0,
    }
}

// Prints a new database over pages in memory.
fn tell_case(report: &Report, case: Case) {
    let mut pages = empty_pages(report.alloc());
    report.keep(pages.refuse_at(&[refused_of(case)]));
    match Db::open(report.alloc(), pages, b"weather") {
        Ok(db) => tell_on(report, case, db),
        Err((pages, e)) => {
            drop(pages);
            drop(e);
            report.fail();
        }
    }
}

fn main(rt: HostRuntime) -> ExitCode {
    let report = Report::new(rt);
    streams::tell(&report);
    batches::tell(&report);
    transactions::tell_errors(&report);
    tell_case(&report, Case::Transactions);
    nodes::tell(&report);
    calls::tell(&report);
    replies::tell(&report);
    tell_case(&report, Case::Calls);
    tell_case(&report, Case::Steps);
    tell_case(&report, Case::Wholes);
    report.status()
}
