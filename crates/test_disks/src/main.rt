//! What is tested of files: crashes of a disk in memory whose outcome numbers choose, calls of it that are refused, and blocks that
//! are added to a log. It prints the outcome of each case; `stdout` has the expected ones.
#![tactic(auto)]

mod compactions;
mod disks;
mod files;
mod logs;
mod marks;
mod openings;

use std::process::ExitCode;
use test_report::Report;

fn main(rt: HostRuntime) -> ExitCode {
    let report = Report::new(rt);
    disks::tell(&report);
    logs::tell(&report);
    files::tell(&report);
    openings::tell(&report);
    compactions::tell(&report);
    marks::tell(&report);
    report.status()
}
