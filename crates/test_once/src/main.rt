//! What crashes and refused calls leave of a database in two files whose blocks are synced once. Each call of each disk is refused in turn,
//! and then the disks crash. What is found must be pairs that were inserted one after the other, from the first on, and all that were
//! flushed. It prints how many cases there were and how many passed, and of each that failed the numbers that make it again. Then it prints
//! how long the file of a disk is that is handed back while a block of it is held back.
#![tactic(auto)]

mod pairs;
mod runs;
mod settled;

use runs::{Case, FILES, run_case};
use std::fmt::{self, Display, Formatter, Write};
use std::process::ExitCode;
use test_report::{Report, Tally};

// How many seeds each crash is chosen by.
const SEEDS: u64 = 6;

// A run has fewer calls of a disk than that.
const CALLS: u64 = 400;

// The numbers that make a case again.
#[derive(Clone, Copy, Drop)]
struct Seeded {
    has_snapshots: bool,
    disk: u64,
    call: u64,
    seed: u64,
}

impl Display for Seeded {
    fn fmt<W: Write>(&self, f: &mut Formatter<W>) -> fmt::Result {
        write!(
            f,
            "snapshots {}, disk {}, call {}, seed {}",
            self.has_snapshots, self.disk, self.call, self.seed
        )
    }
}

// Runs a case by each seed. Whether a call was refused.
fn run_seeds(report: &Report, tally: &mut Tally<'_>, case: Case) -> bool {
    let mut is_refused = false;
    for seed in 0..SEEDS {
        let outcome = run_case(report.alloc(), case, seed);
        if let Ok(refused) = &outcome {
            is_refused = *refused;
        }
        tally.count(
            outcome.map(|_| ()),
            Seeded {
                has_snapshots: case.has_snapshots,
                disk: case.disk,
                call: case.call,
                seed,
            },
        );
    }
    is_refused
}

// Refuses each call of a disk in turn.
fn run_calls(report: &Report, has_snapshots: bool, disk: u64) {
    let mut tally = Tally::new(report);
    for call in 1..CALLS {
        let case = Case {
            has_snapshots,
            disk,
            call,
        };
        if !run_seeds(report, &mut tally, case) {
            break;
        }
    }
    let words = if has_snapshots {
        "with snapshots"
    } else {
        "without snapshots"
    };
    tally.tell(format_args!("{words}, disk {disk}"));
    drop(tally);
}

fn main(rt: HostRuntime) -> ExitCode {
    let report = Report::new(rt);
    for disk in FILES {
        run_calls(&report, false, disk);
        run_calls(&report, true, disk);
    }
    settled::tell(&report);
    report.status()
}
