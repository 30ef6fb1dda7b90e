//! What crashes and refused calls leave of a database in two files, and what files that decayed are opened as. Disks in memory crash and
//! refuse calls, each call in turn, and the maps that are found are compared with maps that the test keeps itself. It prints how many
//! cases there were and how many passed, and of each that failed the numbers that make it again.
//!
//! Its words say what is run: `calls`, `snapshots`, `files`, `bits` and `numbers`. `calls` refuses each call of a disk, and crashes after
//! that and after each step; `snapshots` does so where every few flushes the other file is begun anew, and the older one emptied then.
//! `files` tests a file that is begun anew. `bits` turns each bit of a file, and cuts it at each place; `numbers` tests that no number is
//! given twice. It prints each of them before its outcome.
#![tactic(auto)]

mod begun;
mod crashes;
mod decay;
mod flights;
mod maps;
mod numbers;
mod runs;
mod script;
mod starts;
mod store;
mod transactions;

use std::process::ExitCode;
use std::{env, io};
use test_report::Report;

// The words that the program was called with, after its name.
fn words_of(rt: &HostRuntime) -> io::Result<Vec<String>> {
    Ok(env::args(rt)?.skip(1).collect(rt.alloc())?)
}

// Runs a part by its word: whether there is one.
fn run(report: &Report, word: &str) -> bool {
    match word {
        "calls" => crashes::tell(report),
        "snapshots" => crashes::tell_snapshots(report),
        "files" => begun::tell(report),
        "bits" => decay::tell(report),
        "numbers" => numbers::tell(report),
        _ => return false,
    }
    true
}

// Runs the parts that the words of the program name.
fn run_words(report: &Report, words: &[String]) {
    for word in words {
        report.tell(word.as_str());
        if !run(report, word.as_str()) {
            report.tell_failed(format_args!("there is no part {word}"));
        }
    }
}

fn main(rt: HostRuntime) -> ExitCode {
    let words = words_of(&rt);
    let report = Report::new(rt);
    match words {
        Ok(words) => run_words(&report, words.as_slice()),
        Err(e) => report.tell_failed(e),
    }
    report.status()
}
