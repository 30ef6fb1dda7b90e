//! Makes calls of a store in memory and of nodes, one a line, spells keys, and compares values. It prints what comes of each line;
//! `test_stores help` has the lines.
//!
//! `test_stores FILE ..` runs files, each from an empty store, and without arguments standard input. `test_stores check NAME ..`
//! runs the files NAME.lines of the folder that it runs in, and compares what they print with the files NAME.expected. Of a name
//! `log/NAME` the store is that of `example_stores`, and of `files/NAME` one in two files. The exit status is 1 if a file printed
//! something else, and 2 if a read or a write failed or there was no memory.
#![tactic(auto)]

mod files;
mod logs;
mod memory;

use files::Files;
use logs::Logs;
use memory::Memory;
use std::io::{self, Write};
use std::process::ExitCode;
use store_kit::{check_file, ended, exercise, words_of};

// Runs the file of a name, over the stores that are before it: whether it prints what is expected.
fn check_name<W: Write>(rt: &HostRuntime, name: &str, output: &mut W) -> io::Result<bool> {
    match name.split_once('/') {
        Some(("log", name)) => check_file(rt, &Logs, name, output),
        Some(("files", name)) => check_file(rt, &Files, name, output),
        _ => check_file(rt, &Memory, name, output),
    }
}

// The same with each name: whether all print what is expected. A line of a name begins with it.
fn check_names<W: Write>(rt: &HostRuntime, names: &[String], output: &mut W) -> io::Result<bool> {
    let mut passed = true;
    for name in names {
        write!(output, "{name}: ")?;
        passed &= check_name(rt, name.as_str(), output)?;
    }
    Ok(passed)
}

// Runs what the words of the program say.
fn run(rt: &HostRuntime, words: &[String]) -> ExitCode {
    match words {
        [first, names @ ..] if first.as_str() == "check" => {
            ended(rt, check_names(rt, names, &mut io::writer(rt)))
        }
        _ => exercise(rt, &Memory),
    }
}

fn main(rt: HostRuntime) -> ExitCode {
    match words_of(&rt) {
        Ok(words) => {
            let status = run(&rt, words.as_slice());
            drop(words);
            status
        }
        Err(error) => ended(&rt, Err(error)),
    }
}
