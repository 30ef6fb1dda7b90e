//! Tests of many calls at once: lists of steps, how many pages calls read, and calls that others overtake. It knows the lines of
//! `sledrun`, reads that take no slot, and words of its own. What it prints is not proved: it is safe, and it ends.
#![tactic(auto)]

mod counting;
mod lines;
mod many;

use line_files::check;
use line_words::input::Stopped;
use lines::{Sessions, run};
use std::env;
use std::io::{BufReader, BufWriter, Write};
use std::process::ExitCode;

// Runs standard input: whether each line could be read.
fn run_input(rt: &HostRuntime, output: &mut impl Write) -> Result<bool, Stopped> {
    let mut input = BufReader::new(rt.alloc(), rt.reader())?;
    run(rt.alloc(), &mut input, output)
}

fn run_all(rt: &HostRuntime) -> Result<bool, Stopped> {
    let names: Vec<String> = env::args(rt)?.skip(1).collect(rt.alloc())?;
    let mut output = BufWriter::new(rt.alloc(), std::io::writer(rt))?;
    let passed = match names.as_slice() {
        [first, names @ ..] if first.as_str() == "check" => check(
            rt,
            &Sessions,
            names,
            &mut output,
        )?,
        [] => run_input(rt, &mut output)?,
        _ => return Err(Stopped),
    };
    output.flush()?;
    Ok(passed)
}

fn main(rt: HostRuntime) -> ExitCode {
    match run_all(&rt) {
        Ok(true) => ExitCode::from(0),
        Ok(false) => ExitCode::from(1),
        Err(_) => ExitCode::from(2),
    }
}
