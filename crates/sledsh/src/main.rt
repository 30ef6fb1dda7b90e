//! A shell over the database: reads lines, and prints how each came out. It runs files of lines too, and compares what they
//! print with what was expected. What it prints is not proved: it is safe, and it ends.
#![tactic(auto)]

use line_files::{Program, check};
use line_words::input::Stopped;
use shell_answers::memory::Memory;
use shell_answers::shell::{VERSION, run};
use sled_nodes::Error;
use std::alloc::Global;
use std::io::{BufReader, BufWriter, IsTerminal, Write};
use std::process::ExitCode;
use std::{env, fs};

// Texts of lines, each a session of its own.
#[derive(Clone, Copy)]
struct Texts<'a> {
    rt: &'a HostRuntime,
}

impl Program for Texts<'_> {
    fn run(&self, alloc: Global, lines: &[u8], printed: &mut Vec<u8>) -> sled_nodes::Result<()> {
        // Nothing is written but to memory, so it was that which was missing.
        match run(self.rt, Memory::nothing(alloc), lines, printed, false) {
            Ok(_) => Ok(()),
            Err(_) => Err(Error::NoMemory),
        }
    }
}

// Runs standard input as a session: whether each line could be read.
fn run_input(rt: &HostRuntime, output: &mut impl Write) -> Result<bool, Stopped> {
    let input = BufReader::new(rt.alloc(), rt.reader())?;
    run(
        rt,
        Memory::nothing(rt.alloc()),
        input,
        output,
        rt.stdin().is_terminal(),
    )
}

// Runs each file as a session of its own: whether each line could be read.
fn run_files(rt: &HostRuntime, names: &[String], output: &mut impl Write) -> Result<bool, Stopped> {
    let mut read = true;
    for name in names {
        let lines = fs::read(rt, name.as_str())?;
        read &= run(
            rt,
            Memory::nothing(rt.alloc()),
            lines.as_slice(),
            output,
            false,
        )?;
    }
    Ok(read)
}

fn run_names(rt: &HostRuntime, names: &[String], output: &mut impl Write) -> Result<bool, Stopped> {
    match names {
        [] => run_input(rt, output),
        [word] if word.as_str() == "version" => {
            writeln!(output, "sledsh {VERSION}")?;
            Ok(true)
        }
        [first, names @ ..] if first.as_str() == "check" => Ok(check(
            rt,
            &Texts { rt },
            names,
            output,
        )?),
        names => run_files(rt, names, output),
    }
}

fn names_of(rt: &HostRuntime) -> Result<Vec<String>, Stopped> {
    Ok(env::args(rt)?.skip(1).collect(rt.alloc())?)
}

fn run_all(rt: &HostRuntime) -> Result<bool, Stopped> {
    let names = names_of(rt)?;
    let mut output = BufWriter::new(rt.alloc(), std::io::writer(rt))?;
    let passed = run_names(rt, names.as_slice(), &mut output)?;
    output.flush()?;
    Ok(passed)
}

fn main(rt: HostRuntime) -> ExitCode {
    match run_all(&rt) {
        Ok(true) => ExitCode::from(0),
        Ok(false) => ExitCode::from(1),
        Err(_) => ExitCode::from(2),
    }
}
