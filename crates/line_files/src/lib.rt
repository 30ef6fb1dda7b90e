//! Files of lines, and what they are expected to print. The test programs are built on this: each reads lines, and says by a
//! `Program` how it runs them.
#![tactic(auto)]

use sled_nodes::{Error, Result};
use std::alloc::Global;
use std::fs;
use std::io::{self, ErrorKind, Write};

/// A program whose files of lines are checked.
pub trait Program {
    /// Runs lines from a fresh start, and adds what they print. Refused with `NoMemory`, or if the bytes are no lines.
    fn run(&self, alloc: Global, lines: &[u8], printed: &mut Vec<u8>) -> Result<()>;
}

// The bytes of the file of this name and ending, or `None` if it is missing.
fn bytes_of(rt: &HostRuntime, name: &str, ending: &str) -> io::Result<Option<Vec<u8>>> {
    let path = format!(in rt.alloc(); "{name}{ending}")?;
    match fs::read(rt, path.as_str()) {
        Ok(bytes) => Ok(Some(bytes)),
        Err(e) if e.kind() == ErrorKind::NotFound => Ok(None),
        Err(e) => Err(e),
    }
}

// Says that a file is missing.
fn write_missing<W: Write>(output: &mut W, name: &str, ending: &str) -> io::Result<()> {
    writeln!(output, "{name}{ending} is missing")
}

// A line in quotes. There is no line at the end of a text, and no line that is printed is empty.
fn write_line<W: Write>(output: &mut W, line: Option<&[u8]>) -> io::Result<()> {
    match line {
        None | Some(b"") => output.write_all(b"the end"),
        Some(line) => {
            output.write_all(b"`")?;
            output.write_all(line)?;
            output.write_all(b"`")
        }
    }
}

// Says which line was printed, and which was expected.
fn write_lines<W: Write>(
    output: &mut W,
    number: u64,
    line: Option<&[u8]>,
    other: Option<&[u8]>,
) -> io::Result<()> {
    write!(output, "line {number} is ")?;
    write_line(output, line)?;
    output.write_all(b" and not ")?;
    write_line(output, other)?;
    output.write_all(b"\n")
}

fn is_end(byte: &u8) -> bool {
    *byte == b'\n'
}

// Shows the first line that was printed and not expected.
fn write_difference<W: Write>(output: &mut W, printed: &[u8], expected: &[u8]) -> io::Result<()> {
    let (mut lines, mut others) = (printed.split(is_end), expected.split(is_end));
    for number in 1..u64::MAX {
        let (line, other) = (lines.next(), others.next());
        if line != other {
            return write_lines(output, number, line, other);
        }
    }
    Ok(())
}

// Whether what was printed is what was expected. Says so, or shows where it is not.
fn judge<W: Write>(output: &mut W, printed: &[u8], expected: &[u8]) -> io::Result<bool> {
    if printed != expected {
        return write_difference(output, printed, expected).map(|()| false);
    }
    let count = expected.split(is_end).count().saturating_sub(1);
    writeln!(output, "{count} lines as expected").map(|()| true)
}

// Compares what was printed with what the file of this name expects.
fn compare<W: Write>(
    rt: &HostRuntime,
    name: &str,
    printed: &[u8],
    output: &mut W,
) -> io::Result<bool> {
    match bytes_of(rt, name, ".expected")? {
        Some(expected) => judge(output, printed, expected.as_slice()),
        None => write_missing(output, name, ".expected").map(|()| false),
    }
}

// What is printed if lines could not be run.
fn refused(error: Error) -> io::Error {
    let kind = match &error {
        Error::NoMemory => ErrorKind::OutOfMemory,
        _ => ErrorKind::InvalidData,
    };
    drop(error);
    io::Error::from(kind)
}

// Runs the file of lines of a name: whether it prints what is expected, which is printed too.
fn check_name<P: Program, W: Write>(
    rt: &HostRuntime,
    program: &P,
    name: &str,
    output: &mut W,
) -> io::Result<bool> {
    let Some(lines) = bytes_of(rt, name, ".lines")? else {
        return write_missing(output, name, ".lines").map(|()| false);
    };
    let mut printed = Vec::new(rt.alloc());
    match program.run(rt.alloc(), lines.as_slice(), &mut printed) {
        Ok(()) => compare(rt, name, printed.as_slice(), output),
        Err(error) => Err(refused(error)),
    }
}

/// Runs the file NAME.lines of each name from a fresh start, and compares what it prints with the file NAME.expected: whether
/// all print what is expected. It writes a line for each name, with the first line that differs if one does.
pub fn check<P: Program, W: Write>(
    rt: &HostRuntime,
    program: &P,
    names: &[String],
    output: &mut W,
) -> io::Result<bool> {
    let mut passed = true;
    for name in names {
        write!(output, "{name}: ")?;
        passed &= check_name(rt, program, name.as_str(), output)?;
    }
    Ok(passed)
}
