//! Files of lines, and what they are expected to print.
use crate::run::{Ran, run_lines};
use crate::trial::Trial;
use sled_store::Pages;
use std::fs;
use std::io::{self, ErrorKind, Write};

// The text of the file of this name and ending, or `None` if it is missing.
fn text_of(rt: &HostRuntime, name: &str, ending: &str) -> io::Result<Option<String>> {
    let path = format!(in rt.alloc(); "{name}{ending}")?;
    match fs::read_to_string(rt, path.as_str()) {
        Ok(text) => Ok(Some(text)),
        Err(e) if e.kind() == ErrorKind::NotFound => Ok(None),
        Err(e) => Err(e),
    }
}

fn is_end(byte: &u8) -> bool {
    *byte == b'\n'
}

// How many lines there are, and how many of them are empty, as those that were left out are.
fn counts_of(text: &[u8]) -> (usize, usize) {
    let lines = text.split(is_end).count().saturating_sub(1);
    let empty = text.split(is_end).filter(|line| line.is_empty()).count();
    (lines, empty.saturating_sub(1))
}

// Whether a line that was printed may be where this one is expected. One that was left out is empty, if lines were left out.
fn is_like(line: Option<&[u8]>, other: Option<&[u8]>, leaves_out: bool) -> bool {
    match (line, other) {
        (Some(b""), Some(_)) if leaves_out => true,
        _ => line == other,
    }
}

// The number of the first line that differs.
fn first_difference(printed: &[u8], expected: &[u8], leaves_out: bool) -> Option<u64> {
    let (mut lines, mut others) = (printed.split(is_end), expected.split(is_end));
    for number in 1..u64::MAX {
        let (line, other) = (lines.next(), others.next());
        if !is_like(line, other, leaves_out) {
            return Some(number);
        }
        if line.is_none() {
            break;
        }
    }
    None
}

// The line of a number. There is none at the end of a text.
fn line_at(text: &[u8], number: u64) -> &[u8] {
    let place = usize::try_from(number).unwrap_or(0).saturating_sub(1);
    text.split(is_end).nth(place).unwrap_or(b"")
}

// Prints a line that differs.
fn write_difference<W: Write>(
    output: &mut W,
    number: u64,
    printed: &[u8],
    expected: &[u8],
) -> io::Result<()> {
    write!(output, "line {number} is `")?;
    output.write_all(line_at(printed, number))?;
    output.write_all(b"` and not `")?;
    output.write_all(line_at(expected, number))?;
    output.write_all(b"`\n")
}

// Prints how many lines were as expected, and which were left out.
fn write_counts<W: Write>(output: &mut W, printed: &[u8], lacked: Option<&str>) -> io::Result<()> {
    let (lines, empty) = counts_of(printed);
    match lacked {
        Some(line) => {
            let whole = lines.saturating_sub(empty);
            writeln!(
                output,
                "{whole} lines as expected, {empty} left out, `{line}` first"
            )
        }
        None => writeln!(output, "{lines} lines as expected"),
    }
}

// Whether what was printed is what is expected, but for lines that were left out. Prints so, or where it is not.
fn judge<W: Write>(
    output: &mut W,
    printed: &[u8],
    lacked: Option<&str>,
    expected: &[u8],
) -> io::Result<bool> {
    match first_difference(printed, expected, lacked.is_some()) {
        None => write_counts(output, printed, lacked).map(|()| true),
        Some(number) => { write_difference(output, number, printed, expected).map(|()| false) }
    }
}

// Compares the outcome of lines with what the file of this name expects.
fn compare<W: Write>(
    rt: &HostRuntime,
    ran: &Ran<'_>,
    name: &str,
    output: &mut W,
) -> io::Result<bool> {
    let Some(printed) = ran.printed.text() else {
        return Err(io::Error::from(ErrorKind::OutOfMemory));
    };
    match text_of(rt, name, ".expected")? {
        Some(expected) => judge(output, printed, ran.lacked, expected.as_bytes()),
        None => writeln!(output, "{name}.expected is missing").map(|()| false),
    }
}

/// Runs the file NAME.lines from an empty store, and compares what it prints with the file NAME.expected: whether it prints what is
/// expected. It prints so in a line. A line that asks for what the stores do not have is left out, with those behind it up to a `new`.
pub fn check_file<P: Pages, T: Trial<P>, W: Write>(
    rt: &HostRuntime,
    trial: &T,
    name: &str,
    output: &mut W,
) -> io::Result<bool> {
    let Some(lines) = text_of(rt, name, ".lines")? else {
        return writeln!(output, "{name}.lines is missing").map(|()| false);
    };
    let ran = run_lines(rt.alloc(), trial, lines.as_str());
    let passed = compare(rt, &ran, name, output);
    drop(ran);
    passed
}

/// The same with the file of each name: whether all print what is expected. A line of a file begins with its name.
pub fn check_all<P: Pages, T: Trial<P>, W: Write>(
    rt: &HostRuntime,
    trial: &T,
    names: &[String],
    output: &mut W,
) -> io::Result<bool> {
    let mut passed = true;
    for name in names {
        write!(output, "{name}: ")?;
        passed &= check_file(rt, trial, name.as_str(), output)?;
    }
    Ok(passed)
}
