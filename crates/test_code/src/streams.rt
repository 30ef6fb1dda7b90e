//! Readers and writers that fail, and a reader that waits for each answer.
use line_sessions::serve::serve;
use std::alloc::Global;
use std::cell::Cell;
use std::io::{self, BufRead, ErrorKind, Read, Write};
use test_report::Report;

// A reader that gives one line at a time. It fails if a line is not answered yet, and at its end if it is cut.
#[derive(Drop)]
struct Lines<'a> {
    rest: &'a [u8],
    is_cut: bool,
    given: u64,
    answers: &'a Cell<u64>,
}

impl<'a> Read for Lines<'a> {
    fn read(&mut self, buf: &mut [u8]) -> io::Result<usize> {
        self.rest.read(buf)
    }
}

impl<'a> BufRead for Lines<'a> {
    fn fill_buf(&mut self) -> io::Result<&[u8]> {
        let is_over = self.rest.is_empty() && self.is_cut;
        if is_over || self.answers.get() < self.given {
            return Err(io::Error::from(ErrorKind::Other));
        }
        let line = self.rest.split_inclusive(|byte| *byte == b'\n').next();
        Ok(line.unwrap_or(self.rest))
    }

    fn consume(&mut self, amount: usize) {
        self.given = self.given.wrapping_add(1);
        self.rest.consume(amount)
    }
}

// A reader that holds all of its lines. It fails when it is looked at for the third time, which is for the second line.
#[derive(Drop)]
struct Held<'a> {
    rest: &'a [u8],
    kind: ErrorKind,
    looks: u64,
}

impl<'a> Read for Held<'a> {
    fn read(&mut self, buf: &mut [u8]) -> io::Result<usize> {
        self.rest.read(buf)
    }
}

impl<'a> BufRead for Held<'a> {
    fn fill_buf(&mut self) -> io::Result<&[u8]> {
        self.looks = self.looks.wrapping_add(1);
        if self.looks == 3 {
            return Err(io::Error::from(self.kind));
        }
        Ok(self.rest)
    }

    fn consume(&mut self, amount: usize) {
        self.rest.consume(amount)
    }
}

// A writer that takes so many bytes and then fails, and may fail at a flush. It counts the lines.
#[derive(Drop)]
struct Page<'a> {
    room: usize,
    flushes: bool,
    answers: &'a Cell<u64>,
}

impl<'a> Write for Page<'a> {
    fn write(&mut self, buf: &[u8]) -> io::Result<usize> {
        if self.room < buf.len() {
            return Err(io::Error::from(ErrorKind::Other));
        }
        self.room -= buf.len();
        let lines = buf.iter().filter(|byte| **byte == b'\n').count();
        self.answers
            .set(self.answers.get().wrapping_add(lines as u64));
        Ok(buf.len())
    }

    fn flush(&mut self) -> io::Result<()> {
        if self.flushes {
            Ok(())
        } else {
            Err(io::Error::from(ErrorKind::Other))
        }
    }
}

// What a case shows; its lines, whether the reader fails at their end, how many bytes the writer takes, and whether it can be
// flushed.
type Case = (&'static str, &'static [u8], bool, usize, bool);

// Output is flushed before the first line is waited for, so if that fails no line is answered.
const CASES: [Case; 7] = [
    (
        "a read fails within a line",
        b"insert a 1\nget a\nge",
        true,
        99,
        true,
    ),
    ("two lines fit", b"get a\nget a\n", false, 16, true),
    ("one of two lines fits", b"get a\nget a\n", false, 15, true),
    ("a line and a bad one fit", b"get a\nbad\n", false, 19, true),
    (
        "the bad line does not fit",
        b"get a\nbad\n",
        false,
        18,
        true,
    ),
    ("a flush fails before a line", b"get a\n", false, 16, false),
    (
        "a flush fails before a bad line",
        b"bad\n",
        false,
        16,
        false,
    ),
];

// The exit status, and how many lines were written.
fn served(alloc: Global, case: &Case) -> (u8, u64) {
    let (_, rest, is_cut, room, flushes) = *case;
    let answers = Cell::new(0);
    let mut input = Lines {
        rest,
        is_cut,
        given: 0,
        answers: &answers,
    };
    let mut output = Page {
        room,
        flushes,
        answers: &answers,
    };
    let status = serve(alloc, &mut input, &mut output);
    (status, answers.get())
}

// The same of two lines that the reader holds, of which the second is not read at once.
fn served_held(alloc: Global, kind: ErrorKind) -> (u8, u64) {
    let answers = Cell::new(0);
    let mut input = Held {
        rest: b"get a\nget a\n",
        kind,
        looks: 0,
    };
    let mut output = Page {
        room: 99,
        flushes: true,
        answers: &answers,
    };
    let status = serve(alloc, &mut input, &mut output);
    (status, answers.get())
}

fn tell_served(report: &Report, what: &str, (status, lines): (u8, u64)) {
    report.tell(format_args!("{what}: status {status} and {lines} lines"));
}

/// Prints what comes of each case.
pub fn tell(report: &Report) {
    let alloc = report.alloc();
    for case in &CASES {
        tell_served(report, case.0, served(alloc, case));
    }
    let failed = served_held(alloc, ErrorKind::Other);
    tell_served(report, "the read of a held line fails", failed);
    let interrupted = served_held(alloc, ErrorKind::Interrupted);
    tell_served(
        report,
        "the read of a held line is interrupted",
        interrupted,
    );
}
