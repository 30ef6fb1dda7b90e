//! Lines that are run with each call of the store refused in turn, and with a crash after each of their actions.

use crate::choices::Sweep;
use crate::repeats::{Aim, Repeats, Seen, is_end};
use crate::tell::{Result, Told, answered, tell, tell_numbered};
use line_words::print::Piece::Text;
use line_words::print::push_text;
use line_words::words::read_number;
use std::alloc::Global;

/// A program whose sessions can be run again and again.
pub trait Sessions {
    /// Runs a session over an empty store: whether each line could be read.
    fn run(&self, alloc: Global, source: &mut Repeats<'_>, output: &mut Vec<u8>) -> Result<bool>;
}

// What a crash and a check print before the dump.
const WELL: &[u8] = b"recovered\nsound\n";

// Adds a line in quotes, and a text. There is no line at the end of a text.
fn tell_quoted(out: &mut Told, line: Option<&[u8]>, behind: &'static [u8]) -> Result<()> {
    let line = line.unwrap_or(b"");
    if line.is_empty() {
        return tell(out, &[Text(b"the end"), Text(behind)]);
    }
    tell(out, &[Text(b"`"), Text(line), Text(b"`"), Text(behind)])
}

// Adds that a line is another one than it should be.
fn tell_line(out: &mut Told, number: u64, line: Option<&[u8]>, other: Option<&[u8]>) -> Result<()> {
    tell_numbered(out, b"line ", number, b" is ")?;
    tell_quoted(out, line, b" and not ")?;
    tell_quoted(out, other, b"\n")
}

// Adds the first line in which what the run of a number printed is another than was wanted.
fn tell_difference(
    out: &mut Told,
    name: &'static [u8],
    run: u64,
    printed: &[u8],
    wanted: &[u8],
) -> Result<()> {
    tell_numbered(out, name, run, b": ")?;
    let (mut lines, mut others) = (printed.split(is_end), wanted.split(is_end));
    for number in 1..u64::MAX {
        let (line, other) = (lines.next(), others.next());
        if line != other {
            return tell_line(out, number, line, other);
        }
        if line.is_none() {
            break;
        }
    }
    tell(out, &[Text(b"nothing differs\n")])
}

// How many actions a flush made durable that printed this.
fn flushed(printed: &[u8]) -> u64 {
    let Some(number) = printed.strip_prefix(b"flushed ") else {
        return 0;
    };
    match number.strip_suffix(b"\n") {
        Some(number) => read_number(number).unwrap_or(0),
        None => 0,
    }
}

// A text of dumps up to the end of its first one, and what is behind it. The last line of a dump begins with `end`.
fn first_dump(text: &[u8]) -> (&[u8], &[u8]) {
    let mut is_last = text.starts_with(b"end ");
    for (at, byte) in text.iter().enumerate() {
        if !is_end(byte) {
            continue;
        }
        let others = &text[at + 1..];
        if is_last {
            return (&text[..at + 1], others);
        }
        is_last = others.starts_with(b"end ");
    }
    (text, b"")
}

// The dumps from the one on that a crash left which printed this; none if it left none of them.
fn dumps_from<'a>(dumps: &'a [u8], printed: &[u8]) -> Option<&'a [u8]> {
    let dump = printed.strip_prefix(WELL)?;
    let mut rest = dumps;
    for _ in 0..dumps.len() {
        let (first, others) = first_dump(rest);
        if first == dump {
            return Some(rest);
        }
        if others.is_empty() {
            break;
        }
        rest = others;
    }
    None
}

// Adds what a crash left that kept so many actions, which is none of the dumps.
fn tell_lost(out: &mut Told, keep: u64, printed: &[u8]) -> Result<()> {
    if printed.starts_with(WELL) {
        return tell_numbered(out, b"crash ", keep, b": no beginning\n");
    }
    tell_difference(out, b"crash ", keep, printed, WELL)
}

// Adds the outcome of so many crashes, if a crash that kept all actions left the first of these dumps.
fn tell_last(out: &mut Told, dumps: &[u8], actions: u64) -> Result<()> {
    let (dump, others) = first_dump(dumps);
    if others.is_empty() || others.ends_with(dump) {
        let crashes = actions.saturating_add(1);
        return tell_numbered(out, b"crashes ", crashes, b", each a beginning\n");
    }
    tell_numbered(out, b"crash ", actions, b": not the last\n")
}

// Adds that so many calls were made, and how many of them were refused.
fn tell_same(out: &mut Told, calls: u64, refused: u64) -> Result<()> {
    tell_numbered(out, b"calls ", calls, b", refused ")?;
    tell_numbered(out, b"", refused, b", all the same\n")
}

// Lines that a program runs again and again, and what the last run printed.
struct Runs<'a, P: Sessions> {
    alloc: Global,
    sessions: &'a P,
    lines: &'a [u8],
    printed: Vec<u8>,
}

impl<P: Sessions> Runs<'_, P> {
    // Runs the lines for an aim.
    fn run(&mut self, aim: Aim) -> Result<Seen> {
        let mut source = Repeats::new(self.lines, aim);
        self.printed.clear();
        let is_good = self
            .sessions
            .run(self.alloc, &mut source, &mut self.printed)?;
        Ok(Seen {
            is_good,
            ..source.seen()
        })
    }

    // Refuses each call in turn, up to the first that is not made, and adds the outcome.
    fn tell_refusals(&mut self, wanted: &[u8], out: &mut Told) -> Result<()> {
        let mut refused: u64 = 0;
        for call in 1..u64::MAX {
            let seen = self.run(Aim::Refusing(call))?;
            if self.printed.as_slice() != wanted {
                return tell_difference(out, b"call ", call, self.printed.as_slice(), wanted);
            }
            if seen.is_beyond {
                return tell_same(out, call - 1, refused);
            }
            refused = refused.saturating_add(u64::from(seen.is_told));
        }
        Ok(())
    }

    // Has a crash keep each number of actions in turn, and adds the outcome. The dumps are those after each line.
    fn tell_crashes(&mut self, dumps: &[u8], actions: u64, out: &mut Told) -> Result<()> {
        let mut rest = dumps;
        for keep in 0..actions.saturating_add(1) {
            self.run(Aim::Crash(keep))?;
            match dumps_from(rest, self.printed.as_slice()) {
                Some(found) => rest = found,
                None => return tell_lost(out, keep, self.printed.as_slice()),
            }
        }
        tell_last(out, rest, actions)
    }

    // Runs the lines for the first time: why they cannot be run again and again, if they cannot.
    fn begin(&mut self, sweep: Sweep) -> Result<Option<&'static str>> {
        let aim = match sweep {
            Sweep::Refusals => Aim::Refusing(0),
            Sweep::Crashes => Aim::Count,
        };
        let seen = self.run(aim)?;
        Ok(match sweep {
            _ if !seen.is_good => Some("the file has a line that cannot be read"),
            Sweep::Refusals if seen.is_remade => {
                Some("the file has a line that makes another store")
            }
            _ => None,
        })
    }

    // Notes the outcome that the lines should have, and runs them again and again.
    fn sweep(&mut self, sweep: Sweep, wanted: &mut Vec<u8>, out: &mut Told) -> Result<()> {
        let actions = flushed(self.printed.as_slice());
        if let Sweep::Crashes = sweep {
            self.run(Aim::Dumps)?;
        }
        std::mem::swap(wanted, &mut self.printed);
        match sweep {
            Sweep::Refusals => self.tell_refusals(wanted.as_slice(), out),
            Sweep::Crashes => self.tell_crashes(wanted.as_slice(), actions, out),
        }
    }

    // Runs the lines again and again, and adds the outcome; or why it cannot be done.
    fn tell_all(&mut self, sweep: Sweep, out: &mut Told, why: &mut Vec<u8>) -> Result<()> {
        if let Some(said) = self.begin(sweep)? {
            return answered(push_text(why, said.as_bytes()));
        }
        let mut wanted = Vec::new(self.alloc);
        let told = self.sweep(sweep, &mut wanted, out);
        drop(wanted);
        told
    }
}

/// Runs lines again and again, and adds the outcome; or why it cannot be done.
pub fn tell_sweep<P: Sessions>(
    alloc: Global,
    sessions: &P,
    sweep: Sweep,
    lines: &[u8],
    out: &mut Told,
    why: &mut Vec<u8>,
) -> Result<()> {
    let mut runs = Runs {
        alloc,
        sessions,
        lines,
        printed: Vec::new(alloc),
    };
    let told = runs.tell_all(sweep, out, why);
    let Runs {
        alloc: _,
        sessions: _,
        lines: _,
        printed,
    } = runs;
    drop(printed);
    told
}
