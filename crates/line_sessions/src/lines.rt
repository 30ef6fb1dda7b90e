//! The lines of one session, up to how they end.
ghost use Rattle.std.specs.Prelude.{◌≡◌, [], IfOk, OnOk};
ghost use Rattle.std.specs.Io.KnownBytes.{Keeps};
ghost use Rattle.line_words.specs.Print.{Prints, bad_line};
ghost use Rattle.line_sessions.specs.Serve.{bad_left, crash_of, place, told_of, Ends, RunsFrom};
ghost use Rattle.line_sessions.specs.Session.{CanRun, Obeys};
ghost use Rattle.line_sessions.specs.theory.Serve.{ReadsHeld, ReadsNext, CanAllRun, Reads, Takes, IsToDo, CanDo};

use crate::session::{Session, write};
use line_words::command::{Command, parse};
use line_words::input::{Stopped, read_line, without_end};
use line_words::print::push_bad_line;
use line_words::search::find;
use sled_model::MergeOperator;
use sled_store::Pages;
use std::alloc::Global;
use std::io::{BufRead, ErrorKind, Write};

/// How the lines of a session end.
#[derive(Clone, Copy)]
pub enum End {
    /// There are no more.
    NoLine,
    /// One cannot be read.
    BadLine,
    /// One asks for a crash that keeps so many actions.
    Crash(u64),
}

// What is read next.
#[derive(Drop)]
enum Line {
    NoLine,
    BadLine,
    Crash(u64),
    Command(Command),
}

/// Where lines are read: the last one, its number, and what was printed and not yet written.
#[derive(Drop)]
pub struct Buffers {
    // A line that was copied.
    line: Vec<u8>,
    pub(crate) out: Vec<u8>,
    number: u64,
    // How many bytes of whole lines the reader holds behind the line.
    left: usize,
}

impl Buffers {
    /// Before the first line.
    pub fn new(alloc: Global) -> Buffers
        ensures number { result.number ≡ 0 }
        ensures written { result.out.items ≡ [] }
    {
        Buffers {
            line: Vec::new(alloc),
            out: Vec::new(alloc),
            number: 0,
            left: 0,
        }
    }

    /// The line with which lines ended that cannot be read, without its end.
    pub fn bad_line(&self) -> &[u8] {
        without_end(self.line.as_slice())
    }
}

// How many actions a crash keeps, if the command is one.
fn crash_of(command: &Command) -> Option<u64>
    ensures { result ≡ crash_of command.now }
{
    match command {
        Command::Crash(keep) => Some(*keep),
        _ => None,
    }
}

// What is to be done with a line, by the command that it reads as.
#[tactic(auto, using(crate::proofs::Reading::is_crash))]
#[inline(always)]
fn to_do(command: Option<Command>) -> Line
    ensures { IsToDo command result }
{
    let Some(command) = command else {
        return Line::BadLine;
    };
    match crash_of(&command) {
        Some(keep) => {
            drop(command);
            Line::Crash(keep)
        }
        None => Line::Command(command),
    }
}

// Copies a line that cannot be read.
#[inline(always)]
fn keep_bad(command: &Option<Command>, text: &[u8], line: &mut Vec<u8>) -> Result<(), Stopped> {
    if command.is_none() {
        line.clear();
        line.extend_from_slice(text)?;
    }
    Ok(())
}

// The command of the next line, if the reader holds it whole: it is read in place, and then the reader goes past it.
#[inline(always)]
fn held_command<R: BufRead>(
    alloc: Global,
    input: &mut R,
    line: &mut Vec<u8>,
    left: &mut usize,
) -> Result<Option<Option<Command>>, Stopped>
    ensures reads { IfOk result (ReadsHeld (R.remaining input.old) (R.remaining input.new)) }
    ensures runs { IfOk result CanAllRun }
{
    let held = match input.fill_buf() {
        Ok(held) => held,
        Err(e) if e.kind() == ErrorKind::Interrupted => return Ok(None),
        Err(_) => return Err(Stopped),
    };
    let Some(end) = find(b'\n', held) else {
        return Ok(None);
    };
    let command = parse(alloc, &held[..end])?;
    if let Err(stopped) = keep_bad(&command, &held[..end], line) {
        drop(command);
        return Err(stopped);
    }
    input.consume(end + 1);
    *left = left.saturating_sub(end + 1);
    Ok(Some(command))
}

// The command of the next line, if there is one, which is copied first.
fn copied_command<R: BufRead, W: Write>(
    alloc: Global,
    input: &mut R,
    output: &mut W,
    line: &mut Vec<u8>,
    left: &mut usize,
) -> Result<Option<Option<Command>>, Stopped>
    ensures reads { IfOk result (ReadsNext (R.remaining input.old) (R.remaining input.new)) }
    ensures runs { IfOk result CanAllRun }
    ensures output { Keeps (W.contents output.old) (W.contents output.new) }
{
    if read_line(input, output, line, left)? == 0 {
        return Ok(None);
    }
    Ok(Some(parse(alloc, without_end(line.as_slice()))?))
}

// The command of the next line, if there is one. It is copied if the reader is not known to hold it whole.
#[inline(always)]
fn next_command<R: BufRead, W: Write>(
    alloc: Global,
    input: &mut R,
    output: &mut W,
    buffers: &mut Buffers,
) -> Result<Option<Option<Command>>, Stopped>
    ensures reads { IfOk result (ReadsNext (R.remaining input.old) (R.remaining input.new)) }
    ensures runs { IfOk result CanAllRun }
    ensures number { buffers.new.number ≡ buffers.old.number }
    ensures same { buffers.new.out ≡ buffers.old.out }
    ensures output { Keeps (W.contents output.old) (W.contents output.new) }
{
    if buffers.left > 0
        && let Some(command) = held_command(alloc, input, &mut buffers.line, &mut buffers.left)?
    {
        return Ok(Some(command));
    }
    copied_command(alloc, input, output, &mut buffers.line, &mut buffers.left)
}

// Reads the next line.
#[inline(always)]
fn next_line<R: BufRead, W: Write>(
    alloc: Global,
    input: &mut R,
    output: &mut W,
    buffers: &mut Buffers,
) -> Result<Line, Stopped>
    ensures bad { IfOk result (Reads (bad_left buffers.old.number (R.remaining input.old)) (bad_left buffers.new.number (R.remaining input.new)) buffers.new.number) }
    ensures takes { IfOk result (Takes (R.remaining input.old) (R.remaining input.new) buffers.old.number buffers.new.number) }
    ensures runs { IfOk result CanDo }
    ensures same { OnOk result (buffers.new.out.items ≡ buffers.old.out.items) }
    ensures output { Keeps (W.contents output.old) (W.contents output.new) }
{
    let Some(number) = buffers.number.checked_add(1) else {
        return Err(Stopped);
    };
    let Some(command) = next_command(alloc, input, output, buffers)? else {
        return Ok(Line::NoLine);
    };
    buffers.number = number;
    Ok(to_do(command))
}

// Runs a command, and prints how it came out.
#[inline(always)]
fn answer<P: Pages, M: MergeOperator, W: Write>(
    session: &mut Session<P, M>,
    command: Command,
    output: &mut W,
    out: &mut Vec<u8>,
) -> Result<(), Stopped>
    requires { CanRun command }
    ensures obeys { OnOk result (Obeys P.store P.flush_number M.meant session.old command session.new (W.contents output.old) out.old.items (W.contents output.new) out.new.items) }
    ensures written { OnOk result (out.new.items ≡ []) }
{
    session.run(command, output, out)?;
    write(output, out)
}

/// Runs lines on a session, and prints the outcome of each of them, up to a line that asks for a crash or cannot be read, or to the last.
/// Of a line that cannot be read nothing is printed; `Buffers::bad_line` has it, and `tell_end` prints its number. If a read or a write
/// fails, or there is no memory, it stops.
pub fn run_lines<P: Pages, M: MergeOperator, R: BufRead, W: Write>(
    alloc: Global,
    session: &mut Session<P, M>,
    input: &mut R,
    output: &mut W,
    buffers: &mut Buffers,
) -> Result<End, Stopped>
    requires { buffers.old.out.items ≡ [] }
    ensures written { OnOk result (buffers.new.out.items ≡ []) }
    ensures bad { IfOk result (Ends (bad_left buffers.old.number (R.remaining input.old)) (bad_left buffers.new.number (R.remaining input.new)) buffers.new.number) }
    ensures runs { IfOk result (λ end. RunsFrom P.store P.flush_number M.meant session.old (place buffers.old (R.remaining input.old) (W.contents output.old)) end session.new (place buffers.new (R.remaining input.new) (W.contents output.new))) }
{
    for _ in 0..u64::MAX {
        match next_line(alloc, input, output, buffers)? {
            Line::NoLine => return Ok(End::NoLine),
            Line::BadLine => return Ok(End::BadLine),
            Line::Crash(keep) => return Ok(End::Crash(keep)),
            Line::Command(command) => answer(session, command, output, &mut buffers.out)?,
        }
    }
    Err(Stopped)
}

// Prints which line could not be read.
fn tell_bad<W: Write>(number: u64, output: &mut W, out: &mut Vec<u8>) -> Result<(), Stopped>
    ensures prints { OnOk result (Prints (W.contents output.old) out.old.items (W.contents output.new) out.new.items (bad_line number)) }
    ensures written { OnOk result (out.new.items ≡ []) }
{
    push_bad_line(out, number)?;
    write(output, out)
}

/// Prints how lines ended, if there is something to be said of it: which of them cannot be read.
pub fn tell_end<W: Write>(end: End, output: &mut W, buffers: &mut Buffers) -> Result<(), Stopped>
    requires { buffers.old.out.items ≡ [] }
    ensures prints { OnOk result (Prints (W.contents output.old) buffers.old.out.items (W.contents output.new) buffers.new.out.items (told_of end buffers.old.number)) }
    ensures written { OnOk result (buffers.new.out.items ≡ []) }
    ensures same { buffers.new ≡ record buffers.old { out = buffers.new.out } }
{
    match end {
        End::BadLine => tell_bad(buffers.number, output, &mut buffers.out),
        _ => Ok(()),
    }
}
