//! The lines of an input, and where they stop: what was printed is out before a read that may wait.
ghost use Rattle.std.specs.Prelude.{◌≡◌, ◌≤◌, length, take, true, [], IfOk, OnOk, IfSome};
ghost use Rattle.std.specs.Vec.{vec_len};
ghost use Rattle.std.specs.Io.KnownBytes.{Keeps, IsAtEnd};
ghost use Rattle.std.specs.Io.BufRead.{take_through, strip_last, DropsThrough};
ghost use Rattle.line_words.specs.theory.Input.{is_part, CopiesPart};

use crate::search::{LANES, find, in_front};
use sled_nodes::Error;
use std::alloc::{AllocError, AllocFailed};
use std::io::{self, BufRead, ErrorKind, Write};

/// Why a program stops midway: a read or a write failed, or there was no memory.
#[derive(Drop)]
pub struct Stopped;

impl From<Error> for Stopped {
    fn from(_: Error) -> Self {
        Stopped
    }
}

impl From<io::Error> for Stopped {
    fn from(_: io::Error) -> Self {
        Stopped
    }
}

impl From<AllocError> for Stopped {
    fn from(_: AllocError) -> Self {
        Stopped
    }
}

impl<T: Drop> From<AllocFailed<T>> for Stopped {
    fn from(_: AllocFailed<T>) -> Self {
        Stopped
    }
}

// What a reader holds: how many bytes of whole lines, and whether the input ends.
#[derive(Clone, Copy)]
struct Held {
    whole: usize,
    at_end: bool,
}

// How many bytes there are up to the last line end. From the back sixteen bytes are looked at at once.
fn whole_lines(bytes: &[u8]) -> usize
    ensures { result ≤ length bytes.now }
{
    let mut end = bytes.len();
    'sixteen: while end >= LANES && in_front(b'\n', bytes, end - LANES) == LANES {
        end -= LANES;
    }
    while end > 0 && bytes[end - 1] != b'\n' {
        end -= 1;
    }
    end
}

// Looks at what the reader holds; if that is nothing it reads.
fn look<R: BufRead>(input: &mut R) -> io::Result<Held>
    ensures same { Keeps (R.remaining input.old) (R.remaining input.new) }
    ensures end { IfOk result (λ held. held.at_end ≡ true → IsAtEnd (R.remaining input.old)) }
{
    match input.fill_buf() {
        Ok(bytes) => Ok(Held {
            whole: whole_lines(bytes),
            at_end: bytes.is_empty(),
        }),
        Err(e) if e.kind() == ErrorKind::Interrupted => Ok(Held {
            whole: 0,
            at_end: false,
        }),
        Err(e) => Err(e),
    }
}

// Whether the input ends here. If no whole line is held a read may wait, so the output is flushed first.
fn is_at_end<R: BufRead, W: Write>(
    input: &mut R,
    output: &mut W,
    left: &mut usize,
) -> Result<bool, Stopped>
    ensures same { OnOk result (Keeps (R.remaining input.old) (R.remaining input.new)) }
    ensures output { Keeps (W.contents output.old) (W.contents output.new) }
    ensures end { IfOk result (λ ends. ends ≡ true → IsAtEnd (R.remaining input.old)) }
{
    if *left > 0 {
        return Ok(false);
    }
    output.flush()?;
    let held = look(input)?;
    *left = held.whole;
    Ok(held.at_end)
}

// How many bytes there are up to the first line end, or in all, and whether the line ends behind them: so it does if there are none.
fn up_to_end(bytes: &[u8]) -> (usize, bool)
    ensures within { result.0 ≤ length bytes.now }
    ensures part { is_part (take result.0 bytes.now) result.1 }
    ensures none { result.1 ≡ true → result.0 ≡ 0 → length bytes.now ≡ 0 }
{
    match find(b'\n', bytes) {
        Some(at) => (at + 1, true),
        None => (bytes.len(), bytes.is_empty()),
    }
}

// Copies what the reader holds of a line, and goes past it. Answers whether the line ends there, or the input.
fn copy_part<R: BufRead>(input: &mut R, line: &mut Vec<u8>) -> Result<bool, Stopped>
    ensures { IfOk result (CopiesPart (R.remaining input.old) (R.remaining input.new) line.old.items line.new.items) }
{
    let held = match input.fill_buf() {
        Ok(held) => held,
        Err(e) if e.kind() == ErrorKind::Interrupted => return Ok(false),
        Err(_) => return Err(Stopped),
    };
    let (count, ends) = up_to_end(held);
    line.extend_from_slice(&held[..count])?;
    input.consume(count);
    Ok(ends)
}

// Copies the next line with the byte that ends it, and goes past it. Out of line, since most lines are read in place.
#[inline(never)]
fn copy_line<R: BufRead>(input: &mut R, line: &mut Vec<u8>) -> Result<(), Stopped>
    requires { line.old.items ≡ [] }
    ensures bytes { OnOk result (IfSome (R.remaining input.old) (λ xs. line.new.items ≡ take_through 10 xs)) }
    ensures rest { OnOk result (DropsThrough (R.remaining input.old) (R.remaining input.new) 10) }
{
    for _ in 0..u64::MAX {
        if copy_part(input, line)? {
            return Ok(());
        }
    }
    Err(Stopped)
}

/// Reads the next line with the byte that ends it, and answers how long it is: 0 at the end of the input. `left` is how many
/// bytes of whole lines the reader holds behind the line, so far as that is known. If a read may wait the output is flushed
/// first.
pub fn read_line<R: BufRead, W: Write>(
    input: &mut R,
    output: &mut W,
    line: &mut Vec<u8>,
    left: &mut usize,
) -> Result<usize, Stopped>
    ensures ok { IfOk result (λ n. vec_len line.new ≡ n) }
    ensures bytes { OnOk result (IfSome (R.remaining input.old) (λ xs. line.new.items ≡ take_through 10 xs)) }
    ensures rest { OnOk result (DropsThrough (R.remaining input.old) (R.remaining input.new) 10) }
    ensures end { IfOk result (λ n. n ≡ 0 → IsAtEnd (R.remaining input.old)) }
    ensures output { Keeps (W.contents output.old) (W.contents output.new) }
{
    line.clear();
    if is_at_end(input, output, left)? {
        return Ok(0);
    }
    copy_line(input, line)?;
    *left = left.saturating_sub(line.len());
    Ok(line.len())
}

/// A line without the byte that ends it.
pub fn without_end(line: &[u8]) -> &[u8]
    ensures { result.now ≡ strip_last 10 line.now }
{
    match line {
        [text @ .., b'\n'] => text,
        _ => line,
    }
}
