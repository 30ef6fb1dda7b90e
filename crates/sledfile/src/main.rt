//! Runs commands on a database in files: reads them line by line, and prints how each came out. Its argument is the folder of the database,
//! which is made if it is not there. Beside the lines of `sledrun` it knows `stats` and `compact`. What it prints is not proved: it is
//! safe, and it ends.
#![tactic(auto)]

mod opened;

ghost use Rattle.std.specs.Prelude.{◌≡◌, [], OnOk};

use line_sessions::lines::{Buffers, End, run_lines, tell_end};
use line_words::input::Stopped;
use opened::{Opened, compact, flush, open_again, open_first, tell_stats};
use std::alloc::Global;
use std::env;
use std::io::{BufRead, BufReader, BufWriter, Write};
use std::process::ExitCode;

// What follows lines that ended.
#[derive(Drop)]
enum Next {
    // The others, on this session.
    Lines(Opened),
    // Nothing: whether every line could be read.
    Nothing(bool),
}

// Ends a session at the end of its lines: all that was decided is durable then.
fn close<W: Write>(session: Opened, is_read: bool, output: &mut W) -> Result<Next, Stopped> {
    flush(session, output)?;
    Ok(Next::Nothing(is_read))
}

// Answers a line that `sledrun` does not know: the session that goes on, or the one that ends since the line is unknown.
fn answer<W: Write>(
    alloc: Global,
    session: Opened,
    line: &[u8],
    output: &mut W,
) -> Result<Result<Opened, Opened>, Stopped> {
    if line == b"compact".as_slice() {
        return Ok(Ok(compact(alloc, session, output)?));
    }
    if line != b"stats".as_slice() {
        return Ok(Err(session));
    }
    match tell_stats(&session, output) {
        Ok(()) => Ok(Ok(session)),
        Err(stopped) => {
            drop(session);
            Err(stopped)
        }
    }
}

// Does what is to be done after lines that ended.
fn go_on<W: Write>(
    rt: &HostRuntime,
    path: &str,
    session: Opened,
    end: End,
    buffers: &mut Buffers,
    output: &mut W,
) -> Result<Next, Stopped>
    requires { buffers.old.out.items ≡ [] }
    ensures { OnOk result (buffers.new.out.items ≡ []) }
{
    match end {
        End::NoLine => close(session, true, output),
        End::Crash(_) => Ok(Next::Lines(open_again(rt, path, session, output)?)),
        End::BadLine => match answer(rt.alloc(), session, buffers.bad_line(), output)? {
            Ok(session) => Ok(Next::Lines(session)),
            Err(session) => {
                let told = tell_end(end, output, buffers);
                let closed = close(session, false, output);
                told.and(closed)
            }
        },
    }
}

// Runs all lines: whether each of them could be read.
fn run_in<R: BufRead, W: Write>(
    rt: &HostRuntime,
    path: &str,
    input: &mut R,
    output: &mut W,
) -> Result<bool, Stopped> {
    let mut buffers = Buffers::new(rt.alloc());
    let mut session = open_first(rt, path, output)?;
    for _ in 0..u64::MAX {
        let end = match run_lines(rt.alloc(), &mut session, input, output, &mut buffers) {
            Ok(end) => end,
            Err(stopped) => {
                drop(session);
                return Err(stopped);
            }
        };
        match go_on(rt, path, session, end, &mut buffers, output)? {
            Next::Lines(others) => session = others,
            Next::Nothing(is_read) => return Ok(is_read),
        }
    }
    drop(session);
    Err(Stopped)
}

// The only argument.
fn path_of(rt: &HostRuntime) -> Result<Option<String>, Stopped> {
    let mut words: Vec<String> = env::args(rt)?.skip(1).collect(rt.alloc())?;
    let path = words.pop();
    if words.is_empty() { Ok(path) } else { Ok(None) }
}

fn run(rt: &HostRuntime) -> Result<bool, Stopped> {
    let mut output = BufWriter::new(rt.alloc(), std::io::writer(rt))?;
    let Some(path) = path_of(rt)? else {
        writeln!(output, "usage: sledfile FOLDER")?;
        output.flush()?;
        return Err(Stopped);
    };
    let mut input = BufReader::new(rt.alloc(), rt.reader())?;
    let ran = run_in(rt, path.as_str(), &mut input, &mut output);
    // Also if it stopped: it may have said why.
    output.flush()?;
    ran
}

fn main(rt: HostRuntime) -> ExitCode {
    match run(&rt) {
        Ok(true) => ExitCode::from(0),
        Ok(false) => ExitCode::from(1),
        Err(_) => ExitCode::from(2),
    }
}
