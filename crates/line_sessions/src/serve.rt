//! The program as a function: from the lines that it reads to those that it prints.
ghost use Rattle.std.specs.Prelude.{◌≡◌, ◌≤◌, false, [], IfOk, OnOk, IfSome};
ghost use Rattle.sled_store.specs.Store.{now};
ghost use Rattle.sled_pages.specs.Memory.{store_of, empty_store};
ghost use Rattle.tree_laws.specs.Crashes.{IsValid, IsCrashConsistent};
ghost use Rattle.line_words.specs.Print.{Prints};
ghost use Rattle.line_sessions.specs.Serve.{IsStatus, bad_left, place, recovered_text, Ends, Served, served_as};
ghost use Rattle.line_sessions.specs.theory.Serve.{LivesFrom, LivedFrom, ServesFrom, Ran};

use crate::lines::{Buffers, End, run_lines, tell_end};
use crate::operator::NoOperator;
use crate::session::{Session, write};
use line_words::input::Stopped;
use line_words::print::push_recovered;
use sled::{Db, crash_pages, empty_pages};
use sled_model::MergeOperator;
use sled_pages::MemPages;
use sled_store::Pages;
use std::alloc::Global;
use std::io::{BufRead, Write};

// The name that the database is opened under.
const DATABASE: &[u8] = b"sledrun";

// Runs lines up to a crash or the last of them. All that they print is written, and which of them cannot be read.
fn lines<P: Pages, M: MergeOperator, R: BufRead, W: Write>(
    alloc: Global,
    session: &mut Session<P, M>,
    input: &mut R,
    output: &mut W,
    buffers: &mut Buffers,
) -> Result<End, Stopped>
    requires { buffers.old.out.items ≡ [] }
    ensures written { OnOk result (buffers.new.out.items ≡ []) }
    ensures bad { IfOk result (Ends (bad_left buffers.old.number (R.remaining input.old)) (bad_left buffers.new.number (R.remaining input.new)) buffers.new.number) }
    ensures lives { IfOk result (λ end. LivesFrom P.store P.flush_number M.meant session.old (place buffers.old (R.remaining input.old) (W.contents output.old)) end session.new (place buffers.new (R.remaining input.new) (W.contents output.new))) }
{
    let end = run_lines(alloc, session, input, output, buffers)?;
    tell_end(end, output, buffers)?;
    Ok(end)
}

// Prints whether the pages of a session are what a crash left.
fn tell_recovered<P: Pages, M: MergeOperator, W: Write>(
    session: &Session<P, M>,
    output: &mut W,
    out: &mut Vec<u8>,
) -> Result<(), Stopped>
    ensures prints { OnOk result (Prints (W.contents output.old) out.old.items (W.contents output.new) out.new.items (recovered_text (P.store session.now.machine.db.pages).recovered)) }
    ensures written { OnOk result (out.new.items ≡ []) }
{
    if session.db().was_recovered() {
        push_recovered(out)?;
    }
    write(output, out)
}

// Opens the pages, says so if they are what a crash left, and runs lines up to a crash or the last of them: how that ended,
// and the pages.
fn live<R: BufRead, W: Write>(
    alloc: Global,
    pages: MemPages,
    input: &mut R,
    output: &mut W,
    buffers: &mut Buffers,
) -> Result<(End, MemPages), Stopped>
    requires well { IsValid (now (store_of pages)) }
    requires no_group { (now (store_of pages)).in_group ≡ false }
    requires none { buffers.old.out.items ≡ [] }
    ensures whole { IfOk result (λ ended. IsCrashConsistent (store_of ended.1)) }
    ensures bad { IfOk result (λ ended. Ends (bad_left buffers.old.number (R.remaining input.old)) (bad_left buffers.new.number (R.remaining input.new)) buffers.new.number ended.0) }
    ensures lived { IfOk result (λ ended. LivedFrom (store_of pages) (place buffers.old (R.remaining input.old) (W.contents output.old)) ended.0 (store_of ended.1) (place buffers.new (R.remaining input.new) (W.contents output.new))) }
    ensures written { OnOk result (buffers.new.out.items ≡ []) }
{
    let db = match Db::open(alloc, pages, DATABASE) {
        Ok(db) => db.with_operators::<NoOperator>(),
        Err(refused) => {
            drop(refused);
            return Err(Stopped);
        }
    };
    let mut session = match Session::over(alloc, db) {
        Ok(session) => session,
        Err(refused) => {
            drop(refused);
            return Err(Stopped);
        }
    };
    if let Err(stopped) = tell_recovered(&session, output, &mut buffers.out) {
        drop(session.into_db().into_pages());
        return Err(stopped);
    }
    match lines(alloc, &mut session, input, output, buffers) {
        Ok(end) => Ok((end, session.into_db().into_pages())),
        Err(stopped) => {
            drop(session.into_db().into_pages());
            Err(stopped)
        }
    }
}

// Opens pages from crash to crash: whether every line could be read.
fn run_from<R: BufRead, W: Write>(
    alloc: Global,
    input: &mut R,
    output: &mut W,
    buffers: &mut Buffers,
) -> Result<bool, Stopped>
    requires { buffers.old.out.items ≡ [] }
    ensures bad { IfOk result (Ran (bad_left buffers.old.number (R.remaining input.old))) }
    ensures serves { IfOk result (λ read. ServesFrom empty_store (place buffers.old (R.remaining input.old) (W.contents output.old)) read (place buffers.new (R.remaining input.new) (W.contents output.new))) }
    ensures written { OnOk result (buffers.new.out.items ≡ []) }
{
    let mut pages = empty_pages(alloc);
    for _ in 0..u64::MAX {
        let (end, left) = live(alloc, pages, input, output, buffers)?;
        match end {
            End::Crash(keep) => {
                pages = crash_pages(left, keep as usize)?;
            }
            End::NoLine => {
                drop(left);
                return Ok(true);
            }
            End::BadLine => {
                drop(left);
                return Ok(false);
            }
        }
    }
    drop(pages);
    Err(Stopped)
}

// Whether every line could be read.
fn run<R: BufRead, W: Write>(alloc: Global, input: &mut R, output: &mut W) -> Result<bool, Stopped>
    ensures bad { IfOk result (Ran (bad_left 0 (R.remaining input.old))) }
    ensures serves { IfOk result (λ read. IfSome (R.remaining input.old) (λ text. Served text (W.contents output.old) (W.contents output.new) read)) }
{
    let mut buffers = Buffers::new(alloc);
    let read = run_from(alloc, input, output, &mut buffers)?;
    output.flush()?;
    Ok(read)
}

/// Runs the lines of the input, and prints the outcome of each of them. Answers the exit status: 0 at the end, 1 at the first
/// line that cannot be read, after `bad line N`, and 2 if a read or a write failed or there was no memory.
pub fn serve<R: BufRead, W: Write>(alloc: Global, input: &mut R, output: &mut W) -> u8
    ensures status { result ≤ 2 }
    ensures bad { IfSome (bad_left 0 (R.remaining input.old)) (λ bad. IsStatus bad result) }
    ensures serves { IfSome (R.remaining input.old) (λ text. served_as text (W.contents output.old) (W.contents output.new) result) }
{
    match run(alloc, input, output) {
        Ok(true) => 0,
        Ok(false) => 1,
        Err(_) => 2,
    }
}
