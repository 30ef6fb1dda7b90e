//! Lines that `sledrun` knows too, with the texts of their refusals.

use line_sessions::session::{Act, Session, write_trees};
use line_words::command::Command;
use line_words::input::Stopped;
use line_words::print::Shown;
use shell_words::tell::{Result, Told, tell_refused, tell_shown};
use sled_model::{Call, MergeOperator, Outcome};
use sled_store::Pages;
use std::io::Write;

// Adds the line of an outcome.
fn show(out: &mut Told, told: (Shown, Outcome)) -> Result<()> {
    let (shown, outcome) = told;
    let told = tell_shown(out, shown, &outcome);
    drop(outcome);
    told
}

// Prints all pairs.
fn dump<P: Pages, M: MergeOperator, W: Write>(
    session: &Session<P, M>,
    output: &mut W,
    out: &mut Told,
) -> Result<()> {
    match session.db().export() {
        Ok(trees) => {
            let written = write_trees(output, &mut out.text, trees.as_slice());
            drop(trees);
            written
        }
        Err(error) => tell_refused(out, error),
    }
}

// A call from its begin to its end. No line makes a scan so.
fn point<P: Pages, M: MergeOperator>(
    session: &mut Session<P, M>,
    call: Call,
    out: &mut Told,
) -> Result<()> {
    if !call.is_on_key() {
        drop(call);
        return Err(Stopped);
    }
    show(out, session.point(call))
}

/// Runs a line, and adds how that came out. A crash ends the session, so it is passed over.
pub fn tell_known<P: Pages, M: MergeOperator, W: Write>(
    session: &mut Session<P, M>,
    line: Command,
    output: &mut W,
    out: &mut Told,
) -> Result<()> {
    match line {
        Command::Point(call) => point(session, call, out),
        Command::Begin(call) => {
            let begun = session.begin(call)?;
            show(out, begun)
        }
        Command::Step(number) => show(out, session.act(number, Act::Step)),
        Command::Finish(number) => show(out, session.act(number, Act::Finish)),
        Command::Abandon(number) => show(out, session.act(number, Act::Abandon)),
        Command::Batch(batch) => {
            let applied = session.apply_batch(batch)?;
            show(out, applied)
        }
        Command::Flush => show(out, (Shown::Value, session.flush())),
        Command::Dump => dump(session, output, out),
        Command::OpenTree(name) => session.run(Command::OpenTree(name), output, &mut out.text),
        Command::Crash(_) => Ok(()),
    }
}
