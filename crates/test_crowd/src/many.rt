//! Words that make many calls at once, or count what they read.
ghost use Rattle.std.specs.Prelude.{IfOk};
ghost use Rattle.sled_model.specs.State.{IsOnKey};

use crate::counting::Counted;
use line_words::command::{Command, parse};
use line_words::input::Stopped;
use line_words::print::Piece::{Number, Text, Word};
use line_words::print::{Piece, push_pieces};
use shell_words::tell::{Result, Told, answered, tell, tell_outcome, tell_turns, tell_whether};
use sled_batch::Batch;
use sled_model::{Call, Outcome, Reply, Slot, Step, Tree, Whole};
use std::alloc::Global;
use std::sync::atomic::Ordering;

// What the numbers of the keys begin with.
const SEED: u64 = 88172645463325252;

// The next number of a sequence that looks random.
fn mixed(number: u64) -> u64 {
    let number = number ^ (number << 13);
    let number = number ^ (number >> 7);
    number ^ (number << 17)
}

// A call on a key. No line makes a scan at once.
fn on_key(call: Call) -> Result<Call>
    ensures { IfOk result IsOnKey }
{
    if call.is_on_key() {
        return Ok(call);
    }
    drop(call);
    Err(Stopped)
}

// The call on a key that a line asks for.
fn call_of(alloc: Global, line: &[Piece<'_>]) -> Result<Call>
    ensures { IfOk result IsOnKey }
{
    let mut text = Vec::new(alloc);
    answered(push_pieces(&mut text, line))?;
    match parse(alloc, text.as_slice()) {
        Ok(Some(Command::Point(call))) => on_key(call),
        other => {
            drop(other);
            Err(Stopped)
        }
    }
}

// Whether an outcome is the answer with this value.
fn has_value(outcome: &Outcome, wanted: Option<&[u8]>) -> bool {
    match (outcome, wanted) {
        (Outcome::Decided(Reply::Value(Some(value))), Some(wanted)) => value.as_ref() == wanted,
        (Outcome::Decided(Reply::Value(None)), None) => true,
        _ => false,
    }
}

// How many pages the call of a line reads; more than there are if it does not return this value.
fn reads_of(
    alloc: Global,
    session: &mut Counted<'_>,
    line: &[Piece<'_>],
    wanted: Option<&[u8]>,
) -> Result<u64> {
    let reads = session.db().pages().reads;
    let call = call_of(alloc, line)?;
    reads.store(0, Ordering::Relaxed);
    let outcome = session.complete(call);
    let is_wanted = has_value(&outcome, wanted);
    drop(outcome);
    if is_wanted {
        Ok(reads.load(Ordering::Relaxed))
    } else {
        Ok(u64::MAX)
    }
}

// Inserts so many keys, each with itself as its value, and adds whether each insert read `most` pages and all of them read `all`
// at the most.
pub fn load(
    alloc: Global,
    session: &mut Counted<'_>,
    [keys, most, all]: [u64; 3],
    out: &mut Told,
) -> Result<()> {
    let (mut greatest, mut sum, mut number) = (0u64, 0u64, SEED);
    for _ in 0..keys {
        number = mixed(number);
        let key = number.to_be_bytes();
        let insert = [Text(b"insert "), Word(&key), Text(b" "), Word(&key)];
        let pages = reads_of(alloc, session, &insert, None)?;
        greatest = greatest.max(pages);
        sum = sum.saturating_add(pages);
    }
    tell_whether(out, greatest <= most && sum <= all)
}

// Gets the first of those keys, and adds whether each get read so many pages. A get too splits a page that it finds too long, so
// each key is looked for twice, and the second get counts.
pub fn find_all(
    alloc: Global,
    session: &mut Counted<'_>,
    [keys, pages, _]: [u64; 3],
    out: &mut Told,
) -> Result<()> {
    let (mut is_each, mut number) = (true, SEED);
    for _ in 0..keys {
        number = mixed(number);
        let key = number.to_be_bytes();
        let get = [Text(b"get "), Word(&key)];
        let first = reads_of(alloc, session, &get, Some(&key));
        let second = reads_of(alloc, session, &get, Some(&key));
        is_each &= first.and(second)? == pages;
    }
    tell_whether(out, is_each)
}

// So often another insert comes between two steps of a call, the second of which finds another version then. Now and then all is
// flushed. Adds how often the call went on.
pub fn overtake(
    alloc: Global,
    session: &mut Counted<'_>,
    [number, count, _]: [u64; 3],
    out: &mut Told,
) -> Result<()> {
    for round in 0..count {
        let insert = call_of(alloc, &[Text(b"insert a round"), Number(round)])?;
        drop(session.step(number));
        drop(session.complete(insert));
        drop(session.step(number));
        if round % 1000 == 0 {
            drop(session.flush());
        }
    }
    tell_turns(out, session.turns(number))
}

// The step that makes the writes of a batch in a tree.
fn batch_step(alloc: Global, tree: &Tree, batch: Batch) -> Result<Step> {
    let tree = match tree.clone() {
        Ok(tree) => tree,
        Err(error) => {
            drop(error);
            drop(batch);
            return Err(Stopped);
        }
    };
    let mut group = Vec::new(alloc);
    group.push((tree, batch))?;
    Ok(Step::Whole(Whole::Group(group)))
}

// The step of a text; if a call begins, it is on this tree, and so is a batch.
fn step_of(alloc: Global, tree: &Tree, text: &[u8]) -> Result<Option<Step>> {
    match parse(alloc, text) {
        Ok(Some(Command::Begin(call))) => match tree.clone() {
            Ok(tree) => Ok(Some(Step::Begin(tree, call))),
            Err(error) => {
                drop(error);
                drop(call);
                Err(Stopped)
            }
        },
        Ok(Some(Command::Step(number))) => Ok(Some(Step::Step(Slot(number)))),
        Ok(Some(Command::Abandon(number))) => Ok(Some(Step::Abandon(Slot(number)))),
        Ok(Some(Command::Batch(batch))) => batch_step(alloc, tree, batch).map(Some),
        Ok(Some(Command::Flush)) => Ok(Some(Step::Whole(Whole::Flush))),
        Ok(other) => {
            drop(other);
            Ok(None)
        }
        Err(error) => {
            drop(error);
            Err(Stopped)
        }
    }
}

fn is_comma(byte: &u8) -> bool {
    *byte == b','
}

// Notes the steps of a text: whether each of them can be read.
fn read_steps(alloc: Global, tree: &Tree, text: &[u8], steps: &mut Vec<Step>) -> Result<bool> {
    for text in text.split(is_comma) {
        let text = match text {
            [b' ', text @ ..] => text,
            _ => text,
        };
        match step_of(alloc, tree, text)? {
            Some(step) => steps.push(step)?,
            None => return Ok(false),
        }
    }
    Ok(true)
}

// Does steps, and adds how each of them came out.
fn perform(session: &mut Counted<'_>, steps: &[Step], out: &mut Told) -> Result<()> {
    let outcomes = answered(session.perform(steps))?;
    let mut told = Ok(());
    for outcome in outcomes.as_slice() {
        told = told.and(tell_outcome(out, outcome));
    }
    drop(outcomes);
    told
}

/// Does the steps of a text by one call, and adds how each of them came out: whether they can be read.
pub fn run_steps(
    alloc: Global,
    session: &mut Counted<'_>,
    text: &[u8],
    out: &mut Told,
) -> Result<bool> {
    let mut steps = Vec::new(alloc);
    let read = read_steps(alloc, session.tree(), text, &mut steps);
    let done = match read {
        Ok(true) => perform(session, steps.as_slice(), out),
        _ => Ok(()),
    };
    drop(steps);
    done?;
    read
}
