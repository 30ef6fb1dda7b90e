//! Lines: how outcomes are printed. Each function adds one line. It is refused with `NoMemory` alone, and a beginning of
//! the line may be there then.
ghost use Rattle.std.specs.Prelude.{◌≡◌, ◌++◌, Some, OnOk, IfErr, codes, decimal};
ghost use Rattle.std.specs.Option.{option_copied};
ghost use Rattle.std.specs.List.{flat_map};
ghost use Rattle.sled_nodes.specs.declared.error.Error.TheVariants.{NoMemory};
ghost use Rattle.line_words.specs.Words.{printed, word_of};
ghost use Rattle.line_words.specs.Print.{end, piece_text, shown_of, shown_of_whole, name_of, number_name_of, conflict_line, subscriber_line, event_line, next_line, reply_line, error_number, refused_line, slot_line, outcome_line, pair_line, end_line, recovered_line, bad_line};

use crate::words::push_word;
use sled_model::{Call, CompareAndSwapError, Event, Next, Outcome, Reply, Whole};
use sled_nodes::{Error, IVec, Result};
use std::io::Write;

/// What the value or the number in a call's reply is.
#[derive(Clone, Copy)]
pub enum Shown {
    /// The value that is there; a number counts what became durable.
    Value,
    /// The value that was there.
    Old,
    /// The number that was given, as an id.
    Number,
}

impl Shown {
    /// What the value in the reply to a call is.
    pub fn of(call: &Call) -> Shown
        ensures { result ≡ shown_of call.now }
    {
        match call {
            Call::Insert(_, _) | Call::Remove(_) => Shown::Old,
            Call::Get(_) | Call::CompareAndSwap(_, _, _) | Call::Merge(_, _) | Call::Scan { .. } =>
                Shown::Value,
        }
    }

    /// What the value or the number in the reply to a whole call is.
    pub fn of_whole(whole: &Whole) -> Shown
        ensures { result ≡ shown_of_whole whole.now }
    {
        match whole {
            Whole::GenerateId => Shown::Number,
            _ => Shown::Value,
        }
    }
}

/// Adds text.
pub fn push_text(out: &mut Vec<u8>, text: &[u8]) -> Result<()>
    ensures ok { OnOk result (out.new.items ≡ out.old.items ++ text.now) }
    ensures err { IfErr result (λ e. e ≡ NoMemory) }
{
    out.extend_from_slice(text)?;
    Ok(())
}

/// Adds a number in decimal.
pub fn push_number(out: &mut Vec<u8>, number: u64) -> Result<()>
    ensures ok { OnOk result (out.new.items ≡ out.old.items ++ decimal number) }
    ensures err { IfErr result (λ e. e ≡ NoMemory) }
{
    match write!(out, "{number}") {
        Ok(()) => Ok(()),
        Err(_) => Err(Error::NoMemory),
    }
}

/// A piece of what is printed.
#[derive(Clone, Copy)]
pub enum Piece<'a> {
    /// Text as it is.
    Text(&'a [u8]),
    /// A number in decimal.
    Number(u64),
    /// The word of a byte string.
    Word(&'a [u8]),
}

// Adds a piece.
fn push_piece(out: &mut Vec<u8>, piece: Piece<'_>) -> Result<()>
    ensures ok { OnOk result (out.new.items ≡ out.old.items ++ piece_text piece.entry) }
    ensures err { IfErr result (λ e. e ≡ NoMemory) }
{
    match piece {
        Piece::Text(text) => push_text(out, text),
        Piece::Number(number) => push_number(out, number),
        Piece::Word(bytes) => push_word(out, bytes),
    }
}

/// Adds pieces, one after the other.
pub fn push_pieces(out: &mut Vec<u8>, pieces: &[Piece<'_>]) -> Result<()>
    ensures ok { OnOk result (out.new.items ≡ out.old.items ++ flat_map piece_text pieces.now) }
    ensures err { IfErr result (λ e. e ≡ NoMemory) }
{
    for piece in pieces {
        push_piece(out, *piece)?;
    }
    Ok(())
}

/// Adds a line that is a name and a number.
pub fn push_numbered(out: &mut Vec<u8>, name: &[u8], number: u64) -> Result<()>
    ensures ok { OnOk result (out.new.items ≡ out.old.items ++ (name.now ++ decimal number ++ end)) }
    ensures err { IfErr result (λ e. e ≡ NoMemory) }
{
    push_text(out, name)?;
    push_number(out, number)?;
    push_text(out, b"\n")
}

// Adds a line that is a name and the word of a byte string. It has a frame of its own, since most lines are of a value or of none.
#[inline(never)]
fn push_named(out: &mut Vec<u8>, name: &[u8], bytes: &[u8]) -> Result<()>
    ensures ok { OnOk result (out.new.items ≡ out.old.items ++ (name.now ++ printed bytes.now ++ end)) }
    ensures err { IfErr result (λ e. e ≡ NoMemory) }
{
    push_text(out, name)?;
    push_word(out, bytes)?;
    push_text(out, b"\n")
}

// Adds a line that is a name and the words of a key and its value. It has a frame of its own for the same reason.
#[inline(never)]
fn push_entry(out: &mut Vec<u8>, name: &[u8], key: &[u8], value: &[u8]) -> Result<()>
    ensures ok { OnOk result (out.new.items ≡ out.old.items ++ (name.now ++ printed key.now ++ codes " " ++ printed value.now ++ end)) }
    ensures err { IfErr result (λ e. e ≡ NoMemory) }
{
    push_text(out, name)?;
    push_word(out, key)?;
    push_named(out, b" ", value)
}

// Adds the word of a byte string, or `-` for none.
fn push_value(out: &mut Vec<u8>, value: Option<&IVec>) -> Result<()>
    ensures ok { OnOk result (out.new.items ≡ out.old.items ++ word_of (option_copied value.entry)) }
    ensures err { IfErr result (λ e. e ≡ NoMemory) }
{
    match value {
        Some(bytes) => push_word(out, bytes.as_ref()),
        None => push_text(out, b"-"),
    }
}

// Adds the line of a value that was not swapped.
fn push_conflict(out: &mut Vec<u8>, conflict: &CompareAndSwapError) -> Result<()>
    ensures ok { OnOk result (out.new.items ≡ out.old.items ++ conflict_line conflict.now) }
    ensures err { IfErr result (λ e. e ≡ NoMemory) }
{
    push_text(out, b"conflict ")?;
    push_value(out, conflict.current.as_ref())?;
    push_text(out, b" ")?;
    push_value(out, conflict.proposed.as_ref())?;
    push_text(out, b"\n")
}

/// Adds the line of a subscriber, by this number for it.
pub fn push_subscriber(out: &mut Vec<u8>, number: u64) -> Result<()>
    ensures ok { OnOk result (out.new.items ≡ out.old.items ++ subscriber_line number) }
    ensures err { IfErr result (λ e. e ≡ NoMemory) }
{
    push_numbered(out, b"subscriber ", number)
}

// Adds the line of an event that was taken.
fn push_event(out: &mut Vec<u8>, event: &Event) -> Result<()>
    ensures ok { OnOk result (out.new.items ≡ out.old.items ++ event_line event.now) }
    ensures err { IfErr result (λ e. e ≡ NoMemory) }
{
    match event {
        Event::Insert { key, value } => push_entry(
            out,
            b"event insert ",
            key.as_ref(),
            value.as_ref(),
        ),
        Event::Remove { key } => push_named(out, b"event remove ", key.as_ref()),
    }
}

// Adds the line of what a subscriber got, or of nothing.
fn push_next(out: &mut Vec<u8>, next: &Option<Next>) -> Result<()>
    ensures ok { OnOk result (out.new.items ≡ out.old.items ++ next_line next.now) }
    ensures err { IfErr result (λ e. e ≡ NoMemory) }
{
    match next {
        None => push_text(out, b"event -\n"),
        Some(Next::Event(event)) => push_event(out, event),
        Some(Next::Missed(count)) => push_numbered(out, b"event missed ", *count),
    }
}

// What a value is called.
fn name_of(shown: Shown) -> &'static [u8]
    ensures { result.now ≡ name_of shown }
{
    match shown {
        Shown::Old => b"old ",
        _ => b"value ",
    }
}

// What a number is called.
fn number_name_of(shown: Shown) -> &'static [u8]
    ensures { result.now ≡ number_name_of shown }
{
    match shown {
        Shown::Number => b"number ",
        _ => b"flushed ",
    }
}

// Adds the line of a value, or of none.
fn push_shown(out: &mut Vec<u8>, shown: Shown, value: &Option<IVec>) -> Result<()>
    ensures ok { OnOk result (out.new.items ≡ out.old.items ++ (name_of shown ++ word_of value.now ++ end)) }
    ensures err { IfErr result (λ e. e ≡ NoMemory) }
{
    push_text(out, name_of(shown))?;
    push_value(out, value.as_ref())?;
    out.push(b'\n')?;
    Ok(())
}

// Adds the line of a reply.
fn push_reply(out: &mut Vec<u8>, shown: Shown, reply: &Reply) -> Result<()>
    ensures ok { OnOk result (out.new.items ≡ out.old.items ++ reply_line shown reply.now) }
    ensures err { IfErr result (λ e. e ≡ NoMemory) }
{
    match reply {
        Reply::Value(value) => push_shown(out, shown, value),
        Reply::Swapped(Ok(())) => push_text(out, b"swapped\n"),
        Reply::Swapped(Err(conflict)) => push_conflict(out, conflict),
        Reply::Number(number) => push_numbered(out, number_name_of(shown), *number),
        Reply::End => push_text(out, b"end\n"),
        Reply::Done => push_text(out, b"done\n"),
        Reply::Pair(Some(pair)) => push_entry(out, b"pair ", pair.0.as_ref(), pair.1.as_ref()),
        Reply::Pair(None) => push_text(out, b"pair -\n"),
        Reply::Tree(tree) => push_named(out, b"tree ", tree.name.as_ref()),
        Reply::Flag(true) => push_text(out, b"yes\n"),
        Reply::Flag(false) => push_text(out, b"no\n"),
        Reply::Subscriber(subscriber) => push_subscriber(out, subscriber.0),
        Reply::Next(next) => push_next(out, next),
    }
}

fn error_number(error: &Error) -> u64
    ensures { result ≡ error_number error.now }
{
    match error {
        Error::CollectionNotFound(_) => 1,
        Error::Unsupported(_) => 2,
        Error::ReportableBug(_) => 3,
        Error::Io(_) => 4,
        Error::Corruption(_) => 5,
        Error::NoMemory => 6,
        Error::Closed => 8,
    }
}

/// Adds the line of a refusal.
pub fn push_refused(out: &mut Vec<u8>, error: &Error) -> Result<()>
    ensures ok { OnOk result (out.new.items ≡ out.old.items ++ refused_line error.now) }
    ensures err { IfErr result (λ e. e ≡ NoMemory) }
{
    push_numbered(out, b"refused E", error_number(error))
}

/// Adds the line of the slot that a call took, by the program's own number for it.
pub fn push_slot(out: &mut Vec<u8>, number: u64) -> Result<()>
    ensures ok { OnOk result (out.new.items ≡ out.old.items ++ slot_line number) }
    ensures err { IfErr result (λ e. e ≡ NoMemory) }
{
    push_numbered(out, b"slot ", number)
}

/// Adds the line of an outcome.
pub fn push_outcome(out: &mut Vec<u8>, shown: Shown, outcome: &Outcome) -> Result<()>
    ensures ok { OnOk result (out.new.items ≡ out.old.items ++ outcome_line shown outcome.now) }
    ensures err { IfErr result (λ e. e ≡ NoMemory) }
{
    match outcome {
        Outcome::Begun(slot) => push_slot(out, slot.0),
        Outcome::Moved => push_text(out, b"moved\n"),
        Outcome::Yielded(key, value) => push_entry(out, b"pair ", key.as_ref(), value.as_ref()),
        Outcome::Decided(reply) => push_reply(out, shown, reply),
        Outcome::Refused(error) => push_refused(out, error),
        Outcome::Abandoned => push_text(out, b"abandoned\n"),
        Outcome::NoSuchSlot => push_text(out, b"no slot\n"),
    }
}

/// Adds the line of a pair of the tree of this name.
pub fn push_pair(out: &mut Vec<u8>, tree: &[u8], key: &[u8], value: &[u8]) -> Result<()>
    ensures ok { OnOk result (out.new.items ≡ out.old.items ++ pair_line tree.now key.now value.now) }
    ensures err { IfErr result (λ e. e ≡ NoMemory) }
{
    push_text(out, b"pair ")?;
    push_word(out, tree)?;
    push_entry(out, b" ", key, value)
}

/// Adds the line at the end of so many pairs.
pub fn push_end(out: &mut Vec<u8>, pairs: u64) -> Result<()>
    ensures ok { OnOk result (out.new.items ≡ out.old.items ++ end_line pairs) }
    ensures err { IfErr result (λ e. e ≡ NoMemory) }
{
    push_numbered(out, b"end ", pairs)
}

/// Adds the line of a crash and what came after it.
pub fn push_recovered(out: &mut Vec<u8>) -> Result<()>
    ensures ok { OnOk result (out.new.items ≡ out.old.items ++ recovered_line) }
    ensures err { IfErr result (λ e. e ≡ NoMemory) }
{
    push_text(out, b"recovered\n")
}

/// Adds the line about the first line that could not be read, by its number from 1.
pub fn push_bad_line(out: &mut Vec<u8>, number: u64) -> Result<()>
    ensures ok { OnOk result (out.new.items ≡ out.old.items ++ bad_line number) }
    ensures err { IfErr result (λ e. e ≡ NoMemory) }
{
    push_numbered(out, b"bad line ", number)
}
