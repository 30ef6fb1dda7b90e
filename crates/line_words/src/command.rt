//! Commands: what a line asks for.
ghost use Rattle.std.specs.Prelude.{◌≡◌, Some, IfOk, IfErr, option_map};
ghost use Rattle.std.specs.Option.{option_and_then};
ghost use Rattle.sled_nodes.specs.declared.error.Error.TheVariants.{NoMemory};
ghost use Rattle.sled_model.specs.declared.call.Call.TheVariants as call;
ghost use Rattle.line_words.specs.declared.command.Command.TheVariants.{OpenTree};
ghost use Rattle.line_words.specs.Words.{words_after, read_number};
ghost use Rattle.line_words.specs.Command.{call_name_of, flight_name_of, other_name_of, name_of, one_of, two_of, three_of, insert_of, keyed, swap_of, call_of, call_of_words, at_once, in_slot, alone, command_from, command_of};

use crate::batch::read_batch;
use crate::words::{first_word, read_number, read_value, read_word};
use sled_batch::Batch;
use sled_model::Call;
use sled_nodes::{IVec, Result};
use std::alloc::Global;

/// What a line asks for.
#[derive(Drop)]
pub enum Command {
    /// A call on a key of the current tree, begun and finished at once.
    Point(Call),
    /// A call on the current tree, begun in a slot.
    Begin(Call),
    /// One step of the call of this number.
    Step(u64),
    /// Steps of the call of this number to its end, or of a scan to its next pair.
    Finish(u64),
    /// The end of the call of this number.
    Abandon(u64),
    /// Writes on the current tree, made together.
    Batch(Batch),
    /// Makes all durable.
    Flush,
    /// A crash that keeps this many actions since the last flush.
    Crash(u64),
    /// All pairs.
    Dump,
    /// The tree of a name becomes the current one. It is made if there is none.
    OpenTree(IVec),
}

// The first word of a command.
#[derive(Clone, Copy)]
enum Name {
    Insert,
    Get,
    Remove,
    Cas,
    Begin,
    Step,
    Finish,
    Abandon,
    Batch,
    Flush,
    Crash,
    Dump,
    Tree,
}

fn call_name_of(word: &[u8]) -> Option<Name>
    ensures { result ≡ call_name_of word.now }
{
    if word == b"insert".as_slice() {
        Some(Name::Insert)
    } else if word == b"get".as_slice() {
        Some(Name::Get)
    } else if word == b"remove".as_slice() {
        Some(Name::Remove)
    } else if word == b"cas".as_slice() {
        Some(Name::Cas)
    } else {
        None
    }
}

fn flight_name_of(word: &[u8]) -> Option<Name>
    ensures { result ≡ flight_name_of word.now }
{
    if word == b"begin".as_slice() {
        Some(Name::Begin)
    } else if word == b"step".as_slice() {
        Some(Name::Step)
    } else if word == b"finish".as_slice() {
        Some(Name::Finish)
    } else if word == b"abandon".as_slice() {
        Some(Name::Abandon)
    } else {
        None
    }
}

fn other_name_of(word: &[u8]) -> Option<Name>
    ensures { result ≡ other_name_of word.now }
{
    if word == b"batch".as_slice() {
        Some(Name::Batch)
    } else if word == b"flush".as_slice() {
        Some(Name::Flush)
    } else if word == b"crash".as_slice() {
        Some(Name::Crash)
    } else if word == b"dump".as_slice() {
        Some(Name::Dump)
    } else if word == b"tree".as_slice() {
        Some(Name::Tree)
    } else {
        None
    }
}

fn name_of(word: &[u8]) -> Option<Name>
    ensures { result ≡ name_of word.now }
{
    match call_name_of(word) {
        Some(name) => Some(name),
        None => match flight_name_of(word) {
            Some(name) => Some(name),
            None => other_name_of(word),
        },
    }
}

// The only word of the arguments.
fn one_of(arguments: Option<&[u8]>) -> Option<&[u8]>
    ensures { option_map (λ word. word.now) result ≡ one_of (words_after arguments.entry) }
{
    let Some(arguments) = arguments else {
        return None;
    };
    match first_word(arguments) {
        (word, None) => Some(word),
        (_, Some(_)) => None,
    }
}

// The two words of the arguments.
fn two_of(arguments: Option<&[u8]>) -> Option<(&[u8], &[u8])>
    ensures { option_map (λ words. (words.0.now, words.1.now)) result ≡ two_of (words_after arguments.entry) }
{
    let Some(arguments) = arguments else {
        return None;
    };
    let (first, rest) = first_word(arguments);
    match one_of(rest) {
        Some(second) => Some((first, second)),
        None => None,
    }
}

// The three words of the arguments.
fn three_of(arguments: Option<&[u8]>) -> Option<(&[u8], &[u8], &[u8])>
    ensures { option_map (λ words. (words.0.now, words.1.now, words.2.now)) result ≡ three_of (words_after arguments.entry) }
{
    let Some(arguments) = arguments else {
        return None;
    };
    let (first, rest) = first_word(arguments);
    match two_of(rest) {
        Some((second, third)) => Some((first, second, third)),
        None => None,
    }
}

// The insert of a key and a value.
fn insert_of(alloc: Global, arguments: Option<&[u8]>) -> Result<Option<Call>>
    ensures ok { IfOk result (λ call. call ≡ insert_of (two_of (words_after arguments.entry))) }
    ensures err { IfErr result (λ e. e ≡ NoMemory) }
{
    let Some((key, value)) = two_of(arguments) else {
        return Ok(None);
    };
    let Some(key) = read_word(alloc, key)? else {
        return Ok(None);
    };
    let Some(value) = read_word(alloc, value)? else {
        return Ok(None);
    };
    Ok(Some(Call::Insert(key, value)))
}

// The get of a key.
fn get_of(alloc: Global, arguments: Option<&[u8]>) -> Result<Option<Call>>
    ensures ok { IfOk result (λ made. made ≡ keyed (λ key. call.Get key) (one_of (words_after arguments.entry))) }
    ensures err { IfErr result (λ e. e ≡ NoMemory) }
{
    let Some(key) = one_of(arguments) else {
        return Ok(None);
    };
    let Some(key) = read_word(alloc, key)? else {
        return Ok(None);
    };
    Ok(Some(Call::Get(key)))
}

// The removal of a key.
fn remove_of(alloc: Global, arguments: Option<&[u8]>) -> Result<Option<Call>>
    ensures ok { IfOk result (λ made. made ≡ keyed (λ key. call.Remove key) (one_of (words_after arguments.entry))) }
    ensures err { IfErr result (λ e. e ≡ NoMemory) }
{
    let Some(key) = one_of(arguments) else {
        return Ok(None);
    };
    let Some(key) = read_word(alloc, key)? else {
        return Ok(None);
    };
    Ok(Some(Call::Remove(key)))
}

// The swap at a key of a value, or none, for another, or none.
fn swap_of(alloc: Global, arguments: Option<&[u8]>) -> Result<Option<Call>>
    ensures ok { IfOk result (λ call. call ≡ swap_of (three_of (words_after arguments.entry))) }
    ensures err { IfErr result (λ e. e ≡ NoMemory) }
{
    let Some((key, old, new)) = three_of(arguments) else {
        return Ok(None);
    };
    let Some(key) = read_word(alloc, key)? else {
        return Ok(None);
    };
    let old = match read_value(alloc, old) {
        Ok(Some(old)) => old,
        other => {
            drop(key);
            return other.map(|_| None);
        }
    };
    match read_value(alloc, new) {
        Ok(Some(new)) => Ok(Some(Call::CompareAndSwap(key, old, new))),
        other => {
            drop(key);
            drop(old);
            other.map(|_| None)
        }
    }
}

// The call of a name and its arguments.
fn call_of(alloc: Global, name: Option<Name>, arguments: Option<&[u8]>) -> Result<Option<Call>>
    ensures ok { IfOk result (λ call. call ≡ call_of name (words_after arguments.entry)) }
    ensures err { IfErr result (λ e. e ≡ NoMemory) }
{
    match name {
        Some(Name::Insert) => insert_of(alloc, arguments),
        Some(Name::Get) => get_of(alloc, arguments),
        Some(Name::Remove) => remove_of(alloc, arguments),
        Some(Name::Cas) => swap_of(alloc, arguments),
        _ => Ok(None),
    }
}

// The command that begins the call of some words.
fn begin_of(alloc: Global, words: Option<&[u8]>) -> Result<Option<Command>>
    ensures ok { IfOk result (λ command. command ≡ in_slot (call_of_words (words_after words.entry))) }
    ensures err { IfErr result (λ e. e ≡ NoMemory) }
{
    let Some(words) = words else {
        return Ok(None);
    };
    let (name, arguments) = first_word(words);
    Ok(call_of(alloc, name_of(name), arguments)?.map(Command::Begin))
}

// The command that opens the tree of a name.
fn tree_of(alloc: Global, arguments: Option<&[u8]>) -> Result<Option<Command>>
    ensures ok { IfOk result (λ command. command ≡ keyed (λ name. OpenTree name) (one_of (words_after arguments.entry))) }
    ensures err { IfErr result (λ e. e ≡ NoMemory) }
{
    let Some(name) = one_of(arguments) else {
        return Ok(None);
    };
    let Some(name) = read_word(alloc, name)? else {
        return Ok(None);
    };
    Ok(Some(Command::OpenTree(name)))
}

// The number that is the only argument.
fn number_of(arguments: Option<&[u8]>) -> Option<u64>
    ensures { result ≡ option_and_then read_number (one_of (words_after arguments.entry)) }
{
    match one_of(arguments) {
        Some(word) => read_number(word),
        None => None,
    }
}

// A command, if it has no arguments.
fn alone(command: Command, arguments: Option<&[u8]>) -> Option<Command>
    ensures { result ≡ alone command (words_after arguments.entry) }
{
    match arguments {
        None => Some(command),
        Some(_) => {
            drop(command);
            None
        }
    }
}

// The command that asks for a call at once.
fn point_of(alloc: Global, name: Name, arguments: Option<&[u8]>) -> Result<Option<Command>>
    ensures ok { IfOk result (λ command. command ≡ at_once (call_of (Some name) (words_after arguments.entry))) }
    ensures err { IfErr result (λ e. e ≡ NoMemory) }
{
    match call_of(alloc, Some(name), arguments) {
        Ok(Some(call)) => Ok(Some(Command::Point(call))),
        Ok(None) => Ok(None),
        Err(e) => Err(e),
    }
}

// The command of a name and its arguments. It has a frame of its own, since most lines ask for a call at once.
#[inline(never)]
fn command_from(alloc: Global, name: Name, arguments: Option<&[u8]>) -> Result<Option<Command>>
    ensures ok { IfOk result (λ command. command ≡ command_from (Some name) (words_after arguments.entry)) }
    ensures err { IfErr result (λ e. e ≡ NoMemory) }
{
    match name {
        Name::Insert | Name::Get | Name::Remove | Name::Cas => point_of(alloc, name, arguments),
        Name::Begin => begin_of(alloc, arguments),
        Name::Step => Ok(number_of(arguments).map(Command::Step)),
        Name::Finish => Ok(number_of(arguments).map(Command::Finish)),
        Name::Abandon => Ok(number_of(arguments).map(Command::Abandon)),
        Name::Batch => Ok(read_batch(alloc, arguments)?.map(Command::Batch)),
        Name::Flush => Ok(alone(Command::Flush, arguments)),
        Name::Crash => Ok(number_of(arguments).map(Command::Crash)),
        Name::Dump => Ok(alone(Command::Dump, arguments)),
        Name::Tree => tree_of(alloc, arguments),
    }
}

/// The command of a line, or `None` for a line that is none. Refused with `NoMemory` alone.
pub fn parse(alloc: Global, line: &[u8]) -> Result<Option<Command>>
    ensures ok { IfOk result (λ command. command ≡ command_of line.now) }
    ensures err { IfErr result (λ e. e ≡ NoMemory) }
{
    let (name, arguments) = first_word(line);
    let Some(name) = name_of(name) else {
        return Ok(None);
    };
    match name {
        Name::Insert | Name::Get | Name::Remove | Name::Cas => point_of(alloc, name, arguments),
        _ => command_from(alloc, name, arguments),
    }
}
