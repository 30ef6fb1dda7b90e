//! What a transaction does, as the words of a line spell it: parts, a `;` behind each of them, and then how it ends.

use crate::names::check_names;
use crate::words::{NO_BYTES, NO_NUMBER, find, is_semicolon, quote};
use line_words::print::push_text;
use line_words::words::{read_number, read_word};
use sled_batch::Batch;
use sled_nodes::{Error, IVec, Result};
use std::alloc::{AllocFailed, Global};

const NO_PART: &str = "is no part of a transaction: insert, get, remove, batch, flush and id are";

const MISSING_PART: &[u8] = b"a part is missing before a `;`";

const NO_END: &str = "does not end a transaction: commit, abort, conflict and conflict-below do";

const MISSING_END: &[u8] =
    b"the transaction has no end: commit, abort, conflict or conflict-below N";

const NO_POSITION: &str =
    "is no position: decimal digits without leading zeros; flush and id alone have none";

const NEEDS_NO_POSITION: &str = "takes no position";

/// Which trees a transaction is of.
#[derive(Clone, Copy)]
pub enum Reach {
    /// The current tree.
    One,
    /// Those of a list, which is in front. A part has the position of its tree in front.
    List,
}

// What a part may do.
#[derive(Clone, Copy)]
enum Verb {
    Get,
    Insert,
    Remove,
    Batch,
    Flush,
    Id,
}

const VERBS: [(&str, Verb); 6] = [
    ("get", Verb::Get),
    ("insert", Verb::Insert),
    ("remove", Verb::Remove),
    ("batch", Verb::Batch),
    ("flush", Verb::Flush),
    ("id", Verb::Id),
];

impl Verb {
    // What is said of it if it is before other words than it takes.
    fn takes(self) -> &'static str {
        match self {
            Verb::Get | Verb::Remove => "takes K, one word",
            Verb::Insert => "takes K V, two words",
            Verb::Batch => "takes K NEW .., pairs",
            Verb::Flush | Verb::Id => "takes no words",
        }
    }
}

/// What a part does.
#[derive(Drop)]
pub enum Act {
    Get(IVec),
    Insert(IVec, IVec),
    Remove(IVec),
    Batch(Batch),
    /// It asks for a flush.
    Flush,
    /// It takes an id.
    Id,
}

/// A part: what it does, and the position of the tree on which it does that. If there is no position it is 0.
#[derive(Drop)]
pub struct Part {
    pub position: usize,
    pub act: Act,
}

/// How an attempt ends that did all parts.
#[derive(Clone, Copy)]
pub enum End {
    Commit,
    Abort,
    Conflict,
    /// A conflict if the id that was taken last, or 0 if none was, is below this.
    ConflictBelow(u64),
}

// The number of the last one follows its word.
const ENDS: [(&str, End); 4] = [
    ("commit", End::Commit),
    ("abort", End::Abort),
    ("conflict", End::Conflict),
    ("conflict-below", End::ConflictBelow(0)),
];

/// What a transaction does.
#[derive(Drop)]
pub struct Script {
    pub parts: Vec<Part>,
    pub end: End,
}

/// Why words spell no transaction.
#[derive(Clone, Copy)]
pub enum Misfit<'a> {
    NoMemory,
    /// What is said of a word.
    Word(&'a [u8], &'static str),
    /// What is said if words are missing.
    Missing(&'static [u8]),
}

/// What words spell.
pub type Spelled<'a, T> = std::result::Result<T, Misfit<'a>>;

impl From<Error> for Misfit<'_> {
    fn from(error: Error) -> Self {
        drop(error);
        Misfit::NoMemory
    }
}

impl From<AllocFailed<Part>> for Misfit<'_> {
    fn from(failed: AllocFailed<Part>) -> Self {
        drop(failed);
        Misfit::NoMemory
    }
}

// What a part of this name does.
fn verb_of<'a>(name: &'a [u8]) -> Spelled<'a, Verb> {
    find(&VERBS, name).ok_or(Misfit::Word(name, NO_PART))
}

// Whether a part of this name is on no tree of its own.
fn is_on_none(name: &[u8]) -> bool {
    matches!(verb_of(name), Ok(Verb::Flush | Verb::Id))
}

// The byte string that a word is.
fn read_bytes<'a>(alloc: Global, word: &'a [u8]) -> Spelled<'a, IVec> {
    match read_word(alloc, word)? {
        Some(bytes) => Ok(bytes),
        None => Err(Misfit::Word(word, NO_BYTES)),
    }
}

// The insert of two words.
fn insert_of<'a>(alloc: Global, key: &'a [u8], value: &'a [u8]) -> Spelled<'a, Act> {
    let key = read_bytes(alloc, key)?;
    match read_bytes(alloc, value) {
        Ok(value) => Ok(Act::Insert(key, value)),
        Err(misfit) => {
            drop(key);
            Err(misfit)
        }
    }
}

// Adds the write of a key to a batch, by the word of its value, or of none.
fn write<'a>(alloc: Global, batch: &mut Batch, key: &[u8], value: &'a [u8]) -> Spelled<'a, ()> {
    let written = if value == b"-".as_slice() {
        batch.remove(alloc, key)
    } else {
        let value = read_bytes(alloc, value)?;
        let written = batch.insert(alloc, key, value.as_ref());
        drop(value);
        written
    };
    Ok(written?)
}

// Adds the write of two words to a batch.
fn add_write<'a>(
    alloc: Global,
    batch: &mut Batch,
    key: &'a [u8],
    value: &'a [u8],
) -> Spelled<'a, ()> {
    let key = read_bytes(alloc, key)?;
    let written = write(alloc, batch, key.as_ref(), value);
    drop(key);
    written
}

// Adds the writes of words, keys and values in turn, to a batch.
fn add_writes<'a>(alloc: Global, batch: &mut Batch, words: &'a [&'a [u8]]) -> Spelled<'a, ()> {
    let (pairs, _) = words.as_chunks::<2>();
    for [key, value] in pairs {
        add_write(alloc, batch, *key, *value)?;
    }
    Ok(())
}

// The batch of keys and values in turn.
fn batch_of<'a>(alloc: Global, words: &'a [&'a [u8]]) -> Spelled<'a, Act> {
    let mut batch = Batch::default(alloc);
    match add_writes(alloc, &mut batch, words) {
        Ok(()) => Ok(Act::Batch(batch)),
        Err(misfit) => {
            drop(batch);
            Err(misfit)
        }
    }
}

// What a part of this name does by the words behind it.
fn act_by<'a>(
    alloc: Global,
    verb: Verb,
    name: &'a [u8],
    words: &'a [&'a [u8]],
) -> Spelled<'a, Act> {
    match (verb, words) {
        (Verb::Get, [key]) => read_bytes(alloc, *key).map(Act::Get),
        (Verb::Remove, [key]) => read_bytes(alloc, *key).map(Act::Remove),
        (Verb::Insert, [key, value]) => insert_of(alloc, *key, *value),
        (Verb::Batch, _) if words.len() % 2 == 0 => batch_of(alloc, words),
        (Verb::Flush, []) => Ok(Act::Flush),
        (Verb::Id, []) => Ok(Act::Id),
        _ => Err(Misfit::Word(name, verb.takes())),
    }
}

// What words say that a part does.
fn act_of<'a>(alloc: Global, words: &'a [&'a [u8]]) -> Spelled<'a, Act> {
    match words {
        [name, words @ ..] => act_by(alloc, verb_of(*name)?, *name, words),
        [] => Err(Misfit::Missing(MISSING_PART)),
    }
}

// The position that is before the words of a part.
fn position_of<'a>(position: &'a [u8], words: &'a [&'a [u8]]) -> Spelled<'a, usize> {
    let Some(number) = read_number(position) else {
        return Err(Misfit::Word(position, NO_POSITION));
    };
    match words {
        [name, ..] if is_on_none(*name) => Err(Misfit::Word(*name, NEEDS_NO_POSITION)),
        _ => Ok(usize::try_from(number).unwrap_or(usize::MAX)),
    }
}

// The part that words spell.
fn part_of<'a>(alloc: Global, words: &'a [&'a [u8]], reach: Reach) -> Spelled<'a, Part> {
    let (position, words) = match (reach, words) {
        (Reach::List, [first, words @ ..]) if !is_on_none(*first) => {
            (position_of(*first, words)?, words)
        }
        _ => (0, words),
    };
    Ok(Part {
        position,
        act: act_of(alloc, words)?,
    })
}

// The end that words spell.
fn end_of<'a>(words: &'a [&'a [u8]]) -> Spelled<'a, End> {
    let [name, words @ ..] = words else {
        return Err(Misfit::Missing(MISSING_END));
    };
    let Some(end) = find(&ENDS, *name) else {
        return Err(Misfit::Word(*name, NO_END));
    };
    match (end, words) {
        (End::ConflictBelow(_), [word]) => match read_number(*word) {
            Some(number) => Ok(End::ConflictBelow(number)),
            None => Err(Misfit::Word(*word, NO_NUMBER)),
        },
        (End::ConflictBelow(_), _) => Err(Misfit::Word(*name, "takes N, one word")),
        (end, []) => Ok(end),
        _ => Err(Misfit::Word(*name, "takes no words")),
    }
}

/// Words up to the first `;`, and those behind it.
pub fn cut_first<'a, 'b>(words: &'a [&'b [u8]]) -> (&'a [&'b [u8]], &'a [&'b [u8]]) {
    for (place, word) in words.iter().enumerate() {
        if is_semicolon(word) {
            return (&words[..place], &words[place + 1..]);
        }
    }
    (words, &words[words.len()..])
}

// Adds the parts that words spell, and answers how they end.
fn add_parts<'a>(
    alloc: Global,
    parts: &mut Vec<Part>,
    words: &'a [&'a [u8]],
    reach: Reach,
) -> Spelled<'a, End> {
    let mut pieces = words.split(is_semicolon);
    let last = pieces.next_back();
    for words in pieces {
        parts.push(part_of(alloc, words, reach)?)?;
    }
    end_of(last.unwrap_or(&[]))
}

/// What words say that a transaction does.
pub fn read_script<'a>(alloc: Global, words: &'a [&'a [u8]], reach: Reach) -> Spelled<'a, Script> {
    let mut parts = Vec::new(alloc);
    match add_parts(alloc, &mut parts, words, reach) {
        Ok(end) => Ok(Script { parts, end }),
        Err(misfit) => {
            drop(parts);
            Err(misfit)
        }
    }
}

// Adds why words spell no script, if they do not.
fn check_parts(alloc: Global, words: &[&[u8]], reach: Reach, why: &mut Vec<u8>) -> Result<()> {
    match read_script(alloc, words, reach) {
        Ok(script) => {
            drop(script);
            Ok(())
        }
        Err(Misfit::NoMemory) => Err(Error::NoMemory),
        Err(Misfit::Word(word, said)) => quote(why, word, said),
        Err(Misfit::Missing(said)) => push_text(why, said),
    }
}

/// Adds why words spell no transaction, if they do not.
pub fn check_script(alloc: Global, words: &[&[u8]], reach: Reach, why: &mut Vec<u8>) -> Result<()> {
    if let Reach::One = reach {
        return check_parts(alloc, words, reach, why);
    }
    let (names, words) = cut_first(words);
    check_names(alloc, names, why)?;
    if !why.is_empty() {
        return Ok(());
    }
    check_parts(alloc, words, reach, why)
}
