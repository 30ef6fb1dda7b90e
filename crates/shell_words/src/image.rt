//! The pages of an image, as the words of lines spell them.

use crate::tell::{Result, bytes_of};
use crate::words::{NO_BYTES, NO_NUMBER, quote, was_read};
use line_words::input::Stopped;
use line_words::print::push_text;
use line_words::words::{read_number, read_word};
use sled_nodes::{Data, IVec, Index, Leaf, Node, Pid};
use std::alloc::Global;

/// What is made of the pages and roots that were noted.
#[derive(Clone, Copy)]
pub enum Image {
    /// A store with the mark 0.
    Plain,
    /// A store with a mark, which the line has.
    Mark,
    /// A store with the mark 0, in which a group is begun.
    Group,
}

const NO_KIND: &str = "is no kind of page: leaf, index and odd-leaf are";

const NO_STATE: &str = "says nothing of a merge: open and merging do";

const NO_PAGE: &str = "is no page number and not -";

const TOO_FEW: &str =
    "`page` takes PID, leaf, LO HI NEXT, open or merging, and pairs K V; of an index CHILD and pairs K PID";

// What a page has behind its frame: a merging child or none, and then pointers or pairs. A leaf with a merging child is odd: only an index
// may have one.
#[derive(Clone, Copy)]
struct Kind {
    has_child: bool,
    is_index: bool,
}

fn kind_of(word: &[u8]) -> Option<Kind> {
    let is_index = word == b"index".as_slice();
    let has_child = is_index || word == b"odd-leaf".as_slice();
    if has_child || word == b"leaf".as_slice() {
        Some(Kind {
            has_child,
            is_index,
        })
    } else {
        None
    }
}

// What a word of a page means.
#[derive(Clone, Copy)]
enum Place {
    Number,
    PageOrNone,
    State,
    Bytes,
}

// What the word in this place of a page means, and what is said of it if it means nothing. The kind was compared before, and is a byte
// string too.
fn place_of(kind: Kind, at: usize) -> (Place, &'static str) {
    match at {
        0 => (Place::Number, NO_NUMBER),
        4 => (Place::PageOrNone, NO_PAGE),
        5 => (Place::State, NO_STATE),
        6 if kind.has_child => (Place::PageOrNone, NO_PAGE),
        _ if kind.is_index && at > 6 && at % 2 == 0 => (Place::Number, NO_NUMBER),
        _ => (Place::Bytes, NO_BYTES),
    }
}

// Whether a word means this.
fn fits(alloc: Global, place: Place, word: &[u8]) -> sled_nodes::Result<bool> {
    match place {
        Place::Number => Ok(read_number(word).is_some()),
        Place::PageOrNone => Ok(word == b"-".as_slice() || read_number(word).is_some()),
        Place::State => Ok(word == b"open".as_slice() || word == b"merging".as_slice()),
        Place::Bytes => Ok(was_read(read_word(alloc, word)?)),
    }
}

// Adds why words do not mean what a page of this kind has, if one does not.
fn check_words(
    alloc: Global,
    kind: Kind,
    words: &[&[u8]],
    why: &mut Vec<u8>,
) -> sled_nodes::Result<()> {
    for (at, word) in words.iter().enumerate() {
        let (place, said) = place_of(kind, at);
        if !fits(alloc, place, *word)? {
            return quote(why, *word, said);
        }
    }
    Ok(())
}

/// Adds why words spell no page, if they do not.
pub fn check_page(alloc: Global, words: &[&[u8]], why: &mut Vec<u8>) -> sled_nodes::Result<()> {
    let Some(word) = words.get(1) else {
        return push_text(why, TOO_FEW.as_bytes());
    };
    match kind_of(*word) {
        None => quote(why, *word, NO_KIND),
        Some(kind) if words.len() >= 6 && (words.len() % 2 == 1) == kind.has_child => {
            check_words(alloc, kind, words, why)
        }
        Some(_) => push_text(why, TOO_FEW.as_bytes()),
    }
}

// The page of a number, or none.
fn pid_of(word: &[u8]) -> Option<Pid> {
    Some(Pid(read_number(word)?))
}

/// What an entry of a page has at its key.
pub trait Value: Drop {
    /// That which a word spells.
    fn read(alloc: Global, word: &[u8]) -> Result<Self>;
}

impl Value for IVec {
    fn read(alloc: Global, word: &[u8]) -> Result<IVec> {
        bytes_of(alloc, word)
    }
}

impl Value for Pid {
    fn read(_alloc: Global, word: &[u8]) -> Result<Pid> {
        pid_of(word).ok_or(Stopped)
    }
}

/// The entry that two words spell.
pub fn entry_of<V: Value>(alloc: Global, key: &[u8], value: &[u8]) -> Result<(IVec, V)> {
    let key = bytes_of(alloc, key)?;
    match V::read(alloc, value) {
        Ok(value) => Ok((key, value)),
        Err(stopped) => {
            drop(key);
            Err(stopped)
        }
    }
}

// The entries that words spell.
fn entries_of<V: Value>(alloc: Global, words: &[&[u8]]) -> Result<Vec<(IVec, V)>> {
    let mut entries = Vec::new(alloc);
    for entry in words.chunks(2) {
        if let [key, value] = entry {
            entries.push(entry_of(alloc, *key, *value)?)?;
        }
    }
    Ok(entries)
}

// What a leaf holds, or an index, of the words that spell its entries.
fn content_of(alloc: Global, is_index: bool, words: &[&[u8]]) -> Result<Data> {
    if is_index {
        let pointers = entries_of(alloc, words)?;
        let index = Index::from_pairs(alloc, pointers.as_slice());
        drop(pointers);
        return Ok(Data::Index(index?));
    }
    let pairs = entries_of(alloc, words)?;
    let leaf = Leaf::from_pairs(alloc, pairs.as_slice());
    drop(pairs);
    Ok(Data::Leaf(leaf?))
}

// The merging child in front of entries, if there is one, and the entries.
fn child_of<'a, 'b>(words: &'a [&'b [u8]]) -> (Option<Pid>, &'a [&'b [u8]]) {
    match words {
        [child, entries @ ..] if words.len() % 2 == 1 => (pid_of(*child), entries),
        _ => (None, words),
    }
}

/// The page that words spell, which were compared before.
pub fn page_of(alloc: Global, words: &[&[u8]]) -> Result<(Pid, Node)> {
    let [pid, kind, lo, hi, next, state, words @ ..] = words else {
        return Err(Stopped);
    };
    let pid = pid_of(*pid).ok_or(Stopped)?;
    let (merging_child, entries) = child_of(words);
    let content = content_of(alloc, *kind == b"index".as_slice(), entries)?;
    let Ok((lo, hi)) = entry_of(alloc, *lo, *hi) else {
        drop(content);
        return Err(Stopped);
    };
    let node = Node {
        lo,
        hi,
        next: pid_of(*next),
        merging: *state == b"merging".as_slice(),
        merging_child,
        content,
    };
    Ok((pid, node))
}
