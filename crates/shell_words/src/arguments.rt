//! What a line has behind the words of its command: how many words that takes, and what each of them means.

use crate::how::takes_bytes;
use crate::image::check_page;
use crate::look::read_bound;
use crate::operators::operator_of;
use crate::script::{Reach, check_script};
use crate::words::{NO_BYTES, NO_NUMBER, find, is_semicolon, quote, was_read, words_of};
use line_words::print::Piece::Text;
use line_words::print::{push_pieces, push_text};
use line_words::words::{read_number, read_value, read_word};
use sled_nodes::{IVec, Result, lend_bound};
use std::alloc::Global;
use std::ops::Bound;

const NO_BOUND: &str = "is no bound: [ or ( and a byte string, or ..";

const NO_BRACKET: &str = "is no bound: write [";

const NO_CHANGE: &str = "does not change a value: count, append V, set V, delete and short do";

const NO_OPERATOR: &str = "is no operator: concat, add, max, before, keep, gone and short are";

/// The arguments of a line, those of each kind in their order. The words of a transaction, a group and a page are not among them.
#[derive(Drop)]
pub struct Arguments {
    alloc: Global,
    // Byte strings, and other words as they are; `-` is none, and so is a `;` between two parts.
    values: Vec<Option<IVec>>,
    bounds: Vec<Bound<IVec>>,
    numbers: Vec<u64>,
}

impl Arguments {
    /// No arguments so far.
    pub fn none(alloc: Global) -> Arguments {
        Arguments {
            alloc,
            values: Vec::new(alloc),
            bounds: Vec::new(alloc),
            numbers: Vec::new(alloc),
        }
    }

    /// None, as before each line.
    pub fn clear(&mut self) {
        self.values.clear();
        self.bounds.clear();
        self.numbers.clear();
    }

    /// The byte strings, and the words that stand for themselves, in their order; none for a `-`, and for a `;` between two parts.
    pub fn values(&self) -> &[Option<IVec>] {
        self.values.as_slice()
    }

    /// The numbers, in their order.
    pub fn numbers(&self) -> &[u64] {
        self.numbers.as_slice()
    }

    /// The byte string in this place, or none.
    pub fn value(&self, place: usize) -> Option<&[u8]> {
        value_at(self.values.as_slice(), place)
    }

    /// The same; none becomes the empty string.
    pub fn bytes(&self, place: usize) -> &[u8] {
        self.value(place).unwrap_or(b"")
    }

    /// The bound in this place.
    pub fn bound(&self, place: usize) -> Bound<&[u8]> {
        match self.bounds.get(place) {
            Some(bound) => lend_bound(bound),
            None => Bound::Unbounded,
        }
    }

    /// The first number, or 0 if there is none.
    pub fn number(&self) -> u64 {
        match self.numbers.first() {
            Some(number) => *number,
            None => 0,
        }
    }

    // Takes down a value, if there is one. Else it answers what is said of its word, and nothing if it was read.
    fn take(
        &mut self,
        value: Option<Option<IVec>>,
        otherwise: &'static str,
    ) -> Result<&'static str> {
        let Some(value) = value else {
            return Ok(otherwise);
        };
        self.values.push(value)?;
        Ok("")
    }

    // The same for a word that stands for itself, if it is known.
    fn take_known(
        &mut self,
        word: &[u8],
        is_known: bool,
        otherwise: &'static str,
    ) -> Result<&'static str> {
        if !is_known {
            return Ok(otherwise);
        }
        self.values.push(Some(IVec::from_slice(self.alloc, word)?))?;
        Ok("")
    }

    // The same for a number.
    fn take_number(&mut self, word: &[u8]) -> Result<&'static str> {
        let Some(number) = read_number(word) else {
            return Ok(NO_NUMBER);
        };
        self.numbers.push(number)?;
        Ok("")
    }

    // The same for a bound. If the word is a byte string it follows what is said.
    fn take_bound(&mut self, word: &[u8]) -> Result<&'static str> {
        if let Some(bound) = read_bound(self.alloc, word)? {
            self.bounds.push(bound)?;
            return Ok("");
        }
        if word.starts_with(b"[") || word.starts_with(b"(") {
            return Ok(NO_BOUND);
        }
        Ok(if was_read(read_word(self.alloc, word)?) {
            NO_BRACKET
        } else {
            NO_BOUND
        })
    }

    // Reads a word by what the command takes in its place.
    fn read(&mut self, place: &[u8], word: &[u8]) -> Result<&'static str> {
        match kind_of(place) {
            Kind::Bytes => {
                let bytes = read_word(self.alloc, word)?;
                self.take(bytes.map(Some), NO_BYTES)
            }
            Kind::Value => {
                let value = read_value(self.alloc, word)?;
                self.take(value, NO_BYTES)
            }
            Kind::Bound => self.take_bound(word),
            Kind::Operator => self.take_known(word, operator_of(word).is_some(), NO_OPERATOR),
            Kind::How => self.take_known(word, takes_bytes(word).is_some(), NO_CHANGE),
            Kind::Number => self.take_number(word),
            Kind::Any => self.take_known(word, true, ""),
        }
    }

    // Reads words up to one that is not what the command takes in its place; of it is added why.
    fn read_words(&mut self, takes: Takes<'_>, words: &[&[u8]], why: &mut Vec<u8>) -> Result<()> {
        for (place, word) in words.iter().enumerate() {
            let said = self.read(place_of(takes, place), *word)?;
            if !said.is_empty() {
                quote(why, *word, said)?;
                return if said.ends_with("[") {
                    push_text(why, *word)
                } else {
                    Ok(())
                };
            }
        }
        Ok(())
    }

    // The same for each part of words.
    fn read_parts(&mut self, takes: Takes<'_>, words: &[&[u8]], why: &mut Vec<u8>) -> Result<()> {
        for part in words.split(is_semicolon) {
            if !self.values.is_empty() {
                self.values.push(None)?;
            }
            if why.is_empty() {
                self.read_words(takes, part, why)?;
            }
        }
        Ok(())
    }

    // The same for so many words as the command takes.
    fn read_all(&mut self, takes: Takes<'_>, words: &[&[u8]], why: &mut Vec<u8>) -> Result<()> {
        match takes.tail {
            Tail::Script(reach) => check_script(self.alloc, words, reach, why),
            Tail::Page => check_page(self.alloc, words, why),
            Tail::Parts(_) => self.read_parts(takes, words, why),
            _ => self.read_words(takes, words, why),
        }
    }

    /// Reads a text by what a command takes, which is named by its own words. If it is not that, adds why.
    pub fn read_text(
        &mut self,
        own: &'static str,
        taken: &'static str,
        text: Option<&[u8]>,
        why: &mut Vec<u8>,
    ) -> Result<()> {
        let all = words_of(self.alloc, some_text(taken))?;
        let (tail, said) = tail_of(taken.as_bytes());
        let takes = Takes {
            once: &all.as_slice()[..all.len().saturating_sub(said)],
            tail,
        };
        let words = words_of(self.alloc, text)?;
        if all_fit(takes, words.as_slice()) {
            self.read_all(takes, words.as_slice(), why)
        } else {
            push_count(why, own, taken, takes, words.as_slice())
        }
    }
}

/// The byte string in this place of some, or none.
pub fn value_at(values: &[Option<IVec>], place: usize) -> Option<&[u8]> {
    match values.get(place) {
        Some(Some(value)) => Some(value.as_ref()),
        _ => None,
    }
}

// What any number of words mean behind those that are there once.
#[derive(Clone, Copy)]
enum Tail {
    Nothing,
    // Numbers, of which there is one.
    Numbers,
    // A key and a value in turn; the word is that of the value.
    Pairs(&'static str),
    // The same, and then more of all, behind a `;`.
    Parts(&'static str),
    // What is made of a value, and the bytes that this takes.
    How,
    // Two words at the most.
    Maybe,
    // A transaction, with the words of the list in front if it is of several trees.
    Script(Reach),
    // A page of an image.
    Page,
}

// The tails by how what a command takes ends, and the number of words that say so. A longer one comes before what it ends with.
static TAILS: [(&str, Tail, usize); 10] = [
    ("PID leaf LO HI NEXT open K V ..", Tail::Page, 9),
    ("K V .. ; ..", Tail::Parts("V"), 5),
    ("K NEW .. ; ..", Tail::Parts("NEW"), 5),
    ("K V ..", Tail::Pairs("V"), 3),
    ("K NEW ..", Tail::Pairs("NEW"), 3),
    ("..", Tail::Numbers, 2),
    ("HOW", Tail::How, 1),
    ("TREE .. ; P PART ; .. ; END", Tail::Script(Reach::List), 9),
    ("PART ; .. ; END", Tail::Script(Reach::One), 5),
    ("[WORD]", Tail::Maybe, 1),
];

// Which it is, and the number of words that say it.
fn tail_of(takes: &[u8]) -> (Tail, usize) {
    for (end, tail, said) in TAILS.iter() {
        if takes.ends_with(end.as_bytes()) {
            return (*tail, *said);
        }
    }
    (Tail::Nothing, 0)
}

// The words that a command takes.
#[derive(Clone, Copy)]
struct Takes<'a> {
    once: &'a [&'a [u8]],
    tail: Tail,
}

// Whether a command takes so many words.
fn fits(takes: Takes<'_>, count: usize) -> bool {
    let more = count.checked_sub(takes.once.len());
    match (takes.tail, more) {
        (_, None) => false,
        (Tail::Nothing, Some(more)) => more == 0,
        (Tail::Page, Some(_)) => true,
        (Tail::Numbers | Tail::Script(_), Some(more)) => more > 0,
        (Tail::How, Some(more)) => more == 1 || more == 2,
        (Tail::Maybe, Some(more)) => more <= 2,
        (Tail::Pairs(_) | Tail::Parts(_), Some(more)) => more % 2 == 0,
    }
}

// What the word in this place is.
fn place_of<'a>(takes: Takes<'a>, place: usize) -> &'a [u8] {
    match (takes.once.get(place), takes.tail) {
        (Some(word), _) => *word,
        (None, Tail::Nothing | Tail::Numbers) => b"N",
        (None, Tail::How) if place == takes.once.len() => b"HOW",
        (None, Tail::How) => b"V",
        (None, Tail::Maybe | Tail::Script(_) | Tail::Page) => b"[WORD]",
        (None, Tail::Pairs(_) | Tail::Parts(_)) if (place - takes.once.len()) % 2 == 0 => b"K",
        (None, Tail::Pairs(value) | Tail::Parts(value)) => value.as_bytes(),
    }
}

// How many words a command takes once, and how many more.
fn count_of(takes: Takes<'_>) -> (&'static str, &'static str) {
    let count = match takes.once.len() {
        0 => "no words",
        1 => ", one word",
        2 => ", two words",
        _ => ", three words",
    };
    match takes.tail {
        Tail::Nothing => (count, ""),
        Tail::Numbers | Tail::Script(_) | Tail::Page => (", one word or more", ""),
        Tail::How => (", two words or three", ""),
        Tail::Maybe => (", two words at the most", ""),
        Tail::Pairs(_) if takes.once.is_empty() => (", pairs", ""),
        Tail::Pairs(_) => (count, " and pairs"),
        Tail::Parts(_) => (count, " and pairs in each part"),
    }
}

// What a word of a line means.
#[derive(Clone, Copy)]
enum Kind {
    Bytes,
    // A byte string or none.
    Value,
    Bound,
    Operator,
    How,
    Number,
    Any,
}

static KINDS: [(&str, Kind); 15] = [
    ("K", Kind::Bytes),
    ("V", Kind::Bytes),
    ("P", Kind::Bytes),
    ("DATABASE", Kind::Bytes),
    ("TYPE", Kind::Bytes),
    ("NAME", Kind::Bytes),
    ("FILE", Kind::Bytes),
    ("OLD", Kind::Value),
    ("NEW", Kind::Value),
    ("TREE", Kind::Value),
    ("LO", Kind::Bound),
    ("HI", Kind::Bound),
    ("OPERATOR", Kind::Operator),
    ("HOW", Kind::How),
    ("[WORD]", Kind::Any),
];

// What the word means in this place of a command.
fn kind_of(place: &[u8]) -> Kind {
    find(&KINDS, place).unwrap_or(Kind::Number)
}

// Whether what is made of a value has bytes if it takes some, and has none if not.
fn has_bytes(words: &[&[u8]]) -> bool {
    let takes = match words.get(1) {
        Some(how) => takes_bytes(*how),
        None => None,
    };
    match takes {
        Some(takes) => takes == (words.len() == 3),
        None => true,
    }
}

// Whether a command takes as many words as these are.
fn all_fit(takes: Takes<'_>, words: &[&[u8]]) -> bool {
    if matches!(takes.tail, Tail::How) {
        return fits(takes, words.len()) && has_bytes(words);
    }
    if !matches!(takes.tail, Tail::Parts(_)) {
        return fits(takes, words.len());
    }
    for part in words.split(is_semicolon) {
        if !fits(takes, part.len()) {
            return false;
        }
    }
    true
}

const SPACE: &str = "; a space inside a word is spelled %20";

// Whether more words than a command takes may be a byte string with spaces in it.
fn may_be_spaced(takes: Takes<'_>, count: usize) -> bool {
    let more = count.saturating_sub(takes.once.len());
    let is_too_many = match takes.tail {
        Tail::Nothing => more > 0,
        Tail::How => more > 2,
        Tail::Pairs(_) => more > 2 && more % 2 == 1,
        _ => false,
    };
    is_too_many && has_strings(takes)
}

// Whether a command takes byte strings.
fn has_strings(takes: Takes<'_>) -> bool {
    if let Tail::Pairs(_) = takes.tail {
        return true;
    }
    for word in takes.once {
        if let Kind::Bytes | Kind::Value = kind_of(*word) {
            return true;
        }
    }
    false
}

// Adds how many words a command takes, if there are so many others.
fn push_count(
    why: &mut Vec<u8>,
    own: &'static str,
    taken: &'static str,
    takes: Takes<'_>,
    words: &[&[u8]],
) -> Result<()> {
    let (count, more) = count_of(takes);
    let space = if may_be_spaced(takes, words.len()) {
        SPACE
    } else {
        ""
    };
    push_pieces(
        why,
        &[
            Text(b"`"),
            Text(own.as_bytes()),
            Text(b"` takes "),
            Text(taken.as_bytes()),
            Text(count.as_bytes()),
            Text(more.as_bytes()),
            Text(space.as_bytes()),
        ],
    )
}

// The text, if it is not empty.
fn some_text(text: &'static str) -> Option<&'static [u8]> {
    if text.is_empty() {
        None
    } else {
        Some(text.as_bytes())
    }
}
