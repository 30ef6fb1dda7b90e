//! Lines that change pairs one after the other and are no group, made in parts: so there is a moment after each part.

use line_words::print::Piece::Text;
use line_words::print::{push_pieces, push_text};
use line_words::words::first_word;
use sled_nodes::Result;

/// A part of a line: a pair that is taken out, a tree that an import opens, or a pair that it puts in.
#[derive(Clone, Copy)]
pub struct Part<'a> {
    // The word that its line begins with.
    word: &'a [u8],
    // What names the tree of an import; empty if a pair is taken out.
    tree: &'a [u8],
    // The pair that is put in; else empty.
    pair: &'a [u8],
    // The words behind.
    rest: Option<&'a [u8]>,
}

impl<'a> Part<'a> {
    // The part that opens the tree that words begin with.
    fn opening(word: &'a [u8], words: &'a [u8]) -> Part<'a> {
        let (tree, rest) = first_words(words, names_of(word));
        Part {
            word,
            tree,
            pair: b"",
            rest,
        }
    }

    /// The first part of a line; `None` if it is made as a whole.
    pub fn first(line: &'a [u8]) -> Option<Part<'a>> {
        if line == b"clear".as_slice() {
            return Some(Part::opening(b"pop-min", b""));
        }
        if line == b"owned clear".as_slice() {
            return Some(Part::opening(b"owned pop-min", b""));
        }
        let (word, words) = first_word(line);
        let words = words?;
        if names_of(word) > 0 && (!is_of_parts(word) || are_trees(words)) {
            Some(Part::opening(word, words))
        } else {
            None
        }
    }

    /// The part behind this one, if there is one. Behind a pair that was taken out there may be another one.
    pub fn next(&self) -> Option<Part<'a>> {
        if self.tree.is_empty() {
            return Some(*self);
        }
        let words = self.rest?;
        match words.strip_prefix(b"; ") {
            Some(others) if is_of_parts(self.word) => Some(Part::opening(self.word, others)),
            _ => {
                let (pair, rest) = first_words(words, 2);
                Some(Part {
                    pair,
                    rest,
                    ..*self
                })
            }
        }
    }

    /// Adds the line that makes this part alone.
    pub fn push(&self, out: &mut Vec<u8>) -> Result<()> {
        if self.tree.is_empty() {
            return push_text(out, self.word);
        }
        let space: &[u8] = if self.pair.is_empty() { b"" } else { b" " };
        push_pieces(
            out,
            &[
                Text(self.word),
                Text(b" "),
                Text(self.tree),
                Text(space),
                Text(self.pair),
            ],
        )
    }
}

// How many words name the tree of an import; none if the word is no import.
fn names_of(word: &[u8]) -> usize {
    if word == b"import".as_slice() {
        1
    } else if word == b"import-type".as_slice() || is_of_parts(word) {
        2
    } else {
        0
    }
}

// Whether an import has parts, each with a tree.
fn is_of_parts(word: &[u8]) -> bool {
    word == b"import-all".as_slice()
}

// So many words that a text begins with, and what is behind them, if there is something.
fn first_words(text: &[u8], count: usize) -> (&[u8], Option<&[u8]>) {
    let mut left = count;
    for (at, byte) in text.iter().enumerate() {
        if *byte != b' ' {
            continue;
        }
        left = left.saturating_sub(1);
        if left == 0 {
            return (&text[..at], Some(&text[at + 1..]));
        }
    }
    (text, None)
}

// Whether each part is of the type `tree`, written so. An import tests that first, and does nothing else if one is not.
fn are_trees(words: &[u8]) -> bool {
    let mut begins = true;
    for word in words.split(|byte| *byte == b' ') {
        if begins && word != b"tree".as_slice() {
            return false;
        }
        begins = word == b";".as_slice();
    }
    true
}
