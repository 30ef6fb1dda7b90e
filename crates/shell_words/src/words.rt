//! The words of a line, and what is said of one that cannot be read.

use line_words::print::push_text;
use line_words::words::{first_word, push_escape};
use sled_nodes::Result;
use std::alloc::Global;

/// What is said of a word that is no number.
pub const NO_NUMBER: &str = "is no number: decimal digits without leading zeros";

/// What is said of a word that is no byte string.
pub const NO_BYTES: &str =
    "is no byte string: `!` to `~` but for `%` stand for themselves, any other byte and a `-` alone as % and two lower-case hexadecimal digits";

/// What a name means by a table.
pub fn find<T: Copy>(table: &[(&str, T)], name: &[u8]) -> Option<T> {
    for (own, meant) in table {
        if own.as_bytes() == name {
            return Some(*meant);
        }
    }
    None
}

/// Whether a word could be read as what it was taken for, which is dropped.
pub fn was_read<T: Drop>(read: Option<T>) -> bool {
    let is = read.is_some();
    drop(read);
    is
}

/// The words of a text; none if there is no text.
pub fn words_of<'a>(alloc: Global, text: Option<&'a [u8]>) -> Result<Vec<&'a [u8]>> {
    let mut words = Vec::new(alloc);
    let mut rest = text;
    for _ in 0..u64::MAX {
        let Some(text) = rest else {
            break;
        };
        let (word, others) = first_word(text);
        words.push(word)?;
        rest = others;
    }
    Ok(words)
}

/// Whether a word is between two parts of a line.
pub fn is_semicolon(word: &&[u8]) -> bool {
    *word == b";".as_slice()
}

/// Adds words as they were typed; but a byte that a terminal does not show is spelled, as % and two digits.
pub fn push_typed(why: &mut Vec<u8>, words: &[u8]) -> Result<()> {
    for byte in words {
        if *byte == b' ' || byte.is_ascii_graphic() {
            why.push(*byte)?;
        } else {
            push_escape(why, *byte)?;
        }
    }
    Ok(())
}

/// Adds words in quotes, and what is said of them.
pub fn quote(why: &mut Vec<u8>, words: &[u8], said: &str) -> Result<()> {
    push_text(why, b"`")?;
    push_typed(why, words)?;
    push_text(why, b"` ")?;
    push_text(why, said.as_bytes())
}
