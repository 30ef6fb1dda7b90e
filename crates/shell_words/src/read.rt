//! What a line asks for, or why it asks for nothing.

use crate::arguments::Arguments;
use crate::table::{Misfit, Verb, find, meant_by};
use crate::words::{push_typed, quote};
use line_words::print::push_text;
use line_words::words::first_word;
use sled_nodes::Result;

const SPACED: &str =
    "no space stands before the first word or behind the last, and one between two words";

fn is_space(byte: &u8) -> bool {
    *byte == b' '
}

// Whether a line begins with a word, and each space of it is between two.
fn is_spaced(line: &[u8]) -> bool {
    for word in line.split(is_space) {
        if word.is_empty() {
            return false;
        }
    }
    true
}

// Adds that a word is no command, and which one it may have been meant to be.
fn push_no_command(why: &mut Vec<u8>, name: &[u8]) -> Result<()> {
    quote(why, name, "is no command; ")?;
    if let Some(near) = meant_by(name) {
        push_text(why, b"did you mean `")?;
        push_text(why, near)?;
        push_text(why, b"`? ")?;
    }
    push_text(why, b"`help` lists them")
}

// Adds why a line has the words of no command.
fn push_misfit<'a>(why: &mut Vec<u8>, line: &'a [u8], misfit: Misfit<'a>) -> Result<()> {
    let name = first_word(line).0;
    match misfit {
        Misfit::Name => push_no_command(why, name),
        Misfit::Short => quote(why, line, "takes a word more; `help` lists which"),
        Misfit::Other(word) => {
            quote(why, word, "does not follow `")?;
            push_typed(why, name)?;
            push_text(why, b"`; `help` lists what does")
        }
    }
}

/// What a line asks for, with its arguments; `None` if it cannot be read, and then the reason is added.
pub fn read(line: &[u8], arguments: &mut Arguments, why: &mut Vec<u8>) -> Result<Option<Verb>> {
    if !is_spaced(line) {
        push_text(why, SPACED.as_bytes())?;
        return Ok(None);
    }
    match find(line) {
        Ok(found) => {
            arguments.read_text(found.own, found.takes, found.words, why)?;
            Ok(if why.is_empty() {
                Some(found.verb)
            } else {
                None
            })
        }
        Err(misfit) => push_misfit(why, line, misfit).map(|()| None),
    }
}
