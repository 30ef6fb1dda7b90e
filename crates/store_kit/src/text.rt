//! What is printed: how byte strings, numbers and answers are written in a line.
use line_words::print::push_text;
use line_words::words::push_word;
use sled_nodes::{Error, Result};
use std::alloc::Global;
use std::fmt::Display;
use std::io::Write;

/// Text that is added to. If there is no memory for a part of it, that is printed at the end alone.
#[derive(Drop)]
pub struct Text {
    pub alloc: Global,
    text: Vec<u8>,
    /// Whether there was no memory for something.
    pub is_cut: bool,
}

impl Text {
    pub fn new(alloc: Global) -> Text {
        Text {
            alloc,
            text: Vec::new(alloc),
            is_cut: false,
        }
    }

    /// Begins anew.
    pub fn clear(&mut self) {
        self.text.clear();
    }

    /// The text, if there was memory for all of it.
    pub fn text(&self) -> Option<&[u8]> {
        if self.is_cut {
            return None;
        }
        Some(self.text.as_slice())
    }

    pub fn push(&mut self, text: &str) {
        let pushed = push_text(&mut self.text, text.as_bytes());
        self.kept(pushed);
    }

    /// Adds the text of a value.
    pub fn show<T: Display>(&mut self, value: &T) {
        self.is_cut |= write!(self.text, "{value}").is_err();
    }

    /// Adds `done` if nothing was said.
    pub fn end(&mut self) {
        if self.text.is_empty() {
            self.push("done");
        }
    }

    /// Adds a line.
    pub fn push_line(&mut self, line: &Text) {
        let pushed = push_text(&mut self.text, line.text.as_slice());
        self.kept(pushed);
        self.push("\n");
        self.is_cut |= line.is_cut;
    }

    /// Adds a byte string.
    pub fn push_word(&mut self, bytes: &[u8]) {
        let pushed = push_word(&mut self.text, bytes);
        self.kept(pushed);
    }

    /// Adds a word, a space and a number.
    pub fn push_numbered(&mut self, word: &str, number: u64) {
        self.push(word);
        self.push(" ");
        self.show(&number);
    }

    /// Adds `yes` or `no`.
    pub fn push_whether(&mut self, is: bool) {
        self.push(if is { "yes" } else { "no" });
    }

    /// Adds the text of an error, and the name that it has.
    pub fn push_error(&mut self, error: &Error) {
        self.show(error);
        if let Error::CollectionNotFound(name) = error {
            self.push(" ");
            self.push_word(name.as_ref());
        }
    }

    /// What was answered by a call that is refused for want of memory alone.
    pub fn kept<T: Drop>(&mut self, answer: Result<T>) -> Option<T> {
        match answer {
            Ok(value) => Some(value),
            Err(error) => {
                drop(error);
                self.is_cut = true;
                None
            }
        }
    }

    /// Adds an item to a list.
    pub fn keep<T: Drop>(&mut self, list: &mut Vec<T>, item: T) {
        self.is_cut |= list.push(item).is_err();
    }
}
