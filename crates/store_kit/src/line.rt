//! Lines: how byte strings and numbers are read.
use crate::text::Text;
use line_words::words::read_word;
use shell_words::words::find;
use sled_nodes::{IVec, Pid, Result};
use std::alloc::Global;
use std::ops::Bound;

/// A line that is read word by word, and what it prints. A word that is missing, or is not what is asked for, is taken for an
/// empty one, and then the line cannot be read. A function that acts asks `is_read` first.
#[derive(Drop)]
pub struct Line {
    pub out: Text,
    words: Vec<String>,
    /// The place of the next word.
    pub at: usize,
    // How many bytes of that word were read.
    begun: usize,
    pub is_bad: bool,
    /// Whether it asks for what the store does not have.
    pub lacks: bool,
}

// The word of a place, but for so many bytes at its front.
fn word_at(words: &[String], at: usize, begun: usize) -> &str {
    match words.get(at) {
        Some(word) => word.as_str().get(begun..).unwrap_or(""),
        None => "",
    }
}

impl Line {
    pub fn new(alloc: Global) -> Line {
        Line {
            out: Text::new(alloc),
            words: Vec::new(alloc),
            at: 0,
            begun: 0,
            is_bad: false,
            lacks: false,
        }
    }

    /// Goes on with the words of this text.
    pub fn start(&mut self, text: &str) {
        self.words.clear();
        self.at = 0;
        for word in text.split(' ') {
            match String::from_str(self.out.alloc, word) {
                Ok(word) => self.out.keep(&mut self.words, word),
                Err(_) => self.out.is_cut = true,
            }
        }
    }

    /// Whether there is another word.
    pub fn has_more(&self) -> bool {
        self.at < self.words.len()
    }

    /// Whether the line ends here, could be read, and there was memory for it.
    pub fn is_read(&mut self) -> bool {
        self.is_bad |= self.has_more();
        !self.is_bad && !self.out.is_cut
    }

    /// What was read, if the line ends with it.
    pub fn whole<T: Drop>(&mut self, read: Option<T>) -> Option<T> {
        if self.is_read() {
            return read;
        }
        drop(read);
        None
    }

    /// What the store answers, if it has what the line asks for.
    pub fn offered<T: Drop>(&mut self, answer: Option<T>) -> Option<T> {
        self.lacks |= answer.is_none();
        answer
    }

    // Goes behind the next word.
    fn go_on(&mut self) {
        self.at = self.at.saturating_add(1);
        self.begun = 0;
    }

    /// Whether the next word is this one, which is read then.
    pub fn takes(&mut self, word: &str) -> bool {
        let takes = word_at(self.words.as_slice(), self.at, 0) == word;
        if takes {
            self.go_on();
        }
        takes
    }

    /// Whether the next word begins with a mark of one byte, behind which it is read then.
    pub fn takes_mark(&mut self, mark: char) -> bool {
        let takes = word_at(self.words.as_slice(), self.at, 0).starts_with(mark);
        if takes {
            self.begun = 1;
        }
        takes
    }

    /// The next word.
    pub fn word(&mut self) -> &str {
        let word = word_at(self.words.as_slice(), self.at, 0);
        self.is_bad |= word.is_empty();
        self.at = self.at.saturating_add(1);
        word
    }

    /// What a table has beside the next word.
    pub fn named<T: Copy>(&mut self, table: &[(&str, T)]) -> Option<T> {
        let found = find(table, self.word().as_bytes());
        self.is_bad |= found.is_none();
        found
    }

    pub fn number(&mut self) -> u64 {
        let number = word_at(self.words.as_slice(), self.at, self.begun).parse::<u64>();
        self.is_bad |= number.is_err();
        self.go_on();
        number.unwrap_or(0)
    }

    /// The byte string that the next word spells.
    pub fn string(&mut self) -> Option<IVec> {
        let word = word_at(self.words.as_slice(), self.at, self.begun).as_bytes();
        let read = read_word(self.out.alloc, word);
        self.go_on();
        let string = self.out.kept(read)?;
        self.is_bad |= string.is_none();
        string
    }

    /// Its bytes.
    pub fn bytes(&mut self) -> Vec<u8> {
        let mut bytes = Vec::new(self.out.alloc);
        if let Some(string) = self.string() {
            self.out.is_cut |= bytes.extend_from_slice(string.as_ref()).is_err();
            drop(string);
        }
        bytes
    }

    /// Reads words to the end of the line.
    pub fn list<W: Word>(&mut self) -> Vec<W> {
        let mut list = Vec::new(self.out.alloc);
        for _ in 0..u64::MAX {
            if !self.has_more() {
                break;
            }
            if let Some(item) = W::read(self) {
                self.out.keep(&mut list, item);
            }
        }
        list
    }
}

/// What a word means, or several words.
pub trait Word: Drop {
    /// Reads it; `None` if the line cannot be read or there was no memory.
    fn read(line: &mut Line) -> Option<Self>;
}

impl Word for u64 {
    fn read(line: &mut Line) -> Option<u64> {
        Some(line.number())
    }
}

impl Word for Pid {
    fn read(line: &mut Line) -> Option<Pid> {
        Some(Pid(line.number()))
    }
}

impl Word for IVec {
    fn read(line: &mut Line) -> Option<IVec> {
        line.string()
    }
}

// `[K`, `(K` or `..`.
impl Word for Bound<IVec> {
    fn read(line: &mut Line) -> Option<Bound<IVec>> {
        if line.takes("..") {
            return Some(Bound::Unbounded);
        }
        if line.takes_mark('[') {
            return Some(Bound::Included(IVec::read(line)?));
        }
        line.is_bad |= !line.takes_mark('(');
        Some(Bound::Excluded(IVec::read(line)?))
    }
}

// `-` is none.
impl<W: Word> Word for Option<W> {
    fn read(line: &mut Line) -> Option<Option<W>> {
        if line.takes("-") {
            return Some(None);
        }
        Some(Some(W::read(line)?))
    }
}

impl<A: Word, B: Word> Word for (A, B) {
    fn read(line: &mut Line) -> Option<(A, B)> {
        let first = A::read(line);
        first.zip(B::read(line))
    }
}

/// What is printed as a word, or as several.
pub trait Print: Drop {
    /// Adds the word.
    fn print(&self, out: &mut Text);
}

impl Print for Pid {
    fn print(&self, out: &mut Text) {
        out.show(&self.0);
    }
}

impl Print for IVec {
    fn print(&self, out: &mut Text) {
        out.push_word(self.as_ref());
    }
}

impl<P: Print> Print for Option<P> {
    fn print(&self, out: &mut Text) {
        match self {
            Some(word) => word.print(out),
            None => out.push("-"),
        }
    }
}

impl<A: Print, B: Print> Print for (A, B) {
    fn print(&self, out: &mut Text) {
        self.0.print(out);
        out.push(" ");
        self.1.print(out);
    }
}

/// Adds what is in a list, with a space before each.
pub fn push_all<P: Print>(out: &mut Text, list: &[P]) {
    for item in list {
        out.push(" ");
        item.print(out);
    }
}

/// The same, if there was memory for the list.
pub fn push_kept<P: Print>(out: &mut Text, list: Result<Vec<P>>) {
    if let Some(list) = out.kept(list) {
        push_all(out, list.as_slice());
        drop(list);
    }
}
