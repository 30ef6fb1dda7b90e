//! Lines that are read one after the other, and what is said of those that cannot be read.

use crate::arguments::Arguments;
use crate::read::read;
use crate::source::Source;
use crate::table::{Verb, Way, push_groups, push_help, way_of};
use crate::tell::{Told, answered, tell};
use crate::words::quote;
use line_words::input::{Stopped, without_end};
use line_words::print::Piece::{Number, Text, Word};
use line_words::print::push_pieces;
use line_words::words::first_word;
use std::alloc::Global;
use std::io::Write;

/// The line that was read last, and what is to be printed.
#[derive(Drop)]
pub struct Lines {
    /// What its memory comes from.
    pub alloc: Global,
    /// The line, with its end.
    pub line: Vec<u8>,
    /// What its command takes.
    pub arguments: Arguments,
    /// What is to be printed.
    pub out: Told,
    /// Why the line cannot be read; empty if it can be.
    pub why: Vec<u8>,
    number: u64,
    // Whether the line is in a file that a line has run.
    is_in_file: bool,
    // Whether each line could be read.
    is_good: bool,
}

/// The words of a line behind so many of its own, if there are some.
pub fn words_behind(line: &[u8], own: usize) -> Option<&[u8]> {
    let mut words = Some(without_end(line));
    for _ in 0..own {
        words = first_word(words?).1;
    }
    words
}

/// The same, which may be empty.
pub fn rest_behind(line: &[u8], own: usize) -> &[u8] {
    words_behind(line, own).unwrap_or(b"")
}

// Adds the line of one that cannot be read, which is in a file or not.
fn push_bad(out: &mut Told, number: u64, is_in_file: bool, why: &[u8]) -> Result<(), Stopped> {
    let place: &[u8] = if is_in_file { b" of the file: " } else { b": " };
    tell(
        out,
        &[
            Text(b"bad line "),
            Number(number),
            Text(place),
            Text(why),
            Text(b"\n"),
        ],
    )
}

impl Lines {
    /// No line was read yet. If refusals are explained, their text follows their number.
    pub fn new(alloc: Global, explains: bool) -> Lines {
        Lines {
            alloc,
            line: Vec::new(alloc),
            arguments: Arguments::none(alloc),
            out: Told::new(alloc, explains),
            why: Vec::new(alloc),
            number: 0,
            is_in_file: false,
            is_good: true,
        }
    }

    /// Whether each line could be read.
    pub fn is_good(&self) -> bool {
        self.is_good
    }

    /// Adds the line of one that cannot be read, if there is a reason why.
    pub fn tell_bad(&mut self) -> Result<(), Stopped> {
        if self.why.is_empty() {
            return Ok(());
        }
        self.is_good = false;
        let (number, is_in_file) = (self.number, self.is_in_file);
        push_bad(&mut self.out, number, is_in_file, self.why.as_slice())
    }

    /// Adds why ids cannot be set aside, if the mark is higher.
    pub fn tell_below(&mut self, upto: u64, mark: u64) -> Result<(), Stopped> {
        answered(push_pieces(
            &mut self.why,
            &[
                Text(b"`"),
                Number(upto),
                Text(b"` is below the mark, which is "),
                Number(mark),
            ],
        ))?;
        self.tell_bad()
    }

    /// Adds that a number is greater than it may be.
    pub fn tell_above(&mut self, number: u64, most: u64) -> Result<(), Stopped> {
        answered(push_pieces(
            &mut self.why,
            &[
                Text(b"`"),
                Number(number),
                Text(b"` is more than "),
                Number(most),
            ],
        ))?;
        self.tell_bad()
    }

    /// The lines of a file are read next, whose numbers begin anew. Gives the number of the line before.
    pub fn begin_file(&mut self) -> u64 {
        self.is_in_file = true;
        std::mem::replace(&mut self.number, 0)
    }

    /// Behind the lines of a file the numbers go on.
    pub fn end_file(&mut self, number: u64) {
        self.is_in_file = false;
        self.number = number;
    }

    /// Whether the line is in a file that a line has run.
    pub fn is_in_file(&self) -> bool {
        self.is_in_file
    }

    /// Adds that the name in the line was no tree before.
    pub fn tell_no_older(&mut self) -> Result<(), Stopped> {
        answered(push_pieces(
            &mut self.why,
            &[
                Text(b"`"),
                Word(self.arguments.bytes(0)),
                Text(
                    b"` has no older tree: fewer than two lines `tree` named it since the opening",
                ),
            ],
        ))?;
        self.tell_bad()
    }

    /// Adds that the line may not be in a file, as it has the lines of one run, or makes many changes one after the other.
    pub fn tell_swept(&mut self) -> Result<(), Stopped> {
        let name = first_word(without_end(self.line.as_slice())).0;
        answered(quote(
            &mut self.why,
            name,
            "does not stand in a file that a line has run",
        ))?;
        self.tell_bad()
    }

    /// Adds that the file that the line names cannot be read.
    pub fn tell_no_file(&mut self) -> Result<(), Stopped> {
        let word = rest_behind(self.line.as_slice(), 1);
        answered(quote(&mut self.why, word, "cannot be read"))?;
        self.tell_bad()
    }

    /// Lists the commands: all in groups, or those that the line asks for.
    pub fn help(&mut self) -> Result<(), Stopped> {
        match words_behind(self.line.as_slice(), 1) {
            None => push_groups(&mut self.out),
            Some(word) => {
                if !push_help(&mut self.out, word)? {
                    answered(quote(&mut self.why, word, "begins no line; `help` lists them"))?;
                }
                self.tell_bad()
            }
        }
    }

    /// How the line makes its call.
    pub fn way(&self) -> Way {
        way_of(first_word(self.line.as_slice()).0)
    }

    // What the line asks for, if it does. One that cannot be read is printed.
    fn verb(&mut self) -> Result<Option<Verb>, Stopped> {
        self.why.clear();
        self.arguments.clear();
        let line = without_end(self.line.as_slice());
        if line.is_empty() || line.starts_with(b"#") {
            return Ok(None);
        }
        match read(line, &mut self.arguments, &mut self.why)? {
            Some(verb) => Ok(Some(verb)),
            None => self.tell_bad().map(|()| None),
        }
    }

    // Has what was printed written, and reads a line: whether there is one.
    fn read<W: Write, S: Source<W>>(
        &mut self,
        source: &mut S,
        output: &mut W,
    ) -> Result<bool, Stopped> {
        let is_there = source.next(&mut self.out.text, output, &mut self.line)?;
        self.number = self.number.saturating_add(1);
        Ok(is_there)
    }

    /// Reads lines up to the next command; at the end of the input it is the last one.
    pub fn next<W: Write, S: Source<W>>(
        &mut self,
        source: &mut S,
        output: &mut W,
    ) -> Result<Verb, Stopped> {
        for _ in 0..u64::MAX {
            if !self.read(source, output)? {
                break;
            }
            if let Some(verb) = self.verb()? {
                return Ok(verb);
            }
        }
        Ok(Verb::Quit)
    }
}
