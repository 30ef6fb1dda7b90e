//! Lines that are run again, with what comes before them, between them and behind them.

use crate::in_parts::Part;
use crate::source::Source;
use line_words::input::Stopped;
use line_words::print::{push_numbered, push_text};
use line_words::words::first_word;

/// What lines are run for.
#[derive(Clone, Copy)]
pub enum Aim {
    /// What they answer and the dump behind them, over a store that refuses its call of this number. A line that is refused so is made
    /// again.
    Refusing(u64),
    /// The dump of the empty store and those after each line. Of a `clear` and of an import, which take out or put in one pair after the
    /// other, there are those after each pair.
    Dumps,
    /// How many actions wait for a flush behind them.
    Count,
    /// What a crash behind them leaves that keeps so many actions.
    Crash(u64),
}

// What was asked for last.
#[derive(Clone, Copy)]
enum Asked {
    Nothing,
    New,
    Line,
    Recover,
    // The last line that made a tree current.
    Tree,
    Dump,
    Flush,
    Crash,
    Verify,
    End,
}

// The outcome of a line.
#[derive(Clone, Copy)]
enum Answer {
    Made,
    // The store failed.
    Failed,
    // The database is closed.
    Closed,
    // It was refused otherwise, or there was no pair.
    Ended,
}

/// Whether a byte ends a line.
pub fn is_end(byte: &u8) -> bool {
    *byte == b'\n'
}

// The outcome of a line that printed this.
fn answer_of(printed: &[u8]) -> Answer {
    for line in printed.split(is_end) {
        if line == b"refused E4".as_slice() {
            return Answer::Failed;
        }
        if line == b"refused E8".as_slice() {
            return Answer::Closed;
        }
        if line == b"pair -".as_slice() || line.starts_with(b"refused ") {
            return Answer::Ended;
        }
    }
    Answer::Made
}

/// What was seen while lines were run.
#[derive(Clone, Copy)]
pub struct Seen {
    /// Whether each line could be read.
    pub is_good: bool,
    /// Whether a line learned of the call that the store refused.
    pub is_told: bool,
    /// Whether the call to be refused is the one behind all that were made.
    pub is_beyond: bool,
    /// Whether a line made another store, which refuses nothing.
    pub is_remade: bool,
}

/// The lines of a text, run for an aim.
#[derive(Clone, Copy)]
pub struct Repeats<'a> {
    aim: Aim,
    // The lines that are left.
    rest: Option<&'a [u8]>,
    // The line that is being made, and the last one that made a tree current.
    line: &'a [u8],
    tree: Option<&'a [u8]>,
    // The part of the line that is made; none if it is made as a whole.
    part: Option<Part<'a>>,
    asked: Asked,
    // Whether the line is made again, and whether the store was recovered for it.
    is_again: bool,
    is_recovered: bool,
    seen: Seen,
}

impl<'a> Repeats<'a> {
    /// The lines of a text, from the first on.
    pub fn new(text: &'a [u8], aim: Aim) -> Repeats<'a> {
        Repeats {
            aim,
            rest: Some(text),
            line: b"",
            tree: None,
            part: None,
            asked: Asked::Nothing,
            is_again: false,
            is_recovered: false,
            seen: Seen {
                is_good: true,
                is_told: false,
                is_beyond: false,
                is_remade: false,
            },
        }
    }

    /// What was seen so far.
    pub fn seen(&self) -> Seen {
        self.seen
    }

    // Makes the line from its beginning.
    fn ask_line(&mut self) -> Asked {
        self.part = match self.aim {
            Aim::Dumps => Part::first(self.line),
            _ => None,
        };
        Asked::Line
    }

    // Goes on to the next line of the text; if there is none, to what comes behind them.
    fn ask_next(&mut self) -> Asked {
        self.is_again = false;
        self.is_recovered = false;
        let Some(text) = self.rest else {
            return match self.aim {
                Aim::Refusing(_) => Asked::Dump,
                Aim::Dumps => Asked::End,
                Aim::Count => Asked::Flush,
                Aim::Crash(_) => Asked::Crash,
            };
        };
        (self.line, self.rest) = cut(text);
        self.seen.is_remade |= remakes(self.line);
        self.ask_line()
    }

    // What is asked for after this outcome. A line that is refused is made again once, and once more if the store had to be recovered.
    fn ask(&mut self, answer: Answer) -> Asked {
        match (self.asked, answer) {
            (Asked::Nothing, _) => Asked::New,
            (Asked::New | Asked::Line, Answer::Failed) if !self.is_again => {
                self.seen.is_told = true;
                self.is_again = true;
                self.ask_line();
                self.asked
            }
            (Asked::Line, Answer::Closed) if !self.is_recovered => {
                self.is_recovered = true;
                Asked::Recover
            }
            (Asked::Recover, _) if self.tree.is_some() => Asked::Tree,
            (Asked::Recover | Asked::Tree, _) => self.ask_line(),
            (Asked::New | Asked::Line, answer) => self.ask_behind(answer),
            (Asked::Dump, _) => self.ask_behind_dump(),
            (Asked::Flush, answer) => {
                self.seen.is_beyond = matches!(answer, Answer::Failed);
                Asked::End
            }
            (Asked::Crash, _) => Asked::Verify,
            (Asked::Verify, _) => Asked::Dump,
            (Asked::End, _) => Asked::End,
        }
    }

    // What is asked for behind a line, or a part of one, that is not made again.
    fn ask_behind(&mut self, answer: Answer) -> Asked {
        if self.line.starts_with(b"tree ") {
            self.tree = Some(self.line);
        }
        match self.aim {
            Aim::Dumps => {
                self.part = match (self.part, answer) {
                    (Some(part), Answer::Made) => part.next(),
                    _ => None,
                };
                Asked::Dump
            }
            _ => self.ask_next(),
        }
    }

    // What is asked for behind a dump.
    fn ask_behind_dump(&mut self) -> Asked {
        match self.aim {
            Aim::Dumps if self.part.is_some() => Asked::Line,
            Aim::Dumps => self.ask_next(),
            Aim::Refusing(_) if !self.seen.is_told => Asked::Flush,
            _ => Asked::End,
        }
    }

    // What is kept of what was printed, of what was asked for so. Of a line that is made again it is nothing; of how many actions a flush
    // made durable too, since a call that is made again may make more; and of which tree is current behind a crash.
    fn kept<'b>(&self, asked: Asked, printed: &'b [u8]) -> &'b [u8] {
        match (self.aim, asked) {
            (Aim::Refusing(_), Asked::Line) if self.is_again || self.is_recovered => b"",
            (Aim::Refusing(_), Asked::Line) if printed.starts_with(b"flushed ") => b"flushed\n",
            (Aim::Refusing(_), Asked::Line) | (Aim::Count, Asked::Flush) => printed,
            (_, Asked::Crash) if printed.starts_with(b"recovered") => b"recovered\n",
            (_, Asked::Dump | Asked::Crash | Asked::Verify) => printed,
            _ => b"",
        }
    }

    // Adds the line that is asked for, if there is one.
    fn put(&self, line: &mut Vec<u8>) -> sled_nodes::Result<()> {
        let text: &[u8] = match (self.asked, self.aim) {
            (Asked::Nothing | Asked::End, _) => b"",
            (Asked::New, _) if self.is_again => b"reopen",
            (Asked::New, Aim::Refusing(call)) => return push_numbered(line, b"new refuse ", call),
            (Asked::New, _) => b"new",
            (Asked::Line, _) => match self.part {
                Some(part) => return part.push(line),
                None => self.line,
            },
            (Asked::Recover, _) => b"recover",
            (Asked::Tree, _) => self.tree.unwrap_or(b""),
            (Asked::Dump, _) => b"dump",
            (Asked::Flush, _) => b"flush",
            (Asked::Crash, Aim::Crash(keep)) => return push_numbered(line, b"crash ", keep),
            (Asked::Crash, _) => b"crash 0",
            (Asked::Verify, _) => b"verify",
        };
        push_text(line, text)
    }
}

// A text up to its first line end, and what is behind it, if there is something.
fn cut(text: &[u8]) -> (&[u8], Option<&[u8]>) {
    for (at, byte) in text.iter().enumerate() {
        if is_end(byte) {
            let rest = &text[at + 1..];
            return (&text[..at], if rest.is_empty() { None } else { Some(rest) });
        }
    }
    (text, None)
}

// The words that make another store.
const MAKES_ANOTHER: [&[u8]; 4] = [b"new", b"crash", b"recover", b"image"];

// Whether a line makes another store, or names other calls to be refused.
fn remakes(line: &[u8]) -> bool {
    let (word, _) = first_word(line);
    line.starts_with(b"reopen refuse ") || MAKES_ANOTHER.contains(&word)
}

impl Source<Vec<u8>> for Repeats<'_> {
    fn next(
        &mut self,
        printed: &mut Vec<u8>,
        output: &mut Vec<u8>,
        line: &mut Vec<u8>,
    ) -> Result<bool, Stopped> {
        let asked = self.asked;
        self.asked = self.ask(answer_of(printed.as_slice()));
        push_text(output, self.kept(asked, printed.as_slice()))?;
        printed.clear();
        line.clear();
        self.put(line)?;
        Ok(!matches!(self.asked, Asked::Nothing | Asked::End))
    }
}
