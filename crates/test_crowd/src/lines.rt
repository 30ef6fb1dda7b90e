//! Lines, over a store in memory that counts the pages that are read, from opening to opening.

use crate::counting::{Counted, Counting, kept_of};
use crate::many::{find_all, load, overtake, run_steps};
use line_files::Program;
use line_sessions::operator::NoOperator;
use line_sessions::session::{Session, write};
use line_words::command::{Command, parse};
use line_words::input::{Stopped, read_line, without_end};
use line_words::print::Piece::Text;
use line_words::print::push_bad_line;
use line_words::words::{first_word, read_number, read_word};
use shell_answers::known::tell_known;
use shell_answers::look::tell_look;
use shell_answers::store::Kept;
use shell_words::levels::count_levels;
use shell_words::look::{Look, is_read, look_of};
use shell_words::tell::{
    Result, Told, answered, tell, tell_numbered, tell_outcome, tell_refused, tell_turns, tell_why,
};
use shell_words::words::find;
use sled::Db;
use sled_model::{Call, Whole};
use sled_store::Pages;
use std::alloc::Global;
use std::io::{BufRead, Write};
use std::ops::Bound;
use std::sync::atomic::{AtomicU64, Ordering};

// A word with numbers behind it.
#[derive(Clone, Copy)]
enum Word {
    Load,
    Find,
    Overtake,
    Reads,
    Pages,
    Turns,
    Why,
    Scan,
    ScanBack,
    New,
}

// The words, and how many numbers each of them takes.
const WORDS: [(&str, (Word, usize)); 10] = [
    ("load", (Word::Load, 3)),
    ("find", (Word::Find, 2)),
    ("overtake", (Word::Overtake, 2)),
    ("reads", (Word::Reads, 0)),
    ("pages", (Word::Pages, 0)),
    ("turns", (Word::Turns, 1)),
    ("why", (Word::Why, 0)),
    ("scan", (Word::Scan, 0)),
    ("scan-back", (Word::ScanBack, 0)),
    ("new", (Word::New, 0)),
];

// The numbers that words are, if they are so many.
fn numbers_of(words: Option<&[u8]>, count: usize) -> Option<[u64; 3]> {
    let (mut numbers, mut rest) = ([0; 3], words);
    for place in 0..3 {
        if place < count {
            let (word, more) = first_word(rest?);
            numbers[place] = read_number(word)?;
            rest = more;
        }
    }
    match rest {
        Some(_) => None,
        None => Some(numbers),
    }
}

// How a database ends.
#[derive(Clone, Copy)]
enum End {
    // By a crash that keeps so many actions.
    Crash(u64),
    // For an empty store.
    New,
    Quit,
}

// The outcome of a line.
#[derive(Clone, Copy)]
enum Answer {
    Told,
    // It cannot be read.
    Bad,
    Ends(End),
}

fn tell_reads(session: &Counted<'_>, out: &mut Told) -> Result<()> {
    let count = session.db().pages().reads.swap(0, Ordering::Relaxed);
    tell_numbered(out, b"reads ", count, b"\n")
}

// Adds how many pages each level of the current tree has. These are not counted as read.
fn tell_pages(alloc: Global, session: &Counted<'_>, out: &mut Told) -> Result<()> {
    let (pages, name) = (&session.db().pages().inner, session.tree().name.as_ref());
    match count_levels(alloc, pages, name, &mut out.text) {
        Ok(()) => Ok(()),
        Err(error) => tell_refused(out, error),
    }
}

// Begins a scan of all pairs in a slot.
fn begin_scan(alloc: Global, session: &mut Counted<'_>, back: bool, out: &mut Told) -> Result<()> {
    let call = answered(Call::scan(alloc, Bound::Unbounded, Bound::Unbounded, back))?;
    let (_, outcome) = session.begin(call)?;
    let told = tell_outcome(out, &outcome);
    drop(outcome);
    told
}

// Answers a word that has its numbers.
fn own(
    alloc: Global,
    session: &mut Counted<'_>,
    word: Word,
    numbers: [u64; 3],
    out: &mut Told,
) -> Result<Answer> {
    match word {
        Word::Load => load(alloc, session, numbers, out)?,
        Word::Find => find_all(alloc, session, numbers, out)?,
        Word::Overtake => overtake(alloc, session, numbers, out)?,
        Word::Reads => tell_reads(session, out)?,
        Word::Pages => tell_pages(alloc, session, out)?,
        Word::Turns => tell_turns(out, session.turns(numbers[0]))?,
        Word::Why => tell_why(out)?,
        Word::Scan => begin_scan(alloc, session, false, out)?,
        Word::ScanBack => begin_scan(alloc, session, true, out)?,
        Word::New => {
            tell(out, &[Text(b"opened\n")])?;
            return Ok(Answer::Ends(End::New));
        }
    }
    Ok(Answer::Told)
}

// Answers a read, if its words can be read.
fn look_at(
    alloc: Global,
    session: &Counted<'_>,
    look: Look,
    words: Option<&[u8]>,
    out: &mut Told,
) -> Result<Answer> {
    if !answered(is_read(alloc, look, words))? {
        return Ok(Answer::Bad);
    }
    let (first, second) = first_word(words.unwrap_or(b""));
    let words = (first, second.unwrap_or(b""));
    tell_look(alloc, session.db(), session.tree(), look, words, out)?;
    Ok(Answer::Told)
}

// Drops the tree of a name.
fn drop_tree(
    alloc: Global,
    session: &mut Counted<'_>,
    word: &[u8],
    out: &mut Told,
) -> Result<Answer> {
    let Some(name) = answered(read_word(alloc, word))? else {
        return Ok(Answer::Bad);
    };
    let outcome = session.whole(Whole::DropTree(name));
    let told = tell_outcome(out, &outcome);
    drop(outcome);
    told.map(|()| Answer::Told)
}

// Answers a line that `sledrun` knows too, if it is one.
fn known<W: Write>(
    alloc: Global,
    session: &mut Counted<'_>,
    line: &[u8],
    output: &mut W,
    out: &mut Told,
) -> Result<Answer> {
    match answered(parse(alloc, line))? {
        Some(Command::Crash(keep)) => {
            tell(out, &[Text(b"recovered\n")])?;
            Ok(Answer::Ends(End::Crash(keep)))
        }
        Some(command) => tell_known(session, command, output, out).map(|()| Answer::Told),
        None => Ok(Answer::Bad),
    }
}

// Answers a line.
fn answer_line<W: Write>(
    alloc: Global,
    session: &mut Counted<'_>,
    line: &[u8],
    output: &mut W,
    out: &mut Told,
) -> Result<Answer> {
    let (name, words) = first_word(line);
    if let Some((word, count)) = find(&WORDS, name) {
        return match numbers_of(words, count) {
            Some(numbers) => own(alloc, session, word, numbers, out),
            None => Ok(Answer::Bad),
        };
    }
    if let Some(look) = look_of(name) {
        return look_at(alloc, session, look, words, out);
    }
    match (name, words) {
        (b"run", Some(steps)) => match run_steps(alloc, session, steps, out)? {
            true => Ok(Answer::Told),
            false => Ok(Answer::Bad),
        },
        (b"drop", Some(word)) => drop_tree(alloc, session, word, out),
        _ => known(alloc, session, line, output, out),
    }
}

// The line that was read last and its number, and what is to be printed.
#[derive(Drop)]
struct Lines<'a> {
    alloc: Global,
    line: Vec<u8>,
    left: usize,
    number: u64,
    // Whether each line could be read.
    good: bool,
    out: Told,
    // How many pages were read since that was asked.
    reads: &'a AtomicU64,
}

impl<'a> Lines<'a> {
    // Answers the line: how the database ends, if it does. An empty line and a comment print nothing.
    fn line<W: Write>(&mut self, session: &mut Counted<'a>, output: &mut W) -> Result<Option<End>> {
        let line = without_end(self.line.as_slice());
        if line.is_empty() || line.starts_with(b"#") {
            return Ok(None);
        }
        match answer_line(self.alloc, session, line, output, &mut self.out)? {
            Answer::Told => Ok(None),
            Answer::Ends(end) => Ok(Some(end)),
            Answer::Bad => {
                self.good = false;
                answered(push_bad_line(&mut self.out.text, self.number))?;
                Ok(None)
            }
        }
    }

    // Answers lines up to one that ends the database, or to the last.
    fn lines<R: BufRead, W: Write>(
        &mut self,
        session: &mut Counted<'a>,
        input: &mut R,
        output: &mut W,
    ) -> Result<End> {
        for _ in 0..u64::MAX {
            write(output, &mut self.out.text)?;
            if read_line(input, output, &mut self.line, &mut self.left)? == 0 {
                break;
            }
            self.number = self.number.saturating_add(1);
            if let Some(end) = self.line(session, output)? {
                return Ok(end);
            }
        }
        Ok(End::Quit)
    }

    // The same over a database: the pages that it leaves, and how it ended.
    fn live_over<R: BufRead, W: Write>(
        &mut self,
        db: Db<Counting<'a>, NoOperator>,
        input: &mut R,
        output: &mut W,
    ) -> Result<(Kept, End)> {
        let mut session = match Session::over(self.alloc, db) {
            Ok(session) => session,
            Err(refused) => {
                drop(refused);
                return Err(Stopped);
            }
        };
        match self.lines(&mut session, input, output) {
            Ok(end) => Ok((kept_of(session.into_db()), end)),
            Err(stopped) => {
                drop(session.into_db().into_pages());
                Err(stopped)
            }
        }
    }

    // The same over pages, which are opened.
    fn live<R: BufRead, W: Write>(
        &mut self,
        kept: Kept,
        input: &mut R,
        output: &mut W,
    ) -> Result<(Kept, End)> {
        let (pages, _) = kept.into_pages();
        if pages.in_group() {
            drop(pages);
            return Err(Stopped);
        }
        let counting = Counting {
            inner: pages,
            reads: self.reads,
        };
        match Db::open(self.alloc, counting, b"crowd") {
            Ok(db) => self.live_over(db.with_operators(), input, output),
            Err(refused) => {
                drop(refused);
                Err(Stopped)
            }
        }
    }

    // The pages after what ended a database: what a crash left of its own, or new ones.
    fn changed(&self, left: Kept, end: End) -> Result<Kept> {
        match end {
            End::Crash(keep) => left.crash(self.alloc, keep),
            End::New | End::Quit => {
                drop(left);
                Ok(Kept::empty(self.alloc))
            }
        }
    }

    // Answers all lines.
    fn run<R: BufRead, W: Write>(&mut self, input: &mut R, output: &mut W) -> Result<()> {
        let mut kept = Kept::empty(self.alloc);
        for _ in 0..u64::MAX {
            match self.live(kept, input, output)? {
                (left, End::Quit) => {
                    drop(left);
                    return Ok(output.flush()?);
                }
                (left, end) => kept = self.changed(left, end)?,
            }
        }
        drop(kept);
        Err(Stopped)
    }
}

/// Runs the lines of an input: whether each of them could be read.
pub fn run<R: BufRead, W: Write>(alloc: Global, input: &mut R, output: &mut W) -> Result<bool> {
    let reads = AtomicU64::new(0);
    let mut lines = Lines {
        alloc,
        line: Vec::new(alloc),
        left: 0,
        number: 0,
        good: true,
        out: Told::new(alloc, false),
        reads: &reads,
    };
    let ran = lines.run(input, output);
    let good = lines.good;
    drop(lines);
    ran?;
    Ok(good)
}

/// Texts of lines, each a session of its own.
#[derive(Clone, Copy)]
pub struct Sessions;

impl Program for Sessions {
    fn run(&self, alloc: Global, lines: &[u8], printed: &mut Vec<u8>) -> sled_nodes::Result<()> {
        let mut input = lines;
        // Nothing is read or written but in memory, so it was that which was missing.
        match run(alloc, &mut input, printed) {
            Ok(_) => Ok(()),
            Err(_) => Err(sled_nodes::Error::NoMemory),
        }
    }
}
