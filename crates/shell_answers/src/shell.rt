//! A session of the shell: lines, from opening to opening.

use crate::asks::is_owned;
use crate::check::tell_check;
use crate::home::Home;
use crate::input::{Input, read_file};
use crate::memory::Memory;
use crate::state::State;
use line_sessions::session::{Session, write};
use line_words::input::{Stopped, without_end};
use line_words::print::Piece::{Text, Word};
use line_words::words::first_word;
use shell_words::choices::Sweep;
use shell_words::lines::{Lines, rest_behind};
use shell_words::named_trees::Names;
use shell_words::operators::Operator;
use shell_words::page_parts::{parts_of, push_parts, push_rests};
use shell_words::repeats::Repeats;
use shell_words::source::Source;
use shell_words::subscribers::Subscribers;
use shell_words::sweeps::{Sessions, tell_sweep};
use shell_words::table::Verb;
use shell_words::tell::{Result, Told, answered, tell, tell_refused, tell_why};
use shell_words::verdict::tell_verdict;
use shell_words::words::quote;
use sled::{Db, GROUP_IS_OPEN};
use sled_model::{Outcome, Reply, Tree, Whole};
use sled_nodes::{Error, IVec, Pid};
use sled_store::Pages;
use std::alloc::Global;
use std::io::{BufRead, Write};

/// The version of the whole repository.
pub const VERSION: &str = "0.1.0";

// The name that databases are opened under.
const DATABASE: &[u8] = b"sledsh";

/// The lines of a session and what is to be printed, and what they got and said since the opening.
#[derive(Drop)]
pub struct Shell<P: Pages, H: Home<Store = P, Opened = Db<P, Operator>>> {
    /// The line that was read last.
    pub lines: Lines,
    // Whether the lines are run again and again, and may have no others run so.
    is_swept: bool,
    /// The trees that lines got.
    pub names: Names,
    /// The subscribers that they got.
    pub subscribers: Subscribers,
    home: H,
    // The name of the tree that was current before a crash, up to the opening after it.
    before: Option<IVec>,
}

// Adds which tree is current.
fn tell_tree(out: &mut Told, tree: &Tree) -> Result<()> {
    tell(out, &[Text(b", tree "), Word(tree.name.as_ref())])
}

impl<P: Pages, H: Home<Store = P, Opened = Db<P, Operator>>> Shell<P, H> {
    // A shell that has read no line yet.
    fn new(alloc: Global, home: H, explains: bool, is_swept: bool) -> Shell<P, H> {
        Shell {
            lines: Lines::new(alloc, explains),
            is_swept,
            names: Names::empty(alloc),
            subscribers: Subscribers::empty(alloc),
            home,
            before: None,
        }
    }

    // Makes current what a name was before.
    fn take_old(&mut self, state: &mut State<P, H>) -> Result<()> {
        let name = self.lines.arguments.bytes(0);
        match (state, self.names.before(name, 1)) {
            (State::Open(session), Some(tree)) => {
                let tree = tree.clone();
                self.take_tree(session, tree)
            }
            _ => self.lines.tell_no_older(),
        }
    }

    // Adds why the line is not for the store that there is.
    fn tell_elsewhere(&mut self, why: &'static str) -> Result<()> {
        let name = first_word(without_end(self.lines.line.as_slice())).0;
        answered(quote(&mut self.lines.why, name, why))?;
        self.lines.tell_bad()
    }

    // Answers a line, unless it changes the store, has others run, or ends: whether it did.
    fn answer<W: Write>(
        &mut self,
        state: &mut State<P, H>,
        verb: Verb,
        output: &mut W,
    ) -> Result<bool> {
        if let Some(why) = self.home.refuses(verb, &self.lines.arguments) {
            return self.tell_elsewhere(why).map(|()| true);
        }
        let number = self.lines.arguments.number();
        let told = match verb {
            Verb::Mark if number < self.home.mark() => self
                .lines
                .tell_below(number, self.home.mark()),
            Verb::Reopen | Verb::Compact | Verb::Refuse | Verb::Unreadable | Verb::Mark
                if state.is_closed() => {
                tell_refused(&mut self.lines.out, Error::Corruption(GROUP_IS_OPEN))
            }
            Verb::Sweep(_) | Verb::Run if self.is_swept || self.lines.is_in_file() => {
                self.lines.tell_swept()
            }
            Verb::Fill if self.is_swept => self.lines.tell_swept(),
            Verb::Crash
            | Verb::New
            | Verb::Reopen
            | Verb::Compact
            | Verb::Refuse
            | Verb::Unreadable
            | Verb::Mark
            | Verb::Recover
            | Verb::Image(_)
            | Verb::Sweep(_)
            | Verb::Run
            | Verb::Quit => return Ok(false),
            Verb::Verify => self.verify(state),
            Verb::Parts => self.parts(state),
            Verb::Rests => self.rests(state),
            Verb::OldTree => self.take_old(state),
            Verb::Page => self.note_page(),
            Verb::Root => self.note_root(),
            Verb::Why => tell_why(&mut self.lines.out),
            Verb::Version => self.version(),
            Verb::Help => self.lines.help(),
            verb if is_owned(self.lines.way(), verb) => return Ok(false),
            verb => self.ask(state, verb, output),
        };
        told.map(|()| true)
    }

    // Checks the pages as they are.
    fn verify(&mut self, state: &State<P, H>) -> Result<()> {
        let is_closed = state.is_closed();
        tell_check(
            self.lines.alloc,
            state.store(),
            is_closed,
            &mut self.lines.out,
        )
    }

    // Says as what a page is kept.
    fn parts(&mut self, state: &State<P, H>) -> Result<()> {
        let pid = Pid(self.lines.arguments.number());
        let parts = parts_of(H::kept(state.store()), pid);
        answered(push_parts(parts, &mut self.lines.out.text))
    }

    // Says of a page what all its keys begin with, and what each of them has behind that.
    fn rests(&mut self, state: &State<P, H>) -> Result<()> {
        let pid = Pid(self.lines.arguments.number());
        let out = &mut self.lines.out;
        match state.store().read(self.lines.alloc, pid) {
            Ok(Some(view)) => {
                let pushed = push_rests(&view.node, &mut out.text);
                drop(view);
                answered(pushed)
            }
            Ok(None) => tell(out, &[Text(b"none\n")]),
            Err(error) => tell_refused(out, error),
        }
    }

    fn version(&mut self) -> Result<()> {
        let version = Text(VERSION.as_bytes());
        tell(
            &mut self.lines.out,
            &[Text(b"sledsh "), version, Text(b"\n")],
        )
    }

    // Notes a page of an image.
    fn note_page(&mut self) -> Result<()> {
        let words = rest_behind(self.lines.line.as_slice(), 1);
        self.home.note_page(words, &mut self.lines.out)
    }

    // Notes a root of an image.
    fn note_root(&mut self) -> Result<()> {
        let words = rest_behind(self.lines.line.as_slice(), 1);
        self.home.note_root(words, &mut self.lines.out)
    }

    // Answers lines up to one that changes the store, has others run, or ends.
    fn lines<W: Write, S: Source<W>>(
        &mut self,
        state: &mut State<P, H>,
        source: &mut S,
        output: &mut W,
    ) -> Result<Verb> {
        for _ in 0..u64::MAX {
            let verb = self.lines.next(source, output)?;
            if !self.answer(state, verb, output)? {
                return Ok(verb);
            }
        }
        Ok(Verb::Quit)
    }

    // Opens nothing after a refusal, which is printed.
    fn shut(&mut self, held: H::Held, error: Error) -> Result<State<P, H>> {
        match tell_verdict(&mut self.lines.out, error) {
            Ok(()) => Ok(State::Shut(held)),
            Err(stopped) => {
                drop(held);
                Err(stopped)
            }
        }
    }

    // Makes the tree current again that was so before a crash, if it is there: whether the current tree is that one.
    fn take_again(&mut self, session: &mut Session<P, Operator>) -> Result<bool> {
        let Some(name) = self.before.take() else {
            return Ok(true);
        };
        if session.db().pages().root(name.as_ref()).is_none() {
            drop(name);
            return Ok(false);
        }
        match session.whole(Whole::OpenTree(name)) {
            Outcome::Decided(Reply::Tree(tree)) => {
                let noted = self.names.begin_with(&tree);
                session.set_tree(tree);
                noted.map(|()| true)
            }
            other => {
                drop(other);
                Err(Stopped)
            }
        }
    }

    // Notes the trees that an opening got, and adds its line; the current tree too if it is another one than before.
    fn tell_opened(&mut self, session: &mut Session<P, Operator>) -> Result<()> {
        self.names.begin(session.tree())?;
        let is_same = self.take_again(session)?;
        if !self.home.tell_opening(session.db(), &mut self.lines.out)? {
            return Ok(());
        }
        if !is_same {
            tell_tree(&mut self.lines.out, session.tree())?;
        }
        tell(&mut self.lines.out, &[Text(b"\n")])
    }

    // A session over a database, whose opening is printed.
    fn begin(&mut self, db: Db<P, Operator>) -> Result<State<P, H>> {
        self.subscribers.clear();
        let mut session = match Session::over(self.lines.alloc, db) {
            Ok(session) => session,
            Err(refused) => {
                drop(refused);
                return Err(Stopped);
            }
        };
        match self.tell_opened(&mut session) {
            Ok(()) => Ok(State::Open(session)),
            Err(stopped) => {
                drop(session.into_db().into_pages());
                Err(stopped)
            }
        }
    }

    // Opens pages, unless they were refused before.
    fn open(&mut self, held: H::Held) -> Result<State<P, H>> {
        match self.home.open(held, DATABASE) {
            Ok(db) => self.begin(db),
            Err((held, error)) => self.shut(held, error),
        }
    }

    // Notes what is to be current again after what a line asks for.
    fn note_before(&mut self, state: &State<P, H>, verb: Verb) -> Result<()> {
        let old = std::mem::replace(&mut self.before, state.name_behind(verb)?);
        drop(old);
        Ok(())
    }

    // Opens a store, if there is one; else writes why not.
    fn open_told<W: Write>(
        &mut self,
        held: Result<H::Held>,
        output: &mut W,
    ) -> Result<State<P, H>> {
        match held {
            Ok(held) => self.open(held),
            Err(stopped) => {
                write(output, &mut self.lines.out.text)?;
                Err(stopped)
            }
        }
    }

    // Does what a line asks for that changes the store, and opens it then.
    fn renew<W: Write>(
        &mut self,
        state: State<P, H>,
        verb: Verb,
        output: &mut W,
    ) -> Result<State<P, H>> {
        let noted = self.note_before(&state, verb);
        let held = state.into_held();
        if let Err(stopped) = noted {
            drop(held);
            return Err(stopped);
        }
        let lines = &mut self.lines;
        let changed = self
            .home
            .change(held, verb, &lines.arguments, &mut lines.out);
        self.open_told(changed, output)
    }

    // The store as it is at first, opened.
    fn start<W: Write>(&mut self, output: &mut W) -> Result<State<P, H>> {
        let first = self.home.first(&mut self.lines.out);
        self.open_told(first, output)
    }

    // Answers lines up to one that has others run, or ends.
    fn live<W: Write, S: Source<W>>(
        &mut self,
        state: State<P, H>,
        source: &mut S,
        output: &mut W,
    ) -> Result<(State<P, H>, Verb)> {
        let mut state = state;
        for _ in 0..u64::MAX {
            match self.lines(&mut state, source, output) {
                Ok(verb @ (Verb::Quit | Verb::Run | Verb::Sweep(_))) => return Ok((state, verb)),
                Ok(verb) if is_owned(self.lines.way(), verb) => state = self.owned(state, verb)?,
                Ok(verb) => state = self.renew(state, verb, output)?,
                Err(stopped) => {
                    drop(state.into_held());
                    return Err(stopped);
                }
            }
        }
        drop(state.into_held());
        Err(Stopped)
    }

    // Has the lines of a file run again and again, which the line names.
    fn sweep(&mut self, rt: &HostRuntime, sweep: Sweep) -> Result<()> {
        let Some(lines) = read_file(rt, self.lines.arguments.bytes(0)) else {
            return self.lines.tell_no_file();
        };
        let (alloc, out) = (self.lines.alloc, &mut self.lines.out);
        tell_sweep(
            alloc,
            &Swept,
            sweep,
            lines.as_slice(),
            out,
            &mut self.lines.why,
        )?;
        self.lines.tell_bad()
    }

    // Answers the lines of a file.
    fn run_lines<W: Write>(
        &mut self,
        state: State<P, H>,
        lines: &[u8],
        output: &mut W,
    ) -> Result<State<P, H>> {
        let number = self.lines.begin_file();
        let mut source = Input::new(lines, false);
        let lived = self.live(state, &mut source, output);
        self.lines.end_file(number);
        Ok(lived?.0)
    }

    // Answers the lines of the file that the line names, over the store as it is.
    fn run_file<W: Write>(
        &mut self,
        rt: &HostRuntime,
        state: State<P, H>,
        output: &mut W,
    ) -> Result<State<P, H>> {
        if let Some(lines) = read_file(rt, self.lines.arguments.bytes(0)) {
            return self.run_lines(state, lines.as_slice(), output);
        }
        match self.lines.tell_no_file() {
            Ok(()) => Ok(state),
            Err(stopped) => {
                drop(state.into_held());
                Err(stopped)
            }
        }
    }

    // Has the lines of the file that the line names run, once, or again and again over stores of their own.
    fn run_named<W: Write>(
        &mut self,
        rt: &HostRuntime,
        state: State<P, H>,
        verb: Verb,
        output: &mut W,
    ) -> Result<State<P, H>> {
        let Verb::Sweep(sweep) = verb else {
            return self.run_file(rt, state, output);
        };
        match self.sweep(rt, sweep) {
            Ok(()) => Ok(state),
            Err(stopped) => {
                drop(state.into_held());
                Err(stopped)
            }
        }
    }

    // Makes all durable, or adds why it is not.
    fn flush_last(&mut self, session: Session<P, Operator>) -> Result<()> {
        let mut session = session;
        let outcome = session.flush();
        drop(session.into_db().into_pages());
        match outcome {
            Outcome::Refused(error) => {
                let told = write!(&mut self.lines.out.text, "not flushed: {error}\n");
                drop(error);
                Ok(told?)
            }
            other => {
                drop(other);
                Ok(())
            }
        }
    }

    // Ends a session at the end of its lines. If what was done lasts, all of it is durable then.
    fn close<W: Write>(&mut self, state: State<P, H>, output: &mut W) -> Result<()> {
        match state {
            State::Open(session) if H::lasts() => self.flush_last(session)?,
            state => drop(state.into_held()),
        }
        write(output, &mut self.lines.out.text)
    }

    // Answers all lines.
    fn run<W: Write, S: Source<W>>(
        &mut self,
        rt: &HostRuntime,
        source: &mut S,
        output: &mut W,
    ) -> Result<()> {
        let mut state = self.start(output)?;
        for _ in 0..u64::MAX {
            let (left, verb) = self.live(state, source, output)?;
            state = left;
            if let Verb::Quit = verb {
                break;
            }
            state = self.run_named(rt, state, verb, output)?;
        }
        self.close(state, output)?;
        Ok(output.flush()?)
    }

    // Answers all lines of a session that is run again and again.
    fn run_swept(&mut self, source: &mut Repeats<'_>, output: &mut Vec<u8>) -> Result<()> {
        let state = self.start(output)?;
        let (state, _) = self.live(state, source, output)?;
        drop(state.into_held());
        Ok(())
    }
}

// Sessions that are run again and again, over stores in memory.
struct Swept;

impl Sessions for Swept {
    fn run(&self, alloc: Global, source: &mut Repeats<'_>, output: &mut Vec<u8>) -> Result<bool> {
        let mut shell = Shell::new(alloc, Memory::nothing(alloc), false, true);
        let ran = shell.run_swept(source, output);
        let good = shell.lines.is_good();
        drop(shell);
        ran?;
        Ok(good)
    }
}

/// Runs the lines of an input as a session over what lives there: whether each of them could be read.
pub fn run<P: Pages, H: Home<Store = P, Opened = Db<P, Operator>>, R: BufRead + Drop, W: Write>(
    rt: &HostRuntime,
    home: H,
    input: R,
    output: &mut W,
    prompts: bool,
) -> Result<bool> {
    let mut shell = Shell::new(rt.alloc(), home, prompts, false);
    let mut source = Input::new(input, prompts);
    let ran = shell.run(rt, &mut source, output);
    let good = shell.lines.is_good();
    drop(shell);
    ran?;
    Ok(good)
}
