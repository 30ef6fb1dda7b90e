//! Lines that ask a database.

use crate::again::tell_again;
use crate::drawn::tell_drawn;
use crate::fetch::fetch;
use crate::fill::{MOST, tell_filled};
use crate::home::Home;
use crate::known::tell_known;
use crate::look::tell_look;
use crate::owned::make_owned;
use crate::session_transactions::{tell_transaction, tell_transaction_all};
use crate::shell::Shell;
use crate::state::State;
use crate::stats::tell_stats;
use line_sessions::session::Session;
use line_words::input::Stopped;
use line_words::print::Piece::{Text, Word};
use line_words::print::Shown;
use line_words::words::first_word;
use shell_words::calls::{handle_of, hearing, known_of, tell_unasked, whole_of};
use shell_words::choices::Drawing;
use shell_words::groups::group_of;
use shell_words::lines::{rest_behind, words_behind};
use shell_words::look::Look;
use shell_words::operators::{Operator, operator_of};
use shell_words::subscribers::tell_no_subscriber;
use shell_words::table::{Verb, Way};
use shell_words::tell::{Result, answered, tell, tell_refused, tell_turns, tell_whether};
use sled::Db;
use sled_model::{Outcome, Reply, Tree, Whole};
use sled_store::Pages;
use std::io::Write;

/// Whether a line is a call of the database itself.
pub fn is_owned(way: Way, verb: Verb) -> bool {
    matches!(way, Way::Owned) || matches!(verb, Verb::RemoveRange)
}

impl<P: Pages, H: Home<Store = P, Opened = Db<P, Operator>>> Shell<P, H> {
    /// Makes a tree current.
    pub fn take_tree(
        &mut self,
        session: &mut Session<P, Operator>,
        tree: sled_nodes::Result<Tree>,
    ) -> Result<()> {
        let tree = answered(tree)?;
        let name = tree.name.as_ref();
        let told = tell(
            &mut self.lines.out,
            &[Text(b"tree "), Word(name), Text(b"\n")],
        );
        session.set_tree(tree);
        told
    }

    // Makes a whole call, and adds how it came out.
    fn whole(&mut self, session: &mut Session<P, Operator>, whole: Whole) -> Result<()> {
        let shown = Shown::of_whole(&whole);
        let outcome = session.whole(whole);
        let told = match &outcome {
            Outcome::Decided(Reply::Tree(tree)) => {
                let told = self.take_tree(session, tree.clone());
                told.and(self.names.push(tree))
            }
            outcome => self
                .subscribers
                .tell_outcome(&mut self.lines.out, shown, outcome),
        };
        drop(outcome);
        told
    }

    // Takes what comes next for a subscriber, or ends it.
    fn hear(&mut self, session: &mut Session<P, Operator>, verb: Verb) -> Result<()> {
        match self.subscribers.named(self.lines.arguments.number()) {
            Some(subscriber) => self.whole(session, hearing(verb, subscriber)),
            None => tell_no_subscriber(&mut self.lines.out),
        }
    }

    // Makes the group of writes that the line says, if its trees can be read.
    fn group(&mut self, session: &mut Session<P, Operator>) -> Result<()> {
        let words = rest_behind(self.lines.line.as_slice(), 1);
        let tree = session.tree();
        let group = group_of(
            self.lines.alloc,
            tree,
            &self.names,
            words,
            &mut self.lines.why,
        )?;
        if self.lines.why.is_empty() {
            return self.whole(session, Whole::Group(group));
        }
        drop(group);
        self.lines.tell_bad()
    }

    // Runs the transaction that the line says, if its trees can be read.
    fn transaction_all(&mut self, session: &mut Session<P, Operator>) -> Result<()> {
        tell_transaction_all(
            self.lines.alloc,
            session,
            &self.names,
            self.lines.line.as_slice(),
            &mut self.lines.out,
            &mut self.lines.why,
        )?;
        self.lines.tell_bad()
    }

    // Answers a read, with the words behind its own.
    fn look(&mut self, session: &Session<P, Operator>, which: Look) -> Result<()> {
        let (first, more) = first_word(rest_behind(self.lines.line.as_slice(), 1));
        let words = (first, more.unwrap_or(b""));
        tell_look(
            self.lines.alloc,
            session.db(),
            session.tree(),
            which,
            words,
            &mut self.lines.out,
        )
    }

    // Makes current what the line names.
    fn take_handle(&mut self, session: &mut Session<P, Operator>) -> Result<()> {
        session.set_tree(handle_of(self.lines.alloc, &self.lines.arguments)?);
        tell(&mut self.lines.out, &[Text(b"done\n")])
    }

    // Gives the current tree the operator that the line names.
    fn set_operator(&mut self, session: &mut Session<P, Operator>) -> Result<()> {
        let operator = operator_of(self.lines.arguments.bytes(0)).ok_or(Stopped)?;
        let answer = session.set_merge_operator(operator);
        let answer = answer.map(|()| Reply::Done);
        self.subscribers
            .tell_answer(&mut self.lines.out, Shown::Value, answer)
    }

    // Draws the current tree, or counts its pages.
    fn show(&mut self, session: &Session<P, Operator>, drawing: Option<Drawing>) -> Result<()> {
        let (db, tree) = (session.db(), session.tree());
        let kept = H::kept(db.pages());
        tell_drawn(
            self.lines.alloc,
            db,
            tree,
            kept,
            drawing,
            &mut self.lines.out,
        )
    }

    // Says how large all trees are, and the files, if there are some.
    fn stats(&mut self, session: &Session<P, Operator>) -> Result<()> {
        let told = tell_stats(session.db(), &mut self.lines.out);
        let files = H::tell_files(session.db().pages(), &mut self.lines.out);
        told.and(files)
    }

    // Takes a session apart, makes the call of its database that the line says, and makes a session again, with the same current tree. The
    // calls in flight are abandoned.
    fn on_parts(
        &mut self,
        session: Session<P, Operator>,
        verb: Verb,
    ) -> (Session<P, Operator>, Result<()>) {
        let (mut db, tree) = session.into_parts();
        let told = make_owned(&mut self.lines, &mut self.subscribers, &mut db, &tree, verb);
        (Session::with_tree(self.lines.alloc, db, tree), told)
    }

    /// Answers a line that is a call of the database itself.
    pub fn owned(&mut self, state: State<P, H>, verb: Verb) -> Result<State<P, H>> {
        let (state, told) = match state {
            State::Open(session) => {
                let (session, told) = self.on_parts(session, verb);
                (State::Open(session), told)
            }
            State::Shut(held) => (State::Shut(held), tell_unasked(&mut self.lines.out, verb)),
        };
        match told {
            Ok(()) => Ok(state),
            Err(stopped) => {
                drop(state.into_held());
                Err(stopped)
            }
        }
    }

    // Runs a line that `sledrun` knows too, or that takes a slot.
    fn known<W: Write>(
        &mut self,
        session: &mut Session<P, Operator>,
        verb: Verb,
        output: &mut W,
    ) -> Result<()> {
        let way = self.lines.way();
        let words = words_behind(self.lines.line.as_slice(), 1);
        let line = known_of(self.lines.alloc, verb, way, words, &self.lines.arguments)?;
        tell_known(session, line, output, &mut self.lines.out)
    }

    // Makes the whole call that the line says.
    fn call(&mut self, session: &mut Session<P, Operator>, verb: Verb) -> Result<()> {
        match whole_of(
            self.lines.alloc,
            session.tree(),
            verb,
            &self.lines.arguments,
        ) {
            Ok(whole) => self.whole(session, whole),
            Err(error) => tell_refused(&mut self.lines.out, error),
        }
    }

    // Reads a value and writes what is made of it, which the line says.
    fn fetch(&mut self, session: &mut Session<P, Operator>, verb: Verb) -> Result<()> {
        let answer = fetch(self.lines.alloc, session, verb, &self.lines.arguments).map(
            Reply::Value,
        );
        self.subscribers
            .tell_answer(&mut self.lines.out, Shown::Value, answer)
    }

    // Inserts as many pairs as the line says, if those are not too many.
    fn fill(&mut self, session: &mut Session<P, Operator>) -> Result<()> {
        let count = self.lines.arguments.number();
        if count > MOST {
            return self.lines.tell_above(count, MOST);
        }
        tell_filled(self.lines.alloc, session, count, &mut self.lines.out)
    }

    // Answers a line that asks a session.
    fn ask_session<W: Write>(
        &mut self,
        session: &mut Session<P, Operator>,
        verb: Verb,
        output: &mut W,
    ) -> Result<()> {
        match verb {
            Verb::Look(which) => self.look(session, which),
            Verb::Update | Verb::Fetch => self.fetch(session, verb),
            Verb::Next | Verb::Unwatch => self.hear(session, verb),
            Verb::PopMin
            | Verb::PopMax
            | Verb::Clear
            | Verb::OpenTree
            | Verb::DropTree
            | Verb::Id
            | Verb::Import
            | Verb::ImportTyped
            | Verb::ImportAll
            | Verb::Watch => self.call(session, verb),
            Verb::Group => self.group(session),
            Verb::Transaction => {
                tell_transaction(
                    self.lines.alloc,
                    session,
                    self.lines.line.as_slice(),
                    &mut self.lines.out,
                )
            }
            Verb::TransactionAll => self.transaction_all(session),
            Verb::Handle => self.take_handle(session),
            Verb::Operator => self.set_operator(session),
            Verb::DumpLines => tell_again(session.db(), &mut self.lines.out),
            Verb::Fill => self.fill(session),
            Verb::Stats => self.stats(session),
            Verb::Pages => self.show(session, None),
            Verb::Draw(drawing) => self.show(session, Some(drawing)),
            Verb::Turns => tell_turns(
                &mut self.lines.out,
                session.turns(self.lines.arguments.number()),
            ),
            Verb::Recovered => tell_whether(&mut self.lines.out, session.db().was_recovered()),
            verb => self.known(session, verb, output),
        }
    }

    /// Answers a line that asks a database.
    pub fn ask<W: Write>(
        &mut self,
        state: &mut State<P, H>,
        verb: Verb,
        output: &mut W,
    ) -> Result<()> {
        match state {
            State::Open(session) => self.ask_session(session, verb, output),
            State::Shut(_) => tell_unasked(&mut self.lines.out, verb),
        }
    }
}
