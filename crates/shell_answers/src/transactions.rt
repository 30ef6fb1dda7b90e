//! Transactions that lines spell, run and printed.

use crate::attempt::{Answers, Attempted, GivenUp};
use crate::inside::{perform_on_tree, perform_on_trees};
use line_words::input::Stopped;
use line_words::print::Piece::Text;
use shell_words::script::{Reach, Script, read_script};
use shell_words::tell::{Result, Told, tell, tell_refused};
use shell_words::words::words_of;
use sled::{Db, TransactionError, TransactionResult, TransactionalTree, TransactionalTrees};
use sled_model::{MergeOperator, Tree};
use sled_store::Pages;
use std::alloc::Global;
use std::cell::Cell;

/// The outcome of a transaction.
pub type Ended = TransactionResult<(), GivenUp>;

/// A transaction while it is run: what it does, and what the parts of its last attempt answered.
pub struct Run {
    alloc: Global,
    script: Script,
    answers: Cell<Answers>,
}

impl Run {
    // What words spell, not yet run. They were compared before.
    fn new(alloc: Global, words: &[&[u8]], reach: Reach) -> Result<Run> {
        match read_script(alloc, words, reach) {
            Ok(script) => Ok(Run {
                alloc,
                script,
                answers: Cell::new(Answers::none(alloc)),
            }),
            Err(_) => Err(Stopped),
        }
    }

    /// What a text spells on one tree, not yet run.
    pub fn on_one_tree(alloc: Global, text: Option<&[u8]>) -> Result<Run> {
        let words = words_of(alloc, text)?;
        let run = Run::new(alloc, words.as_slice(), Reach::One);
        drop(words);
        run
    }

    /// What words spell on a list of trees, not yet run.
    pub fn on_list(alloc: Global, words: &[&[u8]]) -> Result<Run> {
        Run::new(alloc, words, Reach::List)
    }

    /// One attempt in a transaction of one tree. What the parts answered in an attempt before is forgotten.
    pub fn attempt_on_tree<P: Pages>(&self, tree: &mut TransactionalTree<'_, P>) -> Attempted {
        let mut answers = Answers::none(self.alloc);
        let attempted = attempt_on_tree(&mut answers, tree, &self.script);
        self.answers.set(answers);
        attempted
    }

    /// The same in a transaction of several trees.
    pub fn attempt_on_trees<P: Pages>(&self, trees: &mut TransactionalTrees<'_, P>) -> Attempted {
        let mut answers = Answers::none(self.alloc);
        let attempted = attempt_on_trees(&mut answers, trees, &self.script);
        self.answers.set(answers);
        attempted
    }

    /// Adds what the parts answered, and the outcome of the transaction.
    pub fn tell(self, out: &mut Told, ended: Ended) -> Result<()> {
        let Run {
            alloc: _,
            script,
            answers,
        } = self;
        drop(script);
        let answers = answers.into_inner();
        let told = tell(out, &[Text(shown_of(&answers, &ended))]);
        drop(answers);
        told.and(tell_ending(out, ended))
    }
}

// Does all parts of a script on a tree, up to one that is refused, and ends as it says.
fn attempt_on_tree<P: Pages>(
    answers: &mut Answers,
    tree: &mut TransactionalTree<'_, P>,
    script: &Script,
) -> Attempted {
    for part in script.parts.as_slice() {
        answers.take(part, perform_on_tree(tree, part))?;
    }
    answers.end(script)
}

// The same on several trees.
fn attempt_on_trees<P: Pages>(
    answers: &mut Answers,
    trees: &mut TransactionalTrees<'_, P>,
    script: &Script,
) -> Attempted {
    for part in script.parts.as_slice() {
        answers.take(part, perform_on_trees(trees, part))?;
    }
    answers.end(script)
}

// What is printed of the parts: nothing if it was none of them that was refused, but the transaction.
fn shown_of<'a>(answers: &'a Answers, ended: &Ended) -> &'a [u8] {
    match ended {
        Err(TransactionError::Storage(_)) if !answers.is_refused => b"",
        _ => answers.text.as_slice(),
    }
}

// Adds the outcome of a transaction.
fn tell_ending(out: &mut Told, ended: Ended) -> Result<()> {
    match ended {
        Ok(()) => tell(out, &[Text(b"committed\n")]),
        Err(TransactionError::Abort(GivenUp::Asked)) => tell(out, &[Text(b"aborted\n")]),
        Err(TransactionError::Abort(GivenUp::Stopped)) => Err(Stopped),
        Err(TransactionError::Storage(e)) => tell_refused(out, e),
    }
}

// Runs it on a tree. Nothing is said of what that does, so that no function that prints it has more to prove.
fn run_on_tree<P: Pages, M: MergeOperator>(db: &mut Db<P, M>, tree: &Tree, run: &Run) -> Ended {
    db.transaction(tree, |tree| run.attempt_on_tree(tree))
}

/// Runs the transaction that words spell on a tree of a database, and adds what each part answers and how that came out.
pub fn tell_owned_transaction<P: Pages, M: MergeOperator>(
    alloc: Global,
    db: &mut Db<P, M>,
    tree: &Tree,
    words: &[u8],
    out: &mut Told,
) -> Result<()> {
    let run = Run::on_one_tree(alloc, Some(words))?;
    let ended = run_on_tree(db, tree, &run);
    run.tell(out, ended)
}
