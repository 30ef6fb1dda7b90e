//! Transactions that lines spell, run by a session.

use crate::transactions::{Ended, Run};
use line_sessions::session::Session;
use line_words::input::without_end;
use line_words::words::first_word;
use shell_words::names::{TreeNames, trees_of};
use shell_words::script::cut_first;
use shell_words::tell::{Result, Told};
use shell_words::words::words_of;
use sled_model::{MergeOperator, Tree};
use sled_store::Pages;
use std::alloc::Global;

// Runs it on the current tree. Nothing is said of what that does, so that no function that prints it has more to prove; nor below.
fn run_on_current<P: Pages, M: MergeOperator>(session: &mut Session<P, M>, run: &Run) -> Ended {
    session.transaction(|tree| run.attempt_on_tree(tree))
}

// Runs it on trees.
fn run_on_trees<P: Pages, M: MergeOperator>(
    session: &mut Session<P, M>,
    trees: &[&Tree],
    run: &Run,
) -> Ended {
    session.transaction_all(trees, |trees| run.attempt_on_trees(trees))
}

/// Runs the transaction that a line spells on the current tree, and adds what each part answers and how that came out.
pub fn tell_transaction<P: Pages, M: MergeOperator>(
    alloc: Global,
    session: &mut Session<P, M>,
    line: &[u8],
    out: &mut Told,
) -> Result<()> {
    let run = Run::on_one_tree(alloc, first_word(without_end(line)).1)?;
    let ended = run_on_current(session, &run);
    run.tell(out, ended)
}

// Runs the transaction that words spell on trees.
fn tell_on_trees<P: Pages, M: MergeOperator>(
    alloc: Global,
    session: &mut Session<P, M>,
    trees: &[Tree],
    words: &[&[u8]],
    out: &mut Told,
) -> Result<()> {
    let lent: Vec<&Tree> = trees.iter().collect(alloc)?;
    let run = Run::on_list(alloc, words)?;
    let ended = run_on_trees(session, lent.as_slice(), &run);
    run.tell(out, ended)
}

// Runs the transaction that words spell on the trees that those before the first `;` name; or adds why they name none.
fn tell_listed<P: Pages, M: MergeOperator, N: TreeNames>(
    alloc: Global,
    session: &mut Session<P, M>,
    names: &N,
    words: &[&[u8]],
    out: &mut Told,
    why: &mut Vec<u8>,
) -> Result<()> {
    let (listed, words) = cut_first(words);
    let trees = trees_of(alloc, session.tree(), names, listed, why)?;
    let told = if why.is_empty() {
        tell_on_trees(alloc, session, trees.as_slice(), words, out)
    } else {
        Ok(())
    };
    drop(trees);
    told
}

/// Runs the transaction that a line spells on the trees that it names; or adds why it names none.
pub fn tell_transaction_all<P: Pages, M: MergeOperator, N: TreeNames>(
    alloc: Global,
    session: &mut Session<P, M>,
    names: &N,
    line: &[u8],
    out: &mut Told,
    why: &mut Vec<u8>,
) -> Result<()> {
    let words = words_of(alloc, first_word(without_end(line)).1)?;
    let told = tell_listed(alloc, session, names, words.as_slice(), out, why);
    drop(words);
    told
}
