//! All trees and pairs, as lines that make them again.

use line_words::print::Piece::{Text, Word};
use shell_words::tell::{Result, Told, tell, tell_refused};
use sled::Db;
use sled_model::{Collection, MergeOperator};
use sled_nodes::IVec;
use sled_store::Pages;

// Adds the line that makes a pair again.
fn tell_insert(out: &mut Told, pair: &(IVec, IVec)) -> Result<()> {
    let (key, value) = (Word(pair.0.as_ref()), Word(pair.1.as_ref()));
    tell(
        out,
        &[Text(b"insert "), key, Text(b" "), value, Text(b"\n")],
    )
}

// Adds the line that makes a tree again, and those of its pairs.
fn tell_tree(out: &mut Told, tree: &Collection) -> Result<()> {
    tell(out, &[Text(b"tree "), Word(tree.1.as_slice()), Text(b"\n")])?;
    for pair in tree.2.as_slice() {
        tell_insert(out, pair)?;
    }
    Ok(())
}

fn tell_trees(out: &mut Told, trees: &[Collection]) -> Result<()> {
    for tree in trees {
        tell_tree(out, tree)?;
    }
    Ok(())
}

/// Adds the lines that make all trees and pairs of a database again over an empty one.
pub fn tell_again<P: Pages, M: MergeOperator>(db: &Db<P, M>, out: &mut Told) -> Result<()> {
    match db.export() {
        Ok(trees) => {
            let told = tell_trees(out, trees.as_slice());
            drop(trees);
            told
        }
        Err(error) => tell_refused(out, error),
    }
}
