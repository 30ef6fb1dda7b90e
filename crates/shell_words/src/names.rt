//! Trees, by the words that name them.

use crate::tell::{Result, answered, bytes_of};
use crate::words::{NO_BYTES, quote, was_read};
use line_words::print::Piece::Text;
use line_words::print::push_pieces;
use line_words::words::read_value;
use sled_model::Tree;
use std::alloc::Global;

/// What names mean.
pub trait TreeNames {
    /// The tree that a name means, if it means one.
    fn tree(&self, name: &[u8]) -> Option<&Tree>;
}

/// The tree that a word names, if it names one: `-` is the current tree.
pub fn named<'a, N: TreeNames>(
    alloc: Global,
    current: &'a Tree,
    names: &'a N,
    word: &[u8],
) -> Result<Option<&'a Tree>> {
    if word == b"-".as_slice() {
        return Ok(Some(current));
    }
    let name = bytes_of(alloc, word)?;
    let tree = names.tree(name.as_ref());
    drop(name);
    Ok(tree)
}

/// Adds that a word names no tree.
pub fn tell_unnamed(why: &mut Vec<u8>, word: &[u8]) -> Result<()> {
    answered(push_pieces(
        why,
        &[
            Text(b"`"),
            Text(word),
            Text(b"` names no tree: no line `tree` named it since the opening"),
        ],
    ))
}

// Adds the tree that a word names; or why it names none.
fn add_tree<N: TreeNames>(
    alloc: Global,
    trees: &mut Vec<Tree>,
    current: &Tree,
    names: &N,
    word: &[u8],
    why: &mut Vec<u8>,
) -> Result<()> {
    match named(alloc, current, names, word)? {
        Some(tree) => Ok(trees.push(answered(tree.clone())?)?),
        None => tell_unnamed(why, word),
    }
}

/// The trees that words name, up to the first that names none; of it is added why.
pub fn trees_of<N: TreeNames>(
    alloc: Global,
    current: &Tree,
    names: &N,
    words: &[&[u8]],
    why: &mut Vec<u8>,
) -> Result<Vec<Tree>> {
    let mut trees = Vec::new(alloc);
    for word in words {
        if let Err(stopped) = add_tree(alloc, &mut trees, current, names, *word, why) {
            drop(trees);
            return Err(stopped);
        }
        if !why.is_empty() {
            break;
        }
    }
    Ok(trees)
}

/// Adds why words can name no trees, if one of them is no byte string.
pub fn check_names(alloc: Global, words: &[&[u8]], why: &mut Vec<u8>) -> sled_nodes::Result<()> {
    for word in words {
        if !was_read(read_value(alloc, *word)?) {
            return quote(why, *word, NO_BYTES);
        }
    }
    Ok(())
}
