//! Groups of writes: batches on several trees, made together.

use crate::named_trees::Names;
use crate::names::{named, tell_unnamed};
use crate::tell::{Result, answered};
use line_words::batch::read_batch;
use line_words::input::Stopped;
use line_words::words::first_word;
use sled_batch::Batch;
use sled_model::Tree;
use std::alloc::Global;

/// The batch that words spell, if there are any.
pub fn batch_of(alloc: Global, words: Option<&[u8]>) -> Result<Batch> {
    answered(read_batch(alloc, words))?.ok_or(Stopped)
}

// Adds the batch that a part of a line spells, behind what names its tree; or why that names none.
fn add_part(
    alloc: Global,
    group: &mut Vec<(Tree, Batch)>,
    current: &Tree,
    names: &Names,
    part: &[u8],
    why: &mut Vec<u8>,
) -> Result<()> {
    let (word, words) = first_word(part);
    let Some(tree) = named(alloc, current, names, word)? else {
        return tell_unnamed(why, word);
    };
    let tree = answered(tree.clone())?;
    match batch_of(alloc, words) {
        Ok(batch) => Ok(group.push((tree, batch))?),
        Err(stopped) => {
            drop(tree);
            Err(stopped)
        }
    }
}

// A text up to the first `;` that is between two words, and what is behind it, if there is one.
fn cut(text: &[u8]) -> (&[u8], Option<&[u8]>) {
    for (at, _) in text.iter().enumerate() {
        if let [b' ', b';', b' ', rest @ ..] = &text[at..] {
            return (&text[..at], Some(rest));
        }
    }
    (text, None)
}

/// The group that the parts of a text spell, up to one that names no tree; of that it is added why.
pub fn group_of(
    alloc: Global,
    current: &Tree,
    names: &Names,
    text: &[u8],
    why: &mut Vec<u8>,
) -> Result<Vec<(Tree, Batch)>> {
    let (mut group, mut rest) = (Vec::new(alloc), Some(text));
    for _ in 0..u64::MAX {
        let Some(text) = rest else {
            break;
        };
        let (part, others) = cut(text);
        add_part(alloc, &mut group, current, names, part, why)?;
        rest = if why.is_empty() { others } else { None };
    }
    Ok(group)
}
