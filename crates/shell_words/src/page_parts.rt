//! As what a store in memory keeps a page: a base, and links over it; and its keys, without what all of them begin with.

use line_words::print::Piece::{Number, Text};
use line_words::print::{push_pieces, push_text};
use line_words::words::push_word;
use sled_nodes::{Data, IVec, Node, Pid, Result};
use sled_pages::MemPages;

/// How many entries the base of a page has, and how many links are kept over it.
#[derive(Clone, Copy)]
pub struct Parts {
    pub base: usize,
    pub links: usize,
}

/// How many entries a page has.
pub fn entries_of(node: &Node) -> usize {
    match &node.content {
        Data::Leaf(leaf) => leaf.len(),
        Data::Index(index) => index.len(),
    }
}

/// As what the page of this number is kept, if there is one, and its pages say so.
pub fn parts_of(kept: Option<&MemPages>, pid: Pid) -> Option<Parts> {
    match kept?.parts(pid) {
        Some((base, links)) => Some(Parts {
            base: entries_of(base),
            links: links.len(),
        }),
        None => None,
    }
}

/// Adds the line of that.
pub fn push_parts(parts: Option<Parts>, out: &mut Vec<u8>) -> Result<()> {
    let Some(Parts { base, links }) = parts else {
        return push_pieces(out, &[Text(b"none\n")]);
    };
    let (base, links) = (Number(base as u64), Number(links as u64));
    push_pieces(
        out,
        &[Text(b"parts "), base, Text(b" "), links, Text(b"\n")],
    )
}

// Adds what each key has after what all of them begin with.
fn push_each<V>(rests: &[(IVec, V)], out: &mut Vec<u8>) -> Result<()> {
    for rest in rests {
        push_text(out, b" ")?;
        push_word(out, rest.0.as_ref())?;
    }
    Ok(())
}

/// Adds the line of what all keys of a page begin with, and what each of them has after that.
pub fn push_rests(node: &Node, out: &mut Vec<u8>) -> Result<()> {
    push_text(out, b"rests ")?;
    match &node.content {
        Data::Leaf(leaf) => {
            push_word(out, leaf.prefix())?;
            push_each(leaf.rests(), out)?;
        }
        Data::Index(index) => {
            push_word(out, index.prefix())?;
            push_each(index.rests(), out)?;
        }
    }
    push_text(out, b"\n")
}
