//! The levels of a tree, from its pages.

use crate::page_parts::entries_of;
use line_words::print::Piece::{Number, Text};
use line_words::print::push_pieces;
use sled_nodes::{Pid, Result};
use sled_store::Pages;
use std::alloc::Global;
use std::ops::Bound;

// The pages of a level: how many there are, the most entries of one of them, and the first page of the level below.
#[derive(Clone, Copy)]
struct Level {
    pages: u64,
    most: usize,
    below: Option<Pid>,
}

// Counts a page of a level, and returns the next one.
fn count<P: Pages>(alloc: Global, pages: &P, pid: Pid, level: &mut Level) -> Result<Option<Pid>> {
    let Some(view) = pages.read(alloc, pid)? else {
        return Ok(None);
    };
    let next = view.node.next;
    let entries = entries_of(&view.node);
    // The first pointer of a level is at the least key.
    let first = view.node.pointer(Bound::Included(b""));
    drop(view);
    if let (0, Some((pid, _))) = (level.pages, first) {
        level.below = Some(pid);
    }
    level.pages = level.pages.saturating_add(1);
    level.most = entries.max(level.most);
    Ok(next)
}

// The level that begins with a page.
fn level_from<P: Pages>(alloc: Global, pages: &P, first: Pid) -> Result<Level> {
    let mut level = Level {
        pages: 0,
        most: 0,
        below: None,
    };
    let mut next = Some(first);
    for _ in 0..u64::MAX {
        let Some(pid) = next else {
            break;
        };
        next = count(alloc, pages, pid, &mut level)?;
    }
    Ok(level)
}

// Adds the line of the level that begins with a page, and returns the first page of the level below.
fn push_level<P: Pages>(
    alloc: Global,
    pages: &P,
    first: Pid,
    out: &mut Vec<u8>,
) -> Result<Option<Pid>> {
    let level = level_from(alloc, pages, first)?;
    let (count, most) = (Number(level.pages), Number(level.most as u64));
    push_pieces(
        out,
        &[Text(b"level "), count, Text(b" "), most, Text(b"\n")],
    )?;
    Ok(level.below)
}

/// Adds a line for each level of the tree of this name, from the root down. Refused if a page cannot be read, or with `NoMemory`.
pub fn count_levels<P: Pages>(
    alloc: Global,
    pages: &P,
    name: &[u8],
    out: &mut Vec<u8>,
) -> Result<()> {
    let mut first = pages.root(name);
    for levels in 0..u64::MAX {
        let Some(pid) = first else {
            return push_pieces(out, &[Text(b"end "), Number(levels), Text(b"\n")]);
        };
        first = push_level(alloc, pages, pid, out)?;
    }
    Ok(())
}
