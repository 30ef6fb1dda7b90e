//! Drawings of a tree of a database, and counts of its pages, from the pages as they are.

use shell_words::choices::Drawing;
use shell_words::draw::draw;
use shell_words::levels::count_levels;
use shell_words::tell::{Result, Told, tell_refused};
use sled::Db;
use sled_model::{MergeOperator, Tree};
use sled_pages::MemPages;
use sled_store::Pages;
use std::alloc::Global;

/// Adds a drawing of a tree, with links only if its pages are kept in memory; or how many pages it has.
pub fn tell_drawn<P: Pages, M: MergeOperator>(
    alloc: Global,
    db: &Db<P, M>,
    tree: &Tree,
    kept: Option<&MemPages>,
    drawing: Option<Drawing>,
    out: &mut Told,
) -> Result<()> {
    if let Err(error) = db.check(tree) {
        return tell_refused(out, error);
    }
    let (pages, name) = (db.pages(), tree.name.as_ref());
    let drawn = match drawing {
        Some(drawing) => draw(alloc, pages, kept, name, drawing, &mut out.text),
        None => count_levels(alloc, pages, name, &mut out.text),
    };
    match drawn {
        Ok(()) => Ok(()),
        Err(error) => tell_refused(out, error),
    }
}
