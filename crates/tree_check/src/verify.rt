//! The check of all trees.
ghost use Rattle.std.specs.Prelude.{IfErr, OnOk};
ghost use Rattle.sled_store.specs.Store.{now};
ghost use Rattle.tree_laws.specs.Crashes.{IsValid};
ghost use Rattle.tree_check.specs.Check.{RefusesCheck};

use crate::tree::check_tree;
use sled_nodes::Result;
use sled_store::Pages;
use std::alloc::Global;
use std::collections::BTreeMap;

/// Tests whether the pages are well formed, as `Db::open` asks for. Half-done splits and merges are, and nothing is asked of pages that
/// no tree has. It reads each page of each tree, and changes nothing.
///
/// Refused with `NoMemory`; with `Io` if a page cannot be read; and with `Corruption` and a code from 1 to 9, which is in `findings`. What
/// it accepts is well formed: that is proved. That it refuses nothing else, and that the code names something that is wrong, is tested
/// alone; if several things are wrong it is one of theirs:
///
/// | code | constant | what was found |
/// |---|---|---|
/// | 1 | `MISSING_ROOT` | a root names no page |
/// | 2 | `FOUND_TWICE` | a page is on two levels of a tree, or twice on one |
/// | 3 | `BROKEN_CHAIN` | the pages of a level do not begin at the empty key, have a gap, go back, or do not end unbounded |
/// | 4 | `DANGLING_POINTER` | a pointer or a `next` names no page, or a pointer one that is neither on the level below nor merging |
/// | 5 | `WRONG_POINTER_KEY` | a pointer's key is not where its page begins, or an index does not begin at its first key |
/// | 6 | `WRONG_MERGE` | a merging page is not its parent's merging child, or has one itself; or a merging child has no pointer, or only the first one |
/// | 7 | `TOO_MANY_ENTRIES` | a page has more than 33 entries, or a merging child more than 17 |
/// | 8 | `WRONG_ENTRIES` | entries do not ascend, or are outside the bounds of their page, or an index has no pointer |
/// | 9 | `MIXED_PAGES` | a leaf is among indexes, or an index among leaves, or a page in two trees |
///
/// ```
/// match verify_integrity(alloc, &pages) {
///     Ok(()) => (), // The pages are well formed.
///     Err(Error::Corruption(code)) => {
///         let is_lost = code == findings::MISSING_ROOT; // A root names no page, say.
///     }
///     Err(e) => return Err(e), // Nobody knows: there was no memory, or a page cannot be read.
/// }
/// ```
pub fn verify_integrity<P: Pages>(alloc: Global, pages: &P) -> Result<()>
    ensures ok { OnOk result (IsValid (now (P.store pages.now))) }
    ensures err { IfErr result (RefusesCheck (P.store pages.now)) }
{
    let roots = match pages.roots(alloc) {
        Ok(roots) => roots,
        Err(e) => return Err(e),
    };
    let mut levels = BTreeMap::new(alloc);
    let list = roots.as_slice();
    for i in 0..list.len() {
        if let Err(e) = check_tree(alloc, pages, list[i].1, i as u64, &mut levels) {
            drop(roots);
            drop(levels);
            return Err(e);
        }
    }
    drop(roots);
    drop(levels);
    Ok(())
}
