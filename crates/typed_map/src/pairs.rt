//! The pairs of an iterator, as a list.
ghost use Rattle.std.specs.Prelude.{◌≡◌, true, IfOk, IfErr, OnOk};
ghost use Rattle.std.specs.List.{AllByRecursion};
ghost use Rattle.tree_reads.specs.Prefixes.{IsBytes};
ghost use Rattle.tree_reads.specs.Walk.{RefusesWalk, once};
ghost use Rattle.typed_map.specs.Typed.{still_given};

use sled::{Iter, law_bytes};
use sled_nodes::{IVec, Result};
use sled_store::Pages;
use std::alloc::Global;
use std::iter::Iterator;

/// All pairs that an iterator still gives, which has ended then: none if it has ended already, as after a refusal. Each key is a byte
/// string, since it was given. Refused as `next` is, or for want of memory; then some pairs may be taken already.
///
/// ```
/// let mut under = db.scan_prefix(&tree, b"ul")?;
/// let pairs = all_of(alloc, &mut under)?;
/// ```
pub fn all_of<P: Pages>(alloc: Global, entries: &mut Iter<'_, P>) -> Result<Vec<(IVec, IVec)>>
    ensures all { IfOk result (λ found. found.items ≡ still_given entries.old) }
    ensures bytes { IfOk result (λ found. AllByRecursion (λ e. IsBytes e.0) found.items) }
    ensures ended { OnOk result (entries.new.ended ≡ true) }
    ensures over { (entries.new.pages ≡ entries.old.pages) × (entries.new.root ≡ entries.old.root) }
    ensures err { IfErr result (RefusesWalk once (P.store entries.old.pages) entries.old.root) }
{
    let mut found = Vec::new(alloc);
    while let Some(entry) = entries.next() {
        let pair = match entry {
            Ok(pair) => pair,
            Err(e) => {
                drop(found);
                return Err(e);
            }
        };
        law_bytes(pair.0.as_ref());
        found.push(pair)?;
    }
    Ok(found)
}
