//! Writes of a group.
ghost use Rattle.std.specs.Prelude.{◌≡◌, false, OnOk, IfErr};
ghost use Rattle.sled_model.specs.Refusal.{needs_operator};
ghost use Rattle.sled_model.specs.State.{IsOnKey};
ghost use Rattle.sled_store.specs.Store.{now};
ghost use Rattle.tree_groups.specs.Groups.{job_of, MakesGroup, LeavesGroup};
ghost use Rattle.tree_groups.specs.theory.Groups.{MakesKnown, StopsKnown, WritesAll, StopsWritingAll};
ghost use Rattle.tree_groups.specs.Writes.{IsFresh, MakesWrite, StopsWriting, OpenGroupLaw, RefusedGroupLaw, SealedGroupLaw, GroupBoundsLaw};

use crate::key_write::{KeyWrite, call_of};
use crate::leaf::{link_write, write_again};
use sled_model::{MAX_LOOPS, MergeOperator};
use sled_nodes::texts::WALK_PASSED_TURNS;
use sled_nodes::{Error, Pid, Result};
use sled_store::Pages;
use sled_tree::{InFlight, Went, advance};
use std::alloc::Global;

/// Makes one write: the steps of a call on a key that has yet to begin, repairs included, until it ends. A call that is refused leaves
/// the repairs that it made, and changes no map. It asks for no operator, so no merge can be written so; and it sends no event to
/// subscribers.
///
/// ```
/// pages.begin_group()?;
/// write(&mut pages, alloc, sled_tree::InFlight::new(tree, call))?;
/// pages.seal_group()?; // A crash leaves the write with its repairs, or neither.
/// ```
pub fn write<P: Pages>(pages: &mut P, alloc: Global, flight: InFlight) -> Result<()>
    requires fresh { IsFresh flight }
    requires on_key { IsOnKey flight.job.call }
    requires plain { needs_operator flight.job.call ≡ false }
    ensures ok { OnOk result (MakesWrite flight.job (P.store pages.old) (P.store pages.new)) }
    ensures err { IfErr result (StopsWriting flight.job (P.store pages.old) (P.store pages.new)) }
{
    let mut flight = flight;
    while flight.turns < MAX_LOOPS {
        let went = advance::<P, Box<dyn MergeOperator + Send>>(pages, alloc, None, &mut flight);
        match went {
            Went::Moved => {}
            Went::Yielded(_, _) => unreachable!(),
            Went::Decided(reply) => {
                drop(reply);
                drop(flight);
                return Ok(());
            }
            Went::Refused(e) => {
                drop(flight);
                return Err(e);
            }
        }
    }
    drop(flight);
    Err(Error::ReportableBug(WALK_PASSED_TURNS))
}

// Makes a write by the steps of its call, from the root of its tree.
pub(crate) fn write_from_root<P: Pages>(
    pages: &mut P,
    alloc: Global,
    key_write: &KeyWrite,
) -> Result<()>
    ensures ok { OnOk result (MakesWrite (job_of key_write.now) (P.store pages.old) (P.store pages.new)) }
    ensures err { IfErr result (StopsWriting (job_of key_write.now) (P.store pages.old) (P.store pages.new)) }
{
    match call_of(key_write) {
        Ok(flight) => write(pages, alloc, flight),
        Err(e) => Err(e),
    }
}

// Makes a write at the leaf that was read for it, or from the root. If the write before it changed that leaf, it is read again.
#[inline(always)]
fn write_key<P: Pages>(
    pages: &mut P,
    alloc: Global,
    write: &KeyWrite,
    changed: Option<Pid>,
) -> Result<()>
    ensures ok { OnOk result (MakesKnown write.now (P.store pages.old) (P.store pages.new)) }
    ensures err { IfErr result (StopsKnown write.now (P.store pages.old) (P.store pages.new)) }
{
    let Some((pid, version)) = write.leaf else {
        return write_from_root(pages, alloc, write);
    };
    if changed == Some(pid) {
        return write_again(pages, alloc, write, pid);
    }
    match link_write(pages, write, pid, version) {
        Ok(true) => Ok(()),
        Ok(false) => write_again(pages, alloc, write, pid),
        Err(e) => Err(e),
    }
}

/// Makes a group of writes: begins it, makes the writes, one after the other, and seals it. If there is none it does nothing. A group that
/// is refused after it began stays open, and a crash leaves nothing of it. A write that names its leaf is linked there, and if another
/// write of the group changed the leaf before, it is read again. The leaf is to be the one that the call of the write would have read; else
/// nothing is said of the contents.
///
/// ```
/// let mut writes = Vec::new(alloc);
/// writes.push(KeyWrite { tree: &tree, key: &key, value: &None, leaf: None })?; // A removal.
/// write_group(&mut pages, alloc, writes.as_slice())?; // A crash leaves all of the writes, or none.
/// ```
pub fn write_group<P: Pages>(pages: &mut P, alloc: Global, writes: &[KeyWrite]) -> Result<()>
    requires outside { (now (P.store pages.old)).in_group ≡ false }
    ensures ok { OnOk result (MakesGroup writes.now (P.store pages.old) (P.store pages.new)) }
    ensures err { IfErr result (LeavesGroup writes.now (P.store pages.old) (P.store pages.new)) }
{
    if writes.is_empty() {
        return Ok(());
    }
    if let Err(e) = pages.begin_group() {
        return Err(e);
    }
    if let Err(e) = write_all(pages, alloc, writes) {
        return Err(e);
    }
    pages.seal_group()
}

// Makes writes, one after the other, in an open group.
fn write_all<P: Pages>(pages: &mut P, alloc: Global, writes: &[KeyWrite]) -> Result<()>
    ensures ok { OnOk result (WritesAll writes.now (P.store pages.old) (P.store pages.new)) }
    ensures err { IfErr result (StopsWritingAll writes.now (P.store pages.old) (P.store pages.new)) }
{
    let mut changed = None;
    for write in writes {
        if let Err(e) = write_key(pages, alloc, write, changed) {
            return Err(e);
        }
        changed = match write.leaf {
            Some((pid, _)) => Some(pid),
            None => None,
        };
    }
    Ok(())
}

/// Does nothing. It says what a group adds to what a crash may leave: its end the trees that it leaves, and nothing else of it anything,
/// even if a write of it was refused.
///
/// ```
/// law_group(); // From here on a proof knows what a crash leaves of a group.
/// ```
pub fn law_group()
    ensures open { OpenGroupLaw }
    ensures refused { RefusedGroupLaw }
    ensures sealed { SealedGroupLaw }
    ensures bounds { GroupBoundsLaw }
{}
