//! Writes of a group.
ghost use Rattle.std.specs.Prelude.{◌≡◌, false, OnOk, IfErr};
ghost use Rattle.sled_model.specs.Refusal.{needs_operator};
ghost use Rattle.sled_model.specs.State.{IsOnKey};
ghost use Rattle.sled_store.specs.Store.{now};
ghost use Rattle.tree_groups.specs.Groups.{MakesGroup, LeavesGroup};
ghost use Rattle.tree_groups.specs.Writes.{IsFresh, MakesWrite, StopsWriting};

use sled_nodes::Result;
use sled_store::Pages;
use sled_tree::InFlight;
use std::alloc::Global;
use tree_groups::KeyWrite;

/// One write, in whatever group is open.
pub fn write<P: Pages>(pages: &mut P, alloc: Global, flight: InFlight) -> Result<()>
    requires fresh { IsFresh flight }
    requires on_key { IsOnKey flight.job.call }
    requires plain { needs_operator flight.job.call ≡ false }
    ensures ok { OnOk result (MakesWrite flight.job (P.store pages.old) (P.store pages.new)) }
    ensures err { IfErr result (StopsWriting flight.job (P.store pages.old) (P.store pages.new)) }
{
    tree_groups::write(pages, alloc, flight)
}

/// Writes that a crash leaves all or not at all.
pub fn write_group<P: Pages>(pages: &mut P, alloc: Global, writes: &[KeyWrite]) -> Result<()>
    requires outside { (now (P.store pages.old)).in_group ≡ false }
    ensures ok { OnOk result (MakesGroup writes.now (P.store pages.old) (P.store pages.new)) }
    ensures err { IfErr result (LeavesGroup writes.now (P.store pages.old) (P.store pages.new)) }
{
    tree_groups::write_group(pages, alloc, writes)
}
