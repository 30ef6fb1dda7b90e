//! Pages of a range: its first pairs, from either end.
ghost use Rattle.std.specs.Prelude.{◌≡◌, take, IfErr, IfOk};
ghost use Rattle.machine_shared.specs.Orders.{in_order};
ghost use Rattle.machine_shared.specs.theory.Orders.{Begun, Gives, StopsWalk};

use sled_nodes::{IVec, Result};
use sled_store::Pages;
use std::alloc::Global;
use tree_reads::Iter;

// The next pair in the order in which they are read, if there is one.
#[tactic(auto, using(crate::proofs::Paging::first_gives, crate::proofs::Paging::last_gives))]
fn next_of<P: Pages>(pairs: &mut Iter<'_, P>, back: bool) -> Option<Result<(IVec, IVec)>>
    requires { Begun pairs.old }
    ensures { Gives P.store back pairs.old result pairs.new }
{
    if back {
        pairs.next_back()
    } else {
        pairs.next()
    }
}

// The pairs that are still to come, in the order in which they are read, so many at the most.
#[tactic(auto, using(crate::proofs::Paging::stops_before, crate::proofs::Paging::walk_lacks))]
pub(crate) fn taken<P: Pages>(
    alloc: Global,
    pairs: &mut Iter<'_, P>,
    back: bool,
    most: usize,
) -> Result<Vec<(IVec, IVec)>>
    requires { Begun pairs.old }
    ensures ok { IfOk result (λ page. page.items ≡ take most (in_order back pairs.old.pairs)) }
    ensures err { IfErr result (StopsWalk P.store back pairs.old) }
{
    let mut page = Vec::new(alloc);
    for _place in 0..most {
        match next_of(pairs, back) {
            Some(Ok(pair)) => page.push(pair)?,
            Some(Err(e)) => {
                drop(page);
                return Err(e);
            }
            None => return Ok(page),
        }
    }
    Ok(page)
}
