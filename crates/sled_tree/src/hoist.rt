//! A new root over the old one and the page beside it: it is made, and then it is set.
ghost use Rattle.std.specs.Prelude.{◌≡◌, [], ◌∷◌, IfOk, IfErr};
ghost use Rattle.sled_nodes.specs.declared.error.Error.TheVariants.{NoMemory};
ghost use Rattle.tree_laws.specs.Stages.{IsOver};
ghost use Rattle.sled_tree.specs.Course.{course};
ghost use Rattle.sled_tree.specs.theory.StageAction.{StageAction};
ghost use Rattle.sled_tree.specs.Follows.{OrRefused, Hoists, SwapsTheRoot};

use crate::flight::{Aim, Job, Sequel};
use sled_nodes::{Data, IVec, Index, Node, Pid, Result};
use sled_store::{Pages, law_given};
use std::alloc::Global;
use tree_laws::flight::{Hoist, Orphan, Stage, SwapRoot};

// Two pointers: to the root now, and to the page beside it.
fn pointers_to(alloc: Global, left: Pid, at: &IVec, right: Pid) -> Result<Index>
    ensures ok { IfOk result (λ index. index ≡ ([], left) ∷ (at.now, right) ∷ []) }
    ensures err { IfErr result (λ e. e ≡ NoMemory) }
{
    let first = IVec::from_slice(alloc, &[])?;
    let second = match at.clone() {
        Ok(second) => second,
        Err(e) => {
            drop(first);
            return Err(e);
        }
    };
    let pointers = [(first, left), (second, right)];
    let index = Index::from_pairs(alloc, &pointers);
    drop(pointers);
    index
}

// An index over the whole range of keys with two pointers.
fn root_over(alloc: Global, left: Pid, at: &IVec, right: Pid) -> Result<Node>
    ensures ok { IfOk result (λ node. IsOver node left at.now right) }
    ensures err { IfErr result (λ e. e ≡ NoMemory) }
{
    let lo = IVec::from_slice(alloc, &[])?;
    let hi = match IVec::from_slice(alloc, &[]) {
        Ok(hi) => hi,
        Err(e) => {
            drop(lo);
            return Err(e);
        }
    };
    match pointers_to(alloc, left, at, right) {
        Ok(index) => Ok(Node {
            lo,
            hi,
            next: None,
            merging: false,
            merging_child: None,
            content: Data::Index(index),
        }),
        Err(e) => {
            drop(lo);
            drop(hi);
            Err(e)
        }
    }
}

// Makes the new root.
pub(crate) fn hoist<P: Pages>(
    pages: &mut P,
    alloc: Global,
    job: &Job,
    aim: &Aim,
    hoist: Hoist,
) -> Sequel
    ensures moves { StageAction (course job.now aim.now) (P.store pages.old) (Stage.Hoist hoist) result (P.store pages.new) }
    ensures follows { OrRefused (P.store pages.old) (P.store pages.new) result (Hoists (P.store pages.old) (P.store pages.new) hoist result) }
{
    let Hoist { left, at, right } = hoist;
    let over = root_over(alloc, left, &at, right);
    drop(at);
    let root = match over {
        Err(e) => return Sequel::Refused(e),
        Ok(root) => root,
    };
    let (new, version) = match pages.allocate(root) {
        Err(e) => return Sequel::Refused(e),
        Ok(given) => given,
    };
    law_given(pages);
    Sequel::Go(Stage::SwapRoot(SwapRoot {
        old: left,
        new,
        version,
    }))
}

// Sets the new root, if the old one is still the root.
pub(crate) fn swap_root<P: Pages>(
    pages: &mut P,
    job: &Job,
    aim: &Aim,
    swap_root: SwapRoot,
) -> Sequel
    ensures moves { StageAction (course job.now aim.now) (P.store pages.old) (Stage.SwapRoot swap_root) result (P.store pages.new) }
    ensures follows { OrRefused (P.store pages.old) (P.store pages.new) result (SwapsTheRoot job.now.tree.name (P.store pages.old) (P.store pages.new) swap_root result) }
{
    match pages.cas_root(
        job.tree.name.as_ref(),
        Some(swap_root.old),
        Some(swap_root.new),
    ) {
        Err(e) => Sequel::Refused(e),
        Ok(Err(_)) => Sequel::Go(Stage::Free(Orphan {
            pid: swap_root.new,
            version: swap_root.version,
        })),
        Ok(Ok(())) => Sequel::Go(Stage::Root),
    }
}
