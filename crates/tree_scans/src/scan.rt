//! One step of a scan.
//!
//! Most steps give a pair of the leaf that was read, and touch no page. So what such a step does is inlined, and copies nothing but
//! the pair.
ghost use Rattle.std.specs.Prelude.{◌≡◌, ◌<◌, IfOk, IfErr, None};
ghost use Rattle.sled_nodes.specs.Among.{bound_of};
ghost use Rattle.sled_nodes.specs.declared.error.Error.TheVariants.{NoMemory};
ghost use Rattle.sled_model.specs.Scan.{is_read};
ghost use Rattle.sled_model.specs.State.{IsOnKey, range_of};
ghost use Rattle.tree_laws.specs.declared.flight.Stage.TheVariants as stage;
ghost use Rattle.sled_tree.specs.Stages.{IsOnItsWay};
ghost use Rattle.sled_tree.specs.theory.Linking.{StepsBy};
ghost use Rattle.tree_scans.specs.Scans.{ScanStep, aim_behind, range_behind, rest_in};
ghost use Rattle.tree_scans.specs.theory.Scans.{ComesBehind, ComesTo, IsRangeOf, range_between};

use sled_model::{Call, MAX_LOOPS, MergeOperator, Reply};
use sled_nodes::{Error, IVec, Node, Result, is_reversed, lend_bound};
use sled_store::Pages;
use sled_tree::{Aim, Giving, InFlight, Job, Stage, Went};
use std::alloc::Global;
use std::mem;
use std::ops::Bound;

// The bounds that a scan reads between, and whether it reads backwards.
#[derive(Clone, Copy)]
struct Bounds<'a> {
    lo: Bound<&'a [u8]>,
    hi: Bound<&'a [u8]>,
    back: bool,
}

// The outcome of a scan at its leaf.
#[derive(Drop)]
enum AtLeaf {
    // The next pair that waits.
    Pair(IVec, IVec),
    // None waits, and nothing is left to read.
    End,
    // None waits, and the scan goes on here.
    GoesOn(Aim),
}

// The range of a scan from where it goes on.
#[inline(always)]
fn bounds_from<'a>(call: &'a Call, aim: &'a Aim) -> Bounds<'a>
    requires { IsOnKey call.now → ⊥ }
    ensures { IsRangeOf call.now aim.now (range_between (bound_of result.lo) (bound_of result.hi) result.back) }
{
    let Call::Scan { lo, hi, back } = call else {
        unreachable!();
    };
    let (lo, hi, back) = (lend_bound(lo), lend_bound(hi), *back);
    match aim {
        Aim::Own => Bounds { lo, hi, back },
        Aim::At(bound) => {
            if back {
                Bounds {
                    lo,
                    hi: lend_bound(bound),
                    back,
                }
            } else {
                Bounds {
                    lo: lend_bound(bound),
                    hi,
                    back,
                }
            }
        }
    }
}

// Whether nothing is left to read behind a leaf.
fn is_read_behind(node: &Node, bounds: Bounds) -> bool
    ensures { result ≡ is_read (range_behind node.now (range_between (bound_of bounds.entry.lo) (bound_of bounds.entry.hi) bounds.entry.back)) }
{
    if bounds.back {
        node.lo.len() == 0 || is_reversed(bounds.lo, Bound::Excluded(node.lo.as_ref()))
    } else {
        node.hi.len() == 0 || is_reversed(Bound::Included(node.hi.as_ref()), bounds.hi)
    }
}

// Where a scan goes on behind a leaf.
fn behind(node: &Node, back: bool) -> Result<Aim>
    ensures ok { IfOk result (λ aim. aim ≡ aim_behind node.now back) }
    ensures err { IfErr result (λ e. e ≡ NoMemory) }
{
    if back {
        Ok(Aim::At(Bound::Excluded(node.lo.clone()?)))
    } else {
        Ok(Aim::At(Bound::Included(node.hi.clone()?)))
    }
}

// What comes if none of the leaf's pairs waits.
fn at_end(node: &Node, bounds: Bounds) -> Result<AtLeaf>
    ensures ok { IfOk result (ComesBehind node.now (range_between (bound_of bounds.entry.lo) (bound_of bounds.entry.hi) bounds.entry.back)) }
    ensures err { IfErr result (λ e. e ≡ NoMemory) }
{
    if is_read_behind(node, bounds) {
        Ok(AtLeaf::End)
    } else {
        Ok(AtLeaf::GoesOn(behind(node, bounds.back)?))
    }
}

// Takes the next pair that waits, if one does.
#[inline(always)]
fn at_leaf(job: &Job, aim: &Aim, giving: &mut Giving) -> Result<AtLeaf>
    requires { IsOnKey job.now.call → ⊥ }
    ensures ok { IfOk result (ComesTo job.now.call aim.now giving.old giving.new) }
    ensures err { IfErr result (λ e. e ≡ NoMemory) }
{
    // No leaf has so many pairs that this overflows.
    let Some(given) = giving.given.checked_add(1) else {
        return Err(Error::NoMemory);
    };
    let bounds = bounds_from(&job.call, aim);
    match giving
        .leaf
        .node
        .pair_within(bounds.lo, bounds.hi, bounds.back, giving.given)?
    {
        Some((key, value)) => {
            giving.given = given;
            Ok(AtLeaf::Pair(key, value))
        }
        None => at_end(&giving.leaf.node, bounds),
    }
}

// Whether the bounds of a scan that reads the root give nothing.
#[inline(always)]
fn has_none(job: &Job, aim: &Aim) -> bool
    requires { IsOnKey job.now.call → ⊥ }
    ensures { result ≡ is_read (rest_in stage.Root aim.now (range_of job.now.call)) }
{
    let bounds = bounds_from(&job.call, aim);
    is_reversed(bounds.lo, bounds.hi)
}

// The scan goes on from the root, to where its leaf ended.
fn begin_behind(flight: &mut InFlight, aim: Aim)
    ensures { flight.new ≡ record (flight.old) { aim = aim; stage = stage.Root } }
{
    let old = mem::replace(&mut flight.aim, aim);
    drop(old);
    let old = mem::replace(&mut flight.stage, Stage::Root);
    drop(old);
}

// Does what every call does on its way to a leaf. A scan asks for no operator.
#[inline(always)]
fn walk<P: Pages>(pages: &mut P, alloc: Global, flight: &mut InFlight) -> Went
    requires room { flight.old.turns < MAX_LOOPS }
    requires way { IsOnItsWay flight.old.stage }
    ensures { StepsBy None (P.store pages.old) flight.old result (P.store pages.new) flight.new }
{
    sled_tree::advance::<P, Box<dyn MergeOperator + Send>>(pages, alloc, None, flight)
}

/// Does one step of a scan that has turns left: at most one page action. It asks for no operator.
///
/// ```
/// let mut flight = InFlight::new(tree, Call::scan(alloc, Bound::Unbounded, Bound::Unbounded, false)?);
/// let went = tree_scans::advance(&mut pages, alloc, &mut flight); // It reads the root.
/// ```
pub fn advance<P: Pages>(pages: &mut P, alloc: Global, flight: &mut InFlight) -> Went
    requires room { flight.old.turns < MAX_LOOPS }
    requires scan { IsOnKey flight.old.job.call → ⊥ }
    ensures { ScanStep (StepsBy None) (P.store pages.old) flight.old result (P.store pages.new) flight.new }
{
    match &mut flight.stage {
        Stage::Give(giving) => match at_leaf(&flight.job, &flight.aim, giving) {
            Err(e) => Went::Refused(e),
            Ok(AtLeaf::Pair(key, value)) => {
                flight.turns = 0;
                Went::Yielded(key, value)
            }
            Ok(AtLeaf::End) => Went::Decided(Reply::End),
            Ok(AtLeaf::GoesOn(aim)) => {
                begin_behind(flight, aim);
                walk(pages, alloc, flight)
            }
        },
        Stage::Root => {
            if has_none(&flight.job, &flight.aim) {
                Went::Decided(Reply::End)
            } else {
                walk(pages, alloc, flight)
            }
        }
        _ => walk(pages, alloc, flight),
    }
}
