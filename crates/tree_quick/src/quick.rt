//! A whole call on a key over a clean path.
ghost use Rattle.std.specs.Prelude.{◌≡◌, true, IfOk, IfErr, IfSome, IfNone, Option, Some};
ghost use Rattle.std.specs.Option.{option_map};
ghost use Rattle.sled_nodes.specs.declared.error.Error.TheVariants.{NoMemory};
ghost use Rattle.sled_store.specs.Store.{now};
ghost use Rattle.sled_nodes.specs.Node.{value_at};
ghost use Rattle.sled_model.specs.Answer.{key_of};
ghost use Rattle.sled_model.specs.Maps.{Merge};
ghost use Rattle.sled_model.specs.State.{IsOnKey};
ghost use Rattle.sled_model.specs.declared.reply.Reply.TheVariants.{Value};
ghost use Rattle.sled_tree.specs.Passing.{IsUnchanged};
ghost use Rattle.sled_tree.specs.declared.flight.InFlight.{InFlight};
ghost use Rattle.tree_quick.specs.theory.Quick.{as_begun, RunsStraight, IsCleanFor, IsGet, IsRead, FindsLeaf, LeadsToLeaf, comes_to, links_now};

use sled_model::{Call, Decision, Effect, MergeOperator, Reply, Tree};
use sled_nodes::{Data, Link, Node, Pid, Result};
use sled_store::{Pages, View};
use sled_tree::{Change, lies_under};
use std::alloc::Global;
use std::ops::Bound;

// A walk that comes so deep is left to a call in flight, which counts its turns.
const MOST_LEVELS: u64 = 1_000;

// The outcome of a call at its leaf.
#[derive(Drop)]
pub(crate) enum AtLeaf {
    // It changes nothing, and replies.
    Replies(Reply),
    // It links a change.
    Links(Change),
}

// Whether nothing is to be repaired at a page, and the key is under it.
#[inline(always)]
fn is_clean(node: &Node, first: bool, key: &[u8]) -> bool
    ensures { result ≡ true → IsCleanFor key.now first node.now }
{
    !node.merging
        && node.merging_child.is_none()
        && !node.should_split()
        && (first || !node.should_merge())
        && lies_under(node, Bound::Included(key))
}

// A page, if it is there and can be read.
#[inline(always)]
fn read<P: Pages>(pages: &P, alloc: Global, pid: Pid) -> Option<View>
    ensures { IfSome result (IsRead (P.store pages.now) pid) }
{
    match pages.read(alloc, pid) {
        Ok(view) => view,
        Err(e) => {
            drop(e);
            None
        }
    }
}

// The leaf of a key, if the path to it is clean.
#[inline(always)]
fn clean_leaf<P: Pages>(pages: &P, alloc: Global, root: Pid, key: &[u8]) -> Option<View>
    ensures leads { IfSome result (LeadsToLeaf (P.store pages.now) root key.now) }
    ensures here { IfSome result (IsUnchanged (now (P.store pages.now))) }
{
    let mut pid = root;
    let mut first = true;
    for passed in 0..MOST_LEVELS {
        let Some(view) = read(pages, alloc, pid) else {
            return None;
        };
        if !is_clean(&view.node, first, key) {
            drop(view);
            return None;
        }
        if let Data::Leaf(_) = &view.node.content {
            return Some(view);
        }
        match view.node.pointer(Bound::Included(key)) {
            None => {
                drop(view);
                return None;
            }
            Some((child, is_first)) => {
                pid = child;
                first = is_first;
            }
        }
        drop(view);
    }
    None
}

// The outcome of a call at its leaf, by the operator of its tree.
#[inline(always)]
fn decide<M: MergeOperator>(
    alloc: Global,
    call: &Call,
    node: &Node,
    operator: Option<&M>,
) -> Result<AtLeaf>
    ensures ok { IfOk result (comes_to (option_map (λ o. M.meant o.now) operator.entry) call.now node.now.content) }
    ensures err { IfErr result (λ e. e ≡ NoMemory) }
{
    let value = node.get(call.key())?;
    let Decision { effect, reply } = call.at_link(alloc, value, operator)?;
    match effect {
        Effect::Nothing => Ok(AtLeaf::Replies(reply)),
        Effect::Set(value) => match call.clone_key(alloc) {
            Ok(key) => Ok(AtLeaf::Links(Change {
                link: Link::Set(key, value),
                reply,
            })),
            Err(e) => {
                drop(value);
                drop(reply);
                Err(e)
            }
        },
        Effect::Remove => match call.clone_key(alloc) {
            Ok(key) => Ok(AtLeaf::Links(Change {
                link: Link::Del(key),
                reply,
            })),
            Err(e) => {
                drop(reply);
                Err(e)
            }
        },
    }
}

// Links a change at the version of a leaf that was just read. It drops the leaf before, so that a store may change it in place.
#[inline(always)]
fn link<P: Pages>(pages: &mut P, leaf: View, change: Change) -> Result<Reply>
    requires { IsUnchanged (now (P.store pages.old)) leaf }
    ensures { links_now change leaf (P.store pages.old) result (P.store pages.new) }
{
    let Change { link, reply } = change;
    let (pid, version) = (leaf.pid, leaf.version);
    drop(leaf);
    match pages.link(pid, version, link) {
        Ok(Ok(_)) => Ok(reply),
        Ok(Err(_)) => unreachable!(),
        Err(e) => {
            drop(reply);
            Err(e)
        }
    }
}

// Makes a call at its leaf, which was just read.
#[inline(always)]
fn end_at<P: Pages, M: MergeOperator>(
    pages: &mut P,
    alloc: Global,
    operator: Option<&M>,
    call: &Call,
    leaf: View,
) -> Result<Reply>
    requires on_key { IsOnKey call.now }
    requires here { IsUnchanged (now (P.store pages.old)) leaf }
    ensures { (f : InFlight) → f.job.call ≡ call.now → FindsLeaf (P.store pages.old) f leaf → RunsStraight (option_map (λ o. M.meant o.now) operator.entry) (P.store pages.old) f result (P.store pages.new) }
{
    match decide(alloc, call, &leaf.node, operator) {
        Err(e) => {
            drop(leaf);
            Err(e)
        }
        Ok(AtLeaf::Replies(reply)) => {
            drop(leaf);
            Ok(reply)
        }
        Ok(AtLeaf::Links(change)) => link(pages, leaf, change),
    }
}

// The reply of a get at its leaf, which was just read.
#[inline(always)]
fn value_of(leaf: View, call: &Call) -> Result<Reply>
    ensures ok { IfOk result (λ reply. reply ≡ Value (value_at leaf.node.content (key_of call.now))) }
    ensures err { IfErr result (λ e. e ≡ NoMemory) }
{
    let found = leaf.node.get(call.key());
    drop(leaf);
    match found {
        Ok(value) => Ok(Reply::Value(value)),
        Err(e) => Err(e),
    }
}

// Makes a get. It is apart from the calls that may change something, so that they do not slow it down.
#[inline(never)]
fn get_quick<P: Pages>(pages: &P, alloc: Global, tree: &Tree, call: &Call) -> Option<Result<Reply>>
    requires { IsGet call.now }
    ensures { IfSome result (λ made. (operator : Option Merge) → RunsStraight operator (P.store pages.now) (as_begun tree.now call.now) made (P.store pages.now)) }
{
    let Some(root) = pages.root(tree.name.as_ref()) else {
        return None;
    };
    let Some(leaf) = clean_leaf(pages, alloc, root, call.key()) else {
        return None;
    };
    Some(value_of(leaf, call))
}

// Makes a call that may change its leaf.
#[inline(never)]
fn change_quick<P: Pages, M: MergeOperator>(
    pages: &mut P,
    alloc: Global,
    operator: Option<&M>,
    tree: &Tree,
    call: &Call,
) -> Option<Result<Reply>>
    requires { IsOnKey call.now }
    ensures made { IfSome result (λ made. RunsStraight (option_map (λ o. M.meant o.now) operator.entry) (P.store pages.old) (as_begun tree.now call.now) made (P.store pages.new)) }
    ensures nothing { IfNone result (pages.new ≡ pages.old) }
{
    let Some(root) = pages.root(tree.name.as_ref()) else {
        return None;
    };
    let Some(leaf) = clean_leaf(pages, alloc, root, call.key()) else {
        return None;
    };
    Some(end_at(pages, alloc, operator, call, leaf))
}

/// Makes a call on a key of a tree, if nothing is to be repaired on the way to its leaf, by the steps that a call in flight makes there.
/// Else it does nothing, and answers `None`.
///
/// ```
/// match make_quick(&mut pages, alloc, operator, &tree, &call) {
///     Some(made) => made, // It was decided or refused.
///     None => (),         // It is to be made in flight, from its begin.
/// }
/// ```
#[inline(always)]
pub fn make_quick<P: Pages, M: MergeOperator>(
    pages: &mut P,
    alloc: Global,
    operator: Option<&M>,
    tree: &Tree,
    call: &Call,
) -> Option<Result<Reply>>
    requires { IsOnKey call.now }
    ensures made { IfSome result (λ made. RunsStraight (option_map (λ o. M.meant o.now) operator.entry) (P.store pages.old) (as_begun tree.now call.now) made (P.store pages.new)) }
    ensures nothing { IfNone result (pages.new ≡ pages.old) }
{
    match call {
        Call::Get(_) => get_quick(pages, alloc, tree, call),
        _ => change_quick(pages, alloc, operator, tree, call),
    }
}
