//! Pages one by one: how they are read, and what is asked of each by itself.
ghost use Rattle.std.specs.Prelude.{ℕ, ◌≡◌, ◌<◌, ◌≤◌, ◌⊎◌, ◌++◌, [], true, false, Some, None, IfOk, IfErr, OnOk};
ghost use Rattle.std.specs.FinMap.{is_sorted};
ghost use Rattle.std.specs.List.{All};
ghost use Rattle.std.specs.Cmp.Lexicographic.{slice_cmp};
ghost use Rattle.std.specs.Ordering.{nat_cmp};
ghost use Rattle.sled_nodes.specs.Order.{Key, Below, UpTo};
ghost use Rattle.sled_nodes.specs.Prefix.{behind};
ghost use Rattle.sled_nodes.specs.Node.{count as count_of, Within, pointers as pointers_in};
ghost use Rattle.sled_nodes.specs.declared.error.Error.TheVariants.{NoMemory};
ghost use Rattle.sled_store.specs.In.{In};
ghost use Rattle.sled_store.specs.Store.{now};
ghost use Rattle.tree_laws.specs.Forest.{IsNodeAt, later, first_child as child_of_first, first_key};
ghost use Rattle.tree_check.specs.Check.{RefusesCheck, IsFinding};
ghost use Rattle.tree_check.specs.theory.Tree.{IsPage};
ghost use Rattle.tree_check.specs.theory.Walk.{RefusesPage, IsRead};

use crate::findings::{
    MIXED_PAGES, TOO_MANY_ENTRIES, WRONG_ENTRIES, WRONG_MERGE, WRONG_POINTER_KEY, corruption,
};
use sled_nodes::{Data, Fault, IVec, Index, Leaf, Node, Pid, Result};
use sled_store::{Pages, View};
use std::alloc::Global;
use std::cmp::Ordering;

// A page has at most so many entries, and a merging child so many.
const MOST: usize = 33;

const MOST_OF_A_CHILD: usize = 17;

/// The page of this number. If there is none the fault says so.
pub fn page_at<P: Pages>(alloc: Global, pages: &P, pid: Pid, fault: Fault) -> Result<View>
    requires { IsFinding fault }
    ensures ok { IfOk result (IsRead (now (P.store pages.now)) pid) }
    ensures err { IfErr result (RefusesCheck (P.store pages.now)) }
{
    match pages.read(alloc, pid) {
        Ok(Some(view)) => Ok(view),
        Ok(None) => Err(corruption(fault)),
        Err(e) => Err(e),
    }
}

// How a key compares to another one, of the bytes that it begins with and those behind them.
fn compare_whole(front: &[u8], rest: &[u8], key: &[u8]) -> Ordering
    ensures { result ≡ slice_cmp nat_cmp (front.now ++ rest.now) key.now }
{
    let count = front.len();
    if key.len() < count {
        return front.cmp(key);
    }
    let first = front.cmp(&key[..count]);
    if first.is_eq() {
        return rest.cmp(&key[count..]);
    }
    first
}

// Whether a key is at or above a bound, of the bytes that it begins with and those behind them.
#[tactic(auto, unfolding(sled_nodes::specs::Order::key_cmp))]
fn is_from(front: &[u8], rest: &IVec, lo: &IVec) -> bool
    ensures { result ≡ true → UpTo lo.now (front.now ++ rest.now) }
{
    !compare_whole(front, rest.as_ref(), lo.as_ref()).is_lt()
}

// Whether a key is below a bound, of the bytes that it begins with and those behind them. The empty bound is none.
#[tactic(auto, unfolding(sled_nodes::specs::Order::key_cmp))]
fn is_below(front: &[u8], rest: &IVec, hi: &IVec) -> bool
    ensures { result ≡ true → (hi.now ≡ []) ⊎ Below (front.now ++ rest.now) hi.now }
{
    hi.len() == 0 || compare_whole(front, rest.as_ref(), hi.as_ref()).is_lt()
}

// Whether the keys ascend.
fn ascends<V>(entries: &[(IVec, V)]) -> bool
    ensures { result ≡ true → is_sorted (slice_cmp nat_cmp) entries.now ≡ true }
{
    for i in 1..entries.len() {
        if !entries[i - 1].0.as_ref().cmp(entries[i].0.as_ref()).is_lt() {
            return false;
        }
    }
    true
}

// Whether the keys of entries ascend and are within the bounds, of the bytes that all begin with and the entries behind them. Where the keys
// ascend the first and the last of them tell of all.
fn are_sound<V>(front: &[u8], rests: &[(IVec, V)], lo: &IVec, hi: &IVec) -> bool
    ensures sorted { result ≡ true → is_sorted (slice_cmp nat_cmp) (behind front.now rests.now) ≡ true }
    ensures within { result ≡ true → All (λ e. Within lo.now hi.now e.0) (behind front.now rests.now) }
{
    if rests.is_empty() {
        return true;
    }
    let (first, last) = (&rests[0].0, &rests[rests.len() - 1].0);
    if !ascends(rests) {
        return false;
    }
    if !is_from(front, first, lo) {
        return false;
    }
    is_below(front, last, hi)
}

// Whether a pointer but the first leads to the page.
fn is_later(pointers: &[(IVec, Pid)], child: Pid) -> bool
    ensures { result ≡ true → (k : Key) × In (k, child) (later pointers.now) }
{
    for i in 1..pointers.len() {
        if pointers[i].1 == child {
            return true;
        }
    }
    false
}

/// How many entries a page has.
pub fn count(node: &Node) -> usize
    ensures { result ≡ count_of node.now.content }
{
    match &node.content {
        Data::Leaf(leaf) => leaf.len(),
        Data::Index(index) => index.len(),
    }
}

/// The pointers of a page; a leaf has none.
pub fn pointers_of(alloc: Global, node: &Node) -> Result<Vec<(IVec, Pid)>>
    ensures ok { IfOk result (λ list. list.items ≡ pointers_in node.now.content) }
    ensures err { IfErr result (λ e. e ≡ NoMemory) }
{
    match &node.content {
        Data::Leaf(_) => Ok(Vec::new(alloc)),
        Data::Index(index) => index.pairs(alloc),
    }
}

/// The page under the first pointer.
pub fn first_child(alloc: Global, node: &Node) -> Result<Option<Pid>>
    ensures ok { IfOk result (λ child. child ≡ child_of_first (pointers_in node.now.content)) }
    ensures err { IfErr result (λ e. e ≡ NoMemory) }
{
    let list = match pointers_of(alloc, node) {
        Ok(list) => list,
        Err(e) => return Err(e),
    };
    let child = match list.first() {
        Some(pointer) => Some(pointer.1),
        None => None,
    };
    drop(list);
    Ok(child)
}

// Whether an index begins at a key.
fn begins_at(index: &Index, lo: &IVec) -> bool
    ensures { result ≡ true → first_key index.now ≡ Some lo.now }
{
    let rests = index.rests();
    if rests.len() == 0 {
        return false;
    }
    compare_whole(index.prefix(), rests[0].0.as_ref(), lo.as_ref()).is_eq()
}

// Whether a pointer of an index but the first leads to the page.
fn leads_later(index: &Index, child: Pid) -> bool
    ensures { result ≡ true → (k : Key) × In (k, child) (later index.now) }
{
    is_later(index.rests(), child)
}

// Tests an index by itself.
fn check_index(node: &Node, index: &Index) -> Result<()>
    ensures sorted { OnOk result (is_sorted (slice_cmp nat_cmp) index.now ≡ true) }
    ensures within { OnOk result (All (λ e. Within node.now.lo node.now.hi e.0) index.now) }
    ensures first { OnOk result (first_key index.now ≡ Some node.now.lo) }
    ensures child { OnOk result ((c : ℕ) → node.now.merging_child ≡ Some c → (k : Key) × In (k, c) (later index.now)) }
    ensures err { IfErr result RefusesPage }
{
    if index.len() == 0 {
        return Err(corruption(WRONG_ENTRIES));
    }
    if !begins_at(index, &node.lo) {
        return Err(corruption(WRONG_POINTER_KEY));
    }
    if !are_sound(index.prefix(), index.rests(), &node.lo, &node.hi) {
        return Err(corruption(WRONG_ENTRIES));
    }
    if let Some(child) = node.merging_child {
        if !leads_later(index, child) {
            return Err(corruption(WRONG_MERGE));
        }
    }
    Ok(())
}

// Tests a leaf by itself.
fn check_leaf(node: &Node, leaf: &Leaf) -> Result<()>
    ensures sorted { OnOk result (is_sorted (slice_cmp nat_cmp) leaf.now ≡ true) }
    ensures within { OnOk result (All (λ e. Within node.now.lo node.now.hi e.0) leaf.now) }
    ensures child { OnOk result (node.now.merging_child ≡ None) }
    ensures err { IfErr result RefusesPage }
{
    if node.merging_child.is_some() {
        return Err(corruption(WRONG_MERGE));
    }
    if !are_sound(leaf.prefix(), leaf.rests(), &node.lo, &node.hi) {
        return Err(corruption(WRONG_ENTRIES));
    }
    Ok(())
}

// Tests what a page of this height has.
fn check_content(node: &Node, height: u64) -> Result<()>
    ensures sound { OnOk result (IsNodeAt height node.now) }
    ensures child { OnOk result ((c : ℕ) → node.now.merging_child ≡ Some c → (k : Key) × In (k, c) (later (pointers_in node.now.content))) }
    ensures err { IfErr result RefusesPage }
{
    match &node.content {
        Data::Leaf(leaf) => {
            if height != 0 {
                return Err(corruption(MIXED_PAGES));
            }
            if let Err(e) = check_leaf(node, leaf) {
                return Err(e);
            }
            Ok(())
        }
        Data::Index(index) => {
            if let Err(e) = check_index(node, index) {
                return Err(e);
            }
            if height == 0 {
                return Err(corruption(MIXED_PAGES));
            }
            Ok(())
        }
    }
}

/// Tests a page of this height by itself.
pub fn check_page(node: &Node, height: u64) -> Result<()>
    ensures ok { OnOk result (IsPage height node.now) }
    ensures err { IfErr result RefusesPage }
{
    if count(node) > MOST {
        return Err(corruption(TOO_MANY_ENTRIES));
    }
    if node.merging && node.merging_child.is_some() {
        return Err(corruption(WRONG_MERGE));
    }
    check_content(node, height)
}

/// Tests the number of entries of a merging child.
pub fn check_merging_child(node: &Node) -> Result<()>
    ensures ok { OnOk result (count_of node.now.content ≤ 17) }
    ensures err { IfErr result RefusesPage }
{
    if count(node) > MOST_OF_A_CHILD {
        return Err(corruption(TOO_MANY_ENTRIES));
    }
    Ok(())
}
