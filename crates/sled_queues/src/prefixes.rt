//! The subscribers of each tree, by the prefix that they watch.
ghost use Rattle.std.specs.Prelude.{◌≡◌, ℕ, ◌+◌, ◌≤◌, nat_eq, ◌&&◌, List, length, ◌++◌, ◌∷◌, [], IsTrue, OnOk, OnErr, IfErr, if◌then◌else◌};
ghost use Rattle.std.specs.Str.{bytes_eq};
ghost use Rattle.sled_nodes.specs.Order.{Key};
ghost use Rattle.sled_nodes.specs.declared.error.Error.TheVariants.{NoMemory};
ghost use Rattle.sled_queues.specs.Lists.{at_prefix, at_length, lists_of};
ghost use Rattle.sled_queues.specs.theory.Lists.{without, at_beginnings, has_some};

use sled_nodes::{Error, Result};
use std::alloc::Global;
use std::collections::BTreeMap;

// The subscribers of each prefix of one length that some watch.
pub(crate) type Prefixes = BTreeMap<Vec<u8>, Vec<u64>>;

// .. by its length.
pub(crate) type Lengths = BTreeMap<usize, Prefixes>;

// Puts a subscriber to the end of the list of a prefix of a tree. Refused with `NoMemory` alone.
pub(crate) fn enlist(
    trees: &mut BTreeMap<u64, Lengths>,
    alloc: Global,
    tree: u64,
    prefix: &[u8],
    number: u64,
) -> Result<()>
    ensures ok { OnOk result ((t : ℕ) (p : Key) → lists_of trees.new t p ≡ (if nat_eq tree t && bytes_eq prefix.now p then lists_of trees.old t p ++ number ∷ [] else lists_of trees.old t p)) }
    ensures err { OnErr result ((t : ℕ) (p : Key) → lists_of trees.new t p ≡ lists_of trees.old t p) }
    ensures cause { IfErr result (λ e. e ≡ NoMemory) }
{
    if let Some(lengths) = trees.get_mut(&tree) {
        return put_at_length(lengths, alloc, prefix, number);
    }
    let mut lengths = BTreeMap::new(alloc);
    put_at_length(&mut lengths, alloc, prefix, number)?;
    drop(trees.insert(tree, lengths)?);
    Ok(())
}

fn put_at_length(lengths: &mut Lengths, alloc: Global, prefix: &[u8], number: u64) -> Result<()>
    ensures ok { OnOk result ((p : Key) → at_length lengths.new p ≡ (if bytes_eq prefix.now p then at_length lengths.old p ++ number ∷ [] else at_length lengths.old p)) }
    ensures err { OnErr result ((p : Key) → at_length lengths.new p ≡ at_length lengths.old p) }
    ensures cause { IfErr result (λ e. e ≡ NoMemory) }
{
    let len = prefix.len();
    if let Some(prefixes) = lengths.get_mut(&len) {
        return put_at_prefix(prefixes, alloc, prefix, number);
    }
    let mut prefixes = BTreeMap::new(alloc);
    put_at_prefix(&mut prefixes, alloc, prefix, number)?;
    drop(lengths.insert(len, prefixes)?);
    Ok(())
}

fn put_at_prefix(prefixes: &mut Prefixes, alloc: Global, prefix: &[u8], number: u64) -> Result<()>
    ensures ok { OnOk result ((p : Key) → at_prefix prefixes.new p ≡ (if bytes_eq prefix.now p then at_prefix prefixes.old p ++ number ∷ [] else at_prefix prefixes.old p)) }
    ensures err { OnErr result ((p : Key) → at_prefix prefixes.new p ≡ at_prefix prefixes.old p) }
    ensures cause { IfErr result (λ e. e ≡ NoMemory) }
{
    if let Some(numbers) = prefixes.get_mut(prefix) {
        if let Err(e) = put_number(numbers, number) {
            return Err(e);
        }
        return Ok(());
    }
    let mut numbers = Vec::new(alloc);
    put_number(&mut numbers, number)?;
    let own = Vec::from_slice(alloc, prefix)?;
    drop(prefixes.insert(own, numbers)?);
    Ok(())
}

fn put_number(list: &mut Vec<u64>, number: u64) -> Result<()>
    ensures ok { OnOk result (list.new.items ≡ list.old.items ++ number ∷ []) }
    ensures err { OnErr result (list.new.items ≡ list.old.items) }
    ensures cause { IfErr result (λ e. e ≡ NoMemory) }
{
    list.push(number)?;
    Ok(())
}

// Takes a subscriber out of the list of a prefix of a tree. What is empty then goes.
pub(crate) fn unlist(trees: &mut BTreeMap<u64, Lengths>, tree: u64, prefix: &[u8], number: u64)
    ensures { (t : ℕ) (p : Key) → lists_of trees.new t p ≡ (if nat_eq tree t && bytes_eq prefix.now p then without number (lists_of trees.old t p) else lists_of trees.old t p) }
{
    let Some(lengths) = trees.get_mut(&tree) else {
        return;
    };
    if take_at_length(lengths, prefix, number) {
        let none = trees.remove(&tree);
        drop(none);
    }
}

// .. and says whether no length is left.
fn take_at_length(lengths: &mut Lengths, prefix: &[u8], number: u64) -> bool
    ensures rest { (p : Key) → at_length lengths.new p ≡ (if bytes_eq prefix.now p then without number (at_length lengths.old p) else at_length lengths.old p) }
    ensures empty { IsTrue result → (p : Key) → at_length lengths.new p ≡ [] }
{
    let len = prefix.len();
    let Some(prefixes) = lengths.get_mut(&len) else {
        return false;
    };
    if take_at_prefix(prefixes, prefix, number) {
        let none = lengths.remove(&len);
        drop(none);
    }
    lengths.is_empty()
}

// .. and says whether no prefix is left.
fn take_at_prefix(prefixes: &mut Prefixes, prefix: &[u8], number: u64) -> bool
    ensures rest { (p : Key) → at_prefix prefixes.new p ≡ (if bytes_eq prefix.now p then without number (at_prefix prefixes.old p) else at_prefix prefixes.old p) }
    ensures empty { IsTrue result → (p : Key) → at_prefix prefixes.new p ≡ [] }
{
    let Some(numbers) = prefixes.get_mut(prefix) else {
        return false;
    };
    if take_number(numbers, number) {
        let none = prefixes.remove(prefix);
        drop(none);
    }
    prefixes.is_empty()
}

// Takes a number out of a list, and says whether none is left.
fn take_number(list: &mut Vec<u64>, number: u64) -> bool
    ensures rest { list.new.items ≡ without number list.old.items }
    ensures empty { IsTrue result → list.new.items ≡ [] }
{
    list.retain(|n| *n != number);
    list.is_empty()
}

// The subscribers of a prefix.
fn numbers_at<'a>(lengths: &'a Lengths, prefix: &[u8]) -> &'a [u64]
    ensures { result.now ≡ at_length lengths.now prefix.now }
{
    match lengths.get(&prefix.len()) {
        Some(prefixes) => numbers_in(prefixes, prefix),
        None => &[],
    }
}

fn numbers_in<'a>(prefixes: &'a Prefixes, prefix: &[u8]) -> &'a [u64]
    ensures { result.now ≡ at_prefix prefixes.now prefix.now }
{
    match prefixes.get(prefix) {
        Some(numbers) => numbers.as_slice(),
        None => &[],
    }
}

// How many beginnings of a key, the shortest first, may be watched.
fn beginnings(lengths: &Lengths, key: &[u8]) -> usize
    ensures within { result ≤ length key.now + 1 }
    ensures rest { at_beginnings (at_length lengths.now) key.now result ≡ at_beginnings (at_length lengths.now) key.now (length key.now + 1) }
{
    let Some((longest, _)) = lengths.last_key_value() else {
        return 0;
    };
    if *longest < key.len() {
        return *longest + 1;
    }
    key.len() + 1
}

// Whether some subscriber watches a beginning of a key.
pub(crate) fn any_in(lengths: &Lengths, key: &[u8]) -> bool
    ensures { result ≡ has_some (at_beginnings (at_length lengths.now) key.now (length key.now + 1)) }
{
    for len in 0..beginnings(lengths, key) {
        if !numbers_at(lengths, &key[..len]).is_empty() {
            return true;
        }
    }
    false
}

// Puts the subscribers of a tree that watch a beginning of a key to the end of a list. Refused with `NoMemory` alone, and then the
// list may have some of them.
pub(crate) fn find(
    trees: &BTreeMap<u64, Lengths>,
    tree: u64,
    key: &[u8],
    found: &mut Vec<u64>,
) -> Result<()>
    ensures ok { OnOk result (found.new.items ≡ found.old.items ++ at_beginnings (lists_of trees.now tree) key.now (length key.now + 1)) }
    ensures err { OnErr result ((more : List ℕ) × (found.new.items ≡ found.old.items ++ more)) }
    ensures cause { IfErr result (λ e. e ≡ NoMemory) }
{
    match trees.get(&tree) {
        Some(lengths) => find_in(lengths, key, found),
        None => Ok(()),
    }
}

fn find_in(lengths: &Lengths, key: &[u8], found: &mut Vec<u64>) -> Result<()>
    ensures ok { OnOk result (found.new.items ≡ found.old.items ++ at_beginnings (at_length lengths.now) key.now (length key.now + 1)) }
    ensures err { OnErr result ((more : List ℕ) × (found.new.items ≡ found.old.items ++ more)) }
    ensures cause { IfErr result (λ e. e ≡ NoMemory) }
{
    for len in 0..beginnings(lengths, key) {
        let numbers = numbers_at(lengths, &key[..len]);
        if found.extend_from_slice(numbers).is_err() {
            return Err(Error::NoMemory);
        }
    }
    Ok(())
}
