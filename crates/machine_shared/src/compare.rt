//! Lists of callers against the history.
ghost use Rattle.std.specs.Prelude.{◌≡◌, ◌+◌, ◌^◌, ◌<◌, ◌≤◌, ◌++◌, ◌∷◌, [], true, All, IfSome, take, length};
ghost use Rattle.sled_model.specs.Collections.{contents_of};
ghost use Rattle.machine_shared.specs.History.{made_by};
ghost use Rattle.machine_shared.specs.Made.{entry_value, entry_values, made_value, made_values};
ghost use Rattle.machine_shared.specs.Gathered.{EachOnceBehind, IsGiven, IsMadeIn, times};

use crate::entry::{Entry, Made};
use crate::handle::Handle;
use sled_model::Collection;
use sled_store::Pages;
use std::sync::ledger::Ledger;

// Whether both hold the same, collection by collection.
#[tactic(auto, using(crate::proofs::Equal::collections_same))]
pub(crate) fn are_same_collections(a: &[Collection], b: &[Collection]) -> bool
    ensures { result ≡ true → contents_of a.now ≡ contents_of b.now }
{
    a == b
}

// Whether the same was made, with the same reply or as many parts: a group is the same with the same batches, and an import with the same
// collections, wherever their vectors are.
fn is_same(a: &Made, b: &Made) -> bool
    ensures { result ≡ true → made_value a.now ≡ made_value b.now }
{
    a == b
}

// How far the list goes with one entry more, if it does.
fn goes_on(e: &Entry, number: u64, made: &[Made], k: usize) -> Option<usize>
    requires { k ≤ length made.now }
    ensures { IfSome result (λ n. (n ≤ length made.now) × (made_values (take n made.now) ≡ made_values (take k made.now) ++ made_by number (entry_value e.now ∷ []))) }
{
    if e.by != number {
        return Some(k);
    }
    if k < made.len() && is_same(&made[k], &e.made) {
        return Some(k + 1);
    }
    None
}

// Whether the list is that of the history's entries with this number.
fn agrees(history: &[Entry], number: u64, made: &[Made]) -> bool
    ensures { result ≡ true → made_values made.now ≡ made_by number (entry_values history.now) }
{
    let mut k = 0;
    for e in history {
        let Some(n) = goes_on(e, number, made, k) else {
            return false;
        };
        k = n;
    }
    k == made.len()
}

// Whether all lists are those of their callers.
pub(crate) fn all_agree<P: Pages, L: Ledger, M>(
    history: &[Entry],
    handles: &[Handle<P, L, M>],
) -> bool
    ensures { result ≡ true → All (IsMadeIn (entry_values history.now)) handles.now }
{
    for h in handles {
        if !agrees(history, h.number(), h.made()) {
            return false;
        }
    }
    true
}

// Whether every entry is that of a caller whose number was given.
pub(crate) fn has_no_others(history: &[Entry], given: u64) -> bool
    ensures { result ≡ true → All (λ e. IsGiven given e.by) history.now }
{
    for e in history {
        if e.by == 0 || e.by > given {
            return false;
        }
    }
    true
}

// How many handles have the number.
fn count_of<P: Pages, L: Ledger, M>(handles: &[Handle<P, L, M>], number: u64) -> usize
    ensures { result ≡ times handles.now number }
{
    let mut count = 0;
    for h in handles {
        if number == h.number() {
            count += 1;
        }
    }
    count
}

// Whether there are as many handles as numbers were given above these, and each of those is that of one handle.
pub(crate) fn are_all<P: Pages, L: Ledger, M>(
    handles: &[Handle<P, L, M>],
    before: u64,
    given: u64,
) -> bool
    requires { before + given < 2 ^ 64 }
    ensures count { result ≡ true → length handles.now ≡ given }
    ensures once { result ≡ true → EachOnceBehind before given handles.now }
{
    if handles.len() as u64 != given {
        return false;
    }
    for k in 0..given {
        if count_of(handles, before + (k + 1)) != 1 {
            return false;
        }
    }
    true
}
