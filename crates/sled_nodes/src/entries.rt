//! The entries of a node. Those of a foreign node may be out of order; all others are searched by halves.
ghost use Rattle.std.specs.Prelude.{◌≡◌, ◌<◌, [], true, false, not, length, IfOk, IfErr, OnOk, OnErr, IfSome, MatchOption, MatchBool};
ghost use Rattle.sled_nodes.specs.declared.error.Error.TheVariants.{NoMemory};
ghost use Rattle.std.specs.FinMap.Entries.{put, find, where_key};
ghost use Rattle.std.specs.Option.{option_copied};
ghost use Rattle.std.specs.List.{list_any, remove, slice_get};
ghost use Rattle.std.specs.Cmp.Lexicographic.{slice_cmp};
ghost use Rattle.std.specs.Ordering.{nat_cmp, eq_by_cmp};
ghost use Rattle.sled_nodes.specs.Among.{bound_of, is_up_to as within_upper, is_from as within_lower};
ghost use Rattle.sled_nodes.specs.Ranges.{pairs_in};
ghost use Rattle.std.specs.declared.ops.Bound.TheVariants.{Unbounded};
ghost use Rattle.sled_nodes.specs.theory.Places.{IsFirstAt, IsLastAt, IsPlaceOf};
ghost use Rattle.sled_nodes.specs.theory.Rising.{IsOut};
ghost use Rattle.sled_nodes.specs.theory.Fronts.{front as front_is, IsFrontOf};

use crate::error::Result;
use crate::order::{front_of, front_of_bound};
use crate::{IVec, among, ascending, pairs};
use std::alloc::Global;
use std::marker::Model;
use std::ops::Bound;

/// Pairs of a key and something else. Contracts see them as the list.
pub struct Entries<V> {
    list: Vec<(IVec, V)>,
    // If this is set the keys ascend. If it is not they may yet.
    ascends: bool,
}

// By hand, so that each function that drops entries cites this, and does not prove again how its parts are dropped.
impl<V: Drop> Drop for Entries<V> {
    fn drop(self) {
        let Entries { list, ascends: _ } = self;
        drop(list);
    }
}

impl<V> Model for Entries<V> {
    ghost use Rattle.std.specs.Prelude.{◌≡◌, true, List, ℕ};
    ghost use Rattle.std.specs.Cmp.Lexicographic.{slice_cmp};
    ghost use Rattle.std.specs.Ordering.{nat_cmp};
    ghost use Rattle.std.specs.FinMap.{is_sorted};

    ghost Value = { List (List ℕ × V) };

    ghost view = { λ a. a.list.items };

    ghost invariant = { λ a. a.ascends ≡ true → is_sorted (slice_cmp nat_cmp) a.list.items ≡ true };
}

impl<V> Entries<V> {
    /// The entries of a list.
    pub fn new(list: Vec<(IVec, V)>) -> Entries<V>
        ensures { result ≡ list.items }
    {
        let ascends = ascending::ascends(list.as_slice());
        Entries { list, ascends }
    }

    /// The same entries, from a copy of their list.
    pub fn copied(&self, list: Vec<(IVec, V)>) -> Entries<V>
        requires { list.items ≡ self.now }
        ensures { result ≡ self.now }
    {
        Entries {
            list,
            ascends: self.ascends,
        }
    }

    /// The list.
    pub fn as_slice(&self) -> &[(IVec, V)]
        ensures { result.now ≡ self.now }
    {
        self.list.as_slice()
    }

    /// The allocator of the list.
    #[inline(always)]
    pub fn alloc(&self) -> Global {
        *self.list.allocator()
    }

    /// Whether there is none.
    #[inline(always)]
    pub fn is_empty(&self) -> bool
        ensures { MatchBool result (self.now ≡ []) (self.now ≡ [] → ⊥) }
    {
        self.list.is_empty()
    }

    /// How many there are.
    pub fn len(&self) -> usize
        ensures { result ≡ length self.now }
    {
        self.list.len()
    }

    /// What is at a key, whose front this is.
    #[inline(always)]
    pub fn get(&self, key: &[u8], front: u64) -> Option<&V>
        requires { front ≡ front_is key.now }
        ensures { option_copied result ≡ find (slice_cmp nat_cmp) key.now self.now }
    {
        if self.ascends {
            pairs::value_in(self.list.as_slice(), key, front)
        } else {
            pairs::value_at(self.list.as_slice(), key, false)
        }
    }

    /// The place of a key, `Some(None)` if it has none, and `None` if that takes a look at all entries.
    pub fn place_alone(&self, key: &[u8]) -> Option<Option<usize>>
        ensures { IfSome result (IsOut (λ e. not (eq_by_cmp (slice_cmp nat_cmp) key.now e.0)) self.now) }
    {
        if !self.ascends {
            return None;
        }
        match ascending::search(self.list.as_slice(), key, front_of(key)) {
            Ok(i) => Some(Some(i)),
            Err(_) => Some(None),
        }
    }

    /// The place of the last entry whose key is within an upper bound, whose key has this front. The bound's key is looked for at the place `near` first.
    #[inline(always)]
    pub fn last_place(&self, bound: Bound<&[u8]>, front: u64, near: usize) -> Option<usize>
        requires { IsFrontOf front (bound_of bound) }
        ensures { MatchOption result (list_any (λ e. within_upper (bound_of bound.entry) e.0) self.now ≡ false) (IsLastAt (λ e. within_upper (bound_of bound.entry) e.0) self.now) }
    {
        if self.ascends {
            ascending::last_place(self.list.as_slice(), bound, front, near)
        } else {
            among::last_place(self.list.as_slice(), bound)
        }
    }

    /// The place of the first entry whose key is within a lower bound, whose key has this front. The bound's key is looked for at the place `near` first.
    #[inline(always)]
    pub fn first_place(&self, bound: Bound<&[u8]>, front: u64, near: usize) -> Option<usize>
        requires { IsFrontOf front (bound_of bound) }
        ensures { MatchOption result (list_any (λ e. within_lower (bound_of bound.entry) e.0) self.now ≡ false) (IsFirstAt (λ e. within_lower (bound_of bound.entry) e.0) self.now) }
    {
        if self.ascends {
            ascending::first_place(self.list.as_slice(), bound, front, near)
        } else {
            among::first_place(self.list.as_slice(), bound)
        }
    }
}

impl<V: Drop> Entries<V> {
    /// Puts an entry in its place. Refused with `NoMemory` alone, and then unchanged.
    pub fn put(&mut self, key: IVec, value: V) -> Result<()>
        ensures ok { OnOk result (self.new ≡ put (slice_cmp nat_cmp) key value self.old) }
        ensures err { OnErr result (self.new ≡ self.old) }
        ensures cause { IfErr result (λ e. e ≡ NoMemory) }
    {
        pairs::put_pair(&mut self.list, key, value, self.ascends)
    }

    /// Takes the entry at a place out.
    pub fn remove(&mut self, i: usize)
        requires { i < length self.old }
        ensures { self.new ≡ remove self.old i }
    {
        let entry = self.list.remove(i);
        drop(entry);
    }
}

impl Entries<IVec> {
    /// How many pairs have a key within an upper bound.
    pub fn count_up_to(&self, bound: Bound<&[u8]>) -> usize
        ensures { result ≡ length (pairs_in (record { lo = Unbounded; hi = bound_of bound.entry; back = false }) self.now) }
    {
        let list = self.list.as_slice();
        if self.ascends {
            ascending::count_up_to(list, bound, front_of_bound(bound), ascending::NOWHERE)
        } else {
            among::count_within(list, Bound::Unbounded, bound)
        }
    }

    /// The place of the pair that is at a place of those within two bounds, from the least key up or from the greatest down.
    pub fn place_within(
        &self,
        lo: Bound<&[u8]>,
        hi: Bound<&[u8]>,
        back: bool,
        place: usize,
    ) -> Option<usize>
        ensures { IsPlaceOf (slice_get (pairs_in (record { lo = bound_of lo.entry; hi = bound_of hi.entry; back = back }) self.now) place) self.now result }
    {
        if self.ascends {
            ascending::place_within(self.list.as_slice(), lo, hi, back, place)
        } else {
            among::place_within(self.list.as_slice(), lo, hi, back, place)
        }
    }
}
