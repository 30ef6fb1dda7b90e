//! The entries of a node, kept without the longest beginning that all their keys have.
ghost use Rattle.std.specs.Prelude.{◌≡◌, ◌<◌, ◌≤◌, ◌++◌, [], true, false, not, nat_eq, nat_le, ℕ, length, slice_index_or, IfOk, IfErr, OnOk, OnErr, IfSome, IfNone, MatchOption, Some, None, is_none, if◌then◌else◌};
ghost use Rattle.sled_nodes.specs.declared.error.Error.TheVariants.{NoMemory};
ghost use Rattle.std.specs.FinMap.Entries.{put, find, where_key};
ghost use Rattle.std.specs.Option.{option_copied};
ghost use Rattle.std.specs.List.{list_any, list_all, remove, slice_get};
ghost use Rattle.std.specs.Cmp.Lexicographic.{slice_cmp};
ghost use Rattle.std.specs.Ordering.{nat_cmp, eq_by_cmp};
ghost use Rattle.sled_nodes.specs.Among.{bound_of, is_up_to as within_upper, is_from as within_lower, IsSuccessor, IsPredecessor, IsPointerFor, IsPointerBefore};
ghost use Rattle.sled_nodes.specs.Prefix.{prefix_of, rests_of, behind, IsStripped};
ghost use Rattle.sled_nodes.specs.theory.Stripped.{IsEntry, IsRest};
ghost use Rattle.sled_nodes.specs.Order.{Key, key_cmp};
ghost use Rattle.sled_nodes.specs.Node.{unpointed, without};
ghost use Rattle.sled_nodes.specs.Halves.{first_half, second_half, first_key};
ghost use Rattle.sled_nodes.specs.theory.Places.{IsFirstAt, IsLastAt, IsPlaceOf};
ghost use Rattle.sled_nodes.specs.theory.Rising.{IsOut};
ghost use Rattle.sled_nodes.specs.Ranges.{pairs_in};
ghost use Rattle.std.specs.declared.ops.Bound.TheVariants.{Unbounded};

use crate::ascending::NOWHERE;
use crate::entries::Entries;
use crate::error::Result;
use crate::held::Held;
use crate::order::{front_of, front_of_bound};
use crate::prefix::{
    cut_keys, front_behind, front_of_rest, is_apart, keys_cut, lower_behind, prefix_len, rest_of,
    upper_behind,
};
use crate::{IVec, Pid, among, pairs};
use std::alloc::Global;
use std::marker::Model;
use std::ops::Bound;

/// The pairs of a leaf, or the pointers of an index. Contracts see the list of them, with whole keys.
pub struct Stripped<V> {
    // The longest beginning that all keys have; of no key it is empty.
    prefix: IVec,
    // What each key has behind it.
    rests: Entries<V>,
}

// By hand, so that each function that drops entries cites this, and does not prove again how its parts are dropped.
impl<V: Drop> Drop for Stripped<V> {
    fn drop(self) {
        let Stripped { prefix, rests } = self;
        drop(prefix);
        drop(rests);
    }
}

impl<V> Model for Stripped<V> {
    ghost use Rattle.std.specs.Prelude.{List, ℕ};
    ghost use Rattle.sled_nodes.specs.Prefix.{behind, IsStripped};

    ghost Value = { List (List ℕ × V) };

    ghost view = { λ a. behind a.prefix a.rests };

    ghost invariant = { λ a. IsStripped a.prefix a.rests };
}

impl<V> Stripped<V> {
    /// The longest beginning that all keys have: of no key it is empty, and of one it is that key. It takes no memory.
    ///
    /// ```
    /// let prefix = leaf.prefix(); // Of `user:1`, `user:2` and `user:31` it is `user:`.
    /// ```
    pub fn prefix(&self) -> &[u8]
        ensures { result.now ≡ prefix_of self.now }
    {
        self.prefix.as_ref()
    }

    /// What each key has behind that beginning, with the key's value or page number. It takes no memory.
    ///
    /// ```
    /// let rests = leaf.rests(); // Of `user:1`, `user:2` and `user:31` they are `1`, `2` and `31`.
    /// ```
    pub fn rests(&self) -> &[(IVec, V)]
        ensures { result.now ≡ rests_of self.now }
    {
        self.rests.as_slice()
    }

    /// How many entries there are.
    ///
    /// ```
    /// let count = leaf.len();
    /// ```
    pub fn len(&self) -> usize
        ensures { result ≡ length self.now }
    {
        self.rests.len()
    }

    // What is at a key.
    #[inline(always)]
    pub(crate) fn get(&self, key: &[u8]) -> Option<&V>
        ensures { option_copied result ≡ find (slice_cmp nat_cmp) key.now self.now }
    {
        if self.prefix.is_nothing() {
            return self.rests.get(key, front_of(key));
        }
        self.get_behind(key)
    }

    // The same, called if there is a prefix.
    #[inline(never)]
    fn get_behind(&self, key: &[u8]) -> Option<&V>
        ensures { option_copied result ≡ find (slice_cmp nat_cmp) key.now self.now }
    {
        match rest_of(&self.prefix, key) {
            Some(rest) => self.rests.get(rest, front_behind(key, self.prefix.len())),
            None => None,
        }
    }

    // The place of a key, `Some(None)` if it has none, and `None` if that takes a look at all entries.
    fn place_alone(&self, key: &[u8]) -> Option<Option<usize>>
        ensures { IfSome result (IsOut (λ e. not (eq_by_cmp (slice_cmp nat_cmp) key.now e.0)) self.now) }
    {
        match rest_of(&self.prefix, key) {
            Some(rest) => self.rests.place_alone(rest),
            None => Some(None),
        }
    }

    // The place of the last entry whose key is within an upper bound. The bound's key is looked for at the place `near` first.
    #[inline(always)]
    fn last_place(&self, bound: Bound<&[u8]>, near: usize) -> Option<usize>
        ensures { MatchOption result (list_any (λ e. within_upper (bound_of bound.entry) e.0) self.now ≡ false) (IsLastAt (λ e. within_upper (bound_of bound.entry) e.0) self.now) }
    {
        if self.prefix.is_nothing() {
            return self.rests.last_place(bound, front_of_bound(bound), near);
        }
        self.last_behind(bound, near)
    }

    // The same, called if there is a prefix.
    #[inline(never)]
    fn last_behind(&self, bound: Bound<&[u8]>, near: usize) -> Option<usize>
        ensures { MatchOption result (list_any (λ e. within_upper (bound_of bound.entry) e.0) self.now ≡ false) (IsLastAt (λ e. within_upper (bound_of bound.entry) e.0) self.now) }
    {
        match upper_behind(&self.prefix, bound) {
            Some(rest) => {
                let front = front_of_rest(bound, self.prefix.len());
                self.rests.last_place(rest, front, near)
            }
            None => None,
        }
    }

    // The place of the first entry whose key is within a lower bound. The bound's key is looked for at the place `near` first.
    #[inline(always)]
    fn first_place(&self, bound: Bound<&[u8]>, near: usize) -> Option<usize>
        ensures { MatchOption result (list_any (λ e. within_lower (bound_of bound.entry) e.0) self.now ≡ false) (IsFirstAt (λ e. within_lower (bound_of bound.entry) e.0) self.now) }
    {
        if self.prefix.is_nothing() {
            return self.rests.first_place(bound, front_of_bound(bound), near);
        }
        self.first_behind(bound, near)
    }

    // The same, called if there is a prefix.
    #[inline(never)]
    fn first_behind(&self, bound: Bound<&[u8]>, near: usize) -> Option<usize>
        ensures { MatchOption result (list_any (λ e. within_lower (bound_of bound.entry) e.0) self.now ≡ false) (IsFirstAt (λ e. within_lower (bound_of bound.entry) e.0) self.now) }
    {
        match lower_behind(&self.prefix, bound) {
            Some(rest) => {
                let front = front_of_rest(bound, self.prefix.len());
                self.rests.first_place(rest, front, near)
            }
            None => None,
        }
    }
}

impl<V> Stripped<V> {
    // The entries of rests from which no more can be taken.
    fn of_rests(prefix: IVec, list: Vec<(IVec, V)>) -> Stripped<V>
        requires { IsStripped prefix list.items }
        ensures { result ≡ behind prefix list.items }
    {
        Stripped {
            prefix,
            rests: Entries::new(list),
        }
    }
}

impl<V: Held> Stripped<V> {
    // The entries of a list of rests behind a beginning. Refused with `NoMemory` alone.
    fn strip(alloc: Global, front: &IVec, list: &[(IVec, V)]) -> Result<Stripped<V>>
        ensures ok { IfOk result (λ made. made ≡ behind front.now list.now) }
        ensures err { IfErr result (λ e. e ≡ NoMemory) }
    {
        if list.is_empty() {
            return Ok(Stripped::of_rests(IVec::empty(), Vec::new(alloc)));
        }
        let count = prefix_len(list);
        let prefix = IVec::joined(alloc, front.as_ref(), &list[0].0.as_ref()[..count])?;
        match cut_keys(alloc, list, count) {
            Ok(rests) => Ok(Stripped::of_rests(prefix, rests)),
            Err(e) => {
                drop(prefix);
                Err(e)
            }
        }
    }

    /// The entries of a list, as they are given: pairs of a leaf, or pointers of an index. Refused with `NoMemory` alone.
    ///
    /// ```
    /// let leaf = Leaf::from_pairs(alloc, &[(key, value)])?; // Pairs that ascend by key.
    /// ```
    pub fn from_pairs(alloc: Global, pairs: &[(IVec, V)]) -> Result<Stripped<V>>
        ensures ok { IfOk result (λ made. made ≡ pairs.now) }
        ensures err { IfErr result (λ e. e ≡ NoMemory) }
    {
        let none = IVec::empty();
        let made = Stripped::strip(alloc, &none, pairs);
        drop(none);
        made
    }

    // The entries of a list whose keys all begin with the same bytes, which are so many. Refused with `NoMemory` alone.
    fn cut(alloc: Global, list: Vec<(IVec, V)>, count: usize) -> Result<Stripped<V>>
        requires count { count ≡ length (prefix_of list.items) }
        requires some { 0 < count }
        ensures ok { IfOk result (λ made. made ≡ list.items) }
        ensures err { IfErr result (λ e. e ≡ NoMemory) }
    {
        let prefix = match IVec::from_slice(alloc, &list[0].0.as_ref()[..count]) {
            Ok(prefix) => prefix,
            Err(e) => {
                drop(list);
                return Err(e);
            }
        };
        match keys_cut(alloc, list, count) {
            Ok(rests) => Ok(Stripped::of_rests(prefix, rests)),
            Err(e) => {
                drop(prefix);
                Err(e)
            }
        }
    }

    /// The entries of a list, as they are given: pairs of a leaf, or pointers of an index. Nothing of them is copied, but for what keys
    /// have behind the beginning of all. Refused with `NoMemory` alone.
    ///
    /// ```
    /// let leaf = Leaf::from_list(alloc, vec![in alloc; (key, value)]?)?; // Pairs that ascend by key.
    /// ```
    pub fn from_list(alloc: Global, list: Vec<(IVec, V)>) -> Result<Stripped<V>>
        ensures ok { IfOk result (λ made. made ≡ list.items) }
        ensures err { IfErr result (λ e. e ≡ NoMemory) }
    {
        let count = prefix_len(list.as_slice());
        if count == 0 {
            return Ok(Stripped::of_rests(IVec::empty(), list));
        }
        Stripped::cut(alloc, list, count)
    }

    // The entries with their whole keys, at the end of a list.
    fn add_whole(&self, list: &mut Vec<(IVec, V)>, alloc: Global) -> Result<()>
        ensures ok { OnOk result (list.new.items ≡ list.old.items ++ self.now) }
        ensures err { IfErr result (λ e. e ≡ NoMemory) }
    {
        add_whole(alloc, &self.prefix, self.rests.as_slice(), list)
    }

    /// The entries, with their whole keys. Refused with `NoMemory` alone.
    ///
    /// ```
    /// let pairs = leaf.pairs(alloc)?;
    /// let first = pairs.first(); // The pair with the least key, where the keys ascend.
    /// ```
    pub fn pairs(&self, alloc: Global) -> Result<Vec<(IVec, V)>>
        ensures ok { IfOk result (λ list. list.items ≡ self.now) }
        ensures err { IfErr result (λ e. e ≡ NoMemory) }
    {
        let mut list = Vec::with_capacity(alloc, self.len())?;
        self.add_whole(&mut list, alloc)?;
        Ok(list)
    }

    /// The same value. Refused with `NoMemory` alone.
    ///
    /// ```
    /// let copy = leaf.clone(alloc)?;
    /// ```
    pub fn clone(&self, alloc: Global) -> Result<Stripped<V>>
        ensures ok { IfOk result (λ copy. copy ≡ self.now) }
        ensures err { IfErr result (λ e. e ≡ NoMemory) }
    {
        self.copy_with_room(alloc, 0)
    }

    // The same value, with room for so many entries more.
    pub(crate) fn copy_with_room(&self, alloc: Global, more: usize) -> Result<Stripped<V>>
        ensures ok { IfOk result (λ copy. copy ≡ self.now) }
        ensures err { IfErr result (λ e. e ≡ NoMemory) }
    {
        let list = copied(alloc, self.rests.as_slice(), more)?;
        match self.prefix.clone() {
            Ok(prefix) => Ok(Stripped {
                prefix,
                rests: self.rests.copied(list),
            }),
            Err(e) => {
                drop(list);
                Err(e)
            }
        }
    }

    // The entry at a place. Refused with `NoMemory` alone.
    fn entry(&self, i: usize) -> Result<(IVec, V)>
        requires { i < length self.now }
        ensures ok { IfOk result (λ entry. IsEntry self.now i entry) }
        ensures err { IfErr result (λ e. e ≡ NoMemory) }
    {
        let rest = &self.rests.as_slice()[i];
        let key = whole_key(self.rests.alloc(), &self.prefix, &rest.0)?;
        match rest.1.again() {
            Ok(value) => Ok((key, value)),
            Err(e) => {
                drop(key);
                Err(e)
            }
        }
    }

    // The two halves, the first of them rounded down. Refused with `NoMemory` alone.
    pub(crate) fn halves(&self, alloc: Global) -> Result<(Stripped<V>, Stripped<V>)>
        ensures ok { IfOk result (λ halves. (halves.0 ≡ first_half self.now) × (halves.1 ≡ second_half self.now)) }
        ensures err { IfErr result (λ e. e ≡ NoMemory) }
    {
        let middle = self.len() / 2;
        let left = self.part(alloc, &self.rests.as_slice()[..middle])?;
        match self.part(alloc, &self.rests.as_slice()[middle..]) {
            Ok(right) => Ok((left, right)),
            Err(e) => {
                drop(left);
                Err(e)
            }
        }
    }

    // Some of the rests, as entries of their own.
    fn part(&self, alloc: Global, rests: &[(IVec, V)]) -> Result<Stripped<V>>
        ensures ok { IfOk result (λ made. made ≡ behind (prefix_of self.now) rests.now) }
        ensures err { IfErr result (λ e. e ≡ NoMemory) }
    {
        Stripped::strip(alloc, &self.prefix, rests)
    }

    // These entries and then those of another list. Refused with `NoMemory` alone.
    pub(crate) fn followed_by(&self, alloc: Global, other: &Stripped<V>) -> Result<Stripped<V>>
        ensures ok { IfOk result (λ both. both ≡ self.now ++ other.now) }
        ensures err { IfErr result (λ e. e ≡ NoMemory) }
    {
        let count = self.len().saturating_add(other.len());
        let mut list = Vec::with_capacity(alloc, count)?;
        self.add_whole(&mut list, alloc)?;
        other.add_whole(&mut list, alloc)?;
        let both = Stripped::from_pairs(alloc, list.as_slice());
        drop(list);
        both
    }

    // The key of the first entry, or the empty one. Refused with `NoMemory` alone.
    pub(crate) fn first_key(&self, alloc: Global) -> Result<IVec>
        ensures ok { IfOk result (λ key. key ≡ first_key self.now) }
        ensures err { IfErr result (λ e. e ≡ NoMemory) }
    {
        match self.rests.as_slice().first() {
            Some(rest) => whole_key(alloc, &self.prefix, &rest.0),
            None => Ok(IVec::empty()),
        }
    }
}

impl<V: Held> Stripped<V> {
    // The rest of a key, if the prefix stays when it comes in.
    #[inline(always)]
    fn rest(&self, alloc: Global, key: &IVec) -> Result<Option<IVec>>
        ensures ok { IfOk result (λ rest. IfSome rest (IsRest self.now key.now)) }
        ensures err { IfErr result (λ e. e ≡ NoMemory) }
    {
        if self.rests.is_empty() {
            return Ok(None);
        }
        if self.prefix.is_nothing() {
            return Ok(Some(key.clone()?));
        }
        match rest_of(&self.prefix, key.as_ref()) {
            Some(rest) => Ok(Some(IVec::from_slice(alloc, rest)?)),
            None => Ok(None),
        }
    }

    // Another list in place of this one. Refused with `NoMemory` alone, and then unchanged.
    fn set_whole(&mut self, alloc: Global, list: &[(IVec, V)]) -> Result<()>
        ensures ok { OnOk result (self.new ≡ list.now) }
        ensures err { OnErr result (self.new ≡ self.old) }
        ensures cause { IfErr result (λ e. e ≡ NoMemory) }
    {
        let new = Stripped::from_pairs(alloc, list)?;
        let old = std::mem::replace(self, new);
        drop(old);
        Ok(())
    }

    // Puts an entry in its place. Refused with `NoMemory` alone, and then unchanged.
    #[tactic(auto, unfolding(crate::specs::Order::key_cmp))]
    pub(crate) fn put(&mut self, key: &IVec, value: V) -> Result<()>
        ensures ok { OnOk result (self.new ≡ put key_cmp key.now value self.old) }
        ensures err { OnErr result (self.new ≡ self.old) }
        ensures cause { IfErr result (λ e. e ≡ NoMemory) }
    {
        let alloc = self.rests.alloc();
        match self.rest(alloc, key) {
            Ok(Some(rest)) => self.rests.put(rest, value),
            Ok(None) => self.put_whole(alloc, key, value),
            Err(e) => {
                drop(value);
                Err(e)
            }
        }
    }

    // The same by the whole list: what all keys begin with gets shorter.
    #[inline(never)]
    fn put_whole(&mut self, alloc: Global, key: &IVec, value: V) -> Result<()>
        ensures ok { OnOk result (self.new ≡ put (slice_cmp nat_cmp) key.now value self.old) }
        ensures err { OnErr result (self.new ≡ self.old) }
        ensures cause { IfErr result (λ e. e ≡ NoMemory) }
    {
        match self.list_with(alloc, key, value) {
            Ok(list) => {
                let done = self.set_whole(alloc, list.as_slice());
                drop(list);
                done
            }
            Err(e) => Err(e),
        }
    }

    // The list with an entry in its place.
    fn list_with(&self, alloc: Global, key: &IVec, value: V) -> Result<Vec<(IVec, V)>>
        ensures ok { IfOk result (λ list. list.items ≡ put (slice_cmp nat_cmp) key.now value self.now) }
        ensures err { IfErr result (λ e. e ≡ NoMemory) }
    {
        let mut list = match self.pairs(alloc) {
            Ok(list) => list,
            Err(e) => {
                drop(value);
                return Err(e);
            }
        };
        let key = match key.clone() {
            Ok(key) => key,
            Err(e) => {
                drop(list);
                drop(value);
                return Err(e);
            }
        };
        match pairs::put_pair(&mut list, key, value, false) {
            Ok(()) => Ok(list),
            Err(e) => {
                drop(list);
                Err(e)
            }
        }
    }

    // Takes the entry at a place out. Refused with `NoMemory` alone, and then unchanged.
    fn remove_at(&mut self, i: usize) -> Result<()>
        requires { i < length self.old }
        ensures ok { OnOk result (self.new ≡ remove self.old i) }
        ensures err { OnErr result (self.new ≡ self.old) }
        ensures cause { IfErr result (λ e. e ≡ NoMemory) }
    {
        if apart_without(self.rests.as_slice(), i) {
            self.rests.remove(i);
            return Ok(());
        }
        self.remove_whole(i)
    }

    // The same by the whole list: what all keys begin with may get longer.
    fn remove_whole(&mut self, i: usize) -> Result<()>
        requires { i < length self.old }
        ensures ok { OnOk result (self.new ≡ remove self.old i) }
        ensures err { OnErr result (self.new ≡ self.old) }
        ensures cause { IfErr result (λ e. e ≡ NoMemory) }
    {
        let alloc = self.rests.alloc();
        let mut list = self.pairs(alloc)?;
        let pair = list.remove(i);
        drop(pair);
        let done = self.set_whole(alloc, list.as_slice());
        drop(list);
        done
    }

    // Takes the entries of a key out. Refused with `NoMemory` alone, and then unchanged.
    #[tactic(auto, unfolding(crate::specs::Order::key_cmp))]
    pub(crate) fn remove_key(&mut self, key: &IVec) -> Result<()>
        ensures ok { OnOk result (self.new ≡ without key.now self.old) }
        ensures err { OnErr result (self.new ≡ self.old) }
        ensures cause { IfErr result (λ e. e ≡ NoMemory) }
    {
        match self.place_alone(key.as_ref()) {
            Some(Some(i)) => self.remove_at(i),
            Some(None) => Ok(()),
            None => self.remove_all(key),
        }
    }

    // The same by the whole list, if the keys do not ascend.
    fn remove_all(&mut self, key: &IVec) -> Result<()>
        ensures ok { OnOk result (self.new ≡ where_key (slice_cmp nat_cmp) (λ x. not (eq_by_cmp (slice_cmp nat_cmp) key.now x)) self.old) }
        ensures err { OnErr result (self.new ≡ self.old) }
        ensures cause { IfErr result (λ e. e ≡ NoMemory) }
    {
        let alloc = self.rests.alloc();
        let mut list = self.pairs(alloc)?;
        pairs::remove_key(&mut list, key);
        let done = self.set_whole(alloc, list.as_slice());
        drop(list);
        done
    }
}

impl Stripped<IVec> {
    // The place of the pair that is at a place of those within two bounds, from the least key up or from the greatest down.
    fn place_within(
        &self,
        lo: Bound<&[u8]>,
        hi: Bound<&[u8]>,
        back: bool,
        place: usize,
    ) -> Option<usize>
        ensures { IsPlaceOf (slice_get (pairs_in (record { lo = bound_of lo.entry; hi = bound_of hi.entry; back = back }) self.now) place) self.now result }
    {
        match lower_behind(&self.prefix, lo) {
            Some(from) => match upper_behind(&self.prefix, hi) {
                Some(to) => self.rests.place_within(from, to, back, place),
                None => None,
            },
            None => None,
        }
    }

    // The pair at a place of the list.
    #[inline(always)]
    pub(crate) fn pair_at(&self, place: usize) -> Result<Option<(IVec, IVec)>>
        ensures ok { IfOk result (λ found. found ≡ slice_get self.now place) }
        ensures err { IfErr result (λ e. e ≡ NoMemory) }
    {
        if place < self.len() {
            Ok(Some(self.entry(place)?))
        } else {
            Ok(None)
        }
    }

    // How many pairs are within an upper bound.
    pub(crate) fn count_up_to(&self, bound: Bound<&[u8]>) -> usize
        ensures { result ≡ length (pairs_in (record { lo = Unbounded; hi = bound_of bound.entry; back = false }) self.now) }
    {
        match upper_behind(&self.prefix, bound) {
            Some(rest) => self.rests.count_up_to(rest),
            None => 0,
        }
    }

    // The first pair within a lower bound, and its place. The bound's key is looked for at the place `near` first.
    #[inline(always)]
    pub(crate) fn first_from(
        &self,
        bound: Bound<&[u8]>,
        near: &mut usize,
    ) -> Result<Option<(IVec, IVec)>>
        ensures ok { IfOk result (IsSuccessor (bound_of bound.entry) self.now) }
        ensures place { IfOk result (λ found. IfSome found (λ pair. slice_get self.now near.new ≡ Some pair)) }
        ensures none { IfOk result (λ found. IfNone found (near.new ≡ near.old)) }
        ensures kept { OnErr result (near.new ≡ near.old) }
        ensures err { IfErr result (λ e. e ≡ NoMemory) }
    {
        match self.first_place(bound, *near) {
            Some(i) => {
                let pair = self.entry(i)?;
                *near = i;
                Ok(Some(pair))
            },
            None => Ok(None),
        }
    }

    // The last pair within an upper bound, and its place. The bound's key is looked for at the place `near` first.
    #[inline(always)]
    pub(crate) fn last_up_to(
        &self,
        bound: Bound<&[u8]>,
        near: &mut usize,
    ) -> Result<Option<(IVec, IVec)>>
        ensures ok { IfOk result (IsPredecessor (bound_of bound.entry) self.now) }
        ensures place { IfOk result (λ found. IfSome found (λ pair. slice_get self.now near.new ≡ Some pair)) }
        ensures none { IfOk result (λ found. IfNone found (near.new ≡ near.old)) }
        ensures kept { OnErr result (near.new ≡ near.old) }
        ensures err { IfErr result (λ e. e ≡ NoMemory) }
    {
        match self.last_place(bound, *near) {
            Some(i) => {
                let pair = self.entry(i)?;
                *near = i;
                Ok(Some(pair))
            },
            None => Ok(None),
        }
    }

    // The pair at a place of those within two bounds, from the least key up or from the greatest down.
    pub(crate) fn pair_within(
        &self,
        lo: Bound<&[u8]>,
        hi: Bound<&[u8]>,
        back: bool,
        place: usize,
    ) -> Result<Option<(IVec, IVec)>>
        ensures ok { IfOk result (λ found. found ≡ slice_get (pairs_in (record { lo = bound_of lo.entry; hi = bound_of hi.entry; back = back }) self.now) place) }
        ensures err { IfErr result (λ e. e ≡ NoMemory) }
    {
        match self.place_within(lo, hi, back, place) {
            Some(i) => Ok(Some(self.entry(i)?)),
            None => Ok(None),
        }
    }
}

impl Stripped<Pid> {
    // The page at a place.
    fn pid(&self, i: usize) -> Pid
        requires { i < length self.now }
        ensures { (d : Key × ℕ) → (slice_index_or self.now i d).1 ≡ result }
    {
        self.rests.as_slice()[i].1
    }

    // The place of the first pointer to a page.
    fn place_of(&self, to: Pid) -> Option<usize>
        ensures { MatchOption result (list_any (λ e. nat_eq e.1 to) self.now ≡ false) (IsFirstAt (λ e. nat_eq e.1 to) self.now) }
    {
        among::place_of(self.rests.as_slice(), to)
    }

    // Puts a pointer in its place if the key has none.
    #[tactic(auto, unfolding(crate::specs::Order::key_cmp))]
    pub(crate) fn post(&mut self, at: &IVec, pid: Pid) -> Result<bool>
        ensures ok { IfOk result (λ posted. posted ≡ is_none (find key_cmp at.now self.old)) }
        ensures is { IfOk result (λ posted. self.new ≡ (if posted then put key_cmp at.now pid self.old else self.old)) }
        ensures err { OnErr result (self.new ≡ self.old) }
        ensures cause { IfErr result (λ e. e ≡ NoMemory) }
    {
        if self.get(at.as_ref()).is_some() {
            return Ok(false);
        }
        self.put(at, pid)?;
        Ok(true)
    }

    // The last pointer within an upper bound, and whether it is the first of all.
    #[inline(always)]
    pub(crate) fn last_pointer(&self, bound: Bound<&[u8]>) -> Option<(Pid, bool)>
        ensures { IsPointerFor (bound_of bound.entry) self.now result }
    {
        match self.last_place(bound, NOWHERE) {
            Some(i) => Some((self.pid(i), i == 0)),
            None => None,
        }
    }

    // The pointer before the one to a page.
    pub(crate) fn before(&self, to: Pid) -> Option<Pid>
        ensures { IsPointerBefore to self.now result }
    {
        match self.place_of(to) {
            Some(0) => None,
            Some(i) => Some(self.pid(i - 1)),
            None => None,
        }
    }

    // Takes the pointers to a page out. Refused with `NoMemory` alone, and then unchanged.
    pub(crate) fn take_pointers(&mut self, to: Pid) -> Result<()>
        ensures ok { OnOk result (self.new ≡ unpointed to self.old) }
        ensures err { OnErr result (self.new ≡ self.old) }
        ensures cause { IfErr result (λ e. e ≡ NoMemory) }
    {
        let alloc = self.rests.alloc();
        let mut list = self.pairs(alloc)?;
        pairs::take_pointers(&mut list, to);
        let done = self.set_whole(alloc, list.as_slice());
        drop(list);
        done
    }

    // The greatest of this number and the page numbers of the pointers.
    pub(crate) fn greatest(&self, least: u64) -> u64
        ensures least { least ≤ result }
        ensures all { list_all (λ e. nat_le e.1 result) self.now ≡ true }
        ensures least_such { (n : ℕ) → least ≤ n → list_all (λ e. nat_le e.1 n) self.now ≡ true → result ≤ n }
    {
        greatest_pid(self.rests.as_slice(), least)
    }
}

// The greatest of this number and the page numbers of pointers.
fn greatest_pid(pointers: &[(IVec, Pid)], least: u64) -> u64
    ensures least { least ≤ result }
    ensures all { list_all (λ e. nat_le e.1 result) pointers.now ≡ true }
    ensures least_such { (n : ℕ) → least ≤ n → list_all (λ e. nat_le e.1 n) pointers.now ≡ true → result ≤ n }
{
    let mut greatest = least;
    for pointer in pointers {
        greatest = pointer.1.0.max(greatest);
    }
    greatest
}

// The first place but this one, of two or more.
fn first_but(i: usize) -> usize
    ensures within { result ≤ 1 }
    ensures other { result ≡ i → ⊥ }
{
    if i == 0 { 1 } else { 0 }
}

// The last place but this one, of two or more.
fn last_but(i: usize, len: usize) -> usize
    requires { 2 ≤ len }
    ensures within { result < len }
    ensures other { result ≡ i → ⊥ }
{
    if i == len - 1 { len - 2 } else { len - 1 }
}

// Whether two rests but this one share no first byte, so that nothing more can be taken from the others.
fn apart_without<V>(rests: &[(IVec, V)], i: usize) -> bool
    requires { i < length rests.now }
    ensures { result ≡ true → (p : Key) → IsStripped p (remove rests.now i) }
{
    let len = rests.len();
    if len < 3 {
        return false;
    }
    let first = first_but(i);
    let last = last_but(i, len);
    is_apart(rests[first].0.as_ref(), rests[last].0.as_ref())
}

// The key of a rest behind a beginning. Refused with `NoMemory` alone.
#[inline(always)]
fn whole_key(alloc: Global, prefix: &IVec, rest: &IVec) -> Result<IVec>
    ensures ok { IfOk result (λ key. key ≡ prefix.now ++ rest.now) }
    ensures err { IfErr result (λ e. e ≡ NoMemory) }
{
    if prefix.is_nothing() {
        return rest.clone();
    }
    IVec::concat(alloc, prefix, rest)
}

// A copy of a list, with room for so many entries more.
fn copied<V: Held>(alloc: Global, pairs: &[(IVec, V)], more: usize) -> Result<Vec<(IVec, V)>>
    ensures ok { IfOk result (λ copy. copy.items ≡ pairs.now) }
    ensures err { IfErr result (λ e. e ≡ NoMemory) }
{
    let mut copy = Vec::with_capacity(alloc, pairs.len().saturating_add(more))?;
    for pair in pairs {
        let key = pair.0.clone()?;
        match pair.1.again() {
            Ok(value) => copy.push((key, value))?,
            Err(e) => {
                drop(key);
                return Err(e);
            }
        }
    }
    Ok(copy)
}

// Rests behind a beginning, at the end of a list.
fn add_whole<V: Held>(
    alloc: Global,
    prefix: &IVec,
    rests: &[(IVec, V)],
    list: &mut Vec<(IVec, V)>,
) -> Result<()>
    ensures ok { OnOk result (list.new.items ≡ list.old.items ++ behind prefix.now rests.now) }
    ensures err { IfErr result (λ e. e ≡ NoMemory) }
{
    for rest in rests {
        let key = whole_key(alloc, prefix, &rest.0)?;
        match rest.1.again() {
            Ok(value) => list.push((key, value))?,
            Err(e) => {
                drop(key);
                return Err(e);
            }
        }
    }
    Ok(())
}

/// A copy of a list of keys, each with a page number. Refused with `NoMemory` alone.
///
/// ```
/// let copy = copy_pointers(alloc, &[(key, pid)])?; // The same keys in the same order, each with its page number.
/// ```
pub fn copy_pointers(alloc: Global, pointers: &[(IVec, Pid)]) -> Result<Vec<(IVec, Pid)>>
    ensures ok { IfOk result (λ copy. copy.items ≡ pointers.now) }
    ensures err { IfErr result (λ e. e ≡ NoMemory) }
{
    copied(alloc, pointers, 0)
}
