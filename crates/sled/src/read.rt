//! Reads of a tree that repair nothing and take no slot.
ghost use Rattle.std.specs.Prelude.{◌≡◌, ◌↔◌, IsTrue, IfOk, IfErr, OnOk, is_some, length, [], ◌∷◌, Some, None};
ghost use Rattle.std.specs.FinMap.Entries.{find};
ghost use Rattle.std.specs.declared.ops.Bound.TheVariants.{Excluded, Unbounded};
ghost use Rattle.sled_nodes.specs.Among.{bound_of, IsSuccessor, IsPredecessor};
ghost use Rattle.sled_nodes.specs.Order.{key_cmp};
ghost use Rattle.sled_store.specs.Store.{now};
ghost use Rattle.sled_model.specs.Refusal.{must_refuse_of};
ghost use Rattle.tree_reads.specs.Walk.{once, for_each};
ghost use Rattle.tree_reads.specs.Ranges.{IsRoot};
ghost use Rattle.sled.specs.Calls.{MustBeRefused};
ghost use Rattle.sled.specs.Reads.{ReadsMap, BeginsRange, BeginsWith, RefusesReading, RefusesRange, GivesUpGet};

use crate::db::Db;
use sled_model::{MergeOperator, Tree};
use sled_nodes::{IVec, Pid, Result, own_bound};
use sled_store::Pages;
use std::ops::Bound;
use tree_reads::{Iter, above_prefix, count_pairs, first_from, last_up_to, pairs_of, value_at};

impl<P: Pages, M: MergeOperator> Db<P, M> {
    ghost use Rattle.sled.specs.Values.{db_state};

    // The root of a tree that passes the tests.
    pub(crate) fn root_of(&self, tree: &Tree) -> Result<Pid>
        ensures tested { OnOk result (must_refuse_of (db_state P.store M.meant self.now) (tree.now ∷ []) ≡ None) }
        ensures is { IfOk result (λ root. (now (P.store self.now.pages)).roots tree.now.name ≡ Some root) }
        ensures root { IfOk result (IsRoot (now (P.store self.now.pages))) }
        ensures err { IfErr result (MustBeRefused (must_refuse_of (db_state P.store M.meant self.now) (tree.now ∷ []))) }
    {
        if let Err(e) = self.check(tree) {
            return Err(e);
        }
        match self.pages.root(tree.name.as_ref()) {
            Some(root) => Ok(root),
            None => unreachable!(),
        }
    }

    /// The value at a key, or `None` if it is absent. It reads one page of each level if nothing on the way is half done.
    ///
    /// ```
    /// if let Some(value) = db.get(&tree, b"ulm")? {
    ///     let bytes = value.as_ref();
    /// }
    /// ```
    pub fn get(&self, tree: &Tree, key: &[u8]) -> Result<Option<IVec>>
        ensures ok { IfOk result (λ value. ReadsMap P.store M.meant self.now tree.now (λ map. value ≡ find key_cmp key.now map)) }
        ensures err { IfErr result (RefusesReading P.store M.meant self.now tree.now once) }
        ensures gives_up { IfErr result (GivesUpGet P.store M.meant self.now tree.now key.now) }
    {
        let root = match self.root_of(tree) {
            Ok(root) => root,
            Err(e) => return Err(e),
        };
        match value_at(self.alloc, &self.pages, root, key) {
            Ok(value) => Ok(value),
            Err(e) => Err(e),
        }
    }

    /// Whether a key is present.
    ///
    /// ```
    /// let is_there = db.contains_key(&tree, b"ulm")?;
    /// ```
    pub fn contains_key(&self, tree: &Tree, key: &[u8]) -> Result<bool>
        ensures ok { IfOk result (λ there. ReadsMap P.store M.meant self.now tree.now (λ map. there ≡ is_some (find key_cmp key.now map))) }
        ensures err { IfErr result (RefusesReading P.store M.meant self.now tree.now once) }
        ensures gives_up { IfErr result (GivesUpGet P.store M.meant self.now tree.now key.now) }
    {
        match self.get(tree, key) {
            Ok(value) => {
                let there = value.is_some();
                drop(value);
                Ok(there)
            }
            Err(e) => Err(e),
        }
    }

    // The first pair within a lower bound.
    fn first_in(&self, tree: &Tree, lo: Bound<&[u8]>) -> Result<Option<(IVec, IVec)>>
        ensures ok { IfOk result (λ found. ReadsMap P.store M.meant self.now tree.now (λ map. IsSuccessor (bound_of lo.entry) map found)) }
        ensures err { IfErr result (RefusesReading P.store M.meant self.now tree.now once) }
    {
        let root = match self.root_of(tree) {
            Ok(root) => root,
            Err(e) => return Err(e),
        };
        match first_from(self.alloc, &self.pages, root, lo) {
            Ok(found) => Ok(found),
            Err(e) => Err(e),
        }
    }

    // The last pair within an upper bound.
    fn last_in(&self, tree: &Tree, hi: Bound<&[u8]>) -> Result<Option<(IVec, IVec)>>
        ensures ok { IfOk result (λ found. ReadsMap P.store M.meant self.now tree.now (λ map. IsPredecessor (bound_of hi.entry) map found)) }
        ensures err { IfErr result (RefusesReading P.store M.meant self.now tree.now for_each) }
    {
        let root = match self.root_of(tree) {
            Ok(root) => root,
            Err(e) => return Err(e),
        };
        match last_up_to(self.alloc, &self.pages, root, hi) {
            Ok(found) => Ok(found),
            Err(e) => Err(e),
        }
    }

    /// The pair with the greatest key below this one.
    ///
    /// ```
    /// // Of the keys bern and ulm, bern.
    /// let before = db.get_lt(&tree, b"ulm")?;
    /// ```
    pub fn get_lt(&self, tree: &Tree, key: &[u8]) -> Result<Option<(IVec, IVec)>>
        ensures ok { IfOk result (λ found. ReadsMap P.store M.meant self.now tree.now (λ map. IsPredecessor (Excluded key.now) map found)) }
        ensures err { IfErr result (RefusesReading P.store M.meant self.now tree.now for_each) }
    {
        self.last_in(tree, Bound::Excluded(key))
    }

    /// The pair with the least key above this one.
    ///
    /// ```
    /// // Of the keys bern and ulm, ulm.
    /// let after = db.get_gt(&tree, b"bern")?;
    /// ```
    pub fn get_gt(&self, tree: &Tree, key: &[u8]) -> Result<Option<(IVec, IVec)>>
        ensures ok { IfOk result (λ found. ReadsMap P.store M.meant self.now tree.now (λ map. IsSuccessor (Excluded key.now) map found)) }
        ensures err { IfErr result (RefusesReading P.store M.meant self.now tree.now once) }
    {
        self.first_in(tree, Bound::Excluded(key))
    }

    /// The pair with the least key.
    ///
    /// ```
    /// let least = db.first(&tree)?; // `None` of an empty tree.
    /// ```
    pub fn first(&self, tree: &Tree) -> Result<Option<(IVec, IVec)>>
        ensures ok { IfOk result (λ found. ReadsMap P.store M.meant self.now tree.now (λ map. IsSuccessor Unbounded map found)) }
        ensures err { IfErr result (RefusesReading P.store M.meant self.now tree.now once) }
    {
        self.first_in(tree, Bound::Unbounded)
    }

    /// The pair with the greatest key.
    ///
    /// ```
    /// let greatest = db.last(&tree)?; // `None` of an empty tree.
    /// ```
    pub fn last(&self, tree: &Tree) -> Result<Option<(IVec, IVec)>>
        ensures ok { IfOk result (λ found. ReadsMap P.store M.meant self.now tree.now (λ map. IsPredecessor Unbounded map found)) }
        ensures err { IfErr result (RefusesReading P.store M.meant self.now tree.now for_each) }
    {
        self.last_in(tree, Bound::Unbounded)
    }

    /// How many pairs there are. It reads each leaf.
    ///
    /// ```
    /// let count = db.len(&tree)?; // It reads the leaves.
    /// ```
    pub fn len(&self, tree: &Tree) -> Result<usize>
        ensures ok { IfOk result (λ count. ReadsMap P.store M.meant self.now tree.now (λ map. count ≡ length map)) }
        ensures err { IfErr result (RefusesReading P.store M.meant self.now tree.now once) }
    {
        let root = match self.root_of(tree) {
            Ok(root) => root,
            Err(e) => return Err(e),
        };
        match count_pairs(self.alloc, &self.pages, root) {
            Ok(count) => Ok(count),
            Err(e) => Err(e),
        }
    }

    /// Whether there is no pair.
    ///
    /// ```
    /// let is_new = db.is_empty(&tree)?;
    /// ```
    pub fn is_empty(&self, tree: &Tree) -> Result<bool>
        ensures ok { IfOk result (λ empty. ReadsMap P.store M.meant self.now tree.now (λ map. IsTrue empty ↔ (map ≡ []))) }
        ensures err { IfErr result (RefusesReading P.store M.meant self.now tree.now once) }
    {
        match self.first(tree) {
            Ok(found) => {
                let empty = found.is_none();
                drop(found);
                Ok(empty)
            }
            Err(e) => Err(e),
        }
    }

    /// All pairs, from both ends. It reads no page; the iterator does.
    ///
    /// ```
    /// for pair in db.iter(&tree)? {
    ///     let (key, value) = pair?;
    /// }
    /// ```
    pub fn iter(&self, tree: &Tree) -> Result<Iter<'_, P>>
        ensures ok { IfOk result (BeginsRange P.store M.meant self.now tree.now Unbounded Unbounded) }
        ensures err { IfErr result (RefusesRange P.store M.meant self.now tree.now) }
    {
        let root = match self.root_of(tree) {
            Ok(root) => root,
            Err(e) => return Err(e),
        };
        Ok(pairs_of(
            self.alloc,
            &self.pages,
            root,
            Bound::Unbounded,
            Bound::Unbounded,
        ))
    }

    /// The pairs within two bounds, from both ends. It reads no page; the iterator does.
    ///
    /// ```
    /// // From bern on, and below ulm.
    /// let mut pairs = db.range(&tree, Bound::Included(b"bern"), Bound::Excluded(b"ulm"))?;
    /// let first = pairs.next();
    /// let last = pairs.next_back();
    /// ```
    pub fn range(&self, tree: &Tree, lo: Bound<&[u8]>, hi: Bound<&[u8]>) -> Result<Iter<'_, P>>
        ensures ok { IfOk result (BeginsRange P.store M.meant self.now tree.now (bound_of lo.entry) (bound_of hi.entry)) }
        ensures err { IfErr result (RefusesRange P.store M.meant self.now tree.now) }
    {
        let root = match self.root_of(tree) {
            Ok(root) => root,
            Err(e) => return Err(e),
        };
        let lo = match own_bound(self.alloc, lo) {
            Ok(lo) => lo,
            Err(e) => return Err(e),
        };
        let hi = match own_bound(self.alloc, hi) {
            Ok(hi) => hi,
            Err(e) => {
                drop(lo);
                return Err(e);
            }
        };
        Ok(pairs_of(self.alloc, &self.pages, root, lo, hi))
    }

    /// The pairs whose keys begin with a prefix, from both ends. It reads no page; the iterator does.
    ///
    /// They are from the prefix on and below the prefix without its last bytes 255 and with the last byte that is left raised by
    /// one; if nothing is left they have no upper bound.
    ///
    /// ```
    /// // The keys that begin with be, as bern.
    /// let mut pairs = db.scan_prefix(&tree, b"be")?;
    /// ```
    pub fn scan_prefix(&self, tree: &Tree, prefix: &[u8]) -> Result<Iter<'_, P>>
        ensures ok { IfOk result (BeginsWith P.store M.meant self.now tree.now prefix.now) }
        ensures err { IfErr result (RefusesRange P.store M.meant self.now tree.now) }
    {
        let root = match self.root_of(tree) {
            Ok(root) => root,
            Err(e) => return Err(e),
        };
        let lo = match IVec::from_slice(self.alloc, prefix) {
            Ok(lo) => Bound::Included(lo),
            Err(e) => return Err(e),
        };
        let hi = match above_prefix(self.alloc, prefix) {
            Ok(hi) => hi,
            Err(e) => {
                drop(lo);
                return Err(e);
            }
        };
        Ok(pairs_of(self.alloc, &self.pages, root, lo, hi))
    }
}
