//! One page of a tree: a leaf of pairs or an index of pointers.
ghost use Rattle.std.specs.Prelude.{◌≡◌, ℕ, nat_le, true, ◌<◌, ◌≤◌, ◌++◌, ◌↔◌, IsTrue, false, None, if◌then◌else◌, is_none, length, IfOk, IfErr, IfSome, IfNone, OnOk, OnErr, Some, MatchOption};
ghost use Rattle.sled_nodes.specs.declared.error.Error.TheVariants.{NoMemory};
ghost use Rattle.std.specs.FinMap.Entries.{put, find};
ghost use Rattle.std.specs.Option.{option_copied};
ghost use Rattle.sled_nodes.specs.Order.{key_cmp};
ghost use Rattle.sled_nodes.specs.Node.{after_link, count, pairs, pointers, value_at as value_in, without, unpointed};
ghost use Rattle.sled_nodes.specs.Halves.{first_half, second_half, first_half_of, second_half_of, first_key, first_key_of, left_half, right_half, appended, after_receiving};
ghost use Rattle.sled_nodes.specs.Among.{bound_of, IsSuccessor, IsPredecessor, IsPointerFor, IsPointerBefore};
ghost use Rattle.std.specs.List.{list_all, slice_get};
ghost use Rattle.sled_nodes.specs.Ranges.{pairs_in};
ghost use Rattle.std.specs.declared.ops.Bound.TheVariants.{Unbounded};
ghost use Rattle.sled_nodes.specs.Image.{all_of, all_named};
ghost use Rattle.sled_nodes.specs.declared.link.Link.TheVariants.{Set, Del, ParentMergeConfirm};
ghost use Rattle.sled_nodes.specs.Posting.{IsOpen, IsIndex, Posts};

use crate::ascending::NOWHERE;
use crate::error::Result;
use crate::pairs::{clone_pair, growth};
use crate::stripped::Stripped;
use crate::{IVec, Link, Pid};
use std::alloc::Global;
use std::ops::Bound;

// A node of more entries is split, and one of as few or fewer is merged.
const MOST: usize = 16;

const FEW: usize = 3;

/// A leaf's pairs of a key and a value. Contracts see it as the list of them.
pub type Leaf = Stripped<IVec>;

/// An index's pairs of a key and a page number. Contracts see it as the list of them.
pub type Index = Stripped<Pid>;

/// What a node holds.
#[derive(Drop)]
pub enum Data {
    /// Pairs of a key and a value.
    Leaf(Leaf),
    /// Pointers to pages of the level below, each under the least key that its page covers.
    Index(Index),
}

/// One page of a tree. It covers the keys from `lo` on that are below `hi`; an empty `hi` is no upper bound.
#[derive(Drop)]
pub struct Node {
    /// The least key that the page covers.
    pub lo: IVec,
    /// The first key that the page does not cover, or empty.
    pub hi: IVec,
    /// The page that goes on where this one ends.
    pub next: Option<Pid>,
    /// Whether the page is merging into the one before it.
    pub merging: bool,
    /// The child that is to merge into the one before it.
    pub merging_child: Option<Pid>,
    /// The entries.
    pub content: Data,
}

// The greater one of a number and a page number, if there is one.
fn greater_of(least: u64, pid: Option<Pid>) -> u64
    ensures least { least ≤ result }
    ensures all { all_of (λ p. nat_le p result) pid ≡ true }
    ensures least_such { (n : ℕ) → least ≤ n → all_of (λ p. nat_le p n) pid ≡ true → result ≤ n }
{
    match pid {
        Some(pid) => pid.0.max(least),
        None => least,
    }
}

impl Data {
    /// The same value. Refused with `NoMemory` alone.
    ///
    /// ```
    /// let copy = node.content.clone(alloc)?;
    /// ```
    pub fn clone(&self, alloc: Global) -> Result<Data>
        ensures ok { IfOk result (λ copy. copy ≡ self.now) }
        ensures err { IfErr result (λ e. e ≡ NoMemory) }
    {
        match self {
            Data::Leaf(leaf) => Ok(Data::Leaf(leaf.clone(alloc)?)),
            Data::Index(index) => Ok(Data::Index(index.clone(alloc)?)),
        }
    }
}

impl Data {
    // The same value. A leaf has room for as many pairs more as a full one grows by.
    fn copy_with_room(&self, alloc: Global) -> Result<Data>
        ensures ok { IfOk result (λ copy. copy ≡ self.now) }
        ensures err { IfErr result (λ e. e ≡ NoMemory) }
    {
        match self {
            Data::Leaf(leaf) => Ok(Data::Leaf(leaf.copy_with_room(alloc, growth(leaf.len()))?)),
            Data::Index(index) => Ok(Data::Index(index.clone(alloc)?)),
        }
    }

    // How many entries there are.
    fn len(&self) -> usize
        ensures { result ≡ count self.now }
    {
        match self {
            Data::Leaf(leaf) => leaf.len(),
            Data::Index(index) => index.len(),
        }
    }

    // The two halves, the first of them rounded down.
    fn halves(&self, alloc: Global) -> Result<(Data, Data)>
        ensures ok { IfOk result (λ halves. (halves.0 ≡ first_half_of self.now) × (halves.1 ≡ second_half_of self.now)) }
        ensures err { IfErr result (λ e. e ≡ NoMemory) }
    {
        match self {
            Data::Leaf(leaf) => {
                let (left, right) = leaf.halves(alloc)?;
                Ok((Data::Leaf(left), Data::Leaf(right)))
            }
            Data::Index(index) => {
                let (left, right) = index.halves(alloc)?;
                Ok((Data::Index(left), Data::Index(right)))
            }
        }
    }

    // These entries and then those of another of the kind.
    fn followed_by(&self, alloc: Global, other: &Data) -> Result<Data>
        ensures ok { IfOk result (λ both. both ≡ appended self.now other.now) }
        ensures err { IfErr result (λ e. e ≡ NoMemory) }
    {
        match self {
            Data::Leaf(leaf) => match other {
                Data::Leaf(more) => Ok(Data::Leaf(leaf.followed_by(alloc, more)?)),
                Data::Index(_) => Ok(Data::Leaf(leaf.clone(alloc)?)),
            },
            Data::Index(index) => match other {
                Data::Index(more) => Ok(Data::Index(index.followed_by(alloc, more)?)),
                Data::Leaf(_) => Ok(Data::Index(index.clone(alloc)?)),
            },
        }
    }

    // The key of the first entry, or the empty one.
    fn first_key(&self, alloc: Global) -> Result<IVec>
        ensures ok { IfOk result (λ key. key ≡ first_key_of self.now) }
        ensures err { IfErr result (λ e. e ≡ NoMemory) }
    {
        match self {
            Data::Leaf(leaf) => leaf.first_key(alloc),
            Data::Index(index) => index.first_key(alloc),
        }
    }

    // An open node of these entries.
    fn between(self, bounds: (IVec, IVec), next: Option<Pid>) -> Node
        ensures { result ≡ record { lo = bounds.0; hi = bounds.1; next = next; merging = false; merging_child = None; content = self } }
    {
        let (lo, hi) = bounds;
        Node {
            lo,
            hi,
            next,
            merging: false,
            merging_child: None,
            content: self,
        }
    }
}

impl Node {
    /// The same value. Refused with `NoMemory` alone.
    ///
    /// ```
    /// let copy = node.clone(alloc)?;
    /// ```
    pub fn clone(&self, alloc: Global) -> Result<Node>
        ensures ok { IfOk result (λ copy. copy ≡ self.now) }
        ensures err { IfErr result (λ e. e ≡ NoMemory) }
    {
        self.with_content(self.content.clone(alloc)?)
    }

    // The same value. A leaf has room for as many pairs more as a full one grows by.
    pub(crate) fn copy_with_room(&self, alloc: Global) -> Result<Node>
        ensures ok { IfOk result (λ copy. copy ≡ self.now) }
        ensures err { IfErr result (λ e. e ≡ NoMemory) }
    {
        self.with_content(self.content.copy_with_room(alloc)?)
    }

    // The same bounds with this content.
    fn with_content(&self, content: Data) -> Result<Node>
        ensures ok { IfOk result (λ made. made ≡ record self.now { content = content }) }
        ensures err { IfErr result (λ e. e ≡ NoMemory) }
    {
        Ok(Node {
            lo: self.lo.clone()?,
            hi: self.hi.clone()?,
            next: self.next,
            merging: self.merging,
            merging_child: self.merging_child,
            content,
        })
    }

    /// A leaf's value at the key; `None` if there is none. Refused with `NoMemory` alone.
    ///
    /// ```
    /// match node.get(b"ulm")? {
    ///     Some(value) => (), // The value at the key.
    ///     None => (), // There is none in this leaf, or the node is an index.
    /// }
    /// ```
    #[inline(always)]
    #[tactic(auto, unfolding(crate::specs::Order::key_cmp))]
    pub fn get(&self, key: &[u8]) -> Result<Option<IVec>>
        ensures ok { IfOk result (λ value. value ≡ value_in self.now.content key.now) }
        ensures err { IfErr result (λ e. e ≡ NoMemory) }
    {
        match &self.content {
            Data::Leaf(leaf) => match leaf.get(key) {
                Some(value) => Ok(Some(value.clone()?)),
                None => Ok(None),
            },
            Data::Index(_) => Ok(None),
        }
    }

    /// Makes the change of a link. One that does not fit the kind of node leaves it as it is.
    /// Refused with `NoMemory` alone, and then unchanged.
    ///
    /// ```
    /// node.apply(Link::Set(key, value))?; // A leaf has the value at the key now, and an index is as it was.
    /// node.apply(Link::ChildMergeCap)?; // The page is merging now.
    /// ```
    pub fn apply(&mut self, link: Link) -> Result<()>
        ensures ok { OnOk result (self.new ≡ after_link link self.old) }
        ensures err { OnErr result (self.new ≡ self.old) }
        ensures cause { IfErr result (λ e. e ≡ NoMemory) }
    {
        let done = self.follow(&link);
        drop(link);
        done
    }

    // Makes the change of a link that is kept. The node shares its key and value.
    pub(crate) fn follow(&mut self, link: &Link) -> Result<()>
        ensures ok { OnOk result (self.new ≡ after_link link.now self.old) }
        ensures err { OnErr result (self.new ≡ self.old) }
        ensures cause { IfErr result (λ e. e ≡ NoMemory) }
    {
        match link {
            Link::Set(key, value) => {
                if let Data::Leaf(leaf) = &mut self.content {
                    leaf.put(key, value.clone()?)?;
                }
            }
            Link::Del(key) => {
                if let Data::Leaf(leaf) = &mut self.content {
                    leaf.remove_key(key)?;
                }
            }
            Link::ParentMergeIntention(child) => {
                if let Data::Index(_) = &self.content {
                    self.merging_child = Some(*child);
                }
            }
            Link::ParentMergeConfirm => {
                if let Some(child) = self.merging_child {
                    if let Data::Index(index) = &mut self.content {
                        index.take_pointers(child)?;
                        self.merging_child = None;
                    }
                }
            }
            Link::ChildMergeCap => self.merging = true,
        }
        Ok(())
    }

    /// The left and the right half of a node of two entries or more. The first half of the entries, rounded down, stays left.
    /// The right half begins at its first key and has the old `next`; the left half has none yet. Both are open.
    /// Refused with `NoMemory` alone.
    ///
    /// ```
    /// if node.should_split() {
    ///     let (left, right) = node.split(alloc)?; // Of 17 entries 8 and 9.
    /// }
    /// ```
    pub fn split(&self, alloc: Global) -> Result<(Node, Node)>
        requires { 2 ≤ count self.now.content }
        ensures ok { IfOk result (λ halves. (halves.0 ≡ left_half self.now) × (halves.1 ≡ right_half self.now)) }
        ensures err { IfErr result (λ e. e ≡ NoMemory) }
    {
        let (left, right) = self.content.halves(alloc)?;
        match self.bounds_of_halves(alloc, &right) {
            Ok((lower, upper)) => Ok((left.between(lower, None), right.between(upper, self.next))),
            Err(e) => {
                drop(left);
                drop(right);
                Err(e)
            }
        }
    }

    // The bounds of the left half and of the right one, which has these entries.
    fn bounds_of_halves(&self, alloc: Global, right: &Data) -> Result<((IVec, IVec), (IVec, IVec))>
        ensures left { IfOk result (λ bounds. bounds.0 ≡ (self.now.lo, first_key_of right.now)) }
        ensures right { IfOk result (λ bounds. bounds.1 ≡ (first_key_of right.now, self.now.hi)) }
        ensures err { IfErr result (λ e. e ≡ NoMemory) }
    {
        let middle = right.first_key(alloc)?;
        let lower = match clone_pair(&self.lo, &middle) {
            Ok(bounds) => bounds,
            Err(e) => {
                drop(middle);
                return Err(e);
            }
        };
        match self.hi.clone() {
            Ok(hi) => Ok((lower, (middle, hi))),
            Err(e) => {
                drop(lower);
                drop(middle);
                Err(e)
            }
        }
    }

    /// The node with the entries, the `hi` and the `next` of the node behind it, which is of the same kind and begins where
    /// this one ends. Of another kind the entries stay. Refused with `NoMemory` alone.
    ///
    /// ```
    /// let both = left.receive_merge(alloc, &right)?; // The entries of both, up to where `right` ended.
    /// ```
    pub fn receive_merge(&self, alloc: Global, child: &Node) -> Result<Node>
        ensures ok { IfOk result (λ both. both ≡ after_receiving self.now child.now) }
        ensures err { IfErr result (λ e. e ≡ NoMemory) }
    {
        Ok(Node {
            lo: self.lo.clone()?,
            hi: child.hi.clone()?,
            next: child.next,
            merging: self.merging,
            merging_child: self.merging_child,
            content: self.content.followed_by(alloc, &child.content)?,
        })
    }

    /// Puts a pointer into an index if the key has none, and says whether it did. Else, and in a leaf, nothing changes. Refused
    /// with `NoMemory` alone, and then unchanged.
    ///
    /// ```
    /// let is_new = node.parent_split(key, pid)?; // `false` where the key had a pointer, and of a leaf.
    /// ```
    pub fn parent_split(&mut self, at: IVec, pid: Pid) -> Result<bool>
        ensures ok { IfOk result (Posts at pid self.old self.new) }
        ensures err { OnErr result (self.new ≡ self.old) }
        ensures cause { IfErr result (λ e. e ≡ NoMemory) }
    {
        match &mut self.content {
            Data::Leaf(_) => Ok(false),
            Data::Index(index) => {
                let posted = index.post(&at, pid);
                drop(at);
                posted
            }
        }
    }

    // Whether it is neither merging nor has a merging child.
    fn is_open(&self) -> bool
        ensures { IsTrue result ↔ IsOpen self.now }
    {
        !self.merging && self.merging_child.is_none()
    }

    /// Whether it is open and has more than 16 entries.
    ///
    /// ```
    /// if node.should_split() {
    ///     let (left, right) = node.split(alloc)?;
    /// }
    /// ```
    pub fn should_split(&self) -> bool
        ensures { IsTrue result ↔ (16 < count self.now.content × IsOpen self.now) }
    {
        self.content.len() > MOST && self.is_open()
    }

    /// Whether it is open and has 3 entries or fewer.
    ///
    /// ```
    /// let is_small = node.should_merge(); // Of a leaf of 3 pairs `true`, while it is open.
    /// ```
    #[inline(always)]
    pub fn should_merge(&self) -> bool
        ensures { IsTrue result ↔ (count self.now.content ≤ 3 × IsOpen self.now) }
    {
        self.content.len() <= FEW && self.is_open()
    }

    /// Whether it is an open index.
    ///
    /// ```
    /// if node.can_merge_child() {
    ///     node.apply(Link::ParentMergeIntention(child))?;
    /// }
    /// ```
    pub fn can_merge_child(&self) -> bool
        ensures { IsTrue result ↔ (IsIndex self.now.content × IsOpen self.now) }
    {
        match &self.content {
            Data::Leaf(_) => false,
            Data::Index(_) => self.is_open(),
        }
    }

    /// An index's last pointer whose key is within an upper bound, and whether it is the first of all pointers.
    /// `None` if no key is within the bound. It takes no memory.
    ///
    /// ```
    /// match node.pointer(Bound::Included(b"ulm")) {
    ///     Some((pid, is_first)) => (), // The way to `ulm` goes on at this page.
    ///     None => (), // The index begins above `ulm`, or the node is a leaf.
    /// }
    /// ```
    #[inline(always)]
    pub fn pointer(&self, bound: Bound<&[u8]>) -> Option<(Pid, bool)>
        ensures { IsPointerFor (bound_of bound.entry) (pointers self.now.content) result }
    {
        match &self.content {
            Data::Leaf(_) => None,
            Data::Index(index) => index.last_pointer(bound),
        }
    }

    /// The pointer before an index's first one to this page. `None` if there is no such pointer. It takes no memory.
    ///
    /// ```
    /// let left = node.pointer_before(child); // From this page on, the one that `child` merges into is looked for.
    /// ```
    pub fn pointer_before(&self, pid: Pid) -> Option<Pid>
        ensures { IsPointerBefore pid (pointers self.now.content) result }
    {
        match &self.content {
            Data::Leaf(_) => None,
            Data::Index(index) => index.before(pid),
        }
    }

    /// A leaf's first pair whose key is within a lower bound. Refused with `NoMemory` alone.
    ///
    /// ```
    /// let next = node.successor(Bound::Excluded(b"ulm"))?; // The first pair above `ulm`, within this leaf.
    /// ```
    pub fn successor(&self, bound: Bound<&[u8]>) -> Result<Option<(IVec, IVec)>>
        ensures ok { IfOk result (IsSuccessor (bound_of bound.entry) (pairs self.now.content)) }
        ensures err { IfErr result (λ e. e ≡ NoMemory) }
    {
        self.successor_near(bound, &mut NOWHERE)
    }

    /// The same, and `near` becomes the place of the pair, counted from 0; if none is found, or it is refused, it stays. In a leaf whose
    /// keys ascend the bound's key is looked for at this place first, so a loop from pair to pair finds each at once. Any number will
    /// do: a wrong one costs a comparison, or nothing if there is no such place. Refused with `NoMemory` alone.
    ///
    /// ```
    /// let mut near = 3; // Where the pair of `ulm` was found.
    /// let next = node.successor_near(Bound::Excluded(b"ulm"), &mut near)?; // The pair behind it. If there is one, `near` is 4.
    /// ```
    #[inline(always)]
    pub fn successor_near(
        &self,
        bound: Bound<&[u8]>,
        near: &mut usize,
    ) -> Result<Option<(IVec, IVec)>>
        ensures ok { IfOk result (IsSuccessor (bound_of bound.entry) (pairs self.now.content)) }
        ensures place { IfOk result (λ found. IfSome found (λ pair. slice_get (pairs self.now.content) near.new ≡ Some pair)) }
        ensures none { IfOk result (λ found. IfNone found (near.new ≡ near.old)) }
        ensures kept { OnErr result (near.new ≡ near.old) }
        ensures err { IfErr result (λ e. e ≡ NoMemory) }
    {
        match &self.content {
            Data::Leaf(leaf) => leaf.first_from(bound, near),
            Data::Index(_) => Ok(None),
        }
    }

    /// A leaf's last pair whose key is within an upper bound. Refused with `NoMemory` alone.
    ///
    /// ```
    /// let last = node.predecessor(Bound::Unbounded)?; // The last pair of the leaf.
    /// ```
    pub fn predecessor(&self, bound: Bound<&[u8]>) -> Result<Option<(IVec, IVec)>>
        ensures ok { IfOk result (IsPredecessor (bound_of bound.entry) (pairs self.now.content)) }
        ensures err { IfErr result (λ e. e ≡ NoMemory) }
    {
        self.predecessor_near(bound, &mut NOWHERE)
    }

    /// The same, and `near` becomes the place of the pair, counted from 0; if none is found, or it is refused, it stays. In a leaf whose
    /// keys ascend the bound's key is looked for at this place first, so a loop from pair to pair finds each at once. Any number will
    /// do: a wrong one costs a comparison, or nothing if there is no such place. Refused with `NoMemory` alone.
    ///
    /// ```
    /// let mut near = 3; // Where the pair of `ulm` was found.
    /// let before = node.predecessor_near(Bound::Excluded(b"ulm"), &mut near)?; // The pair before it. If there is one, `near` is 2.
    /// ```
    #[inline(always)]
    pub fn predecessor_near(
        &self,
        bound: Bound<&[u8]>,
        near: &mut usize,
    ) -> Result<Option<(IVec, IVec)>>
        ensures ok { IfOk result (IsPredecessor (bound_of bound.entry) (pairs self.now.content)) }
        ensures place { IfOk result (λ found. IfSome found (λ pair. slice_get (pairs self.now.content) near.new ≡ Some pair)) }
        ensures none { IfOk result (λ found. IfNone found (near.new ≡ near.old)) }
        ensures kept { OnErr result (near.new ≡ near.old) }
        ensures err { IfErr result (λ e. e ≡ NoMemory) }
    {
        match &self.content {
            Data::Leaf(leaf) => leaf.last_up_to(bound, near),
            Data::Index(_) => Ok(None),
        }
    }

    /// The pair of a leaf at a place, counted from 0, and `None` behind the last one. An index has none. Refused with `NoMemory` alone.
    ///
    /// ```
    /// let third = node.pair_at(2)?;
    /// ```
    #[inline(always)]
    pub fn pair_at(&self, place: usize) -> Result<Option<(IVec, IVec)>>
        ensures ok { IfOk result (λ found. found ≡ slice_get (pairs self.now.content) place) }
        ensures err { IfErr result (λ e. e ≡ NoMemory) }
    {
        match &self.content {
            Data::Leaf(leaf) => leaf.pair_at(place),
            Data::Index(_) => Ok(None),
        }
    }

    /// How many pairs of a leaf have a key within an upper bound. An index has none. It takes no memory.
    ///
    /// ```
    /// let count = node.count_up_to(Bound::Excluded(b"ulm")); // In a leaf whose keys ascend these are the first so many pairs.
    /// ```
    pub fn count_up_to(&self, bound: Bound<&[u8]>) -> usize
        ensures { result ≡ length (pairs_in (record { lo = Unbounded; hi = bound_of bound.entry; back = false }) (pairs self.now.content)) }
    {
        match &self.content {
            Data::Leaf(leaf) => leaf.count_up_to(bound),
            Data::Index(_) => 0,
        }
    }

    /// The pair of a leaf at a place, counted from 0, of those whose keys are within two bounds: from the least key up or,
    /// `back`, from the greatest down. An index has none. Refused with `NoMemory` alone.
    ///
    /// ```
    /// let third = node.pair_within(Bound::Included(b"ulm"), Bound::Unbounded, false, 2)?; // The third pair from `ulm` on.
    /// ```
    pub fn pair_within(
        &self,
        lo: Bound<&[u8]>,
        hi: Bound<&[u8]>,
        back: bool,
        place: usize,
    ) -> Result<Option<(IVec, IVec)>>
        ensures ok { IfOk result (λ found. found ≡ slice_get (pairs_in (record { lo = bound_of lo.entry; hi = bound_of hi.entry; back = back }) (pairs self.now.content)) place) }
        ensures err { IfErr result (λ e. e ≡ NoMemory) }
    {
        match &self.content {
            Data::Leaf(leaf) => leaf.pair_within(lo, hi, back, place),
            Data::Index(_) => Ok(None),
        }
    }

    /// The greatest of this number and the page numbers that the node names.
    ///
    /// ```
    /// let last = node.greatest(pid.0); // The number of `pid`, or a greater one that the node names.
    /// ```
    pub fn greatest(&self, least: u64) -> u64
        ensures least { least ≤ result }
        ensures all { all_named (λ p. nat_le p result) self.now ≡ true }
        ensures least_such { (n : ℕ) → least ≤ n → all_named (λ p. nat_le p n) self.now ≡ true → result ≤ n }
    {
        let next = greater_of(least, self.next);
        let child = greater_of(next, self.merging_child);
        match &self.content {
            Data::Leaf(_) => child,
            Data::Index(index) => index.greatest(child),
        }
    }
}
