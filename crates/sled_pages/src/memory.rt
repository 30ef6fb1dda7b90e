//! A store in memory. It keeps the pages as they are now, and how to take each action since the last flush back.
ghost use Rattle.std.specs.Prelude.{◌≡◌, ℕ, ◌+◌, ◌^◌, ◌<◌, Some, None, true, false, if◌then◌else◌, IfOk, IfErr, OnOk, OnErr, length, [], is_some};
ghost use Rattle.std.specs.FinMap.{is_sorted};
ghost use Rattle.sled_nodes.specs.declared.error.Error.TheVariants.{NoMemory, Io};
ghost use Rattle.sled_nodes.specs.Order.{key_cmp};
ghost use Rattle.sled_pages.specs.Slots.{slots_of, places_of};
ghost use Rattle.sled_store.specs.Roots.{roots_of};
ghost use Rattle.sled_pages.specs.Table.{IsKept, AreBelow};
ghost use Rattle.sled_store.specs.Faults.{IsFault};
ghost use Rattle.sled_pages.specs.theory.Faults.{is_named};
ghost use Rattle.std.specs.Option.{option_copied, option_map};
ghost use Rattle.sled_store.specs.Update.{put_at};
ghost use Rattle.sled_pages.specs.Table.{page_of, slot_given};
ghost use Rattle.sled_store.specs.State.{PageBecomes, RootBecomes, GroupBegins, GroupEnds};
ghost use Rattle.sled_store.specs.Store.{IsRefused, ActsAt, after_action, after_flush, now, version_now};
ghost use Rattle.sled_store.specs.Crash.{Crashes, IsCrashState};
ghost use Rattle.sled_pages.specs.Image.{IsImage};
ghost use Rattle.sled_nodes.specs.Image.{node_in};
ghost use Rattle.sled_pages.specs.Parts.{node_of, alone, linked, ChangesParts};
ghost use Rattle.sled_nodes.specs.Node.{after_link};
ghost use Rattle.sled_store.specs.State.{nodes_of};
ghost use Rattle.sled_store.specs.Store.{Allocates, Changes, Frees, SwapsRoot};
ghost use Rattle.sled_pages.specs.declared.memory.slots.Slot.{Slot};
ghost use Rattle.std.specs.Prelude.{◌≤◌, IfSome, nat_le, nat_lt};

mod back;
mod blocks;
mod linked;
mod rebuild;
mod slots;
mod undo;

use back::{greatest_root, join_all, linked_pages, set_root, settle, sorted_roots, take_all_back};
use linked::Linked;
pub use rebuild::Rebuild;
use sled_nodes::{
    Error, Fault, IVec, Link, Node, Pid, Result, Shared, Version, copy_pointers, value_at,
};
use sled_store::{Pages, View};
use slots::{Slot, Slots, reserve_one};
use std::alloc::Global;
use undo::Undo;

/// A store in memory.
pub struct MemPages {
    alloc: Global,
    slots: Slots,
    roots: Vec<(IVec, Pid)>,
    in_group: bool,
    log: Vec<Undo>,
    actions: u64,
    next_version: u64,
    calls: u64,
    refused: Vec<u64>,
    faults: u64,
    unreadable: Vec<u64>,
    mark: u64,
    recovered: bool,
    ghost kept: { IsKept (places_of slots) (record { slots = slots_of slots; roots = roots_of roots.items; in_group = in_group }) log.items },
    ghost ascends: { is_sorted key_cmp roots.items ≡ true },
    ghost below: { AreBelow next_version (slots_of slots) log.items },
}

// By hand, so that each function that drops a store cites this, and does not prove again how its parts are dropped.
impl Drop for MemPages {
    fn drop(self) {
        let MemPages {
            alloc: _,
            slots,
            roots,
            in_group: _,
            log,
            actions: _,
            next_version: _,
            calls: _,
            refused,
            faults: _,
            unreadable,
            mark: _,
            recovered: _,
        } = self;
        drop(slots);
        drop(roots);
        drop(log);
        drop(refused);
        drop(unreadable);
    }
}

// The codes of this store's faults: a call that was named, a page that was named, numbers that are used up.
const REFUSED: u32 = 1;

const UNREADABLE: u32 = 2;

const USED_UP: u32 = 3;

// A fault of the device, while faults can be counted.
fn fault(faults: &mut u64, code: u32) -> Error
    ensures { IsFault faults.old faults.new result }
{
    if *faults == u64::MAX {
        return Error::NoMemory;
    }
    *faults += 1;
    Error::Io(Fault(code))
}

// Whether a page was named. Out of line, since nearly always none was.
#[cold]
#[inline(never)]
fn names(named: &[u64], pid: Pid) -> bool
    ensures { result ≡ is_named pid named.now }
{
    named.contains(&pid.0)
}

// Counts a call, which is refused if its number was named.
fn count_call(calls: &mut u64, faults: &mut u64, refused: &[u64]) -> Result<()>
    ensures ok { OnOk result (faults.new ≡ faults.old) }
    ensures counted { OnOk result (calls.new ≡ calls.old + 1) }
    ensures named { OnOk result (is_named (calls.old + 1) refused.now ≡ false) }
    ensures err { IfErr result (λ e. IsFault faults.old faults.new e) }
{
    if *calls == u64::MAX {
        return Err(fault(faults, USED_UP));
    }
    *calls += 1;
    if refused.contains(&*calls) {
        return Err(fault(faults, REFUSED));
    }
    Ok(())
}

impl MemPages {
    ghost use Rattle.sled_pages.specs.Memory.{store_of, calls_refused, empty_store, parts_of};
    ghost use Rattle.sled_pages.specs.Parts.{parts_lent};
    ghost use Rattle.sled_pages.specs.theory.Memory.{HasRoom, IsOther};

    /// An empty store. It takes no memory.
    ///
    /// ```
    /// let mut pages = MemPages::new(alloc);
    /// let (pid, version) = pages.allocate(node)?;
    /// ```
    pub fn new(alloc: Global) -> MemPages
        ensures { store_of result ≡ empty_store }
    {
        MemPages {
            alloc,
            slots: Slots::new(alloc),
            roots: Vec::new(alloc),
            in_group: false,
            log: Vec::new(alloc),
            actions: 0,
            next_version: 0,
            calls: 0,
            refused: Vec::new(alloc),
            faults: 0,
            unreadable: Vec::new(alloc),
            mark: 0,
            recovered: false,
        }
    }

    /// A store of these pages, roots and mark, as if an earlier store had left them. Of one number or name the last entry
    /// counts. Its next page number is greater than all that the image has or names. Refused with `NoMemory` alone.
    ///
    /// ```
    /// // One leaf, the root of a tree.
    /// let pages = vec![in alloc; (Pid(1), node)]?;
    /// let roots = vec![in alloc; (key, Pid(1))]?;
    /// let store = MemPages::from_image(alloc, pages, roots, 0)?;
    /// ```
    pub fn from_image(
        alloc: Global,
        pages: Vec<(Pid, Node)>,
        roots: Vec<(IVec, Pid)>,
        mark: u64,
    ) -> Result<MemPages>
        ensures ok { IfOk result (λ made. IsImage pages.items roots.items mark (store_of made)) }
        ensures parts { IfOk result (λ made. (p : ℕ) → parts_of made p ≡ option_map alone (node_in pages.items p)) }
        ensures named { IfOk result (λ made. calls_refused made ≡ []) }
        ensures err { IfErr result (λ e. e ≡ NoMemory) }
    {
        let least = greatest_root(roots.as_slice());
        let (slots, next_version) = Slots::from_pages(alloc, pages, least)?;
        let roots = sorted_roots(alloc, roots)?;
        Ok(MemPages {
            alloc,
            slots,
            roots,
            in_group: false,
            log: Vec::new(alloc),
            actions: 0,
            next_version,
            calls: 0,
            refused: Vec::new(alloc),
            faults: 0,
            unreadable: Vec::new(alloc),
            mark,
            recovered: true,
        })
    }

    /// What a crash leaves that keeps this many of the actions since the last flush, less a group that is not sealed within
    /// them. Calls are counted anew from 1, none is refused, and every page can be read. Refused with `NoMemory` alone: then
    /// the store is lost.
    ///
    /// ```
    /// let left = pages.crash(0)?; // The pages at the last flush.
    /// ```
    pub fn crash(self, keep: usize) -> Result<MemPages>
        ensures ok { IfOk result (λ left. Crashes keep (store_of self) (store_of left)) }
        ensures left { IfOk result (λ left. IsCrashState (store_of self) (store_of left).base) }
        ensures named { IfOk result (λ left. calls_refused left ≡ []) }
        ensures err { IfErr result (λ e. e ≡ NoMemory) }
    {
        let MemPages {
            alloc,
            mut slots,
            mut roots,
            mut in_group,
            mut log,
            actions,
            next_version,
            calls: _,
            refused,
            faults: _,
            unreadable,
            mark,
            recovered: _,
        } = self;
        drop(refused);
        drop(unreadable);
        let pages = linked_pages(alloc, log.as_slice())?;
        take_all_back(&mut slots, &mut roots, &mut in_group, &mut log, keep)?;
        join_all(alloc, &mut slots, pages.as_slice())?;
        settle(alloc, &mut slots, &mut log);
        Ok(MemPages {
            alloc,
            slots,
            roots,
            in_group,
            log,
            actions,
            next_version,
            calls: 0,
            refused: Vec::new(alloc),
            faults: 0,
            unreadable: Vec::new(alloc),
            mark,
            recovered: true,
        })
    }

    /// The calls of these numbers will be refused, and no others. The calls are those of `Pages` by `&mut self`, counted
    /// from 1 in the order made. Refused with `NoMemory` alone, and then the calls that were named before stay named.
    ///
    /// ```
    /// pages.refuse_at(&[3])?; // The third call since the store was made is refused.
    /// ```
    pub fn refuse_at(&mut self, calls: &[u64]) -> Result<()>
        ensures same { store_of self.new ≡ store_of self.old }
        ensures named { OnOk result (calls_refused self.new ≡ calls.now) }
        ensures kept { OnErr result (calls_refused self.new ≡ calls_refused self.old) }
        ensures err { IfErr result (λ e. e ≡ NoMemory) }
        ensures parts { parts_of self.new ≡ parts_of self.old }
    {
        self.refused = Vec::from_slice(self.alloc, calls)?;
        Ok(())
    }

    /// The base node of a page and the links since, the first of them first, at most 8. `None` if there is no page. It takes no memory.
    ///
    /// ```
    /// if let Some((base, links)) = pages.parts(pid) {
    ///     let count = links.len(); // So many links since the base.
    /// }
    /// ```
    pub fn parts(&self, pid: Pid) -> Option<(&Node, &[Link])>
        ensures is { parts_lent result ≡ parts_of self.now pid }
        ensures few { IfSome result (λ lent. length lent.1.now ≤ 8) }
        ensures joins { option_map node_of (parts_lent result) ≡ nodes_of (now (store_of self.now)) pid }
    {
        match self.slots.get(pid) {
            Some(slot) => Some((slot.page.base(), slot.page.links())),
            None => None,
        }
    }

    /// The greatest page number that was given, 0 if none was, and how many versions were: all that are below it.
    ///
    /// ```
    /// let (greatest, versions) = pages.numbers_given(); // (Pid(0), 0) of a new store.
    /// ```
    pub fn numbers_given(&self) -> (Pid, u64)
        ensures pids { (p : ℕ) → 0 < p → (store_of self.now).pids p ≡ nat_le p result.0 }
        ensures versions { (v : ℕ) → (store_of self.now).versions v ≡ nat_lt v result.1 }
    {
        (self.slots.greatest(), self.next_version)
    }

    /// The page of this number cannot be read any more, until a crash. Refused with `NoMemory` alone, and then unchanged.
    ///
    /// ```
    /// pages.unreadable(pid)?;
    /// let refused = pages.read(alloc, pid); // `Io`, until a crash.
    /// ```
    pub fn unreadable(&mut self, pid: Pid) -> Result<()>
        ensures ok { OnOk result (store_of self.new ≡ record (store_of self.old) { is_readable = put_at (store_of self.old).is_readable pid false }) }
        ensures err { OnErr result (store_of self.new ≡ store_of self.old) }
        ensures cause { IfErr result (λ e. e ≡ NoMemory) }
        ensures parts { parts_of self.new ≡ parts_of self.old }
    {
        self.unreadable.push(pid.0)?;
        Ok(())
    }

    /// What `flush` does, and answers what it answers, but it is never refused: it is none of the calls that are counted. It is for a
    /// store that is built over this one, and has made all durable before.
    ///
    /// ```
    /// if !pages.in_group() {
    ///     let count = pages.flush_uncounted();
    /// }
    /// ```
    pub fn flush_uncounted(&mut self) -> usize
        requires { (now (store_of self.old)).in_group ≡ false }
        ensures ok { store_of self.new ≡ after_flush (store_of self.old) }
        ensures number { result ≡ length (store_of self.old).recent }
        ensures named { calls_refused self.new ≡ calls_refused self.old }
        ensures parts { parts_of self.new ≡ parts_of self.old }
    {
        let count = self.log.len();
        settle(self.alloc, &mut self.slots, &mut self.log);
        count
    }

    // Counts a call that makes no action.
    fn count(&mut self) -> Result<()>
        ensures same { OnOk result (store_of self.new ≡ store_of self.old) }
        ensures named { OnOk result (is_named (self.old.calls + 1) (calls_refused self.old) ≡ false) }
        ensures err { IfErr result (λ e. IsRefused e (store_of self.old) (store_of self.new)) }
        ensures parts { parts_of self.new ≡ parts_of self.old }
    {
        count_call(&mut self.calls, &mut self.faults, self.refused.as_slice())
    }

    // Counts a call. If it is not refused there is room for one action.
    fn start(&mut self) -> Result<()>
        ensures same { OnOk result (store_of self.new ≡ store_of self.old) }
        ensures named { OnOk result (is_named (self.old.calls + 1) (calls_refused self.old) ≡ false) }
        ensures room { OnOk result (HasRoom self.new) }
        ensures err { IfErr result (λ e. IsRefused e (store_of self.old) (store_of self.new)) }
        ensures parts { parts_of self.new ≡ parts_of self.old }
    {
        if let Err(e) = count_call(&mut self.calls, &mut self.faults, self.refused.as_slice()) {
            return Err(e);
        }
        if self.actions == u64::MAX {
            return Err(fault(&mut self.faults, USED_UP));
        }
        if reserve_one(&mut self.log).is_err() {
            return Err(Error::NoMemory);
        }
        Ok(())
    }

    // The same of a call that gives a version.
    fn start_version(&mut self) -> Result<()>
        ensures same { OnOk result (store_of self.new ≡ store_of self.old) }
        ensures room { OnOk result (HasRoom self.new) }
        ensures versions { OnOk result (self.new.next_version + 1 < 2 ^ 64) }
        ensures err { IfErr result (λ e. IsRefused e (store_of self.old) (store_of self.new)) }
        ensures parts { parts_of self.new ≡ parts_of self.old }
    {
        if let Err(e) = self.start() {
            return Err(e);
        }
        if self.next_version == u64::MAX {
            return Err(fault(&mut self.faults, USED_UP));
        }
        Ok(())
    }

    // Whether a page has this version; else the version that it has.
    fn tested(&self, pid: Pid, version: Version) -> std::result::Result<(), Option<Version>>
        ensures ok { OnOk result (version_now (store_of self.now) pid ≡ Some version) }
        ensures placed { OnOk result (places_of self.now.slots pid ≡ true) }
        ensures there { OnOk result (is_some (slots_of self.now.slots pid) ≡ true) }
        ensures err { IfErr result (IsOther pid version (store_of self.now)) }
    {
        match self.slots.get(pid) {
            Some(slot) => {
                if slot.version == version {
                    Ok(())
                } else {
                    Err(Some(slot.version))
                }
            }
            None => Err(None),
        }
    }

    // The slot of a number.
    #[inline(always)]
    fn slot(&self, pid: Pid) -> Option<&Slot>
        ensures { option_map page_of (option_copied result) ≡ (now (store_of self.now)).pages pid }
    {
        self.slots.get(pid)
    }

    // Whether a page cannot be read.
    #[inline(always)]
    fn is_unreadable(&self, pid: Pid) -> bool
        ensures { result ≡ is_named pid self.now.unreadable.items }
    {
        !self.unreadable.is_empty() && names(self.unreadable.as_slice(), pid)
    }

    // Puts a page in the place of another, or takes it out.
    fn commit(&mut self, pid: Pid, slot: Option<Slot>)
        requires room { HasRoom self.old }
        requires placed { places_of self.old.slots pid ≡ true }
        requires below { slot_given self.old.next_version slot ≡ true }
        ensures is { store_of self.new ≡ after_action (PageBecomes pid (option_map page_of slot)) (store_of self.old) }
        ensures parts { parts_of self.new ≡ put_at (parts_of self.old) pid (option_map (λ (s : Slot). s.page) slot) }
    {
        let old = self.slots.put(pid, slot);
        self.log.push_reserved(Undo::UndoSlot(pid, old));
        self.actions += 1;
    }

    // Puts a new version of a page in its place.
    fn commit_node(&mut self, pid: Pid, node: Shared) -> Version
        requires room { HasRoom self.old }
        requires versions { self.old.next_version + 1 < 2 ^ 64 }
        requires placed { places_of self.old.slots pid ≡ true }
        ensures is { ActsAt (PageBecomes pid (Some (record { version = result; node = node }))) result (store_of self.old) (store_of self.new) }
        ensures parts { parts_of self.new ≡ put_at (parts_of self.old) pid (Some (alone node)) }
    {
        let version = Version(self.next_version);
        self.next_version += 1;
        let page = Linked::new(node);
        self.commit(pid, Some(Slot { version, page }));
        version
    }

    // Begins or ends a group.
    fn commit_group(&mut self, begins: bool)
        requires room { HasRoom self.old }
        ensures is { store_of self.new ≡ after_action (if begins then GroupBegins else GroupEnds) (store_of self.old) }
        ensures parts { parts_of self.new ≡ parts_of self.old }
    {
        self.log.push_reserved(Undo::UndoGroup(self.in_group));
        self.in_group = begins;
        self.actions += 1;
    }

    // Makes another the root of a name, or takes the name out.
    fn commit_root(&mut self, name: &[u8], old: Option<Pid>, new: Option<Pid>) -> Result<()>
        requires room { HasRoom self.old }
        requires root { (now (store_of self.old)).roots name.now ≡ old }
        ensures ok { OnOk result (store_of self.new ≡ after_action (RootBecomes name.now new) (store_of self.old)) }
        ensures err { OnErr result (store_of self.new ≡ store_of self.old) }
        ensures cause { IfErr result (λ e. e ≡ NoMemory) }
        ensures parts { parts_of self.new ≡ parts_of self.old }
    {
        let key = IVec::from_slice(self.alloc, name)?;
        let undo = IVec::from_slice(self.alloc, name)?;
        set_root(&mut self.roots, key, new)?;
        self.log.push_reserved(Undo::UndoRoot(undo, old));
        self.actions += 1;
        Ok(())
    }
}

impl Pages for MemPages {
    ghost use Rattle.sled_pages.specs.Memory.{store_of, flush_number_of, parts_of};

    ghost store = { store_of };

    ghost flush_number = { flush_number_of };

    #[inline(always)]
    fn read(&self, alloc: Global, pid: Pid) -> Result<Option<View>> {
        if self.is_unreadable(pid) {
            return Err(Error::Io(Fault(UNREADABLE)));
        }
        match self.slot(pid) {
            Some(slot) => Ok(Some(View {
                pid,
                version: slot.version,
                node: slot.page.node(alloc)?,
            })),
            None => Ok(None),
        }
    }

    fn allocate(&mut self, node: Node) -> Result<(Pid, Version)>
        ensures ok { IfOk result (λ given. Allocates node given.0 given.1 (store_of self.old) (store_of self.new)) }
        ensures parts { IfOk result (λ given. parts_of self.new ≡ put_at (parts_of self.old) given.0 (Some (alone node))) }
        ensures err { IfErr result (λ e. IsRefused e (store_of self.old) (store_of self.new)) }
        ensures kept { OnErr result (parts_of self.new ≡ parts_of self.old) }
    {
        if let Err(e) = self.start_version() {
            drop(node);
            return Err(e);
        }
        if !self.slots.has_number() {
            drop(node);
            return Err(fault(&mut self.faults, USED_UP));
        }
        if let Err(e) = self.slots.reserve(self.alloc) {
            drop(node);
            return Err(e);
        }
        let node = match Shared::new(self.alloc, node) {
            Ok(node) => node,
            Err(e) => return Err(e),
        };
        let version = Version(self.next_version);
        self.next_version += 1;
        let page = Linked::new(node);
        let pid = self.slots.add(Slot { version, page });
        self.log.push_reserved(Undo::UndoSlot(pid, None));
        self.actions += 1;
        Ok((pid, version))
    }

    fn link(
        &mut self,
        pid: Pid,
        version: Version,
        link: Link,
    ) -> Result<std::result::Result<Version, Option<Version>>>
        ensures ok { IfOk result (Changes (after_link link) pid version (store_of self.old) (store_of self.new)) }
        ensures parts { IfOk result (ChangesParts (option_map (linked link)) pid (parts_of self.old) (parts_of self.new)) }
        ensures err { IfErr result (λ e. IsRefused e (store_of self.old) (store_of self.new)) }
        ensures kept { OnErr result (parts_of self.new ≡ parts_of self.old) }
    {
        if let Err(e) = self.start_version() {
            drop(link);
            return Err(e);
        }
        let next = Version(self.next_version);
        match self.slots.link(self.alloc, pid, version, next, link) {
            Ok(Ok(undo)) => {
                self.next_version += 1;
                self.log.push_reserved(undo);
                self.actions += 1;
                Ok(Ok(next))
            }
            Ok(Err(present)) => Ok(Err(present)),
            Err(e) => Err(e),
        }
    }

    fn replace(
        &mut self,
        pid: Pid,
        version: Version,
        node: Node,
    ) -> Result<std::result::Result<Version, Option<Version>>>
        ensures ok { IfOk result (Changes (λ _. node) pid version (store_of self.old) (store_of self.new)) }
        ensures parts { IfOk result (ChangesParts (λ _. Some (alone node)) pid (parts_of self.old) (parts_of self.new)) }
        ensures err { IfErr result (λ e. IsRefused e (store_of self.old) (store_of self.new)) }
        ensures kept { OnErr result (parts_of self.new ≡ parts_of self.old) }
    {
        if let Err(e) = self.start_version() {
            drop(node);
            return Err(e);
        }
        if let Err(present) = self.tested(pid, version) {
            drop(node);
            return Ok(Err(present));
        }
        let node = match Shared::new(self.alloc, node) {
            Ok(node) => node,
            Err(e) => return Err(e),
        };
        Ok(Ok(self.commit_node(pid, node)))
    }

    fn free(
        &mut self,
        pid: Pid,
        version: Version,
    ) -> Result<std::result::Result<(), Option<Version>>>
        ensures ok { IfOk result (Frees pid version (store_of self.old) (store_of self.new)) }
        ensures parts { IfOk result (ChangesParts (λ _. None) pid (parts_of self.old) (parts_of self.new)) }
        ensures err { IfErr result (λ e. IsRefused e (store_of self.old) (store_of self.new)) }
        ensures kept { OnErr result (parts_of self.new ≡ parts_of self.old) }
    {
        if let Err(e) = self.start() {
            return Err(e);
        }
        if let Err(present) = self.tested(pid, version) {
            return Ok(Err(present));
        }
        self.commit(pid, None);
        Ok(Ok(()))
    }

    #[tactic(auto, unfolding(sled_nodes::specs::Order::key_cmp))]
    fn root(&self, name: &[u8]) -> Option<Pid> {
        value_at(self.roots.as_slice(), name, true).copied()
    }

    fn roots(&self, alloc: Global) -> Result<Vec<(IVec, Pid)>> {
        copy_pointers(alloc, self.roots.as_slice())
    }

    fn cas_root(
        &mut self,
        name: &[u8],
        old: Option<Pid>,
        new: Option<Pid>,
    ) -> Result<std::result::Result<(), Option<Pid>>>
        ensures ok { IfOk result (SwapsRoot name.now old new (store_of self.old) (store_of self.new)) }
        ensures err { IfErr result (λ e. IsRefused e (store_of self.old) (store_of self.new)) }
        ensures parts { parts_of self.new ≡ parts_of self.old }
    {
        if let Err(e) = self.start() {
            return Err(e);
        }
        let present = self.root(name);
        if present != old {
            return Ok(Err(present));
        }
        if let Err(e) = self.commit_root(name, present, new) {
            return Err(e);
        }
        Ok(Ok(()))
    }

    fn begin_group(&mut self) -> Result<()>
        requires { (now (store_of self.old)).in_group ≡ false }
        ensures ok { OnOk result (store_of self.new ≡ after_action GroupBegins (store_of self.old)) }
        ensures err { IfErr result (λ e. IsRefused e (store_of self.old) (store_of self.new)) }
        ensures parts { parts_of self.new ≡ parts_of self.old }
    {
        if let Err(e) = self.start() {
            return Err(e);
        }
        self.commit_group(true);
        Ok(())
    }

    fn seal_group(&mut self) -> Result<()>
        requires { (now (store_of self.old)).in_group ≡ true }
        ensures ok { OnOk result (store_of self.new ≡ after_action GroupEnds (store_of self.old)) }
        ensures err { IfErr result (λ e. IsRefused e (store_of self.old) (store_of self.new)) }
        ensures parts { parts_of self.new ≡ parts_of self.old }
    {
        if let Err(e) = self.start() {
            return Err(e);
        }
        self.commit_group(false);
        Ok(())
    }

    fn in_group(&self) -> bool {
        self.in_group
    }

    /// Makes all that was done durable. The number is that of the changing actions since the last flush.
    fn flush(&mut self) -> Result<usize>
        requires { (now (store_of self.old)).in_group ≡ false }
        ensures ok { OnOk result (store_of self.new ≡ after_flush (store_of self.old)) }
        ensures number { IfOk result (λ n. n ≡ length (store_of self.old).recent) }
        ensures parts { parts_of self.new ≡ parts_of self.old }
        ensures err { IfErr result (λ e. IsRefused e (store_of self.old) (store_of self.new)) }
    {
        if let Err(e) = self.count() {
            return Err(e);
        }
        Ok(self.flush_uncounted())
    }

    fn set_aside(&mut self, upto: u64) -> Result<()>
        requires { (store_of self.old).mark ≤ upto }
        ensures ok { OnOk result (store_of self.new ≡ record (store_of self.old) { mark = upto }) }
        ensures err { IfErr result (λ e. IsRefused e (store_of self.old) (store_of self.new)) }
        ensures parts { parts_of self.new ≡ parts_of self.old }
    {
        if let Err(e) = self.count() {
            return Err(e);
        }
        self.mark = upto;
        Ok(())
    }

    fn mark(&self) -> u64 {
        self.mark
    }

    fn was_recovered(&self) -> bool {
        self.recovered
    }

    ghost sealed = { λ m. m.kept.sealed };

    ghost use Rattle.sled_pages.specs.theory.Laws.{law_given};

    ghost given = { λ m. law_given m };
}
