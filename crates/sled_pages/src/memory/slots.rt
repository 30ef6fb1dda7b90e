//! Pages by number, as the store in memory keeps them.
ghost use Rattle.std.specs.Prelude.{◌≡◌, ℕ, ◌+◌, ◌^◌, ◌<◌, ◌||◌, Some, None, true, false, nat_eq, nat_le, IfOk, IfErr, OnOk, IsTrue, ◌↔◌, OnErr, is_some};
ghost use Rattle.std.specs.Option.{option_copied};
ghost use Rattle.std.specs.Vec.{vec_len, vec_capacity};
ghost use Rattle.sled_nodes.specs.declared.error.Error.TheVariants.{NoMemory};
ghost use Rattle.sled_store.specs.Update.{put_at};
ghost use Rattle.sled_pages.specs.Blocks.{lies_of};
ghost use Rattle.sled_pages.specs.theory.Known.{IsKnown};
ghost use Rattle.sled_pages.specs.Building.{IsUnused};
ghost use Rattle.sled_pages.specs.theory.Table.{slot_linked, slot_settled};
ghost use Rattle.sled_pages.specs.Table.{slot_unlinked};
ghost use Rattle.sled_pages.specs.theory.Linking.{link_answer, lies_at};
ghost use Rattle.std.specs.Ordering.{nat_cmp};
ghost use Rattle.std.specs.BTreeMap.{get};
ghost use Rattle.sled_pages.specs.Joined.{joined};
ghost use Rattle.std.specs.Prelude.{nat_lt, nat_le, ◌&&◌};
ghost use Rattle.sled_pages.specs.Numbered.{numbered};

use super::blocks::Blocks;
use super::linked::Linked;
use super::undo::Undo;
use sled_nodes::{Link, Node, Pid, Result, Shared, Version};
use std::alloc::Global;
use std::collections::BTreeMap;

/// A page as it is kept.
#[derive(Drop)]
pub struct Slot {
    pub version: Version,
    pub page: Linked,
}

impl Slot {
    /// Changes the page by a link if it has this version, as `Slots::link` does. Refused with `NoMemory` alone, and then unchanged.
    pub fn link(
        &mut self,
        alloc: Global,
        pid: Pid,
        version: Version,
        next: Version,
        link: Link,
    ) -> Result<std::result::Result<Undo, Option<Version>>>
        ensures told { IfOk result (λ answer. answer ≡ link_answer pid version (Some self.old)) }
        ensures ok { OnOk result (Some self.new ≡ slot_linked link version next (Some self.old)) }
        ensures err { OnErr result (self.new ≡ self.old) }
        ensures cause { IfErr result (λ e. e ≡ NoMemory) }
    {
        if self.version != version {
            drop(link);
            return Ok(Err(Some(self.version)));
        }
        let folded = self.page.link(alloc, link)?;
        self.version = next;
        match folded {
            None => Ok(Ok(Undo::UndoLink(pid, version))),
            Some(under) => Ok(Ok(Undo::UndoFold(pid, version, under))),
        }
    }
}

// Changes the page of a slot by a link if it has this version, as `Slots::link` does. Refused with `NoMemory` alone, and then unchanged.
fn link_slot(
    alloc: Global,
    slot: &mut Option<Slot>,
    pid: Pid,
    version: Version,
    next: Version,
    link: Link,
) -> Result<std::result::Result<Undo, Option<Version>>>
    ensures told { IfOk result (λ answer. answer ≡ link_answer pid version slot.old) }
    ensures ok { OnOk result (slot.new ≡ slot_linked link version next slot.old) }
    ensures err { OnErr result (slot.new ≡ slot.old) }
    ensures cause { IfErr result (λ e. e ≡ NoMemory) }
{
    match slot {
        Some(slot) => slot.link(alloc, pid, version, next, link),
        None => {
            drop(link);
            Ok(Err(None))
        }
    }
}

// Changes the page of an image by a link, as `Slots::link` does. Out of line, so that a link of a later page stays short.
#[inline(never)]
fn link_of_image(
    alloc: Global,
    foreign: &mut BTreeMap<u64, Option<Slot>>,
    pid: Pid,
    version: Version,
    next: Version,
    link: Link,
) -> Result<std::result::Result<Undo, Option<Version>>>
    ensures told { IfOk result (λ answer. answer ≡ link_answer pid version (lies_at foreign.old pid)) }
    ensures ok { OnOk result ((p : ℕ) → lies_at foreign.new p ≡ put_at (lies_at foreign.old) pid (slot_linked link version next (lies_at foreign.old pid)) p) }
    ensures err { OnErr result ((p : ℕ) → lies_at foreign.new p ≡ lies_at foreign.old p) }
    ensures places { (p : ℕ) → is_some (get nat_cmp foreign.new p) ≡ is_some (get nat_cmp foreign.old p) }
    ensures cause { IfErr result (λ e. e ≡ NoMemory) }
{
    match foreign.get_mut(&pid.0) {
        Some(slot) => link_slot(alloc, slot, pid, version, next, link),
        None => {
            drop(link);
            Ok(Err(None))
        }
    }
}

/// Changes the page of a slot by a link of which the node alone stays, if there is the slot, and gives it a version. Refused with
/// `NoMemory` alone, and then unchanged.
pub fn settle_slot(
    alloc: Global,
    slot: &mut Option<Slot>,
    version: Version,
    link: &Link,
) -> Result<()>
    ensures ok { OnOk result (slot.new ≡ slot_settled link.now version slot.old) }
    ensures err { OnErr result (slot.new ≡ slot.old) }
    ensures cause { IfErr result (λ e. e ≡ NoMemory) }
{
    if let Some(slot) = slot {
        slot.page.settle(alloc, link)?;
        slot.version = version;
    }
    Ok(())
}

/// Slots by number. Those of an image have any numbers up to `last`; those that were added since are in order behind. Numbers whose
/// slots are gone for good lose their places, so that these take no memory.
#[derive(Drop)]
pub struct Slots {
    from_image: bool,
    last: u64,
    foreign: BTreeMap<u64, Option<Slot>>,
    // how many numbers behind the last one of the image were given
    given: u64,
    own: Blocks,
    ghost known: { IsKnown from_image foreign },
    ghost numbered: { last + given < 2 ^ 64 },
    ghost unused: { IsUnused given (lies_of own) },
    ghost first: { (from_image || nat_eq last 0) ≡ true },
}

// Room for one item more. A full list grows by an eighth, so that a long one has little to spare.
pub fn reserve_one<T>(list: &mut Vec<T>) -> Result<()>
    ensures same { list.new.items ≡ list.old.items }
    ensures room { OnOk result (vec_len list.new < vec_capacity list.new) }
    ensures err { IfErr result (λ e. e ≡ NoMemory) }
{
    let len = list.len();
    if len == list.capacity() {
        list.reserve_exact(len / 8 + 8)?;
    }
    Ok(())
}

impl Slots {
    ghost use Rattle.sled_pages.specs.theory.Laid.{IsLaid};
    ghost use Rattle.sled_pages.specs.theory.Held.{Holds};
    ghost use Rattle.sled_pages.specs.Slots.{slots_of, places_of, given_of};
    ghost use Rattle.sled_pages.specs.theory.Slots.{HasNumber, HasSlotRoom};

    /// No slots.
    pub fn new(alloc: Global) -> Slots
        ensures slots { slots_of result ≡ λ _. None }
        ensures places { places_of result ≡ λ _. false }
        ensures given { given_of result ≡ λ _. false }
    {
        Slots {
            from_image: false,
            last: 0,
            foreign: BTreeMap::new(alloc),
            given: 0,
            own: Blocks::new(alloc),
        }
    }

    /// The slots of an image's pages, and the first version that none of them has. Of one number the last entry counts.
    /// New slots get numbers above `least` and above all that the pages have or name. Refused with `NoMemory` alone.
    pub fn from_pages(alloc: Global, pages: Vec<(Pid, Node)>, least: u64) -> Result<(Slots, u64)>
        ensures ok { IfOk result (λ laid. IsLaid pages.items least laid.0 laid.1) }
        ensures err { IfErr result (λ e. e ≡ NoMemory) }
    {
        let (foreign, last, next) = Slots::lay(alloc, pages, least)?;
        Ok((
            Slots {
                from_image: true,
                last,
                foreign,
                given: 0,
                own: Blocks::new(alloc),
            },
            next,
        ))
    }

    // The pages of an image by number, the greatest number of all, and the first version that none has.
    fn lay(
        alloc: Global,
        pages: Vec<(Pid, Node)>,
        least: u64,
    ) -> Result<(BTreeMap<u64, Option<Slot>>, u64, u64)>
        ensures ok { IfOk result (λ held. Holds pages.items held.0 least held.1 held.2) }
        ensures err { IfErr result (λ e. e ≡ NoMemory) }
    {
        let mut foreign = BTreeMap::new(alloc);
        let mut last = least;
        let mut next = 0;
        for (pid, node) in pages {
            last = node.greatest(last.max(pid.0));
            let base = Shared::new(alloc, node)?;
            let page = Linked::new(base);
            let slot = Slot {
                version: Version(next),
                page,
            };
            drop(foreign.insert(pid.0, Some(slot))?);
            next += 1;
        }
        Ok((foreign, last, next))
    }

    /// The slot of a number.
    #[inline(always)]
    pub fn get(&self, pid: Pid) -> Option<&Slot>
        ensures { option_copied result ≡ slots_of self.now pid }
    {
        if pid.0 <= self.last {
            self.of_image(pid)
        } else {
            self.own.get((pid.0 - self.last - 1) as usize)
        }
    }

    // The slot of a number up to the last one of the image. Out of line, so that a look-up of a later number stays short.
    #[inline(never)]
    fn of_image(&self, pid: Pid) -> Option<&Slot>
        ensures { option_copied result ≡ joined (get nat_cmp self.now.foreign pid) }
    {
        match self.foreign.get(&pid.0) {
            Some(slot) => slot.as_ref(),
            None => None,
        }
    }

    /// Puts a slot at a number that has a place, and returns what was there.
    pub fn put(&mut self, pid: Pid, slot: Option<Slot>) -> Option<Slot>
        requires { places_of self.old pid ≡ true }
        ensures was { result ≡ slots_of self.old pid }
        ensures slots { slots_of self.new ≡ put_at (slots_of self.old) pid slot }
        ensures places { places_of self.new ≡ places_of self.old }
        ensures given { given_of self.new ≡ given_of self.old }
    {
        if pid.0 <= self.last {
            match self.foreign.insert(pid.0, slot) {
                Ok(Some(old)) => old,
                Ok(None) => None,
                Err(slot) => {
                    drop(slot);
                    None
                }
            }
        } else {
            self.own.put((pid.0 - self.last - 1) as usize, slot)
        }
    }

    /// Changes a page by a link if it has this version, and gives it the next one. Says how that is taken back, or else which version the
    /// page has, if there is the page. Refused with `NoMemory` alone, and then unchanged.
    pub fn link(
        &mut self,
        alloc: Global,
        pid: Pid,
        version: Version,
        next: Version,
        link: Link,
    ) -> Result<std::result::Result<Undo, Option<Version>>>
        ensures told { IfOk result (λ answer. answer ≡ link_answer pid version (slots_of self.old pid)) }
        ensures ok { OnOk result (slots_of self.new ≡ put_at (slots_of self.old) pid (slot_linked link version next (slots_of self.old pid))) }
        ensures err { OnErr result (slots_of self.new ≡ slots_of self.old) }
        ensures places { places_of self.new ≡ places_of self.old }
        ensures given { given_of self.new ≡ given_of self.old }
        ensures cause { IfErr result (λ e. e ≡ NoMemory) }
    {
        if pid.0 <= self.last {
            link_of_image(alloc, &mut self.foreign, pid, version, next, link)
        } else {
            let place = (pid.0 - self.last - 1) as usize;
            self.own.link(alloc, place, pid, version, next, link)
        }
    }

    /// Takes the last link of a page back, which gets this version. It takes no memory.
    pub fn unlink(&mut self, pid: Pid, version: Version)
        requires placed { places_of self.old pid ≡ true }
        ensures slots { slots_of self.new ≡ put_at (slots_of self.old) pid (slot_unlinked version (slots_of self.old pid)) }
        ensures places { places_of self.new ≡ places_of self.old }
        ensures given { given_of self.new ≡ given_of self.old }
    {
        if let Some(slot) = self.put(pid, None) {
            let Slot {
                version: _,
                mut page,
            } = slot;
            page.unlink();
            let none = self.put(pid, Some(Slot { version, page }));
            drop(none);
        }
    }

    /// Joins the base and the links of a page, if it is not joined. Refused with `NoMemory` alone.
    pub fn join(&mut self, alloc: Global, pid: Pid) -> Result<()>
        ensures slots { slots_of self.new ≡ slots_of self.old }
        ensures places { places_of self.new ≡ places_of self.old }
        ensures given { given_of self.new ≡ given_of self.old }
        ensures err { IfErr result (λ e. e ≡ NoMemory) }
    {
        if !self.is_apart(pid) {
            return Ok(());
        }
        match self.put(pid, None) {
            Some(slot) => {
                let Slot { version, mut page } = slot;
                let done = page.join(alloc);
                let none = self.put(pid, Some(Slot { version, page }));
                drop(none);
                done
            }
            None => Ok(()),
        }
    }

    // Whether there is a page of this number whose base and links are yet to be joined.
    fn is_apart(&self, pid: Pid) -> bool
        ensures { IsTrue result → is_some (slots_of self.now pid) ≡ true }
    {
        match self.get(pid) {
            Some(slot) => slot.page.is_apart(),
            None => false,
        }
    }

    /// The greatest number that was given, 0 if none was.
    pub fn greatest(&self) -> Pid
        ensures { (p : ℕ) → 0 < p → given_of self.now p ≡ nat_le p result }
    {
        Pid(self.last + self.given)
    }

    /// Whether a number is left for one slot more.
    pub fn has_number(&self) -> bool
        ensures { IsTrue result ↔ HasNumber self.now }
    {
        self.given < u64::MAX - self.last
    }

    /// Makes room for one slot more. Refused with `NoMemory` alone.
    pub fn reserve(&mut self, alloc: Global) -> Result<()>
        ensures slots { slots_of self.new ≡ slots_of self.old }
        ensures places { (p : ℕ) → places_of self.old p ≡ true → places_of self.new p ≡ true }
        ensures given { given_of self.new ≡ given_of self.old }
        ensures number { HasNumber self.old → HasNumber self.new }
        ensures room { OnOk result (HasSlotRoom self.new) }
        ensures err { IfErr result (λ e. e ≡ NoMemory) }
    {
        self.own.make(alloc, self.given as usize)
    }

    /// Adds a slot under a number that never had a place.
    pub fn add(&mut self, slot: Slot) -> Pid
        requires room { HasSlotRoom self.old }
        requires number { HasNumber self.old }
        ensures positive { 0 < result }
        ensures fresh { given_of self.old result ≡ false }
        ensures slots { slots_of self.new ≡ put_at (slots_of self.old) result (Some slot) }
        ensures places { places_of self.new ≡ put_at (places_of self.old) result true }
        ensures given { given_of self.new ≡ put_at (given_of self.old) result true }
    {
        let pid = Pid(self.last + self.given + 1);
        let none = self.own.put(self.given as usize, Some(slot));
        drop(none);
        self.given += 1;
        pid
    }

    /// Frees the place of a number whose page is gone for good: that of a number of an image by itself, and others together with those that
    /// are beside them, once all of these are gone.
    pub fn let_go(&mut self, alloc: Global, pid: Pid)
        ensures slots { slots_of self.new ≡ slots_of self.old }
        ensures given { given_of self.new ≡ given_of self.old }
    {
        if self.get(pid).is_some() {
            return;
        }
        if pid.0 <= self.last {
            let none = self.foreign.remove(&pid.0);
            drop(none);
        } else {
            self.own.let_go(alloc, (pid.0 - self.last - 1) as usize);
        }
    }

    /// The slots that are in blocks, by number from 1 on. So many numbers count as given.
    pub fn from_blocks(alloc: Global, own: Blocks, given: u64) -> Slots
        requires { IsUnused given (lies_of own) }
        ensures slots { slots_of result ≡ numbered (lies_of own) }
        ensures given { (p : ℕ) → given_of result p ≡ (nat_lt 0 p && nat_le p given) }
    {
        Slots {
            from_image: false,
            last: 0,
            foreign: BTreeMap::new(alloc),
            given,
            own,
        }
    }
}
