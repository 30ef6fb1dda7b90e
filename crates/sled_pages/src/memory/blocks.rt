//! Slots by place, in blocks of 64 places. A block without slots may be freed: then it takes no memory but for its entry in the list of
//! blocks, and has no places.
ghost use Rattle.std.specs.Prelude.{◌≡◌, ℕ, ◌≤◌, ◌<◌, Some, None, true, false, length, IfOk, IfErr, OnOk, OnErr, slice_set};
ghost use Rattle.std.specs.List.{slice_get};
ghost use Rattle.std.specs.Option.{option_copied};
ghost use Rattle.sled_nodes.specs.declared.error.Error.TheVariants.{NoMemory};
ghost use Rattle.sled_store.specs.Update.{put_at};
ghost use Rattle.sled_pages.specs.Joined.{joined};
ghost use Rattle.sled_pages.specs.Rows.{rows_of};
ghost use Rattle.sled_pages.specs.theory.Table.{slot_linked, slot_settled};
ghost use Rattle.sled_pages.specs.theory.Linking.{link_answer};

use super::slots::{Slot, settle_slot};
use super::undo::Undo;
use sled_nodes::{Link, Pid, Result, Version};
use std::alloc::Global;

// A block has so many places.
const PLACES: usize = 64;

/// Slots by place.
#[derive(Drop)]
pub struct Blocks {
    blocks: Vec<Vec<Option<Slot>>>,
}

// Whether no slot is in a block.
fn is_empty(block: &[Option<Slot>]) -> bool
    ensures { result ≡ true → (i : ℕ) → joined (slice_get block.now i) ≡ None }
{
    for slot in block {
        if slot.is_some() {
            return false;
        }
    }
    true
}

// Gives a block all its places. Refused with `NoMemory` alone.
fn fill(block: &mut Vec<Option<Slot>>) -> Result<()>
    ensures same { (i : ℕ) → joined (slice_get block.new.items i) ≡ joined (slice_get block.old.items i) }
    ensures longer { length block.old.items ≤ length block.new.items }
    ensures full { OnOk result (64 ≤ length block.new.items) }
    ensures err { IfErr result (λ e. e ≡ NoMemory) }
{
    block.reserve_exact(PLACES.saturating_sub(block.len()))?;
    'fill: while block.len() < PLACES {
        block.push(None)?;
    }
    Ok(())
}

// Lengthens a list of blocks to so many, by blocks without places. Refused with `NoMemory` alone.
fn lengthen(alloc: Global, blocks: &mut Vec<Vec<Option<Slot>>>, count: usize) -> Result<()>
    ensures same { rows_of blocks.new.items ≡ rows_of blocks.old.items }
    ensures long { OnOk result (count ≤ length blocks.new.items) }
    ensures err { IfErr result (λ e. e ≡ NoMemory) }
{
    'more: while blocks.len() < count {
        blocks.push(Vec::new(alloc))?;
    }
    Ok(())
}

// Puts a slot at a place of a block, and returns what was there.
#[inline(always)]
fn put_in(block: &mut Vec<Option<Slot>>, i: usize, slot: Option<Slot>) -> Option<Slot>
    requires { i < length block.old.items }
    ensures was { result ≡ joined (slice_get block.old.items i) }
    ensures set { block.new.items ≡ slice_set block.old.items i slot }
{
    std::mem::replace(&mut block[i], slot)
}

// Changes the page of a slot at a place of a block by a link of which the node alone stays, if there is the slot. Refused with `NoMemory`
// alone, and then unchanged.
#[inline(always)]
fn settle_in(
    alloc: Global,
    block: &mut Vec<Option<Slot>>,
    i: usize,
    version: Version,
    link: &Link,
) -> Result<()>
    requires { i < length block.old.items }
    ensures ok { OnOk result (block.new.items ≡ slice_set block.old.items i (slot_settled link.now version (joined (slice_get block.old.items i)))) }
    ensures err { OnErr result (block.new.items ≡ block.old.items) }
    ensures cause { IfErr result (λ e. e ≡ NoMemory) }
{
    settle_slot(alloc, &mut block[i], version, link)
}

impl Blocks {
    ghost use Rattle.sled_pages.specs.Blocks.{lies_of, has_of};

    /// No places.
    pub fn new(alloc: Global) -> Blocks
        ensures slots { lies_of result ≡ λ _. None }
        ensures places { has_of result ≡ λ _. false }
    {
        Blocks {
            blocks: Vec::new(alloc),
        }
    }

    /// The slot at a place.
    #[inline(always)]
    pub fn get(&self, place: usize) -> Option<&Slot>
        ensures { option_copied result ≡ lies_of self.now place }
    {
        match self.blocks.get(place / PLACES) {
            Some(block) => match block.get(place % PLACES) {
                Some(slot) => slot.as_ref(),
                None => None,
            },
            None => None,
        }
    }

    /// Puts a slot at a place that is there, and returns what was there.
    pub fn put(&mut self, place: usize, slot: Option<Slot>) -> Option<Slot>
        requires { has_of self.old place ≡ true }
        ensures was { result ≡ lies_of self.old place }
        ensures slots { lies_of self.new ≡ put_at (lies_of self.old) place slot }
        ensures places { has_of self.new ≡ has_of self.old }
    {
        put_in(&mut self.blocks[place / PLACES], place % PLACES, slot)
    }

    /// Changes the page of the slot at a place by a link, as `Slots::link` does. Refused with `NoMemory` alone, and then unchanged.
    pub fn link(
        &mut self,
        alloc: Global,
        place: usize,
        pid: Pid,
        version: Version,
        next: Version,
        link: Link,
    ) -> Result<std::result::Result<Undo, Option<Version>>>
        ensures told { IfOk result (λ answer. answer ≡ link_answer pid version (lies_of self.old place)) }
        ensures ok { OnOk result (lies_of self.new ≡ put_at (lies_of self.old) place (slot_linked link version next (lies_of self.old place))) }
        ensures err { OnErr result (lies_of self.new ≡ lies_of self.old) }
        ensures places { has_of self.new ≡ has_of self.old }
        ensures cause { IfErr result (λ e. e ≡ NoMemory) }
    {
        if !self.has(place) {
            drop(link);
            return Ok(Err(None));
        }
        let block = &mut self.blocks[place / PLACES];
        match &mut block[place % PLACES] {
            Some(slot) => slot.link(alloc, pid, version, next, link),
            None => {
                drop(link);
                Ok(Err(None))
            }
        }
    }

    // Whether a place is there.
    #[inline(always)]
    fn has(&self, place: usize) -> bool
        ensures { result ≡ has_of self.now place }
    {
        match self.blocks.get(place / PLACES) {
            Some(block) => place % PLACES < block.len(),
            None => false,
        }
    }

    /// Changes the page of a slot in place by a link of which the node alone stays, if there is the slot, and gives it a version. Refused
    /// with `NoMemory` alone, and then unchanged.
    pub fn settle(
        &mut self,
        alloc: Global,
        place: usize,
        version: Version,
        link: &Link,
    ) -> Result<()>
        ensures ok { OnOk result (lies_of self.new ≡ put_at (lies_of self.old) place (slot_settled link.now version (lies_of self.old place))) }
        ensures err { OnErr result (lies_of self.new ≡ lies_of self.old) }
        ensures cause { IfErr result (λ e. e ≡ NoMemory) }
    {
        if !self.has(place) {
            return Ok(());
        }
        let block = &mut self.blocks[place / PLACES];
        settle_in(alloc, block, place % PLACES, version, link)
    }

    /// Sees to it that a place is there. Refused with `NoMemory` alone.
    pub fn make(&mut self, alloc: Global, place: usize) -> Result<()>
        ensures slots { lies_of self.new ≡ lies_of self.old }
        ensures places { (p : ℕ) → has_of self.old p ≡ true → has_of self.new p ≡ true }
        ensures room { OnOk result (has_of self.new place ≡ true) }
        ensures err { IfErr result (λ e. e ≡ NoMemory) }
    {
        let block = place / PLACES;
        lengthen(alloc, &mut self.blocks, block + 1)?;
        fill(&mut self.blocks[block])
    }

    /// Frees the block of a place if no slot is in it.
    pub fn let_go(&mut self, alloc: Global, place: usize)
        ensures { lies_of self.new ≡ lies_of self.old }
    {
        let block = place / PLACES;
        if block < self.blocks.len() && is_empty(self.blocks[block].as_slice()) {
            let old = std::mem::replace(&mut self.blocks[block], Vec::new(alloc));
            drop(old);
        }
    }
}
