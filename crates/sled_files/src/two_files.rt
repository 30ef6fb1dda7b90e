//! Two files of which one counts, and how what they stand for changes.
ghost use Rattle.std.specs.Prelude.{◌≡◌, ℕ, ◌+◌, ◌≤◌, ◌<◌, ◌^◌, List, length, true, false, [], ◌∷◌, ◌++◌, IfOk, IfErr, OnOk, Err};
ghost use Rattle.sled_disk.specs.Disk.{Only, LeavesOnly, HasCause, is_caused};
ghost use Rattle.sled_disk.specs.declared.disk.DiskError.TheVariants.{Failed};
ghost use Rattle.sled_bytes.specs.declared.change.Change.{Change};
ghost use Rattle.sled_files.specs.Change.{Durable, nothing_yet, changed_all, AreOfStore, AreAdded};
ghost use Rattle.sled_log.specs.Log.{IsLog};
ghost use Rattle.sled_log.specs.Append.{IsBlockFor, IsBeforeOrAfter};
ghost use Rattle.sled_files.specs.Standing.{StandsWith, IsBegun};
ghost use Rattle.sled_files.specs.Pending.{Spells};
ghost use Rattle.sled_files.specs.Files.{picked, KeepsTime, is_stop, GrowsTo};
ghost use Rattle.sled_files.specs.theory.Begun.{IsFirstBlock, IsEmptied};

use crate::begin::{begin_with, empty, first_block};
use sled_disk::{Disk, DiskError, Result, law_counts_now, law_only_now};
use sled_log::{append, block_of};
use std::alloc::Global;
use std::marker::Model;

// The length from which on no log grows.
const LONGEST: usize = 0x4000_0000_0000_0000;

// Hands the laws of both disks on.
fn laws_of<D: Disk>(first: &D, second: &D)
    ensures first { KeepsTime D.moment D.left_since D.may_leave first.now }
    ensures second { KeepsTime D.moment D.left_since D.may_leave second.now }
{
    law_counts_now(first);
    law_only_now(first);
    law_counts_now(second);
    law_only_now(second);
}

// Why the files stop, if a disk refused to change one. Of a disk without memory the file may be half changed, so it counts as failed.
fn stop_of(e: DiskError) -> DiskError
    ensures { (before now : ℕ) → is_caused before now e → is_stop before now result }
{
    match e {
        DiskError::NoMemory => DiskError::Failed,
        e => e,
    }
}

// Adds a block to the log of the file that counts.
fn append_to_one<D: Disk>(
    first: &mut D,
    second: &mut D,
    is_second: bool,
    gate: usize,
    block: &[u8],
) -> Result<()>
    requires place { gate < length (D.seen (picked is_second first.old second.old)) }
    requires small { gate < 2 ^ 62 }
    requires on_disk { Only (D.seen (picked is_second first.old second.old)) (D.may_leave (picked is_second first.old second.old)) }
    ensures other { picked is_second second.new first.new ≡ picked is_second second.old first.old }
    ensures durable { OnOk result (Only (D.seen (picked is_second first.new second.new)) (D.may_leave (picked is_second first.new second.new))) }
    ensures grown { OnOk result (GrowsTo (gate + length block.now) (D.seen (picked is_second first.old second.old)) (D.seen (picked is_second first.new second.new))) }
    ensures next { OnOk result ((b : IsBlockFor (D.seen (picked is_second first.old second.old)) gate block.now) → IsLog b.digest (D.seen (picked is_second first.new second.new)) (b.payloads ++ b.payload ∷ []) (gate + length block.now)) }
    ensures any_moment { (b : IsBlockFor (D.seen (picked is_second first.old second.old)) gate block.now) → LeavesOnly D.moment D.left_since (picked is_second first.old second.old) (picked is_second first.new second.new) (IsBeforeOrAfter b) }
    ensures cause { HasCause (D.faults first.old + D.faults second.old) (D.faults first.new + D.faults second.new) result }
{
    if is_second {
        append(second, gate, block)
    } else {
        append(first, gate, block)
    }
}

// Empties the other file.
fn empty_other<D: Disk>(first: &mut D, second: &mut D, is_second: bool) -> Result<()>
    requires on_disk { Only (D.seen (picked is_second second.old first.old)) (D.may_leave (picked is_second second.old first.old)) }
    ensures one { picked is_second first.new second.new ≡ picked is_second first.old second.old }
    ensures short { OnOk result (length (D.seen (picked is_second second.new first.new)) ≤ 1) }
    ensures durable { OnOk result (Only (D.seen (picked is_second second.new first.new)) (D.may_leave (picked is_second second.new first.new))) }
    ensures any_moment { LeavesOnly D.moment D.left_since (picked is_second second.old first.old) (picked is_second second.new first.new) (IsEmptied (D.seen (picked is_second second.old first.old))) }
    ensures cause { HasCause (D.faults first.old + D.faults second.old) (D.faults first.new + D.faults second.new) result }
{
    if is_second {
        empty(first)
    } else {
        empty(second)
    }
}

// Adds a block to the log of the file that counts, and empties the other one.
fn append_alone<D: Disk>(
    first: &mut D,
    second: &mut D,
    is_second: bool,
    gate: usize,
    block: &[u8],
) -> Result<()>
    requires place { gate < length (D.seen (picked is_second first.old second.old)) }
    requires small { gate < 2 ^ 62 }
    requires on_disk { Only (D.seen (picked is_second first.old second.old)) (D.may_leave (picked is_second first.old second.old)) }
    requires other_on_disk { Only (D.seen (picked is_second second.old first.old)) (D.may_leave (picked is_second second.old first.old)) }
    ensures short { OnOk result (length (D.seen (picked is_second second.new first.new)) ≤ 1) }
    ensures other_durable { OnOk result (Only (D.seen (picked is_second second.new first.new)) (D.may_leave (picked is_second second.new first.new))) }
    ensures other_any_moment { LeavesOnly D.moment D.left_since (picked is_second second.old first.old) (picked is_second second.new first.new) (IsEmptied (D.seen (picked is_second second.old first.old))) }
    ensures durable { OnOk result (Only (D.seen (picked is_second first.new second.new)) (D.may_leave (picked is_second first.new second.new))) }
    ensures grown { OnOk result (GrowsTo (gate + length block.now) (D.seen (picked is_second first.old second.old)) (D.seen (picked is_second first.new second.new))) }
    ensures next { OnOk result ((b : IsBlockFor (D.seen (picked is_second first.old second.old)) gate block.now) → IsLog b.digest (D.seen (picked is_second first.new second.new)) (b.payloads ++ b.payload ∷ []) (gate + length block.now)) }
    ensures any_moment { (b : IsBlockFor (D.seen (picked is_second first.old second.old)) gate block.now) → LeavesOnly D.moment D.left_since (picked is_second first.old second.old) (picked is_second first.new second.new) (IsBeforeOrAfter b) }
    ensures cause { HasCause (D.faults first.old + D.faults second.old) (D.faults first.new + D.faults second.new) result }
{
    laws_of(first, second);
    append_to_one(first, second, is_second, gate, block)?;
    empty_other(first, second, is_second)
}

// Begins the other file anew.
fn begin_other<D: Disk>(first: &mut D, second: &mut D, is_second: bool, block: &[u8]) -> Result<()>
    requires on_disk { Only (D.seen (picked is_second second.old first.old)) (D.may_leave (picked is_second second.old first.old)) }
    ensures one { picked is_second first.new second.new ≡ picked is_second first.old second.old }
    ensures stands { OnOk result ((payload : List ℕ) (generation : ℕ) (changes : List Change) → IsFirstBlock block.now payload generation changes → StandsWith (D.seen (picked is_second second.new first.new)) (length block.now) (length payload) generation (changed_all changes nothing_yet)) }
    ensures grown { OnOk result (GrowsTo (length block.now) (D.seen (picked is_second second.old first.old)) (D.seen (picked is_second second.new first.new))) }
    ensures durable { OnOk result (Only (D.seen (picked is_second second.new first.new)) (D.may_leave (picked is_second second.new first.new))) }
    ensures any_moment { (payload : List ℕ) (generation : ℕ) (changes : List Change) → IsFirstBlock block.now payload generation changes → LeavesOnly D.moment D.left_since (picked is_second second.old first.old) (picked is_second second.new first.new) (IsBegun (D.seen (picked is_second second.old first.old)) generation (changed_all changes nothing_yet)) }
    ensures cause { HasCause (D.faults (picked is_second second.old first.old)) (D.faults (picked is_second second.new first.new)) result }
{
    if is_second {
        begin_with(first, block)
    } else {
        begin_with(second, block)
    }
}

/// Two files of which one counts. It stands for the changes that were added to it, the other one for nothing or for what the store was
/// earlier. Once a disk refused a call, nothing is known of its file but what a crash may leave, so all calls are refused from then on.
#[derive(Drop)]
pub struct TwoFiles<D: Disk> {
    alloc: Global,
    first: D,
    second: D,
    is_second: bool,
    gate: usize,
    snapshot: usize,
    generation: u64,
    failed: bool,
}

impl<D: Disk> Model for TwoFiles<D> {
    ghost use Rattle.sled_files.specs.Files.{Files, IsKept};

    ghost Value = { Files D };

    ghost view = { λ f. record { first = f.first; second = f.second; is_second = f.is_second; gate = f.gate; snapshot = f.snapshot; generation = f.generation; failed = f.failed } };

    ghost invariant = { λ f. IsKept D.seen D.may_leave (record { first = f.first; second = f.second; is_second = f.is_second; gate = f.gate; snapshot = f.snapshot; generation = f.generation; failed = f.failed }) };
}

impl<D: Disk> TwoFiles<D> {
    ghost use Rattle.sled_files.specs.Files.{Files, IsReady, LeavesPairs, AreForEither, IsRefused, faults_in, one_of, other_of};

    /// Two files as they were opened: the one that counts, the place of the closed gate of its log, how long the snapshot is that it begins
    /// with, and its generation.
    ///
    /// ```
    /// let mut first = MemoryDisk::new(alloc, Vec::new(alloc))?;
    /// let second = MemoryDisk::new(alloc, Vec::new(alloc))?;
    /// let gate = begin_file(alloc, &mut first, 1, &[])?;
    /// let files = TwoFiles::new(alloc, first, second, false, gate, 0, 1);
    /// ```
    pub fn new(
        alloc: Global,
        first: D,
        second: D,
        is_second: bool,
        gate: usize,
        snapshot: usize,
        generation: u64,
    ) -> TwoFiles<D>
        requires first_only { Only (D.seen first) (D.may_leave first) }
        requires second_only { Only (D.seen second) (D.may_leave second) }
        requires place { gate < length (D.seen (picked is_second first second)) }
        ensures { result ≡ record { first = first; second = second; is_second = is_second; gate = gate; snapshot = snapshot; generation = generation; failed = false } }
    {
        TwoFiles {
            alloc,
            first,
            second,
            is_second,
            gate,
            snapshot,
            generation,
            failed: false,
        }
    }

    /// Whether a disk refused a call, so that all calls are refused from then on.
    ///
    /// ```
    /// let is_over = files.failed();
    /// ```
    pub fn failed(&self) -> bool
        ensures { result ≡ self.now.failed }
    {
        self.failed
    }

    /// Does nothing. It hands the laws of both disks on.
    ///
    /// ```
    /// files.law_time(); // From here on a proof knows what a crash since this moment may leave of each file: what one may leave now.
    /// ```
    pub fn law_time(&self)
        ensures first { KeepsTime D.moment D.left_since D.may_leave self.now.first }
        ensures second { KeepsTime D.moment D.left_since D.may_leave self.now.second }
    {
        laws_of(&self.first, &self.second);
    }

    /// The generation of the file that counts.
    ///
    /// ```
    /// let generation = files.generation(); // 1 of a new store, and one more each time that a file is begun anew.
    /// ```
    pub fn generation(&self) -> u64
        ensures { result ≡ self.now.generation }
    {
        self.generation
    }

    /// The two disks, the first and the second, as they are. Nothing is written.
    ///
    /// ```
    /// let (first, second) = files.into_disks();
    /// ```
    pub fn into_disks(self) -> (D, D)
        ensures { result ≡ (self.first, self.second) }
    {
        let TwoFiles {
            alloc: _,
            first,
            second,
            is_second: _,
            gate: _,
            snapshot: _,
            generation: _,
            failed: _,
        } = self;
        (first, second)
    }

    /// The two disks, the first and the second, to be looked at.
    ///
    /// ```
    /// let (first, _) = files.disks();
    /// let left = first.crash(&mut choices)?; // Where they are in memory: what a crash would leave now.
    /// ```
    pub fn disks(&self) -> (&D, &D)
        ensures first { result.0.now ≡ self.now.first }
        ensures second { result.1.now ≡ self.now.second }
    {
        (&self.first, &self.second)
    }

    /// How long the log is that counts, in bytes.
    ///
    /// ```
    /// let is_long = files.len() > 4_000_000;
    /// ```
    pub fn len(&self) -> usize
        ensures { result ≡ self.now.gate }
    {
        self.gate
    }

    /// How long the snapshot is that the log begins with, in bytes.
    ///
    /// ```
    /// let is_twice = files.snapshot() < files.len() / 2;
    /// ```
    pub fn snapshot(&self) -> usize
        ensures { result ≡ self.now.snapshot }
    {
        self.snapshot
    }

    /// Adds changes to those for which the files stand, as one block of the log that counts, and brings them to the disk. Then it empties
    /// the other file, if that was not done before. At any moment a crash leaves files that stand for what they stood for, or for that with
    /// all of the changes. Refused with `NoMemory` or, if the log would be too long, `Full`, and then nothing changed; by the disk, with
    /// `Full` or `Failed`, and then all calls are refused from then on, with `Failed`. A disk that has no memory counts as failed.
    ///
    /// ```
    /// files.append(&[5, 6])?; // A group begins, and ends. No crash takes it back.
    /// ```
    pub fn append(&mut self, payload: &[u8]) -> Result<()>
        ensures ready { OnOk result ((d : Durable) (changes : List Change) → IsReady D.seen D.may_leave self.old d → Spells payload.now changes → AreAdded changes d → IsReady D.seen D.may_leave self.new (changed_all changes d)) }
        ensures any_moment { (d : Durable) (changes : List Change) → IsReady D.seen D.may_leave self.old d → Spells payload.now changes → AreAdded changes d → LeavesPairs D.moment D.left_since D.may_leave self.old self.new (AreForEither d (changed_all changes d)) }
        ensures emptied { OnOk result (length (D.seen (other_of self.new)) ≤ 1) }
        // The log is longer by the block: a gate, two numbers of 8 bytes, and the changes. It is in the same file, and has the same snapshot and
        // generation.
        ensures bytes { OnOk result (self.new.gate ≡ self.old.gate + 17 + length payload.now) }
        // Its file has no byte more behind that.
        ensures grown { OnOk result (GrowsTo self.new.gate (D.seen (one_of self.old)) (D.seen (one_of self.new))) }
        ensures same { self.new.is_second ≡ self.old.is_second }
        ensures snapshot { self.new.snapshot ≡ self.old.snapshot }
        ensures generation { self.new.generation ≡ self.old.generation }
        ensures up { OnOk result ((self.old.failed ≡ false) × (self.new.failed ≡ false)) }
        ensures calm { OnOk result (faults_in D.faults self.new ≡ faults_in D.faults self.old) }
        ensures over { self.old.failed ≡ true → (result ≡ Err Failed) × (self.new ≡ self.old) }
        ensures err { IfErr result (IsRefused D.faults (2 ^ 62 < self.old.gate + 17 + length payload.now) self.old self.new) }
    {
        if self.failed {
            return Err(DiskError::Failed);
        }
        laws_of(&self.first, &self.second);
        let block = block_of(self.alloc, payload)?;
        if LONGEST.saturating_sub(self.gate) < block.len() {
            return Err(DiskError::Full);
        }
        self.failed = true;
        let added = append_alone(
            &mut self.first,
            &mut self.second,
            self.is_second,
            self.gate,
            &block,
        );
        laws_of(&self.first, &self.second);
        if let Err(e) = added {
            return Err(stop_of(e));
        }
        self.gate += block.len();
        self.failed = false;
        Ok(())
    }

    /// Makes the files stand for these changes alone: begins the other file anew, of the next generation, and from then on that one counts.
    /// At any moment a crash leaves files that stand for what they stood for, or for the changes. Refused as `append` is, with `Full` if
    /// there is no greater generation.
    ///
    /// ```
    /// files.rewrite(&[])?; // All that the store is, in one block: nothing.
    /// ```
    pub fn rewrite(&mut self, payload: &[u8]) -> Result<()>
        ensures ready { OnOk result ((d : Durable) (changes : List Change) → IsReady D.seen D.may_leave self.old d → Spells payload.now changes → AreOfStore changes (changed_all changes nothing_yet) → IsReady D.seen D.may_leave self.new (changed_all changes nothing_yet)) }
        ensures any_moment { (d : Durable) (changes : List Change) → IsReady D.seen D.may_leave self.old d → Spells payload.now changes → AreOfStore changes (changed_all changes nothing_yet) → LeavesPairs D.moment D.left_since D.may_leave self.old self.new (AreForEither d (changed_all changes nothing_yet)) }
        ensures one { OnOk result (other_of self.new ≡ one_of self.old) }
        ensures snapshot { OnOk result (self.new.snapshot ≡ length payload.now) }
        // Before the changes are a gate, two numbers of 8 bytes, and the header.
        ensures bytes { OnOk result (self.new.gate ≡ length payload.now + 37) }
        ensures grown { OnOk result (GrowsTo self.new.gate (D.seen (other_of self.old)) (D.seen (one_of self.new))) }
        ensures generation { OnOk result (self.new.generation ≡ self.old.generation + 1) }
        ensures up { OnOk result ((self.old.failed ≡ false) × (self.new.failed ≡ false)) }
        ensures calm { OnOk result (faults_in D.faults self.new ≡ faults_in D.faults self.old) }
        ensures over { self.old.failed ≡ true → (result ≡ Err Failed) × (self.new ≡ self.old) }
        ensures err { IfErr result (IsRefused D.faults (self.old.generation + 1 ≡ 2 ^ 64) self.old self.new) }
    {
        if self.failed {
            return Err(DiskError::Failed);
        }
        laws_of(&self.first, &self.second);
        let Some(generation) = self.generation.checked_add(1) else {
            return Err(DiskError::Full);
        };
        let block = first_block(self.alloc, generation, payload)?;
        self.failed = true;
        let begun = begin_other(&mut self.first, &mut self.second, self.is_second, &block);
        laws_of(&self.first, &self.second);
        if let Err(e) = begun {
            return Err(stop_of(e));
        }
        self.is_second = !self.is_second;
        self.gate = block.len();
        self.snapshot = payload.len();
        self.generation = generation;
        self.failed = false;
        Ok(())
    }
}
