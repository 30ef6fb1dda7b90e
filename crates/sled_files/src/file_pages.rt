//! A store of pages in two files.
ghost use Rattle.std.specs.Prelude.{◌/◌, ◌+◌, ◌-◌, ◌^◌, ◌⊎◌, ◌++◌, min, nat_lt, nat_le, ℕ, OnErr, IfSome, ◌≡◌, ◌≤◌, ◌<◌, ◌∷◌, [], None, Some, IfOk, IfErr, OnOk, length, true, false, ◌&&◌, not, if◌then◌else◌};
ghost use Rattle.sled_nodes.specs.declared.error.Error.TheVariants.{NoMemory};
ghost use Rattle.sled_nodes.specs.Node.{after_link};
ghost use Rattle.sled_store.specs.State.{GroupBegins, GroupEnds};
ghost use Rattle.sled_store.specs.Store.{now, after_action, after_flush, Allocates, IsRefused, Changes, Frees, SwapsRoot};
ghost use Rattle.sled_pages.specs.Memory.{store_of};
ghost use Rattle.sled_files.specs.Lasting.{EachPair, IsLasting, AreRaised};
ghost use Rattle.sled_files.specs.Raised.{ComeNext, RaisesNear, raised_to, are_far};
ghost use Rattle.sled_files.specs.Stored.{asked_of, stored_as, is_due, missed_after, AreWithin, Stands};

use crate::snapshot::snapshot;
use crate::spelled::{
    allocate, begin_group, cas_root, free, link, next_of, replace, seal_group, spell_limits,
    spelled,
};
use crate::storing::{DISK_FAILED, USED_UP, add, begin_anew, fault};
use crate::two_files::TwoFiles;
use sled_bytes::Change;
use sled_disk::Disk;
use sled_nodes::{Error, IVec, Link, Node, Pid, Result, Version};
use sled_pages::MemPages;
use sled_store::{Pages, View};
use std::alloc::Global;
use std::marker::Model;

/// Figures of a store in two files.
///
/// ```
/// let is_long = store.stats().bytes > 1_000_000;
/// ```
#[derive(Clone, Copy)]
pub struct FileStats {
    /// How many page numbers were given, those of pages that are gone included. Of a store that was opened again all count that were set
    /// aside in its files: for each opening after which something was changed up to 1,000,000 more than were used.
    pub pages: u64,
    /// How long the log is that counts.
    pub bytes: usize,
    /// How long the snapshot is that it begins with.
    pub snapshot: usize,
    /// The generation of its file: one more each time that a file is begun anew.
    pub generation: u64,
    /// How many flushes since the opening should have begun a file anew, and found no memory for the snapshot.
    pub missed: u64,
}

/// A store of pages in two files, which have to fit in memory: all pages are there too, and are read there. The changing calls change them
/// there, and note what a flush adds to the files; a mark is added to the files at once. A crash leaves in the files what `Pages` allows,
/// so the store is there again when they are opened.
///
/// Page numbers and versions are given below limits that are in the files before: of a store that is opened again all below them count
/// as given. A call that reaches a limit raises it first. Once a disk refused a call, each flush, each mark and each raise is refused.
pub struct FilePages<D: Disk> {
    alloc: Global,
    pages: MemPages,
    files: TwoFiles<D>,
    // the changes since the last flush, spelled
    pending: Vec<u8>,
    mark: u64,
    limit_pids: u64,
    limit_versions: u64,
    // a mark that was refused by a disk, which may have it all the same
    asked: Option<u64>,
    faults: u64,
    // the length of the log above which it is begun anew
    longest: usize,
    // how many flushes found no memory for that
    missed: u64,
}

impl<D: Disk> Model for FilePages<D> {
    ghost use Rattle.sled_files.specs.Stored.{Stored, IsSound};
    ghost use Rattle.sled_pages.specs.contracts.memory.MemPages as m;
    ghost use Rattle.std.specs.Coded.{codes};

    ghost Value = { Stored D };

    ghost coded = { Prim.hlevel (codes, m.the_row.coded) };

    ghost view = { λ f. record { pages = f.pages; files = f.files; pending = f.pending.items; mark = f.mark; limits = record { pids = f.limit_pids; versions = f.limit_versions }; asked = f.asked; faults = f.faults; longest = f.longest; missed = f.missed } };

    ghost invariant = { λ f. IsSound D.seen D.may_leave (record { pages = f.pages; files = f.files; pending = f.pending.items; mark = f.mark; limits = record { pids = f.limit_pids; versions = f.limit_versions }; asked = f.asked; faults = f.faults; longest = f.longest; missed = f.missed }) };
}

// By hand, so that code that drops a store cites this, and need not prove again how each of its parts is dropped.
impl<D: Disk> Drop for FilePages<D> {
    fn drop(self) {
        let files = self.into_files();
        drop(files);
    }
}

impl<D: Disk> FilePages<D> {
    ghost use Rattle.sled_files.specs.Stored.{Stored, stored_as, Stands, AreWithin};

    /// A store of these pages, of which nothing is recent, and of the files that stand for them, with the mark and the limits that the
    /// files have.
    ///
    /// ```
    /// let store = FilePages::new(alloc, pages, files, pids, versions);
    /// ```
    pub fn new(
        alloc: Global,
        pages: MemPages,
        files: TwoFiles<D>,
        pids: u64,
        versions: u64,
    ) -> FilePages<D>
        requires stands { Stands D.seen D.may_leave (record { pids = pids; versions = versions }) (store_of pages) files [] }
        requires within { AreWithin (record { pids = pids; versions = versions }) (store_of pages) }
        ensures { result ≡ record { pages = pages; files = files; pending = []; mark = (store_of pages).mark; limits = record { pids = pids; versions = versions }; asked = None; faults = 0; longest = 4000000; missed = 0 } }
    {
        FilePages {
            alloc,
            mark: pages.mark(),
            pages,
            files,
            pending: Vec::new(alloc),
            limit_pids: pids,
            limit_versions: versions,
            asked: None,
            faults: 0,
            longest: LONGEST,
            missed: 0,
        }
    }
}

impl<D: Disk> FilePages<D> {
    // The files alone.
    fn into_files(self) -> TwoFiles<D>
        ensures { result ≡ self.files }
    {
        let FilePages {
            alloc: _,
            pages,
            files,
            pending,
            mark: _,
            limit_pids: _,
            limit_versions: _,
            asked: _,
            faults: _,
            longest: _,
            missed: _,
        } = self;
        drop(pages);
        drop(pending);
        files
    }

    /// The two disks, the first and the second, as they are. Nothing is written: what was not flushed is not in the files.
    ///
    /// ```
    /// let (first, second) = store.into_disks();
    /// ```
    pub fn into_disks(self) -> (D, D)
        ensures { result ≡ (self.files.first, self.files.second) }
    {
        self.into_files().into_disks()
    }
}

impl<D: Disk> FilePages<D> {
    /// The two disks, the first and the second, to be looked at.
    ///
    /// ```
    /// let (first, _) = store.disks();
    /// let bytes = first.bytes(); // Where they are in memory: what is in the first file now.
    /// ```
    pub fn disks(&self) -> (&D, &D)
        ensures first { result.0.now ≡ self.now.files.first }
        ensures second { result.1.now ≡ self.now.files.second }
    {
        self.files.disks()
    }
}

// The length of the log from which on a flush begins it anew, if none is set.
const LONGEST: usize = 4_000_000;

// Whether a log is to be begun anew: it is longer than this, and longer than twice its snapshot.
fn is_long(len: usize, longest: usize, snapshot: usize) -> bool
    ensures { result ≡ (nat_lt longest len && nat_lt snapshot (len / 2)) }
{
    longest < len && snapshot < len / 2
}

/// How many page numbers and versions above the next one a limit sets aside when it is raised.
pub const SET_ASIDE: u64 = 1_000_000;

/// How near the next page number or version may come to its limit before a flush raises it.
pub const NEAR_LIMIT: u64 = 200_000;

// The next limit: some way above what comes next, and no lower than this one.
fn raised(limit: u64, next: u64) -> u64
    ensures is { result ≡ raised_to limit next }
    ensures no_lower { limit ≤ result }
{
    limit.max(next.saturating_add(SET_ASIDE))
}

// Whether what comes next is far below both limits.
fn are_far(pid: u64, version: u64, pids: u64, versions: u64) -> bool
    ensures { result ≡ are_far pid version (record { pids = pids; versions = versions }) }
{
    pid < pids.saturating_sub(NEAR_LIMIT) && version < versions.saturating_sub(NEAR_LIMIT)
}

// The limits that a flush sets: those that there are, or, if what comes next is near and there is a block to be added, higher ones.
fn ahead(pages: &MemPages, is_idle: bool, pids: u64, versions: u64) -> (u64, u64)
    ensures pids { pids ≤ result.0 }
    ensures versions { versions ≤ result.1 }
    ensures idle { is_idle ≡ true → (result.0 ≡ pids) × (result.1 ≡ versions) }
    ensures near { is_idle ≡ false → RaisesNear (store_of pages.now) (record { pids = pids; versions = versions }) (record { pids = result.0; versions = result.1 }) }
{
    if is_idle {
        return (pids, versions);
    }
    let (greatest, version) = pages.numbers_given();
    let pid = greatest.0.saturating_add(1);
    if are_far(pid, version, pids, versions) {
        return (pids, versions);
    }
    (raised(pids, pid), raised(versions, version))
}

// Whether both numbers are below their limits.
fn are_below(pid: Pid, version: Version, pids: u64, versions: u64) -> bool
    ensures { result ≡ (nat_lt pid pids && nat_lt version versions) }
{
    pid.0 < pids && version.0 < versions
}

// The mark that may be in the files after one was refused: this one, if a disk refused it.
fn asked_then(asked: Option<u64>, upto: u64, is_over: bool) -> Option<u64>
    ensures { result ≡ (if is_over then Some upto else asked) }
{
    if is_over { Some(upto) } else { asked }
}

impl<D: Disk> FilePages<D> {
    ghost use Rattle.sled_files.specs.Stored.{stored_as, asked_of};
    ghost use Rattle.sled_files.specs.theory.Kept.{KeepsPages};
    ghost use Rattle.sled_files.specs.Files.{LeavesPairs, IsGrown};
    ghost use Rattle.sled_files.specs.Lasting.{IsLasting};
    ghost use Rattle.sled_files.specs.Raised.{raised_above, HasReached, Reaches};
    ghost use Rattle.sled_files.specs.Codes.{FailsToReach};

    // Raises the limits above these numbers, in the files first.
    fn raise(&mut self, pid: Pid, version: Version) -> Result<()>
        requires { ComeNext (store_of self.old.pages) pid version }
        ensures pid { OnOk result (pid < self.new.limits.pids) }
        ensures version { OnOk result (version < self.new.limits.versions) }
        ensures limits { OnOk result (self.new.limits ≡ raised_above pid version self.old.limits) }
        ensures grown { OnOk result (IsGrown D.seen 17 self.old.files self.new.files) }
        ensures kept { OnErr result (self.new.limits ≡ self.old.limits) }
        ensures fails { OnErr result ((self.new.files ≡ self.old.files) ⊎ (self.new.files.failed ≡ true)) }
        ensures same { OnOk result (stored_as self.new ≡ stored_as self.old) }
        ensures err { IfErr result (λ e. IsRefused e (stored_as self.old) (stored_as self.new)) }
        ensures cause { IfErr result (FailsToReach D.faults self.old self.new) }
        ensures over { self.old.files.failed ≡ true → self.new.files ≡ self.old.files }
        ensures pages { KeepsPages self.old self.new }
        ensures any_moment { LeavesPairs D.moment D.left_since D.may_leave self.old.files self.new.files (IsLasting (asked_of self.old.asked) self.old.limits (stored_as self.old)) }
    {
        self.files.law_time();
        let pids = raised(self.limit_pids, pid.0);
        let versions = raised(self.limit_versions, version.0);
        if pids <= pid.0 || versions <= version.0 {
            return Err(fault(&mut self.faults, USED_UP));
        }
        let block = match spelled(self.alloc, Change::Limited(pids, versions)) {
            Ok(block) => block,
            Err(e) => return Err(e),
        };
        if let Err(e) = add(&mut self.files, &mut self.faults, &block) {
            return Err(e);
        }
        self.limit_pids = pids;
        self.limit_versions = versions;
        Ok(())
    }

    // These numbers, which come next, below limits that are in the files.
    fn reach_next(&mut self, pid: Pid, version: Version) -> Result<(Pid, Version)>
        requires { ComeNext (store_of self.old.pages) pid version }
        ensures next { IfOk result (λ next. ComeNext (store_of self.new.pages) next.0 next.1) }
        ensures pid { IfOk result (λ next. next.0 < self.new.limits.pids) }
        ensures version { IfOk result (λ next. next.1 < self.new.limits.versions) }
        ensures limits { OnOk result (Reaches D.seen self.old self.new) }
        ensures kept { OnErr result (self.new.limits ≡ self.old.limits) }
        ensures fails { OnErr result ((self.new.files ≡ self.old.files) ⊎ (HasReached (stored_as self.old) self.old.limits × (self.new.files.failed ≡ true))) }
        ensures same { OnOk result (stored_as self.new ≡ stored_as self.old) }
        ensures err { IfErr result (λ e. IsRefused e (stored_as self.old) (stored_as self.new)) }
        ensures cause { IfErr result (FailsToReach D.faults self.old self.new) }
        ensures over { self.old.files.failed ≡ true → self.new.files ≡ self.old.files }
        ensures pages { KeepsPages self.old self.new }
        ensures any_moment { LeavesPairs D.moment D.left_since D.may_leave self.old.files self.new.files (IsLasting (asked_of self.old.asked) self.old.limits (stored_as self.old)) }
    {
        self.files.law_time();
        if are_below(pid, version, self.limit_pids, self.limit_versions) {
            return Ok((pid, version));
        }
        match self.raise(pid, version) {
            Ok(()) => Ok((pid, version)),
            Err(e) => Err(e),
        }
    }

    // The page number and the version that come next, below limits that are in the files.
    fn reach(&mut self) -> Result<(Pid, Version)>
        ensures next { IfOk result (λ next. ComeNext (store_of self.new.pages) next.0 next.1) }
        ensures pid { IfOk result (λ next. next.0 < self.new.limits.pids) }
        ensures version { IfOk result (λ next. next.1 < self.new.limits.versions) }
        ensures limits { OnOk result (Reaches D.seen self.old self.new) }
        ensures kept { OnErr result (self.new.limits ≡ self.old.limits) }
        ensures fails { OnErr result ((self.new.files ≡ self.old.files) ⊎ (HasReached (stored_as self.old) self.old.limits × (self.new.files.failed ≡ true))) }
        ensures same { OnOk result (stored_as self.new ≡ stored_as self.old) }
        ensures err { IfErr result (λ e. IsRefused e (stored_as self.old) (stored_as self.new)) }
        ensures cause { IfErr result (FailsToReach D.faults self.old self.new) }
        ensures over { self.old.files.failed ≡ true → self.new.files ≡ self.old.files }
        ensures pages { KeepsPages self.old self.new }
        ensures any_moment { LeavesPairs D.moment D.left_since D.may_leave self.old.files self.new.files (IsLasting (asked_of self.old.asked) self.old.limits (stored_as self.old)) }
    {
        self.files.law_time();
        let Some((pid, version)) = next_of(&self.pages) else {
            return Err(fault(&mut self.faults, USED_UP));
        };
        self.reach_next(pid, version)
    }
}

impl<D: Disk> FilePages<D> {
    ghost use Rattle.sled_files.specs.Stored.{stored_as, asked_of, KeepsRule};
    ghost use Rattle.sled_files.specs.Codes.{IsUnstored, LacksRoom, IsLast, StopsOnlyAsFailed, SaysThatItFailed};
    ghost use Rattle.sled_files.specs.Raised.{FlushesOn, FlushesAnew};
    ghost use Rattle.sled_files.specs.Snapshot.{IsSnapshot};
    ghost use Rattle.sled_files.specs.theory.Snapshot.{Makes, durable_now};
    ghost use Rattle.sled_files.specs.Files.{LeavesPairs};
    ghost use Rattle.sled_files.specs.Lasting.{IsLasting};

    /// Flushes, and begins the other file anew with a snapshot of all that the store is, which counts from then on. At any moment a crash
    /// leaves files that are right for the store before. Nothing is done if a group is open. Refused for want of memory, or as there is no
    /// greater generation, and then the files are as they were; or by a disk, and then the store is stopped, as `failed` says.
    ///
    /// ```
    /// store.compact()?; // The log has one block.
    /// ```
    pub fn compact(&mut self) -> Result<()>
        ensures open { (now (stored_as self.old)).in_group ≡ true → (self.new ≡ self.old) × OnErr result ⊥ }
        ensures ok { (now (stored_as self.old)).in_group ≡ false → OnOk result (stored_as self.new ≡ after_flush (stored_as self.old)) }
        // The file that counted is the other one now. The one that counts has each page and each root once, and no byte behind its gate was
        // added. The limits are far.
        ensures renewed { (now (stored_as self.old)).in_group ≡ false → OnOk result (FlushesAnew D.seen self.old self.new) }
        ensures kept { OnErr result (self.new.limits ≡ self.old.limits) }
        // What was to be flushed stays.
        ensures pending { OnErr result (self.new.pending ≡ self.old.pending) }
        ensures up { (now (stored_as self.old)).in_group ≡ false → OnOk result ((self.old.files.failed ≡ false) × (self.new.files.failed ≡ false)) }
        ensures err { IfErr result (λ e. IsRefused e (stored_as self.old) (stored_as self.new)) }
        ensures cause { IfErr result (λ e. IsUnstored D.faults (IsLast self.old) self.old.files self.new.files self.old.faults e) }
        // Once a disk refused a call, it is refused, and says that.
        ensures stops { IfErr result (StopsOnlyAsFailed D.faults self.old self.new) }
        ensures says { IfErr result (SaysThatItFailed self.old) }
        ensures over { self.old.files.failed ≡ true → self.new.files ≡ self.old.files }
        ensures asked { self.new.asked ≡ self.old.asked }
        ensures stays { IfErr result (λ e. e ≡ NoMemory → self.new.files.failed ≡ false → self.new ≡ self.old) }
        ensures rule { KeepsRule self.old self.new }
        ensures limits { AreRaised self.old.limits self.new.limits }
        ensures any_moment { LeavesPairs D.moment D.left_since D.may_leave self.old.files self.new.files (IsLasting (asked_of self.old.asked) self.old.limits (stored_as self.old)) }
    {
        self.files.law_time();
        if self.pages.in_group() {
            return Ok(());
        }
        match self.flush_whole() {
            Ok(_) => Ok(()),
            Err(e) => Err(e),
        }
    }

    /// Sets the length of the log, in bytes, above which a flush begins it anew once it is twice as long as the last snapshot. It is
    /// 4,000,000 if none was set. What the store means stays the same.
    ///
    /// ```
    /// store.compact_from(1000);
    /// ```
    pub fn compact_from(&mut self, len: usize)
        ensures { self.new ≡ record self.old { longest = len } }
    {
        self.longest = len;
    }

    /// Whether a disk refused a call that adds to the files. From then on each flush and mark is refused with the fault `DISK_FAILED`, or
    /// with `NoMemory` once no more faults can be counted. So is `compact`, but while a group is open it does nothing. A raise is refused
    /// too, with that or for want of memory or of a number. Drop the store then, and open its folder again. The disks of `into_disks` can be
    /// opened again only if they can still be read: a file of the operating system cannot, once it was changed.
    ///
    /// ```
    /// let is_over = store.failed(); // Drop it, and open the folder again.
    /// ```
    pub fn failed(&self) -> bool
        ensures { result ≡ self.now.files.failed }
    {
        self.files.failed()
    }

    /// How many page numbers were given (after an opening, all that were set aside before), how long the log is and its snapshot, of which
    /// generation it is, and how many snapshots were missed.
    ///
    /// ```
    /// let generation = store.stats().generation;
    /// ```
    pub fn stats(&self) -> FileStats
        ensures pages { (p : ℕ) → 0 < p → (stored_as self.now).pids p ≡ nat_le p result.pages }
        ensures bytes { result.bytes ≡ self.now.files.gate }
        ensures snapshot { result.snapshot ≡ self.now.files.snapshot }
        ensures generation { result.generation ≡ self.now.files.generation }
        ensures missed { result.missed ≡ self.now.missed }
    {
        let (greatest, _) = self.pages.numbers_given();
        FileStats {
            pages: greatest.0,
            bytes: self.files.len(),
            snapshot: self.files.snapshot(),
            generation: self.files.generation(),
            missed: self.missed,
        }
    }

    // The limits that a flush sets.
    fn ahead(&self, is_idle: bool) -> (u64, u64)
        ensures raised { AreRaised self.now.limits (record { pids = result.0; versions = result.1 }) }
        ensures idle { is_idle ≡ true → (result.0 ≡ self.now.limits.pids) × (result.1 ≡ self.now.limits.versions) }
        ensures near { is_idle ≡ false → RaisesNear (stored_as self.now) self.now.limits (record { pids = result.0; versions = result.1 }) }
    {
        ahead(&self.pages, is_idle, self.limit_pids, self.limit_versions)
    }

    // What the store is now, with these limits.
    fn whole_with(&self, pids: u64, versions: u64) -> Result<Vec<u8>>
        ensures ok { IfOk result (λ bytes. Makes (store_of self.now.pages) bytes.items (durable_now (stored_as self.now) self.now.mark pids versions)) }
        ensures long { IfOk result (λ bytes. IsSnapshot (now (stored_as self.now)) self.now.mark (record { pids = pids; versions = versions }) (length bytes.items)) }
        ensures err { IfErr result (λ e. e ≡ NoMemory) }
    {
        match snapshot(self.alloc, &self.pages, self.mark, pids, versions) {
            Ok(bytes) => Ok(bytes),
            Err(e) => Err(e),
        }
    }

    // Whether a flush is to begin the log anew.
    fn is_due(&self) -> bool
        ensures { result ≡ is_due self.now }
    {
        !self.files.failed() && is_long(self.files.len(), self.longest, self.files.snapshot())
    }

    // Counts a snapshot that there was no memory for.
    fn miss(&mut self)
        ensures { self.new ≡ record self.old { missed = missed_after self.old } }
    {
        self.missed = self.missed.saturating_add(1);
    }

    // Flushes by a block more.
    fn flush_on(&mut self) -> Result<usize>
        requires { (now (stored_as self.old)).in_group ≡ false }
        ensures ok { OnOk result (stored_as self.new ≡ after_flush (stored_as self.old)) }
        ensures number { IfOk result (λ n. n ≡ length (stored_as self.old).recent) }
        ensures grown { OnOk result (FlushesOn D.seen self.old self.new) }
        ensures kept { OnErr result (self.new.limits ≡ self.old.limits) }
        ensures pending { OnErr result (self.new.pending ≡ self.old.pending) }
        ensures up { OnOk result ((self.old.files.failed ≡ false) × (self.new.files.failed ≡ false)) }
        ensures err { IfErr result (λ e. IsRefused e (stored_as self.old) (stored_as self.new)) }
        ensures cause { IfErr result (λ e. IsUnstored D.faults (LacksRoom self.old) self.old.files self.new.files self.old.faults e) }
        ensures stops { IfErr result (StopsOnlyAsFailed D.faults self.old self.new) }
        ensures says { IfErr result (SaysThatItFailed self.old) }
        ensures over { self.old.files.failed ≡ true → self.new.files ≡ self.old.files }
        ensures asked { self.new.asked ≡ self.old.asked }
        ensures rule { KeepsRule self.old self.new }
        ensures limits { AreRaised self.old.limits self.new.limits }
        ensures any_moment { LeavesPairs D.moment D.left_since D.may_leave self.old.files self.new.files (IsLasting (asked_of self.old.asked) self.old.limits (stored_as self.old)) }
    {
        self.files.law_time();
        if self.files.failed() {
            return Err(fault(&mut self.faults, DISK_FAILED));
        }
        let len = self.pending.len();
        let (pids, versions) = self.ahead(len == 0);
        if let Err(e) = spell_limits(
            &mut self.pending,
            self.limit_pids,
            self.limit_versions,
            pids,
            versions,
        ) {
            return Err(e);
        }
        if let Err(e) = add(&mut self.files, &mut self.faults, &self.pending) {
            self.pending.truncate(len);
            return Err(e);
        }
        self.pending.clear();
        self.limit_pids = pids;
        self.limit_versions = versions;
        Ok(self.pages.flush_uncounted())
    }

    // Flushes by a file that is begun anew with all that the store is, and with these limits.
    fn flush_anew(&mut self, whole: &[u8], pids: u64, versions: u64) -> Result<usize>
        requires out { (now (stored_as self.old)).in_group ≡ false }
        requires whole { Makes (store_of self.old.pages) whole.now (durable_now (stored_as self.old) self.old.mark pids versions) }
        requires long { IsSnapshot (now (stored_as self.old)) self.old.mark (record { pids = pids; versions = versions }) (length whole.now) }
        requires raised { AreRaised self.old.limits (record { pids = pids; versions = versions }) }
        requires near { RaisesNear (stored_as self.old) self.old.limits (record { pids = pids; versions = versions }) }
        ensures ok { OnOk result (stored_as self.new ≡ after_flush (stored_as self.old)) }
        ensures number { IfOk result (λ n. n ≡ length (stored_as self.old).recent) }
        ensures renewed { OnOk result (FlushesAnew D.seen self.old self.new) }
        ensures kept { OnErr result (self.new.limits ≡ self.old.limits) }
        ensures pending { OnErr result (self.new.pending ≡ self.old.pending) }
        ensures up { OnOk result ((self.old.files.failed ≡ false) × (self.new.files.failed ≡ false)) }
        ensures err { IfErr result (λ e. IsRefused e (stored_as self.old) (stored_as self.new)) }
        ensures cause { IfErr result (λ e. IsUnstored D.faults (IsLast self.old) self.old.files self.new.files self.old.faults e) }
        ensures stops { IfErr result (StopsOnlyAsFailed D.faults self.old self.new) }
        ensures over { self.old.files.failed ≡ true → self.new.files ≡ self.old.files }
        ensures stays { IfErr result (λ e. e ≡ NoMemory → self.new.files.failed ≡ false → self.new ≡ self.old) }
        ensures asked { self.new.asked ≡ self.old.asked }
        ensures rule { KeepsRule self.old self.new }
        ensures limits { AreRaised self.old.limits self.new.limits }
        ensures any_moment { LeavesPairs D.moment D.left_since D.may_leave self.old.files self.new.files (IsLasting (asked_of self.old.asked) self.old.limits (stored_as self.old)) }
    {
        if let Err(e) = begin_anew(&mut self.files, &mut self.faults, whole) {
            return Err(e);
        }
        self.pending.clear();
        self.limit_pids = pids;
        self.limit_versions = versions;
        Ok(self.pages.flush_uncounted())
    }

    // Flushes by a file that is begun anew with all that the store is.
    fn flush_whole(&mut self) -> Result<usize>
        requires { (now (stored_as self.old)).in_group ≡ false }
        ensures ok { OnOk result (stored_as self.new ≡ after_flush (stored_as self.old)) }
        ensures number { IfOk result (λ n. n ≡ length (stored_as self.old).recent) }
        ensures renewed { OnOk result (FlushesAnew D.seen self.old self.new) }
        ensures kept { OnErr result (self.new.limits ≡ self.old.limits) }
        ensures pending { OnErr result (self.new.pending ≡ self.old.pending) }
        ensures up { OnOk result ((self.old.files.failed ≡ false) × (self.new.files.failed ≡ false)) }
        ensures err { IfErr result (λ e. IsRefused e (stored_as self.old) (stored_as self.new)) }
        ensures cause { IfErr result (λ e. IsUnstored D.faults (IsLast self.old) self.old.files self.new.files self.old.faults e) }
        ensures stops { IfErr result (StopsOnlyAsFailed D.faults self.old self.new) }
        ensures says { IfErr result (SaysThatItFailed self.old) }
        ensures over { self.old.files.failed ≡ true → self.new.files ≡ self.old.files }
        ensures stays { IfErr result (λ e. e ≡ NoMemory → self.new.files.failed ≡ false → self.new ≡ self.old) }
        ensures asked { self.new.asked ≡ self.old.asked }
        ensures rule { KeepsRule self.old self.new }
        ensures limits { AreRaised self.old.limits self.new.limits }
        ensures any_moment { LeavesPairs D.moment D.left_since D.may_leave self.old.files self.new.files (IsLasting (asked_of self.old.asked) self.old.limits (stored_as self.old)) }
    {
        self.files.law_time();
        if self.files.failed() {
            return Err(fault(&mut self.faults, DISK_FAILED));
        }
        let (pids, versions) = self.ahead(false);
        let whole = match self.whole_with(pids, versions) {
            Ok(whole) => whole,
            Err(e) => return Err(e),
        };
        let flushed = self.flush_anew(&whole, pids, versions);
        drop(whole);
        flushed
    }
}

impl<D: Disk + Send> Pages for FilePages<D> {
    ghost use Rattle.sled_files.specs.Stored.{stored_as, asked_of, flush_number_in, KeepsFiles, KeepsRule, AsksFor};
    ghost use Rattle.sled_files.specs.Codes.{IsUnstored, LacksRoom, FailsAnew, FailsInMemory, FailsOn, is_why_ungiven, StopsOnlyAsFailed, SaysThatItFailed};
    ghost use Rattle.sled_files.specs.Raised.{FlushesOn, FlushesAnew, Reaches, ReachesOrFails};
    ghost use Rattle.sled_files.specs.Files.{LeavesPairs, IsGrown};
    ghost use Rattle.sled_files.specs.Lasting.{IsLasting};
    ghost use Rattle.sled_files.specs.Pending.{AddsMade};
    ghost use Rattle.sled_bytes.specs.Spelling.{change_bytes};
    ghost use Rattle.sled_bytes.specs.declared.change.Change.TheVariants.{Given, Linked, Freed, Rooted, Begun, Sealed};

    ghost store = { stored_as };

    ghost flush_number = { flush_number_in };

    fn read(&self, alloc: Global, pid: Pid) -> Result<Option<View>> {
        self.pages.read(alloc, pid)
    }

    fn root(&self, name: &[u8]) -> Option<Pid> {
        self.pages.root(name)
    }

    fn roots(&self, alloc: Global) -> Result<Vec<(IVec, Pid)>> {
        self.pages.roots(alloc)
    }

    fn allocate(&mut self, node: Node) -> Result<(Pid, Version)>
        ensures ok { IfOk result (λ given. Allocates node given.0 given.1 (stored_as self.old) (stored_as self.new)) }
        ensures err { IfErr result (λ e. IsRefused e (stored_as self.old) (stored_as self.new)) }
        // It raises both limits, to a piece above what comes next, and only where that has reached one.
        ensures limits { OnOk result (Reaches D.seen self.old self.new) }
        ensures refused { OnErr result (ReachesOrFails D.seen self.old self.new) }
        ensures cause { IfErr result (is_why_ungiven D.faults self.old self.new) }
        ensures asked { self.new.asked ≡ self.old.asked }
        ensures stops { IfErr result (StopsOnlyAsFailed D.faults self.old self.new) }
        ensures goes_on { OnOk result (self.new.files.failed ≡ self.old.files.failed) }
        ensures over { self.old.files.failed ≡ true → self.new.files ≡ self.old.files }
        ensures rule { KeepsRule self.old self.new }
        // What the next flush adds to the log is longer by this change.
        ensures adds { IfOk result (λ given. self.new.pending ≡ self.old.pending ++ change_bytes (Given given.0 given.1 node)) }
        ensures kept { OnErr result (self.new.pending ≡ self.old.pending) }
        ensures any_moment { LeavesPairs D.moment D.left_since D.may_leave self.old.files self.new.files (IsLasting (asked_of self.old.asked) self.old.limits (stored_as self.old)) }
    {
        match self.reach() {
            Ok((pid, version)) => {
                allocate(&mut self.pages, &mut self.pending, pid, version, node)
            }
            Err(e) => {
                drop(node);
                Err(e)
            }
        }
    }

    fn link(
        &mut self,
        pid: Pid,
        version: Version,
        new: Link,
    ) -> Result<std::result::Result<Version, Option<Version>>>
        ensures ok { IfOk result (Changes (after_link new) pid version (stored_as self.old) (stored_as self.new)) }
        ensures err { IfErr result (λ e. IsRefused e (stored_as self.old) (stored_as self.new)) }
        // It raises both limits, to a piece above what comes next, and only where that has reached one.
        ensures limits { OnOk result (Reaches D.seen self.old self.new) }
        ensures refused { OnErr result (ReachesOrFails D.seen self.old self.new) }
        ensures cause { IfErr result (is_why_ungiven D.faults self.old self.new) }
        ensures asked { self.new.asked ≡ self.old.asked }
        ensures stops { IfErr result (StopsOnlyAsFailed D.faults self.old self.new) }
        ensures goes_on { OnOk result (self.new.files.failed ≡ self.old.files.failed) }
        ensures over { self.old.files.failed ≡ true → self.new.files ≡ self.old.files }
        ensures rule { KeepsRule self.old self.new }
        // What the next flush adds to the log is longer by this change.
        ensures adds { IfOk result (λ made. AddsMade (λ given. Linked pid given new) made self.old.pending self.new.pending) }
        ensures kept { OnErr result (self.new.pending ≡ self.old.pending) }
        ensures any_moment { LeavesPairs D.moment D.left_since D.may_leave self.old.files self.new.files (IsLasting (asked_of self.old.asked) self.old.limits (stored_as self.old)) }
    {
        match self.reach() {
            Ok((_, next)) => link(&mut self.pages, &mut self.pending, next, pid, version, new),
            Err(e) => {
                drop(new);
                Err(e)
            }
        }
    }

    fn replace(
        &mut self,
        pid: Pid,
        version: Version,
        node: Node,
    ) -> Result<std::result::Result<Version, Option<Version>>>
        ensures ok { IfOk result (Changes (λ _. node) pid version (stored_as self.old) (stored_as self.new)) }
        ensures err { IfErr result (λ e. IsRefused e (stored_as self.old) (stored_as self.new)) }
        // It raises both limits, to a piece above what comes next, and only where that has reached one.
        ensures limits { OnOk result (Reaches D.seen self.old self.new) }
        ensures refused { OnErr result (ReachesOrFails D.seen self.old self.new) }
        ensures cause { IfErr result (is_why_ungiven D.faults self.old self.new) }
        ensures asked { self.new.asked ≡ self.old.asked }
        ensures stops { IfErr result (StopsOnlyAsFailed D.faults self.old self.new) }
        ensures goes_on { OnOk result (self.new.files.failed ≡ self.old.files.failed) }
        ensures over { self.old.files.failed ≡ true → self.new.files ≡ self.old.files }
        ensures rule { KeepsRule self.old self.new }
        // What the next flush adds to the log is longer by this change.
        ensures adds { IfOk result (λ made. AddsMade (λ given. Given pid given node) made self.old.pending self.new.pending) }
        ensures kept { OnErr result (self.new.pending ≡ self.old.pending) }
        ensures any_moment { LeavesPairs D.moment D.left_since D.may_leave self.old.files self.new.files (IsLasting (asked_of self.old.asked) self.old.limits (stored_as self.old)) }
    {
        match self.reach() {
            Ok((_, next)) => {
                replace(&mut self.pages, &mut self.pending, next, pid, version, node)
            }
            Err(e) => {
                drop(node);
                Err(e)
            }
        }
    }

    fn free(
        &mut self,
        pid: Pid,
        version: Version,
    ) -> Result<std::result::Result<(), Option<Version>>>
        ensures ok { IfOk result (Frees pid version (stored_as self.old) (stored_as self.new)) }
        ensures err { IfErr result (λ e. IsRefused e (stored_as self.old) (stored_as self.new)) }
        // The pages in memory refuse it, which is no fault of the files.
        ensures cause { IfErr result (λ e. FailsInMemory self.old self.new e) }
        // What the next flush adds to the log is longer by this change.
        ensures adds { IfOk result (λ made. AddsMade (λ _. Freed pid) made self.old.pending self.new.pending) }
        ensures kept { OnErr result (self.new.pending ≡ self.old.pending) }
        ensures files { KeepsFiles self.old self.new }
    {
        free(&mut self.pages, &mut self.pending, pid, version)
    }

    fn cas_root(
        &mut self,
        name: &[u8],
        old: Option<Pid>,
        new: Option<Pid>,
    ) -> Result<std::result::Result<(), Option<Pid>>>
        ensures ok { IfOk result (SwapsRoot name.now old new (stored_as self.old) (stored_as self.new)) }
        ensures err { IfErr result (λ e. IsRefused e (stored_as self.old) (stored_as self.new)) }
        // The pages in memory refuse it, which is no fault of the files.
        ensures cause { IfErr result (λ e. FailsInMemory self.old self.new e) }
        // What the next flush adds to the log is longer by this change.
        ensures adds { IfOk result (λ made. AddsMade (λ _. Rooted name.now new) made self.old.pending self.new.pending) }
        ensures kept { OnErr result (self.new.pending ≡ self.old.pending) }
        ensures files { KeepsFiles self.old self.new }
    {
        cas_root(&mut self.pages, &mut self.pending, name, old, new)
    }

    fn begin_group(&mut self) -> Result<()>
        requires { (now (stored_as self.old)).in_group ≡ false }
        ensures ok { OnOk result (stored_as self.new ≡ after_action GroupBegins (stored_as self.old)) }
        ensures err { IfErr result (λ e. IsRefused e (stored_as self.old) (stored_as self.new)) }
        // The pages in memory refuse it, which is no fault of the files.
        ensures cause { IfErr result (λ e. FailsInMemory self.old self.new e) }
        // What the next flush adds to the log is longer by this change.
        ensures adds { OnOk result (self.new.pending ≡ self.old.pending ++ change_bytes Begun) }
        ensures kept { OnErr result (self.new.pending ≡ self.old.pending) }
        ensures files { KeepsFiles self.old self.new }
    {
        begin_group(&mut self.pages, &mut self.pending)
    }

    fn seal_group(&mut self) -> Result<()>
        requires { (now (stored_as self.old)).in_group ≡ true }
        ensures ok { OnOk result (stored_as self.new ≡ after_action GroupEnds (stored_as self.old)) }
        ensures err { IfErr result (λ e. IsRefused e (stored_as self.old) (stored_as self.new)) }
        // The pages in memory refuse it, which is no fault of the files.
        ensures cause { IfErr result (λ e. FailsInMemory self.old self.new e) }
        // What the next flush adds to the log is longer by this change.
        ensures adds { OnOk result (self.new.pending ≡ self.old.pending ++ change_bytes Sealed) }
        ensures kept { OnErr result (self.new.pending ≡ self.old.pending) }
        ensures files { KeepsFiles self.old self.new }
    {
        seal_group(&mut self.pages, &mut self.pending)
    }

    fn in_group(&self) -> bool {
        self.pages.in_group()
    }

    /// Makes all that was done durable. The number is that of the changing actions since the last flush. At any moment a crash leaves
    /// files that are right for the store before. Once the log is longer than 4 MB (or than `compact_from` set) and than twice the last
    /// snapshot, the other file is begun anew with a snapshot, and counts from then on. If there is no memory for it, the log grows.
    ///
    /// Refused for want of memory, or as the log would be too long, the files are as they were, and the store goes on. Refused by a disk, the
    /// store is stopped, as `FilePages::failed` says: open the folder again.
    fn flush(&mut self) -> Result<usize>
        requires { (now (stored_as self.old)).in_group ≡ false }
        ensures ok { OnOk result (stored_as self.new ≡ after_flush (stored_as self.old)) }
        ensures number { IfOk result (λ n. n ≡ length (stored_as self.old).recent) }
        // The log has a block more. If a snapshot was due, a file was begun anew in place of that, or it is counted as missed.
        ensures grown { OnOk result (is_due self.old ≡ false → FlushesOn D.seen self.old self.new) }
        ensures renewed { OnOk result (is_due self.old ≡ true → (FlushesAnew D.seen self.old self.new × (self.new.missed ≡ self.old.missed)) ⊎ (FlushesOn D.seen self.old self.new × (self.new.missed ≡ missed_after self.old))) }
        ensures calm { is_due self.old ≡ false → self.new.missed ≡ self.old.missed }
        ensures longest { self.new.longest ≡ self.old.longest }
        // Once a disk refused a call, it is refused, and says that.
        ensures up { OnOk result ((self.old.files.failed ≡ false) × (self.new.files.failed ≡ false)) }
        ensures stops { IfErr result (StopsOnlyAsFailed D.faults self.old self.new) }
        ensures says { IfErr result (SaysThatItFailed self.old) }
        ensures over { self.old.files.failed ≡ true → self.new.files ≡ self.old.files }
        ensures err { IfErr result (λ e. IsRefused e (stored_as self.old) (stored_as self.new)) }
        ensures cause { IfErr result (λ e. is_due self.old ≡ false → IsUnstored D.faults (LacksRoom self.old) self.old.files self.new.files self.old.faults e) }
        ensures cause_due { IfErr result (λ e. is_due self.old ≡ true → FailsAnew D.faults self.old self.new e ⊎ FailsOn D.faults self.old self.new e) }
        ensures kept { OnErr result (self.new.limits ≡ self.old.limits) }
        // What was to be flushed stays.
        ensures pending { OnErr result (self.new.pending ≡ self.old.pending) }
        ensures asked { self.new.asked ≡ self.old.asked }
        ensures limits { AreRaised self.old.limits self.new.limits }
        ensures any_moment { LeavesPairs D.moment D.left_since D.may_leave self.old.files self.new.files (IsLasting (asked_of self.old.asked) self.old.limits (stored_as self.old)) }
    {
        if !self.is_due() {
            return self.flush_on();
        }
        match self.flush_whole() {
            Ok(count) => Ok(count),
            Err(Error::NoMemory) if !self.files.failed() => {
                self.miss();
                self.flush_on()
            }
            Err(e) => Err(e),
        }
    }

    /// Raises the mark, which is durable at once, also while a group is open. At any moment a crash leaves files that are right for the
    /// store before, with the mark that it had or this one. It is refused as a flush is.
    fn set_aside(&mut self, upto: u64) -> Result<()>
        requires { (stored_as self.old).mark ≤ upto }
        ensures ok { OnOk result (stored_as self.new ≡ record (stored_as self.old) { mark = upto }) }
        ensures err { IfErr result (λ e. IsRefused e (stored_as self.old) (stored_as self.new)) }
        ensures asked { OnOk result (self.new.asked ≡ self.old.asked) }
        ensures asks { OnErr result (AsksFor upto self.old self.new) }
        // What waits for the next flush stays.
        ensures pending { self.new.pending ≡ self.old.pending }
        // Once a disk refused a call, it is refused, and says that.
        ensures up { OnOk result ((self.old.files.failed ≡ false) × (self.new.files.failed ≡ false)) }
        ensures stops { IfErr result (StopsOnlyAsFailed D.faults self.old self.new) }
        ensures says { IfErr result (SaysThatItFailed self.old) }
        ensures over { self.old.files.failed ≡ true → self.new.files ≡ self.old.files }
        ensures cause { IfErr result (λ e. IsUnstored D.faults (LacksRoom self.old) self.old.files self.new.files self.old.faults e) }
        ensures rule { KeepsRule self.old self.new }
        ensures limits { self.new.limits ≡ self.old.limits }
        // The log has a block more, of the mark alone.
        ensures grown { OnOk result (IsGrown D.seen 9 self.old.files self.new.files) }
        ensures any_moment { LeavesPairs D.moment D.left_since D.may_leave self.old.files self.new.files (IsLasting (upto ∷ asked_of self.old.asked) self.old.limits (stored_as self.old)) }
    {
        self.files.law_time();
        if self.files.failed() {
            return Err(fault(&mut self.faults, DISK_FAILED));
        }
        let block = match spelled(self.alloc, Change::Marked(upto)) {
            Ok(block) => block,
            Err(e) => return Err(e),
        };
        if let Err(e) = add(&mut self.files, &mut self.faults, &block) {
            self.asked = asked_then(self.asked, upto, self.files.failed());
            return Err(e);
        }
        self.mark = upto;
        Ok(())
    }

    fn mark(&self) -> u64 {
        self.mark
    }

    fn was_recovered(&self) -> bool {
        self.pages.was_recovered()
    }

    ghost use Rattle.sled_files.specs.theory.Given.{given_over, sealed_over};

    ghost sealed = { λ f. sealed_over f };

    ghost given = { λ f. given_over f };
}

/// Does nothing. It says that whatever a crash leaves of the two files now is right for the store. They have a state that `Pages` allows,
/// its mark or one that a disk refused, and limits below which are all page numbers and versions that were given. Unless a disk refused a
/// call, the files have all but what is pending, and the snapshot is what the first payload of the one that counts has behind its header.
///
/// ```
/// law_lasts(&store); // From here on a proof knows what a crash may leave now.
/// ```
pub fn law_lasts<D: Disk>(store: &FilePages<D>)
    ensures lasts { EachPair (D.may_leave store.now.files.first) (D.may_leave store.now.files.second) (IsLasting (asked_of store.now.asked) store.now.limits (stored_as store.now)) }
    ensures within { AreWithin store.now.limits (stored_as store.now) }
    ensures stands { store.now.files.failed ≡ false → Stands D.seen D.may_leave store.now.limits (stored_as store.now) store.now.files store.now.pending }
{
    let _ = &store.files;
}
