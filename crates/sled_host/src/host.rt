//! A file of the operating system as a store sees it.
ghost use Rattle.std.specs.Prelude.{◌≡◌, ◌≤◌, ◌<◌, ◌+◌, ◌^◌, ℕ, [], ◌∷◌, List, length, take, drop, true, false, IsOk, IfOk, IfErr, OnOk, OnErr, is_ok, is_some};
ghost use Rattle.std.specs.Option.{ForSome};
ghost use Rattle.std.proofs.Common.{inl, refl};
ghost use Rattle.sled_disk.specs.Disk.{Only, is_caused, HasCause};
ghost use Rattle.sled_host.specs.Event.{opened};
ghost use Rattle.sled_host.specs.Outcomes.{seen_after_all, MayLeave, LeftSince};
ghost use Rattle.sled_host.specs.Stops.{has_failed, has_stopped, is_unchanged, told_as};
ghost use Rattle.sled_host.specs.theory.Told.{is_full_kind, is_told};

use crate::system::{OpenFile, SystemFile};
use sled_disk::{Disk, DiskError, Result};
use std::alloc::Global;
use std::io::{self, ErrorKind};

/// A file of the operating system. It can be read until its first change: what it had at its opening is kept in memory until then,
/// and a later read is refused with `Failed`. After a call was refused that writes, cuts or syncs, each later one is refused with
/// `Failed`, and no more calls of the file are made.
#[derive(Drop)]
pub struct HostFile {
    system: SystemFile,
    kept: Option<Vec<u8>>,
    len: usize,
    is_failed: bool,
    faults: u64,
    ghost counted: { len ≡ length (seen_after_all system.record.events) },
    ghost agrees: { ForSome kept (λ bytes. bytes.items ≡ seen_after_all system.record.events) },
    ghost reads: { is_some kept ≡ is_unchanged system.record.events },
    ghost fails: { is_failed ≡ has_failed system.record.events },
    ghost stops: { has_stopped system.record.events ≡ true },
}

impl HostFile {
    ghost use Rattle.sled_host.specs.Host.{calls_of, bytes_of, outcomes_of, faults_of};

    /// An open file, synced and read.
    pub(crate) fn settle(alloc: Global, file: OpenFile) -> io::Result<HostFile>
        ensures opened { IfOk result (λ f. calls_of f ≡ opened file.is_new (bytes_of f) ∷ []) }
        ensures lock { IfOk result (λ f. f.system.lock ≡ file.lock) }
        ensures durable { IfOk result (λ f. Only (bytes_of f) (outcomes_of f)) }
        ensures unfailing { IfOk result (λ f. faults_of f ≡ 0) }
    {
        let (system, bytes) = SystemFile::settle(alloc, file)?;
        Ok(HostFile {
            system,
            len: bytes.len(),
            kept: Some(bytes),
            is_failed: false,
            faults: 0,
        })
    }
}

// A fault of the disk, while faults can be counted.
fn fault(faults: &mut u64, is_full: bool) -> DiskError
    ensures counted { is_caused faults.old faults.new result }
    ensures told { result ≡ told_as faults.old is_full }
{
    if *faults == u64::MAX {
        return DiskError::NoMemory;
    }
    *faults += 1;
    if is_full {
        DiskError::Full
    } else {
        DiskError::Failed
    }
}

// Refuses a call after one that the system did not do.
fn go_on(is_failed: bool, faults: &mut u64) -> Result<()>
    ensures ok { OnOk result (is_failed ≡ false) }
    ensures err { OnErr result (is_failed ≡ true) }
    ensures told { IfErr result (λ e. e ≡ told_as faults.old false) }
    ensures cause { HasCause faults.old faults.new result }
{
    if is_failed {
        Err(fault(faults, false))
    } else {
        Ok(())
    }
}

// What the system answered to a call that changes a file. A refusal is counted.
fn counted(faults: &mut u64, answer: io::Result<()>) -> Result<()>
    ensures cause { HasCause faults.old faults.new result }
    ensures same { is_ok result ≡ is_ok answer }
    ensures told { is_told faults.old answer result }
{
    match answer {
        Ok(()) => Ok(()),
        Err(e) => Err(fault(faults, is_no_room(e.kind()))),
    }
}

fn is_no_room(kind: ErrorKind) -> bool
    ensures { result ≡ is_full_kind kind }
{
    matches!(kind, ErrorKind::StorageFull | ErrorKind::QuotaExceeded)
}

impl Disk for HostFile {
    ghost use Rattle.sled_disk.specs.Disk.{written, Torn, Shortened, Follows, NoMore, Elapses};
    ghost use Rattle.sled_host.specs.Event.{wrote, cut, synced};
    ghost use Rattle.sled_host.specs.Laws.{counts_now as counts, only_now as only};
    ghost use Rattle.sled_host.specs.Host.{calls_of, bytes_of, outcomes_of, outcomes_since, moment_of, faults_of};
    ghost use Rattle.sled_host.specs.Asked.{IsAsked, IsRead};

    ghost seen = { bytes_of };

    ghost may_leave = { outcomes_of };

    ghost moment = { moment_of };

    ghost left_since = { outcomes_since };

    ghost faults = { faults_of };

    ghost lends = { λ f. is_some f.kept };

    ghost counts_now = { λ f t c le left. counts f.system.record.events t c le left };

    ghost only_now = { λ f c left. only f.system.record.events c left };

    ghost may_stay = { λ f. inl refl };

    fn len(&mut self) -> Result<usize>
        ensures bytes { IfOk result (λ len. len ≡ length (bytes_of self.old)) }
        ensures seen { bytes_of self.new ≡ bytes_of self.old }
        ensures crash { NoMore (outcomes_of self.old) (outcomes_of self.new) }
        ensures time { Elapses (moment_of self.old) (moment_of self.new) (outcomes_since self.old) (outcomes_since self.new) (outcomes_of self.new) }
        ensures cause { HasCause (faults_of self.old) (faults_of self.new) result }
        ensures ok { IsOk result }
        ensures same { calls_of self.new ≡ calls_of self.old }
    {
        Ok(self.len)
    }

    fn read(&mut self, alloc: Global, at: usize, count: usize) -> Result<Vec<u8>>
        requires { at + count ≤ length (bytes_of self.old) }
        ensures bytes { IfOk result (λ bytes. bytes.items ≡ take count (drop at (bytes_of self.old))) }
        ensures seen { bytes_of self.new ≡ bytes_of self.old }
        ensures crash { NoMore (outcomes_of self.old) (outcomes_of self.new) }
        ensures time { Elapses (moment_of self.old) (moment_of self.new) (outcomes_since self.old) (outcomes_since self.new) (outcomes_of self.new) }
        ensures cause { HasCause (faults_of self.old) (faults_of self.new) result }
        ensures read { IsRead self.old self.new result }
    {
        match &self.kept {
            Some(bytes) => Ok(bytes[at..at + count].to_vec(alloc)?),
            None => Err(fault(&mut self.faults, false)),
        }
    }

    fn lent(&self) -> Option<&[u8]> {
        match &self.kept {
            Some(bytes) => Some(bytes.as_slice()),
            None => None,
        }
    }

    fn write_at(&mut self, at: usize, bytes: &[u8]) -> Result<()>
        requires { at ≤ length (bytes_of self.old) }
        ensures written { OnOk result (bytes_of self.new ≡ written at bytes.now (bytes_of self.old)) }
        ensures crash { Follows (Torn at bytes.now) (outcomes_of self.old) (outcomes_of self.new) }
        ensures time { Elapses (moment_of self.old) (moment_of self.new) (outcomes_since self.old) (outcomes_since self.new) (outcomes_of self.new) }
        ensures cause { HasCause (faults_of self.old) (faults_of self.new) result }
        ensures asked { at + length bytes.now < 2 ^ 64 → IsAsked (wrote at bytes.now) self.old self.new result }
    {
        let Some(end) = at.checked_add(bytes.len()) else {
            return Err(fault(&mut self.faults, false));
        };
        go_on(self.is_failed, &mut self.faults)?;
        self.kept = None;
        let answer = self.system.write(at, bytes);
        self.is_failed = answer.is_err();
        if answer.is_ok() {
            self.len = self.len.max(end);
        }
        counted(&mut self.faults, answer)
    }

    fn cut(&mut self, len: usize) -> Result<()>
        requires { len ≤ length (bytes_of self.old) }
        ensures cut { OnOk result (bytes_of self.new ≡ take len (bytes_of self.old)) }
        ensures crash { Follows (Shortened len) (outcomes_of self.old) (outcomes_of self.new) }
        ensures time { Elapses (moment_of self.old) (moment_of self.new) (outcomes_since self.old) (outcomes_since self.new) (outcomes_of self.new) }
        ensures cause { HasCause (faults_of self.old) (faults_of self.new) result }
        ensures asked { IsAsked (cut len) self.old self.new result }
    {
        go_on(self.is_failed, &mut self.faults)?;
        self.kept = None;
        let answer = self.system.cut(len);
        self.is_failed = answer.is_err();
        if answer.is_ok() {
            self.len = len;
        }
        counted(&mut self.faults, answer)
    }

    fn sync(&mut self) -> Result<()>
        ensures durable { OnOk result (Only (bytes_of self.old) (outcomes_of self.new)) }
        ensures seen { bytes_of self.new ≡ bytes_of self.old }
        ensures crash { NoMore (outcomes_of self.old) (outcomes_of self.new) }
        ensures time { Elapses (moment_of self.old) (moment_of self.new) (outcomes_since self.old) (outcomes_since self.new) (outcomes_of self.new) }
        ensures cause { HasCause (faults_of self.old) (faults_of self.new) result }
        ensures asked { IsAsked synced self.old self.new result }
    {
        go_on(self.is_failed, &mut self.faults)?;
        let answer = self.system.sync();
        self.is_failed = answer.is_err();
        counted(&mut self.faults, answer)
    }
}
