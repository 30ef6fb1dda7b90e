//! A disk that brings a block and its gate to another one in one sync.
ghost use Rattle.std.specs.Prelude.{◌≡◌, ◌≤◌, ◌+◌, ◌&&◌, ℕ, List, false, length, take, drop, IfOk, IfErr, OnOk, OnErr, [], ◌∷◌};
ghost use Rattle.std.proofs.Common.{inl, refl};
ghost use Rattle.sled_disk.specs.Disk.{Only, NoMore, LeavesOnly, HasCause, is_caused};
ghost use Rattle.sled_host.specs.Event.{opened};
ghost use Rattle.sled_host.specs.Stops.{told_as};
ghost use Rattle.sled_once.specs.Once.{Once, LeavesAsRead};
ghost use Rattle.sled_once.specs.Stages.{Stands, EndsAs, IsOver, IsAtRest, LeavesReadAs, is_through};

use crate::holding::end_found;
use crate::stage::{End, Stage};
use crate::steps::{bring, put, settle, shorten};
use sled_disk::{Disk, DiskError, Result, law_only_now};
use sled_host::{Call, Record};
use sled_log::read_all;
use std::alloc::Global;
use std::marker::Model;

/// A disk in front of another one, which brings a block and its open gate to it in one sync, where two are asked for.
///
/// A block that is written behind the closed gate at the end of a log is held back, if all else is on the disk, and the sync that
/// follows is answered at once. The write that opens the gate hands both on, and the next sync brings them to the disk. Every other call
/// is handed on; if a block is held back, that is first brought to the disk behind its closed gate. The first block of a log is not held
/// back. Once the other disk refused a call that changes it, each later call is refused with `Failed`, and none of it is made.
///
/// What it says a crash leaves is what is left after two syncs. What the other disk is left with is read as that, up to a tear, if the
/// digest tells what is left of a block (`law_read_as_left`). So after a crash a log is mended before it is opened.
#[derive(Drop)]
pub struct OneSync<D: Disk> {
    alloc: Global,
    disk: D,
    noted: Record,
    stage: Stage,
    refused: u64,
}

impl<D: Disk> Model for OneSync<D> {
    ghost use Rattle.sled_once.specs.Once.{Once};
    ghost use Rattle.sled_once.specs.Stages.{Stands};

    ghost Value = { Once D };

    ghost view = { λ f. record { disk = f.disk; calls = f.noted.events; stage = f.stage; refused = f.refused } };

    ghost invariant = { λ f. Stands D.seen D.may_leave f.stage f.disk f.noted.events };
}

// What is known of where the log of a file ends that has these bytes, and a record of its opening.
fn found_in(alloc: Global, bytes: &[u8]) -> (End, Record)
    ensures end { EndsAs result.0 bytes.now }
    ensures noted { result.1.events ≡ opened false bytes.now ∷ [] }
{
    let end = end_found(alloc, bytes);
    (end, Record::new().and(&Call::Opened(false, bytes)))
}

// The same of the file on a disk, which is read if the disk does not lend it.
fn found_on<D: Disk>(alloc: Global, disk: &mut D) -> Result<(End, Record)>
    ensures end { IfOk result (λ found. EndsAs found.0 (D.seen disk.new)) }
    ensures noted { IfOk result (λ found. found.1.events ≡ opened false (D.seen disk.new) ∷ []) }
    ensures seen { D.seen disk.new ≡ D.seen disk.old }
    ensures crash { NoMore (D.may_leave disk.old) (D.may_leave disk.new) }
    ensures any_moment { LeavesOnly D.moment D.left_since disk.old disk.new (D.may_leave disk.old) }
    ensures cause { HasCause (D.faults disk.old) (D.faults disk.new) result }
{
    law_only_now(disk);
    if let Some(bytes) = disk.lent() {
        return Ok(found_in(alloc, bytes));
    }
    let bytes = read_all(disk, alloc)?;
    let found = found_in(alloc, &bytes);
    drop(bytes);
    Ok(found)
}

impl<D: Disk> OneSync<D> {
    ghost use Rattle.sled_once.specs.Once.{bytes_of, outcomes_of};

    /// A disk in front of this one, all of which is brought to the disk first. Refused by the disk, which is handed back.
    ///
    /// ```
    /// match OneSync::new(alloc, disk) {
    ///     Ok(once) => drop(once),       // Blocks that are appended to it are brought to the disk in one sync.
    ///     Err((disk, _)) => drop(disk), // The disk refused a call.
    /// }
    /// ```
    pub fn new(alloc: Global, disk: D) -> std::result::Result<OneSync<D>, (D, DiskError)>
        ensures bytes { IfOk result (λ f. bytes_of f ≡ D.seen disk) }
        ensures seen { IfOk result (λ f. D.seen f.disk ≡ D.seen disk) }
        ensures durable { IfOk result (λ f. Only (bytes_of f) (outcomes_of f)) }
        ensures calm { IfOk result (λ f. D.faults f.disk + f.refused ≡ D.faults disk) }
        ensures goes_on { IfOk result (λ f. IsOver f.stage → ⊥) }
        ensures stays { IfErr result (λ x. D.seen x.0 ≡ D.seen disk) }
        // A crash, then or meanwhile, leaves nothing else than before.
        ensures left { IfErr result (λ x. NoMore (D.may_leave disk) (D.may_leave x.0)) }
        ensures any_moment { IfErr result (λ x. LeavesOnly D.moment D.left_since disk x.0 (D.may_leave disk)) }
        ensures cause { IfErr result (λ x. is_caused (D.faults disk) (D.faults x.0) x.1) }
    {
        let mut disk = disk;
        law_only_now(&disk);
        if let Err(e) = disk.sync() {
            return Err((disk, e));
        }
        let (end, noted) = match found_on(alloc, &mut disk) {
            Ok(found) => found,
            Err(e) => return Err((disk, e)),
        };
        Ok(OneSync {
            alloc,
            disk,
            noted,
            stage: Stage::Through(end, true),
            refused: 0,
        })
    }

    /// The disk behind it, as it is. A block that is held back is not on it.
    ///
    /// ```
    /// if let Ok(once) = OneSync::new(alloc, disk) {
    ///     drop(once.into_disk());
    /// }
    /// ```
    pub fn into_disk(self) -> D
        ensures { result ≡ self.disk }
    {
        let OneSync {
            alloc: _,
            disk,
            noted,
            stage,
            refused: _,
        } = self;
        drop(noted);
        drop(stage);
        disk
    }

    /// The disk behind it, once a block that is held back was brought to it behind its closed gate, and an open one in the sync that it has
    /// not had. A read of it returns what one of this returned. Refused by the disk, which is handed back, or as failed once it is over.
    ///
    /// ```
    /// if let Ok(once) = OneSync::new(alloc, disk) {
    ///     match once.into_settled() {
    ///         Ok(disk) => drop(disk),       // It has what was written.
    ///         Err((disk, _)) => drop(disk), // The disk refused a call.
    ///     }
    /// }
    /// ```
    pub fn into_settled(self) -> std::result::Result<D, (D, DiskError)>
        ensures seen { IfOk result (λ d. D.seen d ≡ bytes_of self) }
        ensures left { IfOk result (λ d. NoMore (outcomes_of self) (D.may_leave d)) }
        ensures calm { IfOk result (λ d. D.faults d ≡ D.faults self.disk) }
        // Refused, it leaves at a crash what is read as something that it might have left.
        ensures told { IfErr result (λ x. LeavesReadAs (outcomes_of self) (D.may_leave x.0)) }
        ensures over { IsOver self.stage → result ≡ Err (self.disk, told_as self.refused false) }
        ensures cause { IfErr result (λ x. (IsOver self.stage → ⊥) → is_caused (D.faults self.disk) (D.faults x.0) x.1) }
    {
        let OneSync {
            alloc: _,
            mut disk,
            noted,
            stage,
            mut refused,
        } = self;
        drop(noted);
        match settle(&mut disk, stage, &mut refused) {
            Ok(_) => Ok(disk),
            Err((over, e)) => {
                drop(over);
                Err((disk, e))
            }
        }
    }

    /// The disk behind it, to be looked at.
    ///
    /// ```
    /// if let Ok(once) = OneSync::new(alloc, disk) {
    ///     let left = once.disk().crash(&mut choices)?; // Where it is in memory: what a crash would leave now.
    /// }
    /// ```
    pub fn disk(&self) -> &D
        ensures { result.now ≡ self.now.disk }
    {
        &self.disk
    }
}

impl<D: Disk> Disk for OneSync<D> {
    ghost use Rattle.sled_disk.specs.Disk.{written, Torn, Shortened, Follows, Elapses};
    ghost use Rattle.sled_once.specs.Once.{bytes_of, outcomes_of, moment_of, outcomes_since, faults_of, StaysStopped};
    ghost use Rattle.sled_host.specs.Laws.{counts_now as counts, only_now as only};

    ghost seen = { bytes_of };

    ghost may_leave = { outcomes_of };

    ghost moment = { moment_of };

    ghost left_since = { outcomes_since };

    ghost faults = { faults_of D.faults };

    ghost lends = { λ f. is_through f.stage && D.lends f.disk };

    ghost counts_now = { λ f t c le left. counts f.calls t c le left };

    ghost only_now = { λ f c left. only f.calls c left };

    ghost may_stay = { λ f. inl refl };

    fn len(&mut self) -> Result<usize>
        ensures bytes { IfOk result (λ len. len ≡ length (bytes_of self.old)) }
        ensures seen { bytes_of self.new ≡ bytes_of self.old }
        ensures crash { NoMore (outcomes_of self.old) (outcomes_of self.new) }
        ensures time { Elapses (moment_of self.old) (moment_of self.new) (outcomes_since self.old) (outcomes_since self.new) (outcomes_of self.new) }
        ensures cause { HasCause (faults_of D.faults self.old) (faults_of D.faults self.new) result }
        ensures stopped { StaysStopped self.old self.new result }
        ensures goes_on { OnOk result (IsOver self.new.stage → ⊥) }
        ensures rests { OnErr result (IsAtRest self.new.stage) }
    {
        let stage = std::mem::replace(&mut self.stage, Stage::Stopped);
        match settle(&mut self.disk, stage, &mut self.refused) {
            Ok((end, is_synced)) => {
                self.stage = Stage::Through(end, is_synced);
                self.disk.len()
            }
            Err((over, e)) => {
                self.stage = over;
                Err(e)
            }
        }
    }

    fn read(&mut self, alloc: Global, at: usize, count: usize) -> Result<Vec<u8>>
        requires { at + count ≤ length (bytes_of self.old) }
        ensures bytes { IfOk result (λ bytes. bytes.items ≡ take count (drop at (bytes_of self.old))) }
        ensures seen { bytes_of self.new ≡ bytes_of self.old }
        ensures crash { NoMore (outcomes_of self.old) (outcomes_of self.new) }
        ensures time { Elapses (moment_of self.old) (moment_of self.new) (outcomes_since self.old) (outcomes_since self.new) (outcomes_of self.new) }
        ensures cause { HasCause (faults_of D.faults self.old) (faults_of D.faults self.new) result }
        ensures stopped { StaysStopped self.old self.new result }
        ensures goes_on { OnOk result (IsOver self.new.stage → ⊥) }
        ensures rests { OnErr result (IsAtRest self.new.stage) }
    {
        let stage = std::mem::replace(&mut self.stage, Stage::Stopped);
        match settle(&mut self.disk, stage, &mut self.refused) {
            Ok((end, is_synced)) => {
                self.stage = Stage::Through(end, is_synced);
                self.disk.read(alloc, at, count)
            }
            Err((over, e)) => {
                self.stage = over;
                Err(e)
            }
        }
    }

    fn lent(&self) -> Option<&[u8]> {
        match &self.stage {
            Stage::Through(_, _) => self.disk.lent(),
            _ => None,
        }
    }

    fn write_at(&mut self, at: usize, bytes: &[u8]) -> Result<()>
        requires { at ≤ length (bytes_of self.old) }
        ensures written { OnOk result (bytes_of self.new ≡ written at bytes.now (bytes_of self.old)) }
        ensures crash { Follows (Torn at bytes.now) (outcomes_of self.old) (outcomes_of self.new) }
        ensures time { Elapses (moment_of self.old) (moment_of self.new) (outcomes_since self.old) (outcomes_since self.new) (outcomes_of self.new) }
        ensures cause { HasCause (faults_of D.faults self.old) (faults_of D.faults self.new) result }
        ensures stopped { StaysStopped self.old self.new result }
        ensures goes_on { OnOk result (IsOver self.new.stage → ⊥) }
        ensures rests { OnErr result (IsAtRest self.new.stage) }
    {
        let stage = std::mem::replace(&mut self.stage, Stage::Stopped);
        let (next, answer) = put(
            self.alloc,
            &mut self.disk,
            stage,
            &mut self.refused,
            at,
            bytes,
        );
        self.stage = next;
        self.noted = self.noted.and(&Call::Wrote(at, bytes, answer.is_ok()));
        answer
    }

    fn cut(&mut self, len: usize) -> Result<()>
        requires { len ≤ length (bytes_of self.old) }
        ensures cut { OnOk result (bytes_of self.new ≡ take len (bytes_of self.old)) }
        ensures crash { Follows (Shortened len) (outcomes_of self.old) (outcomes_of self.new) }
        ensures time { Elapses (moment_of self.old) (moment_of self.new) (outcomes_since self.old) (outcomes_since self.new) (outcomes_of self.new) }
        ensures cause { HasCause (faults_of D.faults self.old) (faults_of D.faults self.new) result }
        ensures stopped { StaysStopped self.old self.new result }
        ensures goes_on { OnOk result (IsOver self.new.stage → ⊥) }
        ensures stops { OnErr result (IsOver self.new.stage) }
    {
        let stage = std::mem::replace(&mut self.stage, Stage::Stopped);
        let (next, answer) = shorten(&mut self.disk, stage, &mut self.refused, len);
        self.stage = next;
        self.noted = self.noted.and(&Call::Cut(len, answer.is_ok()));
        answer
    }

    fn sync(&mut self) -> Result<()>
        ensures durable { OnOk result (Only (bytes_of self.old) (outcomes_of self.new)) }
        ensures seen { bytes_of self.new ≡ bytes_of self.old }
        ensures crash { NoMore (outcomes_of self.old) (outcomes_of self.new) }
        ensures time { Elapses (moment_of self.old) (moment_of self.new) (outcomes_since self.old) (outcomes_since self.new) (outcomes_of self.new) }
        ensures cause { HasCause (faults_of D.faults self.old) (faults_of D.faults self.new) result }
        ensures stopped { StaysStopped self.old self.new result }
        ensures goes_on { OnOk result (IsOver self.new.stage → ⊥) }
        ensures stops { OnErr result (IsOver self.new.stage) }
    {
        let stage = std::mem::replace(&mut self.stage, Stage::Stopped);
        let (next, answer) = bring(&mut self.disk, stage, &mut self.refused);
        self.stage = next;
        self.noted = self.noted.and(&Call::Synced(answer.is_ok()));
        answer
    }
}

/// Does nothing. It says what the disk behind a `OneSync` is left with. If the digest tells what a crash left of the block under way, all
/// that it may leave of that disk is read, up to a tear, as what may be left of the `OneSync`. What the digest does not tell was left while
/// that block was under way.
///
/// ```
/// if let Ok(once) = OneSync::new(alloc, disk) {
///     law_read_as_left(&once); // From here on a proof knows what `mend` makes of what a crash leaves.
/// }
/// ```
pub fn law_read_as_left<D: Disk>(file: &OneSync<D>)
    ensures { LeavesAsRead D.may_leave file.now }
{
    let _ = &file.stage;
}
