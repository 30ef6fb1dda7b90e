//! How the files of a store are added to, and why that is refused.
ghost use Rattle.std.specs.Prelude.{◌≡◌, ◌⊎◌, ◌+◌, ◌<◌, ◌^◌, List, length, IfErr, OnOk, OnErr, true, false};
ghost use Rattle.sled_store.specs.Faults.{IsFault};
ghost use Rattle.sled_bytes.specs.declared.change.Change.{Change};
ghost use Rattle.sled_files.specs.Change.{Durable, changed_all, AreAdded};
ghost use Rattle.sled_files.specs.Files.{IsReady, KeepsTime, LeavesPairs, AreForEither, IsGrown, IsRenewed};
ghost use Rattle.sled_files.specs.Codes.{fault_of, error_of, IsUnstored};
ghost use Rattle.sled_files.specs.Pending.{Spells};
ghost use Rattle.sled_files.specs.theory.Snapshot.{MakesAnew};

use crate::two_files::TwoFiles;
use sled_disk::{Disk, DiskError};
use sled_nodes::{Error, Fault, Result};

/// The code of the fault that no page number or version is left.
pub const USED_UP: u32 = 3;

/// The code of the fault that a disk has no room, or that the log or its generation would be too large.
pub const DISK_FULL: u32 = 4;

/// The code of the fault that a disk failed in another way or had no memory while a file was changed, or that one refused a call before.
pub const DISK_FAILED: u32 = 5;

/// A fault, while faults can be counted.
pub fn fault(faults: &mut u64, code: u32) -> Error
    ensures counted { IsFault faults.old faults.new result }
    ensures is { result ≡ fault_of faults.old code }
{
    if *faults == u64::MAX {
        return Error::NoMemory;
    }
    *faults += 1;
    Error::Io(Fault(code))
}

// The error of a refusal of the files.
fn refusal(faults: &mut u64, e: DiskError) -> Error
    ensures counted { IsFault faults.old faults.new result }
    ensures is { result ≡ error_of faults.old e }
{
    match e {
        DiskError::NoMemory => Error::NoMemory,
        DiskError::Full => fault(faults, DISK_FULL),
        DiskError::Failed => fault(faults, DISK_FAILED),
    }
}

/// Adds changes to the files, and does nothing if there are none. Once a disk refused a call, the files stay as they are.
pub fn add<D: Disk>(files: &mut TwoFiles<D>, faults: &mut u64, payload: &[u8]) -> Result<()>
    ensures ready { OnOk result ((d : Durable) (changes : List Change) → IsReady D.seen D.may_leave files.old d → Spells payload.now changes → AreAdded changes d → IsReady D.seen D.may_leave files.new (changed_all changes d)) }
    ensures any_moment { (d : Durable) (changes : List Change) → IsReady D.seen D.may_leave files.old d → Spells payload.now changes → AreAdded changes d → LeavesPairs D.moment D.left_since D.may_leave files.old files.new (AreForEither d (changed_all changes d)) }
    ensures first { KeepsTime D.moment D.left_since D.may_leave files.old.first }
    ensures second { KeepsTime D.moment D.left_since D.may_leave files.old.second }
    ensures over { files.old.failed ≡ true → files.new ≡ files.old }
    ensures up { OnOk result (files.old.failed ≡ false) }
    ensures same { OnOk result (faults.new ≡ faults.old) }
    ensures still_up { OnOk result (files.new.failed ≡ false) }
    ensures grown { OnOk result (IsGrown D.seen (length payload.now) files.old files.new) }
    ensures fault { IfErr result (λ e. IsFault faults.old faults.new e) }
    ensures cause { IfErr result (λ e. IsUnstored D.faults (2 ^ 62 < files.old.gate + 17 + length payload.now) files.old files.new faults.old e) }
    ensures err { OnErr result ((files.new ≡ files.old) ⊎ (files.new.failed ≡ true)) }
{
    files.law_time();
    if files.failed() {
        return Err(fault(faults, DISK_FAILED));
    }
    if payload.is_empty() {
        return Ok(());
    }
    match files.append(payload) {
        Ok(()) => Ok(()),
        Err(e) => Err(refusal(faults, e)),
    }
}

/// Makes the files stand for what these changes make of nothing, in place of all that they have. Once a disk refused a call, the files
/// stay as they are.
pub fn begin_anew<D: Disk>(files: &mut TwoFiles<D>, faults: &mut u64, payload: &[u8]) -> Result<()>
    ensures ready { OnOk result ((d made : Durable) → IsReady D.seen D.may_leave files.old d → MakesAnew payload.now made → IsReady D.seen D.may_leave files.new made) }
    ensures any_moment { (d made : Durable) → IsReady D.seen D.may_leave files.old d → MakesAnew payload.now made → LeavesPairs D.moment D.left_since D.may_leave files.old files.new (AreForEither d made) }
    ensures first { KeepsTime D.moment D.left_since D.may_leave files.old.first }
    ensures second { KeepsTime D.moment D.left_since D.may_leave files.old.second }
    ensures over { files.old.failed ≡ true → files.new ≡ files.old }
    ensures up { OnOk result (files.old.failed ≡ false) }
    ensures same { OnOk result (faults.new ≡ faults.old) }
    ensures still_up { OnOk result (files.new.failed ≡ false) }
    ensures renewed { OnOk result (IsRenewed D.seen files.old files.new) }
    ensures snapshot { OnOk result (files.new.snapshot ≡ length payload.now) }
    ensures fault { IfErr result (λ e. IsFault faults.old faults.new e) }
    ensures cause { IfErr result (λ e. IsUnstored D.faults (files.old.generation + 1 ≡ 2 ^ 64) files.old files.new faults.old e) }
    ensures err { OnErr result ((files.new ≡ files.old) ⊎ (files.new.failed ≡ true)) }
{
    files.law_time();
    if files.failed() {
        return Err(fault(faults, DISK_FAILED));
    }
    match files.rewrite(payload) {
        Ok(()) => Ok(()),
        Err(e) => Err(refusal(faults, e)),
    }
}
