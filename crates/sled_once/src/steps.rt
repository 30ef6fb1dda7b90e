//! The calls of a disk that holds blocks back, and what the disk behind it has after each.
ghost use Rattle.std.specs.Prelude.{◌≡◌, ◌≤◌, ◌+◌, ◌<◌, ◌∷◌, [], ℕ, Bool, true, false, List, length, is_ok, IfOk, IfErr, IfSome, OnOk, OnErr};
ghost use Rattle.sled_disk.specs.Disk.{HasCause, is_caused};
ghost use Rattle.sled_log.specs.Log.{opened};
ghost use Rattle.sled_host.specs.Event.{wrote, cut, synced as was_synced};
ghost use Rattle.sled_host.specs.Stops.{told_as};
ghost use Rattle.sled_once.specs.Stages.{EndsIn, EndsAs, IsOver, IsAtRest};
ghost use Rattle.sled_once.specs.theory.Steps.{IsStanding, HasPlace, Stays, GoesOn};
ghost use Rattle.sled_once.specs.declared.stage.End.TheVariants.{Closed};
ghost use Rattle.sled_once.specs.declared.stage.Stage.TheVariants.{Through, Held, Opened};

use crate::holding::{block_in, end_cut, end_written, is_opening};
use crate::stage::{End, Stage};
use sled_disk::{Disk, DiskError, Result, law_may_stay};
use std::alloc::Global;

const OPENED: u8 = 255;

/// A refusal, while refusals can be counted.
pub fn fault(refused: &mut u64) -> DiskError
    ensures counted { is_caused refused.old refused.new result }
    ensures told { result ≡ told_as refused.old false }
{
    if *refused == u64::MAX {
        return DiskError::NoMemory;
    }
    *refused += 1;
    DiskError::Failed
}

// Where the log ends once the block behind this gate is part of it.
fn end_behind(gate: usize, count: usize) -> End
    ensures { (file : List ℕ) → EndsIn (gate + count) file → EndsAs result file }
{
    match gate.checked_add(count) {
        Some(next) => End::Closed(next),
        None => End::Unknown,
    }
}

// Writes a block that was held back behind its closed gate, and brings it to the disk.
fn write_held<D: Disk>(
    disk: &mut D,
    gate: usize,
    block: Vec<u8>,
) -> std::result::Result<End, (Stage, DiskError)>
    requires { IsStanding D.seen D.may_leave (Held gate block) disk.old }
    ensures ok { IfOk result (λ end. Stays D.seen D.may_leave (Held gate block) disk.old (Through end true) disk.new) }
    ensures calm { OnOk result (D.faults disk.new ≡ D.faults disk.old) }
    ensures err { IfErr result (λ x. Stays D.seen D.may_leave (Held gate block) disk.old x.0 disk.new) }
    ensures over { IfErr result (λ x. IsOver x.0) }
    ensures cause { IfErr result (λ x. is_caused (D.faults disk.old) (D.faults disk.new) x.1) }
{
    if let Err(e) = disk.write_at(gate + 1, &block) {
        return Err((Stage::Torn(gate, block), e));
    }
    match disk.sync() {
        Ok(()) => {
            let count = block.len();
            drop(block);
            Ok(End::Staged(gate, count))
        }
        Err(e) => Err((Stage::Torn(gate, block), e)),
    }
}

// Brings a block and its open gate to the disk.
fn sync_opened<D: Disk>(
    disk: &mut D,
    gate: usize,
    block: Vec<u8>,
) -> std::result::Result<End, (Stage, DiskError)>
    requires { IsStanding D.seen D.may_leave (Opened gate block) disk.old }
    ensures ok { IfOk result (λ end. Stays D.seen D.may_leave (Opened gate block) disk.old (Through end true) disk.new) }
    ensures calm { OnOk result (D.faults disk.new ≡ D.faults disk.old) }
    ensures err { IfErr result (λ x. Stays D.seen D.may_leave (Opened gate block) disk.old x.0 disk.new) }
    ensures over { IfErr result (λ x. IsOver x.0) }
    ensures cause { IfErr result (λ x. is_caused (D.faults disk.old) (D.faults disk.new) x.1) }
{
    match disk.sync() {
        Ok(()) => {
            let count = block.len();
            drop(block);
            Ok(end_behind(gate, count))
        }
        Err(e) => Err((Stage::Torn(gate, block), e)),
    }
}

/// Brings the block under way to the disk, in the two syncs that it has not had: from then on the disk has what the calls made of it.
pub fn settle<D: Disk>(
    disk: &mut D,
    stage: Stage,
    refused: &mut u64,
) -> std::result::Result<(End, bool), (Stage, DiskError)>
    requires { IsStanding D.seen D.may_leave stage disk.old }
    ensures ok { IfOk result (λ x. Stays D.seen D.may_leave stage disk.old (Through x.0 x.1) disk.new) }
    ensures calm { OnOk result (D.faults disk.new + refused.new ≡ D.faults disk.old + refused.old) }
    ensures err { IfErr result (λ x. Stays D.seen D.may_leave stage disk.old x.0 disk.new) }
    ensures over { IfErr result (λ x. IsOver x.0) }
    ensures stays { IsOver stage → (result ≡ Err (stage, told_as refused.old false)) × (disk.new ≡ disk.old) }
    ensures counted { (IsOver stage → ⊥) → refused.new ≡ refused.old }
    ensures cause { IfErr result (λ x. is_caused (D.faults disk.old + refused.old) (D.faults disk.new + refused.new) x.1) }
{
    match stage {
        Stage::Through(end, is_synced) => Ok((end, is_synced)),
        Stage::Held(gate, block) => match write_held(disk, gate, block) {
            Ok(end) => Ok((end, true)),
            Err(refusal) => Err(refusal),
        },
        Stage::Opened(gate, block) => match sync_opened(disk, gate, block) {
            Ok(end) => Ok((end, true)),
            Err(refusal) => Err(refusal),
        },
        over => Err((over, fault(refused))),
    }
}

// Hands a write on.
fn write_on<D: Disk>(
    alloc: Global,
    disk: &mut D,
    end: End,
    is_synced: bool,
    at: usize,
    bytes: &[u8],
) -> (Stage, Result<()>)
    requires { HasPlace D.seen D.may_leave at (Through end is_synced) disk.old }
    ensures goes_on { GoesOn D.seen D.may_leave (wrote at bytes.now (is_ok result.1)) (Through end is_synced) disk.old result.0 disk.new }
    ensures stops { OnErr result.1 (IsOver result.0) }
    ensures answered { OnOk result.1 (IsOver result.0 → ⊥) }
    ensures cause { HasCause (D.faults disk.old) (D.faults disk.new) result.1 }
{
    match disk.write_at(at, bytes) {
        Ok(()) => (
            Stage::Through(end_written(alloc, end, at, bytes), false),
            Ok(()),
        ),
        Err(e) => (Stage::Stopped, Err(e)),
    }
}

// Hands a block on, and opens its gate.
fn open_gate<D: Disk>(disk: &mut D, gate: usize, block: Vec<u8>) -> (Stage, Result<()>)
    requires { IsStanding D.seen D.may_leave (Held gate block) disk.old }
    ensures goes_on { GoesOn D.seen D.may_leave (wrote gate (opened ∷ []) (is_ok result.1)) (Held gate block) disk.old result.0 disk.new }
    ensures stops { OnErr result.1 (IsOver result.0) }
    ensures answered { OnOk result.1 (IsOver result.0 → ⊥) }
    ensures cause { HasCause (D.faults disk.old) (D.faults disk.new) result.1 }
{
    if let Err(e) = disk.write_at(gate + 1, &block) {
        return (Stage::Torn(gate, block), Err(e));
    }
    match disk.write_at(gate, &[OPENED]) {
        Ok(()) => (Stage::Opened(gate, block), Ok(())),
        Err(e) => (Stage::Torn(gate, block), Err(e)),
    }
}

// A copy of a block that may be held back: its gate is the last byte of the file, and not the first.
fn held_back<D: Disk>(
    alloc: Global,
    disk: &mut D,
    end: End,
    is_synced: bool,
    at: usize,
    bytes: &[u8],
) -> Result<Option<(usize, Vec<u8>)>>
    requires { HasPlace D.seen D.may_leave at (Through end is_synced) disk.old }
    ensures held { IfOk result (λ o. IfSome o (λ x. GoesOn D.seen D.may_leave (wrote at bytes.now true) (Through end is_synced) disk.old (Held x.0 x.1) disk.new)) }
    ensures stays { Stays D.seen D.may_leave (Through end is_synced) disk.old (Through end is_synced) disk.new }
    ensures cause { HasCause (D.faults disk.old) (D.faults disk.new) result }
{
    let End::Closed(gate) = end else {
        return Ok(None);
    };
    if !is_synced || gate == 0 || at == 0 || at - 1 != gate {
        return Ok(None);
    }
    law_may_stay(disk);
    if disk.len()? != at {
        return Ok(None);
    }
    match block_in(alloc, bytes)? {
        Some(block) => Ok(Some((gate, block))),
        None => Ok(None),
    }
}

// A write while no block is under way.
fn write_through_or_hold<D: Disk>(
    alloc: Global,
    disk: &mut D,
    end: End,
    is_synced: bool,
    at: usize,
    bytes: &[u8],
) -> (Stage, Result<()>)
    requires { HasPlace D.seen D.may_leave at (Through end is_synced) disk.old }
    ensures goes_on { GoesOn D.seen D.may_leave (wrote at bytes.now (is_ok result.1)) (Through end is_synced) disk.old result.0 disk.new }
    ensures rests { OnErr result.1 (IsAtRest result.0) }
    ensures answered { OnOk result.1 (IsOver result.0 → ⊥) }
    ensures cause { HasCause (D.faults disk.old) (D.faults disk.new) result.1 }
{
    match held_back(alloc, disk, end, is_synced, at, bytes) {
        Ok(Some((gate, block))) => (Stage::Held(gate, block), Ok(())),
        Ok(None) => write_on(alloc, disk, end, is_synced, at, bytes),
        Err(e) => (Stage::Through(end, is_synced), Err(e)),
    }
}

// A write of anything but what opens the gate of a block that is held back.
fn write_settled<D: Disk>(
    alloc: Global,
    disk: &mut D,
    stage: Stage,
    refused: &mut u64,
    at: usize,
    bytes: &[u8],
) -> (Stage, Result<()>)
    requires { HasPlace D.seen D.may_leave at stage disk.old }
    ensures over { IsOver stage → (result ≡ (stage, Err (told_as refused.old false))) × (disk.new ≡ disk.old) }
    ensures goes_on { GoesOn D.seen D.may_leave (wrote at bytes.now (is_ok result.1)) stage disk.old result.0 disk.new }
    ensures rests { OnErr result.1 (IsAtRest result.0) }
    ensures answered { OnOk result.1 (IsOver result.0 → ⊥) }
    ensures cause { HasCause (D.faults disk.old + refused.old) (D.faults disk.new + refused.new) result.1 }
{
    match settle(disk, stage, refused) {
        Ok((end, is_synced)) => write_through_or_hold(alloc, disk, end, is_synced, at, bytes),
        Err((over, e)) => (over, Err(e)),
    }
}

/// Writes.
pub fn put<D: Disk>(
    alloc: Global,
    disk: &mut D,
    stage: Stage,
    refused: &mut u64,
    at: usize,
    bytes: &[u8],
) -> (Stage, Result<()>)
    requires { HasPlace D.seen D.may_leave at stage disk.old }
    ensures over { IsOver stage → (result ≡ (stage, Err (told_as refused.old false))) × (disk.new ≡ disk.old) }
    ensures goes_on { GoesOn D.seen D.may_leave (wrote at bytes.now (is_ok result.1)) stage disk.old result.0 disk.new }
    ensures rests { OnErr result.1 (IsAtRest result.0) }
    ensures answered { OnOk result.1 (IsOver result.0 → ⊥) }
    ensures cause { HasCause (D.faults disk.old + refused.old) (D.faults disk.new + refused.new) result.1 }
{
    match stage {
        Stage::Held(gate, block) if is_opening(gate, at, bytes) => open_gate(disk, gate, block),
        stage => write_settled(alloc, disk, stage, refused, at, bytes),
    }
}

/// Cuts.
pub fn shorten<D: Disk>(
    disk: &mut D,
    stage: Stage,
    refused: &mut u64,
    len: usize,
) -> (Stage, Result<()>)
    requires { HasPlace D.seen D.may_leave len stage disk.old }
    ensures over { IsOver stage → (result ≡ (stage, Err (told_as refused.old false))) × (disk.new ≡ disk.old) }
    ensures goes_on { GoesOn D.seen D.may_leave (cut len (is_ok result.1)) stage disk.old result.0 disk.new }
    ensures stops { OnErr result.1 (IsOver result.0) }
    ensures answered { OnOk result.1 (IsOver result.0 → ⊥) }
    ensures cause { HasCause (D.faults disk.old + refused.old) (D.faults disk.new + refused.new) result.1 }
{
    match settle(disk, stage, refused) {
        Ok((end, _)) => match disk.cut(len) {
            Ok(()) => (Stage::Through(end_cut(end, len), false), Ok(())),
            Err(e) => (Stage::Stopped, Err(e)),
        },
        Err((over, e)) => (over, Err(e)),
    }
}

// Hands a sync on.
fn sync_on<D: Disk>(disk: &mut D, end: End, is_synced: bool) -> (Stage, Result<()>)
    requires { IsStanding D.seen D.may_leave (Through end is_synced) disk.old }
    ensures goes_on { GoesOn D.seen D.may_leave (was_synced (is_ok result.1)) (Through end is_synced) disk.old result.0 disk.new }
    ensures stops { OnErr result.1 (IsOver result.0) }
    ensures answered { OnOk result.1 (IsOver result.0 → ⊥) }
    ensures cause { HasCause (D.faults disk.old) (D.faults disk.new) result.1 }
{
    match disk.sync() {
        Ok(()) => (Stage::Through(end, true), Ok(())),
        Err(e) => (Stage::Stopped, Err(e)),
    }
}

/// Brings all to the disk, but a block that is held back: for that there is a sync later.
pub fn bring<D: Disk>(disk: &mut D, stage: Stage, refused: &mut u64) -> (Stage, Result<()>)
    requires { IsStanding D.seen D.may_leave stage disk.old }
    ensures over { IsOver stage → (result ≡ (stage, Err (told_as refused.old false))) × (disk.new ≡ disk.old) }
    ensures goes_on { GoesOn D.seen D.may_leave (was_synced (is_ok result.1)) stage disk.old result.0 disk.new }
    ensures stops { OnErr result.1 (IsOver result.0) }
    ensures answered { OnOk result.1 (IsOver result.0 → ⊥) }
    ensures cause { HasCause (D.faults disk.old + refused.old) (D.faults disk.new + refused.new) result.1 }
{
    match stage {
        Stage::Through(end, is_synced) => sync_on(disk, end, is_synced),
        Stage::Held(gate, block) => (Stage::Held(gate, block), Ok(())),
        Stage::Opened(gate, block) => match sync_opened(disk, gate, block) {
            Ok(end) => (Stage::Through(end, true), Ok(())),
            Err((over, e)) => (over, Err(e)),
        },
        over => (over, Err(fault(refused))),
    }
}
