//! Two disks are opened as the files of a store.
ghost use Rattle.std.specs.Prelude.{◌≡◌, ◌+◌, ◌<◌, ℕ, List, length, IfOk, IfErr, OnOk};
ghost use Rattle.sled_disk.specs.Disk.{Only, NoMore, LeavesOnly, is_caused};
ghost use Rattle.sled_pages.specs.Memory.{store_of, empty_store};
ghost use Rattle.sled_files.specs.Change.{nothing_yet};
ghost use Rattle.sled_files.specs.Standing.{IsBlank, IsBegun};
ghost use Rattle.sled_files.specs.Files.{picked, faults_in, IsReady, GrowsTo};
ghost use Rattle.sled_files.specs.theory.Found.{AreReadOrLent};
ghost use Rattle.sled_files.specs.theory.Chosen.{IsOpened};
ghost use Rattle.sled_files.specs.theory.Reopened.{Opens, OpensStore};
ghost use Rattle.sled_files.specs.Opening.{LeavesWhileOpened, StayAsTheyWere, AreSeenAsBefore, is_counted, is_why_closed, is_refusal};

use crate::begin::begin_file;
use crate::found::OpenError;
use crate::opening::{Opened, open_bytes};
use crate::replay::Made;
use crate::two_files::TwoFiles;
use sled_disk::{Disk, DiskError, law_counts_now, law_only_now};
use sled_log::read_all;
use sled_pages::MemPages;
use std::alloc::Global;

// The generation of a store's first file.
const FIRST: u64 = 1;

/// Why two disks were not opened as a store, and the two disks.
///
/// ```
/// if let Err(refused) = FilePages::open(alloc, first, second) {
///     let error = refused.error;
///     drop(refused); // Or its `first` and `second` are opened again.
/// }
/// ```
#[derive(Drop)]
pub struct NotOpened<D: Disk> {
    /// Why they were not opened.
    pub error: OpenError,
    /// The first disk.
    pub first: D,
    /// The second disk.
    pub second: D,
}

// A refusal of a disk.
fn refusal_of(e: DiskError) -> OpenError
    ensures refusal { is_refusal result }
    ensures counted { (before now : ℕ) → is_caused before now e → is_counted before now result }
{
    match e {
        DiskError::NoMemory => OpenError::NoMemory,
        e => OpenError::Disk(e),
    }
}

// Brings all of a file to the disk, and reads it if the disk does not lend what it has.
fn settle<D: Disk>(alloc: Global, disk: &mut D) -> Result<Option<Vec<u8>>, OpenError>
    ensures bytes { IfOk result (λ read. AreReadOrLent read (D.lends disk.new) (D.seen disk.new)) }
    ensures seen { D.seen disk.new ≡ D.seen disk.old }
    ensures durable { IfOk result (λ _. Only (D.seen disk.new) (D.may_leave disk.new)) }
    ensures crash { NoMore (D.may_leave disk.old) (D.may_leave disk.new) }
    ensures any_moment { LeavesOnly D.moment D.left_since disk.old disk.new (D.may_leave disk.old) }
    ensures calm { IfOk result (λ _. D.faults disk.new ≡ D.faults disk.old) }
    ensures cause { IfErr result (is_counted (D.faults disk.old) (D.faults disk.new)) }
    ensures err { IfErr result is_refusal }
{
    law_only_now(disk);
    if let Err(e) = disk.sync() {
        return Err(refusal_of(e));
    }
    if disk.lent().is_some() {
        return Ok(None);
    }
    match read_all(disk, alloc) {
        Ok(bytes) => Ok(Some(bytes)),
        Err(e) => Err(refusal_of(e)),
    }
}

// Brings all of both files to the disks, and reads what they do not lend.
fn settle_both<D: Disk>(
    alloc: Global,
    first: &mut D,
    second: &mut D,
) -> Result<(Option<Vec<u8>>, Option<Vec<u8>>), OpenError>
    ensures first_bytes { IfOk result (λ read. AreReadOrLent read.0 (D.lends first.new) (D.seen first.new)) }
    ensures second_bytes { IfOk result (λ read. AreReadOrLent read.1 (D.lends second.new) (D.seen second.new)) }
    ensures first_seen { D.seen first.new ≡ D.seen first.old }
    ensures second_seen { D.seen second.new ≡ D.seen second.old }
    ensures stay { OnOk result (StayAsTheyWere D.seen D.may_leave first.old second.old first.new second.new) }
    ensures first_run { LeavesOnly D.moment D.left_since first.old first.new (D.may_leave first.old) }
    ensures second_run { LeavesOnly D.moment D.left_since second.old second.new (D.may_leave second.old) }
    ensures first_crash { NoMore (D.may_leave first.old) (D.may_leave first.new) }
    ensures second_crash { NoMore (D.may_leave second.old) (D.may_leave second.new) }
    ensures calm { OnOk result (D.faults first.new + D.faults second.new ≡ D.faults first.old + D.faults second.old) }
    ensures cause { IfErr result (is_counted (D.faults first.old + D.faults second.old) (D.faults first.new + D.faults second.new)) }
    ensures err { IfErr result is_refusal }
{
    law_only_now(second);
    let first_read = match settle(alloc, first) {
        Ok(bytes) => bytes,
        Err(e) => return Err(e),
    };
    match settle(alloc, second) {
        Ok(second_read) => Ok((first_read, second_read)),
        Err(e) => {
            drop(first_read);
            Err(e)
        }
    }
}

// All bytes of a file, of which these were read if the disk does not lend them.
fn bytes_in<'a, D: Disk>(disk: &'a D, read: &'a Option<Vec<u8>>) -> &'a [u8]
    requires { AreReadOrLent read.now (D.lends disk.now) (D.seen disk.now) }
    ensures { result.now ≡ D.seen disk.now }
{
    match read {
        Some(bytes) => bytes.as_slice(),
        None => match disk.lent() {
            Some(bytes) => bytes,
            None => &[],
        },
    }
}

// Begins a store in two blank files.
fn begin<D: Disk>(
    alloc: Global,
    mut first: D,
    second: D,
) -> Result<(TwoFiles<D>, Made), NotOpened<D>>
    requires first_only { Only (D.seen first) (D.may_leave first) }
    requires second_only { Only (D.seen second) (D.may_leave second) }
    requires blank { IsBlank (D.seen second) }
    ensures ready { IfOk result (λ x. IsReady D.seen D.may_leave x.0 nothing_yet) }
    ensures empty { IfOk result (λ x. (store_of x.1.pages ≡ empty_store) × (x.1.pids ≡ 0) × (x.1.versions ≡ 0)) }
    ensures first { IfOk result (λ x. LeavesOnly D.moment D.left_since first x.0.first (IsBegun (D.seen first) 1 nothing_yet)) }
    ensures first_now { IfOk result (λ x. (c : List ℕ) → D.may_leave x.0.first c → IsBegun (D.seen first) 1 nothing_yet c) }
    ensures grown { IfOk result (λ x. GrowsTo x.0.gate (D.seen first) (D.seen x.0.first)) }
    ensures second { IfOk result (λ x. x.0.second ≡ second) }
    ensures calm { IfOk result (λ x. D.faults x.0.first ≡ D.faults first) }
    ensures refused { IfErr result (λ x. LeavesOnly D.moment D.left_since first x.first (IsBegun (D.seen first) 1 nothing_yet)) }
    ensures refused_now { IfErr result (λ x. (c : List ℕ) → D.may_leave x.first c → IsBegun (D.seen first) 1 nothing_yet c) }
    ensures kept { IfErr result (λ x. x.second ≡ second) }
    ensures cause { IfErr result (λ x. is_counted (D.faults first) (D.faults x.first) x.error) }
    ensures err { IfErr result (λ x. is_refusal x.error) }
{
    let begun = begin_file(alloc, &mut first, FIRST, &[]);
    law_counts_now(&first);
    match begun {
        Ok(gate) => Ok((
            TwoFiles::new(alloc, first, second, false, gate, 0, FIRST),
            Made {
                pages: MemPages::new(alloc),
                pids: 0,
                versions: 0,
            },
        )),
        Err(e) => Err(NotOpened {
            error: refusal_of(e),
            first,
            second,
        }),
    }
}

// The files of a store that was opened.
fn files_of<D: Disk>(alloc: Global, first: D, second: D, opened: Opened) -> (TwoFiles<D>, Made)
    requires first_only { Only (D.seen first) (D.may_leave first) }
    requires second_only { Only (D.seen second) (D.may_leave second) }
    requires opened { IsOpened (D.seen first) (D.seen second) opened.is_second opened.gate opened.snapshot opened.generation opened.store }
    ensures opens { OpensStore D.seen D.may_leave (D.seen first) (D.seen second) result.0 result.1 }
    ensures first { result.0.first ≡ first }
    ensures second { result.0.second ≡ second }
{
    let Opened {
        is_second,
        gate,
        snapshot,
        generation,
        store,
    } = opened;
    (
        TwoFiles::new(alloc, first, second, is_second, gate, snapshot, generation),
        store,
    )
}

/// Opens two disks as the files of a store: the store that they stand for, or a new one if both are blank. Refused if they stand for none,
/// for want of memory, or by a disk.
pub fn open_files<D: Disk>(
    alloc: Global,
    first: D,
    second: D,
) -> Result<(TwoFiles<D>, Made), NotOpened<D>>
    ensures ok { IfOk result (λ x. Opens D.seen D.may_leave (D.seen first) (D.seen second) x.0 x.1) }
    ensures any_moment { IfOk result (λ x. LeavesWhileOpened D.seen D.moment D.left_since D.may_leave first second x.0.first x.0.second) }
    ensures calm { IfOk result (λ x. faults_in D.faults x.0 ≡ D.faults first + D.faults second) }
    ensures err { IfErr result (λ x. is_why_closed x.error (D.seen first) (D.seen second)) }
    ensures refused { IfErr result (λ x. LeavesWhileOpened D.seen D.moment D.left_since D.may_leave first second x.first x.second) }
    ensures seen { IfErr result (λ x. AreSeenAsBefore D.seen first second x.first x.second) }
    ensures stay { IfErr result (λ x. (is_refusal x.error → ⊥) → StayAsTheyWere D.seen D.may_leave first second x.first x.second) }
    ensures cause { IfErr result (λ x. is_counted (D.faults first + D.faults second) (D.faults x.first + D.faults x.second) x.error) }
{
    let mut first = first;
    let mut second = second;
    let (first_read, second_read) = match settle_both(alloc, &mut first, &mut second) {
        Ok(read) => read,
        Err(error) => {
            return Err(NotOpened {
                error,
                first,
                second,
            });
        }
    };
    let opened = open_bytes(
        alloc,
        bytes_in(&first, &first_read),
        bytes_in(&second, &second_read),
    );
    drop(first_read);
    drop(second_read);
    match opened {
        Ok(Some(opened)) => Ok(files_of(alloc, first, second, opened)),
        Ok(None) => match begin(alloc, first, second) {
            Ok(begun) => Ok(begun),
            Err(refused) => Err(refused),
        },
        Err(error) => Err(NotOpened {
            error,
            first,
            second,
        }),
    }
}
