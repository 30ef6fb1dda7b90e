//! A store is opened in two files whose blocks are brought to the disk in one sync.
ghost use Rattle.std.specs.Prelude.{◌≡◌, ◌⊎◌, ◌+◌, ℕ, false, List, IfOk, IfErr, OnOk};
ghost use Rattle.sled_store.specs.Store.{Store};
ghost use Rattle.sled_disk.specs.Disk.{Only, NoMore, LeavesOnly, HasCause};
ghost use Rattle.sled_pages.specs.Memory.{empty_store};
ghost use Rattle.sled_files.specs.Change.{Durable};
ghost use Rattle.sled_files.specs.Standing.{AreFor, AreBlank};
ghost use Rattle.sled_files.specs.Lasting.{Limits, AreLimits};
ghost use Rattle.sled_files.specs.Laws.{GoesOn};
ghost use Rattle.sled_files.specs.Opening.{IsReopened, OpensTo, AreOpenable, IsTold, IsFresh, StayAsTheyWere, is_refusal, is_why_closed};
ghost use Rattle.sled_files.specs.Flaws.{is_flaw};
ghost use Rattle.sled_files.specs.declared.found.OpenError.{OpenError};
ghost use Rattle.sled_files.specs.Stored.{stored_as};
ghost use Rattle.sled_once.specs.Once.{bytes_of, outcomes_of};
ghost use Rattle.sled_once.specs.Stages.{LeavesReadAs};
ghost use Rattle.files_once.specs.Mended.{IsMended, StayMended, LeftMeanwhile, LeftOrBegun};
ghost use Rattle.files_once.specs.Lasting.{AreReadFor, AreReadLasting, LastsAsRead, MendedLasts, OpensMended, IsWhyUnmended};

use crate::mending::mend_store;
use sled_disk::{Disk, DiskError, law_counts_now, law_may_stay, law_only_now};
use sled_files::{FilePages, NotOpened, OpenError, law_lasts, law_opened_goes_on};
use sled_once::{OneSync, law_read_as_left};
use std::alloc::Global;

// A refusal of a disk.
fn refusal_of(e: DiskError) -> OpenError
    ensures { is_refusal result }
{
    match e {
        DiskError::NoMemory => OpenError::NoMemory,
        e => OpenError::Disk(e),
    }
}

/// Mends both files of a store as `mend_store` does one, and says whether one was changed. All of both is on the disk then.
///
/// ```
/// let were_torn = mend_both(alloc, &mut first, &mut second)?;
/// ```
pub fn mend_both<D: Disk>(alloc: Global, first: &mut D, second: &mut D) -> sled_disk::Result<bool>
    ensures first { OnOk result (IsMended (D.seen first.old) (D.seen first.new)) }
    ensures second { OnOk result (IsMended (D.seen second.old) (D.seen second.new)) }
    ensures same { IfOk result (λ is. is ≡ false → (D.seen first.new ≡ D.seen first.old) × (D.seen second.new ≡ D.seen second.old)) }
    ensures first_durable { OnOk result (Only (D.seen first.new) (D.may_leave first.new)) }
    ensures second_durable { OnOk result (Only (D.seen second.new) (D.may_leave second.new)) }
    // A crash at any moment of the call leaves of each what it might have left before, or a file that is read as it was.
    ensures first_any_moment { LeavesOnly D.moment D.left_since first.old first.new (LeftMeanwhile (D.may_leave first.old) (D.seen first.old)) }
    ensures second_any_moment { LeavesOnly D.moment D.left_since second.old second.new (LeftMeanwhile (D.may_leave second.old) (D.seen second.old)) }
    ensures cause { HasCause (D.faults first.old + D.faults second.old) (D.faults first.new + D.faults second.new) result }
{
    law_only_now(second);
    let is_first = mend_store(alloc, first)?;
    let is_second = mend_store(alloc, second)?;
    Ok(is_first || is_second)
}

// Why an opening is refused that was refused for one error, and then by a disk: the first, unless it tells what is wrong with the files.
fn refusal_then(error: OpenError, e: DiskError) -> OpenError
    ensures is { is_refusal result }
    ensures first { is_refusal error → result ≡ error }
{
    match error {
        OpenError::NoMemory => OpenError::NoMemory,
        OpenError::Disk(DiskError::Full) => OpenError::Disk(DiskError::Full),
        OpenError::Disk(DiskError::Failed) => OpenError::Disk(DiskError::Failed),
        _ => refusal_of(e),
    }
}

// The disk behind a `OneSync`, of which nothing is held back, once an opening was refused, and why it was.
fn handed_back<D: Disk>(once: OneSync<D>, error: OpenError) -> (D, OpenError)
    ensures told { (result.1 ≡ error) ⊎ is_refusal result.1 }
    ensures first { is_refusal error → result.1 ≡ error }
    ensures seen { (is_refusal result.1 → ⊥) → D.seen result.0 ≡ bytes_of once }
    ensures left { (is_refusal result.1 → ⊥) → NoMore (outcomes_of once) (D.may_leave result.0) }
    ensures read { LeavesReadAs (outcomes_of once) (D.may_leave result.0) }
{
    match once.into_settled() {
        Ok(disk) => (disk, error),
        Err((disk, e)) => (disk, refusal_then(error, e)),
    }
}

// Puts a `OneSync` in front of each of two disks.
fn both_once<D: Disk>(
    alloc: Global,
    first: D,
    second: D,
) -> Result<(OneSync<D>, OneSync<D>), NotOpened<D>>
    ensures first { IfOk result (λ x. bytes_of x.0 ≡ D.seen first) }
    ensures second { IfOk result (λ x. bytes_of x.1 ≡ D.seen second) }
    ensures first_only { IfOk result (λ x. Only (D.seen first) (outcomes_of x.0)) }
    ensures second_only { IfOk result (λ x. Only (D.seen second) (outcomes_of x.1)) }
    ensures err { IfErr result (λ x. is_refusal x.error) }
    ensures first_left { IfErr result (λ x. LeavesReadAs (D.may_leave first) (D.may_leave x.first)) }
    ensures second_left { IfErr result (λ x. LeavesReadAs (D.may_leave second) (D.may_leave x.second)) }
{
    law_may_stay(&first);
    let first = match OneSync::new(alloc, first) {
        Ok(first) => first,
        Err((first, e)) => {
            return Err(NotOpened {
                error: refusal_of(e),
                first,
                second,
            });
        }
    };
    match OneSync::new(alloc, second) {
        Ok(second) => Ok((first, second)),
        Err((second, e)) => {
            let (first, error) = handed_back(first, refusal_of(e));
            Err(NotOpened {
                error,
                first,
                second,
            })
        }
    }
}

/// Opens a store in two files that are whole, as `FilePages::open` does, and from then on each block is brought to the disk in one sync. Files
/// of which one is torn are refused as decayed: `open_once` mends them first, and `mend_both` does that alone. Whatever refuses it, both
/// disks come back.
///
/// ```
/// mend_both(alloc, &mut first, &mut second)?;
/// match open_mended(alloc, first, second) {
///     Ok(store) => drop(store),         // A flush syncs once.
///     Err(refused) => drop(refused),    // `refused.first` and `refused.second` are the disks.
/// }
/// ```
pub fn open_mended<D: Disk>(
    alloc: Global,
    first: D,
    second: D,
) -> Result<FilePages<OneSync<D>>, NotOpened<D>>
    ensures opens { IfOk result (λ f. OpensTo bytes_of outcomes_of (D.seen first) (D.seen second) f.files (stored_as f)) }
    // Of what files stand for, they stand for nothing else.
    ensures recovers { IfOk result (λ f. (d : Durable) → AreFor (D.seen first) (D.seen second) d → IsReopened d (stored_as f)) }
    ensures begins { IfOk result (λ f. AreBlank (D.seen first) (D.seen second) → stored_as f ≡ empty_store) }
    // The limits are those of the files, and nothing was asked of it yet.
    ensures limits { IfOk result (λ f. (d : Durable) → AreFor (D.seen first) (D.seen second) d → AreLimits f.limits d) }
    ensures fresh { IfOk result IsFresh }
    ensures err { IfErr result (λ x. is_why_closed x.error (D.seen first) (D.seen second)) }
    // And if something is wrong with them, the error says it, unless a disk refuses a call or there is no memory.
    ensures sound { IfOk result (λ _. (e : OpenError) → is_flaw e (D.seen first) (D.seen second) → ⊥) }
    ensures told { IfErr result (λ x. (e : OpenError) → is_flaw e (D.seen first) (D.seen second) → IsTold e x.error) }
    // If they stand for a store, or for one that is still to be made, it is refused for want of memory or by a disk alone.
    ensures refused { IfErr result (λ x. AreOpenable (D.seen first) (D.seen second) → is_refusal x.error) }
    // Whatever refuses it, a crash leaves of the disks what is read as what it might have left, or what begins a store in two blank files.
    ensures first_left { IfErr result (λ x. LeavesReadAs (LeftOrBegun (D.may_leave first) (D.seen first) (D.seen second)) (D.may_leave x.first)) }
    ensures second_left { IfErr result (λ x. LeavesReadAs (D.may_leave second) (D.may_leave x.second)) }
    // Refused for another cause, the disks have what they had, and nothing was written.
    ensures stay { IfErr result (λ x. (is_refusal x.error → ⊥) → StayAsTheyWere D.seen D.may_leave first second x.first x.second) }
{
    law_may_stay(&first);
    law_may_stay(&second);
    let (first, second) = match both_once(alloc, first, second) {
        Ok(both) => both,
        Err(refused) => return Err(refused),
    };
    match FilePages::open(alloc, first, second) {
        Ok(store) => Ok(store),
        Err(refused) => {
            let NotOpened {
                error,
                first,
                second,
            } = refused;
            let (first, error) = handed_back(first, error);
            let (second, error) = handed_back(second, error);
            Err(NotOpened {
                error,
                first,
                second,
            })
        }
    }
}

/// Opens a store in two files as `FilePages::open` does, and from then on each block is brought to the disk in one sync. What a crash tore is
/// mended first: so a block that was under way, or one that has decayed, ends the log of its file. Files that were written in two syncs are
/// opened too, and what is written in one sync is mended by this call alone: `FilePages::open` takes what is torn for decayed.
///
/// Refused as `FilePages::open` is. As a store's file is mended from its second block on, what is found to be decayed is its first block, its
/// header, changes that no store makes, or a generation that both files have.
///
/// ```
/// match open_once(alloc, first, second) {
///     Ok(store) => drop(store),         // A flush syncs once.
///     Err(refused) => drop(refused),    // `refused.first` and `refused.second` are the disks.
/// }
/// ```
pub fn open_once<D: Disk>(
    alloc: Global,
    first: D,
    second: D,
) -> Result<FilePages<OneSync<D>>, NotOpened<D>>
    // It is opened of the files once they were mended.
    ensures opens { IfOk result (λ f. OpensMended (D.seen first) (D.seen second) f.files (stored_as f)) }
    // Of files that are read as those of a store, it is this store.
    ensures recovers { IfOk result (λ f. (d : Durable) → AreReadFor (D.seen first) (D.seen second) d → IsReopened d (stored_as f)) }
    // So of files that a crash left in one sync it goes on from the store, as after two syncs.
    ensures goes_on { IfOk result (λ f. (asked : List ℕ) (limits : Limits) (s : Store) → AreReadLasting asked limits s (D.seen first) (D.seen second) → GoesOn asked limits s (stored_as f)) }
    ensures begins { IfOk result (λ f. AreBlank (D.seen first) (D.seen second) → stored_as f ≡ empty_store) }
    ensures fresh { IfOk result IsFresh }
    ensures err { IfErr result (λ x. IsWhyUnmended (D.seen first) (D.seen second) x.error) }
    // And it is refused for want of memory or by a disk alone.
    ensures refused { IfErr result (λ x. (d : Durable) → AreReadFor (D.seen first) (D.seen second) d → is_refusal x.error) }
    // Whatever refuses it, a crash leaves of the disks what is read as what it might have left, or what begins a store in two blank files.
    ensures first_left { IfErr result (λ x. LeavesReadAs (LeftOrBegun (D.may_leave first) (D.seen first) (D.seen second)) (D.may_leave x.first)) }
    ensures second_left { IfErr result (λ x. LeavesReadAs (D.may_leave second) (D.may_leave x.second)) }
    // Refused for another cause, both files were mended, which are on the disks, and nothing else was written.
    ensures stay { IfErr result (λ x. (is_refusal x.error → ⊥) → StayMended D.seen D.may_leave first second x.first x.second) }
{
    law_opened_goes_on();
    law_may_stay(&first);
    law_may_stay(&second);
    let mut first = first;
    let mut second = second;
    if let Err(e) = mend_both(alloc, &mut first, &mut second) {
        law_counts_now(&first);
        law_counts_now(&second);
        return Err(NotOpened {
            error: refusal_of(e),
            first,
            second,
        });
    }
    match open_mended(alloc, first, second) {
        Ok(store) => Ok(store),
        Err(refused) => Err(refused),
    }
}

/// Does nothing. It says that, if the digest tells what a crash left of the blocks under way, all that it may leave of the two disks now is read as
/// what is right for the store, as two syncs leave it. `open_once` opens that.
///
/// ```
/// if let Ok(store) = open_once(alloc, first, second) {
///     law_lasts_as_read(&store); // From here on a proof knows what `open_once` finds after a crash.
///     drop(store);
/// }
/// ```
pub fn law_lasts_as_read<D: Disk>(store: &FilePages<OneSync<D>>)
    ensures { LastsAsRead D.may_leave store.now }
{
    law_lasts(store);
    let (first, second) = store.disks();
    law_read_as_left(first);
    law_read_as_left(second);
}

/// Does nothing. It says that what is read as right for a store is right for it once it was mended. `open_mended` opens that.
///
/// ```
/// law_mended_lasts(); // From here on a proof knows what `mend_both` makes of what a crash left.
/// ```
pub fn law_mended_lasts()
    ensures { MendedLasts }
{}
