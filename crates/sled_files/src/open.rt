//! A store is opened in two files.
ghost use Rattle.std.specs.Prelude.{◌≡◌, ◌+◌, ℕ, List, IfOk, IfErr};
ghost use Rattle.sled_store.specs.Store.{Store};
ghost use Rattle.sled_pages.specs.Memory.{empty_store};
ghost use Rattle.sled_files.specs.Change.{Durable, nothing_yet};
ghost use Rattle.sled_files.specs.Standing.{AreFor, AreBlank};
ghost use Rattle.sled_files.specs.declared.found.OpenError.{OpenError};
ghost use Rattle.sled_files.specs.Flaws.{is_flaw};
ghost use Rattle.sled_files.specs.Files.{IsReady, faults_in};
ghost use Rattle.sled_files.specs.Lasting.{Limits, AreLimits, IsLasting, EachPair};
ghost use Rattle.sled_files.specs.Opening.{IsReopened, OpensTo, AreOpenable, IsTold, LeavesWhileOpened, StayAsTheyWere, AreSeenAsBefore, IsFresh, is_counted, is_why_closed, is_refusal};

use crate::file_pages::FilePages;
use crate::files::{NotOpened, open_files};
use crate::replay::Made;
use sled_disk::{Disk, law_may_stay};
use std::alloc::Global;

impl<D: Disk> FilePages<D> {
    ghost use Rattle.sled_files.specs.Stored.{stored_as};

    /// Opens a store in two files: the one that they stand for, as a crash or a drop left it, or a new one if both are blank. What the
    /// files have is synced first. Refused if they are not a store's (`NotAStore`, `OtherFormat`, `Decayed`), for want of memory, or by a
    /// disk. Then the disks are handed back: a read returns what it did, and a crash leaves what it might have left before. If both were
    /// blank, the first may have a part of a new store.
    ///
    /// ```
    /// match FilePages::open(alloc, first, second) {
    ///     Ok(store) => drop(store),         // It can be opened again.
    ///     Err(refused) => drop(refused),    // `refused.first` and `refused.second` are the disks.
    /// }
    /// ```
    pub fn open(alloc: Global, first: D, second: D) -> Result<FilePages<D>, NotOpened<D>>
        // Of what files stand for, they stand for nothing else.
        ensures recovers { IfOk result (λ f. (d : Durable) → AreFor (D.seen first) (D.seen second) d → IsReady D.seen D.may_leave f.files d × IsReopened d (stored_as f)) }
        ensures begins { IfOk result (λ f. AreBlank (D.seen first) (D.seen second) → IsReady D.seen D.may_leave f.files nothing_yet × (stored_as f ≡ empty_store)) }
        // It is one of the two.
        ensures opens { IfOk result (λ f. OpensTo D.seen D.may_leave (D.seen first) (D.seen second) f.files (stored_as f)) }
        // The limits are those of the files, and nothing was asked of it yet.
        ensures limits { IfOk result (λ f. (d : Durable) → AreFor (D.seen first) (D.seen second) d → AreLimits f.limits d) }
        ensures fresh { IfOk result IsFresh }
        // A crash meanwhile leaves what it might have left before, or a new store while it is begun.
        ensures any_moment { IfOk result (λ f. LeavesWhileOpened D.seen D.moment D.left_since D.may_leave first second f.files.first f.files.second) }
        // So of files that are right for a store, whatever is left of them, it leaves files that are.
        ensures lasts { IfOk result (λ f. (asked : List ℕ) (limits : Limits) (s : Store) → EachPair (D.may_leave first) (D.may_leave second) (IsLasting asked limits s) → EachPair (D.left_since f.files.first (D.moment first)) (D.left_since f.files.second (D.moment second)) (IsLasting asked limits s)) }
        ensures calm { IfOk result (λ f. faults_in D.faults f.files ≡ D.faults first + D.faults second) }
        ensures err { IfErr result (λ x. is_why_closed x.error (D.seen first) (D.seen second)) }
        // And if something is wrong with them, the error says it, unless a disk refuses a call or there is no memory.
        ensures sound { IfOk result (λ _. (e : OpenError) → is_flaw e (D.seen first) (D.seen second) → ⊥) }
        ensures told { IfErr result (λ x. (e : OpenError) → is_flaw e (D.seen first) (D.seen second) → IsTold e x.error) }
        // If they stand for a store, or for one that is still to be made, it is refused for want of memory or by a disk alone.
        ensures refused { IfErr result (λ x. AreOpenable (D.seen first) (D.seen second) → is_refusal x.error) }
        // A disk's refusal is counted, and no other.
        ensures cause { IfErr result (λ x. is_counted (D.faults first + D.faults second) (D.faults x.first + D.faults x.second) x.error) }
        // Whatever refuses it, the disks have what they had, but for what begins a store in two blank files.
        ensures seen { IfErr result (λ x. AreSeenAsBefore D.seen first second x.first x.second) }
        // Refused for another cause, the disks have what they had, and nothing was written.
        ensures stay { IfErr result (λ x. (is_refusal x.error → ⊥) → StayAsTheyWere D.seen D.may_leave first second x.first x.second) }
        // A crash meanwhile, and from then on, leaves what it might have left before, or what begins a new store in two blank files.
        ensures left { IfErr result (λ x. LeavesWhileOpened D.seen D.moment D.left_since D.may_leave first second x.first x.second) }
        // So of files that are right for a store it leaves files that are.
        ensures keeps { IfErr result (λ x. (asked : List ℕ) (limits : Limits) (s : Store) → EachPair (D.may_leave first) (D.may_leave second) (IsLasting asked limits s) → EachPair (D.may_leave x.first) (D.may_leave x.second) (IsLasting asked limits s)) }
    {
        law_may_stay(&first);
        law_may_stay(&second);
        match open_files(alloc, first, second) {
            Ok((files, store)) => {
                let Made {
                    pages,
                    pids,
                    versions,
                } = store;
                Ok(FilePages::new(alloc, pages, files, pids, versions))
            }
            Err(refused) => Err(refused),
        }
    }
}
