//! What holds of the files of all stores. The functions do nothing: each has a law as its contract.
ghost use Rattle.sled_files.specs.Laws.{FlushLasts, FlushEnds, NewStoreLasts, OpenedGoesOn, OpensAgain};

/// Does nothing. While what is pending of a store is added to its files, they are right for the store, with it and without it.
pub fn law_flush_lasts()
    ensures { FlushLasts }
{}

/// Does nothing. Once it is added, nothing is pending of the flushed store.
pub fn law_flush_ends()
    ensures { FlushEnds }
{}

/// Does nothing. While the first file of a new store is begun, a crash leaves files of a store that is still to be made, or the new one.
#[tactic(auto, using(crate::proofs::Beginning::new_store_lasts))]
pub fn law_new_store_lasts()
    ensures { NewStoreLasts }
{}

/// Does nothing. A store that is opened of files that are right for one, as a crash leaves them, goes on from it.
///
/// ```
/// law_opened_goes_on(); // From here on a proof knows what an opening after a crash finds.
/// ```
pub fn law_opened_goes_on()
    ensures { OpenedGoesOn }
{}

/// Does nothing. Files that are right for a store, as a crash leaves them, are opened: `FilePages::open` refuses them for want of memory
/// or as a disk refused a call, and for nothing else.
///
/// ```
/// law_opens_again(); // From here on a proof knows that what a crash left is no `NotAStore`, `OtherFormat` or `Decayed`.
/// ```
pub fn law_opens_again()
    ensures { OpensAgain }
{}
