//! The examples that are run over crashes and refusals.
use crate::cases::{Case, run_last};
use crate::fresh::Fresh;
use crate::seen::Seen;
use crate::transfers::left_by_transfer;
use crate::trial::run;
use example_databases::{open_stock, recover_stock};
use example_transactions::recover;
use sled::empty_pages;
use sled_nodes::Result;
use std::alloc::Global;

/// What changes a database, and what should be so after a crash.
#[derive(Clone, Copy)]
pub struct Example {
    pub change: Case,
    pub look: Case,
}

/// A table and its index agree.
pub const STOCK: Example = Example {
    change: Case::Moves,
    look: Case::AreAsMany,
};

/// Users and the index of their addresses agree.
pub const USERS: Example = Example {
    change: Case::Gives,
    look: Case::AreInStep,
};

/// No job is lost, or in both trees.
pub const JOBS: Example = Example {
    change: Case::TakeBoth,
    look: Case::AreInOne,
};

/// The sum of two counters is the same after two transfers.
pub const TRANSFERS: Example = Example {
    change: Case::PayTwice,
    look: Case::ComeToHundred,
};

/// .. and after one, by the call that makes the crash too.
pub const ONE_TRANSFER: Example = Example {
    change: Case::FillTill,
    look: Case::ComeToHundred,
};

impl Example {
    // Whether something has to be there before there is anything to see.
    fn has_to_begin(self) -> bool {
        matches!(
            self.change,
            Case::TakeBoth | Case::PayTwice | Case::FillTill
        )
    }

    // What a crash leaves that keeps so many actions.
    fn left(self, alloc: Global, db: Fresh, keep: usize) -> Result<Fresh> {
        match self.change {
            Case::Moves | Case::Load => recover_stock(alloc, db, b"shop", keep),
            Case::FillTill => left_by_transfer(alloc, db, keep),
            _ => recover(alloc, db, b"shop", keep),
        }
    }

    // What is seen in this database after the changes and a crash that keeps so many actions. What had to begin may have failed if a call of
    // the store was refused.
    fn seen_in(self, alloc: Global, db: Fresh, refused: u64, keep: usize) -> Seen {
        let (seen, db) = run(db, self.change);
        if self.has_to_begin() && !seen.is_yes() {
            drop(db.into_pages());
            return if refused == 0 { seen } else { Seen::Yes };
        }
        match self.left(alloc, db, keep) {
            Ok(left) => run_last(left, self.look),
            Err(e) => Seen::refused(e),
        }
    }

    // What is seen after changes of which the store refuses one call, and a crash that keeps so many actions.
    fn seen_after(self, alloc: Global, refused: u64, keep: usize) -> Seen {
        let mut pages = empty_pages(alloc);
        if let Err(e) = pages.refuse_at(&[refused]) {
            drop(pages);
            return Seen::refused(e);
        }
        match open_stock(alloc, pages, b"shop") {
            Ok(db) => self.seen_in(alloc, db, refused, keep),
            Err(e) => Seen::refused(e),
        }
    }
}

// No changes take so many calls of the store.
const CALLS: u64 = 60;

/// What is seen of an example after each of these crashes.
pub fn after_crashes(alloc: Global, example: Example) -> Seen {
    let mut seen = Seen::Yes;
    for number in 0..CALLS {
        seen = seen.and(example.seen_after(alloc, 0, number as usize));
    }
    seen
}

/// .. and after each of these refusals. An opening makes three calls of an empty store.
pub fn throughout(alloc: Global, example: Example) -> Seen {
    let mut seen = after_crashes(alloc, example);
    for number in 0..CALLS {
        seen = seen.and(example.seen_after(alloc, number + 4, usize::MAX));
    }
    seen
}

// Whether a crash that keeps so many actions of a load leaves so many pairs.
fn leaves(alloc: Global, keep: usize, count: usize) -> Seen {
    let example = Example {
        change: Case::Load,
        look: Case::AreLoaded(count),
    };
    example.seen_after(alloc, 0, keep)
}

/// Whether a crash leaves whole batches alone: none, one, two, or all three.
pub fn leaves_batches(alloc: Global) -> Seen {
    let few = leaves(alloc, 90, 0).and(leaves(alloc, 200, 100));
    few.and(leaves(alloc, 320, 200))
        .and(leaves(alloc, 1_000, 250))
}
