//! What the examples are run for.
use crate::batches::{are_loaded, load_all};
use crate::copies::copies_all;
use crate::counters::counts;
use crate::endings::{begins_anew, follows};
use crate::events::reads_events;
use crate::fresh::{Fresh, opened};
use crate::index::finds_entries;
use crate::jobs::{are_in_one, take_both, takes};
use crate::ranges::keeps_outside;
use crate::seen::Seen;
use crate::stock::moves;
use crate::transfers::{come_to_hundred, fill_till, pay_twice, pays};
use crate::trial::{Trial, run};
use crate::typed::reads_readings;
use crate::users::{are_in_step, gives};
use std::alloc::Global;

/// What is done with the two trees of a database at a time. First are the cases of a new one, then those that only change it before a
/// crash, and then those that only see whether it is as it should be after one.
#[derive(Clone, Copy)]
pub enum Case {
    FindsEntries,
    ReadsReadings,
    Counts,
    CopiesAll,
    ReadsEvents,
    Follows,
    BeginsAnew,
    Moves,
    KeepsOutside,
    Gives,
    Pays,
    Takes,
    Load,
    TakeBoth,
    PayTwice,
    FillTill,
    AreAsMany,
    AreLoaded(usize),
    AreInStep,
    AreInOne,
    ComeToHundred,
}

impl Case {
    pub fn run(self, trial: &mut Trial) {
        match self {
            Case::FindsEntries => finds_entries(trial),
            Case::ReadsReadings => reads_readings(trial),
            Case::Counts => counts(trial),
            Case::CopiesAll => copies_all(trial),
            Case::ReadsEvents => reads_events(trial),
            Case::Follows => follows(trial),
            Case::BeginsAnew => begins_anew(trial),
            Case::Moves => moves(trial),
            Case::KeepsOutside => keeps_outside(trial),
            Case::Gives => gives(trial),
            Case::Pays => pays(trial),
            Case::Takes => takes(trial),
            Case::Load => load_all(trial),
            Case::TakeBoth => take_both(trial),
            Case::PayTwice => pay_twice(trial),
            Case::FillTill => fill_till(trial),
            Case::AreAsMany => trial.are_as_many(),
            Case::AreLoaded(count) => are_loaded(trial, count),
            Case::AreInStep => are_in_step(trial),
            Case::AreInOne => are_in_one(trial),
            Case::ComeToHundred => come_to_hundred(trial),
        }
    }
}

/// What is seen of a database, the last of it.
pub fn run_last(db: Fresh, case: Case) -> Seen {
    let (seen, db) = run(db, case);
    drop(db.into_pages());
    seen
}

/// What is seen of a case in a new database.
pub fn seen_of(alloc: Global, case: Case) -> Seen {
    match opened(alloc, b"shop") {
        Ok(db) => run_last(db, case),
        Err(e) => Seen::refused(e),
    }
}
