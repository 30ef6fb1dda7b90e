//! The transfers in `example_transactions`: an amount goes from one counter of the first tree to another, or nothing changes.
use crate::counters::{add, set_operator, stands};
use crate::fresh::Fresh;
use crate::seen::Seen;
use crate::trial::Trial;
use example_databases::{count, open_part};
use example_transactions::{TransferError, transfer, transfer_and_crash};
use sled_nodes::Result;
use std::alloc::Global;

type Paid = std::result::Result<(), TransferError>;

// Makes a transfer from the till. Whether it is made, or aborted for a reason.
fn pay(trial: &mut Trial, to: &str, amount: u64, wanted: Paid) {
    let paid = transfer(&mut trial.db, &trial.first, b"till", to.as_bytes(), amount);
    trial.seen.ended(paid, wanted);
}

// Tests whether the two counters have these numbers.
fn stand(trial: &mut Trial, till: u64, bank: u64) {
    stands(trial, "till", till);
    stands(trial, "bank", bank);
}

/// The till has 100.
pub fn fill_till(trial: &mut Trial) {
    set_operator(trial);
    add(trial, "till", 100);
}

/// Whether an amount goes over, no more than there is, and no counter passes the greatest number.
pub fn pays(trial: &mut Trial) {
    fill_till(trial);
    pay(trial, "bank", 30, Ok(()));
    stand(trial, 70, 30);
    pay(trial, "bank", 71, Err(TransferError::NotEnough));
    pay(trial, "till", 1, Err(TransferError::SameCounter));
    stand(trial, 70, 30);
    add(trial, "bank", u64::MAX - 35);
    pay(trial, "bank", 6, Err(TransferError::TooMuch));
    pay(trial, "bank", 5, Ok(()));
    stand(trial, 65, u64::MAX);
}

/// Two transfers from a till that has 100, whatever becomes of each. No crash takes back that it had them.
pub fn pay_twice(trial: &mut Trial) {
    fill_till(trial);
    if trial.is_settled() {
        pay(trial, "bank", 30, Ok(()));
        pay(trial, "bank", 20, Ok(()));
        trial.seen = Seen::Yes;
    }
}

// The sum of the two counters.
fn sum(trial: &Trial) -> Result<u64> {
    let till = count(&trial.db, &trial.first, b"till")?;
    Ok(till.wrapping_add(count(&trial.db, &trial.first, b"bank")?))
}

/// Whether the sum of the two counters is 100.
pub fn come_to_hundred(trial: &mut Trial) {
    let sum = sum(trial);
    trial.seen.told(sum, 100);
}

/// What is left of a till that has 100 by a transfer and a crash that keeps so many actions.
pub fn left_by_transfer(alloc: Global, db: Fresh, keep: usize) -> Result<Fresh> {
    let mut db = db;
    match open_part(&mut db, b"first") {
        Ok(tree) => {
            let left = transfer_and_crash(alloc, db, &tree, b"till", b"bank", 30, b"shop", keep);
            drop(tree);
            left
        }
        Err(e) => {
            drop(db.into_pages());
            Err(e)
        }
    }
}
