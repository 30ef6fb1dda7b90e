//! Calls that run a closure, and pages one after the other, and what came of them.
use crate::asking::{Ask, Told, error_told, value_told};
use crate::beside::{Scene, Way};
use sled::{TransactionError, TransactionResult};
use sled_machine::shared::RangePages;
use sled_nodes::Error;
use std::alloc::AllocError;
use std::ops::Bound;
use std::process::Abort;
use std::sync::Wait;
use std::sync::ledger::Ledger;

// No closure aborts here.
fn ended_told(ended: TransactionResult<(), ()>) -> Told {
    let told = match &ended {
        Ok(()) => Told::Done,
        Err(TransactionError::Storage(error)) => error_told(error),
        Err(TransactionError::Abort(())) => Told::Other,
    };
    drop(ended);
    told
}

// Reads one page after the other. How many pairs they have together.
fn turn_pages<L: Ledger>(
    rt: &impl Wait,
    handle: &mut Way<L>,
    pages: &mut RangePages,
) -> Result<u64, Error> {
    let mut pairs = 0u64;
    // A page that is not the last one has a pair at least, and no trial has as many.
    for _ in 0..PAGES {
        let Some(page) = pages.next_page(rt, handle) else {
            break;
        };
        let page = page?;
        pairs = pairs.wrapping_add(page.as_slice().len() as u64);
        drop(page);
    }
    Ok(pairs)
}

const PAGES: u64 = 1000;

fn pages_told<L: Ledger, R: Wait + Abort>(
    rt: &R,
    scene: &Scene,
    handle: &mut Way<L>,
    from: &[u8],
    most: usize,
) -> Told {
    let (lo, hi) = (Bound::Included(from), Bound::Unbounded);
    let made = RangePages::new(scene.alloc, &scene.tree, lo, hi, false, most);
    let mut pages = made.expect(rt, "memory");
    let told = match turn_pages(rt, handle, &mut pages) {
        Ok(pairs) => Told::Pairs(pairs),
        Err(error) => {
            let told = error_told(&error);
            drop(error);
            told
        }
    };
    drop(pages);
    told
}

/// Makes the call. Its answer.
pub fn run_told<L: Ledger, R: Wait + Abort>(
    rt: &R,
    scene: &Scene,
    handle: &mut Way<L>,
    ask: Ask<'_>,
) -> Told {
    let tree = &scene.tree;
    match ask {
        Ask::Transact(key, value) => ended_told(handle.transaction(rt, tree, |inside| {
            inside.insert(key, value)?;
            Ok(())
        })),
        Ask::TransactAll(key, value) => ended_told(handle.transaction_all(rt, &[tree], |inside| {
            inside.insert(0, key, value)?;
            Ok(())
        })),
        Ask::FetchNothing(key) => {
            value_told(handle.update_and_fetch(rt, tree, key, |_| Err(AllocError)))
        }
        Ask::Pages(from, most) => pages_told(rt, scene, handle, from, most),
        _ => Told::Other,
    }
}
