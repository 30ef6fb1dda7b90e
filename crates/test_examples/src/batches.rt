//! The load by batches in `example_databases`, into the first tree.
use crate::pairs::pair;
use crate::trial::Trial;
use example_databases::load;
use sled_nodes::{IVec, Result};
use std::alloc::Global;

// So many pairs, in two batches and a half.
const COUNT: u64 = 250;

// Adds all pairs of the load.
fn fill(alloc: Global, pairs: &mut Vec<(IVec, IVec)>) -> Result<()> {
    for number in 0..COUNT {
        pairs.push(pair(alloc, &number.to_be_bytes(), b"new")?)?;
    }
    Ok(())
}

// Loads these pairs.
fn load_pairs(trial: &mut Trial, pairs: &[(IVec, IVec)]) {
    let loaded = load(&mut trial.db, &trial.first, pairs);
    trial.seen.made(loaded);
}

/// Loads pairs.
pub fn load_all(trial: &mut Trial) {
    let alloc = trial.db.allocator();
    let mut pairs = Vec::new(alloc);
    trial.seen.made(fill(alloc, &mut pairs));
    load_pairs(trial, pairs.as_slice());
    drop(pairs);
}

/// Whether so many pairs are there.
pub fn are_loaded(trial: &mut Trial, count: usize) {
    trial.seen.told(trial.db.len(&trial.first), count);
}
