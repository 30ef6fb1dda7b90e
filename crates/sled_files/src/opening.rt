//! The two files of a store are opened.
ghost use Rattle.std.specs.Prelude.{◌≡◌, ◌∷◌, List, ℕ, Bool, map, drop, MatchOption, IfOk, IfErr, if◌then◌else◌};
ghost use Rattle.sled_files.specs.Standing.{all_changes, AreBlank};
ghost use Rattle.sled_files.specs.theory.Found.{IsFileIn, IsFoundAs};
ghost use Rattle.sled_files.specs.theory.Chosen.{IsMade, is_why_unmade, IsBehind, IsOpened};
ghost use Rattle.sled_files.specs.Opening.{is_why_unopened};

use crate::found::{Found, OpenError, read_file};
use crate::replay::{Halt, Made, replay_all};
use std::alloc::Global;

/// A store that was found in two files: whether the second counts, the place of the closed gate of the log that counts, how long its
/// snapshot is, its generation, and the store.
#[derive(Drop)]
pub struct Opened {
    pub is_second: bool,
    pub gate: usize,
    pub snapshot: usize,
    pub generation: u64,
    pub store: Made,
}

// All payloads but the first.
fn others_of<'a, 'b>(payloads: &'a [&'b [u8]]) -> &'a [&'b [u8]]
    ensures { result.now ≡ drop 1 payloads.now }
{
    let from = payloads.len().min(1);
    &payloads[from..]
}

// Makes a store of what a file has.
fn make(alloc: Global, found: &Found<'_>) -> Result<Made, OpenError>
    ensures ok { IfOk result (λ made. IsMade (all_changes (found.now.first.now ∷ drop 1 (map (λ p. p.now) found.now.payloads.items))) made) }
    ensures err { IfErr result (λ e. is_why_unmade e found.now.gate (all_changes (found.now.first.now ∷ drop 1 (map (λ p. p.now) found.now.payloads.items)))) }
{
    match replay_all(alloc, found.first, others_of(found.payloads.as_slice())) {
        Ok(replay) => match replay.finish() {
            Some(made) => Ok(made),
            None => Err(OpenError::Decayed(found.gate)),
        },
        Err(Halt::NoMemory) => Err(OpenError::NoMemory),
        Err(Halt::Flawed) => Err(OpenError::Decayed(found.gate)),
    }
}

// Opens a store of the file that counts, if the other is blank or older.
fn open_one(alloc: Global, found: &Found<'_>, is_second: bool) -> Result<Opened, OpenError>
    ensures ok { IfOk result (λ o. (first second : List ℕ) → IsFileIn (if is_second then second else first) found.now.generation found.now.gate found.now.first.now (map (λ p. p.now) found.now.payloads.items) → IsBehind found.now.generation (if is_second then first else second) → IsOpened first second o.is_second o.gate o.snapshot o.generation o.store) }
    ensures err { IfErr result (λ e. (first second : List ℕ) → IsFileIn (if is_second then second else first) found.now.generation found.now.gate found.now.first.now (map (λ p. p.now) found.now.payloads.items) → IsBehind found.now.generation (if is_second then first else second) → is_why_unopened e first second) }
{
    match make(alloc, found) {
        Ok(store) => Ok(Opened {
            is_second,
            gate: found.gate,
            snapshot: found.first.len(),
            generation: found.generation,
            store,
        }),
        Err(e) => Err(e),
    }
}

// Opens a store of two files, of which the later counts.
fn open_both(alloc: Global, one: &Found<'_>, two: &Found<'_>) -> Result<Opened, OpenError>
    ensures ok { IfOk result (λ o. (first second : List ℕ) → IsFileIn first one.now.generation one.now.gate one.now.first.now (map (λ p. p.now) one.now.payloads.items) → IsFileIn second two.now.generation two.now.gate two.now.first.now (map (λ p. p.now) two.now.payloads.items) → IsOpened first second o.is_second o.gate o.snapshot o.generation o.store) }
    ensures err { IfErr result (λ e. (first second : List ℕ) → IsFileIn first one.now.generation one.now.gate one.now.first.now (map (λ p. p.now) one.now.payloads.items) → IsFileIn second two.now.generation two.now.gate two.now.first.now (map (λ p. p.now) two.now.payloads.items) → is_why_unopened e first second) }
{
    if two.generation < one.generation {
        return open_one(alloc, one, false);
    }
    if one.generation < two.generation {
        return open_one(alloc, two, true);
    }
    // No store leaves two files of one generation.
    Err(OpenError::Decayed(0))
}

// Opens the store of two files, of which each is blank or one of a store.
fn open_found(
    alloc: Global,
    one: &Option<Found<'_>>,
    two: &Option<Found<'_>>,
) -> Result<Option<Opened>, OpenError>
    ensures ok { IfOk result (λ o. (first second : List ℕ) → IsFoundAs first one.now → IsFoundAs second two.now → MatchOption o (AreBlank first second) (λ x. IsOpened first second x.is_second x.gate x.snapshot x.generation x.store)) }
    ensures err { IfErr result (λ e. (first second : List ℕ) → IsFoundAs first one.now → IsFoundAs second two.now → is_why_unopened e first second) }
{
    match one {
        None => match two {
            None => Ok(None),
            Some(two) => match open_one(alloc, two, true) {
                Ok(opened) => Ok(Some(opened)),
                Err(e) => Err(e),
            },
        },
        Some(one) => match two {
            None => match open_one(alloc, one, false) {
                Ok(opened) => Ok(Some(opened)),
                Err(e) => Err(e),
            },
            Some(two) => match open_both(alloc, one, two) {
                Ok(opened) => Ok(Some(opened)),
                Err(e) => Err(e),
            },
        },
    }
}

/// The store that the bytes of two files stand for, or none if both are blank. Refused if they stand for none.
pub fn open_bytes(alloc: Global, first: &[u8], second: &[u8]) -> Result<Option<Opened>, OpenError>
    ensures ok { IfOk result (λ o. MatchOption o (AreBlank first.now second.now) (λ x. IsOpened first.now second.now x.is_second x.gate x.snapshot x.generation x.store)) }
    ensures err { IfErr result (λ e. is_why_unopened e first.now second.now) }
{
    let one = match read_file(alloc, first) {
        Ok(one) => one,
        Err(e) => return Err(e),
    };
    let two = match read_file(alloc, second) {
        Ok(two) => two,
        Err(e) => {
            drop(one);
            return Err(e);
        }
    };
    let opened = open_found(alloc, &one, &two);
    drop(one);
    drop(two);
    opened
}
