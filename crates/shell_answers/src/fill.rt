//! Pairs for a first look at a tree of many pages.

use line_sessions::session::Session;
use line_words::print::{push_number, push_text};
use shell_words::tell::{Result, Told, answered, tell_numbered, tell_outcome};
use sled_model::{Call, MergeOperator, Outcome};
use sled_store::Pages;
use std::alloc::Global;

/// So many pairs are inserted at the most, so that their keys are of one length and their order is that of their numbers.
pub const MOST: u64 = 999_999;

// The key of a pair of this number, which has six digits.
fn push_key(key: &mut Vec<u8>, digits: &[u8]) -> sled_nodes::Result<()> {
    push_text(key, b"k")?;
    for _ in digits.len()..6 {
        push_text(key, b"0")?;
    }
    push_text(key, digits)
}

// The insert of the pair of this number.
fn insert_of(alloc: Global, number: u64) -> sled_nodes::Result<Call> {
    let (mut key, mut value) = (Vec::new(alloc), Vec::new(alloc));
    push_number(&mut value, number)?;
    push_key(&mut key, value.as_slice())?;
    Call::insert(alloc, key.as_slice(), value.as_slice())
}

// Inserts the pair of this number.
fn insert<P: Pages, M: MergeOperator>(
    alloc: Global,
    session: &mut Session<P, M>,
    number: u64,
) -> Result<Outcome> {
    let call = answered(insert_of(alloc, number))?;
    if !call.is_on_key() {
        drop(call);
        return Ok(Outcome::NoSuchSlot);
    }
    Ok(session.point(call).1)
}

/// Inserts so many pairs, and adds that it did; or why one of them was refused.
pub fn tell_filled<P: Pages, M: MergeOperator>(
    alloc: Global,
    session: &mut Session<P, M>,
    count: u64,
    out: &mut Told,
) -> Result<()> {
    for number in 0..count {
        let outcome = insert(alloc, session, number.saturating_add(1))?;
        let is_refused = matches!(&outcome, Outcome::Refused(_));
        let told = if is_refused {
            tell_outcome(out, &outcome)
        } else {
            Ok(())
        };
        drop(outcome);
        if is_refused {
            return told;
        }
    }
    tell_numbered(out, b"filled ", count, b"\n")
}
