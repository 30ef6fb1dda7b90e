//! The queues of a list of subscribers.
ghost use Rattle.std.specs.Prelude.{◌≡◌, ℕ, Some, None, OnOk, OnErr, IfErr};
ghost use Rattle.std.specs.Ordering.{nat_cmp};
ghost use Rattle.std.specs.BTreeMap.{get, keys, IsOrdered};
ghost use Rattle.sled_nodes.specs.declared.error.Error.TheVariants.{NoMemory};
ghost use Rattle.sled_store.specs.Update.{put_at};
ghost use Rattle.sled_queues.specs.Queues.{committed_in, cancelled_in, next_at, taken_in};
ghost use Rattle.sled_queues.specs.Lists.{Once};
ghost use Rattle.sled_queues.specs.theory.Lists.{changed_at, changed_in, gains, loses};

use crate::waiting::Waiting;
use sled_model::{Event, Next};
use sled_nodes::{Error, Result};
use std::collections::BTreeMap;

// Prepares the event in each queue of a list. Refused with `NoMemory` alone, and then none is changed.
pub(crate) fn prepare_all(
    queues: &mut BTreeMap<u64, Waiting>,
    numbers: &[u64],
    event: &Event,
) -> Result<()>
    requires { Once numbers.now }
    ensures ok { OnOk result ((n : ℕ) → get nat_cmp queues.new n ≡ changed_in (gains event.now) numbers.now (get nat_cmp queues.old) n) }
    ensures err { OnErr result (queues.new.entries ≡ queues.old.entries) }
    ensures cause { IfErr result (λ e. e ≡ NoMemory) }
{
    for i in 0..numbers.len() {
        if let Err(e) = prepare(queues, numbers[i], event) {
            take_back_all(queues, &numbers[..i]);
            return Err(e);
        }
    }
    Ok(())
}

fn prepare(queues: &mut BTreeMap<u64, Waiting>, number: u64, event: &Event) -> Result<()>
    ensures ok { OnOk result ((n : ℕ) → get nat_cmp queues.new n ≡ changed_at (gains event.now) number (get nat_cmp queues.old) n) }
    ensures err { OnErr result ((n : ℕ) → get nat_cmp queues.new n ≡ get nat_cmp queues.old n) }
    ensures keys { keys queues.new ≡ keys queues.old }
    ensures ordered { IsOrdered nat_cmp queues.old }
    ensures cause { IfErr result (λ e. e ≡ NoMemory) }
{
    match queues.get_mut(&number) {
        Some(waiting) => waiting.prepare(event),
        None => Ok(()),
    }
}

// Takes the event back that was prepared last in each queue of a list.
fn take_back_all(queues: &mut BTreeMap<u64, Waiting>, numbers: &[u64])
    requires { Once numbers.now }
    ensures changed { (n : ℕ) → get nat_cmp queues.new n ≡ changed_in loses numbers.now (get nat_cmp queues.old) n }
    ensures keys { keys queues.new ≡ keys queues.old }
{
    for i in 0..numbers.len() {
        take_back(queues, numbers[i]);
    }
}

fn take_back(queues: &mut BTreeMap<u64, Waiting>, number: u64)
    ensures changed { (n : ℕ) → get nat_cmp queues.new n ≡ changed_at loses number (get nat_cmp queues.old) n }
    ensures keys { keys queues.new ≡ keys queues.old }
{
    if let Some(waiting) = queues.get_mut(&number) {
        waiting.take_back();
    }
}

// Makes wait what is prepared in the queues of a list.
pub(crate) fn commit_all(queues: &mut BTreeMap<u64, Waiting>, numbers: &[u64])
    ensures { (n : ℕ) → get nat_cmp queues.new n ≡ changed_in committed_in numbers.now (get nat_cmp queues.old) n }
{
    for i in 0..numbers.len() {
        commit(queues, numbers[i]);
    }
}

fn commit(queues: &mut BTreeMap<u64, Waiting>, number: u64)
    ensures { (n : ℕ) → get nat_cmp queues.new n ≡ changed_at committed_in number (get nat_cmp queues.old) n }
{
    if let Some(waiting) = queues.get_mut(&number) {
        waiting.commit();
    }
}

// Drops what is prepared in the queues of a list.
pub(crate) fn cancel_all(queues: &mut BTreeMap<u64, Waiting>, numbers: &[u64])
    ensures { (n : ℕ) → get nat_cmp queues.new n ≡ changed_in cancelled_in numbers.now (get nat_cmp queues.old) n }
{
    for i in 0..numbers.len() {
        cancel(queues, numbers[i]);
    }
}

fn cancel(queues: &mut BTreeMap<u64, Waiting>, number: u64)
    ensures { (n : ℕ) → get nat_cmp queues.new n ≡ changed_at cancelled_in number (get nat_cmp queues.old) n }
{
    if let Some(waiting) = queues.get_mut(&number) {
        waiting.cancel();
    }
}

// Takes what is next in a queue.
pub(crate) fn take(queues: &mut BTreeMap<u64, Waiting>, number: u64) -> Option<Next>
    ensures is { result ≡ next_at (get nat_cmp queues.old number) }
    ensures rest { (n : ℕ) → get nat_cmp queues.new n ≡ changed_at taken_in number (get nat_cmp queues.old) n }
{
    match queues.get_mut(&number) {
        Some(waiting) => waiting.next(),
        None => None,
    }
}

// Adds a queue under a new number. Without memory for that it comes back.
pub(crate) fn add(
    queues: &mut BTreeMap<u64, Waiting>,
    number: u64,
    waiting: Waiting,
) -> std::result::Result<(), Waiting>
    ensures ok { OnOk result ((n : ℕ) → get nat_cmp queues.new n ≡ put_at (get nat_cmp queues.old) number (Some waiting) n) }
    ensures err { OnErr result (queues.new.entries ≡ queues.old.entries) }
    ensures back { IfErr result (λ w. w ≡ waiting) }
{
    match queues.insert(number, waiting) {
        Ok(none) => {
            drop(none);
            Ok(())
        }
        Err(failed) => Err(failed.value.1),
    }
}

// Takes a queue out.
pub(crate) fn remove(queues: &mut BTreeMap<u64, Waiting>, number: u64) -> Option<Waiting>
    ensures was { result ≡ get nat_cmp queues.old number }
    ensures rest { (n : ℕ) → get nat_cmp queues.new n ≡ put_at (get nat_cmp queues.old) number None n }
{
    queues.remove(&number)
}
