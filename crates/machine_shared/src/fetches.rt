//! Fetches that are noted, over the parts of a state: the value at a key is read, a closure makes the new one from it, and the one is
//! swapped for the other, all in one step.
ghost use Rattle.std.specs.Prelude.{◌≡◌, ◌<◌, ◌∷◌, [], Ok, IfErr, IfOk, OnOk, OnErr, IfSome, vec_len, vec_capacity};
ghost use Rattle.std.specs.Option.{option_copied, option_map};
ghost use Rattle.sled_nodes.specs.declared.error.Error.TheVariants.{NoMemory};
ghost use Rattle.sled_model.specs.declared.call.Call.TheVariants as call;
ghost use Rattle.sled_model.specs.declared.reply.Reply.TheVariants as told;
ghost use Rattle.sled.specs.Fetch.{Answers, Stands};
ghost use Rattle.machine_shared.specs.Fetches.{MakesOf, RefusesFetch, StaysStill, SwapsNow, swap_made};
ghost use Rattle.machine_shared.specs.Made.{PointMade, made_value};
ghost use Rattle.machine_shared.specs.theory.Noting.{first_noted, second_noted};

use crate::entry::{Entry, Made};
use crate::noting::{copy_of, make_room};
use machine_alone::{Job, Machine};
use sled_model::{Call, MergeOperator, Reply, Tree};
use sled_nodes::{Error, IVec, Result};
use sled_store::Pages;
use std::alloc::{AllocError, Global};

// What the closure makes from the value that is there, if there is one.
fn ask<F>(stood: &Option<IVec>, mut f: F) -> Result<Option<Vec<u8>>>
where
    F: FnMut(Option<&[u8]>) -> std::result::Result<Option<Vec<u8>>, AllocError>,
    requires { (shown : _) → F.pre f shown }
    ensures ok { IfOk result (λ answer. Answers F.FnMut f stood.now (Ok answer)) }
    ensures err { IfErr result (λ e. e ≡ NoMemory) }
{
    let answer = match stood {
        Some(value) => f(Some(value.as_ref())),
        None => f(None),
    };
    match answer {
        Ok(answer) => Ok(answer),
        Err(_) => Err(Error::NoMemory),
    }
}

// The bytes, if there are any.
fn bytes_of(value: &Option<Vec<u8>>) -> Option<&[u8]>
    ensures { option_copied result ≡ option_map (λ v. v.items) value.now }
{
    match value {
        Some(bytes) => Some(bytes.as_slice()),
        None => None,
    }
}

// The swap of the one value for the other.
fn swap_of(alloc: Global, key: &[u8], stood: &Option<IVec>, made: &Option<Vec<u8>>) -> Result<Call>
    ensures { IfOk result (λ swap. swap ≡ call.CompareAndSwap key.now stood.now (option_map (λ v. v.items) made.now)) }
{
    let made = bytes_of(made);
    match stood {
        Some(value) => Call::compare_and_swap(alloc, key, Some(value.as_ref()), made),
        None => Call::compare_and_swap(alloc, key, None, made),
    }
}

// The same as what is to be done on a tree.
fn job_of(
    alloc: Global,
    tree: &Tree,
    key: &[u8],
    stood: &Option<IVec>,
    made: &Option<Vec<u8>>,
) -> Result<Job>
    ensures tree { IfOk result (λ job. job.tree ≡ tree.now) }
    ensures call { IfOk result (λ job. job.call ≡ call.CompareAndSwap key.now stood.now (option_map (λ v. v.items) made.now)) }
{
    let tree = tree.clone()?;
    match swap_of(alloc, key, stood, made) {
        Ok(call) => Ok(Job { tree, call }),
        Err(e) => {
            drop(tree);
            Err(e)
        }
    }
}

// A job that succeeded in a swap, as it is noted.
fn noted_of(job: Job) -> Made
    ensures { made_value result ≡ PointMade job.tree job.call (told.Swapped (Ok tt)) }
{
    Made::Point(job.tree, job.call, Reply::Swapped(Ok(())))
}

// What is to be noted of the swap, twice, with room for it in both lists.
fn room_and_swaps(
    alloc: Global,
    history: &mut Vec<Entry>,
    made: &mut Vec<Made>,
    tree: &Tree,
    key: &[u8],
    stood: &Option<IVec>,
    new: &Option<Vec<u8>>,
) -> Option<(Made, Made)>
    ensures first { IfSome result (λ both. made_value both.0 ≡ swap_made tree.now key.now stood.now (option_map (λ v. v.items) new.now)) }
    ensures second { IfSome result (λ both. made_value both.1 ≡ made_value both.0) }
    ensures history { history.new.items ≡ history.old.items }
    ensures made { made.new.items ≡ made.old.items }
    ensures room { IfSome result (λ both. vec_len history.new < vec_capacity history.new) }
    ensures room_there { IfSome result (λ both. vec_len made.new < vec_capacity made.new) }
{
    if !make_room(history, made) {
        return None;
    }
    let Ok(one) = job_of(alloc, tree, key, stood, new) else {
        return None;
    };
    match copy_of(&one) {
        Ok(two) => Some((noted_of(one), noted_of(two))),
        Err(e) => {
            drop(e);
            drop(one);
            None
        }
    }
}

// The value at the key, and what the closure makes from it.
fn read_and_ask<P: Pages, M: MergeOperator, F>(
    machine: &Machine<P, M>,
    tree: &Tree,
    key: &[u8],
    f: F,
) -> Result<(Option<IVec>, Option<Vec<u8>>)>
where
    F: FnMut(Option<&[u8]>) -> std::result::Result<Option<Vec<u8>>, AllocError>,
    requires { (shown : _) → F.pre f shown }
    ensures stands { IfOk result (λ both. Stands P.store M.meant machine.now.db tree.now key.now both.0) }
    ensures answers { IfOk result (λ both. Answers F.FnMut f both.0 (Ok both.1)) }
    ensures err { IfErr result (λ e. RefusesFetch P.store M.meant machine.now.db tree.now key.now e machine.now.db) }
{
    let stood = machine.db().get(tree, key)?;
    match ask(&stood, f) {
        Ok(answer) => Ok((stood, answer)),
        Err(e) => {
            drop(stood);
            Err(e)
        }
    }
}

// Swaps the value that is there for another.
fn swap_now<P: Pages, M: MergeOperator>(
    machine: &mut Machine<P, M>,
    tree: &Tree,
    key: &[u8],
    stood: &Option<IVec>,
    new: Option<Vec<u8>>,
) -> Result<Option<IVec>>
    requires { Stands P.store M.meant machine.old.db tree.now key.now stood.now }
    ensures value { IfOk result (λ made. made ≡ option_map (λ v. v.items) new) }
    ensures ok { OnOk result (SwapsNow P.store M.meant machine.old tree.now key.now stood.now (option_map (λ v. v.items) new) machine.new) }
    ensures err { OnErr result (StaysStill P.store M.meant machine.old machine.new) }
    ensures cause { IfErr result (λ e. RefusesFetch P.store M.meant machine.old.db tree.now key.now e machine.new.db) }
    ensures same { machine.new ≡ record (machine.old) { db = machine.new.db } }
{
    let mut new = new;
    machine.update_and_fetch(
        tree,
        key,
        move |_: Option<&[u8]>| -> std::result::Result<Option<Vec<u8>>, AllocError>
            ensures { result ≡ Ok new.entry }
        { Ok(new.take()) },
    )
}

// A fetch, and what is to be noted of it, twice, with room for it in both lists. Room and copies are made before the swap, and want of
// memory for them refuses it.
pub(crate) fn fetch_noting<P: Pages, M: MergeOperator, F>(
    machine: &mut Machine<P, M>,
    history: &mut Vec<Entry>,
    made: &mut Vec<Made>,
    tree: &Tree,
    key: &[u8],
    f: F,
) -> (Result<(Option<IVec>, Option<IVec>)>, Option<(Made, Made)>)
where
    F: FnMut(Option<&[u8]>) -> std::result::Result<Option<Vec<u8>>, AllocError>,
    requires { (shown : _) → F.pre f shown }
    ensures makes { IfOk result.0 (λ both. MakesOf F.FnMut f both.0 both.1) }
    ensures ok { IfOk result.0 (λ both. SwapsNow P.store M.meant machine.old tree.now key.now both.0 both.1 machine.new) }
    ensures noted { IfOk result.0 (λ both. first_noted result.1 ≡ swap_made tree.now key.now both.0 both.1 ∷ []) }
    ensures err { OnErr result.0 (StaysStill P.store M.meant machine.old machine.new) }
    ensures cause { IfErr result.0 (λ e. RefusesFetch P.store M.meant machine.old.db tree.now key.now e machine.new.db) }
    ensures same { machine.new ≡ record (machine.old) { db = machine.new.db } }
    ensures none { OnErr result.0 (first_noted result.1 ≡ []) }
    ensures again { second_noted result.1 ≡ first_noted result.1 }
    ensures history { history.new.items ≡ history.old.items }
    ensures made { made.new.items ≡ made.old.items }
    ensures room { IfSome result.1 (λ both. vec_len history.new < vec_capacity history.new) }
    ensures room_there { IfSome result.1 (λ both. vec_len made.new < vec_capacity made.new) }
{
    let alloc = machine.db().allocator();
    let (stood, new) = match read_and_ask(machine, tree, key, f) {
        Ok(both) => both,
        Err(e) => return (Err(e), None),
    };
    let Some(both) = room_and_swaps(alloc, history, made, tree, key, &stood, &new) else {
        drop(stood);
        drop(new);
        return (Err(Error::NoMemory), None);
    };
    match swap_now(machine, tree, key, &stood, new) {
        Ok(now) => (Ok((stood, now)), Some(both)),
        Err(e) => {
            drop(stood);
            drop(both);
            (Err(e), None)
        }
    }
}
