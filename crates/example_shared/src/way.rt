//! The whole way: a database is shared, threads raise a number of it, each by a handle of its own, and the database is taken back. What the
//! number is then is proved, from public contracts alone.
ghost use Rattle.std.specs.Prelude.{◌≡◌, ◌+◌, ◌*◌, [], All, IfOk, IfErr, IfSome, false, true, count_by};
ghost use Rattle.sled_pages.specs.Memory.{store_of};
ghost use Rattle.sled_nodes.specs.Order.{Key};
ghost use Rattle.sled_model.specs.declared.tree.Tree.{Tree};
ghost use Rattle.machine_shared.specs.Made.{made_value, made_values};
ghost use Rattle.machine_shared.specs.Shared.{opening_of};
ghost use Rattle.machine_shared.specs.Sound.{IsOpen};
ghost use Rattle.example_shared.specs.Raising.{HasWritten, OnlyRaises, Raises, RaisesOn, StandsHigher, has_written, raised_to};

use crate::adding::raise_at_once;
use crate::raising::{Raised, raise};
use sled::{Db, MemPages, TransactionError};
use sled_machine::shared;
use sled_machine::shared::{Blank, Handle, Made, State};
use sled_model::{Call, MergeOperator, Outcome, Reply, Tree};
use sled_nodes::Error;
use sled_nodes::texts::NUMBERS_USED_UP;
use sled_store::Pages;
use std::alloc::{AllocError, Global};
use std::sync::Wait;
use std::sync::ledger::Ledger;
use std::thread::{Threads, map_vec};

// Each time in vain another caller wrote between.
const ATTEMPTS: u64 = 1_000_000;

// Raises the number by one, as a transaction or by a read and a swap.
fn raise_one<L: Ledger, M: MergeOperator>(
    rt: &impl Wait,
    alloc: Global,
    handle: &mut Handle<MemPages, L, M>,
    tree: &Tree,
    key: &[u8],
    at_once: bool,
) -> Raised
    ensures { Raises tree.now key.now (raised_to result) handle.old.made handle.new.made }
{
    if !at_once {
        return raise(rt, alloc, handle, tree, key, ATTEMPTS);
    }
    match raise_at_once(rt, handle, tree, key) {
        Ok(number) => Raised::To(number),
        Err(TransactionError::Storage(e)) => Raised::Stopped(Outcome::Refused(e)),
        Err(TransactionError::Abort(_)) => Raised::Stopped(Outcome::Refused(Error::Unsupported(
            NUMBERS_USED_UP,
        ))),
    }
}

// Raises the number so often, or until a raise fails.
fn raise_on<L: Ledger, M: MergeOperator>(
    rt: &impl Wait,
    alloc: Global,
    handle: &mut Handle<MemPages, L, M>,
    tree: &Tree,
    key: &[u8],
    times: u64,
    at_once: bool,
)
    ensures { RaisesOn tree.now key.now handle.old.made handle.new.made }
{
    for _ in 0..times {
        match raise_one(rt, alloc, handle, tree, key, at_once) {
            Raised::To(_) => (),
            other => {
                drop(other);
                return;
            }
        }
    }
}

// What one thread does with its handle.
fn work<L: Ledger, M: MergeOperator>(
    rt: &impl Wait,
    alloc: Global,
    handle: Handle<MemPages, L, M>,
    tree: &Tree,
    key: &[u8],
    times: u64,
    at_once: bool,
) -> Handle<MemPages, L, M>
    requires { handle.made ≡ [] }
    ensures { OnlyRaises tree.now key.now result }
{
    let mut handle = handle;
    raise_on(rt, alloc, &mut handle, tree, key, times, at_once);
    handle
}

// A handle for each of so many callers.
fn handles_of<L: Ledger, M: MergeOperator>(
    alloc: Global,
    shared: &mut shared::Db<MemPages, L, M>,
    callers: u64,
) -> sled::Result<Vec<Handle<MemPages, L, M>>>
    requires { shared.old.given ≡ 0 }
    ensures unused { IfOk result (λ hs. All (λ h. h.made ≡ []) hs.items) }
    ensures given { IfOk result (λ hs. shared.new.given ≡ callers) }
    ensures before { shared.new.before ≡ shared.old.before }
    ensures opening { shared.new.opening ≡ shared.old.opening }
{
    let mut handles = Vec::new(alloc);
    for _ in 0..callers {
        let handle = shared.handle(alloc)?;
        handles.push(handle)?;
    }
    Ok(handles)
}

// Whether this is a swap that succeeded, or a transaction.
fn has_written(made: &Made) -> bool
    ensures { result ≡ has_written (made_value made.now) }
{
    matches!(
        made,
        Made::Point(_, Call::CompareAndSwap(_, _, _), Reply::Swapped(Ok(())))
            | Made::Transaction(_, _)
    )
}

// How many swaps succeeded.
fn count_written(made: &[Made]) -> usize
    ensures { result ≡ count_by has_written (made_values made.now) }
{
    let mut count = 0;
    for one in made {
        if has_written(one) {
            count += 1;
        }
    }
    count
}

// Whether so many swaps of a caller succeeded.
fn has_all_written<L: Ledger, M: MergeOperator>(handle: &Handle<MemPages, L, M>, times: u64) -> bool
    ensures { result ≡ true → HasWritten times handle.now }
{
    count_written(handle.made()) as u64 == times
}

// .. of each caller.
fn have_all_written<L: Ledger, M: MergeOperator>(
    handles: &[Handle<MemPages, L, M>],
    times: u64,
) -> bool
    ensures { result ≡ true → All (HasWritten times) handles.now }
{
    for handle in handles {
        if !has_all_written(handle, times) {
            return false;
        }
    }
    true
}

// The handles go to threads, each of which raises the number, and are returned.
fn work_beside<L: Ledger + Send + Sync, M: MergeOperator + Send, R: Threads + Wait + Sync>(
    rt: &R,
    alloc: Global,
    handles: Vec<Handle<MemPages, L, M>>,
    tree: &Tree,
    key: &[u8],
    times: u64,
    at_once: bool,
) -> Result<Vec<Handle<MemPages, L, M>>, AllocError>
    requires { All (λ h. h.made ≡ []) handles.items }
    ensures { IfOk result (λ hs. All (OnlyRaises tree.now key.now) hs.items) }
{
    map_vec(
        rt,
        handles,
        &|handle: Handle<MemPages, L, M>| -> Handle<MemPages, L, M>
            requires { handle.made ≡ [] }
            ensures { OnlyRaises tree.entry.now key.entry.now result }
        { work(rt, alloc, handle, tree, key, times, at_once) },
    )
}

// Whether the database is open.
fn is_open<L: Ledger, M: MergeOperator>(state: &State<MemPages, L, M>) -> bool
    ensures { result ≡ true → IsOpen store_of state.now.machine }
{
    !state.machine().db().pages().in_group()
}

// Takes the state back. If of each caller so many swaps succeeded, and its database is open, it is `Ok`.
fn taken<L: Ledger, M: MergeOperator>(
    rt: &impl Wait,
    shared: shared::Db<MemPages, L, M>,
    handles: Vec<Handle<MemPages, L, M>>,
    times: u64,
) -> Result<State<MemPages, L, M>, Option<State<MemPages, L, M>>>
    requires { shared.before ≡ 0 }
    ensures opening { IfOk result (λ s. s.opening ≡ shared.opening) }
    ensures left { IfErr result (λ left. IfSome left (λ s. s.opening ≡ shared.opening)) }
    ensures raised { IfOk result (λ s. (tree : Tree) (key : Key) → All (OnlyRaises tree key) handles.items → StandsHigher store_of tree key (shared.given * times) s) }
{
    let all = have_all_written(handles.as_slice(), times);
    match shared.gather(rt, handles) {
        Ok(state) => {
            if all && is_open(&state) {
                Ok(state)
            } else {
                Err(Some(state))
            }
        }
        Err(left) => {
            drop(left);
            Err(None)
        }
    }
}

// The same, after the handles went to threads. Those that are lost for want of memory are not waited for.
fn raised_beside<L: Ledger + Send + Sync, M: MergeOperator + Send, R: Threads + Wait + Sync>(
    rt: &R,
    alloc: Global,
    shared: shared::Db<MemPages, L, M>,
    callers: u64,
    tree: &Tree,
    key: &[u8],
    times: u64,
    at_once: bool,
) -> Result<State<MemPages, L, M>, Option<State<MemPages, L, M>>>
    requires none { shared.given ≡ 0 }
    requires before { shared.before ≡ 0 }
    ensures opening { IfOk result (λ s. s.opening ≡ shared.opening) }
    ensures left { IfErr result (λ left. IfSome left (λ s. s.opening ≡ shared.opening)) }
    ensures raised { IfOk result (StandsHigher store_of tree.now key.now (callers * times)) }
{
    let mut shared = shared;
    let Ok(handles) = handles_of(alloc, &mut shared, callers) else {
        return Err(shared.reclaim(rt).ok());
    };
    let Ok(handles) = work_beside(rt, alloc, handles, tree, key, times, at_once) else {
        return Err(shared.reclaim(rt).ok());
    };
    taken(rt, shared, handles, times)
}

/// Shares a database, lets so many callers raise the number at a key so often each, beside each other in threads, and takes the database back.
/// A raise is a transaction, `at_once`, or else a read and a swap.
///
/// If it answers `Ok` the number is higher by just as many raises as all make together than it was in the database at first: none was lost.
/// Else some raise failed, and the state is given back, if it can be.
///
/// ```text
/// let blank = sled_machine::shared::Blank::new(5); // For four callers.
/// let came = raise_together::<std::marker::Brand, _, _>(rt, alloc, db, blank, 4, &tree, b"visits", 100, true);
/// ```
pub fn raise_together<L: Ledger + Send + Sync, M: MergeOperator + Send, R: Threads + Wait + Sync>(
    rt: &R,
    alloc: Global,
    db: Db<MemPages, M>,
    blank: Blank,
    callers: u64,
    tree: &Tree,
    key: &[u8],
    times: u64,
    at_once: bool,
) -> Result<State<MemPages, L, M>, Option<State<MemPages, L, M>>>
    requires name { blank.name ≡ L.name }
    requires parts { blank.parts ≡ L.parts }
    requires each { blank.parts ≡ callers + 1 }
    ensures opening { IfOk result (λ s. s.opening ≡ opening_of store_of false db) }
    ensures left { IfErr result (λ left. IfSome left (λ s. s.opening ≡ opening_of store_of false db)) }
    ensures raised { IfOk result (StandsHigher store_of tree.now key.now (callers * times)) }
{
    match shared::Db::<MemPages, L, M>::new(rt, alloc, db, blank, callers) {
        Ok(shared) => raised_beside(rt, alloc, shared, callers, tree, key, times, at_once),
        Err(failed) => {
            drop(failed);
            Err(None)
        }
    }
}
