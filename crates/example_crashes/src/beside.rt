//! Threads raise a number of a database that they share.
ghost use Rattle.std.specs.Prelude.{◌≡◌, ◌+◌, ◌*◌, ℕ, [], All, IfOk, IfErr, IfSome, true};
ghost use Rattle.sled_nodes.specs.Order.{Key};
ghost use Rattle.sled_pages.specs.Memory.{store_of};
ghost use Rattle.sled_model.specs.declared.tree.Tree.{Tree};
ghost use Rattle.machine_shared.specs.Sound.{IsOpen};
ghost use Rattle.example_crashes.specs.theory.Raised.{HasRaised, IsRaised};

use example_shared::raise_at_once;
use sled::MemPages;
use sled_machine::shared;
use sled_machine::shared::{Handle, State};
use sled_model::{MergeOperator, Tree};
use sled_store::Pages;
use std::alloc::{AllocError, Global};
use std::sync::Wait;
use std::sync::ledger::Ledger;
use std::thread::{Threads, map_vec};

// Raises the number so often, and says whether each raise succeeded.
fn raise_on<L: Ledger, M: MergeOperator>(
    rt: &impl Wait,
    handle: &mut Handle<MemPages, L, M>,
    tree: &Tree,
    key: &[u8],
    times: u64,
) -> bool
    requires { handle.old.made ≡ [] }
    ensures { result ≡ true → HasRaised tree.now key.now times handle.new }
{
    for _ in 0..times {
        match raise_at_once(rt, handle, tree, key) {
            Ok(_) => (),
            Err(e) => {
                drop(e);
                return false;
            }
        }
    }
    true
}

// What one thread does with its handle. It keeps the handle if each raise succeeded.
fn work<L: Ledger, M: MergeOperator>(
    rt: &impl Wait,
    handle: Handle<MemPages, L, M>,
    tree: &Tree,
    key: &[u8],
    times: u64,
) -> Option<Handle<MemPages, L, M>>
    requires { handle.made ≡ [] }
    ensures { IfSome result (HasRaised tree.now key.now times) }
{
    let mut handle = handle;
    if raise_on(rt, &mut handle, tree, key, times) {
        Some(handle)
    } else {
        drop(handle);
        None
    }
}

// A handle for each of so many callers.
fn handles_of<L: Ledger, M: MergeOperator>(
    alloc: Global,
    shared: &mut shared::Db<MemPages, L, M>,
    callers: u64,
) -> sled::Result<Vec<Handle<MemPages, L, M>>>
    ensures unused { IfOk result (λ hs. All (λ h. h.made ≡ []) hs.items) }
    ensures given { IfOk result (λ hs. shared.new.given ≡ shared.old.given + callers) }
    ensures before { shared.new.before ≡ shared.old.before }
    ensures opening { shared.new.opening ≡ shared.old.opening }
{
    let mut handles = Vec::new(alloc);
    for _ in 0..callers {
        let handle = shared.handle(alloc)?;
        handles.push(handle)?;
    }
    Ok(handles)
}

// Adds a handle, if it was kept.
fn add_kept<L: Ledger, M: MergeOperator>(
    handles: &mut Vec<Handle<MemPages, L, M>>,
    one: Option<Handle<MemPages, L, M>>,
) -> bool
    ensures { result ≡ true → (tree : Tree) (key : Key) (times : ℕ) → IfSome one (HasRaised tree key times) → All (HasRaised tree key times) handles.old.items → All (HasRaised tree key times) handles.new.items }
{
    match one {
        Some(handle) => handles.push(handle).is_ok(),
        None => false,
    }
}

// All handles, if each was kept.
fn all_of<L: Ledger, M: MergeOperator>(
    alloc: Global,
    kept: Vec<Option<Handle<MemPages, L, M>>>,
) -> Option<Vec<Handle<MemPages, L, M>>>
    ensures { IfSome result (λ hs. (tree : Tree) (key : Key) (times : ℕ) → All (λ one. IfSome one (HasRaised tree key times)) kept.items → All (HasRaised tree key times) hs.items) }
{
    let mut kept = kept;
    let mut handles = Vec::new(alloc);
    while let Some(one) = kept.pop() {
        if !add_kept(&mut handles, one) {
            drop(kept);
            drop(handles);
            return None;
        }
    }
    drop(kept);
    Some(handles)
}

// The handles go to threads, each of which raises the number, and are returned if all raises succeeded.
fn work_beside<L: Ledger + Send + Sync, M: MergeOperator + Send, R: Threads + Wait + Sync>(
    rt: &R,
    alloc: Global,
    handles: Vec<Handle<MemPages, L, M>>,
    tree: &Tree,
    key: &[u8],
    times: u64,
) -> Result<Vec<Option<Handle<MemPages, L, M>>>, AllocError>
    requires { All (λ h. h.made ≡ []) handles.items }
    ensures { IfOk result (λ kept. All (λ one. IfSome one (HasRaised tree.now key.now times)) kept.items) }
{
    map_vec(
        rt,
        handles,
        &|handle: Handle<MemPages, L, M>| -> Option<Handle<MemPages, L, M>>
            requires { handle.made ≡ [] }
            ensures { IfSome result (HasRaised tree.entry.now key.entry.now times) }
        { work(rt, handle, tree, key, times) },
    )
}

// Whether the database is open.
fn is_open<L: Ledger, M: MergeOperator>(state: &State<MemPages, L, M>) -> bool
    ensures { result ≡ true → IsOpen store_of state.now.machine }
{
    !state.machine().db().pages().in_group()
}

// Takes the state back, from all handles. It is `Ok` if its database is open.
fn taken<L: Ledger, M: MergeOperator>(
    rt: &impl Wait,
    shared: shared::Db<MemPages, L, M>,
    handles: Vec<Handle<MemPages, L, M>>,
) -> Result<State<MemPages, L, M>, Option<State<MemPages, L, M>>>
    requires before { shared.before ≡ 0 }
    requires flushed { shared.opening.flushed ≡ true }
    ensures opening { IfOk result (λ s. s.opening ≡ shared.opening) }
    ensures left { IfErr result (λ left. IfSome left (λ s. s.opening ≡ shared.opening)) }
    ensures raised { IfOk result (λ s. (tree : Tree) (key : Key) (callers times : ℕ) → shared.given ≡ callers → All (HasRaised tree key times) handles.items → IsRaised store_of tree key (callers * times) s) }
{
    match shared.gather(rt, handles) {
        Ok(state) => {
            if is_open(&state) {
                Ok(state)
            } else {
                Err(Some(state))
            }
        }
        Err(left) => {
            drop(left);
            Err(None)
        }
    }
}

// The handles of so many callers that raised the number, if all raises succeeded.
fn worked<L: Ledger + Send + Sync, M: MergeOperator + Send, R: Threads + Wait + Sync>(
    rt: &R,
    alloc: Global,
    shared: &mut shared::Db<MemPages, L, M>,
    callers: u64,
    tree: &Tree,
    key: &[u8],
    times: u64,
) -> Option<Vec<Handle<MemPages, L, M>>>
    ensures raised { IfSome result (λ hs. All (HasRaised tree.now key.now times) hs.items) }
    ensures given { IfSome result (λ hs. shared.new.given ≡ shared.old.given + callers) }
    ensures before { shared.new.before ≡ shared.old.before }
    ensures opening { shared.new.opening ≡ shared.old.opening }
{
    let Ok(handles) = handles_of(alloc, shared, callers) else {
        return None;
    };
    match work_beside(rt, alloc, handles, tree, key, times) {
        Ok(kept) => all_of(alloc, kept),
        Err(e) => {
            drop(e);
            None
        }
    }
}

// Lets so many callers raise the number so often each, beside each other in threads, and takes the state back. If it is `Ok` all raises
// succeeded.
pub(crate) fn raised_beside<
    L: Ledger + Send + Sync,
    M: MergeOperator + Send,
    R: Threads + Wait + Sync,
>(
    rt: &R,
    alloc: Global,
    shared: shared::Db<MemPages, L, M>,
    callers: u64,
    tree: &Tree,
    key: &[u8],
    times: u64,
) -> Result<State<MemPages, L, M>, Option<State<MemPages, L, M>>>
    requires none { shared.given ≡ 0 }
    requires before { shared.before ≡ 0 }
    requires flushed { shared.opening.flushed ≡ true }
    ensures opening { IfOk result (λ s. s.opening ≡ shared.opening) }
    ensures left { IfErr result (λ left. IfSome left (λ s. s.opening ≡ shared.opening)) }
    ensures raised { IfOk result (IsRaised store_of tree.now key.now (callers * times)) }
{
    let mut shared = shared;
    match worked(rt, alloc, &mut shared, callers, tree, key, times) {
        Some(handles) => taken(rt, shared, handles),
        None => Err(shared.reclaim(rt).ok()),
    }
}
