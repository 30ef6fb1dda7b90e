//! The changing calls of the pages in memory. Beside each its change is spelled, before it is made, so that none is made that there is
//! no memory to spell; one that was not made is taken out again.
ghost use Rattle.std.specs.Prelude.{◌≡◌, ◌≤◌, ◌<◌, [], ◌∷◌, ◌++◌, ℕ, nat_lt, IfOk, IfErr, IfSome, IfNone, OnOk, OnErr, true, false};
ghost use Rattle.sled_nodes.specs.declared.error.Error.TheVariants.{NoMemory};
ghost use Rattle.sled_nodes.specs.Node.{after_link};
ghost use Rattle.sled_store.specs.State.{GroupBegins, GroupEnds};
ghost use Rattle.sled_store.specs.Store.{now, after_action, Allocates, IsRefused, Changes, Frees, SwapsRoot};
ghost use Rattle.sled_bytes.specs.Spelling.{change_bytes, FitsChange};
ghost use Rattle.sled_pages.specs.Memory.{store_of};
ghost use Rattle.sled_files.specs.Lasting.{Limits};
ghost use Rattle.sled_bytes.specs.declared.change.Change.TheVariants.{Given, Linked, Freed, Rooted, Begun, Sealed};
ghost use Rattle.sled_files.specs.Pending.{Spells, AddsMade};
ghost use Rattle.sled_files.specs.Stored.{AreWithin};
ghost use Rattle.sled_files.specs.Raised.{ComeNext};
ghost use Rattle.sled_files.specs.Codes.{AreUsedUp};
ghost use Rattle.sled_files.specs.theory.Spelled.{IsSpelled};
ghost use Rattle.sled_files.specs.theory.Ahead.{IsAhead};

use sled_bytes::{Change, encode_change, encode_given, encode_linked, encode_rooted};
use sled_nodes::{Error, Link, Node, Pid, Result, Version};
use sled_pages::MemPages;
use sled_store::Pages;
use std::alloc::Global;

/// Adds the bytes of a change.
pub fn spell(out: &mut Vec<u8>, change: Change) -> Result<()>
    ensures ok { OnOk result (out.new.items ≡ out.old.items ++ change_bytes change) }
    ensures fits { OnOk result (FitsChange change) }
    ensures err { IfErr result (λ e. (e ≡ NoMemory) × (out.new.items ≡ out.old.items)) }
{
    let encoded = encode_change(&change, out);
    drop(change);
    encoded
}

/// The bytes of a change alone.
pub fn spelled(alloc: Global, change: Change) -> Result<Vec<u8>>
    ensures ok { IfOk result (λ bytes. Spells bytes.items (change ∷ [])) }
    ensures err { IfErr result (λ e. e ≡ NoMemory) }
{
    let mut bytes = Vec::new(alloc);
    match spell(&mut bytes, change) {
        Ok(()) => Ok(bytes),
        Err(e) => Err(e),
    }
}

/// Adds the limits to what is pending, if they are others than those that the files have.
pub fn spell_limits(
    pending: &mut Vec<u8>,
    old_pids: u64,
    old_versions: u64,
    pids: u64,
    versions: u64,
) -> Result<()>
    requires pids { old_pids ≤ pids }
    requires versions { old_versions ≤ versions }
    ensures ok { OnOk result (IsAhead (record { pids = old_pids; versions = old_versions }) (record { pids = pids; versions = versions }) pending.old.items pending.new.items) }
    ensures err { IfErr result (λ e. (e ≡ NoMemory) × (pending.new.items ≡ pending.old.items)) }
{
    if pids == old_pids && versions == old_versions {
        return Ok(());
    }
    spell(pending, Change::Limited(pids, versions))
}

/// The page number and the version that come next, while there is such a number.
pub fn next_of(pages: &MemPages) -> Option<(Pid, Version)>
    ensures next { IfSome result (λ next. ComeNext (store_of pages.now) next.0 next.1) }
    ensures none { IfNone result (AreUsedUp (store_of pages.now)) }
{
    let (greatest, versions) = pages.numbers_given();
    let pid = greatest.0.checked_add(1)?;
    Some((Pid(pid), Version(versions)))
}

/// As `allocate` of the pages, which gives these.
pub fn allocate(
    pages: &mut MemPages,
    pending: &mut Vec<u8>,
    pid: Pid,
    version: Version,
    node: Node,
) -> Result<(Pid, Version)>
    requires { ComeNext (store_of pages.old) pid version }
    ensures ok { IfOk result (λ given. Allocates node given.0 given.1 (store_of pages.old) (store_of pages.new)) }
    ensures err { IfErr result (λ e. IsRefused e (store_of pages.old) (store_of pages.new)) }
    ensures spelled { IsSpelled (store_of pages.old) (store_of pages.new) pending.old.items pending.new.items }
    ensures adds { IfOk result (λ given. pending.new.items ≡ pending.old.items ++ change_bytes (Given given.0 given.1 node)) }
    ensures kept { OnErr result (pending.new.items ≡ pending.old.items) }
    ensures within { (limits : Limits) → AreWithin limits (store_of pages.old) → pid < limits.pids → version < limits.versions → AreWithin limits (store_of pages.new) }
{
    let len = pending.len();
    if let Err(e) = encode_given(pending, pid, version, &node) {
        drop(node);
        return Err(e);
    }
    match pages.allocate(node) {
        Ok(given) => {
            // Says which were given.
            pages.numbers_given();
            Ok(given)
        }
        Err(e) => {
            pending.truncate(len);
            Err(e)
        }
    }
}

/// As `link` of the pages, which gives this version.
pub fn link(
    pages: &mut MemPages,
    pending: &mut Vec<u8>,
    next: Version,
    pid: Pid,
    version: Version,
    link: Link,
) -> Result<std::result::Result<Version, Option<Version>>>
    requires { (v : ℕ) → (store_of pages.old).versions v ≡ nat_lt v next }
    ensures ok { IfOk result (Changes (after_link link) pid version (store_of pages.old) (store_of pages.new)) }
    ensures err { IfErr result (λ e. IsRefused e (store_of pages.old) (store_of pages.new)) }
    ensures spelled { IsSpelled (store_of pages.old) (store_of pages.new) pending.old.items pending.new.items }
    ensures adds { IfOk result (λ made. AddsMade (λ given. Linked pid given link) made pending.old.items pending.new.items) }
    ensures kept { OnErr result (pending.new.items ≡ pending.old.items) }
    ensures within { (limits : Limits) → AreWithin limits (store_of pages.old) → next < limits.versions → AreWithin limits (store_of pages.new) }
{
    let len = pending.len();
    if let Err(e) = encode_linked(pending, pid, next, &link) {
        drop(link);
        return Err(e);
    }
    match pages.link(pid, version, link) {
        Ok(Ok(given)) => {
            // Says which version was given.
            pages.numbers_given();
            Ok(Ok(given))
        }
        Ok(Err(present)) => {
            pending.truncate(len);
            Ok(Err(present))
        }
        Err(e) => {
            pending.truncate(len);
            Err(e)
        }
    }
}

/// As `replace` of the pages, which gives this version.
pub fn replace(
    pages: &mut MemPages,
    pending: &mut Vec<u8>,
    next: Version,
    pid: Pid,
    version: Version,
    node: Node,
) -> Result<std::result::Result<Version, Option<Version>>>
    requires { (v : ℕ) → (store_of pages.old).versions v ≡ nat_lt v next }
    ensures ok { IfOk result (Changes (λ _. node) pid version (store_of pages.old) (store_of pages.new)) }
    ensures err { IfErr result (λ e. IsRefused e (store_of pages.old) (store_of pages.new)) }
    ensures spelled { IsSpelled (store_of pages.old) (store_of pages.new) pending.old.items pending.new.items }
    ensures adds { IfOk result (λ made. AddsMade (λ given. Given pid given node) made pending.old.items pending.new.items) }
    ensures kept { OnErr result (pending.new.items ≡ pending.old.items) }
    ensures within { (limits : Limits) → AreWithin limits (store_of pages.old) → next < limits.versions → AreWithin limits (store_of pages.new) }
{
    let len = pending.len();
    if let Err(e) = encode_given(pending, pid, next, &node) {
        drop(node);
        return Err(e);
    }
    match pages.replace(pid, version, node) {
        Ok(Ok(given)) => {
            // Says which version was given.
            pages.numbers_given();
            Ok(Ok(given))
        }
        Ok(Err(present)) => {
            pending.truncate(len);
            Ok(Err(present))
        }
        Err(e) => {
            pending.truncate(len);
            Err(e)
        }
    }
}

/// As `free` of the pages.
pub fn free(
    pages: &mut MemPages,
    pending: &mut Vec<u8>,
    pid: Pid,
    version: Version,
) -> Result<std::result::Result<(), Option<Version>>>
    ensures ok { IfOk result (Frees pid version (store_of pages.old) (store_of pages.new)) }
    ensures err { IfErr result (λ e. IsRefused e (store_of pages.old) (store_of pages.new)) }
    ensures spelled { IsSpelled (store_of pages.old) (store_of pages.new) pending.old.items pending.new.items }
    ensures adds { IfOk result (λ made. AddsMade (λ _. Freed pid) made pending.old.items pending.new.items) }
    ensures kept { OnErr result (pending.new.items ≡ pending.old.items) }
    ensures within { (limits : Limits) → AreWithin limits (store_of pages.old) → AreWithin limits (store_of pages.new) }
{
    let len = pending.len();
    if let Err(e) = spell(pending, Change::Freed(pid)) {
        return Err(e);
    }
    match pages.free(pid, version) {
        Ok(Ok(())) => Ok(Ok(())),
        Ok(Err(present)) => {
            pending.truncate(len);
            Ok(Err(present))
        }
        Err(e) => {
            pending.truncate(len);
            Err(e)
        }
    }
}

/// As `cas_root` of the pages.
pub fn cas_root(
    pages: &mut MemPages,
    pending: &mut Vec<u8>,
    name: &[u8],
    old: Option<Pid>,
    new: Option<Pid>,
) -> Result<std::result::Result<(), Option<Pid>>>
    ensures ok { IfOk result (SwapsRoot name.now old new (store_of pages.old) (store_of pages.new)) }
    ensures err { IfErr result (λ e. IsRefused e (store_of pages.old) (store_of pages.new)) }
    ensures spelled { IsSpelled (store_of pages.old) (store_of pages.new) pending.old.items pending.new.items }
    ensures adds { IfOk result (λ made. AddsMade (λ _. Rooted name.now new) made pending.old.items pending.new.items) }
    ensures kept { OnErr result (pending.new.items ≡ pending.old.items) }
    ensures within { (limits : Limits) → AreWithin limits (store_of pages.old) → AreWithin limits (store_of pages.new) }
{
    let len = pending.len();
    let root = new;
    if let Err(e) = encode_rooted(pending, name, root) {
        return Err(e);
    }
    match pages.cas_root(name, old, new) {
        Ok(Ok(())) => Ok(Ok(())),
        Ok(Err(present)) => {
            pending.truncate(len);
            Ok(Err(present))
        }
        Err(e) => {
            pending.truncate(len);
            Err(e)
        }
    }
}

/// As `begin_group` of the pages.
pub fn begin_group(pages: &mut MemPages, pending: &mut Vec<u8>) -> Result<()>
    requires { (now (store_of pages.old)).in_group ≡ false }
    ensures ok { OnOk result (store_of pages.new ≡ after_action GroupBegins (store_of pages.old)) }
    ensures err { IfErr result (λ e. IsRefused e (store_of pages.old) (store_of pages.new)) }
    ensures spelled { IsSpelled (store_of pages.old) (store_of pages.new) pending.old.items pending.new.items }
    ensures adds { OnOk result (pending.new.items ≡ pending.old.items ++ change_bytes Begun) }
    ensures kept { OnErr result (pending.new.items ≡ pending.old.items) }
    ensures within { (limits : Limits) → AreWithin limits (store_of pages.old) → AreWithin limits (store_of pages.new) }
{
    let len = pending.len();
    if let Err(e) = spell(pending, Change::Begun) {
        return Err(e);
    }
    match pages.begin_group() {
        Ok(()) => Ok(()),
        Err(e) => {
            pending.truncate(len);
            Err(e)
        }
    }
}

/// As `seal_group` of the pages.
pub fn seal_group(pages: &mut MemPages, pending: &mut Vec<u8>) -> Result<()>
    requires { (now (store_of pages.old)).in_group ≡ true }
    ensures ok { OnOk result (store_of pages.new ≡ after_action GroupEnds (store_of pages.old)) }
    ensures err { IfErr result (λ e. IsRefused e (store_of pages.old) (store_of pages.new)) }
    ensures spelled { IsSpelled (store_of pages.old) (store_of pages.new) pending.old.items pending.new.items }
    ensures adds { OnOk result (pending.new.items ≡ pending.old.items ++ change_bytes Sealed) }
    ensures kept { OnErr result (pending.new.items ≡ pending.old.items) }
    ensures within { (limits : Limits) → AreWithin limits (store_of pages.old) → AreWithin limits (store_of pages.new) }
{
    let len = pending.len();
    if let Err(e) = spell(pending, Change::Sealed) {
        return Err(e);
    }
    match pages.seal_group() {
        Ok(()) => Ok(()),
        Err(e) => {
            pending.truncate(len);
            Err(e)
        }
    }
}
