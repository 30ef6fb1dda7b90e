//! Calls of a store in memory, and of any store, each under the contract that it has. The edits in `must-fail` show what these contracts
//! rule out: each does something to the store before the call or after it, turns an argument, or gives another answer.
#![tactic(auto)]

mod any;

ghost use Rattle.std.specs.Prelude.{◌≡◌, IfOk, OnOk, false, length};
ghost use Rattle.std.specs.Option.{option_map};
ghost use Rattle.sled_nodes.specs.Node.{after_link};
ghost use Rattle.sled_nodes.specs.declared.link.Link.TheVariants.{Set};
ghost use Rattle.sled_store.specs.Crash.{Crashes};
ghost use Rattle.sled_store.specs.Store.{Changes, after_flush, now, view_of};
ghost use Rattle.sled_pages.specs.Memory.{parts_of, store_of};
ghost use Rattle.sled_pages.specs.Parts.{ChangesParts, linked};

pub use any::link_any;
use sled_nodes::{IVec, Link, Pid, Result, Version};
use sled_pages::MemPages;
use sled_store::{Pages, View};
use std::alloc::Global;

/// The page of a number, with its links.
pub fn read(pages: &MemPages, alloc: Global, pid: Pid) -> Result<Option<View>>
    ensures { IfOk result (λ view. view ≡ view_of pid ((now (store_of pages.now)).pages pid)) }
{
    pages.read(alloc, pid)
}

/// Links a value at a key to a page that has this version.
pub fn link(
    pages: &mut MemPages,
    alloc: Global,
    pid: Pid,
    version: Version,
    key: &[u8],
    value: &[u8],
) -> Result<std::result::Result<Version, Option<Version>>>
    ensures store { IfOk result (Changes (after_link (Set key.now value.now)) pid version (store_of pages.old) (store_of pages.new)) }
    ensures parts { IfOk result (ChangesParts (option_map (linked (Set key.now value.now))) pid (parts_of pages.old) (parts_of pages.new)) }
{
    let value = IVec::from_slice(alloc, value)?;
    let link = Link::Set(IVec::from_slice(alloc, key)?, value);
    pages.link(pid, version, link)
}

/// A flush of a store in memory, which counts the actions.
pub fn flush(pages: &mut MemPages) -> Result<usize>
    requires { (now (store_of pages.old)).in_group ≡ false }
    ensures ok { OnOk result (store_of pages.new ≡ after_flush (store_of pages.old)) }
    ensures count { IfOk result (λ n. n ≡ length (store_of pages.old).recent) }
{
    pages.flush()
}

/// What a crash leaves that keeps so many of the actions since the last flush.
pub fn crash(pages: MemPages, keep: usize) -> Result<MemPages>
    ensures { IfOk result (λ left. Crashes keep (store_of pages) (store_of left)) }
{
    pages.crash(keep)
}
