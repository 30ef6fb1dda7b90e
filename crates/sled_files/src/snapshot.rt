//! What a store is now, spelled as changes that make it of nothing.
ghost use Rattle.std.specs.Prelude.{◌≡◌, ◌+◌, length, IfOk, IfErr, OnOk, None};
ghost use Rattle.sled_nodes.specs.declared.error.Error.TheVariants.{NoMemory};
ghost use Rattle.sled_store.specs.Store.{now};
ghost use Rattle.sled_pages.specs.Memory.{store_of};
ghost use Rattle.sled_files.specs.Change.{Durable};
ghost use Rattle.sled_files.specs.Snapshot.{IsSnapshot};
ghost use Rattle.sled_files.specs.theory.Snapshot.{Makes, with_page, only, durable_now, page_length, GivesPages, SetsRoots};

use crate::spelled::spell;
use sled_bytes::{Change, encode_given, encode_rooted};
use sled_nodes::{Error, Pid, Result};
use sled_pages::MemPages;
use sled_store::{Pages, law_given};
use std::alloc::Global;

// Adds what makes a page, if there is the page.
fn spell_page(alloc: Global, pages: &MemPages, out: &mut Vec<u8>, pid: Pid) -> Result<()>
    ensures ok { OnOk result ((d : Durable) → Makes (store_of pages.now) out.old.items d → Makes (store_of pages.now) out.new.items (with_page pid ((now (store_of pages.now)).pages pid) d)) }
    ensures long { OnOk result (length out.new.items ≡ length out.old.items + page_length pid ((now (store_of pages.now)).pages pid)) }
    ensures err { IfErr result (λ e. e ≡ NoMemory) }
{
    match pages.read(alloc, pid) {
        Ok(Some(view)) => {
            let spelled = encode_given(out, pid, view.version, &view.node);
            drop(view);
            spelled
        }
        Ok(None) => Ok(()),
        Err(e) => {
            drop(e);
            Err(Error::NoMemory)
        }
    }
}

// What makes all pages.
fn spell_pages(alloc: Global, pages: &MemPages) -> Result<Vec<u8>>
    ensures ok { IfOk result (λ bytes. Makes (store_of pages.now) bytes.items (only (now (store_of pages.now)).pages (λ _. None))) }
    ensures long { IfOk result (λ bytes. GivesPages (now (store_of pages.now)) (length bytes.items)) }
    ensures err { IfErr result (λ e. e ≡ NoMemory) }
{
    law_given(pages);
    let (greatest, _) = pages.numbers_given();
    let mut out = Vec::new(alloc);
    for number in 0..greatest.0 {
        if let Err(e) = spell_page(alloc, pages, &mut out, Pid(number)) {
            return Err(e);
        }
    }
    match spell_page(alloc, pages, &mut out, greatest) {
        Ok(()) => Ok(out),
        Err(e) => Err(e),
    }
}

// Adds what makes all roots. The last of them is spelled first.
fn spell_roots(alloc: Global, pages: &MemPages, out: &mut Vec<u8>) -> Result<()>
    ensures ok { OnOk result (Makes (store_of pages.now) out.old.items (only (now (store_of pages.now)).pages (λ _. None)) → Makes (store_of pages.now) out.new.items (only (now (store_of pages.now)).pages (now (store_of pages.now)).roots)) }
    ensures long { OnOk result (SetsRoots (now (store_of pages.now)) (length out.old.items) (length out.new.items)) }
    ensures err { IfErr result (λ e. e ≡ NoMemory) }
{
    let mut roots = match pages.roots(alloc) {
        Ok(roots) => roots,
        Err(e) => return Err(e),
    };
    while let Some((name, pid)) = roots.pop() {
        let spelled = encode_rooted(out, name.as_ref(), Some(pid));
        drop(name);
        if let Err(e) = spelled {
            drop(roots);
            return Err(e);
        }
    }
    drop(roots);
    Ok(())
}

/// The bytes of changes that make of nothing what a store is now, with this mark and these limits. Of a group that is open they have
/// what was done so far. Refused with `NoMemory` alone, as is a page that cannot be read.
pub fn snapshot(
    alloc: Global,
    pages: &MemPages,
    mark: u64,
    pids: u64,
    versions: u64,
) -> Result<Vec<u8>>
    ensures ok { IfOk result (λ bytes. Makes (store_of pages.now) bytes.items (durable_now (store_of pages.now) mark pids versions)) }
    ensures long { IfOk result (λ bytes. IsSnapshot (now (store_of pages.now)) mark (record { pids = pids; versions = versions }) (length bytes.items)) }
    ensures err { IfErr result (λ e. e ≡ NoMemory) }
{
    let mut out = match spell_pages(alloc, pages) {
        Ok(out) => out,
        Err(e) => return Err(e),
    };
    if let Err(e) = spell_roots(alloc, pages, &mut out) {
        return Err(e);
    }
    if let Err(e) = spell(&mut out, Change::Marked(mark)) {
        return Err(e);
    }
    match spell(&mut out, Change::Limited(pids, versions)) {
        Ok(()) => Ok(out),
        Err(e) => Err(e),
    }
}
