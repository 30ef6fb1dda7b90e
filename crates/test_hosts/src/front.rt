//! A disk in front of a file (`OneSync`): what it lends, also while a block is held back and once that was handed on.
use sled_disk::Disk;
use sled_host::{HostFile, Opening, Pair, open_pair};
use sled_log::block_of;
use sled_path::OneSync;
use std::alloc::Global;

// Prints whether a disk lends these bytes.
fn lend<D: Disk>(rt: &HostRuntime, disk: &D, bytes: &[u8]) {
    let words = match disk.lent() {
        Some(lent) if lent == bytes => "it lends what it has",
        Some(_) => "it lends other bytes",
        None => "it lends nothing",
    };
    let _ = println!(rt; "{words}");
}

// Adds a block behind an open gate.
fn add_block(alloc: Global, bytes: &mut Vec<u8>, payload: &[u8]) -> sled_disk::Result<()> {
    if let Some(gate) = bytes.last_mut() {
        *gate = 255;
    }
    bytes.extend_from_slice(&block_of(alloc, payload)?)?;
    Ok(())
}

// The first file of a store.
fn first(rt: &HostRuntime, creates: bool) -> Option<HostFile> {
    let opening = Opening {
        creates,
        needs_lock: true,
    };
    match open_pair(rt, "front", opening) {
        Ok(Pair { first, second, .. }) => {
            drop(second);
            Some(first)
        }
        Err(_) => None,
    }
}

// Writes at the end of a disk, and says how many bytes it has then.
fn add<D: Disk>(disk: &mut D, bytes: &[u8]) -> sled_disk::Result<usize> {
    let end = disk.len()?;
    disk.write_at(end, bytes)?;
    Ok(end.saturating_add(bytes.len()))
}

// Puts these bytes into a new file.
fn fill(rt: &HostRuntime, bytes: &[u8]) {
    if let Some(mut file) = first(rt, true) {
        let is_there = add(&mut file, bytes).is_ok() && file.sync().is_ok();
        lend(rt, &file, bytes);
        let _ = println!(rt; "it is on the disk: {is_there}");
        drop(file);
    }
}

// Puts a disk in front of a file that has these bytes, and adds a block to it.
fn add_in_front(rt: &HostRuntime, bytes: &[u8], block: &[u8]) {
    let Some(file) = first(rt, false) else {
        return;
    };
    match OneSync::new(rt.alloc(), file) {
        Ok(mut once) => {
            lend(rt, &once, bytes);
            let is_added = add(&mut once, block).is_ok();
            lend(rt, &once, bytes);
            let is_handed_on = once.len().is_ok();
            lend(rt, &once, bytes);
            let _ = println!(rt; "a block is added: {is_added}, and handed on: {is_handed_on}");
            drop(once);
        }
        Err((file, _)) => drop(file),
    }
}

/// Prints what each disk lends.
pub fn tell(rt: &HostRuntime) -> sled_disk::Result<()> {
    let alloc = rt.alloc();
    let mut bytes = vec![in alloc; 0]?;
    add_block(alloc, &mut bytes, &[5, 6])?;
    fill(rt, &bytes);
    let block = block_of(alloc, &[7])?;
    add_in_front(rt, &bytes, &block);
    bytes.extend_from_slice(&block)?;
    add_in_front(rt, &bytes, &[0]);
    Ok(())
}
