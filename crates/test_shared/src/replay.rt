//! The calls of a history, made again on a plain map.
use crate::reading::reads;
use sled_batch::Batch;
use sled_machine::shared::{Entry, Made};
use sled_model::{Call, Collection, Reply, Tree, Whole};
use sled_nodes::IVec;
use std::alloc::Global;
use std::collections::BTreeMap;
use std::process::Abort;

/// A plain map.
pub type Plain = BTreeMap<IVec, IVec>;

// Puts a value at a key.
fn put<R: Abort>(rt: &R, map: &mut Plain, key: &IVec, value: &IVec) {
    let key = key.clone().expect(rt, "memory");
    let value = value.clone().expect(rt, "memory");
    match map.insert(key, value) {
        Ok(old) => drop(old),
        Err(_) => panic!(rt; "memory"),
    }
}

// Puts a value at a key, or takes the key out.
fn set<R: Abort>(rt: &R, map: &mut Plain, key: &IVec, value: &Option<IVec>) {
    match value {
        Some(value) => put(rt, map, key, value),
        None => drop(map.remove(key)),
    }
}

/// Whether this is the value at a key.
pub fn stands(map: &Plain, key: &IVec, value: &Option<IVec>) -> bool {
    match (map.get(key), value) {
        (Some(there), Some(value)) => there == value,
        (None, None) => true,
        _ => false,
    }
}

// Makes the call on the map, if this is at its key and its reply is this value. Of a merge what the reply says is written.
fn writes<R: Abort>(rt: &R, map: &mut Plain, call: &Call, told: &Option<IVec>) -> bool {
    match call {
        Call::Get(key) => stands(map, key, told),
        Call::Insert(key, value) => {
            let same = stands(map, key, told);
            put(rt, map, key, value);
            same
        }
        Call::Remove(key) => {
            let same = stands(map, key, told);
            drop(map.remove(key));
            same
        }
        Call::Merge(key, _) => {
            set(rt, map, key, told);
            true
        }
        _ => false,
    }
}

// The same of a swap, which was made or not.
fn swaps<R: Abort>(rt: &R, map: &mut Plain, call: &Call, swapped: bool) -> bool {
    match call {
        Call::CompareAndSwap(key, old, new) => {
            let same = stands(map, key, old);
            if same {
                set(rt, map, key, new);
            }
            same == swapped
        }
        _ => false,
    }
}

// Makes the call on the map. Whether it has the reply there.
fn makes<R: Abort>(rt: &R, map: &mut Plain, call: &Call, reply: &Reply) -> bool {
    match reply {
        Reply::Value(told) => writes(rt, map, call, told),
        Reply::Swapped(swapped) => swaps(rt, map, call, swapped.is_ok()),
        _ => false,
    }
}

// Whether this pair was taken out of the map. It is dropped.
fn is_popped(popped: Option<(IVec, IVec)>, pair: &Option<(IVec, IVec)>) -> bool {
    let same = popped == *pair;
    drop(popped);
    same
}

// Makes the writes of all batches.
fn write<R: Abort>(rt: &R, map: &mut Plain, batches: &[(Tree, Batch)]) {
    for (_, batch) in batches {
        for (key, value) in batch.writes().iter() {
            set(rt, map, key, value);
        }
    }
}

// Makes the whole call on the map. Whether it has such a reply there.
fn makes_whole<R: Abort>(rt: &R, map: &mut Plain, whole: &Whole, reply: &Reply) -> bool {
    match (whole, reply) {
        (Whole::PopMin(_), Reply::Pair(pair)) => is_popped(map.pop_first(), pair),
        (Whole::PopMax(_), Reply::Pair(pair)) => is_popped(map.pop_last(), pair),
        (Whole::Clear(_), Reply::Done) | (Whole::DropTree(_), Reply::Flag(true)) => {
            map.clear();
            true
        }
        (Whole::Group(batches), Reply::Done) => {
            write(rt, map, batches.as_slice());
            true
        }
        (Whole::Import(collections), Reply::Done) => {
            fill(rt, map, collections.as_slice(), u64::MAX);
            true
        }
        (Whole::Flush | Whole::GenerateId, Reply::Number(_))
        | (Whole::OpenTree(_), Reply::Tree(_))
        | (Whole::Watch(_, _), Reply::Subscriber(_))
        | (Whole::Next(_) | Whole::Unsubscribe(_), Reply::Done) => true,
        _ => false,
    }
}

// Whether these are at the keys of all batches, in the order of their writes.
fn stand(map: &Plain, batches: &[(Tree, Batch)], stood: &[Option<IVec>]) -> bool {
    let mut place = 0usize;
    for (_, batch) in batches {
        for (key, _) in batch.writes().iter() {
            let same = match stood.get(place) {
                Some(Some(value)) => map.get(key).is_some_and(|there| there == value),
                Some(None) => !map.contains_key(key),
                None => false,
            };
            if !same {
                return false;
            }
            place = place.wrapping_add(1);
        }
    }
    place == stood.len()
}

// Makes the writes of a transaction. Whether these were there before.
fn transacts<R: Abort>(
    rt: &R,
    map: &mut Plain,
    batches: &[(Tree, Batch)],
    stood: &[Option<IVec>],
) -> bool {
    let same = stand(map, batches, stood);
    write(rt, map, batches);
    same
}

fn makes_made<R: Abort>(rt: &R, map: &mut Plain, made: &Made) -> bool {
    match made {
        Made::Point(_, call, reply) => makes(rt, map, call, reply),
        Made::Whole(whole, reply) => makes_whole(rt, map, whole, reply),
        Made::Parts(Whole::Import(collections), parts) => {
            fill(rt, map, collections.as_slice(), *parts);
            true
        }
        Made::Parts(_, _) => false,
        Made::Read(read) => reads(map, read),
        Made::Transaction(batches, stood) => transacts(
            rt,
            map,
            batches.as_slice(),
            stood.as_slice(),
        ),
    }
}

// Puts pairs of the collections into the map, so many parts of an import: each collection is one, and each of its pairs.
fn fill<R: Abort>(rt: &R, map: &mut Plain, collections: &[Collection], parts: u64) {
    let mut left = parts;
    for collection in collections {
        left = left.saturating_sub(1);
        for pair in &collection.2 {
            if left == 0 {
                return;
            }
            put(rt, map, &pair.0, &pair.1);
            left = left.saturating_sub(1);
        }
    }
}

// Whether the map makes each call of the history with the same reply.
fn replays<R: Abort>(rt: &R, map: &mut Plain, history: &[Entry]) -> bool {
    for entry in history {
        if !makes_made(rt, map, &entry.made) {
            return false;
        }
    }
    true
}

/// The plain map that begins with what the database had when it was shared, after it made each call of the history; `None` if one has
/// another reply there. All pairs and calls are of one tree.
pub fn replayed<R: Abort>(
    rt: &R,
    alloc: Global,
    opening: &[Collection],
    history: &[Entry],
) -> Option<Plain> {
    let mut map = BTreeMap::new(alloc);
    fill(rt, &mut map, opening, u64::MAX);
    if replays(rt, &mut map, history) {
        return Some(map);
    }
    drop(map);
    None
}

/// Whether the map has the pairs of all these collections, and no others.
pub fn has_just(map: &Plain, collections: &[Collection]) -> bool {
    let mut pairs = 0usize;
    for collection in collections {
        for (key, value) in &collection.2 {
            if !map.get(key).is_some_and(|there| there == value) {
                return false;
            }
            pairs = pairs.wrapping_add(1);
        }
    }
    pairs == map.len()
}
