//! What each thread does.
use crate::pairs::Pairs;
use sled::MemPages;
use sled_machine::shared::Handle;
use sled_model::Tree;
use std::alloc::Global;
use std::sync::Wait;
use std::sync::ledger::Ledger;

/// A caller's way to the database.
pub type Way<L> = Handle<MemPages, L>;

/// So many calls by each of so many threads, on keys of these pairs. Memory comes from this allocator.
#[derive(Clone, Copy)]
pub struct Work {
    pub alloc: Global,
    pub pairs: Pairs,
    pub calls: u64,
    pub threads: u8,
    pub kind: Kind,
}

/// What calls are made: of a hundred so many inserts, and the others gets, or reads under one lock.
#[derive(Clone, Copy)]
pub struct Kind {
    pub inserts: u64,
    pub at_once: bool,
}

/// The calls of the workload of this name.
pub fn kind_of(name: &str) -> Option<Kind> {
    let (inserts, at_once) = match name {
        "gets" => (0, false),
        "reads" => (0, true),
        "mix" => (5, false),
        "mixed_reads" => (5, true),
        _ => return None,
    };
    Some(Kind { inserts, at_once })
}

impl Work {
    /// Makes all calls of a caller, in a thread.
    pub fn done<L: Ledger, R: Wait>(&self, rt: &R, tree: &Tree, handle: &mut Way<L>) {
        for turn in 0..self.calls {
            let choice = self.pairs.choice(handle.number(), turn);
            let place = self.pairs.place(choice);
            let key = self.pairs.key(place);
            if (choice >> 32) % 100 < self.kind.inserts {
                let value = self.pairs.value(place, choice);
                drop(handle.insert(rt, self.alloc, tree, &key, &value));
            } else if self.kind.at_once {
                drop(handle.get_now(rt, self.alloc, tree, &key));
            } else {
                drop(handle.get(rt, self.alloc, tree, &key));
            }
        }
    }
}
