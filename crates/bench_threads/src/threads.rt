//! A database that threads share while they work, and what comes of it.
ghost use Rattle.std.specs.Prelude.{◌≡◌, ◌+◌};

use crate::loaded::{Owned, is_done};
use crate::pairs::{NO_MARK, mark_of};
use crate::work::{Way, Work};
use sled::MemPages;
use sled_machine::shared::{Answer, Blank, Db, Entry, Made, Read, State};
use sled_model::{Call, Reply, Tree};
use std::alloc::Global;
use std::sync::Wait;
use std::sync::ledger::Ledger;
use std::thread::{Threads, for_each_mut};
use std::time::{Clock, Duration, Instant};

type Shared<L> = Db<MemPages, L>;

/// How many calls the history has, a checksum of their replies, and how long the threads took.
#[derive(Clone, Copy)]
pub struct Told {
    pub calls: u64,
    pub sum: u64,
    pub time: Duration,
}

// A handle for each of so many callers, as far as there is memory for them.
fn add_handles<L: Ledger>(
    alloc: Global,
    shared: &mut Shared<L>,
    handles: &mut Vec<Way<L>>,
    callers: u8,
) -> bool {
    for _ in 0..callers {
        let added = match shared.handle(alloc) {
            Ok(handle) => is_done(handles.push(handle)),
            Err(_) => false,
        };
        if !added {
            return false;
        }
    }
    true
}

// Each handle goes to a thread, which makes its calls. How long that takes, if the clock has it.
fn timed<L: Ledger + Send + Sync, R: Threads + Wait + Clock + Sync>(
    rt: &R,
    tree: &Tree,
    work: &Work,
    handles: &mut [Way<L>],
) -> Option<Duration> {
    let start = Instant::now(rt).ok();
    let threads = handles.len();
    if threads > 0 {
        for_each_mut(
            rt,
            handles,
            threads,
            &|_, handle| { work.done(rt, tree, handle) },
        );
    }
    start?.elapsed(rt).ok()
}

// The mark of the value in a reply.
fn mark_in(reply: &Reply) -> u64 {
    match reply {
        Reply::Value(Some(value)) => mark_of(value.as_ref()),
        _ => NO_MARK,
    }
}

// The mark of the value in an answer.
fn mark_told(answer: &Answer) -> u64 {
    match answer {
        Answer::Value(Some(value)) => mark_of(value.as_ref()),
        _ => NO_MARK,
    }
}

// A call as a number of a checksum: the mark in its reply, turned by a bit if it is an insert.
fn digest(made: &Made) -> u64 {
    match made {
        Made::Point(_, Call::Get(_), reply) => mark_in(reply),
        Made::Point(_, Call::Insert(_, _), reply) => mark_in(reply).rotate_left(1),
        Made::Read(Read::Tree(_, _, answer)) => mark_told(answer),
        _ => 0,
    }
}

// What a history says, if it is known how long the threads took. The checksum is a sum, so that the order of calls is all one.
fn told_of(history: &[Entry], time: Option<Duration>) -> Option<Told> {
    let time = time?;
    let mut sum = 0u64;
    for entry in history {
        sum = sum.wrapping_add(digest(&entry.made));
    }
    Some(Told {
        calls: history.len() as u64,
        sum,
        time,
    })
}

// What the history says, if all handles are back.
fn gathered<L: Ledger, R: Wait>(
    rt: &R,
    shared: Shared<L>,
    handles: Vec<Way<L>>,
    time: Option<Duration>,
) -> Option<Told> {
    match shared.gather(rt, handles) {
        Ok(state) => {
            let told = told_of(state.history(), time);
            drop(state);
            told
        }
        Err(given_back) => {
            drop(given_back);
            None
        }
    }
}

// Has each caller work by a handle of its own, and prints the outcome.
fn run_shared<L: Ledger + Send + Sync, R: Threads + Wait + Clock + Sync>(
    rt: &R,
    mut shared: Shared<L>,
    tree: &Tree,
    work: &Work,
) -> Option<Told> {
    let mut handles = Vec::new(work.alloc);
    let time = if add_handles(work.alloc, &mut shared, &mut handles, work.threads) {
        timed(rt, tree, work, handles.as_mut_slice())
    } else {
        None
    };
    gathered(rt, shared, handles, time)
}

/// Shares a database among threads that work on it, and prints the outcome.
pub fn run<L: Ledger + Send + Sync, R: Threads + Wait + Clock + Sync>(
    rt: &R,
    blank: Blank,
    db: Owned,
    tree: &Tree,
    work: &Work,
) -> Option<Told>
where
    requires name { blank.name ≡ L.name }
    requires parts { blank.parts ≡ L.parts }
    requires each { blank.parts ≡ work.now.threads + 1 }
{
    match Db::new(rt, work.alloc, db, blank, u64::from(work.threads)) {
        Ok(shared) => run_shared::<L, R>(rt, shared, tree, work),
        Err(refused) => {
            drop(refused);
            None
        }
    }
}
