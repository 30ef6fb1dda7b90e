//! Calls of a caller, and what came of them, boiled down to small values.
use crate::beside::{Scene, Way, is_done, require};
use crate::reading::{count_told, look_told};
use crate::running::run_told;
use example_shared::{Raised, add_one, push, raise, take};
use sled_batch::Batch;
use sled_machine::shared::Made;
use sled_machine::{Call, Collection, Next, Outcome, Reply, Slot, Subscriber, Tree, Whole};
use sled_nodes::{Error, IVec};
use std::alloc::{AllocError, Global};
use std::ops::Bound;
use std::process::Abort;
use std::sync::Wait;
use std::sync::ledger::Ledger;

/// A call on the tree of a scene, or a part of one.
#[derive(Clone, Copy)]
pub enum Ask<'a> {
    Get(&'a [u8]),
    Insert(&'a [u8], &'a [u8]),
    Remove(&'a [u8]),
    Merge(&'a [u8], &'a [u8]),
    Swap(&'a [u8], &'a [u8], &'a [u8]),
    /// A scan of all keys.
    Scan,
    /// Adds one to the number at the key by a merge.
    AddOne(&'a [u8]),
    /// Raises the number at the key by a read and a swap, again and again until it is done.
    Raise(&'a [u8]),
    /// Raises the number at the key in one step, and answers what it is then, or what it was before.
    Update(&'a [u8]),
    FetchFirst(&'a [u8]),
    /// Puts a job into the queue.
    Push(&'a [u8]),
    /// Takes the first job out of the queue.
    Take,
    PopMin,
    PopMax,
    Clear,
    /// A group of one insert.
    Group(&'a [u8], &'a [u8]),
    /// An import of so many pairs, all with this key and value. It is refused at the second.
    Import(&'a [u8], u8),
    Flush,
    OpenTree(&'a [u8]),
    DropTree,
    GenerateId,
    Watch,
    Next(u64),
    Unsubscribe(u64),
    /// Reads under one lock: the value at a key, whether it is there, and the pairs just below and above it.
    Look(&'a [u8]),
    Has(&'a [u8]),
    Below(&'a [u8]),
    Above(&'a [u8]),
    /// The first and the last pair, how many there are, and whether there is none.
    First,
    Last,
    Len,
    IsEmpty,
    /// A page from this key on, from its end if so, with so many pairs at the most.
    Page(&'a [u8], bool, usize),
    /// The names of all trees, and all pairs.
    Names,
    Export,
    /// All pages from this key on, one after the other, of so many pairs at the most.
    Pages(&'a [u8], usize),
    /// A transaction of the tree that inserts this, and one of a list of trees that has the tree alone.
    Transact(&'a [u8], &'a [u8]),
    TransactAll(&'a [u8], &'a [u8]),
    /// A fetch whose closure finds no memory.
    FetchNothing(&'a [u8]),
    /// A step of the call in this slot.
    Step(u64),
    /// The call in this slot is abandoned.
    Abandon(u64),
}

/// What came of a call.
#[derive(Clone, Copy, PartialEq, Eq)]
pub enum Told {
    /// The value, as a number.
    Value(u64),
    NoValue,
    Swapped,
    Conflict,
    /// The pair with the key that is this number.
    Pair(u64),
    End,
    /// The job that is this number.
    Job(u64),
    Flag(bool),
    /// So many pairs or names, or pairs with these numbers as their keys, a byte each.
    Pairs(u64),
    Popped,
    Done,
    Dropped,
    Number,
    Tree,
    /// So many parts were done.
    Parts(u64),
    Subscriber(u64),
    /// An insert at the key that is this number.
    Event(u64),
    /// So many events that were missed.
    Missed(u64),
    Moved,
    Abandoned,
    NoSuchSlot,
    NoSuchTree,
    Unsupported,
    Io,
    NoMemory,
    Closed,
    /// Nothing, or something else.
    Other,
}

/// The number of these bytes, the highest first. Of more than eight the last ones count.
pub fn number_of(bytes: &[u8]) -> u64 {
    let mut number = 0u64;
    for byte in bytes {
        number = number << 8 | u64::from(*byte);
    }
    number
}

/// What is printed of an event, or that some were missed.
pub fn next_told(next: &Next) -> Told {
    match next {
        Next::Event(sled_model::Event::Insert { key, .. }) => Told::Event(number_of(key.as_ref())),
        Next::Event(_) => Told::Other,
        Next::Missed(count) => Told::Missed(*count),
    }
}

/// What is printed of a reply.
pub fn reply_told(reply: &Reply) -> Told {
    match reply {
        Reply::Value(Some(value)) => Told::Value(number_of(value.as_ref())),
        Reply::Value(None) => Told::NoValue,
        Reply::Swapped(Ok(())) => Told::Swapped,
        Reply::Swapped(Err(_)) => Told::Conflict,
        Reply::End => Told::End,
        Reply::Pair(Some(_)) => Told::Popped,
        Reply::Done => Told::Done,
        Reply::Flag(true) => Told::Dropped,
        Reply::Number(_) => Told::Number,
        Reply::Tree(_) => Told::Tree,
        Reply::Subscriber(subscriber) => Told::Subscriber(subscriber.0),
        Reply::Next(Some(next)) => next_told(next),
        _ => Told::Other,
    }
}

/// What is printed of an error.
pub fn error_told(error: &Error) -> Told {
    match error {
        Error::CollectionNotFound(_) => Told::NoSuchTree,
        Error::Unsupported(_) => Told::Unsupported,
        Error::Io(_) => Told::Io,
        Error::NoMemory => Told::NoMemory,
        Error::Closed => Told::Closed,
        _ => Told::Other,
    }
}

/// What is printed of an outcome, which is dropped.
pub fn outcome_told(outcome: Outcome) -> Told {
    let told = match &outcome {
        Outcome::Decided(reply) => reply_told(reply),
        Outcome::Refused(error) => error_told(error),
        Outcome::Moved => Told::Moved,
        Outcome::Yielded(key, _) => Told::Pair(number_of(key.as_ref())),
        Outcome::Abandoned => Told::Abandoned,
        Outcome::NoSuchSlot => Told::NoSuchSlot,
        _ => Told::Other,
    };
    drop(outcome);
    told
}

/// What an entry says of the call that was made.
pub fn noted(made: &Made) -> Told {
    match made {
        Made::Point(_, _, reply) => reply_told(reply),
        Made::Whole(Whole::PopMin(_) | Whole::PopMax(_), Reply::Pair(Some(_))) => Told::Popped,
        Made::Whole(Whole::Clear(_), Reply::Done) => Told::Done,
        Made::Parts(Whole::Import(_), number) => Told::Parts(*number),
        Made::Whole(Whole::DropTree(_), Reply::Flag(true)) => Told::Dropped,
        _ => Told::Other,
    }
}

fn bytes_of<R: Abort>(rt: &R, scene: &Scene, bytes: &[u8]) -> IVec {
    IVec::from_slice(scene.alloc, bytes).expect(rt, "memory")
}

/// A batch of one insert.
pub fn batch_of<R: Abort>(rt: &R, scene: &Scene, key: &[u8], value: &[u8]) -> Batch {
    let mut batch = Batch::default(scene.alloc);
    let written = batch.insert(scene.alloc, key, value);
    written.expect(rt, "memory");
    batch
}

/// The batches of a group of one insert.
pub fn batches_of<R: Abort>(rt: &R, scene: &Scene, key: &[u8], value: &[u8]) -> Vec<(Tree, Batch)> {
    let tree = scene.tree.clone().expect(rt, "memory");
    let batch = batch_of(rt, scene, key, value);
    vec![in scene.alloc; (tree, batch)].expect(rt, "memory")
}

/// So many pairs of one key, to be imported.
pub fn pairs_of<R: Abort>(rt: &R, scene: &Scene, key: &[u8], count: u8) -> Vec<Collection> {
    let mut pairs = Vec::new(scene.alloc);
    for _ in 0..count {
        let pair = (bytes_of(rt, scene, key), bytes_of(rt, scene, key));
        require(rt, is_done(pairs.push(pair)), "memory");
    }
    let kind = Vec::from_slice(scene.alloc, b"tree").expect(rt, "memory");
    let name = Vec::from_slice(scene.alloc, scene.tree.name.as_ref()).expect(rt, "memory");
    vec![in scene.alloc; (kind, name, pairs)].expect(rt, "memory")
}

// The whole call on the tree that is asked for.
fn whole_on<R: Abort>(rt: &R, scene: &Scene, ask: Ask<'_>) -> Whole {
    let tree = scene.tree.clone().expect(rt, "memory");
    match ask {
        Ask::PopMin => Whole::PopMin(tree),
        Ask::PopMax => Whole::PopMax(tree),
        Ask::Clear => Whole::Clear(tree),
        _ => Whole::Watch(tree, bytes_of(rt, scene, b"")),
    }
}

// The whole call that is asked for.
fn whole_of<R: Abort>(rt: &R, scene: &Scene, ask: Ask<'_>) -> Whole {
    match ask {
        Ask::Group(key, value) => Whole::Group(batches_of(rt, scene, key, value)),
        Ask::Import(key, count) => Whole::Import(pairs_of(rt, scene, key, count)),
        Ask::Flush => Whole::Flush,
        Ask::OpenTree(name) => Whole::OpenTree(bytes_of(rt, scene, name)),
        Ask::DropTree => Whole::DropTree(scene.tree.name.clone().expect(rt, "memory")),
        Ask::GenerateId => Whole::GenerateId,
        Ask::Next(number) => Whole::Next(Subscriber(number)),
        Ask::Unsubscribe(number) => Whole::Unsubscribe(Subscriber(number)),
        _ => whole_on(rt, scene, ask),
    }
}

/// The call on a key that is asked for.
pub fn call_of<R: Abort>(rt: &R, scene: &Scene, ask: Ask<'_>) -> Call {
    let call = match ask {
        Ask::Get(key) => Call::get(scene.alloc, key),
        Ask::Remove(key) => Call::remove(scene.alloc, key),
        Ask::Scan => Call::scan(scene.alloc, Bound::Unbounded, Bound::Unbounded, false),
        _ => panic!(rt; "no call that begins"),
    };
    call.expect(rt, "memory")
}

// What an example answers: this, or the outcome of its call.
fn answer_told(answer: Result<Told, Outcome>) -> Told {
    match answer {
        Ok(told) => told,
        Err(outcome) => outcome_told(outcome),
    }
}

fn raised_told(raised: Raised) -> Told {
    match raised {
        Raised::To(number) => Told::Value(number),
        Raised::Overtaken => Told::Conflict,
        Raised::Stopped(outcome) => outcome_told(outcome),
    }
}

// What is printed of a job that was taken, if one waited.
fn job_told(job: Option<(IVec, IVec)>) -> Told {
    let told = match &job {
        Some(pair) => Told::Job(number_of(pair.1.as_ref())),
        None => Told::NoValue,
    };
    drop(job);
    told
}

// The number above the one of these bytes.
fn next_of(alloc: Global, stood: Option<&[u8]>) -> Result<Option<Vec<u8>>, AllocError> {
    let number = number_of(stood.unwrap_or(b"")).wrapping_add(1);
    Ok(Some(Vec::from_slice(alloc, &number.to_be_bytes())?))
}

/// What is printed of a value that was looked up.
pub fn value_told(value: Result<Option<IVec>, Error>) -> Told {
    let told = match &value {
        Ok(Some(value)) => Told::Value(number_of(value.as_ref())),
        Ok(None) => Told::NoValue,
        Err(error) => error_told(error),
    };
    drop(value);
    told
}

// So often a number is read and swapped at most: each time in vain another thread wrote it.
const ATTEMPTS: u64 = 1_000_000;

/// Makes the call, or a part of it. Its answer.
pub fn told_of<L: Ledger, R: Wait + Abort>(
    rt: &R,
    scene: &Scene,
    handle: &mut Way<L>,
    ask: Ask<'_>,
) -> Told {
    let (alloc, tree) = (scene.alloc, &scene.tree);
    match ask {
        Ask::AddOne(key) => answer_told(add_one(rt, alloc, handle, tree, key).map(Told::Value)),
        Ask::Raise(key) => raised_told(raise(rt, alloc, handle, tree, key, ATTEMPTS)),
        Ask::Update(key) => {
            value_told(handle.update_and_fetch(rt, tree, key, |stood| next_of(alloc, stood)))
        }
        Ask::FetchFirst(key) => {
            value_told(handle.fetch_and_update(rt, tree, key, |stood| next_of(alloc, stood)))
        }
        Ask::Push(job) => answer_told(push(rt, alloc, handle, tree, job).map(|_| Told::Number)),
        Ask::Take => answer_told(take(rt, handle, tree).map(job_told)),
        Ask::Look(_) | Ask::Has(_) | Ask::Below(_) | Ask::Above(_) | Ask::First | Ask::Last => {
            look_told(rt, scene, handle, ask)
        }
        Ask::Len | Ask::IsEmpty | Ask::Page(_, _, _) | Ask::Names | Ask::Export => {
            count_told(rt, scene, handle, ask)
        }
        Ask::Pages(_, _) | Ask::Transact(_, _) | Ask::TransactAll(_, _) | Ask::FetchNothing(_) =>
            run_told(rt, scene, handle, ask),
        _ => outcome_told(outcome_of(rt, scene, handle, ask)),
    }
}

// Makes the call, or a part of it. How it came out.
fn outcome_of<L: Ledger, R: Wait + Abort>(
    rt: &R,
    scene: &Scene,
    handle: &mut Way<L>,
    ask: Ask<'_>,
) -> Outcome {
    let (alloc, tree) = (scene.alloc, &scene.tree);
    match ask {
        Ask::Get(key) => handle.get(rt, alloc, tree, key),
        Ask::Insert(key, value) => handle.insert(rt, alloc, tree, key, value),
        Ask::Remove(key) => handle.remove(rt, alloc, tree, key),
        Ask::Merge(key, bytes) => handle.merge(rt, alloc, tree, key, bytes),
        Ask::Swap(key, old, new) => {
            handle.compare_and_swap(rt, alloc, tree, key, Some(old), Some(new))
        }
        Ask::Step(slot) => handle.step(rt, Slot(slot)),
        Ask::Abandon(slot) => handle.abandon(rt, Slot(slot)),
        _ => handle.whole(rt, whole_of(rt, scene, ask)),
    }
}
