//! A caller, and calls of it that are no calls in slots.
use crate::scene::{Plan, Scene};
use crate::text::Text;
use example_parts::{Adds, add_to};
use sled::{
    Batch, Call, Error, IVec, MemPages, Outcome, Reply, TransactionError, TransactionResult, Tree,
    abort,
};
use sled_machine::shared::{self, CallError, CallResult, Gate, Question};
use sled_nodes::Result;
use std::alloc::{AllocError, Global};
use std::ops::Bound;
use std::sync::Wait;
use std::sync::ledger::Ledger;
use std::thread::yield_now;

/// A caller's way to a database whose merge operators add.
pub type Way<L> = shared::Handle<MemPages, L, Adds>;

// A gate at which others may run, so that more of their calls are made between two steps.
struct Yields;

impl Gate for Yields {
    fn between(&self) {
        yield_now();
    }
}

/// What a caller has beside its handle: its lines, a tree that it opened, the slot of a call that it steps, or 0, and its subscriber, or 0.
#[derive(Drop)]
pub struct Book {
    pub text: Text,
    pub side: Option<Tree>,
    pub held: u64,
    pub listener: u64,
}

/// The value that a number chooses: one of four, or any of many. It is a number in eight bytes.
pub fn value_of(choice: u64) -> [u8; 8] {
    let number = choice >> 24;
    let number = if choice >> 23 & 1 == 0 {
        number % 4
    } else {
        number % 0x1_0000
    };
    number.to_be_bytes()
}

// The swap that a number chooses.
fn swap_of(plan: &Plan, choice: u64) -> Result<Call> {
    let (key, old, new) = (
        plan.key(choice >> 8),
        value_of(choice >> 8),
        value_of(choice),
    );
    let old: Option<&[u8]> = if choice >> 60 & 1 == 0 {
        None
    } else {
        Some(&old)
    };
    let new: Option<&[u8]> = if choice >> 60 & 2 == 0 {
        None
    } else {
        Some(&new)
    };
    Call::compare_and_swap(plan.alloc, &key, old, new)
}

/// The call on a key that a number chooses.
pub fn call_of(plan: &Plan, choice: u64) -> Result<Call> {
    let (key, value) = (plan.key(choice >> 8), value_of(choice));
    match choice >> 56 & 15 {
        0 | 1 => Call::get(plan.alloc, &key),
        2 | 3 | 4 => Call::remove(plan.alloc, &key),
        5 | 6 => Call::merge(plan.alloc, &key, &value),
        7 => swap_of(plan, choice),
        _ => Call::insert(plan.alloc, &key, &value),
    }
}

/// The tree that a number chooses: the one that the caller opened, if it has one, or the first.
pub fn tree_of<'a>(scene: &'a Scene, side: &'a Option<Tree>, choice: u64) -> &'a Tree {
    match side {
        Some(side) if choice >> 62 == 0 => side,
        _ => &scene.tree,
    }
}

/// How a whole call came out.
pub fn outcome_of(answer: CallResult<Reply>) -> Outcome {
    match answer {
        Ok(reply) => Outcome::Decided(reply),
        Err(CallError::Refused(e)) => Outcome::Refused(e),
        Err(CallError::NoSuchSlot) => Outcome::NoSuchSlot,
    }
}

// Makes a call on a key.
fn make<L: Ledger, R: Wait>(
    rt: &R,
    scene: &Scene,
    way: &mut Way<L>,
    text: &mut Text,
    tree: &Tree,
    call: Call,
) {
    scene.before(text);
    text.call(tree, &call);
    if call.is_on_key() {
        scene.ended(text, way.call(rt, tree, call, &Yields));
    } else {
        drop(call);
        text.cut();
    }
}

/// Makes the call on a key that a number chooses.
pub fn point<L: Ledger, R: Wait>(
    rt: &R,
    scene: &Scene,
    way: &mut Way<L>,
    book: &mut Book,
    choice: u64,
) {
    let Book { text, side, .. } = book;
    match call_of(&scene.plan, choice) {
        Ok(call) => make(rt, scene, way, text, tree_of(scene, side, choice), call),
        Err(e) => {
            drop(e);
            text.cut();
        }
    }
}

/// Takes the first or the last pair out, or all.
pub fn take<L: Ledger, R: Wait>(
    rt: &R,
    scene: &Scene,
    way: &mut Way<L>,
    book: &mut Book,
    choice: u64,
) {
    let Book { text, side, .. } = book;
    let tree = tree_of(scene, side, choice);
    scene.before(text);
    let answer = match choice >> 8 & 15 {
        0..=7 => {
            text.tree(b" pop_min ", tree);
            way.pop_min(rt, tree).map(|pair| Reply::Pair(pair))
        }
        8..=14 => {
            text.tree(b" pop_max ", tree);
            way.pop_max(rt, tree).map(|pair| Reply::Pair(pair))
        }
        _ => {
            text.tree(b" clear ", tree);
            way.clear(rt, tree).map(|()| Reply::Done)
        }
    };
    scene.ended(text, outcome_of(answer));
}

/// Takes an id, or makes all durable.
pub fn number<L: Ledger, R: Wait>(
    rt: &R,
    scene: &Scene,
    way: &mut Way<L>,
    book: &mut Book,
    flushes: bool,
) {
    let text = &mut book.text;
    scene.before(text);
    let answer = if flushes {
        text.text(b" flush");
        way.flush(rt)
    } else {
        text.text(b" id");
        way.generate_id(rt)
    };
    scene.ended(text, outcome_of(answer.map(|number| Reply::Number(number))));
}

/// The name that a number chooses.
pub fn name_of(choice: u64) -> &'static [u8] {
    if choice >> 8 & 1 == 0 { b"s" } else { b"t" }
}

/// Opens a tree, which stays the caller's.
pub fn open<L: Ledger, R: Wait>(
    rt: &R,
    scene: &Scene,
    way: &mut Way<L>,
    book: &mut Book,
    choice: u64,
) {
    let text = &mut book.text;
    scene.before(text);
    text.word(b" open ", name_of(choice));
    match way.open_tree(rt, scene.plan.alloc, name_of(choice)) {
        Ok(tree) => {
            scene.after(text);
            text.opened(&tree);
            book.side = Some(tree);
        }
        Err(e) => scene.ended(text, outcome_of(Err(e))),
    }
}

/// Drops a tree.
pub fn drop_named<L: Ledger, R: Wait>(
    rt: &R,
    scene: &Scene,
    way: &mut Way<L>,
    book: &mut Book,
    choice: u64,
) {
    let text = &mut book.text;
    scene.before(text);
    text.word(b" drop ", name_of(choice));
    let answer = way.drop_tree(rt, scene.plan.alloc, name_of(choice));
    scene.ended(
        text,
        outcome_of(answer.map(|was_there| Reply::Flag(was_there))),
    );
}

// A batch of two writes that a number chooses, one of them an insert.
fn batch_of(plan: &Plan, choice: u64) -> Result<Batch> {
    let mut batch = Batch::default(plan.alloc);
    let value = value_of(choice);
    let first = batch.insert(plan.alloc, &plan.key(choice >> 8), &value);
    let second = if choice >> 60 & 1 == 0 {
        batch.insert(plan.alloc, &plan.key(choice >> 16), &value)
    } else {
        batch.remove(plan.alloc, &plan.key(choice >> 16))
    };
    match first.and(second) {
        Ok(()) => Ok(batch),
        Err(e) => {
            drop(batch);
            Err(e)
        }
    }
}

/// Makes the writes of a batch.
pub fn batch<L: Ledger, R: Wait>(
    rt: &R,
    scene: &Scene,
    way: &mut Way<L>,
    book: &mut Book,
    choice: u64,
) {
    let Book { text, side, .. } = book;
    let tree = tree_of(scene, side, choice);
    match batch_of(&scene.plan, choice) {
        Ok(batch) => {
            scene.before(text);
            text.text(b" group 1");
            text.batch(tree, &batch);
            let answer = way.apply_batch(rt, scene.plan.alloc, tree, batch);
            scene.ended(text, outcome_of(answer.map(|()| Reply::Done)));
        }
        Err(e) => {
            drop(e);
            text.cut();
        }
    }
}

// Adds a batch in a tree.
fn add_batch(
    plan: &Plan,
    batches: &mut Vec<(Tree, Batch)>,
    tree: &Tree,
    choice: u64,
) -> Result<()> {
    let batch = batch_of(plan, choice)?;
    match tree.clone() {
        Ok(tree) => Ok(batches.push((tree, batch))?),
        Err(e) => {
            drop(batch);
            Err(e)
        }
    }
}

/// Makes the writes of two batches, in two trees or twice in one.
pub fn group<L: Ledger, R: Wait>(
    rt: &R,
    scene: &Scene,
    way: &mut Way<L>,
    book: &mut Book,
    choice: u64,
) {
    let Book { text, side, .. } = book;
    let mut batches = Vec::new(scene.plan.alloc);
    let first = add_batch(&scene.plan, &mut batches, &scene.tree, choice);
    let other = tree_of(scene, side, choice >> 2);
    let second = add_batch(&scene.plan, &mut batches, other, choice >> 4);
    if let Err(e) = first.and(second) {
        drop(e);
        drop(batches);
        text.cut();
        return;
    }
    scene.before(text);
    text.group(batches.as_slice());
    let answer = way.apply_group(rt, batches);
    scene.ended(text, outcome_of(answer.map(|()| Reply::Done)));
}

// Ends the line of a call that answered a value.
fn told_value(scene: &Scene, text: &mut Text, answer: Result<Option<IVec>>) {
    match answer {
        Ok(value) => scene.ended(text, Outcome::Decided(Reply::Value(value))),
        Err(e) => scene.ended(text, Outcome::Refused(e)),
    }
}

// The number that is there, with so much more.
fn added(
    alloc: Global,
    stood: Option<&[u8]>,
    more: u64,
) -> std::result::Result<Option<Vec<u8>>, AllocError> {
    Ok(Some(add_to(alloc, stood, more)?))
}

// Adds to the number at a key, in one step. It answers the new number.
fn update<L: Ledger, R: Wait>(
    rt: &R,
    alloc: Global,
    way: &mut Way<L>,
    tree: &Tree,
    key: &[u8],
    more: u64,
) -> Result<Option<IVec>> {
    way.update_and_fetch(rt, tree, key, move |stood| added(alloc, stood, more))
}

// The same, but that it answers the number that was there.
fn fetch_first<L: Ledger, R: Wait>(
    rt: &R,
    alloc: Global,
    way: &mut Way<L>,
    tree: &Tree,
    key: &[u8],
    more: u64,
) -> Result<Option<IVec>> {
    way.fetch_and_update(rt, tree, key, move |stood| added(alloc, stood, more))
}

/// Adds to the number at a key, in one step. It answers the new number, or the one that was there.
pub fn fetch<L: Ledger, R: Wait>(
    rt: &R,
    scene: &Scene,
    way: &mut Way<L>,
    book: &mut Book,
    choice: u64,
) {
    let Book { text, side, .. } = book;
    let tree = tree_of(scene, side, choice);
    let (alloc, key, more) = (scene.plan.alloc, scene.plan.key(choice >> 8), choice >> 50);
    let tells_new = choice >> 40 & 1 == 0;
    scene.before(text);
    text.on(if tells_new { b" update " } else { b" fetch " }, tree, &key);
    text.number(b" ", more);
    let answer = if tells_new {
        update(rt, alloc, way, tree, &key, more)
    } else {
        fetch_first(rt, alloc, way, tree, &key, more)
    };
    told_value(scene, text, answer);
}

/// Moves the value at a key to another key, and flushes, if so. It is aborted if there is none.
pub fn transfer<L: Ledger, R: Wait>(
    rt: &R,
    scene: &Scene,
    way: &mut Way<L>,
    book: &mut Book,
    choice: u64,
) {
    let Book { text, side, .. } = book;
    let tree = tree_of(scene, side, choice);
    let (from, to, flushes) = (
        scene.plan.key(choice >> 8),
        scene.plan.key(choice >> 16),
        choice >> 40 & 3 == 0,
    );
    scene.before(text);
    text.on(b" transfer ", tree, &from);
    text.word(b" ", &to);
    text.text(if flushes { b" yes" } else { b" no" });
    let ended: TransactionResult<IVec, u64> = way.transaction(rt, tree, |inside| {
        let Some(value) = inside.remove(&from)? else {
            return abort(1);
        };
        inside.insert(&to, value.as_ref())?;
        if flushes {
            inside.flush();
        }
        Ok(value)
    });
    match ended {
        Ok(value) => told_value(scene, text, Ok(Some(value))),
        Err(TransactionError::Abort(_)) => scene.ended(text, Outcome::Abandoned),
        Err(TransactionError::Storage(e)) => scene.ended(text, Outcome::Refused(e)),
    }
}

// A page of a range that numbers choose.
fn page_of(scene: &Scene, key: [u8; 2], choice: u64) -> Result<Question> {
    let key = scene.bytes(&key)?;
    let lo = if choice >> 32 & 1 == 0 {
        Bound::Included(key)
    } else {
        Bound::Excluded(key)
    };
    Ok(Question::Page {
        lo,
        hi: Bound::Unbounded,
        back: choice >> 33 & 1 == 1,
        most: (choice >> 34 & 15) as usize,
    })
}

// The question that a number chooses.
fn question_of(scene: &Scene, choice: u64) -> Result<Question> {
    let key = scene.plan.key(choice >> 8);
    Ok(match choice >> 40 & 15 {
        0 | 1 | 2 => Question::Get(scene.bytes(&key)?),
        3 => Question::ContainsKey(scene.bytes(&key)?),
        4 => Question::First,
        5 => Question::Last,
        6 | 7 => Question::GetLt(scene.bytes(&key)?),
        8 | 9 => Question::GetGt(scene.bytes(&key)?),
        10 => Question::Len,
        11 => Question::IsEmpty,
        _ => return page_of(scene, key, choice),
    })
}

/// Asks a tree something, under one lock.
pub fn ask<L: Ledger, R: Wait>(
    rt: &R,
    scene: &Scene,
    way: &mut Way<L>,
    book: &mut Book,
    choice: u64,
) {
    let Book { text, side, .. } = book;
    let tree = tree_of(scene, side, choice);
    match question_of(scene, choice) {
        Ok(question) => {
            scene.before(text);
            text.question(tree, &question);
            match way.read(rt, tree, question) {
                Ok(answer) => {
                    scene.after(text);
                    text.answer(&answer);
                    drop(answer);
                }
                Err(e) => scene.ended(text, Outcome::Refused(e)),
            }
        }
        Err(e) => {
            drop(e);
            text.cut();
        }
    }
}

/// Reads the names of all trees, or all pairs.
pub fn read_all<L: Ledger, R: Wait>(
    rt: &R,
    scene: &Scene,
    way: &mut Way<L>,
    book: &mut Book,
    choice: u64,
) {
    let text = &mut book.text;
    scene.before(text);
    let refused: Option<Error> = if choice >> 8 & 1 == 0 {
        text.text(b" names");
        match way.tree_names(rt) {
            Ok(names) => {
                scene.after(text);
                text.names(names.as_slice());
                drop(names);
                None
            }
            Err(e) => Some(e),
        }
    } else {
        text.text(b" export");
        match way.export(rt) {
            Ok(all) => {
                scene.after(text);
                text.collections(b"all ", all.as_slice());
                text.text(b"\n");
                drop(all);
                None
            }
            Err(e) => Some(e),
        }
    };
    if let Some(e) = refused {
        scene.ended(text, Outcome::Refused(e));
    }
}
