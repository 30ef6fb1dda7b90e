//! Reads that take no slot, and what they print.

use line_words::input::Stopped;
use line_words::print::Piece::{Text, Word};
use shell_words::look::{Look, Side, read_bound};
use shell_words::tell::{
    Result, Told, answered, bytes_of, tell, tell_numbered, tell_refused, tell_whether,
};
use sled::{Db, Iter};
use sled_model::{MergeOperator, Tree};
use sled_nodes::{Error, IVec, lend_bound};
use sled_store::Pages;
use std::alloc::Global;
use std::iter::{DoubleEndedIterator, Iterator};
use std::ops::Bound;

// What a call of a database returns.
type Answer<T> = sled_nodes::Result<T>;

// A bound, if the word is one.
fn bound_of(alloc: Global, word: &[u8]) -> Result<Bound<IVec>> {
    answered(read_bound(alloc, word))?.ok_or(Stopped)
}

/// Adds whether it is so.
pub fn tell_is(out: &mut Told, is: Answer<bool>) -> Result<()> {
    match is {
        Ok(is) => tell_whether(out, is),
        Err(e) => tell_refused(out, e),
    }
}

fn tell_count(out: &mut Told, count: Answer<usize>) -> Result<()> {
    match count {
        Ok(count) => tell_numbered(out, b"number ", count as u64, b"\n"),
        Err(e) => tell_refused(out, e),
    }
}

// Adds names, each on a line, and how many they are.
fn push_names(out: &mut Told, names: &[IVec]) -> Result<()> {
    for name in names {
        tell(out, &[Text(b"name "), Word(name.as_ref()), Text(b"\n")])?;
    }
    tell_end(out, names.len() as u64)
}

fn tell_names(out: &mut Told, names: Answer<Vec<IVec>>) -> Result<()> {
    match names {
        Ok(names) => {
            let told = push_names(out, names.as_slice());
            drop(names);
            told
        }
        Err(e) => tell_refused(out, e),
    }
}

/// Adds the value at a key, or none.
pub fn tell_value(out: &mut Told, value: Answer<Option<IVec>>) -> Result<()> {
    match value {
        Ok(Some(value)) => {
            let told = tell(out, &[Text(b"value "), Word(value.as_ref()), Text(b"\n")]);
            drop(value);
            told
        }
        Ok(None) => tell(out, &[Text(b"value -\n")]),
        Err(e) => tell_refused(out, e),
    }
}

// Adds the line of a pair. A list of pieces has words of one owner alone.
fn tell_pair(out: &mut Told, pair: (IVec, IVec)) -> Result<()> {
    let first = tell(out, &[Text(b"pair "), Word(pair.0.as_ref()), Text(b" ")]);
    let second = tell(out, &[Word(pair.1.as_ref()), Text(b"\n")]);
    drop(pair);
    first.and(second)
}

/// Adds the pair that was found, if there was one.
pub fn tell_found(out: &mut Told, found: Answer<Option<(IVec, IVec)>>) -> Result<()> {
    match found {
        Ok(Some(pair)) => tell_pair(out, pair),
        Ok(None) => tell(out, &[Text(b"pair -\n")]),
        Err(e) => tell_refused(out, e),
    }
}

fn tell_end(out: &mut Told, count: u64) -> Result<()> {
    tell_numbered(out, b"end ", count, b"\n")
}

// Whether the item of this turn is taken from the back.
fn is_back(from: Side, turn: u64) -> bool {
    match from {
        Side::Front => false,
        Side::Back => true,
        Side::Ends => turn % 2 == 1,
    }
}

// What is asked of an iterator after an item.
#[derive(Clone, Copy)]
enum Next {
    More,
    // One more item, after a refusal: there should be none.
    Once,
    Nothing,
}

// Adds the line for the end of an iterator that gave so many items, or for a refusal.
fn tell_last(out: &mut Told, refused: Option<Error>, count: u64) -> Result<Next> {
    match refused {
        Some(e) => tell_refused(out, e).map(|()| Next::Once),
        None => tell_end(out, count).map(|()| Next::Nothing),
    }
}

// What a byte string is called that is alone in its line.
#[derive(Clone, Copy)]
enum Called {
    Key,
    Value,
}

// What is taken of a range.
trait Item: Drop {
    // Adds its line. A key or a value alone is called so.
    fn tell(self, called: Called, out: &mut Told) -> Result<()>;
}

impl Item for (IVec, IVec) {
    fn tell(self, _called: Called, out: &mut Told) -> Result<()> {
        tell_pair(out, self)
    }
}

impl Item for IVec {
    fn tell(self, called: Called, out: &mut Told) -> Result<()> {
        let told = match called {
            Called::Key => tell(out, &[Text(b"key "), Word(self.as_ref()), Text(b"\n")]),
            Called::Value => tell(out, &[Text(b"value "), Word(self.as_ref()), Text(b"\n")]),
        };
        drop(self);
        told
    }
}

// What the items of a read are called that has keys or values alone.
fn name_of(look: Look) -> Called {
    match look {
        Look::Keys(_) => Called::Key,
        _ => Called::Value,
    }
}

// Adds an item, or why none came.
fn tell_item<T: Item>(
    out: &mut Told,
    called: Called,
    item: Option<Answer<T>>,
    count: u64,
) -> Result<Next> {
    match item {
        Some(Ok(item)) => item.tell(called, out).map(|()| Next::More),
        Some(Err(e)) => tell_last(out, Some(e), count),
        None => tell_last(out, None, count),
    }
}

// Adds the items, and how many there were. After a refusal it asks once more. So they may be asked for at any time.
fn tell_items<T: Item, I: DoubleEndedIterator<Item = Answer<T>>>(
    out: &mut Told,
    items: I,
    called: Called,
    from: Side,
) -> Result<()>
    requires front { (items : I) → I.can_next items }
    requires back { (items : I) → I.can_next_back items }
{
    let (mut items, mut next) = (items, Ok(Next::More));
    for turn in 0..u64::MAX {
        let is_last = matches!(next, Ok(Next::Once));
        let item = if is_back(from, turn) {
            items.next_back()
        } else {
            items.next()
        };
        next = tell_item(out, called, item, turn.saturating_sub(u64::from(is_last)));
        if is_last || matches!(next, Ok(Next::Nothing) | Err(_)) {
            break;
        }
    }
    drop(items);
    next.map(|_| ())
}

// Adds what is taken of a range.
fn tell_range<P: Pages>(out: &mut Told, pairs: Answer<Iter<'_, P>>, look: Look) -> Result<()> {
    match pairs {
        Err(e) => tell_refused(out, e),
        Ok(pairs) => match look {
            Look::Keys(from) => tell_items(out, pairs.keys(), name_of(look), from),
            Look::Values(from) => tell_items(out, pairs.values(), name_of(look), from),
            Look::Pairs(from) => tell_items(out, pairs, name_of(look), from),
            _ => tell_items(out, pairs, name_of(look), Side::Front),
        },
    }
}

// Adds what a read of one key or prefix returns.
fn look_at<P: Pages, M: MergeOperator>(
    db: &Db<P, M>,
    tree: &Tree,
    look: Look,
    key: &[u8],
    out: &mut Told,
) -> Result<()> {
    match look {
        Look::Has => tell_is(out, db.contains_key(tree, key)),
        Look::Below => tell_found(out, db.get_lt(tree, key)),
        Look::Above => tell_found(out, db.get_gt(tree, key)),
        Look::Prefix(from) => tell_range(out, db.scan_prefix(tree, key), Look::Pairs(from)),
        _ => tell_value(out, db.get(tree, key)),
    }
}

// Adds what a read between two bounds returns.
fn look_between<P: Pages, M: MergeOperator>(
    alloc: Global,
    db: &Db<P, M>,
    tree: &Tree,
    look: Look,
    words: (&[u8], &[u8]),
    out: &mut Told,
) -> Result<()> {
    let lo = bound_of(alloc, words.0)?;
    let hi = match bound_of(alloc, words.1) {
        Ok(hi) => hi,
        Err(stopped) => {
            drop(lo);
            return Err(stopped);
        }
    };
    let told = tell_range(out, db.range(tree, lend_bound(&lo), lend_bound(&hi)), look);
    drop(lo);
    drop(hi);
    told
}

/// Adds what a read returns, with the words that its line has.
pub fn tell_look<P: Pages, M: MergeOperator>(
    alloc: Global,
    db: &Db<P, M>,
    tree: &Tree,
    look: Look,
    words: (&[u8], &[u8]),
    out: &mut Told,
) -> Result<()> {
    match look {
        Look::First => tell_found(out, db.first(tree)),
        Look::Last => tell_found(out, db.last(tree)),
        Look::Len => tell_count(out, db.len(tree)),
        Look::Empty => tell_is(out, db.is_empty(tree)),
        Look::Names => tell_names(out, db.tree_names()),
        Look::All => tell_range(out, db.iter(tree), look),
        Look::Has | Look::Read | Look::Below | Look::Above | Look::Prefix(_) => {
            let key = bytes_of(alloc, words.0)?;
            let told = look_at(db, tree, look, key.as_ref(), out);
            drop(key);
            told
        }
        Look::Pairs(_) | Look::Keys(_) | Look::Values(_) => look_between(
            alloc, db, tree, look, words, out,
        ),
    }
}
