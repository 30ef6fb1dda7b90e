//! Reads under one lock, what came of them, and the same reads of a plain map.
use crate::asking::{Ask, Told, error_told, number_of, value_told};
use crate::beside::{Scene, Way};
use crate::replay::{Plain, has_just, stands};
use sled_machine::shared::{Answer, Collections, Names, Pairs, Question, Read};
use sled_nodes::{Error, IVec, is_from, is_up_to, lend_bound};
use std::ops::Bound;
use std::process::Abort;
use std::sync::Wait;
use std::sync::ledger::Ledger;

// Why a read was refused. The error is dropped.
fn refused_told(error: Error) -> Told {
    let told = error_told(&error);
    drop(error);
    told
}

fn flag_told(answer: Result<bool, Error>) -> Told {
    match answer {
        Ok(flag) => Told::Flag(flag),
        Err(error) => refused_told(error),
    }
}

fn pair_told(answer: Result<Option<(IVec, IVec)>, Error>) -> Told {
    match answer {
        Ok(pair) => {
            let told = match &pair {
                Some(pair) => Told::Pair(number_of(pair.0.as_ref())),
                None => Told::NoValue,
            };
            drop(pair);
            told
        }
        Err(error) => refused_told(error),
    }
}

fn len_told(answer: Result<usize, Error>) -> Told {
    match answer {
        Ok(count) => Told::Pairs(count as u64),
        Err(error) => refused_told(error),
    }
}

// The keys of a page, which have one byte each.
fn page_told(answer: Result<Pairs, Error>) -> Told {
    match answer {
        Ok(page) => {
            let mut number = 0u64;
            for pair in page.as_slice() {
                number = number << 8 | number_of(pair.0.as_ref());
            }
            drop(page);
            Told::Pairs(number)
        }
        Err(error) => refused_told(error),
    }
}

fn names_told(answer: Result<Names, Error>) -> Told {
    match answer {
        Ok(names) => {
            let count = names.as_slice().len();
            drop(names);
            Told::Pairs(count as u64)
        }
        Err(error) => refused_told(error),
    }
}

fn export_told(answer: Result<Collections, Error>) -> Told {
    match answer {
        Ok(all) => {
            let mut pairs = 0usize;
            for collection in all.as_slice() {
                pairs = pairs.wrapping_add(collection.2.len());
            }
            drop(all);
            Told::Pairs(pairs as u64)
        }
        Err(error) => refused_told(error),
    }
}

/// Reads a value or a pair. Its answer.
pub fn look_told<L: Ledger, R: Wait + Abort>(
    rt: &R,
    scene: &Scene,
    handle: &mut Way<L>,
    ask: Ask<'_>,
) -> Told {
    let (alloc, tree) = (scene.alloc, &scene.tree);
    match ask {
        Ask::Look(key) => value_told(handle.get_now(rt, alloc, tree, key)),
        Ask::Has(key) => flag_told(handle.contains_key(rt, alloc, tree, key)),
        Ask::Below(key) => pair_told(handle.get_lt(rt, alloc, tree, key)),
        Ask::Above(key) => pair_told(handle.get_gt(rt, alloc, tree, key)),
        Ask::First => pair_told(handle.first(rt, tree)),
        Ask::Last => pair_told(handle.last(rt, tree)),
        _ => Told::Other,
    }
}

/// Reads of many pairs how many there are, or some. Its answer.
pub fn count_told<L: Ledger, R: Wait + Abort>(
    rt: &R,
    scene: &Scene,
    handle: &mut Way<L>,
    ask: Ask<'_>,
) -> Told {
    let (alloc, tree) = (scene.alloc, &scene.tree);
    match ask {
        Ask::Len => len_told(handle.len(rt, tree)),
        Ask::IsEmpty => flag_told(handle.is_empty(rt, tree)),
        Ask::Page(from, back, most) => {
            let (lo, hi) = (Bound::Included(from), Bound::Unbounded);
            page_told(handle.page(rt, alloc, tree, lo, hi, back, most))
        }
        Ask::Names => names_told(handle.tree_names(rt)),
        Ask::Export => export_told(handle.export(rt)),
        _ => Told::Other,
    }
}

// Whether this is the pair, if there is one.
fn is_pair(found: Option<(&IVec, &IVec)>, pair: &Option<(IVec, IVec)>) -> bool {
    match (found, pair) {
        (Some((key, value)), Some(pair)) => *key == pair.0 && *value == pair.1,
        (None, None) => true,
        _ => false,
    }
}

// The last pair below a key.
fn below<'a>(map: &'a Plain, key: &IVec) -> Option<(&'a IVec, &'a IVec)> {
    let mut last = None;
    for pair in map.iter() {
        if pair.0 < key {
            last = Some(pair);
        }
    }
    last
}

// The first pair above a key.
fn above<'a>(map: &'a Plain, key: &IVec) -> Option<(&'a IVec, &'a IVec)> {
    for pair in map.iter() {
        if pair.0 > key {
            return Some(pair);
        }
    }
    None
}

fn is_within(key: &IVec, lo: &Bound<IVec>, hi: &Bound<IVec>) -> bool {
    is_from(key.as_ref(), lend_bound(lo)) && is_up_to(key.as_ref(), lend_bound(hi))
}

// How many pairs are within the bounds.
fn count_within(map: &Plain, lo: &Bound<IVec>, hi: &Bound<IVec>) -> usize {
    let mut count = 0usize;
    for pair in map.iter() {
        if is_within(pair.0, lo, hi) {
            count = count.wrapping_add(1);
        }
    }
    count
}

// Whether a page has the first pairs within the bounds, so many at the most, in order.
fn is_page(
    map: &Plain,
    (lo, hi): (&Bound<IVec>, &Bound<IVec>),
    back: bool,
    most: usize,
    page: &[(IVec, IVec)],
) -> bool {
    let count = count_within(map, lo, hi);
    let mut place = 0usize;
    for (key, value) in map.iter() {
        if is_within(key, lo, hi) {
            place = place.wrapping_add(1);
            let at = if back {
                count.wrapping_sub(place)
            } else {
                place.wrapping_sub(1)
            };
            let is_at = page
                .get(at)
                .is_some_and(|pair| pair.0 == *key && pair.1 == *value);
            if at < most && !is_at {
                return false;
            }
        }
    }
    page.len() == count.min(most)
}

// Whether the map answers the question so.
fn answers(map: &Plain, question: &Question, answer: &Answer) -> bool {
    match (question, answer) {
        (Question::Get(key), Answer::Value(value)) => stands(map, key, value),
        (Question::ContainsKey(key), Answer::Flag(flag)) => map.get(key).is_some() == *flag,
        (Question::First, Answer::Pair(pair)) => is_pair(map.first_key_value(), pair),
        (Question::Last, Answer::Pair(pair)) => is_pair(map.last_key_value(), pair),
        (Question::GetLt(key), Answer::Pair(pair)) => is_pair(below(map, key), pair),
        (Question::GetGt(key), Answer::Pair(pair)) => is_pair(above(map, key), pair),
        (Question::Len, Answer::Count(count)) => map.len() == *count,
        (Question::IsEmpty, Answer::Flag(flag)) => map.is_empty() == *flag,
        (Question::Page { lo, hi, back, most }, Answer::Pairs(page)) => {
            is_page(map, (lo, hi), *back, *most, page.as_slice())
        }
        _ => false,
    }
}

/// Whether the map answers the same if it is read so.
pub fn reads(map: &Plain, read: &Read) -> bool {
    match read {
        Read::Tree(_, question, answer) => answers(map, question, answer),
        Read::Names(_) => true,
        Read::Export(all) => has_just(map, all.as_slice()),
    }
}
