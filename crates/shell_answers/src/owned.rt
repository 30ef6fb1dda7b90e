//! Calls of a database itself, as lines say them.

use crate::transactions::tell_owned_transaction;
use line_words::print::Shown;
use shell_words::arguments::Arguments;
use shell_words::calls::how_in;
use shell_words::groups::batch_of;
use shell_words::how::made_of;
use shell_words::lines::{Lines, rest_behind, words_behind};
use shell_words::operators::Operator;
use shell_words::subscribers::{Subscribers, tell_no_subscriber};
use shell_words::table::Verb;
use shell_words::tell::Result;
use sled::Db;
use sled_model::{Reply, Subscriber, Tree};
use sled_nodes::{IVec, Result as Answer};
use sled_store::Pages;
use std::alloc::Global;

// What the value or the number in the reply is.
fn shown_of(verb: Verb) -> Shown {
    match verb {
        Verb::Insert | Verb::Set | Verb::Remove | Verb::Del => Shown::Old,
        Verb::Id | Verb::RemoveRange => Shown::Number,
        _ => Shown::Value,
    }
}

// Makes a call on a key, and answers the value that was there, or of a merge and of an update the new one.
fn write<P: Pages>(
    alloc: Global,
    db: &mut Db<P, Operator>,
    tree: &Tree,
    verb: Verb,
    arguments: &Arguments,
) -> Answer<Option<IVec>> {
    let (key, bytes, how) = (arguments.bytes(0), arguments.bytes(2), how_in(arguments));
    let made = move |old: Option<&[u8]>| made_of(alloc, how, bytes, old);
    match verb {
        Verb::Update => db.update_and_fetch(tree, key, made),
        Verb::Fetch => db.fetch_and_update(tree, key, made),
        Verb::Insert => db.insert(tree, key, arguments.bytes(1)),
        Verb::Set => db.set(tree, key, arguments.bytes(1)),
        Verb::Remove => db.remove(tree, key),
        Verb::Del => db.del(tree, key),
        _ => db.merge(tree, key, arguments.bytes(1)),
    }
}

// Swaps the value at a key.
fn swap<P: Pages>(db: &mut Db<P, Operator>, tree: &Tree, arguments: &Arguments) -> Answer<Reply> {
    let key = arguments.bytes(0);
    let swapped = db.compare_and_swap(tree, key, arguments.value(1), arguments.value(2));
    swapped.map(Reply::Swapped)
}

// Takes out the keys within the bounds of a line, and answers how many.
fn remove_range<P: Pages>(
    db: &mut Db<P, Operator>,
    tree: &Tree,
    arguments: &Arguments,
) -> Answer<Reply> {
    let (lo, hi) = (arguments.bound(0), arguments.bound(1));
    db.remove_range(tree, lo, hi).map(Reply::Number)
}

// Makes a call on a tree, or on the database.
fn whole<P: Pages>(
    db: &mut Db<P, Operator>,
    tree: &Tree,
    verb: Verb,
    arguments: &Arguments,
) -> Answer<Reply> {
    match verb {
        Verb::PopMin => db.pop_min(tree).map(Reply::Pair),
        Verb::PopMax => db.pop_max(tree).map(Reply::Pair),
        Verb::Clear => db.clear(tree).map(|()| Reply::Done),
        Verb::RemoveRange => remove_range(db, tree, arguments),
        Verb::Flush => Ok(Reply::Number(db.flush()? as u64)),
        Verb::DropTree => db.drop_tree(arguments.bytes(0)).map(Reply::Flag),
        Verb::Watch => db
            .watch_prefix(tree, arguments.bytes(0))
            .map(Reply::Subscriber),
        _ => db.generate_id().map(Reply::Number),
    }
}

// Takes what a subscriber gets next, or ends it.
fn hear<P: Pages>(db: &mut Db<P, Operator>, verb: Verb, subscriber: &Subscriber) -> Reply {
    match verb {
        Verb::Next => Reply::Next(db.next(subscriber)),
        _ => {
            db.unsubscribe(subscriber);
            Reply::Done
        }
    }
}

// Makes the writes of the batch that a line spells.
fn apply<P: Pages>(
    alloc: Global,
    db: &mut Db<P, Operator>,
    tree: &Tree,
    line: &[u8],
) -> Result<Answer<Reply>> {
    let batch = batch_of(alloc, words_behind(line, 2))?;
    Ok(db.apply_batch(tree, batch).map(|()| Reply::Done))
}

/// Makes the call of a database that the line says, and adds what it answers.
pub fn make_owned<P: Pages>(
    lines: &mut Lines,
    subscribers: &mut Subscribers,
    db: &mut Db<P, Operator>,
    tree: &Tree,
    verb: Verb,
) -> Result<()> {
    let (alloc, arguments) = (lines.alloc, &lines.arguments);
    let answer = match verb {
        Verb::Insert
        | Verb::Set
        | Verb::Remove
        | Verb::Del
        | Verb::Merge
        | Verb::Update
        | Verb::Fetch => write(alloc, db, tree, verb, arguments).map(Reply::Value),
        Verb::Cas => swap(db, tree, arguments),
        Verb::Batch => apply(alloc, db, tree, lines.line.as_slice())?,
        Verb::Next | Verb::Unwatch => match subscribers.named(arguments.number()) {
            Some(subscriber) => Ok(hear(db, verb, &subscriber)),
            None => return tell_no_subscriber(&mut lines.out),
        },
        Verb::Transaction => {
            let words = rest_behind(lines.line.as_slice(), 2);
            return tell_owned_transaction(alloc, db, tree, words, &mut lines.out);
        }
        _ => whole(db, tree, verb, arguments),
    };
    subscribers.tell_answer(&mut lines.out, shown_of(verb), answer)
}
