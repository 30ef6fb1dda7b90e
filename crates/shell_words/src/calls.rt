//! Calls of a machine, by the arguments of a line.

use crate::arguments::Arguments;
use crate::groups::batch_of;
use crate::how::{How, how_of};
use crate::imports::collections_of;
use crate::subscribers::tell_no_subscriber;
use crate::table::{Verb, Way};
use crate::tell::{Result, Told, tell_refused, tell_turns};
use line_words::command::Command;
use sled_model::{Call, Subscriber, Tree, Whole};
use sled_nodes::{Error, IVec, Result as Answer};
use std::alloc::Global;

// The call that is asked for.
fn call_of(alloc: Global, verb: Verb, arguments: &Arguments) -> Answer<Call> {
    let key = arguments.bytes(0);
    match verb {
        Verb::Insert => Call::insert(alloc, key, arguments.bytes(1)),
        Verb::Get => Call::get(alloc, key),
        Verb::Remove => Call::remove(alloc, key),
        Verb::Cas => { Call::compare_and_swap(alloc, key, arguments.value(1), arguments.value(2)) }
        Verb::Merge => Call::merge(alloc, key, arguments.bytes(1)),
        _ => {
            let is_back = matches!(verb, Verb::ScanBack);
            Call::scan(alloc, arguments.bound(0), arguments.bound(1), is_back)
        }
    }
}

// A call, from its begin to its end or in a slot.
fn made(way: Way, call: Call) -> Command {
    match way {
        Way::Begun => Command::Begin(call),
        _ => Command::Point(call),
    }
}

/// What is asked for that `sledrun` knows too, or that takes a slot.
pub fn known_of(
    alloc: Global,
    verb: Verb,
    way: Way,
    words: Option<&[u8]>,
    arguments: &Arguments,
) -> Result<Command> {
    match verb {
        Verb::Step => Ok(Command::Step(arguments.number())),
        Verb::Finish => Ok(Command::Finish(arguments.number())),
        Verb::Abandon => Ok(Command::Abandon(arguments.number())),
        Verb::Batch => Ok(Command::Batch(batch_of(alloc, words)?)),
        Verb::Flush => Ok(Command::Flush),
        Verb::Dump => Ok(Command::Dump),
        _ => Ok(made(way, call_of(alloc, verb, arguments)?)),
    }
}

// The byte string of a name.
fn name_of(alloc: Global, arguments: &Arguments) -> Answer<IVec> {
    IVec::from_slice(alloc, arguments.bytes(0))
}

// The call that watches the keys of a tree that begin with a prefix.
fn watch_of(tree: &Tree, prefix: IVec) -> Answer<Whole> {
    match tree.clone() {
        Ok(tree) => Ok(Whole::Watch(tree, prefix)),
        Err(error) => {
            drop(prefix);
            Err(error)
        }
    }
}

/// The whole call that is asked for, on a tree.
pub fn whole_of(alloc: Global, tree: &Tree, verb: Verb, arguments: &Arguments) -> Answer<Whole> {
    match verb {
        Verb::PopMin => Ok(Whole::PopMin(tree.clone()?)),
        Verb::PopMax => Ok(Whole::PopMax(tree.clone()?)),
        Verb::Clear => Ok(Whole::Clear(tree.clone()?)),
        Verb::Watch => watch_of(tree, name_of(alloc, arguments)?),
        Verb::OpenTree => Ok(Whole::OpenTree(name_of(alloc, arguments)?)),
        Verb::DropTree => Ok(Whole::DropTree(name_of(alloc, arguments)?)),
        Verb::Import | Verb::ImportTyped | Verb::ImportAll => {
            let collections = collections_of(alloc, verb, arguments.values())?;
            Ok(Whole::Import(collections))
        }
        _ => Ok(Whole::GenerateId),
    }
}

/// What names a tree, of the arguments of a line.
pub fn handle_of(alloc: Global, arguments: &Arguments) -> Answer<Tree> {
    let database = IVec::from_slice(alloc, arguments.bytes(0))?;
    match IVec::from_slice(alloc, arguments.bytes(1)) {
        Ok(name) => Ok(Tree {
            database,
            name,
            number: arguments.number(),
        }),
        Err(error) => {
            drop(database);
            Err(error)
        }
    }
}

/// What is asked for a subscriber: its next event, or its end.
pub fn hearing(verb: Verb, subscriber: Subscriber) -> Whole {
    match verb {
        Verb::Next => Whole::Next(subscriber),
        _ => Whole::Unsubscribe(subscriber),
    }
}

/// What a line says that is made of a value. It was read, so there is something of its name.
pub fn how_in(arguments: &Arguments) -> How {
    how_of(arguments.bytes(1)).unwrap_or(How::Short)
}

/// Adds what a line prints that asks a database, if there is none.
pub fn tell_unasked(out: &mut Told, verb: Verb) -> Result<()> {
    match verb {
        Verb::Step | Verb::Finish | Verb::Abandon | Verb::Turns => tell_turns(out, None),
        Verb::Next | Verb::Unwatch => tell_no_subscriber(out),
        _ => tell_refused(out, Error::Closed),
    }
}
