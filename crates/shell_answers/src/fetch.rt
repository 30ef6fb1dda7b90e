//! Calls that read a value and write what is made of it.

use line_sessions::session::Session;
use shell_words::arguments::Arguments;
use shell_words::calls::how_in;
use shell_words::how::made_of;
use shell_words::operators::Operator;
use shell_words::table::Verb;
use sled_model::Tree;
use sled_nodes::{IVec, Result as Answer};
use sled_store::Pages;
use std::alloc::Global;

/// Reads a value of the current tree, and writes what is made of it.
pub fn fetch<P: Pages>(
    alloc: Global,
    session: &mut Session<P, Operator>,
    verb: Verb,
    arguments: &Arguments,
) -> Answer<Option<IVec>> {
    let key = arguments.bytes(0);
    let bytes = arguments.bytes(2);
    let how = how_in(arguments);
    match verb {
        Verb::Update => session.update_and_fetch(key, move |old| made_of(alloc, how, bytes, old)),
        _ => session.fetch_and_update(key, move |old| made_of(alloc, how, bytes, old)),
    }
}
