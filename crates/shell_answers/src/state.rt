//! The store of a session of the shell.

use crate::home::Home;
use line_sessions::session::Session;
use shell_words::operators::Operator;
use shell_words::table::Verb;
use shell_words::tell::{Result, answered};
use sled::Db;
use sled_nodes::IVec;
use sled_store::Pages;

/// The store: opened, or what a refused opening gave back.
pub enum State<P: Pages, H: Home<Store = P, Opened = Db<P, Operator>>> {
    /// A session over a database.
    Open(Session<P, Operator>),
    /// No database is open.
    Shut(H::Held),
}

impl<P: Pages, H: Home<Store = P, Opened = Db<P, Operator>>> State<P, H> {
    /// The name of the tree that is to be current again after what a line asks for: that of the current tree, after a crash and a log that
    /// is begun anew.
    pub fn name_behind(&self, verb: Verb) -> Result<Option<IVec>> {
        match (self, verb) {
            (State::Open(session), Verb::Crash | Verb::Compact) => {
                let name = session.tree().name.clone();
                Ok(Some(answered(name)?))
            }
            _ => Ok(None),
        }
    }

    /// The store, between two openings. The calls in flight are abandoned.
    pub fn into_held(self) -> H::Held {
        match self {
            State::Open(session) => H::held_of(session.into_db()),
            State::Shut(held) => held,
        }
    }

    /// The store as it is.
    pub fn store(&self) -> &P {
        match self {
            State::Open(session) => session.db().pages(),
            State::Shut(held) => H::store(held),
        }
    }

    /// Whether a group that was refused midway closed the database.
    pub fn is_closed(&self) -> bool {
        match self {
            State::Open(session) => session.db().pages().in_group(),
            State::Shut(_) => false,
        }
    }
}
