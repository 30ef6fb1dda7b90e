//! The calls of a file with their answers. They take no memory: clauses alone read them.
ghost use Rattle.std.specs.Prelude.{◌≡◌, List, [], ◌∷◌};
ghost use Rattle.std.specs.Borrow.{ftrue};
ghost use Rattle.sled_host.specs.Event.{Event};
ghost use Rattle.sled_host.specs.Noted.{event_of};
ghost use Rattle.sled_host.specs.theory.Record.{events_code};

use std::marker::Model;

/// The calls so far, the newest first.
#[derive(Drop)]
pub struct Record {
    pub ghost events: { List Event } by { events_code },
}

impl Model for Record {
    ghost also_owns = { λ _. ftrue };
}

// It owns nothing.
unsafe impl Send for Record {}

/// A call, and what the system answered.
#[derive(Clone, Copy, Drop)]
pub enum Call<'a> {
    /// The file was made, or was there; it was synced, and then these bytes were read, all that it has.
    Opened(bool, &'a [u8]),
    /// These bytes were to be written at this place; whether all were.
    Wrote(usize, &'a [u8], bool),
    /// The file was to be cut to this length; whether it was.
    Cut(usize, bool),
    /// All was to be synced; whether it was.
    Synced(bool),
}

impl Record {
    /// The record of no call.
    pub fn new() -> Record
        ensures { result.events ≡ [] }
    {
        Record {}
    }

    /// The record with a call more.
    pub fn and(&self, _call: &Call<'_>) -> Record
        ensures { result.events ≡ event_of _call.now ∷ self.now.events }
    {
        Record {}
    }
}
