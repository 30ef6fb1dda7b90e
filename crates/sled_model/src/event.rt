//! Changes of a tree, as subscribers learn of them.
ghost use Rattle.std.specs.Prelude.{◌≡◌, IfOk, IfErr};
ghost use Rattle.sled_nodes.specs.declared.error.Error.TheVariants.{NoMemory};
ghost use Rattle.sled_model.specs.Event.{key_of_event};

use sled_nodes::{IVec, Result, clone_pair};

/// A change of one key.
#[derive(Debug, Drop, PartialEq, Eq, PartialOrd, Ord)]
pub enum Event {
    /// The key has this value now.
    Insert { key: IVec, value: IVec },
    /// The key has no value now.
    Remove { key: IVec },
}

/// What a subscriber gets next.
#[derive(Debug, Drop, PartialEq, Eq, PartialOrd, Ord)]
pub enum Next {
    /// A change of a key.
    Event(Event),
    /// So many changes were missed since the last answer: while `QUEUE_LIMIT` events waited, each went to make room for a newer one.
    /// The number is never 0, and `u64::MAX` means as many or more.
    Missed(u64),
}

impl Event {
    /// The key that changed.
    ///
    /// ```
    /// let key = event.key(); // Whether it has a value now or none.
    /// ```
    pub fn key(&self) -> &IVec
        ensures { result.now ≡ key_of_event self.now }
    {
        match self {
            Event::Insert { key, .. } => key,
            Event::Remove { key } => key,
        }
    }

    /// The same event. Refused with `NoMemory` alone.
    ///
    /// ```
    /// let copy = event.clone()?; // One for each queue.
    /// ```
    pub fn clone(&self) -> Result<Event>
        ensures ok { IfOk result (λ copy. copy ≡ self.now) }
        ensures err { IfErr result (λ e. e ≡ NoMemory) }
    {
        match self {
            Event::Insert { key, value } => {
                let (key, value) = clone_pair(key, value)?;
                Ok(Event::Insert { key, value })
            }
            Event::Remove { key } => Ok(Event::Remove { key: key.clone()? }),
        }
    }
}
