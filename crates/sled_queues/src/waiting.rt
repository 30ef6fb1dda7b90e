//! One queue.
ghost use Rattle.std.specs.Prelude.{◌≡◌, ◌≤◌, ◌<◌, ◌+◌, [], take, drop, length, OnOk, OnErr, IfErr};
ghost use Rattle.sled_nodes.specs.declared.error.Error.TheVariants.{NoMemory};
ghost use Rattle.sled_model.specs.Backlog.{queue_limit, no_backlog, come_all, next_of};
ghost use Rattle.sled_queues.specs.Queues.{committed_in, cancelled_in, taken_in};
ghost use Rattle.sled_queues.specs.theory.Lists.{gains, loses};

use sled_model::{Event, Next, QUEUE_LIMIT};
use sled_nodes::{Error, IVec, Result};
use std::alloc::Global;
use std::collections::VecDeque;
use std::marker::Model;

/// A subscriber's queue: the tree and the prefix that it watches, the events that wait, and behind them those that are
/// prepared.
#[derive(Drop)]
pub(crate) struct Waiting {
    tree: u64,
    prefix: IVec,
    // those that wait, and then those that are prepared
    events: VecDeque<Event>,
    // how many wait
    is: usize,
    // how many were missed
    missed: u64,
}

impl Model for Waiting {
    ghost use Rattle.std.specs.Prelude.{take, drop, length, ◌≤◌};
    ghost use Rattle.sled_queues.specs.Values.{WaitingValue};

    ghost Value = { WaitingValue };

    ghost view = { λ w. record { tree = w.tree; prefix = w.prefix; backlog = record { missed = w.missed; events = take w.is w.events.items }; coming = drop w.is w.events.items } };

    ghost use Rattle.sled_model.specs.Backlog.{queue_limit};

    ghost invariant = { λ w. (w.is ≤ length w.events.items) × (w.is ≤ queue_limit) };
}

// One event more waits: the first one behind those that wait. If 1024 wait the oldest goes, and is counted.
fn admit_one(events: &mut VecDeque<Event>, is: usize, missed: u64) -> (usize, u64)
    requires some { is < length events.old.items }
    requires within { is ≤ queue_limit }
    ensures bound { result.0 ≤ length events.new.items }
    ensures limit { result.0 ≤ queue_limit }
    ensures comes { come_all (drop result.0 events.new.items) (record { missed = result.1; events = take result.0 events.new.items }) ≡ come_all (drop is events.old.items) (record { missed = missed; events = take is events.old.items }) }
    ensures fewer { length (drop result.0 events.new.items) + 1 ≡ length (drop is events.old.items) }
{
    if is < QUEUE_LIMIT {
        return (is + 1, missed);
    }
    let oldest = events.pop_front();
    drop(oldest);
    (is, missed.saturating_add(1))
}

// All events wait, one after the other.
fn admit(events: &mut VecDeque<Event>, is: usize, missed: u64) -> (usize, u64)
    requires bound { is ≤ length events.old.items }
    requires within { is ≤ queue_limit }
    ensures all { result.0 ≡ length events.new.items }
    ensures limit { result.0 ≤ queue_limit }
    ensures comes { record { missed = result.1; events = events.new.items } ≡ come_all (drop is events.old.items) (record { missed = missed; events = take is events.old.items }) }
{
    let mut is = is;
    let mut missed = missed;
    for _ in 0..events.len() - is {
        let (more, count) = admit_one(events, is, missed);
        is = more;
        missed = count;
    }
    (is, missed)
}

impl Waiting {
    pub(crate) fn new(alloc: Global, tree: u64, prefix: IVec) -> Waiting
        ensures { result ≡ record { tree = tree; prefix = prefix; backlog = no_backlog; coming = [] } }
    {
        Waiting {
            tree,
            prefix,
            events: VecDeque::new(alloc),
            is: 0,
            missed: 0,
        }
    }

    pub(crate) fn tree(&self) -> u64
        ensures { result ≡ self.now.tree }
    {
        self.tree
    }

    pub(crate) fn prefix(&self) -> &[u8]
        ensures { result.now ≡ self.now.prefix }
    {
        self.prefix.as_ref()
    }

    // Prepares the event. Refused with `NoMemory` alone.
    pub(crate) fn prepare(&mut self, event: &Event) -> Result<()>
        ensures ok { OnOk result (self.new ≡ gains event.now self.old) }
        ensures err { OnErr result (self.new ≡ self.old) }
        ensures cause { IfErr result (λ e. e ≡ NoMemory) }
    {
        let copy = event.clone()?;
        match self.events.push_back(copy) {
            Ok(()) => Ok(()),
            Err(failed) => {
                drop(failed);
                Err(Error::NoMemory)
            }
        }
    }

    // Takes the event back that was prepared last.
    pub(crate) fn take_back(&mut self)
        ensures { self.new ≡ loses self.old }
    {
        if self.is < self.events.len() {
            let last = self.events.pop_back();
            drop(last);
        }
    }

    // Makes wait what is prepared, one event after the other. If 1024 wait, the oldest goes.
    pub(crate) fn commit(&mut self)
        ensures { self.new ≡ committed_in self.old }
    {
        let (is, missed) = admit(&mut self.events, self.is, self.missed);
        self.is = is;
        self.missed = missed;
    }

    // Drops what is prepared.
    pub(crate) fn cancel(&mut self)
        ensures { self.new ≡ cancelled_in self.old }
    {
        self.events.truncate(self.is);
    }

    // Takes the number of missed events, or else the oldest event that waits.
    pub(crate) fn next(&mut self) -> Option<Next>
        ensures is { result ≡ next_of self.old.backlog }
        ensures rest { self.new ≡ taken_in self.old }
    {
        if self.missed != 0 {
            let missed = self.missed;
            self.missed = 0;
            return Some(Next::Missed(missed));
        }
        if self.is == 0 {
            return None;
        }
        self.is -= 1;
        match self.events.pop_front() {
            Some(event) => Some(Next::Event(event)),
            None => None,
        }
    }
}
