//! The queues of all subscribers.
ghost use Rattle.std.specs.Prelude.{◌≡◌, ◌+◌, Some, None, OnOk, OnErr, IfOk, IfErr};
ghost use Rattle.sled_nodes.specs.declared.error.Error.TheVariants.{NoMemory};
ghost use Rattle.sled_queues.specs.Values.{queue_at};
ghost use Rattle.sled_queues.specs.Queues.{AreQueues, Becomes, no_queues, with_subscriber, prepared, committed, cancelled, next_at, without_next_of, without_subscriber};
ghost use Rattle.sled_queues.specs.Tells.{is_watched_as, refuses_watch};

use crate::lists::{add, cancel_all, commit_all, prepare_all, remove, take};
use crate::prefixes::{Lengths, any_in, enlist, find, unlist};
use crate::waiting::Waiting;
use sled_model::{Event, Next, Subscriber};
use sled_nodes::texts::NUMBERS_USED_UP;
use sled_nodes::{Error, IVec, Result};
use std::alloc::Global;
use std::collections::BTreeMap;
use std::marker::Model;

/// The queues of the subscribers of a database. At most 1024 events wait in each: if one more comes, the oldest goes and is counted.
/// An event costs the subscribers that watch a beginning of its key alone.
pub struct Queues {
    // the queues by subscriber
    queues: BTreeMap<u64, Waiting>,
    // the subscribers of each tree that has some, by the prefix that they watch
    lists: BTreeMap<u64, Lengths>,
    // those in whose queues something may be prepared
    pending: Vec<u64>,
    // how many numbers were given
    given: u64,
}

// By hand, so that each function that drops the queues cites this, and does not prove again how its parts are dropped.
impl Drop for Queues {
    fn drop(self) {
        let Queues {
            queues,
            lists,
            pending,
            given: _,
        } = self;
        drop(queues);
        drop(lists);
        drop(pending);
    }
}

impl Model for Queues {
    ghost use Rattle.std.specs.Ordering.{nat_cmp};
    ghost use Rattle.std.specs.BTreeMap.{get};
    ghost use Rattle.sled_queues.specs.Values.{QueuesValue};
    ghost use Rattle.sled_queues.specs.Queues.{AreQueues};
    ghost use Rattle.sled_queues.specs.Lists.{AreListed, ArePending, lists_of};

    ghost Value = { QueuesValue };

    ghost view = { λ q. record { queues = q.queues.entries; given = q.given } };

    ghost invariant = { λ q. AreQueues (record { queues = q.queues.entries; given = q.given }) × AreListed (get nat_cmp q.queues) (lists_of q.lists) × ArePending (get nat_cmp q.queues) q.pending.items };
}

impl Queues {
    /// No subscribers.
    ///
    /// ```
    /// let mut queues = Queues::new(alloc);
    /// ```
    pub fn new(alloc: Global) -> Queues
        ensures { Becomes no_queues 0 result }
    {
        Queues {
            queues: BTreeMap::new(alloc),
            lists: BTreeMap::new(alloc),
            pending: Vec::new(alloc),
            given: 0,
        }
    }

    /// A new subscriber to the keys of a tree that begin with a prefix; the tree is named by its number. The subscriber's
    /// number is the next one, from 1, and no subscriber ever had it. Refused with `NoMemory`, or with `Unsupported` after
    /// the greatest number of 64 bits; then nothing changes.
    ///
    /// ```
    /// let prefix = IVec::from_slice(alloc, b"ul")?;
    /// let subscriber = queues.watch(alloc, tree.number, prefix)?;
    /// ```
    pub fn watch(&mut self, alloc: Global, tree: u64, prefix: IVec) -> Result<Subscriber>
        ensures number { IfOk result (λ n. n ≡ self.old.given + 1) }
        ensures fresh { IfOk result (λ n. queue_at self.old n ≡ None) }
        ensures ok { IfOk result (λ n. Becomes (with_subscriber n tree prefix (queue_at self.old)) n self.new) }
        ensures err { OnErr result (self.new ≡ self.old) }
        ensures cause { IfErr result (refuses_watch self.old.given) }
    {
        if self.given == u64::MAX {
            drop(prefix);
            return Err(Error::Unsupported(NUMBERS_USED_UP));
        }
        let number = self.given + 1;
        if let Err(e) = enlist(&mut self.lists, alloc, tree, prefix.as_ref(), number) {
            drop(prefix);
            return Err(e);
        }
        if let Err(waiting) = add(&mut self.queues, number, Waiting::new(alloc, tree, prefix)) {
            unlist(&mut self.lists, tree, waiting.prefix(), number);
            drop(waiting);
            return Err(Error::NoMemory);
        }
        self.given = number;
        Ok(Subscriber(number))
    }

    /// Whether some subscriber waits for what happens to a key of a tree. If it answers `false`, an event of that key comes into
    /// no queue.
    ///
    /// ```
    /// if queues.is_watched(tree.number, b"ulm") {
    ///     // An event of the key has to be prepared.
    /// }
    /// ```
    #[inline(always)]
    pub fn is_watched(&self, tree: u64, key: &[u8]) -> bool
        ensures { is_watched_as tree key.now (queue_at self.now) result }
    {
        match self.lists.get(&tree) {
            Some(lengths) => any_in(lengths, key),
            None => false,
        }
    }

    /// Prepares an event of a tree: a copy comes behind the events of each queue that waits for it, but `next` does not
    /// return it yet. Refused with `NoMemory` alone, and then nothing changes.
    ///
    /// ```
    /// queues.prepare(tree.number, &event)?;
    /// queues.commit(); // The change is made, and the event waits.
    /// ```
    #[inline(always)]
    pub fn prepare(&mut self, tree: u64, event: &Event) -> Result<()>
        ensures ok { OnOk result (Becomes (prepared tree event.now (queue_at self.old)) self.old.given self.new) }
        ensures err { OnErr result (self.new ≡ self.old) }
        ensures cause { IfErr result (λ e. e ≡ NoMemory) }
    {
        let start = self.pending.len();
        if let Err(e) = find(&self.lists, tree, event.key().as_ref(), &mut self.pending) {
            self.pending.truncate(start);
            return Err(e);
        }
        if let Err(e) = prepare_all(&mut self.queues, &self.pending[start..], event) {
            self.pending.truncate(start);
            return Err(e);
        }
        Ok(())
    }

    /// Makes wait all that is prepared. If 1024 events wait in a queue, the oldest goes for each that comes, and is counted. It
    /// takes no memory.
    ///
    /// ```
    /// queues.commit(); // Now `next` gives it.
    /// ```
    #[inline(always)]
    pub fn commit(&mut self)
        ensures { Becomes (committed (queue_at self.old)) self.old.given self.new }
    {
        commit_all(&mut self.queues, &self.pending);
        self.pending.clear();
    }

    /// Drops all that is prepared.
    ///
    /// ```
    /// queues.cancel(); // The change was not made.
    /// ```
    pub fn cancel(&mut self)
        ensures { Becomes (cancelled (queue_at self.old)) self.old.given self.new }
    {
        cancel_all(&mut self.queues, &self.pending);
        self.pending.clear();
    }

    /// Returns how many events a subscriber missed, if it missed some since that was returned last, and takes the oldest event
    /// that waits otherwise: `None` if none waits, and for an unknown subscriber. It takes no memory, and no longer if many wait.
    ///
    /// ```
    /// match queues.next(&subscriber) {
    ///     Some(Next::Event(event)) => drop(event), // The oldest one that waits.
    ///     Some(Next::Missed(missed)) => drop(missed), // So many came, and went before they were taken.
    ///     None => {} // Nothing is new.
    /// }
    /// ```
    pub fn next(&mut self, subscriber: &Subscriber) -> Option<Next>
        ensures is { result ≡ next_at (queue_at self.old subscriber.now) }
        ensures rest { Becomes (without_next_of subscriber.now (queue_at self.old)) self.old.given self.new }
    {
        take(&mut self.queues, subscriber.0)
    }

    /// Gives a subscriber's queue up, with its events. It takes no memory. Of an unknown subscriber nothing changes.
    ///
    /// ```
    /// queues.unsubscribe(&subscriber);
    /// ```
    pub fn unsubscribe(&mut self, subscriber: &Subscriber)
        ensures { Becomes (without_subscriber subscriber.now (queue_at self.old)) self.old.given self.new }
    {
        if let Some(waiting) = remove(&mut self.queues, subscriber.0) {
            unlist(
                &mut self.lists,
                waiting.tree(),
                waiting.prefix(),
                subscriber.0,
            );
            drop(waiting);
        }
    }

    /// What always holds: the numbers, and that at most 1024 events wait in a queue. It does nothing.
    ///
    /// ```
    /// queues.audit(); // From here on a proof knows that no queue has more than 1024 events.
    /// ```
    pub fn audit(&self)
        ensures { AreQueues self.now }
    {
        let _ = &self.queues;
    }
}
