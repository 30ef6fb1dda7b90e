//! Subscribers, each of which has a queue of the events of its tree, and a count of those that it missed.
ghost use Rattle.std.specs.Prelude.{◌≡◌, IfOk, IfErr, Some, None, option_map};
ghost use Rattle.sled_model.specs.Backlog.{no_backlog, next_of};
ghost use Rattle.sled_model.specs.Queues.{backlog_in, without_next};

use crate::db::Db;
use sled_model::{MergeOperator, Next, Subscriber, Tree};
use sled_nodes::{IVec, Result};
use sled_store::Pages;

impl<P: Pages, M: MergeOperator> Db<P, M> {
    ghost use Rattle.sled.specs.Watch.{WatchesDb, RefusesWatch, TakesFromDb, EndsSubscriber};
    ghost use Rattle.sled.specs.Wholes.{KeepsMaps, KeepsOthers, queue_in};

    /// A new subscriber to the keys of a tree that begin with a prefix. From now on each change of such a key that is decided is
    /// put into its queue, in order, and `next` takes it out. At most 1024 events wait there: if one more comes, the oldest goes
    /// and is counted, and `next` returns how many were missed so. A slow subscriber delays no call. Subscribers are numbered
    /// from 1, and no number is given twice until the database is opened again.
    ///
    /// Refused as `check` refuses, then for want of memory alone, and with `Unsupported` once all numbers of 64 bits are given.
    /// Then nothing changes.
    ///
    /// ```
    /// let subscriber = db.watch_prefix(&tree, b"ul")?;
    /// db.insert(&tree, b"ulm", b"21")?; // Its event waits for the subscriber.
    /// ```
    pub fn watch_prefix(&mut self, tree: &Tree, prefix: &[u8]) -> Result<Subscriber>
        ensures ok { IfOk result (λ number. WatchesDb P.store M.meant self.old tree.now prefix.now number self.new) }
        ensures err { IfErr result (λ e. RefusesWatch P.store M.meant self.old tree.now prefix.now e self.new) }
        ensures keeps { KeepsMaps P.store M.meant self.old self.new }
        ensures queue { IfOk result (λ number. queue_in P.store M.meant self.new number ≡ Some (record { tree = tree.now.number; prefix = prefix.now; backlog = no_backlog })) }
        ensures others { IfOk result (λ number. KeepsOthers P.store M.meant number self.old self.new) }
    {
        if let Err(e) = self.check(tree) {
            return Err(e);
        }
        let prefix = match IVec::from_slice(self.alloc, prefix) {
            Ok(prefix) => prefix,
            Err(e) => return Err(e),
        };
        self.queues.watch(self.alloc, tree.number, prefix)
    }

    /// What a subscriber gets next. If it missed events since that was returned last, it is `Missed` with their count, and the events
    /// that wait stay; else it is the oldest event that waits, which is taken out. It answers at once: `None` if nothing waits, and
    /// for a subscriber that is not known. It is never refused, takes no memory, and serves a closed database too. The events that
    /// waited when their tree was dropped can still be taken.
    ///
    /// A subscriber that keeps a copy of its part of the tree by the events has to copy that part anew once it gets `Missed`. The events
    /// that wait then are older than the new copy: it takes them first, or watches anew.
    ///
    /// ```
    /// // All that wait, in the order in which the changes were decided: at most a count, and then `QUEUE_LIMIT` events.
    /// let mut missed = 0;
    /// for _ in 0..QUEUE_LIMIT + 1 {
    ///     match db.next(&subscriber) {
    ///         Some(Next::Event(event)) => {
    ///             let changed = event.key().as_ref();
    ///         }
    ///         Some(Next::Missed(count)) => missed = count,
    ///         None => break,
    ///     }
    /// }
    /// let has_to_copy_anew = missed > 0;
    /// ```
    pub fn next(&mut self, subscriber: &Subscriber) -> Option<Next>
        ensures takes { TakesFromDb P.store M.meant self.old subscriber.now result self.new }
        ensures keeps { KeepsMaps P.store M.meant self.old self.new }
        ensures gives { result ≡ next_of (backlog_in (queue_in P.store M.meant self.old subscriber.now)) }
        ensures queue { queue_in P.store M.meant self.new subscriber.now ≡ option_map without_next (queue_in P.store M.meant self.old subscriber.now) }
        ensures others { KeepsOthers P.store M.meant subscriber.now self.old self.new }
        ensures same { self.new ≡ record self.old { queues = self.new.queues } }
    {
        self.queues.next(subscriber)
    }

    /// Gives the queue of a subscriber up, with what waits there. It is never refused, takes no memory, and serves a
    /// closed database too. For a subscriber that is not known it does nothing.
    ///
    /// ```
    /// db.unsubscribe(&subscriber);
    /// let next = db.next(&subscriber); // `None`
    /// ```
    pub fn unsubscribe(&mut self, subscriber: &Subscriber)
        ensures ends { EndsSubscriber P.store M.meant self.old subscriber.now self.new }
        ensures keeps { KeepsMaps P.store M.meant self.old self.new }
        ensures queue { queue_in P.store M.meant self.new subscriber.now ≡ None }
        ensures others { KeepsOthers P.store M.meant subscriber.now self.old self.new }
        ensures same { self.new ≡ record self.old { queues = self.new.queues } }
    {
        self.queues.unsubscribe(subscriber);
    }
}
