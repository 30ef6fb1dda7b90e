//! The events that wait for subscribers.
ghost use Rattle.std.specs.Prelude.{◌≡◌, OnOk, OnErr, option_map};
ghost use Rattle.sled_queues.specs.Values.{queue_at};
ghost use Rattle.sled_queues.specs.Queues.{Becomes, prepared, committed, committed_in, cancelled, next_at, without_next_of};

use sled_model::{Event, Next, Subscriber};
use sled_nodes::Result;
use sled_queues::Queues;

/// Prepares an event of a tree. No subscriber gets it yet.
pub fn prepare(queues: &mut Queues, tree: u64, event: &Event) -> Result<()>
    ensures ok { OnOk result (Becomes (prepared tree event.now (queue_at queues.old)) queues.old.given queues.new) }
    ensures err { OnErr result (queues.new ≡ queues.old) }
{
    queues.prepare(tree, event)
}

/// Makes wait what is prepared.
pub fn commit(queues: &mut Queues)
    ensures { Becomes (committed (queue_at queues.old)) queues.old.given queues.new }
{
    queues.commit();
}

/// Makes wait what is prepared, and returns what is next for a subscriber.
pub fn commit_and_next(queues: &mut Queues, subscriber: &Subscriber) -> Option<Next>
    ensures is { result ≡ next_at (option_map committed_in (queue_at queues.old subscriber.now)) }
    ensures rest { Becomes (without_next_of subscriber.now (committed (queue_at queues.old))) queues.old.given queues.new }
{
    commit(queues);
    queues.next(subscriber)
}

/// Drops what is prepared.
pub fn cancel(queues: &mut Queues)
    ensures { Becomes (cancelled (queue_at queues.old)) queues.old.given queues.new }
{
    queues.cancel();
}

/// Returns what is next for a subscriber.
pub fn next(queues: &mut Queues, of: &Subscriber) -> Option<Next>
    ensures is { result ≡ next_at (queue_at queues.old of.now) }
    ensures rest { Becomes (without_next_of of.now (queue_at queues.old)) queues.old.given queues.new }
{
    queues.next(of)
}
