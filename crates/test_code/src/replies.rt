//! A reply of each kind, and its copy.
use sled::{CompareAndSwapError, Event, Next, Reply, Subscriber, Tree};
use test_report::{Report, is_same};

// Prints a reply, and whether its copy is the same.
fn tell_reply(report: &Report, reply: Reply) {
    let is_same = is_same(&reply, reply.clone());
    report.tell(format_args!("{reply:?}; its copy is the same: {is_same:?}"));
    drop(reply);
}

// Replies of calls on keys.
fn tell_points(report: &Report) {
    tell_reply(report, Reply::Value(None));
    tell_reply(report, Reply::Value(report.bytes(b"21")));
    tell_reply(report, Reply::Swapped(Ok(())));
    let conflict = CompareAndSwapError {
        current: None,
        proposed: report.bytes(b"21"),
    };
    tell_reply(report, Reply::Swapped(Err(conflict)));
    tell_reply(report, Reply::Number(7));
    tell_reply(report, Reply::End);
}

// Replies of whole calls.
fn tell_wholes(report: &Report) {
    tell_reply(report, Reply::Done);
    tell_reply(report, Reply::Pair(None));
    tell_reply(report, Reply::Pair(report.pair(b"ulm", b"21")));
    if let Some((database, name)) = report.pair(b"weather", b"t") {
        let tree = Tree {
            database,
            name,
            number: 2,
        };
        tell_reply(report, Reply::Tree(tree));
    }
    tell_reply(report, Reply::Flag(true));
}

// Replies about subscribers.
fn tell_told(report: &Report) {
    tell_reply(report, Reply::Subscriber(Subscriber(3)));
    tell_reply(report, Reply::Next(None));
    tell_reply(report, Reply::Next(Some(Next::Missed(4))));
    let key = report.bytes(b"ulm");
    let event = key.map(|key| Next::Event(Event::Remove { key }));
    tell_reply(report, Reply::Next(event));
}

/// Prints each of them, and whether its copy is the same.
pub fn tell(report: &Report) {
    tell_points(report);
    tell_wholes(report);
    tell_told(report);
}
