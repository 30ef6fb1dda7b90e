//! A store of events. The key of each is its topic and then its id, so that the events of a topic are those with one prefix, in the order
//! in which they came.
#![tactic(auto)]

use ordered_keys::{push_number, push_text, read_number};
use sled::{Db, Event, MemPages, Next, QUEUE_LIMIT, Subscriber, Tree, empty_pages};
use std::alloc::Global;

// What the keys of a topic begin with, and no others do: those of `newsletter` do not begin as those of `news`.
fn prefix_of(alloc: Global, topic: &[u8]) -> sled::Result<Vec<u8>> {
    let mut prefix = Vec::new(alloc);
    push_text(&mut prefix, topic)?;
    Ok(prefix)
}

fn append(db: &mut Db<MemPages>, events: &Tree, topic: &[u8], text: &[u8]) -> sled::Result<()> {
    let id = db.generate_id()?;
    let mut key = prefix_of(db.allocator(), topic)?;
    push_number(&mut key, id)?;
    db.insert(events, key.as_slice(), text)?;
    Ok(())
}

fn show(rt: &HostRuntime, db: &Db<MemPages>, events: &Tree, topic: &[u8]) -> sled::Result<()> {
    let prefix = prefix_of(db.allocator(), topic)?;
    for event in db.scan_prefix(events, prefix.as_slice())? {
        let (key, text) = event?;
        let rest = key.as_ref().strip_prefix(prefix.as_slice());
        if let Some((id, _)) = rest.and_then(|rest| read_number(rest)) {
            let _ = println!(rt; "  {id}: {}", text.as_ref().escape_ascii());
        }
    }
    Ok(())
}

// Takes all that waits for a subscriber: at most a count of what it missed, and then so many events.
fn hear(rt: &HostRuntime, db: &mut Db<MemPages>, subscriber: &Subscriber) {
    for _ in 0..QUEUE_LIMIT + 1 {
        let _ = match db.next(subscriber) {
            Some(Next::Event(Event::Insert { key: _key, value })) => {
                println!(rt; "heard: {}", value.as_ref().escape_ascii())
            }
            Some(Next::Event(Event::Remove { key: _key })) => {
                println!(rt; "an event was taken out")
            }
            Some(Next::Missed(count)) => println!(rt; "{count} events missed"),
            None => return,
        };
    }
}

fn main(rt: HostRuntime) -> sled::Result<()> {
    let alloc = rt.alloc();
    let mut db = Db::open(alloc, empty_pages(alloc), b"events").map_err(|(_, e)| e)?;
    let events = db.open_tree(b"events")?;
    let sport = prefix_of(alloc, b"sport")?;
    let subscriber = db.watch_prefix(&events, sport.as_slice())?;
    append(&mut db, &events, b"news", b"rain in Ulm")?;
    append(&mut db, &events, b"sport", b"Bern 2, Ulm 1")?;
    append(&mut db, &events, b"newsletter", b"all of May")?;
    append(&mut db, &events, b"news", b"sun in Bern")?;
    hear(&rt, &mut db, &subscriber);
    let _ = println!(rt; "news:");
    show(&rt, &db, &events, b"news")
}
