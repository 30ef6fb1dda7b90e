//! Subscribers of callers, and what they get.
use crate::caller::{Book, Way, outcome_of, tree_of};
use crate::scene::Scene;
use crate::text::Text;
use sled::{Reply, Subscriber};
use std::sync::Wait;
use std::sync::ledger::Ledger;

// Watches the keys that a number chooses: all of a tree, those that begin with a letter, or one and what begins with it.
fn watch<L: Ledger, R: Wait>(
    rt: &R,
    scene: &Scene,
    way: &mut Way<L>,
    book: &mut Book,
    choice: u64,
) {
    let Book {
        text,
        side,
        listener,
        ..
    } = book;
    let tree = tree_of(scene, side, choice);
    let key = scene.plan.key(choice >> 8);
    let prefix: &[u8] = match choice >> 44 & 3 {
        0 | 1 => &[],
        2 => &key[..1],
        _ => &key,
    };
    scene.before(text);
    text.on(b" watch ", tree, prefix);
    let answer = way.watch_prefix(rt, scene.plan.alloc, tree, prefix);
    if let Ok(subscriber) = &answer {
        *listener = subscriber.0;
    }
    let answer = answer.map(|subscriber| Reply::Subscriber(subscriber));
    scene.ended(text, outcome_of(answer));
}

// Drops the caller's subscriber.
fn unsubscribe<L: Ledger, R: Wait>(rt: &R, scene: &Scene, way: &mut Way<L>, book: &mut Book) {
    let Book { text, listener, .. } = book;
    scene.before(text);
    text.number(b" unsubscribe ", *listener);
    let answer = way.unsubscribe(rt, &Subscriber(*listener));
    scene.ended(text, outcome_of(answer.map(|()| Reply::Done)));
    *listener = 0;
}

// What a subscriber gets next.
fn next<L: Ledger, R: Wait>(
    rt: &R,
    scene: &Scene,
    way: &mut Way<L>,
    text: &mut Text,
    subscriber: u64,
) {
    scene.before(text);
    text.number(b" next ", subscriber);
    let answer = way.next(rt, &Subscriber(subscriber));
    scene.ended(text, outcome_of(answer.map(|next| Reply::Next(next))));
}

/// Watches keys, or drops the caller's subscriber, or takes what waits for it, or for that of another caller.
pub fn listen<L: Ledger, R: Wait>(
    rt: &R,
    scene: &Scene,
    way: &mut Way<L>,
    book: &mut Book,
    choice: u64,
) {
    match choice >> 36 & 15 {
        // The caller may have had a subscriber, whose events go on to wait.
        0 => watch(rt, scene, way, book, choice),
        _ if book.listener == 0 => watch(rt, scene, way, book, choice),
        1 => unsubscribe(rt, scene, way, book),
        2 | 3 => next(rt, scene, way, &mut book.text, choice >> 40 & 15),
        _ => {
            for _ in 0..choice >> 40 & 7 {
                next(rt, scene, way, &mut book.text, book.listener);
            }
        }
    }
}
