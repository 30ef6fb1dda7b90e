//! Callers that work on a database, each in a thread of its own, until they give their handles back or lose them.
use crate::caller::{
    Book, Way, ask, batch, drop_named, fetch, group, number, open, point, read_all, take, transfer,
};
use crate::listen::listen;
use crate::scene::Scene;
use crate::short::{look, page_through, short};
use crate::slots::{begin_last, leave, meddle, work};
use crate::text::Text;
use crate::trees::{exchange, import, number_inside};
use example_parts::Adds;
use sled::{MemPages, Result};
use sled_machine::shared;
use std::sync::Wait;
use std::sync::ledger::Ledger;
use std::thread::{Threads, for_each_mut};

/// A database that is shared.
pub type Shared<L> = shared::Db<MemPages, L, Adds>;

/// What is under its lock.
pub type Gathered<L> = shared::State<MemPages, L, Adds>;

// A caller: its number, its handle until that is lost, and its book.
#[derive(Drop)]
struct Desk<L: Ledger> {
    number: u64,
    way: Option<Way<L>>,
    book: Book,
}

// How a round ends.
#[derive(Clone, Copy)]
pub struct Ending {
    /// Some callers lose their handles.
    pub loses: bool,
    /// All handles are dropped, and the state is reclaimed.
    pub reclaims: bool,
}

// The call on a key, in a slot or at once, the read, or the call on subscribers that a number below 74 chooses.
fn make_on_keys<L: Ledger, R: Wait>(
    rt: &R,
    scene: &Scene,
    way: &mut Way<L>,
    book: &mut Book,
    choice: u64,
) {
    match choice % 100 {
        0..=15 => point(rt, scene, way, book, choice),
        16..=23 => short(rt, scene, way, book, choice),
        24..=48 => work(rt, scene, way, book, choice),
        49..=53 => meddle(rt, scene, way, book, choice),
        54..=62 => ask(rt, scene, way, book, choice),
        63 => look(rt, scene, way, book, choice),
        64 => page_through(rt, scene, way, book, choice),
        65 | 66 => read_all(rt, scene, way, book, choice),
        _ => listen(rt, scene, way, book, choice),
    }
}

// The other call that a number from 74 on chooses.
fn make_whole<L: Ledger, R: Wait>(
    rt: &R,
    scene: &Scene,
    way: &mut Way<L>,
    book: &mut Book,
    choice: u64,
) {
    match choice % 100 {
        74..=77 => take(rt, scene, way, book, choice),
        78..=80 => batch(rt, scene, way, book, choice),
        81 | 82 => group(rt, scene, way, book, choice),
        83..=85 => number(rt, scene, way, book, false),
        86 => number(rt, scene, way, book, true),
        87 | 88 => open(rt, scene, way, book, choice),
        89 => drop_named(rt, scene, way, book, choice),
        90..=92 => fetch(rt, scene, way, book, choice),
        93..=95 => transfer(rt, scene, way, book, choice),
        96 | 97 => exchange(rt, scene, way, book, choice),
        98 => import(rt, scene, way, book, choice),
        _ => number_inside(rt, scene, way, book, choice),
    }
}

// The call that a number chooses.
fn make<L: Ledger, R: Wait>(rt: &R, scene: &Scene, way: &mut Way<L>, book: &mut Book, choice: u64) {
    if choice % 100 < 74 {
        make_on_keys(rt, scene, way, book, choice);
    } else {
        make_whole(rt, scene, way, book, choice);
    }
}

// All calls of a caller.
fn make_all<L: Ledger, R: Wait>(
    rt: &R,
    scene: &Scene,
    number: u64,
    way: &mut Way<L>,
    book: &mut Book,
) {
    for turn in 0..scene.plan.turns {
        make(rt, scene, way, book, scene.plan.choice(number, turn));
    }
}

impl<L: Ledger> Desk<L> {
    // The caller works. If handles are lost, some callers lose theirs with a call in flight.
    fn work<R: Wait>(&mut self, rt: &R, scene: &Scene, loses: bool) {
        let Some(way) = &mut self.way else {
            return;
        };
        let last = scene.plan.choice(self.number, scene.plan.turns);
        make_all(rt, scene, self.number, way, &mut self.book);
        if loses && last % 3 == 0 {
            begin_last(rt, scene, way, &mut self.book, last);
            drop(self.way.take());
        } else {
            leave(scene, &mut self.book, last);
        }
    }
}

// Adds a caller, which has the next handle.
fn add_desk<L: Ledger>(
    scene: &Scene,
    shared: &mut Shared<L>,
    desks: &mut Vec<Desk<L>>,
) -> Result<()> {
    let way = shared.handle(scene.plan.alloc)?;
    let number = way.number();
    let book = Book {
        text: Text::new(scene.plan.alloc),
        side: None,
        held: 0,
        listener: 0,
    };
    Ok(desks.push(Desk {
        number,
        way: Some(way),
        book,
    })?)
}

// Adds all callers. Whether there was memory for them.
fn add_desks<L: Ledger>(scene: &Scene, shared: &mut Shared<L>, desks: &mut Vec<Desk<L>>) -> bool {
    for _ in 0..scene.plan.callers {
        if let Err(e) = add_desk(scene, shared, desks) {
            drop(e);
            return false;
        }
    }
    true
}

// Each caller works in a thread.
fn work_beside<L: Ledger + Send + Sync, R: Threads + Wait + Sync>(
    rt: &R,
    scene: &Scene,
    loses: bool,
    desks: &mut [Desk<L>],
) {
    let threads = desks.len();
    if threads > 0 {
        for_each_mut(
            rt,
            desks,
            threads,
            &|_, desk| { desk.work(rt, scene, loses) },
        );
    }
}

// Adds the lines of all callers, and takes the handles that are left.
fn handles_of<L: Ledger>(all: &mut Text, desks: &mut [Desk<L>], handles: &mut Vec<Way<L>>) -> bool {
    for desk in desks {
        all.number(b"caller ", desk.number);
        match desk.way.take() {
            Some(way) => {
                all.text(b" kept\n");
                if let Err(failed) = handles.push(way) {
                    drop(failed);
                    return false;
                }
            }
            None => all.text(b" lost\n"),
        }
        all.append(&desk.book.text);
    }
    true
}

// The state, once no handle is left.
fn reclaimed<L: Ledger, R: Wait>(rt: &R, all: &mut Text, shared: Shared<L>) -> Option<Gathered<L>> {
    match shared.reclaim(rt) {
        Ok(state) => {
            all.text(b"reclaimed\n");
            Some(state)
        }
        Err(shared) => {
            drop(shared);
            None
        }
    }
}

// The state: with all handles, or, if some were lost or all are to be dropped, without them.
fn taken<L: Ledger, R: Wait>(
    rt: &R,
    all: &mut Text,
    shared: Shared<L>,
    handles: Vec<Way<L>>,
    reclaims: bool,
) -> Option<Gathered<L>> {
    if reclaims {
        drop(handles);
        return reclaimed(rt, all, shared);
    }
    match shared.gather(rt, handles) {
        Ok(state) => {
            all.text(b"gathered\n");
            Some(state)
        }
        Err((shared, handles)) => {
            drop(handles);
            all.text(b"missing\n");
            reclaimed(rt, all, shared)
        }
    }
}

/// Has all callers of a database work beside each other, and takes the state back. What they made is added to the lines.
pub fn round<L: Ledger + Send + Sync, R: Threads + Wait + Sync>(
    rt: &R,
    scene: &Scene,
    ending: Ending,
    all: &mut Text,
    mut shared: Shared<L>,
) -> Option<Gathered<L>> {
    let mut desks = Vec::new(scene.plan.alloc);
    let mut handles = Vec::new(scene.plan.alloc);
    let ready = add_desks(scene, &mut shared, &mut desks);
    if ready {
        work_beside(rt, scene, ending.loses, desks.as_mut_slice());
    }
    let done = ready && handles_of(all, desks.as_mut_slice(), &mut handles);
    drop(desks);
    if !done {
        all.cut();
    }
    taken(rt, all, shared, handles, ending.reclaims)
}
