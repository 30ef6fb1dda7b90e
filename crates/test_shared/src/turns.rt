//! What a caller does in a trial, turn by turn.
use crate::asking::{Ask, Told};
use crate::beside::Scene;
use crate::caller::Caller;
use sled_machine::shared::{Gate, Made};
use sled_model::{Call, Reply};
use std::sync::atomic::{AtomicU64, Ordering};
use std::thread::yield_now;

/// What callers signal each other by a number that is 0 at first.
#[derive(Clone, Copy)]
pub enum Signal {
    /// Another caller may begin. If there is a subscriber, it is its number.
    Ready,
    /// So often something was done.
    Count,
    Answered,
    Ended,
    /// The slot of a call that others step.
    Slot,
    /// Slots of calls that are left unstepped.
    Before,
    After,
}

/// Where a number is put.
#[derive(Clone, Copy)]
pub enum Place<'a> {
    /// At this key.
    Key(&'a [u8]),
    /// At itself.
    Itself,
    /// Into the queue.
    Queue,
}

/// What is taken that others put.
#[derive(Clone, Copy)]
pub enum Taken {
    Events,
    Jobs,
}

/// What a caller does.
#[derive(Clone, Copy)]
pub enum Turn<'a> {
    /// Makes a call, with this expected outcome.
    Ask(Ask<'a>, Told),
    /// Inserts this value at this key, with that expected outcome, after it went on so often. After its first step the others make their
    /// call.
    Meet(&'a [u8], &'a [u8], Told, u64),
    /// Inserts this value at this key, with that expected outcome. After each of so many steps that went on another caller makes a call.
    HeldUp(&'a [u8], &'a [u8], Told, u64),
    /// Holds up so many steps of the call of another caller, each by an insert of its number at this key.
    HoldUp(&'a [u8], u64),
    /// Puts the numbers from 1 on there, so many, or until the tree is not there any more.
    Put(Place<'a>, u64),
    /// Makes a call so often that answers a number. Each is greater than the one before.
    Count(Ask<'a>, usize),
    /// Makes a whole call by its own name, with this expected outcome.
    Named(Ask<'a>, Told),
    /// Makes a call so often, with any outcome.
    Again(Ask<'a>, u64),
    /// Begins a call.
    Begin(Ask<'a>, Signal),
    /// Steps the call that was begun for others as often as the trial says. It goes on each time.
    GoOn,
    /// The same from there on, until it has so many moves.
    GoOnTo(u64),
    /// One step of that call, which answers this.
    Step(Told),
    /// Steps that call, a scan, to its end. It gives the pairs with the numbers from 1 on as their keys, so many.
    ScanOn(u64),
    /// Gives that call up.
    Abandon,
    /// Begins so many calls, one after the other, and gives each up. Its slot is gone then.
    GiveUp(u64),
    /// Takes an id. If it is not the first, it is the one after the last.
    NextId,
    /// Makes these calls, each of which has its expected outcome and takes no id.
    TakeNoId(&'a [(Ask<'a>, Told)]),
    /// Subscribes to all keys.
    Watch,
    /// Makes a call that takes what others put, an event or a job, until so many are returned or missed.
    Take(Taken, u64),
    /// The one of two callers that comes here last gets so many events, and that it missed so many.
    Lag(u64, u64),
    /// It has made so many calls, as it knows itself.
    Made(usize),
    /// It has made one insert of this key, which had no value, and nothing else.
    MadeInsert(&'a [u8]),
    /// Waits for another caller.
    Wait(Signal),
    Set(Signal),
}

// So often a number is looked at.
const LOOKS: u64 = 100_000_000;

// Looks at a number until another thread has set it to more than this. Whether that came. After each look others may run, since on a busy
// machine the other thread may have to wait for its turn.
fn is_more(number: &AtomicU64, than: u64) -> bool {
    for _ in 0..LOOKS {
        if number.load(Ordering::SeqCst) > than {
            return true;
        }
        yield_now();
    }
    false
}

// So many events are asked for at most.
const EVENTS: u64 = 10_000;

// Waits until another caller has set the number to more than this.
fn wait_for_more<C: Caller>(caller: &C, number: &AtomicU64, than: u64) {
    caller.require(is_more(number, than), "the other thread did something");
}

// A gate at which the others make their calls, when it is passed for the first times, so often. At the first one the leaf is read.
#[derive(Clone, Copy)]
struct Meets<'a> {
    scene: &'a Scene,
    often: u64,
}

impl Gate for Meets<'_> {
    fn between(&self) {
        let before = self.scene.count.fetch_add(1, Ordering::SeqCst);
        if before < self.often {
            self.scene
                .ready
                .store(before.wrapping_add(1), Ordering::SeqCst);
            if !is_more(&self.scene.answered, before) {
                self.scene.vain.fetch_add(1, Ordering::SeqCst);
            }
        }
    }
}

// An insert that passes the gate so often, and answers this.
fn meet<C: Caller>(
    scene: &Scene,
    caller: &mut C,
    (key, value): (&[u8], &[u8]),
    wanted: Told,
    times: u64,
) {
    let told = caller.insert_past(key, value, &Meets { scene, often: 1 });
    let passed = scene.count.load(Ordering::SeqCst);
    let came = scene.vain.load(Ordering::SeqCst) == 0;
    caller.require(
        told == wanted && passed == times && came,
        "the others' call between",
    );
}

// An insert that is held up so often, and answers this.
fn held_up<C: Caller>(
    scene: &Scene,
    caller: &mut C,
    (key, value): (&[u8], &[u8]),
    wanted: Told,
    often: u64,
) {
    let told = caller.insert_past(key, value, &Meets { scene, often });
    let passed = scene.count.load(Ordering::SeqCst);
    let came = scene.vain.load(Ordering::SeqCst) == 0;
    caller.require(
        told == wanted && passed > often && came,
        "the call goes on however often it is held up",
    );
}

fn hold_up<C: Caller>(scene: &Scene, caller: &mut C, key: &[u8], often: u64) {
    for number in 0..often {
        wait_for_more(caller, &scene.ready, number);
        let next = number.wrapping_add(1);
        let told = caller.ask(Ask::Insert(key, &next.to_be_bytes()));
        caller.require(
            told == Told::NoValue || told == Told::Value(number),
            "the number before",
        );
        scene.answered.store(next, Ordering::SeqCst);
    }
}

// The call that puts these bytes there.
fn putting<'a>(place: Place<'a>, bytes: &'a [u8]) -> Ask<'a> {
    match place {
        Place::Key(key) => Ask::Insert(key, bytes),
        Place::Itself => Ask::Insert(bytes, bytes),
        Place::Queue => Ask::Push(bytes),
    }
}

// Signals how many were put in.
fn put_on<C: Caller>(scene: &Scene, caller: &mut C, place: Place<'_>, times: u64) {
    for number in 1..=times {
        let bytes = number.to_be_bytes();
        match caller.ask(putting(place, &bytes)) {
            Told::NoValue | Told::Value(_) | Told::Number => {
                scene.count.store(number, Ordering::SeqCst);
            }
            told => {
                caller.require(told == Told::NoSuchTree, "decided, or no tree");
                return;
            }
        }
    }
}

fn count_on<C: Caller>(caller: &mut C, ask: Ask<'_>, times: usize) {
    let mut last = 0;
    for _ in 0..times {
        match caller.ask(ask) {
            Told::Value(number) if last < number => last = number,
            _ => caller.require(false, "each reply is above the one before"),
        }
    }
}

// Steps from so many moves to so many, each of which goes on.
fn go_on<C: Caller>(scene: &Scene, caller: &mut C, from: u64, to: u64) {
    let slot = scene.slot.load(Ordering::SeqCst);
    for _ in from..to {
        let told = caller.ask(Ask::Step(slot));
        caller.require(told == Told::Moved, "the call goes on");
    }
}

// A scan takes so many steps at most.
const STEPS: u64 = 10_000;

fn scan_on<C: Caller>(scene: &Scene, caller: &mut C, pairs: u64) {
    let slot = scene.slot.load(Ordering::SeqCst);
    let (mut last, mut ended) = (0u64, false);
    for _ in 0..STEPS {
        match caller.ask(Ask::Step(slot)) {
            Told::Moved => (),
            Told::Pair(number) if number == last.wrapping_add(1) => last = number,
            told => {
                ended = told == Told::End;
                break;
            }
        }
    }
    caller.require(ended && last == pairs, "each pair, in order, and the end");
}

fn give_up<C: Caller>(caller: &mut C, times: u64) {
    for _ in 0..times {
        let slot = caller.begin(Ask::Get(b"a"));
        let told = caller.ask(Ask::Abandon(slot));
        let gone = caller.ask(Ask::Step(slot));
        caller.require(
            told == Told::Abandoned && gone == Told::NoSuchSlot,
            "the call is given up, and its slot is gone",
        );
    }
}

fn next_id<C: Caller>(scene: &Scene, caller: &mut C) {
    let id = caller.id();
    let last = scene.id.swap(id, Ordering::SeqCst);
    caller.require(last == 0 || id == last.wrapping_add(1), "the next id");
}

fn take_no_id<C: Caller>(scene: &Scene, caller: &mut C, asks: &[(Ask<'_>, Told)]) {
    for (ask, wanted) in asks {
        next_id(scene, caller);
        let told = caller.ask(*ask);
        caller.require(told == *wanted, "what the call is to tell");
        next_id(scene, caller);
    }
}

fn watch<C: Caller>(scene: &Scene, caller: &mut C) {
    match caller.ask(Ask::Watch) {
        Told::Subscriber(number) => scene.ready.store(number, Ordering::SeqCst),
        _ => caller.require(false, "a subscriber"),
    }
}

// Each event must be of a later key than the one before, and each job a later one.
fn take<C: Caller>(scene: &Scene, caller: &mut C, taken: Taken, wanted: u64) {
    let next = match taken {
        Taken::Events => Ask::Next(scene.ready.load(Ordering::SeqCst)),
        Taken::Jobs => Ask::Take,
    };
    let (mut sum, mut last) = (0u64, 0u64);
    for _ in 0..EVENTS {
        if sum >= wanted {
            break;
        }
        wait_for_more(caller, &scene.count, sum);
        match caller.ask(next) {
            Told::Event(number) | Told::Job(number) if last < number => {
                last = number;
                sum = sum.wrapping_add(1);
            }
            Told::Missed(count) => sum = sum.wrapping_add(count),
            _ => caller.require(false, "one above the one before, or what was missed"),
        }
    }
    caller.require(sum == wanted, "all are told or missed");
}

fn lag<C: Caller>(scene: &Scene, caller: &mut C, events: u64, missed: u64) {
    if scene.ended.fetch_add(1, Ordering::SeqCst) == 0 {
        return;
    }
    let next = Ask::Next(scene.ready.load(Ordering::SeqCst));
    let (mut told, mut lost) = (0u64, 0u64);
    for _ in 0..EVENTS {
        match caller.ask(next) {
            Told::Event(_) => told = told.wrapping_add(1),
            Told::Missed(count) => lost = lost.wrapping_add(count),
            _ => break,
        }
    }
    caller.require(told == events && lost == missed, "the latest are told");
}

fn is_insert(made: &[Made], key: &[u8]) -> bool {
    match made {
        [Made::Point(_, Call::Insert(new, _), Reply::Value(None))] => new.as_ref() == key,
        _ => false,
    }
}

// The number of a signal.
fn number_of(scene: &Scene, signal: Signal) -> &AtomicU64 {
    match signal {
        Signal::Ready => &scene.ready,
        Signal::Count => &scene.count,
        Signal::Answered => &scene.answered,
        Signal::Ended => &scene.ended,
        Signal::Slot => &scene.slot,
        Signal::Before => &scene.before,
        Signal::After => &scene.after,
    }
}

// One turn of a call that stays in its slot, or one that is none.
fn begin_or_wait<C: Caller>(scene: &Scene, caller: &mut C, turn: Turn<'_>) {
    match turn {
        Turn::Begin(ask, signal) => {
            let slot = caller.begin(ask);
            caller.require(slot > 0, "a slot");
            number_of(scene, signal).store(slot, Ordering::SeqCst);
        }
        Turn::Step(wanted) => {
            let told = caller.ask(Ask::Step(scene.slot.load(Ordering::SeqCst)));
            caller.require(told == wanted, "what the step is to tell");
        }
        Turn::Abandon => {
            let told = caller.ask(Ask::Abandon(scene.slot.load(Ordering::SeqCst)));
            caller.require(told == Told::Abandoned, "the call is given up");
        }
        Turn::Named(ask, wanted) => {
            let told = caller.ask_named(ask);
            caller.require(told == wanted, "what the call by its name is to tell");
        }
        Turn::Again(ask, times) => {
            for _ in 0..times {
                caller.ask(ask);
            }
        }
        Turn::NextId => next_id(scene, caller),
        Turn::TakeNoId(asks) => take_no_id(scene, caller, asks),
        Turn::ScanOn(pairs) => scan_on(scene, caller, pairs),
        Turn::GiveUp(times) => give_up(caller, times),
        Turn::Made(count) => caller.require(caller.made().len() == count, "its own calls"),
        Turn::MadeInsert(key) => caller.require(is_insert(caller.made(), key), "its own insert"),
        Turn::Wait(signal) => wait_for_more(caller, number_of(scene, signal), 0),
        Turn::Set(signal) => number_of(scene, signal).store(1, Ordering::SeqCst),
        _ => (),
    }
}

fn take_turn<C: Caller>(scene: &Scene, caller: &mut C, turn: Turn<'_>) {
    match turn {
        Turn::Ask(ask, wanted) => {
            let told = caller.ask(ask);
            caller.require(told == wanted, "what the call is to tell");
        }
        Turn::Meet(key, value, wanted, times) => meet(scene, caller, (key, value), wanted, times),
        Turn::HeldUp(key, value, told, often) => held_up(scene, caller, (key, value), told, often),
        Turn::HoldUp(key, often) => hold_up(scene, caller, key, often),
        Turn::Put(place, times) => put_on(scene, caller, place, times),
        Turn::Count(ask, times) => count_on(caller, ask, times),
        Turn::GoOn => go_on(scene, caller, 0, scene.moves),
        Turn::GoOnTo(moves) => go_on(scene, caller, scene.moves, moves),
        Turn::Watch => watch(scene, caller),
        Turn::Take(taken, wanted) => take(scene, caller, taken, wanted),
        Turn::Lag(events, missed) => lag(scene, caller, events, missed),
        other => begin_or_wait(scene, caller, other),
    }
}

/// Takes one turn after the other.
pub fn take_turns<C: Caller>(scene: &Scene, caller: &mut C, turns: &[Turn<'_>]) {
    for turn in turns {
        take_turn(scene, caller, *turn);
    }
}
