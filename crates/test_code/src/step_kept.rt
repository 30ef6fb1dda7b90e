//! Steps of a machine that keep copies of the reply.
use crate::calls::watched;
use machine_alone::Machine;
use sled::{Call, Db, MemPages, Outcome, Reply, Result, Slot, Subscriber, Tree};
use std::ops::Bound;
use test_report::Report;

// More steps than any of the calls takes.
const STEPS: usize = 20;

// A call that begins, and a step of it. Nothing is said of them, so that no function that prints them has more to prove than that.
fn begin(machine: &mut Machine<MemPages>, tree: &Tree, call: Call) -> Result<Slot> {
    machine.begin(tree, call)
}

fn step(machine: &mut Machine<MemPages>, slot: Slot) -> (Outcome, Option<(Reply, Reply)>) {
    machine.step_kept(slot)
}

// Prints the outcome of a step, and the copies that are kept of its reply. Answers whether the call goes on.
fn tell_step(report: &Report, machine: &mut Machine<MemPages>, slot: Slot) -> bool {
    let told = step(machine, slot);
    let goes_on = matches!(&told.0, Outcome::Moved | Outcome::Yielded(..));
    report.tell(format_args!("{:?}, kept: {:?}", told.0, told.1));
    drop(told);
    goes_on
}

// Prints all steps of a call that has begun, or why it has not.
fn tell_steps(report: &Report, machine: &mut Machine<MemPages>, begun: Result<Slot>) {
    match begun {
        Ok(slot) => {
            for _ in 0..STEPS {
                if !tell_step(report, machine, slot) {
                    return;
                }
            }
        }
        Err(e) => report.tell(e),
    }
}

// Prints all steps of a call.
fn tell_call(report: &Report, machine: &mut Machine<MemPages>, tree: &Tree, call: Result<Call>) {
    if let Some(call) = report.keep(call) {
        let begun = begin(machine, tree, call);
        tell_steps(report, machine, begun);
    }
}

// Prints all steps of calls, some of which find nothing to change.
fn tell_changes(report: &Report, machine: &mut Machine<MemPages>, tree: &Tree) {
    let alloc = report.alloc();
    tell_call(report, machine, tree, Call::insert(alloc, b"ulm", b"21"));
    tell_call(report, machine, tree, Call::insert(alloc, b"ulm", b"21"));
    tell_call(report, machine, tree, Call::insert(alloc, b"bern", b"17"));
    tell_call(report, machine, tree, Call::get(alloc, b"ulm"));
    let swap = Call::compare_and_swap(alloc, b"ulm", Some(b"20"), None);
    tell_call(report, machine, tree, swap);
}

// .. and of others after them, with a scan at the end.
fn tell_others(report: &Report, machine: &mut Machine<MemPages>, tree: &Tree) {
    let alloc = report.alloc();
    let swap = Call::compare_and_swap(alloc, b"ulm", Some(b"21"), Some(b"22"));
    tell_call(report, machine, tree, swap);
    tell_call(report, machine, tree, Call::merge(alloc, b"ulm", b"1"));
    tell_call(report, machine, tree, Call::remove(alloc, b"ulm"));
    tell_call(report, machine, tree, Call::remove(alloc, b"ulm"));
    let scan = Call::scan(alloc, Bound::Unbounded, Bound::Unbounded, false);
    tell_call(report, machine, tree, scan);
}

// Prints what a subscriber gets, until nothing waits.
fn tell_events(report: &Report, db: &mut Db<MemPages>, subscriber: &Subscriber) {
    for _ in 0..STEPS {
        let Some(next) = db.next(subscriber) else {
            return;
        };
        report.show("told", next);
    }
}

// Prints how many slots were given.
fn tell_slots(report: &Report, machine: &Machine<MemPages>) {
    report.show("slots given", machine.slots_given());
}

/// Prints the outcomes of calls step by step, what was kept of their replies, how many slots they were given, and which events a subscriber
/// got. The database is returned.
pub fn tell_on(report: &Report, mut db: Db<MemPages>, tree: &Tree) -> Db<MemPages> {
    let subscriber = report.keep(watched(&mut db, tree, b""));
    let mut machine = Machine::new(db);
    tell_slots(report, &machine);
    tell_changes(report, &mut machine, tree);
    tell_slots(report, &machine);
    tell_others(report, &mut machine, tree);
    tell_slots(report, &machine);
    let mut db = machine.into_db();
    if let Some(subscriber) = subscriber {
        tell_events(report, &mut db, &subscriber);
    }
    db
}
