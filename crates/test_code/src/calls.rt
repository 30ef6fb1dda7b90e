//! Calls as values, what is tested before a call, and looks at pages.
use line_sessions::operator::NoOperator;
use sled::{
    Call, Data, Db, Decision, Effect, IVec, MemPages, Pages, Reads, Reply, Result, Subscriber,
    Tree, View,
};
use std::alloc::Global;
use std::ops::Bound;
use test_report::{Report, is_same};

// A call of each kind at one key, and a scan from that key on.
fn calls(report: &Report) -> Vec<Call> {
    let alloc = report.alloc();
    let mut calls = Vec::new(alloc);
    report.add(&mut calls, Call::get(alloc, b"ulm"));
    report.add(&mut calls, Call::insert(alloc, b"ulm", b"21"));
    report.add(&mut calls, Call::remove(alloc, b"ulm"));
    let swap = Call::compare_and_swap(alloc, b"ulm", Some(b"21"), None);
    report.add(&mut calls, swap);
    report.add(&mut calls, Call::merge(alloc, b"ulm", b"1"));
    let scan = Call::scan(alloc, Bound::Included(b"ulm"), Bound::Unbounded, false);
    report.add(&mut calls, scan);
    calls
}

// Whether copies of a call and of its key are the same.
fn is_copied_alike(alloc: Global, call: &Call) -> Result<bool> {
    let key = call.clone_key(alloc)?;
    let is_key = key.as_ref() == call.key();
    drop(key);
    Ok(is_key && is_same(call, call.clone())?)
}

// What a read of a value, or of none, decides for a call.
fn read(report: &Report, call: &Call, value: Option<IVec>) -> Option<Reply> {
    report.keep(call.at_read(value)).flatten()
}

// Prints of a call its key, whether it is on that, whether it needs an operator, what it answers at a read of `21` and of no value,
// and whether copies are the same.
fn tell_call(report: &Report, call: &Call) {
    let value = read(report, call, report.bytes(b"21"));
    let none = read(report, call, None);
    report.tell(format_args!(
        "{:?}, on a key: {}, with an operator: {}; at a read {:?}, {:?}; copies are the same: {:?}",
        call.key(),
        call.is_on_key(),
        call.needs_operator(),
        value,
        none,
        is_copied_alike(report.alloc(), call)
    ));
    drop(value);
    drop(none);
}

// What a call replies if it is to link its change, and whether it changes something there.
fn link_of(alloc: Global, call: &Call, value: Option<IVec>) -> Result<(Reply, bool)> {
    let Decision { effect, reply } = call.at_link(alloc, value, None::<&NoOperator>)?;
    let changes = effect != Effect::Nothing;
    drop(effect);
    Ok((reply, changes))
}

/// Prints this of each call, and its outcome at a link if the value is `21`, and if there is none.
pub fn tell(report: &Report) {
    let calls = calls(report);
    for call in &calls {
        tell_call(report, call);
        let value = report.bytes(b"21");
        report.show("at a link", link_of(report.alloc(), call, value));
        report.show("at a link", link_of(report.alloc(), call, None));
    }
    drop(calls);
}

// How the test of a call came out.
fn tell_test(report: &Report, test: Result<()>) {
    match test {
        Ok(()) => report.tell("passed"),
        Err(e) => report.tell(e),
    }
}

// Prints how the tests of these calls came out, and of calls that need an operator, in a tree that has none.
fn tell_tests(report: &Report, db: &Db<MemPages>, tree: &Tree) {
    let calls = calls(report);
    for call in &calls {
        tell_test(report, db.check_call(tree, call));
    }
    drop(calls);
    tell_test(report, db.check_operator(tree));
}

// How many pairs a page has, if it is a leaf.
fn pairs_of(page: View) -> Option<usize> {
    let count = match &page.node.content {
        Data::Leaf(leaf) => Some(leaf.len()),
        Data::Index(_) => None,
    };
    drop(page);
    count
}

// How many pairs the page of the tree's root has.
fn root_of(alloc: Global, db: &Db<MemPages>, tree: &Tree) -> Result<Option<usize>> {
    let Some(pid) = db.pages().root(tree.name().as_ref()) else {
        return Ok(None);
    };
    match db.pages().page(alloc, pid)? {
        Some(page) => Ok(pairs_of(page)),
        None => Ok(None),
    }
}

/// A subscriber, of which nothing is said, so that no caller has more to prove than that.
pub fn watched(db: &mut Db<MemPages>, tree: &Tree, prefix: &[u8]) -> Result<Subscriber> {
    db.watch_prefix(tree, prefix)
}

// Whether a copy of a subscriber is the same.
fn is_told_alike(db: &mut Db<MemPages>, tree: &Tree) -> Result<bool> {
    let subscriber = watched(db, tree, b"u")?;
    is_same(&subscriber, subscriber.clone())
}

/// Prints what comes of tests, of a copy of a subscriber, and of a look at a page. The database comes back.
pub fn tell_on(report: &Report, mut db: Db<MemPages>, tree: &Tree) -> Db<MemPages> {
    tell_tests(report, &db, tree);
    report.show("a subscriber", is_told_alike(&mut db, tree));
    report.show("pairs of the root", root_of(report.alloc(), &db, tree));
    db
}
