//! Whole calls whose reply is kept, with the number of parts that they did.
use machine_alone::Machine;
use sled::{Db, IVec, MemPages, Result, Side};
use sled_model::{Collection, Outcome, Reply, Subscriber, Tree, Whole};
use std::fmt::Debug;
use test_report::Report;

// Bytes of a type or a name.
fn label(report: &Report, bytes: &[u8]) -> Vec<u8> {
    let label = report.keep(Vec::from_slice(report.alloc(), bytes));
    label.unwrap_or(Vec::new(report.alloc()))
}

// A collection of a type and a name, with these keys, each with `1` as its value.
fn collection(report: &Report, kind: &[u8], name: &[u8], keys: &[&[u8]]) -> Collection {
    let mut pairs = Vec::new(report.alloc());
    for key in keys {
        if let Some(pair) = report.pair(key, b"1") {
            report.keep(pairs.push(pair));
        }
    }
    (label(report, kind), label(report, name), pairs)
}

// An import of a collection of one pair, and of another of four pairs that is of a type and a name.
fn import(report: &Report, kind: &[u8], name: &[u8]) -> Option<Whole> {
    let mut collections = Vec::new(report.alloc());
    report.keep(collections.push(collection(report, b"tree", b"spare", &[b"m"])));
    report.keep(collections.push(collection(report, kind, name, &[b"a", b"b", b"c", b"d"])));
    Some(Whole::Import(collections))
}

// A subscription to all of the default tree.
fn watch(report: &Report, machine: &Machine<MemPages>) -> Option<Whole> {
    let tree = report.keep(machine.db().default_tree());
    let (tree, prefix) = tree.zip(report.bytes(b""))?;
    Some(Whole::Watch(tree, prefix))
}

// A tree for one more call.
fn copy(report: &Report, tree: &Tree) -> Option<Tree> {
    report.keep(tree.clone())
}

// The outcome of a call. Nothing is said of it, so that no function that prints it has more to prove than that.
fn come_to(machine: &mut Machine<MemPages>, call: Whole) -> (Outcome, Option<(Reply, Reply)>, u64) {
    machine.whole_kept(call)
}

// Prints how a call came out, the copies of its reply, and how many parts it did.
fn tell_call(report: &Report, machine: &mut Machine<MemPages>, call: Option<Whole>) {
    if let Some(call) = call {
        let told = come_to(machine, call);
        report.tell(format_args!("{:?}, kept {:?}, {} parts", told.0, told.1, told.2));
        drop(told);
    }
}

// Those on one tree that take pairs out and put them in.
fn tell_pairs(report: &Report, machine: &mut Machine<MemPages>, tree: &Tree) {
    let name = tree.name().as_ref();
    let first = watch(report, machine);
    tell_call(report, machine, first);
    let second = watch(report, machine);
    tell_call(report, machine, second);
    tell_call(report, machine, copy(report, tree).map(Whole::PopMin));
    tell_call(report, machine, import(report, b"leaf", name));
    tell_call(report, machine, import(report, b"tree", name));
    tell_call(report, machine, import(report, b"tree", name));
}

// Those that take out what was put in. The first clear is refused at its second pair.
fn tell_pops(report: &Report, machine: &mut Machine<MemPages>, tree: &Tree) {
    tell_call(report, machine, copy(report, tree).map(Whole::PopMin));
    tell_call(report, machine, copy(report, tree).map(Whole::PopMax));
    tell_call(report, machine, Some(Whole::Next(Subscriber(2))));
    tell_call(report, machine, copy(report, tree).map(Whole::Clear));
    tell_call(report, machine, copy(report, tree).map(Whole::Clear));
}

// Those on names, and one that answers a number.
fn tell_names(report: &Report, machine: &mut Machine<MemPages>) {
    tell_call(report, machine, report.bytes(b"other").map(Whole::OpenTree));
    tell_call(report, machine, report.bytes(b"spare").map(Whole::OpenTree));
    tell_call(report, machine, report.bytes(b"spare").map(Whole::DropTree));
    tell_call(report, machine, report.bytes(b"spare").map(Whole::DropTree));
    tell_call(report, machine, Some(Whole::GenerateId));
}

// Those that name nothing.
fn tell_others(report: &Report, machine: &mut Machine<MemPages>) {
    let group = Whole::Group(Vec::new(report.alloc()));
    tell_call(report, machine, Some(group));
    tell_call(report, machine, Some(Whole::Unsubscribe(Subscriber(2))));
    tell_call(report, machine, Some(Whole::Next(Subscriber(2))));
    tell_call(report, machine, Some(Whole::Flush));
}

// Prints the copies of a reply, or how many parts a call did.
fn tell_kept<T: Debug + Drop>(report: &Report, kept: T) {
    report.tell(format_args!("{kept:?}"));
    drop(kept);
}

// Calls of the database itself, each apart, since what one ensures would be carried through those after it.
fn tell_import(report: &Report, db: &mut Db<MemPages>) {
    tell_kept(report, db.import_counted(&[]));
}

fn tell_clear(report: &Report, db: &mut Db<MemPages>, tree: &Tree) {
    tell_kept(report, db.clear_counted(tree));
}

fn tell_pop_min(report: &Report, db: &mut Db<MemPages>, tree: &Tree) {
    tell_kept(report, db.pop_min_kept(tree));
}

fn tell_pop_max(report: &Report, db: &mut Db<MemPages>, tree: &Tree) {
    tell_kept(report, db.pop_max_kept(tree));
}

fn tell_open(report: &Report, db: &mut Db<MemPages>) {
    tell_kept(report, db.open_tree_kept(b"t"));
}

// Of these nothing is kept.
fn tell_pop(report: &Report, db: &mut Db<MemPages>, tree: &Tree, side: Side) {
    let told: Result<(Option<(IVec, IVec)>, ())> = db.pop_keeping(tree, side);
    tell_kept(report, told);
}

fn tell_open_alone(report: &Report, db: &mut Db<MemPages>) {
    let told: Result<(Tree, ())> = db.open_tree_keeping(b"u");
    tell_kept(report, told);
}

/// Prints the outcomes of whole calls, and what is kept of them. The database is returned.
pub fn tell_on(report: &Report, db: Db<MemPages>, tree: &Tree) -> Db<MemPages> {
    let mut machine = Machine::new(db);
    tell_pairs(report, &mut machine, tree);
    tell_pops(report, &mut machine, tree);
    tell_names(report, &mut machine);
    tell_others(report, &mut machine);
    let mut db = machine.into_db();
    tell_import(report, &mut db);
    tell_clear(report, &mut db, tree);
    tell_pop_min(report, &mut db, tree);
    tell_pop_max(report, &mut db, tree);
    tell_open(report, &mut db);
    tell_pop(report, &mut db, tree, Side::Least);
    tell_pop(report, &mut db, tree, Side::Greatest);
    tell_open_alone(report, &mut db);
    db
}
