//! Copies of what is in a page, the greatest page number that it names, and changes of a node that several hold.
use sled::{Data, Error, IVec, Index, Leaf, Link, Node, Pid, Shared};
use std::fmt::Debug;
use std::slice::from_ref;
use test_report::Report;

// A leaf with a pair at `a`.
fn leaf(report: &Report) -> Option<Data> {
    let pair = report.pair(b"a", b"1")?;
    let leaf = report.keep(Leaf::from_pairs(report.alloc(), from_ref(&pair)));
    drop(pair);
    leaf.map(Data::Leaf)
}

// An index that points to the pages 3 and 7.
fn index(report: &Report) -> Option<Data> {
    let (first, second) = report.pair(b"", b"m")?;
    let mut pointers = Vec::new(report.alloc());
    report.keep(pointers.push((first, Pid(3))));
    report.keep(pointers.push((second, Pid(7))));
    let index = report.keep(Index::from_pairs(report.alloc(), pointers.as_slice()));
    drop(pointers);
    index.map(Data::Index)
}

// A node that covers all keys.
fn node_of(report: &Report, next: Option<Pid>, content: Option<Data>) -> Option<Node> {
    let ((lo, hi), content) = report.pair(b"", b"").zip(content)?;
    Some(Node {
        lo,
        hi,
        next,
        merging: false,
        merging_child: None,
        content,
    })
}

// How many entries there are.
fn count(data: Data) -> usize {
    let count = match &data {
        Data::Leaf(leaf) => leaf.len(),
        Data::Index(index) => index.len(),
    };
    drop(data);
    count
}

// How many entries copies have: of a leaf or of an index, and of what holds it.
fn counts(report: &Report, data: Option<Data>) -> Option<(usize, usize)> {
    let data = data?;
    let alone = match &data {
        Data::Leaf(leaf) => report.keep(leaf.clone(report.alloc())).map(Data::Leaf),
        Data::Index(index) => report.keep(index.clone(report.alloc())).map(Data::Index),
    };
    let held = report.keep(data.clone(report.alloc()));
    drop(data);
    alone.map(count).zip(held.map(count))
}

// The same of a leaf and of an index.
fn all_counts(report: &Report) -> Option<[usize; 4]> {
    let leaf = counts(report, leaf(report));
    let (leaf, index) = leaf.zip(counts(report, index(report)))?;
    Some([leaf.0, index.0, leaf.1, index.1])
}

// The greatest of a number and the pages that an index names, of which 5 is the next: of 4, and of 9.
fn greatest(report: &Report) -> Option<[u64; 2]> {
    let node = node_of(report, Some(Pid(5)), index(report))?;
    let greatest = [node.greatest(4), node.greatest(9)];
    drop(node);
    Some(greatest)
}

// Makes a change.
fn change(report: &Report, shared: &mut Shared, link: &Link) {
    report.keep(shared.apply(report.alloc(), link));
}

// Adds the value at `b`.
fn look(report: &Report, shared: &Shared, values: &mut Vec<Option<IVec>>) {
    report.add(values, shared.get(b"b"));
}

// The value at `b` after it is set, if one of two holders removes it, for the other of them, and if it is set again.
fn changes(report: &Report, shared: &mut Shared, set: &Link, removal: &Link) -> Vec<Option<IVec>> {
    let mut values = Vec::new(report.alloc());
    change(report, shared, set);
    look(report, shared, &mut values);
    if let Some(other) = report.keep(shared.share()) {
        change(report, shared, removal);
        look(report, shared, &mut values);
        look(report, &other, &mut values);
        drop(other);
    }
    if let Some(again) = report.keep(set.clone()) {
        change(report, shared, &again);
        look(report, shared, &mut values);
        drop(again);
    }
    values
}

// A node of one pair, at `a`.
fn one_pair(report: &Report) -> Option<Shared> {
    let node = node_of(report, None, leaf(report))?;
    report.keep(Shared::new(report.alloc(), node))
}

// What comes of changes of it.
fn all_changes(report: &Report) -> Option<Vec<Option<IVec>>> {
    let (mut shared, (key, value)) = one_pair(report).zip(report.pair(b"b", b"2"))?;
    let removal = report.bytes(b"b").map(Link::Del)?;
    let set = Link::Set(key, value);
    let changes = changes(report, &mut shared, &set, &removal);
    drop(set);
    drop(removal);
    drop(shared);
    Some(changes)
}

// Prints what was made, if there was memory.
fn show<T: Debug + Drop>(report: &Report, words: &str, made: Option<T>) {
    report.show(words, made.ok_or(Error::NoMemory));
}

/// Prints their outcome.
pub fn tell(report: &Report) {
    show(report, "entries of copies", all_counts(report));
    show(report, "greatest pages", greatest(report));
    show(
        report,
        "a change, one beside another holder, what that one has, made again",
        all_changes(report),
    );
}
