//! Encodes a change of each kind, reads it again, and reads bytes that encode nothing. It prints the bytes of each, two digits for one,
//! and the outcome; `stdout` has the expected one.
#![tactic(auto)]

mod again;
mod made;

use again::{is_change_again, is_node_again, many_again, refusal};
use made::{index, leaf};
use sled_bytes::{Change, encode_change, encode_given, encode_linked, encode_node, encode_rooted};
use sled_nodes::{Link, Node, Pid, Version};
use std::fmt::{self, Display, Formatter, Write};
use std::process::ExitCode;
use test_report::Report;

// Bytes, each by two digits behind a space.
#[derive(Clone, Copy)]
struct Digits<'a>(&'a [u8]);

impl Display for Digits<'_> {
    fn fmt<W: Write>(&self, f: &mut Formatter<W>) -> fmt::Result {
        for byte in self.0 {
            write!(f, " {byte:02x}")?;
        }
        Ok(())
    }
}

// Prints the bytes of something, and whether they were read again.
fn tell(report: &Report, name: &str, bytes: &[u8], is_again: bool) {
    let bytes = Digits(bytes);
    report.tell(format_args!("{name}:{bytes}; read again: {is_again}"));
}

// Prints a change, and adds its bytes to those of all.
fn tell_change(report: &Report, all: &mut Vec<u8>, name: &str, change: Change) {
    let mut bytes = Vec::new(report.alloc());
    report.keep(encode_change(&change, &mut bytes));
    drop(change);
    let is_again = is_change_again(report.alloc(), bytes.as_slice());
    tell(report, name, bytes.as_slice(), is_again);
    report.keep(all.extend_from_slice(bytes.as_slice()));
    drop(bytes);
}

// The same of a link, as the change of page 2 to version 9.
fn tell_link(report: &Report, all: &mut Vec<u8>, name: &str, link: Link) {
    tell_change(report, all, name, Change::Linked(Pid(2), Version(9), link));
}

// The same of a node, as what page 1 is given at version 258.
fn tell_given(report: &Report, all: &mut Vec<u8>, name: &str, node: Option<Node>) {
    if let Some(node) = node {
        tell_change(report, all, name, Change::Given(Pid(1), Version(258), node));
    }
}

// Prints a node by itself, behind which there are two bytes.
fn tell_node(report: &Report, name: &str, node: Option<Node>) {
    let mut bytes = Vec::new(report.alloc());
    if let Some(node) = node {
        report.keep(encode_node(&node, &mut bytes));
        drop(node);
    }
    report.keep(bytes.extend_from_slice(&[7, 7]));
    let is_again = is_node_again(report.alloc(), bytes.as_slice(), 2);
    tell(report, name, bytes.as_slice(), is_again);
    drop(bytes);
}

fn tell_links(report: &Report, all: &mut Vec<u8>) {
    if let Some((key, value)) = report.pair(b"k", b"v") {
        tell_link(report, all, "set", Link::Set(key, value));
    }
    if let Some(key) = report.bytes(b"k") {
        tell_link(report, all, "del", Link::Del(key));
    }
    tell_link(report, all, "intention", Link::ParentMergeIntention(Pid(3)));
    tell_link(report, all, "confirm", Link::ParentMergeConfirm);
    tell_link(report, all, "cap", Link::ChildMergeCap);
}

// The same of a root.
fn tell_root(report: &Report, all: &mut Vec<u8>, what: &str, name: &[u8], root: Option<Pid>) {
    if let Some(name) = report.bytes(name) {
        tell_change(report, all, what, Change::Rooted(name, root));
    }
}

fn tell_numbers(report: &Report, all: &mut Vec<u8>) {
    tell_change(report, all, "freed", Change::Freed(Pid(65535)));
    tell_change(report, all, "begun", Change::Begun);
    tell_change(report, all, "sealed", Change::Sealed);
    tell_change(report, all, "marked", Change::Marked(u64::MAX));
    tell_change(report, all, "limited", Change::Limited(16, 32));
}

// Prints all changes, and how many their bytes are together.
fn tell_changes(report: &Report) {
    let mut all = Vec::new(report.alloc());
    tell_given(report, &mut all, "leaf", leaf(report));
    tell_given(report, &mut all, "index", index(report));
    tell_links(report, &mut all);
    tell_root(report, &mut all, "rooted", b"ulm", Some(Pid(1)));
    tell_root(report, &mut all, "unrooted", b"", None);
    tell_numbers(report, &mut all);
    let (len, count) = (all.len(), many_again(report.alloc(), all.as_slice()));
    drop(all);
    report.tell(format_args!("all: {len} bytes; changes read again: {count:?}"));
}

// The bytes of a node and of a link that are lent.
fn add_lent(report: &Report, bytes: &mut Vec<u8>, node: &Node, link: &Link) {
    report.keep(encode_given(bytes, Pid(1), Version(258), node));
    report.keep(encode_linked(bytes, Pid(2), Version(9), link));
}

// The same bytes of parts that are lent.
fn tell_lent(report: &Report) {
    let mut bytes = Vec::new(report.alloc());
    if let Some((node, key)) = leaf(report).zip(report.bytes(b"k")) {
        let link = Link::Del(key);
        add_lent(report, &mut bytes, &node, &link);
        drop(node);
        drop(link);
    }
    report.keep(encode_rooted(&mut bytes, b"ulm", Some(Pid(1))));
    let count = many_again(report.alloc(), bytes.as_slice());
    tell(report, "lent", bytes.as_slice(), count == Some(3));
    drop(bytes);
}

// Bytes that are no changes.
const FLAWED: [&[u8]; 7] = [
    &[],
    &[5, 6, 0],
    &[9],
    &[3, 1, 0, 0, 0, 0, 0, 0],
    &[4, 255, 255, 255, 255, 255, 255, 255, 255, 1],
    &[4, 0, 0, 0, 0, 0, 0, 0, 0, 2],
    &[2, 0, 0, 0, 0, 0, 0, 0, 0, 0, 0, 0, 0, 0, 0, 0, 0, 6],
];

// Prints why bytes are no changes.
fn tell_refusal(report: &Report, bytes: &[u8]) {
    let why = refusal(report.alloc(), bytes);
    report.tell(format_args!("{bytes:?}: {why}"));
}

fn main(rt: HostRuntime) -> ExitCode {
    let report = Report::new(rt);
    tell_changes(&report);
    tell_lent(&report);
    tell_node(&report, "node", index(&report));
    for bytes in FLAWED {
        tell_refusal(&report, bytes);
    }
    report.status()
}
