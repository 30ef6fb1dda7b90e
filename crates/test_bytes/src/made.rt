//! Nodes.
use sled_nodes::{Data, Index, Leaf, Node, Pid};
use test_report::Report;

/// A merging leaf from `a` on that has a pair at `a` and one at `b`.
pub fn leaf(report: &Report) -> Option<Node> {
    let (first, second) = report.pair(b"a", b"1").zip(report.pair(b"b", b""))?;
    let pairs = report.keep(vec![in report.alloc(); first, second])?;
    let leaf = report.keep(Leaf::from_list(report.alloc(), pairs));
    let ((lo, hi), leaf) = report.pair(b"a", b"").zip(leaf)?;
    Some(Node {
        lo,
        hi,
        next: None,
        merging: true,
        merging_child: None,
        content: Data::Leaf(leaf),
    })
}

/// An index up to `m` that points to the pages 3 and 7, of which 7 is its merging child, and page 4 goes on where it ends.
pub fn index(report: &Report) -> Option<Node> {
    let (first, second) = report.pair(b"", b"h")?;
    let pointers = vec![in report.alloc(); (first, Pid(3)), (second, Pid(7))];
    let pointers = report.keep(pointers)?;
    let index = report.keep(Index::from_list(report.alloc(), pointers));
    let ((lo, hi), index) = report.pair(b"", b"m").zip(index)?;
    Some(Node {
        lo,
        hi,
        next: Some(Pid(4)),
        merging: false,
        merging_child: Some(Pid(7)),
        content: Data::Index(index),
    })
}
