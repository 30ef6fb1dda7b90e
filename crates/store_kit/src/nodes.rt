//! Nodes by themselves, each under a name that lines gave it.
ghost use Rattle.std.specs.Prelude.{◌≡◌};
ghost use Rattle.sled_nodes.specs.Node.{count};

use crate::line::{Line, Print, Word, push_all, push_kept};
use crate::text::Text;
use sled_nodes::{Data, IVec, Index, Leaf, Link, Node, Pid, lend_bound};
use std::alloc::Global;
use std::ops::Bound;

/// What is asked of a node alone.
#[derive(Clone, Copy)]
pub enum Question {
    Show,
    Len,
    Prefix,
    Rests,
    ShouldSplit,
    ShouldMerge,
    CanMergeChild,
}

/// What is done with a node that has a name.
#[derive(Clone, Copy)]
pub enum Act {
    Leaf,
    Index,
    Clone,
    Receive,
    Split,
    Apply,
    Next,
    Post,
    Find(Search),
}

/// What is sought in a node. A pair is found, and those within two bounds are, from the back or not.
#[derive(Clone, Copy)]
pub enum Search {
    Get,
    PointerBefore,
    Pointer,
    Pair(bool),
    Within(bool),
    UpTo,
    Answer(Question),
}

/// The nodes that have names.
#[derive(Drop)]
pub struct Nodes {
    alloc: Global,
    // Each name that was met, and its node, if it has one.
    named: Vec<(String, Option<Node>)>,
}

impl Nodes {
    pub fn new(alloc: Global) -> Nodes {
        Nodes {
            alloc,
            named: Vec::new(alloc),
        }
    }

    /// The place of the name that is the next word. A name that was not met before comes last.
    pub fn place(&mut self, line: &mut Line) -> usize {
        let word = line.word();
        for (place, (name, _)) in self.named.as_slice().iter().enumerate() {
            if name.as_str() == word {
                return place;
            }
        }
        let place = self.named.len();
        match String::from_str(self.alloc, word) {
            Ok(name) => line.out.keep(&mut self.named, (name, None)),
            Err(_) => line.out.is_cut = true,
        }
        place
    }

    fn get(&self, place: usize) -> Option<&Node> {
        match self.named.get(place) {
            Some((_, Some(node))) => Some(node),
            _ => None,
        }
    }

    fn get_mut(&mut self, place: usize) -> Option<&mut Node> {
        match self.named.get_mut(place) {
            Some((_, Some(node))) => Some(node),
            _ => None,
        }
    }

    // A copy of the node of a place, if the line ends.
    fn copy(&self, place: usize, line: &mut Line) -> Option<Node> {
        match self.get(place) {
            Some(node) if line.is_read() => line.out.kept(node.clone(self.alloc)),
            _ => {
                line.is_bad = true;
                None
            }
        }
    }

    /// A copy of the node that the last word of a line names.
    pub fn last(&mut self, line: &mut Line) -> Option<Node> {
        let place = self.place(line);
        self.copy(place, line)
    }

    /// Gives a node, if there is one, the name of a place; what had the name before is dropped.
    pub fn set(&mut self, place: usize, node: Option<Node>) {
        let old = match self.named.get_mut(place) {
            Some(row) if node.is_some() => std::mem::replace(&mut row.1, node),
            _ => node,
        };
        drop(old);
    }

    /// Does what a line says with the node that it names first.
    pub fn run(&mut self, act: Act, line: &mut Line) {
        let name = self.place(line);
        match act {
            Act::Leaf => self.set(name, read_node(true, line)),
            Act::Index => self.set(name, read_node(false, line)),
            Act::Clone => self.keep_copy(name, line),
            Act::Receive => self.receive(name, line),
            Act::Split => self.split(name, line),
            Act::Find(search) => self.find(search, name, line),
            Act::Apply | Act::Next | Act::Post => self.change(act, name, line),
        }
    }

    fn keep_copy(&mut self, of: usize, line: &mut Line) {
        let name = self.place(line);
        let copy = self.copy(of, line);
        self.set(name, copy);
    }

    fn receive(&mut self, left: usize, line: &mut Line) {
        let right = self.place(line);
        let name = self.place(line);
        let both = match (self.get(left), self.get(right)) {
            (Some(left), Some(right)) if line.is_read() => {
                line.out.kept(left.receive_merge(self.alloc, right))
            }
            _ => {
                line.is_bad = true;
                None
            }
        };
        self.set(name, both);
    }

    fn split(&mut self, of: usize, line: &mut Line) {
        let left_name = self.place(line);
        let right_name = self.place(line);
        let halves = match self.get(of) {
            Some(node) if line.is_read() => halves_of(self.alloc, node, &mut line.out),
            _ => {
                line.is_bad = true;
                None
            }
        };
        if let Some((left, right)) = halves {
            self.set(left_name, Some(left));
            self.set(right_name, Some(right));
        }
    }

    fn change(&mut self, act: Act, name: usize, line: &mut Line) {
        match (act, self.get_mut(name)) {
            (Act::Apply, Some(node)) => apply(node, line),
            (Act::Next, Some(node)) => lead_on(node, line),
            (Act::Post, Some(node)) => post(node, line),
            _ => line.is_bad = true,
        }
    }

    fn find(&self, search: Search, name: usize, line: &mut Line) {
        let Some(node) = self.get(name) else {
            line.is_bad = true;
            return;
        };
        match search {
            Search::Get => find_value(node, line),
            Search::PointerBefore => find_before(node, line),
            Search::Pointer => find_pointer(node, line),
            Search::Pair(back) => find_pair(node, back, line),
            Search::Within(back) => find_within(node, back, line),
            Search::UpTo => find_up_to(node, line),
            Search::Answer(question) => answer(question, node, line),
        }
    }
}

// The halves of a node, if it can be split.
fn halves_of(alloc: Global, node: &Node, out: &mut Text) -> Option<(Node, Node)> {
    if len(node) < 2 {
        out.push("barred");
        return None;
    }
    out.kept(node.split(alloc))
}

fn apply(node: &mut Node, line: &mut Line) {
    if let Some(link) = read_link(line) {
        line.out.kept(node.apply(link));
    }
}

fn lead_on(node: &mut Node, line: &mut Line) {
    let next = Word::read(line);
    if let Some(next) = line.whole(next) {
        node.next = next;
    }
}

fn post(node: &mut Node, line: &mut Line) {
    let pointer = Word::read(line);
    if let Some((key, pid)) = line.whole(pointer) {
        if let Some(is) = line.out.kept(node.parent_split(key, pid)) {
            line.out.push_whether(is);
        }
    }
}

// Answers a question about a node.
fn answer(question: Question, node: &Node, line: &mut Line) {
    if !line.is_read() {
        return;
    }
    let out = &mut line.out;
    match question {
        Question::Show => push_node(out, node),
        Question::Len => out.push_numbered("number", len(node) as u64),
        Question::Prefix => push_prefix(out, node),
        Question::Rests => push_rests(out, node),
        Question::ShouldSplit => out.push_whether(node.should_split()),
        Question::ShouldMerge => out.push_whether(node.should_merge()),
        Question::CanMergeChild => out.push_whether(node.can_merge_child()),
    }
}

fn find_value(node: &Node, line: &mut Line) {
    let key = line.bytes();
    if line.is_read() {
        if let Some(value) = line.out.kept(node.get(key.as_slice())) {
            line.out.push("value ");
            value.print(&mut line.out);
            drop(value);
        }
    }
    drop(key);
}

fn find_before(node: &Node, line: &mut Line) {
    let pid = Pid(line.number());
    if line.is_read() {
        match node.pointer_before(pid) {
            Some(pid) => line.out.push_numbered("pointer", pid.0),
            None => line.out.push("none"),
        }
    }
}

fn find_pointer(node: &Node, line: &mut Line) {
    let bound = Word::read(line);
    if let Some(bound) = line.whole(bound) {
        match node.pointer(lend_bound(&bound)) {
            Some((pid, true)) => line.out.push_numbered("first", pid.0),
            Some((pid, false)) => line.out.push_numbered("later", pid.0),
            None => line.out.push("none"),
        }
        drop(bound);
    }
}

fn find_pair(node: &Node, back: bool, line: &mut Line) {
    let bound = Word::read(line);
    if let Some(bound) = line.whole(bound) {
        push_pair(&mut line.out, node, lend_bound(&bound), back);
        drop(bound);
    }
}

// Adds the pair that a bound leads to, and says so if from some place another pair or a wrong place comes.
fn push_pair(out: &mut Text, node: &Node, bound: Bound<&[u8]>, back: bool) {
    let found = if back {
        node.predecessor(bound)
    } else {
        node.successor(bound)
    };
    let pair = out.kept(found).flatten();
    for near in 0..=len(node) {
        if !is_found_near(node, bound, back, near, &pair, out) {
            out.push("differs");
            break;
        }
    }
    match pair {
        Some(pair) => {
            out.push("pair ");
            pair.print(out);
            drop(pair);
        }
        None => out.push("none"),
    }
}

// Whether the same pair is found if the bound's key is looked for at this place first, and the place that is left is its own.
fn is_found_near(
    node: &Node,
    bound: Bound<&[u8]>,
    back: bool,
    near: usize,
    pair: &Option<(IVec, IVec)>,
    out: &mut Text,
) -> bool {
    let mut place = near;
    let found = if back {
        node.predecessor_near(bound, &mut place)
    } else {
        node.successor_near(bound, &mut place)
    };
    let there = node.pair_within(Bound::Unbounded, Bound::Unbounded, false, place);
    let found = out.kept(found).flatten();
    let there = out.kept(there).flatten();
    let is = found == *pair && (pair.is_none() || there == *pair);
    drop(found);
    drop(there);
    is
}

// Finds the pairs within two bounds, place by place.
fn find_within(node: &Node, back: bool, line: &mut Line) {
    let bounds = Word::read(line);
    if let Some((lo, hi)) = line.whole(bounds) {
        push_within(&mut line.out, node, lend_bound(&lo), lend_bound(&hi), back);
        drop(lo);
        drop(hi);
    }
}

fn push_within(out: &mut Text, node: &Node, lo: Bound<&[u8]>, hi: Bound<&[u8]>, back: bool) {
    out.push("pairs");
    for place in 0..usize::MAX {
        let found = out.kept(node.pair_within(lo, hi, back, place));
        let Some(pair) = found.flatten() else {
            break;
        };
        out.push(" ");
        pair.print(out);
        drop(pair);
    }
}

// Counts the pairs within an upper bound, and adds all pairs, place by place.
fn find_up_to(node: &Node, line: &mut Line) {
    let bound = Word::read(line);
    if let Some(bound) = line.whole(bound) {
        let count = node.count_up_to(lend_bound(&bound));
        drop(bound);
        line.out.push_numbered("number", count as u64);
        push_pairs(&mut line.out, node);
    }
}

fn push_pairs(out: &mut Text, node: &Node) {
    out.push(" of");
    for place in 0..usize::MAX {
        let Some(pair) = out.kept(node.pair_at(place)).flatten() else {
            break;
        };
        out.push(" ");
        pair.print(out);
        drop(pair);
    }
}

// How many entries a node has.
fn len(node: &Node) -> usize
    ensures { result ≡ count node.now.content }
{
    match &node.content {
        Data::Leaf(leaf) => leaf.len(),
        Data::Index(index) => index.len(),
    }
}

// A node, but for its name.
fn read_node(is_leaf: bool, line: &mut Line) -> Option<Node> {
    let bounds = Word::read(line);
    let pages = Word::read(line);
    let merging = line.takes("merging");
    line.is_bad |= !merging && !line.takes("-");
    let content = read_content(is_leaf, line);
    let (((lo, hi), (next, merging_child)), content) = bounds.zip(pages).zip(content)?;
    Some(Node {
        lo,
        hi,
        next,
        merging,
        merging_child,
        content,
    })
}

// The entries of a leaf or of an index, with which a line ends.
fn read_content(is_leaf: bool, line: &mut Line) -> Option<Data> {
    let alloc = line.out.alloc;
    let made = if is_leaf {
        let pairs = line.list::<(IVec, IVec)>();
        Leaf::from_pairs(alloc, pairs.as_slice()).map(Data::Leaf)
    } else {
        let pointers = line.list::<(IVec, Pid)>();
        Index::from_pairs(alloc, pointers.as_slice()).map(Data::Index)
    };
    let content = line.out.kept(made);
    line.whole(content)
}

// What a link does.
#[derive(Clone, Copy)]
enum Kind {
    Set,
    Del,
    Intend,
    Confirm,
    Cap,
}

const KINDS: [(&str, Kind); 5] = [
    ("set", Kind::Set),
    ("del", Kind::Del),
    ("intend", Kind::Intend),
    ("confirm", Kind::Confirm),
    ("cap", Kind::Cap),
];

impl Word for Link {
    fn read(line: &mut Line) -> Option<Link> {
        Some(match line.named(&KINDS)? {
            Kind::Set => {
                let (key, value) = Word::read(line)?;
                Link::Set(key, value)
            }
            Kind::Del => Link::Del(Word::read(line)?),
            Kind::Intend => Link::ParentMergeIntention(Word::read(line)?),
            Kind::Confirm => Link::ParentMergeConfirm,
            Kind::Cap => Link::ChildMergeCap,
        })
    }
}

/// A link, with which a line ends.
pub fn read_link(line: &mut Line) -> Option<Link> {
    let link = Word::read(line);
    line.whole(link)
}

/// Adds a node as a line builds it, but for its name.
pub fn push_node(out: &mut Text, node: &Node) {
    match &node.content {
        Data::Leaf(leaf) => {
            push_frame(out, "leaf ", node);
            let pairs = leaf.pairs(out.alloc);
            push_kept(out, pairs);
        }
        Data::Index(index) => {
            push_frame(out, "index ", node);
            let pointers = index.pairs(out.alloc);
            push_kept(out, pointers);
        }
    }
}

// Adds what all keys of a node begin with.
fn push_prefix(out: &mut Text, node: &Node) {
    out.push("prefix ");
    out.push_word(match &node.content {
        Data::Leaf(leaf) => leaf.prefix(),
        Data::Index(index) => index.prefix(),
    });
}

// Adds what each key has behind that, with what is at it.
fn push_rests(out: &mut Text, node: &Node) {
    out.push("rests");
    match &node.content {
        Data::Leaf(leaf) => push_all(out, leaf.rests()),
        Data::Index(index) => push_all(out, index.rests()),
    }
}

// Adds what a node is but for its entries.
fn push_frame(out: &mut Text, kind: &str, node: &Node) {
    out.push(kind);
    node.lo.print(out);
    out.push(" ");
    node.hi.print(out);
    out.push(" ");
    node.next.print(out);
    out.push(" ");
    node.merging_child.print(out);
    out.push(if node.merging { " merging" } else { " -" });
}
