//! A tree drawn level by level, from its pages: as text, or as DOT.

use crate::choices::Drawing;
use crate::page_parts::{Parts, parts_of};
use line_words::print::{push_number, push_text};
use line_words::words::push_word;
use sled_nodes::{Data, Error, IVec, Node, Pid, Result};
use sled_pages::MemPages;
use sled_store::Pages;
use std::alloc::Global;

// How a page is reached from above.
#[derive(Clone, Copy)]
enum Place {
    // It is the root.
    Top,
    // By a pointer of the index of this number.
    Under(Pid),
    // By no pointer.
    Unpointed,
}

// A page that is pointed to, and from where.
#[derive(Clone, Copy)]
struct Pointed {
    pid: Pid,
    place: Place,
}

// What is drawn so far. Want of memory for a part is noted here, so that no part has to return it: then the drawing is cut.
#[derive(Drop)]
struct Picture<'a> {
    alloc: Global,
    // The pages, if they are in memory and so say as what each of them is kept.
    kept: Option<&'a MemPages>,
    drawing: Drawing,
    out: Vec<u8>,
    is_cut: bool,
}

impl Picture<'_> {
    fn is_dot(&self) -> bool {
        matches!(self.drawing, Drawing::Dot)
    }

    fn note(&mut self, pushed: Result<()>) {
        self.is_cut |= pushed.is_err();
        drop(pushed);
    }

    fn text(&mut self, text: &str) {
        let pushed = push_text(&mut self.out, text.as_bytes());
        self.note(pushed);
    }

    fn number(&mut self, number: u64) {
        let pushed = push_number(&mut self.out, number);
        self.note(pushed);
    }

    // Adds a text and a page's number.
    fn page(&mut self, text: &str, pid: Pid) {
        self.text(text);
        self.number(pid.0);
    }

    // Adds a byte of a label of DOT, in which a quote and a backslash have a backslash before them.
    fn byte(&mut self, byte: u8) {
        if matches!(byte, b'"' | b'\\') {
            self.text("\\");
        }
        self.is_cut |= self.out.push(byte).is_err();
    }

    // Adds a word of a label of DOT.
    fn label(&mut self, name: &[u8]) {
        let mut word = Vec::new(self.alloc);
        let pushed = push_word(&mut word, name);
        self.note(pushed);
        for byte in word.as_slice() {
            self.byte(*byte);
        }
        drop(word);
    }

    fn name(&mut self, name: &[u8]) {
        if self.is_dot() {
            return self.label(name);
        }
        let pushed = push_word(&mut self.out, name);
        self.note(pushed);
    }

    // Adds the bounds of a page's keys, no upper one being `..`.
    fn bounds(&mut self, node: &Node) {
        self.text(" from ");
        self.name(node.lo.as_ref());
        self.text(" to ");
        if node.hi.len() == 0 {
            self.text("..");
        } else {
            self.name(node.hi.as_ref());
        }
    }

    // Adds a text and a page's number, if there is the page.
    fn link(&mut self, text: &str, pid: Option<Pid>) {
        if let Some(pid) = pid {
            self.page(text, pid);
        }
    }

    // Adds what is half done with a page.
    fn marks(&mut self, node: &Node, place: &Place) {
        if node.merging {
            self.text(" merging");
        }
        self.link(" merging-child ", node.merging_child);
        if matches!(place, Place::Unpointed) {
            self.text(" no-pointer");
        }
    }

    // Adds as what a page is kept, if that is asked for.
    fn parts(&mut self, parts: Option<Parts>) {
        if let (Drawing::Links, Some(parts)) = (self.drawing, parts) {
            self.text(" base ");
            self.number(parts.base as u64);
            self.text(" links ");
            self.number(parts.links as u64);
        }
    }

    // Adds the index that a page is under; in a graph the arrows say it.
    fn parent(&mut self, place: &Place) {
        if self.is_dot() {
            return;
        }
        if let Place::Under(parent) = place {
            self.page(" under ", *parent);
        }
    }

    // Adds what a page is: the index above it, its bounds, the page to its right, and what is half done with it.
    fn head(&mut self, node: &Node, pid: Pid, place: &Place) {
        let kind = match &node.content {
            Data::Leaf(_) => "leaf ",
            Data::Index(_) => "index ",
        };
        self.page(kind, pid);
        self.parent(place);
        self.bounds(node);
        self.link(" next ", node.next);
        self.marks(node, place);
    }

    fn pairs(&mut self, pairs: &[(IVec, IVec)]) {
        for pair in pairs {
            self.text(" ");
            self.name(pair.0.as_ref());
            self.text("=");
            self.name(pair.1.as_ref());
        }
    }

    // Adds the pointers as text.
    fn pointers(&mut self, pointers: &[(IVec, Pid)]) {
        for pointer in pointers {
            self.text(" ");
            self.name(pointer.0.as_ref());
            self.page("->", pointer.1);
        }
    }

    // Adds an arrow for each pointer.
    fn arrows(&mut self, from: Pid, pointers: &[(IVec, Pid)]) {
        for pointer in pointers {
            self.page("  ", from);
            self.page(" -> ", pointer.1);
            self.text(" [label=\"");
            self.label(pointer.0.as_ref());
            self.text("\"]\n");
        }
    }

    // The pointers of an index. A leaf has none, and its pairs are added.
    fn pointers_of(&mut self, node: &Node) -> Result<Vec<(IVec, Pid)>> {
        let leaf = match &node.content {
            Data::Leaf(leaf) => leaf,
            Data::Index(index) => return index.pairs(self.alloc),
        };
        let pairs = leaf.pairs(self.alloc)?;
        self.pairs(pairs.as_slice());
        drop(pairs);
        Ok(Vec::new(self.alloc))
    }

    // Adds the end of a page's label, and its arrows.
    fn dot_end(&mut self, node: &Node, pid: Pid, pointers: &[(IVec, Pid)]) {
        self.text("\"]\n");
        self.arrows(pid, pointers);
        if let Some(next) = node.next {
            self.page("  ", pid);
            self.page(" -> ", next);
            self.text(" [style=dashed]\n");
        }
    }

    // Adds where a page points to.
    fn end(&mut self, node: &Node, pid: Pid, pointers: &[(IVec, Pid)]) {
        if self.is_dot() {
            return self.dot_end(node, pid, pointers);
        }
        self.pointers(pointers);
        self.text("\n");
    }

    // Notes the pages that a page points to.
    fn take_down(&mut self, below: &mut Vec<Pointed>, parent: Pid, pointers: &[(IVec, Pid)]) {
        for pointer in pointers {
            let (pid, place) = (pointer.1, Place::Under(parent));
            self.is_cut |= below.push(Pointed { pid, place }).is_err();
        }
    }

    // Adds the beginning of a page's label.
    fn start(&mut self, pid: Pid) {
        if self.is_dot() {
            self.page("  ", pid);
            self.text(" [label=\"");
        }
    }

    // Adds a page, and notes the pages that it points to.
    fn node(
        &mut self,
        below: &mut Vec<Pointed>,
        node: &Node,
        pid: Pid,
        place: &Place,
        parts: Option<Parts>,
    ) -> Result<()> {
        self.start(pid);
        self.head(node, pid, place);
        self.parts(parts);
        self.text(":");
        let pointers = self.pointers_of(node)?;
        self.end(node, pid, pointers.as_slice());
        self.take_down(below, pid, pointers.as_slice());
        drop(pointers);
        Ok(())
    }

    // Adds a page by its number: the page to its right.
    fn view<P: Pages>(
        &mut self,
        pages: &P,
        below: &mut Vec<Pointed>,
        pid: Pid,
        place: &Place,
    ) -> Result<Option<Pid>> {
        let Some(view) = pages.read(self.alloc, pid)? else {
            return Ok(None);
        };
        let added = self.node(below, &view.node, pid, place, parts_of(self.kept, pid));
        let next = view.node.next;
        drop(view);
        added.map(|()| next)
    }

    // Adds a level, from the first of the pages that the level above points to, and notes the pages that it points to.
    fn level<P: Pages>(
        &mut self,
        pages: &P,
        pointed: &[Pointed],
        below: &mut Vec<Pointed>,
    ) -> Result<()> {
        let mut next = match pointed {
            [first, ..] => Some(first.pid),
            [] => None,
        };
        for _ in 0..u64::MAX {
            let Some(pid) = next else {
                break;
            };
            let place = place_of(pointed, pid);
            next = self.view(pages, below, pid, &place)?;
        }
        Ok(())
    }

    // Adds which level it is.
    fn title(&mut self, level: u64) {
        if !self.is_dot() {
            self.text("level ");
            self.number(level);
            self.text("\n");
        }
    }

    // Adds all levels, from the one of these pages down.
    fn levels<P: Pages>(&mut self, pages: &P, mut pointed: Vec<Pointed>) -> Result<()> {
        for level in 0..u64::MAX {
            if pointed.is_empty() {
                break;
            }
            self.title(level);
            let mut below = Vec::new(self.alloc);
            let added = self.level(pages, pointed.as_slice(), &mut below);
            let above = std::mem::replace(&mut pointed, below);
            drop(above);
            added?;
        }
        Ok(())
    }

    // Adds the tree of a name, if there is one.
    fn tree<P: Pages>(&mut self, pages: &P, name: &[u8]) -> Result<()> {
        let mut roots = Vec::new(self.alloc);
        if let Some(root) = pages.root(name) {
            let (pid, place) = (root, Place::Top);
            roots.push(Pointed { pid, place })?;
        }
        self.levels(pages, roots)
    }

    // Adds the whole drawing: whether it was cut.
    fn draw<P: Pages>(&mut self, pages: &P, name: &[u8]) -> Result<bool> {
        if !self.is_dot() {
            self.tree(pages, name)?;
            return Ok(self.is_cut);
        }
        self.text("digraph tree {\n  node [shape=box]\n");
        self.tree(pages, name)?;
        self.text("}\n");
        Ok(self.is_cut)
    }
}

fn place_of(pointed: &[Pointed], pid: Pid) -> Place {
    for other in pointed {
        if other.pid.0 == pid.0 {
            return other.place;
        }
    }
    Place::Unpointed
}

/// Adds a drawing of the tree of this name. If its pages are in memory they may say as what each of them is kept. Refused if a page cannot
/// be read, or with `NoMemory`; then there is what was drawn so far.
pub fn draw<P: Pages>(
    alloc: Global,
    pages: &P,
    kept: Option<&MemPages>,
    name: &[u8],
    drawing: Drawing,
    out: &mut Vec<u8>,
) -> Result<()> {
    let mut picture = Picture {
        alloc,
        kept,
        drawing,
        out: std::mem::replace(out, Vec::new(alloc)),
        is_cut: false,
    };
    let drawn = picture.draw(pages, name);
    let empty = std::mem::replace(out, std::mem::replace(&mut picture.out, Vec::new(alloc)));
    drop(empty);
    drop(picture);
    match drawn {
        Ok(false) => Ok(()),
        Ok(true) => Err(Error::NoMemory),
        Err(error) => Err(error),
    }
}
