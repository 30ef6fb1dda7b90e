//! Lines that a program reads: calls, and what came of them. A word is a byte string as `push_word` spells it.
use line_words::print::{Piece, Shown, push_outcome, push_pieces};
use sled::{Batch, Collection, IVec, Outcome, Reply, Tree};
use std::alloc::Global;
use std::ops::Bound;

/// Lines. If there is no memory for one they are cut.
#[derive(Drop)]
pub struct Text {
    bytes: Vec<u8>,
    is_cut: bool,
}

impl Text {
    /// No lines.
    pub fn new(alloc: Global) -> Text {
        Text {
            bytes: Vec::new(alloc),
            is_cut: false,
        }
    }

    /// The lines, if all of them are there.
    pub fn whole(&self) -> Option<&[u8]> {
        if self.is_cut {
            None
        } else {
            Some(self.bytes.as_slice())
        }
    }

    /// There was no memory.
    pub fn cut(&mut self) {
        self.is_cut = true;
    }

    /// Adds other lines.
    pub fn append(&mut self, other: &Text) {
        self.is_cut |= other.is_cut;
        self.text(other.bytes.as_slice());
    }

    // Adds pieces.
    fn add(&mut self, pieces: &[Piece<'_>]) {
        if let Err(e) = push_pieces(&mut self.bytes, pieces) {
            drop(e);
            self.is_cut = true;
        }
    }

    /// Adds a text as it is.
    pub fn text(&mut self, text: &[u8]) {
        self.add(&[Piece::Text(text)]);
    }

    /// Adds a text and a number.
    pub fn number(&mut self, text: &[u8], number: u64) {
        self.add(&[Piece::Text(text), Piece::Number(number)]);
    }

    /// Adds a text and a word.
    pub fn word(&mut self, text: &[u8], bytes: &[u8]) {
        self.add(&[Piece::Text(text), Piece::Word(bytes)]);
    }

    /// Adds a value, or `-` for none.
    pub fn value(&mut self, value: &Option<IVec>) {
        match value {
            Some(value) => self.word(b" ", value.as_ref()),
            None => self.text(b" -"),
        }
    }

    /// Adds a pair.
    pub fn pair(&mut self, key: &[u8], value: &[u8]) {
        self.word(b" ", key);
        self.word(b" ", value);
    }

    /// Adds a text and a tree, by its name and its number.
    pub fn tree(&mut self, text: &[u8], tree: &Tree) {
        self.word(text, tree.name.as_ref());
        self.number(b" ", tree.number);
    }

    /// Adds a call on a key.
    pub fn on(&mut self, text: &[u8], tree: &Tree, key: &[u8]) {
        self.tree(text, tree);
        self.word(b" ", key);
    }

    // Adds a bound.
    fn bound(&mut self, bound: &Bound<IVec>) {
        match bound {
            Bound::Included(key) => self.word(b" from ", key.as_ref()),
            Bound::Excluded(key) => self.word(b" past ", key.as_ref()),
            Bound::Unbounded => self.text(b" all -"),
        }
    }

    /// Adds a range of a tree, which is read from its end if it says `yes`.
    pub fn range(
        &mut self,
        text: &[u8],
        tree: &Tree,
        lo: &Bound<IVec>,
        hi: &Bound<IVec>,
        back: bool,
    ) {
        self.tree(text, tree);
        self.bound(lo);
        self.bound(hi);
        self.text(if back { b" yes" } else { b" no" });
    }

    /// Adds the writes of a batch in a tree, and how many there are.
    pub fn batch(&mut self, tree: &Tree, batch: &Batch) {
        self.tree(b" ", tree);
        self.number(b" ", batch.len() as u64);
        for (key, value) in batch.writes() {
            self.word(b" ", key.as_ref());
            self.value(value);
        }
    }

    // Adds the pairs of a tree, and how many there are.
    fn collection(&mut self, tree: &Collection) {
        self.word(b" ", tree.1.as_slice());
        self.pairs(b" ", tree.2.as_slice());
    }

    /// Adds pairs, and how many there are.
    pub fn pairs(&mut self, text: &[u8], pairs: &[(IVec, IVec)]) {
        self.number(text, pairs.len() as u64);
        for (key, value) in pairs {
            self.pair(key.as_ref(), value.as_ref());
        }
    }

    /// Adds the pairs of trees, and how many trees there are.
    pub fn collections(&mut self, text: &[u8], trees: &[Collection]) {
        self.number(text, trees.len() as u64);
        for tree in trees {
            self.collection(tree);
        }
    }

    /// Adds what came of a call, and ends the line.
    pub fn outcome(&mut self, outcome: Outcome) {
        let pushed = push_outcome(&mut self.bytes, Shown::Number, &outcome);
        drop(outcome);
        if let Err(e) = pushed {
            drop(e);
            self.is_cut = true;
        }
    }

    /// Adds a tree that was opened, and ends the line.
    pub fn opened(&mut self, tree: &Tree) {
        self.tree(b"tree ", tree);
        self.text(b"\n");
    }

    /// Adds two values, and ends the line.
    pub fn both(&mut self, one: &Option<IVec>, other: &Option<IVec>) {
        self.text(b"both");
        self.value(one);
        self.value(other);
        self.text(b"\n");
    }

    /// Adds a reply, and ends the line.
    pub fn reply(&mut self, reply: &Reply) {
        if let Reply::Tree(tree) = reply {
            self.opened(tree);
            return;
        }
        match reply.clone() {
            Ok(reply) => self.outcome(Outcome::Decided(reply)),
            Err(e) => {
                drop(e);
                self.is_cut = true;
            }
        }
    }
}
