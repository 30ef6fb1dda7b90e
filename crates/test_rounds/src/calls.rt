//! Calls and entries of a history as lines.
use crate::text::Text;
use sled::{Batch, Call, IVec, Tree, Whole};
use sled_machine::shared::{Answer, Entry, Made, Question, Read, ScanNote, Scanned};

impl Text {
    // Adds a call on a key with a value.
    fn with(&mut self, text: &[u8], tree: &Tree, key: &IVec, value: &IVec) {
        self.on(text, tree, key.as_ref());
        self.word(b" ", value.as_ref());
    }

    // Adds a swap.
    fn swap(&mut self, tree: &Tree, key: &IVec, old: &Option<IVec>, new: &Option<IVec>) {
        self.on(b" swap ", tree, key.as_ref());
        self.value(old);
        self.value(new);
    }

    /// Adds a call on a tree.
    pub fn call(&mut self, tree: &Tree, call: &Call) {
        match call {
            Call::Get(key) => self.on(b" get ", tree, key.as_ref()),
            Call::Insert(key, value) => self.with(b" insert ", tree, key, value),
            Call::Remove(key) => self.on(b" remove ", tree, key.as_ref()),
            Call::CompareAndSwap(key, old, new) => self.swap(tree, key, old, new),
            Call::Merge(key, bytes) => self.with(b" merge ", tree, key, bytes),
            Call::Scan { lo, hi, back } => self.range(b" scan ", tree, lo, hi, *back),
        }
    }

    // Adds a text, how many batches there are, and each of them.
    fn batches(&mut self, text: &[u8], batches: &[(Tree, Batch)]) {
        self.number(text, batches.len() as u64);
        for (tree, batch) in batches {
            self.batch(tree, batch);
        }
    }

    /// Adds the batches of a group, and how many there are.
    pub fn group(&mut self, batches: &[(Tree, Batch)]) {
        self.batches(b" group ", batches);
    }

    // Adds what a transaction wrote, and what was there before at the key of each of its writes.
    fn transaction(&mut self, batches: &[(Tree, Batch)], stood: &[Option<IVec>]) {
        self.batches(b" transaction ", batches);
        self.text(b" = stood");
        for value in stood {
            self.value(value);
        }
        self.text(b"\n");
    }

    // Adds a whole call.
    fn call_whole(&mut self, whole: &Whole) {
        match whole {
            Whole::Flush => self.text(b" flush"),
            Whole::PopMin(tree) => self.tree(b" pop_min ", tree),
            Whole::PopMax(tree) => self.tree(b" pop_max ", tree),
            Whole::Clear(tree) => self.tree(b" clear ", tree),
            Whole::Group(batches) => self.group(batches.as_slice()),
            Whole::OpenTree(name) => self.word(b" open ", name.as_ref()),
            Whole::DropTree(name) => self.word(b" drop ", name.as_ref()),
            Whole::GenerateId => self.text(b" id"),
            Whole::Import(all) => self.collections(b" import ", all.as_slice()),
            Whole::Watch(tree, prefix) => self.on(b" watch ", tree, prefix.as_ref()),
            Whole::Next(subscriber) => self.number(b" next ", subscriber.0),
            Whole::Unsubscribe(subscriber) => self.number(b" unsubscribe ", subscriber.0),
        }
    }

    /// Adds a question about a tree.
    pub fn question(&mut self, tree: &Tree, question: &Question) {
        match question {
            Question::Get(key) => self.on(b" get_now ", tree, key.as_ref()),
            Question::ContainsKey(key) => self.on(b" contains ", tree, key.as_ref()),
            Question::First => self.tree(b" first ", tree),
            Question::Last => self.tree(b" last ", tree),
            Question::GetLt(key) => self.on(b" get_lt ", tree, key.as_ref()),
            Question::GetGt(key) => self.on(b" get_gt ", tree, key.as_ref()),
            Question::Len => self.tree(b" len ", tree),
            Question::IsEmpty => self.tree(b" is_empty ", tree),
            Question::Page { lo, hi, back, most } => {
                self.range(b" page ", tree, lo, hi, *back);
                self.number(b" ", *most as u64);
            }
        }
    }

    // Adds a pair, or that there is none.
    fn found(&mut self, pair: &Option<(IVec, IVec)>) {
        match pair {
            Some((key, value)) => {
                self.text(b"pair");
                self.pair(key.as_ref(), value.as_ref());
            }
            None => self.text(b"pair -"),
        }
    }

    // Adds a value that was found, or that there is none.
    fn found_value(&mut self, value: &Option<IVec>) {
        self.text(b"value");
        self.value(value);
    }

    /// Adds what a question was answered, and ends the line.
    pub fn answer(&mut self, answer: &Answer) {
        match answer {
            Answer::Value(value) => self.found_value(value),
            Answer::Flag(flag) => self.text(if *flag { b"yes" } else { b"no" }),
            Answer::Pair(pair) => self.found(pair),
            Answer::Count(count) => self.number(b"count ", *count as u64),
            Answer::Pairs(pairs) => self.pairs(b"pairs ", pairs.as_slice()),
        }
        self.text(b"\n");
    }

    /// Adds names, how many there are, and ends the line.
    pub fn names(&mut self, names: &[IVec]) {
        self.number(b"names ", names.len() as u64);
        for name in names {
            self.word(b" ", name.as_ref());
        }
        self.text(b"\n");
    }

    // Adds a read and its answer.
    fn read(&mut self, read: &Read) {
        match read {
            Read::Tree(tree, question, answer) => {
                self.question(tree, question);
                self.text(b" = ");
                self.answer(answer);
            }
            Read::Names(names) => {
                self.text(b" names = ");
                self.names(names.as_slice());
            }
            Read::Export(all) => {
                self.collections(b" export = all ", all.as_slice());
                self.text(b"\n");
            }
        }
    }

    // Adds what was made, and its reply.
    fn made(&mut self, made: &Made) {
        match made {
            Made::Point(tree, call, reply) => {
                self.call(tree, call);
                self.text(b" = ");
                self.reply(reply);
            }
            Made::Whole(whole, reply) => {
                self.call_whole(whole);
                self.text(b" = ");
                self.reply(reply);
            }
            Made::Parts(whole, number) => {
                self.call_whole(whole);
                self.number(b" = parts ", *number);
                self.text(b"\n");
            }
            Made::Read(read) => self.read(read),
            Made::Transaction(batches, stood) => {
                self.transaction(batches.as_slice(), stood.as_slice())
            }
        }
    }

    // Adds what a scan did.
    fn did(&mut self, did: &Scanned) {
        match did {
            Scanned::Begun(tree, call) => self.call(tree, call),
            Scanned::Gave(key, value) => {
                self.text(b" pair");
                self.pair(key.as_ref(), value.as_ref());
            }
            Scanned::Ended => self.text(b" end"),
        }
        self.text(b"\n");
    }

    /// Adds what scans did, one note a line, and whether all of it is noted.
    pub fn scans(&mut self, notes: &[ScanNote], all: bool) {
        for note in notes {
            self.number(b"note ", note.slot.0);
            self.number(b" ", note.at);
            self.did(&note.did);
        }
        self.text(if all { b"notes yes\n" } else { b"notes no\n" });
    }

    /// Adds a history, one entry a line.
    pub fn history(&mut self, history: &[Entry]) {
        for entry in history {
            self.number(b"entry ", entry.by);
            self.made(&entry.made);
        }
    }
}
