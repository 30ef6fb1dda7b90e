//! What values are: their equality, their order, their copies and their texts.
use crate::line::{Line, Word};
use crate::text::Text;
use shell_words::words::find;
use sled_model::{
    Batch, Call, Collection, CompareAndSwapError, Event, Next, Subscriber, Tree, Whole,
};
use sled_nodes::{Error, Fault, IVec, Result, texts};

/// What the values of a line are.
#[derive(Clone, Copy)]
pub enum Kind {
    String,
    Event,
    Next,
    Conflict,
    Error,
    Call,
    Whole,
    Tree,
}

const KINDS: [(&str, Kind); 8] = [
    ("strings", Kind::String),
    ("events", Kind::Event),
    ("told", Kind::Next),
    ("conflicts", Kind::Conflict),
    ("errors", Kind::Error),
    ("calls", Kind::Call),
    ("wholes", Kind::Whole),
    ("trees", Kind::Tree),
];

/// The kind that a line of values begins with, and the values.
pub fn kind_of(line: &str) -> Option<(Kind, &str)> {
    let (name, items) = line.split_once(' ')?;
    Some((find(&KINDS, name.as_bytes())?, items))
}

// A value that lines compare. An event is one that a subscriber gets.
#[derive(Drop)]
enum Value {
    String(IVec),
    Next(Next),
    Conflict(CompareAndSwapError),
    Error(Error),
    Call(Call),
    Whole(Whole),
    Tree(Tree),
}

impl Value {
    fn read(kind: Kind, line: &mut Line) -> Option<Value> {
        match kind {
            Kind::String => Some(Value::String(Word::read(line)?)),
            Kind::Event => read_event(line),
            Kind::Next => read_next(line),
            Kind::Conflict => read_conflict(line),
            Kind::Error => read_error(line),
            Kind::Call => read_call(line),
            Kind::Whole => read_whole(line),
            Kind::Tree => Some(Value::Tree(Word::read(line)?)),
        }
    }

    fn copy(&self) -> Result<Value> {
        match self {
            Value::String(string) => string.clone().map(Value::String),
            Value::Next(Next::Event(event)) => Ok(Value::Next(Next::Event(event.clone()?))),
            Value::Next(Next::Missed(count)) => Ok(Value::Next(Next::Missed(*count))),
            Value::Conflict(conflict) => conflict.clone().map(Value::Conflict),
            Value::Error(error) => error.clone().map(Value::Error),
            Value::Call(call) => call.clone().map(Value::Call),
            Value::Whole(whole) => whole.clone().map(Value::Whole),
            Value::Tree(tree) => tree.clone().map(Value::Tree),
        }
    }

    // Adds its text or its name.
    fn show(&self, out: &mut Text) {
        match self {
            Value::String(string) => out.push_word(string.as_ref()),
            Value::Next(Next::Event(event)) => out.push_word(event.key().as_ref()),
            Value::Next(Next::Missed(count)) => out.push_numbered("missed", *count),
            Value::Conflict(conflict) => out.show(conflict),
            Value::Error(error) => out.push_error(error),
            Value::Call(call) => out.push_word(call.key()),
            Value::Whole(whole) => out.push(name_of(whole)),
            Value::Tree(tree) => out.push_word(tree.name().as_ref()),
        }
    }

    // What is between the value and another one: `/` if they differ and there is no order.
    fn sign(&self, other: &Value) -> &'static str {
        match (self, other) {
            (Value::String(one), Value::String(other)) => sign_of(one, other),
            (Value::Next(one), Value::Next(other)) => sign_of(one, other),
            (Value::Conflict(one), Value::Conflict(other)) => sign_of(one, other),
            _ if self.is_equal(other) => "=",
            _ => "/",
        }
    }

    // Whether values that have no order are equal.
    fn is_equal(&self, other: &Value) -> bool {
        match (self, other) {
            (Value::Error(one), Value::Error(other)) => one == other,
            (Value::Call(one), Value::Call(other)) => one == other,
            (Value::Whole(one), Value::Whole(other)) => one == other,
            (Value::Tree(one), Value::Tree(other)) => one == other,
            _ => false,
        }
    }
}

// What is between two values that have an order.
fn sign_of<T: Ord>(value: &T, other: &T) -> &'static str {
    if value == other {
        "="
    } else if value < other {
        "<"
    } else {
        ">"
    }
}

fn read_event(line: &mut Line) -> Option<Value> {
    let (key, value) = <(IVec, Option<IVec>)>::read(line)?;
    Some(Value::Next(Next::Event(match value {
        Some(value) => Event::Insert { key, value },
        None => Event::Remove { key },
    })))
}

fn read_next(line: &mut Line) -> Option<Value> {
    if line.takes("event") {
        return read_event(line);
    }
    line.is_bad |= !line.takes("missed");
    Some(Value::Next(Next::Missed(line.number())))
}

fn read_conflict(line: &mut Line) -> Option<Value> {
    let (current, proposed) = Word::read(line)?;
    Some(Value::Conflict(CompareAndSwapError { current, proposed }))
}

// The texts of refusals, which are numbered from here on.
const FIRST_TEXT: u64 = 10;

const TEXTS: [&str; 12] = [
    texts::HANDLE_OF_ANOTHER_DATABASE,
    texts::TREES_OF_SEVERAL_DATABASES,
    texts::NO_MERGE_OPERATOR,
    texts::CORE_STRUCTURES,
    texts::OVERWRITES_DATA,
    texts::UNKNOWN_COLLECTION_TYPE,
    texts::IDS_USED_UP,
    texts::NO_ID_SET_ASIDE,
    texts::NO_TREE_AT_THIS_POSITION,
    texts::NUMBERS_USED_UP,
    texts::WALK_PASSED_TURNS,
    texts::TRANSACTION_PASSED_ATTEMPTS,
];

// The text of a number.
fn text_of(number: u64) -> Option<&'static str> {
    let place = usize::try_from(number.checked_sub(FIRST_TEXT)?).ok()?;
    TEXTS.get(place).copied()
}

// The error of a number. The first one has a name.
fn read_error(line: &mut Line) -> Option<Value> {
    let number = line.number();
    Some(Value::Error(match number {
        1 => Error::CollectionNotFound(Word::read(line)?),
        2 => Error::Unsupported("one"),
        3 => Error::ReportableBug("two"),
        4 => Error::Io(Fault(3)),
        5 => Error::Corruption(Fault(4)),
        6 => Error::NoMemory,
        8 => Error::Closed,
        _ => {
            let text = text_of(number);
            line.is_bad |= text.is_none();
            Error::Unsupported(text?)
        }
    }))
}

// What a call does at its key.
#[derive(Clone, Copy)]
enum Point {
    Get,
    Insert,
    Remove,
    Swap,
    Merge,
    // Whether it goes back.
    Scan(bool),
}

const CALLS: [(&str, Point); 7] = [
    ("get", Point::Get),
    ("insert", Point::Insert),
    ("remove", Point::Remove),
    ("cas", Point::Swap),
    ("merge", Point::Merge),
    ("scan", Point::Scan(false)),
    ("scan-back", Point::Scan(true)),
];

fn read_scan(line: &mut Line, back: bool) -> Option<Value> {
    let (lo, hi) = Word::read(line)?;
    Some(Value::Call(Call::Scan { lo, hi, back }))
}

fn read_call(line: &mut Line) -> Option<Value> {
    let point = line.named(&CALLS)?;
    Some(Value::Call(match point {
        Point::Get | Point::Remove => {
            let key = Word::read(line)?;
            match point {
                Point::Get => Call::Get(key),
                _ => Call::Remove(key),
            }
        }
        Point::Insert | Point::Merge => {
            let (key, value) = Word::read(line)?;
            match point {
                Point::Insert => Call::Insert(key, value),
                _ => Call::Merge(key, value),
            }
        }
        Point::Swap => {
            let (key, (old, new)) = Word::read(line)?;
            Call::CompareAndSwap(key, old, new)
        }
        Point::Scan(back) => return read_scan(line, back),
    }))
}

// What a whole call does in a tree.
#[derive(Clone, Copy)]
enum InTree {
    PopMin,
    PopMax,
    Clear,
    Group,
    Watch,
}

// What a whole call does.
#[derive(Clone, Copy)]
enum Kept {
    Flush,
    InTree(InTree),
    Open,
    Drop,
    Id,
    Import,
    Next,
    Unsubscribe,
}

const WHOLES: [(&str, Kept); 12] = [
    ("flush", Kept::Flush),
    ("pop-min", Kept::InTree(InTree::PopMin)),
    ("pop-max", Kept::InTree(InTree::PopMax)),
    ("clear", Kept::InTree(InTree::Clear)),
    ("group", Kept::InTree(InTree::Group)),
    ("tree", Kept::Open),
    ("drop", Kept::Drop),
    ("id", Kept::Id),
    ("import", Kept::Import),
    ("watch", Kept::InTree(InTree::Watch)),
    ("next", Kept::Next),
    ("unwatch", Kept::Unsubscribe),
];

// A list of one collection with one pair.
fn read_import(line: &mut Line) -> Vec<Collection> {
    let kind = line.bytes();
    let name = line.bytes();
    let mut pairs = Vec::new(line.out.alloc);
    if let Some(pair) = Word::read(line) {
        line.out.keep(&mut pairs, pair);
    }
    let mut collections = Vec::new(line.out.alloc);
    line.out.keep(&mut collections, (kind, name, pairs));
    collections
}

// The batch of words up to the end.
fn read_batch(line: &mut Line) -> Batch {
    let mut batch = Batch::default(line.out.alloc);
    let writes: Vec<(IVec, Option<IVec>)> = line.list();
    for (key, value) in &writes {
        let written = match value {
            Some(value) => batch.insert(line.out.alloc, key.as_ref(), value.as_ref()),
            None => batch.remove(line.out.alloc, key.as_ref()),
        };
        line.out.kept(written);
    }
    drop(writes);
    batch
}

// A group of one batch.
fn read_group(tree: Tree, line: &mut Line) -> Vec<(Tree, Batch)> {
    let batch = read_batch(line);
    let mut group = Vec::new(line.out.alloc);
    line.out.keep(&mut group, (tree, batch));
    group
}

fn read_in_tree(call: InTree, line: &mut Line) -> Option<Whole> {
    let tree = Word::read(line)?;
    Some(match call {
        InTree::PopMin => Whole::PopMin(tree),
        InTree::PopMax => Whole::PopMax(tree),
        InTree::Clear => Whole::Clear(tree),
        InTree::Group => Whole::Group(read_group(tree, line)),
        InTree::Watch => {
            let (tree, prefix) = Some(tree).zip(Word::read(line))?;
            Whole::Watch(tree, prefix)
        }
    })
}

fn read_whole(line: &mut Line) -> Option<Value> {
    Some(Value::Whole(match line.named(&WHOLES)? {
        Kept::Flush => Whole::Flush,
        Kept::InTree(call) => read_in_tree(call, line)?,
        Kept::Open => Whole::OpenTree(Word::read(line)?),
        Kept::Drop => Whole::DropTree(Word::read(line)?),
        Kept::Id => Whole::GenerateId,
        Kept::Import => Whole::Import(read_import(line)),
        Kept::Next => Whole::Next(Subscriber(line.number())),
        Kept::Unsubscribe => Whole::Unsubscribe(Subscriber(line.number())),
    }))
}

fn name_of(whole: &Whole) -> &'static str {
    match whole {
        Whole::Flush => "flush",
        Whole::PopMin(_) => "pop-min",
        Whole::PopMax(_) => "pop-max",
        Whole::Clear(_) => "clear",
        Whole::Group(_) => "group",
        Whole::OpenTree(_) => "tree",
        Whole::DropTree(_) => "drop",
        Whole::GenerateId => "id",
        Whole::Import(_) => "import",
        Whole::Watch(_, _) => "watch",
        Whole::Next(_) => "next",
        Whole::Unsubscribe(_) => "unwatch",
    }
}

impl Word for Tree {
    fn read(line: &mut Line) -> Option<Tree> {
        let ((database, name), number) = Word::read(line)?;
        Some(Tree {
            database,
            name,
            number,
        })
    }
}

fn read_values(kind: Kind, items: &str, line: &mut Line) -> Vec<Value> {
    let mut all = Vec::new(line.out.alloc);
    for item in items.split(", ") {
        line.start(item);
        let value = Value::read(kind, line);
        if let Some(value) = line.whole(value) {
            line.out.keep(&mut all, value);
        }
    }
    all
}

// Adds what is between a value and a copy of each.
fn push_signs(value: &Value, all: &[Value], out: &mut Text) {
    for other in all {
        if let Some(copy) = out.kept(other.copy()) {
            out.push(value.sign(&copy));
            drop(copy);
        }
    }
}

// Adds a line for each value.
fn push_values(all: &[Value], out: &mut Text) {
    let mut between = "";
    for value in all {
        out.push(between);
        value.show(out);
        out.push(" ");
        push_signs(value, all, out);
        between = "\n";
    }
}

/// Compares the values of a line.
pub fn compare_values(kind: Kind, items: &str, line: &mut Line) {
    let all = read_values(kind, items, line);
    if line.is_read() {
        push_values(all.as_slice(), &mut line.out);
    }
    drop(all);
}
