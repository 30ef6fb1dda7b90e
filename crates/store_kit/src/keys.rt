//! Keys of several parts, spelled and read again.
use crate::line::{Line, Print, Word, push_all};
use crate::text::Text;
use ordered_keys::{Kind, Part, key_of, parts_of};
use sled_nodes::IVec;

// A number follows `#`. So a text that begins with that byte has it by its digits.
impl Word for Part {
    fn read(line: &mut Line) -> Option<Part> {
        if line.takes_mark('#') {
            return Some(Part::Number(line.number()));
        }
        Some(Part::Text(IVec::read(line)?))
    }
}

impl Print for Part {
    fn print(&self, out: &mut Text) {
        match self {
            Part::Number(number) => {
                out.push("#");
                out.show(number);
            }
            Part::Text(text) => push_text(out, text.as_ref()),
        }
    }
}

// Behind a spelled byte nothing and `-` are no words of their own.
fn push_text(out: &mut Text, text: &[u8]) {
    match text {
        [b'#'] => out.push("%23"),
        [b'#', b'-'] => out.push("%23-"),
        [b'#', rest @ ..] => {
            out.push("%23");
            out.push_word(rest);
        }
        _ => out.push_word(text),
    }
}

/// Spells the key of these parts.
pub fn spell(line: &mut Line) {
    let parts = line.list::<Part>();
    if line.is_read() {
        let key = key_of(line.out.alloc, parts.as_slice());
        if let Some(key) = line.out.kept(key) {
            line.out.push("key ");
            key.print(&mut line.out);
            drop(key);
        }
    }
    drop(parts);
}

// The kinds of the parts of a key, each by its letter in a byte string.
fn read_shape(line: &mut Line) -> Vec<Kind> {
    let mut shape = Vec::new(line.out.alloc);
    let letters = line.bytes();
    for letter in letters.as_slice() {
        match *letter {
            b'n' => line.out.keep(&mut shape, Kind::Number),
            b't' => line.out.keep(&mut shape, Kind::Text),
            _ => line.is_bad = true,
        }
    }
    drop(letters);
    shape
}

// Adds the parts of a key of this shape.
fn push_parts(out: &mut Text, shape: &[Kind], key: &[u8]) {
    match out.kept(parts_of(out.alloc, shape, key)).flatten() {
        Some(parts) => {
            out.push("parts");
            push_all(out, parts.as_slice());
            drop(parts);
        }
        None => out.push("none"),
    }
}

/// Reads the parts of a key by its shape.
pub fn read_key(line: &mut Line) {
    let shape = read_shape(line);
    let key = line.bytes();
    if line.is_read() {
        push_parts(&mut line.out, shape.as_slice(), key.as_slice());
    }
    drop(shape);
    drop(key);
}
