//! The maps that a test keeps itself, beside the database.
use crate::script::{Kind, Step};
use std::alloc::{AllocFailed, Global};

/// How many keys there are.
pub const KEYS: usize = 40;

/// The name of the second tree.
pub const SIDE: &[u8] = b"side";

/// A value.
#[derive(Clone, Copy, PartialEq, Eq)]
pub enum Value {
    /// Letters, by a number.
    Letters(u8),
    /// What merges made: a number in eight bytes, the highest first.
    Sum(u64),
}

/// Of each key its value, or none.
pub type Map = [Option<Value>; KEYS];

/// The maps of a database: that of the default tree, and that of the second, if it is there.
#[derive(Clone, Copy, PartialEq, Eq)]
pub struct Maps {
    pub main: Map,
    pub side: Option<Map>,
}

/// A key by its number.
pub fn key_of(key: u8) -> [u8; 3] {
    [b'k', b'0' + key / 10 % 10, b'0' + key % 10]
}

// The byte of which letters are.
fn letter_of(number: u8) -> u8 {
    b'a' + number % 26
}

// How many letters there are.
fn len_of(number: u8) -> u8 {
    number % 37
}

// Letters by their number.
fn letters_of(alloc: Global, number: u8) -> Result<Vec<u8>, AllocFailed<u8>> {
    let mut bytes = Vec::new(alloc);
    for _ in 0..len_of(number) {
        bytes.push(letter_of(number))?;
    }
    Ok(bytes)
}

/// The bytes of a value.
pub fn value_of(alloc: Global, value: Value) -> Result<Vec<u8>, AllocFailed<u8>> {
    match value {
        Value::Letters(number) => letters_of(alloc, number),
        Value::Sum(sum) => {
            let mut bytes = Vec::new(alloc);
            for byte in sum.to_be_bytes() {
                bytes.push(byte)?;
            }
            Ok(bytes)
        }
    }
}

/// The value at a key.
pub fn value_at(map: &Map, key: u8) -> Option<Value> {
    match map.get(key as usize) {
        Some(value) => *value,
        None => None,
    }
}

// Puts a value to a key, or takes it out.
fn put(map: &mut Map, key: u8, value: Option<Value>) {
    if let Some(place) = map.get_mut(key as usize) {
        *place = value;
    }
}

// What a value counts as where it is added to: what is not of eight bytes is 0.
fn number_in(value: Option<Value>) -> u64 {
    match value {
        Some(Value::Sum(sum)) => sum,
        Some(Value::Letters(number)) if len_of(number) == 8 => u64::from_be_bytes([letter_of(
            number,
        ); 8]),
        _ => 0,
    }
}

// Adds a number to the value of a key.
fn merge(map: &mut Map, key: u8, number: u64) {
    let sum = number_in(value_at(map, key)).wrapping_add(number);
    put(map, key, Some(Value::Sum(sum)));
}

// Sets what a swap sets, if what it expects is there.
fn swap(map: &mut Map, step: &Step) {
    if step.is_expected() {
        put(map, step.key, step.sets());
    }
}

// Writes of a batch.
fn put_batch(map: &mut Map, step: &Step) {
    for place in 0..4 {
        put(map, step.key(place), step.write(place));
    }
}

// Moves the value of the first key to the second, if there is one.
fn move_value(map: &mut Map, step: &Step) {
    let value = value_at(map, step.key);
    if value.is_some() {
        put(map, step.key, None);
        put(map, step.key(1), value);
    }
}

// Takes out the keys from one on and below another.
fn lose_range(map: &mut Map, from: u8, end: u8) {
    for key in from..end {
        put(map, key, None);
    }
}

// Takes out the greatest key.
fn lose_last(map: &mut Map) {
    let mut last = None;
    for key in 0..KEYS as u8 {
        if value_at(map, key).is_some() {
            last = Some(key);
        }
    }
    if let Some(key) = last {
        put(map, key, None);
    }
}

// Takes out the least key.
fn lose_first(map: &mut Map) {
    for key in 0..KEYS as u8 {
        if value_at(map, key).is_some() {
            put(map, key, None);
            return;
        }
    }
}

impl Maps {
    /// Those of a new database.
    pub fn new() -> Maps {
        Maps {
            main: [None; KEYS],
            side: None,
        }
    }

    // Puts a value to a key of the second tree, or takes it out, or opens the tree if there is none.
    fn put_side(&mut self, key: u8, value: Option<Value>) {
        match &mut self.side {
            Some(side) => put(side, key, value),
            None => self.side = Some([None; KEYS]),
        }
    }

    // Writes of a group, or opens the second tree if there is none.
    fn put_group(&mut self, step: &Step) {
        match &mut self.side {
            Some(side) => {
                put_batch(&mut self.main, step);
                put_batch(side, step);
            }
            None => self.side = Some([None; KEYS]),
        }
    }

    // Moves the value of a key to the second tree, if there is one, or opens that tree if there is none.
    fn move_across(&mut self, key: u8) {
        let value = value_at(&self.main, key);
        match &mut self.side {
            Some(side) => {
                if value.is_some() {
                    put(&mut self.main, key, None);
                    put(side, key, value);
                }
            }
            None => self.side = Some([None; KEYS]),
        }
    }

    // What a step makes of the second tree, or of both.
    fn take_side(&mut self, step: &Step) {
        match step.kind {
            Kind::InsertSide => self.put_side(step.key, Some(step.value(0))),
            Kind::RemoveSide => self.put_side(step.key, None),
            Kind::ClearSide => self.side = Some([None; KEYS]),
            Kind::Group => self.put_group(step),
            Kind::MoveAcross => self.move_across(step.key),
            Kind::DropSide => self.side = None,
            _ => {}
        }
    }

    /// What a step makes of them as a whole. What one does part by part is noted there (`lose_first`, `import`).
    pub fn take(&mut self, step: &Step) {
        match step.kind {
            Kind::Insert | Kind::Flight => put(&mut self.main, step.key, Some(step.value(0))),
            Kind::Remove => put(&mut self.main, step.key, None),
            Kind::Merge | Kind::Update => merge(&mut self.main, step.key, step.number()),
            Kind::Swap => swap(&mut self.main, step),
            Kind::Batch => put_batch(&mut self.main, step),
            Kind::RemoveRange => lose_range(&mut self.main, step.key, step.end()),
            Kind::PopMin => lose_first(&mut self.main),
            Kind::PopMax => lose_last(&mut self.main),
            Kind::Move => move_value(&mut self.main, step),
            _ => self.take_side(step),
        }
    }

    /// What a part of a clear of the second tree makes of them.
    pub fn lose_first(&mut self) {
        if let Some(side) = &mut self.side {
            lose_first(side);
        }
    }

    /// What a part of an import makes of them: the first opens the second tree, and the others put pairs.
    pub fn import(&mut self, step: &Step, part: u8) {
        if part == 0 && self.side.is_some() {
            return;
        }
        let place = part.wrapping_sub(1);
        self.put_side(step.key(place), Some(step.value(place)));
    }

    /// Whether a key of the second tree has a value.
    pub fn has_side(&self, key: u8) -> bool {
        match &self.side {
            Some(side) => value_at(side, key).is_some(),
            None => false,
        }
    }
}
