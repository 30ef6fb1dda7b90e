//! Calls in a row.
use crate::maps::{KEYS, Value};
use test_report::seeds::number;

/// How many steps a script has.
pub const STEPS: u64 = 60;

// More steps than a call in flight takes.
const TURNS: u64 = 1_000;

/// A kind of call.
#[derive(Clone, Copy, PartialEq, Eq)]
pub enum Kind {
    Insert,
    Remove,
    /// A merge by the operator that adds numbers.
    Merge,
    /// A swap, of which some expect another value than the one that is there.
    Swap,
    /// An update by a closure, which adds a number.
    Update,
    Batch,
    /// All keys from one on and below another are taken out.
    RemoveRange,
    PopMin,
    PopMax,
    /// A transaction that moves a value to another key, and is aborted if there is none.
    Move,
    /// An insert that a machine makes step by step, of which some are left before they are decided.
    Flight,
    // Of these each opens the second tree first, and does only that if there is none.
    InsertSide,
    RemoveSide,
    ClearSide,
    /// A group of a batch in each tree.
    Group,
    /// A transaction of both trees that moves a value to the second one, and is aborted if there is none.
    MoveAcross,
    /// An import of some pairs into the second tree, up to the first whose key is there.
    Import,
    DropSide,
    Id,
    Flush,
}

impl Kind {
    /// Whether it is a group in the store, which closes the database if it is refused midway.
    pub fn is_group(self) -> bool {
        matches!(
            self,
            Kind::Batch | Kind::RemoveRange | Kind::Move | Kind::Group | Kind::MoveAcross
        )
    }

    /// Whether it is a call on both trees, which only opens the second if there is none.
    pub fn needs_side(self) -> bool {
        matches!(self, Kind::Group | Kind::MoveAcross)
    }
}

/// A call.
#[derive(Clone, Copy)]
pub struct Step {
    pub kind: Kind,
    pub key: u8,
    pub value: u8,
}

// A kind by a number.
fn kind_of(number: u64) -> Kind {
    match number % 40 {
        0..=5 => Kind::Insert,
        6..=8 => Kind::Remove,
        9 | 10 => Kind::Merge,
        11 => Kind::Swap,
        12 => Kind::Update,
        13 | 14 => Kind::Batch,
        15 => Kind::RemoveRange,
        16 => Kind::PopMin,
        17 => Kind::PopMax,
        18 => Kind::Move,
        19..=21 => Kind::Flight,
        22 | 23 => Kind::InsertSide,
        24 => Kind::RemoveSide,
        25 => Kind::ClearSide,
        26..=28 => Kind::Group,
        29 => Kind::MoveAcross,
        30 => Kind::Import,
        31 => Kind::DropSide,
        32 => Kind::Id,
        _ => Kind::Flush,
    }
}

/// The step at a place of the script of a seed.
pub fn step_of(seed: u64, place: u64) -> Step {
    let number = number(seed, place);
    Step {
        kind: kind_of(number >> 32),
        key: (number % KEYS as u64) as u8,
        value: (number >> 16 & 255) as u8,
    }
}

impl Step {
    /// Whether it gives a page or a version a number, if it changes something.
    pub fn gives_number(&self) -> bool {
        self.kind != Kind::DropSide
    }

    /// The key at a place of its list. The first four have different ones.
    pub fn key(&self, place: u8) -> u8 {
        let key = (self.key as usize + place as usize * 7) % KEYS;
        key as u8
    }

    /// The value at a place of its list.
    pub fn value(&self, place: u8) -> Value {
        Value::Letters(self.value.wrapping_add(place))
    }

    /// A write of its batch at a place: its value, or that its key is taken out.
    pub fn write(&self, place: u8) -> Option<Value> {
        if place % 3 == 2 {
            None
        } else {
            Some(self.value(place))
        }
    }

    /// The key behind its range, which has so many keys or none.
    pub fn end(&self) -> u8 {
        self.key.saturating_add(self.value % 12)
    }

    /// Whether its call in flight may be left before it is decided.
    pub fn is_left(&self) -> bool {
        self.value % 2 == 1
    }

    /// How many steps its call in flight does, unless it ends before.
    pub fn turns(&self) -> u64 {
        if self.is_left() {
            (self.value % 8) as u64
        } else {
            TURNS
        }
    }

    /// The number that it adds.
    pub fn number(&self) -> u64 {
        self.value as u64
    }

    /// Whether its swap expects what is there.
    pub fn is_expected(&self) -> bool {
        self.value % 3 != 0
    }

    /// What its swap expects where this is there: the same, or another one.
    pub fn expects(&self, there: Option<Value>) -> Option<Value> {
        if self.is_expected() {
            return there;
        }
        match there {
            Some(_) => None,
            None => Some(self.value(0)),
        }
    }

    /// What its swap sets.
    pub fn sets(&self) -> Option<Value> {
        if self.value % 5 == 1 {
            None
        } else {
            Some(self.value(1))
        }
    }
}
