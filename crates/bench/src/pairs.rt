//! Keys and values that look random, the same for the same words of the command line.
use line_words::input::Stopped;
use sled_nodes::{IVec, Result};
use std::alloc::Global;

// Values are pieces of one row of bytes, and begin at one of so many places.
const STARTS: u64 = 256;

// The choices of calls are numbered from here, apart from the pairs.
const CHOICES: u64 = 1 << 63;

// A number that looks random, another one for each place.
fn scattered(place: u64) -> u64 {
    let number = place.wrapping_mul(0x9e37_79b9_7f4a_7c15);
    let number = (number ^ (number >> 30)).wrapping_mul(0xbf58_476d_1ce4_e5b9);
    let number = (number ^ (number >> 27)).wrapping_mul(0x94d0_49bb_1331_11eb);
    number ^ (number >> 31)
}

/// What keys look like.
#[derive(Clone, Copy)]
pub enum Keys {
    /// Eight bytes that look random.
    Scattered,
    /// Eight bytes: the numbers from 0 on.
    Ascending,
    /// Thirty bytes, as `tenant/0042/user/00001234/name`, whose last eight digits look random.
    Rows,
}

impl Keys {
    /// The keys that a word names.
    pub fn named(name: &str) -> Option<Keys> {
        match name {
            "ascending" => Some(Keys::Ascending),
            "rows" => Some(Keys::Rows),
            _ => None,
        }
    }
}

// A key of thirty bytes, by a number.
fn row(number: u64) -> [u8; 30] {
    let mut key = *b"tenant/0042/user/00000000/name";
    let mut left = number;
    for place in 0..8 {
        key[24 - place] = b'0' + (left % 10) as u8;
        left /= 10;
    }
    key
}

#[derive(Drop)]
pub struct Pairs {
    alloc: Global,
    keys: Keys,
    seed: u64,
    count: u64,
    shortest: u16,
    longest: u16,
    row: Vec<u8>,
}

impl Pairs {
    /// The values have so many bytes at least and at most.
    pub fn new(
        alloc: Global,
        keys: Keys,
        seed: u64,
        count: u64,
        shortest: u64,
        longest: u64,
    ) -> std::result::Result<Pairs, Stopped> {
        let (Ok(shortest), Ok(longest)) = (u16::try_from(shortest), u16::try_from(longest)) else {
            return Err(Stopped);
        };
        let mut row = Vec::new(alloc);
        for place in 0..STARTS + u64::from(longest) {
            row.push(scattered(place).to_be_bytes()[0])?;
        }
        Ok(Pairs {
            alloc,
            keys,
            seed,
            count,
            shortest,
            longest,
            row,
        })
    }

    pub fn alloc(&self) -> Global {
        self.alloc
    }

    /// How many pairs are loaded.
    pub fn count(&self) -> u64 {
        self.count
    }

    /// The key at a place.
    #[inline(always)]
    pub fn key(&self, place: u64) -> Result<IVec> {
        match self.keys {
            Keys::Scattered => {
                let number = scattered(self.seed.wrapping_add(place));
                IVec::from_slice(self.alloc, &number.to_be_bytes())
            }
            _ => self.other_key(place),
        }
    }

    // The same of keys of another kind. It is by itself, so that those that look random cost the program as little as they may.
    #[inline(never)]
    fn other_key(&self, place: u64) -> Result<IVec> {
        match self.keys {
            Keys::Rows => IVec::from_slice(
                self.alloc,
                &row(scattered(self.seed.wrapping_add(place))),
            ),
            _ => IVec::from_slice(self.alloc, &place.to_be_bytes()),
        }
    }

    /// The first bytes of the key at a place, or all of it.
    pub fn beginning(&self, place: u64, len: u64) -> Result<IVec> {
        let bytes = scattered(self.seed.wrapping_add(place)).to_be_bytes();
        let first = bytes.get(..len as usize).unwrap_or(&bytes);
        IVec::from_slice(self.alloc, first)
    }

    /// A value by a number.
    pub fn value(&self, number: u64) -> Result<IVec> {
        let number = scattered(self.seed ^ number);
        let more = u64::from(self.longest.saturating_sub(self.shortest)) + 1;
        let start = (number % STARTS) as usize;
        let len = usize::from(self.shortest) + ((number >> 32) % more) as usize;
        let bytes = self.row.get(start..start + len).unwrap_or_default();
        IVec::from_slice(self.alloc, bytes)
    }

    /// A number that looks random for the call of this turn.
    pub fn choice(&self, turn: u64) -> u64 {
        scattered(self.seed.wrapping_add(CHOICES).wrapping_add(turn))
    }
}

/// An answer as a number of a checksum: how long the value is, and its first bytes.
pub fn digest(value: &Option<IVec>) -> u64 {
    let Some(value) = value else {
        return 1 << 63;
    };
    let bytes = value.as_ref();
    let mut digest = bytes.len() as u64;
    for byte in bytes.get(..6).unwrap_or(bytes) {
        digest = digest << 8 ^ u64::from(*byte);
    }
    digest
}
