//! Keys and values that look random, the same for the same words of the command line.
use sled::Result;
use std::alloc::Global;

// Values are pieces of one row of bytes, and begin at one of so many places.
const STARTS: u64 = 256;

// A number that looks random, another one for each place.
fn scattered(place: u64) -> u64 {
    let number = place.wrapping_mul(0x9e37_79b9_7f4a_7c15);
    let number = (number ^ (number >> 30)).wrapping_mul(0xbf58_476d_1ce4_e5b9);
    let number = (number ^ (number >> 27)).wrapping_mul(0x94d0_49bb_1331_11eb);
    number ^ (number >> 31)
}

/// So many pairs, whose values have so many bytes at least and at most.
#[derive(Drop)]
pub struct Pairs {
    pub count: u64,
    seed: u64,
    shortest: u16,
    longest: u16,
    row: Vec<u8>,
}

impl Pairs {
    pub fn new(alloc: Global, count: u64, seed: u64, shortest: u16, longest: u16) -> Result<Pairs> {
        let mut row = Vec::new(alloc);
        for place in 0..STARTS + u64::from(longest) {
            row.push(scattered(place).to_be_bytes()[0])?;
        }
        Ok(Pairs {
            count,
            seed,
            shortest,
            longest,
            row,
        })
    }

    /// The key at a place.
    pub fn key(&self, place: u64) -> [u8; 8] {
        scattered(self.seed.wrapping_add(place)).to_be_bytes()
    }

    /// The value at a place.
    pub fn value(&self, place: u64) -> &[u8] {
        let number = scattered(self.seed ^ place);
        let more = u64::from(self.longest.saturating_sub(self.shortest)) + 1;
        let start = (number % STARTS) as usize;
        let len = usize::from(self.shortest) + ((number >> 32) % more) as usize;
        self.row.get(start..start + len).unwrap_or_default()
    }
}

/// A value as a number of a checksum: how long it is, and its first bytes.
pub fn digest(value: Option<&[u8]>) -> u64 {
    let Some(bytes) = value else {
        return 1 << 63;
    };
    let mut digest = bytes.len() as u64;
    for byte in bytes.get(..6).unwrap_or(bytes) {
        digest = digest << 8 ^ u64::from(*byte);
    }
    digest
}
