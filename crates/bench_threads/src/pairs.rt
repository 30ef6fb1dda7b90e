//! Keys and values that look random, the same for the same words of the command line.

// The choices of calls are numbered from here, apart from the pairs. Each caller has so many of them.
const CHOICES: u64 = 1 << 63;

const TURNS: u64 = 1 << 40;

/// The number in a checksum if there is no value.
pub const NO_MARK: u64 = 1;

// A number that looks random, another one for each place.
fn scattered(place: u64) -> u64 {
    let number = place.wrapping_mul(0x9e37_79b9_7f4a_7c15);
    let number = (number ^ (number >> 30)).wrapping_mul(0xbf58_476d_1ce4_e5b9);
    let number = (number ^ (number >> 27)).wrapping_mul(0x94d0_49bb_1331_11eb);
    number ^ (number >> 31)
}

/// The pairs that are loaded, so many.
#[derive(Clone, Copy)]
pub struct Pairs {
    pub seed: u64,
    pub count: u64,
}

impl Pairs {
    /// The key at a place.
    pub fn key(&self, place: u64) -> [u8; 8] {
        scattered(self.seed.wrapping_add(place)).to_be_bytes()
    }

    /// A value for the key at a place. Its first 8 bytes, its mark, go by the place alone, and the others are those of a number.
    pub fn value(&self, place: u64, number: u64) -> [u8; 16] {
        let mark = scattered(self.seed ^ place);
        (u128::from(mark) << 64 | u128::from(number)).to_be_bytes()
    }

    /// A number that looks random for the call that a caller makes at this turn.
    pub fn choice(&self, caller: u64, turn: u64) -> u64 {
        let number = caller.wrapping_mul(TURNS).wrapping_add(turn);
        scattered(self.seed.wrapping_add(CHOICES).wrapping_add(number))
    }

    /// The place of a pair by such a number.
    pub fn place(&self, choice: u64) -> u64 {
        choice.checked_rem(self.count).unwrap_or(0)
    }
}

/// The mark of a value: its number in a checksum.
pub fn mark_of(value: &[u8]) -> u64 {
    match value.first_chunk::<8>() {
        Some(mark) => u64::from_be_bytes(*mark),
        None => NO_MARK,
    }
}
