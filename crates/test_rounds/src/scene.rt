//! What the callers of a database have in common.
use crate::text::Text;
use sled::{IVec, Outcome, Tree};
use sled_nodes::Result;
use std::alloc::Global;
use std::sync::atomic::{AtomicU64, Ordering};

// So many slots can be left for others at a time.
const PLACES: u64 = 4;

/// What is run: so many callers make so many calls each, on so many keys, as a seed says.
#[derive(Clone, Copy)]
pub struct Plan {
    pub alloc: Global,
    pub seed: u64,
    pub callers: u8,
    pub keys: u64,
    pub turns: u64,
}

/// What the callers have in common: the plan, the first tree, a clock, and slots that were left for others.
#[derive(Drop)]
pub struct Scene {
    pub plan: Plan,
    pub tree: Tree,
    clock: AtomicU64,
    places: Vec<AtomicU64>,
}

/// A number that looks random, another one for each place.
pub fn scattered(place: u64) -> u64 {
    let number = place.wrapping_mul(0x9e37_79b9_7f4a_7c15);
    let number = (number ^ (number >> 30)).wrapping_mul(0xbf58_476d_1ce4_e5b9);
    let number = (number ^ (number >> 27)).wrapping_mul(0x94d0_49bb_1331_11eb);
    number ^ (number >> 31)
}

// Places for slots, with no slot there.
fn places(alloc: Global) -> Result<Vec<AtomicU64>> {
    let mut places = Vec::new(alloc);
    for _ in 0..PLACES {
        places.push(AtomicU64::new(0))?;
    }
    Ok(places)
}

impl Plan {
    /// A number that looks random for the call that a caller makes at this turn.
    pub fn choice(&self, caller: u64, turn: u64) -> u64 {
        let number = caller.wrapping_mul(1 << 32).wrapping_add(turn);
        scattered(scattered(self.seed).wrapping_add(number))
    }

    /// The key that such a number chooses: a letter and a digit, so that there are 260 at most.
    pub fn key(&self, choice: u64) -> [u8; 2] {
        let number = choice.checked_rem(self.keys).unwrap_or(0);
        [b'a' + (number / 10 % 26) as u8, b'0' + (number % 10) as u8]
    }
}

impl Scene {
    /// What callers begin with.
    pub fn new(plan: Plan, tree: Tree) -> Result<Scene> {
        match places(plan.alloc) {
            Ok(places) => Ok(Scene {
                plan,
                tree,
                clock: AtomicU64::new(1),
                places,
            }),
            Err(e) => {
                drop(tree);
                Err(e)
            }
        }
    }

    // What the clock says, which goes on.
    fn tick(&self) -> u64 {
        self.clock.fetch_add(1, Ordering::SeqCst)
    }

    /// Begins the line of a call, right before it is made.
    pub fn before(&self, text: &mut Text) {
        text.number(b"", self.tick());
    }

    /// Goes on, right after the call was made.
    pub fn after(&self, text: &mut Text) {
        text.number(b" = ", self.tick());
        text.text(b" ");
    }

    /// The same, with what came of the call.
    pub fn ended(&self, text: &mut Text, outcome: Outcome) {
        self.after(text);
        text.outcome(outcome);
    }

    // The place that a number chooses.
    fn place(&self, choice: u64) -> Option<&AtomicU64> {
        self.places.get((choice % PLACES) as usize)
    }

    /// Leaves a slot for others, and takes the one that was left there before. Of no slot the number is 0.
    pub fn exchange(&self, choice: u64, slot: u64) -> u64 {
        match self.place(choice) {
            Some(place) => place.swap(slot, Ordering::SeqCst),
            None => slot,
        }
    }

    /// The slot that was left there, which stays.
    pub fn look(&self, choice: u64) -> u64 {
        match self.place(choice) {
            Some(place) => place.load(Ordering::SeqCst),
            None => 0,
        }
    }

    /// Copied bytes.
    pub fn bytes(&self, bytes: &[u8]) -> Result<IVec> {
        IVec::from_slice(self.plan.alloc, bytes)
    }
}
