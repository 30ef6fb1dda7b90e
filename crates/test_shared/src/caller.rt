//! A caller of a trial. What it does knows neither its handle nor the runtime.
use crate::asking::{Ask, Told, call_of, outcome_told, told_of};
use crate::beside::{Scene, Way, require};
use crate::naming::named_told;
use sled_machine::shared::{Gate, Made};
use sled_model::Call;
use std::process::Abort;
use std::sync::Wait;
use std::sync::ledger::Ledger;

/// A caller, in a thread of its own.
pub trait Caller {
    /// What it made, as it knows itself.
    fn made(&self) -> &[Made];

    /// Makes the call. What came of it.
    fn ask(&mut self, ask: Ask<'_>) -> Told;

    /// Makes a whole call by its own name. What came of it.
    fn ask_named(&mut self, ask: Ask<'_>) -> Told;

    /// Inserts a value at a key, with a gate between two steps. What came of it.
    fn insert_past<G: Gate>(&mut self, key: &[u8], value: &[u8], gate: &G) -> Told;

    /// Begins a call on a key. Its slot.
    fn begin(&mut self, ask: Ask<'_>) -> u64;

    /// Takes an id.
    fn id(&mut self) -> u64;

    /// Ends the test if something does not hold, and says what should.
    fn require(&self, holds: bool, what: &str);
}

/// A caller by its handle.
#[derive(Drop)]
pub struct Seat<'a, L: Ledger, R> {
    pub rt: &'a R,
    pub scene: &'a Scene,
    pub handle: &'a mut Way<L>,
}

impl<L: Ledger, R: Wait + Abort> Caller for Seat<'_, L, R> {
    fn made(&self) -> &[Made] {
        self.handle.made()
    }

    fn ask(&mut self, ask: Ask<'_>) -> Told {
        told_of(self.rt, self.scene, self.handle, ask)
    }

    fn ask_named(&mut self, ask: Ask<'_>) -> Told {
        named_told(self.rt, self.scene, self.handle, ask)
    }

    fn insert_past<G: Gate>(&mut self, key: &[u8], value: &[u8], gate: &G) -> Told {
        let call = Call::insert(self.scene.alloc, key, value).expect(self.rt, "memory");
        outcome_told(self.handle.call(self.rt, &self.scene.tree, call, gate))
    }

    fn begin(&mut self, ask: Ask<'_>) -> u64 {
        let call = call_of(self.rt, self.scene, ask);
        let begun = self.handle.begin(self.rt, &self.scene.tree, call);
        begun.expect(self.rt, "a slot").0
    }

    fn id(&mut self) -> u64 {
        match self.handle.generate_id(self.rt) {
            Ok(id) => id,
            Err(why) => {
                drop(why);
                panic!(self.rt; "an id")
            }
        }
    }

    fn require(&self, holds: bool, what: &str) {
        require(self.rt, holds, what);
    }
}
