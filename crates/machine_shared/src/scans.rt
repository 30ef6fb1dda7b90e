//! What scans did, in the order of their steps.
ghost use Rattle.std.specs.Prelude.{◌≡◌, ◌≢◌, ◌∷◌, [], List, true, false, IfOk, OnErr};
ghost use Rattle.machine_shared.specs.Scans.{NotesScan, begun_of, noted_at, scanned_of};
ghost use Rattle.machine_shared.specs.declared.scans.Scanned.{Scanned};
ghost use Rattle.machine_shared.specs.declared.scans.Scanned.TheVariants.{Begun};
ghost use Rattle.machine_shared.specs.theory.Scanning.{did_of};

use sled_model::{Call, Outcome, Reply, Slot, Tree};
use sled_nodes::{IVec, Result, clone_pair};
use std::alloc::Global;
use std::marker::Model;

/// What a scan did.
#[derive(Drop, PartialEq, Eq)]
pub enum Scanned {
    /// It began: a call that scans, on this tree.
    Begun(Tree, Call),
    /// It gave this pair.
    Gave(IVec, IVec),
    /// It ended, since it had given all its pairs.
    Ended,
}

/// What a scan did in its slot, and how many entries the history had then.
#[derive(Drop, PartialEq, Eq)]
pub struct ScanNote {
    /// The slot of the scan.
    pub slot: Slot,
    /// The length of the history as it did this.
    pub at: u64,
    /// What it did.
    pub did: Scanned,
}

// What scans did, if it is kept.
pub(crate) struct Scans {
    pub(crate) keeps: bool,
    pub(crate) notes: Vec<ScanNote>,
}

impl Model for Scans {
    ghost use Rattle.machine_shared.specs.Scans.{ScansValue};

    ghost Value = { ScansValue };

    ghost view = { λ s. record { keeps = s.keeps; notes = s.notes.items } };
}

// A scan that begins.
fn scan_of(tree: &Tree, call: &Call) -> Result<Scanned>
    ensures { IfOk result (λ did. did ≡ Begun tree.now call.now) }
{
    let tree = tree.clone()?;
    match call.clone() {
        Ok(call) => Ok(Scanned::Begun(tree, call)),
        Err(e) => {
            drop(tree);
            Err(e)
        }
    }
}

// What a step of a slot that came out so was of a scan.
fn did_at(outcome: &Outcome) -> Result<Option<Scanned>>
    ensures ok { IfOk result (λ did. did_of did ≡ scanned_of outcome.now) }
    ensures err { OnErr result (scanned_of outcome.now ≢ []) }
{
    match outcome {
        Outcome::Yielded(key, value) => {
            let (key, value) = clone_pair(key, value)?;
            Ok(Some(Scanned::Gave(key, value)))
        }
        Outcome::Decided(Reply::End) => Ok(Some(Scanned::Ended)),
        _ => Ok(None),
    }
}

impl Scans {
    // With nothing in it.
    pub(crate) fn new(alloc: Global, keeps: bool) -> Scans
        ensures { result ≡ record { keeps = keeps; notes = [] } }
    {
        Scans {
            keeps,
            notes: Vec::new(alloc),
        }
    }

    // What is to be noted of a call that begins, or why it cannot be.
    pub(crate) fn begun(&self, tree: &Tree, call: &Call) -> Result<Option<Scanned>>
        ensures ok { IfOk result (λ did. self.now.keeps ≡ true → did_of did ≡ begun_of tree.now call.now) }
        ensures err { OnErr result (begun_of tree.now call.now ≢ []) }
    {
        if !self.keeps || call.is_on_key() {
            return Ok(None);
        }
        match scan_of(tree, call) {
            Ok(did) => Ok(Some(did)),
            Err(e) => Err(e),
        }
    }

    // From here on nothing is noted.
    fn stop(&mut self)
        ensures { self.new ≡ record (self.old) { keeps = false } }
    {
        self.keeps = false;
    }

    // Notes what a scan did, if there is memory for it.
    fn add(&mut self, slot: Slot, at: u64, did: Scanned)
        requires { self.old.keeps ≡ true }
        ensures { NotesScan self.old (noted_at slot at (did ∷ [])) self.new }
    {
        if let Err(failed) = self.notes.push(ScanNote { slot, at, did }) {
            drop(failed);
            self.stop();
        }
    }

    // Notes what a scan did, if it did something. At an error there was no memory to say what.
    pub(crate) fn note(&mut self, slot: Slot, at: u64, did: Result<Option<Scanned>>)
        ensures { (all : List Scanned) → IfOk did (λ d. self.old.keeps ≡ true → did_of d ≡ all) → OnErr did (all ≢ []) → NotesScan self.old (noted_at slot at all) self.new }
    {
        if !self.keeps {
            drop(did);
            return;
        }
        match did {
            Ok(Some(did)) => self.add(slot, at, did),
            Ok(None) => (),
            Err(e) => {
                drop(e);
                self.stop();
            }
        }
    }

    // Notes that a scan began, if a call did.
    pub(crate) fn note_begun(&mut self, at: u64, begun: &Result<Slot>, did: Result<Option<Scanned>>)
        ensures ok { (all : List Scanned) → IfOk did (λ d. self.old.keeps ≡ true → did_of d ≡ all) → OnErr did (all ≢ []) → IfOk begun.now (λ slot. NotesScan self.old (noted_at slot at all) self.new) }
        ensures err { OnErr begun.now (self.new ≡ self.old) }
    {
        match begun {
            Ok(slot) => self.note(*slot, at, did),
            Err(_) => drop(did),
        }
    }

    // Notes what a step of a slot, which came out so, was of a scan.
    pub(crate) fn note_step(&mut self, slot: Slot, at: u64, outcome: &Outcome)
        ensures { NotesScan self.old (noted_at slot at (scanned_of outcome.now)) self.new }
    {
        if !self.keeps {
            return;
        }
        let did = did_at(outcome);
        self.note(slot, at, did);
    }
}

// By hand, as a state's.
impl Drop for Scans {
    fn drop(self) {
        let Scans { keeps: _, notes } = self;
        drop(notes);
    }
}
