//! The steps of the machine and how they come out.
use crate::{Call, Reply, Tree, Whole};
use sled_nodes::{Error, IVec};
use std::marker::Model;

/// Names a call in flight. Slots are numbered from 1, in order of the begins that succeeded.
#[derive(Clone, Copy, Debug, PartialEq, Eq)]
pub struct Slot(pub u64);

impl Model for Slot {
    ghost use Rattle.std.specs.Prelude.{ℕ};

    ghost Value = { ℕ };

    ghost view = { λ s. s.0 };

    ghost inverse = { λ n. record { 0 = n } };
}

/// One step of the machine.
#[derive(Drop)]
pub enum Step {
    /// A call on a tree takes a slot.
    Begin(Tree, Call),
    /// The call in the slot does its next page action.
    Step(Slot),
    /// The call in the slot is abandoned.
    Abandon(Slot),
    /// A whole call.
    Whole(Whole),
}

/// How a step came out. `Decided`, `Refused` and `Abandoned` end the slot.
#[derive(Debug, Drop)]
pub enum Outcome {
    /// The call took this slot.
    Begun(Slot),
    /// The call went on, and no map changed.
    Moved,
    /// A scan gave its next pair.
    Yielded(IVec, IVec),
    /// The call took effect at this step. A scan has given all its pairs.
    Decided(Reply),
    /// The call was refused, and changed no map, but for the parts that a clear or an import did; or a group was refused midway, and the
    /// database is closed.
    Refused(Error),
    /// The call was abandoned, and changed no map.
    Abandoned,
    /// No call has the slot.
    NoSuchSlot,
}
