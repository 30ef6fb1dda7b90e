//! A call in flight as a value.
ghost use Rattle.std.specs.Prelude.{◌≡◌};
ghost use Rattle.sled_tree.specs.declared.flight.Aim.TheVariants.{Own};
ghost use Rattle.tree_laws.specs.declared.flight.Stage.TheVariants.{Root};

use sled_model::{Call, Reply, Tree};
use sled_nodes::{Error, IVec};
use std::ops::Bound;
use tree_laws::flight::Stage;

/// What a call in flight is to do. It stays as it is.
#[derive(Drop)]
pub struct Job {
    pub tree: Tree,
    pub call: Call,
}

/// What the walk of a call in flight aims at: the last page of a level that begins within it has what it looks for.
#[derive(Drop)]
pub enum Aim {
    /// What the call itself names: its key, or the end of its range at which a scan begins.
    Own,
    /// Where a scan goes on: at a key, or just below a key.
    At(Bound<IVec>),
}

/// A call in flight: what it is to do, what its walk aims at, its stage, and how many of its steps went on so far.
#[derive(Drop)]
pub struct InFlight {
    pub job: Job,
    pub aim: Aim,
    pub stage: Stage,
    pub turns: u64,
}

impl InFlight {
    /// A call as it begins.
    pub fn new(tree: Tree, call: Call) -> InFlight
        ensures { result ≡ record { job = record { tree = tree; call = call }; aim = Own; stage = Root; turns = 0 } }
    {
        InFlight {
            job: Job { tree, call },
            aim: Aim::Own,
            stage: Stage::Root,
            turns: 0,
        }
    }
}

/// What comes after a page action.
#[derive(Drop)]
pub enum Sequel {
    /// The call goes on from this stage.
    Go(Stage),
    /// The call was decided.
    Decided(Reply),
    /// The call is refused.
    Refused(Error),
}

/// How a step of a call in flight came out.
#[derive(Drop)]
pub enum Went {
    /// The call goes on.
    Moved,
    /// A scan gave its next pair, and goes on.
    Yielded(IVec, IVec),
    /// The call was decided. A scan has given all its pairs.
    Decided(Reply),
    /// The call is refused.
    Refused(Error),
}
