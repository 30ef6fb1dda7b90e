//! A caller that steps calls of a machine in turn, and knows within how many steps one of them returns something. It is proved from the
//! public contracts of a machine and from the law of few moves alone (`law_moves` of `machine_laws`).
#![tactic(auto)]

ghost use Rattle.std.specs.Prelude.{◌≡◌, ◌≢◌, ◌≤◌, [], IfErr, IfNone, IfOk, IfSome};
ghost use Rattle.sled_store.specs.Store.{now};
ghost use Rattle.sled_model.specs.declared.outcome.Outcome.TheVariants as outcome;
ghost use Rattle.sled_model.specs.declared.outcome.Step.TheVariants as step;
ghost use Rattle.machine_alone.specs.Step.{MachineStepContract};
ghost use Rattle.move_laws.specs.Meant.{moves_bound};
ghost use Rattle.machine_laws.specs.Moves.{IsReached, MovesInARow, flights_of};
ghost use Rattle.example_progress.specs.Turns.{TellsInTurn};

use machine_alone::Machine;
use machine_laws::law_moves;
use sled::Db;
use sled_model::{Call, MergeOperator, Outcome, Slot, Tree};
use sled_nodes::Result;
use sled_store::Pages;

/// A machine over a database, with no call in flight.
///
/// ```
/// let mut machine = start(db);
/// ```
pub fn start<P: Pages, M: MergeOperator>(db: Db<P, M>) -> Machine<P, M>
    ensures db { result.db ≡ db }
    ensures empty { result.flights ≡ [] }
    ensures reached { IsReached P.store P.flush_number M.meant result }
{
    let machine = Machine::new(db);
    machine.audit();
    machine
}

/// Begins a call on a key or a scan, or returns why it does not begin.
///
/// ```
/// let slot = begin(&mut machine, &tree, Call::get(alloc, b"ulm")?)?;
/// ```
pub fn begin<P: Pages, M: MergeOperator>(
    machine: &mut Machine<P, M>,
    tree: &Tree,
    call: Call,
) -> Result<Slot>
    requires { IsReached P.store P.flush_number M.meant machine.old }
    ensures ok { IfOk result (λ slot. MachineStepContract P.store P.flush_number M.meant machine.old (step.Begin tree.now call) (outcome.Begun slot) machine.new) }
    ensures err { IfErr result (λ e. MachineStepContract P.store P.flush_number M.meant machine.old (step.Begin tree.now call) (outcome.Refused e) machine.new) }
    ensures reached { IsReached P.store P.flush_number M.meant machine.new }
{
    let begun = machine.begin(tree, call);
    machine.audit();
    begun
}

/// Steps the calls in these slots in turn, this often at most, until a step does not return `Moved`, and returns what that one did. It
/// returns `None` only if `turns` is no more than `moves_bound` of `move_laws` is of the pages and the calls in flight.
///
/// ```
/// let slot = begin(&mut machine, &tree, Call::get(alloc, b"ulm")?)?;
/// let told = step_in_turn(&mut machine, &[slot], 1_000_000);
/// ```
pub fn step_in_turn<P: Pages, M: MergeOperator>(
    machine: &mut Machine<P, M>,
    slots: &[Slot],
    turns: usize,
) -> Option<Outcome>
    requires some { slots.now ≢ [] }
    requires reached { IsReached P.store P.flush_number M.meant machine.old }
    ensures told { IfSome result (λ told. (told ≢ outcome.Moved) × TellsInTurn P.store P.flush_number M.meant machine.old slots.now told machine.new) }
    ensures moves { IfNone result (MovesInARow P.store P.flush_number M.meant machine.old turns machine.new) }
    ensures few { IfNone result (turns ≤ moves_bound (now (P.store machine.old.db.pages)) (flights_of machine.old)) }
    ensures reached { IsReached P.store P.flush_number M.meant machine.new }
{
    law_moves::<P, M>();
    for turn in 0..turns {
        let told = machine.step(slots[turn % slots.len()]);
        machine.audit();
        match told {
            Outcome::Moved => {}
            told => return Some(told),
        }
    }
    None
}
