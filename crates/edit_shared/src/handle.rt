//! Calls of a caller.
ghost use Rattle.std.specs.Prelude.{◌≡◌, ◌++◌, ◌∷◌, [], IfOk, OnErr};
ghost use Rattle.sled_model.specs.State.{IsOnKey};
ghost use Rattle.machine_shared.specs.Made.{ReadMade};
ghost use Rattle.machine_shared.specs.Notes.{AddsStep, IsEnd, noted_of};
ghost use Rattle.machine_shared.specs.Reads.{IsAnswerTo, OfTree};
ghost use Rattle.machine_shared.specs.UnderLock.{ReadsUnderLock, StepsUnderLock};
ghost use Rattle.machine_shared.specs.declared.read.Read.TheVariants as read;

use machine_shared::{Answer, Gate, Handle, Question};
use sled_model::{Call, MergeOperator, Outcome, Slot, Tree};
use sled_nodes::Result;
use sled_store::Pages;
use std::sync::Wait;
use std::sync::ledger::Ledger;

/// A call on a key, step by step until it is decided or refused.
pub fn call<P: Pages, L: Ledger, M: MergeOperator>(
    handle: &mut Handle<P, L, M>,
    rt: &impl Wait,
    tree: &Tree,
    call: Call,
    gate: &impl Gate,
) -> Outcome
    requires { IsOnKey call }
    ensures made { handle.new.made ≡ handle.old.made ++ noted_of result tree.now call }
    ensures number { handle.new.number ≡ handle.old.number }
    ensures ends { IsEnd result }
{
    handle.call(rt, tree, call, gate)
}

/// One step of the call in the slot, under the lock.
pub fn step_by_handle<P: Pages, L: Ledger, M: MergeOperator>(
    handle: &mut Handle<P, L, M>,
    rt: &impl Wait,
    slot: Slot,
) -> Outcome
    ensures made { AddsStep result handle.old.made handle.new.made }
    ensures number { handle.new.number ≡ handle.old.number }
    ensures steps { StepsUnderLock P.store P.flush_number M.meant slot result handle.old handle.new }
{
    handle.step(rt, slot)
}

/// A read under one lock. It is noted with its answer, or it is refused for a cause.
pub fn read<P: Pages, L: Ledger, M: MergeOperator>(
    handle: &mut Handle<P, L, M>,
    rt: &impl Wait,
    tree: &Tree,
    question: Question,
) -> Result<Answer>
    ensures kind { IfOk result (IsAnswerTo question) }
    ensures ok { IfOk result (λ answer. handle.new.made ≡ handle.old.made ++ ReadMade (read.Tree tree.now question answer) ∷ []) }
    ensures err { OnErr result (handle.new.made ≡ handle.old.made) }
    ensures number { handle.new.number ≡ handle.old.number }
    ensures looks { ReadsUnderLock P.store M.meant (OfTree tree.now question) (λ answer. read.Tree tree.now question answer) result handle.old handle.new }
{
    handle.read(rt, tree, question)
}
