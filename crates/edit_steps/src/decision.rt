//! The outcome of a call at its key.
ghost use Rattle.std.specs.Prelude.{◌≡◌, IfOk};
ghost use Rattle.std.specs.Option.{option_map};
ghost use Rattle.sled_model.specs.Answer.{ReadDecides, decision_of};

use sled_model::{Call, Decision, MergeOperator, Reply};
use sled_nodes::{IVec, Result};
use std::alloc::Global;

/// What a call replies by the read of its value, if it changes nothing.
pub fn at_read(call: &Call, value: Option<IVec>) -> Result<Option<Reply>>
    ensures { IfOk result (ReadDecides call.now value) }
{
    call.at_read(value)
}

/// The outcome of a call if this value is at its key, by the operator of its tree.
pub fn at_link<M: MergeOperator>(
    alloc: Global,
    call: &Call,
    value: Option<IVec>,
    operator: Option<&M>,
) -> Result<Decision>
    ensures { IfOk result (λ decision. decision ≡ decision_of (option_map (λ o. M.meant o.now) operator.entry) call.now value) }
{
    call.at_link(alloc, value, operator)
}
