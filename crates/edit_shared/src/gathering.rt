//! Taking the state out, once all callers are done.
ghost use Rattle.std.specs.Prelude.{◌≡◌, ◌+◌, All, IfOk, IfErr, vec_len};
ghost use Rattle.machine_shared.specs.Gathered.{EachOnceBehind, IsMadeIn, IsOfGiven};
ghost use Rattle.machine_shared.specs.Sound.{HasLegalHistory, HasRisingIds};

use machine_shared::{Db, Handle, State};
use sled_model::MergeOperator;
use sled_store::Pages;
use std::sync::Wait;
use std::sync::ledger::Ledger;

/// The state of one of two databases, if all its handles are there and agree with it, or all that was handed in. The other database is
/// returned, and a state that was gathered before is dropped.
pub fn gather_one<P: Pages, L: Ledger, M: MergeOperator>(
    shared: Db<P, L, M>,
    other: Db<P, L, M>,
    before: State<P, L, M>,
    rt: &impl Wait,
    handles: Vec<Handle<P, L, M>>,
) -> (
    Result<State<P, L, M>, (Db<P, L, M>, Vec<Handle<P, L, M>>)>,
    Db<P, L, M>,
)
    ensures count { IfOk result.0 (λ s. vec_len handles ≡ shared.given) }
    ensures numbers { IfOk result.0 (λ s. EachOnceBehind shared.before shared.given handles.items) }
    ensures made { IfOk result.0 (λ s. All (IsMadeIn s.history) handles.items) }
    ensures others { IfOk result.0 (λ s. All (IsOfGiven (shared.before + shared.given)) s.history) }
    ensures opening { IfOk result.0 (λ s. s.opening ≡ shared.opening) }
    ensures legal { IfOk result.0 (HasLegalHistory P.store) }
    ensures ids { IfOk result.0 HasRisingIds }
    ensures err { IfErr result.0 (λ e. (e.0 ≡ shared) × (e.1 ≡ handles)) }
{
    drop(before);
    (shared.gather(rt, handles), other)
}
