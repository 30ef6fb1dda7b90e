//! The last step of a scan, and what it says.
ghost use Rattle.std.specs.Prelude.{◌≡◌, true};
ghost use Rattle.edit_calls.specs.Scans.{IsQuiet, TellsOfEnd, TellsOfAbsence};

use machine_alone::{Machine, law_scans};
use sled_model::{MergeOperator, Outcome, Slot};
use sled_store::Pages;

/// A step of a scan. If it ends the scan, each key within the bounds that was there at each step of the scan was given, whatever other
/// calls did in between. So one that was not given was absent at some step, and may be there all the same. Beside it, whether such a key
/// was absent throughout: it was, if the caller knows that since the begin each step of a slot went on or gave a pair.
pub fn end_scan<P: Pages, M: MergeOperator>(
    machine: &mut Machine<P, M>,
    slot: Slot,
    quiet: bool,
) -> (Outcome, bool)
    ensures end { TellsOfEnd P.store P.flush_number M.meant slot machine.old result.0 }
    ensures absent { result.1 ≡ true → TellsOfAbsence P.store P.flush_number M.meant slot machine.old result.0 (λ outcomes. quiet ≡ true → IsQuiet outcomes) }
{
    law_scans::<P, M>();
    (machine.step(slot), quiet)
}
