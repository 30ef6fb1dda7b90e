//! Laws: of the steps in a row of a machine one is decided, gives a pair or is refused before long, and of calls on keys none is left.
//!
//! A machine's calls in flight share their pages: each repairs what others left half done, and what one changes sends others back to the
//! root. Here it is said that they do not do so for ever. No more steps come out as `Moved` in a row than `moves_bound` of `move_laws`
//! says, a number of the pages and of the calls in flight, whichever slot each step is of. So of one step more, each of a slot that has a
//! call, at least one returns something: a reply, a pair, or why the call is refused. As a reply and a refusal end a call on a key, steps of
//! such calls end (`law_ends`).
//!
//! It is said of the calls together: one of them may be overtaken for ever by others that are decided, if new calls begin. Nothing is said
//! of the time that a step takes.
//!
//! Nothing is done here. The laws are concluded from the public contract of a step of a machine alone (`MachineStepContract` of
//! `machine_alone`).
#![tactic(auto)]

ghost use Rattle.machine_laws.specs.Moves.{EndsLaw, MachineHalvesLaw, MovesLaw};

use sled_model::MergeOperator;
use sled_store::Pages;

/// Does nothing. Of each call in flight of a machine that began with none, a split that it has begun has the halves that a split makes
/// (`HasHalves` of `tree_progress`), whatever steps and calls were made since, scans and whole calls included.
///
/// ```
/// law_machine_halves::<MemPages, Adds>(); // From here on a proof knows it.
/// ```
pub fn law_machine_halves<P: Pages, M: MergeOperator>()
    ensures { MachineHalvesLaw P.store P.flush_number M.meant }
{}

/// Does nothing. Of a machine that began with no call in flight no more steps come out as `Moved` in a row than `moves_bound` of
/// `move_laws` says of the pages and the calls in flight as the row begins. So it is whichever slot each step is of, however many calls
/// there are, scans among them, at whatever stages, and whatever was left half done.
///
/// ```
/// law_moves::<MemPages, Adds>(); // From here on a proof knows it.
/// ```
pub fn law_moves<P: Pages, M: MergeOperator>()
    ensures { MovesLaw P.store P.flush_number M.meant }
{}

/// Does nothing. Of a machine that began with no call in flight steps of its calls on keys do not go on for ever, whichever slot each is
/// of, if no call begins. Each goes on, and of those there are few in a row, or is decided or refused. So if each step is of such a call
/// that is in flight, none is left in the end. Scans may be in flight beside them, but are not stepped.
///
/// ```
/// law_ends::<MemPages, Adds>(); // From here on a proof knows it.
/// ```
pub fn law_ends<P: Pages, M: MergeOperator>()
    ensures { EndsLaw P.store P.flush_number M.meant }
{}
