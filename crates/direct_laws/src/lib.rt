//! Laws: a call on a key is decided within a number of steps that its pages determine, if no other call does a step.
//!
//! A call that a database makes at once makes the steps of a call in flight, one after the other, repairs included, and no other call does
//! a step meanwhile. After 1,000,000 steps that go on it is refused for its turns. These laws say for which pages that never happens: the
//! steps that go on are fewer than `alone_steps` of `tree_progress`, a number of the pages alone. Each page that has not 8 to 10 entries
//! counts there, also where it needs no repair, so 300 leaves of 12 entries each are above the limit already. Over a clean path that does
//! not matter: there a call makes a step for each page (`PointRefused` of `sled`). The repairs that a refused call made stay.
//!
//! Nothing is done here. The laws are concluded from the public contract of such steps alone (`DbRunsToEnd` of `sled`).
#![tactic(auto)]

ghost use Rattle.direct_laws.specs.Turns.{DirectLaw, FinishLaw};

use sled_model::MergeOperator;
use sled_store::Pages;

/// Does nothing. A call on a key that a database makes at once goes on for fewer steps than `alone_steps` of the pages as it begins,
/// whatever was left half done. That number is a product: what is left to repair in its tree and one more, times four more than twice the
/// pages of the tree and what is left to repair. So if this number is 1,000,000 at most the call is never refused for its turns.
///
/// ```
/// law_direct::<MemPages, Adds>(); // From here on a proof knows it.
/// ```
pub fn law_direct<P: Pages, M: MergeOperator>()
    ensures { DirectLaw P.store M.meant }
{}

/// Does nothing. A call in flight on a key that is finished goes on for at most `resumed_steps` steps, by the pages at that moment, if no
/// other call does a step meanwhile. Its stage may be any, and other calls may have left anything half done. So if it has more turns left
/// than that it is not refused for its turns. The law asks that what it knows of pages is true, as of every call in flight, and that a
/// split that it has begun has the halves that a split makes (`law_halves` of `tree_progress`).
///
/// ```
/// law_finish::<MemPages, Adds>(); // From here on a proof knows it.
/// ```
pub fn law_finish<P: Pages, M: MergeOperator>()
    ensures { FinishLaw P.store M.meant }
{}
