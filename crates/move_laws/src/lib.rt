//! Laws: of calls in flight of which one or another goes on, step by step, one is decided or refused before long.
//!
//! Calls in flight share their pages: each repairs what others left half done, and what one changes sends others back to the root. So it is
//! to be said that they do not do so for ever. Here it is: of calls on keys and scans no more steps go on in a row than `moves_bound` says,
//! a number of their pages, whichever call does each of them. So of one step more at least one returns something: a reply, a pair, or why
//! the call is refused.
//!
//! It is said of the calls together. One of them may be overtaken for ever by others that are decided. Nothing is said of the time that a
//! step takes.
//!
//! The number falls with each repair (`all_left`): thrice what is left to repair in the tree of each call (`to_do` of `tree_progress`), and
//! what pages grew by that a call is still to merge. Between two repairs each call reads on, or goes back to the root once. A scan goes
//! back to the root after each leaf (`SetsOut`), and the leaves ahead of it get fewer.
//!
//! Nothing is done here.
#![tactic(auto)]

ghost use Rattle.move_laws.specs.Among.{AmongLaw, LeftLaw};

/// Does nothing. A step by which one of several calls goes on leaves what they may have to repair (`all_left`) as it is, or lowers
/// it. Each of them knows then what it needs, and a split that it has begun has the halves that a split makes.
///
/// ```
/// law_left(); // From here on a proof knows it.
/// ```
pub fn law_left()
    ensures { LeftLaw }
{}

/// Does nothing. Of calls on keys and scans in flight on well-formed pages no more steps go on in a row than `moves_bound` says of the
/// pages, whichever call does each of them. So it is however many calls there are, at whatever stages, and whatever was left half done.
///
/// ```
/// law_among(); // From here on a proof knows it.
/// ```
pub fn law_among()
    ensures { AmongLaw }
{}
