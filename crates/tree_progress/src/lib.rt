//! What is left to repair in a tree, as a number of its pages (`to_do`), and what the changes of a repair do to it, as laws.
//!
//! A call that reaches a page that is too long, to a small one, to one without a pointer or to a half-done merge repairs it first. What is
//! left to repair is a number that each repair lowers: what each page weighs by how many entries it has, and a weight more for each page
//! without a pointer and for each merge that is half done. It is a function of the pages and the root alone: down from the root by first
//! pointers, and on each level along `next`, as the contents of a tree are. On well-formed pages it is the sum over the chains of the
//! forest.
//!
//! So a call that is stepped alone does not repair for ever: it is decided or refused within a number of steps that the pages determine,
//! from its begin on (`law_alone`) and from whatever stage it is at (`law_resumed`). Of steps of several calls in turn no such thing is
//! proved here.
//!
//! - *A page of n entries*: nothing from 8 to 10, 2 for each entry below 8 and 1 for each above 10 (`weight`).
//! - *The first page of a level*, which never merges: 1 for each entry above 10 (`first_weight`).
//! - *A merging child*: 5 more than its entries, 4 more once it is capped (`child_weight`); 3 once it was received, until its pointer goes
//!   (`received_weight`).
//! - *A page without a pointer* that is not the first of its level: 4 more (`pointer_weight`).
//!
//! Nothing is done here. A law is a function whose contract says what one change of a repair does to this number (`Lowers`). It holds of
//! every state whose pages are well formed, if the call knows at its stage what every call in flight knows there (`IsStage` of
//! `tree_laws`). What is left to repair in other trees stays as it is, and the tree has one page more at most. `law_step` puts them
//! together: a step of a call in flight, from whichever stage.
//!
//! That the sums fall rests on the sizes: a page of more than 16 entries is split, one of 3 or fewer merges, and a half of 17 has more
//! than 3. With sizes for which this does not hold, a split and a merge may undo each other for ever.
#![tactic(auto)]

ghost use Rattle.tree_progress.specs.Alone.{AloneLaw, ResumedLaw};
ghost use Rattle.tree_progress.specs.Steps.{HalvesLaw, StepLaw};
ghost use Rattle.tree_progress.specs.Laws.{LinkRaises, InstallLowers, PostLowers, SwapLowers, IntendLowers, CapLowers, ReceiveLowers, ConfirmLowers};

/// Does nothing. The link of a call raises what is left to repair in its tree by 1 at most if it sets a value, and by 2 at most if it takes
/// a key out.
///
/// ```
/// law_link(); // From here on a proof knows it.
/// ```
pub fn law_link()
    ensures { LinkRaises }
{}

/// Does nothing. A page of more than 16 entries that becomes its left half, whose `next` is the new page with its right half, lowers what
/// is left to repair in its tree by 3 at least. The new page has no pointer yet.
///
/// ```
/// law_install(); // From here on a proof knows it.
/// ```
pub fn law_install()
    ensures { InstallLowers }
{}

/// Does nothing. An index that gets its pointer to a page, at whose key it has none, lowers what is left to repair in its tree by 3 at
/// least: the page weighs 4 less, and the index 1 more at most.
///
/// ```
/// law_post(); // From here on a proof knows it.
/// ```
pub fn law_post()
    ensures { PostLowers }
{}

/// Does nothing. A new root over the old one and the page beside it, which has its pointer then, lowers what is left to repair in its tree
/// by 4.
///
/// ```
/// law_swap(); // From here on a proof knows it.
/// ```
pub fn law_swap()
    ensures { SwapLowers }
{}

/// Does nothing. The intention of a merge, the change by which an index takes a child for its merging child, lowers what is left to repair
/// in its tree if the child has 3 entries or fewer. A child that grew after a call chose to merge it weighs 5 more than its entries then,
/// in place of what it weighed before.
///
/// ```
/// law_intend(); // From here on a proof knows it.
/// ```
pub fn law_intend()
    ensures { IntendLowers }
{}

/// Does nothing. The cap of a merging child lowers what is left to repair in its tree by 1.
///
/// ```
/// law_cap(); // From here on a proof knows it.
/// ```
pub fn law_cap()
    ensures { CapLowers }
{}

/// Does nothing. The page before a capped child that receives it lowers what is left to repair in its tree by 1 at least. The child weighs
/// 3 from then on, if it weighed 4 more than its entries. The page, which has 16 entries at most before, weighs as much more at most as the
/// child had entries.
///
/// ```
/// law_receive(); // From here on a proof knows it.
/// ```
pub fn law_receive()
    ensures { ReceiveLowers }
{}

/// Does nothing. The confirmation of a merge, the change by which an index loses its pointer to the child that was received, lowers what is
/// left to repair in its tree by 1 at least. The child weighs 3 less, and the index 2 more at most.
///
/// ```
/// law_confirm(); // From here on a proof knows it.
/// ```
pub fn law_confirm()
    ensures { ConfirmLowers }
{}

/// Does nothing. A step of a call in flight (`Follows` of `sled_tree`), whichever its stage is, leaves what is left to repair in every tree
/// as it is, or lowers it in its own. But the link of a change raises it by 2 at most, and an intention does as `law_intend` says. Of a
/// call that is to make a page its left half it is asked that the halves are those that a split makes (`HasHalves`).
///
/// ```
/// law_step(); // From here on a proof knows it.
/// ```
pub fn law_step()
    ensures { StepLaw }
{}

/// Does nothing. A call in flight that is to make a page its left half has the halves that a split makes (`HasHalves`), whatever other
/// calls do. None is asked for as it begins, each of its steps gives them to the next stage, and what leaves the call's own pages as they
/// are keeps them.
///
/// ```
/// law_halves(); // From here on a proof knows it.
/// ```
pub fn law_halves()
    ensures { HalvesLaw }
{}

/// Does nothing. If only one call does steps, a call on a key, and it begins on well-formed pages, half-done splits and merges included,
/// then fewer of its steps go on than `alone_steps` of the pages. That number is what is left to repair in its tree and one more, times
/// four more than twice the pages of the tree and what is left to repair. So, alone, it is decided or refused within that many steps.
///
/// ```
/// law_alone(); // From here on a proof knows it.
/// ```
pub fn law_alone()
    ensures { AloneLaw }
{}

/// Does nothing. If only one call does steps from some moment on, a call in flight on a key, then at most `resumed_steps` of its steps go
/// on, by the pages at that moment. Its stage may be any, and other calls may have left anything half done. So, stepped alone, it is
/// decided or refused, even if others changed pages that it had read.
///
/// ```
/// law_resumed(); // From here on a proof knows it.
/// ```
pub fn law_resumed()
    ensures { ResumedLaw }
{}
