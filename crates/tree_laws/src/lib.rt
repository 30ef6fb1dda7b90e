//! The theory of the tree: what is well formed, what a tree's contents are, and what page actions keep of both.
//!
//! Nothing is done here. A law is a type in `specs/theory/` that speaks of definitions, and a lemma of `proofs/` of that type
//! proves it; a crate above cites the lemma. The stages of a call in flight are values (`flight`), so that what a call knows at
//! a stage can be said of the stage itself.
//!
//! # The form
//!
//! A tree is its name. A place is a tree and a height above its leaves: leaves are at height 0 and a hoist adds a level on
//! top, so the place of a page never changes. A forest is the witness of well-formedness: the chain of pages at each place,
//! and the home of each page that is in a chain, or that was received and still has its pointer. The pages and the roots
//! determine it (`OneLaw`), so that two crates that each say "there is a forest" speak of the same one.
//!
//! Shape and size are two records, `WellFormed` and `IsSized`. A law that keeps the shape says beside it what has to be
//! small for the size to be kept.
//!
//! # Well-formedness in words, and where the definition says it
//!
//! What is asked of the pages of a level's chain:
//!
//! - *The chain goes by `next`, from the empty `lo` to an empty `hi`, and each `hi` is the next page's `lo`*: `WellFormed.run`,
//!   over `Run` and `IsLink`. *Its last page has no `next`, and every other has one*: `Run` ends where `next` is none and `hi`
//!   is empty, and goes on where `next` is the page that follows.
//! - *Bounds rise*: a page with a `next` has its `lo` below its `hi` (`IsLink.rises`), so that an empty `hi` has no `next`. Without
//!   this line an empty leaf may end below where it begins, and a key may then be in a tree twice.
//! - *No page is in a chain twice*: not asked, since the chain's pages begin at ascending keys (`run_different`).
//! - *The top level begins at the root, each other where the first pointer of the level above leads*: `top` and `down`. No level is
//!   above the root's: `top` asks it of the next one, and `down` then gives it of all. A name without a root has no level.
//! - *A pointer names a live page of the level below whose `lo` is the pointer's key*: `IsPointer.live`, `homed` and `key`. *It
//!   is in the chain, or is merging and was received*: `IsHomed.stands`. That a page was received says just that it is not in
//!   the chain: some page of the chain then covers its `lo`, and reaches beyond it.
//! - *A merging child is a pointer of its page, not the first*: `child`. *It has at most 17 entries*: `IsSized.child`.
//! - *A page of a chain needs no pointer*: nothing asks for one.
//!
//! What is asked of received pages too, since they have a home as the pages of chains have:
//!
//! - *The page is live*: `IsHomed.live`.
//! - *All pages of a level are leaves or all are indexes, and those of the last level leaves*: the height of a place fixes the
//!   kind (`Holds`).
//! - *Entries ascend within the bounds; an index has a pointer, and its first key is its `lo`*: `Holds`. *At most 33 entries*:
//!   `IsSized.fits`.
//! - *A merging page is the merging child of the page that points to it*: `IsPointer.merged`. *It has such a parent in the chain above*:
//!   `IsHomed.parent`. So no root is merging, and no page beside a root.
//! - *No page both is merging and has a merging child*: `IsHomed.calm`.
//! - *It belongs to one level of one tree*: a home is one place, and a page of a chain has its home there (`homed`). *One pointer
//!   leads to it*: not asked, since that pointer's key is its `lo`, which one page of the level above covers (`one_parent`).
//! - Nothing is asked of the pages to which a received page's own pointers and `next` lead, nor that its bounds rise.
//!
//! *Of pages that no tree names nothing is asked*: they have no home. The statement that there is a forest leaves no choice of
//! homes: a page has one exactly if it is in a chain, or is the merging child of a page of a chain (`OneLaw`).
//!
//! `RefusedImages` has images that break these lines, which no forest has; `AcceptedImages` has what a
//! split, a hoist and each stage of a merge leave when they stop half done.
//!
//! # Contents
//!
//! The contents of a tree are the pairs along its leaves (`contents`). `trees_of` says the same without a forest, as a total
//! function of pages and roots:
//!
//! - *The contents of all roots by name*: a name without a root has none, which is not the same as no pairs.
//! - *From the root down by first pointers to a leaf*: `first_leaf`. *Then along `next` to the end*: `along`. *The pairs are
//!   joined*: in the order of the pages.
//! - It has fuel for as many steps as there are page numbers, which is never used up if the pages are well formed: then it is what
//!   the forest says (`ContentsLaw`). Elsewhere a page that is missing has no pairs, no pointer and no `next`.
//!
//! What the leaf that covers a key has at it is what the tree has at it (`FindLaw`), the pairs ascend (`SortedLaw`), and a leaf's
//! pairs are the part of the contents within its bounds (`RangeLaw`).
//!
//! # Clean paths and reads
//!
//! A clean path to what a walk aims at, a key or another bound (`IsClean`), is a list of pages that the walk passes without a repair:
//!
//! - *It begins at the root*: `is_root`. *It goes down by the last pointer within the aim, to a leaf*: `CleanFrom`. So it has
//!   a page of each level (`CleanLaw`), and a walk goes one down the list with each step (`CleanStepLaw`).
//! - *Each page is under the aim: if it is a key, the page covers it*: `NeedsNoRepair.under`. *None is merging or has a merging child*:
//!   `is_open`. *None should split*: an open page should if it has more than 16 entries (`fits`). *One that should merge is the root or was
//!   reached by a first pointer*: an open page should if it has 3 or fewer (`many`).
//!
//! `CleanPaths` has a path for each of these lines that breaks it. A reading walk looks at each page of a tree at most once
//! (`IsAhead`), and how many pages are in a tree's chains is a function of pages and roots (`tree_pages`).
//!
//! # Crashes
//!
//! - *Each state that a crash may leave is well formed*: `IsCrashConsistent` says so of the shape and the size. Which
//!   states a crash may leave is said where the pages are (`crash_states`): the base after each beginning of the recent actions
//!   that ends outside every group, the shortest first.
//! - *The base stays, actions are only added at the end, and are counted*: `AddsCrashStates.base`, `recent` and `actions`. The count
//!   refuses what takes a root away, flushes, and puts it back and flushes again, after which all else is as it was.
//! - *The contents after the states that a crash may leave go on by the contents after each call, in order, and by no others,
//!   equal neighbours taken once*: `AddsCrashStates.grew`, over `StutterEquivalent` (`MatchesLaw`). *Those states stay well formed*: `safe`; so do they
//!   after a flush (`FlushesValidLaw`).
//! - *A flush alone does otherwise: the base becomes the state before it, nothing is recent, the count stays*: `Flushes`.
//!
//! # Calls in flight
//!
//! A `Snapshot` is a store now, with each tree's number. Whatever an action does, `Guarantee` is what it gives to every other call. Numbers
//! and versions never come again, and a page of a chain is there or is merging. A merging page and another call's own page stay as they
//! are, and a page that left its chain never comes back. What a call knows at a stage (`IsStage`) survives that (`StageStays`), whether or
//! not its view is stale. What a walk aims at is a bound: of a call at a key the key itself. A tree that was dropped takes its number with
//! it, and of a call whose number is not the name's now nothing is claimed.
//!
//! # The laws
//!
//! `actions`: what page actions do to the shape, the size and the contents of trees.
//!
//! - `EmptyLaw`: A store with no page and no tree is well formed.
//! - `SetLaw`: A `Set` at a leaf of a chain that covers the key puts the pair into the tree, and changes no other tree.
//! - `DelLaw`: A `Del` at such a leaf takes the key out, and changes no other tree.
//! - `PlantLaw`: A new tree over an empty leaf is empty, and the others stay.
//! - `HoistLaw`: A new root over the old one changes no tree.
//! - `DropLaw`: A dropped tree goes, its pages have no home then, and the others stay.
//!
//! `crashes`: what an action adds to the states that a crash may leave.
//!
//! - `ExtendsLaw`: Growths follow one another.
//! - `RestsLaw`: Without an action nothing grows.
//! - `DecidesLaw`: An action outside every group adds the trees that it leaves.
//! - `UnseenLaw`: An action outside every group that leaves the trees as they were adds none.
//! - `InsideGroupLaw`: An action inside a group adds nothing that a crash may leave.
//! - `AgainLaw`: A call that is decided without a change adds the trees as they are.
//! - `ValidLaw`: The shape and the size are kept in each state that a crash may leave.
//! - `FlushesValidLaw`: After a flush of a state that has them, each state that a crash may leave has them.
//! - `MatchesLaw`: Lists match exactly if they are the same once each run of equal neighbours is taken once.
//!
//! `images`: pages and roots that are well formed, and such that are not.
//!
//! - `AcceptedImages`: What half-done work leaves is well formed, and has the pairs that the tree had.
//! - `RefusedImages`: No forest has the shape and the size of an image that breaks one of the lines of well-formedness.
//! - `CleanPaths`: A clean path is one over pages that a walk passes without a repair, and no path over another page is clean.
//! - `FalseLaws`: Laws of the actions that ask for less are false: each would lead to a state that is not well formed, or change another call's page.
//!
//! `kept`: what a call in flight knows survives each action of others.
//!
//! - `ViewLaw`: A kept view speaks of its page while the version is the same.
//! - `StoodLaw`: What is known of a page that was in a chain stays known: its tree lost its number, or it is gone, or merging, or is there.
//! - `NowLaw`: A page that was in a chain, is live and not merging, and whose tree has its number, is there now.
//! - `ActingLaw`: A leaf that a call means to change stays so.
//!
//! `levels`: how the pages of a level are under those of the level above, and what a node's own functions make of it.
//!
//! - `InsideLaw`: A page is within the bounds of the index above that covers where it begins.
//! - `ReachedLaw`: A merge that was done is seen at the page before.
//! - `HalvedLaw`: The halves of a node of two entries or more make a split, whatever its height.
//! - `JoinedLaw`: A node with what the node behind it holds is sound, whatever its height.
//! - `BeforeLaw`: The pointer before one to a page has a lower key.
//! - `BeforeChildLaw`: A merging child has a pointer before its own, which leads into the chain at a lower key.
//! - `LeadsDownLaw`: An index that begins within an upper bound has a pointer within it.
//!
//! `maps`: the contents of all trees, as a function of pages and roots.
//!
//! - `NewLaw`: A store with no page and no root is well formed.
//! - `WellLaw`: The state at a well-formed moment has the shape of a forest, and its size if the forest has it.
//! - `MapLaw`: The map of a name with a root is the contents of its tree.
//! - `QuietLaw`: If no tree's contents change, no map does.
//! - `ChangedLaw`: If one tree's contents change, its map changes so, and no other does.
//! - `QuietCrashLaw`: An action outside every group that no tree's contents show adds nothing to what a crash may leave.
//! - `PlantsLaw`: A new name over an empty leaf of the call's own has an empty map, and every other map is as it was.
//! - `DropsLaw`: A name that is dropped has no map, every other map is as it was, and its chains are left to be freed.
//!
//! `meaning`: what the pages say of the trees.
//!
//! - `FindLaw`: What the leaf that covers a key has at it is what the tree has at it.
//! - `RangeLaw`: A leaf's pairs are the part of the tree's contents that are within its bounds.
//! - `SortedLaw`: The contents of a tree ascend.
//! - `OneLaw`: The pages and the roots determine the forest.
//! - `ContentsLaw`: The contents as a function of pages and roots are the forest's.
//!
//! `paths`: reading walks and clean paths.
//!
//! - `PointerInLaw`: The page that a pointer names, unless it is the merging child, is in the chain below, and begins at the pointer's key.
//! - `NextInLaw`: The next page is in the chain, and begins where this one ends.
//! - `AheadLaw`: A reading walk has fewer pages ahead of it with each step, so that it looks at each page at most once.
//! - `LastPointerLaw`: The last pointer within a bound is one alone, and a later one if it is not the first.
//! - `CleanStepLaw`: A walk at the first page of a clean path repairs nothing there, and goes one down the path.
//! - `CleanLaw`: A clean path has a page of each level.
//! - `PagesLaw`: The number of a tree's pages as a function of pages and roots is the forest's.
//!
//! `splits`: what the actions of splits and merges do to the shape, the size and the contents of trees.
//!
//! - `SplitLaw`: A split of an open page changes no tree, and the new page then is in the chain.
//! - `PostLaw`: A pointer that goes into an open index changes no tree.
//! - `IntentionLaw`: The intention of a merge changes no tree.
//! - `CapLaw`: The cap of a merging child changes no tree.
//! - `ReceiveLaw`: The merge of a capped page into the page before it changes no tree, and the capped page then is in no chain.
//! - `ConfirmLaw`: The confirmation of a merge changes no tree, and the child then has no home.
//!
//! `stages`: what a call in flight knows at its stages, and what its actions make of that.
//!
//! - `StageStays`: What a call knows at its stage it knows still after an action of another call.
//! - `ApartLaw`: No page becomes two calls' own.
//! - `RootHereLaw`: What is known of the root as it is read.
//! - `CursorHereLaw`: What is known of the cursor of a walk as it is read.
//! - `HereLaw`: What a walk knows after it read an open page, by what it goes on to.
//! - `StoodMergesLaw`: If a page of a level was read with a merging child of its own, that merge begins.
//! - `SplitAction`: A split begins with its right half as a new page, and changes no tree.
//! - `InstallLeftAction`: The page that is split becomes its left half, which changes no tree, and its right half is to be posted or hoisted over.
//! - `InstallLeftLate`: If the page changed before, the right half is to be freed.
//! - `PostAction`: The pointer to the right half goes into the parent, which changes no tree.
//! - `HoistAction`: A hoist begins with the new root as a new page.
//! - `SwapRootAction`: The new root becomes the root, which changes no tree.
//! - `SwapRootLate`: If the tree has another root already, the new one is to be freed.
//! - `FreeAction`: A page that is a call's own is freed, which changes no tree.
//! - `IntendAction`: The parent takes its merging child, which changes no tree, and the merge begins.
//! - `ChildSeeks`: If the merging child was read and is merging already, the page before it is looked for.
//! - `ChildCaps`: If the merging child was read and is open, it is to be capped.
//! - `CapAction`: The merging child is capped, which changes no tree, and the page before it is looked for.
//! - `CapLate`: If the child changed before it could be capped, it is read again.
//! - `SeekLaw`: What the search for the page before the child knows after it read an open page.
//! - `ReceiveAction`: The page before the child receives it, which changes no tree.
//! - `ReceiveLate`: If the page before the child changed before it could receive, it is looked for again.
//! - `ConfirmAction`: The pointer to the received child goes, which changes no tree, and the child is the call's own.
//!
//! `steps`: page actions as steps of a store, which keep what every other call knows.
//!
//! - `ReplaceLaw`: A change of a page at its version is a step.
//! - `AllocateLaw`: A new page is a step that changes no tree.
//! - `FreeLaw`: To free a page without a home is a step that changes no tree.
//! - `PlantedLaw`: A first root, with a number never given, is a step.
//! - `HoistedLaw`: Another root for a tree is a step.
//! - `DroppedLaw`: To drop a tree, with its number, is a step.
//! - `WriteLaw`: A call that knows a leaf covers its key, and finds it at the version it knows, puts the pair into the tree.
//! - `EraseLaw`: A call that knows a leaf covers its key, and finds it at the version it knows, takes the key out of the tree.
//! - `LeftLaw`: Right after the drop of a tree all of each chain is left.
//! - `FreesLeftLaw`: To free the first page that is left of a level of a dropped tree is a step, and the rest of the level is left.
//! - `AnswerLaw`: What such a leaf has at the key is what the tree has at it.
#![tactic(auto)]

pub mod flight;
pub mod half;
