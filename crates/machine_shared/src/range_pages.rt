//! Pages of a range, one after the other, each a read of its own.
ghost use Rattle.std.specs.Prelude.{◌≡◌, false, true, IfOk, IfErr, IfNone, IfSome, OnOk};
ghost use Rattle.sled_nodes.specs.Among.{bound_of};
ghost use Rattle.sled_nodes.specs.declared.error.Error.TheVariants.{NoMemory};
ghost use Rattle.machine_shared.specs.declared.read.Question.TheVariants as asks;

use crate::handle::Handle;
use crate::handle_reads::pairs_of;
use crate::read::{Question, copied_page};
use crate::told::Pairs;
use sled_model::{MergeOperator, Tree};
use sled_nodes::{IVec, Result, own_bound};
use sled_store::Pages;
use std::alloc::Global;
use std::ops::Bound;
use std::sync::Wait;
use std::sync::ledger::Ledger;

/// What is left of a range of a tree, which a handle reads page by page. Each page is a snapshot, which the tree had at one moment; between
/// two pages other callers may write.
#[derive(Drop)]
pub struct RangePages {
    pub(crate) tree: Tree,
    // the bounds of what is left
    pub(crate) lo: Bound<IVec>,
    pub(crate) hi: Bound<IVec>,
    pub(crate) back: bool,
    // so many pairs has a page at the most
    pub(crate) most: usize,
    pub(crate) ended: bool,
}

impl RangePages {
    ghost use Rattle.machine_shared.specs.RangePages.{GivesPage, PagesUnderLock, RefusesPage, behind, hi_behind, is_last_page, last_key, lo_behind};

    /// The pages of a range, of so many pairs at the most each: from the least key up or, `back`, from the greatest down. It reads nothing.
    /// Refused with `NoMemory`.
    ///
    /// ```
    /// // All pairs from bern on, ten at a time.
    /// let mut pages = RangePages::new(alloc, &tree, Bound::Included(b"bern"), Bound::Unbounded, false, 10)?;
    /// ```
    pub fn new(
        alloc: Global,
        tree: &Tree,
        lo: Bound<&[u8]>,
        hi: Bound<&[u8]>,
        back: bool,
        most: usize,
    ) -> Result<RangePages>
        ensures ok { IfOk result (λ pages. pages ≡ record { tree = tree.now; lo = bound_of lo.entry; hi = bound_of hi.entry; back = back; most = most; ended = false }) }
        ensures err { IfErr result (λ e. e ≡ NoMemory) }
    {
        let tree = tree.clone()?;
        let lo = match own_bound(alloc, lo) {
            Ok(lo) => lo,
            Err(e) => {
                drop(tree);
                return Err(e);
            }
        };
        match own_bound(alloc, hi) {
            Ok(hi) => Ok(RangePages {
                tree,
                lo,
                hi,
                back,
                most,
                ended: false,
            }),
            Err(e) => {
                drop(tree);
                drop(lo);
                Err(e)
            }
        }
    }

    // The question for the next page.
    fn question(&self) -> Result<Question>
        ensures ok { IfOk result (λ question. question ≡ asks.Page self.now.lo self.now.hi self.now.back self.now.most) }
        ensures err { IfErr result (λ e. e ≡ NoMemory) }
    {
        copied_page(&self.lo, &self.hi, self.back, self.most)
    }

    // The key of the last pair, if there is one.
    fn key_of_last(pairs: &[(IVec, IVec)]) -> Result<Option<IVec>>
        ensures ok { IfOk result (λ key. key ≡ last_key pairs.now) }
        ensures err { IfErr result (λ e. e ≡ NoMemory) }
    {
        match pairs.last() {
            Some(pair) => Ok(Some(pair.0.clone()?)),
            None => Ok(None),
        }
    }

    // Goes past a key, with which so many pairs end.
    fn go_behind(&mut self, key: Option<IVec>, count: usize)
        ensures { self.new ≡ record self.old { lo = lo_behind self.old.back key self.old.lo; hi = hi_behind self.old.back key self.old.hi; ended = is_last_page self.old.most count } }
    {
        self.ended = count < self.most || count == 0;
        let Some(key) = key else {
            return;
        };
        let passed = if self.back {
            std::mem::replace(&mut self.hi, Bound::Excluded(key))
        } else {
            std::mem::replace(&mut self.lo, Bound::Excluded(key))
        };
        drop(passed);
    }

    // Goes past the pairs of a page.
    fn pass(&mut self, pairs: &Pairs) -> Result<()>
        ensures ok { OnOk result (self.new ≡ behind self.old pairs.now) }
        ensures err { IfErr result (λ e. (e ≡ NoMemory) × (self.new ≡ self.old)) }
    {
        let pairs = pairs.as_slice();
        let key = RangePages::key_of_last(pairs)?;
        self.go_behind(key, pairs.len());
        Ok(())
    }

    // Reads the next page.
    fn read<P: Pages, L: Ledger, M: MergeOperator>(
        &mut self,
        rt: &impl Wait,
        handle: &mut Handle<P, L, M>,
    ) -> Result<Pairs>
        requires { self.old.ended ≡ false }
        ensures ok { IfOk result (λ pairs. GivesPage self.old pairs self.new handle.old.made handle.new.made) }
        ensures err { IfErr result (RefusesPage self.old self.new handle.old.made handle.new.made) }
        ensures number { handle.new.number ≡ handle.old.number }
        ensures looks { PagesUnderLock P.store M.meant self.old handle.old handle.new result }
    {
        let question = match self.question() {
            Ok(question) => question,
            Err(e) => return Err(e),
        };
        let pairs = match handle.read(rt, &self.tree, question) {
            Ok(answer) => pairs_of(answer),
            Err(e) => return Err(e),
        };
        match self.pass(&pairs) {
            Ok(()) => Ok(pairs),
            Err(e) => {
                drop(pairs);
                Err(e)
            }
        }
    }

    /// The next page, in one step under the lock, or `None` if the last one was given: one of fewer pairs than there may be, or of none. It
    /// is added to the handle's list as a read, and begins after the last key of the page before. After the last page there is only `None`.
    ///
    /// Refused as `page` of a handle is, and may be asked for again. If there is no memory to go past it (`NoMemory`), what was read is in the
    /// list all the same.
    ///
    /// ```
    /// let mut pages = RangePages::new(alloc, &tree, Bound::Unbounded, Bound::Unbounded, false, 10)?;
    /// while let Some(page) = pages.next_page(rt, &mut handle) {
    ///     let page = page?;
    ///     for (key, value) in page.as_slice() {
    ///         let both = (key.as_ref(), value.as_ref());
    ///     }
    /// }
    /// ```
    pub fn next_page<P: Pages, L: Ledger, M: MergeOperator>(
        &mut self,
        rt: &impl Wait,
        handle: &mut Handle<P, L, M>,
    ) -> Option<Result<Pairs>>
        ensures none { IfNone result ((self.old.ended ≡ true) × (self.new ≡ self.old) × (handle.new ≡ handle.old)) }
        ensures ok { IfSome result (λ page. IfOk page (λ pairs. GivesPage self.old pairs self.new handle.old.made handle.new.made)) }
        ensures err { IfSome result (λ page. IfErr page (RefusesPage self.old self.new handle.old.made handle.new.made)) }
        ensures number { handle.new.number ≡ handle.old.number }
        ensures looks { IfSome result (λ page. PagesUnderLock P.store M.meant self.old handle.old handle.new page) }
    {
        if self.ended {
            return None;
        }
        Some(self.read(rt, handle))
    }
}
