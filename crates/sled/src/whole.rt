//! Whole calls, which take pairs out of a tree.
ghost use Rattle.std.specs.Prelude.{◌≡◌, ℕ, IfOk, IfErr, OnOk, [], None};
ghost use Rattle.sled_nodes.specs.declared.error.Error.TheVariants.{NoMemory};
ghost use Rattle.sled_model.specs.Maps.{IsLeast, IsGreatest};
ghost use Rattle.sled_model.specs.declared.call.Whole.TheVariants.{PopMin, PopMax, Clear};
ghost use Rattle.sled_model.specs.declared.outcome.Outcome.TheVariants.{Decided};
ghost use Rattle.sled_model.specs.declared.reply.Reply.TheVariants.{Pair, Done};
ghost use Rattle.tree_reads.specs.Walk.{once, for_each};
ghost use Rattle.sled.specs.Pops.{end_of, pages_of, pop_of};
ghost use Rattle.sled.specs.theory.Pops.{reads_of, takes_as, leaves_pair_as, IsPair};

use crate::db::Db;
use sled_model::{Call, MergeOperator, Reply, Tree};
use sled_nodes::{IVec, Result};
use sled_store::Pages;
use tree_steps::Keep;

/// An end of a tree.
#[derive(Clone, Copy)]
pub enum Side {
    /// Its least key.
    Least,
    /// Its greatest key.
    Greatest,
}

// The pair that a pop replied with, if it found one.
#[inline(always)]
fn pair_of(reply: Reply) -> Option<(IVec, IVec)>
    requires { IsPair reply }
    ensures { reply ≡ Pair result }
{
    match reply {
        Reply::Pair(found) => found,
        _ => unreachable!(),
    }
}

// The pair that a pop found, if it found one, and what is kept of its reply. Refused with `NoMemory` alone.
#[inline(always)]
fn keep_pair<K: Keep>(found: Option<(IVec, IVec)>) -> Result<(Option<(IVec, IVec)>, K)>
    ensures same { IfOk result (λ all. all.0 ≡ found) }
    ensures kept { IfOk result (λ all. all.1 ≡ K.kept (Decided (Pair found))) }
    ensures err { IfErr result (λ e. e ≡ NoMemory) }
{
    let told = Reply::Pair(found);
    let kept = match K::of(&told) {
        Ok(kept) => kept,
        Err(e) => {
            drop(told);
            return Err(e);
        }
    };
    Ok((pair_of(told), kept))
}

impl<P: Pages, M: MergeOperator> Db<P, M> {
    ghost use Rattle.sled.specs.Direct.{WholeDecided, WholeRefused};
    ghost use Rattle.sled.specs.Parts.{ClearsParts};
    ghost use Rattle.sled.specs.Promises.{ChangesMap, RefusesCall, leaves_as, without_found};
    ghost use Rattle.sled.specs.Wholes.{LeavesMaps};
    ghost use Rattle.sled.specs.ManyKeys.{LosesFirst, RefusesClear, LackFirst};
    ghost use Rattle.sled.specs.Reads.{ReadsMap, RefusesReading};
    ghost use Rattle.sled.specs.Pops.{PopsBySteps, PopRefusedBySteps, GivesUpPop, ClearsBySteps, ClearRefusedBySteps};

    // The pair at an end of a tree.
    #[inline(always)]
    fn pair_at(&self, tree: &Tree, side: Side) -> Result<Option<(IVec, IVec)>>
        ensures ok { IfOk result (λ found. ReadsMap P.store M.meant self.now tree.now (λ map. reads_of side map found)) }
        ensures err { IfErr result (RefusesReading P.store M.meant self.now tree.now (pages_of side)) }
    {
        match side {
            Side::Least => self.first(tree),
            Side::Greatest => self.last(tree),
        }
    }

    // The same, and what is kept of its pop.
    #[inline(always)]
    fn pair_kept<K: Keep>(&self, tree: &Tree, side: Side) -> Result<(Option<(IVec, IVec)>, K)>
        ensures ok { IfOk result (λ all. ReadsMap P.store M.meant self.now tree.now (λ map. reads_of side map all.0)) }
        ensures kept { IfOk result (λ all. all.1 ≡ K.kept (Decided (Pair all.0))) }
        ensures err { IfErr result (RefusesReading P.store M.meant self.now tree.now (pages_of side)) }
    {
        match self.pair_at(tree, side) {
            Ok(found) => keep_pair(found),
            Err(e) => Err(e),
        }
    }

    // Takes out a pair that was read just now, if there was one.
    fn take_out(&mut self, tree: &Tree, found: &Option<(IVec, IVec)>) -> Result<()>
        ensures ok { OnOk result (takes_as P.store M.meant self.old tree.now found.now self.new) }
        ensures err { IfErr result (λ e. leaves_pair_as P.store M.meant self.old tree.now found.now e self.new) }
    {
        let Some(pair) = found else {
            return Ok(());
        };
        let key = match pair.0.clone() {
            Ok(key) => key,
            Err(e) => return Err(e),
        };
        match self.point(tree, Call::Remove(key)) {
            Ok(reply) => {
                drop(reply);
                Ok(())
            }
            Err(e) => Err(e),
        }
    }

    /// Takes out the pair at an end, as `pop_min` and `pop_max` do, and answers it, with what is kept of the reply: nothing (`()`), or two
    /// copies, as `pop_min_kept` has them.
    ///
    /// ```
    /// let (found, ()) = db.pop_keeping(&tree, Side::Least)?; // As `pop_min` does.
    /// ```
    pub fn pop_keeping<K: Keep>(
        &mut self,
        tree: &Tree,
        side: Side,
    ) -> Result<(Option<(IVec, IVec)>, K)>
        ensures ok { IfOk result (λ all. WholeDecided P.store M.meant self.old (pop_of side tree.now) (Pair all.0) self.new) }
        ensures kept { IfOk result (λ all. all.1 ≡ K.kept (Decided (Pair all.0))) }
        ensures err { IfErr result (λ e. WholeRefused P.store M.meant self.old (pop_of side tree.now) e self.new) }
        ensures gives_up { IfErr result (GivesUpPop P.store M.meant self.old tree.now (end_of side) (pages_of side)) }
        ensures steps { IfOk result (λ all. PopsBySteps P.store M.meant self.old tree.now (end_of side) all.0 self.new) }
        ensures refused { IfErr result (λ e. PopRefusedBySteps P.store M.meant self.old tree.now (end_of side) (pages_of side) e self.new) }
        ensures changes { IfOk result (λ all. ChangesMap P.store M.meant self.old tree.now (λ before after. end_of side before all.0 × (after ≡ without_found all.0 before)) self.new) }
        ensures refuses { IfErr result (λ e. RefusesCall P.store M.meant self.old (pop_of side tree.now) e self.new) }
        ensures leaves { leaves_as P.store M.meant result self.old self.new }
    {
        self.audit();
        let (found, kept) = match self.pair_kept(tree, side) {
            Ok(all) => all,
            Err(e) => return Err(e),
        };
        match self.take_out(tree, &found) {
            Ok(()) => Ok((found, kept)),
            Err(e) => {
                drop(found);
                drop(kept);
                Err(e)
            }
        }
    }

    /// Takes out the pair with the least key, and answers it; or `None`, if the tree is empty. The pair is read without a repair, and
    /// then removed by the steps of `remove`.
    ///
    /// ```
    /// if let Some((key, value)) = db.pop_min(&tree)? {
    ///     // The pair with the least key is out of the tree.
    /// }
    /// ```
    pub fn pop_min(&mut self, tree: &Tree) -> Result<Option<(IVec, IVec)>>
        ensures ok { IfOk result (λ found. WholeDecided P.store M.meant self.old (PopMin tree.now) (Pair found) self.new) }
        ensures err { IfErr result (λ e. WholeRefused P.store M.meant self.old (PopMin tree.now) e self.new) }
        ensures gives_up { IfErr result (GivesUpPop P.store M.meant self.old tree.now IsLeast once) }
        ensures steps { IfOk result (λ found. PopsBySteps P.store M.meant self.old tree.now IsLeast found self.new) }
        ensures refused { IfErr result (λ e. PopRefusedBySteps P.store M.meant self.old tree.now IsLeast once e self.new) }
        ensures changes { IfOk result (λ found. ChangesMap P.store M.meant self.old tree.now (λ before after. IsLeast before found × (after ≡ without_found found before)) self.new) }
        ensures refuses { IfErr result (λ e. RefusesCall P.store M.meant self.old (PopMin tree.now) e self.new) }
        ensures leaves { leaves_as P.store M.meant result self.old self.new }
    {
        match self.pop_keeping(tree, Side::Least) {
            Ok((found, ())) => Ok(found),
            Err(e) => Err(e),
        }
    }

    /// Takes out the pair with the greatest key, and answers it; or `None`, if the tree is empty.
    ///
    /// ```
    /// if let Some((key, value)) = db.pop_max(&tree)? {
    ///     // The pair with the greatest key is out of the tree.
    /// }
    /// ```
    pub fn pop_max(&mut self, tree: &Tree) -> Result<Option<(IVec, IVec)>>
        ensures ok { IfOk result (λ found. WholeDecided P.store M.meant self.old (PopMax tree.now) (Pair found) self.new) }
        ensures err { IfErr result (λ e. WholeRefused P.store M.meant self.old (PopMax tree.now) e self.new) }
        ensures gives_up { IfErr result (GivesUpPop P.store M.meant self.old tree.now IsGreatest for_each) }
        ensures steps { IfOk result (λ found. PopsBySteps P.store M.meant self.old tree.now IsGreatest found self.new) }
        ensures refused { IfErr result (λ e. PopRefusedBySteps P.store M.meant self.old tree.now IsGreatest for_each e self.new) }
        ensures changes { IfOk result (λ found. ChangesMap P.store M.meant self.old tree.now (λ before after. IsGreatest before found × (after ≡ without_found found before)) self.new) }
        ensures refuses { IfErr result (λ e. RefusesCall P.store M.meant self.old (PopMax tree.now) e self.new) }
        ensures leaves { leaves_as P.store M.meant result self.old self.new }
    {
        match self.pop_keeping(tree, Side::Greatest) {
            Ok((found, ())) => Ok(found),
            Err(e) => Err(e),
        }
    }

    /// Takes out all keys, one after the other from the least up, each as `pop_min` does. It is not atomic: refused midway, the
    /// keys that are out stay out.
    ///
    /// ```
    /// db.clear(&tree)?;
    /// let is_empty = db.is_empty(&tree)?; // `true`.
    /// ```
    pub fn clear(&mut self, tree: &Tree) -> Result<()>
        ensures ok { OnOk result (WholeDecided P.store M.meant self.old (Clear tree.now) Done self.new) }
        ensures err { IfErr result (λ e. WholeRefused P.store M.meant self.old (Clear tree.now) e self.new) }
        ensures steps { OnOk result (ClearsBySteps P.store M.meant tree.now self.old self.new) }
        ensures refused { IfErr result (λ e. ClearRefusedBySteps P.store M.meant self.old tree.now e self.new) }
        ensures refuses { IfErr result (λ e. (number : ℕ) × RefusesClear P.store M.meant self.old tree.now number e self.new) }
        ensures leaves { LeavesMaps P.store M.meant (LackFirst P.store M.meant self.old tree.now) None self.old self.new }
        ensures changes { OnOk result (ChangesMap P.store M.meant self.old tree.now (λ before after. after ≡ []) self.new) }
    {
        let (done, _) = self.clear_counted(tree);
        done
    }

    /// Does what `clear` does, and also returns how many keys it took out: of one that is refused midway those that are out.
    /// `u64::MAX` means as many or more.
    ///
    /// ```
    /// let (done, count) = db.clear_counted(&tree); // Where `done` is `Ok`, as many as `db.len(&tree)?` was.
    /// ```
    pub fn clear_counted(&mut self, tree: &Tree) -> (Result<()>, u64)
        ensures ok { OnOk result.0 (WholeDecided P.store M.meant self.old (Clear tree.now) Done self.new) }
        ensures err { IfErr result.0 (λ e. WholeRefused P.store M.meant self.old (Clear tree.now) e self.new) }
        ensures steps { OnOk result.0 (ClearsBySteps P.store M.meant tree.now self.old self.new) }
        ensures refused { IfErr result.0 (λ e. ClearRefusedBySteps P.store M.meant self.old tree.now e self.new) }
        ensures parts { ClearsParts P.store M.meant self.old tree.now result.1 self.new }
        ensures counts { OnOk result.0 (ChangesMap P.store M.meant self.old tree.now (LosesFirst result.1) self.new) }
        ensures refuses { IfErr result.0 (λ e. RefusesClear P.store M.meant self.old tree.now result.1 e self.new) }
        ensures leaves { LeavesMaps P.store M.meant (LackFirst P.store M.meant self.old tree.now) None self.old self.new }
        ensures changes { OnOk result.0 (ChangesMap P.store M.meant self.old tree.now (λ before after. after ≡ []) self.new) }
    {
        self.audit();
        let mut count: u64 = 0;
        'parts: loop {
            self.audit();
            let (key, value) = match self.first(tree) {
                Ok(Some(pair)) => pair,
                Ok(None) => return (Ok(()), count),
                Err(e) => return (Err(e), count),
            };
            drop(value);
            match self.point(tree, Call::Remove(key)) {
                Ok(reply) => drop(reply),
                Err(e) => return (Err(e), count),
            }
            count = count.saturating_add(1);
        }
    }
}
