//! Whole calls whose reply is kept: two copies of it are made before anything changes, so that want of memory for them refuses the
//! call before it is decided. Of the calls whose reply owns memory these are the pops (`pop_keeping`) and the opening of a tree.
ghost use Rattle.std.specs.Prelude.{◌≡◌, false, IfOk, IfErr, OnOk, Option, Some};
ghost use Rattle.sled_nodes.specs.Order.{Key};
ghost use Rattle.sled_nodes.specs.declared.error.Error.TheVariants.{NoMemory};
ghost use Rattle.sled_store.specs.Store.{now};
ghost use Rattle.sled_model.specs.Maps.{IsLeast, IsGreatest};
ghost use Rattle.sled_model.specs.Imports.{tree_at};
ghost use Rattle.sled_model.specs.Whole.{number_opened};
ghost use Rattle.sled_model.specs.declared.call.Whole.TheVariants.{PopMin, PopMax, OpenTree};
ghost use Rattle.sled_model.specs.declared.outcome.Outcome.TheVariants.{Decided};
ghost use Rattle.sled_model.specs.declared.reply.Reply.TheVariants.{Pair};
ghost use Rattle.sled_model.specs.declared.reply.Reply.TheVariants as answer;
ghost use Rattle.tree_reads.specs.Walk.{once, for_each};
ghost use Rattle.sled.specs.Opens.{OpensBySteps, OpenRefusedBySteps};

use crate::db::Db;
use crate::whole::Side;
use sled_model::{MergeOperator, Reply, Tree};
use sled_nodes::texts::NUMBERS_USED_UP;
use sled_nodes::{Error, Result};
use sled_store::Pages;
use tree_lists::number_of;
use tree_steps::Keep;

// The reply of a call, and two copies of it.
fn told_thrice(reply: Reply, kept: Option<(Reply, Reply)>) -> (Reply, Reply, Reply)
    requires { kept ≡ Some (reply, reply) }
    ensures told { result.0 ≡ reply }
    ensures kept { (result.1 ≡ result.0) × (result.2 ≡ result.0) }
{
    match kept {
        Some((one, other)) => (reply, one, other),
        None => unreachable!(),
    }
}

impl<P: Pages, M: MergeOperator> Db<P, M> {
    ghost use Rattle.sled.specs.Values.{db_state};
    ghost use Rattle.sled.specs.Direct.{WholeDecided, WholeRefused};
    ghost use Rattle.sled.specs.Pops.{PopsBySteps, PopRefusedBySteps, GivesUpPop};
    ghost use Rattle.sled.specs.Promises.{ChangesMap, OpensMap, RefusesCall, leaves_as, without_found};
    ghost use Rattle.sled.specs.Wholes.{leaves_whole_as};

    /// Takes out the pair with the least key, as `pop_min` does, and answers the call's reply (`Reply::Pair`) and two copies of it. The
    /// copies are made once the pair is read and before it is removed. Refused as `pop_min` is, and with `NoMemory` if there is no memory
    /// for the copies: the pair stays then, and so do repairs that were made on the way to it, which change no map.
    ///
    /// ```
    /// let (reply, one, other) = db.pop_min_kept(&tree)?; // Three equal replies.
    /// ```
    pub fn pop_min_kept(&mut self, tree: &Tree) -> Result<(Reply, Reply, Reply)>
        ensures ok { IfOk result (λ told. WholeDecided P.store M.meant self.old (PopMin tree.now) told.0 self.new) }
        ensures kept { IfOk result (λ told. (told.1 ≡ told.0) × (told.2 ≡ told.0)) }
        ensures err { IfErr result (λ e. WholeRefused P.store M.meant self.old (PopMin tree.now) e self.new) }
        ensures gives_up { IfErr result (GivesUpPop P.store M.meant self.old tree.now IsLeast once) }
        ensures steps { IfOk result (λ told. (found : Option (Key × Key)) × (told.0 ≡ Pair found) × PopsBySteps P.store M.meant self.old tree.now IsLeast found self.new) }
        ensures refused { IfErr result (λ e. PopRefusedBySteps P.store M.meant self.old tree.now IsLeast once e self.new) }
        ensures changes { IfOk result (λ told. (found : Option (Key × Key)) × (told.0 ≡ Pair found) × ChangesMap P.store M.meant self.old tree.now (λ before after. IsLeast before found × (after ≡ without_found found before)) self.new) }
        ensures refuses { IfErr result (λ e. RefusesCall P.store M.meant self.old (PopMin tree.now) e self.new) }
        ensures leaves { leaves_as P.store M.meant result self.old self.new }
    {
        match self.pop_keeping(tree, Side::Least) {
            Ok((found, kept)) => Ok(told_thrice(Reply::Pair(found), kept)),
            Err(e) => Err(e),
        }
    }

    /// Takes out the pair with the greatest key, as `pop_max` does, and answers the call's reply and two copies of it, as `pop_min_kept`
    /// does.
    ///
    /// ```
    /// let (reply, one, other) = db.pop_max_kept(&tree)?; // Three equal replies.
    /// ```
    pub fn pop_max_kept(&mut self, tree: &Tree) -> Result<(Reply, Reply, Reply)>
        ensures ok { IfOk result (λ told. WholeDecided P.store M.meant self.old (PopMax tree.now) told.0 self.new) }
        ensures kept { IfOk result (λ told. (told.1 ≡ told.0) × (told.2 ≡ told.0)) }
        ensures err { IfErr result (λ e. WholeRefused P.store M.meant self.old (PopMax tree.now) e self.new) }
        ensures gives_up { IfErr result (GivesUpPop P.store M.meant self.old tree.now IsGreatest for_each) }
        ensures steps { IfOk result (λ told. (found : Option (Key × Key)) × (told.0 ≡ Pair found) × PopsBySteps P.store M.meant self.old tree.now IsGreatest found self.new) }
        ensures refused { IfErr result (λ e. PopRefusedBySteps P.store M.meant self.old tree.now IsGreatest for_each e self.new) }
        ensures changes { IfOk result (λ told. (found : Option (Key × Key)) × (told.0 ≡ Pair found) × ChangesMap P.store M.meant self.old tree.now (λ before after. IsGreatest before found × (after ≡ without_found found before)) self.new) }
        ensures refuses { IfErr result (λ e. RefusesCall P.store M.meant self.old (PopMax tree.now) e self.new) }
        ensures leaves { leaves_as P.store M.meant result self.old self.new }
    {
        match self.pop_keeping(tree, Side::Greatest) {
            Ok((found, kept)) => Ok(told_thrice(Reply::Pair(found), kept)),
            Err(e) => Err(e),
        }
    }

    // The number that the tree of a name has, or that it gets when it is opened. The tests of an opening are made first.
    fn number_ahead(&self, name: &[u8]) -> Result<u64>
        ensures ok { IfOk result (λ number. number ≡ number_opened ((db_state P.store M.meant self.now).trees name.now) (db_state P.store M.meant self.now)) }
        ensures err { IfErr result (λ e. WholeRefused P.store M.meant self.now (OpenTree name.now) e self.now) }
        ensures no_group { OnOk result ((now (P.store self.now.pages)).in_group ≡ false) }
    {
        if self.pages.in_group() {
            return Err(Error::Closed);
        }
        if let Some(number) = number_of(self.trees.as_slice(), name) {
            return Ok(number);
        }
        if self.trees_given == u64::MAX {
            return Err(Error::Unsupported(NUMBERS_USED_UP));
        }
        Ok(self.trees_given + 1)
    }

    // What is to be kept of the reply of an opening. It is made before the opening, and refused as that is, and with `NoMemory`.
    fn keep_ahead<K: Keep>(&self, name: &[u8]) -> Result<K>
        ensures ok { IfOk result (λ kept. kept ≡ K.kept (Decided (answer.Tree (tree_at (db_state P.store M.meant self.now) name.now)))) }
        ensures err { IfErr result (λ e. WholeRefused P.store M.meant self.now (OpenTree name.now) e self.now) }
    {
        if !K::COPIES {
            return Ok(K::nothing());
        }
        let number = match self.number_ahead(name) {
            Ok(number) => number,
            Err(e) => return Err(e),
        };
        let reply = match self.handle_of(name, number) {
            Ok(tree) => Reply::Tree(tree),
            Err(e) => return Err(e),
        };
        let kept = K::of(&reply);
        drop(reply);
        kept
    }

    /// Opens the tree of a name, as `open_tree` does, and answers it, with what is kept of the reply: nothing (`()`), or two copies, as
    /// `open_tree_kept` has them.
    ///
    /// ```
    /// let (orders, ()) = db.open_tree_keeping(b"orders")?; // As `open_tree` does.
    /// ```
    pub fn open_tree_keeping<K: Keep>(&mut self, name: &[u8]) -> Result<(Tree, K)>
        ensures ok { IfOk result (λ all. WholeDecided P.store M.meant self.old (OpenTree name.now) (answer.Tree all.0) self.new) }
        ensures kept { IfOk result (λ all. all.1 ≡ K.kept (Decided (answer.Tree all.0))) }
        ensures err { IfErr result (λ e. WholeRefused P.store M.meant self.old (OpenTree name.now) e self.new) }
        ensures steps { OnOk result (OpensBySteps P.store name.now self.old self.new) }
        ensures refused { IfErr result (λ e. OpenRefusedBySteps P.store name.now self.old e self.new) }
        ensures changes { OnOk result (OpensMap P.store M.meant self.old name.now self.new) }
        ensures refuses { IfErr result (λ e. RefusesCall P.store M.meant self.old (OpenTree name.now) e self.new) }
        ensures leaves { leaves_whole_as P.store M.meant result self.old self.new }
    {
        let kept = match self.keep_ahead(name) {
            Ok(kept) => kept,
            Err(e) => return Err(e),
        };
        match self.open_tree(name) {
            Ok(tree) => Ok((tree, kept)),
            Err(e) => {
                drop(kept);
                Err(e)
            }
        }
    }

    /// Opens the tree of a name, as `open_tree` does, and answers the call's reply (`Reply::Tree`) and two copies of it. The copies are
    /// made before the action that decides it. Refused as `open_tree` is, and with `NoMemory` if there is no memory for the copies: there
    /// is no tree more then, but a page that was made for one may be left behind.
    ///
    /// ```
    /// let (reply, one, other) = db.open_tree_kept(b"orders")?; // Three equal replies.
    /// ```
    pub fn open_tree_kept(&mut self, name: &[u8]) -> Result<(Reply, Reply, Reply)>
        ensures ok { IfOk result (λ told. WholeDecided P.store M.meant self.old (OpenTree name.now) told.0 self.new) }
        ensures kept { IfOk result (λ told. (told.1 ≡ told.0) × (told.2 ≡ told.0)) }
        ensures err { IfErr result (λ e. WholeRefused P.store M.meant self.old (OpenTree name.now) e self.new) }
        ensures steps { OnOk result (OpensBySteps P.store name.now self.old self.new) }
        ensures refused { IfErr result (λ e. OpenRefusedBySteps P.store name.now self.old e self.new) }
        ensures changes { OnOk result (OpensMap P.store M.meant self.old name.now self.new) }
        ensures refuses { IfErr result (λ e. RefusesCall P.store M.meant self.old (OpenTree name.now) e self.new) }
        ensures leaves { leaves_whole_as P.store M.meant result self.old self.new }
    {
        match self.open_tree_keeping(name) {
            Ok((tree, kept)) => Ok(told_thrice(Reply::Tree(tree), kept)),
            Err(e) => Err(e),
        }
    }
}
