//! Importing collections, as an export gives them.
ghost use Rattle.std.specs.Prelude.{◌≡◌, ℕ, IfErr, OnOk, [], ◌∷◌, length, None};
ghost use Rattle.sled_model.specs.Collections.{contents_of, are_trees};
ghost use Rattle.sled_model.specs.Imports.{Puts, puts_of, parts_of};
ghost use Rattle.sled.specs.Imports.{ImportDecided, ImportRefused, ImportsBySteps};
ghost use Rattle.sled.specs.Parts.{told_parts, ImportsParts, ImportRefusedAfter};
ghost use Rattle.sled.specs.Wholes.{LeavesMaps};
ghost use Rattle.sled.specs.ManyKeys.{HaveFirst, ImportsMaps, RefusesImport};
ghost use Rattle.sled.specs.theory.Imports.{IsTreeNow, PartsDone, PartsStopped, PartsStoppedAfter};

use crate::db::Db;
use sled_model::{Collection, MergeOperator, Tree};
use sled_nodes::texts::{OVERWRITES_DATA, UNKNOWN_COLLECTION_TYPE};
use sled_nodes::{Error, IVec, Result};
use sled_store::Pages;

// Whether every collection is of the type `tree`.
fn are_trees(collections: &[Collection]) -> bool
    ensures { result ≡ are_trees (contents_of collections.now) }
{
    for collection in collections {
        if collection.0.as_slice() != b"tree".as_slice() {
            return false;
        }
    }
    true
}

impl<P: Pages, M: MergeOperator> Db<P, M> {
    // Puts a pair into a tree if its key is absent.
    fn import_pair(&mut self, tree: &Tree, pair: &(IVec, IVec)) -> Result<()>
        requires { IsTreeNow P.store M.meant self.old tree.now }
        ensures ok { OnOk result (PartsDone P.store M.meant self.old (Puts tree.now.name pair.now.0 pair.now.1 ∷ []) self.new) }
        ensures now { OnOk result (IsTreeNow P.store M.meant self.new tree.now) }
        ensures err { IfErr result (λ e. PartsStopped P.store M.meant self.old (Puts tree.now.name pair.now.0 pair.now.1 ∷ []) 0 e self.new) }
    {
        match self.contains_key(tree, pair.0.as_ref()) {
            Ok(true) => return Err(Error::Unsupported(OVERWRITES_DATA)),
            Ok(false) => (),
            Err(e) => return Err(e),
        }
        match self.insert(tree, pair.0.as_ref(), pair.1.as_ref()) {
            Ok(stood) => {
                drop(stood);
                Ok(())
            }
            Err(e) => Err(e),
        }
    }

    // Puts pairs into a tree, one after the other, and returns how many.
    fn import_pairs(&mut self, tree: &Tree, pairs: &[(IVec, IVec)]) -> (Result<()>, u64)
        requires { IsTreeNow P.store M.meant self.old tree.now }
        ensures ok { OnOk result.0 (PartsDone P.store M.meant self.old (puts_of tree.now.name pairs.now []) self.new) }
        ensures all { OnOk result.0 (result.1 ≡ told_parts (length (puts_of tree.now.name pairs.now []))) }
        ensures err { IfErr result.0 (λ e. PartsStoppedAfter P.store M.meant self.old (puts_of tree.now.name pairs.now []) result.1 e self.new) }
    {
        let mut count: u64 = 0;
        for pair in pairs {
            self.audit();
            if let Err(e) = self.import_pair(tree, pair) {
                return (Err(e), count);
            }
            count = count.saturating_add(1);
        }
        (Ok(()), count)
    }

    // Opens the tree of a collection, and puts its pairs into it. Returns how many parts that were: the opening and the pairs.
    fn import_collection(&mut self, collection: &Collection) -> (Result<()>, u64)
        ensures ok { OnOk result.0 (PartsDone P.store M.meant self.old (parts_of (contents_of (collection.now ∷ []))) self.new) }
        ensures all { OnOk result.0 (result.1 ≡ told_parts (length (parts_of (contents_of (collection.now ∷ []))))) }
        ensures err { IfErr result.0 (λ e. PartsStoppedAfter P.store M.meant self.old (parts_of (contents_of (collection.now ∷ []))) result.1 e self.new) }
    {
        let tree = match self.open_tree(collection.1.as_slice()) {
            Ok(tree) => tree,
            Err(e) => return (Err(e), 0),
        };
        self.audit();
        let (done, count) = self.import_pairs(&tree, collection.2.as_slice());
        drop(tree);
        (done, count.saturating_add(1))
    }

    /// Opens the tree of each collection, one after the other, as `open_tree` does, and puts its pairs into it, one after the other, as
    /// `insert` does if a key is absent. It is not atomic: refused midway, the trees that are opened and the pairs that are in stay.
    /// Refused with `Unsupported` if a collection is not of the type `tree`, and then nothing is done; with `Unsupported` at a key that
    /// is present, whose pair stays as it is; and as `open_tree`, `contains_key` and `insert` are.
    ///
    /// ```
    /// let collections = db.export()?;
    /// other.import(collections.as_slice())?; // Both have the same trees and pairs, where `other` had no pair.
    /// ```
    pub fn import(&mut self, collections: &[Collection]) -> Result<()>
        ensures ok { OnOk result (ImportDecided P.store M.meant self.old (contents_of collections.now) self.new) }
        ensures err { IfErr result (λ e. ImportRefused P.store M.meant self.old (contents_of collections.now) e self.new) }
        ensures changes { OnOk result (ImportsMaps P.store M.meant self.old (contents_of collections.now) self.new) }
        ensures refuses { IfErr result (λ e. (number : ℕ) × RefusesImport P.store M.meant self.old (contents_of collections.now) number e self.new) }
        ensures leaves { LeavesMaps P.store M.meant (HaveFirst P.store M.meant self.old (parts_of (contents_of collections.now))) None self.old self.new }
        ensures steps { OnOk result (ImportsBySteps P.store M.meant self.old (parts_of (contents_of collections.now)) self.new) }
    {
        let (done, _) = self.import_counted(collections);
        done
    }

    /// Does what `import` does, and also returns how many parts it did: trees that it opened, whether they were known or not, and pairs
    /// that it put in. Of one that is refused midway these are the parts before the one that was refused. `u64::MAX` means as many or
    /// more.
    ///
    /// ```
    /// let (done, count) = other.import_counted(db.export()?.as_slice()); // Where `done` is `Ok`, as many as there are trees and pairs.
    /// ```
    pub fn import_counted(&mut self, collections: &[Collection]) -> (Result<()>, u64)
        ensures ok { OnOk result.0 (ImportDecided P.store M.meant self.old (contents_of collections.now) self.new) }
        ensures parts { OnOk result.0 (ImportsParts (contents_of collections.now) result.1) }
        ensures err { IfErr result.0 (λ e. ImportRefusedAfter P.store M.meant self.old (contents_of collections.now) result.1 e self.new) }
        ensures changes { OnOk result.0 (ImportsMaps P.store M.meant self.old (contents_of collections.now) self.new) }
        ensures refuses { IfErr result.0 (λ e. RefusesImport P.store M.meant self.old (contents_of collections.now) result.1 e self.new) }
        ensures leaves { LeavesMaps P.store M.meant (HaveFirst P.store M.meant self.old (parts_of (contents_of collections.now))) None self.old self.new }
        ensures steps { OnOk result.0 (ImportsBySteps P.store M.meant self.old (parts_of (contents_of collections.now)) self.new) }
    {
        if self.pages.in_group() {
            return (Err(Error::Closed), 0);
        }
        if !are_trees(collections) {
            return (Err(Error::Unsupported(UNKNOWN_COLLECTION_TYPE)), 0);
        }
        let mut count: u64 = 0;
        for collection in collections {
            self.audit();
            let (done, more) = self.import_collection(collection);
            count = count.saturating_add(more);
            if let Err(e) = done {
                return (Err(e), count);
            }
        }
        (Ok(()), count)
    }
}
