//! The pairs of all trees, as the pages have them.
ghost use Rattle.std.specs.Prelude.{◌≡◌, IfOk, IfErr, OnOk, false, map};
ghost use Rattle.sled_store.specs.Store.{now};
ghost use Rattle.tree_laws.specs.Contents.{trees_of};
ghost use Rattle.tree_pages.specs.Export.{collections};
ghost use Rattle.sled.specs.Export.{RefusesExport};

use crate::db::Db;
use sled_model::{Collection, MergeOperator};
use sled_nodes::{Error, Result};
use sled_store::Pages;
use tree_pages::collections_of;

impl<P: Pages, M: MergeOperator> Db<P, M> {
    /// The collection of every tree, in the order of the names, its pairs ascending by key. It reads the pages as they are
    /// and repairs nothing. Refused with `Closed`, with `Io` if a page cannot be read, and with `NoMemory`.
    ///
    /// ```
    /// let collections = db.export()?; // Each tree with its name and its pairs, in the order of the names.
    /// ```
    pub fn export(&self) -> Result<Vec<Collection>>
        ensures ok { IfOk result (λ all. map (λ c. (c.0.items, c.1.items, c.2.items)) all.items ≡ collections (trees_of (now (P.store self.now.pages))) self.now.trees) }
        ensures no_group { OnOk result ((now (P.store self.now.pages)).in_group ≡ false) }
        ensures err { IfErr result (RefusesExport (P.store self.now.pages)) }
    {
        if self.pages.in_group() {
            return Err(Error::Closed);
        }
        match collections_of(self.alloc, &self.pages, self.trees.as_slice()) {
            Ok(all) => Ok(all),
            Err(e) => Err(e),
        }
    }
}
