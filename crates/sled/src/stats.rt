//! How large the trees are.
ghost use Rattle.std.specs.Prelude.{◌≡◌, IfOk, IfErr, OnOk, false};
ghost use Rattle.sled_store.specs.Store.{now};
ghost use Rattle.tree_pages.specs.Stats.{AreStats};
ghost use Rattle.sled.specs.Export.{RefusesExport};

use crate::db::Db;
use sled_model::MergeOperator;
use sled_nodes::{Error, Result};
use sled_store::Pages;
use tree_pages::{Stats, stats_of};

impl<P: Pages, M: MergeOperator> Db<P, M> {
    /// How many trees there are, their pages, the levels of the highest of them, and their pairs with the bytes of keys and values. It
    /// reads all pages of the trees as they are and repairs nothing; pages that no tree has are not counted. Refused with `Closed`, with
    /// `Io` if a page cannot be read, and with `NoMemory`.
    ///
    /// ```
    /// let stats = db.stats()?;
    /// let mean = stats.value_bytes / stats.pairs.max(1); // Bytes of a value.
    /// ```
    pub fn stats(&self) -> Result<Stats>
        ensures ok { IfOk result (AreStats (now (P.store self.now.pages)) self.now.trees) }
        ensures no_group { OnOk result ((now (P.store self.now.pages)).in_group ≡ false) }
        ensures err { IfErr result (RefusesExport (P.store self.now.pages)) }
    {
        if self.pages.in_group() {
            return Err(Error::Closed);
        }
        match stats_of(self.alloc, &self.pages, self.trees.as_slice()) {
            Ok(stats) => Ok(stats),
            Err(e) => Err(e),
        }
    }
}
