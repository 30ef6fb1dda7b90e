//! The trees by their names.
ghost use Rattle.std.specs.Prelude.{IfOk, IfErr};

use crate::db::Db;
use sled_model::MergeOperator;
use sled_nodes::{Error, IVec, Result};
use sled_store::Pages;
use tree_lists::names_of;

impl<P: Pages, M: MergeOperator> Db<P, M> {
    ghost use Rattle.sled.specs.Calls.{RefusesHandle};
    ghost use Rattle.sled.specs.Values.{db_state};
    ghost use Rattle.sled.specs.Names.{AreNames};

    /// The names of all trees, the default tree's among them, in byte order. It reads no page. Refused with `Closed` and
    /// `NoMemory` alone.
    ///
    /// ```
    /// let names = db.tree_names()?; // Of a new database the default tree alone.
    /// ```
    pub fn tree_names(&self) -> Result<Vec<IVec>>
        ensures ok { IfOk result (λ names. AreNames (db_state P.store M.meant self.now) names.items) }
        ensures err { IfErr result (RefusesHandle (P.store self.now.pages)) }
    {
        if self.pages.in_group() {
            return Err(Error::Closed);
        }
        match names_of(self.alloc, self.trees.as_slice()) {
            Ok(names) => Ok(names),
            Err(e) => Err(e),
        }
    }
}
