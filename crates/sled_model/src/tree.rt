//! A tree of a database, as callers name it.
ghost use Rattle.std.specs.Prelude.{◌≡◌, IfOk, IfErr};
ghost use Rattle.sled_nodes.specs.declared.error.Error.TheVariants.{NoMemory};

use sled_nodes::{IVec, Result};

/// Names a tree of a database: by the database's name, the tree's name, and the number that the tree was given when it
/// was made or the database opened. Once the tree is dropped the value is refused with `CollectionNotFound`, also after the
/// name is opened anew, until the database itself is opened again.
#[derive(Debug, Drop, PartialEq, Eq)]
pub struct Tree {
    /// The name that the database was opened under.
    pub database: IVec,
    /// The tree's name.
    pub name: IVec,
    /// The tree's number. None is given twice between one opening of a database and the next.
    pub number: u64,
}

impl Tree {
    /// The tree's name.
    ///
    /// ```
    /// let name = tree.name().as_ref(); // Its bytes.
    /// ```
    pub fn name(&self) -> &IVec
        ensures { result.now ≡ self.now.name }
    {
        &self.name
    }

    /// The same tree. Refused with `NoMemory` alone.
    ///
    /// ```
    /// let handle = tree.clone()?; // Names the same tree.
    /// ```
    #[inline(always)]
    pub fn clone(&self) -> Result<Tree>
        ensures ok { IfOk result (λ copy. copy ≡ self.now) }
        ensures err { IfErr result (λ e. e ≡ NoMemory) }
    {
        Ok(Tree {
            database: self.database.clone()?,
            name: self.name.clone()?,
            number: self.number,
        })
    }
}
