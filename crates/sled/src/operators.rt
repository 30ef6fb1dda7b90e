//! The merge operators of the trees.
ghost use Rattle.std.specs.Prelude.{◌≡◌, IfErr, OnOk, Some};

use crate::db::Db;
use sled_model::{MergeOperator, Tree};
use sled_nodes::Result;
use sled_store::Pages;
use tree_lists::set_operator;

impl<P: Pages, M: MergeOperator> Db<P, M> {
    ghost use Rattle.sled.specs.Operators.{OperatorSet, OperatorNotSet, operator_at, KeepsOperators};
    ghost use Rattle.sled.specs.Wholes.{KeepsMaps};

    /// Gives a tree a merge operator, in place of the one that it has. A merge is decided by the operator that its tree has at the
    /// step that decides it. A call that is refused drops the operator.
    ///
    /// ```
    /// db.set_merge_operator(&tree, Adds)?; // An operator that adds numbers.
    /// let sum = db.merge(&tree, b"ulm", &21u64.to_be_bytes())?;
    /// ```
    pub fn set_merge_operator(&mut self, tree: &Tree, operator: M) -> Result<()>
        ensures ok { OnOk result (OperatorSet P.store M.meant self.old tree.now (M.meant operator) self.new) }
        ensures err { IfErr result (λ e. OperatorNotSet P.store M.meant self.old tree.now e self.new) }
        ensures keeps { KeepsMaps P.store M.meant self.old self.new }
        ensures operator { OnOk result (operator_at P.store M.meant self.new tree.now.name ≡ Some (M.meant operator)) }
        ensures others { OnOk result (KeepsOperators P.store M.meant tree.now.name self.old self.new) }
    {
        if let Err(e) = self.check(tree) {
            drop(operator);
            return Err(e);
        }
        set_operator(&mut self.operators, tree.number, operator)
    }
}
