//! Dropping a tree.
//!
//! The removal of the tree's root decides: from then on no call in flight on the tree goes on, since its number is gone. What becomes of
//! its pages is said in `tree_pages`.
ghost use Rattle.std.specs.Prelude.{IfOk, IfErr, OnErr, [], None};
ghost use Rattle.sled_model.specs.declared.call.Whole.TheVariants.{DropTree};
ghost use Rattle.sled_model.specs.declared.reply.Reply.TheVariants.{Flag};

use crate::DEFAULT_TREE;
use crate::db::Db;
use sled_model::MergeOperator;
use sled_nodes::texts::CORE_STRUCTURES;
use sled_nodes::{Error, Result};
use sled_store::Pages;
use tree_lists::{number_of, take_name, take_operator};
use tree_pages::drop_root;

impl<P: Pages, M: MergeOperator> Db<P, M> {
    ghost use Rattle.sled.specs.Drops.{DropsTree, RefusesDrop};
    ghost use Rattle.sled.specs.Direct.{LeavesAll, lost_of};
    ghost use Rattle.sled.specs.Promises.{DropsMap, RefusesCall};
    ghost use Rattle.sled.specs.Wholes.{LeavesAfter};

    /// Drops the tree of a name, and answers whether there was one. The name can be opened anew, as an empty tree. Until the
    /// next opening of the database every `Tree` of before is answered with `CollectionNotFound`, and so is each call in flight
    /// on it at its next step.
    ///
    /// The tree's first pages are read, its root is taken out, which decides, and its pages are freed (tested, not proved).
    /// Refused with `Closed`; for the default tree with `Unsupported`; and with `Io` and `NoMemory` before the root goes:
    /// then the tree stays. A refusal after that is not returned: then pages are left that no tree has.
    ///
    /// ```
    /// let dropped = db.drop_tree(b"orders")?; // `false` where there was none.
    /// ```
    pub fn drop_tree(&mut self, name: &[u8]) -> Result<bool>
        ensures ok { IfOk result (λ dropped. DropsTree P.store M.meant self.old name.now dropped self.new) }
        ensures err { IfErr result (λ e. RefusesDrop P.store M.meant self.old name.now e self.new) }
        ensures changes { IfOk result (λ dropped. DropsMap P.store M.meant self.old name.now dropped self.new) }
        ensures refuses { IfErr result (λ e. RefusesCall P.store M.meant self.old (DropTree name.now) e self.new) }
        ensures leaves { IfOk result (λ dropped. LeavesAfter P.store M.meant (lost_of (DropTree name.now) (Flag dropped)) self.old self.new) }
        ensures stays { OnErr result (LeavesAll P.store [] None self.old self.new) }
    {
        if self.pages.in_group() {
            return Err(Error::Closed);
        }
        if name == DEFAULT_TREE.as_bytes() {
            return Err(Error::Unsupported(CORE_STRUCTURES));
        }
        let Some(number) = number_of(self.trees.as_slice(), name) else {
            return Ok(false);
        };
        let Some(root) = self.pages.root(name) else {
            unreachable!()
        };
        if let Err(e) = drop_root(self.alloc, &mut self.pages, name, root) {
            return Err(e);
        }
        take_name(&mut self.trees, name);
        take_operator(&mut self.operators, number);
        Ok(true)
    }
}
