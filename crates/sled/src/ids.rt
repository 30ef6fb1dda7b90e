//! Ids, which rise strictly.
ghost use Rattle.std.specs.Prelude.{◌≡◌, ◌≤◌, ◌<◌, ◌⊎◌, IfOk, IfErr, OnOk, OnErr, true};
ghost use Rattle.sled_store.specs.Crash.{crash_states};
ghost use Rattle.sled_store.specs.Store.{now};
ghost use Rattle.sled_model.specs.Ids.{greatest_of_all, mark_above};
ghost use Rattle.sled.specs.Ids.{RefusesToRaise};

use crate::db::Db;
use sled_model::MergeOperator;
use sled_nodes::texts::IDS_USED_UP;
use sled_nodes::{Error, Result};
use sled_store::Pages;
use tree_transactions::raised_mark;

// Sets ids aside if none above the greatest that was given is set aside.
fn set_aside_above<P: Pages>(pages: &mut P, greatest: u64) -> Result<()>
    requires { greatest ≤ (P.store pages.old).mark }
    ensures ok { OnOk result (P.store pages.new ≡ record (P.store pages.old) { mark = mark_above greatest (P.store pages.old).mark }) }
    ensures left { OnOk result (greatest < greatest_of_all) }
    ensures above { OnOk result (greatest < (P.store pages.new).mark) }
    ensures err { IfErr result (λ e. RefusesToRaise greatest (P.store pages.old) e (P.store pages.new)) }
{
    let mark = pages.mark();
    if greatest < mark {
        return Ok(());
    }
    if mark == u64::MAX {
        return Err(Error::Unsupported(IDS_USED_UP));
    }
    pages.set_aside(raised_mark(mark))
}

impl<P: Pages, M: MergeOperator> Db<P, M> {
    ghost use Rattle.sled.specs.Ids.{GivesId, RefusesId};
    ghost use Rattle.sled.specs.Wholes.{KeepsMaps};

    /// The next id: one above the greatest that was given, from 1 on, and above all that were given before a crash. While ids
    /// are set aside it asks for no memory, and of the store for its mark and whether it is open. Else 4096 are set aside first, or
    /// as many as are left. Refused with `Closed`; and if none is set aside with `Unsupported` after the greatest `u64`,
    /// and as the store refuses.
    ///
    /// ```
    /// let first = db.generate_id()?;
    /// let second = db.generate_id()?; // Greater by one.
    /// ```
    pub fn generate_id(&mut self) -> Result<u64>
        ensures ok { IfOk result (λ id. GivesId P.store M.meant self.old id self.new) }
        ensures err { IfErr result (λ e. RefusesId P.store M.meant self.old e self.new) }
        ensures rises { IfOk result (λ id. (self.old.greatest_id < id) × (id ≤ (P.store self.new.pages).mark)) }
        ensures keeps { KeepsMaps P.store M.meant self.old self.new × (self.new.queues ≡ self.old.queues) }
        ensures leaves { crash_states (P.store self.new.pages) ≡ crash_states (P.store self.old.pages) }
        ensures ready { OnErr result (((now (P.store self.old.pages)).in_group ≡ true) ⊎ ((P.store self.old.pages).mark ≤ self.old.greatest_id)) }
    {
        if self.pages.in_group() {
            return Err(Error::Closed);
        }
        if let Err(e) = set_aside_above(&mut self.pages, self.greatest_id) {
            return Err(e);
        }
        self.greatest_id += 1;
        Ok(self.greatest_id)
    }
}
