//! What a layer above can say of a store, whichever it is: tests of the contract, written against its clauses alone.
ghost use Rattle.std.specs.Prelude.{◌≡◌, ◌∷◌, [], false, Some, None, IfOk};
ghost use Rattle.sled_nodes.specs.Node.{after_link};
ghost use Rattle.example_stores.specs.Client.{links_as, Opens};
ghost use Rattle.sled_store.specs.Crash.{IsCrashState, crash_states};
ghost use Rattle.sled_store.specs.Store.{now};

use sled_nodes::{Link, Node, Pid, Result};
use sled_store::{Pages, View, law_given, law_sealed};

/// Two changes of one page, one after the other. `false` if another was there first.
pub fn two_links<P: Pages>(pages: &mut P, view: &View, first: Link, second: Link) -> Result<bool>
    ensures { IfOk result (links_as (after_link first) (after_link second) view.now.pid view.now.version (P.store pages.old) (P.store pages.new)) }
{
    match pages.link(view.pid, view.version, first) {
        Ok(Ok(version)) => Ok(pages.link(view.pid, version, second)?.is_ok()),
        Ok(Err(_)) => {
            drop(second);
            Ok(false)
        }
        Err(e) => {
            drop(second);
            Err(e)
        }
    }
}

/// Makes a page and the root of a name of it, if the name has none, and makes that durable.
pub fn open_tree<P: Pages>(pages: &mut P, name: &[u8], node: Node) -> Result<Option<Pid>>
    requires { (now (P.store pages.old)).in_group ≡ false }
    ensures opened { IfOk result (λ pid. Opens name.now node pid (P.store pages.old) (P.store pages.new)) }
    ensures durable { IfOk result (λ _. crash_states (P.store pages.new) ≡ now (P.store pages.new) ∷ []) }
{
    law_given(pages);
    let (pid, _) = pages.allocate(node)?;
    let swapped = pages.cas_root(name, None, Some(pid))?;
    pages.flush()?;
    match swapped {
        Ok(()) => Ok(Some(pid)),
        Err(_) => Ok(None),
    }
}

/// A crash may always leave the state at the last flush.
#[tactic(auto, using(sled_store::specs::theory::Facts::may_leave_base))]
pub fn may_leave_base<P: Pages>(pages: &P)
    ensures { IsCrashState (P.store pages.now) (P.store pages.now).base }
{
    law_sealed(pages);
}
