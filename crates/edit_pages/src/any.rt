//! Calls of a store, of whatever kind.
ghost use Rattle.std.specs.Prelude.{IfOk, IfErr};
ghost use Rattle.sled_nodes.specs.Node.{after_link};
ghost use Rattle.sled_store.specs.Store.{Changes, IsRefused};

use sled_nodes::{Link, Pid, Result, Version};
use sled_store::Pages;

/// A link of a page of any store.
pub fn link_any<P: Pages>(
    pages: &mut P,
    pid: Pid,
    version: Version,
    link: Link,
) -> Result<std::result::Result<Version, Option<Version>>>
    ensures ok { IfOk result (Changes (after_link link) pid version (P.store pages.old) (P.store pages.new)) }
    ensures err { IfErr result (λ e. IsRefused e (P.store pages.old) (P.store pages.new)) }
{
    pages.link(pid, version, link)
}
