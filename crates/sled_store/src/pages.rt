//! The contract of a store of pages.
ghost use Rattle.std.specs.Prelude.{◌≡◌, ◌≤◌, ℕ, IfOk, IfErr, OnOk, true, false};
ghost use Rattle.sled_nodes.specs.declared.error.Error.TheVariants.{NoMemory};
ghost use Rattle.sled_nodes.specs.Node.{after_link};
ghost use Rattle.sled_store.specs.State.{GroupBegins, GroupEnds};
ghost use Rattle.sled_store.specs.Store.{Store, now, after_action, after_flush, Allocates, IsRefused, IsReadRefused, view_of, Changes, Frees, SwapsRoot, IsRoots, AreGiven};

use crate::View;
use sled_nodes::{IVec, Link, Node, Pid, Result, Version};
use std::alloc::Global;

/// A store of pages by number and of roots by name.
///
/// The changing calls are `allocate`, `free`, `begin_group`, `seal_group`, and `link`, `replace` and `cas_root` if they
/// find what they expect. A crash may undo the latest of them back to the last flush, but never breaks up a group. A
/// call that is refused (an outer `Err`) changes nothing, but that the fault is counted.
pub trait Pages: Send + Drop {
    /// What the store means.
    ghost store: { Self → Store };

    /// The number that a flush would answer now.
    ghost flush_number: { Self → ℕ };

    /// The page now, or `None` if there is none. It answers `Io` only if the page is not readable, and such a page is never
    /// answered.
    ///
    /// ```
    /// if let Some(view) = pages.read(alloc, pid)? {
    ///     let next = view.node.next;
    /// }
    /// ```
    fn read(&self, alloc: Global, pid: Pid) -> Result<Option<View>>
        ensures ok { IfOk result (λ view. view ≡ view_of pid ((now (store self.now)).pages pid)) }
        ensures readable { OnOk result ((store self.now).is_readable pid ≡ true) }
        ensures err { IfErr result (IsReadRefused pid (store self.now)) };

    /// Makes a new page.
    ///
    /// ```
    /// let (pid, version) = pages.allocate(node)?;
    /// ```
    fn allocate(&mut self, node: Node) -> Result<(Pid, Version)>
        ensures ok { IfOk result (λ given. Allocates node given.0 given.1 (store self.old) (store self.new)) }
        ensures err { IfErr result (λ e. IsRefused e (store self.old) (store self.new)) };

    /// Applies a link to a page if it has this version. Else answers the version that it has, `None` for no page.
    ///
    /// ```
    /// match pages.link(pid, version, Link::Set(key, value))? {
    ///     Ok(version) => (), // The page has this version now.
    ///     Err(present) => (), // Another was there first.
    /// }
    /// ```
    fn link(
        &mut self,
        pid: Pid,
        version: Version,
        link: Link,
    ) -> Result<std::result::Result<Version, Option<Version>>>
        ensures ok { IfOk result (Changes (after_link link) pid version (store self.old) (store self.new)) }
        ensures err { IfErr result (λ e. IsRefused e (store self.old) (store self.new)) };

    /// Gives a page another node if it has this version. Else answers the version that it has, `None` for no page.
    ///
    /// ```
    /// let done = pages.replace(pid, version, node)?; // The new version, or the one that it has.
    /// ```
    fn replace(
        &mut self,
        pid: Pid,
        version: Version,
        node: Node,
    ) -> Result<std::result::Result<Version, Option<Version>>>
        ensures ok { IfOk result (Changes (λ _. node) pid version (store self.old) (store self.new)) }
        ensures err { IfErr result (λ e. IsRefused e (store self.old) (store self.new)) };

    /// Takes a page out if it has this version. Else answers the version that it has, `None` for no page.
    ///
    /// ```
    /// let done = pages.free(pid, version)?; // `Ok(())`, or the version that it has.
    /// ```
    fn free(
        &mut self,
        pid: Pid,
        version: Version,
    ) -> Result<std::result::Result<(), Option<Version>>>
        ensures ok { IfOk result (Frees pid version (store self.old) (store self.new)) }
        ensures err { IfErr result (λ e. IsRefused e (store self.old) (store self.new)) };

    /// The root of a name, or `None` if the name has none.
    ///
    /// ```
    /// let root = pages.root(b"weather");
    /// ```
    fn root(&self, name: &[u8]) -> Option<Pid>
        ensures { result ≡ (now (store self.now)).roots name.now };

    /// All roots, ascending by name. Refused with `NoMemory` alone.
    ///
    /// ```
    /// let roots = pages.roots(alloc)?; // Each name with its root, in the order of the names.
    /// ```
    fn roots(&self, alloc: Global) -> Result<Vec<(IVec, Pid)>>
        ensures ok { IfOk result (λ roots. IsRoots (now (store self.now)) roots.items) }
        ensures err { IfErr result (λ e. e ≡ NoMemory) };

    /// Makes `new` the root of a name if `old` is; `None` takes the name out. Else answers the root that it has.
    ///
    /// ```
    /// // A first root for the name.
    /// let done = pages.cas_root(b"weather", None, Some(pid))?;
    /// ```
    fn cas_root(
        &mut self,
        name: &[u8],
        old: Option<Pid>,
        new: Option<Pid>,
    ) -> Result<std::result::Result<(), Option<Pid>>>
        ensures ok { IfOk result (SwapsRoot name.now old new (store self.old) (store self.new)) }
        ensures err { IfErr result (λ e. IsRefused e (store self.old) (store self.new)) };

    /// Begins a group: a crash leaves all of it or nothing.
    ///
    /// ```
    /// pages.begin_group()?;
    /// let (pid, version) = pages.allocate(node)?;
    /// pages.seal_group()?; // A crash keeps both or neither.
    /// ```
    fn begin_group(&mut self) -> Result<()>
        requires { (now (store self.old)).in_group ≡ false }
        ensures ok { OnOk result (store self.new ≡ after_action GroupBegins (store self.old)) }
        ensures err { IfErr result (λ e. IsRefused e (store self.old) (store self.new)) };

    /// Ends the group that is open.
    ///
    /// ```
    /// pages.begin_group()?;
    /// pages.seal_group()?;
    /// ```
    fn seal_group(&mut self) -> Result<()>
        requires { (now (store self.old)).in_group ≡ true }
        ensures ok { OnOk result (store self.new ≡ after_action GroupEnds (store self.old)) }
        ensures err { IfErr result (λ e. IsRefused e (store self.old) (store self.new)) };

    /// Whether a group is open.
    ///
    /// ```
    /// if !pages.in_group() {
    ///     pages.flush()?;
    /// }
    /// ```
    fn in_group(&self) -> bool
        ensures { result ≡ (now (store self.now)).in_group };

    /// Makes all that was done durable. The number that it answers is the store's own.
    ///
    /// ```
    /// let count = pages.flush()?; // No crash takes back what was done so far.
    /// ```
    fn flush(&mut self) -> Result<usize>
        requires { (now (store self.old)).in_group ≡ false }
        ensures ok { OnOk result (store self.new ≡ after_flush (store self.old)) }
        ensures number { IfOk result (λ n. n ≡ flush_number self.old) }
        ensures err { IfErr result (λ e. IsRefused e (store self.old) (store self.new)) };

    /// Raises the mark, which is none of the actions that a crash may undo (`specs/Crash`).
    ///
    /// ```
    /// if let Some(upto) = pages.mark().checked_add(4096) {
    ///     pages.set_aside(upto)?;
    /// }
    /// ```
    fn set_aside(&mut self, upto: u64) -> Result<()>
        requires { (store self.old).mark ≤ upto }
        ensures ok { OnOk result (store self.new ≡ record (store self.old) { mark = upto }) }
        ensures err { IfErr result (λ e. IsRefused e (store self.old) (store self.new)) };

    /// The mark: ids up to it are set aside.
    ///
    /// ```
    /// let mark = pages.mark(); // 0 of a new store.
    /// ```
    fn mark(&self) -> u64
        ensures { result ≡ (store self.now).mark };

    /// Whether the store was made from what an earlier one left.
    ///
    /// ```
    /// let is_recovered = pages.was_recovered();
    /// ```
    fn was_recovered(&self) -> bool
        ensures { result ≡ (store self.now).recovered };

    /// The state at the last flush has no open group.
    ghost sealed: { (s : Self) → (store s).base.in_group ≡ false };

    /// Each page has a number and a version that were given.
    ghost given: { (s : Self) → AreGiven (store s) };
}

/// Does nothing. It hands the law `given` on to code that is generic over the store.
///
/// ```
/// law_given(&pages); // From here on a proof knows that each page has a number that was given.
/// ```
pub fn law_given<P: Pages>(pages: &P)
    ensures { AreGiven (P.store pages.now) }
{}

/// Does nothing. It hands the law `sealed` on to code that is generic over the store.
///
/// ```
/// law_sealed(&pages); // From here on a proof knows that no group was open at the last flush.
/// ```
pub fn law_sealed<P: Pages>(pages: &P)
    ensures { (P.store pages.now).base.in_group ≡ false }
{}
