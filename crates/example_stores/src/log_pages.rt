//! The simplest store that could be, as an example: a list of all that was ever done. It is meant to be read, not used for much:
//! each read goes through the list.
ghost use Rattle.std.specs.Prelude.{◌≡◌, ◌+◌, ◌-◌, ◌<◌, ◌≤◌, true, false, is_some, not, length, take, slice_get, IfOk, IfErr, OnOk};
ghost use Rattle.std.specs.FinMap.Entries.{put, where_key, is_sorted};
ghost use Rattle.std.specs.Cmp.Lexicographic.{slice_cmp};
ghost use Rattle.std.specs.Ordering.{nat_cmp, eq_by_cmp};
ghost use Rattle.std.specs.Option.{option_copied};
ghost use Rattle.sled_nodes.specs.declared.error.Error.TheVariants.{NoMemory};
ghost use Rattle.sled_nodes.specs.Order.{key_cmp};
ghost use Rattle.sled_store.specs.Update.{put_name};
ghost use Rattle.sled_store.specs.Roots.{roots_of};
ghost use Rattle.sled_nodes.specs.Node.{after_link};
ghost use Rattle.sled_store.specs.State.{PageBecomes};
ghost use Rattle.sled_store.specs.Store.{now, after_action, version_now, ActsAt, IsRefused};
ghost use Rattle.sled_store.specs.Crash.{Crashes};
ghost use Rattle.example_stores.specs.Log.{action_of, state_after, is_given, up_to, below, IsLog, KeepsMost};

use sled_nodes::{Error, Fault, IVec, Link, Node, Pid, Result, Shared, Version};
use sled_store::{Page, Pages, View};
use std::alloc::Global;

// The code of this store's fault: numbers are used up.
const USED_UP: u32 = 3;

// A changing action that was done.
#[derive(Drop)]
enum Logged {
    // The page of this number became this, or went.
    PageBecame(Pid, Option<Page>),
    // The root of this name became this, or went.
    RootBecame(IVec, Option<Pid>),
    // A group began.
    GroupBegan,
    // A group ended.
    GroupEnded,
}

/// A store that keeps a list of all that was ever done, and how much of it is flushed. It is slow: each read goes through the
/// list.
#[derive(Drop)]
pub struct LogPages {
    alloc: Global,
    log: Vec<Logged>,
    flushed: usize,
    actions: u64,
    last_pid: u64,
    next_version: u64,
    faults: u64,
    mark: u64,
    recovered: bool,
    ghost kept: { IsLog log.items flushed last_pid next_version },
}

// The action with so many behind it.
fn from_end(log: &[Logged], i: usize) -> &Logged
    requires { i < length log.now }
    ensures { slice_get log.now (length log.now - 1 - i) ≡ Some result.now }
{
    &log[log.len() - 1 - i]
}

// What a page became last.
fn page_in(log: &[Logged], pid: Pid) -> Option<&Page>
    ensures { option_copied result ≡ (state_after log.now).pages pid }
{
    for i in 0..log.len() {
        if let Logged::PageBecame(of, page) = from_end(log, i) {
            if *of == pid {
                return page.as_ref();
            }
        }
    }
    None
}

// What the root of a name became last.
fn root_in(log: &[Logged], name: &[u8]) -> Option<Pid>
    ensures { result ≡ (state_after log.now).roots name.now }
{
    for i in 0..log.len() {
        if let Logged::RootBecame(of, root) = from_end(log, i) {
            if name == of.as_ref() {
                return *root;
            }
        }
    }
    None
}

// Whether a group is open after all of it.
fn is_open(log: &[Logged]) -> bool
    ensures { result ≡ (state_after log.now).in_group }
{
    for i in 0..log.len() {
        match from_end(log, i) {
            Logged::GroupBegan => return true,
            Logged::GroupEnded => return false,
            _ => {}
        }
    }
    false
}

// How much of what is not flushed a crash leaves that keeps so many actions: the most after which no group is open.
fn kept_of(log: &[Logged], flushed: usize, keep: usize) -> usize
    requires within { flushed ≤ length log.now }
    requires sealed { (state_after (take flushed log.now)).in_group ≡ false }
    ensures { KeepsMost keep flushed log.now result }
{
    let mut kept = keep.min(log.len() - flushed);
    while is_open(&log[..flushed + kept]) {
        kept -= 1;
    }
    kept
}

// Makes a page the root of a name in a list that ascends by name.
fn put_root(roots: &mut Vec<(IVec, Pid)>, name: &IVec, pid: Pid) -> Result<()>
    requires { is_sorted key_cmp roots.old.items ≡ true }
    ensures ok { OnOk result (roots.new.items ≡ put (slice_cmp nat_cmp) name.now pid roots.old.items) }
    ensures err { IfErr result (λ e. e ≡ NoMemory) }
{
    match roots.binary_search_by(|root| root.0.cmp(name)) {
        Ok(i) => {
            roots[i].1 = pid;
            Ok(())
        }
        Err(i) => {
            roots.insert(i, (name.clone()?, pid))?;
            Ok(())
        }
    }
}

// Takes a name out of such a list.
fn take_root(roots: &mut Vec<(IVec, Pid)>, name: &IVec)
    ensures { roots.new.items ≡ where_key (slice_cmp nat_cmp) (λ x. not (eq_by_cmp (slice_cmp nat_cmp) name.now x)) roots.old.items }
{
    roots.retain(|root| !name.cmp(&root.0).is_eq());
}

// Makes another the root of a name in such a list, or takes the name out.
fn set_root(roots: &mut Vec<(IVec, Pid)>, name: &IVec, root: Option<Pid>) -> Result<()>
    requires { is_sorted key_cmp roots.old.items ≡ true }
    ensures ok { OnOk result (roots_of roots.new.items ≡ put_name (roots_of roots.old.items) name.now root) }
    ensures ascends { OnOk result (is_sorted key_cmp roots.new.items ≡ true) }
    ensures err { IfErr result (λ e. e ≡ NoMemory) }
{
    match root {
        Some(pid) => put_root(roots, name, pid),
        None => {
            take_root(roots, name);
            Ok(())
        }
    }
}

// The node after a link, as a node of its own.
fn linked(alloc: Global, node: &Node, link: Link) -> Result<Node>
    ensures ok { IfOk result (λ made. made ≡ after_link link node.now) }
    ensures err { IfErr result (λ e. e ≡ NoMemory) }
{
    let mut made = match node.clone(alloc) {
        Ok(made) => made,
        Err(e) => {
            drop(link);
            return Err(e);
        }
    };
    if let Err(e) = made.apply(link) {
        drop(made);
        return Err(e);
    }
    Ok(made)
}

impl LogPages {
    ghost use Rattle.sled_pages.specs.Memory.{empty_store};
    ghost use Rattle.example_stores.specs.LogStore.{store_of};

    /// An empty store. It takes no memory.
    ///
    /// ```
    /// let mut pages = LogPages::new(alloc);
    /// let (pid, version) = pages.allocate(node)?;
    /// ```
    pub fn new(alloc: Global) -> LogPages
        ensures { store_of result ≡ empty_store }
    {
        LogPages {
            alloc,
            log: Vec::new(alloc),
            flushed: 0,
            actions: 0,
            last_pid: 0,
            next_version: 0,
            faults: 0,
            mark: 0,
            recovered: false,
        }
    }

    /// What a crash leaves that keeps this many of the actions since the last flush, less a group that is not sealed within
    /// them. It takes no memory.
    ///
    /// ```
    /// let left = pages.crash(0); // The pages at the last flush.
    /// ```
    pub fn crash(self, keep: usize) -> LogPages
        ensures { Crashes keep (store_of self) (store_of result) }
    {
        let mut left = self;
        let flushed = left.flushed;
        let kept = kept_of(left.log.as_slice(), flushed, keep);
        left.flushed = flushed + kept;
        left.log.truncate(flushed + kept);
        left.faults = 0;
        left.recovered = true;
        left
    }

    // Numbers are used up: a fault of the device, while faults can be counted.
    fn fault(&mut self) -> Error
        ensures { IsRefused result (store_of self.old) (store_of self.new) }
    {
        if self.faults == u64::MAX {
            return Error::NoMemory;
        }
        self.faults += 1;
        Error::Io(Fault(USED_UP))
    }

    // Writes an action at the end of the list, with the last page number and the next version after it.
    fn write(&mut self, action: Logged, last_pid: u64, next_version: u64) -> Result<()>
        requires given { is_given last_pid next_version action ≡ true }
        requires pids { self.old.last_pid ≤ last_pid }
        requires versions { self.old.next_version ≤ next_version }
        ensures ok { OnOk result (store_of self.new ≡ record (after_action (action_of action) (store_of self.old)) { pids = up_to last_pid; versions = below next_version }) }
        ensures err { IfErr result (λ e. IsRefused e (store_of self.old) (store_of self.new)) }
    {
        if self.actions == u64::MAX {
            drop(action);
            return Err(self.fault());
        }
        if let Err(refused) = self.log.push(action) {
            drop(refused);
            return Err(Error::NoMemory);
        }
        self.actions += 1;
        self.last_pid = last_pid;
        self.next_version = next_version;
        Ok(())
    }

    // Gives a page that is there another node and a version.
    fn change(&mut self, pid: Pid, node: Node) -> Result<Version>
        requires { is_some ((now (store_of self.old)).pages pid) ≡ true }
        ensures ok { IfOk result (λ given. ActsAt (PageBecomes pid (Some (record { version = given; node = node }))) given (store_of self.old) (store_of self.new)) }
        ensures err { IfErr result (λ e. IsRefused e (store_of self.old) (store_of self.new)) }
    {
        if self.next_version == u64::MAX {
            drop(node);
            return Err(self.fault());
        }
        let version = Version(self.next_version);
        let node = Shared::new(self.alloc, node)?;
        let action = Logged::PageBecame(pid, Some(Page { version, node }));
        self.write(action, self.last_pid, self.next_version + 1)?;
        Ok(version)
    }

    // The page of a number, if it has this version; else the version that it has.
    fn page_at(&self, pid: Pid, version: Version) -> std::result::Result<&Page, Option<Version>>
        ensures ok { IfOk result (λ page. (now (store_of self.now)).pages pid ≡ Some page.now) }
        ensures same { IfOk result (λ page. page.now.version ≡ version) }
        ensures err { IfErr result (λ present. present ≡ version_now (store_of self.now) pid) }
        ensures other { IfErr result (λ present. (present ≡ Some version) → ⊥) }
    {
        match page_in(self.log.as_slice(), pid) {
            Some(page) => {
                if page.version == version {
                    Ok(page)
                } else {
                    Err(Some(page.version))
                }
            }
            None => Err(None),
        }
    }
}

impl Pages for LogPages {
    ghost use Rattle.example_stores.specs.LogStore.{store_of, flush_number_of};

    ghost store = { store_of };

    ghost flush_number = { flush_number_of };

    fn read(&self, _alloc: Global, pid: Pid) -> Result<Option<View>> {
        match page_in(self.log.as_slice(), pid) {
            Some(page) => Ok(Some(View {
                pid,
                version: page.version,
                node: page.node.share()?,
            })),
            None => Ok(None),
        }
    }

    fn allocate(&mut self, node: Node) -> Result<(Pid, Version)> {
        if self.last_pid == u64::MAX || self.next_version == u64::MAX {
            drop(node);
            return Err(self.fault());
        }
        let pid = Pid(self.last_pid + 1);
        let version = Version(self.next_version);
        let node = Shared::new(self.alloc, node)?;
        let action = Logged::PageBecame(pid, Some(Page { version, node }));
        self.write(action, pid.0, version.0 + 1)?;
        Ok((pid, version))
    }

    fn link(
        &mut self,
        pid: Pid,
        version: Version,
        link: Link,
    ) -> Result<std::result::Result<Version, Option<Version>>> {
        let page = match self.page_at(pid, version) {
            Ok(page) => page,
            Err(present) => {
                drop(link);
                return Ok(Err(present));
            }
        };
        let node = linked(self.alloc, &page.node, link)?;
        Ok(Ok(self.change(pid, node)?))
    }

    fn replace(
        &mut self,
        pid: Pid,
        version: Version,
        node: Node,
    ) -> Result<std::result::Result<Version, Option<Version>>> {
        if let Err(present) = self.page_at(pid, version) {
            drop(node);
            return Ok(Err(present));
        }
        Ok(Ok(self.change(pid, node)?))
    }

    fn free(
        &mut self,
        pid: Pid,
        version: Version,
    ) -> Result<std::result::Result<(), Option<Version>>> {
        if let Err(present) = self.page_at(pid, version) {
            return Ok(Err(present));
        }
        let action = Logged::PageBecame(pid, None);
        self.write(action, self.last_pid, self.next_version)?;
        Ok(Ok(()))
    }

    fn root(&self, name: &[u8]) -> Option<Pid> {
        root_in(self.log.as_slice(), name)
    }

    fn roots(&self, alloc: Global) -> Result<Vec<(IVec, Pid)>> {
        let mut roots = Vec::new(alloc);
        for action in self.log.as_slice() {
            if let Logged::RootBecame(name, root) = action {
                set_root(&mut roots, name, *root)?;
            }
        }
        Ok(roots)
    }

    fn cas_root(
        &mut self,
        name: &[u8],
        old: Option<Pid>,
        new: Option<Pid>,
    ) -> Result<std::result::Result<(), Option<Pid>>> {
        let present = self.root(name);
        if present != old {
            return Ok(Err(present));
        }
        let key = IVec::from_slice(self.alloc, name)?;
        let action = Logged::RootBecame(key, new);
        self.write(action, self.last_pid, self.next_version)?;
        Ok(Ok(()))
    }

    fn begin_group(&mut self) -> Result<()> {
        self.write(Logged::GroupBegan, self.last_pid, self.next_version)
    }

    fn seal_group(&mut self) -> Result<()> {
        self.write(Logged::GroupEnded, self.last_pid, self.next_version)
    }

    fn in_group(&self) -> bool {
        is_open(self.log.as_slice())
    }

    fn flush(&mut self) -> Result<usize> {
        let count = self.log.len() - self.flushed;
        self.flushed = self.log.len();
        Ok(count)
    }

    fn set_aside(&mut self, upto: u64) -> Result<()> {
        self.mark = upto;
        Ok(())
    }

    fn mark(&self) -> u64 {
        self.mark
    }

    fn was_recovered(&self) -> bool {
        self.recovered
    }

    ghost sealed = { λ m. m.kept.sealed };

    ghost use Rattle.example_stores.specs.theory.Laws.{law_given};

    ghost given = { λ m. law_given m };
}
