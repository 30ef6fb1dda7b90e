//! Opening a database, and the tree of a name.
ghost use Rattle.std.specs.Prelude.{◌≡◌, map, false, None, [], IfOk, IfErr, OnOk};
ghost use Rattle.sled_nodes.specs.declared.error.Error.TheVariants.{NoMemory};
ghost use Rattle.sled_store.specs.Store.{now};
ghost use Rattle.tree_laws.specs.Crashes.{IsValid};
ghost use Rattle.sled.specs.Checked.{IsFit, RefusesFit, RefusesChecked};
ghost use Rattle.sled.specs.Opens.{empty_page, MakesTree, StopsMaking, Opens, RefusesOpen, RefusesTree, numbered};
ghost use Rattle.sled.specs.Values.{numbers_of};
ghost use Rattle.sled.specs.theory.Opens.{HasTree, AreNumbered};
ghost use Rattle.sled_model.specs.declared.call.Whole.TheVariants.{OpenTree};
ghost use Rattle.sled_model.specs.declared.reply.Reply.TheVariants as told;

use crate::DEFAULT_TREE;
use crate::db::Db;
use sled_model::{MergeOperator, Tree};
use sled_nodes::texts::NUMBERS_USED_UP;
use sled_nodes::{Data, Error, Fault, IVec, Leaf, Node, Pid, Result};
use sled_queues::Queues;
use sled_store::{Pages, law_given};
use std::alloc::Global;
use tree_check::verify_integrity;
use tree_lists::{number_of, put_tree, reserve_one};

// A leaf without pairs that covers every key.
fn empty_leaf(alloc: Global) -> Result<Node>
    ensures ok { IfOk result (λ node. node ≡ empty_page) }
    ensures err { IfErr result (λ e. e ≡ NoMemory) }
{
    Ok(Node {
        lo: IVec::from_slice(alloc, &[])?,
        hi: IVec::from_slice(alloc, &[])?,
        next: None,
        merging: false,
        merging_child: None,
        content: Data::Leaf(Leaf::from_pairs(alloc, &[])?),
    })
}

// Makes an empty tree of a name that has none.
pub(crate) fn make_tree<P: Pages>(alloc: Global, pages: &mut P, name: &[u8]) -> Result<()>
    requires { (now (P.store pages.old)).roots name.now ≡ None }
    ensures ok { OnOk result (MakesTree name.now (P.store pages.old) (P.store pages.new)) }
    ensures err { IfErr result (λ e. StopsMaking (P.store pages.old) e (P.store pages.new)) }
{
    let node = match empty_leaf(alloc) {
        Ok(node) => node,
        Err(e) => return Err(e),
    };
    let (pid, _) = match pages.allocate(node) {
        Ok(given) => given,
        Err(e) => return Err(e),
    };
    law_given(pages);
    match pages.cas_root(name, None, Some(pid)) {
        Ok(Ok(())) => Ok(()),
        Ok(Err(_)) => unreachable!(),
        Err(e) => Err(e),
    }
}

// Makes an empty tree of this name if there is none.
fn create_tree<P: Pages>(alloc: Global, pages: &mut P, name: &[u8]) -> Result<()>
    requires well { IsValid (now (P.store pages.old)) }
    requires no_group { (now (P.store pages.old)).in_group ≡ false }
    ensures ok { OnOk result (HasTree name.now (P.store pages.old) (P.store pages.new)) }
    ensures err { IfErr result (λ e. RefusesTree name.now (P.store pages.old) e (P.store pages.new)) }
{
    if pages.root(name).is_some() {
        return Ok(());
    }
    law_given(pages);
    make_tree(alloc, pages, name)
}

// The names of these roots, numbered from 1 in their order.
fn number_all(alloc: Global, roots: &[(IVec, Pid)]) -> Result<Vec<(IVec, u64)>>
    ensures ok { IfOk result (λ trees. trees.items ≡ numbered 0 (map (λ r. r.0) roots.now)) }
    ensures err { IfErr result (λ e. e ≡ NoMemory) }
{
    let mut trees = Vec::with_capacity(alloc, roots.len())?;
    let mut last: u64 = 0;
    for root in roots {
        last += 1;
        trees.push((root.0.clone()?, last))?;
    }
    Ok(trees)
}

// The names that have roots, numbered from 1 in their order.
fn number_trees<P: Pages>(alloc: Global, pages: &P) -> Result<Vec<(IVec, u64)>>
    ensures ok { IfOk result (λ trees. AreNumbered (now (P.store pages.now)) trees.items) }
    ensures err { IfErr result (λ e. e ≡ NoMemory) }
{
    let roots = pages.roots(alloc)?;
    number_all(alloc, roots.as_slice())
}

impl<P: Pages> Db<P> {
    /// Opens the database that the pages hold, under this name; an empty store becomes one with an empty default tree.
    /// All is flushed then. Trees are numbered anew, so a `Tree` that an earlier database over these pages gave may name another tree here.
    /// Refused with `Io` if the store counts a fault, and with `NoMemory`. The pages that are given back can be opened
    /// again: they have all their pairs, and at most the empty default tree is new.
    ///
    /// ```
    /// let db = match Db::open(alloc, empty_pages(alloc), b"weather") {
    ///     Ok(db) => db,
    ///     Err((pages, e)) => {
    ///         drop(pages);
    ///         return Err(e);
    ///     }
    /// };
    /// ```
    pub fn open(alloc: Global, pages: P, name: &[u8]) -> std::result::Result<Db<P>, (P, Error)>
        requires well { IsValid (now (P.store pages)) }
        requires no_group { (now (P.store pages)).in_group ≡ false }
        ensures ok { IfOk result (Opens P.store (P.store pages) name.now) }
        ensures err { IfErr result (λ e. RefusesOpen (P.store pages) e.1 (P.store e.0)) }
    {
        let mut pages = pages;
        if let Err(e) = create_tree(alloc, &mut pages, DEFAULT_TREE.as_bytes()) {
            return Err((pages, e));
        }
        let trees = match number_trees(alloc, &pages) {
            Ok(trees) => trees,
            Err(e) => return Err((pages, e)),
        };
        let name = match IVec::from_slice(alloc, name) {
            Ok(name) => name,
            Err(e) => {
                drop(trees);
                return Err((pages, e));
            }
        };
        law_given(&pages);
        if let Err(e) = pages.flush() {
            drop(trees);
            drop(name);
            return Err((pages, e));
        }
        let trees_given = trees.len() as u64;
        let greatest_id = pages.mark();
        Ok(Db {
            alloc,
            pages,
            name,
            trees,
            operators: Vec::new(alloc),
            queues: Queues::new(alloc),
            trees_given,
            greatest_id,
        })
    }
}

/// The code of `Corruption` if pages were to be opened while a group of writes is open in them.
pub const GROUP_IS_OPEN: Fault = Fault(10);

// Whether pages can be opened.
fn check_pages<P: Pages>(alloc: Global, pages: &P) -> Result<()>
    ensures ok { OnOk result (IsFit (now (P.store pages.now))) }
    ensures err { IfErr result (RefusesFit (P.store pages.now)) }
{
    if pages.in_group() {
        return Err(Error::Corruption(GROUP_IS_OPEN));
    }
    verify_integrity(alloc, pages)
}

impl<P: Pages> Db<P> {
    /// Opens the database that the pages hold, whatever they are, after a check of them (`verify_integrity`). It takes as long as a look at
    /// all of them.
    ///
    /// Refused with `Corruption` if they are not well formed, with the codes of `verify_integrity`, and with `GROUP_IS_OPEN` if a group of
    /// writes is open, as a group that was refused midway leaves it. Refused with `Io` if a page is not readable, and with `NoMemory`. Then
    /// the pages that are given back are as they were. And refused as `open` is.
    ///
    /// ```
    /// let db = match Db::open_checked(alloc, pages, b"weather") {
    ///     Ok(db) => db,
    ///     Err((pages, e)) => {
    ///         drop(pages); // As they were, if they are no database.
    ///         return Err(e);
    ///     }
    /// };
    /// ```
    pub fn open_checked(
        alloc: Global,
        pages: P,
        name: &[u8],
    ) -> std::result::Result<Db<P>, (P, Error)>
        ensures fit { OnOk result (IsFit (now (P.store pages))) }
        ensures ok { IfOk result (Opens P.store (P.store pages) name.now) }
        ensures err { IfErr result (λ e. RefusesChecked (P.store pages) e.1 (P.store e.0)) }
    {
        match check_pages(alloc, &pages) {
            Ok(()) => Db::open(alloc, pages, name),
            Err(e) => Err((pages, e)),
        }
    }
}

impl<P: Pages, M: MergeOperator> Db<P, M> {
    ghost use Rattle.sled.specs.Direct.{WholeDecided, WholeRefused};
    ghost use Rattle.sled.specs.Opens.{OpensBySteps, OpenRefusedBySteps};
    ghost use Rattle.sled.specs.Promises.{OpensMap, RefusesCall};
    ghost use Rattle.sled.specs.Wholes.{leaves_whole_as};

    // What names the tree of this name and number.
    pub(crate) fn handle_of(&self, name: &[u8], number: u64) -> Result<Tree>
        ensures ok { IfOk result (λ tree. tree ≡ record { database = self.now.name; name = name.now; number = number }) }
        ensures err { IfErr result (λ e. e ≡ NoMemory) }
    {
        let database = self.name.clone()?;
        match IVec::from_slice(self.alloc, name) {
            Ok(name) => Ok(Tree {
                database,
                name,
                number,
            }),
            Err(e) => {
                drop(database);
                Err(e)
            }
        }
    }

    /// Opens the tree of a name. One that is there keeps its number, and no page is touched; else an empty one is made, by two
    /// actions, and gets the next number and no merge operator. Refused with `Closed`; with `NoMemory`; and of a new name with
    /// `Unsupported` if all numbers were given, and with `Io` if the store counts a fault. Then no map changes, and at most a
    /// page is left that no tree has.
    ///
    /// ```
    /// let orders = db.open_tree(b"orders")?;
    /// db.insert(&orders, b"ulm", b"21")?; // In this tree alone.
    /// ```
    pub fn open_tree(&mut self, name: &[u8]) -> Result<Tree>
        ensures ok { IfOk result (λ tree. WholeDecided P.store M.meant self.old (OpenTree name.now) (told.Tree tree) self.new) }
        ensures err { IfErr result (λ e. WholeRefused P.store M.meant self.old (OpenTree name.now) e self.new) }
        ensures steps { OnOk result (OpensBySteps P.store name.now self.old self.new) }
        ensures refused { IfErr result (λ e. OpenRefusedBySteps P.store name.now self.old e self.new) }
        ensures changes { OnOk result (OpensMap P.store M.meant self.old name.now self.new) }
        ensures refuses { IfErr result (λ e. RefusesCall P.store M.meant self.old (OpenTree name.now) e self.new) }
        ensures leaves { leaves_whole_as P.store M.meant result self.old self.new }
    {
        if self.pages.in_group() {
            return Err(Error::Closed);
        }
        match number_of(self.trees.as_slice(), name) {
            Some(number) => self.handle_of(name, number),
            None => self.add_tree(name),
        }
    }

    // Makes the tree of a name that has none. What it needs in memory it gets before the first action.
    fn add_tree(&mut self, name: &[u8]) -> Result<Tree>
        requires no_group { (now (P.store self.old.pages)).in_group ≡ false }
        requires unknown { numbers_of self.old.trees name.now ≡ None }
        ensures ok { IfOk result (λ tree. WholeDecided P.store M.meant self.old (OpenTree name.now) (told.Tree tree) self.new) }
        ensures err { IfErr result (λ e. WholeRefused P.store M.meant self.old (OpenTree name.now) e self.new) }
        ensures steps { OnOk result (OpensBySteps P.store name.now self.old self.new) }
        ensures refused { IfErr result (λ e. OpenRefusedBySteps P.store name.now self.old e self.new) }
    {
        if self.trees_given == u64::MAX {
            return Err(Error::Unsupported(NUMBERS_USED_UP));
        }
        let number = self.trees_given + 1;
        let tree = match self.handle_of(name, number) {
            Ok(tree) => tree,
            Err(e) => return Err(e),
        };
        let own = match IVec::from_slice(self.alloc, name) {
            Ok(own) => own,
            Err(e) => {
                drop(tree);
                return Err(e);
            }
        };
        if let Err(e) = reserve_one(&mut self.trees) {
            drop(tree);
            drop(own);
            return Err(e);
        }
        law_given(&self.pages);
        if let Err(e) = make_tree(self.alloc, &mut self.pages, name) {
            drop(tree);
            drop(own);
            return Err(e);
        }
        put_tree(&mut self.trees, own, number);
        self.trees_given = number;
        Ok(tree)
    }
}
