//! A page as it is kept: a node, and below it the base and the links that it came from.
ghost use Rattle.std.specs.Prelude.{◌≡◌, ◌<◌, ◌≤◌, ◌++◌, ◌∷◌, [], length, Some, None, true, IfOk, IfErr, OnOk, OnErr, if◌then◌else◌};
ghost use Rattle.sled_nodes.specs.declared.error.Error.TheVariants.{NoMemory};
ghost use Rattle.sled_pages.specs.declared.memory.linked.Below.TheVariants.{Nothing};
ghost use Rattle.sled_pages.specs.Parts.{node_of, alone, linked, unlinked, is_full};
ghost use Rattle.sled_pages.specs.theory.Parts.{IsJoined, IsReady, parts_under};
ghost use Rattle.sled_nodes.specs.Node.{after_link};

use sled_nodes::{Link, Node, Result, Shared};
use std::alloc::{AllocError, Global};
use std::marker::Model;

// A link that finds so many folds.
const MOST: usize = 8;

// A list of links that is full grows by so many.
const MORE: usize = 4;

// A base and the links since.
#[derive(Drop)]
struct Since {
    base: Shared,
    links: Vec<Link>,
}

/// A base and at most 8 links since. They are apart, so that a page without links is small. Contracts see the two.
pub struct Under {
    since: Box<Since>,
}

// By hand, as that of a store.
impl Drop for Under {
    fn drop(self) {
        let Under { since } = self;
        drop(since);
    }
}

impl Model for Under {
    ghost use Rattle.std.specs.Prelude.{List, box_value, length, ◌≤◌};
    ghost use Rattle.sled_nodes.specs.declared.node.Node.{Node};
    ghost use Rattle.sled_nodes.specs.declared.link.Link.{Link};

    ghost Value = { Node × List Link };

    ghost view = { λ a. ((box_value a.since).base, (box_value a.since).links.items) };

    ghost invariant = { λ a. length (box_value a.since).links.items ≤ 8 };
}

// Shares a node, as a read asks for it.
#[inline(always)]
fn share(node: &Shared) -> std::result::Result<Shared, AllocError>
    ensures { IfOk result (λ more. more ≡ node.now) }
{
    node.share().map_err(|_| AllocError)
}

impl Under {
    // A base without links. Refused with `NoMemory` alone.
    fn new(alloc: Global, base: Shared) -> Result<Under>
        ensures ok { IfOk result (λ made. made ≡ (base, [])) }
        ensures err { IfErr result (λ e. e ≡ NoMemory) }
    {
        let links = Vec::new(alloc);
        Ok(Under {
            since: Box::new(alloc, Since { base, links })?,
        })
    }

    // The base after the links. Refused with `NoMemory` alone.
    #[inline(never)]
    fn join(&self, alloc: Global) -> Result<Shared>
        ensures ok { IfOk result (λ node. node ≡ node_of self.now) }
        ensures err { IfErr result (λ e. e ≡ NoMemory) }
    {
        let mut node = self.since.base.share()?;
        for link in &self.since.links {
            node.apply(alloc, link)?;
        }
        Ok(node)
    }

    // The same, as a read asks for it. Out of line, since only behind a crash there are pages that are not joined.
    #[cold]
    #[inline(never)]
    fn joined(&self, alloc: Global) -> std::result::Result<Shared, AllocError>
        ensures { IfOk result (λ node. node ≡ node_of self.now) }
    {
        self.join(alloc).map_err(|_| AllocError)
    }

    // How many links there are.
    fn len(&self) -> usize
        ensures { result ≡ length self.now.1 }
    {
        self.since.links.len()
    }

    // One link less, if there is one.
    fn pop(&mut self)
        ensures { self.new ≡ unlinked self.old }
    {
        let last = self.since.links.pop();
        drop(last);
    }
}

// One link more.
fn link_more(alloc: Global, node: &mut Shared, under: &mut Under, link: Link) -> Result<()>
    requires { length under.old.1 < 8 }
    ensures ok { OnOk result (node.new ≡ after_link link node.old) }
    ensures pushed { OnOk result (under.new ≡ (under.old.0, under.old.1 ++ link ∷ [])) }
    ensures err { OnErr result (node.new ≡ node.old) }
    ensures kept { OnErr result (under.new ≡ under.old) }
    ensures cause { IfErr result (λ e. e ≡ NoMemory) }
{
    if under.since.links.len() == under.since.links.capacity() {
        under.since.links.reserve_exact(MORE)?;
    }
    node.apply(alloc, &link)?;
    under.since.links.push_reserved(link);
    Ok(())
}

// A page's first link. Returns what is below it then.
fn link_first(alloc: Global, node: &mut Shared, link: Link) -> Result<Under>
    ensures ok { OnOk result (node.new ≡ after_link link node.old) }
    ensures made { IfOk result (λ under. under ≡ (node.old, link ∷ [])) }
    ensures err { OnErr result (node.new ≡ node.old) }
    ensures cause { IfErr result (λ e. e ≡ NoMemory) }
{
    let base = node.share()?;
    let mut under = Under::new(alloc, base)?;
    link_more(alloc, node, &mut under, link)?;
    Ok(under)
}

// What is below a page's node.
#[derive(Drop)]
enum Below {
    // No links: the node is the base.
    Nothing,
    // The base and the links, which join to the node.
    Joined(Under),
    // The same of a page that lost links since it was joined: the node is none of theirs.
    Apart(Under),
}

// What is below the node that these join to: if there are no links that is nothing, since the node is the base.
fn below_of(under: Under) -> Below
    ensures same { parts_under (node_of under) result ≡ under }
    ensures ready { IsReady (node_of under) result }
{
    if under.len() > 0 {
        return Below::Joined(under);
    }
    drop(under);
    Below::Nothing
}

// Joins what is below a node and is apart. Refused with `NoMemory` alone, and then unchanged.
#[cold]
#[inline(never)]
fn join_apart(alloc: Global, node: &mut Shared, below: &mut Below) -> Result<()>
    requires { IsJoined node.old below.old }
    ensures same { parts_under node.new below.new ≡ parts_under node.old below.old }
    ensures joined { IsJoined node.new below.new }
    ensures ready { OnOk result (IsReady node.new below.new) }
    ensures cause { IfErr result (λ e. e ≡ NoMemory) }
{
    match std::mem::replace(below, Below::Nothing) {
        Below::Apart(under) => match under.join(alloc) {
            Ok(joined) => {
                *node = joined;
                *below = below_of(under);
                Ok(())
            }
            Err(e) => {
                *below = Below::Apart(under);
                Err(e)
            }
        },
        joined => {
            *below = joined;
            Ok(())
        }
    }
}

// Joins what is below a node, if it is apart. Refused with `NoMemory` alone, and then unchanged.
#[inline(always)]
fn make_ready(alloc: Global, node: &mut Shared, below: &mut Below) -> Result<()>
    requires { IsJoined node.old below.old }
    ensures same { parts_under node.new below.new ≡ parts_under node.old below.old }
    ensures joined { IsJoined node.new below.new }
    ensures ready { OnOk result (IsReady node.new below.new) }
    ensures cause { IfErr result (λ e. e ≡ NoMemory) }
{
    match below {
        Below::Apart(_) => join_apart(alloc, node, below),
        _ => Ok(()),
    }
}

// The ninth link of a page: the base becomes the node after it. Returns what was below the node. Refused with `NoMemory` alone, and then
// unchanged.
fn fold(alloc: Global, node: &mut Shared, below: &mut Below, ninth: &Link) -> Result<Option<Under>>
    requires ready { IsReady node.old below.old }
    requires full { is_full (parts_under node.old below.old) ≡ true }
    ensures ok { OnOk result (node.new ≡ after_link ninth.now node.old) }
    ensures below { OnOk result (below.new ≡ Nothing) }
    ensures folded { IfOk result (λ folded. folded ≡ Some (parts_under node.old below.old)) }
    ensures err { OnErr result (node.new ≡ node.old) }
    ensures kept { OnErr result (below.new ≡ below.old) }
    ensures cause { IfErr result (λ e. e ≡ NoMemory) }
{
    node.apply(alloc, ninth)?;
    match std::mem::replace(below, Below::Nothing) {
        Below::Nothing => Ok(None),
        Below::Joined(under) => Ok(Some(under)),
        Below::Apart(under) => Ok(Some(under)),
    }
}

// A link of a page that is joined, of which the node alone stays. Refused with `NoMemory` alone, and then unchanged.
fn settle_ready(alloc: Global, node: &mut Shared, below: &mut Below, link: &Link) -> Result<()>
    requires { IsReady node.old below.old }
    ensures ok { OnOk result (parts_under node.new below.new ≡ alone (after_link link.now (node_of (parts_under node.old below.old)))) }
    ensures err { OnErr result (parts_under node.new below.new ≡ parts_under node.old below.old) }
    ensures joined { IsJoined node.new below.new }
    ensures cause { IfErr result (λ e. e ≡ NoMemory) }
{
    node.apply(alloc, link)?;
    let before = std::mem::replace(below, Below::Nothing);
    drop(before);
    Ok(())
}

/// A base node and at most 8 links. Contracts see these two.
pub struct Linked {
    node: Shared,
    below: Below,
}

// By hand, as that of a store.
impl Drop for Linked {
    fn drop(self) {
        let Linked { node, below } = self;
        drop(node);
        drop(below);
    }
}

impl Model for Linked {
    ghost use Rattle.std.specs.Prelude.{List};
    ghost use Rattle.sled_nodes.specs.declared.node.Node.{Node};
    ghost use Rattle.sled_nodes.specs.declared.link.Link.{Link};

    ghost Value = { Node × List Link };

    ghost use Rattle.sled_pages.specs.theory.Parts.{parts_under, IsJoined};

    ghost view = { λ a. parts_under a.node a.below };

    ghost invariant = { λ a. IsJoined a.node a.below };
}

impl Linked {
    /// A page without links. It takes no memory.
    pub fn new(base: Shared) -> Linked
        ensures { result ≡ (base, []) }
    {
        Linked {
            node: base,
            below: Below::Nothing,
        }
    }

    /// A page with this base and these links, not joined yet. Refused with `NoMemory` alone.
    pub fn of(under: Under) -> Result<Linked>
        ensures ok { IfOk result (λ page. page ≡ under) }
        ensures err { IfErr result (λ e. e ≡ NoMemory) }
    {
        Ok(Linked {
            node: under.since.base.share()?,
            below: Below::Apart(under),
        })
    }

    /// The base.
    pub fn base(&self) -> &Node
        ensures { result.now ≡ self.now.0 }
    {
        match &self.below {
            Below::Nothing => &self.node,
            Below::Joined(under) => &under.since.base,
            Below::Apart(under) => &under.since.base,
        }
    }

    /// The links, the first of them first.
    pub fn links(&self) -> &[Link]
        ensures is { result.now ≡ self.now.1 }
        ensures few { length result.now ≤ 8 }
    {
        match &self.below {
            Below::Nothing => &[],
            Below::Joined(under) => under.since.links.as_slice(),
            Below::Apart(under) => under.since.links.as_slice(),
        }
    }

    /// The base after the links. Refused if there is no memory, which is all that a read has to know: so short an answer makes reads cheap.
    #[inline(always)]
    pub fn node(&self, alloc: Global) -> std::result::Result<Shared, AllocError>
        ensures { IfOk result (λ node. node ≡ node_of self.now) }
    {
        match &self.below {
            Below::Apart(under) => under.joined(alloc),
            _ => share(&self.node),
        }
    }

    /// Whether the base and the links are yet to be joined.
    pub fn is_apart(&self) -> bool {
        matches!(&self.below, Below::Apart(_))
    }

    /// Joins the base and the links. Refused with `NoMemory` alone.
    pub fn join(&mut self, alloc: Global) -> Result<()>
        ensures same { self.new ≡ self.old }
        ensures err { IfErr result (λ e. e ≡ NoMemory) }
    {
        make_ready(alloc, &mut self.node, &mut self.below)
    }

    /// One link more. If there are 8 the base becomes the node after all of them, and the base and the links before are given. Refused
    /// with `NoMemory` alone, and then unchanged.
    pub fn link(&mut self, alloc: Global, link: Link) -> Result<Option<Under>>
        ensures ok { OnOk result (self.new ≡ linked link self.old) }
        ensures folded { IfOk result (λ folded. folded ≡ (if is_full self.old then Some self.old else None)) }
        ensures err { OnErr result (self.new ≡ self.old) }
        ensures cause { IfErr result (λ e. e ≡ NoMemory) }
    {
        make_ready(alloc, &mut self.node, &mut self.below)?;
        if let Below::Joined(under) = &mut self.below {
            if under.len() < MOST {
                link_more(alloc, &mut self.node, under, link)?;
                return Ok(None);
            }
            let folded = fold(alloc, &mut self.node, &mut self.below, &link);
            drop(link);
            return folded;
        }
        let under = link_first(alloc, &mut self.node, link)?;
        self.below = Below::Joined(under);
        Ok(None)
    }

    /// The base becomes the node after all links and this one, and no link is left. Refused with `NoMemory` alone, and then unchanged.
    pub fn settle(&mut self, alloc: Global, link: &Link) -> Result<()>
        ensures ok { OnOk result (self.new ≡ alone (after_link link.now (node_of self.old))) }
        ensures err { OnErr result (self.new ≡ self.old) }
        ensures cause { IfErr result (λ e. e ≡ NoMemory) }
    {
        make_ready(alloc, &mut self.node, &mut self.below)?;
        settle_ready(alloc, &mut self.node, &mut self.below, link)
    }

    /// One link less, if there is one. It takes no memory.
    pub fn unlink(&mut self)
        ensures { self.new ≡ unlinked self.old }
    {
        match std::mem::replace(&mut self.below, Below::Nothing) {
            Below::Nothing => {}
            Below::Joined(mut under) => {
                under.pop();
                self.below = Below::Apart(under);
            }
            Below::Apart(mut under) => {
                under.pop();
                self.below = Below::Apart(under);
            }
        }
    }
}
