//! The bytes of nodes, links and changes.
ghost use Rattle.std.specs.Prelude.{◌≡◌, ◌++◌, take, length, OnOk, OnErr, IfErr, IfSome};
ghost use Rattle.sled_nodes.specs.declared.error.Error.TheVariants.{NoMemory};
ghost use Rattle.std.specs.List.{flat_map, All};
ghost use Rattle.sled_nodes.specs.Node.{count, pairs, pointers};
ghost use Rattle.sled_bytes.specs.declared.change.Change.TheVariants.{Given, Linked, Freed, Rooted, Marked, Limited};
ghost use Rattle.sled_bytes.specs.Spelling.{number, string, flag, optional, pair, pointer, several, content_bytes, bounds_bytes, kin_bytes, node_bytes, kind, link_bytes, numbers, change_bytes, FitsNumber, FitsString, FitsPair, FitsPointer, FitsBytes, FitsLink, FitsChange};

use crate::change::Change;
use sled_nodes::{Data, Error, IVec, Index, Leaf, Link, Node, Pid, Result, Version};
use std::alloc::AllocError;

// The result of adding bytes. If it is refused, some of them may have been added behind those before.
type Added = std::result::Result<(), AllocError>;

#[tactic(auto, unfolding(crate::specs::Spelling::number))]
fn push_number(out: &mut Vec<u8>, value: u64) -> Added
    ensures ok { OnOk result (out.new.items ≡ out.old.items ++ number value) }
    ensures err { OnErr result (take (length out.old.items) out.new.items ≡ out.old.items) }
    ensures fits { FitsNumber value }
{
    out.extend_from_slice(&value.to_le_bytes())?;
    Ok(())
}

fn push_byte(out: &mut Vec<u8>, byte: u8) -> Added
    ensures ok { OnOk result (out.new.items ≡ out.old.items ++ kind byte) }
    ensures err { OnErr result (take (length out.old.items) out.new.items ≡ out.old.items) }
{
    out.push(byte)?;
    Ok(())
}

#[tactic(auto, using(crate::proofs::Fronts::begun_on), unfolding(crate::specs::Spelling::string))]
fn push_string(out: &mut Vec<u8>, bytes: &[u8]) -> Added
    ensures ok { OnOk result (out.new.items ≡ out.old.items ++ string bytes.now) }
    ensures err { OnErr result (take (length out.old.items) out.new.items ≡ out.old.items) }
    ensures fits { FitsString bytes.now }
{
    push_number(out, bytes.len() as u64)?;
    out.extend_from_slice(bytes)?;
    Ok(())
}

fn push_flag(out: &mut Vec<u8>, is: bool) -> Added
    ensures ok { OnOk result (out.new.items ≡ out.old.items ++ flag is) }
    ensures err { OnErr result (take (length out.old.items) out.new.items ≡ out.old.items) }
{
    if is {
        push_byte(out, 1)
    } else {
        push_byte(out, 0)
    }
}

#[tactic(auto, using(crate::proofs::Fronts::begun_on))]
fn push_optional(out: &mut Vec<u8>, pid: Option<Pid>) -> Added
    ensures ok { OnOk result (out.new.items ≡ out.old.items ++ optional pid) }
    ensures err { OnErr result (take (length out.old.items) out.new.items ≡ out.old.items) }
    ensures fits { OnOk result (IfSome pid FitsNumber) }
{
    match pid {
        Some(pid) => {
            push_byte(out, 1)?;
            push_number(out, pid.0)?;
        }
        None => push_byte(out, 0)?,
    }
    Ok(())
}

#[tactic(auto, using(crate::proofs::Fronts::begun_on))]
fn push_pair(out: &mut Vec<u8>, key: &IVec, value: &IVec) -> Added
    ensures ok { OnOk result (out.new.items ≡ out.old.items ++ pair (key.now, value.now)) }
    ensures err { OnErr result (take (length out.old.items) out.new.items ≡ out.old.items) }
    ensures fits { OnOk result (FitsPair (key.now, value.now)) }
{
    push_string(out, key.as_ref())?;
    push_string(out, value.as_ref())?;
    Ok(())
}

#[tactic(auto, using(crate::proofs::Fronts::begun_on))]
fn push_pointer(out: &mut Vec<u8>, key: &IVec, pid: Pid) -> Added
    ensures ok { OnOk result (out.new.items ≡ out.old.items ++ pointer (key.now, pid)) }
    ensures err { OnErr result (take (length out.old.items) out.new.items ≡ out.old.items) }
    ensures fits { OnOk result (FitsPointer (key.now, pid)) }
{
    push_string(out, key.as_ref())?;
    push_number(out, pid.0)?;
    Ok(())
}

#[tactic(auto, using(crate::proofs::Fronts::begun_on), unfolding(crate::specs::Spelling::bounds_bytes))]
fn push_bounds(out: &mut Vec<u8>, node: &Node) -> Added
    ensures ok { OnOk result (out.new.items ≡ out.old.items ++ bounds_bytes node.now) }
    ensures err { OnErr result (take (length out.old.items) out.new.items ≡ out.old.items) }
    ensures lo { OnOk result (FitsString node.now.lo) }
    ensures hi { OnOk result (FitsString node.now.hi) }
{
    push_string(out, node.lo.as_ref())?;
    push_string(out, node.hi.as_ref())?;
    Ok(())
}

#[tactic(auto, using(crate::proofs::Fronts::begun_on), unfolding(crate::specs::Spelling::kin_bytes))]
fn push_kin(out: &mut Vec<u8>, node: &Node) -> Added
    ensures ok { OnOk result (out.new.items ≡ out.old.items ++ kin_bytes node.now) }
    ensures err { OnErr result (take (length out.old.items) out.new.items ≡ out.old.items) }
    ensures next { OnOk result (IfSome node.now.next FitsNumber) }
    ensures child { OnOk result (IfSome node.now.merging_child FitsNumber) }
{
    push_optional(out, node.next)?;
    push_flag(out, node.merging)?;
    push_optional(out, node.merging_child)?;
    Ok(())
}

#[tactic(auto, using(crate::proofs::Fronts::begun_on))]
fn push_each_pair(out: &mut Vec<u8>, pairs: &[(IVec, IVec)]) -> Added
    ensures ok { OnOk result (out.new.items ≡ out.old.items ++ flat_map pair pairs.now) }
    ensures err { OnErr result (take (length out.old.items) out.new.items ≡ out.old.items) }
    ensures fits { OnOk result (All FitsPair pairs.now) }
{
    'pairs: for entry in pairs {
        push_pair(out, &entry.0, &entry.1)?;
    }
    Ok(())
}

#[tactic(auto, using(crate::proofs::Fronts::begun_on))]
fn push_each_pointer(out: &mut Vec<u8>, pointers: &[(IVec, Pid)]) -> Added
    ensures ok { OnOk result (out.new.items ≡ out.old.items ++ flat_map pointer pointers.now) }
    ensures err { OnErr result (take (length out.old.items) out.new.items ≡ out.old.items) }
    ensures fits { OnOk result (All FitsPointer pointers.now) }
{
    'pointers: for entry in pointers {
        push_pointer(out, &entry.0, entry.1)?;
    }
    Ok(())
}

#[tactic(auto, using(crate::proofs::Fronts::begun_on))]
fn push_pairs(out: &mut Vec<u8>, pairs: &[(IVec, IVec)]) -> Added
    ensures ok { OnOk result (out.new.items ≡ out.old.items ++ several pair pairs.now) }
    ensures err { OnErr result (take (length out.old.items) out.new.items ≡ out.old.items) }
    ensures count { FitsNumber (length pairs.now) }
    ensures fits { OnOk result (All FitsPair pairs.now) }
{
    push_number(out, pairs.len() as u64)?;
    push_each_pair(out, pairs)?;
    Ok(())
}

#[tactic(auto, using(crate::proofs::Fronts::begun_on))]
fn push_pointers(out: &mut Vec<u8>, pointers: &[(IVec, Pid)]) -> Added
    ensures ok { OnOk result (out.new.items ≡ out.old.items ++ several pointer pointers.now) }
    ensures err { OnErr result (take (length out.old.items) out.new.items ≡ out.old.items) }
    ensures count { FitsNumber (length pointers.now) }
    ensures fits { OnOk result (All FitsPointer pointers.now) }
{
    push_number(out, pointers.len() as u64)?;
    push_each_pointer(out, pointers)?;
    Ok(())
}

fn push_leaf(out: &mut Vec<u8>, leaf: &Leaf) -> Added
    ensures ok { OnOk result (out.new.items ≡ out.old.items ++ several pair leaf.now) }
    ensures err { OnErr result (take (length out.old.items) out.new.items ≡ out.old.items) }
    ensures count { OnOk result (FitsNumber (length leaf.now)) }
    ensures fits { OnOk result (All FitsPair leaf.now) }
{
    match leaf.pairs(*out.allocator()) {
        Ok(pairs) => {
            let pushed = push_pairs(out, pairs.as_slice());
            drop(pairs);
            pushed
        }
        Err(e) => {
            drop(e);
            Err(AllocError)
        }
    }
}

fn push_index(out: &mut Vec<u8>, index: &Index) -> Added
    ensures ok { OnOk result (out.new.items ≡ out.old.items ++ several pointer index.now) }
    ensures err { OnErr result (take (length out.old.items) out.new.items ≡ out.old.items) }
    ensures count { OnOk result (FitsNumber (length index.now)) }
    ensures fits { OnOk result (All FitsPointer index.now) }
{
    match index.pairs(*out.allocator()) {
        Ok(pointers) => {
            let pushed = push_pointers(out, pointers.as_slice());
            drop(pointers);
            pushed
        }
        Err(e) => {
            drop(e);
            Err(AllocError)
        }
    }
}

#[tactic(auto, using(crate::proofs::Fronts::begun_on), unfolding(crate::specs::Spelling::content_bytes))]
fn push_content(out: &mut Vec<u8>, content: &Data) -> Added
    ensures ok { OnOk result (out.new.items ≡ out.old.items ++ content_bytes content.now) }
    ensures err { OnErr result (take (length out.old.items) out.new.items ≡ out.old.items) }
    ensures count { OnOk result (FitsNumber (count content.now)) }
    ensures pairs { OnOk result (All FitsPair (pairs content.now)) }
    ensures pointers { OnOk result (All FitsPointer (pointers content.now)) }
{
    match content {
        Data::Leaf(leaf) => {
            push_flag(out, false)?;
            push_leaf(out, leaf)?;
        }
        Data::Index(index) => {
            push_flag(out, true)?;
            push_index(out, index)?;
        }
    }
    Ok(())
}

#[tactic(auto, using(crate::proofs::Fronts::begun_on))]
fn push_node(out: &mut Vec<u8>, node: &Node) -> Added
    ensures ok { OnOk result (out.new.items ≡ out.old.items ++ node_bytes node.now) }
    ensures err { OnErr result (take (length out.old.items) out.new.items ≡ out.old.items) }
    ensures fits { OnOk result (FitsBytes node.now) }
{
    push_bounds(out, node)?;
    push_kin(out, node)?;
    push_content(out, &node.content)?;
    Ok(())
}

#[tactic(auto, using(crate::proofs::Fronts::begun_on))]
fn push_numbers(out: &mut Vec<u8>, first: u64, second: u64) -> Added
    ensures ok { OnOk result (out.new.items ≡ out.old.items ++ numbers first second) }
    ensures err { OnErr result (take (length out.old.items) out.new.items ≡ out.old.items) }
    ensures first { FitsNumber first }
    ensures second { FitsNumber second }
{
    push_number(out, first)?;
    push_number(out, second)?;
    Ok(())
}

#[tactic(auto, using(crate::proofs::Fronts::begun_on))]
fn push_link(out: &mut Vec<u8>, link: &Link) -> Added
    ensures ok { OnOk result (out.new.items ≡ out.old.items ++ link_bytes link.now) }
    ensures err { OnErr result (take (length out.old.items) out.new.items ≡ out.old.items) }
    ensures fits { OnOk result (FitsLink link.now) }
{
    match link {
        Link::Set(key, value) => {
            push_byte(out, 1)?;
            push_pair(out, key, value)?;
        }
        Link::Del(key) => {
            push_byte(out, 2)?;
            push_string(out, key.as_ref())?;
        }
        Link::ParentMergeIntention(child) => {
            push_byte(out, 3)?;
            push_number(out, child.0)?;
        }
        Link::ParentMergeConfirm => push_byte(out, 4)?,
        Link::ChildMergeCap => push_byte(out, 5)?,
    }
    Ok(())
}

#[tactic(auto, using(crate::proofs::Fronts::begun_on))]
fn push_given(out: &mut Vec<u8>, pid: Pid, version: Version, node: &Node) -> Added
    ensures ok { OnOk result (out.new.items ≡ out.old.items ++ change_bytes (Given pid version node.now)) }
    ensures err { OnErr result (take (length out.old.items) out.new.items ≡ out.old.items) }
    ensures fits { OnOk result (FitsChange (Given pid version node.now)) }
{
    push_byte(out, 1)?;
    push_numbers(out, pid.0, version.0)?;
    push_node(out, node)?;
    Ok(())
}

#[tactic(auto, using(crate::proofs::Fronts::begun_on))]
fn push_linked(out: &mut Vec<u8>, pid: Pid, version: Version, link: &Link) -> Added
    ensures ok { OnOk result (out.new.items ≡ out.old.items ++ change_bytes (Linked pid version link.now)) }
    ensures err { OnErr result (take (length out.old.items) out.new.items ≡ out.old.items) }
    ensures fits { OnOk result (FitsChange (Linked pid version link.now)) }
{
    push_byte(out, 2)?;
    push_numbers(out, pid.0, version.0)?;
    push_link(out, link)?;
    Ok(())
}

#[tactic(auto, using(crate::proofs::Fronts::begun_on))]
fn push_freed(out: &mut Vec<u8>, pid: Pid) -> Added
    ensures ok { OnOk result (out.new.items ≡ out.old.items ++ change_bytes (Freed pid)) }
    ensures err { OnErr result (take (length out.old.items) out.new.items ≡ out.old.items) }
    ensures fits { OnOk result (FitsChange (Freed pid)) }
{
    push_byte(out, 3)?;
    push_number(out, pid.0)?;
    Ok(())
}

#[tactic(auto, using(crate::proofs::Fronts::begun_on))]
fn push_rooted(out: &mut Vec<u8>, name: &[u8], root: Option<Pid>) -> Added
    ensures ok { OnOk result (out.new.items ≡ out.old.items ++ change_bytes (Rooted name.now root)) }
    ensures err { OnErr result (take (length out.old.items) out.new.items ≡ out.old.items) }
    ensures fits { OnOk result (FitsChange (Rooted name.now root)) }
{
    push_byte(out, 4)?;
    push_string(out, name)?;
    push_optional(out, root)?;
    Ok(())
}

#[tactic(auto, using(crate::proofs::Fronts::begun_on))]
fn push_marked(out: &mut Vec<u8>, upto: u64) -> Added
    ensures ok { OnOk result (out.new.items ≡ out.old.items ++ change_bytes (Marked upto)) }
    ensures err { OnErr result (take (length out.old.items) out.new.items ≡ out.old.items) }
    ensures fits { OnOk result (FitsChange (Marked upto)) }
{
    push_byte(out, 7)?;
    push_number(out, upto)?;
    Ok(())
}

#[tactic(auto, using(crate::proofs::Fronts::begun_on))]
fn push_limited(out: &mut Vec<u8>, pids: u64, versions: u64) -> Added
    ensures ok { OnOk result (out.new.items ≡ out.old.items ++ change_bytes (Limited pids versions)) }
    ensures err { OnErr result (take (length out.old.items) out.new.items ≡ out.old.items) }
    ensures fits { OnOk result (FitsChange (Limited pids versions)) }
{
    push_byte(out, 8)?;
    push_numbers(out, pids, versions)?;
    Ok(())
}

fn push_change(out: &mut Vec<u8>, change: &Change) -> Added
    ensures ok { OnOk result (out.new.items ≡ out.old.items ++ change_bytes change.now) }
    ensures err { OnErr result (take (length out.old.items) out.new.items ≡ out.old.items) }
    ensures fits { OnOk result (FitsChange change.now) }
{
    match change {
        Change::Given(pid, version, node) => push_given(out, *pid, *version, node),
        Change::Linked(pid, version, link) => push_linked(out, *pid, *version, link),
        Change::Freed(pid) => push_freed(out, *pid),
        Change::Rooted(name, root) => push_rooted(out, name.as_ref(), *root),
        Change::Begun => push_byte(out, 5),
        Change::Sealed => push_byte(out, 6),
        Change::Marked(upto) => push_marked(out, *upto),
        Change::Limited(pids, versions) => push_limited(out, *pids, *versions),
    }
}

/// Adds the bytes of a node at the end. Refused with `NoMemory` alone, and nothing is added then.
///
/// ```
/// let mut bytes = Vec::new(alloc);
/// encode_node(&node, &mut bytes)?;
/// ```
pub fn encode_node(node: &Node, out: &mut Vec<u8>) -> Result<()>
    ensures ok { OnOk result (out.new.items ≡ out.old.items ++ node_bytes node.now) }
    // So it is read again.
    ensures fits { OnOk result (FitsBytes node.now) }
    ensures err { IfErr result (λ e. (e ≡ NoMemory) × (out.new.items ≡ out.old.items)) }
{
    let len = out.len();
    if push_node(out, node).is_err() {
        out.truncate(len);
        return Err(Error::NoMemory);
    }
    Ok(())
}

/// Adds the bytes of a change at the end. Refused with `NoMemory` alone, and nothing is added then.
///
/// ```
/// let mut bytes = Vec::new(alloc);
/// encode_change(&Change::Freed(pid), &mut bytes)?;
/// ```
pub fn encode_change(change: &Change, out: &mut Vec<u8>) -> Result<()>
    ensures ok { OnOk result (out.new.items ≡ out.old.items ++ change_bytes change.now) }
    // So it is read again.
    ensures fits { OnOk result (FitsChange change.now) }
    ensures err { IfErr result (λ e. (e ≡ NoMemory) × (out.new.items ≡ out.old.items)) }
{
    let len = out.len();
    if push_change(out, change).is_err() {
        out.truncate(len);
        return Err(Error::NoMemory);
    }
    Ok(())
}

/// Adds the bytes of a page that is there with this version and node, as of `Change::Given`. Refused with `NoMemory` alone, and nothing
/// is added then.
///
/// ```
/// let mut bytes = Vec::new(alloc);
/// encode_given(&mut bytes, pid, version, &node)?; // The node stays the caller's.
/// ```
pub fn encode_given(out: &mut Vec<u8>, pid: Pid, version: Version, node: &Node) -> Result<()>
    ensures ok { OnOk result (out.new.items ≡ out.old.items ++ change_bytes (Given pid version node.now)) }
    // So it is read again.
    ensures fits { OnOk result (FitsChange (Given pid version node.now)) }
    ensures err { IfErr result (λ e. (e ≡ NoMemory) × (out.new.items ≡ out.old.items)) }
{
    let len = out.len();
    if push_given(out, pid, version, node).is_err() {
        out.truncate(len);
        return Err(Error::NoMemory);
    }
    Ok(())
}

/// Adds the bytes of a link that a page had, and the version that it has since, as of `Change::Linked`. Refused with `NoMemory` alone,
/// and nothing is added then.
///
/// ```
/// let mut bytes = Vec::new(alloc);
/// encode_linked(&mut bytes, pid, version, &link)?; // The link stays the caller's.
/// ```
pub fn encode_linked(out: &mut Vec<u8>, pid: Pid, version: Version, link: &Link) -> Result<()>
    ensures ok { OnOk result (out.new.items ≡ out.old.items ++ change_bytes (Linked pid version link.now)) }
    // So it is read again.
    ensures fits { OnOk result (FitsChange (Linked pid version link.now)) }
    ensures err { IfErr result (λ e. (e ≡ NoMemory) × (out.new.items ≡ out.old.items)) }
{
    let len = out.len();
    if push_linked(out, pid, version, link).is_err() {
        out.truncate(len);
        return Err(Error::NoMemory);
    }
    Ok(())
}

/// Adds the bytes of the root that a name has, or has no more, as of `Change::Rooted`. Refused with `NoMemory` alone, and nothing is
/// added then.
///
/// ```
/// let mut bytes = Vec::new(alloc);
/// encode_rooted(&mut bytes, b"weather", Some(pid))?; // The name stays the caller's.
/// ```
pub fn encode_rooted(out: &mut Vec<u8>, name: &[u8], root: Option<Pid>) -> Result<()>
    ensures ok { OnOk result (out.new.items ≡ out.old.items ++ change_bytes (Rooted name.now root)) }
    // So it is read again.
    ensures fits { OnOk result (FitsChange (Rooted name.now root)) }
    ensures err { IfErr result (λ e. (e ≡ NoMemory) × (out.new.items ≡ out.old.items)) }
{
    let len = out.len();
    if push_rooted(out, name, root).is_err() {
        out.truncate(len);
        return Err(Error::NoMemory);
    }
    Ok(())
}
