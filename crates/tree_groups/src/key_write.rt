//! A write of a group, as it waits to be made.
ghost use Rattle.std.specs.Prelude.{◌≡◌, IfOk, IfErr};
ghost use Rattle.sled_model.specs.Groups.{call_with};
ghost use Rattle.sled_nodes.specs.declared.error.Error.TheVariants.{NoMemory};
ghost use Rattle.tree_groups.specs.Groups.{job_of};
ghost use Rattle.tree_groups.specs.Writes.{fresh_call};
ghost use Rattle.tree_groups.specs.theory.Groups.{link_with};

use sled_model::{Call, Tree};
use sled_nodes::{IVec, Link, Pid, Result, Version, clone_value};
use sled_tree::InFlight;

/// What a key of a tree is to have: a value, or none.
#[derive(Drop)]
pub struct KeyWrite<'a> {
    pub tree: &'a Tree,
    pub key: &'a IVec,
    pub value: &'a Option<IVec>,
    /// The leaf of the key, and the version at which it was read, if the write changes it and nothing is to be repaired there.
    pub leaf: Option<(Pid, Version)>,
}

// The call of a write, as it begins.
pub(crate) fn call_of(write: &KeyWrite) -> Result<InFlight>
    ensures ok { IfOk result (λ flight. flight ≡ fresh_call (job_of write.now)) }
    ensures err { IfErr result (λ e. e ≡ NoMemory) }
{
    let call = match write_call(write.key, write.value) {
        Ok(call) => call,
        Err(e) => return Err(e),
    };
    match write.tree.clone() {
        Ok(tree) => Ok(InFlight::new(tree, call)),
        Err(e) => {
            drop(call);
            Err(e)
        }
    }
}

// The same key and value, as clones.
#[inline(always)]
fn copies_of(key: &IVec, value: &Option<IVec>) -> Result<(IVec, Option<IVec>)>
    ensures ok { IfOk result (λ copies. copies ≡ (key.now, value.now)) }
    ensures err { IfErr result (λ e. e ≡ NoMemory) }
{
    let key = match key.clone() {
        Ok(key) => key,
        Err(e) => return Err(e),
    };
    match clone_value(value) {
        Ok(value) => Ok((key, value)),
        Err(e) => {
            drop(key);
            Err(e)
        }
    }
}

// The call that sets the value at a key, or takes the key out.
fn write_call(key: &IVec, value: &Option<IVec>) -> Result<Call>
    ensures ok { IfOk result (λ call. call ≡ call_with key.now value.now) }
    ensures err { IfErr result (λ e. e ≡ NoMemory) }
{
    let (key, value) = match copies_of(key, value) {
        Ok(copies) => copies,
        Err(e) => return Err(e),
    };
    match value {
        Some(value) => Ok(Call::Insert(key, value)),
        None => Ok(Call::Remove(key)),
    }
}

// The link that sets the value at a key, or takes the key out.
#[inline(always)]
pub(crate) fn link_of(key: &IVec, value: &Option<IVec>) -> Result<Link>
    ensures ok { IfOk result (λ link. link ≡ link_with key.now value.now) }
    ensures err { IfErr result (λ e. e ≡ NoMemory) }
{
    let (key, value) = match copies_of(key, value) {
        Ok(copies) => copies,
        Err(e) => return Err(e),
    };
    match value {
        Some(value) => Ok(Link::Set(key, value)),
        None => Ok(Link::Del(key)),
    }
}
