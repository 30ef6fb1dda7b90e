//! The list of the trees, ascending by name. A tree is found by halves.
ghost use Rattle.std.specs.Prelude.{◌≡◌, ◌<◌, true, None, vec_len, vec_capacity, map, IfOk, IfErr, OnOk};
ghost use Rattle.std.specs.FinMap.Entries.{put, find, is_sorted};
ghost use Rattle.sled_nodes.specs.Node.{without};
ghost use Rattle.sled_nodes.specs.Order.{key_cmp};
ghost use Rattle.sled_nodes.specs.theory.Rising.{IsHit, IsGap};
ghost use Rattle.sled_nodes.specs.declared.error.Error.TheVariants.{NoMemory};

use sled_nodes::{IVec, Result, value_at};
use std::alloc::Global;

// Where the tree of a name is, or would go.
#[inline(always)]
#[tactic(auto, unfolding(sled_nodes::specs::Order::key_cmp))]
fn place_of_name(trees: &[(IVec, u64)], name: &[u8]) -> std::result::Result<usize, usize>
    requires { is_sorted key_cmp trees.now ≡ true }
    ensures ok { IfOk result (IsHit key_cmp name.now trees.now) }
    ensures err { IfErr result (IsGap key_cmp name.now trees.now) }
{
    trees.binary_search_by(|tree| tree.0.as_ref().cmp(name))
}

/// The number of the tree of a name.
#[tactic(auto, unfolding(sled_nodes::specs::Order::key_cmp))]
pub fn number_of(trees: &[(IVec, u64)], name: &[u8]) -> Option<u64>
    requires { is_sorted key_cmp trees.now ≡ true }
    ensures { result ≡ find key_cmp name.now trees.now }
{
    value_at(trees, name, true).copied()
}

/// Makes room for one tree more.
pub fn reserve_one(trees: &mut Vec<(IVec, u64)>) -> Result<()>
    ensures same { trees.new.items ≡ trees.old.items }
    ensures room { OnOk result (vec_len trees.new < vec_capacity trees.new) }
    ensures err { IfErr result (λ e. e ≡ NoMemory) }
{
    trees.reserve(1)?;
    Ok(())
}

/// Puts a tree in its place, if no other has its name, and there is room.
pub fn put_tree(trees: &mut Vec<(IVec, u64)>, name: IVec, number: u64)
    requires ascends { is_sorted key_cmp trees.old.items ≡ true }
    requires unknown { find key_cmp name trees.old.items ≡ None }
    requires room { vec_len trees.old < vec_capacity trees.old }
    ensures { trees.new.items ≡ put key_cmp name number trees.old.items }
{
    match place_of_name(trees.as_slice(), name.as_ref()) {
        Ok(_) => unreachable!(),
        Err(i) => trees.insert(i, (name, number)).unwrap(),
    }
}

/// Takes a name out of the list of trees.
pub fn take_name(trees: &mut Vec<(IVec, u64)>, name: &[u8])
    ensures { trees.new.items ≡ without name.now trees.old.items }
{
    trees.retain(|tree| !name.cmp(tree.0.as_ref()).is_eq());
}

/// The names of these trees, in their order.
pub fn names_of(alloc: Global, trees: &[(IVec, u64)]) -> Result<Vec<IVec>>
    ensures ok { IfOk result (λ names. names.items ≡ map (λ t. t.0) trees.now) }
    ensures err { IfErr result (λ e. e ≡ NoMemory) }
{
    let mut names = Vec::with_capacity(alloc, trees.len())?;
    for tree in trees {
        names.push(tree.0.clone()?)?;
    }
    Ok(names)
}
