//! Actions taken back, the last of them first.
ghost use Rattle.std.specs.Prelude.{◌≡◌, ℕ, nat_le, [], true, IfOk, IfErr, OnOk, OnErr};
ghost use Rattle.std.specs.FinMap.{is_sorted};
ghost use Rattle.sled_nodes.specs.declared.error.Error.TheVariants.{NoMemory};
ghost use Rattle.sled_nodes.specs.Order.{Key, key_cmp};
ghost use Rattle.sled_store.specs.Update.{put_name};
ghost use Rattle.sled_pages.specs.Slots.{slots_of, places_of, given_of};
ghost use Rattle.sled_store.specs.Roots.{roots_of};
ghost use Rattle.sled_pages.specs.Table.{undone, has_place, slot_given, undo_given, IsKept, AreBelow};
ghost use Rattle.sled_pages.specs.theory.Table.{TakenBack, table};
ghost use Rattle.sled_nodes.specs.Image.{root_in};
ghost use Rattle.std.specs.List.{list_all};

use super::linked::Linked;
use super::slots::{Slot, Slots};
use super::undo::Undo;
use sled_nodes::{IVec, Pid, Result, put_pair, remove_key};
use std::alloc::Global;

// Makes another the root of a name, or takes the name out.
#[tactic(auto, unfolding(sled_nodes::specs::Order::key_cmp))]
pub fn set_root(roots: &mut Vec<(IVec, Pid)>, name: IVec, root: Option<Pid>) -> Result<()>
    requires { is_sorted key_cmp roots.old.items ≡ true }
    ensures ok { OnOk result (roots_of roots.new.items ≡ put_name (roots_of roots.old.items) name root) }
    ensures err { OnErr result (roots.new.items ≡ roots.old.items) }
    ensures ascends { is_sorted key_cmp roots.new.items ≡ true }
    ensures cause { IfErr result (λ e. e ≡ NoMemory) }
{
    match root {
        Some(pid) => put_pair(roots, name, pid, true),
        None => {
            remove_key(roots, &name);
            Ok(())
        }
    }
}

// The roots of a list in order. Of one name the last entry counts.
pub fn sorted_roots(alloc: Global, list: Vec<(IVec, Pid)>) -> Result<Vec<(IVec, Pid)>>
    ensures ok { IfOk result (λ roots. (name : Key) → roots_of roots.items name ≡ root_in list.items name) }
    ensures ascends { IfOk result (λ roots. is_sorted key_cmp roots.items ≡ true) }
    ensures err { IfErr result (λ e. e ≡ NoMemory) }
{
    let mut roots = Vec::new(alloc);
    for (name, pid) in list {
        set_root(&mut roots, name, Some(pid))?;
    }
    Ok(roots)
}

// The greatest page number among roots.
pub fn greatest_root(roots: &[(IVec, Pid)]) -> u64
    ensures { list_all (λ r. nat_le r.1 result) roots.now ≡ true }
{
    let mut greatest = 0;
    for root in roots {
        greatest = root.1.0.max(greatest);
    }
    greatest
}

// Takes one action back. A page whose links change is not joined yet.
fn take_back(
    slots: &mut Slots,
    roots: &mut Vec<(IVec, Pid)>,
    in_group: &mut bool,
    undo: Undo,
) -> Result<()>
    requires placed { has_place (places_of slots.old) undo ≡ true }
    requires ascends { is_sorted key_cmp roots.old.items ≡ true }
    ensures ok { OnOk result (table (slots_of slots.new) (roots_of roots.new.items) in_group.new ≡ undone undo (table (slots_of slots.old) (roots_of roots.old.items) in_group.old)) }
    ensures places { places_of slots.new ≡ places_of slots.old }
    ensures given { given_of slots.new ≡ given_of slots.old }
    ensures ascends { is_sorted key_cmp roots.new.items ≡ true }
    ensures below { (next : ℕ) → ((p : ℕ) → slot_given next (slots_of slots.old p) ≡ true) → undo_given next undo ≡ true → (p : ℕ) → slot_given next (slots_of slots.new p) ≡ true }
    ensures cause { IfErr result (λ e. e ≡ NoMemory) }
{
    match undo {
        Undo::UndoSlot(pid, slot) => {
            let now = slots.put(pid, slot);
            drop(now);
            Ok(())
        }
        Undo::UndoLink(pid, version) => {
            slots.unlink(pid, version);
            Ok(())
        }
        Undo::UndoFold(pid, version, under) => {
            let page = Linked::of(under)?;
            let now = slots.put(pid, Some(Slot { version, page }));
            drop(now);
            Ok(())
        }
        Undo::UndoRoot(name, root) => set_root(roots, name, root),
        Undo::UndoGroup(was_open) => {
            *in_group = was_open;
            Ok(())
        }
    }
}

// Takes actions back, down to this number of them, and further until no group is open.
pub fn take_all_back(
    slots: &mut Slots,
    roots: &mut Vec<(IVec, Pid)>,
    in_group: &mut bool,
    log: &mut Vec<Undo>,
    keep: usize,
) -> Result<()>
    requires kept { IsKept (places_of slots.old) (table (slots_of slots.old) (roots_of roots.old.items) in_group.old) log.old.items }
    requires ascends { is_sorted key_cmp roots.old.items ≡ true }
    ensures ok { OnOk result (TakenBack keep (table (slots_of slots.old) (roots_of roots.old.items) in_group.old) log.old.items (table (slots_of slots.new) (roots_of roots.new.items) in_group.new) log.new.items) }
    ensures places { places_of slots.new ≡ places_of slots.old }
    ensures given { given_of slots.new ≡ given_of slots.old }
    ensures ascends { is_sorted key_cmp roots.new.items ≡ true }
    ensures below { OnOk result ((next : ℕ) → AreBelow next (slots_of slots.old) log.old.items → AreBelow next (slots_of slots.new) log.new.items) }
    ensures cause { IfErr result (λ e. e ≡ NoMemory) }
{
    while log.len() > keep || *in_group {
        match log.pop() {
            Some(undo) => take_back(slots, roots, in_group, undo)?,
            None => return Ok(()),
        }
    }
    Ok(())
}

// The pages whose links a log changes.
pub fn linked_pages(alloc: Global, log: &[Undo]) -> Result<Vec<Pid>>
    ensures err { IfErr result (λ e. e ≡ NoMemory) }
{
    let mut pages = Vec::new(alloc);
    for undo in log {
        match undo {
            Undo::UndoLink(pid, _) => pages.push(*pid)?,
            Undo::UndoFold(pid, _, _) => pages.push(*pid)?,
            _ => {}
        }
    }
    Ok(pages)
}

// Joins those of these pages that are not joined, each of them once. Refused with `NoMemory` alone.
pub fn join_all(alloc: Global, slots: &mut Slots, pages: &[Pid]) -> Result<()>
    ensures slots { slots_of slots.new ≡ slots_of slots.old }
    ensures places { places_of slots.new ≡ places_of slots.old }
    ensures given { given_of slots.new ≡ given_of slots.old }
    ensures err { IfErr result (λ e. e ≡ NoMemory) }
{
    for pid in pages {
        slots.join(alloc, *pid)?;
    }
    Ok(())
}

// Empties a log: what it would have taken back stays done, and so the places of pages that were freed can go.
pub fn settle(alloc: Global, slots: &mut Slots, log: &mut Vec<Undo>)
    ensures slots { slots_of slots.new ≡ slots_of slots.old }
    ensures given { given_of slots.new ≡ given_of slots.old }
    ensures log { log.new.items ≡ [] }
{
    for undo in log.iter() {
        if let Undo::UndoSlot(pid, Some(_)) = undo {
            slots.let_go(alloc, *pid);
        }
    }
    log.clear();
}
