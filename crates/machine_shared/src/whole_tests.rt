//! The tests that come before a whole call, without the call.
ghost use Rattle.std.specs.Prelude.{◌≡◌, true, All, [], ◌∷◌, None};
ghost use Rattle.sled_model.specs.Refusal.{must_refuse_of, trees_of_batches};
ghost use Rattle.sled.specs.Values.{db_state};
ghost use Rattle.machine_shared.specs.WholeNotes.{whole_test};

use machine_alone::Machine;
use sled_batch::Batch;
use sled_model::{MergeOperator, Tree, Whole};
use sled_store::Pages;

// Whether the database is open.
pub(crate) fn is_open<P: Pages, M: MergeOperator>(machine: &Machine<P, M>) -> bool
    ensures { result ≡ (db_state P.store M.meant machine.now.db).is_open }
{
    !machine.db().pages().in_group()
}

// .. and nothing else is tested.
#[tactic(auto, using(crate::proofs::WholeTests::open_passes, sled::proofs::Grouped::tested_open))]
fn passes<P: Pages, M: MergeOperator>(machine: &Machine<P, M>) -> bool
    ensures yes { result ≡ true → must_refuse_of (db_state P.store M.meant machine.now.db) [] ≡ None }
    ensures no { must_refuse_of (db_state P.store M.meant machine.now.db) [] ≡ None → result ≡ true }
{
    is_open(machine)
}

// Whether the tree passes the tests.
fn passes_on<P: Pages, M: MergeOperator>(machine: &Machine<P, M>, tree: &Tree) -> bool
    ensures yes { result ≡ true → must_refuse_of (db_state P.store M.meant machine.now.db) (tree.now ∷ []) ≡ None }
    ensures no { must_refuse_of (db_state P.store M.meant machine.now.db) (tree.now ∷ []) ≡ None → result ≡ true }
{
    match machine.db().check(tree) {
        Ok(()) => true,
        Err(e) => {
            drop(e);
            false
        }
    }
}

// Whether the tree of each batch does.
fn passes_on_each<P: Pages, M: MergeOperator>(
    machine: &Machine<P, M>,
    batches: &[(Tree, Batch)],
) -> bool
    ensures yes { result ≡ true → All (λ b. must_refuse_of (db_state P.store M.meant machine.now.db) (b.0 ∷ []) ≡ None) batches.now }
    ensures no { All (λ b. must_refuse_of (db_state P.store M.meant machine.now.db) (b.0 ∷ []) ≡ None) batches.now → result ≡ true }
{
    for batch in batches {
        if !passes_on(machine, &batch.0) {
            return false;
        }
    }
    true
}

// Whether the trees of all batches pass the tests together. If each does alone they do, on a database that is open.
fn passes_on_all<P: Pages, M: MergeOperator>(
    machine: &Machine<P, M>,
    batches: &[(Tree, Batch)],
) -> bool
    ensures yes { result ≡ true → must_refuse_of (db_state P.store M.meant machine.now.db) (trees_of_batches batches.now) ≡ None }
    ensures no { must_refuse_of (db_state P.store M.meant machine.now.db) (trees_of_batches batches.now) ≡ None → result ≡ true }
{
    is_open(machine) && passes_on_each(machine, batches)
}

// Whether the whole call passes its tests.
#[tactic(auto, using(crate::proofs::WholeTests::test_of, crate::proofs::WholeTests::of_test))]
pub(crate) fn passes_whole<P: Pages, M: MergeOperator>(
    machine: &Machine<P, M>,
    whole: &Whole,
) -> bool
    ensures yes { result ≡ true → whole_test (db_state P.store M.meant machine.now.db) whole.now ≡ None }
    ensures no { whole_test (db_state P.store M.meant machine.now.db) whole.now ≡ None → result ≡ true }
{
    match whole {
        Whole::PopMin(tree) => passes_on(machine, tree),
        Whole::PopMax(tree) => passes_on(machine, tree),
        Whole::Clear(tree) => passes_on(machine, tree),
        Whole::Watch(tree, _) => passes_on(machine, tree),
        Whole::Group(batches) => passes_on_all(machine, batches.as_slice()),
        Whole::Next(_) => true,
        Whole::Unsubscribe(_) => true,
        Whole::Flush => passes(machine),
        Whole::OpenTree(_) => passes(machine),
        Whole::DropTree(_) => passes(machine),
        Whole::GenerateId => passes(machine),
        Whole::Import(_) => passes(machine),
    }
}
