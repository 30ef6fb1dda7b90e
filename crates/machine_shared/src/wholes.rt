//! Whole calls that are noted, over the parts of a state.
ghost use Rattle.std.specs.Prelude.{◌≡◌, ◌≢◌, ◌<◌, ◌++◌, [], None, IfOk, IfSome, vec_len, vec_capacity};
ghost use Rattle.sled_model.specs.declared.outcome.Step.TheVariants as step;
ghost use Rattle.sled.specs.Values.{db_state};
ghost use Rattle.machine_alone.specs.Kept.{kept_of_whole, CountsParts};
ghost use Rattle.machine_alone.specs.Step.{MachineStepContract};
ghost use Rattle.machine_shared.specs.Made.{WholeMade, made_value, whole_value};
ghost use Rattle.machine_shared.specs.theory.Noting.{first_noted, second_noted};
ghost use Rattle.machine_shared.specs.WholeNotes.{ComesToWhole, DoesWhole, noted_with, whole_test};

use crate::entry::{Entry, Made};
use crate::noting::make_room;
use crate::whole_tests::passes_whole;
use machine_alone::Machine;
use sled_model::{MergeOperator, Outcome, Reply, Whole};
use sled_nodes::{Error, Result};
use sled_store::Pages;

// The same call.
#[tactic(auto, using(crate::proofs::WholeTests::same_whole_value))]
fn copy_of(whole: &Whole) -> Result<Whole>
    ensures { IfOk result (λ copy. whole_value copy ≡ whole_value whole.now) }
{
    whole.clone()
}

// The same call, twice.
fn copies_of(whole: &Whole) -> Result<(Whole, Whole)>
    ensures first { IfOk result (λ both. whole_value both.0 ≡ whole_value whole.now) }
    ensures second { IfOk result (λ both. whole_value both.1 ≡ whole_value whole.now) }
{
    let first = copy_of(whole)?;
    match copy_of(whole) {
        Ok(second) => Ok((first, second)),
        Err(e) => {
            drop(first);
            Err(e)
        }
    }
}

// The same call, twice, and room for one more in both lists.
fn room_and_copies(
    history: &mut Vec<Entry>,
    made: &mut Vec<Made>,
    whole: &Whole,
) -> Option<(Whole, Whole)>
    ensures first { IfSome result (λ both. whole_value both.0 ≡ whole_value whole.now) }
    ensures second { IfSome result (λ both. whole_value both.1 ≡ whole_value whole.now) }
    ensures history { history.new.items ≡ history.old.items }
    ensures made { made.new.items ≡ made.old.items }
    ensures room { IfSome result (λ both. vec_len history.new < vec_capacity history.new) }
    ensures room_there { IfSome result (λ both. vec_len made.new < vec_capacity made.new) }
{
    if !make_room(history, made) {
        return None;
    }
    copies_of(whole).ok()
}

// A decided call with its reply, twice.
fn twice(both: (Whole, Whole), one: Reply, two: Reply) -> (Made, Made)
    requires calls { whole_value both.1 ≡ whole_value both.0 }
    requires replies { two ≡ one }
    ensures first { made_value result.0 ≡ WholeMade (whole_value both.0) one }
    ensures second { made_value result.1 ≡ WholeMade (whole_value both.0) one }
{
    let (first, second) = both;
    (Made::Whole(first, one), Made::Whole(second, two))
}

// Parts of a call that was refused, twice, if there are any.
#[tactic(auto, using(crate::proofs::WholeTests::some_parts, crate::proofs::WholeTests::no_parts))]
fn parts_twice(both: (Whole, Whole), number: u64) -> Option<(Made, Made)>
    requires { whole_value both.1 ≡ whole_value both.0 }
    ensures first { first_noted result ≡ noted_with (whole_value both.0) None number }
    ensures second { second_noted result ≡ noted_with (whole_value both.0) None number }
{
    if number == 0 {
        drop(both);
        return None;
    }
    let (first, second) = both;
    Some((Made::Parts(first, number), Made::Parts(second, number)))
}

// What is to be noted of a whole call, twice.
fn to_note(both: (Whole, Whole), kept: Option<(Reply, Reply)>, number: u64) -> Option<(Made, Made)>
    requires calls { whole_value both.1 ≡ whole_value both.0 }
    requires replies { IfSome kept (λ k. k.1 ≡ k.0) }
    ensures first { first_noted result ≡ noted_with (whole_value both.0) kept number }
    ensures second { second_noted result ≡ noted_with (whole_value both.0) kept number }
{
    match kept {
        Some((one, two)) => Some(twice(both, one, two)),
        None => parts_twice(both, number),
    }
}

// A whole call, with two copies of its reply, which are the same, and the number of its parts.
fn whole_kept<P: Pages, M: MergeOperator>(
    machine: &mut Machine<P, M>,
    whole: Whole,
) -> (Outcome, Option<(Reply, Reply)>, u64)
    ensures step { MachineStepContract P.store P.flush_number M.meant machine.old (step.Whole whole) result.0 machine.new }
    ensures kept { result.1 ≡ kept_of_whole whole result.0 }
    ensures parts { CountsParts P.store M.meant machine.old.db whole result.0 result.2 machine.new.db }
    ensures again { IfSome result.1 (λ k. k.1 ≡ k.0) }
{
    machine.whole_kept(whole)
}

// A whole call, with two copies of it; and what is to be noted of it, twice.
#[tactic(auto, using(crate::proofs::WholeTests::does_whole))]
fn make_whole<P: Pages, M: MergeOperator>(
    machine: &mut Machine<P, M>,
    whole: Whole,
    both: (Whole, Whole),
) -> (Outcome, Option<(Made, Made)>)
    requires first { whole_value both.0 ≡ whole_value whole }
    requires second { whole_value both.1 ≡ whole_value whole }
    ensures does { DoesWhole P.store P.flush_number M.meant machine.old whole result.0 machine.new (first_noted result.1) }
    ensures again { second_noted result.1 ≡ first_noted result.1 }
{
    let (outcome, kept, number) = whole_kept(machine, whole);
    let noted = to_note(both, kept, number);
    (outcome, noted)
}

// A whole call that a test refuses.
fn refuse_tested<P: Pages, M: MergeOperator>(machine: &mut Machine<P, M>, whole: Whole) -> Outcome
    requires { whole_test (db_state P.store M.meant machine.old.db) whole ≢ None }
    ensures { ComesToWhole P.store P.flush_number M.meant machine.old whole result machine.new [] }
{
    machine.whole(whole)
}

// A whole call that cannot be noted for want of memory: it is refused by a test, if it would be, and else for want of memory. It does
// nothing.
#[tactic(auto, using(crate::proofs::WholeTests::unnoted))]
fn refuse_whole<P: Pages, M: MergeOperator>(machine: &mut Machine<P, M>, whole: Whole) -> Outcome
    ensures { ComesToWhole P.store P.flush_number M.meant machine.old whole result machine.new [] }
{
    if passes_whole(machine, &whole) {
        drop(whole);
        Outcome::Refused(Error::NoMemory)
    } else {
        refuse_tested(machine, whole)
    }
}

// A whole call, and what is to be noted of it, twice, with room for it in both lists. Room and copies are made before the call, and want
// of memory for them refuses it.
pub(crate) fn whole_noting<P: Pages, M: MergeOperator>(
    machine: &mut Machine<P, M>,
    history: &mut Vec<Entry>,
    made: &mut Vec<Made>,
    whole: Whole,
) -> (Outcome, Option<(Made, Made)>)
    ensures comes { ComesToWhole P.store P.flush_number M.meant machine.old whole result.0 machine.new (first_noted result.1) }
    ensures again { second_noted result.1 ≡ first_noted result.1 }
    ensures history { history.new.items ≡ history.old.items }
    ensures made { made.new.items ≡ made.old.items }
    ensures room { IfSome result.1 (λ both. vec_len history.new < vec_capacity history.new) }
    ensures room_there { IfSome result.1 (λ both. vec_len made.new < vec_capacity made.new) }
{
    match room_and_copies(history, made, &whole) {
        Some(both) => make_whole(machine, whole, both),
        None => (refuse_whole(machine, whole), None),
    }
}
