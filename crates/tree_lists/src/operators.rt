//! The merge operators of the trees, in a list with the number of the tree beside each. It is as long as there are trees that have one.
ghost use Rattle.std.specs.Prelude.{◌≡◌, not, nat_eq, filter, IfErr, OnOk, OnErr};
ghost use Rattle.std.specs.FinMap.Entries.{find};
ghost use Rattle.std.specs.Ordering.{nat_cmp};
ghost use Rattle.std.specs.Option.{option_copied};
ghost use Rattle.sled_nodes.specs.declared.error.Error.TheVariants.{NoMemory};
ghost use Rattle.tree_lists.specs.theory.Operators.{with_operator, place};

use sled_model::MergeOperator;
use sled_nodes::Result;

/// The operator of the tree of this number.
pub fn operator_of<M>(operators: &[(u64, M)], number: u64) -> Option<&M>
    ensures { option_copied result ≡ find nat_cmp number operators.now }
{
    for operator in operators {
        if number.cmp(&operator.0).is_eq() {
            return Some(&operator.1);
        }
    }
    None
}

// The place of the tree of this number in the list; if it has none, the list's end.
fn place_of_number<M>(operators: &[(u64, M)], number: u64) -> usize
    ensures { result ≡ place number operators.now }
{
    for i in 0..operators.len() {
        if number.cmp(&operators[i].0).is_eq() {
            return i;
        }
    }
    operators.len()
}

/// Gives the tree of this number an operator in place of the one that it has. Refused for want of memory alone.
pub fn set_operator<M: Drop>(operators: &mut Vec<(u64, M)>, number: u64, operator: M) -> Result<()>
    ensures ok { OnOk result (operators.new.items ≡ with_operator number operator operators.old.items) }
    ensures same { OnErr result (operators.new.items ≡ operators.old.items) }
    ensures err { IfErr result (λ e. e ≡ NoMemory) }
{
    let i = place_of_number(operators.as_slice(), number);
    if i < operators.len() {
        let old = std::mem::replace(&mut operators[i], (number, operator));
        drop(old);
        return Ok(());
    }
    operators.push((number, operator))?;
    Ok(())
}

/// Takes the operator of a tree out, if it has one.
pub fn take_operator<M: MergeOperator>(operators: &mut Vec<(u64, M)>, number: u64)
    ensures { operators.new.items ≡ filter (λ o. not (nat_eq o.0 number)) operators.old.items }
{
    operators.retain(|operator| operator.0 != number);
}
