//! Numbers in eight bytes, the highest first.
ghost use Rattle.std.specs.Prelude.{◌≡◌, ◌≢◌, ℕ, ◌++◌, List, OnOk, IfErr, IfSome, IfNone};
ghost use Rattle.sled_nodes.specs.declared.error.Error.TheVariants.{NoMemory};
ghost use Rattle.ordered_keys.specs.Keys.{spelled_number};

use sled_nodes::Result;

/// Adds a number at the end: eight bytes, the highest first. Refused with `NoMemory` alone, and nothing is added then.
///
/// ```
/// let mut prefix = Vec::new(alloc);
/// push_number(&mut prefix, 7)?; // All keys whose first part is 7 begin so.
/// ```
#[tactic(auto, unfolding(crate::specs::Keys::spelled_number))]
pub fn push_number(out: &mut Vec<u8>, number: u64) -> Result<()>
    ensures ok { OnOk result (out.new.items ≡ out.old.items ++ spelled_number number) }
    ensures err { IfErr result (λ e. (e ≡ NoMemory) × (out.new.items ≡ out.old.items)) }
{
    out.extend_from_slice(&number.to_be_bytes())?;
    Ok(())
}

/// Reads the number that the bytes begin with, and what follows it. `None` if there are fewer than eight bytes, so that
/// they begin with no number.
///
/// ```
/// if let Some((number, rest)) = read_number(key.as_ref()) {
///     // `rest` has the parts behind it.
/// }
/// ```
#[tactic(auto, unfolding(crate::specs::Keys::spelled_number))]
pub fn read_number(bytes: &[u8]) -> Option<(u64, &[u8])>
    ensures some { IfSome result (λ found. bytes.now ≡ spelled_number found.0 ++ found.1.now) }
    ensures none { IfNone result ((n : ℕ) (rest : List ℕ) → bytes.now ≢ spelled_number n ++ rest) }
{
    let (front, rest) = bytes.split_first_chunk::<8>()?;
    Some((u64::from_be_bytes(*front), rest))
}
