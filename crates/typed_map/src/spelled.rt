//! Types whose values are spelled as byte strings, which keep their order.
ghost use Rattle.std.specs.Prelude.{◌≡◌, ◌≢◌, [], ◌∷◌, IfOk, IfErr, IfSome, IfNone};
ghost use Rattle.sled_nodes.specs.Order.{key_cmp};
ghost use Rattle.sled_nodes.specs.declared.error.Error.TheVariants.{NoMemory};
ghost use Rattle.ordered_keys.specs.declared.part.Part.TheVariants as part;
ghost use Rattle.typed_map.specs.Typed.{Spelling};

use ordered_keys::{Kind, Part, key_of, parts_of};
use sled_nodes::{IVec, Result};
use std::alloc::Global;

/// A type whose values are spelled as byte strings, which keep their order.
pub trait Spelled: Drop {
    /// What a value of the type is, its bytes, and the order of the values.
    ghost spelling: { Spelling Self };

    /// The bytes of a value. Refused with `NoMemory` alone.
    fn spell(&self, alloc: Global) -> Result<IVec>
        ensures ok { IfOk result (λ made. made ≡ spelling.bytes self.now) }
        ensures err { IfErr result (λ e. e ≡ NoMemory) }
        ensures is_value { spelling.is_value self.now };

    /// The value that these bytes spell, or `None` if they spell none. Refused with `NoMemory` alone.
    fn read(alloc: Global, bytes: &[u8]) -> Result<Option<Self>>
        ensures some { IfOk result (λ found. IfSome found (λ x. spelling.is_value x × (bytes.now ≡ spelling.bytes x))) }
        ensures none { IfOk result (λ found. IfNone found ((x : Self) → spelling.is_value x → bytes.now ≢ spelling.bytes x)) }
        ensures err { IfErr result (λ e. e ≡ NoMemory) };

    /// The order of the bytes is that of the values.
    ghost keeps_order: { (a b : Self) → spelling.is_value a → spelling.is_value b → key_cmp (spelling.bytes a) (spelling.bytes b) ≡ spelling.order a b };

    /// No two values are spelled alike.
    ghost one_to_one: { (a b : Self) → spelling.is_value a → spelling.is_value b → spelling.bytes a ≡ spelling.bytes b → a ≡ b };
}

impl Spelled for u64 {
    ghost use Rattle.typed_map.specs.Typed.{by_parts};
    ghost use Rattle.ordered_keys.specs.declared.part.Kind.TheVariants as kind;
    ghost use Rattle.typed_map.specs.theory.Spelling.{number_order, number_apart};

    ghost spelling = { by_parts (kind.Number ∷ []) (λ n. part.Number n ∷ []) };

    fn spell(&self, alloc: Global) -> Result<IVec> {
        key_of(alloc, &[Part::Number(*self)])
    }

    fn read(alloc: Global, bytes: &[u8]) -> Result<Option<u64>> {
        let Some(mut parts) = parts_of(alloc, &[Kind::Number], bytes)? else {
            return Ok(None);
        };
        let number = parts.pop();
        drop(parts);
        match number {
            Some(Part::Number(number)) => Ok(Some(number)),
            _ => unreachable!(),
        }
    }

    ghost keeps_order = { number_order };

    ghost one_to_one = { number_apart };
}

// A byte string is spelled as it is.
impl Spelled for IVec {
    ghost use Rattle.std.specs.Prelude.{refl};
    ghost use Rattle.typed_map.specs.Typed.{as_it_is};

    ghost spelling = { as_it_is };

    fn spell(&self, alloc: Global) -> Result<IVec> {
        IVec::from_slice(alloc, self.as_ref())
    }

    fn read(alloc: Global, bytes: &[u8]) -> Result<Option<IVec>> {
        Ok(Some(IVec::from_slice(alloc, bytes)?))
    }

    ghost keeps_order = { λ a b i j. refl };

    ghost one_to_one = { λ a b i j e. e };
}
