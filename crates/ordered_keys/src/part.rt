//! Parts, and keys of them.
ghost use Rattle.std.specs.Prelude.{◌≡◌, ◌≢◌, ◌++◌, List, OnOk, IfOk, IfErr, IfSome, IfNone};
ghost use Rattle.sled_nodes.specs.declared.error.Error.TheVariants.{NoMemory};
ghost use Rattle.sled_nodes.specs.Order.{Key};
ghost use Rattle.ordered_keys.specs.declared.part.Part.{Part};
ghost use Rattle.ordered_keys.specs.Keys.{spelled_part, spelled, IsOfKind, HasShape};

use crate::number::{push_number, read_number};
use crate::text::{push_text, read_text};
use sled_nodes::{IVec, Result};
use std::alloc::Global;

/// What a part is. The kinds of the parts of a key, in order, are its shape.
#[derive(Clone, Copy)]
pub enum Kind {
    /// A number of 64 bits.
    Number,
    /// A byte string of any length, as a name.
    Text,
}

/// One part of a key.
#[derive(Drop)]
pub enum Part {
    /// A number, whose order is by size.
    Number(u64),
    /// A byte string, whose order is by its bytes.
    Text(IVec),
}

/// Adds a part at the end. Refused with `NoMemory` alone, and nothing is added then.
///
/// ```
/// let mut key = Vec::new(alloc);
/// push_part(&mut key, &Part::Number(7))?;
/// ```
pub fn push_part(out: &mut Vec<u8>, part: &Part) -> Result<()>
    ensures ok { OnOk result (out.new.items ≡ out.old.items ++ spelled_part part.now) }
    ensures err { IfErr result (λ e. (e ≡ NoMemory) × (out.new.items ≡ out.old.items)) }
{
    match part {
        Part::Number(number) => push_number(out, *number),
        Part::Text(text) => push_text(out, text.as_ref()),
    }
}

/// The key of these parts. Refused with `NoMemory` alone.
///
/// ```
/// let name = IVec::from_slice(alloc, b"ulm")?;
/// let key = key_of(alloc, &[Part::Number(7), Part::Text(name)])?;
/// ```
pub fn key_of(alloc: Global, parts: &[Part]) -> Result<IVec>
    ensures ok { IfOk result (λ key. key ≡ spelled parts.now) }
    ensures err { IfErr result (λ e. e ≡ NoMemory) }
{
    let mut bytes = Vec::new(alloc);
    'parts: for part in parts {
        push_part(&mut bytes, part)?;
    }
    IVec::from_slice(alloc, bytes.as_slice())
}

/// Reads a part of this kind, which the bytes begin with, and what follows it. `Ok(None)` if they begin with none. Refused with
/// `NoMemory` alone.
///
/// ```
/// let first = read_part(alloc, Kind::Number, key.as_ref())?; // `Some`, of a part and what follows it.
/// ```
pub fn read_part(alloc: Global, kind: Kind, bytes: &[u8]) -> Result<Option<(Part, &[u8])>>
    ensures some { IfOk result (λ found. IfSome found (λ f. IsOfKind kind f.0 × (bytes.now ≡ spelled_part f.0 ++ f.1.now))) }
    ensures none { IfOk result (λ found. IfNone found ((part : Part) (rest : Key) → IsOfKind kind part → bytes.now ≢ spelled_part part ++ rest)) }
    ensures err { IfErr result (λ e. e ≡ NoMemory) }
{
    match kind {
        Kind::Number => match read_number(bytes) {
            Some((number, rest)) => Ok(Some((Part::Number(number), rest))),
            None => Ok(None),
        },
        Kind::Text => match read_text(alloc, bytes)? {
            Some((text, rest)) => Ok(Some((Part::Text(text), rest))),
            None => Ok(None),
        },
    }
}

/// The parts of a key of this shape. `Ok(None)` if the bytes are no key of the shape. Refused with `NoMemory` alone.
///
/// ```
/// let parts = parts_of(alloc, &[Kind::Number, Kind::Text], key.as_ref())?;
/// ```
pub fn parts_of(alloc: Global, shape: &[Kind], key: &[u8]) -> Result<Option<Vec<Part>>>
    ensures some { IfOk result (λ found. IfSome found (λ parts. HasShape shape.now parts.items × (key.now ≡ spelled parts.items))) }
    ensures none { IfOk result (λ found. IfNone found ((parts : List Part) → HasShape shape.now parts → key.now ≢ spelled parts)) }
    ensures err { IfErr result (λ e. e ≡ NoMemory) }
{
    let mut parts = Vec::new(alloc);
    let mut rest = key;
    'kinds: for kind in shape {
        let Some((part, others)) = read_part(alloc, *kind, rest)? else {
            return Ok(None);
        };
        parts.push(part)?;
        rest = others;
    }
    if rest.is_empty() {
        Ok(Some(parts))
    } else {
        Ok(None)
    }
}
