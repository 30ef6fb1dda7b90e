//! Texts, which are byte strings of any length, spelled so that none begins another.
ghost use Rattle.std.specs.Prelude.{◌≡◌, ◌≢◌, ℕ, ◌++◌, Option, take, length, OnOk, IfOk, IfErr, IfSome, IfNone};
ghost use Rattle.sled_nodes.specs.declared.error.Error.TheVariants.{NoMemory};
ghost use Rattle.sled_nodes.specs.Order.{Key};
ghost use Rattle.ordered_keys.specs.Keys.{spelled_byte, spelled_text};
ghost use Rattle.ordered_keys.specs.theory.Keys.{spelled_piece};

use sled_nodes::{IVec, Result};
use std::alloc::Global;

// Adds a byte of a text. Refused with `NoMemory` alone, and nothing is added then.
fn push_byte(out: &mut Vec<u8>, byte: u8) -> Result<()>
    ensures ok { OnOk result (out.new.items ≡ out.old.items ++ spelled_byte byte) }
    ensures err { IfErr result (λ e. (e ≡ NoMemory) × (out.new.items ≡ out.old.items)) }
{
    match byte {
        0 => out.extend_from_slice(&[0, 255])?,
        _ => out.push(byte)?,
    }
    Ok(())
}

// Adds a text. Refused with `NoMemory` alone, and a beginning of the text may have been added then, behind the bytes before.
fn push_pieces(out: &mut Vec<u8>, text: &[u8]) -> Result<()>
    ensures ok { OnOk result (out.new.items ≡ out.old.items ++ spelled_text text.now) }
    ensures err { IfErr result (λ e. (e ≡ NoMemory) × (take (length out.old.items) out.new.items ≡ out.old.items)) }
{
    'bytes: for byte in text {
        push_byte(out, *byte)?;
    }
    out.extend_from_slice(&[0, 0])?;
    Ok(())
}

/// Adds a text at the end: its bytes, each 0 as 0, 255, and then 0, 0. Refused with `NoMemory` alone, and nothing is added
/// then.
///
/// ```
/// let mut prefix = Vec::new(alloc);
/// push_text(&mut prefix, b"ulm")?; // All keys whose first part is `ulm`, and not those of `ulmer`.
/// ```
pub fn push_text(out: &mut Vec<u8>, text: &[u8]) -> Result<()>
    ensures ok { OnOk result (out.new.items ≡ out.old.items ++ spelled_text text.now) }
    ensures err { IfErr result (λ e. (e ≡ NoMemory) × (out.new.items ≡ out.old.items)) }
{
    let len = out.len();
    if let Err(error) = push_pieces(out, text) {
        out.truncate(len);
        return Err(error);
    }
    Ok(())
}

// The byte that a spelled text begins with, or none for its end, and what follows it. `None` if it begins with neither.
fn first_piece(bytes: &[u8]) -> Option<(Option<u8>, &[u8])>
    ensures some { IfSome result (λ found. bytes.now ≡ spelled_piece found.0 ++ found.1.now) }
    ensures none { IfNone result ((piece : Option ℕ) (rest : Key) → bytes.now ≢ spelled_piece piece ++ rest) }
{
    match bytes {
        [0, 0, rest @ ..] => Some((None, rest)),
        [0, 255, rest @ ..] => Some((Some(0), rest)),
        [0, ..] | [] => None,
        [byte, rest @ ..] => Some((Some(*byte), rest)),
    }
}

/// Reads the text that the bytes begin with, and what follows it. `Ok(None)` if they begin with no text: when 0, 0 is nowhere, or a 0
/// before it that has no 255 behind it. Refused with `NoMemory` alone.
///
/// ```
/// if let Some((text, rest)) = read_text(alloc, key.as_ref())? {
///     // `rest` has the parts behind it.
/// }
/// ```
pub fn read_text(alloc: Global, bytes: &[u8]) -> Result<Option<(IVec, &[u8])>>
    ensures some { IfOk result (λ found. IfSome found (λ f. bytes.now ≡ spelled_text f.0 ++ f.1.now)) }
    ensures none { IfOk result (λ found. IfNone found ((text rest : Key) → bytes.now ≢ spelled_text text ++ rest)) }
    ensures err { IfErr result (λ e. e ≡ NoMemory) }
{
    let mut text = Vec::new(alloc);
    let mut rest = bytes;
    'pieces: while let Some((piece, others)) = first_piece(rest) {
        let Some(byte) = piece else {
            return Ok(Some((IVec::from_slice(alloc, text.as_slice())?, others)));
        };
        text.push(byte)?;
        rest = others;
    }
    Ok(None)
}
