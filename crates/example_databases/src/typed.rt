//! Readings of stations, as keys of a typed map.
ghost use Rattle.std.specs.Prelude.{◌≡◌, ◌<◌, ◌^◌, [], ◌∷◌, IfOk, IfErr};
ghost use Rattle.sled_nodes.specs.declared.error.Error.TheVariants.{NoMemory};
ghost use Rattle.ordered_keys.specs.Keys.{spelled};
ghost use Rattle.ordered_keys.specs.declared.part.Part.TheVariants as part;

use ordered_keys::{Kind, Part, key_of, parts_of};
use sled_nodes::{IVec, Result};
use std::alloc::Global;
use typed_map::Spelled;

// The key of a text and a number.
fn text_and_number(alloc: Global, text: &IVec, number: u64) -> Result<IVec>
    ensures ok { IfOk result (λ key. key ≡ spelled (part.Text text.now ∷ part.Number number ∷ [])) }
    ensures err { IfErr result (λ e. e ≡ NoMemory) }
    ensures fits { number < 2 ^ 64 }
{
    let text = Part::Text(text.clone()?);
    key_of(alloc, &[text, Part::Number(number)])
}

/// When and where something was measured: by station, and of a station by hour.
#[derive(Drop)]
pub struct Reading {
    /// The station's name.
    pub station: IVec,
    /// Hours since the first one.
    pub hour: u64,
}

impl Spelled for Reading {
    ghost use Rattle.typed_map.specs.Typed.{by_parts};
    ghost use Rattle.ordered_keys.specs.declared.part.Kind.TheVariants as kind;
    ghost use Rattle.example_databases.specs.theory.Spelling.{reading_order, reading_apart};

    ghost spelling = { by_parts (kind.Text ∷ kind.Number ∷ []) (λ r. part.Text r.station ∷ part.Number r.hour ∷ []) };

    fn spell(&self, alloc: Global) -> Result<IVec> {
        text_and_number(alloc, &self.station, self.hour)
    }

    fn read(alloc: Global, bytes: &[u8]) -> Result<Option<Reading>> {
        let Some(mut parts) = parts_of(alloc, &[Kind::Text, Kind::Number], bytes)? else {
            return Ok(None);
        };
        let hour = parts.pop();
        let station = parts.pop();
        drop(parts);
        match (station, hour) {
            (Some(Part::Text(station)), Some(Part::Number(hour))) => {
                Ok(Some(Reading { station, hour }))
            }
            _ => unreachable!(),
        }
    }

    ghost keeps_order = { reading_order };

    ghost one_to_one = { reading_apart };
}
