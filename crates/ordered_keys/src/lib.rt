//! Keys of several parts, as numbers and texts, spelled as bytes whose order is that of the parts.
//!
//! A map's keys are byte strings in the order of their bytes. An index wants keys as a city and then a number, an event
//! store a stream and then an id. The kinds of the parts are the shape of an index, and all its keys have it:
//!
//! ```
//! // The key of number 7 in Ulm.
//! let mut key = Vec::new(alloc);
//! push_text(&mut key, b"Ulm")?;
//! push_number(&mut key, 7)?;
//!
//! // All keys of Ulm begin with these bytes, and no others do; they lie in the order of their numbers.
//! let mut city = Vec::new(alloc);
//! push_text(&mut city, b"Ulm")?;
//!
//! // What was spelled is read again.
//! let parts = parts_of(alloc, &[Kind::Text, Kind::Number], key.as_slice())?;
//! ```
//!
//! A number is eight bytes, the highest first. A text is its bytes, each 0 as 0, 255, and then 0, 0: so the end of a text is
//! less than each byte of a longer one, and no text begins another (`specs/Keys`). The laws are `law_order`, `law_one_to_one`
//! and `law_prefixes`.
#![tactic(auto)]

mod laws;
mod number;
mod part;
mod text;

pub use laws::{law_one_to_one, law_order, law_prefixes};
pub use number::{push_number, read_number};
pub use part::{Kind, Part, key_of, parts_of, push_part, read_part};
pub use text::{push_text, read_text};
