//! The bytes of a node and of a change of a store, and what bytes encode.
//!
//! A number is eight bytes, the lowest first. A byte string is its length and its bytes. What may be absent has a byte before
//! it, 1 if it is there and 0 if it is not. What is one of several kinds has its kind before it, one byte: 0 for a leaf and 1
//! for an index, and from 1 on for links and changes (`specs/Spelling`). Reading is total: any bytes are a value and so many bytes
//! that it takes, or have a first flaw (`specs/Reading`). What is written is read again, and what is read has just these bytes:
//!
//! ```
//! let mut bytes = Vec::new(alloc);
//! encode_change(&Change::Begun, &mut bytes)?;
//! encode_change(&Change::Freed(pid), &mut bytes)?;
//! encode_change(&Change::Sealed, &mut bytes)?;
//! let changes = decode_changes(alloc, bytes.as_slice()); // These three.
//! ```
//!
//! `encode_node` and `encode_change` refuse nothing but for memory: all lengths and numbers of a program have 64 bits. A program that has
//! the parts of a change and lends them gets the same bytes from `encode_given`, `encode_linked` and `encode_rooted`.
#![tactic(auto)]

mod change;
mod changes;
mod fields;
mod laws;
mod links;
mod reading;
mod refusal;
mod writing;

pub use change::Change;
pub use changes::{decode_change, decode_changes};
pub use laws::{law_change, law_changes, law_node};
pub use reading::decode_node;
pub use refusal::{Flaw, Refusal};
pub use writing::{encode_change, encode_given, encode_linked, encode_node, encode_rooted};
