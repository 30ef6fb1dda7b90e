//! Groups of writes over the pages of trees.
//!
//! A group is begun, its writes are made one after the other, repairs included, and then it is sealed: a crash leaves all of it or
//! nothing. What a write does is stated over the pages alone, at every forest that shows them well formed (`specs/Writes`). Whose
//! trees they are, and who subscribes to them, is the caller's.
#![tactic(auto)]

mod group;
mod key_write;
mod leaf;

pub use group::{law_group, write, write_group};
pub use key_write::KeyWrite;
pub use leaf::is_settled;
