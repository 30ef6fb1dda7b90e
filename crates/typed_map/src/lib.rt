//! A map from keys of a type to values of a type, in a tree of a database.
//!
//! Both types are the user's own. Each has the trait `Spelled`, which says how a value is spelled as a byte string, and proves that the
//! bytes are in the order of the values and that no two values are spelled alike. `u64` and `IVec` have it. A type of several parts, as a
//! station and an hour, is spelled by `ordered_keys`, and so are its laws (`by_parts` of `specs/Typed`); `Reading` of `example_databases` is one.
//!
//! ```
//! put(&mut db, &tree, &7u64, &value)?;
//! let found: TypedResult<Option<IVec>> = look_up(&db, &tree, &7u64);
//! ```
//!
//! The contracts speak of the entries of a tree that has nothing else (`Puts`, `LooksUp`, `Walks`), and of bytes, whatever it has (`IsPut`,
//! `HasBytes`, `HasPairs`).
#![tactic(auto)]

mod pairs;
mod spelled;
mod typed;

pub use pairs::all_of;
pub use spelled::Spelled;
pub use typed::{TypedError, TypedResult, look_up, put, walk};
