//! A caller that owns its database: it writes by direct calls, by transactions and by flushes, and says of all of them together what a
//! crash leaves and what a subscriber hears, from public contracts alone.
#![tactic(auto)]

mod owned;

pub use owned::{Written, Wrote, write_and_crash, write_and_hear};
