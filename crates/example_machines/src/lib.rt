//! Callers of a machine that are proved from public contracts alone, as a user would write them: what those contracts say is enough to
//! build on. `callers` are examples of calls in flight, `recovery` of a crash, and `ids` of runs with crashes between them. `events` keeps
//! streams of events in trees that are opened by name, at ids that rise as those of a machine do.
#![tactic(auto)]

mod callers;
mod events;
mod ids;
mod recovery;

pub use callers::{
    crash, get, get_in_new, insert_then_get, insert_then_get_in_new, race, reopen, reopen_then_get,
};
pub use events::{append, open_stream, read_from};
pub use ids::{law_ids, run_twice};
pub use recovery::survive;
