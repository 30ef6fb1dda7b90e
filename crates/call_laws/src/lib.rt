//! What all calls of one owner do together, as laws.
//!
//! A program that owns a database makes calls on keys, batches, transactions, fetches, flushes and the rest, one after the other. A program
//! that owns a machine over it also begins calls, steps them and abandons them in between. Each of these calls has a contract of its own.
//! Here they are the cases of one relation (`DbCall`, `MachineCall` in `specs/Calls`). It has no case for reads, which change nothing, and
//! for a plain `clear` that is refused midway (`clear_counted` has one).
//!
//! `law_record` says of any list of these calls what a machine promises of its steps. While the database is open the trees are the maps
//! that the list gives in its order. The reply of each call on a key is the map's at its place, but that a merge wrote what its operator
//! answered. What was refused changes no map, but for the parts of a clear or an import. Ids rise. A crash leaves the maps after the last
//! flush in the list, or after a later call; if the list has no flush, also what a crash might have left before it began. The list is
//! stated in the terms of a history that threads make (`machine_shared`), with one caller.
//!
//! `law_hears` says what subscribers hear over any list of these calls (`specs/Hears`), as `machine_alone` says it of steps.
//!
//! Nothing is done here: each law is a function whose contract a proof can use from its call on.
#![tactic(auto)]

mod laws;

pub use laws::{audit_opening, law_hears, law_joined, law_list, law_record, law_transaction};
