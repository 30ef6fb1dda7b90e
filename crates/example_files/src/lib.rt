//! Callers of a database in two files that are proved from public contracts alone. `reopening` opens what a crash left of the files,
//! `recovery` makes steps, crashes and opens, and `paths` says what is found in a folder.
#![tactic(auto)]

mod lost;
mod paths;
mod recovery;
mod reopening;

pub use lost::Lost;
pub use paths::{law_found_maps, law_found_maps_once};
pub use recovery::survive;
pub use reopening::{reopen, reopen_db, reopen_pages};
