//! A database in the files of a folder.
#![tactic(auto)]

mod error;
mod once;
mod opening;

pub use error::OpenError;
pub use files_once::OneSync;
pub use once::{law_once_goes_on, open_once};
pub use opening::{law_goes_on, open, open_with};
pub use sled_disk::DiskError;
pub use sled_files::FilePages;
pub use sled_host::{HostError, HostFile, Opening};
