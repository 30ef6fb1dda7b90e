//! Why what a crash left was not opened.
use sled_disk::DiskError;
use sled_files::OpenError;
use sled_nodes::Error;

/// Why what a crash left was not opened.
#[derive(Debug, Drop)]
pub enum Lost {
    /// There was no memory for the steps.
    Steps(Error),
    /// There was no memory for what the crash left.
    Crash(DiskError),
    /// The files were not opened.
    Files(OpenError),
    /// No database was opened over the store in the files.
    Database(Error),
}
