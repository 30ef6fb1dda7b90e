//! Why a database is not opened in a folder.
ghost use Rattle.std.specs.Prelude.{Bool};
ghost use Rattle.sled_store.specs.Store.{Store};
ghost use Rattle.sled_files.specs.Files.{Files};
ghost use Rattle.sled_files.specs.Opening.{is_fault, is_why_closed as is_why_unfiled};
ghost use Rattle.sled_host.specs.Host.{bytes_of};
ghost use Rattle.sled_host.specs.Pair.{OpensPair, is_why_unpaired};
ghost use Rattle.sled_host.specs.declared.host.HostFile.{HostFile};
ghost use Rattle.sled_host.specs.declared.pair.Opening.{Opening};
ghost use Rattle.sled_once.specs.Once.{Once};
ghost use Rattle.sled.specs.Checked.{RefusesChecked};
ghost use Rattle.sled_path.specs.Path.{StoreIn, is_why_closed};
ghost use Rattle.sled_path.specs.Once.{AreWhole, StoreOnceIn, is_why_closed_once};

use sled_disk::DiskError;
use sled_files::DISK_FULL;
use sled_host::HostError;
use sled_nodes::{Error, Fault};
use std::fmt::{self, Display, Formatter, Write};

/// Why a database is not opened in a folder.
#[derive(Debug, Drop)]
pub enum OpenError {
    /// A file is one of something else.
    NotAStore,
    /// A file is one of a store in this format, which is another.
    OtherFormat(u32),
    /// A file was changed since it was written. The first fault that was met is at this place of it, a number of bytes.
    Decayed(u64),
    /// Another process, or another value in this one, has the database open.
    Locked,
    /// The operating system refused the folder or a file.
    Io(HostError),
    /// A file was opened, and a call of it was refused.
    Disk(DiskError),
    /// The pages are not those of a database, or there was no memory for it.
    Database(Error),
}

// Why the files of a folder were not opened.
pub(crate) fn of_host(e: HostError) -> OpenError
    ensures why { (opening : Opening) → is_why_unpaired opening e → is_why_closed opening result }
    ensures why_once { (opening : Opening) → is_why_unpaired opening e → is_why_closed_once opening result }
{
    match e {
        HostError::NoMemory => OpenError::Database(Error::NoMemory),
        HostError::Locked => OpenError::Locked,
        e => OpenError::Io(e),
    }
}

// Why no store was opened in them.
pub(crate) fn of_files(e: sled_files::OpenError) -> OpenError
    ensures why { (opening : Opening) (is_locked : Bool) (first second : HostFile) → OpensPair opening first second is_locked → is_why_unfiled e (bytes_of first) (bytes_of second) → is_why_closed opening result }
    ensures why_once { (opening : Opening) (is_locked : Bool) (first second : HostFile) → AreWhole opening is_locked first second → is_why_unfiled e (bytes_of first) (bytes_of second) → is_why_closed_once opening result }
{
    match e {
        sled_files::OpenError::NoMemory => OpenError::Database(Error::NoMemory),
        sled_files::OpenError::NotAStore => OpenError::NotAStore,
        sled_files::OpenError::OtherFormat(format) => OpenError::OtherFormat(format),
        sled_files::OpenError::Decayed(place) => OpenError::Decayed(place as u64),
        sled_files::OpenError::Disk(e) => OpenError::Disk(e),
    }
}

// Why files were not mended.
pub(crate) fn of_disk(e: DiskError) -> OpenError
    ensures { (opening : Opening) → is_why_closed_once opening result }
{
    match e {
        DiskError::NoMemory => OpenError::Database(Error::NoMemory),
        e => OpenError::Disk(e),
    }
}

// What a disk did, by the fault of the store.
fn of_fault(fault: Fault) -> DiskError
    ensures { is_fault result }
{
    if fault.0 == DISK_FULL {
        DiskError::Full
    } else {
        DiskError::Failed
    }
}

// Why no database was opened over the store. A fault of the store is one of its disks, but that its numbers are used up.
pub(crate) fn of_database(e: Error) -> OpenError
    ensures why { (opening : Opening) (is_locked : Bool) (files : Files HostFile) (store left : Store) → StoreIn opening is_locked files store → RefusesChecked store e left → is_why_closed opening result }
    ensures why_once { (opening : Opening) (is_locked : Bool) (files : Files (Once HostFile)) (store left : Store) → StoreOnceIn opening is_locked files store → RefusesChecked store e left → is_why_closed_once opening result }
{
    match e {
        Error::Io(fault) => OpenError::Disk(of_fault(fault)),
        e => OpenError::Database(e),
    }
}

impl Display for OpenError {
    fn fmt<W: Write>(&self, f: &mut Formatter<W>) -> fmt::Result {
        match self {
            OpenError::NotAStore => f.write_str("a file is not part of a store"),
            OpenError::OtherFormat(format) => write!(f, "a file is of a store in format {format}"),
            OpenError::Decayed(place) => write!(f, "a file is damaged at byte {place}"),
            OpenError::Locked => f.write_str("the database is open elsewhere"),
            OpenError::Io(e) => write!(f, "{e}"),
            OpenError::Disk(DiskError::NoMemory) => f.write_str("no memory"),
            OpenError::Disk(DiskError::Full) => f.write_str("the disk has no room"),
            OpenError::Disk(DiskError::Failed) => f.write_str("the disk failed"),
            OpenError::Database(e) => write!(f, "{e}"),
        }
    }
}

impl std::error::Error for OpenError {}
