//! The two files of a store, in a folder: made if they are not there, locked, and opened.
ghost use Rattle.std.specs.Prelude.{◌≡◌, true, false, IfOk, IfErr, IfSome};
ghost use Rattle.sled_disk.specs.Disk.{Only};
ghost use Rattle.sled_host.specs.Host.{bytes_of, outcomes_of, faults_of, was_locked, HasNoLocks, IsUntouched, WasThere};
ghost use Rattle.sled_host.specs.Locks.{is_held};
ghost use Rattle.sled_host.specs.declared.pair.Opening.{Opening};
ghost use Rattle.sled_host.specs.declared.system.Lock.TheVariants.{Unavailable};
ghost use Rattle.sled_host.specs.Pair.{OpensPair, is_no_lock, is_why_unpaired};
ghost use Rattle.sled_host.specs.theory.Locks.{is_why_unlocked};

use crate::host::HostFile;
use crate::system::OpenFile;
use std::fmt::{self, Display, Formatter, Write};
use std::fs::{self, File, TryLockError};
use std::io::{self, ErrorKind};
use std::path::PathBuf;

/// The name of the first file.
const FIRST: &str = "log.0";

/// The name of the second file.
const SECOND: &str = "log.1";

/// How the files of a store are opened.
#[derive(Clone, Copy, Debug, PartialEq, Eq)]
pub struct Opening {
    /// Makes the folder and the files that are not there; else they are refused with `Io` of the kind `NotFound`.
    pub creates: bool,
    /// Refuses a file system without locks; else `Pair::is_locked` says so.
    pub needs_lock: bool,
}

/// The two files of a store, each of them locked as long as its value lives, if `is_locked`.
#[derive(Drop)]
pub struct Pair {
    /// `log.0` in the folder.
    pub first: HostFile,
    /// `log.1` in the folder.
    pub second: HostFile,
    /// Whether no other process can open them. If it is false, the user has to see to it.
    pub is_locked: bool,
}

/// Why the files of a store were not opened.
#[derive(Clone, Copy, Debug)]
pub enum HostError {
    /// There was no memory for what the files have.
    NoMemory,
    /// Another process, or another value in this one, has the store open.
    Locked,
    /// The file system has no locks.
    NoLocks(io::Error),
    /// At the path of the store is something else than a folder.
    NotAFolder,
    /// At the name of a file is something else than a regular file, or it was put there as the file was opened.
    NotAFile,
    /// A call of the system failed.
    Io(io::Error),
}

impl From<io::Error> for HostError {
    ghost from_gives = { λ _ e. is_no_lock e };

    fn from(error: io::Error) -> HostError {
        if error.kind() == ErrorKind::OutOfMemory {
            HostError::NoMemory
        } else {
            HostError::Io(error)
        }
    }
}

impl From<std::alloc::AllocError> for HostError {
    ghost from_gives = { λ _ e. is_no_lock e };

    fn from(_: std::alloc::AllocError) -> HostError {
        HostError::NoMemory
    }
}

impl Display for HostError {
    fn fmt<W: Write>(&self, f: &mut Formatter<W>) -> fmt::Result {
        match self {
            HostError::NoMemory => f.write_str("no memory"),
            HostError::Locked => f.write_str("the store is open elsewhere"),
            HostError::NoLocks(error) => write!(f, "the files cannot be locked: {error}"),
            HostError::NotAFolder => f.write_str("the path of the store is not a folder"),
            HostError::NotAFile => f.write_str("a file of the store is not a regular file"),
            HostError::Io(error) => write!(f, "{error}"),
        }
    }
}

impl std::error::Error for HostError {}

/// Opens the files `log.0` and `log.1` in the folder of this path, and syncs all that each of them has. A folder is made in one that is
/// there. What is made is on the disk with its name. A refusal may leave a folder or files that were made.
///
/// Refused with `Locked` if a file is open elsewhere, and with `NoLocks` if the file system has no locks and they are needed; with
/// `NotAFolder` or `NotAFile` if something else is at the path or at the name of a file; with `NoMemory`; and with `Io` as the system
/// refused a call, of the kind `NotFound` if something is not there and is not to be made. Of these causes a clause says only that
/// `NoLocks` comes if locks are needed.
///
/// ```
/// let pair = open_pair(&rt, "people.db", Opening { creates: true, needs_lock: true })?;
/// ```
pub fn open_pair(rt: &HostRuntime, path: &str, opening: Opening) -> Result<Pair, HostError>
    ensures first { IfOk result (λ pair. Only (bytes_of pair.first) (outcomes_of pair.first)) }
    ensures second { IfOk result (λ pair. Only (bytes_of pair.second) (outcomes_of pair.second)) }
    ensures unfailing { IfOk result (λ pair. (faults_of pair.first ≡ 0) × (faults_of pair.second ≡ 0)) }
    // They are as they were found, and locked if `is_locked` says so; else the system answered that it cannot lock one. If none is to be
    // made, both were there.
    ensures pair { IfOk result (λ pair. OpensPair opening pair.first pair.second pair.is_locked) }
    ensures err { IfErr result (is_why_unpaired opening) }
{
    let is_new = opening.creates && make_folder(rt, path)?;
    let folder = folder_at(rt, path)?;
    let pair = open_both(rt, &folder, opening)?;
    sync_names(rt, folder, is_new)?;
    Ok(pair)
}

// Both files of a folder, opened and locked.
fn open_both(rt: &HostRuntime, folder: &PathBuf, opening: Opening) -> Result<Pair, HostError>
    ensures first { IfOk result (λ pair. Only (bytes_of pair.first) (outcomes_of pair.first)) }
    ensures second { IfOk result (λ pair. Only (bytes_of pair.second) (outcomes_of pair.second)) }
    ensures unfailing { IfOk result (λ pair. (faults_of pair.first ≡ 0) × (faults_of pair.second ≡ 0)) }
    ensures pair { IfOk result (λ pair. OpensPair opening pair.first pair.second pair.is_locked) }
    ensures err { IfErr result (is_why_unpaired opening) }
{
    let (first, is_first_locked) = open_file(rt, folder, FIRST, opening)?;
    let (second, is_second_locked) = open_file(rt, folder, SECOND, opening)?;
    Ok(Pair {
        first,
        second,
        is_locked: is_first_locked && is_second_locked,
    })
}

// Makes a folder, and says whether there was nothing at the path.
fn make_folder(rt: &HostRuntime, path: &str) -> io::Result<bool> {
    match fs::create_dir(rt, path) {
        Ok(()) => Ok(true),
        Err(error) if error.kind() == ErrorKind::AlreadyExists => Ok(false),
        Err(error) => Err(error),
    }
}

// The folder of a path, with no link in it.
fn folder_at(rt: &HostRuntime, path: &str) -> Result<PathBuf, HostError>
    ensures { IfErr result is_no_lock }
{
    if fs::metadata(rt, path)?.is_dir() {
        Ok(fs::canonicalize(rt, path)?)
    } else {
        Err(HostError::NotAFolder)
    }
}

// A file of a folder, opened and locked, and whether it could be locked.
fn open_file(
    rt: &HostRuntime,
    folder: &PathBuf,
    name: &str,
    opening: Opening,
) -> Result<(HostFile, bool), HostError>
    ensures durable { IfOk result (λ it. Only (bytes_of it.0) (outcomes_of it.0)) }
    ensures unfailing { IfOk result (λ it. faults_of it.0 ≡ 0) }
    ensures untouched { IfOk result (λ it. IsUntouched it.0) }
    ensures found { IfOk result (λ it. opening.creates ≡ false → WasThere it.0) }
    ensures locked { IfOk result (λ it. it.1 ≡ was_locked it.0) }
    ensures unlocked { IfOk result (λ it. it.1 ≡ false → HasNoLocks it.0) }
    ensures needed { IfOk result (λ it. opening.needs_lock ≡ true → it.1 ≡ true) }
    ensures err { IfErr result (is_why_unpaired opening) }
{
    let path = folder.join(rt.alloc(), name)?;
    let mut file = open_or_make(rt, path.as_str(), opening.creates)?;
    let is_locked = lock(&mut file, opening.needs_lock)?;
    if !file.is_named(rt, path.as_str())? {
        return Err(HostError::NotAFile);
    }
    Ok((HostFile::settle(rt.alloc(), file)?, is_locked))
}

// A regular file, which is made if nothing is at the path and that is wanted.
fn open_or_make(rt: &HostRuntime, path: &str, creates: bool) -> Result<OpenFile, HostError>
    ensures found { IfOk result (λ it. creates ≡ false → it.is_new ≡ false) }
    ensures err { IfErr result is_no_lock }
{
    match open_new(rt, path, creates)? {
        Some(file) => Ok(file),
        None => open_old(rt, path),
    }
}

// A new file, unless something is at the path or none is to be made.
fn open_new(rt: &HostRuntime, path: &str, creates: bool) -> io::Result<Option<OpenFile>>
    ensures { IfOk result (λ made. IfSome made (λ _. creates ≡ true)) }
{
    if !creates {
        return Ok(None);
    }
    OpenFile::make(rt, path)
}

// The file that is at the path. A link, a pipe or a device is not opened.
fn open_old(rt: &HostRuntime, path: &str) -> Result<OpenFile, HostError>
    ensures found { IfOk result (λ it. it.is_new ≡ false) }
    ensures err { IfErr result is_no_lock }
{
    if !fs::symlink_metadata(rt, path)?.is_file() {
        return Err(HostError::NotAFile);
    }
    Ok(OpenFile::open(rt, path)?)
}

// Locks a file for as long as it is open, and says whether that could be done.
fn lock(file: &mut OpenFile, needs_lock: bool) -> Result<bool, HostError>
    ensures ok { IfOk result (λ is_locked. (is_locked ≡ is_held file.new.lock) × (needs_lock ≡ true → is_locked ≡ true)) }
    ensures unlocked { IfOk result (λ is_locked. is_locked ≡ false → file.new.lock ≡ Unavailable) }
    ensures same { file.new.is_new ≡ file.old.is_new }
    ensures why { IfErr result (is_why_unlocked file.new.lock) }
    ensures err { IfErr result (λ e. (opening : Opening) → opening.needs_lock ≡ needs_lock → is_why_unpaired opening e) }
{
    match file.lock() {
        Ok(()) => Ok(true),
        Err(TryLockError::WouldBlock) => Err(HostError::Locked),
        Err(TryLockError::Error(error)) => {
            if needs_lock {
                Err(HostError::NoLocks(error))
            } else {
                Ok(false)
            }
        }
    }
}

// Syncs the names of the files, and that of the folder.
fn sync_names(rt: &HostRuntime, folder: PathBuf, is_new: bool) -> io::Result<()> {
    sync_folder(rt, folder.as_str())?;
    sync_parent(rt, folder, is_new)
}

fn sync_folder(rt: &HostRuntime, path: &str) -> io::Result<()> {
    File::open(rt, path)?.sync_all()
}

// Syncs the name of a folder. One that was there may be in a folder that this process cannot read.
fn sync_parent(rt: &HostRuntime, mut folder: PathBuf, is_new: bool) -> io::Result<()> {
    if !folder.pop() {
        return Ok(());
    }
    match sync_folder(rt, folder.as_str()) {
        Err(error) if !is_new && error.kind() == ErrorKind::PermissionDenied => Ok(()),
        outcome => outcome,
    }
}
